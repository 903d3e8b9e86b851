//! The words of the command line, the fault lines and the exit statuses.

use crate::command_line::{Order, Serving, parse_words, unrun_status};
use crate::fault::RunFault;
use clap::error::ErrorKind;
use std::alloc::{AllocError, Global};
use std::net::SocketAddr;
use std::process::Abort;
use std::test::Fail;

/// What the words after the program's name ask for, or why they ask for nothing to be run.
fn asked(alloc: Global, words: &[&str]) -> Result<Result<Order, ErrorKind>, Fail> {
    let mut line = Vec::new(alloc);
    line.push(String::from_str(alloc, "mainframe")?)?;
    for word in words {
        line.push(String::from_str(alloc, word)?)?;
    }
    match parse_words(alloc, line.as_slice()) {
        Ok(order) => Ok(Ok(order)),
        Err(error) => Ok(Err(error.kind())),
    }
}

/// These words ask for that.
fn check_asked(rt: &impl Abort, alloc: Global, words: &[&str], order: Order) -> Result<(), Fail> {
    assert_eq!(rt; asked(alloc, words)?, Ok(order));
    Ok(())
}

#[test]
fn a_run_with_a_fuse_and_without(rt: HostRuntime) -> Result<(), Fail> {
    check_asked(&rt, rt.alloc(), &["run"], Order::Run(None))?;
    check_asked(
        &rt,
        rt.alloc(),
        &["run", "--fuse", "1"],
        Order::Run(Some(1)),
    )?;
    let most = Order::Run(Some(1_000_000));
    check_asked(&rt, rt.alloc(), &["run", "--fuse", "1000000"], most)
}

/// To serve at this port of this machine alone, for ever, and to say nothing of it.
fn at(port: u16) -> Order {
    let serving = Serving {
        address: None,
        port,
        until_end_of_input: false,
        is_logged: false,
    };
    Order::Serve(serving, None)
}

#[test]
fn a_port_and_the_usual_one(rt: HostRuntime) -> Result<(), Fail> {
    check_asked(&rt, rt.alloc(), &["serve"], at(4880))?;
    check_asked(&rt, rt.alloc(), &["serve", "--port", "1"], at(1))?;
    check_asked(&rt, rt.alloc(), &["serve", "--port", "65535"], at(65_535))
}

/// These words are refused with status 2.
fn check_refused(
    rt: &impl Abort,
    alloc: Global,
    words: &[&str],
    kind: ErrorKind,
) -> Result<(), Fail> {
    assert_eq!(rt; asked(alloc, words)?, Err(kind));
    assert_eq!(rt; unrun_status(kind), 2);
    Ok(())
}

#[test]
fn a_fuse_out_of_range(rt: HostRuntime) -> Result<(), Fail> {
    let range = ErrorKind::ValueValidation;
    check_refused(&rt, rt.alloc(), &["run", "--fuse", "0"], range)?;
    check_refused(&rt, rt.alloc(), &["run", "--fuse", "1000001"], range)?;
    check_refused(&rt, rt.alloc(), &["run", "--fuse", "two"], range)
}

#[test]
fn a_port_out_of_range(rt: HostRuntime) -> Result<(), Fail> {
    let range = ErrorKind::ValueValidation;
    check_refused(&rt, rt.alloc(), &["serve", "--port", "0"], range)?;
    check_refused(&rt, rt.alloc(), &["serve", "--port", "65536"], range)?;
    check_refused(&rt, rt.alloc(), &["serve", "--port", "hislip"], range)
}

/// The address that is bound where this is asked for.
fn bound_at(order: &Result<Order, ErrorKind>) -> Option<SocketAddr> {
    match order {
        Ok(Order::Serve(serving, _)) => Some(serving.bound_at()),
        _ => None,
    }
}

/// Whether this address is bound where these words ask for it.
fn is_bound(alloc: Global, words: &[&str], bound: &str) -> Result<bool, Fail> {
    let order = asked(alloc, words)?;
    let at = bound_at(&order);
    drop(order);
    match (at, bound.parse::<SocketAddr>()) {
        (Some(at), Ok(bound)) => Ok(at == bound),
        _ => Ok(false),
    }
}

#[test]
fn addresses(rt: HostRuntime) -> Result<(), Fail> {
    let alloc = rt.alloc();
    let all = ["serve", "--address", "0.0.0.0", "--port", "1"];
    let six = ["serve", "--address", "::1"];
    assert!(rt; is_bound(alloc, &["serve"], "127.0.0.1:4880")?);
    assert!(rt; is_bound(alloc, &all, "0.0.0.0:1")?);
    assert!(rt; is_bound(alloc, &six, "[::1]:4880")?);
    let none = ErrorKind::ValueValidation;
    check_refused(&rt, rt.alloc(), &["serve", "--address", "localhost"], none)?;
    check_refused(
        &rt,
        rt.alloc(),
        &["serve", "--address", "127.0.0.1:80"],
        none,
    )
}

#[test]
fn an_end_and_a_log(rt: HostRuntime) -> Result<(), Fail> {
    let wanted = Serving {
        address: None,
        port: 4880,
        until_end_of_input: true,
        is_logged: true,
    };
    let both = ["serve", "--until-end-of-input", "--log"];
    check_asked(&rt, rt.alloc(), &both, Order::Serve(wanted, None))
}

/// The name of a file.
fn file(alloc: Global) -> Result<String, AllocError> {
    String::from_str(alloc, "F")
}

#[test]
fn a_rack(rt: HostRuntime) -> Result<(), Fail> {
    let alloc = rt.alloc();
    let run = Order::RunRack(file(alloc)?);
    check_asked(&rt, alloc, &["run", "--rack", "F"], run)?;
    let check = Order::Check(Some(file(alloc)?));
    check_asked(&rt, alloc, &["check", "--rack", "F"], check)?;
    let rack = Order::Rack(file(alloc)?);
    check_asked(&rt, alloc, &["rack", "F"], rack)?;
    let off = Order::Off(file(alloc)?);
    check_asked(&rt, alloc, &["off", "--rack", "F"], off)?;
    check_refused(&rt, alloc, &["rack"], ErrorKind::MissingRequiredArgument)?;
    check_refused(&rt, alloc, &["off"], ErrorKind::MissingRequiredArgument)?;
    let both = ["run", "--fuse", "1", "--rack", "F"];
    check_refused(&rt, alloc, &both, ErrorKind::ArgumentConflict)?;
    let both = ["run", "--program", "F", "--rack", "F"];
    check_refused(&rt, alloc, &both, ErrorKind::ArgumentConflict)
}

#[test]
fn a_scan_program(rt: HostRuntime) -> Result<(), Fail> {
    let alloc = rt.alloc();
    let plain = Order::Program(None, file(alloc)?);
    check_asked(&rt, alloc, &["run", "--program", "F"], plain)?;
    let fused = Order::Program(Some(1), file(alloc)?);
    let words = ["run", "--fuse", "1", "--program", "F"];
    check_asked(&rt, alloc, &words, fused)
}

#[test]
fn a_subcommand_that_is_none(rt: HostRuntime) -> Result<(), Fail> {
    check_refused(&rt, rt.alloc(), &[], ErrorKind::MissingSubcommand)?;
    check_refused(&rt, rt.alloc(), &["walk"], ErrorKind::InvalidSubcommand)
}

#[test]
fn help_and_version(rt: HostRuntime) -> Result<(), Fail> {
    assert_eq!(rt;
        asked(rt.alloc(), &["--help"])?,
        Err(ErrorKind::DisplayHelp)
    );
    assert_eq!(rt;
        asked(rt.alloc(), &["--version"])?,
        Err(ErrorKind::DisplayVersion)
    );
    assert_eq!(rt; unrun_status(ErrorKind::DisplayHelp), 0);
    assert_eq!(rt; unrun_status(ErrorKind::DisplayVersion), 0);
    assert_eq!(rt; unrun_status(ErrorKind::OutOfMemory), 1);
    Ok(())
}

/// The line and the status of a fault.
fn check_fault(rt: &impl Abort, alloc: Global, fault: RunFault, text: &str) -> Result<(), Fail> {
    let line = fault.to_string(alloc)?;
    assert_eq!(rt; line.as_str(), text);
    assert_eq!(rt; fault.status(), 1);
    Ok(())
}

#[test]
fn faults_have_a_line_and_a_status(rt: HostRuntime) -> Result<(), Fail> {
    check_fault(&rt, rt.alloc(), RunFault::Input, "mainframe: input failed")?;
    check_fault(
        &rt,
        rt.alloc(),
        RunFault::Output,
        "mainframe: output failed",
    )?;
    check_fault(
        &rt,
        rt.alloc(),
        RunFault::Memory,
        "mainframe: out of memory",
    )?;
    check_fault(
        &rt,
        rt.alloc(),
        RunFault::Listen,
        "mainframe: cannot listen",
    )
}
