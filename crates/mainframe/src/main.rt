//! `mainframe`: a SCPI switch mainframe of simulated cards, driven by lines of text or over a network.
//!
//! `mainframe run [--fuse K] [--program FILE]` answers each line of standard input on standard output. The crate's
//! contract is that of `run::run_lines`, with FILE of `run::run_program_lines`: what is written is what the definition
//! of a talk says of what was read, by the step relation of the core from its opening state. `mainframe check` says of
//! a listing whether the program's cards may do its scan; its contract is that of `listing::check_listing`.
//! `mainframe serve` serves sessions over TCP at the address and the port that `Serving::bound_at` gives; its contract
//! is that of `serving::serve_on`: how many connections it takes; and of `sw_serve::serve_cards`: which cards come out
//! of their slots at the end, each of them open.
//!
//! Nothing is promised of what a terminal or a network carries, nor of the texts of `clap`.
#![tactic(auto)]

mod cards;
mod command_line;
mod descriptors;
mod error_log;
mod fault;
mod host_link;
mod laws;
mod listing;
mod loading;
mod rack_cards;
mod rack_fault;
mod rack_lines;
mod rack_text;
mod racks;
mod reading;
mod run;
mod serving;
#[cfg(test)]
mod tests;
mod whole;
mod writing;

use clap::error::ErrorKind;
use command_line::{Order, Serving, Unrun, parse_words, unrun_status};
use descriptors::are_open;
use error_log::ErrorLog;
use fault::RunFault;
use listing::{check_listing, program_layout};
use loading::{LoadFault, program_of};
use rack_cards::rack_layout;
use racks::{cards_in, ended, rack_in, switch_off, tell_rack};
use run::{run_lines, run_over, run_program_lines};
use serving::{serve_by, serve_on};
use std::alloc::{AllocError, Global};
use std::io::{BufReader, Input, Read};
use std::net::{Net, SocketAddr, TcpListener, TcpStream};
use std::os::fd::AsRawFd;
use std::process::ExitCode;
use std::sync::Wait;
use std::thread::Threads;
use std::time::Clock;
use std::{fs, io};
use sw_base::Boxed;
use sw_card::{Meter, Relay};
use sw_serve::{SlotCard, TcpPort};
use sw_verify::{Layout, ScanProgram};
use whole::read_whole;

fn main(rt: HostRuntime) -> ExitCode {
    let Ok(words) = std::env::args(&rt) else {
        return stopped(&rt, RunFault::Memory);
    };
    let collected: Result<Vec<String>, AllocError> = words.collect(rt.alloc());
    let Ok(words) = collected else {
        return stopped(&rt, RunFault::Memory);
    };
    match parse_words(rt.alloc(), words.as_slice()) {
        Ok(Order::Run(fuse)) => answer_input(&rt, fuse),
        Ok(Order::Program(fuse, path)) => answer_with_program(&rt, fuse, &path),
        Ok(Order::RunRack(path)) => run_rack(&rt, path.as_str()),
        Ok(Order::Check(None)) => check_input(&rt, program_layout(rt.alloc())),
        Ok(Order::Check(Some(path))) => check_by_rack(&rt, path.as_str()),
        Ok(Order::Serve(serving, None)) => serve_simulated(rt, &rt, serving),
        Ok(Order::Serve(serving, Some(path))) => serve_rack(rt, &rt, serving, path.as_str()),
        Ok(Order::Rack(path)) => tell_rack(&rt, path.as_str()),
        Ok(Order::Off(path)) => switch_off(&rt, path.as_str()),
        Err(why) => unrun(&rt, &why),
    }
}

/// Answers standard input on standard output.
fn answer_input(rt: &HostRuntime, fuse: Option<u32>) -> ExitCode {
    let Ok(mut reader) = BufReader::new(rt.alloc(), rt.reader()) else {
        return stopped(rt, RunFault::Memory);
    };
    let mut writer = io::writer(rt);
    done(rt, run_lines(rt.alloc(), &mut reader, &mut writer, fuse))
}

/// Answers standard input on standard output, with the scan program that a file lists. Where it lists none, standard
/// error says why, and the status is 3.
fn answer_with_program(rt: &HostRuntime, fuse: Option<u32>, path: &str) -> ExitCode {
    let program = match program_in(rt, path) {
        Ok(program) => program,
        Err(LoadFault::File) => {
            let _ = eprintln!(rt; "mainframe: cannot open the program's file");
            return ExitCode::FAILURE;
        }
        Err(LoadFault::Run(fault)) => return stopped(rt, fault),
        Err(LoadFault::Listing(why)) => {
            let _ = eprintln!(rt; "{why}");
            return ExitCode::from(3);
        }
    };
    let Ok(mut reader) = BufReader::new(rt.alloc(), rt.reader()) else {
        return stopped(rt, RunFault::Memory);
    };
    let mut writer = io::writer(rt);
    done(
        rt,
        run_program_lines(rt.alloc(), &mut reader, &mut writer, fuse, program),
    )
}

/// The scan program that a file lists.
fn program_in(rt: &HostRuntime, path: &str) -> Result<Boxed<ScanProgram>, LoadFault> {
    let Ok(mut file) = fs::open(rt, path) else {
        return Err(LoadFault::File);
    };
    let text = read_whole(rt.alloc(), &mut file)?;
    program_of(rt.alloc(), &text)
}

/// Answers standard input on standard output, by the cards of this file's rack.
fn run_rack(rt: &HostRuntime, path: &str) -> ExitCode {
    let (cards, interlock) = match cards_in(rt, path) {
        Ok(found) => found,
        Err(status) => return status,
    };
    let Ok(mut reader) = BufReader::new(rt.alloc(), rt.reader()) else {
        return stopped(rt, RunFault::Memory);
    };
    let mut writer = io::writer(rt);
    let status = done(rt, run_over(rt.alloc(), &mut reader, &mut writer, cards));
    ended(rt, &interlock, status)
}

/// Checks standard input against the cards of this file's rack.
fn check_by_rack(rt: &HostRuntime, path: &str) -> ExitCode {
    match rack_in(rt, rt.alloc(), path) {
        Ok(rack) => check_input(rt, rack_layout(rt.alloc(), &rack)),
        Err(status) => status,
    }
}

/// Says of the listing on standard input whether these cards may do it, and on standard error why not.
fn check_input(rt: &HostRuntime, layout: Result<Layout, AllocError>) -> ExitCode {
    let Ok(layout) = layout else {
        return stopped(rt, RunFault::Memory);
    };
    let mut writer = io::writer(rt);
    let checked = match check_listing(rt.alloc(), &mut rt.reader(), &mut writer, &layout) {
        Ok(checked) => checked,
        Err(fault) => return stopped(rt, fault),
    };
    if let Some(remark) = &checked.remark {
        let _ = eprintln!(rt; "{remark}");
    }
    ExitCode::from(checked.status())
}

/// Serves connections by the simulated cards.
fn serve_simulated<
    W: Threads
        + Wait
        + Clock
        + Eprint
        + Net<Listener = TcpListener, Stream = TcpStream>
        + Copy
        + Drop
        + Send
        + Sync
        + 'static,
>(rt: W, host: &HostRuntime, serving: Serving) -> ExitCode {
    let alloc = host.alloc();
    let listener = match listen(&rt, serving) {
        Ok(listener) => listener,
        Err(status) => return status,
    };
    let log = log_of(rt, alloc, serving);
    let mut connections = TcpPort::new(rt, alloc, &listener, input_of(host, serving), log);
    done(&rt, serve_on(rt, alloc, &mut connections, u32::MAX, log))
}

/// Serves connections by the cards of this file's rack.
fn serve_rack<
    W: Threads
        + Wait
        + Clock
        + Eprint
        + Net<Listener = TcpListener, Stream = TcpStream>
        + Copy
        + Drop
        + Send
        + Sync
        + 'static,
>(rt: W, host: &HostRuntime, serving: Serving, path: &str) -> ExitCode {
    match cards_in(host, path) {
        Ok((cards, interlock)) => {
            let status = serve_over(rt, host.alloc(), serving, input_of(host, serving), cards);
            ended(&rt, &interlock, status)
        }
        Err(status) => status,
    }
}

/// Serves connections by these cards.
fn serve_over<
    W: Threads
        + Wait
        + Clock
        + Eprint
        + Net<Listener = TcpListener, Stream = TcpStream>
        + Copy
        + Drop
        + Send
        + Sync
        + 'static,
    I: Read + AsRawFd + Drop,
    R: Relay + Send + 'static,
    M: Meter + Send + 'static,
>(
    rt: W,
    alloc: Global,
    serving: Serving,
    input: Option<I>,
    cards: Vec<SlotCard<R, M>>,
) -> ExitCode {
    let listener = match listen(&rt, serving) {
        Ok(listener) => listener,
        Err(status) => return status,
    };
    let log = log_of(rt, alloc, serving);
    let mut connections = TcpPort::new(rt, alloc, &listener, input, log);
    done(
        &rt,
        serve_by(rt, alloc, &mut connections, u32::MAX, cards, log),
    )
}

/// Standard input, where it is served until that ends.
fn input_of<W: Input>(rt: &W, serving: Serving) -> Option<W::Reader> {
    if serving.until_end_of_input {
        Some(rt.reader())
    } else {
        None
    }
}

/// Where connections are told of.
fn log_of<W: Eprint + Copy + Drop>(rt: W, alloc: Global, serving: Serving) -> ErrorLog<W> {
    ErrorLog {
        rt,
        alloc,
        is_on: serving.is_logged,
    }
}

/// Listens at an address and a port, and says so; or the status to end with, the cause being told.
fn listen<W: Eprint + Net<Listener = TcpListener, Stream = TcpStream>>(
    rt: &W,
    serving: Serving,
) -> Result<TcpListener, ExitCode> {
    if !are_open() {
        return Err(stopped(rt, RunFault::Descriptors));
    }
    let at = serving.bound_at();
    match TcpListener::bind(rt, at) {
        Ok(listener) => {
            let _ = eprintln!(rt; "mainframe: listening on {at}");
            Ok(listener)
        }
        Err(error) => Err(unbound(rt, at, &error)),
    }
}

/// Says that no connection can be taken, and where, and why.
fn unbound(rt: &impl Eprint, at: SocketAddr, error: &io::Error) -> ExitCode {
    let status = stopped(rt, RunFault::Listen);
    let _ = eprintln!(rt; "mainframe: {at}: {error}");
    status
}

/// The status at the end.
fn done(rt: &impl Eprint, ran: Result<(), RunFault>) -> ExitCode {
    match ran {
        Ok(()) => ExitCode::SUCCESS,
        Err(fault) => stopped(rt, fault),
    }
}

/// One line on standard error, and the fault's status.
fn stopped(rt: &impl Eprint, fault: RunFault) -> ExitCode {
    let _ = eprintln!(rt; "{fault}");
    ExitCode::from(fault.status())
}

/// What is said where nothing is run, and its status.
fn unrun(rt: &HostRuntime, why: &Unrun) -> ExitCode {
    let kind = why.kind();
    if kind == ErrorKind::OutOfMemory {
        return stopped(rt, RunFault::Memory);
    }
    match why {
        Unrun::Words(error) => {
            let _ = error.print(rt);
        }
        Unrun::Memory => {}
        Unrun::Address => {
            let _ = eprintln!(rt;
                "error: --address <ADDRESS> takes an IPv4 or IPv6 address\n\nFor more information, try '--help'."
            );
        }
    }
    ExitCode::from(unrun_status(kind))
}
