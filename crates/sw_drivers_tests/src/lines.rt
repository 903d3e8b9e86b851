//! Boards that obey lines: what is sent, and which answers are taken.

use crate::script::{Deaf, Record, Script};
use std::alloc::{AllocError, Global};
use std::sync::Wait;
use std::test::Fail;
use sw_drivers::{Board, Command, Commands, DriverFault, Interlock, Kept, LineBoard};
use sw_kinds::Driver;

fn text(alloc: Global, bytes: &[u8]) -> Result<Vec<u8>, AllocError> {
    let mut text = Vec::new(alloc);
    text.extend_from_slice(bytes)?;
    Ok(text)
}

fn one(alloc: Global, sent: &[u8], end: &[u8], wanted: &[u8]) -> Result<Vec<Command>, AllocError> {
    let mut commands = Vec::new(alloc);
    commands.push(Command {
        sent: text(alloc, sent)?,
        end: text(alloc, end)?,
        wanted: text(alloc, wanted)?,
    })?;
    Ok(commands)
}

/// A board of one channel that answers by lines, and answers its channel's state. One line sets it up; it doesn't
/// answer that one.
fn telling(alloc: Global) -> Result<Commands, AllocError> {
    let mut setup = Vec::new(alloc);
    setup.push(text(alloc, b"*RST\n")?)?;
    Ok(Commands {
        setup,
        on: one(alloc, b"on 1\n", b"\n", b"ok")?,
        off: one(alloc, b"off 1\n", b"\n", b"ok")?,
        clear: one(alloc, b"off\n", b"\n", b"ok")?,
        is_on: one(alloc, b"? 1\n", b"\n", b"1")?,
        is_off: one(alloc, b"? 1\n", b"\n", b"0")?,
    })
}

/// A board of one channel that answers by lines, but not its channel's state.
fn mute(alloc: Global) -> Result<Commands, AllocError> {
    Ok(Commands {
        setup: Vec::new(alloc),
        on: one(alloc, b"relay on 0\r", b">", b"")?,
        off: one(alloc, b"relay off 0\r", b">", b"")?,
        clear: one(alloc, b"relay writeall 0\r", b">", b"")?,
        is_on: Vec::new(alloc),
        is_off: Vec::new(alloc),
    })
}

/// Whether the channel is switched on where the board answers so, and these lines were sent then.
fn switches<W: Wait + Copy + Drop>(
    rt: W,
    alloc: Global,
    answer: &[u8],
    state: &[u8],
    sent: &[u8],
) -> Option<bool> {
    let record = Record::new(rt, alloc).ok()?;
    let interlock = Interlock::new(alloc).ok()?;
    let answers = &[b"", b"ok\n".as_slice(), b"0\n".as_slice(), answer, state];
    let script = Script::new(alloc, record.same().ok()?, answers).ok()?;
    let board = LineBoard::new(script, telling(alloc).ok()?);
    let mut driver = Kept::new(board, 1, interlock, Deaf).ok()?;
    let is_begun = record.took(b"!*RST\noff\n? 1\n");
    let is_switched = driver.drive(1, true).is_ok();
    if is_begun && record.took(sent) {
        Some(is_switched)
    } else {
        None
    }
}

#[test]
fn a_line_is_obeyed_and_asked_back(rt: HostRuntime) -> Result<(), Fail> {
    let is_on = switches(rt, rt.alloc(), b"ok, 1\n", b"1\n", b"on 1\n? 1\n");
    assert_eq!(rt; is_on, Some(true));
    let is_on = switches(rt, rt.alloc(), b"ok\n", b"0\n", b"on 1\n? 1\n.");
    assert_eq!(rt; is_on, Some(false));
    let is_on = switches(rt, rt.alloc(), b"ok\n", b"1", b"on 1\n? 1\n.");
    assert_eq!(rt; is_on, Some(false));
    let is_on = switches(rt, rt.alloc(), b"no\n", b"1\n", b"on 1\n.");
    assert_eq!(rt; is_on, Some(false));
    let is_on = switches(rt, rt.alloc(), b"", b"1\n", b"on 1\n.");
    assert_eq!(rt; is_on, Some(false));
    Ok(())
}

/// What reaching a board gives that answers its state's query so, where exactly these bytes were sent.
fn reaches<W: Wait + Copy + Drop>(
    rt: W,
    alloc: Global,
    commands: Commands,
    state: &[u8],
    sent: &[u8],
) -> Option<Result<(), DriverFault>> {
    let record = Record::new(rt, alloc).ok()?;
    let script = Script::new(alloc, record.same().ok()?, &[b"", state]).ok()?;
    let mut board = LineBoard::new(script, commands);
    let reached = board.reach();
    drop(board);
    if record.took(sent) {
        Some(reached)
    } else {
        None
    }
}

/// A driver reaches a board by its setup and its state's query, with the channel on or off; it switches nothing.
#[test]
fn a_board_is_reached_and_not_switched(rt: HostRuntime) -> Result<(), Fail> {
    let alloc = rt.alloc();
    for (state, sent, reached) in [
        (b"1\n".as_slice(), b"!*RST\n? 1\n".as_slice(), Ok(())),
        (b"0\n".as_slice(), b"!*RST\n? 1\n".as_slice(), Ok(())),
        (
            b"what\n".as_slice(),
            b"!*RST\n? 1\n.".as_slice(),
            Err(DriverFault::Unwanted),
        ),
        (
            b"".as_slice(),
            b"!*RST\n? 1\n.".as_slice(),
            Err(DriverFault::TimedOut),
        ),
    ] {
        let found = reaches(rt, alloc, telling(alloc)?, state, sent);
        assert_eq!(rt; found, Some(reached));
    }
    let found = reaches(rt, alloc, mute(alloc)?, b"", b"!");
    assert_eq!(rt; found, Some(Ok(())));
    Ok(())
}

/// The other side ends the connection while it is idle: the driver reaches a board that answers its states anew, sets
/// it up again, and compares it with the account before it switches it.
fn switches_anew<W: Wait + Copy + Drop>(rt: W, alloc: Global, state: &[u8]) -> Option<bool> {
    let record = Record::new(rt, alloc).ok()?;
    let interlock = Interlock::new(alloc).ok()?;
    let answers = &[b"", b"ok\n".as_slice(), b"0\n", b"", state, b"ok\n", b"1\n"];
    let script = Script::new(alloc, record.same().ok()?, answers).ok()?;
    let board = LineBoard::new(script.ended_after(3), telling(alloc).ok()?);
    let mut driver = Kept::new(board, 1, interlock, Deaf).ok()?;
    let is_begun = record.took(b"!*RST\noff\n? 1\n");
    let is_on = driver.drive(1, true).is_ok();
    let is_sent = if is_on {
        record.took(b"!*RST\n? 1\non 1\n? 1\n")
    } else {
        record.took(b"!*RST\n? 1\n.")
    };
    if is_begun && is_sent {
        Some(is_on)
    } else {
        None
    }
}

#[test]
fn a_board_that_tells_is_reached_anew(rt: HostRuntime) -> Result<(), Fail> {
    let is_on = switches_anew(rt, rt.alloc(), b"0\n");
    assert_eq!(rt; is_on, Some(true));
    let is_on = switches_anew(rt, rt.alloc(), b"1\n");
    assert_eq!(rt; is_on, Some(false));
    Ok(())
}

/// One that doesn't answer its state may have lost its supply meanwhile: its next call fails, with nothing sent, and
/// the cut that follows reaches it anew.
fn fails_once<W: Wait + Copy + Drop>(rt: W, alloc: Global) -> Option<bool> {
    let record = Record::new(rt, alloc).ok()?;
    let interlock = Interlock::new(alloc).ok()?;
    let answers = &[b"\n\r>".as_slice(), b"\n\r>", b"\n\r>", b"\n\r>"];
    let script = Script::new(alloc, record.same().ok()?, answers).ok()?;
    let board = LineBoard::new(script.ended_after(2), mute(alloc).ok()?);
    let mut driver = Kept::new(board, 1, interlock, Deaf).ok()?;
    let is_on = driver.drive(1, true).is_ok();
    let is_begun = record.took(b"!relay writeall 0\rrelay on 0\r");
    let is_refused = driver.drive(1, false).is_err() && record.took(b".");
    driver.cut();
    let is_cut = record.took(b"!relay writeall 0\r");
    let is_again = driver.drive(1, true).is_ok() && record.took(b"relay on 0\r");
    Some(is_on && is_begun && is_refused && is_cut && is_again)
}

#[test]
fn a_board_that_tells_nothing_fails_once(rt: HostRuntime) -> Result<(), Fail> {
    let is_so = fails_once(rt, rt.alloc());
    assert_eq!(rt; is_so, Some(true));
    Ok(())
}
