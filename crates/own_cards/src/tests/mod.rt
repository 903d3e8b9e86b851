//! What the relays get, what a line that fails means, and what is said of cards that are wired wrongly.

use crate::fault::Fault;
use crate::line_driver::LineDriver;
use crate::line_source::LineSource;
use crate::uses::answer;
use std::alloc::Global;
use std::io::{self, ErrorKind, Write};
use std::sync::{Arc, Mutex, Wait};
use std::test::Fail;
use sw_kinds::{Matrix, Volt};
use sw_serve::SlotCard;

/// Keeps the lines that it takes. Channel 4 is out of order: what is to be said of it can't be sent.
#[derive(Drop)]
struct Wire<W: Wait + Copy + Drop> {
    rt: W,
    taken: Arc<Mutex<Vec<u8>>, Global>,
}

impl<W: Wait + Copy + Drop> Write for Wire<W> {
    fn write(&mut self, bytes: &[u8]) -> io::Result<usize> {
        if bytes.contains(&b'4') {
            return Err(io::Error::from(ErrorKind::BrokenPipe));
        }
        self.taken.lock(&self.rt).extend_from_slice(bytes)?;
        Ok(bytes.len())
    }

    fn flush(&mut self) -> io::Result<()> {
        Ok(())
    }
}

/// What a matrix on a wire and a meter of three readings answer.
fn answered<W: Wait + Copy + Drop>(
    rt: W,
    alloc: Global,
    taken: Arc<Mutex<Vec<u8>>, Global>,
    typed: &[u8],
) -> Result<Vec<u8>, Fault> {
    let mut cards = Vec::new(alloc);
    let wire = Wire { rt, taken };
    cards.push(SlotCard::relays(1, Matrix::new(1, 16, LineDriver::new(1, wire))))?;
    let lines = b"7\nover\n-2000000000\n".as_slice();
    cards.push(SlotCard::meter(4, Volt::new(4, LineSource::new(alloc, lines))))?;
    let mut reader = typed;
    let mut told = Vec::new(alloc);
    answer(alloc, &mut reader, &mut told, cards)?;
    Ok(told)
}

/// Whether these lines are answered so, and the relays got that.
fn talks<W: Wait + Copy + Drop>(
    rt: W,
    alloc: Global,
    typed: &[u8],
    told: &[u8],
    sent: &[u8],
) -> Option<bool> {
    let taken = Arc::new(alloc, Mutex::new(Vec::new(alloc))).ok()?;
    let theirs = Arc::try_clone(&taken).ok()?;
    let answers = answered(rt, alloc, theirs, typed).ok()?;
    let is_sent = taken.lock(&rt).as_slice() == sent;
    Some(answers.as_slice() == told && is_sent)
}

#[test]
fn relays_obey_lines(rt: HostRuntime) -> Result<(), Fail> {
    let talked = talks(
        rt,
        rt.alloc(),
        b"ROUT:CLOS (@1!3,1!12);OPEN (@1!3)\nROUT:CLOS:STAT?\n",
        b"(@1!12)\n",
        b"1 off\n1 close 3\n1 close 12\n1 open 3\n1 off\n",
    );
    assert!(rt; talked == Some(true));
    Ok(())
}

#[test]
fn readings_come_by_lines(rt: HostRuntime) -> Result<(), Fail> {
    let talked = talks(
        rt,
        rt.alloc(),
        b"ROUT:SCAN (@1!1);:TRIG:COUN 3;:INIT;*OPC?;:FETC?\nINIT;*OPC?;:SYST:ERR?\n",
        b"1;0.000000007,9.9E+37,-2.000000000\n1;-240,\"Hardware error\"\n",
        b"1 off\n1 close 1\n1 open 1\n1 close 1\n1 open 1\n1 close 1\n1 open 1\n1 close 1\n1 off\n1 off\n",
    );
    assert!(rt; talked == Some(true));
    Ok(())
}

#[test]
fn a_line_that_fails_opens_everything(rt: HostRuntime) -> Result<(), Fail> {
    let talked = talks(
        rt,
        rt.alloc(),
        b"ROUT:CLOS (@1!3);CLOS (@1!4)\nSYST:ERR?\nROUT:CLOS:STAT?\n",
        b"-240,\"Hardware error\"\n(@)\n",
        b"1 off\n1 close 3\n1 close 1 off\n1 off\n",
    );
    assert!(rt; talked == Some(true));
    Ok(())
}

/// Whether a matrix for each of these slots is refused, with this line.
fn is_refused<W: Wait + Copy + Drop>(
    rt: W,
    alloc: Global,
    first: u8,
    second: u8,
    line: &str,
) -> Option<bool> {
    let taken = Arc::new(alloc, Mutex::new(Vec::new(alloc))).ok()?;
    let theirs = Arc::try_clone(&taken).ok()?;
    let one = LineDriver::new(1, Wire { rt, taken });
    let other = LineDriver::new(2, Wire { rt, taken: theirs });
    let mut cards = Vec::new(alloc);
    cards
        .push(SlotCard::relays(first, Matrix::new(1, 16, one)))
        .ok()?;
    cards
        .push(SlotCard::relays(second, Matrix::new(2, 16, other)))
        .ok()?;
    let lines = b"".as_slice();
    cards
        .push(SlotCard::meter(4, Volt::new(4, LineSource::new(alloc, lines))))
        .ok()?;
    let mut reader = b"*IDN?\n".as_slice();
    let mut told = Vec::new(alloc);
    let fault = answer(alloc, &mut reader, &mut told, cards).err()?;
    let text = format!(in alloc; "{fault}").ok()?;
    Some(text.as_str() == line && told.is_empty() && reader.len() == 6)
}

#[test]
fn a_card_that_is_refused_is_named(rt: HostRuntime) -> Result<(), Fail> {
    let alloc = rt.alloc();
    let is_there = "slot 2: a card is there already";
    assert!(rt; is_refused(rt, alloc, 2, 2, is_there) == Some(true));
    let is_outside = "slot 17: no such slot";
    assert!(rt; is_refused(rt, alloc, 1, 17, is_outside) == Some(true));
    Ok(())
}
