//! Readers and writers that fail, take little at a time, or look at what the other has.

use crate::fault::RunFault;
use crate::run::run_lines;
use std::alloc::Global;
use std::io;
use std::io::{BufReader, Cursor, ErrorKind, Read, Write};
use std::sync::Arc;
use std::sync::atomic::{AtomicU64, Ordering};
use std::test::Fail;

#[test]
fn reads_a_cursor(rt: HostRuntime) -> Result<(), Fail> {
    let mut reader = Cursor::new(b"*IDN?\n".as_slice());
    let mut out = Vec::new(rt.alloc());
    run_lines(rt.alloc(), &mut reader, &mut out, Some(1))?;
    assert_eq!(rt; out.as_slice(), b"OPENBENCH,SWM8,0,1.0\n".as_slice());
    Ok(())
}

/// Gives one line and the beginning of another, and fails from then on.
#[derive(Drop)]
struct Broken {
    given: bool,
}

impl Read for Broken {
    fn read(&mut self, buf: &mut [u8]) -> io::Result<usize> {
        if self.given || buf.len() < 8 {
            return Err(io::Error::from(ErrorKind::BrokenPipe));
        }
        self.given = true;
        buf[..8].copy_from_slice(b"*IDN?\n*I");
        Ok(8)
    }
}

#[test]
fn a_read_fails_in_a_line(rt: HostRuntime) -> Result<(), Fail> {
    let mut reader = BufReader::new(rt.alloc(), Broken { given: false })?;
    let mut out = Vec::new(rt.alloc());
    assert!(rt; run_lines(rt.alloc(), &mut reader, &mut out, None) == Err(RunFault::Input));
    assert_eq!(rt; out.as_slice(), b"OPENBENCH,SWM8,0,1.0\n".as_slice());
    Ok(())
}

/// Takes two bytes at a time, and none once it is full.
#[derive(Drop)]
struct Short {
    left: usize,
}

impl Write for Short {
    fn write(&mut self, buf: &[u8]) -> io::Result<usize> {
        let n = buf.len().min(self.left).min(2);
        self.left -= n;
        Ok(n)
    }

    fn flush(&mut self) -> io::Result<()> {
        Ok(())
    }
}

#[test]
fn a_write_takes_nothing(rt: HostRuntime) -> Result<(), Fail> {
    let mut writer = Short { left: 30 };
    let mut reader = b"*IDN?\n*IDN?\n*IDN?".as_slice();
    assert!(rt; run_lines(rt.alloc(), &mut reader, &mut writer, None) == Err(RunFault::Output));
    assert_eq!(rt; (writer.left, reader), (0, b"*IDN?".as_slice()));
    Ok(())
}

/// How many bytes a writer flushed.
#[derive(Drop)]
struct Tally {
    handed_on: AtomicU64,
}

/// Keeps what it takes to itself until it is flushed, and is interrupted at every second write.
#[derive(Drop)]
struct Keeper {
    kept: u64,
    is_ready: bool,
    tally: Arc<Tally, Global>,
}

impl Write for Keeper {
    fn write(&mut self, buf: &[u8]) -> io::Result<usize> {
        self.is_ready = !self.is_ready;
        if self.is_ready {
            return Err(io::Error::from(ErrorKind::Interrupted));
        }
        self.kept = self.kept.saturating_add(buf.len() as u64);
        Ok(buf.len())
    }

    fn flush(&mut self) -> io::Result<()> {
        self.tally.handed_on.store(self.kept, Ordering::SeqCst);
        Ok(())
    }
}

/// Gives a piece of a line at a time, and looks before each how much the writer has flushed by then. It fails where
/// that is not what the lines before have answered. It is interrupted once.
#[derive(Drop)]
struct Looker {
    given: u8,
    was_interrupted: bool,
    tally: Arc<Tally, Global>,
}

/// What a looker gives, and how many bytes the lines before have answered.
fn piece(index: u8) -> Option<(&'static [u8], u64)> {
    match index {
        0 => Some((b"*IDN?\n", 0)),
        1 => Some((b"*WAI;*", 21)),
        2 => Some((b"OPC?\n;*OPC;", 21)),
        3 => Some((b"*IDN?\n", 23)),
        4 => Some((b"*TST?\n", 44)),
        _ => None,
    }
}

impl Read for Looker {
    fn read(&mut self, buf: &mut [u8]) -> io::Result<usize> {
        if !self.was_interrupted {
            self.was_interrupted = true;
            return Err(io::Error::from(ErrorKind::Interrupted));
        }
        let Some((bytes, answered)) = piece(self.given) else {
            return Ok(0);
        };
        if self.tally.handed_on.load(Ordering::SeqCst) != answered {
            return Err(io::Error::from(ErrorKind::BrokenPipe));
        }
        self.given = self.given.saturating_add(1);
        let taken = bytes.len().min(buf.len());
        buf[..taken].copy_from_slice(&bytes[..taken]);
        Ok(taken)
    }
}

#[test]
fn answers_are_handed_on_before_more_is_read(rt: HostRuntime) -> Result<(), Fail> {
    let tally = Tally {
        handed_on: AtomicU64::new(0),
    };
    let tally = Arc::new(rt.alloc(), tally)?;
    let looker = Looker {
        given: 0,
        was_interrupted: false,
        tally: tally.clone()?,
    };
    let mut reader = BufReader::new(rt.alloc(), looker)?;
    let mut writer = Keeper {
        kept: 0,
        is_ready: false,
        tally: tally.clone()?,
    };
    run_lines(rt.alloc(), &mut reader, &mut writer, None)?;
    assert_eq!(rt; tally.handed_on.load(Ordering::SeqCst), 46);
    Ok(())
}

/// Counts how often it is written to.
#[derive(Drop)]
struct Counter {
    writes: u64,
}

impl Write for Counter {
    fn write(&mut self, buf: &[u8]) -> io::Result<usize> {
        self.writes = self.writes.saturating_add(1);
        Ok(buf.len())
    }

    fn flush(&mut self) -> io::Result<()> {
        Ok(())
    }
}

#[test]
fn lines_at_hand_are_answered_by_one_write(rt: HostRuntime) -> Result<(), Fail> {
    let mut reader = b"*IDN?\n*CLS\n*IDN?\n*OPC?\n".as_slice();
    let mut writer = Counter { writes: 0 };
    run_lines(rt.alloc(), &mut reader, &mut writer, None)?;
    assert_eq!(rt; writer.writes, 1);
    Ok(())
}

/// Fails by this cause.
#[derive(Drop)]
struct Failing {
    kind: ErrorKind,
}

impl Read for Failing {
    fn read(&mut self, _buf: &mut [u8]) -> io::Result<usize> {
        Err(io::Error::from(self.kind))
    }
}

impl Write for Failing {
    fn write(&mut self, _buf: &[u8]) -> io::Result<usize> {
        Err(io::Error::from(self.kind))
    }

    fn flush(&mut self) -> io::Result<()> {
        Err(io::Error::from(self.kind))
    }
}

/// The fault of a run with a reader that fails by this cause.
fn fault_of_read(alloc: Global, kind: ErrorKind) -> Result<Option<RunFault>, Fail> {
    let mut reader = BufReader::new(alloc, Failing { kind })?;
    let mut out = Vec::new(alloc);
    Ok(run_lines(alloc, &mut reader, &mut out, None).err())
}

#[test]
fn a_fault_is_told_by_its_cause(rt: HostRuntime) -> Result<(), Fail> {
    let memory = fault_of_read(rt.alloc(), ErrorKind::OutOfMemory)?;
    assert_eq!(rt; memory, Some(RunFault::Memory));
    let input = fault_of_read(rt.alloc(), ErrorKind::BrokenPipe)?;
    assert_eq!(rt; input, Some(RunFault::Input));
    let mut reader = b"*IDN?".as_slice();
    let mut writer = Failing {
        kind: ErrorKind::OutOfMemory,
    };
    let output = run_lines(rt.alloc(), &mut reader, &mut writer, None);
    assert_eq!(rt; output, Err(RunFault::Output));
    Ok(())
}
