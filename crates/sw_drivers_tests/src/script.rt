//! A wire with its answers in a list, and a record that takes a driver's reports.

use std::alloc::{AllocError, Global};
use std::io::{self, ErrorKind};
use std::sync::{Arc, Mutex, Wait};
use sw_drivers::{DriverFault, Told, Wire};

/// What the driver sent and what it reported, outside the driver.
#[derive(Drop)]
pub struct Record<W: Wait + Copy + Drop> {
    rt: W,
    sent: Arc<Mutex<Vec<u8>>, Global>,
}

impl<W: Wait + Copy + Drop> Record<W> {
    pub fn new(rt: W, alloc: Global) -> Result<Self, AllocError> {
        Ok(Record {
            rt,
            sent: Arc::new(alloc, Mutex::new(Vec::new(alloc)))?,
        })
    }

    pub fn same(&self) -> Result<Self, AllocError> {
        Ok(Record {
            rt: self.rt,
            sent: Arc::try_clone(&self.sent)?,
        })
    }

    pub fn put(&self, bytes: &[u8]) {
        let _ = self.sent.lock(&self.rt).extend_from_slice(bytes);
    }

    /// Whether exactly these bytes were put; it drops them.
    pub fn took(&self, bytes: &[u8]) -> bool {
        let mut sent = self.sent.lock(&self.rt);
        let is_so = sent.as_slice() == bytes;
        sent.clear();
        is_so
    }
}

/// A wire that answers each exchange by the next of its answers, a byte at a time. An answer of no bytes is none:
/// hearing then fails for time. A `!` put into the record is an opening, a `.` a closing, a `-` a rest. The other side
/// can end an idle connection, after `ends_after` exchanges.
#[derive(Drop)]
pub struct Script<W: Wait + Copy + Drop> {
    record: Record<W>,
    answers: Vec<Vec<u8>>,
    next: usize,
    at: usize,
    is_open: bool,
    ends_after: usize,
}

impl<W: Wait + Copy + Drop> Script<W> {
    pub fn new(alloc: Global, record: Record<W>, answers: &[&[u8]]) -> Result<Self, AllocError> {
        let mut all = Vec::new(alloc);
        for answer in answers {
            let mut bytes = Vec::new(alloc);
            bytes.extend_from_slice(*answer)?;
            all.push(bytes)?;
        }
        Ok(Script {
            record,
            answers: all,
            next: 0,
            at: 0,
            is_open: false,
            ends_after: usize::MAX,
        })
    }

    /// The same; the other side ends its first connection after `exchanges` exchanges.
    pub fn ended_after(mut self, exchanges: usize) -> Self {
        self.ends_after = exchanges;
        self
    }

    fn heard(&mut self) -> io::Result<u8> {
        let found = match self.answers.get(self.next.wrapping_sub(1)) {
            Some(answer) => answer.get(self.at).copied(),
            None => None,
        };
        self.at = self.at.wrapping_add(1);
        found.ok_or(io::Error::from(ErrorKind::TimedOut))
    }
}

impl<W: Wait + Copy + Drop> Wire for Script<W> {
    ghost use Rattle.std.specs.Prelude.{None, false};

    ghost asked = { λ _. None };

    ghost answered = { λ _. None };

    ghost on = { λ _ _ _. false };

    fn open(&mut self) -> io::Result<()> {
        self.record.put(b"!");
        self.is_open = true;
        if self.next >= self.ends_after {
            self.ends_after = usize::MAX;
        }
        Ok(())
    }

    fn is_open(&self) -> bool {
        self.is_open
    }

    fn begin(&mut self) -> io::Result<()> {
        if self.is_open && self.next < self.ends_after {
            Ok(())
        } else {
            Err(io::Error::from(ErrorKind::UnexpectedEof))
        }
    }

    fn send(&mut self, bytes: &[u8]) -> io::Result<()> {
        self.record.put(bytes);
        self.next = self.next.wrapping_add(1);
        self.at = 0;
        Ok(())
    }

    fn hear(&mut self, room: &mut [u8]) -> io::Result<()> {
        for byte in room.iter_mut() {
            *byte = self.heard()?;
        }
        Ok(())
    }

    fn hear_some(&mut self, room: &mut [u8]) -> io::Result<usize> {
        if room.is_empty() {
            return Ok(0);
        }
        room[0] = self.heard()?;
        Ok(1)
    }

    fn close(&mut self) {
        self.record.put(b".");
        self.is_open = false;
    }

    fn rest(&mut self) {
        self.record.put(b"-");
        self.is_open = false;
    }
}

/// Takes a driver's reports and ignores them.
#[derive(Clone, Copy, Drop)]
pub struct Deaf;

impl Told for Deaf {
    fn tell(&self, _slot: u8, _fault: DriverFault) {}
}
