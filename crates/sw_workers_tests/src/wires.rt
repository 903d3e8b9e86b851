//! Connections in memory between a client and the thread that serves it.

use crate::latches::{TURNS, turn};
use std::alloc::{AllocError, Global};
use std::collections::VecDeque;
use std::io::{self, ErrorKind, Read, Write};
use std::sync::atomic::{AtomicBool, Ordering};
use std::sync::{Arc, Mutex, Wait};
use std::time::Clock;
use sw_workers::Wired;

/// How often a read looks for bytes before its time is up.
const PATIENCE: u8 = 50;

/// The bytes that are under way.
#[derive(Drop)]
pub struct Wire {
    to_server: Mutex<VecDeque<u8>>,
    to_client: Mutex<VecDeque<u8>>,
    closed: AtomicBool,
    /// The next read is to wait.
    stopped: AtomicBool,
    /// A read waits.
    waits: AtomicBool,
    ended: AtomicBool,
    /// Each read fails from now on.
    broken: AtomicBool,
}

pub type SharedWire = Arc<Wire, Global>;

impl Wire {
    /// Nothing is under way.
    fn new(alloc: Global) -> Result<SharedWire, AllocError> {
        let wire = Wire {
            to_server: Mutex::new(VecDeque::new(alloc)),
            to_client: Mutex::new(VecDeque::new(alloc)),
            closed: AtomicBool::new(false),
            stopped: AtomicBool::new(false),
            waits: AtomicBool::new(false),
            ended: AtomicBool::new(false),
            broken: AtomicBool::new(false),
        };
        Ok(Arc::new(alloc, wire)?)
    }

    /// The server has ended.
    pub fn end(&self) {
        self.ended.store(true, Ordering::SeqCst);
    }

    /// Waits while reads are stopped, for at most `TURNS` turns. Whether it waited.
    fn is_held<C: Clock>(&self, clock: &C) -> bool {
        if !self.stopped.load(Ordering::SeqCst) {
            return false;
        }
        self.waits.store(true, Ordering::SeqCst);
        for _ in 0..TURNS {
            if !self.stopped.load(Ordering::SeqCst) {
                return true;
            }
            turn(clock);
        }
        true
    }
}

/// What a server reads from.
#[derive(Drop)]
pub struct Incoming<W: Wait + Clock + Copy + Drop> {
    wire: SharedWire,
    rt: W,
}

impl<W: Wait + Clock + Copy + Drop> Incoming<W> {
    /// Reads what is there; none where nothing is, and the client may still send.
    fn look(&self, buffer: &mut [u8]) -> Option<usize> {
        let closed = self.wire.closed.load(Ordering::SeqCst);
        let mut guard = self.wire.to_server.lock(&self.rt);
        match guard.read(buffer) {
            Ok(0) if !closed => None,
            Ok(n) => Some(n),
            Err(_) => None,
        }
    }
}

impl<W: Wait + Clock + Copy + Drop> Read for Incoming<W> {
    fn read(&mut self, buffer: &mut [u8]) -> io::Result<usize> {
        for _ in 0..PATIENCE {
            let was_held = self.wire.is_held(&self.rt);
            if self.wire.broken.load(Ordering::SeqCst) {
                return Err(io::Error::from(ErrorKind::ConnectionReset));
            }
            if was_held {
                return Err(io::Error::from(ErrorKind::WouldBlock));
            }
            if let Some(n) = self.look(buffer) {
                return Ok(n.min(buffer.len()));
            }
            turn(&self.rt);
        }
        Err(io::Error::from(ErrorKind::TimedOut))
    }
}

/// What a server writes to.
#[derive(Drop)]
pub struct Outgoing<W: Wait + Drop> {
    wire: SharedWire,
    rt: W,
}

impl<W: Wait + Drop> Write for Outgoing<W> {
    fn write(&mut self, bytes: &[u8]) -> io::Result<usize> {
        let written = self.wire.to_client.lock(&self.rt).write(bytes)?;
        Ok(written.min(bytes.len()))
    }

    fn flush(&mut self) -> io::Result<()> {
        Ok(())
    }
}

/// A client's end.
#[derive(Drop)]
pub struct End<W: Wait + Clock + Copy + Drop> {
    wire: SharedWire,
    rt: W,
}

impl<W: Wait + Clock + Copy + Drop> End<W> {
    /// A new connection, from the client's end.
    pub fn new(alloc: Global, rt: W) -> Result<Self, AllocError> {
        Ok(End {
            wire: Wire::new(alloc)?,
            rt,
        })
    }

    /// The connection, from the server's end.
    pub fn served(&self) -> Option<(Wired<Incoming<W>, Outgoing<W>, Outgoing<W>>, SharedWire)> {
        let rt = self.rt;
        let reader = Incoming {
            wire: Arc::try_clone(&self.wire).ok()?,
            rt,
        };
        let writer = Outgoing {
            wire: Arc::try_clone(&self.wire).ok()?,
            rt,
        };
        let aside = Outgoing {
            wire: Arc::try_clone(&self.wire).ok()?,
            rt,
        };
        let connection = Wired {
            reader,
            writer,
            aside,
        };
        Some((connection, Arc::try_clone(&self.wire).ok()?))
    }

    /// Sends bytes, and says whether there was memory.
    pub fn sends(&self, bytes: &[u8]) -> bool {
        self.wire.to_server.lock(&self.rt).write(bytes).is_ok()
    }

    /// Nothing more is sent.
    pub fn close(&self) {
        self.wire.closed.store(true, Ordering::SeqCst);
    }

    /// Each read of the server fails from now on.
    pub fn breaks(&self) {
        self.wire.broken.store(true, Ordering::SeqCst);
    }

    /// Whether the server ends, within `TURNS` turns.
    pub fn ends(&self) -> bool {
        for _ in 0..TURNS {
            if self.wire.ended.load(Ordering::SeqCst) {
                return true;
            }
            turn(&self.rt);
        }
        false
    }

    /// Stops the server's reads, and says whether one waits, within `TURNS` turns.
    pub fn stops(&self) -> bool {
        self.wire.stopped.store(true, Ordering::SeqCst);
        for _ in 0..TURNS {
            if self.wire.waits.load(Ordering::SeqCst) {
                return true;
            }
            turn(&self.rt);
        }
        false
    }

    /// Lets the server read on.
    pub fn goes_on(&self) {
        self.wire.stopped.store(false, Ordering::SeqCst);
    }

    /// How many bytes came.
    fn came(&self) -> usize {
        self.wire.to_client.lock(&self.rt).len()
    }

    /// Whether the bytes that came first are these, which are taken.
    fn takes(&self, wanted: &[u8]) -> bool {
        let mut guard = self.wire.to_client.lock(&self.rt);
        for byte in wanted {
            if guard.pop_front() != Some(*byte) {
                return false;
            }
        }
        true
    }

    /// Whether these bytes come next, within `TURNS` turns.
    pub fn receives(&self, wanted: &[u8]) -> bool {
        for _ in 0..TURNS {
            if self.came() >= wanted.len() {
                return self.takes(wanted);
            }
            turn(&self.rt);
        }
        false
    }

    /// Whether nothing comes for a while.
    pub fn is_silent(&self) -> bool {
        for _ in 0..200 {
            turn(&self.rt);
        }
        self.came() == 0
    }

    /// Whether this is answered by that.
    pub fn tells(&self, message: &[u8], wanted: &[u8]) -> bool {
        self.sends(message) && self.receives(wanted)
    }

    /// Whether this is answered by that in the end, within 1000 tries, where both answers have as many bytes.
    pub fn comes_to_tell(&self, message: &[u8], wanted: &[u8]) -> bool {
        for _ in 0..1000 {
            if self.tells(message, wanted) {
                return true;
            }
            self.drains();
            turn(&self.rt);
        }
        false
    }

    /// Drops what came.
    fn drains(&self) {
        self.wire.to_client.lock(&self.rt).clear();
    }
}
