//! Lines to clients: what several threads have of a connection.

use crate::keepalive::keep_alive;
use libc::net::{POLLIN, POLLRDHUP, poll};
use libc::types::pollfd;
use std::alloc::{AllocError, Global};
use std::io::{self, Read, Write};
use std::marker::Brand;
use std::net::{Shutdown, TcpStream};
use std::os::fd::AsRawFd;
use std::sync::Arc;
use std::sync::atomic::{AtomicBool, AtomicU8, Ordering};
use std::time::Duration;

/// How long a write waits at most for room, until its session has both connections, in milliseconds.
const WRITE_MS: u64 = 10_000;

/// What a connection's thread does, as its other threads see it.
#[derive(Clone, Copy, Debug, PartialEq, Eq)]
enum Doing {
    /// It serves what came.
    Serves,
    /// It reads.
    Reads,
    /// It writes.
    Writes,
    /// It waits for something else than its client: a lock, or the end of a scan.
    Waits,
}

/// A TCP connection, whether no more is read from it, and what its thread does.
#[derive(Drop)]
struct Wire {
    stream: TcpStream,
    is_over: AtomicBool,
    doing: AtomicU8,
}

/// A TCP connection, with one descriptor for all that have it. Each write is sent at once.
#[derive(Drop)]
pub struct Line {
    wire: Arc<Wire, Global>,
}

impl Line {
    /// The line of this stream. A write that finds no room in time fails. A client that is gone without a word is
    /// noticed, where the system can be asked for that.
    pub fn new(alloc: Global, stream: TcpStream) -> io::Result<Line> {
        stream.set_nodelay(true)?;
        stream.set_write_timeout(Some(Duration::from_millis(WRITE_MS)))?;
        keep_alive(stream.as_raw_fd());
        let wire = Wire {
            stream,
            is_over: AtomicBool::new(false),
            doing: AtomicU8::new(Doing::Serves as u8),
        };
        Ok(Line {
            wire: Arc::new(alloc, wire)?,
        })
    }

    /// The same line.
    pub fn try_clone(&self) -> Result<Line, AllocError> {
        Ok(Line {
            wire: Arc::try_clone(&self.wire)?,
        })
    }

    /// Limits each read from now on to `ms` milliseconds.
    pub fn set_limit(&self, ms: u32) -> io::Result<()> {
        self.wire
            .stream
            .set_read_timeout(Some(Duration::from_millis(ms as u64)))
    }

    /// From now on a read waits for bytes as long as it takes.
    pub fn listen_long(&self) {
        let _ = self.wire.stream.set_read_timeout(None);
    }

    /// From now on a write waits for room as long as it takes.
    pub fn be_patient(&self) {
        let _ = self.wire.stream.set_write_timeout(None);
    }

    /// Whether the client has ended the connection, or its half of it, or no more is read from it. It takes no bytes,
    /// and doesn't wait.
    pub fn has_ended(&self) -> bool {
        self.wire.is_over.load(Ordering::SeqCst) || self.has(POLLRDHUP)
    }

    /// Whether the system reports one of these events of the connection, or its end.
    fn has(&self, events: i16) -> bool {
        let mut looks = [pollfd {
            fd: self.wire.stream.as_raw_fd(),
            events,
            revents: 0,
        }];
        poll(&mut looks, 0) > 0
    }

    /// Whether its thread has served all that has come, or waits for something else than its client.
    pub fn is_served(&self) -> bool {
        let doing = self.wire.doing.load(Ordering::SeqCst);
        doing == Doing::Waits as u8 || (doing == Doing::Reads as u8 && !self.has(POLLIN))
    }

    /// Whether its thread writes, for which its client may have to read.
    pub fn is_writing(&self) -> bool {
        self.wire.doing.load(Ordering::SeqCst) == Doing::Writes as u8
    }

    /// Its thread waits for something else than its client, or no longer does.
    pub fn note_wait(&self, waits: bool) {
        self.note(if waits { Doing::Waits } else { Doing::Serves });
    }

    fn note(&self, doing: Doing) {
        self.wire.doing.store(doing as u8, Ordering::SeqCst);
    }

    /// Reads nothing more, not even what has come: a thread's read ends. Answers are still written.
    pub fn finish(&self) {
        self.wire.is_over.store(true, Ordering::SeqCst);
        let _ = self.wire.stream.shutdown(Shutdown::Read);
    }

    /// Reads no more than what has come: a thread that waits for more reads the end.
    pub fn stop_reading(&self) {
        let _ = self.wire.stream.shutdown(Shutdown::Read);
    }

    /// Ends the connection: a thread's read or write ends, and the system sends what was written.
    pub fn close(&self) {
        let _ = self.wire.stream.shutdown(Shutdown::Both);
    }
}

/// Which mainframe it is, to the lines of its clients. Only the look that finds a client gone proves that it has gone.
pub trait Hearing {
    ghost use Rattle.std.specs.Prelude.{◌≡◌, true};

    /// A client was found to have ended its connection.
    ghost client_gone: { Type 0 };

    /// Whether the client has ended the connection.
    fn has_ended(line: &Line) -> bool
        ensures { result ≡ true → client_gone };
}

impl Hearing for Brand {
    ghost client_gone = { Unit {0} };

    fn has_ended(line: &Line) -> bool {
        line.has_ended()
    }
}

impl Read for Line {
    fn read(&mut self, buffer: &mut [u8]) -> io::Result<usize> {
        if self.wire.is_over.load(Ordering::SeqCst) {
            return Ok(0);
        }
        let mut stream: &TcpStream = &self.wire.stream;
        self.note(Doing::Reads);
        let read = stream.read(buffer);
        self.note(Doing::Serves);
        read
    }
}

impl Write for Line {
    fn write(&mut self, bytes: &[u8]) -> io::Result<usize> {
        let mut stream: &TcpStream = &self.wire.stream;
        self.note(Doing::Writes);
        let written = stream.write(bytes);
        self.note(Doing::Serves);
        written
    }

    fn flush(&mut self) -> io::Result<()> {
        Ok(())
    }
}
