//! A TCP listener as a port.

ghost use Rattle.std.specs.Prelude.{◌≡◌, true, false};

use crate::log::{Log, Remark};
use crate::logged_connection::LoggedConnection;
use crate::orders::Orders;
use crate::port::{Arrival, Port};
use libc::net::{POLLIN, poll};
use libc::types::pollfd;
use std::alloc::Global;
use std::io::{ErrorKind, Read};
use std::net::TcpListener;
use std::os::fd::{AsRawFd, RawFd};
use std::sync::Wait;
use std::time::{Clock, Duration, Instant};
use std::{mem, thread};
use sw_workers::Tcp;

/// How long a port rests after a connection that failed, in milliseconds.
const REST_MS: u64 = 10;

/// For how many milliseconds after a remark on a failed connection it makes no other.
const QUIET_MS: u128 = 1_000;

/// What a port waits for.
enum Coming {
    Connection,
    /// A line `abort` on the input.
    Abort,
    /// The end of the input; it had come before the first wait, or later.
    End { is_at_once: bool },
}

/// A listener, and the number of connections that came to it, failed ones too. Where it has an input, it takes no
/// connection after that has ended or failed. A line `abort` on the input is an order; any other is ignored. The log
/// has what comes and leaves.
#[derive(Drop)]
pub struct TcpPort<
    'a,
    W: Wait + Clock + Copy + Drop,
    I: Read + AsRawFd + Drop,
    L: Log + Copy + Drop,
> {
    rt: W,
    alloc: Global,
    listener: &'a TcpListener,
    input: Option<I>,
    orders: Orders,
    log: L,
    /// An operator has typed `abort`, and the log doesn't have it yet: it is done by the time the next connection is
    /// asked for.
    is_aborting: bool,
    /// It has not waited yet.
    is_new: bool,
    /// When it made its last remark on a failed connection.
    told_at: Option<Instant>,
    pub taken: u32,
    pub is_over: bool,
}

impl<'a, W: Wait + Clock + Copy + Drop, I: Read + AsRawFd + Drop, L: Log + Copy + Drop> TcpPort<
    'a,
    W,
    I,
    L,
> {
    /// A port to which no connection has come.
    pub fn new(rt: W, alloc: Global, listener: &'a TcpListener, input: Option<I>, log: L) -> Self
        ensures { (result.taken ≡ 0) × (result.is_over ≡ false) }
    {
        TcpPort {
            rt,
            alloc,
            listener,
            input,
            orders: Orders::new(),
            log,
            is_aborting: false,
            is_new: true,
            told_at: None,
            taken: 0,
            is_over: false,
        }
    }

    /// Remarks on a failed connection, once a second at most, and rests for a moment.
    fn rest(&mut self)
        ensures { self.new.taken ≡ self.old.taken }
    {
        let now = Instant::now(&self.rt).ok();
        let is_due = match (self.told_at, now) {
            (Some(told), Some(now)) => {
                now.saturating_duration_since(told).as_millis() >= QUIET_MS
            }
            _ => true,
        };
        if is_due {
            self.log.tell(Remark::Untaken);
            self.told_at = now;
        }
        thread::sleep(&self.rt, Duration::from_millis(REST_MS));
    }

    /// The next connection. None where it fails.
    fn next(&mut self) -> Option<LoggedConnection<L>>
        ensures { self.new.taken ≡ self.old.taken }
    {
        let Ok((stream, from)) = self.listener.accept() else {
            self.rest();
            return None;
        };
        self.log.tell(Remark::Taken(self.taken, from));
        let connection = Tcp::new(self.alloc, stream).ok()?;
        Some(LoggedConnection {
            connection,
            log: self.log,
            number: self.taken,
        })
    }
}

impl<
    W: Wait + Clock + Copy + Drop,
    I: Read + AsRawFd + Drop,
    L: Log + Copy + Drop + Send + 'static,
> Port for TcpPort<'_, W, I, L> {
    type Book = L;

    ghost taken = { λ d. d.taken };

    ghost ended = { λ d. d.is_over ≡ true };

    fn accept(&mut self) -> Arrival<LoggedConnection<L>> {
        if self.is_aborting {
            self.is_aborting = false;
            self.log.tell(Remark::Aborted);
        }
        let coming = match &mut self.input {
            Some(input) => await_coming(
                &self.rt,
                self.listener,
                input,
                &mut self.orders,
                self.is_new,
            ),
            None => Coming::Connection,
        };
        self.is_new = false;
        match coming {
            Coming::Connection => {}
            Coming::Abort => {
                self.is_aborting = true;
                return Arrival::Aborts;
            }
            Coming::End { is_at_once } => {
                if is_at_once {
                    self.log.tell(Remark::NoInput);
                }
                self.is_over = true;
                return Arrival::Ended;
            }
        }
        self.taken += 1;
        match self.next() {
            Some(connection) => Arrival::Connected(connection),
            None => Arrival::Failed,
        }
    }
}

/// Waits until a connection, a line `abort` or the end of the input comes. `is_new`: this is the first wait.
fn await_coming<W: Wait + Clock, I: Read + AsRawFd>(
    rt: &W,
    listener: &TcpListener,
    input: &mut I,
    orders: &mut Orders,
    is_new: bool,
) -> Coming {
    let mut ms = if is_new { 0 } else { -1 };
    for _ in rt.forever() {
        let (has_connection, has_input) = look(rt, listener.as_raw_fd(), input.as_raw_fd(), ms);
        match hear(input, orders, has_input) {
            LoggedReader::Abort => return Coming::Abort,
            LoggedReader::End => return Coming::End {
                is_at_once: ms == 0,
            },
            LoggedReader::Other => {}
        }
        if has_connection {
            return Coming::Connection;
        }
        ms = -1;
    }
    unreachable!()
}

/// Waits until one of the two has something, for `ms` milliseconds at most, without a limit for -1. Answers which has.
fn look<C: Clock>(rt: &C, first: RawFd, second: RawFd, ms: i32) -> (bool, bool) {
    let mut looks = [
        pollfd {
            fd: first,
            events: POLLIN,
            revents: 0,
        },
        pollfd {
            fd: second,
            events: POLLIN,
            revents: 0,
        },
    ];
    if poll(&mut looks, ms) < 0 {
        thread::sleep(rt, Duration::from_millis(REST_MS));
        return (false, false);
    }
    (looks[0].revents != 0, looks[1].revents != 0)
}

/// What an input had.
enum LoggedReader {
    Abort,
    End,
    Other,
}

/// Reads what the input has, if anything: a line `abort`, its end or failure, or what is ignored.
fn hear<I: Read>(input: &mut I, orders: &mut Orders, has_input: bool) -> LoggedReader {
    if !has_input {
        return LoggedReader::Other;
    }
    let mut bytes = [0_u8; 512];
    match input.read(&mut bytes) {
        Ok(0) => LoggedReader::End,
        Ok(n) => {
            let mut is_abort = false;
            for byte in &bytes[..n] {
                is_abort = orders.take(*byte) || is_abort;
            }
            if is_abort {
                LoggedReader::Abort
            } else {
                LoggedReader::Other
            }
        }
        Err(error) => match error.kind() {
            ErrorKind::Interrupted | ErrorKind::WouldBlock => LoggedReader::Other,
            _ => LoggedReader::End,
        },
    }
}
