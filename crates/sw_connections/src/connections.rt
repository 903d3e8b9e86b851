//! The connections that are served.

ghost use Rattle.std.specs.Prelude.{◌≡◌, IfErr};
ghost use Rattle.sw_connections.specs.Admission.{Admits};
ghost use Rattle.sw_connections.specs.Limits.{one_more};
ghost use Rattle.sw_connections.specs.Leaving.{at_the_end};

use crate::line::Line;
use std::alloc::{AllocError, Global};
use std::marker::{Brand, Model};
use std::sync::{Mutex, Wait};
use sw_base::SESSIONS;
use sw_session::Channel;

/// How many connections may be without a session; a further one is closed at once.
const MOST_PENDING: u32 = 64;

/// The connections for which there is memory from the beginning: those without a session, and two for each session.
const ROOM: usize = MOST_PENDING as usize + 2 * SESSIONS as usize;

/// The count with one more. None where there is no room for it.
fn one_more(pending: u32) -> Option<u32>
    ensures { result ≡ one_more pending }
{
    if pending < MOST_PENDING {
        Some(pending + 1)
    } else {
        None
    }
}

/// Why a connection is not served.
#[derive(Clone, Copy, Debug, PartialEq, Eq, Drop)]
pub enum Unserved {
    /// The server ends.
    Ending,
    /// As many connections as may be have no session.
    Full,
    /// There is no memory for it.
    NoMemory,
}

/// Which mainframe it is, to the connections that come. Only the call here that was to admit one proves why it is not
/// served.
pub trait Admission {
    ghost use Rattle.std.specs.Prelude.{IfErr};
    ghost use Rattle.sw_connections.specs.Admission.{Admits};
    ghost use Rattle.sw_connections.specs.declared.connections.Unserved.{Unserved};

    /// A connection was not served, for this cause.
    ghost turned_away: { Unserved → Type 0 };

    /// One more connection is served, where it may be: its ticket.
    fn admit(rows: &mut Rows, line: Option<Line>) -> Result<u64, Unserved>
        ensures admits { Admits rows.old result rows.new }
        ensures cause { IfErr result (λ why. turned_away why) };
}

impl Admission for Brand {
    ghost use Rattle.sw_connections.specs.Admission.{Admitted, TurnsAway};

    ghost turned_away = { λ why. (admitted : Admitted) × TurnsAway admitted why };

    fn admit(rows: &mut Rows, line: Option<Line>) -> Result<u64, Unserved> {
        rows.admit(line)
    }
}

/// What the server's end does with a connection.
#[derive(Clone, Copy, Debug, PartialEq, Eq)]
pub enum AtTheEnd {
    /// It closes the connection.
    Closes,
    /// It reads nothing more from it: the session ends after its current message.
    Finishes,
    /// It leaves the connection, which ends with its session.
    Leaves,
}

/// What the server's end does with a connection by the channel that it is, if it has a session. `is_at_once`: nothing
/// is waited for any more.
fn at_the_end(channel: Option<Channel>, is_at_once: bool) -> AtTheEnd
    ensures { result ≡ at_the_end channel is_at_once }
{
    match (channel, is_at_once) {
        (_, true) | (None, false) => AtTheEnd::Closes,
        (Some(Channel::Synchronous), false) => AtTheEnd::Finishes,
        (Some(Channel::Asynchronous), false) => AtTheEnd::Leaves,
    }
}

/// A connection that is served.
#[derive(Drop)]
struct Row {
    /// Which of them it is.
    ticket: u64,
    line: Option<Line>,
    /// The channel that it is, once it has a session.
    channel: Option<Channel>,
}

impl Row {
    /// The server ends.
    fn end(&self, is_at_once: bool) {
        let Some(line) = &self.line else {
            return;
        };
        match at_the_end(self.channel, is_at_once) {
            AtTheEnd::Closes => line.close(),
            AtTheEnd::Finishes => line.finish(),
            AtTheEnd::Leaves => {}
        }
    }
}

/// The connections that are served, and how many of them have no session.
#[derive(Drop)]
pub struct Rows {
    rows: Vec<Row>,
    pending: u32,
    /// The next one's ticket.
    next: u64,
    /// The server ends, and serves no further one.
    is_closed: bool,
}

impl Model for Rows {
    ghost use Rattle.std.specs.Vec.{vec_capacity, vec_len};
    ghost use Rattle.sw_connections.specs.Admission.{Admitted};

    ghost Value = { Admitted };

    ghost view = { λ r. record {
      served = vec_len r.rows;
      pending = r.pending;
      room = vec_capacity r.rows;
      next = r.next;
      closed = r.is_closed;
    } };
}

impl Rows {
    /// One more, where it may be served: its ticket.
    fn admit(&mut self, line: Option<Line>) -> Result<u64, Unserved>
        ensures { Admits self.old result self.new }
    {
        if self.is_closed {
            return Err(Unserved::Ending);
        }
        let Some(pending) = one_more(self.pending) else {
            return Err(Unserved::Full);
        };
        let ticket = self.next;
        let row = Row {
            ticket,
            line,
            channel: None,
        };
        if let Err(failed) = self.rows.push(row) {
            drop(failed);
            return Err(Unserved::NoMemory);
        }
        self.pending = pending;
        self.next = ticket.wrapping_add(1);
        Ok(ticket)
    }

    /// The connection with this ticket has a session, whose channel it is.
    fn settle(&mut self, ticket: u64, channel: Channel) {
        for row in self.rows.iter_mut() {
            if row.ticket == ticket && row.channel.is_none() {
                row.channel = Some(channel);
                self.pending = self.pending.saturating_sub(1);
            }
        }
    }

    /// The connection with this ticket is served no more.
    fn leave(&mut self, ticket: u64) {
        for row in self.rows.iter() {
            if row.ticket == ticket && row.channel.is_none() {
                self.pending = self.pending.saturating_sub(1);
            }
        }
        self.rows.retain(|row| row.ticket != ticket);
    }
}

/// The connections that are served, under a lock of their own.
#[derive(Drop)]
pub struct Connections {
    rows: Mutex<Rows>,
}

impl Connections {
    /// None is served.
    pub fn new(alloc: Global) -> Result<Self, AllocError> {
        let rows = Rows {
            rows: Vec::with_capacity(alloc, ROOM)?,
            pending: 0,
            next: 0,
            is_closed: false,
        };
        Ok(Connections {
            rows: Mutex::new(rows),
        })
    }

    /// One more connection is served, which has no session yet, where it may be: its ticket.
    pub fn admit<H: Admission, W: Wait>(&self, rt: &W, line: Option<Line>) -> Result<u64, Unserved>
        ensures { IfErr result (λ why. H.turned_away why) }
    {
        let mut rows = self.rows.lock(rt);
        H::admit(&mut rows, line)
    }

    /// The connection with this ticket has a session, whose channel it is.
    pub fn settle<W: Wait>(&self, rt: &W, ticket: u64, channel: Channel) {
        self.rows.lock(rt).settle(ticket, channel);
    }

    /// The connection with this ticket is served no more.
    pub fn leave<W: Wait>(&self, rt: &W, ticket: u64) {
        self.rows.lock(rt).leave(ticket);
    }

    /// The server ends: it serves no connection that comes from now on, closes those without a session, and reads
    /// nothing more from first ones; or it closes all at once.
    pub fn end_all<W: Wait>(&self, rt: &W, is_at_once: bool) {
        let mut guard = self.rows.lock(rt);
        guard.is_closed = true;
        guard.rows.iter().for_each(|row| row.end(is_at_once));
    }
}
