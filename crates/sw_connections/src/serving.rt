//! What the thread of a connection serves.

ghost use Rattle.std.specs.Prelude.{◌≡◌, true, IfErr, OnErr};
ghost use Rattle.sw_connections.specs.Admission.{IsUnserved};

use crate::clients::Clients;
use crate::connections::{Connections, Unserved};
use crate::limits::{is_overdue, ms_between};
use crate::line::Line;
use crate::room::{Room, Session};
use crate::side::Refused;
use std::alloc::Global;
use std::sync::{Arc, Mutex, Wait};
use std::time::{Clock, Instant};

/// What a thread serves: a connection, if it serves one, and its session, once that is known.
#[derive(Drop)]
struct Served<H: Clients> {
    line: Option<Line>,
    /// Which of the connections it is.
    ticket: Option<u64>,
    /// When it began, where the clock can be read.
    since: Option<Instant>,
    session: Option<Session<H>>,
    /// The room of the session that may be joined.
    room: Option<Arc<Room<H>, Global>>,
}

/// What a thread serves, for its desk, and for what its channel's server reads from and writes to.
#[derive(Drop)]
pub struct Serving<H: Clients> {
    alloc: Global,
    connections: Arc<Connections, Global>,
    served: Mutex<Served<H>>,
}

impl<H: Clients> Serving<H> {
    /// Nothing is served yet.
    pub fn new(alloc: Global, connections: Arc<Connections, Global>) -> Self {
        let served = Served {
            line: None,
            ticket: None,
            since: None,
            session: None,
            room: None,
        };
        Serving {
            alloc,
            connections,
            served: Mutex::new(served),
        }
    }

    /// A connection is served from now on, and no session yet. Where the server turns it away, or there is no memory for
    /// its session's room, nothing is served.
    #[tactic(auto, using(crate::proofs::AdmissionLemmas::is_unserved))]
    pub fn begin<W: Wait + Clock>(&self, rt: &W, line: Option<Line>) -> Result<(), Unserved>
        ensures { IfErr result (λ why. IsUnserved H.turned_away why) }
    {
        let Ok(room) = Room::new(self.alloc) else {
            return Err(Unserved::NoMemory);
        };
        let copy = match &line {
            Some(line) => line.try_clone().ok(),
            None => None,
        };
        let ticket = match self.connections.admit::<H, W>(rt, copy) {
            Ok(ticket) => ticket,
            Err(why) => {
                drop(room);
                return Err(why);
            }
        };
        *self.served.lock(rt) = Served {
            line,
            ticket: Some(ticket),
            since: Instant::now(rt).ok(),
            session: None,
            room: Some(room),
        };
        Ok(())
    }

    /// Nothing is served any more, and the connection ends.
    pub fn finish<W: Wait>(&self, rt: &W) {
        self.end_line(rt);
        let mut guard = self.served.lock(rt);
        let served = &mut *guard;
        if let Some(ticket) = served.ticket.take() {
            self.connections.leave(rt, ticket);
        }
        served.line = None;
        served.session = None;
        served.room = None;
    }

    /// A room for the session that may be joined. None where there is no memory.
    pub fn room<W: Wait>(&self, rt: &W) -> Option<Arc<Room<H>, Global>> {
        match self.served.lock(rt).room.take() {
            Some(room) => Some(room),
            None => Room::new(self.alloc).ok(),
        }
    }

    /// This session is served from now on.
    pub fn learn<W: Wait>(&self, rt: &W, session: &Session<H>) {
        let mut guard = self.served.lock(rt);
        let served = &mut *guard;
        served.session = session.shared_as(session.channel());
        if let Some(ticket) = served.ticket {
            self.connections.settle(rt, ticket, session.channel());
        }
        if let Some(line) = &served.line {
            if let Ok(line) = line.try_clone() {
                session.enlist(rt, line);
            }
        }
    }

    /// From now on a read of the line waits for bytes as long as it takes.
    pub fn listen_long<W: Wait>(&self, rt: &W) {
        if let Some(line) = &self.served.lock(rt).line {
            line.listen_long();
        }
    }

    /// Ends the line: reads find its end.
    fn end_line<W: Wait>(&self, rt: &W) {
        if let Some(line) = &self.served.lock(rt).line {
            line.close();
        }
    }

    /// Ends the line where it has been open for too long, and gives whether its session has both connections.
    /// `is_heard`: its first header is whole.
    pub fn end_overdue<W: Wait + Clock>(&self, rt: &W, is_heard: bool) -> bool {
        let is_paired = match &self.served.lock(rt).session {
            Some(session) => session.is_paired(rt),
            None => false,
        };
        if is_overdue(is_heard, is_paired, self.stood_ms(rt)) {
            self.end_line(rt);
        }
        is_paired
    }

    /// For how many milliseconds the line has been served: none where the clock can't be read.
    fn stood_ms<W: Wait + Clock>(&self, rt: &W) -> u64 {
        let since = self.served.lock(rt).since;
        match (since, Instant::now(rt)) {
            (Some(since), Ok(now)) => ms_between(since, now),
            _ => 0,
        }
    }

    /// The number of the session that is served.
    pub fn number<W: Wait>(&self, rt: &W) -> Option<u8> {
        match &self.served.lock(rt).session {
            Some(session) => Some(session.sid().number),
            None => None,
        }
    }

    /// Whether the client has ended the line.
    pub fn is_client_gone<W: Wait>(&self, rt: &W) -> bool
        ensures { result ≡ true → H.client_gone }
    {
        match &self.served.lock(rt).line {
            Some(line) => H::has_ended(line),
            None => false,
        }
    }

    /// The thread waits for something else than its client, or no longer does.
    pub fn note_wait<W: Wait>(&self, rt: &W, waits: bool) {
        if let Some(line) = &self.served.lock(rt).line {
            line.note_wait(waits);
        }
    }

    /// The first line of the session that is served, until that has left.
    pub fn first_line<W: Wait>(&self, rt: &W) -> Option<Line> {
        match &self.served.lock(rt).session {
            Some(session) => session.first_line(rt),
            None => None,
        }
    }

    /// Leaves bytes to the session's second thread, all of them or, where there is no room or no memory, none.
    pub fn append<W: Wait>(&self, rt: &W, bytes: &[u8]) -> Result<(), Refused>
        ensures { OnErr result H.refused }
    {
        match &self.served.lock(rt).session {
            Some(session) => session.append(rt, bytes),
            None => Ok(()),
        }
    }

    /// Takes what the session's first thread left, if anything.
    pub fn take_side<W: Wait>(&self, rt: &W) -> Option<Vec<u8>> {
        match &self.served.lock(rt).session {
            Some(session) => session.take_side(rt),
            None => None,
        }
    }
}
