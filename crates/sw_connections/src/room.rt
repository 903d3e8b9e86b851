//! A session, as the thread of one of its channels has it.

ghost use Rattle.std.specs.Prelude.{◌≡◌, IfSome, OnErr};
ghost use Rattle.sw_connections.specs.Reads.{ReadsStatus};

use crate::clients::Clients;
use crate::line::Line;
use crate::lines::Lines;
use crate::side::{Refused, Side};
use std::alloc::{AllocError, Global};
use std::marker::Model;
use std::sync::atomic::{AtomicBool, Ordering};
use std::sync::{Arc, Mutex, Wait};
use sw_core::Sid;
use sw_history::{DeskPart, SeatSlot, StatusBoard};
use sw_session::{Channel, View};

/// What the two threads of a session share, each part under a lock of its own. A later session has another one.
#[derive(Drop)]
pub struct Room<H: Clients> {
    alloc: Global,
    /// Whether a message is available.
    has_message: AtomicBool,
    /// A seat that has seen the session's last event.
    seat: SeatSlot<H>,
    side: Mutex<Side>,
    lines: Mutex<Lines>,
}

impl<H: Clients> Room<H> {
    /// A room for a session that is to join.
    pub fn new(alloc: Global) -> Result<Arc<Self, Global>, AllocError> {
        let room = Room {
            alloc,
            has_message: AtomicBool::new(false),
            seat: SeatSlot::new(),
            side: Mutex::new(Side::new(alloc)),
            lines: Mutex::new(Lines::new()),
        };
        Ok(Arc::new(alloc, room)?)
    }
}

/// A session: who it is, which of its channels has this, and what its threads share. Contracts see who it is.
#[derive(Drop)]
pub struct Session<H: Clients> {
    sid: Sid,
    channel: Channel,
    room: Arc<Room<H>, Global>,
}

impl<H: Clients> Model for Session<H> {
    ghost use Rattle.sw_core.specs.declared.ask.Sid.{Sid};

    ghost Value = { Sid };

    ghost view = { λ s. s.sid };
}

impl<H: Clients> Session<H> {
    /// A session that has joined, for its first channel.
    pub fn joined(sid: Sid, room: Arc<Room<H>, Global>) -> Self
        ensures { result ≡ sid }
    {
        Session {
            sid,
            channel: Channel::Synchronous,
            room,
        }
    }

    /// The same session, for this channel. None where it is held too often.
    pub fn shared_as(&self, channel: Channel) -> Option<Self>
        ensures { IfSome result (λ session. session ≡ self.now) }
    {
        match Arc::try_clone(&self.room) {
            Ok(room) => Some(Session {
                sid: self.sid,
                channel,
                room,
            }),
            Err(_) => None,
        }
    }

    /// Who it is.
    pub fn sid(&self) -> Sid
        ensures { result ≡ self.now }
    {
        self.sid
    }

    /// The channel that has this.
    pub fn channel(&self) -> Channel {
        self.channel
    }

    /// Notes whether a message is available.
    pub fn note(&self, has_message: bool) {
        self.room.has_message.store(has_message, Ordering::SeqCst);
    }

    /// Leaves what the desk of the first channel has seen, for the session's next look at its status.
    pub fn leave_seen<W: Wait>(&self, rt: &W, part: &mut DeskPart<H>, board: &StatusBoard<H>)
        ensures { part.new ≡ part.old }
    {
        if self.channel == Channel::Synchronous {
            self.room.seat.leave(rt, part.reader(board));
        }
    }

    /// Looks at the session's status: not earlier than what its last event left. It doesn't wait for the mainframe.
    pub fn look<W: Wait>(&self, rt: &W, part: &mut DeskPart<H>, board: &StatusBoard<H>) -> View
        ensures { ReadsStatus H.first result part.old part.new }
    {
        let (byte, requests) = part.poll(rt, board, &self.room.seat);
        View {
            byte,
            requests,
            mav: self.room.has_message.load(Ordering::SeqCst),
        }
    }

    /// Leaves bytes to the session's second thread, all of them or, where there is no room or no memory, none.
    pub fn append<W: Wait>(&self, rt: &W, bytes: &[u8]) -> Result<(), Refused>
        ensures { OnErr result H.refused }
    {
        let mut side = self.room.side.lock(rt);
        H::append(&mut side, bytes)
    }

    /// Takes what was left to the session's second thread, if anything.
    pub fn take_side<W: Wait>(&self, rt: &W) -> Option<Vec<u8>> {
        self.room.side.lock(rt).take(self.room.alloc)
    }

    /// Adds the line of this channel, which ends with the session.
    pub fn enlist<W: Wait>(&self, rt: &W, line: Line) {
        self.room.lines.lock(rt).enlist(self.channel, line);
    }

    /// Whether the session has both connections.
    pub fn is_paired<W: Wait>(&self, rt: &W) -> bool {
        self.room.lines.lock(rt).are_paired()
    }

    /// The session's first line, until it has left.
    pub fn first_line<W: Wait>(&self, rt: &W) -> Option<Line> {
        self.room.lines.lock(rt).first()
    }

    /// The session has left: its lines end, and what was left to its second thread is let go.
    pub fn end<W: Wait>(&self, rt: &W) {
        self.room.lines.lock(rt).end();
        drop(self.take_side(rt));
    }
}
