//! The sessions that lack their second channel, for whoever attaches to them.

ghost use Rattle.std.specs.Prelude.{◌≡◌, ◌-◌, ◌<◌, length, IfOk, IfSome, IfNone, None, Some, replicate};
ghost use Rattle.sw_base.specs.Limits.{most_sessions};
ghost use Rattle.sw_base.specs.Layout.{slot_at};
ghost use Rattle.sw_workers.specs.Halves.{Begins, Takes, Follows};

use crate::mainframe::Mainframe;
use std::alloc::{AllocError, Global};
use std::marker::Model;
use std::sync::Arc;
use sw_base::SESSIONS;
use sw_connections::{Room, Session};
use sw_core::Sid;
use sw_history::Coming;
use sw_session::Channel;

/// By number, of each session that lacks its second channel what that channel is to have. Contracts see whose it is.
#[derive(Drop)]
pub struct Halves<H: Mainframe> {
    rows: Vec<Option<Session<H>>>,
}

impl<H: Mainframe> Model for Halves<H> {
    ghost use Rattle.sw_workers.specs.Halves.{Rows};

    ghost Value = { Rows };

    ghost view = { λ h. h.rows.items };
}

impl<H: Mainframe> Halves<H> {
    /// No session has joined.
    pub fn new(alloc: Global) -> Result<Self, AllocError>
        ensures { IfOk result (λ halves. halves ≡ replicate most_sessions None) }
    {
        let mut rows = Vec::new(alloc);
        for _ in 0..SESSIONS {
            rows.push(None)?;
        }
        Ok(Halves { rows })
    }

    /// The place of a session's number. None where there is no such session.
    fn place(&self, number: u8) -> Option<usize>
        ensures some { IfSome result (λ place. (0 < number) × (place ≡ number - 1) × (place < length self.now)) }
        ensures none { IfNone result (slot_at self.now number ≡ None) }
    {
        let place = number.checked_sub(1)? as usize;
        if place < self.rows.len() {
            Some(place)
        } else {
            None
        }
    }

    /// Follows an ask by which a session comes or goes, and the session that it joined. It gives the session that the
    /// desk has then, if the ask brought it one. The threads of a new one share this room, if there is one.
    #[inline(always)]
    pub fn follow(
        &mut self,
        coming: Coming,
        joined: Option<Sid>,
        room: Option<Arc<Room<H>, Global>>,
    ) -> Option<Session<H>>
        ensures follows { Follows self.old coming joined self.new }
        ensures session { IfSome result (λ session. joined ≡ Some session) }
    {
        match (coming, joined) {
            (Coming::Joins, Some(sid)) => self.begin(sid, room),
            (Coming::Attaches, Some(sid)) => self.take(sid),
            (Coming::Leaves(sid), _) => {
                drop(self.take(sid));
                None
            }
            _ => None,
        }
    }

    /// A session has joined: its other half waits here.
    fn begin(&mut self, sid: Sid, room: Option<Arc<Room<H>, Global>>) -> Option<Session<H>>
        ensures begins { Begins self.old sid self.new }
        ensures session { IfSome result (λ session. session ≡ sid) }
    {
        let session = Session::joined(sid, room?);
        if let Some(place) = self.place(sid.number) {
            self.rows[place] = session.shared_as(Channel::Asynchronous);
        }
        Some(session)
    }

    /// Takes the half of this session, if it waits here.
    fn take(&mut self, sid: Sid) -> Option<Session<H>>
        ensures takes { Takes self.old sid self.new }
        ensures session { IfSome result (λ session. session ≡ sid) }
    {
        let place = self.place(sid.number)?;
        match &self.rows[place] {
            Some(half) if half.sid() == sid => self.rows[place].take(),
            _ => None,
        }
    }
}
