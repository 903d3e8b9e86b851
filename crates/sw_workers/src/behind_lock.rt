//! What is behind the lock: the mainframe, and the sessions that lack their second channel.

ghost use Rattle.std.specs.Prelude.{◌≡◌, [], IfSome, None, Some, replicate};
ghost use Rattle.sw_base.specs.Limits.{most_sessions};
ghost use Rattle.sw_core.specs.declared.ask.SessionAnswer.TheVariants.{Joined};
ghost use Rattle.sw_history.specs.Asks.{AsksOnce};
ghost use Rattle.sw_history.specs.Opened.{OpensAll};
ghost use Rattle.sw_history.specs.Said.{session_told};
ghost use Rattle.sw_workers.specs.Halves.{joined_by};

use crate::halves::Halves;
use crate::mainframe::Mainframe;
use crate::opening_relays::open_relays;
use std::alloc::Global;
use std::marker::Model;
use std::sync::Arc;
use sw_card::{Meter, Relay};
use sw_connections::{Room, Session};
use sw_core::{SessionAnswer, Sid, runs_go_on};
use sw_history::{Coming, DeskPart, EventKind, Held, sessions_stay};

/// What is behind the lock. Contracts see the mainframe. Whenever it is seen, each half that waits is of a session that
/// is joined.
#[derive(Drop)]
pub struct BehindLock<H: Mainframe, R: Relay, M: Meter> {
    pub held: Held<H, R, M>,
    pub halves: Halves<H>,
}

impl<H: Mainframe, R: Relay, M: Meter> Model for BehindLock<H, R, M> {
    ghost use Rattle.std.specs.Prelude.{◌⊎◌};
    ghost use Rattle.sw_history.specs.Held.{Locked};
    ghost use Rattle.sw_workers.specs.Halves.{AreJoined};

    ghost Value = { Locked (R ⊎ M) };

    ghost view = { λ l. l.held };

    ghost invariant = { λ l. AreJoined l.held.panel.sessions l.halves };
}

/// The session that an answer of any kind tells to have joined.
#[inline(always)]
fn joined_by<R: Relay, M: Meter, E: EventKind<R, M>>(answer: &E::Answer) -> Option<Sid>
    ensures { (left : E.Left) → result ≡ joined_by (session_told (E.answered answer.now left)) }
{
    match E::session_answer(answer)? {
        SessionAnswer::Joined(sid) => Some(*sid),
        _ => None,
    }
}

impl<H: Mainframe, R: Relay, M: Meter> BehindLock<H, R, M> {
    /// A mainframe of which no session lacks its second channel.
    pub fn new(held: Held<H, R, M>, halves: Halves<H>) -> Self
        requires { halves ≡ replicate most_sessions None }
    {
        BehindLock { held, halves }
    }

    /// A part for one more desk. None where there are 2^33 desks, or the end has begun.
    pub fn new_part(&mut self) -> Option<DeskPart<H>>
        ensures { IfSome result (λ part. (part.amount ≡ 0) × (part.seat.mine ≡ [])) }
    {
        self.held.new_part()
    }

    /// Makes an ask of any kind, and gives the session that it brings the desk, whose threads share this room where it
    /// has just joined. It leaves the answer in `answer`, and what comes beside it in `left`.
    #[inline(always)]
    pub fn act<E: EventKind<R, M>>(
        &mut self,
        part: &mut DeskPart<H>,
        room: Option<Arc<Room<H>, Global>>,
        ask: E::Ask,
        answer: &mut E::Answer,
        left: &mut E::Left,
    ) -> Option<Session<H>>
        requires { E.is_blank left.old }
        ensures once { AsksOnce H.first (E.asked ask) (E.answered answer.new left.new) part.old part.new }
        ensures session { IfSome result (λ session.
            session_told (E.answered answer.new left.new) ≡ Some (Joined session)) }
    {
        sessions_stay();
        runs_go_on();
        self.held.has_history();
        let coming = E::coming(&ask);
        self.held.act::<E>(part, ask, answer, left);
        let joined = joined_by::<R, M, E>(answer);
        self.halves.follow(coming, joined, room)
    }

    /// Ends the scan that runs and opens every relay. Waiting threads may go on then.
    pub fn open_all(&mut self, part: &mut DeskPart<H>)
        ensures { OpensAll H.first part.new }
    {
        open_relays(&mut self.held, part);
    }

    /// From now on no thread has to wait.
    pub fn close(&mut self)
        ensures { self.new ≡ self.old }
    {
        self.held.close();
    }
}
