//! Which sessions are joined, and which locks they hold.

ghost use Rattle.std.specs.Prelude.{◌≡◌, ◌≢◌, ◌≤◌, ◌-◌, ◌↔◌, ◌&&◌, ℕ, true, false, not, IsTrue, IfSome, IfNone, OnSome};
ghost use Rattle.std.specs.Prelude.{None, Some, slice_set, replicate};
ghost use Rattle.sw_base.specs.Layout.{slot_at};
ghost use Rattle.sw_base.specs.Limits.{most_sessions};
ghost use Rattle.sw_hislip.specs.LockTable.{admits};
ghost use Rattle.sw_core.specs.Sessions.{nobody, fresh_seat, IsJoined, IsLeastFree, is_clearing, with_seat, seat_of};
ghost use Rattle.sw_core.specs.Sessions.{joined_in};
ghost use Rattle.sw_core.specs.declared.ask.SessionAnswer.TheVariants.{Done};
ghost use Rattle.sw_core.specs.Seats.{Attaches, LacksSecond, StepSeat, StepLock, released_code, asker_of, is_seats};
ghost use Rattle.sw_core.specs.Seats.{is_dropped, is_shut_out};

use crate::ask::{SessionAnswer, SessionAsk, Sid};
use crate::asks::{is_dropped, is_shut_out};
use std::alloc::Global;
use std::marker::Model;
use sw_base::{SESSIONS, Sequence};
use sw_hislip::{LONGEST_PAYLOAD, LockReply, Locks, Released};

/// A seat for each session.
const SEATS: usize = SESSIONS as usize;

/// The seat of a session.
#[derive(Clone, Copy, Debug, PartialEq, Eq)]
pub struct Seat {
    /// The number of events after its Join.
    pub joined: u64,
    /// Whether it has its second channel.
    pub attached: bool,
    /// The size of a message that it takes, in bytes.
    pub size: u64,
    /// Whether it is being cleared: the mainframe drops those of its asks that `is_dropped` names.
    pub clearing: bool,
}

/// The session numbers, and the locks.
#[derive(Drop)]
pub struct Sessions {
    seats: [Option<Seat>; SEATS],
    locks: Locks,
}

impl Model for Sessions {
    ghost use Rattle.sw_base.specs.Limits.{most_sessions};
    ghost use Rattle.sw_core.specs.Sessions.{SessionsSeen};

    ghost Value = { SessionsSeen };

    ghost use Rattle.std.specs.Prelude.{length, ◌≡◌};

    ghost view = { λ s. record { seats = s.seats; locks = s.locks } };

    ghost invariant = { λ s. length s.seats ≡ most_sessions };
}

impl Sessions {
    /// No session, and no lock.
    pub fn new() -> Self
        ensures { result ≡ nobody }
    {
        Sessions {
            seats: [None; SEATS],
            locks: Locks::new(),
        }
    }

    /// Whether the session is joined.
    pub fn has(&self, sid: Sid) -> bool
        ensures { IsTrue result ↔ IsJoined self.now sid }
    {
        let seats: &[Option<Seat>] = &self.seats;
        sid.number >= 1
            && sid.number <= SESSIONS
            && joined_in(seats[sid.number as usize - 1]) == Some(sid.joined)
    }

    /// Gives the least free number to a session that joins after this number of events.
    pub fn join(&mut self, events: u64) -> Option<Sid>
        ensures free { IfSome result (λ sid. IsLeastFree self.old sid.number × (sid.joined ≡ events)) }
        ensures joined { IfSome result (λ sid. self.new ≡ with_seat self.old sid.number (Some (fresh_seat events))) }
        ensures full { IfNone result ((k : ℕ) → 1 ≤ k → k ≤ most_sessions → slot_at self.old.seats k ≢ None) }
        ensures same { IfNone result (self.new ≡ self.old) }
    {
        let number = self.free_number()?;
        self.seats[number as usize - 1] = Some(Seat {
            joined: events,
            attached: false,
            size: LONGEST_PAYLOAD,
            clearing: false,
        });
        Some(Sid {
            number,
            joined: events,
        })
    }

    /// Makes the asker the second channel of the session with this number, if that has none.
    pub fn attach(&mut self, number: u8) -> Option<Sid>
        ensures attached { IfSome result (λ sid. Attaches self.old number sid self.new) }
        ensures none { IfNone result (LacksSecond self.old number → ⊥) }
        ensures same { IfNone result (self.new ≡ self.old) }
    {
        let seats: &[Option<Seat>] = &self.seats;
        if number < 1 {
            return None;
        }
        if number > SESSIONS {
            return None;
        }
        let mut seat = seats[number as usize - 1]?;
        if seat.attached {
            return None;
        }
        seat.attached = true;
        self.seats[number as usize - 1] = Some(seat);
        Some(Sid {
            number,
            joined: seat.joined,
        })
    }

    /// Whether the session is being cleared.
    pub fn is_clearing(&self, sid: Sid) -> bool
        requires { IsJoined self.now sid }
        ensures { result ≡ is_clearing self.now sid.number }
    {
        self.seat(sid).clearing
    }

    /// Whether the locks let the session in.
    pub fn admits(&self, sid: Sid) -> bool
        requires { IsJoined self.now sid }
        ensures { result ≡ admits self.now.locks sid.number }
    {
        self.locks.admits(sid.number)
    }

    /// Whether the mainframe drops the session's ask now.
    pub fn drops(&self, sid: Sid, ask: &SessionAsk) -> bool
        requires { IsJoined self.now sid }
        ensures { result ≡ is_clearing self.now sid.number && is_dropped ask.now }
    {
        self.is_clearing(sid) && is_dropped(ask)
    }

    /// Whether the session's ask waits for the locks of others now.
    pub fn shuts_out(&self, sid: Sid, ask: &SessionAsk) -> bool
        requires { IsJoined self.now sid }
        ensures { result ≡ not (admits self.now.locks sid.number) && is_shut_out ask.now }
    {
        !self.admits(sid) && is_shut_out(ask)
    }

    /// Does a session's ask of its seat or of the locks.
    #[inline(never)]
    pub fn serve(&mut self, alloc: Global, sid: Sid, ask: SessionAsk) -> SessionAnswer
        requires asker { asker_of ask ≡ Some sid }
        requires joined { IsJoined self.old sid }
        requires seats { is_seats ask ≡ true }
        ensures { StepSeat self.old ask result self.new }
    {
        let seat = self.seat(sid);
        match ask {
            SessionAsk::Leave(_) => {
                self.locks.leave(sid.number);
                self.change(sid, None)
            }
            SessionAsk::Attached(_) if seat.attached => SessionAnswer::Done(None),
            SessionAsk::Attached(_) => SessionAnswer::Missed,
            SessionAsk::Size(_, size) => self.change(sid, Some(Seat { size, ..seat })),
            SessionAsk::MaxSize(_) => SessionAnswer::Max(seat.size),
            SessionAsk::Clear(_) => self.change(
                sid,
                Some(Seat {
                    clearing: true,
                    ..seat
                }),
            ),
            SessionAsk::Cleared(_) => self.change(
                sid,
                Some(Seat {
                    clearing: false,
                    ..seat
                }),
            ),
            SessionAsk::Lock(_, key) => self.lock(alloc, sid, key),
            SessionAsk::Release(_) => SessionAnswer::Lock(released_code(
                self.locks.release(sid.number),
            )),
            SessionAsk::LockInfo(_) => {
                let (exclusive, holders) = self.locks.info();
                SessionAnswer::Info(exclusive, holders)
            }
            _ => unreachable!(),
        }
    }

    /// Asks for a lock.
    fn lock(&mut self, alloc: Global, sid: Sid, key: Sequence<u8>) -> SessionAnswer
        requires { IsJoined self.old sid }
        ensures { StepLock self.old sid key result self.new }
    {
        match self.locks.ask(alloc, sid.number, key.as_slice()) {
            Ok(LockReply::Granted) => SessionAnswer::Lock(1),
            Ok(LockReply::NotNow) => SessionAnswer::Hold(SessionAsk::Lock(sid, key)),
            Ok(LockReply::Wrong) => SessionAnswer::Lock(3),
            // For a key that finds no memory the answer is an error.
            Err(_) => SessionAnswer::Lock(3),
        }
    }

    /// Sets the seat of the session, or that it has left.
    fn change(&mut self, sid: Sid, seat: Option<Seat>) -> SessionAnswer
        requires { IsJoined self.old sid }
        ensures done { result ≡ Done None }
        ensures noted { self.new ≡ with_seat self.old sid.number seat }
    {
        self.seats[sid.number as usize - 1] = seat;
        SessionAnswer::Done(None)
    }

    /// The session's seat.
    fn seat(&self, sid: Sid) -> Seat
        requires { IsJoined self.now sid }
        ensures { result ≡ seat_of self.now sid.number }
    {
        let seats: &[Option<Seat>] = &self.seats;
        match seats[sid.number as usize - 1] {
            Some(seat) => seat,
            None => unreachable!(),
        }
    }

    /// The least free number.
    fn free_number(&self) -> Option<u8>
        ensures some { IfSome result (λ number. IsLeastFree self.now number) }
        ensures none { IfNone result ((k : ℕ) → 1 ≤ k → k ≤ most_sessions → slot_at self.now.seats k ≢ None) }
    {
        let seats: &[Option<Seat>] = &self.seats;
        for before in 0..SESSIONS {
            if seats[before as usize].is_none() {
                return Some(before + 1);
            }
        }
        None
    }
}

/// The number of events after the Join of the session in the seat.
fn joined_in(seat: Option<Seat>) -> Option<u64>
    ensures { result ≡ joined_in seat }
{
    match seat {
        Some(seat) => Some(seat.joined),
        None => None,
    }
}

/// The code of what was freed.
fn released_code(freed: Released) -> u8
    ensures { result ≡ released_code freed }
{
    match freed {
        Released::Exclusive => 1,
        Released::Shared => 2,
        Released::Nothing => 3,
    }
}
