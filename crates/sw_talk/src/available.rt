//! For which sessions a message is available.

ghost use Rattle.std.specs.Prelude.{◌≡◌};
ghost use Rattle.sw_talk.specs.Available.{no_notes, is_joined, is_available, with_joined, with_left, with_note};
ghost use Rattle.sw_base.specs.Layout.{slot_at};
ghost use Rattle.sw_talk.specs.Available.{followed, seating_of, with_mark};

use std::marker::Model;
use sw_base::SESSIONS;
use sw_core::{SessionAnswer, SessionAsk, Sid};

/// A place for each session number.
const PLACES: usize = SESSIONS as usize;

/// The session that has a number.
#[derive(Clone, Copy, Debug)]
pub struct Mark {
    /// The number of events after its Join.
    pub joined: u64,
    /// Whether a message is available for it.
    pub mav: bool,
}

/// How an ask is to change which sessions have joined.
#[derive(Clone, Copy, Debug)]
pub enum Seating {
    /// A session is to begin.
    Joins,
    /// This session is to end.
    Leaves(Sid),
    /// Nothing.
    Stays,
}

/// How the ask is to change which sessions have joined.
pub fn seating_of(ask: &SessionAsk) -> Seating
    ensures { result ≡ seating_of ask.now }
{
    match ask {
        SessionAsk::Join => Seating::Joins,
        SessionAsk::Leave(sid) => Seating::Leaves(*sid),
        _ => Seating::Stays,
    }
}

/// For each session number the session that has joined under it, and whether a message is available for that session.
#[derive(Drop)]
pub struct Available {
    notes: [Option<Mark>; PLACES],
}

impl Model for Available {
    ghost use Rattle.std.specs.Prelude.{length, ◌≡◌};
    ghost use Rattle.sw_base.specs.Limits.{most_sessions};
    ghost use Rattle.sw_talk.specs.Available.{Notes};

    ghost Value = { Notes };

    ghost view = { λ a. a.notes };

    ghost invariant = { λ a. length a.notes ≡ most_sessions };
}

impl Available {
    /// No session has joined.
    pub fn new() -> Self
        ensures { result ≡ no_notes }
    {
        Available {
            notes: [None; PLACES],
        }
    }

    /// The session that has joined under a number, and whether a message is available for it.
    fn mark(&self, number: u8) -> Option<Mark>
        ensures { result ≡ slot_at self.now number }
    {
        let notes: &[Option<Mark>] = &self.notes;
        if number < 1 || number > SESSIONS {
            return None;
        }
        notes[number as usize - 1]
    }

    /// Sets the session that has joined under this number.
    fn set(&mut self, number: u8, mark: Option<Mark>)
        ensures { self.new ≡ with_mark self.old number mark }
    {
        if number >= 1 && number <= SESSIONS {
            self.notes[number as usize - 1] = mark;
        }
    }

    /// Whether the session is the one that has joined under its number.
    fn is_joined(&self, sid: Sid) -> bool
        ensures { result ≡ is_joined self.now sid }
    {
        match self.mark(sid.number) {
            Some(mark) => mark.joined == sid.joined,
            None => false,
        }
    }

    /// Whether a message is available for the session.
    pub fn has(&self, sid: Sid) -> bool
        ensures { result ≡ is_available self.now sid }
    {
        match self.mark(sid.number) {
            Some(mark) => mark.joined == sid.joined && mark.mav,
            None => false,
        }
    }

    /// Notes whether a message is available for the session, if it is joined now.
    pub fn note(&mut self, sid: Sid, mav: bool)
        ensures { self.new ≡ with_note self.old sid mav }
    {
        if !self.is_joined(sid) {
            return;
        }
        let joined = sid.joined;
        self.set(sid.number, Some(Mark { joined, mav }));
    }

    /// The session has joined.
    fn join(&mut self, sid: Sid)
        ensures { self.new ≡ with_joined self.old sid }
    {
        let joined = sid.joined;
        self.set(sid.number, Some(Mark { joined, mav: false }));
    }

    /// The session has left.
    fn leave(&mut self, sid: Sid)
        ensures { self.new ≡ with_left self.old sid }
    {
        if self.is_joined(sid) {
            self.set(sid.number, None);
        }
    }

    /// Follows a session that joins or leaves, by an ask and its answer.
    pub fn follow(&mut self, seating: Seating, answer: &SessionAnswer)
        ensures { self.new ≡ followed self.old answer.now seating }
    {
        match answer {
            SessionAnswer::Joined(sid) => {
                if let Seating::Joins = seating {
                    self.join(*sid);
                }
            }
            SessionAnswer::Done(_) => {
                if let Seating::Leaves(sid) = seating {
                    self.leave(sid);
                }
            }
            _ => {}
        }
    }
}
