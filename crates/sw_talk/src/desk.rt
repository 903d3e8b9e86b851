//! What takes a session's asks.

use crate::asking::put;
use sw_core::{SessionAnswer, SessionAsk, Sid};
use sw_lex::Command;

/// What a wait ends with.
#[derive(Clone, Copy, Debug, PartialEq, Eq)]
pub enum Wake {
    /// Something may have changed: the session asks again. This many milliseconds of the wait's limit are left.
    Again(Option<u32>),
    /// Nothing will change, or the time is up: the session gives the held ask up.
    Over,
}

/// What a session sees of its status.
#[derive(Clone, Copy, Debug, PartialEq, Eq)]
pub struct View {
    /// The status byte without bits 4 and 6.
    pub byte: u8,
    /// How many service requests there were.
    pub requests: u64,
    /// Whether it was noted last that a message is available for the session.
    pub mav: bool,
}

/// What takes a session's asks.
pub trait Desk {
    ghost use Rattle.std.specs.Prelude.{◌≡◌, true};
    ghost use Rattle.sw_core.specs.declared.ask.SessionAsk.TheVariants.{Unit};
    ghost use Rattle.sw_core.specs.declared.ask.SessionAnswer.TheVariants.{Hold};
    ghost use Rattle.sw_talk.specs.Trace.{Entry, Asked, Waited, Polled, Noted, HandsBackAsk, LeavesOf};

    /// The desk may go from one state to another by this entry.
    ghost passes: { Self → Entry → Self → Type 0 };

    /// Answers an ask. It gives back as it came an ask that it holds, or that can't be numbered.
    fn ask(&mut self, ask: SessionAsk) -> SessionAnswer
        ensures passes { passes self.old (Asked ask result) self.new }
        ensures back { HandsBackAsk ask result };

    /// Answers an ask as `ask` does, and leaves the answer where the caller looks.
    fn ask_into(&mut self, ask: SessionAsk, answer: &mut SessionAnswer)
        ensures passes { passes self.old (Asked ask answer.new) self.new }
        ensures back { HandsBackAsk ask answer.new }
    {
        put(self.ask(ask), answer);
    }

    /// Answers the ask for the command of a unit as `ask_into` does. `answered` says whether its message has answered
    /// before.
    fn ask_unit(&mut self, sid: Sid, command: Command, answered: bool, answer: &mut SessionAnswer)
        ensures passes { passes self.old (Asked (Unit sid command answered) answer.new) self.new }
        ensures back { HandsBackAsk (Unit sid command answered) answer.new }
    {
        self.ask_into(SessionAsk::Unit(sid, command, answered), answer);
    }

    /// Whether an ask that was held would be held again now, with nothing changed. A desk may answer no at any time.
    fn holds(&self, ask: &SessionAsk) -> bool
        ensures { result ≡ true → passes self.now (Asked ask.now (Hold ask.now)) self.now }
    {
        let _ = ask;
        false
    }

    /// Waits until a held ask may be made again, for at most `limit_ms` milliseconds where there is a limit.
    fn wait(&mut self, limit_ms: Option<u32>) -> Wake
        ensures passes { passes self.old (Waited limit_ms result) self.new }
        ensures left { LeavesOf limit_ms result };

    /// Looks at a session's status.
    fn poll(&mut self, sid: Sid) -> View
        ensures { passes self.old (Polled sid result) self.new };

    /// Notes whether a message is available for a session.
    fn note(&mut self, sid: Sid, mav: bool)
        ensures { passes self.old (Noted sid mav) self.new };
}
