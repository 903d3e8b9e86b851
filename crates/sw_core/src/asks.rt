//! The session of an ask, and the asks that still act when the mainframe can number no more events.

ghost use Rattle.std.specs.Prelude.{◌≡◌, Bool, false};
ghost use Rattle.sw_core.specs.Seen.{ask_seen, answer_seen, AskSession, HandsBack};
ghost use Rattle.sw_core.specs.Action.{awaits_end};
ghost use Rattle.sw_core.specs.Seats.{asker_of, is_dropped, is_shut_out};
ghost use Rattle.sw_core.specs.Step.{acts_unnumbered, is_held, IsWorn};
ghost use Rattle.sw_core.specs.declared.ask.Sid.{Sid};
ghost use Rattle.sw_core.specs.declared.ask.SessionAnswer.TheVariants.{Stranger, Broken, Hold, Worn};
ghost use Rattle.sw_core.specs.declared.ask.SessionAsk.TheVariants.{Unit};

use crate::ask::{Answer, Ask, SessionAnswer, SessionAsk, Sid};
use sw_card::{Meter, Relay};
use sw_lex::{Command, NoData};

/// The session that asks.
pub fn asker(ask: &SessionAsk) -> Option<Sid>
    ensures { result ≡ asker_of ask.now }
{
    match ask {
        SessionAsk::Join | SessionAsk::Attach(_) => None,
        SessionAsk::Attached(sid)
        | SessionAsk::Leave(sid)
        | SessionAsk::Size(sid, _)
        | SessionAsk::MaxSize(sid)
        | SessionAsk::Clear(sid)
        | SessionAsk::Cleared(sid)
        | SessionAsk::Lock(sid, _)
        | SessionAsk::Release(sid)
        | SessionAsk::LockInfo(sid)
        | SessionAsk::Unit(sid, _, _)
        | SessionAsk::Fault(sid, _)
        | SessionAsk::Bus(sid)
        | SessionAsk::Snapshot(sid)
        | SessionAsk::Start(sid, _) => Some(*sid),
    }
}

/// Whether the mainframe drops a session's ask while the session is being cleared.
pub fn is_dropped(ask: &SessionAsk) -> bool
    ensures { result ≡ is_dropped ask.now }
{
    match ask {
        SessionAsk::Fault(_, _) | SessionAsk::Lock(_, _) => true,
        _ => is_shut_out(ask),
    }
}

/// Whether a session's ask waits for the locks of others.
pub fn is_shut_out(ask: &SessionAsk) -> bool
    ensures { result ≡ is_shut_out ask.now }
{
    match ask {
        SessionAsk::Unit(_, _, _)
        | SessionAsk::Bus(_)
        | SessionAsk::Snapshot(_)
        | SessionAsk::Start(_, _) => true,
        _ => false,
    }
}

/// Whether a session's ask waits for the end of the scan.
pub fn is_held(ask: &SessionAsk) -> bool
    ensures { result ≡ is_held ask.now }
{
    match ask {
        SessionAsk::Unit(_, command, _) => awaits_end(command),
        _ => false,
    }
}

/// Whether a command waits for the end of the scan.
pub fn awaits_end(command: &Command) -> bool
    ensures { result ≡ awaits_end command.now }
{
    match command {
        Command::NoData(NoData::OperationCompleteQuery | NoData::Wait) => true,
        Command::ScanReadings(_, _) => true,
        _ => false,
    }
}

/// Whether a session's ask still acts when the mainframe can number no more events.
pub fn session_acts_unnumbered(ask: &SessionAsk) -> bool
    ensures { result ≡ acts_unnumbered (AskSession ask.now) }
{
    match ask {
        SessionAsk::Unit(_, command, _) => is_abort(command),
        _ => false,
    }
}

/// Whether a command is ABORt, which still acts when the mainframe can number no more events.
pub fn is_abort(command: &Command) -> bool
    ensures { (sid : Sid) (available : Bool)
        → result ≡ acts_unnumbered (AskSession (Unit sid command.now available)) }
{
    match command {
        Command::NoData(NoData::Abort) => true,
        _ => false,
    }
}

/// Whether an ask still acts when the mainframe can number no more events.
pub fn acts_unnumbered<R: Relay, M: Meter>(ask: &Ask<R, M>) -> bool
    ensures { result ≡ acts_unnumbered (ask_seen ask.now) }
{
    match ask {
        Ask::Session(ask) => session_acts_unnumbered(ask),
        Ask::Eject(_) | Ask::Finished(_) => true,
        _ => false,
    }
}

/// Answers `Worn` with a session's ask that the mainframe can't number. Out of line, as `hold`, so that a caller leaves
/// its ask in place.
#[inline(never)]
pub fn hand_back(ask: SessionAsk, answer: &mut SessionAnswer)
    ensures { answer.new ≡ Worn ask }
{
    put(SessionAnswer::Worn(ask), answer);
}

/// Answers `Worn` with the ask of a unit that the mainframe can't number, as `hand_back` does.
#[inline(never)]
pub fn hand_unit_back(sid: Sid, command: Command, available: bool, answer: &mut SessionAnswer)
    ensures { answer.new ≡ Worn (Unit sid command available) }
{
    put(
        SessionAnswer::Worn(SessionAsk::Unit(sid, command, available)),
        answer,
    );
}

/// Answers `Hold` with the ask of a unit that the mainframe holds, as `hold` does.
#[inline(never)]
pub fn hold_unit(sid: Sid, command: Command, available: bool, answer: &mut SessionAnswer)
    ensures { answer.new ≡ Hold (Unit sid command available) }
{
    put(
        SessionAnswer::Hold(SessionAsk::Unit(sid, command, available)),
        answer,
    );
}

/// Answers `Hold` with a session's ask that the mainframe holds.
#[inline(never)]
pub fn hold(ask: SessionAsk, answer: &mut SessionAnswer)
    ensures { answer.new ≡ Hold ask }
{
    put(SessionAnswer::Hold(ask), answer);
}

/// Answers `Stranger`, to an ask of no joined session.
#[inline(never)]
pub fn turn_away(answer: &mut SessionAnswer)
    ensures { answer.new ≡ Stranger }
{
    put(SessionAnswer::Stranger, answer);
}

/// Answers that a clear drops the ask.
#[inline(never)]
pub fn break_off(answer: &mut SessionAnswer)
    ensures { answer.new ≡ Broken }
{
    put(SessionAnswer::Broken, answer);
}

/// Leaves an answer where the caller looks.
#[inline(always)]
pub fn put(told: SessionAnswer, answer: &mut SessionAnswer)
    ensures { answer.new ≡ told }
{
    *answer = told;
}

/// The answer `Worn`, with an ask that the mainframe can't number.
#[inline(never)]
pub fn unnumbered<R: Relay, M: Meter>(ask: Ask<R, M>) -> Answer<R, M>
    requires { acts_unnumbered (ask_seen ask) ≡ false }
    ensures worn { IsWorn (ask_seen ask) (answer_seen result) }
    ensures back { HandsBack ask result }
{
    match ask {
        Ask::Session(ask) => Answer::Session(SessionAnswer::Worn(ask), None),
        ask => Answer::Worn(ask),
    }
}
