//! Beginning units: macro commands, asking a desk until it answers, beginning scans, and queuing errors.

ghost use Rattle.std.specs.Prelude.{◌≡◌, ◌∷◌, Ok, true, false};
ghost use Rattle.sw_macro.specs.Table.{Table};
ghost use Rattle.sw_core.specs.declared.ask.SessionAsk.TheVariants.{Unit};
ghost use Rattle.sw_core.specs.declared.ask.SessionAnswer.TheVariants.{Hold};
ghost use Rattle.sw_talk.specs.Trace.{Led, Asked};
ghost use Rattle.sw_talk.specs.Talk.{Queues, Settles, Begins, begun_with, Reports, StartsScan, Plans, table_reset};
ghost use Rattle.sw_talk.specs.Talk.{ReadsScan, ReadsBack, due_of};
ghost use Rattle.sw_talk.specs.Talk.{is_done, is_own, reads_out, after_queueing};

use crate::desk::{Desk, Wake};
use crate::macros::{Outcome, act_on_all, act_on_one};
use std::alloc::Global;
use std::mem::replace;
use sw_base::ScpiError;
use sw_core::{SessionAnswer, SessionAsk, Sid};
use sw_lex::{Command, NoData};
use sw_macro::Macros;
use sw_verify::Plan;

/// How many turns a loop takes at most while the world keeps it going: a held ask is asked again, a source of lines is
/// asked for bytes.
pub const TURNS: u64 = 1 << 32;

/// Asks for a command that is not the session's own, and leaves in `answer` what is answered. `answered` says whether
/// the message has answered before.
#[inline(always)]
pub fn ask_command<D: Desk>(
    desk: &mut D,
    sid: Sid,
    command: Command,
    answered: bool,
    answer: &mut SessionAnswer,
)
    requires { is_own command ≡ false }
    ensures { (macros : Table) → Led D.passes desk.old desk.new (λ t rest.
        Begins sid answered (Ok command) macros t (begun_with answer.new macros rest)) }
{
    settle_unit(desk, sid, command, answered, answer);
}

/// Whether a command is the session's own: of macros, the beginning of a scan, its readings behind it or not, or the
/// reset, which switches macros off.
pub fn is_own(command: &Command) -> bool
    ensures { result ≡ is_own command.now }
{
    match command {
        Command::NoData(NoData::Initiate | NoData::Read | NoData::Reset) => true,
        Command::Macros(_) | Command::Macro(_) => true,
        _ => false,
    }
}

/// Whether a command reads out of the status what is then gone.
pub fn reads_out(command: &Command) -> bool
    ensures { result ≡ reads_out command.now }
{
    matches!(command, Command::DestructiveQuery(_))
}

/// Carries out a command: begins a scan, reads it or not; resets; acts on macros; and asks for any other. `answered`
/// says whether the message has answered before.
#[inline(never)]
pub fn carry_out<D: Desk>(
    desk: &mut D,
    sid: Sid,
    alloc: Global,
    macros: &mut Macros,
    command: Command,
    answered: bool,
) -> SessionAnswer
    ensures { Led D.passes desk.old desk.new (λ t rest.
        Begins sid answered (Ok command) macros.old t (begun_with result macros.new rest)) }
{
    match command {
        Command::NoData(command) => carry_without_data(desk, sid, alloc, macros, command, answered),
        Command::Macros(ask) => {
            let outcome = act_on_all(alloc, macros, ask);
            report(desk, sid, outcome)
        }
        Command::Macro(ask) => {
            let outcome = act_on_one(alloc, macros, &ask);
            report(desk, sid, outcome)
        }
        command => ask(desk, sid, command, answered),
    }
}

/// Carries out a command without data, as `carry_out` does.
fn carry_without_data<D: Desk>(
    desk: &mut D,
    sid: Sid,
    alloc: Global,
    macros: &mut Macros,
    command: NoData,
    answered: bool,
) -> SessionAnswer
    ensures { Led D.passes desk.old desk.new (λ t rest.
        Begins sid answered (Ok (Command.NoData command)) macros.old t (begun_with result macros.new rest)) }
{
    match command {
        NoData::Initiate => initiate(desk, sid, alloc),
        NoData::Read => read(desk, sid, alloc, answered),
        NoData::Reset => reset(desk, sid, macros, answered),
        command => ask(desk, sid, Command::NoData(command), answered),
    }
}

/// Asks for a command that is not the session's own, and gives what is answered.
fn ask<D: Desk>(desk: &mut D, sid: Sid, command: Command, answered: bool) -> SessionAnswer
    requires { is_own command ≡ false }
    ensures { (macros : Table) → Led D.passes desk.old desk.new (λ t rest.
        Begins sid answered (Ok command) macros t (begun_with result macros rest)) }
{
    let mut answer = SessionAnswer::Stranger;
    ask_command(desk, sid, command, answered, &mut answer);
    answer
}

/// Answers with the outcome of a macro command, and queues its refusal.
#[inline(never)]
fn report<D: Desk>(desk: &mut D, sid: Sid, outcome: Outcome) -> SessionAnswer
    ensures { Led D.passes desk.old desk.new (λ t rest. Reports sid outcome t result rest) }
{
    match outcome {
        Ok(text) => SessionAnswer::Done(text),
        Err(refusal) => queue(desk, sid, refusal),
    }
}

/// Asks for a reset. A reset that is done switches macros off.
#[inline(never)]
fn reset<D: Desk>(desk: &mut D, sid: Sid, macros: &mut Macros, answered: bool) -> SessionAnswer
    ensures asked { Led D.passes desk.old desk.new (λ t rest.
        Settles sid 0 (SessionAsk.Unit sid (Command.NoData NoData.Reset) answered) t result rest) }
    ensures switched { macros.new ≡ table_reset result macros.old }
{
    let ask = SessionAsk::Unit(sid, Command::NoData(NoData::Reset), answered);
    let answer = settle(desk, sid, ask);
    if is_done(&answer) {
        macros.enable(false);
    }
    answer
}

fn is_done(answer: &SessionAnswer) -> bool
    ensures { result ≡ is_done answer.now }
{
    matches!(answer, SessionAnswer::Done(_))
}

/// Asks what a scan would begin from, and plans it.
#[inline(never)]
fn initiate<D: Desk>(desk: &mut D, sid: Sid, alloc: Global) -> SessionAnswer
    ensures { Led D.passes desk.old desk.new (λ t rest. StartsScan sid t result rest) }
{
    let told = settle(desk, sid, SessionAsk::Snapshot(sid));
    plan(desk, sid, alloc, told)
}

/// Begins a scan as `initiate` does, and asks for its readings.
#[inline(never)]
fn read<D: Desk>(desk: &mut D, sid: Sid, alloc: Global, answered: bool) -> SessionAnswer
    ensures { Led D.passes desk.old desk.new (λ t rest. ReadsScan sid answered t result rest) }
{
    let offered = settle(desk, sid, SessionAsk::Snapshot(sid));
    let due = due_of(&offered);
    let started = plan(desk, sid, alloc, offered);
    read_back(desk, sid, answered, due, started)
}

/// The number of the scan that the plan of a snapshot begins, and how many readings it makes.
fn due_of(told: &SessionAnswer) -> Option<(u64, u64)>
    ensures { result ≡ due_of told.now }
{
    match told {
        SessionAnswer::Snapshot(snapshot, number) => {
            Some((number.saturating_add(1), snapshot.get().settings.readings()))
        }
        _ => None,
    }
}

/// Asks for the readings of a scan that was started. It gives any other answer back as it is.
fn read_back<D: Desk>(
    desk: &mut D,
    sid: Sid,
    answered: bool,
    due: Option<(u64, u64)>,
    started: SessionAnswer,
) -> SessionAnswer
    ensures { Led D.passes desk.old desk.new (λ t rest. ReadsBack sid answered due started t result rest) }
{
    match due {
        Some((number, count)) => match started {
            SessionAnswer::Done(_) => {
                let command = Command::ScanReadings(number, count);
                settle(desk, sid, SessionAsk::Unit(sid, command, answered))
            }
            started => started,
        },
        None => started,
    }
}

/// Makes the plan of a snapshot and asks to start it, or queues why there is none. It gives any other answer back as it
/// is.
fn plan<D: Desk>(desk: &mut D, sid: Sid, alloc: Global, told: SessionAnswer) -> SessionAnswer
    ensures { Led D.passes desk.old desk.new (λ t rest. Plans sid told t result rest) }
{
    match told {
        SessionAnswer::Snapshot(snapshot, _) => match Plan::make(alloc, snapshot) {
            Ok(plan) => settle(desk, sid, SessionAsk::Start(sid, plan)),
            Err(refusal) => queue(desk, sid, refusal.error()),
        },
        told => told,
    }
}

/// Asks until the ask isn't held; gives it up where the waiting is over, or after `TURNS` turns.
pub fn settle<D: Desk>(desk: &mut D, sid: Sid, ask: SessionAsk) -> SessionAnswer
    ensures { Led D.passes desk.old desk.new (λ t rest. Settles sid 0 ask t result rest) }
{
    let mut answer = SessionAnswer::Stranger;
    settle_into(desk, sid, ask, &mut answer);
    answer
}

/// Asks as `settle` does, and leaves in `answer` what is answered.
#[inline(always)]
fn settle_into<D: Desk>(desk: &mut D, sid: Sid, ask: SessionAsk, answer: &mut SessionAnswer)
    ensures { Led D.passes desk.old desk.new (λ t rest. Settles sid 0 ask t answer.new rest) }
{
    desk.ask_into(ask, answer);
    if let SessionAnswer::Hold(_) = answer {
        retry_held(desk, sid, answer);
    }
}

/// Asks for the command of a unit as `settle_into` does.
#[inline(always)]
fn settle_unit<D: Desk>(
    desk: &mut D,
    sid: Sid,
    command: Command,
    answered: bool,
    answer: &mut SessionAnswer,
)
    ensures { Led D.passes desk.old desk.new (λ t rest. Settles sid 0 (Unit sid command answered) t answer.new rest) }
{
    desk.ask_unit(sid, command, answered, answer);
    if let SessionAnswer::Hold(_) = answer {
        retry_held(desk, sid, answer);
    }
}

/// Waits out an ask that is held, and puts its outcome in the place of its answer.
#[inline(never)]
fn retry_held<D: Desk>(desk: &mut D, sid: Sid, answer: &mut SessionAnswer)
    ensures { (ask : SessionAsk) → answer.old ≡ Hold ask → Led D.passes desk.old desk.new (λ t rest.
        Settles sid 0 ask (Asked ask (Hold ask) ∷ t) answer.new rest) }
{
    match replace(answer, SessionAnswer::Stranger) {
        SessionAnswer::Hold(held) => put(retry_until_free(desk, sid, held), answer),
        told => put(told, answer),
    }
}

/// Puts an answer into its place.
#[inline(always)]
pub fn put(told: SessionAnswer, answer: &mut SessionAnswer)
    ensures { answer.new ≡ told }
{
    *answer = told;
}

/// Waits until an ask that the desk held once is no longer held. After each wait it makes the ask again, unless the
/// desk says that it still holds it.
#[inline(never)]
fn retry_until_free<D: Desk>(desk: &mut D, sid: Sid, held: SessionAsk) -> SessionAnswer
    ensures { Led D.passes desk.old desk.new (λ t rest.
        Settles sid 0 held (Asked held (Hold held) ∷ t) result rest) }
{
    let mut ask = held;
    for _turn in 0..TURNS - 1 {
        if let Wake::Over = desk.wait(None) {
            drop(ask);
            return queue(desk, sid, ScpiError::SettingsConflict);
        }
        if !desk.holds(&ask) {
            match desk.ask(ask) {
                SessionAnswer::Hold(back) => ask = back,
                answer => return answer,
            }
        }
    }
    // However the last wait ends, it gives the ask up.
    let _ = desk.wait(None);
    drop(ask);
    queue(desk, sid, ScpiError::SettingsConflict)
}

/// Queues an error, and answers as a refusal by it.
#[inline(never)]
pub fn queue<D: Desk>(desk: &mut D, sid: Sid, error: ScpiError) -> SessionAnswer
    ensures { Led D.passes desk.old desk.new (λ t rest. Queues sid error t result rest) }
{
    let answer = desk.ask(SessionAsk::Fault(sid, error));
    after_queueing(error, answer)
}

/// The answer after an error was queued: a refusal, unless the session is none any more.
fn after_queueing(error: ScpiError, answer: SessionAnswer) -> SessionAnswer
    ensures { result ≡ after_queueing error answer }
{
    match answer {
        SessionAnswer::Stranger => SessionAnswer::Stranger,
        SessionAnswer::Broken => SessionAnswer::Broken,
        SessionAnswer::Worn(ask) => SessionAnswer::Worn(ask),
        _ => SessionAnswer::Refused(error),
    }
}
