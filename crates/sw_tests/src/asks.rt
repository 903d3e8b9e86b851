//! A mainframe that the tests ask one thing at a time.
//!
//! These promise nothing, and most answer yes or no: what a mainframe promises, and each way out that a `?` is, would
//! be part of the proof of every test. A call of `drop` drops an answer or a `Core`: where a scope ends, its drop would
//! be written out for each of its variants.

use std::alloc::Global;
use sw_base::{ScpiError, print_micros, print_number};
use sw_cage::{EjectRefusal, InstallRefusal, Job, Ticket};
use sw_card::{Card, Meter, Relay};
use sw_core::{Answer, AnswerForm, Ask, Core, SessionAnswer, SessionAsk, Sid, Work};
use sw_lex::{Command, Elements, Path, next_unit, resolve};

/// Asks the core.
fn ask<R: Relay, M: Meter>(alloc: Global, core: &mut Core<R, M>, ask: Ask<R, M>) -> Answer<R, M> {
    core.apply(alloc, ask)
}

/// The answer to a session.
pub fn answer_of<R: Relay, M: Meter>(
    alloc: Global,
    core: &mut Core<R, M>,
    asked: SessionAsk,
) -> Option<SessionAnswer> {
    match ask(alloc, core, Ask::Session(asked)) {
        Answer::Session(answer, work) => {
            drop(work);
            Some(answer)
        }
        other => {
            drop(other);
            None
        }
    }
}

/// The work that a session's ask gives.
pub fn work_of<R: Relay, M: Meter>(
    alloc: Global,
    core: &mut Core<R, M>,
    asked: SessionAsk,
) -> Option<Work<M>> {
    match ask(alloc, core, Ask::Session(asked)) {
        Answer::Session(answer, work) => {
            drop(answer);
            work
        }
        other => {
            drop(other);
            None
        }
    }
}

/// No scan took a piece of work that is done.
#[derive(Clone, Copy)]
pub struct NotTaken;

/// Gives the scan a piece of work that is done, and returns the next one.
pub fn take<R: Relay, M: Meter>(
    alloc: Global,
    core: &mut Core<R, M>,
    happening: Ask<R, M>,
) -> Result<Option<Work<M>>, NotTaken> {
    match ask(alloc, core, happening) {
        Answer::Taken(next) => Ok(next),
        other => {
            drop(other);
            Err(NotTaken)
        }
    }
}

/// The answer to a Join.
pub fn join<R: Relay, M: Meter>(alloc: Global, core: &mut Core<R, M>) -> Option<SessionAnswer> {
    answer_of(alloc, core, SessionAsk::Join)
}

/// The session in an answer.
fn session_of(answer: &Option<SessionAnswer>) -> Option<Sid> {
    match answer {
        Some(SessionAnswer::Joined(sid)) => Some(*sid),
        _ => None,
    }
}

/// Joins as a session.
pub fn joined<R: Relay, M: Meter>(alloc: Global, core: &mut Core<R, M>) -> Option<Sid> {
    let answer = join(alloc, core);
    let sid = session_of(&answer);
    drop(answer);
    sid
}

/// Whether the card is in its slot.
fn is_installed<R: Relay, M: Meter>(answer: &Answer<R, M>) -> bool {
    matches!(answer, Answer::Installed)
}

/// Whether a card comes into the slot.
pub fn install<R: Relay, M: Meter>(
    alloc: Global,
    core: &mut Core<R, M>,
    slot: u8,
    card: Card<R, M>,
) -> bool {
    let answer = ask(alloc, core, Ask::Install(slot, card));
    let is_installed = is_installed(&answer);
    drop(answer);
    is_installed
}

/// Puts these cards into slots 1 to 3 and the meter into slot 4, and joins as a session.
pub fn fit<R: Relay, M: Meter>(
    alloc: Global,
    core: &mut Core<R, M>,
    cards: (R, R, R),
    meter: M,
) -> Option<Sid> {
    let (first, second, third) = cards;
    let has_first = install(alloc, core, 1, Card::relays(first));
    let has_second = install(alloc, core, 2, Card::relays(second));
    let has_third = install(alloc, core, 3, Card::relays(third));
    let has_meter = install(alloc, core, 4, Card::meter(meter));
    if has_first && has_second && has_third && has_meter {
        return joined(alloc, core);
    }
    None
}

/// Offers a card to the slot that does not take it, and gives it back.
pub fn refused_card<R: Relay, M: Meter>(
    alloc: Global,
    core: &mut Core<R, M>,
    slot: u8,
    card: Card<R, M>,
) -> Option<(InstallRefusal, Card<R, M>)> {
    match ask(alloc, core, Ask::Install(slot, card)) {
        Answer::NotInstalled(refusal, card) => Some((refusal, card)),
        other => {
            drop(other);
            None
        }
    }
}

/// Takes the slot's card out.
pub fn eject<R: Relay, M: Meter>(
    alloc: Global,
    core: &mut Core<R, M>,
    slot: u8,
) -> Option<Card<R, M>> {
    match ask(alloc, core, Ask::Eject(slot)) {
        Answer::Ejected(card) => Some(card),
        other => {
            drop(other);
            None
        }
    }
}

/// Whether no card came out, for that.
fn is_not_ejected<R: Relay, M: Meter>(answer: &Answer<R, M>, why: EjectRefusal) -> bool {
    match answer {
        Answer::NotEjected(refusal) => *refusal == why,
        _ => false,
    }
}

/// Whether no card comes out of the slot, for that.
pub fn refuses_eject<R: Relay, M: Meter>(
    alloc: Global,
    core: &mut Core<R, M>,
    slot: u8,
    why: EjectRefusal,
) -> bool {
    let answer = ask(alloc, core, Ask::Eject(slot));
    let is_refused = is_not_ejected(&answer, why);
    drop(answer);
    is_refused
}

/// Whether no scan takes it.
fn is_missed<R: Relay, M: Meter>(answer: &Answer<R, M>) -> bool {
    matches!(answer, Answer::Missed)
}

/// Whether this happening is missed.
fn misses<R: Relay, M: Meter>(alloc: Global, core: &mut Core<R, M>, happening: Ask<R, M>) -> bool {
    let answer = ask(alloc, core, happening);
    let is_missed = is_missed(&answer);
    drop(answer);
    is_missed
}

/// Whether the external trigger is missed.
pub fn misses_external<R: Relay, M: Meter>(alloc: Global, core: &mut Core<R, M>) -> bool {
    misses(alloc, core, Ask::External)
}

/// Whether the end of this pause is missed.
pub fn misses_end<R: Relay, M: Meter>(
    alloc: Global,
    core: &mut Core<R, M>,
    ticket: Ticket,
) -> bool {
    misses(alloc, core, Ask::Elapsed(ticket))
}

/// Whether the return of this job's meter is missed.
pub fn misses_return<R: Relay, M: Meter>(
    alloc: Global,
    core: &mut Core<R, M>,
    job: Job<M>,
) -> bool {
    misses(alloc, core, Ask::Finished(job.run()))
}

/// The answer to a session that asks what a scan would begin from.
pub fn snapshot<R: Relay, M: Meter>(
    alloc: Global,
    core: &mut Core<R, M>,
    sid: Sid,
) -> Option<SessionAnswer> {
    answer_of(alloc, core, SessionAsk::Snapshot(sid))
}

/// Whether the answer is that of a command that is done, with no text.
fn is_done(answer: &Option<SessionAnswer>) -> bool {
    matches!(answer, Some(SessionAnswer::Done(None)))
}

/// Whether the answer is this text.
fn is_text(answer: Option<SessionAnswer>, text: &[u8]) -> bool {
    match answer {
        Some(SessionAnswer::Done(Some(told))) => is_written(told.into_form(), text),
        other => {
            drop(other);
            false
        }
    }
}

/// Whether an answer of this form is this text.
fn is_written(form: AnswerForm, text: &[u8]) -> bool {
    match form {
        AnswerForm::Bytes(bytes) => bytes.as_slice() == text,
        AnswerForm::Number(n) => {
            let mut buffer = [0; 32];
            let end = print_number(n, &mut buffer);
            &buffer[..end] == text
        }
        AnswerForm::Seconds(micros) => {
            let mut buffer = [0; 32];
            let end = print_micros(micros, &mut buffer);
            &buffer[..end] == text
        }
        AnswerForm::Fixed(words) => words == text,
        AnswerForm::Entry(error) => is_entry(error, text),
        AnswerForm::Readings(readings) => match readings.text() {
            Ok(printed) => printed.as_slice() == text,
            Err(_) => false,
        },
    }
}

/// Whether a text ends with that of an error in quotes, or says that there is none.
fn is_entry(error: Option<ScpiError>, text: &[u8]) -> bool {
    match (error, text) {
        (Some(error), [front @ .., b'"']) => front.ends_with(error.text().as_bytes()),
        (None, text) => text == b"0,\"No error\"".as_slice(),
        _ => false,
    }
}

/// Whether the session has to ask again for the answer.
fn is_held(answer: &Option<SessionAnswer>) -> bool {
    matches!(answer, Some(SessionAnswer::Hold(_)))
}

/// Whether the answer is that no more events can be numbered.
fn is_worn(answer: &Option<SessionAnswer>) -> bool {
    matches!(answer, Some(SessionAnswer::Worn(_)))
}

/// Whether the answer is a refusal by this error.
fn is_refused(answer: &Option<SessionAnswer>, error: ScpiError) -> bool {
    match answer {
        Some(SessionAnswer::Refused(why)) => *why == error,
        _ => false,
    }
}

/// Whether the answer, which this drops, is that no more events can be numbered.
pub fn was_worn(answer: Option<SessionAnswer>) -> bool {
    let is_worn = is_worn(&answer);
    drop(answer);
    is_worn
}

/// Whether the answer, which this drops, is a refusal by this error.
pub fn was_refused(answer: Option<SessionAnswer>, error: ScpiError) -> bool {
    let is_refused = is_refused(&answer, error);
    drop(answer);
    is_refused
}

/// What a text's first unit asks for.
fn read(alloc: Global, text: &[u8]) -> Result<Command, ScpiError> {
    match next_unit(text, &mut Elements::new())? {
        Some((unit, _)) => resolve(alloc, &unit, &mut Path::root()),
        None => Err(ScpiError::SystemError),
    }
}

/// Whether this error refuses the text's first unit before the session asks it.
pub fn is_misread(alloc: Global, text: &[u8], error: ScpiError) -> bool {
    match read(alloc, text) {
        Ok(command) => {
            drop(command);
            false
        }
        Err(why) => why == error,
    }
}

/// What a session asks that sends one unit.
fn sent(alloc: Global, sid: Sid, text: &[u8]) -> Option<SessionAsk> {
    match read(alloc, text) {
        Ok(command) => Some(SessionAsk::Unit(sid, command, false)),
        Err(_) => None,
    }
}

/// The answer to a session that sends one unit.
pub fn unit<R: Relay, M: Meter>(
    alloc: Global,
    core: &mut Core<R, M>,
    sid: Sid,
    text: &[u8],
) -> Option<SessionAnswer> {
    match sent(alloc, sid, text) {
        Some(asked) => answer_of(alloc, core, asked),
        None => None,
    }
}

/// Sends one unit, and gives the work that it gives.
pub fn send<R: Relay, M: Meter>(
    alloc: Global,
    core: &mut Core<R, M>,
    sid: Sid,
    text: &[u8],
) -> Option<Work<M>> {
    match sent(alloc, sid, text) {
        Some(asked) => work_of(alloc, core, asked),
        None => None,
    }
}

/// Whether the unit is done, with no text.
pub fn does<R: Relay, M: Meter>(
    alloc: Global,
    core: &mut Core<R, M>,
    sid: Sid,
    text: &[u8],
) -> bool {
    let answer = unit(alloc, core, sid, text);
    let is_done = is_done(&answer);
    drop(answer);
    is_done
}

/// Whether the unit's answer is this text.
pub fn tells<R: Relay, M: Meter>(
    alloc: Global,
    core: &mut Core<R, M>,
    sid: Sid,
    text: &[u8],
    wanted: &[u8],
) -> bool {
    let answer = unit(alloc, core, sid, text);
    is_text(answer, wanted)
}

/// Whether the unit is refused by this error.
pub fn refuses<R: Relay, M: Meter>(
    alloc: Global,
    core: &mut Core<R, M>,
    sid: Sid,
    text: &[u8],
    error: ScpiError,
) -> bool {
    was_refused(unit(alloc, core, sid, text), error)
}

/// Whether no scan runs.
pub fn is_idle<R: Relay, M: Meter>(alloc: Global, core: &mut Core<R, M>, sid: Sid) -> bool {
    tells(alloc, core, sid, b"*OPC?", b"1")
}

/// Whether a scan runs.
pub fn is_running<R: Relay, M: Meter>(alloc: Global, core: &mut Core<R, M>, sid: Sid) -> bool {
    let answer = unit(alloc, core, sid, b"*OPC?");
    let is_held = is_held(&answer);
    drop(answer);
    is_held
}

/// Whether the mainframe answers these closed channels.
pub fn has_closed<R: Relay, M: Meter>(
    alloc: Global,
    core: &mut Core<R, M>,
    sid: Sid,
    wanted: &[u8],
) -> bool {
    tells(alloc, core, sid, b"ROUT:CLOS:STAT?", wanted)
}
