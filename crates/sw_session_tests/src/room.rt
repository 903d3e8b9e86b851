//! Answers for which a program message has no room.

use crate::clients::{IDENTITY, bench};
use std::alloc::Global;
use std::test::Fail;
use sw_base::ANSWER_BYTES;
use sw_core::{SessionAnswer, SessionAsk, Sid};
use sw_session::{Desk, Talker};

/// How many bytes the macro's body has.
const BODY: usize = 4_000;

/// How many bytes the answer of its query has: the body as a block (IEEE 488.2, 8.7.9).
const ANSWER: usize = BODY + 6;

/// How often the body is asked for in one message.
const QUERIES: usize = 5_000;

/// Defines a macro of that body.
fn definition(alloc: Global) -> Option<Vec<u8>> {
    let mut text = Vec::from_slice(alloc, b"*DMC 'A',#44000").ok()?;
    text.resize(text.len().saturating_add(BODY), b'x').ok()?;
    Some(text)
}

/// Asks for its body again and again, and then for the identity.
fn queries(alloc: Global) -> Option<Vec<u8>> {
    let mut text = Vec::new(alloc);
    for _ in 0..QUERIES {
        text.extend_from_slice(b"*GMC? 'A';").ok()?;
    }
    text.extend_from_slice(b"*IDN?").ok()?;
    Some(text)
}

/// Joins a session.
fn join<D: Desk>(desk: &mut D) -> Option<Sid> {
    let answer = desk.ask(SessionAsk::Join);
    let sid = match &answer {
        SessionAnswer::Joined(sid) => Some(*sid),
        _ => None,
    };
    drop(answer);
    sid
}

/// Whether a message is answered by this.
fn is_answered<D: Desk>(talker: &mut Talker, desk: &mut D, text: &[u8], wanted: &[u8]) -> bool {
    talker.message(text, desk).as_slice() == wanted
}

/// Whether the answers fill the room as far as whole ones fit, the identity at their end, which fits too.
fn is_filled(answers: &[u8]) -> bool {
    let whole = ANSWER_BYTES / (ANSWER + 1);
    let queried = whole * (ANSWER + 1);
    answers.len() == queried + IDENTITY.len()
        && answers.starts_with(b"#44000xxx")
        && answers.ends_with(b"xxx;OPENBENCH,SWM8,0,1.0\n")
}

/// Whether answers are dropped with -225 from where there is no room for them, and the session continues.
fn drops_what_does_not_fit<D: Desk>(alloc: Global, sid: Sid, desk: &mut D) -> bool {
    let (Some(definition), Some(queries)) = (definition(alloc), queries(alloc)) else {
        return false;
    };
    let mut talker = Talker::new(alloc, sid);
    let is_defined = is_answered(&mut talker, desk, definition.as_slice(), b"");
    let answers = talker.message(queries.as_slice(), desk);
    let is_so = is_defined
        && is_filled(answers.as_slice())
        && is_answered(&mut talker, desk, b"SYST:ERR?", b"-225,\"Out of memory\"\n")
        && is_answered(&mut talker, desk, b"*CLS;*IDN?", IDENTITY);
    drop(talker);
    is_so
}

/// Whether that is so for the second of two sessions.
fn drops_for_the_second<D: Desk>(alloc: Global, desk: &mut D) -> bool {
    match (join(desk), join(desk)) {
        (Some(_), Some(sid)) => sid.number == 2 && drops_what_does_not_fit(alloc, sid, desk),
        _ => false,
    }
}

#[test]
fn an_answer_that_does_not_fit_is_dropped(rt: HostRuntime) -> Result<(), Fail> {
    let Some(mut desk) = bench(rt.alloc()) else {
        return Err("no mainframe")?;
    };
    let is_so = drops_for_the_second(rt.alloc(), &mut desk);
    drop(desk);
    assert!(rt; is_so);
    Ok(())
}
