//! What is noted and seen of a session, by the desks of several threads.

use crate::shop::{join, played, tells};
use crate::threads::{Scene, shows};
use std::alloc::Global;
use sw_core::{SessionAnswer, SessionAsk, Sid};
use sw_kinds::SimSource;
use sw_session::{Desk, Wake};
use sw_workers::{AskKind, Note, Open};

/// A session asks for service, and the desk of its second channel looks at its status. Gives the desks back, where all
/// went as it should.
pub fn looks<D: Desk + Drop + Send + 'static>(
    alloc: Global,
    first: D,
    second: D,
    third: D,
) -> Option<(D, D, D)> {
    let mut first = first;
    let mut second = second;
    let sid = join(&mut first)?;
    if !attaches(&mut second, sid) {
        return None;
    }
    let is_told = tells(alloc, &mut first, sid, b"*SRE 4;FOO", b"");
    first.note(sid, true);
    let is_seen = shows(&mut second, sid, 4, 1, true);
    first.note(sid, false);
    let is_over = first.wait(Some(1)) == Wake::Over;
    if is_told && is_seen && is_over && shows(&mut second, sid, 4, 1, false) {
        return Some((first, second, third));
    }
    None
}

/// Whether the desk is now that of the session's second channel.
fn attaches<D: Desk>(desk: &mut D, sid: Sid) -> bool {
    match desk.ask(SessionAsk::Attach(sid.number)) {
        SessionAnswer::Joined(told) => told == sid,
        other => {
            drop(other);
            false
        }
    }
}

#[test]
fn a_session_is_looked_at_by_another_desk(rt: HostRuntime) {
    let last = Note {
        number: 6,
        ask: AskKind::Fault,
    };
    assert!(rt; played(rt, rt.alloc(), SimSource::new(1, 1), Open, &Scene::Looked) == Some(last));
}

/// Whether a message is seen to be available for a session.
fn has_message<D: Desk>(desk: &mut D, sid: Sid) -> bool {
    desk.poll(sid).mav
}

/// Whether notes of a session that left, by its desk and by the one that has its number now, change nothing for the
/// latter.
fn is_unchanged<D: Desk>(old: &mut D, left: Sid, new: &mut D, now: Sid) -> bool {
    old.note(left, true);
    new.note(left, true);
    let begins_without = !has_message(new, now) && !has_message(old, left);
    new.note(now, true);
    old.note(left, false);
    new.note(left, false);
    begins_without && has_message(new, now) && !has_message(new, left)
}

/// Session 2 leaves with a message, and another one has its number. Gives the desks back, where all went as it should.
pub fn is_succeeded<D: Desk + Drop + Send + 'static>(
    first: D,
    second: D,
    third: D,
) -> Option<(D, D, D)> {
    let mut first = first;
    let mut second = second;
    let mut third = third;
    let one = join(&mut first)?;
    let left = join(&mut second)?;
    second.note(left, true);
    let was_noted = has_message(&mut second, left);
    drop(second.ask(SessionAsk::Leave(left)));
    let now = join(&mut third)?;
    let is_same_number = left.number == 2 && now.number == 2;
    if was_noted
        && is_same_number
        && is_unchanged(&mut second, left, &mut third, now)
        && !has_message(&mut first, one)
    {
        return Some((first, second, third));
    }
    None
}

#[test]
fn a_session_that_left_notes_nothing_for_the_next_one(rt: HostRuntime) {
    let last = Note {
        number: 6,
        ask: AskKind::Join,
    };
    assert!(rt;
        played(
            rt,
            rt.alloc(),
            SimSource::new(1, 1),
            Open,
            &Scene::Succeeded
        ) == Some(last)
    );
}

/// Whether the session of this desk, once its second channel's desk has left it, is attached to no more, and the next
/// one of its number sees nothing of its messages.
fn ends_by_its_second<D: Desk>(first: &mut D, second: &mut D, now: Sid) -> bool {
    drop(second.ask(SessionAsk::Leave(now)));
    let is_gone = !attaches(second, now);
    match join(second) {
        Some(next) => {
            first.note(now, true);
            is_gone && next.number == now.number && next != now && !has_message(second, next)
        }
        None => false,
    }
}

/// Session 2 leaves with a message before its second channel came. The next one of its number is attached to, and both
/// its desks see its own messages alone; then its second channel leaves it. Gives the desks back, where all went as it
/// should.
pub fn is_attached_anew<D: Desk + Drop + Send + 'static>(
    first: D,
    second: D,
    third: D,
) -> Option<(D, D, D)> {
    let mut first = first;
    let mut second = second;
    let mut third = third;
    let one = join(&mut first)?;
    let left = join(&mut second)?;
    second.note(left, true);
    drop(second.ask(SessionAsk::Leave(left)));
    let now = join(&mut second)?;
    let is_attached = attaches(&mut third, now);
    let begins_without = is_attached && !has_message(&mut third, now);
    second.note(now, true);
    let is_seen = has_message(&mut third, now) && !has_message(&mut third, left);
    if begins_without
        && is_seen
        && ends_by_its_second(&mut second, &mut third, now)
        && !has_message(&mut first, one)
    {
        return Some((first, second, third));
    }
    None
}

#[test]
fn the_next_session_of_a_number_is_attached_to_as_itself(rt: HostRuntime) {
    let last = Note {
        number: 9,
        ask: AskKind::Join,
    };
    assert!(rt; played(rt, rt.alloc(), SimSource::new(1, 1), Open, &Scene::Attached) == Some(last));
}
