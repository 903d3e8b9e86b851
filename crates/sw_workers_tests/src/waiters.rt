//! Several sessions that wait, a wake between an ask and its wait, and what is left of a limit.

use crate::latches::{Latch, SharedLatch};
use crate::shop::{join, played, tells};
use crate::threads::{Scene, TRIGGERED, awaits_end, pauses};
use std::alloc::Global;
use std::sync::Wait;
use std::test::Fail;
use std::thread;
use std::thread::Threads;
use std::time::{Clock, Duration, Instant};
use sw_core::{SessionAnswer, SessionAsk, Sid};
use sw_kinds::SimSource;
use sw_lex::{Command, NoData};
use sw_session::{Desk, Wake};
use sw_workers::Open;

/// How often two sessions wait.
const ROUNDS: u8 = 10;

/// Within what time both sessions proceed in one round at least: less than the time after which a waiter looks by
/// itself.
const AT_ONCE_MS: u64 = 60;

/// Two sessions wait for the end of a scan, each in a thread of its own. Gives their desks back, with how long it took
/// until both proceeded once it was aborted, where they did.
fn go_on<
    D: Desk + Drop + Send + 'static,
    W: Threads + Wait + Clock + Copy + Drop + Send + Sync + 'static,
>(
    rt: W,
    alloc: Global,
    first: &mut D,
    sid: Sid,
    waiting: (D, Sid),
    beside: (D, Sid),
) -> Option<(D, D, Duration)> {
    let (one, one_sid) = waiting;
    let (other, other_sid) = beside;
    let latch = Latch::new(alloc, rt).ok()?;
    let next = Latch::new(alloc, rt).ok()?;
    let one_latch = latch.clone().ok()?;
    let other_latch = next.clone().ok()?;
    if !tells(alloc, first, sid, TRIGGERED, b"") {
        return None;
    }
    let one = thread::spawn(&rt, move || awaits_end(alloc, one, one_sid, one_latch)).ok()?;
    let other = thread::spawn(
        &rt,
        move || awaits_end(alloc, other, other_sid, other_latch),
    )
    .ok()?;
    let are_waiting = latch.is_reached() && next.is_reached() && pauses(&rt);
    let begin = Instant::now(&rt).ok()?;
    let is_ended = tells(alloc, first, sid, b"ABOR", b"");
    let (one, one_is_told) = one.join(&rt);
    let (other, other_is_told) = other.join(&rt);
    let end = Instant::now(&rt).ok()?;
    if are_waiting && is_ended && one_is_told && other_is_told {
        return Some((one, other, end.saturating_duration_since(begin)));
    }
    None
}

/// Two sessions that wait proceed together. Gives the desks back, where all went as it should.
pub fn go_on_together<
    D: Desk + Drop + Send + 'static,
    W: Threads + Wait + Clock + Copy + Drop + Send + Sync + 'static,
>(rt: W, alloc: Global, first: D, second: D, third: D) -> Option<(D, D, D)> {
    let mut first = first;
    let mut second = second;
    let mut third = third;
    let sid = join(&mut first)?;
    let one = join(&mut second)?;
    let other = join(&mut third)?;
    let mut is_prompt = false;
    for _ in 0..ROUNDS {
        let (back, beside, took) = go_on(
            rt,
            alloc,
            &mut first,
            sid,
            (second, one),
            (third, other),
        )?;
        second = back;
        third = beside;
        is_prompt = is_prompt || took < Duration::from_millis(AT_ONCE_MS);
    }
    if is_prompt {
        return Some((first, second, third));
    }
    None
}

#[test]
fn two_sessions_that_wait_go_on_together(rt: HostRuntime) {
    let source = SimSource::new(1, 1);
    assert!(rt; played(rt, rt.alloc(), source, Open, &Scene::Together).is_some());
}

/// The ask that waits for the end of a scan, where the desk holds it.
fn held<D: Desk>(desk: &mut D, sid: Sid) -> Option<SessionAsk> {
    let query = Command::NoData(NoData::OperationCompleteQuery);
    match desk.ask(SessionAsk::Unit(sid, query, false)) {
        SessionAnswer::Hold(ask) => Some(ask),
        other => {
            drop(other);
            None
        }
    }
}

/// Whether the desk holds the ask that waits for the end of a scan.
pub fn is_held<D: Desk>(desk: &mut D, sid: Sid) -> bool {
    match held(desk, sid) {
        Some(ask) => {
            drop(ask);
            true
        }
        None => false,
    }
}

/// Whether what was held may be asked again before five seconds are over.
fn may_go_on<D: Desk>(desk: &mut D) -> bool {
    matches!(desk.wait(Some(5_000)), Wake::Again(_))
}

/// Whether what was held is done now.
fn is_done<D: Desk>(desk: &mut D, ask: SessionAsk) -> bool {
    let answer = desk.ask(ask);
    let is_so = matches!(answer, SessionAnswer::Done(_));
    drop(answer);
    is_so
}

/// A scan ends after what waits for it was held, and before the wait: the wait is none. Gives the desks back, where all
/// went as it should.
pub fn misses_no_wake<D: Desk + Drop + Send + 'static>(
    alloc: Global,
    first: D,
    second: D,
    third: D,
) -> Option<(D, D, D)> {
    let mut first = first;
    let mut second = second;
    if is_at_once(alloc, &mut first, &mut second) == Some(true) {
        return Some((first, second, third));
    }
    None
}

/// Whether the wait is none, by these desks: that of the session that ends the scan, and that of two others, one of
/// which waits.
fn is_at_once<D: Desk>(alloc: Global, first: &mut D, second: &mut D) -> Option<bool> {
    join(second)?;
    let sid = join(first)?;
    let other = join(second)?;
    if !tells(alloc, first, sid, TRIGGERED, b"") {
        return None;
    }
    let ask = held(second, other)?;
    let is_ended = tells(alloc, first, sid, b"ABOR", b"");
    let may_go_on = may_go_on(second) && may_go_on(second);
    let is_done = is_done(second, ask);
    Some(is_ended && may_go_on && is_done)
}

#[test]
fn a_wake_between_an_ask_and_its_wait_is_not_missed(rt: HostRuntime) {
    let source = SimSource::new(1, 1);
    assert!(rt; played(rt, rt.alloc(), source, Open, &Scene::Missed).is_some());
}

/// How long a wait's limit is, and at most what is to be left of it after another session slept a while.
const LIMIT_MS: u32 = 60_000;

const LEFT_MS: u32 = 59_990;

/// Asks for the end of the scan, and waits once. Gives the desk back, with what was left of the limit.
fn waits_once<D: Desk, C: Clock + Drop>(
    desk: D,
    sid: Sid,
    latch: SharedLatch<C>,
) -> (D, Option<u32>) {
    let mut desk = desk;
    let Some(ask) = held(&mut desk, sid) else {
        return (desk, None);
    };
    drop(ask);
    latch.reach();
    match desk.wait(Some(LIMIT_MS)) {
        Wake::Again(left) => (desk, left),
        Wake::Over => (desk, None),
    }
}

/// What is left of a wait's limit once a scan was aborted, after a while.
fn left_after<
    D: Desk + Drop + Send + 'static,
    W: Threads + Wait + Clock + Copy + Drop + Send + Sync + 'static,
>(rt: W, alloc: Global, first: &mut D, sid: Sid, second: D, other: Sid) -> Option<(D, u32)> {
    let latch = Latch::new(alloc, rt).ok()?;
    let reached = latch.clone().ok()?;
    if !tells(alloc, first, sid, TRIGGERED, b"") {
        return None;
    }
    let waiting = thread::spawn(&rt, move || waits_once(second, other, reached)).ok()?;
    let is_reached = latch.is_reached();
    thread::sleep(&rt, Duration::from_millis(40));
    let is_ended = tells(alloc, first, sid, b"ABOR", b"");
    let (second, left) = waiting.join(&rt);
    if is_reached && is_ended {
        return Some((second, left?));
    }
    None
}

/// What is left of a limit is less after a wait. Gives the desks back, where all went as it should.
pub fn uses_its_limit_up<
    D: Desk + Drop + Send + 'static,
    W: Threads + Wait + Clock + Copy + Drop + Send + Sync + 'static,
>(rt: W, alloc: Global, first: D, second: D, third: D) -> Option<(D, D, D)> {
    let mut first = first;
    let mut second = second;
    let sid = join(&mut first)?;
    let other = join(&mut second)?;
    let mut is_less = false;
    for _ in 0..ROUNDS {
        let (back, left) = left_after(rt, alloc, &mut first, sid, second, other)?;
        second = back;
        is_less = is_less || left <= LEFT_MS;
    }
    if is_less {
        return Some((first, second, third));
    }
    None
}

#[test]
fn a_wait_uses_its_limit_up(rt: HostRuntime) -> Result<(), Fail> {
    let source = SimSource::new(1, 1);
    assert!(rt; played(rt, rt.alloc(), source, Open, &Scene::UsedUp).is_some());
    Ok(())
}
