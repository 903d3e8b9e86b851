//! Timers of layers and the third ARM layer over a core of boxed cards: what a plan is compared by, what is refused
//! while a scan runs, what `*RST` puts back, and ends that come too late.

use crate::asks::{
    NotTaken, answer_of, does, fit, has_closed, is_idle, is_running, joined, misses_end, refuses,
    send, take, tells, unit,
};
use crate::boxes::{three, voltmeter};
use crate::scans::{done, initiate, is_kept_by, is_outdated_by};
use std::alloc::Global;
use std::test::Fail;
use sw_base::{ScpiError, Sequence};
use sw_cage::Ticket;
use sw_card::{Meter, Relay};
use sw_core::{Ask, Core, SessionAnswer, SessionAsk, Sid, Work};

/// Whether a scene goes as it should over a mainframe of these cards, which has two sessions.
fn at_rest<R: Relay, M: Meter>(alloc: Global, cards: (R, R, R), meter: M, scene: Scene) -> bool {
    let Ok(mut core) = Core::new(alloc) else {
        return false;
    };
    let first = fit(alloc, &mut core, cards, meter);
    let second = joined(alloc, &mut core);
    let is_so = match (first, second) {
        (Some(first), Some(second)) => scene.goes(alloc, &mut core, first, second),
        _ => false,
    };
    drop(core);
    is_so
}

/// What is tried.
#[derive(Clone, Copy)]
enum Scene {
    Compares,
    Refuses,
    Resets,
    Signals,
    Aborts,
    LocksOut,
}

impl Scene {
    fn goes<R: Relay, M: Meter>(
        self,
        alloc: Global,
        core: &mut Core<R, M>,
        first: Sid,
        second: Sid,
    ) -> bool {
        match self {
            Scene::Compares => compares(alloc, core, first),
            Scene::Refuses => refuses_while_running(alloc, core, first, second),
            Scene::Resets => resets(alloc, core, first, second),
            Scene::Signals => signals(alloc, core, first, second),
            Scene::Aborts => aborts(alloc, core, first, second),
            Scene::LocksOut => locks_out(alloc, core, first, second),
        }
    }
}

/// Whether a plan begins nothing once a value of ARM layer 3, or the timer of any layer, is another, though no layer
/// waits for its timer; and begins once they have the values that they had.
fn compares<R: Relay, M: Meter>(alloc: Global, core: &mut Core<R, M>, sid: Sid) -> bool {
    does(alloc, core, sid, b"ROUT:SCAN (@1!1)")
        && is_outdated_by(alloc, core, sid, b"ARM:TIM 2")
        && is_outdated_by(alloc, core, sid, b"ARM:LAY2:TIM 0.000001")
        && is_outdated_by(alloc, core, sid, b"ARM:LAY3:TIM 3600")
        && is_outdated_by(alloc, core, sid, b"TRIG:TIM 1.000001")
        && is_outdated_by(alloc, core, sid, b"ARM:LAY3:DEL 1")
        && is_outdated_by(alloc, core, sid, b"ARM:LAY3:COUN 2")
        && is_outdated_by(alloc, core, sid, b"ARM:LAY3:SOUR BUS")
        && is_outdated_by(alloc, core, sid, b"ARM:LAY3:SOUR TIM")
        && is_kept_by(alloc, core, sid, b"TRIG:TIM 1.000001")
}

/// Whether a scan that waits for TRIGger's timer gives out this pause.
fn waits<R: Relay, M: Meter>(
    alloc: Global,
    core: &mut Core<R, M>,
    sid: Sid,
    wanted: (Ticket, u64),
) -> bool {
    match initiate(alloc, core, sid) {
        Some(Work::Pause(ticket, micros)) => (ticket, micros) == wanted,
        other => {
            drop(other);
            false
        }
    }
}

/// Whether the setting is refused as a conflict, and has the value that it had.
fn keeps<R: Relay, M: Meter>(
    alloc: Global,
    core: &mut Core<R, M>,
    sid: Sid,
    set: &[u8],
    asked: &[u8],
    value: &[u8],
) -> bool {
    refuses(alloc, core, sid, set, ScpiError::SettingsConflict)
        && tells(alloc, core, sid, asked, value)
}

/// Whether no session sets a timer, or ARM layer 3, while a scan runs, and each may ask for them.
fn refuses_while_running<R: Relay, M: Meter>(
    alloc: Global,
    core: &mut Core<R, M>,
    first: Sid,
    second: Sid,
) -> bool {
    does(alloc, core, first, b"ROUT:SCAN (@1!1)")
        && does(alloc, core, first, b"TRIG:SOUR TIM")
        && does(alloc, core, second, b"TRIG:TIM 0.25")
        && waits(alloc, core, first, (Ticket { scan: 1, index: 0 }, 250_000))
        && keeps(alloc, core, first, b"TRIG:TIM 2", b"TRIG:TIM?", b"0.250000")
        && keeps(
            alloc,
            core,
            second,
            b"TRIG:TIM 0.25",
            b"TRIG:TIM?",
            b"0.250000",
        )
        && keeps(alloc, core, second, b"ARM:TIM 2", b"ARM:TIM?", b"1.000000")
        && keeps(
            alloc,
            core,
            first,
            b"ARM:LAY2:TIM 2",
            b"ARM:LAY2:TIM?",
            b"1.000000",
        )
        && keeps(
            alloc,
            core,
            second,
            b"ARM:LAY3:TIM 2",
            b"ARM:LAY3:TIM?",
            b"1.000000",
        )
        && keeps(
            alloc,
            core,
            first,
            b"ARM:LAY3:COUN 2",
            b"ARM:LAY3:COUN?",
            b"1",
        )
        && keeps(
            alloc,
            core,
            second,
            b"ARM:LAY3:SOUR TIM",
            b"ARM:LAY3:SOUR?",
            b"IMM",
        )
        && keeps(
            alloc,
            core,
            first,
            b"ARM:LAY3:DEL 2",
            b"ARM:LAY3:DEL?",
            b"0.000000",
        )
        && keeps(alloc, core, first, b"TRIG:SOUR IMM", b"TRIG:SOUR?", b"TIM")
        && is_running(alloc, core, second)
}

/// Sets ARM layer 3, and the timers of all layers; a timer is kept across changes of its layer's source.
fn sets_all<R: Relay, M: Meter>(alloc: Global, core: &mut Core<R, M>, sid: Sid) -> bool {
    does(alloc, core, sid, b"ARM:LAY3:COUN 1000")
        && does(alloc, core, sid, b"ARM:LAY3:DEL 3600")
        && does(alloc, core, sid, b"ARM:LAY3:TIM 0.5")
        && does(alloc, core, sid, b"ARM:LAY3:SOUR TIM")
        && does(alloc, core, sid, b"ARM:LAY3:SOUR HOLD")
        && tells(alloc, core, sid, b"ARM:LAY3:TIM?", b"0.500000")
        && does(alloc, core, sid, b"ARM:LAY3:SOUR TIM")
        && tells(alloc, core, sid, b"ARM:LAY3:SOUR?", b"TIM")
        && does(alloc, core, sid, b"ARM:LAY2:TIM 7us")
        && does(alloc, core, sid, b"ARM:TIM 3600")
        && does(alloc, core, sid, b"TRIG:TIM 2")
        && does(alloc, core, sid, b"TRIG:SOUR TIM")
}

/// Whether ARM layer 3 and the timers are as `*RST` puts them.
fn is_reset<R: Relay, M: Meter>(alloc: Global, core: &mut Core<R, M>, sid: Sid) -> bool {
    tells(alloc, core, sid, b"ARM:LAY3:COUN?", b"1")
        && tells(alloc, core, sid, b"ARM:LAY3:SOUR?", b"IMM")
        && tells(alloc, core, sid, b"ARM:LAY3:DEL?", b"0.000000")
        && tells(alloc, core, sid, b"ARM:LAY3:TIM?", b"1.000000")
        && tells(alloc, core, sid, b"ARM:LAY2:TIM?", b"1.000000")
        && tells(alloc, core, sid, b"ARM:TIM?", b"1.000000")
        && tells(alloc, core, sid, b"TRIG:TIM?", b"1.000000")
        && tells(alloc, core, sid, b"TRIG:SOUR?", b"IMM")
}

/// Whether `*RST` puts all of it back, as it is at the start, also what another session set.
fn resets<R: Relay, M: Meter>(
    alloc: Global,
    core: &mut Core<R, M>,
    first: Sid,
    second: Sid,
) -> bool {
    is_reset(alloc, core, first)
        && sets_all(alloc, core, second)
        && tells(alloc, core, first, b"ARM:LAY3:COUN?", b"1000")
        && tells(alloc, core, first, b"ARM:LAY3:DEL?", b"3600.000000")
        && tells(alloc, core, first, b"ARM:LAY2:TIM?", b"0.000007")
        && tells(alloc, core, first, b"ARM:TIM?", b"3600.000000")
        && does(alloc, core, first, b"*RST")
        && is_reset(alloc, core, second)
}

/// Sets three passes by TRIGger's timer, a quarter of a second.
fn sets_passes<R: Relay, M: Meter>(alloc: Global, core: &mut Core<R, M>, sid: Sid) -> bool {
    does(alloc, core, sid, b"ROUT:SCAN (@1!1)")
        && does(alloc, core, sid, b"TRIG:COUN 3")
        && does(alloc, core, sid, b"TRIG:SOUR TIM")
        && does(alloc, core, sid, b"TRIG:TIM 0.25")
}

/// What the timer of TRIGger is awaited under in this pass of the first scan, from 0.
fn of_pass(pass: u64) -> Ticket {
    Ticket {
        scan: 1,
        index: pass.saturating_mul(4),
    }
}

/// Whether a signal of TRIGger passes its timer at once: then the reading is made, the next timer begins, and the end
/// of the one that was passed is missed.
fn is_passed<R: Relay, M: Meter>(
    alloc: Global,
    core: &mut Core<R, M>,
    sid: Sid,
    pass: u64,
) -> bool {
    if !tells(alloc, core, sid, b"STAT:OPER:COND?", b"32") {
        return false;
    }
    let work = send(alloc, core, sid, b"TRIG:SIGN");
    let is_measuring = matches!(&work, Some(Work::Measure(_)))
        && tells(alloc, core, sid, b"STAT:OPER:COND?", b"16")
        && misses_end(alloc, core, of_pass(pass));
    match work {
        Some(work) => {
            let next = take(alloc, core, done(work));
            is_measuring && begins_next(next, pass) && misses_end(alloc, core, of_pass(pass))
        }
        None => false,
    }
}

/// Whether the next work is the timer of the pass after this, or nothing after the third.
fn begins_next<M: Meter>(work: Result<Option<Work<M>>, NotTaken>, pass: u64) -> bool {
    match work {
        Ok(Some(Work::Pause(ticket, micros))) => {
            pass < 2 && ticket == of_pass(pass.saturating_add(1)) && micros == 250_000
        }
        Ok(None) => pass == 2,
        other => {
            drop(other);
            false
        }
    }
}

/// Whether signals of another session alone bring a scan by a timer to its end, and the ends of its timers come too
/// late.
fn signals<R: Relay, M: Meter>(
    alloc: Global,
    core: &mut Core<R, M>,
    first: Sid,
    second: Sid,
) -> bool {
    sets_passes(alloc, core, first)
        && waits(alloc, core, first, (of_pass(0), 250_000))
        && is_passed(alloc, core, second, 0)
        && is_passed(alloc, core, first, 1)
        && is_passed(alloc, core, second, 2)
        && is_idle(alloc, core, first)
        && tells(alloc, core, first, b"TRAC:POIN:ACT?", b"3")
        && misses_end(alloc, core, of_pass(2))
}

/// Whether the end of this timer is taken, and a reading begins, which is never made.
fn measures<R: Relay, M: Meter>(alloc: Global, core: &mut Core<R, M>, ticket: Ticket) -> bool {
    let work = take(alloc, core, Ask::Elapsed(ticket));
    let is_measuring = matches!(&work, Ok(Some(Work::Measure(_))));
    drop(work);
    is_measuring
}

/// Whether the end of a timer of a scan that is over is missed, also by the next scan, which awaits its own.
fn aborts<R: Relay, M: Meter>(
    alloc: Global,
    core: &mut Core<R, M>,
    first: Sid,
    second: Sid,
) -> bool {
    let own = Ticket { scan: 2, index: 0 };
    sets_passes(alloc, core, first)
        && waits(alloc, core, first, (of_pass(0), 250_000))
        && does(alloc, core, second, b"ABOR")
        && misses_end(alloc, core, of_pass(0))
        && waits(alloc, core, second, (own, 250_000))
        && misses_end(alloc, core, of_pass(0))
        && has_closed(alloc, core, first, b"(@)")
        && measures(alloc, core, own)
        && has_closed(alloc, core, first, b"(@1!1)")
        && does(alloc, core, second, b"*RST")
        && misses_end(alloc, core, own)
        && is_idle(alloc, core, second)
}

/// Whether the session has to ask again for the answer, which this drops.
fn is_held(answer: Option<SessionAnswer>) -> bool {
    let is_held = matches!(&answer, Some(SessionAnswer::Hold(_)));
    drop(answer);
    is_held
}

/// Whether the session is granted the exclusive lock.
fn locks<R: Relay, M: Meter>(alloc: Global, core: &mut Core<R, M>, sid: Sid) -> bool {
    is_lock(
        alloc,
        core,
        SessionAsk::Lock(sid, Sequence::new(Vec::new(alloc))),
    )
}

/// Whether an exclusive lock is granted, or freed.
fn is_lock<R: Relay, M: Meter>(alloc: Global, core: &mut Core<R, M>, ask: SessionAsk) -> bool {
    let answer = answer_of(alloc, core, ask);
    let is_so = matches!(&answer, Some(SessionAnswer::Lock(1)));
    drop(answer);
    is_so
}

/// Whether the signal of a session that is locked out passes nothing until the lock is free, while the timer still
/// does.
fn locks_out<R: Relay, M: Meter>(
    alloc: Global,
    core: &mut Core<R, M>,
    first: Sid,
    second: Sid,
) -> bool {
    sets_passes(alloc, core, first)
        && waits(alloc, core, first, (of_pass(0), 250_000))
        && locks(alloc, core, second)
        && is_held(unit(alloc, core, first, b"TRIG:SIGN"))
        && tells(alloc, core, second, b"STAT:OPER:COND?", b"32")
        && ends_pass(alloc, core, 0)
        && is_held(unit(alloc, core, first, b"TRIG:SIGN"))
        && is_lock(alloc, core, SessionAsk::Release(second))
        && is_passed(alloc, core, first, 1)
}

/// Whether the end of this pass's timer is taken, and its reading made.
fn ends_pass<R: Relay, M: Meter>(alloc: Global, core: &mut Core<R, M>, pass: u64) -> bool {
    match take(alloc, core, Ask::Elapsed(of_pass(pass))) {
        Ok(Some(work)) => {
            let next = take(alloc, core, done(work));
            begins_next(next, pass)
        }
        other => {
            drop(other);
            false
        }
    }
}

#[test]
fn a_plan_is_compared_by_its_timers_and_all_its_layers(rt: HostRuntime) -> Result<(), Fail> {
    let alloc = rt.alloc();
    assert!(rt; at_rest(alloc, three(alloc)?, voltmeter(alloc)?, Scene::Compares));
    Ok(())
}

#[test]
fn no_timer_is_set_while_a_scan_runs(rt: HostRuntime) -> Result<(), Fail> {
    let alloc = rt.alloc();
    assert!(rt; at_rest(alloc, three(alloc)?, voltmeter(alloc)?, Scene::Refuses));
    Ok(())
}

#[test]
fn a_reset_puts_timers_and_the_third_layer_back(rt: HostRuntime) -> Result<(), Fail> {
    let alloc = rt.alloc();
    assert!(rt; at_rest(alloc, three(alloc)?, voltmeter(alloc)?, Scene::Resets));
    Ok(())
}

#[test]
fn a_signal_passes_a_timer_whose_end_is_missed_then(rt: HostRuntime) -> Result<(), Fail> {
    let alloc = rt.alloc();
    assert!(rt; at_rest(alloc, three(alloc)?, voltmeter(alloc)?, Scene::Signals));
    Ok(())
}

#[test]
fn a_timer_of_a_scan_that_is_over_passes_nothing(rt: HostRuntime) -> Result<(), Fail> {
    let alloc = rt.alloc();
    assert!(rt; at_rest(alloc, three(alloc)?, voltmeter(alloc)?, Scene::Aborts));
    Ok(())
}

#[test]
fn a_signal_waits_for_a_lock_and_a_timer_does_not(rt: HostRuntime) -> Result<(), Fail> {
    let alloc = rt.alloc();
    assert!(rt; at_rest(alloc, three(alloc)?, voltmeter(alloc)?, Scene::LocksOut));
    Ok(())
}
