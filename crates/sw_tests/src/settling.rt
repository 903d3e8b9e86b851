//! A scan that lets its relays settle, over a core of boxed cards: under which ticket, what the queries answer
//! meanwhile, and what ends it.

use crate::asks::{
    does, fit, has_closed, is_idle, misses_end, misses_external, refuses, take, tells,
};
use crate::boxes::{three, voltmeter};
use crate::scans::{carry_out, comes_out_safe, initiate, is_kept_by, is_outdated_by};
use std::alloc::Global;
use std::test::Fail;
use sw_base::ScpiError;
use sw_cage::Ticket;
use sw_card::{Meter, Relay};
use sw_core::{Ask, Core, Sid, Work};

/// Whether a scene goes as it should over a mainframe of these cards.
fn at_rest<R: Relay, M: Meter>(alloc: Global, cards: (R, R, R), meter: M, scene: Scene) -> bool {
    let Ok(mut core) = Core::new(alloc) else {
        return false;
    };
    let is_so = match fit(alloc, &mut core, cards, meter) {
        Some(sid) => scene.goes(alloc, &mut core, sid),
        None => false,
    };
    drop(core);
    is_so
}

/// What is tried.
#[derive(Clone, Copy)]
enum Scene {
    Settles,
    Pauses,
    Keeps,
    Aborts,
    Leaves,
    Compares,
}

impl Scene {
    fn goes<R: Relay, M: Meter>(self, alloc: Global, core: &mut Core<R, M>, sid: Sid) -> bool {
        match self {
            Scene::Settles => settles(alloc, core, sid),
            Scene::Pauses => pauses(alloc, core, sid),
            Scene::Keeps => keeps(alloc, core, sid),
            Scene::Aborts => aborts(alloc, core, sid),
            Scene::Leaves => leaves(alloc, core, sid),
            Scene::Compares => compares(alloc, core, sid),
        }
    }
}

/// What the first relay of this scan settles under: its closing is the item before.
fn first_of(scan: u64) -> Ticket {
    Ticket { scan, index: 1 }
}

/// Whether this is the pause of that ticket, of that many microseconds.
fn is_pause<M: Meter>(work: Option<Work<M>>, wanted: (Ticket, u64)) -> bool {
    match work {
        Some(Work::Pause(ticket, micros)) => (ticket, micros) == wanted,
        other => {
            drop(other);
            false
        }
    }
}

/// Begins a scan of 1!1. Whether it then settles for a second, with 1!1 closed.
fn begins<R: Relay, M: Meter>(alloc: Global, core: &mut Core<R, M>, sid: Sid, scan: u64) -> bool {
    does(alloc, core, sid, b"ROUT:SCAN (@1!1)")
        && does(alloc, core, sid, b"ROUT:CHAN:DEL 1")
        && is_pause(initiate(alloc, core, sid), (first_of(scan), 1_000_000))
        && has_closed(alloc, core, sid, b"(@1!1)")
        && tells(alloc, core, sid, b"STAT:OPER:COND?", b"2")
}

/// Whether no trigger, no signal and no other pause's end passes it.
fn is_passed_by_none<R: Relay, M: Meter>(alloc: Global, core: &mut Core<R, M>, sid: Sid) -> bool {
    refuses(alloc, core, sid, b"*TRG", ScpiError::TriggerIgnored)
        && refuses(alloc, core, sid, b"TRIG:SIGN", ScpiError::TriggerIgnored)
        && refuses(alloc, core, sid, b"ARM:SIGN", ScpiError::ArmIgnored)
        && refuses(alloc, core, sid, b"ARM:LAY3:SIGN", ScpiError::ArmIgnored)
        && misses_external(alloc, core)
        && misses_end(alloc, core, Ticket { scan: 1, index: 0 })
        && misses_end(alloc, core, Ticket { scan: 0, index: 1 })
        && tells(alloc, core, sid, b"STAT:OPER:COND?", b"2")
        && tells(alloc, core, sid, b"TRAC:POIN:ACT?", b"0")
}

/// Whether the end of the pause of this ticket begins the last reading.
fn reads<R: Relay, M: Meter>(
    alloc: Global,
    core: &mut Core<R, M>,
    sid: Sid,
    ticket: Ticket,
) -> bool {
    match take(alloc, core, Ask::Elapsed(ticket)) {
        Ok(Some(work)) => {
            let is_measuring = matches!(&work, Work::Measure(_))
                && tells(alloc, core, sid, b"STAT:OPER:COND?", b"16")
                && misses_end(alloc, core, ticket);
            is_measuring && matches!(carry_out(alloc, core, Some(work)), Ok(1))
        }
        other => {
            drop(other);
            false
        }
    }
}

/// Whether a closed position settles under its own ticket, and only the end of that pause lets it be read.
fn settles<R: Relay, M: Meter>(alloc: Global, core: &mut Core<R, M>, sid: Sid) -> bool {
    begins(alloc, core, sid, 1)
        && is_passed_by_none(alloc, core, sid)
        && reads(alloc, core, sid, first_of(1))
        && is_idle(alloc, core, sid)
        && has_closed(alloc, core, sid, b"(@)")
        && misses_end(alloc, core, first_of(1))
        && tells(alloc, core, sid, b"STAT:OPER:COND?", b"0")
        && tells(alloc, core, sid, b"STAT:OPER?", b"18")
        && tells(alloc, core, sid, b"FETC?", b"0.000000001")
}

/// Whether the end of this layer's pause begins that of another ticket, with this condition.
fn goes_on<R: Relay, M: Meter>(
    alloc: Global,
    core: &mut Core<R, M>,
    sid: Sid,
    index: u64,
    wanted: (Ticket, u64),
    condition: &[u8],
) -> bool {
    match take(alloc, core, Ask::Elapsed(Ticket { scan: 1, index })) {
        Ok(work) => {
            is_pause(work, wanted) && tells(alloc, core, sid, b"STAT:OPER:COND?", condition)
        }
        Err(_) => false,
    }
}

/// Whether the condition shows no settling during a layer's pause, an ARM layer's and TRIGger's, with no relay closed
/// yet.
fn pauses<R: Relay, M: Meter>(alloc: Global, core: &mut Core<R, M>, sid: Sid) -> bool {
    let arm = (Ticket { scan: 1, index: 0 }, 3_000_000);
    let trigger = (Ticket { scan: 1, index: 1 }, 2_000_000);
    let settling = (Ticket { scan: 1, index: 3 }, 1_000_000);
    does(alloc, core, sid, b"ROUT:SCAN (@1!1)")
        && does(alloc, core, sid, b"ROUT:CHAN:DEL 1")
        && does(alloc, core, sid, b"ARM:LAY3:DEL 3")
        && does(alloc, core, sid, b"TRIG:DEL 2")
        && is_pause(initiate(alloc, core, sid), arm)
        && tells(alloc, core, sid, b"STAT:OPER:COND?", b"0")
        && goes_on(alloc, core, sid, 0, trigger, b"0")
        && has_closed(alloc, core, sid, b"(@)")
        && goes_on(alloc, core, sid, 1, settling, b"2")
        && has_closed(alloc, core, sid, b"(@1!1)")
        && reads(alloc, core, sid, settling.0)
        && is_idle(alloc, core, sid)
}

/// Whether the time is as it was set while a scan runs, and none after `*RST`.
fn keeps<R: Relay, M: Meter>(alloc: Global, core: &mut Core<R, M>, sid: Sid) -> bool {
    let conflict = ScpiError::SettingsConflict;
    begins(alloc, core, sid, 1)
        && refuses(alloc, core, sid, b"ROUT:CHAN:DEL 2", conflict)
        && tells(alloc, core, sid, b"ROUT:CHAN:DEL?", b"1.000000")
        && does(alloc, core, sid, b"*RST")
        && misses_end(alloc, core, first_of(1))
        && has_closed(alloc, core, sid, b"(@)")
        && is_idle(alloc, core, sid)
        && tells(alloc, core, sid, b"ROUT:CHAN:DEL?", b"0.000000")
}

/// Whether a scan that is aborted while it settles leaves every relay open, and its meter for the next scan, which
/// awaits its own pause.
fn aborts<R: Relay, M: Meter>(alloc: Global, core: &mut Core<R, M>, sid: Sid) -> bool {
    begins(alloc, core, sid, 1)
        && does(alloc, core, sid, b"ABOR")
        && has_closed(alloc, core, sid, b"(@)")
        && tells(alloc, core, sid, b"STAT:OPER:COND?", b"0")
        && misses_end(alloc, core, first_of(1))
        && begins(alloc, core, sid, 2)
        && misses_end(alloc, core, first_of(1))
        && reads(alloc, core, sid, first_of(2))
        && is_idle(alloc, core, sid)
}

/// Whether the meter leaves a scan that settles, which is over then, with every relay open.
fn leaves<R: Relay, M: Meter>(alloc: Global, core: &mut Core<R, M>, sid: Sid) -> bool {
    begins(alloc, core, sid, 1)
        && comes_out_safe(alloc, core, 4, 4)
        && has_closed(alloc, core, sid, b"(@)")
        && is_idle(alloc, core, sid)
        && misses_end(alloc, core, first_of(1))
        && tells(alloc, core, sid, b"STAT:OPER:COND?", b"0")
        && tells(alloc, core, sid, b"SYST:ERR?", b"0,\"No error\"")
}

/// Whether a plan begins nothing once the time is another, and begins where it is the same again.
fn compares<R: Relay, M: Meter>(alloc: Global, core: &mut Core<R, M>, sid: Sid) -> bool {
    does(alloc, core, sid, b"ROUT:SCAN (@1!1)")
        && is_outdated_by(alloc, core, sid, b"ROUT:CHAN:DEL 0.000001")
        && is_outdated_by(alloc, core, sid, b"ROUT:CHAN:DEL 0")
        && is_kept_by(alloc, core, sid, b"ROUT:CHAN:DEL 0")
}

fn goes(alloc: Global, scene: Scene) -> Result<bool, Fail> {
    Ok(at_rest(alloc, three(alloc)?, voltmeter(alloc)?, scene))
}

#[test]
fn a_closed_position_settles_before_it_is_read(rt: HostRuntime) -> Result<(), Fail> {
    assert!(rt; goes(rt.alloc(), Scene::Settles)?);
    Ok(())
}

#[test]
fn a_pause_of_a_layer_is_none_that_settles(rt: HostRuntime) -> Result<(), Fail> {
    assert!(rt; goes(rt.alloc(), Scene::Pauses)?);
    Ok(())
}

#[test]
fn the_time_to_settle_stays_while_a_scan_runs_and_a_reset_ends_it(
    rt: HostRuntime,
) -> Result<(), Fail> {
    assert!(rt; goes(rt.alloc(), Scene::Keeps)?);
    Ok(())
}

#[test]
fn an_abort_while_a_position_settles_opens_it(rt: HostRuntime) -> Result<(), Fail> {
    assert!(rt; goes(rt.alloc(), Scene::Aborts)?);
    Ok(())
}

#[test]
fn a_meter_leaves_while_a_position_settles(rt: HostRuntime) -> Result<(), Fail> {
    assert!(rt; goes(rt.alloc(), Scene::Leaves)?);
    Ok(())
}

#[test]
fn a_plan_is_compared_by_its_time_to_settle(rt: HostRuntime) -> Result<(), Fail> {
    assert!(rt; goes(rt.alloc(), Scene::Compares)?);
    Ok(())
}
