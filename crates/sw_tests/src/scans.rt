//! Scans over a core of boxed cards: what they take, what they miss, and what ends them.

use crate::asks::{
    NotTaken, answer_of, does, eject, fit, has_closed, is_idle, is_running, join, joined,
    misses_end, misses_external, misses_return, refused_card, refuses, refuses_eject, send,
    snapshot, take, unit, was_refused, was_worn, work_of,
};
use crate::boxes::{Relays, Voltmeter, mux, three, voltmeter};
use std::alloc::Global;
use std::test::Fail;
use sw_base::ScpiError;
use sw_cage::{EjectRefusal, InstallRefusal, Job, Ticket};
use sw_card::{Card, Meter, Relay};
use sw_core::{Ask, Core, SessionAnswer, SessionAsk, Sid, Work};
use sw_verify::Plan;

/// The plan of the scan that may begin.
fn planned(alloc: Global, answer: Option<SessionAnswer>) -> Option<Plan> {
    match answer {
        Some(SessionAnswer::Snapshot(snapshot, _)) => match Plan::make(alloc, snapshot) {
            Ok(plan) => Some(plan),
            Err(_) => None,
        },
        other => {
            drop(other);
            None
        }
    }
}

/// The plan of a scan of what is set.
fn made_plan<R: Relay, M: Meter>(alloc: Global, core: &mut Core<R, M>, sid: Sid) -> Option<Plan> {
    let answer = snapshot(alloc, core, sid);
    planned(alloc, answer)
}

/// Begins a scan of what is set, and gives the work that it awaits.
pub fn initiate<R: Relay, M: Meter>(
    alloc: Global,
    core: &mut Core<R, M>,
    sid: Sid,
) -> Option<Work<M>> {
    match made_plan(alloc, core, sid) {
        Some(plan) => work_of(alloc, core, SessionAsk::Start(sid, plan)),
        None => None,
    }
}

/// Whether a scan of what is set runs, once begun, and awaits no work.
fn begins<R: Relay, M: Meter>(alloc: Global, core: &mut Core<R, M>, sid: Sid) -> bool {
    let work = initiate(alloc, core, sid);
    let is_none = work.is_none();
    drop(work);
    is_none && is_running(alloc, core, sid)
}

/// What a piece of work, once done, asks.
pub fn done<R: Relay, M: Meter>(work: Work<M>) -> Ask<R, M> {
    match work {
        Work::Measure(job) => Ask::Finished(job.run()),
        Work::Pause(ticket, _) => Ask::Elapsed(ticket),
    }
}

/// Carries out the work and all work that it leads to, and counts the pieces.
pub fn carry_out<R: Relay, M: Meter>(
    alloc: Global,
    core: &mut Core<R, M>,
    work: Option<Work<M>>,
) -> Result<u8, NotTaken> {
    let mut next = work;
    for pieces in 0..100u8 {
        let Some(work) = next else {
            return Ok(pieces);
        };
        next = take(alloc, core, done(work))?;
    }
    drop(next);
    Err(NotTaken)
}

/// Whether the work is a round, of six pieces.
fn is_round<R: Relay, M: Meter>(
    alloc: Global,
    core: &mut Core<R, M>,
    work: Option<Work<M>>,
) -> bool {
    matches!(carry_out(alloc, core, work), Ok(6))
}

/// Sets two rounds of ARM by the bus, with three delayed readings each.
pub fn sets_rounds<R: Relay, M: Meter>(alloc: Global, core: &mut Core<R, M>, sid: Sid) -> bool {
    does(alloc, core, sid, b"ROUT:SCAN (@1!1)")
        && does(alloc, core, sid, b"ARM:COUN 2")
        && does(alloc, core, sid, b"ARM:SOUR BUS")
        && does(alloc, core, sid, b"TRIG:COUN 3")
        && does(alloc, core, sid, b"TRIG:DEL 0.5")
}

/// Whether the bus begins a round, and no second one while its work awaits.
fn begins_round<R: Relay, M: Meter>(alloc: Global, core: &mut Core<R, M>, sid: Sid) -> bool {
    let work = send(alloc, core, sid, b"*TRG");
    let is_refused = refuses(alloc, core, sid, b"*TRG", ScpiError::TriggerIgnored);
    is_round(alloc, core, work) && is_refused
}

/// Whether ARM's wait takes neither an external trigger nor a pause that is none of its scan's.
fn awaits_bus<R: Relay, M: Meter>(alloc: Global, core: &mut Core<R, M>) -> bool {
    misses_external(alloc, core) && misses_end(alloc, core, Ticket { scan: 1, index: 0 })
}

/// Whether the scan runs for two rounds and no more.
fn goes_two_rounds<R: Relay, M: Meter>(alloc: Global, core: &mut Core<R, M>, sid: Sid) -> bool {
    begins(alloc, core, sid)
        && awaits_bus(alloc, core)
        && begins_round(alloc, core, sid)
        && is_running(alloc, core, sid)
        && begins_round(alloc, core, sid)
        && is_idle(alloc, core, sid)
}

/// Whether fourteen happenings end such a scan over these cards.
fn ends_after_rounds<R: Relay, M: Meter>(
    alloc: Global,
    core: &mut Core<R, M>,
    cards: (R, R, R),
    meter: M,
) -> bool {
    match fit(alloc, core, cards, meter) {
        Some(sid) => sets_rounds(alloc, core, sid) && goes_two_rounds(alloc, core, sid),
        None => false,
    }
}

/// The same over a core that is at rest.
fn ends_after_rounds_at_rest<R: Relay, M: Meter>(
    alloc: Global,
    cards: (R, R, R),
    meter: M,
) -> bool {
    let Ok(mut core) = Core::new(alloc) else {
        return false;
    };
    let is_so = ends_after_rounds(alloc, &mut core, cards, meter);
    drop(core);
    is_so
}

#[test]
fn fourteen_happenings_end_the_scan(rt: HostRuntime) -> Result<(), Fail> {
    let cards = three(rt.alloc())?;
    let meter = voltmeter(rt.alloc())?;
    assert!(rt; ends_after_rounds_at_rest(rt.alloc(), cards, meter));
    Ok(())
}

/// Whether a running scan keeps its meter out, and slot 2 takes no other card, but gives it back.
pub fn keeps_its_cards<R: Relay, M: Meter>(alloc: Global, core: &mut Core<R, M>, other: R) -> bool {
    match refused_card(alloc, core, 2, Card::relays(other)) {
        Some((refusal, back)) => {
            let is_back = refusal == InstallRefusal::Busy && back.serial() == 7;
            drop(back);
            is_back
                && refuses_eject(alloc, core, 4, EjectRefusal::Out)
                && refuses_eject(alloc, core, 5, EjectRefusal::Vacant)
        }
        None => false,
    }
}

/// Whether the card of that serial number comes out of the slot, with no relay closed.
pub fn comes_out_safe<R: Relay, M: Meter>(
    alloc: Global,
    core: &mut Core<R, M>,
    slot: u8,
    serial: u32,
) -> bool {
    match eject(alloc, core, slot) {
        Some(card) => {
            let is_safe = card.serial() == serial && !card.any_closed();
            drop(card);
            is_safe
        }
        None => false,
    }
}

/// Whether the card of slot 1 leaves a running scan: every relay is open then, and no scan runs.
fn leaves<R: Relay, M: Meter>(alloc: Global, core: &mut Core<R, M>, sid: Sid) -> bool {
    comes_out_safe(alloc, core, 1, 1)
        && has_closed(alloc, core, sid, b"(@)")
        && is_idle(alloc, core, sid)
}

/// Begins a scan of 1!1 while 2!1 is closed, and gives its first measurement.
pub fn measuring<R: Relay, M: Meter>(
    alloc: Global,
    core: &mut Core<R, M>,
    sid: Sid,
) -> Option<Job<M>> {
    if !does(alloc, core, sid, b"ROUT:SCAN (@1!1)")
        || !does(alloc, core, sid, b"ROUT:CLOS (@2!1)")
    {
        return None;
    }
    match initiate(alloc, core, sid) {
        Some(Work::Measure(job)) => Some(job),
        other => {
            drop(other);
            None
        }
    }
}

/// Whether cards leave the scan of this measurement, which ends it, and its meter when it is back.
fn is_pulled<R: Relay, M: Meter>(
    alloc: Global,
    core: &mut Core<R, M>,
    sid: Sid,
    other: R,
    job: Job<M>,
) -> bool {
    let is_kept = keeps_its_cards(alloc, core, other);
    let is_left = leaves(alloc, core, sid);
    let is_missed = misses_return(alloc, core, job);
    is_kept && is_left && is_missed && comes_out_safe(alloc, core, 4, 4)
}

fn pulls<R: Relay, M: Meter>(
    alloc: Global,
    core: &mut Core<R, M>,
    cards: (R, R, R),
    other: R,
    meter: M,
) -> bool {
    let Some(sid) = fit(alloc, core, cards, meter) else {
        return false;
    };
    match measuring(alloc, core, sid) {
        Some(job) => is_pulled(alloc, core, sid, other, job),
        None => false,
    }
}

/// The same over a core that is at rest.
fn pulls_at_rest<R: Relay, M: Meter>(alloc: Global, cards: (R, R, R), other: R, meter: M) -> bool {
    let Ok(mut core) = Core::new(alloc) else {
        return false;
    };
    let is_so = pulls(alloc, &mut core, cards, other, meter);
    drop(core);
    is_so
}

#[test]
fn cards_leave_a_running_scan(rt: HostRuntime) -> Result<(), Fail> {
    let cards = three(rt.alloc())?;
    let other = mux(rt.alloc(), 7, 1)?;
    let meter = voltmeter(rt.alloc())?;
    assert!(rt; pulls_at_rest(rt.alloc(), cards, other, meter));
    Ok(())
}

/// The answer to the plan that could begin, after this was sent.
fn answer_after<R: Relay, M: Meter>(
    alloc: Global,
    core: &mut Core<R, M>,
    sid: Sid,
    text: &[u8],
) -> Option<SessionAnswer> {
    match made_plan(alloc, core, sid) {
        Some(plan) => {
            let is_done = does(alloc, core, sid, text);
            let answer = answer_of(alloc, core, SessionAsk::Start(sid, plan));
            if !is_done {
                drop(answer);
                return None;
            }
            answer
        }
        None => None,
    }
}

/// Whether the plan that could begin is refused as a conflict once this was sent.
pub fn is_outdated_by<R: Relay, M: Meter>(
    alloc: Global,
    core: &mut Core<R, M>,
    sid: Sid,
    text: &[u8],
) -> bool {
    was_refused(
        answer_after(alloc, core, sid, text),
        ScpiError::SettingsConflict,
    )
}

/// Whether the plan that could begin does so once this was sent.
pub fn is_kept_by<R: Relay, M: Meter>(
    alloc: Global,
    core: &mut Core<R, M>,
    sid: Sid,
    text: &[u8],
) -> bool {
    let answer = answer_after(alloc, core, sid, text);
    let is_done = matches!(&answer, Some(SessionAnswer::Done(None)));
    drop(answer);
    is_done
}

/// Whether a plan begins no scan once its settings or the closed channels have changed.
fn outdates<R: Relay, M: Meter>(
    alloc: Global,
    core: &mut Core<R, M>,
    cards: (R, R, R),
    meter: M,
) -> bool {
    match fit(alloc, core, cards, meter) {
        Some(sid) => {
            does(alloc, core, sid, b"ROUT:SCAN (@1!1)")
                && is_outdated_by(alloc, core, sid, b"TRIG:COUN 2")
                && is_outdated_by(alloc, core, sid, b"ROUT:CLOS (@2!1)")
                && is_kept_by(alloc, core, sid, b"*CLS")
        }
        None => false,
    }
}

/// The same over a core that is at rest.
fn outdates_at_rest<R: Relay, M: Meter>(alloc: Global, cards: (R, R, R), meter: M) -> bool {
    let Ok(mut core) = Core::new(alloc) else {
        return false;
    };
    let is_so = outdates(alloc, &mut core, cards, meter);
    drop(core);
    is_so
}

#[test]
fn stale_plans_begin_nothing(rt: HostRuntime) -> Result<(), Fail> {
    let cards = three(rt.alloc())?;
    let meter = voltmeter(rt.alloc())?;
    assert!(rt; outdates_at_rest(rt.alloc(), cards, meter));
    Ok(())
}

/// Whether the mainframe gives a Join back where it would have the last number.
fn join_is_worn<R: Relay, M: Meter>(alloc: Global) -> bool {
    let Ok(core) = Core::with_counts(alloc, u64::MAX, 0) else {
        return false;
    };
    let mut core: Core<R, M> = core;
    let is_worn = was_worn(join(alloc, &mut core));
    drop(core);
    is_worn
}

/// Whether the mainframe gives an ask back after it has numbered all events, while an abort still ends a scan.
fn wears_out<R: Relay, M: Meter>(alloc: Global, core: &mut Core<R, M>) -> bool {
    match joined(alloc, core) {
        Some(sid) => {
            was_worn(unit(alloc, core, sid, b"*IDN?"))
                && does(alloc, core, sid, b"ABOR")
                && core.events() == u64::MAX
        }
        None => false,
    }
}

/// The same over a core with one event left.
fn last_event_wears_out<R: Relay, M: Meter>(alloc: Global) -> bool {
    let Ok(core) = Core::with_counts(alloc, u64::MAX - 1, 0) else {
        return false;
    };
    let mut core: Core<R, M> = core;
    let is_so = wears_out(alloc, &mut core);
    drop(core);
    is_so
}

#[test]
fn events_are_worn_out(rt: HostRuntime) {
    assert!(rt; join_is_worn::<Relays, Voltmeter>(rt.alloc()));
    assert!(rt; last_event_wears_out::<Relays, Voltmeter>(rt.alloc()));
}

/// Whether no scan begins over a core.
fn begins_none<R: Relay, M: Meter>(alloc: Global, core: &mut Core<R, M>) -> bool {
    match joined(alloc, core) {
        Some(sid) => was_refused(snapshot(alloc, core, sid), ScpiError::SystemError),
        None => false,
    }
}

/// Whether no scan begins once all are numbered.
fn is_exhausted<R: Relay, M: Meter>(alloc: Global) -> bool {
    let Ok(core) = Core::with_counts(alloc, 0, u64::MAX) else {
        return false;
    };
    let mut core: Core<R, M> = core;
    let is_so = begins_none(alloc, &mut core);
    drop(core);
    is_so
}

#[test]
fn scans_are_worn_out(rt: HostRuntime) {
    assert!(rt; is_exhausted::<Relays, Voltmeter>(rt.alloc()));
}
