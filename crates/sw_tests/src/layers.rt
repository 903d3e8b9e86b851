//! A scan of three nested ARM layers, by the bus, by a timer and by the external trigger, and of TRIGger by its own
//! timer, over a core of boxed cards: the test offers each happening at each of its awaiting items; the scan takes it
//! where it is due and nowhere else.

use crate::asks::{
    NotTaken, answer_of, does, fit, has_closed, install, is_idle, is_running, joined, misses_end,
    misses_external, misses_return, refuses, send, take, tells, was_refused,
};
use crate::boxes::{three, voltmeter};
use crate::scans::{comes_out_safe, done, initiate};
use std::alloc::{AllocError, Global};
use std::test::Fail;
use sw_base::ScpiError;
use sw_cage::{Job, Ticket};
use sw_card::{Card, Meter, Relay};
use sw_core::{Ask, Core, SessionAsk, Sid, Work};

/// What a scan awaits.
#[derive(Clone, Copy, PartialEq, Eq)]
enum Due {
    /// The bus, of ARM layer 1.
    Bus,
    /// The end of ARM layer 2's timer.
    Timer,
    /// The end of ARM layer 2's delay.
    Delay,
    /// The external trigger, of ARM layer 3.
    External,
    /// The end of TRIGger's timer.
    Trigger,
    /// A reading of 1!1.
    First,
    /// A reading of 1!2.
    Second,
}

/// What one turn of ARM layer 1 awaits, and the index of each in the agenda of a scan, with a closing before each
/// reading and an opening behind it.
const TURN: [(Due, u64); 25] = [
    (Due::Bus, 0),
    (Due::Timer, 1),
    (Due::Delay, 2),
    (Due::External, 3),
    (Due::Trigger, 4),
    (Due::First, 6),
    (Due::Trigger, 8),
    (Due::Second, 10),
    (Due::External, 12),
    (Due::Trigger, 13),
    (Due::First, 15),
    (Due::Trigger, 17),
    (Due::Second, 19),
    (Due::Timer, 21),
    (Due::Delay, 22),
    (Due::External, 23),
    (Due::Trigger, 24),
    (Due::First, 26),
    (Due::Trigger, 28),
    (Due::Second, 30),
    (Due::External, 32),
    (Due::Trigger, 33),
    (Due::First, 35),
    (Due::Trigger, 37),
    (Due::Second, 39),
];

/// The length of a turn's agenda.
const TURN_LENGTH: u64 = 41;

/// How many things both turns await.
const ITEMS: u8 = 50;

/// What the awaiting item of this number, from 0, is.
fn due_at(item: u8) -> Due {
    TURN[usize::from(item % 25)].0
}

/// What the awaiting item of this number would be awaited under in the scan of that number.
fn ticket_of(scan: u64, item: u8) -> Ticket {
    let turns = u64::from(item / 25);
    Ticket {
        scan,
        index: turns * TURN_LENGTH + TURN[usize::from(item % 25)].1,
    }
}

/// What the awaiting item of this number is awaited under: the scan is the second one.
fn ticket_at(item: u8) -> Ticket {
    ticket_of(2, item)
}

/// The microseconds of the pause that is given out for this.
fn micros(due: Due) -> Option<u64> {
    match due {
        Due::Timer => Some(250_000),
        Due::Delay => Some(500_000),
        Due::Trigger => Some(125_000),
        _ => None,
    }
}

/// What OPERation's condition is where this is awaited: bit 4 at a reading, 5 where TRIGger waits, 6 where ARM does.
fn condition(due: Due) -> &'static [u8] {
    match due {
        Due::Bus | Due::Timer | Due::External => b"64",
        Due::Trigger => b"32",
        Due::First | Due::Second => b"16",
        Due::Delay => b"0",
    }
}

/// The closed channels while the scan awaits this; a command closed 2!16 before it.
fn closed(due: Due) -> &'static [u8] {
    match due {
        Due::First => b"(@1!1,2!16)",
        Due::Second => b"(@1!2,2!16)",
        _ => b"(@2!16)",
    }
}

/// The layer's own command that passes a wait for this.
fn signal(due: Due) -> Option<&'static [u8]> {
    match due {
        Due::Bus => Some(b"ARM:SIGN"),
        Due::Timer => Some(b"ARM:LAY2:SIGN"),
        Due::External => Some(b"ARM:LAY3:SIGN"),
        Due::Trigger => Some(b"TRIG:SIGN"),
        _ => None,
    }
}

/// Sets two turns of each layer.
fn sets_layers<R: Relay, M: Meter>(alloc: Global, core: &mut Core<R, M>, sid: Sid) -> bool {
    does(alloc, core, sid, b"ROUT:SCAN (@1!1,1!2)")
        && does(alloc, core, sid, b"ROUT:CLOS (@2!16)")
        && does(alloc, core, sid, b"ARM:COUN 2")
        && does(alloc, core, sid, b"ARM:SOUR BUS")
        && does(alloc, core, sid, b"ARM:LAY2:COUN 2")
        && does(alloc, core, sid, b"ARM:LAY2:SOUR TIM")
        && does(alloc, core, sid, b"ARM:LAY2:TIM 0.25")
        && does(alloc, core, sid, b"ARM:LAY2:DEL 0.5")
        && does(alloc, core, sid, b"ARM:LAY3:COUN 2")
        && does(alloc, core, sid, b"ARM:LAY3:SOUR EXT")
        && does(alloc, core, sid, b"TRIG:COUN 2")
        && does(alloc, core, sid, b"TRIG:SOUR TIM")
        && does(alloc, core, sid, b"TRIG:TIM 0.125")
        && tells(alloc, core, sid, b"DIAG:SCAN:BOUN?", b"50")
}

/// Whether the work is what the item of this number gives out.
fn is_work<M: Meter>(work: &Option<Work<M>>, item: u8) -> bool {
    let wanted = ticket_at(item);
    let due = due_at(item);
    match work {
        Some(Work::Pause(told, length)) => *told == wanted && micros(due) == Some(*length),
        Some(Work::Measure(job)) => {
            job.ticket() == wanted && (due == Due::First || due == Due::Second)
        }
        None => due == Due::Bus || due == Due::External,
    }
}

/// Whether the scan's place is the item of this number.
fn stands<R: Relay, M: Meter>(alloc: Global, core: &mut Core<R, M>, sid: Sid, item: u8) -> bool {
    let due = due_at(item);
    is_running(alloc, core, sid)
        && tells(alloc, core, sid, b"STAT:OPER:COND?", condition(due))
        && has_closed(alloc, core, sid, closed(due))
}

/// How waits are passed.
#[derive(Clone, Copy, PartialEq, Eq)]
enum Way {
    /// By the source of their layer.
    Source,
    /// By the layer's own command, under any source.
    Signal,
}

/// Passes the item of this number, and gives the work of the next.
fn passed<R: Relay, M: Meter>(
    alloc: Global,
    core: &mut Core<R, M>,
    sid: Sid,
    item: u8,
    way: Way,
    work: Option<Work<M>>,
) -> Result<Option<Work<M>>, NotTaken> {
    let due = due_at(item);
    if let (Way::Signal, Some(text)) = (way, signal(due)) {
        drop(work);
        return Ok(send(alloc, core, sid, text));
    }
    match work {
        Some(work) => take(alloc, core, done(work)),
        None if due == Due::Bus => Ok(send(alloc, core, sid, b"*TRG")),
        None => take(alloc, core, Ask::External),
    }
}

/// Begins the scan, and advances it to the item of this number, where each before it gives out its work.
fn reached<R: Relay, M: Meter>(
    alloc: Global,
    core: &mut Core<R, M>,
    sid: Sid,
    item: u8,
    way: Way,
) -> Result<Option<Work<M>>, NotTaken> {
    let mut work = initiate(alloc, core, sid);
    for before in 0..item {
        if !is_work(&work, before) {
            drop(work);
            return Err(NotTaken);
        }
        work = passed(alloc, core, sid, before, way, work)?;
    }
    Ok(work)
}

/// Whether a session's command is refused by this error, unless it is due.
fn is_refused<R: Relay, M: Meter>(
    alloc: Global,
    core: &mut Core<R, M>,
    sid: Sid,
    item: u8,
    text: &[u8],
    error: ScpiError,
) -> bool {
    if signal(due_at(item)) == Some(text) {
        return true;
    }
    refuses(alloc, core, sid, text, error)
}

/// Whether the signals of all layers but the one that waits are refused.
fn refuses_signals<R: Relay, M: Meter>(
    alloc: Global,
    core: &mut Core<R, M>,
    sid: Sid,
    item: u8,
) -> bool {
    is_refused(
        alloc,
        core,
        sid,
        item,
        b"TRIG:SIGN",
        ScpiError::TriggerIgnored,
    ) && is_refused(alloc, core, sid, item, b"ARM:SIGN", ScpiError::ArmIgnored)
        && is_refused(
            alloc,
            core,
            sid,
            item,
            b"ARM:LAY2:SIGN",
            ScpiError::ArmIgnored,
        )
        && is_refused(
            alloc,
            core,
            sid,
            item,
            b"ARM:LAY3:SIGN",
            ScpiError::ArmIgnored,
        )
}

/// Whether the bus, by a command and by the interface's message, and the external trigger pass nothing, unless due.
fn misses_triggers<R: Relay, M: Meter>(
    alloc: Global,
    core: &mut Core<R, M>,
    sid: Sid,
    item: u8,
) -> bool {
    let due = due_at(item);
    let is_bus_refused = due == Due::Bus
        || (refuses(alloc, core, sid, b"*TRG", ScpiError::TriggerIgnored)
            && was_refused(
                answer_of(alloc, core, SessionAsk::Bus(sid)),
                ScpiError::TriggerIgnored,
            ));
    is_bus_refused && (due == Due::External || misses_external(alloc, core))
}

/// Whether the end of no pause is taken at the item of this number, unless it is that item's own: neither that of an
/// earlier item nor of a later one, nor of another scan.
fn misses_ends<R: Relay, M: Meter>(alloc: Global, core: &mut Core<R, M>, item: u8) -> bool {
    for other in 0..ITEMS {
        let is_own = other == item && micros(due_at(item)).is_some();
        if !is_own && !misses_end(alloc, core, ticket_at(other)) {
            return false;
        }
    }
    misses_end(alloc, core, ticket_of(1, item)) && misses_end(alloc, core, ticket_of(3, item))
}

/// Begins a scan by the meter of slot 5, ends it, and gives its measurement, which nothing awaits any more.
fn stale<R: Relay, M: Meter>(alloc: Global, core: &mut Core<R, M>, sid: Sid) -> Option<Job<M>> {
    if !does(alloc, core, sid, b"ROUT:SCAN (@1!1)") || !does(alloc, core, sid, b"ROUT:SCAN:MET 5") {
        return None;
    }
    let work = initiate(alloc, core, sid);
    let is_ended = does(alloc, core, sid, b"ABOR") && does(alloc, core, sid, b"ROUT:SCAN:MET 4");
    match work {
        Some(Work::Measure(job)) if is_ended => Some(job),
        other => {
            drop(other);
            None
        }
    }
}

/// Whether all that isn't due is refused or missed at the item of this number, and changes nothing of the scan.
fn holds<R: Relay, M: Meter>(
    alloc: Global,
    core: &mut Core<R, M>,
    sid: Sid,
    item: u8,
    job: Job<M>,
) -> bool {
    stands(alloc, core, sid, item)
        && refuses_signals(alloc, core, sid, item)
        && misses_triggers(alloc, core, sid, item)
        && misses_ends(alloc, core, item)
        && misses_return(alloc, core, job)
        && stands(alloc, core, sid, item)
}

/// Whether the scan takes what is due at the item of this number, and then is at the next, or is over.
fn goes_on<R: Relay, M: Meter>(
    alloc: Global,
    core: &mut Core<R, M>,
    sid: Sid,
    item: u8,
    way: Way,
    work: Option<Work<M>>,
) -> bool {
    let is_due = is_work(&work, item);
    let after = item.saturating_add(1);
    match passed(alloc, core, sid, item, way, work) {
        Ok(next) if after < ITEMS => {
            let is_next = is_work(&next, after);
            drop(next);
            is_due && is_next && stands(alloc, core, sid, after)
        }
        Ok(next) => {
            let is_none = next.is_none();
            drop(next);
            is_due && is_none && is_idle(alloc, core, sid)
        }
        Err(NotTaken) => false,
    }
}

/// Whether each happening that a session offers at the item of this number is taken where it is due and nowhere else,
/// in a scan that another session began.
fn offers<R: Relay, M: Meter>(
    alloc: Global,
    core: &mut Core<R, M>,
    began: Sid,
    offering: Sid,
    item: u8,
    way: Way,
) -> bool {
    let Some(job) = stale(alloc, core, began) else {
        return false;
    };
    if !sets_layers(alloc, core, began) {
        drop(job);
        return false;
    }
    match reached(alloc, core, began, item, way) {
        Ok(work) => {
            let is_held = holds(alloc, core, offering, item, job);
            goes_on(alloc, core, offering, item, way, work)
                && is_held
                && does(alloc, core, began, b"ABOR")
                && comes_out_safe(alloc, core, 5, 4)
        }
        Err(NotTaken) => {
            drop(job);
            false
        }
    }
}

/// The same with these cards, and a second meter in slot 5, over a core that is at rest.
fn offers_at_rest<R: Relay, M: Meter>(
    alloc: Global,
    cards: (R, R, R),
    meters: (M, M),
    item: u8,
    way: Way,
) -> bool {
    let Ok(mut core) = Core::new(alloc) else {
        return false;
    };
    let (meter, spare) = meters;
    let began = fit(alloc, &mut core, cards, meter);
    let has_spare = install(alloc, &mut core, 5, Card::meter(spare));
    let offering = joined(alloc, &mut core);
    let is_so = match (began, offering) {
        (Some(began), Some(offering)) => offers(alloc, &mut core, began, offering, item, way),
        _ => false,
    };
    drop(core);
    is_so && has_spare
}

/// The same of boxed cards, for each item.
fn offers_at_each(alloc: Global, way: Way) -> Result<bool, AllocError> {
    for item in 0..ITEMS {
        let cards = three(alloc)?;
        let meters = (voltmeter(alloc)?, voltmeter(alloc)?);
        if !offers_at_rest(alloc, cards, meters, item, way) {
            return Ok(false);
        }
    }
    Ok(true)
}

#[test]
fn what_is_due_passes_each_item_and_nothing_else_does(rt: HostRuntime) -> Result<(), Fail> {
    assert!(rt; offers_at_each(rt.alloc(), Way::Source)?);
    Ok(())
}

#[test]
fn the_end_of_a_timer_comes_too_late_after_its_layers_signal(rt: HostRuntime) -> Result<(), Fail> {
    assert!(rt; offers_at_each(rt.alloc(), Way::Signal)?);
    Ok(())
}
