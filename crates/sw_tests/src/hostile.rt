//! Cards that fail, are aborted and leave at each place of a scan, over a core of boxed cards.

use crate::asks::{
    NotTaken, does, fit, has_closed, is_idle, is_running, misses_end, misses_return, refuses,
    refuses_eject, send, take, tells,
};
use crate::boxes::{Relays, Voltmeter, three, voltmeter};
use crate::scans::{carry_out, comes_out_safe, done, initiate, sets_rounds};
use std::alloc::{AllocError, Global};
use std::test::Fail;
use sw_base::ScpiError;
use sw_cage::EjectRefusal;
use sw_card::{Meter, Relay};
use sw_core::{Core, Sid, Work};
use sw_kinds::{Fuse, Mux, OpenFuse, SimDriver, SimSource, SourceFuse, Volt};

/// The cards of `three`, with this one in slot 1.
fn with_first(alloc: Global, first: Relays) -> Result<(Relays, Relays, Relays), AllocError> {
    let (_, second, third) = three(alloc)?;
    Ok((first, second, third))
}

/// Cards of which, in slot 1, the closing with this number fails.
pub fn with_closing(alloc: Global, number: u32) -> Result<(Relays, Relays, Relays), AllocError> {
    let fuse = Fuse::new(SimDriver::new(), Some(number));
    with_first(alloc, Box::new(alloc, Mux::new(1, 20, 1, fuse))?)
}

/// Cards of which, in slot 1, the opening with this number fails.
pub fn with_opening(alloc: Global, number: u32) -> Result<(Relays, Relays, Relays), AllocError> {
    let fuse = OpenFuse::new(SimDriver::new(), Some(number));
    with_first(alloc, Box::new(alloc, Mux::new(1, 20, 1, fuse))?)
}

/// A meter that counts nanovolts from 1, of which the reading with this number fails.
fn with_reading(alloc: Global, number: u32) -> Result<Voltmeter, AllocError> {
    let fuse = SourceFuse::new(SimSource::new(1, 1), Some(number));
    Ok(Box::new(alloc, Volt::new(4, fuse))?)
}

/// Sets three passes round two channels, with 2!1 closed before by a command.
fn sets_passes<R: Relay, M: Meter>(alloc: Global, core: &mut Core<R, M>, sid: Sid) -> bool {
    does(alloc, core, sid, b"ROUT:CLOS (@2!1)")
        && does(alloc, core, sid, b"ROUT:SCAN (@1!1,1!2)")
        && does(alloc, core, sid, b"TRIG:COUN 3")
}

/// How many pieces were taken before one that was not, if any.
pub fn pieces_before_failure<R: Relay, M: Meter>(
    alloc: Global,
    core: &mut Core<R, M>,
    work: Option<Work<M>>,
) -> Option<u8> {
    let mut next = work;
    for pieces in 0..100u8 {
        let work = next?;
        next = match take(alloc, core, done(work)) {
            Ok(more) => more,
            Err(NotTaken) => return Some(pieces),
        };
    }
    drop(next);
    None
}

/// Whether the mainframe reports a card's failure once, and every relay is open.
pub fn is_broken_off<R: Relay, M: Meter>(alloc: Global, core: &mut Core<R, M>, sid: Sid) -> bool {
    tells(
        alloc,
        core,
        sid,
        b"SYST:ERR:ALL?",
        b"-240,\"Hardware error\"",
    ) && tells(alloc, core, sid, b"STAT:QUES:COND?", b"512")
        && has_closed(alloc, core, sid, b"(@)")
        && is_idle(alloc, core, sid)
}

/// Whether these are the readings, from one nanovolt on.
pub fn keeps_readings<R: Relay, M: Meter>(
    alloc: Global,
    core: &mut Core<R, M>,
    sid: Sid,
    count: u8,
) -> bool {
    let kept: &[u8] = match count {
        0 => return refuses(alloc, core, sid, b"FETC?", ScpiError::DataCorruptOrStale),
        1 => b"0.000000001",
        2 => b"0.000000001,0.000000002",
        _ => b"0.000000001,0.000000002,0.000000003",
    };
    tells(alloc, core, sid, b"FETC?", kept)
}

/// Whether a scan of three passes completes now, which shows that no card is at fault.
fn goes_through<R: Relay, M: Meter>(alloc: Global, core: &mut Core<R, M>, sid: Sid) -> bool {
    let work = initiate(alloc, core, sid);
    matches!(carry_out(alloc, core, work), Ok(3))
        && tells(alloc, core, sid, b"TRAC:POIN:ACT?", b"3")
        && tells(alloc, core, sid, b"STAT:QUES:COND?", b"0")
}

/// Whether a card's failure ends a scan of three passes after `pieces` pieces of work and `readings` readings, with
/// every relay open and the meter in its slot, and whether the next scan completes.
fn breaks_off<R: Relay, M: Meter>(
    alloc: Global,
    core: &mut Core<R, M>,
    sid: Sid,
    pieces: u8,
    readings: u8,
) -> bool {
    let work = initiate(alloc, core, sid);
    pieces_before_failure(alloc, core, work) == Some(pieces)
        && is_broken_off(alloc, core, sid)
        && keeps_readings(alloc, core, sid, readings)
        && goes_through(alloc, core, sid)
        && comes_out_safe(alloc, core, 4, 4)
}

/// The same with these cards over a core that is at rest.
fn breaks_off_at_rest<R: Relay, M: Meter>(
    alloc: Global,
    cards: (R, R, R),
    meter: M,
    pieces: u8,
    readings: u8,
) -> bool {
    let Ok(mut core) = Core::new(alloc) else {
        return false;
    };
    let is_so = match fit(alloc, &mut core, cards, meter) {
        Some(sid) => {
            sets_passes(alloc, &mut core, sid)
                && breaks_off(alloc, &mut core, sid, pieces, readings)
        }
        None => false,
    };
    drop(core);
    is_so
}

#[test]
fn each_opening_fails_in_turn(rt: HostRuntime) -> Result<(), Fail> {
    for pieces in 0..3u8 {
        let readings = pieces + 1;
        let cards = with_opening(rt.alloc(), u32::from(readings))?;
        let meter = voltmeter(rt.alloc())?;
        assert!(rt; breaks_off_at_rest(rt.alloc(), cards, meter, pieces, readings));
    }
    Ok(())
}

#[test]
fn each_reading_fails_in_turn(rt: HostRuntime) -> Result<(), Fail> {
    for pieces in 0..3u8 {
        let cards = three(rt.alloc())?;
        let meter = with_reading(rt.alloc(), u32::from(pieces) + 1)?;
        assert!(rt; breaks_off_at_rest(rt.alloc(), cards, meter, pieces, pieces));
    }
    Ok(())
}

#[test]
fn each_later_closing_fails_in_turn(rt: HostRuntime) -> Result<(), Fail> {
    for pieces in 0..2u8 {
        let readings = pieces + 1;
        let cards = with_closing(rt.alloc(), u32::from(pieces) + 2)?;
        let meter = voltmeter(rt.alloc())?;
        assert!(rt; breaks_off_at_rest(rt.alloc(), cards, meter, pieces, readings));
    }
    Ok(())
}

/// Whether a failure of a scan's first closing ends it as it begins.
fn begins_broken<R: Relay, M: Meter>(alloc: Global, cards: (R, R, R), meter: M) -> bool {
    let Ok(mut core) = Core::new(alloc) else {
        return false;
    };
    let is_so = match fit(alloc, &mut core, cards, meter) {
        Some(sid) => {
            sets_passes(alloc, &mut core, sid)
                && begins_nothing(alloc, &mut core, sid)
                && is_broken_off(alloc, &mut core, sid)
                && keeps_readings(alloc, &mut core, sid, 0)
                && goes_through(alloc, &mut core, sid)
        }
        None => false,
    };
    drop(core);
    is_so
}

/// Whether a scan that begins gives no work.
pub fn begins_nothing<R: Relay, M: Meter>(alloc: Global, core: &mut Core<R, M>, sid: Sid) -> bool {
    let work = initiate(alloc, core, sid);
    let is_none = work.is_none();
    drop(work);
    is_none
}

#[test]
fn the_first_closing_fails(rt: HostRuntime) -> Result<(), Fail> {
    let cards = with_closing(rt.alloc(), 1)?;
    let meter = voltmeter(rt.alloc())?;
    assert!(rt; begins_broken(rt.alloc(), cards, meter));
    Ok(())
}

/// Whether this is missed, once done. Where it is a measurement, its meter is back then.
fn misses_late<R: Relay, M: Meter>(
    alloc: Global,
    core: &mut Core<R, M>,
    work: Option<Work<M>>,
) -> bool {
    match work {
        Some(Work::Measure(job)) => misses_return(alloc, core, job),
        Some(Work::Pause(ticket, _)) => misses_end(alloc, core, ticket),
        None => true,
    }
}

/// Whether an aborted scan's reading that fails reports nothing, and its meter is back.
fn fails_in_silence<R: Relay, M: Meter>(alloc: Global, core: &mut Core<R, M>, sid: Sid) -> bool {
    let work = initiate(alloc, core, sid);
    let is_aborted = does(alloc, core, sid, b"ABOR");
    misses_late(alloc, core, work)
        && is_aborted
        && tells(alloc, core, sid, b"SYST:ERR:COUN?", b"0")
        && tells(alloc, core, sid, b"STAT:QUES:COND?", b"0")
        && tells(alloc, core, sid, b"TRAC:POIN:ACT?", b"0")
        && goes_through(alloc, core, sid)
        && comes_out_safe(alloc, core, 4, 4)
}

fn fails_in_silence_at_rest<R: Relay, M: Meter>(alloc: Global, cards: (R, R, R), meter: M) -> bool {
    let Ok(mut core) = Core::new(alloc) else {
        return false;
    };
    let is_so = match fit(alloc, &mut core, cards, meter) {
        Some(sid) => {
            sets_passes(alloc, &mut core, sid) && fails_in_silence(alloc, &mut core, sid)
        }
        None => false,
    };
    drop(core);
    is_so
}

#[test]
fn a_late_failing_return_is_silent(rt: HostRuntime) -> Result<(), Fail> {
    let cards = three(rt.alloc())?;
    let meter = with_reading(rt.alloc(), 1)?;
    assert!(rt; fails_in_silence_at_rest(rt.alloc(), cards, meter));
    Ok(())
}

/// Begins a scan of two rounds with 2!1 closed before by a command, and advances it to the awaiting item of this index:
/// the bus passes a wait, and the test carries out the work.
pub fn reached<R: Relay, M: Meter>(
    alloc: Global,
    core: &mut Core<R, M>,
    sid: Sid,
    item: u8,
) -> Result<Option<Work<M>>, NotTaken> {
    let mut work = initiate(alloc, core, sid);
    for _ in 0..item {
        work = match work {
            Some(work) => take(alloc, core, done(work))?,
            None => send(alloc, core, sid, b"*TRG"),
        };
    }
    Ok(work)
}

/// Whether the awaiting item of this index is a reading: the scan awaits the bus, a pause and a reading, two pauses
/// and readings more, and then all of that again.
fn is_reading(item: u8) -> bool {
    matches!(item, 2 | 4 | 6 | 9 | 11 | 13)
}

/// Whether the work, and what is closed, are those of the awaiting item of this index.
fn awaits<R: Relay, M: Meter>(
    alloc: Global,
    core: &mut Core<R, M>,
    sid: Sid,
    item: u8,
    work: &Option<Work<M>>,
) -> bool {
    let is_due = match work {
        Some(Work::Measure(_)) => is_reading(item),
        Some(Work::Pause(_, _)) => !is_reading(item) && item != 0 && item != 7,
        None => item == 0 || item == 7,
    };
    let closed: &[u8] = if is_reading(item) {
        b"(@1!1,2!1)"
    } else {
        b"(@2!1)"
    };
    is_due && is_running(alloc, core, sid) && has_closed(alloc, core, sid, closed)
}

/// What befalls a scan.
#[derive(Clone, Copy)]
enum Blow {
    Abort,
    EjectsCard,
    EjectsMeter,
}

/// Whether the scan that awaits this is over, every relay is open, and what it awaited comes too late.
pub fn ends<R: Relay, M: Meter>(
    alloc: Global,
    core: &mut Core<R, M>,
    sid: Sid,
    work: Option<Work<M>>,
) -> bool {
    let is_over = has_closed(alloc, core, sid, b"(@)") && is_idle(alloc, core, sid);
    misses_late(alloc, core, work)
        && is_over
        && tells(alloc, core, sid, b"SYST:ERR:COUN?", b"0")
        && tells(alloc, core, sid, b"STAT:QUES:COND?", b"0")
}

/// Whether the meter stays out, and the scan continues.
fn keeps_meter_out<R: Relay, M: Meter>(
    alloc: Global,
    core: &mut Core<R, M>,
    sid: Sid,
    item: u8,
    work: Option<Work<M>>,
) -> bool {
    let is_refused = refuses_eject(alloc, core, 4, EjectRefusal::Out);
    let is_kept = awaits(alloc, core, sid, item, &work);
    let next = pieces_before_failure(alloc, core, work);
    is_refused && is_kept && next.is_none()
}

/// Whether a blow to the scan that awaits this ends it; a meter that is out can't be ejected.
fn survives<R: Relay, M: Meter>(
    alloc: Global,
    core: &mut Core<R, M>,
    sid: Sid,
    item: u8,
    blow: Blow,
    work: Option<Work<M>>,
) -> bool {
    match blow {
        Blow::EjectsMeter if is_reading(item) => keeps_meter_out(alloc, core, sid, item, work),
        Blow::EjectsMeter => { comes_out_safe(alloc, core, 4, 4) & ends(alloc, core, sid, work) }
        Blow::EjectsCard => comes_out_safe(alloc, core, 1, 1) & ends(alloc, core, sid, work),
        Blow::Abort => {
            does(alloc, core, sid, b"ABOR")
                & ends(alloc, core, sid, work)
                & comes_out_safe(alloc, core, 4, 4)
        }
    }
}

/// Whether a scan survives a blow at the awaiting item of this index.
fn survives_at<R: Relay, M: Meter>(
    alloc: Global,
    core: &mut Core<R, M>,
    sid: Sid,
    item: u8,
    blow: Blow,
) -> bool {
    if !does(alloc, core, sid, b"ROUT:CLOS (@2!1)") || !sets_rounds(alloc, core, sid) {
        return false;
    }
    match reached(alloc, core, sid, item) {
        Ok(work) => {
            awaits(alloc, core, sid, item, &work) & survives(alloc, core, sid, item, blow, work)
        }
        Err(NotTaken) => false,
    }
}

/// The same with these cards over a core that is at rest.
fn survives_at_rest<R: Relay, M: Meter>(
    alloc: Global,
    cards: (R, R, R),
    meter: M,
    item: u8,
    blow: Blow,
) -> bool {
    let Ok(mut core) = Core::new(alloc) else {
        return false;
    };
    let is_so = match fit(alloc, &mut core, cards, meter) {
        Some(sid) => survives_at(alloc, &mut core, sid, item, blow),
        None => false,
    };
    drop(core);
    is_so
}

/// Whether a scan of boxed cards survives a blow at the awaiting item of this index.
fn boxes_survive(alloc: Global, item: u8, blow: Blow) -> Result<bool, AllocError> {
    let cards = three(alloc)?;
    let meter = voltmeter(alloc)?;
    Ok(survives_at_rest(alloc, cards, meter, item, blow))
}

#[test]
fn an_abort_at_each_item_opens_every_relay(rt: HostRuntime) -> Result<(), Fail> {
    for item in 0..14u8 {
        assert!(rt; boxes_survive(rt.alloc(), item, Blow::Abort)?);
    }
    Ok(())
}

#[test]
fn a_card_ejected_at_each_item_opens_every_relay(rt: HostRuntime) -> Result<(), Fail> {
    for item in 0..14u8 {
        assert!(rt; boxes_survive(rt.alloc(), item, Blow::EjectsCard)?);
    }
    Ok(())
}

#[test]
fn a_meter_ejected_at_each_item_opens_every_relay_or_stays(rt: HostRuntime) -> Result<(), Fail> {
    for item in 0..14u8 {
        assert!(rt; boxes_survive(rt.alloc(), item, Blow::EjectsMeter)?);
    }
    Ok(())
}
