//! Cards in slots of two digits, over a core of boxed cards: what their channels are called, groups that run over them,
//! and cards that leave them.

use crate::asks::{
    does, eject, has_closed, install, is_idle, is_misread, is_running, joined, refused_card,
    refuses, refuses_eject, snapshot, tells,
};
use crate::boxes::{Relays, mux, voltmeter};
use crate::scans::{carry_out, comes_out_safe, initiate};
use std::alloc::{AllocError, Global};
use std::test::Fail;
use sw_base::ScpiError;
use sw_cage::{EjectRefusal, InstallRefusal};
use sw_card::{Card, Meter, Relay};
use sw_core::{Core, SessionAnswer, Sid, Work};
use sw_kinds::{Matrix, SimDriver};
use sw_verify::{Plan, Refusal};

/// Cards of four channels of group 3 for slots 8 and 9, and one of 99 channels for slot 16.
fn wide(alloc: Global) -> Result<(Relays, Relays, Relays), AllocError> {
    let last: Relays = Box::new(alloc, Matrix::new(16, 99, SimDriver::new()))?;
    Ok((mux(alloc, 8, 3)?, mux(alloc, 9, 3)?, last))
}

/// Puts the cards into slots 8, 9 and 16, the meter into slot 10, and joins as a second session.
fn fit_wide<R: Relay, M: Meter>(
    alloc: Global,
    core: &mut Core<R, M>,
    cards: (R, R, R),
    meter: M,
) -> Option<Sid> {
    let (eighth, ninth, last) = cards;
    let has_eighth = install(alloc, core, 8, Card::relays(eighth));
    let has_ninth = install(alloc, core, 9, Card::relays(ninth));
    let has_last = install(alloc, core, 16, Card::relays(last));
    let has_meter = install(alloc, core, 10, Card::meter(meter));
    let first = joined(alloc, core);
    let second = joined(alloc, core);
    if has_eighth && has_ninth && has_last && has_meter && first.is_some() {
        return second;
    }
    None
}

/// What is tried of these cards.
#[derive(Clone, Copy)]
enum Trial {
    Masks,
    Groups,
    Scans,
    Leaves,
}

impl Trial {
    fn goes<R: Relay, M: Meter>(self, alloc: Global, core: &mut Core<R, M>, sid: Sid) -> bool {
        match self {
            Trial::Masks => closes_each(alloc, core, sid),
            Trial::Groups => joins_no_group(alloc, core, sid),
            Trial::Scans => scans_over_slots(alloc, core, sid),
            Trial::Leaves => leaves(alloc, core, sid),
        }
    }
}

/// Whether that goes as it should over a core that is at rest.
fn at_rest<R: Relay, M: Meter>(alloc: Global, cards: (R, R, R), meter: M, trial: Trial) -> bool {
    let Ok(mut core) = Core::new(alloc) else {
        return false;
    };
    let is_so = match fit_wide(alloc, &mut core, cards, meter) {
        Some(sid) => trial.goes(alloc, &mut core, sid),
        None => false,
    };
    drop(core);
    is_so
}

/// Whether all 99 channels of slot 16 close and open, each for itself, beside one of slot 9.
fn closes_each<R: Relay, M: Meter>(alloc: Global, core: &mut Core<R, M>, sid: Sid) -> bool {
    does(alloc, core, sid, b"ROUT:CLOS (@16!1:16!99)")
        && does(alloc, core, sid, b"ROUT:CLOS (@904)")
        && tells(
            alloc,
            core,
            sid,
            b"ROUT:CLOS? (@1699,1601,16!50,9!4,9!3)",
            b"1,1,1,1,0",
        )
        && does(alloc, core, sid, b"ROUT:OPEN (@16!99)")
        && tells(
            alloc,
            core,
            sid,
            b"ROUT:CLOS? (@16!99,16!98,1601)",
            b"0,1,1",
        )
        && tells(alloc, core, sid, b"ROUT:OPEN? (@16!99,16!1)", b"1,0")
        && does(alloc, core, sid, b"ROUT:OPEN (@16!98:16!3)")
        && has_closed(alloc, core, sid, b"(@9!4,16!1,16!2)")
        && does(alloc, core, sid, b"ROUT:OPEN:ALL")
        && has_closed(alloc, core, sid, b"(@)")
}

/// Whether a channel of slot 9 is refused while one of its group in slot 8 is closed, and is closed once that is open;
/// and channels that the cards don't have are missing.
fn joins_no_group<R: Relay, M: Meter>(alloc: Global, core: &mut Core<R, M>, sid: Sid) -> bool {
    let clash = ScpiError::SettingsConflict;
    let missing = ScpiError::HardwareMissing;
    does(alloc, core, sid, b"ROUT:CLOS (@8!4)")
        && refuses(alloc, core, sid, b"ROUT:CLOS (@9!1)", clash)
        && does(alloc, core, sid, b"ROUT:CLOS (@16!1,1602)")
        && has_closed(alloc, core, sid, b"(@8!4,16!1,16!2)")
        && does(alloc, core, sid, b"ROUT:OPEN (@804)")
        && refuses(alloc, core, sid, b"ROUT:CLOS (@9!1,8!1)", clash)
        && does(alloc, core, sid, b"ROUT:CLOS (@9!1)")
        && refuses(alloc, core, sid, b"ROUT:CLOS (@8!4)", clash)
        && has_closed(alloc, core, sid, b"(@9!1,16!1,16!2)")
        && refuses(alloc, core, sid, b"ROUT:CLOS (@9!5)", missing)
        && refuses(alloc, core, sid, b"ROUT:CLOS (@10!1)", missing)
        && refuses(alloc, core, sid, b"ROUT:CLOS (@1501)", missing)
        && refuses(alloc, core, sid, b"ROUT:CLOS? (@9!99)", missing)
        && refuses(alloc, core, sid, b"ROUT:OPEN (@1199)", missing)
}

/// Whether the plan of the scan that is set is refused for that.
fn plans_none<R: Relay, M: Meter>(
    alloc: Global,
    core: &mut Core<R, M>,
    sid: Sid,
    why: Refusal,
) -> bool {
    match snapshot(alloc, core, sid) {
        Some(SessionAnswer::Snapshot(snapshot, _)) => match Plan::make(alloc, snapshot) {
            Ok(plan) => {
                drop(plan);
                false
            }
            Err(refusal) => refusal == why,
        },
        other => {
            drop(other);
            false
        }
    }
}

/// Whether a scan over these slots closes its channels, by the meter of slot 10 and no other, and none that would join
/// a group or that is missing.
fn scans_over_slots<R: Relay, M: Meter>(alloc: Global, core: &mut Core<R, M>, sid: Sid) -> bool {
    does(alloc, core, sid, b"ROUT:SCAN (@8!1&16!99,9!4&1601)")
        && tells(alloc, core, sid, b"ROUT:SCAN?", b"(@8!1&16!99,9!4&16!1)")
        && does(alloc, core, sid, b"TRIG:COUN 2")
        && does(alloc, core, sid, b"ROUT:SCAN:MET 16")
        && plans_none(alloc, core, sid, Refusal::NoMeter)
        && does(alloc, core, sid, b"ROUT:SCAN:MET 10")
        && tells(alloc, core, sid, b"ROUT:SCAN:MET?", b"10")
        && goes_through(alloc, core, sid)
        && does(alloc, core, sid, b"ROUT:SCAN (@8!1&9!1,16!1)")
        && plans_none(alloc, core, sid, Refusal::GroupClash)
        && does(alloc, core, sid, b"ROUT:SCAN (@16!1,9!5)")
        && plans_none(alloc, core, sid, Refusal::NoChannel)
        && has_closed(alloc, core, sid, b"(@)")
}

/// Whether the scan makes its two readings, with the first position's channels closed as it begins.
fn goes_through<R: Relay, M: Meter>(alloc: Global, core: &mut Core<R, M>, sid: Sid) -> bool {
    let work = initiate(alloc, core, sid);
    let is_closed = has_closed(alloc, core, sid, b"(@8!1,16!99)")
        && refuses_eject(alloc, core, 10, EjectRefusal::Out);
    is_two(alloc, core, work)
        && is_closed
        && is_idle(alloc, core, sid)
        && tells(alloc, core, sid, b"FETC?", b"0.000000001,0.000000002")
        && has_closed(alloc, core, sid, b"(@)")
}

/// Whether the pieces of work are two readings.
fn is_two<R: Relay, M: Meter>(alloc: Global, core: &mut Core<R, M>, work: Option<Work<M>>) -> bool {
    matches!(carry_out(alloc, core, work), Ok(2))
}

/// Begins a scan that waits for the bus while 9!1 and 16!99 are closed, by commands before it.
fn begins_waiting<R: Relay, M: Meter>(alloc: Global, core: &mut Core<R, M>, sid: Sid) -> bool {
    if !does(alloc, core, sid, b"ROUT:SCAN (@16!1)")
        || !does(alloc, core, sid, b"ROUT:SCAN:MET 10")
        || !does(alloc, core, sid, b"ARM:LAY3:SOUR BUS")
    {
        return false;
    }
    let work = initiate(alloc, core, sid);
    let is_none = work.is_none();
    drop(work);
    is_none && is_running(alloc, core, sid)
}

/// Whether the card of slot 9 leaves alone while no scan runs, and that of slot 16 a running scan, which ends with
/// every relay open; and no card leaves or enters a slot that the cage doesn't have.
fn leaves<R: Relay, M: Meter>(alloc: Global, core: &mut Core<R, M>, sid: Sid) -> bool {
    does(alloc, core, sid, b"ROUT:CLOS (@9!1,16!99)")
        && comes_out_safe(alloc, core, 9, 9)
        && has_closed(alloc, core, sid, b"(@16!99)")
        && does(alloc, core, sid, b"ROUT:CLOS (@8!1)")
        && begins_waiting(alloc, core, sid)
        && has_closed(alloc, core, sid, b"(@8!1,16!99)")
        && comes_out_safe(alloc, core, 16, 16)
        && is_idle(alloc, core, sid)
        && has_closed(alloc, core, sid, b"(@)")
        && refuses_eject(alloc, core, 9, EjectRefusal::Vacant)
        && refuses_eject(alloc, core, 16, EjectRefusal::Vacant)
        && refuses_eject(alloc, core, 17, EjectRefusal::Vacant)
        && refuses_eject(alloc, core, 0, EjectRefusal::Vacant)
        && moves_on(alloc, core, sid)
}

/// Whether the card of slot 8 is taken by slot 16 and no slot above it.
fn moves_on<R: Relay, M: Meter>(alloc: Global, core: &mut Core<R, M>, sid: Sid) -> bool {
    match eject(alloc, core, 8) {
        Some(card) => {
            is_moved(alloc, core, card)
                && does(alloc, core, sid, b"ROUT:CLOS (@1604)")
                && refuses(
                    alloc,
                    core,
                    sid,
                    b"ROUT:CLOS (@1699)",
                    ScpiError::HardwareMissing,
                )
                && has_closed(alloc, core, sid, b"(@16!4)")
        }
        None => false,
    }
}

/// Whether slot 17, and then slot 0, give the card back, and slot 16 takes it.
fn is_moved<R: Relay, M: Meter>(alloc: Global, core: &mut Core<R, M>, card: Card<R, M>) -> bool {
    match handed_back(alloc, core, 17, card) {
        Some(card) => match handed_back(alloc, core, 0, card) {
            Some(card) => install(alloc, core, 16, card),
            None => false,
        },
        None => false,
    }
}

/// The card, where there is no such slot.
fn handed_back<R: Relay, M: Meter>(
    alloc: Global,
    core: &mut Core<R, M>,
    slot: u8,
    card: Card<R, M>,
) -> Option<Card<R, M>> {
    match refused_card(alloc, core, slot, card) {
        Some((InstallRefusal::BadLayout, card)) => Some(card),
        other => {
            drop(other);
            None
        }
    }
}

/// Whether that goes as it should with boxed cards.
fn goes(alloc: Global, trial: Trial) -> Result<bool, AllocError> {
    Ok(at_rest(alloc, wide(alloc)?, voltmeter(alloc)?, trial))
}

#[test]
fn slot_16_has_99_channels(rt: HostRuntime) -> Result<(), Fail> {
    assert!(rt; goes(rt.alloc(), Trial::Masks)?);
    Ok(())
}

#[test]
fn a_group_runs_over_slots_8_and_9(rt: HostRuntime) -> Result<(), Fail> {
    assert!(rt; goes(rt.alloc(), Trial::Groups)?);
    Ok(())
}

#[test]
fn a_scan_over_slots_of_two_digits(rt: HostRuntime) -> Result<(), Fail> {
    assert!(rt; goes(rt.alloc(), Trial::Scans)?);
    Ok(())
}

#[test]
fn cards_leave_slots_9_and_16(rt: HostRuntime) -> Result<(), Fail> {
    assert!(rt; goes(rt.alloc(), Trial::Leaves)?);
    Ok(())
}

#[test]
fn there_is_no_slot_17_and_no_channel_0(rt: HostRuntime) {
    let alloc = rt.alloc();
    let range = ScpiError::DataOutOfRange;
    assert!(rt;
        is_misread(alloc, b"ROUT:CLOS (@1600)", range)
            && is_misread(alloc, b"ROUT:CLOS (@17!1)", range)
            && is_misread(alloc, b"ROUT:CLOS? (@1701)", range)
            && is_misread(alloc, b"ROUT:OPEN (@16!100)", range)
            && is_misread(alloc, b"ROUT:SCAN (@16!1&17!1)", range)
            && is_misread(alloc, b"ROUT:SCAN (@15!99:16!1)", range)
            && is_misread(alloc, b"ROUT:SCAN:MET 17", range)
            && is_misread(alloc, b"ROUT:SCAN:MET 0", range)
    );
}
