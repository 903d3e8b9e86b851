//! Scans of positions with several channels, over a core of boxed cards: each channel fails in turn, and the scan is
//! aborted or loses a card at each of its places.

use crate::asks::{NotTaken, does, fit, has_closed, is_running, refuses};
use crate::boxes::{Relays, three, voltmeter};
use crate::hostile::{
    begins_nothing, ends, is_broken_off, keeps_readings, pieces_before_failure, reached,
    with_closing, with_opening,
};
use crate::scans::{comes_out_safe, initiate};
use std::alloc::{AllocError, Global};
use std::test::Fail;
use sw_base::ScpiError;
use sw_card::{Meter, Relay};
use sw_core::{Core, Sid, Work};
use sw_kinds::{Fuse, Matrix, OpenFuse, SimDriver};

/// The cards of `three`, with this one in slot 2.
fn with_second(alloc: Global, second: Relays) -> Result<(Relays, Relays, Relays), AllocError> {
    let (first, _, third) = three(alloc)?;
    Ok((first, second, third))
}

/// Cards of which, in slot 2, the closing with this number fails.
fn with_second_closing(alloc: Global, number: u32) -> Result<(Relays, Relays, Relays), AllocError> {
    let fuse = Fuse::new(SimDriver::new(), Some(number));
    with_second(alloc, Box::new(alloc, Matrix::new(2, 16, fuse))?)
}

/// Cards of which, in slot 2, the opening with this number fails.
fn with_second_opening(alloc: Global, number: u32) -> Result<(Relays, Relays, Relays), AllocError> {
    let fuse = OpenFuse::new(SimDriver::new(), Some(number));
    with_second(alloc, Box::new(alloc, Matrix::new(2, 16, fuse))?)
}

/// Sets a reading of 1!1 and 2!1 closed together, and then one of 2!3.
fn sets_positions<R: Relay, M: Meter>(alloc: Global, core: &mut Core<R, M>, sid: Sid) -> bool {
    does(alloc, core, sid, b"ROUT:SCAN (@1!1&2!1,2!3)") && does(alloc, core, sid, b"TRIG:COUN 2")
}

/// Whether a failure ends a scan of these cards after `pieces` pieces of work, or as it begins, and it keeps `readings`
/// readings.
fn breaks_off<R: Relay, M: Meter>(
    alloc: Global,
    cards: (R, R, R),
    meter: M,
    pieces: Option<u8>,
    readings: u8,
) -> bool {
    let Ok(mut core) = Core::new(alloc) else {
        return false;
    };
    let is_so = match fit(alloc, &mut core, cards, meter) {
        Some(sid) => {
            sets_positions(alloc, &mut core, sid)
                && fails_behind(alloc, &mut core, sid, pieces)
                && is_broken_off(alloc, &mut core, sid)
                && keeps_readings(alloc, &mut core, sid, readings)
        }
        None => false,
    };
    drop(core);
    is_so
}

/// Whether a card fails after `pieces` pieces of the scan's work, or as it begins.
fn fails_behind<R: Relay, M: Meter>(
    alloc: Global,
    core: &mut Core<R, M>,
    sid: Sid,
    pieces: Option<u8>,
) -> bool {
    if pieces.is_none() {
        return begins_nothing(alloc, core, sid);
    }
    let work = initiate(alloc, core, sid);
    pieces_before_failure(alloc, core, work) == pieces
}

#[test]
fn each_closing_of_a_position_fails_in_turn(rt: HostRuntime) -> Result<(), Fail> {
    let alloc = rt.alloc();
    assert!(rt; breaks_off(alloc, with_closing(alloc, 1)?, voltmeter(alloc)?, None, 0));
    assert!(rt;
        breaks_off(
            alloc,
            with_second_closing(alloc, 1)?,
            voltmeter(alloc)?,
            None,
            0
        )
    );
    assert!(rt;
        breaks_off(
            alloc,
            with_second_closing(alloc, 2)?,
            voltmeter(alloc)?,
            Some(0),
            1
        )
    );
    Ok(())
}

#[test]
fn each_opening_of_a_position_fails_in_turn(rt: HostRuntime) -> Result<(), Fail> {
    let alloc = rt.alloc();
    assert!(rt;
        breaks_off(
            alloc,
            with_opening(alloc, 1)?,
            voltmeter(alloc)?,
            Some(0),
            1
        )
    );
    assert!(rt;
        breaks_off(
            alloc,
            with_second_opening(alloc, 1)?,
            voltmeter(alloc)?,
            Some(0),
            1
        )
    );
    assert!(rt;
        breaks_off(
            alloc,
            with_second_opening(alloc, 2)?,
            voltmeter(alloc)?,
            Some(1),
            2
        )
    );
    Ok(())
}

/// Whether the awaiting item of this index of that scan, by the bus, has its channels closed beside 2!16.
fn stands<R: Relay, M: Meter>(
    alloc: Global,
    core: &mut Core<R, M>,
    sid: Sid,
    item: u8,
    work: &Option<Work<M>>,
) -> bool {
    let closed: &[u8] = match item {
        1 => b"(@1!1,2!1,2!16)",
        3 => b"(@2!3,2!16)",
        _ => b"(@2!16)",
    };
    let is_due = match work {
        Some(Work::Measure(_)) => item == 1 || item == 3,
        _ => item == 0 || item == 2,
    };
    is_due && is_running(alloc, core, sid) && has_closed(alloc, core, sid, closed)
}

/// Whether an abort, or the loss of the card in the slot, opens every relay at the awaiting item of this index.
fn survives<R: Relay, M: Meter>(
    alloc: Global,
    cards: (R, R, R),
    meter: M,
    item: u8,
    slot: Option<u8>,
) -> bool {
    let Ok(mut core) = Core::new(alloc) else {
        return false;
    };
    let is_so = match fit(alloc, &mut core, cards, meter) {
        Some(sid) => {
            sets_positions(alloc, &mut core, sid)
                && does(alloc, &mut core, sid, b"ROUT:CLOS (@2!16)")
                && does(alloc, &mut core, sid, b"TRIG:SOUR BUS")
                && loses(alloc, &mut core, sid, item, slot)
        }
        None => false,
    };
    drop(core);
    is_so
}

fn loses<R: Relay, M: Meter>(
    alloc: Global,
    core: &mut Core<R, M>,
    sid: Sid,
    item: u8,
    slot: Option<u8>,
) -> bool {
    match reached(alloc, core, sid, item) {
        Ok(work) => {
            let is_there = stands(alloc, core, sid, item, &work);
            let is_ended = match slot {
                None => does(alloc, core, sid, b"ABOR"),
                Some(slot) => comes_out_safe(alloc, core, slot, u32::from(slot)),
            };
            is_there & is_ended & ends(alloc, core, sid, work)
        }
        Err(NotTaken) => false,
    }
}

#[test]
fn what_ends_a_scan_of_positions_opens_every_relay(rt: HostRuntime) -> Result<(), Fail> {
    let alloc = rt.alloc();
    for item in 0..4u8 {
        for slot in [None, Some(1), Some(2), Some(3)] {
            assert!(rt; survives(alloc, three(alloc)?, voltmeter(alloc)?, item, slot));
        }
    }
    Ok(())
}

/// Whether a scan of a position over two cards is refused once one of them is gone.
fn misses_its_card<R: Relay, M: Meter>(alloc: Global, cards: (R, R, R), meter: M) -> bool {
    let Ok(mut core) = Core::new(alloc) else {
        return false;
    };
    let is_so = match fit(alloc, &mut core, cards, meter) {
        Some(sid) => {
            sets_positions(alloc, &mut core, sid)
                && comes_out_safe(alloc, &mut core, 2, 2)
                && begins_nothing(alloc, &mut core, sid)
                && has_closed(alloc, &mut core, sid, b"(@)")
                && refuses(
                    alloc,
                    &mut core,
                    sid,
                    b"FETC?",
                    ScpiError::DataCorruptOrStale,
                )
        }
        None => false,
    };
    drop(core);
    is_so
}

#[test]
fn a_position_of_two_cards_needs_both(rt: HostRuntime) -> Result<(), Fail> {
    assert!(rt; misses_its_card(rt.alloc(), three(rt.alloc())?, voltmeter(rt.alloc())?));
    Ok(())
}
