//! Boards of coils: what is sent, which answers are taken, and what one unsure slot does to the others.

use crate::script::{Deaf, Record, Script};
use std::alloc::Global;
use std::sync::Wait;
use std::test::Fail;
use sw_drivers::{Coils, Interlock, Kept, ModbusBoard, SimBoard, Wrapping};
use sw_kinds::Driver;

/// What the board of three coils from 8 on answers while its driver is made.
const CLEARED: &[u8] = &[0, 1, 0, 0, 0, 6, 1, 15, 0, 8, 0, 3];

const NONE_ON: &[u8] = &[0, 2, 0, 0, 0, 4, 1, 1, 1, 0];

/// The requests that it gets then.
const START: &[u8] = &[
    b'!', 0, 1, 0, 0, 0, 8, 1, 15, 0, 8, 0, 3, 1, 0, 0, 2, 0, 0, 0, 6, 1, 1, 0, 8, 0, 3,
];

/// That the second coil is on; and that the second is, and no other, of which five bits are no coils of the card.
const SECOND_ON: &[u8] = &[0, 3, 0, 0, 0, 6, 1, 5, 0, 9, 255, 0];

const SECOND: &[u8] = &[0, 4, 0, 0, 0, 4, 1, 1, 1, 0xFA];

type Driven<W> = Kept<ModbusBoard<Script<W>>, Deaf>;

fn made<W: Wait + Copy + Drop>(
    alloc: Global,
    record: &Record<W>,
    interlock: &Interlock,
    answers: &[&[u8]],
) -> Option<Driven<W>> {
    let script = Script::new(alloc, record.same().ok()?, answers).ok()?;
    let coils = Coils {
        wrapping: Wrapping::Tcp,
        unit: 1,
        first: 8,
        channels: 3,
        verified: true,
    };
    let board = ModbusBoard::new(script, coils);
    Kept::new(board, 2, interlock.try_clone().ok()?, Deaf).ok()
}

/// Whether channel 2 is switched on where the board answers so, and what was sent then.
fn switches<W: Wait + Copy + Drop>(
    rt: W,
    alloc: Global,
    write: &[u8],
    read: &[u8],
    sent: &[u8],
) -> Option<bool> {
    let record = Record::new(rt, alloc).ok()?;
    let interlock = Interlock::new(alloc).ok()?;
    let mut driver = made(alloc, &record, &interlock, &[CLEARED, NONE_ON, write, read])?;
    let is_begun = record.took(START);
    let is_switched = driver.drive(2, true).is_ok();
    if is_begun && record.took(sent) {
        Some(is_switched)
    } else {
        None
    }
}

#[test]
fn a_coil_is_switched_and_read_back(rt: HostRuntime) -> Result<(), Fail> {
    let sent = &[
        0, 3, 0, 0, 0, 6, 1, 5, 0, 9, 255, 0, 0, 4, 0, 0, 0, 6, 1, 1, 0, 8, 0, 3,
    ];
    let is_on = switches(rt, rt.alloc(), SECOND_ON, SECOND, sent);
    assert_eq!(rt; is_on, Some(true));
    Ok(())
}

/// An answer that is cut, of another number, protocol or unit, for another coil or state, or an exception.
#[test]
fn no_other_answer_is_taken(rt: HostRuntime) -> Result<(), Fail> {
    let sent = &[0, 3, 0, 0, 0, 6, 1, 5, 0, 9, 255, 0, b'.'];
    for write in [
        &[].as_slice(),
        &[0, 3, 0, 0, 0, 6, 1, 5].as_slice(),
        &[0, 3, 0, 0, 0, 6, 1, 5, 0, 9, 255].as_slice(),
        &[0, 2, 0, 0, 0, 6, 1, 5, 0, 9, 255, 0].as_slice(),
        &[0, 3, 0, 1, 0, 6, 1, 5, 0, 9, 255, 0].as_slice(),
        &[0, 3, 0, 0, 0, 6, 2, 5, 0, 9, 255, 0].as_slice(),
        &[0, 3, 0, 0, 0, 6, 1, 5, 0, 8, 255, 0].as_slice(),
        &[0, 3, 0, 0, 0, 6, 1, 5, 0, 9, 0, 0].as_slice(),
        &[0, 3, 0, 0, 0, 3, 1, 0x85, 2].as_slice(),
    ] {
        let is_on = switches(rt, rt.alloc(), write, SECOND, sent);
        assert_eq!(rt; is_on, Some(false));
    }
    Ok(())
}

/// None is on, another one is, two are; the answer to an earlier question; one cut.
#[test]
fn what_is_read_back_decides(rt: HostRuntime) -> Result<(), Fail> {
    let sent = &[
        0, 3, 0, 0, 0, 6, 1, 5, 0, 9, 255, 0, 0, 4, 0, 0, 0, 6, 1, 1, 0, 8, 0, 3, b'.',
    ];
    for read in [
        &[0, 4, 0, 0, 0, 4, 1, 1, 1, 0].as_slice(),
        &[0, 4, 0, 0, 0, 4, 1, 1, 1, 1].as_slice(),
        &[0, 4, 0, 0, 0, 4, 1, 1, 1, 6].as_slice(),
        &[0, 3, 0, 0, 0, 4, 1, 1, 1, 2].as_slice(),
        &[0, 4, 0, 0, 0, 4, 1, 1, 1].as_slice(),
    ] {
        let is_on = switches(rt, rt.alloc(), SECOND_ON, read, sent);
        assert_eq!(rt; is_on, Some(false));
    }
    Ok(())
}

/// A board that doesn't answer a cut: whether its slot, and no other, then says that it is unsure; whether no driver
/// switches a coil on in another slot, and one does again after the cut that the board answers.
fn holds_others<W: Wait + Copy + Drop>(rt: W, alloc: Global) -> Option<bool> {
    let record = Record::new(rt, alloc).ok()?;
    let interlock = Interlock::new(alloc).ok()?;
    let cleared = &[0, 5, 0, 0, 0, 6, 1, 15, 0, 8, 0, 3].as_slice();
    let none_on = &[0, 6, 0, 0, 0, 4, 1, 1, 1, 0].as_slice();
    let answers = &[CLEARED, NONE_ON, &[], &[], *cleared, *none_on];
    let mut board = made(alloc, &record, &interlock, answers)?;
    let mut other = Kept::new(SimBoard, 1, interlock.try_clone().ok()?, Deaf).ok()?;
    let before = other.drive(1, true).is_ok();
    board.cut();
    let unsure = interlock.is_unsure(2) && !interlock.is_unsure(1) && interlock.is_held();
    let tells = !board.is_sure() && other.is_sure();
    let refused = other.drive(2, true).is_err() && board.drive(2, true).is_err();
    let opened = other.drive(1, false).is_ok();
    board.cut();
    let sure = !interlock.is_held() && board.is_sure() && other.drive(2, true).is_ok();
    Some(before && unsure && tells && refused && opened && sure)
}

#[test]
fn an_unsure_slot_holds_all(rt: HostRuntime) -> Result<(), Fail> {
    let is_so = holds_others(rt, rt.alloc());
    assert_eq!(rt; is_so, Some(true));
    Ok(())
}

/// A board that doesn't confirm that all is off is none.
#[test]
fn a_board_begins_with_all_off(rt: HostRuntime) -> Result<(), Fail> {
    for read in [&[0, 2, 0, 0, 0, 4, 1, 1, 1, 4].as_slice(), &[].as_slice()] {
        let record = Record::new(rt, rt.alloc())?;
        let interlock = Interlock::new(rt.alloc())?;
        let board = made(rt.alloc(), &record, &interlock, &[CLEARED, read]);
        assert!(rt; board.is_none());
        drop(board);
    }
    Ok(())
}

/// A driver tries a board that answers no cut by the open connection, once by a new one, and then rests.
fn rests<W: Wait + Copy + Drop>(rt: W, alloc: Global) -> Option<bool> {
    let record = Record::new(rt, alloc).ok()?;
    let interlock = Interlock::new(alloc).ok()?;
    let mut board = made(alloc, &record, &interlock, &[CLEARED, NONE_ON])?;
    let is_begun = record.took(START);
    board.cut();
    let is_cut = record.took(&[
        0, 3, 0, 0, 0, 8, 1, 15, 0, 8, 0, 3, 1, 0, b'!', 0, 4, 0, 0, 0, 8, 1, 15, 0, 8, 0, 3, 1, 0,
        b'-',
    ]);
    Some(is_begun && is_cut)
}

#[test]
fn a_board_that_does_not_answer_rests(rt: HostRuntime) -> Result<(), Fail> {
    let is_so = rests(rt, rt.alloc());
    assert_eq!(rt; is_so, Some(true));
    Ok(())
}
