//! Boards of coils that are reached, and not switched.

use crate::script::{Record, Script};
use std::alloc::Global;
use std::sync::Wait;
use std::test::Fail;
use sw_drivers::{Board, Coils, DriverFault, ModbusBoard, SimBoard, Wrapping};

/// What reaching the board of unit 17 gives, 19 coils from 19 on, that answers so, where exactly these bytes were sent.
fn reaches<W: Wait + Copy + Drop>(
    rt: W,
    alloc: Global,
    wrapping: Wrapping,
    answer: &[u8],
    sent: &[u8],
) -> Option<Result<(), DriverFault>> {
    let record = Record::new(rt, alloc).ok()?;
    let script = Script::new(alloc, record.same().ok()?, &[answer]).ok()?;
    let coils = Coils {
        wrapping,
        unit: 17,
        first: 19,
        channels: 19,
        verified: false,
    };
    let mut board = ModbusBoard::new(script, coils);
    let reached = board.reach();
    drop(board);
    if record.took(sent) {
        Some(reached)
    } else {
        None
    }
}

/// The example of the protocol's Read Coils (6.1): coils 20 to 38, by three bytes of states.
#[test]
fn a_board_is_asked_for_its_states_alone(rt: HostRuntime) -> Result<(), Fail> {
    let found = reaches(
        rt,
        rt.alloc(),
        Wrapping::Tcp,
        &[0, 1, 0, 0, 0, 6, 17, 1, 3, 0xCD, 0x6B, 5],
        &[b'!', 0, 1, 0, 0, 0, 6, 17, 1, 0, 0x13, 0, 0x13],
    );
    assert_eq!(rt; found, Some(Ok(())));
    Ok(())
}

/// No answer, an exception (its code 2, an address that the board hasn't), the states of another unit, too few states.
#[test]
fn a_board_that_does_not_tell_is_not_reached(rt: HostRuntime) -> Result<(), Fail> {
    for (answer, fault) in [
        (&[].as_slice(), DriverFault::TimedOut),
        (
            &[0, 1, 0, 0, 0, 3, 17, 0x81, 2].as_slice(),
            DriverFault::Exception(2),
        ),
        (
            &[0, 1, 0, 0, 0, 6, 16, 1, 3, 0xCD, 0x6B, 5].as_slice(),
            DriverFault::Garbled,
        ),
        (
            &[0, 1, 0, 0, 0, 5, 17, 1, 2, 0xCD, 0x6B, 5].as_slice(),
            DriverFault::Garbled,
        ),
    ] {
        let found = reaches(
            rt,
            rt.alloc(),
            Wrapping::Tcp,
            answer,
            &[b'!', 0, 1, 0, 0, 0, 6, 17, 1, 0, 0x13, 0, 0x13, b'.'],
        );
        assert_eq!(rt; found, Some(Err(fault)));
    }
    Ok(())
}

#[test]
fn a_board_without_hardware_is_reached(rt: HostRuntime) -> Result<(), Fail> {
    assert!(rt; SimBoard.reach().is_ok());
    Ok(())
}
