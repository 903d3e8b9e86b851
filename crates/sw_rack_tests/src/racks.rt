//! What files mean.

use std::alloc::Global;
use std::test::Fail;
use sw_rack::{CardKind, Lines, Meter, Place, RackCard, Relays, read_rack};

/// The bench of the documents: a Modbus board and a multimeter.
const BENCH: &str =
    "version = 1\n[slot.1]\ncard = \"relays\"\ndriver = \"modbus-tcp\"\naddress = \"192.168.10.50:502\"\n\
    first_coil = 16\nchannels = 8\ngroup = 1\n\n[slot.4]\ncard = \"meter\"\ndriver = \"scpi\"\n\
    device = \"/dev/usbtmc0\"\nsetup = [\"*RST\", \"CONF:VOLT:DC 10\"]\nlimit_ms = 5000\n";

/// The line of the documents: two boards that obey lines.
const LINE: &str =
    "version = 1\n[slot.2]\ncard = \"relays\"\ndriver = \"lines\"\ndevice = \"/dev/ttyACM1\"\n\
    channels = 4\non = \"set {ch} 1\\n\"\noff = \"set {ch} 0\\n\"\nall_off = [\"set 1 0\\n\", \"set 2 0\\n\"]\n\
    answer_end = \"\\n\"\nanswer = \"ok\"\n[slot.1]\ncard = \"relays\"\ndriver = \"scpi\"\naddress = \"a:5025\"\n\
    channels = 3\ngroups = [7, 0, 255]\nserial = 4294967295\n";

/// Both kinds without hardware.
const SIMULATED: &str = "version = 1\r\n[slot.16]\r\ncard = \"meter\"\r\ndriver = \"simulated\"\r\n\
    first_nv = -2_500_000_000\r\n[slot.3]\r\ncard = \"relays\"\r\ndriver = \"simulated\"\r\nchannels = 99\r\n\
    fail_closing = 3\r\n";

/// The card of this number of a text's rack, from 0, where it has as many cards as are wanted.
fn card(alloc: Global, text: &str, at: usize, wanted: usize) -> Option<RackCard> {
    let mut rack = read_rack(alloc, text).ok()?;
    if rack.cards.len() != wanted || at >= wanted {
        return None;
    }
    Some(rack.cards.swap_remove(at))
}

fn is(text: &str, wanted: &str) -> bool {
    text == wanted
}

fn is_modbus_card(card: &RackCard) -> bool {
    let CardKind::Relays(groups, Relays::ModbusTcp(board)) = &card.kind else {
        return false;
    };
    let Place::Address(address) = &board.place else {
        return false;
    };
    card.slot == 1
        && card.serial == 1
        && groups.numbers.as_slice() == [1, 1, 1, 1, 1, 1, 1, 1].as_slice()
        && is(address.as_str(), "192.168.10.50:502")
        && board.limit_ms == 500
        && board.unit == 1
        && board.first_coil == 16
        && board.confirm
}

fn is_scpi_meter(card: &RackCard) -> bool {
    let CardKind::Meter(Meter::Scpi(meter)) = &card.kind else {
        return false;
    };
    let Place::Waiting(path) = &meter.place else {
        return false;
    };
    let (Some(first), Some(second), None) = (
        meter.setup.get(0),
        meter.setup.get(1),
        meter.setup.get(2),
    ) else {
        return false;
    };
    card.slot == 4
        && card.serial == 4
        && is(path.as_str(), "/dev/usbtmc0")
        && is(first.as_str(), "*RST")
        && is(second.as_str(), "CONF:VOLT:DC 10")
        && is(meter.query.as_str(), "READ?")
        && meter.limit_ms == 5000
}

#[test]
fn a_bench(rt: HostRuntime) -> Result<(), Fail> {
    let alloc = rt.alloc();
    let relays = card(alloc, BENCH, 0, 2).ok_or("slot 1 has a card")?;
    assert!(rt; is_modbus_card(&relays));
    let meter = card(alloc, BENCH, 1, 2).ok_or("slot 4 has a card")?;
    assert!(rt; is_scpi_meter(&meter));
    Ok(())
}

fn is_scpi_board(board: &Lines) -> bool {
    let (Some(all_off), None) = (board.all_off.get(0), board.all_off.get(1)) else {
        return false;
    };
    let Some(state) = &board.state else {
        return false;
    };
    is(board.on.as_str(), "ROUT:CLOS (@{ch})")
        && is(board.off.as_str(), "ROUT:OPEN (@{ch})")
        && is(all_off.as_str(), "ROUT:OPEN:ALL")
        && is(state.query.as_str(), "ROUT:CLOS? (@{ch})")
        && is(state.on.as_str(), "1")
        && is(state.off.as_str(), "0")
        && board.setup.is_empty()
        && board.answer_end.is_empty()
}

fn is_line_board(board: &Lines) -> bool {
    let (Some(first), Some(second), None) = (
        board.all_off.get(0),
        board.all_off.get(1),
        board.all_off.get(2),
    ) else {
        return false;
    };
    let Place::Device(path) = &board.place else {
        return false;
    };
    is(board.on.as_str(), "set {ch} 1\n")
        && is(board.off.as_str(), "set {ch} 0\n")
        && is(first.as_str(), "set 1 0\n")
        && is(second.as_str(), "set 2 0\n")
        && is(board.answer_end.as_str(), "\n")
        && is(board.answer.as_str(), "ok")
        && is(path.as_str(), "/dev/ttyACM1")
        && board.state.is_none()
}

fn is_scpi_card(card: &RackCard) -> bool {
    match &card.kind {
        CardKind::Relays(groups, Relays::Scpi(board)) => {
            card.slot == 1
                && card.serial == 4_294_967_295
                && groups.numbers.as_slice() == [7, 0, 255].as_slice()
                && is_scpi_board(board)
        }
        _ => false,
    }
}

fn is_line_card(card: &RackCard) -> bool {
    match &card.kind {
        CardKind::Relays(groups, Relays::Lines(board)) => {
            card.slot == 2
                && groups.numbers.as_slice() == [0, 0, 0, 0].as_slice()
                && is_line_board(board)
        }
        _ => false,
    }
}

#[test]
fn boards_that_obey_lines(rt: HostRuntime) -> Result<(), Fail> {
    let alloc = rt.alloc();
    let scpi = card(alloc, LINE, 0, 2).ok_or("slot 1 has a card")?;
    assert!(rt; is_scpi_card(&scpi));
    let lines = card(alloc, LINE, 1, 2).ok_or("slot 2 has a card")?;
    assert!(rt; is_line_card(&lines));
    Ok(())
}

fn is_simulated_relays(card: &RackCard) -> bool {
    match &card.kind {
        CardKind::Relays(groups, Relays::Simulated(Some(3))) => {
            card.slot == 3 && groups.numbers.len() == 99
        }
        _ => false,
    }
}

fn is_simulated_meter(card: &RackCard) -> bool {
    matches!(
        card.kind,
        CardKind::Meter(Meter::Simulated(-2_500_000_000, 1))
    ) && card.slot == 16
}

/// Lines may end as on other systems.
#[test]
fn cards_without_hardware(rt: HostRuntime) -> Result<(), Fail> {
    let alloc = rt.alloc();
    let relays = card(alloc, SIMULATED, 0, 2).ok_or("slot 3 has a card")?;
    assert!(rt; is_simulated_relays(&relays));
    let meter = card(alloc, SIMULATED, 1, 2).ok_or("slot 16 has a card")?;
    assert!(rt; is_simulated_meter(&meter));
    Ok(())
}
