//! A rack's card in words.

use std::alloc::{AllocError, Global};
use sw_rack::{CardKind, Meter, Place, RackCard, Relays};

/// What the file asks for in this slot.
pub fn describe(alloc: Global, card: &RackCard) -> Result<String, AllocError> {
    let slot = card.slot;
    match &card.kind {
        CardKind::Relays(groups, Relays::Simulated(_)) => {
            let channels = groups.numbers.len();
            format!(in alloc; "slot {slot}: relays, {channels} channels, simulated")
        }
        CardKind::Relays(groups, relays) => {
            let channels = groups.numbers.len();
            let driver = driver_of(relays);
            let place = place_of_relays(relays);
            format!(in alloc; "slot {slot}: relays, {channels} channels, {driver} at {place}")
        }
        CardKind::Meter(Meter::Simulated(..)) => format!(in alloc; "slot {slot}: meter, simulated"),
        CardKind::Meter(Meter::Scpi(query)) => {
            let place = words_of(&query.place);
            format!(in alloc; "slot {slot}: meter, scpi at {place}")
        }
    }
}

/// What drives relays, as the file names it.
fn driver_of(relays: &Relays) -> &'static str {
    match relays {
        Relays::Simulated(_) => "simulated",
        Relays::ModbusTcp(_) => "modbus-tcp",
        Relays::ModbusRtu(_) => "modbus-rtu",
        Relays::Lines(_) => "lines",
        Relays::Scpi(_) => "scpi",
    }
}

/// Where the board of these relays is. Empty for simulated relays.
pub fn place_of_relays(relays: &Relays) -> &str {
    match relays {
        Relays::Simulated(_) => "",
        Relays::ModbusTcp(board) | Relays::ModbusRtu(board) => words_of(&board.place),
        Relays::Lines(board) | Relays::Scpi(board) => words_of(&board.place),
    }
}

/// Where something is, as the file says.
pub fn words_of(place: &Place) -> &str {
    match place {
        Place::Address(text) => text.as_str(),
        Place::Device(path) | Place::Waiting(path) => path.as_str(),
    }
}

/// Whether nothing is read back from the card's board, nor any answer of it.
pub fn confirms_nothing(card: &RackCard) -> bool {
    match &card.kind {
        CardKind::Relays(_, Relays::Lines(board)) => board.answer_end.is_empty(),
        _ => false,
    }
}
