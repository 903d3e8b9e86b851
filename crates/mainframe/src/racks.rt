//! A rack's file on the command line: its cards in place of the simulated ones.

ghost use Rattle.std.specs.Prelude.{◌≤◌};
ghost use Rattle.sw_base.specs.Limits.{most_channels};
ghost use Rattle.sw_rack.specs.Coils.{HasCoils};

use crate::rack_cards::{RackMeter, RackRelays, cards_of, placed_board, source_of};
use crate::rack_fault::RackCardFault;
use crate::rack_text::{confirms_nothing, describe};
use std::alloc::{AllocError, Global};
use std::fs::File;
use std::io;
use std::process::ExitCode;
use std::rt::Files;
use sw_base::SLOTS;
use sw_drivers::{Board, DriverFault, Interlock, Told};
use sw_rack::{CardKind, Groups, Meter, Rack, RackCard, RackError, Relays, read_rack};
use sw_serve::SlotCard;

/// Standard error, where a driver prints why a call of it has failed.
#[derive(Clone, Copy, Drop)]
pub struct ErrorTold {
    rt: HostRuntime,
    alloc: Global,
}

impl Told for ErrorTold {
    fn tell(&self, slot: u8, fault: DriverFault) {
        if let Ok(line) = format!(in self.alloc; "mainframe: slot {slot}: {fault}\n") {
            let _ = eprint!(self.rt; "{line}");
        }
    }
}

/// The cards of a rack for their slots, over the host's network and files.
pub type HostCards = Vec<SlotCard<RackRelays<ErrorTold>, RackMeter<ErrorTold>>>;

/// The text of this file.
fn text_in<W: Files>(rt: &W, alloc: Global, path: &str) -> io::Result<String> {
    io::read_to_string(alloc, File::open(rt, path)?)
}

/// The rack that this file describes. Or it prints the cause, and gives the status to end with.
pub fn rack_in<W: Files + Eprint>(rt: &W, alloc: Global, path: &str) -> Result<Rack, ExitCode> {
    let text = match text_in(rt, alloc, path) {
        Ok(text) => text,
        Err(error) => {
            let _ = eprintln!(rt; "mainframe: {path}: {error}");
            return Err(ExitCode::from(2));
        }
    };
    match read_rack(alloc, text.as_str()) {
        Ok(rack) => Ok(rack),
        Err(RackError::Memory) => Err(out_of_memory(rt)),
        Err(error) => {
            let _ = eprintln!(rt; "mainframe: {path}: {error}");
            Err(ExitCode::from(2))
        }
    }
}

/// The cards of the rack that this file describes, each reached, with every relay off. Or it prints the cause, and
/// gives the status to end with.
pub fn cards_in(rt: &HostRuntime, path: &str) -> Result<(HostCards, Interlock), ExitCode> {
    let alloc = rt.alloc();
    let rack = rack_in(rt, alloc, path)?;
    let Ok(interlock) = Interlock::new(alloc) else {
        return Err(out_of_memory(rt));
    };
    for card in &rack.cards {
        if confirms_nothing(card) {
            let slot = card.slot;
            let _ = eprintln!(rt; "mainframe: slot {slot}: its board confirms nothing");
        }
    }
    match cards_of(*rt, alloc, rack, &interlock, ErrorTold { rt: *rt, alloc }) {
        Ok(cards) => Ok((cards, interlock)),
        Err(fault) => {
            let _ = eprintln!(rt; "mainframe: {fault}");
            Err(ExitCode::from(1))
        }
    }
}

/// The status at the end. It prints each slot with relays that may still be closed; where there is one, the status is
/// 1.
pub fn ended(rt: &impl Eprint, interlock: &Interlock, status: ExitCode) -> ExitCode {
    if !interlock.is_held() {
        return status;
    }
    for before in 0..SLOTS {
        let slot = before + 1;
        if interlock.is_unsure(slot) {
            let _ = eprintln!(rt;
                "mainframe: slot {slot}: its board has not confirmed that its relays are off"
            );
        }
    }
    ExitCode::from(1)
}

/// Says what a rack's file asks for, and reaches each card. Moves nothing.
pub fn tell_rack(rt: &HostRuntime, path: &str) -> ExitCode {
    with_each_card(rt, path, Doing::Reaching)
}

/// Switches off every relay of a rack, and reads back that it is.
pub fn switch_off(rt: &HostRuntime, path: &str) -> ExitCode {
    with_each_card(rt, path, Doing::SwitchingOff)
}

/// What is done with each card of a rack.
#[derive(Clone, Copy, Drop)]
enum Doing {
    Reaching,
    SwitchingOff,
}

/// Does this with each card, even where one before it failed, and prints the outcome. The status is 1 where one failed.
fn with_each_card(rt: &HostRuntime, path: &str, doing: Doing) -> ExitCode {
    let rack = match rack_in(rt, rt.alloc(), path) {
        Ok(rack) => rack,
        Err(status) => return status,
    };
    let mut status = ExitCode::SUCCESS;
    for card in rack.cards {
        if !is_done(rt, card, doing) {
            status = ExitCode::from(1);
        }
    }
    status
}

/// Does this with a card, and prints the outcome.
fn is_done(rt: &HostRuntime, card: RackCard, doing: Doing) -> bool {
    let told = describe(rt.alloc(), &card);
    match (do_with(rt, card, doing), told) {
        (Ok(Some(word)), Ok(told)) => {
            let _ = println!(rt; "{told}: {word}");
            true
        }
        (Ok(None), _) => true,
        (Err(fault), _) => {
            let _ = eprintln!(rt; "mainframe: {fault}");
            false
        }
        (Ok(Some(_)), Err(_)) => {
            let _ = eprintln!(rt; "mainframe: out of memory");
            false
        }
    }
}

fn out_of_memory(rt: &impl Eprint) -> ExitCode {
    let _ = eprintln!(rt; "mainframe: out of memory");
    ExitCode::from(1)
}

/// Does this with what is behind a card; gives what it did, or nothing for a meter, which has no relay.
fn do_with(
    rt: &HostRuntime,
    card: RackCard,
    doing: Doing,
) -> Result<Option<&'static str>, RackCardFault> {
    let RackCard { slot, kind, .. } = card;
    match kind {
        CardKind::Relays(groups, relays) => {
            let Groups { numbers } = groups;
            let word = do_with_relays(rt, slot, numbers.len() as u8, relays, doing)?;
            Ok(Some(word))
        }
        CardKind::Meter(meter) => do_with_meter(rt, slot, meter, doing),
    }
}

/// Does this with what gives a meter's readings.
fn do_with_meter(
    rt: &HostRuntime,
    slot: u8,
    meter: Meter,
    doing: Doing,
) -> Result<Option<&'static str>, RackCardFault> {
    let alloc = rt.alloc();
    match doing {
        Doing::Reaching => {
            drop(source_of(*rt, alloc, slot, meter, ErrorTold { rt: *rt, alloc })?);
            Ok(Some("reached"))
        }
        Doing::SwitchingOff => {
            drop(meter);
            Ok(None)
        }
    }
}

/// Does this with the board behind a card's channels.
fn do_with_relays(
    rt: &HostRuntime,
    slot: u8,
    channels: u8,
    relays: Relays,
    doing: Doing,
) -> Result<&'static str, RackCardFault>
    requires few { channels ≤ most_channels }
    requires coils { HasCoils channels relays }
{
    let (board, place) = placed_board(*rt, slot, channels, relays)?;
    match do_with_board(board, doing) {
        Ok(word) => Ok(word),
        Err(fault) => Err(RackCardFault::Driver(slot, place, fault)),
    }
}

/// Does this with a board.
fn do_with_board<B: Board + Drop>(board: B, doing: Doing) -> Result<&'static str, DriverFault> {
    let mut board = board;
    match doing {
        Doing::Reaching => board.reach().map(|()| "reached"),
        Doing::SwitchingOff => board.clear().map(|()| "every relay is off"),
    }
}
