//! The cards that a rack's file asks for.

ghost use Rattle.std.specs.Prelude.{◌≡◌, ◌≤◌, ◌+◌, ◌∷◌, [], IfOk};
ghost use Rattle.sw_base.specs.Limits.{most_channels};
ghost use Rattle.sw_cage.specs.Accounts.{slot_contents};
ghost use Rattle.sw_rack.specs.Coils.{HasCoils};
ghost use Rattle.sw_serve.specs.SlotCards.{cards_seen};
ghost use Rattle.mainframe.specs.RackBoards.{IsBoardOf, IsLineBoard};
ghost use Rattle.mainframe.specs.RackCards.{banks_seen, offered_to, rack_cards, rack_layout, volt_seen};

use crate::host_link::HostLink;
use crate::rack_fault::RackCardFault;
use crate::rack_lines::{commands_of, ended, with_end};
use crate::rack_text::{place_of_relays, words_of};
use std::alloc::{AllocError, Global};
use std::io::{self, ErrorKind};
use std::net::{SocketAddr, ToSocketAddrs};
use std::time::Duration;
use sw_base::{Reading, SLOTS};
use sw_card::CardFault;
use sw_drivers::{
    Account, Banks, Board, Coils, Commands, DriverFault, Interlock, Kept, LineBoard, ModbusBoard,
    ScpiMeter, SimBoard, Told, Wire, Wrapping,
};
use sw_kinds::{Fuse, SimSource, Source, Volt};
use sw_rack::{CardKind, Groups, Lines, Meter, Modbus, Place, Query, Rack, RackCard, Relays};
use sw_serve::SlotCard;
use sw_verify::{Layout, Slot};

/// The silence before a frame on a serial line, at 19,200 baud and above (MODBUS over Serial Line, 2.5.1.1).
const SILENCE_US: u64 = 2_000;

/// Any of the boards that a rack's file can ask for.
#[derive(Drop)]
pub enum AnyBoard<W: Wire> {
    Sim(SimBoard),
    Modbus(ModbusBoard<W>),
    Lines(LineBoard<W>),
}

impl<W: Wire> Board for AnyBoard<W> {
    ghost use Rattle.std.specs.Prelude.{false, ⊤};

    ghost is_on = { λ _ _. false };

    ghost shows = { λ _ _. ⊤ };

    fn reach(&mut self) -> Result<(), DriverFault> {
        match self {
            AnyBoard::Sim(board) => board.reach(),
            AnyBoard::Modbus(board) => board.reach(),
            AnyBoard::Lines(board) => board.reach(),
        }
    }

    fn switch(&mut self, ch: u8, on: bool, before: &Account) -> Result<(), DriverFault> {
        match self {
            AnyBoard::Sim(board) => board.switch(ch, on, before),
            AnyBoard::Modbus(board) => board.switch(ch, on, before),
            AnyBoard::Lines(board) => board.switch(ch, on, before),
        }
    }

    fn clear(&mut self) -> Result<(), DriverFault> {
        match self {
            AnyBoard::Sim(board) => board.clear(),
            AnyBoard::Modbus(board) => board.clear(),
            AnyBoard::Lines(board) => board.clear(),
        }
    }
}

/// Any of the sources of readings.
#[derive(Drop)]
pub enum AnySource<W: Wire, T: Told + Drop> {
    Sim(SimSource),
    Scpi(ScpiMeter<W, T>),
}

impl<W: Wire, T: Told + Drop> Source for AnySource<W, T> {
    fn sample(&mut self) -> Result<Reading, CardFault> {
        match self {
            AnySource::Sim(source) => source.sample(),
            AnySource::Scpi(source) => source.sample(),
        }
    }
}

/// The relays of a rack's card.
pub type RackRelays<T> = Banks<Fuse<Kept<AnyBoard<HostLink>, T>>>;

/// The meter of a rack.
pub type RackMeter<T> = Volt<AnySource<HostLink, T>>;

/// The cards of a rack, each reached, with every relay off.
pub fn cards_of<T: Told + Copy + Drop>(
    rt: HostRuntime,
    alloc: Global,
    rack: Rack,
    interlock: &Interlock,
    told: T,
) -> Result<Vec<SlotCard<RackRelays<T>, RackMeter<T>>>, RackCardFault>
    ensures { IfOk result (λ cards. cards_seen banks_seen volt_seen cards.items ≡ rack_cards rack.cards.items) }
{
    let mut cards = Vec::new(alloc);
    for card in rack.cards {
        cards.push(card_of(rt, alloc, card, interlock, told)?)?;
    }
    Ok(cards)
}

/// A card of a rack, reached, with every relay off.
fn card_of<T: Told + Copy + Drop>(
    rt: HostRuntime,
    alloc: Global,
    card: RackCard,
    interlock: &Interlock,
    told: T,
) -> Result<SlotCard<RackRelays<T>, RackMeter<T>>, RackCardFault>
    ensures { IfOk result (λ placed. cards_seen banks_seen volt_seen (placed ∷ []) ≡ rack_cards (card ∷ [])) }
{
    let RackCard { slot, serial, kind } = card;
    match kind {
        CardKind::Relays(groups, relays) => {
            let Groups { numbers } = groups;
            let fuse = fuse_of(&relays);
            let kept = kept_of(rt, slot, numbers.len() as u8, relays, interlock, told)?;
            Ok(SlotCard::relays(slot, Banks::new(serial, numbers, Fuse::new(kept, fuse))))
        }
        CardKind::Meter(meter) => {
            let source = source_of(rt, alloc, slot, meter, told)?;
            Ok(SlotCard::meter(slot, Volt::new(serial, source)))
        }
    }
}

/// The board behind a card's channels, reached, with every relay off.
fn kept_of<T: Told + Copy + Drop>(
    rt: HostRuntime,
    slot: u8,
    channels: u8,
    relays: Relays,
    interlock: &Interlock,
    told: T,
) -> Result<Kept<AnyBoard<HostLink>, T>, RackCardFault>
    requires few { channels ≤ most_channels }
    requires coils { HasCoils channels relays }
{
    let (board, place) = placed_board(rt, slot, channels, relays)?;
    match interlock.try_clone() {
        Ok(interlock) => match Kept::new(board, slot, interlock, told) {
            Ok(kept) => Ok(kept),
            Err(fault) => Err(RackCardFault::Driver(slot, place, fault)),
        },
        Err(_) => {
            drop(board);
            Err(RackCardFault::Memory)
        }
    }
}

/// Which closing fails, from 1, of relays that are simulated.
fn fuse_of(relays: &Relays) -> Option<u32> {
    match relays {
        Relays::Simulated(closing) => *closing,
        _ => None,
    }
}

/// What reaches this place; it isn't open yet.
fn link_of(
    rt: HostRuntime,
    slot: u8,
    place: Place,
    limit_ms: u32,
    silence_us: u64,
) -> Result<HostLink, RackCardFault> {
    Ok(HostLink::new(
        rt,
        place_of(rt, slot, place)?,
        Duration::from_millis(u64::from(limit_ms)),
        Duration::from_micros(silence_us),
    ))
}

/// Where the text says that something is reached.
fn place_of(rt: HostRuntime, slot: u8, place: Place) -> Result<sw_drivers::Place, RackCardFault> {
    match place {
        Place::Device(path) => Ok(sw_drivers::Place::Device(path)),
        Place::Waiting(path) => Ok(sw_drivers::Place::Waiting(path)),
        Place::Address(address) => match first_address(rt, address.as_str()) {
            Ok(at) => Ok(sw_drivers::Place::Tcp(at)),
            Err(error) => Err(RackCardFault::Address(slot, address, error)),
        },
    }
}

/// The first address of a host's name and a port.
fn first_address(rt: HostRuntime, address: &str) -> io::Result<SocketAddr> {
    let mut found = address.to_socket_addrs(&rt)?;
    found
        .next()
        .ok_or(io::Error::from(ErrorKind::AddrNotAvailable))
}

/// The board behind a card's channels, which isn't reached yet, and where it is, in the file's words.
pub fn placed_board(
    rt: HostRuntime,
    slot: u8,
    channels: u8,
    relays: Relays,
) -> Result<(AnyBoard<HostLink>, String), RackCardFault>
    requires few { channels ≤ most_channels }
    requires coils { HasCoils channels relays }
    ensures { IfOk result (λ placed. IsBoardOf channels relays placed.0) }
{
    match String::from_str(rt.alloc(), place_of_relays(&relays)) {
        Ok(place) => Ok((board_of(rt, rt.alloc(), slot, channels, relays)?, place)),
        Err(_) => {
            drop(relays);
            Err(RackCardFault::Memory)
        }
    }
}

/// The board behind a card's channels; it isn't reached yet.
fn board_of(
    rt: HostRuntime,
    alloc: Global,
    slot: u8,
    channels: u8,
    relays: Relays,
) -> Result<AnyBoard<HostLink>, RackCardFault>
    requires few { channels ≤ most_channels }
    requires coils { HasCoils channels relays }
    ensures { IfOk result (IsBoardOf channels relays) }
{
    match relays {
        Relays::Simulated(_) => Ok(AnyBoard::Sim(SimBoard)),
        Relays::ModbusTcp(words) => modbus_of(rt, slot, channels, Wrapping::Tcp, words),
        Relays::ModbusRtu(words) => modbus_of(rt, slot, channels, Wrapping::Rtu, words),
        Relays::Lines(words) => lines_of(rt, alloc, slot, channels, words),
        Relays::Scpi(words) => scpi_lines_of(rt, alloc, slot, channels, words),
    }
}

/// A board that speaks Modbus.
fn modbus_of(
    rt: HostRuntime,
    slot: u8,
    channels: u8,
    wrapping: Wrapping,
    words: Modbus,
) -> Result<AnyBoard<HostLink>, RackCardFault>
    requires few { channels ≤ most_channels }
    requires coils { words.first_coil + channels ≤ 65536 }
    ensures tcp { wrapping ≡ Wrapping.Tcp → IfOk result (IsBoardOf channels (Relays.ModbusTcp words)) }
    ensures rtu { wrapping ≡ Wrapping.Rtu → IfOk result (IsBoardOf channels (Relays.ModbusRtu words)) }
{
    let Modbus {
        place,
        limit_ms,
        unit,
        first_coil,
        confirm,
    } = words;
    let silence = match wrapping {
        Wrapping::Tcp => 0,
        Wrapping::Rtu => SILENCE_US,
    };
    let link = link_of(rt, slot, place, limit_ms, silence)?;
    let coils = Coils {
        wrapping,
        unit,
        first: first_coil,
        channels,
        verified: confirm,
    };
    Ok(AnyBoard::Modbus(ModbusBoard::new(link, coils)))
}

/// A board that obeys lines of its own.
fn lines_of(
    rt: HostRuntime,
    alloc: Global,
    slot: u8,
    channels: u8,
    words: Lines,
) -> Result<AnyBoard<HostLink>, RackCardFault>
    requires { channels ≤ most_channels }
    ensures { IfOk result (IsBoardOf channels (Relays.Lines words)) }
{
    let ending = words.answer_end.as_str().as_bytes();
    let commands = commands_of(alloc, &words, channels, b"", ending)?;
    line_board(rt, slot, words.place, words.limit_ms, commands)
}

/// The relays of a SCPI instrument, whose lines and answers end by a line feed.
fn scpi_lines_of(
    rt: HostRuntime,
    alloc: Global,
    slot: u8,
    channels: u8,
    words: Lines,
) -> Result<AnyBoard<HostLink>, RackCardFault>
    requires { channels ≤ most_channels }
    ensures { IfOk result (IsBoardOf channels (Relays.Scpi words)) }
{
    let commands = commands_of(alloc, &words, channels, b"\n", b"\n")?;
    line_board(rt, slot, words.place, words.limit_ms, commands)
}

/// A board that obeys these commands.
fn line_board(
    rt: HostRuntime,
    slot: u8,
    place: Place,
    limit_ms: u32,
    commands: Commands,
) -> Result<AnyBoard<HostLink>, RackCardFault>
    ensures { IfOk result (IsLineBoard commands) }
{
    let link = link_of(rt, slot, place, limit_ms, 0)?;
    Ok(AnyBoard::Lines(LineBoard::new(link, commands)))
}

/// What gives a meter's readings, reached and set up.
pub fn source_of<T: Told + Drop>(
    rt: HostRuntime,
    alloc: Global,
    slot: u8,
    meter: Meter,
    told: T,
) -> Result<AnySource<HostLink, T>, RackCardFault> {
    match meter {
        Meter::Simulated(first, step) => Ok(AnySource::Sim(SimSource::new(first, step))),
        Meter::Scpi(words) => {
            let Query {
                place,
                limit_ms,
                setup,
                query,
            } = words;
            let at = String::from_str(alloc, words_of(&place))?;
            let setup = ended(alloc, setup.as_slice(), b"\n")?;
            let query = with_end(alloc, query.as_str(), b"\n")?;
            let link = link_of(rt, slot, place, limit_ms, 0)?;
            match ScpiMeter::new(link, slot, setup, query, told) {
                Ok(meter) => Ok(AnySource::Scpi(meter)),
                Err(fault) => Err(RackCardFault::Driver(slot, at, fault)),
            }
        }
    }
}

/// Which channels and meters the cards of a rack have, by slot.
pub fn rack_layout(alloc: Global, rack: &Rack) -> Result<Layout, AllocError>
    ensures { IfOk result (λ layout. layout ≡ rack_layout rack.now.cards.items) }
{
    let mut slots = Vec::new(alloc);
    for before in 0..SLOTS {
        slots.push(slot_of(alloc, rack, before + 1)?)?;
    }
    Ok(Layout::new(slots))
}

/// What is in a slot.
fn slot_of(alloc: Global, rack: &Rack, slot: u8) -> Result<Slot, AllocError>
    ensures { IfOk result (λ found. found ≡ slot_contents (offered_to slot (rack_cards rack.now.cards.items))) }
{
    for card in &rack.cards {
        if card.slot == slot {
            return match &card.kind {
                CardKind::Relays(groups, _) => {
                    Ok(Slot::relays(groups.numbers.as_slice().to_vec(alloc)?))
                }
                CardKind::Meter(_) => Ok(Slot::meter()),
            };
        }
    }
    Ok(Slot::empty())
}
