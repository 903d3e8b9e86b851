//! The slots of a rack.

ghost use Rattle.std.specs.Option.{option_to_list};
ghost use Rattle.std.specs.Prelude.{◌≡◌, ◌≤◌, ◌++◌, option_map, IfOk, IfSome, OnOk};
ghost use Rattle.sw_base.specs.Limits.{most_slots};
ghost use Rattle.toml.specs.Data.{get_member};
ghost use Rattle.toml.specs.View.{view, table_view};
ghost use Rattle.sw_rack.specs.Racks.{all_slots, card_at, cards_from, is_slot, Finds, rack_seen};
ghost use Rattle.sw_rack.specs.Reading.{Gives};
ghost use Rattle.sw_rack.specs.Seen.{card_seen};
ghost use Rattle.sw_rack.specs.Templates.{decimal};

use crate::card::read_card;
use crate::cause::{Cause, ReadError};
use crate::fault::{TableError, placed};
use crate::rack::{Rack, RackCard};
use std::alloc::{AllocError, Global};
use sw_base::SLOTS;
use toml::{Table, Value};

/// What the table has under this name.
pub fn get<'a>(table: &'a Table, name: &str) -> Option<&'a Value>
    ensures { option_map (λ v. view v.now) result ≡ get_member name.now (table_view table.now) }
{
    table.get(name)
}

/// Whether each key of the slots' table is a slot.
pub fn check_slots(alloc: Global, slots: &Table) -> Result<(), ReadError>
    ensures { Gives (λ _. tt) result (all_slots (table_view slots.now)) }
{
    for (name, _) in slots.iter() {
        let name = name.as_str();
        if !is_slot(name) {
            let found = String::from_str(alloc, name)?;
            return Err(ReadError::Fault(Cause::NoSuchSlot, found));
        }
    }
    Ok(())
}

fn is_slot(name: &str) -> bool
    ensures { result ≡ is_slot most_slots 1 name.now }
{
    for before in 0..SLOTS {
        if slot_name(before + 1) == name {
            return true;
        }
    }
    false
}

/// A slot's number as it is written.
pub fn slot_name(slot: u8) -> &'static str
    requires { (1 ≤ slot) × (slot ≤ most_slots) }
    ensures { result.now ≡ decimal slot }
{
    match slot {
        1 => "1",
        2 => "2",
        3 => "3",
        4 => "4",
        5 => "5",
        6 => "6",
        7 => "7",
        8 => "8",
        9 => "9",
        10 => "10",
        11 => "11",
        12 => "12",
        13 => "13",
        14 => "14",
        15 => "15",
        _ => "16",
    }
}

/// The cards of all slots.
pub fn read_cards(alloc: Global, slots: &Table) -> Result<Rack, TableError>
    ensures { Finds rack_seen result (cards_from most_slots 1 (table_view slots.now)) }
{
    let mut cards = Vec::new(alloc);
    for before in 0..SLOTS {
        let found = read_slot(alloc, slots, before + 1)?;
        push_found(&mut cards, found)?;
    }
    Ok(Rack { cards })
}

/// Puts a card that was found behind the others.
fn push_found(cards: &mut Vec<RackCard>, found: Option<RackCard>) -> Result<(), AllocError>
    ensures { OnOk result (cards.new.items ≡ cards.old.items ++ option_to_list found) }
{
    if let Some(card) = found {
        cards.push(card)?;
    }
    Ok(())
}

/// The card of a slot, if it has one.
fn read_slot(alloc: Global, slots: &Table, slot: u8) -> Result<Option<RackCard>, TableError>
    requires { (1 ≤ slot) × (slot ≤ most_slots) }
    ensures given { Finds (option_map card_seen) result
        (card_at slot (get_member (decimal slot) (table_view slots.now))) }
    ensures slot { IfOk result (λ found. IfSome found (λ card. card.slot ≡ slot)) }
{
    let Some(value) = get(slots, slot_name(slot)) else {
        return Ok(None);
    };
    match read_card(alloc, slot, value) {
        Ok(card) => Ok(Some(card)),
        Err(error) => Err(placed(Some(slot), error)),
    }
}
