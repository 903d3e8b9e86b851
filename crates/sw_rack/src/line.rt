//! On which line of a text something is.

ghost use Rattle.std.specs.Prelude.{◌≡◌, ◌≤◌, length, take, option_map, IfOk};
ghost use Rattle.toml.specs.View.{view, table_view};
ghost use Rattle.sw_rack.specs.Lines.{ends_from, first_shown, front_table, key_of_file, key_of_slot, line_at, shows};
ghost use Rattle.sw_rack.specs.Lines.{under, IsLine};

use crate::cause::{Cause, Choice};
use crate::key::Key;
use crate::rack_fault::RackFault;
use crate::slots::{get, slot_name};
use std::alloc::{AllocError, Global};
use toml::{Table, Value};

/// The line of a place of the text, from 1.
pub fn line_at(text: &[u8], place: usize) -> usize
    requires { place ≤ length text.now }
    ensures { result ≡ line_at text.now place }
{
    let mut line = 1;
    for byte in &text[..place] {
        if *byte == b'\n' {
            line += 1;
        }
    }
    line
}

/// The line on which what the fault is about begins; 0 where the text doesn't show it. It is found by halving.
pub fn line_of(alloc: Global, text: &[u8], fault: &RackFault) -> Result<usize, AllocError>
    ensures { IfOk result (IsLine fault.now text.now) }
{
    let ends = line_ends(alloc, text)?;
    let mut low = 0;
    let mut high = ends.len();
    while low < high {
        let middle = low + (high - low) / 2;
        if shows_soon(alloc, text, &ends.as_slice()[middle..], fault)? {
            high = middle;
        } else {
            low = middle + 1;
        }
    }
    if low < ends.len() { Ok(low + 1) } else { Ok(0) }
}

/// Where each line of the text ends, its line feed left out.
#[tactic(auto, using(crate::proofs::Fronts::end_here, crate::proofs::Fronts::end_later, crate::proofs::Fronts::end_last,))]
fn line_ends(alloc: Global, text: &[u8]) -> Result<Vec<usize>, AllocError>
    ensures { IfOk result (λ ends. ends.items ≡ ends_from 0 text.now) }
{
    let mut ends = Vec::new(alloc);
    for place in 0..text.len() {
        if text[place] == b'\n' {
            ends.push(place)?;
        }
    }
    ends.push(text.len())?;
    Ok(ends)
}

/// Whether the first front of the text that is TOML by itself, of those that end so, shows what the fault is about.
#[tactic(auto, using(crate::proofs::Fronts::shown_here, crate::proofs::Fronts::shown_later, crate::proofs::Fronts::shown_never,))]
fn shows_soon(
    alloc: Global,
    text: &[u8],
    ends: &[usize],
    fault: &RackFault,
) -> Result<bool, AllocError>
    ensures { IfOk result (λ shown. shown ≡ first_shown fault.now text.now ends.now) }
{
    for end in ends {
        if let Some(table) = front_table(alloc, front(text, *end))? {
            return Ok(shows(&table, fault));
        }
    }
    Ok(false)
}

/// The text up to this place.
fn front(text: &[u8], end: usize) -> &[u8]
    ensures { result.now ≡ take end text.now }
{
    if end < text.len() { &text[..end] } else { text }
}

/// The bytes as TOML, where they are that.
#[tactic(auto, using(crate::proofs::Fronts::front_is, crate::proofs::Fronts::front_is_none))]
fn front_table(alloc: Global, bytes: &[u8]) -> Result<Option<Table>, AllocError>
    ensures { IfOk result (λ found. option_map table_view found ≡ front_table bytes.now) }
{
    match toml::table_from_slice(alloc, bytes) {
        Ok(table) => Ok(Some(table)),
        Err(error) => {
            if error.is_memory() {
                return Err(AllocError);
            }
            Ok(None)
        }
    }
}

/// Whether the table has what the fault is about.
#[tactic(auto, unfolding(crate::specs::Lines::shows))]
fn shows(table: &Table, fault: &RackFault) -> bool
    ensures { result ≡ shows fault.now (table_view table.now) }
{
    let word = fault.word.as_str();
    let Some(slot) = fault.slot else {
        return match fault.cause {
            Cause::NoSuchSlot => under(get(table, "slot"), word).is_some(),
            cause => get(table, key_of_file(cause, word)).is_some(),
        };
    };
    let card = under(get(table, "slot"), slot_name(slot));
    match key_of_slot(fault.cause, word) {
        Some(key) => under(card, key).is_some(),
        None => card.is_some(),
    }
}

/// What a key of a table has, where it is a table.
fn under<'a>(value: Option<&'a Value>, name: &str) -> Option<&'a Value>
    ensures { option_map (λ v. view v.now) result ≡ under name.now (option_map (λ v. view v.now) value.entry) }
{
    match value {
        Some(Value::Table(table)) => get(table, name),
        _ => None,
    }
}

/// The key of the file that a fault is about.
fn key_of_file(cause: Cause, word: &str) -> &str
    ensures { result.now ≡ key_of_file cause word.now }
{
    match cause {
        Cause::Stranger => word,
        Cause::Version => "version",
        _ => "slot",
    }
}

/// The key of a slot that a fault is about; none where it is about the slot.
fn key_of_slot(cause: Cause, word: &str) -> Option<&str>
    ensures { option_map (λ s. s.now) result ≡ key_of_slot cause word.now }
{
    match cause {
        Cause::Unknown | Cause::Stray(_) => Some(word),
        Cause::Mistyped(key, _) | Cause::Range(key, _, _, _) => Some(key.name()),
        Cause::Empty(key) | Cause::Template(key) => Some(key.name()),
        Cause::Word(Choice::Card) => Some(Key::Card.name()),
        Cause::Word(_) => Some(Key::Driver.name()),
        Cause::Groups(_, _) => Some(Key::Groups.name()),
        Cause::Coil(_) => Some(Key::FirstCoil.name()),
        _ => None,
    }
}
