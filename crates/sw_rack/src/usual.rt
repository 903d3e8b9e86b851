//! Keys that cards of several forms have.

ghost use Rattle.std.specs.Prelude.{◌≡◌, ◌≤◌, option_map, IfOk, IfSome, map, string_bytes};
ghost use Rattle.std.specs.Option.{option_to_list};
ghost use Rattle.toml.specs.View.{table_view};
ghost use Rattle.sw_rack.specs.Cards.{device_at, number_or, one_place, place_of, text_or, texts_or, wanted_text};
ghost use Rattle.sw_rack.specs.Fields.{text_at, number_at};
ghost use Rattle.sw_rack.specs.Reading.{Gives};
ghost use Rattle.sw_rack.specs.Seen.{place_seen, texts_seen};

use crate::cause::{Cause, ReadError};
use crate::fields::{number, text, texts};
use crate::key::Key;
use crate::kind::Place;
use std::alloc::{AllocError, Global};
use toml::Table;

/// The text that the table must have at the key.
#[tactic(auto, unfolding(crate::specs::Cards::wanted_text))]
pub fn wanted_text(alloc: Global, table: &Table, key: Key) -> Result<&str, ReadError>
    ensures { Gives (λ s. s.now) result (wanted_text key (table_view table.now)) }
{
    match text(alloc, table, key)? {
        Some(found) => Ok(found),
        None => Err(ReadError::Fault(Cause::Missing(key), String::new(alloc))),
    }
}

/// The text at the key, which may be left out.
pub fn string(alloc: Global, table: &Table, key: Key) -> Result<Option<String>, ReadError>
    ensures { Gives (option_map string_bytes) result (text_at key (table_view table.now)) }
{
    match text(alloc, table, key)? {
        Some(found) => Ok(Some(String::from_str(alloc, found)?)),
        None => Ok(None),
    }
}

/// The text at the key, or the usual one.
#[tactic(auto, unfolding(crate::specs::Cards::text_or))]
pub fn string_or(alloc: Global, table: &Table, key: Key, usual: &str) -> Result<String, ReadError>
    ensures { Gives string_bytes result (text_or key usual.now (table_view table.now)) }
{
    match text(alloc, table, key)? {
        Some(found) => Ok(String::from_str(alloc, found)?),
        None => Ok(String::from_str(alloc, usual)?),
    }
}

/// The number at the key, or the usual one.
#[tactic(auto, unfolding(crate::specs::Cards::number_or))]
pub fn number_or(
    alloc: Global,
    table: &Table,
    key: Key,
    low: u32,
    high: u32,
    usual: u32,
) -> Result<u32, ReadError>
    requires { (low ≤ usual) × (usual ≤ high) }
    ensures given { Gives (λ n. n) result (number_or key low high usual (table_view table.now)) }
    ensures range { IfOk result (λ n. (low ≤ n) × (n ≤ high)) }
{
    match number(alloc, table, key, low, high)? {
        Some(found) => Ok(found),
        None => Ok(usual),
    }
}

/// The texts at the key, or the usual one.
#[tactic(auto, unfolding(crate::specs::Cards::texts_or))]
pub fn texts_or(
    alloc: Global,
    table: &Table,
    key: Key,
    usual: Option<&str>,
) -> Result<Vec<String>, ReadError>
    ensures { Gives (λ v. texts_seen v.items) result
        (texts_or key (option_to_list (option_map (λ s. s.now) usual.entry)) (table_view table.now)) }
{
    if let Some(found) = texts(alloc, table, key)? {
        return Ok(found);
    }
    let mut found = Vec::new(alloc);
    if let Some(usual) = usual {
        found.push(String::from_str(alloc, usual)?)?;
    }
    Ok(found)
}

/// Where the table says that something is reached.
#[tactic(auto, unfolding(crate::specs::Cards::place_of))]
pub fn place(alloc: Global, table: &Table) -> Result<Place, ReadError>
    ensures { Gives place_seen result (place_of (table_view table.now)) }
{
    let address = text(alloc, table, Key::Address)?;
    let device = text(alloc, table, Key::Device)?;
    match (address, device) {
        (Some(address), None) => Ok(Place::Address(String::from_str(alloc, address)?)),
        (None, Some(path)) => Ok(device_at(alloc, path)?),
        _ => Err(ReadError::Fault(Cause::OneOf(Key::Address, Key::Device), String::new(alloc))),
    }
}

/// The device of this path.
pub fn device_at(alloc: Global, path: &str) -> Result<Place, AllocError>
    ensures { IfOk result (λ place. place_seen place ≡ device_at path.now) }
{
    let copy = String::from_str(alloc, path)?;
    if path.as_bytes().starts_with(b"/dev/usbtmc") {
        Ok(Place::Waiting(copy))
    } else {
        Ok(Place::Device(copy))
    }
}
