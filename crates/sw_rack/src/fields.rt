//! What a key of a table gives.

ghost use Rattle.std.specs.Prelude.{◌≡◌, ◌≤◌, option_map, IfOk, IfSome};
ghost use Rattle.toml.specs.View.{view, items_view, table_view};
ghost use Rattle.sw_rack.specs.Fields.{as_flag, as_groups, as_integer, as_number, as_text, as_texts, each, flag_at};
ghost use Rattle.sw_rack.specs.Fields.{groups_at, integer_at, member_at, natural, number_at, text_at, texts_at};
ghost use Rattle.sw_rack.specs.Reading.{Gives};
ghost use Rattle.sw_rack.specs.Seen.{texts_seen};

use crate::cause::{Cause, ReadError, Wanted};
use crate::key::Key;
use std::alloc::Global;
use toml::{Table, Value};

/// The value at the key.
fn member(table: &Table, key: Key) -> Option<&Value>
    ensures { option_map (λ v. view v.now) result ≡ member_at key (table_view table.now) }
{
    table.get(key.name())
}

fn as_text(alloc: Global, value: &Value, key: Key) -> Result<&str, ReadError>
    ensures { Gives (λ s. s.now) result (as_text key (view value.now)) }
{
    match value {
        Value::String(text) => {
            if text.is_empty() {
                return Err(ReadError::Fault(Cause::Empty(key), String::new(alloc)));
            }
            Ok(text.as_str())
        }
        other => {
            let found = String::from_str(alloc, other.type_str())?;
            Err(ReadError::Fault(Cause::Mistyped(key, Wanted::Text), found))
        }
    }
}

/// The number from 0 on that this is.
fn natural(number: i64) -> Option<u32>
    ensures { result ≡ natural number }
{
    if number < 0 || number > 4_294_967_295 {
        return None;
    }
    Some(number as u32)
}

fn as_number(alloc: Global, value: &Value, key: Key, low: u32, high: u32) -> Result<u32, ReadError>
    ensures given { Gives (λ n. n) result (as_number key low high (view value.now)) }
    ensures range { IfOk result (λ n. (low ≤ n) × (n ≤ high)) }
{
    match value {
        Value::Integer(number) => match natural(*number) {
            Some(found) if low <= found && found <= high => Ok(found),
            _ => Err(ReadError::Fault(Cause::Range(key, low, high, *number), String::new(alloc))),
        },
        other => {
            let found = String::from_str(alloc, other.type_str())?;
            Err(ReadError::Fault(Cause::Mistyped(key, Wanted::Number), found))
        }
    }
}

fn as_integer(alloc: Global, value: &Value, key: Key) -> Result<i64, ReadError>
    ensures { Gives (λ n. n) result (as_integer key (view value.now)) }
{
    match value {
        Value::Integer(number) => Ok(*number),
        other => {
            let found = String::from_str(alloc, other.type_str())?;
            Err(ReadError::Fault(Cause::Mistyped(key, Wanted::Number), found))
        }
    }
}

fn as_flag(alloc: Global, value: &Value, key: Key) -> Result<bool, ReadError>
    ensures { Gives (λ b. b) result (as_flag key (view value.now)) }
{
    match value {
        Value::Boolean(flag) => Ok(*flag),
        other => {
            let found = String::from_str(alloc, other.type_str())?;
            Err(ReadError::Fault(Cause::Mistyped(key, Wanted::Flag), found))
        }
    }
}

/// The text at the key, which may be left out.
#[tactic(auto, unfolding(crate::specs::Fields::text_at))]
pub fn text(alloc: Global, table: &Table, key: Key) -> Result<Option<&str>, ReadError>
    ensures { Gives (option_map (λ s. s.now)) result (text_at key (table_view table.now)) }
{
    match member(table, key) {
        None => Ok(None),
        Some(value) => Ok(Some(as_text(alloc, value, key)?)),
    }
}

/// The number at the key, which may be left out.
#[tactic(auto, unfolding(crate::specs::Fields::number_at))]
pub fn number(
    alloc: Global,
    table: &Table,
    key: Key,
    low: u32,
    high: u32,
) -> Result<Option<u32>, ReadError>
    ensures given { Gives (λ n. n) result (number_at key low high (table_view table.now)) }
    ensures range { IfOk result (λ found. IfSome found (λ n. (low ≤ n) × (n ≤ high))) }
{
    match member(table, key) {
        None => Ok(None),
        Some(value) => Ok(Some(as_number(alloc, value, key, low, high)?)),
    }
}

/// The whole number at the key, which may be left out.
#[tactic(auto, unfolding(crate::specs::Fields::integer_at))]
pub fn integer(alloc: Global, table: &Table, key: Key) -> Result<Option<i64>, ReadError>
    ensures { Gives (λ n. n) result (integer_at key (table_view table.now)) }
{
    match member(table, key) {
        None => Ok(None),
        Some(value) => Ok(Some(as_integer(alloc, value, key)?)),
    }
}

/// The flag at the key, which may be left out.
#[tactic(auto, unfolding(crate::specs::Fields::flag_at))]
pub fn flag(alloc: Global, table: &Table, key: Key) -> Result<Option<bool>, ReadError>
    ensures { Gives (λ b. b) result (flag_at key (table_view table.now)) }
{
    match member(table, key) {
        None => Ok(None),
        Some(value) => Ok(Some(as_flag(alloc, value, key)?)),
    }
}

/// The groups at the key, which may be left out.
#[tactic(auto, unfolding(crate::specs::Fields::groups_at))]
pub fn groups(alloc: Global, table: &Table, key: Key) -> Result<Option<Vec<u8>>, ReadError>
    ensures { Gives (option_map (λ v. v.items)) result (groups_at key (table_view table.now)) }
{
    match member(table, key) {
        None => Ok(None),
        Some(value) => Ok(Some(as_groups(alloc, value, key)?)),
    }
}

fn as_groups(alloc: Global, value: &Value, key: Key) -> Result<Vec<u8>, ReadError>
    ensures { Gives (λ v. v.items) result (as_groups key (view value.now)) }
{
    match value {
        Value::Array(items) => each_group(alloc, items.as_slice(), key),
        other => {
            let found = String::from_str(alloc, other.type_str())?;
            Err(ReadError::Fault(Cause::Mistyped(key, Wanted::Numbers), found))
        }
    }
}

fn each_group(alloc: Global, items: &[Value], key: Key) -> Result<Vec<u8>, ReadError>
    ensures { Gives (λ v. v.items) result (each (as_number key 0 255) (items_view items.now)) }
{
    let mut groups = Vec::new(alloc);
    for item in items {
        let group = as_number(alloc, item, key, 0, 255)?;
        groups.push(group as u8)?;
    }
    Ok(groups)
}

/// The text or the list of texts at the key, which may be left out.
#[tactic(auto, unfolding(crate::specs::Fields::texts_at))]
pub fn texts(alloc: Global, table: &Table, key: Key) -> Result<Option<Vec<String>>, ReadError>
    ensures { Gives (option_map (λ v. texts_seen v.items)) result (texts_at key (table_view table.now)) }
{
    match member(table, key) {
        None => Ok(None),
        Some(value) => Ok(Some(as_texts(alloc, value, key)?)),
    }
}

fn as_texts(alloc: Global, value: &Value, key: Key) -> Result<Vec<String>, ReadError>
    ensures { Gives (λ v. texts_seen v.items) result (as_texts key (view value.now)) }
{
    match value {
        Value::String(_) => {
            let mut texts = Vec::new(alloc);
            texts.push(String::from_str(alloc, as_text(alloc, value, key)?)?)?;
            Ok(texts)
        }
        Value::Array(items) => {
            let texts = each_text(alloc, items.as_slice(), key)?;
            if texts.is_empty() {
                return Err(ReadError::Fault(Cause::Empty(key), String::new(alloc)));
            }
            Ok(texts)
        }
        other => {
            let found = String::from_str(alloc, other.type_str())?;
            Err(ReadError::Fault(Cause::Mistyped(key, Wanted::Texts), found))
        }
    }
}

fn each_text(alloc: Global, items: &[Value], key: Key) -> Result<Vec<String>, ReadError>
    ensures { Gives (λ v. texts_seen v.items) result (each (as_text key) (items_view items.now)) }
{
    let mut texts = Vec::new(alloc);
    for item in items {
        let text = as_text(alloc, item, key)?;
        texts.push(String::from_str(alloc, text)?)?;
    }
    Ok(texts)
}
