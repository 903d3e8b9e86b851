//! Relays that obey lines.

ghost use Rattle.std.specs.Prelude.{◌≡◌, ◌≤◌, [], is_some, option_map, string_bytes};
ghost use Rattle.sw_base.specs.Limits.{most_channels};
ghost use Rattle.toml.specs.View.{table_view};
ghost use Rattle.sw_rack.specs.Cards.{lines_of, needs_end, scpi_lines_of, scpi_state_of, some_template, state_of};
ghost use Rattle.sw_rack.specs.Cards.{template_at, template_or, wanted_template, whole_state};
ghost use Rattle.sw_rack.specs.Fields.{otherwise};
ghost use Rattle.sw_rack.specs.Reading.{Gives};
ghost use Rattle.sw_rack.specs.Seen.{lines_seen, state_seen, texts_seen};

use crate::cause::{Cause, ReadError};
use crate::fields::{text, texts};
use crate::key::Key;
use crate::kind::{Lines, State};
use crate::template::rendered;
use crate::usual::{number_or, place, string, string_or, texts_or};
use std::alloc::Global;
use toml::Table;

/// A board that obeys lines of its own.
#[tactic(auto, unfolding(crate::specs::Cards::lines_of))]
pub fn read_lines(alloc: Global, table: &Table, channels: u32) -> Result<Lines, ReadError>
    requires { channels ≤ most_channels }
    ensures { Gives lines_seen result (lines_of channels (table_view table.now)) }
{
    let place = place(alloc, table)?;
    let limit_ms = number_or(alloc, table, Key::LimitMs, 10, 60_000, 500)?;
    let on = wanted_template(alloc, table, Key::On, channels)?;
    let off = wanted_template(alloc, table, Key::Off, channels)?;
    let Some(all_off) = texts(alloc, table, Key::AllOff)? else {
        return Err(ReadError::Fault(Cause::Missing(Key::AllOff), String::new(alloc)));
    };
    let end = string(alloc, table, Key::AnswerEnd)?;
    let answer = string(alloc, table, Key::Answer)?;
    needs_end(alloc, answer.is_some(), end.is_some())?;
    let state = read_state(alloc, table, channels, end.is_some())?;
    Ok(Lines {
        place,
        limit_ms,
        on,
        off,
        all_off,
        answer_end: or_empty(alloc, end),
        answer: or_empty(alloc, answer),
        state,
        setup: Vec::new(alloc),
    })
}

/// The relays of a SCPI instrument.
#[tactic(auto, unfolding(crate::specs::Cards::scpi_lines_of))]
pub fn read_scpi_lines(alloc: Global, table: &Table, channels: u32) -> Result<Lines, ReadError>
    requires { channels ≤ most_channels }
    ensures { Gives lines_seen result (scpi_lines_of channels (table_view table.now)) }
{
    let place = place(alloc, table)?;
    let limit_ms = number_or(alloc, table, Key::LimitMs, 10, 60_000, 500)?;
    let on = template_or(alloc, table, Key::On, "ROUT:CLOS (@{ch})", channels)?;
    let off = template_or(alloc, table, Key::Off, "ROUT:OPEN (@{ch})", channels)?;
    let all_off = texts_or(alloc, table, Key::AllOff, Some("ROUT:OPEN:ALL"))?;
    let state = read_scpi_state(alloc, table, channels)?;
    let setup = texts_or(alloc, table, Key::Setup, None)?;
    Ok(Lines {
        place,
        limit_ms,
        on,
        off,
        all_off,
        answer_end: String::new(alloc),
        answer: String::new(alloc),
        state: Some(state),
        setup,
    })
}

fn or_empty(alloc: Global, text: Option<String>) -> String
    ensures { string_bytes result ≡ otherwise [] (option_map string_bytes text) }
{
    match text {
        Some(text) => text,
        None => String::new(alloc),
    }
}

/// A card may want something of an answer only where the file gives the answer's end.
fn needs_end(alloc: Global, is_wanted: bool, has_end: bool) -> Result<(), ReadError>
    ensures { Gives (λ _. tt) result (needs_end is_wanted has_end) }
{
    if is_wanted && !has_end {
        return Err(ReadError::Fault(Cause::Missing(Key::AnswerEnd), String::new(alloc)));
    }
    Ok(())
}

/// The query of a channel's state.
#[tactic(auto, unfolding(crate::specs::Cards::state_of))]
fn read_state(
    alloc: Global,
    table: &Table,
    channels: u32,
    has_end: bool,
) -> Result<Option<State>, ReadError>
    requires { channels ≤ most_channels }
    ensures { Gives (option_map state_seen) result (state_of channels has_end (table_view table.now)) }
{
    let query = template(alloc, table, Key::State, channels)?;
    needs_end(alloc, query.is_some(), has_end)?;
    let on = string(alloc, table, Key::StateOn)?;
    let off = string(alloc, table, Key::StateOff)?;
    whole_state(alloc, query, on, off)
}

fn whole_state(
    alloc: Global,
    query: Option<String>,
    on: Option<String>,
    off: Option<String>,
) -> Result<Option<State>, ReadError>
    ensures { Gives (option_map state_seen) result
        (whole_state (option_map string_bytes query) (option_map string_bytes on) (option_map string_bytes off)) }
{
    let missing = match (query, on, off) {
        (None, None, None) => return Ok(None),
        (Some(query), Some(on), Some(off)) => return Ok(Some(State { query, on, off })),
        (None, _, _) => Key::State,
        (Some(_), None, _) => Key::StateOn,
        (Some(_), Some(_), None) => Key::StateOff,
    };
    Err(ReadError::Fault(Cause::Missing(missing), String::new(alloc)))
}

#[tactic(auto, unfolding(crate::specs::Cards::scpi_state_of))]
fn read_scpi_state(alloc: Global, table: &Table, channels: u32) -> Result<State, ReadError>
    requires { channels ≤ most_channels }
    ensures { Gives state_seen result (scpi_state_of channels (table_view table.now)) }
{
    let query = template_or(alloc, table, Key::State, "ROUT:CLOS? (@{ch})", channels)?;
    let on = string_or(alloc, table, Key::StateOn, "1")?;
    let off = string_or(alloc, table, Key::StateOff, "0")?;
    Ok(State { query, on, off })
}

/// The template at the key, which may be left out.
#[tactic(auto, unfolding(crate::specs::Cards::template_at))]
fn template(
    alloc: Global,
    table: &Table,
    key: Key,
    channels: u32,
) -> Result<Option<String>, ReadError>
    requires { channels ≤ most_channels }
    ensures { Gives (option_map string_bytes) result (template_at key channels (table_view table.now)) }
{
    match text(alloc, table, key)? {
        Some(found) => Ok(Some(some_template(alloc, key, channels, found)?)),
        None => Ok(None),
    }
}

/// The text, where it is a template that has a text for each of `channels` channels.
fn some_template(alloc: Global, key: Key, channels: u32, text: &str) -> Result<String, ReadError>
    requires { channels ≤ most_channels }
    ensures { Gives string_bytes result (some_template key channels text.now) }
{
    let copy = String::from_str(alloc, text)?;
    match rendered(alloc, text, channels as u8)? {
        Some(_) => Ok(copy),
        None => Err(ReadError::Fault(Cause::Template(key), copy)),
    }
}

#[tactic(auto, unfolding(crate::specs::Cards::wanted_template))]
fn wanted_template(
    alloc: Global,
    table: &Table,
    key: Key,
    channels: u32,
) -> Result<String, ReadError>
    requires { channels ≤ most_channels }
    ensures { Gives string_bytes result (wanted_template key channels (table_view table.now)) }
{
    match template(alloc, table, key, channels)? {
        Some(found) => Ok(found),
        None => Err(ReadError::Fault(Cause::Missing(key), String::new(alloc))),
    }
}

#[tactic(auto, unfolding(crate::specs::Cards::template_or))]
fn template_or(
    alloc: Global,
    table: &Table,
    key: Key,
    usual: &str,
    channels: u32,
) -> Result<String, ReadError>
    requires { channels ≤ most_channels }
    ensures { Gives string_bytes result (template_or key usual.now channels (table_view table.now)) }
{
    match template(alloc, table, key, channels)? {
        Some(found) => Ok(found),
        None => Ok(String::from_str(alloc, usual)?),
    }
}
