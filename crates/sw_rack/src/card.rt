//! The table of a card.

ghost use Rattle.std.specs.Prelude.{◌≡◌, ◌≤◌, ◌<◌, option_map, IfOk, IfSome, map, length, string_bytes};
ghost use Rattle.sw_base.specs.Limits.{most_channels, most_slots};
ghost use Rattle.toml.specs.View.{view, table_view};
ghost use Rattle.sw_rack.specs.Cards.{all_fitting, card_in, card_of, fitting, form_of, kind_of, meter_form, meter_of};
ghost use Rattle.sw_rack.specs.Cards.{relay_form, relays_of, scpi_meter_of, simulated_meter_of};
ghost use Rattle.sw_rack.specs.Coils.{HasItsCoils};
ghost use Rattle.sw_rack.specs.Keys.{named, all_keys};
ghost use Rattle.sw_rack.specs.Reading.{Gives};
ghost use Rattle.sw_rack.specs.Seen.{card_seen, kind_seen, meter_seen};

use crate::cause::{Cause, Choice, ReadError};
use crate::fields::{integer, number};
use crate::form::{Form, MeterForm, RelayForm};
use crate::key::{Key, key_named};
use crate::kind::{CardKind, Meter, Query};
use crate::rack::RackCard;
use crate::relays::{read_behind, read_groups};
use crate::usual::{number_or, place, string_or, texts_or, wanted_text};
use std::alloc::Global;
use toml::{Table, Value};

/// The card that a table describes.
pub fn read_card(alloc: Global, slot: u8, value: &Value) -> Result<RackCard, ReadError>
    requires { (1 ≤ slot) × (slot ≤ most_slots) }
    ensures given { Gives card_seen result (card_of slot (view value.now)) }
    ensures slot { IfOk result (λ card. card.slot ≡ slot) }
{
    match value {
        Value::Table(table) => read_table(alloc, slot, table),
        other => {
            let found = String::from_str(alloc, other.type_str())?;
            Err(ReadError::Fault(Cause::NoTable, found))
        }
    }
}

#[tactic(auto, unfolding(crate::specs::Cards::card_in))]
fn read_table(alloc: Global, slot: u8, table: &Table) -> Result<RackCard, ReadError>
    requires { (1 ≤ slot) × (slot ≤ most_slots) }
    ensures given { Gives card_seen result (card_in slot (table_view table.now)) }
    ensures slot { IfOk result (λ card. card.slot ≡ slot) }
{
    let form = read_form(alloc, table)?;
    check_keys(alloc, form, table)?;
    let serial = number_or(alloc, table, Key::Serial, 1, 4_294_967_295, u32::from(slot))?;
    let kind = read_kind(alloc, form, table)?;
    Ok(RackCard { slot, serial, kind })
}

#[tactic(auto, unfolding(crate::specs::Cards::form_of))]
fn read_form(alloc: Global, table: &Table) -> Result<Form, ReadError>
    ensures { Gives (λ f. f) result (form_of (table_view table.now)) }
{
    let card = wanted_text(alloc, table, Key::Card)?;
    if card == "relays" {
        relay_form(alloc, wanted_text(alloc, table, Key::Driver)?)
    } else if card == "meter" {
        meter_form(alloc, wanted_text(alloc, table, Key::Driver)?)
    } else {
        let found = String::from_str(alloc, card)?;
        Err(ReadError::Fault(Cause::Word(Choice::Card), found))
    }
}

fn relay_form(alloc: Global, word: &str) -> Result<Form, ReadError>
    ensures { Gives (λ f. f) result (relay_form word.now) }
{
    let form = if word == "simulated" {
        RelayForm::Simulated
    } else if word == "modbus-tcp" {
        RelayForm::ModbusTcp
    } else if word == "modbus-rtu" {
        RelayForm::ModbusRtu
    } else if word == "lines" {
        RelayForm::Lines
    } else if word == "scpi" {
        RelayForm::Scpi
    } else {
        let found = String::from_str(alloc, word)?;
        return Err(ReadError::Fault(Cause::Word(Choice::RelayDriver), found));
    };
    Ok(Form::Relays(form))
}

fn meter_form(alloc: Global, word: &str) -> Result<Form, ReadError>
    ensures { Gives (λ f. f) result (meter_form word.now) }
{
    if word == "simulated" {
        Ok(Form::Meter(MeterForm::Simulated))
    } else if word == "scpi" {
        Ok(Form::Meter(MeterForm::Scpi))
    } else {
        let found = String::from_str(alloc, word)?;
        Err(ReadError::Fault(Cause::Word(Choice::MeterDriver), found))
    }
}

/// Whether each key of the table is one of such a card.
fn check_keys(alloc: Global, form: Form, table: &Table) -> Result<(), ReadError>
    ensures { Gives (λ _. tt) result (all_fitting form (table_view table.now)) }
{
    for (name, _) in table.iter() {
        check_key(alloc, form, name.as_str())?;
    }
    Ok(())
}

fn check_key(alloc: Global, form: Form, name: &str) -> Result<(), ReadError>
    ensures { Gives (λ _. tt) result (fitting form name.now (named all_keys name.now)) }
{
    let cause = match key_named(name) {
        Some(key) => {
            if form.takes(key) {
                return Ok(());
            }
            Cause::Stray(form)
        }
        None => Cause::Unknown,
    };
    Err(ReadError::Fault(cause, String::from_str(alloc, name)?))
}

#[tactic(auto, unfolding(crate::specs::Cards::kind_of))]
fn read_kind(alloc: Global, form: Form, table: &Table) -> Result<CardKind, ReadError>
    ensures given { Gives kind_seen result (kind_of form (table_view table.now)) }
    ensures coils { IfOk result HasItsCoils }
{
    match form {
        Form::Relays(form) => read_relays(alloc, form, table),
        Form::Meter(form) => Ok(CardKind::Meter(read_meter(alloc, form, table)?)),
    }
}

#[tactic(auto, unfolding(crate::specs::Cards::relays_of))]
fn read_relays(alloc: Global, form: RelayForm, table: &Table) -> Result<CardKind, ReadError>
    ensures given { Gives kind_seen result (relays_of form (table_view table.now)) }
    ensures coils { IfOk result HasItsCoils }
{
    let Some(channels) = number(alloc, table, Key::Channels, 1, 99)? else {
        return Err(ReadError::Fault(Cause::Missing(Key::Channels), String::new(alloc)));
    };
    let groups = read_groups(alloc, table, channels)?;
    let behind = read_behind(alloc, form, table, channels)?;
    Ok(CardKind::Relays(groups, behind))
}

#[tactic(auto, unfolding(crate::specs::Cards::meter_of))]
fn read_meter(alloc: Global, form: MeterForm, table: &Table) -> Result<Meter, ReadError>
    ensures { Gives meter_seen result (meter_of form (table_view table.now)) }
{
    match form {
        MeterForm::Simulated => read_simulated_meter(alloc, table),
        MeterForm::Scpi => read_scpi_meter(alloc, table),
    }
}

#[tactic(auto, unfolding(crate::specs::Cards::simulated_meter_of))]
fn read_simulated_meter(alloc: Global, table: &Table) -> Result<Meter, ReadError>
    ensures { Gives meter_seen result (simulated_meter_of (table_view table.now)) }
{
    let first = match integer(alloc, table, Key::FirstNv)? {
        Some(first) => first,
        None => 1_000_000_000,
    };
    let step = match integer(alloc, table, Key::StepNv)? {
        Some(step) => step,
        None => 1,
    };
    Ok(Meter::Simulated(first, step))
}

#[tactic(auto, unfolding(crate::specs::Cards::scpi_meter_of))]
fn read_scpi_meter(alloc: Global, table: &Table) -> Result<Meter, ReadError>
    ensures { Gives meter_seen result (scpi_meter_of (table_view table.now)) }
{
    let place = place(alloc, table)?;
    let limit_ms = number_or(alloc, table, Key::LimitMs, 10, 600_000, 10_000)?;
    let setup = texts_or(alloc, table, Key::Setup, None)?;
    let query = string_or(alloc, table, Key::Query, "READ?")?;
    Ok(Meter::Scpi(Query {
        place,
        limit_ms,
        setup,
        query,
    }))
}
