//! A file as a rack.

ghost use Rattle.std.specs.Prelude.{◌≡◌, option_map, IfOk, IfErr};
ghost use Rattle.toml.specs.Data.{get_member};
ghost use Rattle.toml.specs.View.{view, table_view};
ghost use Rattle.sw_rack.specs.Racks.{all_known, filled, rack_of, slots_in, slots_of, version_one};
ghost use Rattle.sw_rack.specs.Racks.{Finds, Describes, Refuses, rack_seen};
ghost use Rattle.sw_rack.specs.Reading.{Gives};

use crate::cause::{Cause, ReadError};
use crate::fault::{RackError, TableError, placed};
use crate::line::{line_at, line_of};
use crate::rack::Rack;
use crate::slots::{check_slots, get, read_cards};
use std::alloc::Global;
use toml::{Table, Value};

/// The rack that a text describes, or why it describes none.
pub fn read_rack(alloc: Global, text: &str) -> Result<Rack, RackError>
    ensures read { IfOk result (Describes text.now) }
    ensures refused { IfErr result (Refuses text.now) }
{
    let table = match toml::table_from_str(alloc, text) {
        Ok(table) => table,
        Err(error) => {
            return Err(match error.span() {
                Some(span) => RackError::Syntax(line_at(text.as_bytes(), span.start), error),
                None => RackError::Memory,
            });
        }
    };
    match read_table(alloc, &table) {
        Ok(rack) => Ok(rack),
        Err(TableError::Memory) => Err(RackError::Memory),
        Err(TableError::Fault(fault)) => match line_of(alloc, text.as_bytes(), &fault) {
            Ok(line) => Err(RackError::Fault(line, fault)),
            Err(_) => Err(RackError::Memory),
        },
    }
}

#[tactic(auto, unfolding(crate::specs::Racks::rack_of))]
fn read_table(alloc: Global, table: &Table) -> Result<Rack, TableError>
    ensures { Finds rack_seen result (rack_of (table_view table.now)) }
{
    match slots_of(alloc, table) {
        Ok(slots) => read_cards(alloc, slots),
        Err(error) => Err(placed(None, error)),
    }
}

/// The table of the slots, where nothing is wrong with the file before any card is looked at.
#[tactic(auto, unfolding(crate::specs::Racks::slots_of))]
fn slots_of(alloc: Global, table: &Table) -> Result<&Table, ReadError>
    ensures { Gives (λ t. table_view t.now) result (slots_of (table_view table.now)) }
{
    check_known(alloc, table)?;
    check_version(alloc, get(table, "version"))?;
    let slots = slots_in(alloc, get(table, "slot"))?;
    check_slots(alloc, slots)?;
    Ok(slots)
}

fn check_known(alloc: Global, table: &Table) -> Result<(), ReadError>
    ensures { Gives (λ _. tt) result (all_known (table_view table.now)) }
{
    for (name, _) in table.iter() {
        let name = name.as_str();
        if name != "version" && name != "slot" {
            let found = String::from_str(alloc, name)?;
            return Err(ReadError::Fault(Cause::Stranger, found));
        }
    }
    Ok(())
}

fn check_version(alloc: Global, version: Option<&Value>) -> Result<(), ReadError>
    ensures { Gives (λ _. tt) result (version_one (option_map (λ v. view v.now) version.entry)) }
{
    if let Some(Value::Integer(number)) = version {
        if *number == 1 {
            return Ok(());
        }
    }
    Err(ReadError::Fault(Cause::Version, String::new(alloc)))
}

/// The slots, where there is a card.
fn filled(alloc: Global, slots: &Table) -> Result<&Table, ReadError>
    ensures { Gives (λ t. table_view t.now) result (filled (table_view slots.now)) }
{
    if slots.is_empty() {
        return Err(ReadError::Fault(Cause::NoCard, String::new(alloc)));
    }
    Ok(slots)
}

fn slots_in(alloc: Global, slots: Option<&Value>) -> Result<&Table, ReadError>
    ensures { Gives (λ t. table_view t.now) result (slots_in (option_map (λ v. view v.now) slots.entry)) }
{
    match slots {
        Some(Value::Table(slots)) => filled(alloc, slots),
        Some(other) => {
            let found = String::from_str(alloc, other.type_str())?;
            Err(ReadError::Fault(Cause::NoTable, found))
        }
        None => Err(ReadError::Fault(Cause::NoCard, String::new(alloc))),
    }
}
