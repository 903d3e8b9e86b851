//! What a relay card drives.

ghost use Rattle.std.specs.Prelude.{◌≡◌, ◌≤◌, ◌+◌, option_map, length, IfOk, IfSome};
ghost use Rattle.sw_base.specs.Limits.{most_channels};
ghost use Rattle.toml.specs.View.{table_view};
ghost use Rattle.sw_rack.specs.Cards.{behind_of, chosen_groups, coils_from, groups_of, modbus_of, rtu_place, tcp_place};
ghost use Rattle.sw_rack.specs.Coils.{HasCoils};
ghost use Rattle.sw_rack.specs.Reading.{Gives};
ghost use Rattle.sw_rack.specs.Seen.{PlaceSeen, modbus_seen, place_seen, relays_seen};

use crate::cause::{Cause, ReadError};
use crate::fields::{flag, groups, number};
use crate::form::RelayForm;
use crate::key::Key;
use crate::kind::{Groups, Modbus, Place, Relays};
use crate::lines::{read_lines, read_scpi_lines};
use crate::usual::{device_at, number_or, wanted_text};
use std::alloc::Global;
use toml::Table;

/// The groups of a card of `channels` channels.
#[tactic(auto, unfolding(crate::specs::Cards::groups_of))]
pub fn read_groups(alloc: Global, table: &Table, channels: u32) -> Result<Groups, ReadError>
    requires { (1 ≤ channels) × (channels ≤ most_channels) }
    ensures given { Gives (λ g. g.numbers.items) result (groups_of channels (table_view table.now)) }
    ensures each { IfOk result (λ g. length g.numbers.items ≡ channels) }
{
    let group = number(alloc, table, Key::Group, 0, 255)?;
    let groups = groups(alloc, table, Key::Groups)?;
    choose_groups(alloc, channels, group, groups)
}

fn choose_groups(
    alloc: Global,
    channels: u32,
    group: Option<u32>,
    groups: Option<Vec<u8>>,
) -> Result<Groups, ReadError>
    requires channels { (1 ≤ channels) × (channels ≤ most_channels) }
    requires group { IfSome group (λ g. g ≤ 255) }
    ensures given { Gives (λ g. g.numbers.items) result
        (chosen_groups channels group (option_map (λ v. v.items) groups)) }
    ensures each { IfOk result (λ g. length g.numbers.items ≡ channels) }
{
    let size = channels as usize;
    let numbers = match (group, groups) {
        (Some(_), Some(_)) => {
            return Err(ReadError::Fault(Cause::OneOf(Key::Group, Key::Groups), String::new(alloc)));
        }
        (None, Some(groups)) => {
            if groups.len() != size {
                return Err(ReadError::Fault(
                    Cause::Groups(groups.len(), channels),
                    String::new(alloc),
                ));
            }
            groups
        }
        (Some(group), None) => Vec::from_elem(alloc, group as u8, size)?,
        (None, None) => Vec::from_elem(alloc, 0, size)?,
    };
    Ok(Groups { numbers })
}

/// What a relay card of `channels` channels drives.
#[tactic(auto, unfolding(crate::specs::Cards::behind_of))]
pub fn read_behind(
    alloc: Global,
    form: RelayForm,
    table: &Table,
    channels: u32,
) -> Result<Relays, ReadError>
    requires { (1 ≤ channels) × (channels ≤ most_channels) }
    ensures given { Gives relays_seen result (behind_of form channels (table_view table.now)) }
    ensures coils { IfOk result (HasCoils channels) }
{
    match form {
        RelayForm::Simulated => {
            let closing = number(alloc, table, Key::FailClosing, 1, 4_294_967_295)?;
            Ok(Relays::Simulated(closing))
        }
        RelayForm::ModbusTcp => {
            let place = tcp_place(alloc, table)?;
            Ok(Relays::ModbusTcp(read_modbus(alloc, table, place, (0, 255), channels)?))
        }
        RelayForm::ModbusRtu => {
            let place = rtu_place(alloc, table)?;
            Ok(Relays::ModbusRtu(read_modbus(alloc, table, place, (1, 247), channels)?))
        }
        RelayForm::Lines => Ok(Relays::Lines(read_lines(alloc, table, channels)?)),
        RelayForm::Scpi => Ok(Relays::Scpi(read_scpi_lines(alloc, table, channels)?)),
    }
}

#[tactic(auto, unfolding(crate::specs::Cards::tcp_place))]
fn tcp_place(alloc: Global, table: &Table) -> Result<Place, ReadError>
    ensures { Gives place_seen result (tcp_place (table_view table.now)) }
{
    let address = wanted_text(alloc, table, Key::Address)?;
    Ok(Place::Address(String::from_str(alloc, address)?))
}

#[tactic(auto, unfolding(crate::specs::Cards::rtu_place))]
fn rtu_place(alloc: Global, table: &Table) -> Result<Place, ReadError>
    ensures { Gives place_seen result (rtu_place (table_view table.now)) }
{
    let path = wanted_text(alloc, table, Key::Device)?;
    Ok(device_at(alloc, path)?)
}

/// A board that speaks Modbus, with a unit number from these.
#[tactic(auto, unfolding(crate::specs::Cards::modbus_of))]
fn read_modbus(
    alloc: Global,
    table: &Table,
    place: Place,
    units: (u32, u32),
    channels: u32,
) -> Result<Modbus, ReadError>
    requires channels { (1 ≤ channels) × (channels ≤ most_channels) }
    requires units { (units.0 ≤ 1) × (1 ≤ units.1) × (units.1 ≤ 255) }
    ensures given { Gives modbus_seen result
        (modbus_of (place_seen place) units.0 units.1 channels (table_view table.now)) }
    ensures coils { IfOk result (λ m. m.first_coil + channels ≤ 65536) }
{
    let limit_ms = number_or(alloc, table, Key::LimitMs, 10, 60_000, 500)?;
    let unit = number_or(alloc, table, Key::UnitIdentifier, units.0, units.1, 1)? as u8;
    let first = number_or(alloc, table, Key::FirstCoil, 0, 65_535, 0)?;
    let first_coil = check_coils(alloc, channels, first)?;
    let confirm = match flag(alloc, table, Key::Confirm)? {
        Some(confirm) => confirm,
        None => true,
    };
    Ok(Modbus {
        place,
        limit_ms,
        unit,
        first_coil,
        confirm,
    })
}

/// The first coil, where `channels` channels have coils from it on.
fn check_coils(alloc: Global, channels: u32, first: u32) -> Result<u16, ReadError>
    requires channels { (1 ≤ channels) × (channels ≤ most_channels) }
    requires first { first ≤ 65535 }
    ensures given { Gives (λ n. n) result (coils_from channels first) }
    ensures coils { IfOk result (λ n. n + channels ≤ 65536) }
{
    if first + channels > 65_536 {
        return Err(ReadError::Fault(Cause::Coil(first + channels - 1), String::new(alloc)));
    }
    Ok(first as u16)
}
