//! The commands of one number, and the ranges of their numbers.

ghost use Rattle.std.specs.Prelude.{◌≡◌, ◌≤◌};
ghost use Rattle.sw_lex.specs.Commands.{layer_numbered, of_whole, least, greatest, least_micros};

use crate::command::{Command, Setting, StatusSetting, Time};
use crate::table::{Family, Numeric};
use sw_base::{ARM_COUNT, ArmLayer, LayerName, POINTS, SLOTS, TRIGGER_COUNT};

/// The layer of a header with this number, 0 where it has none.
pub fn layer_of(family: Family, number: u8) -> LayerName
    ensures { result ≡ layer_numbered family number }
{
    match family {
        Family::Arm => LayerName::Arm(ArmLayer::numbered(number)),
        Family::Trigger => LayerName::Trigger,
    }
}

/// The command with this number.
pub fn of_whole(ask: Numeric, number: u8, n: u32) -> Command
    requires { n ≤ greatest ask }
    ensures { result ≡ of_whole ask number n }
{
    match ask {
        Numeric::EventEnable => Command::SetStatus(StatusSetting::EventEnable(n as u8)),
        Numeric::ServiceEnable => Command::SetStatus(StatusSetting::ServiceEnable(n as u8)),
        Numeric::Count(family) => Command::Set(Setting::Count(layer_of(family, number), n)),
        Numeric::ScanMeter => Command::Set(Setting::ScanMeter(n as u8)),
        Numeric::Enable(group) => Command::SetStatus(StatusSetting::Enable(group, n as u16)),
        Numeric::PositiveTransition(group) => {
            Command::SetStatus(StatusSetting::PositiveTransition(group, n as u16))
        }
        Numeric::NegativeTransition(group) => {
            Command::SetStatus(StatusSetting::NegativeTransition(group, n as u16))
        }
        Numeric::Points => Command::Set(Setting::Points(n)),
        Numeric::Slot(query) => Command::SlotQuery(query, n as u8),
    }
}

/// The least number that a command takes.
pub fn least(ask: Numeric) -> u32
    ensures { result ≡ least ask }
{
    match ask {
        Numeric::EventEnable | Numeric::ServiceEnable => 0,
        Numeric::Count(_) | Numeric::ScanMeter | Numeric::Points | Numeric::Slot(_) => 1,
        Numeric::Enable(_) | Numeric::PositiveTransition(_) | Numeric::NegativeTransition(_) => 0,
    }
}

/// The greatest.
pub fn greatest(ask: Numeric) -> u32
    ensures { result ≡ greatest ask }
{
    match ask {
        Numeric::EventEnable | Numeric::ServiceEnable => 255,
        Numeric::Count(Family::Arm) => ARM_COUNT,
        Numeric::Count(Family::Trigger) => TRIGGER_COUNT,
        Numeric::ScanMeter | Numeric::Slot(_) => u32::from(SLOTS),
        Numeric::Enable(_) | Numeric::PositiveTransition(_) | Numeric::NegativeTransition(_) =>
            65_535,
        Numeric::Points => POINTS,
    }
}

/// The least microseconds that this time of a layer has.
pub fn least_micros(time: Time) -> u64
    ensures { result ≡ least_micros time }
{
    match time {
        Time::Delay | Time::Settling => 0,
        Time::Timer => 1,
    }
}
