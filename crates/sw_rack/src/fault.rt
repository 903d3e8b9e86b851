//! A fault of a file, and its line on standard error.

ghost use Rattle.std.specs.Prelude.{◌≡◌, ◌≤◌, IfSome};
ghost use Rattle.sw_base.specs.Limits.{most_slots};
ghost use Rattle.sw_rack.specs.declared.fault.TableError.TheVariants.{Memory};
ghost use Rattle.sw_rack.specs.Racks.{IsPlaced};

use crate::cause::{Choice, ReadError, Wanted};
use crate::form::{Form, MeterForm, RelayForm};
use crate::rack_fault::RackFault;
use std::alloc::{AllocError, AllocFailed};
use std::fmt;
use std::fmt::{Display, Formatter, Write};

/// Why a file gives no rack.
#[derive(Debug, Drop)]
pub enum RackError {
    Memory,
    /// It is no TOML, by this line.
    Syntax(usize, toml::de::Error),
    /// It has a fault, on this line; 0 where it is on none.
    Fault(usize, RackFault),
}

/// Why reading a table ends.
#[derive(Debug, Drop)]
pub enum TableError {
    Memory,
    Fault(RackFault),
}

impl From<AllocError> for TableError {
    ghost from_gives = { λ _ e. e ≡ Memory };

    fn from(_error: AllocError) -> TableError {
        TableError::Memory
    }
}

impl<T: Drop> From<AllocFailed<T>> for TableError {
    ghost from_gives = { λ _ e. e ≡ Memory };

    fn from(_failed: AllocFailed<T>) -> TableError {
        TableError::Memory
    }
}

/// The error with the slot that it is of, if it is one's.
pub fn placed(slot: Option<u8>, error: ReadError) -> TableError
    requires { IfSome slot (λ s. (1 ≤ s) × (s ≤ most_slots)) }
    ensures { IsPlaced slot error result }
{
    match error {
        ReadError::Memory => TableError::Memory,
        ReadError::Fault(cause, word) => TableError::Fault(RackFault { slot, cause, word }),
    }
}

impl Display for RackError {
    fn fmt<W: Write>(&self, f: &mut Formatter<W>) -> fmt::Result {
        match self {
            RackError::Memory => write!(f, "out of memory"),
            RackError::Syntax(line, error) => {
                let message = error.message();
                write!(f, "line {line}: {message}")
            }
            RackError::Fault(0, fault) => write!(f, "{fault}"),
            RackError::Fault(line, fault) => write!(f, "line {line}: {fault}"),
        }
    }
}

impl Display for Wanted {
    fn fmt<W: Write>(&self, f: &mut Formatter<W>) -> fmt::Result {
        match self {
            Wanted::Text => write!(f, "a string"),
            Wanted::Number => write!(f, "a whole number"),
            Wanted::Flag => write!(f, "true or false"),
            Wanted::Texts => write!(f, "a string or a list of strings"),
            Wanted::Numbers => write!(f, "a list of whole numbers"),
        }
    }
}

impl Display for Choice {
    fn fmt<W: Write>(&self, f: &mut Formatter<W>) -> fmt::Result {
        match self {
            Choice::Card => write!(f, "`card` is \"relays\" or \"meter\""),
            Choice::RelayDriver => write!(
                f,
                "`driver` is \"simulated\", \"modbus-tcp\", \"modbus-rtu\", \"lines\" or \"scpi\""
            ),
            Choice::MeterDriver => write!(f, "`driver` is \"simulated\" or \"scpi\""),
        }
    }
}

impl Display for Form {
    fn fmt<W: Write>(&self, f: &mut Formatter<W>) -> fmt::Result {
        match self {
            Form::Relays(form) => write!(f, "relays with the driver \"{form}\""),
            Form::Meter(form) => write!(f, "a meter with the driver \"{form}\""),
        }
    }
}

impl Display for RelayForm {
    fn fmt<W: Write>(&self, f: &mut Formatter<W>) -> fmt::Result {
        match self {
            RelayForm::Simulated => write!(f, "simulated"),
            RelayForm::ModbusTcp => write!(f, "modbus-tcp"),
            RelayForm::ModbusRtu => write!(f, "modbus-rtu"),
            RelayForm::Lines => write!(f, "lines"),
            RelayForm::Scpi => write!(f, "scpi"),
        }
    }
}

impl Display for MeterForm {
    fn fmt<W: Write>(&self, f: &mut Formatter<W>) -> fmt::Result {
        match self {
            MeterForm::Simulated => write!(f, "simulated"),
            MeterForm::Scpi => write!(f, "scpi"),
        }
    }
}
