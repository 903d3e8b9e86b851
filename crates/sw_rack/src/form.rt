//! The forms of cards.

ghost use Rattle.std.specs.Prelude.{◌≡◌};
ghost use Rattle.sw_rack.specs.Forms.{takes};

use crate::key::Key;

/// What drives a relay card.
#[derive(Clone, Copy, Debug, PartialEq, Eq)]
pub enum RelayForm {
    Simulated,
    ModbusTcp,
    ModbusRtu,
    Lines,
    Scpi,
}

/// What gives a meter's readings.
#[derive(Clone, Copy, Debug, PartialEq, Eq)]
pub enum MeterForm {
    Simulated,
    Scpi,
}

/// A card's form: by its keys `card` and `driver`.
#[derive(Clone, Copy, Debug, PartialEq, Eq)]
pub enum Form {
    Relays(RelayForm),
    Meter(MeterForm),
}

impl Form {
    /// Whether cards of this form have this key.
    pub fn takes(self, key: Key) -> bool
        ensures { result ≡ takes self key }
    {
        match self {
            Form::Relays(form) => form.takes(key),
            Form::Meter(form) => form.takes(key),
        }
    }
}

impl RelayForm {
    fn takes(self, key: Key) -> bool
        ensures { result ≡ takes (Form.Relays self) key }
    {
        match key {
            Key::Card | Key::Serial | Key::Driver | Key::Channels | Key::Group | Key::Groups =>
                true,
            Key::FailClosing => matches!(self, RelayForm::Simulated),
            Key::LimitMs => !matches!(self, RelayForm::Simulated),
            Key::Address => !matches!(self, RelayForm::Simulated | RelayForm::ModbusRtu),
            Key::Device => !matches!(self, RelayForm::Simulated | RelayForm::ModbusTcp),
            Key::UnitIdentifier | Key::FirstCoil | Key::Confirm => {
                matches!(self, RelayForm::ModbusTcp | RelayForm::ModbusRtu)
            }
            Key::On | Key::Off | Key::AllOff | Key::State | Key::StateOn | Key::StateOff => {
                matches!(self, RelayForm::Lines | RelayForm::Scpi)
            }
            Key::AnswerEnd | Key::Answer => matches!(self, RelayForm::Lines),
            Key::Setup => matches!(self, RelayForm::Scpi),
            Key::Query | Key::FirstNv | Key::StepNv => false,
        }
    }
}

impl MeterForm {
    fn takes(self, key: Key) -> bool
        ensures { result ≡ takes (Form.Meter self) key }
    {
        match key {
            Key::Card | Key::Serial | Key::Driver => true,
            Key::Address | Key::Device | Key::LimitMs | Key::Setup | Key::Query => {
                matches!(self, MeterForm::Scpi)
            }
            Key::FirstNv | Key::StepNv => matches!(self, MeterForm::Simulated),
            _ => false,
        }
    }
}
