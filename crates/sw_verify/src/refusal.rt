//! Why a scan may not begin.

ghost use Rattle.std.specs.Prelude.{◌≡◌};
ghost use Rattle.sw_verify.specs.Check.{refusal_number, refusal_name, error_of};

use sw_base::ScpiError;

/// Why a scan may not begin, in the order in which the causes are looked for. The last six are of scan code.
#[derive(Clone, Copy, Debug, PartialEq, Eq)]
pub enum Refusal {
    /// Nothing is listed.
    EmptyList,
    /// A channel is absent.
    NoChannel,
    /// The meter's slot holds none.
    NoMeter,
    /// A channel is closed already, or one of its group is.
    GroupClash,
    /// There is no room for that many readings.
    TooManyReadings,
    /// The loops are not nested.
    BadNesting,
    /// A loop does not go back to its body's first step.
    BadJump,
    /// A loop or the whole leaves other channels closed than it found.
    LeftClosed,
    /// A channel is opened that the scan has not closed.
    NotClosed,
    /// Memory ran out.
    NoMemory,
    /// A program awaits a trigger of a layer with the source IMMediate; no trigger would ever be of it.
    NoSource,
}

impl Refusal {
    /// Its number, from 1.
    pub fn number(self) -> u8
        ensures { result ≡ refusal_number self }
    {
        match self {
            Refusal::EmptyList => 1,
            Refusal::NoChannel => 2,
            Refusal::NoMeter => 3,
            Refusal::GroupClash => 4,
            Refusal::TooManyReadings => 5,
            Refusal::BadNesting => 6,
            Refusal::BadJump => 7,
            Refusal::LeftClosed => 8,
            Refusal::NotClosed => 9,
            Refusal::NoMemory => 10,
            Refusal::NoSource => 11,
        }
    }

    /// Its name.
    pub fn name(self) -> &'static str
        ensures { result.now ≡ refusal_name self }
    {
        match self {
            Refusal::EmptyList => "EmptyList",
            Refusal::NoChannel => "NoChannel",
            Refusal::NoMeter => "NoMeter",
            Refusal::GroupClash => "GroupClash",
            Refusal::TooManyReadings => "TooManyReadings",
            Refusal::BadNesting => "BadNesting",
            Refusal::BadJump => "BadJump",
            Refusal::LeftClosed => "LeftClosed",
            Refusal::NotClosed => "NotClosed",
            Refusal::NoMemory => "NoMemory",
            Refusal::NoSource => "NoSource",
        }
    }

    /// The error that INITiate answers: -241 for an absent channel or meter, -225 for a lack of memory, else -221.
    pub fn error(self) -> ScpiError
        ensures { result ≡ error_of self }
    {
        match self {
            Refusal::NoChannel | Refusal::NoMeter => ScpiError::HardwareMissing,
            Refusal::NoMemory => ScpiError::OutOfMemory,
            _ => ScpiError::SettingsConflict,
        }
    }
}
