//! Why no mainframe is fitted with the cards of a list.

ghost use Rattle.std.specs.Prelude.{◌≡◌};
ghost use Rattle.sw_serve.specs.Fitting.{cause_of};
ghost use Rattle.sw_serve.specs.declared.unfit.FitError.TheVariants.{Memory};

use std::alloc::AllocError;
use std::fmt;
use std::fmt::{Display, Formatter, Write};
use sw_base::SLOTS;
use sw_cage::InstallRefusal;

/// Why no mainframe is fitted with the cards of a list. Its text names the slot and the cause.
#[derive(Clone, Copy, Debug, PartialEq, Eq, Drop)]
pub enum FitError {
    /// The mainframe refuses the card that is offered to this slot.
    Refused { slot: u8, why: InstallRefusal },
    /// There was no memory.
    Memory,
}

impl From<AllocError> for FitError {
    ghost from_gives = { λ _ error. error ≡ Memory };

    fn from(_error: AllocError) -> FitError {
        FitError::Memory
    }
}

impl Display for FitError {
    fn fmt<W: Write>(&self, f: &mut Formatter<W>) -> fmt::Result {
        match self {
            FitError::Refused { slot, why } => write!(f, "slot {slot}: {}", cause_of(*slot, *why)),
            FitError::Memory => write!(f, "out of memory"),
        }
    }
}

/// The cause in words.
fn cause_of(slot: u8, why: InstallRefusal) -> &'static str
    ensures { result.now ≡ cause_of slot why }
{
    match why {
        InstallRefusal::Busy => "a scan runs",
        InstallRefusal::Occupied => "a card is there already",
        InstallRefusal::BadLayout => {
            if slot >= 1 && slot <= SLOTS {
                "the card has no channel, more than 99, or a closed one"
            } else {
                "no such slot"
            }
        }
    }
}
