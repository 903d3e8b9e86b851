//! A fault of a file.

ghost use Rattle.std.specs.Prelude.{◌≤◌, IfSome};
ghost use Rattle.std.proofs.Props.{props};
ghost use Rattle.sw_base.specs.Limits.{most_slots};

use crate::cause::Cause;
use std::fmt;
use std::fmt::{Display, Formatter, Write};

/// What is wrong with a file that is TOML, and of which slot it is, if it is one's.
#[derive(Debug, Drop)]
pub struct RackFault {
    pub slot: Option<u8>,
    pub cause: Cause,
    pub word: String,
    pub ghost in_cage: { IfSome slot (λ s. (1 ≤ s) × (s ≤ most_slots)) } by { Prim.hlevel props },
}

impl Display for RackFault {
    fn fmt<W: Write>(&self, f: &mut Formatter<W>) -> fmt::Result {
        if let Some(slot) = &self.slot {
            write!(f, "slot {slot}: ")?;
        }
        let word = self.word.as_str().escape_debug();
        match self.cause {
            Cause::Stranger | Cause::Unknown => write!(f, "unknown key `{word}`"),
            Cause::Version => write!(f, "the file begins with `version = 1`"),
            Cause::NoCard => write!(f, "no card: a card for slot 1 is a table `[slot.1]`"),
            Cause::NoSuchSlot => write!(f, "`{word}` is no slot: slots are 1 to 16"),
            Cause::NoTable => match self.slot {
                Some(slot) => write!(f, "`{slot}` is a table, as `[slot.1]`"),
                None => write!(f, "`slot` is a table, as `[slot.1]`"),
            },
            Cause::Stray(form) => write!(f, "unknown key `{word}` for {form}"),
            Cause::Mistyped(key, wanted) => {
                let name = key.name();
                write!(f, "`{name}` is {wanted}, not {word}")
            }
            Cause::Word(choice) => write!(f, "{choice}, not \"{word}\""),
            cause => write_plain(f, cause),
        }
    }
}

/// What is wrong, where no word belongs to it.
fn write_plain<W: Write>(f: &mut Formatter<W>, cause: Cause) -> fmt::Result {
    match cause {
        Cause::Missing(key) => {
            let name = key.name();
            write!(f, "`{name}` is missing")
        }
        Cause::OneOf(one, other) => {
            let (one, other) = (one.name(), other.name());
            write!(f, "either `{one}` or `{other}` is wanted")
        }
        Cause::Range(key, low, high, found) => {
            let name = key.name();
            write!(f, "`{name}` is from {low} to {high}, not {found}")
        }
        Cause::Empty(key) => {
            let name = key.name();
            write!(f, "`{name}` is empty")
        }
        Cause::Groups(groups, channels) => {
            write!(f, "`groups` has {groups} numbers for {channels} channels")
        }
        Cause::Coil(last) => {
            write!(
                f,
                "`first_coil`: the last channel's coil would be {last}, above 65535"
            )
        },
        Cause::Template(key) => {
            let name = key.name();
            write!(
                f,
                "`{name}`: within braces stand ch, ch0, ch:02, ch0:X or the like"
            )
        }
        _ => Ok(()),
    }
}
