//! The path below which units are looked up.

ghost use Rattle.std.specs.Prelude.{◌≡◌, ◌≤◌, false, map, take};
ghost use Rattle.std.specs.Char.{to_ascii_uppercase};
ghost use Rattle.sw_lex.specs.Headed.{first_or};
ghost use Rattle.sw_lex.specs.Packed.{number_at, word_of};
ghost use Rattle.sw_lex.specs.Parts.{part_of};

use crate::packing::Words;

/// The nodes below which a unit without a leading colon is looked up (SCPI-1999, volume 1, 6.2.4), by their numbers.
/// They are its own: it may outlive the message, and takes no memory.
#[derive(Drop)]
pub struct Path {
    pub(crate) nodes: Words,
    /// The letter with which the first of them begins.
    pub(crate) letter: u8,
    ghost few: { nodes.count ≤ 3 },
    ghost sound: { take nodes.count nodes.kept ≡ map number_at (map word_of (take nodes.count nodes.kept)) },
    ghost begins: { part_of (first_or (to_ascii_uppercase letter) (map word_of (take nodes.count nodes.kept)))
        ≡ (false, to_ascii_uppercase letter) },
}

impl Path {
    ghost use Rattle.std.specs.Prelude.{◌≡◌, []};
    ghost use Rattle.sw_lex.specs.Meaning.{path_of};

    /// The path at the start of a message.
    pub fn root() -> Path
        ensures { path_of result ≡ [] }
    {
        Path {
            nodes: Words::new(),
            letter: 0,
        }
    }
}
