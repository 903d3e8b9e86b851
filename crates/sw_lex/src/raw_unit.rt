//! One unit of a message, with the numbers of its header's words.

ghost use Rattle.std.specs.Prelude.{◌≡◌, true, map};
ghost use Rattle.std.specs.Char.{to_ascii_uppercase};
ghost use Rattle.sw_lex.specs.Headed.{header_numbers, header_bytes, header_part, header_nodes, first_word};
ghost use Rattle.sw_lex.specs.Parts.{part_of};

use crate::packing::Word;
use crate::unit::{Element, Header};

/// One unit of a program message.
///
/// Its parts are slices of the message; its data elements are in the caller's room.
#[derive(Clone, Copy)]
pub struct RawUnit<'a> {
    /// The header.
    pub header: Header<'a>,
    /// The numbers of the first words of its header.
    pub(crate) words: &'a [Word],
    /// Whether a question mark follows the header.
    pub query: bool,
    /// The data elements.
    pub elements: &'a [Element<'a>],
    /// The unit as it is written.
    pub(crate) text: &'a [u8],
    ghost numbers: { words.now ≡ header_numbers header },
    ghost bytes: { header_bytes header ≡ true },
    ghost begins: { header_part header ≡ part_of (map to_ascii_uppercase (first_word (header_nodes header))) },
}

impl<'a> RawUnit<'a> {
    ghost use Rattle.std.specs.Prelude.{◌≡◌};
    ghost use Rattle.sw_lex.specs.Unit.{written_of};

    /// The unit as it is written: from the first byte of its header to the last byte of its last part, without the
    /// white space and separators around it. Its last part is its last element, or where it has none its question mark
    /// or header.
    pub fn text(&self) -> &'a [u8]
        ensures { result.now ≡ written_of self.now }
    {
        self.text
    }
}
