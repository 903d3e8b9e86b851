//! Units: from the bytes of a message to one header and its data.

ghost use Rattle.std.specs.Prelude.{◌≡◌, ◌==◌, ◌++◌, ◌∷◌, ◌≤◌, ◌<◌, ◌+◌, ℕ, List, [], true, false, IfOk, IfErr};
ghost use Rattle.std.specs.Prelude.{IsTrue, IfSome, IfNone, length, take, drop};
ghost use Rattle.sw_base.specs.Text.{is_blank, is_letter, is_word, AllPass, StartsOff};
ghost use Rattle.sw_base.specs.declared.error.ScpiError.{ScpiError as Error};
ghost use Rattle.sw_base.specs.declared.error.ScpiError.TheVariants.{SyntaxError};
ghost use Rattle.sw_lex.specs.Unit.{most_elements, UnitSeen, unit_of, heading_of, data_of, is_gap, fault_at, IsPath};
ghost use Rattle.sw_lex.specs.Unit.{BreaksOff, Heads};
ghost use Rattle.sw_lex.specs.Unit.{HasNoHeading, Asks, IsData, IsDataRefused, IsTail, IsTailRefused, IsUnit};
ghost use Rattle.sw_lex.specs.Unit.{IsRefusedUnit, IsBlank, AreJoinedElements, IsLeft, IsWritten, Closes, written_of};
ghost use Rattle.sw_lex.specs.Headed.{path_numbers, header_numbers};

use crate::elements::{before, read_element};
use crate::packing::{FEW_LETTERS, Word, Words, number_of, star_at};
use crate::raw_unit::RawUnit;
use crate::runs::{end, fault_at, gaps, name, read_word};
use sw_base::{ScpiError, blanks, strip_prefix};

/// The most data elements of a unit.
pub const ELEMENTS: usize = 16;

/// One data element, as it is written.
#[derive(Clone, Copy, Debug, PartialEq, Eq)]
pub enum Element<'a> {
    /// A decimal number.
    Number(&'a [u8]),
    /// A word.
    Character(&'a [u8]),
    /// A string with its quotes.
    String(&'a [u8]),
    /// A block with its `#` and its length.
    Block(&'a [u8]),
    /// An expression with its parentheses.
    Expression(&'a [u8]),
}

/// A header, as it is written.
#[derive(Clone, Copy, Debug, PartialEq, Eq)]
pub enum Header<'a> {
    /// A common header: `*` and letters.
    Common(&'a [u8]),
    /// Mnemonics joined by colons, and whether a colon precedes them.
    Path { leading: bool, nodes: &'a [u8] },
}

/// Room for the words of a header and the data elements of one unit. A caller that reads one unit after another gives
/// the same room each time.
#[derive(Drop)]
pub struct Elements<'a> {
    words: Words,
    found: Found<'a>,
}

impl Elements<'_> {
    /// Room with nothing in it yet.
    pub fn new() -> Self {
        Elements {
            words: Words::new(),
            found: Found::new(),
        }
    }
}

/// Data elements, as many as are counted.
#[derive(Drop)]
struct Found<'a> {
    /// An element from before the count was set back stays in its place.
    found: [Element<'a>; ELEMENTS],
    count: usize,
    ghost whole: { length found ≡ most_elements },
    ghost few: { count ≤ most_elements },
}

impl<'a> Found<'a> {
    /// None.
    fn new() -> Self {
        Found {
            found: [Element::Character(&[]); ELEMENTS],
            count: 0,
        }
    }

    /// Puts an element behind the others.
    fn add(&mut self, element: Element<'a>)
        requires { self.old.count < most_elements }
        ensures items { take self.new.count self.new.found ≡ take self.old.count self.old.found ++ element.entry ∷ [] }
        ensures count { self.new.count ≡ self.old.count + 1 }
    {
        self.found[self.count] = element;
        self.count += 1;
    }
}

/// Where the mnemonics and colons at the front end, or where they break off; and which of both.
#[inline(always)]
fn path_end(text: &[u8], words: &mut Words) -> (usize, bool)
    requires empty { words.old.count ≡ 0 }
    ensures fits { result.0 ≤ length text.now }
    ensures ok { IsTrue result.1 → IsPath (take result.0 text.now) }
    ensures whole { IsTrue result.1 → StartsOff is_word (drop result.0 text.now)
        × StartsOff (λ b. b == 58) (drop result.0 text.now) }
    ensures words { IsTrue result.1 → take words.new.count words.new.kept ≡ path_numbers (take result.0 text.now) }
    ensures off { result.1 ≡ false → BreaksOff text.now (fault_at SyntaxError (drop result.0 text.now)) }
{
    let mut n = 0;
    'nodes: loop {
        let (_, rest) = text.split_at(n);
        let length = read_word(rest, words);
        if length == 0 {
            return (n, false);
        }
        n += length;
        if n == text.len() || text[n] != b':' {
            return (n, true);
        }
        n += 1;
    }
}

/// The mnemonics and colons at the front, and what follows them.
#[inline(always)]
fn read_path<'a>(text: &'a [u8], words: &mut Words) -> Result<(&'a [u8], &'a [u8]), ScpiError>
    requires empty { words.old.count ≡ 0 }
    ensures ok { IfOk result (λ x. IsPath x.0.now × (text.now ≡ x.0.now ++ x.1.now)) }
    ensures whole { IfOk result (λ x. StartsOff is_word x.1.now × StartsOff (λ b. b == 58) x.1.now) }
    ensures words { IfOk result (λ x. take words.new.count words.new.kept ≡ path_numbers x.0.now) }
    ensures err { IfErr result (λ e. BreaksOff text.now e) }
{
    let (n, is_whole) = path_end(text, words);
    let (path, rest) = text.split_at(n);
    if is_whole {
        Ok((path, rest))
    } else {
        Err(fault_at(ScpiError::SyntaxError, rest))
    }
}

/// The common header at the front of what begins with `*`, and what follows it.
fn read_common<'a>(
    text: &'a [u8],
    more: &'a [u8],
    words: &mut Words,
) -> Result<(Header<'a>, &'a [u8]), ScpiError>
    requires starred { text.now ≡ 42 ∷ more.now }
    requires empty { words.old.count ≡ 0 }
    ensures ok { IfOk result (λ x. Heads text.now (heading_of x.0) x.1.now) }
    ensures words { IfOk result (λ x. take words.new.count words.new.kept ≡ header_numbers x.0) }
    ensures err { IfErr result (λ e. StartsOff is_letter more.now × (e ≡ fault_at SyntaxError more.now)) }
{
    let (number, n) = star_at(more);
    if 0 < n && n < FEW_LETTERS {
        let (all, rest) = text.split_at(n + 1);
        words.push(Word::from(number));
        return Ok((Header::Common(all), rest));
    }
    let (letters, _) = name(more)?;
    let (all, rest) = text.split_at(letters.len() + 1);
    words.push(number_of(all));
    Ok((Header::Common(all), rest))
}

/// The header at the front, and what follows it.
fn read_header<'a>(text: &'a [u8], words: &mut Words) -> Result<(Header<'a>, &'a [u8]), ScpiError>
    requires empty { words.old.count ≡ 0 }
    ensures ok { IfOk result (λ x. Heads text.now (heading_of x.0) x.1.now) }
    ensures words { IfOk result (λ x. take words.new.count words.new.kept ≡ header_numbers x.0) }
    ensures err { IfErr result (λ e. HasNoHeading text.now e) }
{
    match text {
        [b'*', more @ ..] => read_common(text, more, words),
        [b':', more @ ..] => {
            let (nodes, rest) = read_path(more, words)?;
            Ok((
                Header::Path {
                    leading: true,
                    nodes,
                },
                rest,
            ))
        }
        _ => {
            let (nodes, rest) = read_path(text, words)?;
            Ok((
                Header::Path {
                    leading: false,
                    nodes,
                },
                rest,
            ))
        }
    }
}

/// Whether a query's mark is at the front, and what follows it.
fn query_mark(text: &[u8]) -> (bool, &[u8])
    ensures { Asks text.now result.0 result.1.now }
{
    match strip_prefix(text, b'?') {
        Some(rest) => (true, rest),
        None => (false, text),
    }
}

/// Reads the elements up to the unit's end. Returns what follows the last of them, and what follows the end.
fn read_data<'a>(text: &'a [u8], found: &mut Found<'a>) -> Result<(&'a [u8], &'a [u8]), ScpiError>
    requires empty { found.old.count ≡ 0 }
    ensures ok { IfOk result (λ x. IsData text.now (data_of (take found.new.count found.new.found)) x.1.now) }
    ensures joined { IfOk result (λ x. AreJoinedElements text.now (data_of (take found.new.count found.new.found))
        x.0.now) }
    ensures closes { IfOk result (λ x. Closes x.0.now x.1.now) }
    ensures few { IfOk result (λ _. length (data_of (take found.new.count found.new.found)) ≤ most_elements) }
    ensures err { IfErr result (λ e. IsDataRefused text.now e) }
{
    let mut rest = text;
    'data: loop {
        let (next, after) = read_element(rest, found.count)?;
        let (_, more) = blanks(after);
        match end(more) {
            Some(others) => {
                found.add(next);
                return Ok((after, others));
            }
            None => match strip_prefix(more, b',') {
                Some(others) => {
                    let (_, others) = blanks(others);
                    found.add(next);
                    rest = others;
                }
                None => return Err(fault_at(ScpiError::InvalidSeparator, more)),
            },
        }
    }
}

/// Reads the data that follow a header. Returns what follows the unit's last part, and what follows the unit.
fn read_tail<'a>(text: &'a [u8], found: &mut Found<'a>) -> Result<(&'a [u8], &'a [u8]), ScpiError>
    requires empty { found.old.count ≡ 0 }
    ensures ok { IfOk result (λ x. IsTail text.now (data_of (take found.new.count found.new.found)) x.1.now) }
    ensures left { IfOk result (λ x. IsLeft text.now (data_of (take found.new.count found.new.found)) x.0.now) }
    ensures closes { IfOk result (λ x. Closes x.0.now x.1.now) }
    ensures few { IfOk result (λ _. length (data_of (take found.new.count found.new.found)) ≤ most_elements) }
    ensures err { IfErr result (λ e. IsTailRefused text.now e) }
{
    let (gap, more) = blanks(text);
    match end(more) {
        Some(rest) => Ok((text, rest)),
        None => {
            if gap.is_empty() {
                return Err(fault_at(ScpiError::InvalidSeparator, more));
            }
            read_data(more, found)
        }
    }
}

/// The next unit of a message, and what follows it; none where nothing but white space and empty units is left (IEEE
/// 488.2, 7.3). It puts its data elements in this room, over any from before.
pub fn next_unit<'u, 'a: 'u>(
    text: &'a [u8],
    room: &'u mut Elements<'a>,
) -> Result<Option<(RawUnit<'u>, &'a [u8])>, ScpiError>
    ensures unit { IfOk result (λ o. IfSome o (λ x. IsUnit text.now (unit_of x.0) x.1.now)) }
    ensures written { IfOk result (λ o. IfSome o (λ x. (before left : List ℕ)
        × IsWritten text.now before (unit_of x.0) (written_of x.0) left × Closes left x.1.now)) }
    ensures shorter { IfOk result (λ o. IfSome o (λ x. length x.1.now < length text.now)) }
    ensures none { IfOk result (λ o. IfNone o (IsBlank text.now)) }
    ensures refused { IfErr result (λ e. IsRefusedUnit text.now e) }
{
    let (_, start) = gaps(text);
    if start.is_empty() {
        return Ok(None);
    }
    room.words.count = 0;
    let (header, rest) = read_header(start, &mut room.words)?;
    let (query, rest) = query_mark(rest);
    room.found.count = 0;
    let (left, rest) = read_tail(rest, &mut room.found)?;
    Ok(Some((
        RawUnit {
            header,
            words: &room.words.kept[..room.words.count],
            query,
            elements: &room.found.found[..room.found.count],
            text: before(start, left),
        },
        rest,
    )))
}

/// A law: no text is two units, nor refused in two ways, nor a unit and refused, nor blank and either; and no unit is
/// written in two ways.
pub fn one_reading()
    ensures units { (text : List ℕ) (u v : UnitSeen) (r s : List ℕ) → IsUnit text u r → IsUnit text v s
        → (u ≡ v) × (r ≡ s) }
    ensures written { (text before front : List ℕ) (u : UnitSeen) (w v r s : List ℕ) → IsWritten text before u w r
        → IsWritten text front u v s → (before ≡ front) × (w ≡ v) × (r ≡ s) }
    ensures refusals { (text : List ℕ) (e f : Error) → IsRefusedUnit text e → IsRefusedUnit text f → e ≡ f }
    ensures apart { (text : List ℕ) (u : UnitSeen) (r : List ℕ) (e : Error) → IsUnit text u r → IsRefusedUnit text e
        → ⊥ }
    ensures no_unit { (text : List ℕ) (u : UnitSeen) (r : List ℕ) → IsBlank text → IsUnit text u r → ⊥ }
    ensures no_refusal { (text : List ℕ) (e : Error) → IsBlank text → IsRefusedUnit text e → ⊥ }
{}
