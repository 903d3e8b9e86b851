//! Data elements: from the bytes of a unit to one element.

ghost use Rattle.std.specs.Prelude.{◌≡◌, ◌≤◌, ◌<◌, ◌++◌, ◌∷◌, ◌==◌, ℕ, List, [], Some, true, IfOk, IfErr, IfSome};
ghost use Rattle.std.specs.Prelude.{IfNone, length};
ghost use Rattle.sw_base.specs.Text.{is_digit, AllPass, StartsOff};
ghost use Rattle.sw_base.specs.Number.{value_of};
ghost use Rattle.sw_lex.specs.Elements.{kind_of_byte, doubled, IsBlock, IsExpression, IsElement};
ghost use Rattle.sw_lex.specs.Unit.{most_elements, datum_of, datum_with, LeadsElement, IsUnclosed, IsBadBlock};
ghost use Rattle.sw_lex.specs.Unit.{IsBroken};
ghost use Rattle.sw_lex.specs.Unit.{IsStuck};

use crate::numerals::numeral_end;
use crate::runs::{fault_at, inners};
use crate::unit::{ELEMENTS, Element};
use sw_base::{ScpiError, digits, is_digit, is_letter, split_once, strip_prefix, words};

/// The kinds of data elements.
#[derive(Clone, Copy, Debug, PartialEq, Eq)]
pub enum ElementKind {
    Number,
    Character,
    String,
    Block,
    Expression,
}

/// The kind of the element that a byte begins.
fn kind_of_byte(b: u8) -> Option<ElementKind>
    ensures { result ≡ kind_of_byte b }
{
    if is_digit(b) || b == b'+' || b == b'-' || b == b'.' {
        Some(ElementKind::Number)
    } else if is_letter(b) {
        Some(ElementKind::Character)
    } else if b == b'"' || b == b'\'' {
        Some(ElementKind::String)
    } else if b == b'#' {
        Some(ElementKind::Block)
    } else if b == b'(' {
        Some(ElementKind::Expression)
    } else {
        None
    }
}

/// The part of a text before its rest.
pub fn before<'a>(text: &'a [u8], rest: &[u8]) -> &'a [u8]
    requires { (front : List ℕ) × (text.now ≡ front ++ rest.now) }
    ensures { text.now ≡ result.now ++ rest.now }
{
    let (front, _) = text.split_at(text.len() - rest.len());
    front
}

/// What follows the next mark that isn't doubled.
pub fn closing(text: &[u8], mark: u8) -> Option<&[u8]>
    ensures some { IfSome result (λ rest. (content : List ℕ) × (text.now ≡ doubled mark content ++ mark ∷ rest.now)
        × StartsOff (λ b. b == mark) rest.now) }
    ensures none { IfNone result ((content rest : List ℕ) → text.now ≡ doubled mark content ++ mark ∷ rest
        → StartsOff (λ b. b == mark) rest → ⊥) }
{
    let mut rest = text;
    'marks: loop {
        match split_once(rest, mark) {
            None => return None,
            Some((_, more)) => match strip_prefix(more, mark) {
                None => return Some(more),
                Some(others) => rest = others,
            },
        }
    }
}

/// The number that at most nine digits write.
pub fn value(digits: &[u8]) -> usize
    requires numeric { AllPass is_digit digits.now }
    requires few { length digits.now ≤ 9 }
    ensures { result ≡ value_of digits.now }
{
    let mut n = 0usize;
    for digit in digits {
        n = n * 10 + usize::from(*digit - b'0');
    }
    n
}

/// The bytes of a block with its length in these digits, and what follows them.
fn counted(text: &[u8], width: usize) -> Option<(&[u8], &[u8])>
    requires { width ≤ 9 }
    ensures some { IfSome result (λ x. (digits : List ℕ) × AllPass is_digit digits × (length digits ≡ width)
        × (length x.0.now ≡ value_of digits) × (text.now ≡ digits ++ (x.0.now ++ x.1.now))) }
    ensures none { IfNone result ((digits bytes rest : List ℕ) → AllPass is_digit digits → length digits ≡ width
        → length bytes ≡ value_of digits → text.now ≡ digits ++ (bytes ++ rest) → ⊥) }
{
    if text.len() < width {
        return None;
    }
    let (length, more) = text.split_at(width);
    if !digits(length).1.is_empty() {
        return None;
    }
    let count = value(length);
    if more.len() < count {
        return None;
    }
    Some(more.split_at(count))
}

/// The bytes of the block with its `#` before these bytes, and what follows it.
fn read_block(more: &[u8]) -> Result<(&[u8], &[u8]), ScpiError>
    ensures ok { IfOk result (λ x. IsBlock (35 ∷ more.now) x.0.now x.1.now) }
    ensures err { IfErr result (λ e. IsBadBlock (35 ∷ more.now) e) }
{
    match more {
        [] => Err(ScpiError::InvalidBlockData),
        [width, others @ ..] => {
            if !is_digit(*width) {
                return Err(fault_at(ScpiError::DataTypeError, more));
            }
            if *width == b'0' {
                return Err(ScpiError::InvalidBlockData);
            }
            match counted(others, usize::from(*width - b'0')) {
                None => Err(ScpiError::InvalidBlockData),
                Some(read) => Ok(read),
            }
        }
    }
}

/// The bytes of the block that the text is.
pub fn block_bytes(text: &[u8]) -> Option<&[u8]>
    ensures some { IfSome result (λ bytes. IsBlock text.now bytes.now []) }
    ensures none { IfNone result ((bytes : List ℕ) → IsBlock text.now bytes [] → ⊥) }
{
    match strip_prefix(text, b'#') {
        None => None,
        Some(more) => match read_block(more) {
            Err(_) => None,
            Ok((bytes, rest)) => { if rest.is_empty() { Some(bytes) } else { None } }
        },
    }
}

/// What follows the expression with its `(` before these bytes.
fn expression_end(more: &[u8]) -> Result<&[u8], ScpiError>
    ensures ok { IfOk result (λ rest. IsExpression (40 ∷ more.now) rest.now) }
    ensures err { IfErr result (λ e. IsUnclosed (40 ∷ more.now) e) }
{
    let (_, after) = inners(more);
    match strip_prefix(after, b')') {
        None => Err(fault_at(ScpiError::InvalidExpression, after)),
        Some(rest) => Ok(rest),
    }
}

/// What follows the element of the kind at the front of a text that is this byte and then these.
fn element_end<'a>(
    text: &'a [u8],
    first: u8,
    more: &'a [u8],
    kind: ElementKind,
) -> Result<&'a [u8], ScpiError>
    requires whole { text.now ≡ first ∷ more.now }
    requires begins { kind_of_byte first ≡ Some kind }
    ensures ok { IfOk result (λ rest. IsElement kind text.now rest.now) }
    ensures err { IfErr result (λ e. IsBroken kind text.now e) }
{
    match kind {
        ElementKind::Number => Ok(numeral_end(text)),
        ElementKind::Character => {
            let (_, rest) = words(text);
            Ok(rest)
        }
        ElementKind::String => match closing(more, first) {
            None => Err(ScpiError::InvalidStringData),
            Some(rest) => Ok(rest),
        },
        ElementKind::Block => match read_block(more) {
            Err(e) => Err(e),
            Ok((_, rest)) => Ok(rest),
        },
        ElementKind::Expression => expression_end(more),
    }
}

/// The element of a kind with this text.
fn element(kind: ElementKind, text: &[u8]) -> Element<'_>
    ensures { datum_of result ≡ datum_with kind text.now }
{
    match kind {
        ElementKind::Number => Element::Number(text),
        ElementKind::Character => Element::Character(text),
        ElementKind::String => Element::String(text),
        ElementKind::Block => Element::Block(text),
        ElementKind::Expression => Element::Expression(text),
    }
}

/// The element at the front of a text that begins with this byte, with n before it, and what follows it.
fn read_from<'a>(
    text: &'a [u8],
    first: u8,
    more: &'a [u8],
    n: usize,
) -> Result<(Element<'a>, &'a [u8]), ScpiError>
    requires whole { text.now ≡ first ∷ more.now }
    requires few { n ≤ most_elements }
    ensures ok { IfOk result (λ x. LeadsElement text.now (datum_of x.0) x.1.now) }
    ensures room { IfOk result (λ _. n < most_elements) }
    ensures err { IfErr result (λ e. IsStuck n text.now e) }
{
    match kind_of_byte(first) {
        None => Err(fault_at(ScpiError::SyntaxError, text)),
        Some(kind) => {
            if n == ELEMENTS {
                return Err(ScpiError::ParameterNotAllowed);
            }
            let rest = element_end(text, first, more, kind)?;
            Ok((element(kind, before(text, rest)), rest))
        }
    }
}

/// The element at the front with n before it, and what follows it.
pub fn read_element(text: &[u8], n: usize) -> Result<(Element<'_>, &[u8]), ScpiError>
    requires { n ≤ most_elements }
    ensures ok { IfOk result (λ x. LeadsElement text.now (datum_of x.0) x.1.now) }
    ensures room { IfOk result (λ _. n < most_elements) }
    ensures err { IfErr result (λ e. IsStuck n text.now e) }
{
    match text {
        [] => Err(ScpiError::SyntaxError),
        [first, more @ ..] => read_from(text, *first, more, n),
    }
}
