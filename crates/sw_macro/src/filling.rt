//! Bodies of macros with their parameters put in.

ghost use Rattle.std.specs.Prelude.{◌≡◌, ◌≤◌, ◌+◌, ◌++◌, ◌∷◌, ℕ, List, None, IfOk, IfErr, length, nat_lt};
ghost use Rattle.sw_base.specs.Limits.{most_bytes};
ghost use Rattle.std.specs.Option.{option_map};
ghost use Rattle.sw_base.specs.Memory.{Gives};
ghost use Rattle.sw_base.specs.declared.error.ScpiError.TheVariants.{MacroParameterError};
ghost use Rattle.sw_lex.specs.Unit.{datum_of, datum_text, unit_of};
ghost use Rattle.sw_macro.specs.Filling.{is_place, parameter, filled, put_in, PutsFor, IsDraft};

use std::alloc::{AllocError, Global};
use sw_base::{MESSAGE_BYTES, ScpiError, split_once};
use sw_lex::{Element, RawUnit};

/// Whether the byte after a `$` names a data element.
fn is_place(b: u8) -> bool
    ensures { result ≡ is_place b }
{
    b'1' <= b && b <= b'9'
}

/// An element as it is written.
fn text_of(element: Element<'_>) -> &[u8]
    ensures { result.now ≡ datum_text (datum_of element.entry) }
{
    match element {
        Element::Number(text) => text,
        Element::Character(text) => text,
        Element::String(text) => text,
        Element::Block(text) => text,
        Element::Expression(text) => text,
    }
}

/// The data element number `k` of a unit, from 0, as it is written.
fn parameter<'a>(unit: &RawUnit<'a>, k: usize) -> Option<&'a [u8]>
    ensures { option_map (λ text. text.now) result ≡ parameter (unit_of unit.now).elements k }
{
    match unit.elements.get(k) {
        None => None,
        Some(element) => Some(text_of(*element)),
    }
}

/// What a `$` before this byte and these others puts into a body, and what follows it; -274 for a missing element.
fn put_for<'a, 'b>(
    more: &'b [u8],
    first: u8,
    others: &'b [u8],
    unit: &RawUnit<'a>,
) -> Result<(&'a [u8], &'b [u8]), ScpiError>
    requires whole { more.now ≡ first ∷ others.now }
    ensures ok { IfOk result (λ x. PutsFor (unit_of unit.now).elements more.now x.0.now x.1.now) }
    ensures shorter { IfOk result (λ x. length x.1.now ≤ length more.now) }
    ensures missing { IfErr result (λ e. filled (unit_of unit.now).elements (36 ∷ more.now) ≡ None) }
    ensures error { IfErr result (λ e. e ≡ MacroParameterError) }
{
    if !is_place(first) {
        return Ok((b"$", more));
    }
    match parameter(unit, usize::from(first - b'1')) {
        None => Err(ScpiError::MacroParameterError),
        Some(bytes) => Ok((bytes, others)),
    }
}

/// What a `$` before these bytes puts into a body, and what follows it; -274 for a missing element.
fn put_at_mark<'a, 'b>(
    more: &'b [u8],
    unit: &RawUnit<'a>,
) -> Result<(&'a [u8], &'b [u8]), ScpiError>
    ensures ok { IfOk result (λ x. PutsFor (unit_of unit.now).elements more.now x.0.now x.1.now) }
    ensures shorter { IfOk result (λ x. length x.1.now ≤ length more.now) }
    ensures missing { IfErr result (λ e. filled (unit_of unit.now).elements (36 ∷ more.now) ≡ None) }
    ensures error { IfErr result (λ e. e ≡ MacroParameterError) }
{
    match more {
        [] => Ok((b"$", more)),
        [first, others @ ..] => put_for(more, *first, others, unit),
    }
}

/// Appends the bytes where the room is enough for them, and gives the room that is left; none where it isn't enough.
fn put(text: &mut Vec<u8>, bytes: &[u8], room: Option<usize>) -> Result<Option<usize>, AllocError>
    ensures { (n : ℕ) (whole : List ℕ) → IsDraft n whole text.old.items room
        → IfOk result (λ left. IsDraft n (whole ++ bytes.now) text.new.items left) }
{
    match room {
        None => Ok(None),
        Some(room) => {
            if bytes.len() > room {
                return Ok(None);
            }
            text.extend_from_slice(bytes)?;
            Ok(Some(room - bytes.len()))
        }
    }
}

/// Whether `before` bytes and a body are together more than 65,536 bytes.
pub fn is_too_long(before: usize, body: &[u8]) -> bool
    ensures { result ≡ nat_lt most_bytes (before + length body.now) }
{
    before.saturating_add(body.len()) > MESSAGE_BYTES
}

/// A body with each `$1` to `$9` replaced by that data element of the unit, with `before` bytes ahead of it.
///
/// -274 where an element is missing, else -276 where all together is more than 65,536 bytes. It keeps no more than
/// that.
pub fn fill(
    alloc: Global,
    body: &[u8],
    unit: &RawUnit<'_>,
    before: usize,
) -> Result<Vec<u8>, ScpiError>
    ensures { Gives (λ text. text.items) result (put_in (unit_of unit.now).elements body.now before) }
{
    let mut text = Vec::new(alloc);
    let mut room = MESSAGE_BYTES.checked_sub(before);
    let mut rest = body;
    'parts: loop {
        match split_once(rest, b'$') {
            None => {
                return match put(&mut text, rest, room)? {
                    None => Err(ScpiError::MacroRecursionError),
                    Some(_) => Ok(text),
                };
            }
            Some((front, more)) => {
                let (bytes, others) = put_at_mark(more, unit)?;
                room = put(&mut text, front, room)?;
                room = put(&mut text, bytes, room)?;
                rest = others;
            }
        }
    }
}
