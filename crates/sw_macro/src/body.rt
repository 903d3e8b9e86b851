//! Bodies of macros, as they are kept.

ghost use Rattle.std.specs.Prelude.{◌≡◌, true, false, None, List, IfSome};
ghost use Rattle.std.specs.Option.{option_map};
ghost use Rattle.sw_base.specs.Text.{Lacks};
ghost use Rattle.sw_lex.specs.Unit.{unit_of};
ghost use Rattle.sw_macro.specs.Table.{Macro};
ghost use Rattle.sw_macro.specs.Expansion.{called, named, StaysAsItIs};

use crate::label::is_label;
use std::marker::Model;
use sw_base::{Sequence, split_once};
use sw_lex::{Elements, Header, RawUnit, next_unit};

/// The body of a macro, with what holds of it in any table of macros. Contracts see its bytes.
#[derive(Drop)]
pub struct Body {
    text: Sequence<u8>,
    /// Whether no parameter is put into it.
    is_plain: bool,
    /// Whether none of its units calls a macro.
    calls_none: bool,
}

impl Model for Body {
    ghost use Rattle.std.specs.Prelude.{ℕ, List};
    ghost use Rattle.sw_macro.specs.Kept.{text_in, IsKnown};

    ghost Value = { List ℕ };

    ghost view = { text_in };

    ghost invariant = { IsKnown };
}

impl Body {
    /// The body of these bytes.
    pub fn new(text: Vec<u8>) -> Self
        ensures { result ≡ text.items }
    {
        let is_plain = is_plain(text.as_slice());
        let calls_none = is_plain && calls_none(text.as_slice());
        Body {
            text: Sequence::new(text),
            is_plain,
            calls_none,
        }
    }

    /// Its bytes.
    pub fn as_slice(&self) -> &[u8]
        ensures { result.now ≡ self.now }
    {
        self.text.as_slice()
    }

    /// Whether no parameter is put into it.
    pub fn is_plain(&self) -> bool
        ensures { result ≡ true → Lacks 36 self.now }
    {
        self.is_plain
    }

    /// Whether none of its units calls a macro.
    pub fn calls_none(&self) -> bool
        ensures { result ≡ true → StaysAsItIs self.now }
    {
        self.calls_none
    }
}

/// Whether the bytes have no `$`.
fn is_plain(bytes: &[u8]) -> bool
    ensures { result ≡ true → Lacks 36 bytes.now }
{
    match split_once(bytes, b'$') {
        None => true,
        Some(_) => false,
    }
}

/// What would be the label of the macro that a unit calls.
pub fn name_in<'a>(unit: &RawUnit<'a>) -> Option<&'a [u8]>
    ensures { (ms : List Macro) → called ms (unit_of unit.now) ≡ named ms (option_map (λ text. text.now) result) }
{
    if unit.query {
        return None;
    }
    match unit.header {
        Header::Path {
            leading: false,
            nodes,
        } => Some(nodes),
        _ => None,
    }
}

/// Whether a unit may call a macro.
fn may_call(unit: &RawUnit<'_>) -> bool
    ensures { result ≡ false → (ms : List Macro) → called ms (unit_of unit.now) ≡ None }
{
    match name_in(unit) {
        None => false,
        Some(text) => is_label(text),
    }
}

/// Whether no unit of the text may call a macro.
fn calls_none(text: &[u8]) -> bool
    ensures { result ≡ true → StaysAsItIs text.now }
{
    let mut room = Elements::new();
    let mut rest = text;
    'units: loop {
        match next_unit(rest, &mut room) {
            Ok(Some((unit, more))) => {
                if may_call(&unit) {
                    return false;
                }
                rest = more;
            }
            Ok(None) => return true,
            Err(_) => return true,
        }
    }
}
