//! The expansion of a unit.

ghost use Rattle.std.specs.Prelude.{◌≡◌, ◌<◌, ◌⊎◌, ◌++◌, ◌∷◌, ℕ, true, false, None, Some, List, [], length};
ghost use Rattle.std.specs.Prelude.{Result, Ok, Err, IfOk, IfErr, OnOk};
ghost use Rattle.std.specs.Option.{option_map};
ghost use Rattle.sw_base.specs.Limits.{most_levels};
ghost use Rattle.sw_base.specs.declared.error.ScpiError.{ScpiError as Error};
ghost use Rattle.sw_base.specs.declared.error.ScpiError.TheVariants.{OutOfMemory};
ghost use Rattle.sw_lex.specs.Unit.{UnitSeen, IsWritten, unit_of, written_of};
ghost use Rattle.sw_macro.specs.Table.{Table};
ghost use Rattle.sw_macro.specs.Expansion.{called, calls, opened_in, is_one_of, opened_macro, Becomes, UnitBecomes};
ghost use Rattle.sw_macro.specs.Expansion.{Replaces, Expands};
ghost use Rattle.sw_macro.specs.Placed.{names_of};

use crate::body::{Body, name_in};
use crate::filling::{fill, is_too_long};
use crate::label::Label;
use crate::table::Macros;
use arrayvec::ArrayVec;
use std::alloc::Global;
use sw_base::{MACRO_LEVELS, MESSAGE_BYTES, ScpiError};
use sw_lex::{Elements, RawUnit, gaps, next_unit};

/// The labels of the bodies that a unit is in, the outermost first.
type Names = ArrayVec<Label, MACRO_LEVELS>;

/// The macro that a unit calls: its label, and its body.
fn called<'a>(macros: &'a Macros, unit: &RawUnit<'_>) -> Option<(Label, &'a Body)>
    ensures { option_map (λ m. (m.0.items, m.1.now)) result ≡ called macros.now.macros (unit_of unit.now) }
{
    match name_in(unit) {
        None => None,
        Some(text) => macros.macro_at(text),
    }
}

/// Whether the label is one of these.
fn is_one_of(label: &Label, names: &[Label]) -> bool
    ensures { result ≡ is_one_of label.now.items (names_of names.now) }
{
    for name in names {
        if label == name {
            return true;
        }
    }
    false
}

/// A text cut round the first unit of its rest: the part before the unit, and the part after it.
fn cut<'a>(text: &'a [u8], rest: &[u8], unit: &RawUnit<'_>) -> (&'a [u8], &'a [u8])
    requires ends { (front : List ℕ) × (text.now ≡ front ++ rest.now) }
    requires stands { (before left : List ℕ) × IsWritten rest.now before (unit_of unit.now) (written_of unit.now) left }
    ensures { (front before left : List ℕ) → text.now ≡ front ++ rest.now
        → IsWritten rest.now before (unit_of unit.now) (written_of unit.now) left
        → (result.0.now ≡ front ++ before) × (result.1.now ≡ left) }
{
    let (_, start) = gaps(rest);
    let (front, here) = text.split_at(text.len() - start.len());
    let (_, after) = here.split_at(unit.text().len());
    (front, after)
}

/// Writes a text unchanged.
fn write_text(text: &[u8], out: &mut Vec<u8>) -> Result<(), ScpiError>
    ensures ok { OnOk result (out.new.items ≡ out.old.items ++ text.now) }
    ensures err { IfErr result (λ e. e ≡ OutOfMemory) }
{
    out.extend_from_slice(text)?;
    Ok(())
}

/// Writes a body below these names, each of its units replaced by its expansion.
#[cycle(expansion)]
fn write_body(
    macros: &Macros,
    alloc: Global,
    body: &[u8],
    names: &mut Names,
    out: &mut Vec<u8>,
) -> Result<(), ScpiError>
    ensures ok { OnOk result
        (Becomes macros.now.macros (names_of names.old.items) body.now out.old.items (Ok out.new.items)) }
    ensures names { OnOk result (names.new ≡ names.old) }
    ensures err { IfErr result (λ e. (e ≡ OutOfMemory)
        ⊎ Becomes macros.now.macros (names_of names.old.items) body.now out.old.items (Err e)) }
{
    let mut room = Elements::new();
    let mut unwritten = body;
    let mut rest = body;
    'units: loop {
        match next_unit(rest, &mut room) {
            Ok(Some((unit, more))) => {
                if let Some((label, body)) = called(macros, &unit) {
                    let (front, after) = cut(unwritten, rest, &unit);
                    out.extend_from_slice(front)?;
                    write_unit(macros, alloc, &unit, label, body, names, out)?;
                    unwritten = after;
                }
                rest = more;
            }
            Ok(None) => return write_text(unwritten, out),
            Err(_) => return write_text(unwritten, out),
        }
    }
}

/// Writes the expansion of a unit below these names that calls this macro.
///
/// -276 for a label inside its own body, and for a ninth level; else what `fill` refuses.
#[cycle(expansion)]
fn write_unit(
    macros: &Macros,
    alloc: Global,
    unit: &RawUnit<'_>,
    label: Label,
    body: &Body,
    names: &mut Names,
    out: &mut Vec<u8>,
) -> Result<(), ScpiError>
    requires { called macros.now.macros (unit_of unit.now) ≡ Some (label.items, body.now) }
    ensures ok { OnOk result (UnitBecomes macros.now.macros (names_of names.old.items) (unit_of unit.now) out.old.items
        (Ok out.new.items)) }
    ensures names { OnOk result (names.new ≡ names.old) }
    ensures err { IfErr result (λ e. (e ≡ OutOfMemory)
        ⊎ UnitBecomes macros.now.macros (names_of names.old.items) (unit_of unit.now) out.old.items (Err e)) }
{
    if is_one_of(&label, names.as_slice()) || names.len() >= MACRO_LEVELS {
        return Err(ScpiError::MacroRecursionError);
    }
    if !body.is_plain() {
        let text = fill(alloc, body.as_slice(), unit, out.len())?;
        return write_within(macros, alloc, label, text.as_slice(), names, out);
    }
    if is_too_long(out.len(), body.as_slice()) {
        return Err(ScpiError::MacroRecursionError);
    }
    if !body.calls_none() {
        return write_within(macros, alloc, label, body.as_slice(), names, out);
    }
    write_text(body.as_slice(), out)
}

/// Writes the body of the macro with this label, below these names.
#[cycle(expansion)]
fn write_within(
    macros: &Macros,
    alloc: Global,
    label: Label,
    body: &[u8],
    names: &mut Names,
    out: &mut Vec<u8>,
) -> Result<(), ScpiError>
    requires { length names.old.items < most_levels }
    ensures ok { OnOk result (Becomes macros.now.macros (names_of names.old.items ++ label.items ∷ []) body.now
        out.old.items (Ok out.new.items)) }
    ensures names { OnOk result (names.new ≡ names.old) }
    ensures err { IfErr result (λ e. (e ≡ OutOfMemory)
        ⊎ Becomes macros.now.macros (names_of names.old.items ++ label.items ∷ []) body.now out.old.items (Err e)) }
{
    names.push(label);
    write_body(macros, alloc, body, names, out)?;
    names.pop();
    Ok(())
}

impl Macros {
    /// Whether an expansion replaces the unit: then the text is its expansion. While macros are on, the label's body
    /// replaces a unit with exactly a label as its header, without a colon and a question mark. In the body that data
    /// element, as it is written, replaces each `$1` to `$9`, and each unit of the body is replaced in the same way.
    /// Any other unit is itself.
    ///
    /// At each label, the outer first and from left to right: -276 for a label inside its own body and for a ninth
    /// level, -274 for a missing element, -276 where the text so far and the body are together more than 65,536 bytes.
    /// The same limit applies to the finished text once more. -225 where the allocator refuses memory.
    pub fn expand(
        &self,
        alloc: Global,
        unit: &RawUnit<'_>,
        text: &mut Vec<u8>,
    ) -> Result<bool, ScpiError>
        ensures calls { IfOk result (λ is_replaced. is_replaced ≡ calls self.now (unit_of unit.now)) }
        ensures itself { IfOk result (λ is_replaced. is_replaced ≡ false
            → opened_in self.now (unit_of unit.now) ≡ Ok None) }
        ensures ok { IfOk result (λ is_replaced. is_replaced ≡ true
            → Expands self.now (unit_of unit.now) (written_of unit.now) (Ok text.new.items)) }
        ensures fault { IfErr result (λ _. calls self.now (unit_of unit.now) ≡ true) }
        ensures err { IfErr result (λ e. (e ≡ OutOfMemory)
            ⊎ Expands self.now (unit_of unit.now) (written_of unit.now) (Err e)) }
    {
        if !self.enabled() {
            return Ok(false);
        }
        match called(self, unit) {
            None => Ok(false),
            Some((label, body)) => {
                self.replace(alloc, unit, label, body, text)?;
                Ok(true)
            }
        }
    }

    /// Makes a text the expansion of a unit that calls this macro.
    fn replace(
        &self,
        alloc: Global,
        unit: &RawUnit<'_>,
        label: Label,
        body: &Body,
        text: &mut Vec<u8>,
    ) -> Result<(), ScpiError>
        requires { called self.now.macros (unit_of unit.now) ≡ Some (label.items, body.now) }
        ensures ok { OnOk result (Replaces self.now.macros
            (opened_macro self.now.macros [] (unit_of unit.now) 0) (written_of unit.now) (Ok text.new.items)) }
        ensures err { IfErr result (λ e. (e ≡ OutOfMemory) ⊎ Replaces self.now.macros
            (opened_macro self.now.macros [] (unit_of unit.now) 0) (written_of unit.now) (Err e)) }
    {
        text.clear();
        let mut names = Names::new();
        write_unit(self, alloc, unit, label, body, &mut names, text)?;
        if text.len() > MESSAGE_BYTES {
            return Err(ScpiError::MacroRecursionError);
        }
        Ok(())
    }
}

/// A law: no unit has two expansions, nor two first faults, nor an expansion and a fault.
pub fn one_expansion()
    ensures { (t : Table) (unit : UnitSeen) (written : List ℕ) (r s : Result (List ℕ) Error)
        → Expands t unit written r → Expands t unit written s → r ≡ s }
{}
