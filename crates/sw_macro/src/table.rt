//! The macros that a session has defined.

ghost use Rattle.std.specs.Prelude.{◌≡◌, ◌≤◌, ◌<◌, ◌++◌, ◌∷◌, [], false, None, Some, is_some, length, slice_get};
ghost use Rattle.std.specs.Prelude.{IfOk, IfErr, OnOk, OnErr, IfSome};
ghost use Rattle.sw_base.specs.declared.error.ScpiError.TheVariants.{MacroHeaderNotFound, OutOfMemory};
ghost use Rattle.std.specs.Option.{option_map};
ghost use Rattle.sw_macro.specs.Label.{in_capitals};
ghost use Rattle.sw_macro.specs.Expansion.{macro_at};
ghost use Rattle.sw_base.specs.Limits.{most_macros, longest_body};
ghost use Rattle.sw_macro.specs.Table.{no_macros, body_of, without_label, labels, with_macro, without_macro};
ghost use Rattle.sw_macro.specs.Table.{IsMacro, IsTable};
ghost use Rattle.sw_macro.specs.Table.{refusal_to_define, refusal_to_find, RefusedBy};

use crate::body::Body;
use crate::label::{Label, read_label};
use indexmap::IndexMap;
use std::alloc::Global;
use std::marker::Model;
use sw_base::{BODY_BYTES, MACROS, ScpiError};

/// The macros of a session.
///
/// Contracts see the definitions that were taken and not removed or purged since, in order, each a label in capitals
/// and a body, and whether macros are on. No label is there twice, there are at most 64 macros, and no body has more
/// than 4,096 bytes.
#[derive(Drop)]
pub struct Macros {
    macros: IndexMap<Label, Body>,
    on: bool,
}

impl Model for Macros {
    ghost use Rattle.sw_macro.specs.Table.{Table, IsTable};

    ghost Value = { Table };

    ghost use Rattle.sw_macro.specs.Seen.{table_of, macros_in};

    ghost view = { table_of };

    ghost invariant = { λ m. IsTable (macros_in m.macros.entries) };
}

impl Macros {
    /// No macro, and macros off.
    pub fn new(alloc: Global) -> Macros
        ensures { result ≡ no_macros }
    {
        Macros {
            macros: IndexMap::new(alloc),
            on: false,
        }
    }

    /// Defines a macro (`*DMC`). In this order: -273 for what is no label, -275 for a body of more than 4,096 bytes,
    /// -277 for a label that is defined, -223 for a 65th macro, -225 for lack of memory.
    pub fn define(&mut self, alloc: Global, label: &[u8], body: &[u8]) -> Result<(), ScpiError>
        ensures taken { OnOk result (refusal_to_define self.old label.now body.now ≡ None) }
        ensures defined { OnOk result (self.new ≡ with_macro self.old label.now body.now) }
        ensures refused { IfErr result (λ e. RefusedBy (refusal_to_define self.old label.now body.now) e) }
        ensures kept { OnErr result (self.new ≡ self.old) }
    {
        let key = match read_label(label) {
            Some(key) => key,
            None => return Err(ScpiError::IllegalMacroLabel),
        };
        if body.len() > BODY_BYTES {
            return Err(ScpiError::MacroDefinitionTooLong);
        }
        if self.found(&key).is_some() {
            return Err(ScpiError::MacroRedefinitionNotAllowed);
        }
        if self.len() >= MACROS {
            return Err(ScpiError::TooMuchData);
        }
        self.append(alloc, key, body)
    }

    /// Removes a macro (`*RMC`), so that its label is not defined any more. In this order: -273 for what is no label,
    /// -278 for one that isn't defined.
    pub fn remove(&mut self, label: &[u8]) -> Result<(), ScpiError>
        ensures taken { OnOk result (refusal_to_find self.old label.now ≡ None) }
        ensures removed { OnOk result (self.new ≡ without_macro self.old label.now) }
        ensures gone { OnOk result (refusal_to_find self.new label.now ≡ Some MacroHeaderNotFound) }
        ensures refused { IfErr result (λ e. refusal_to_find self.old label.now ≡ Some e) }
        ensures kept { OnErr result (self.new ≡ self.old) }
    {
        match read_label(label) {
            None => Err(ScpiError::IllegalMacroLabel),
            Some(key) => {
                if self.take_out(&key) {
                    Ok(())
                } else {
                    Err(ScpiError::MacroHeaderNotFound)
                }
            }
        }
    }

    /// Removes every macro (`*PMC`).
    pub fn purge(&mut self)
        ensures { self.new ≡ record self.old { macros = [] } }
    {
        self.macros.clear();
    }

    /// The body of a macro (`*GMC?`). In this order: -273 for what is no label, -278 for one that isn't defined.
    pub fn body(&self, label: &[u8]) -> Result<&[u8], ScpiError>
        ensures found { IfOk result (λ body. body_of (in_capitals label.now) self.now.macros ≡ Some body.now) }
        ensures short { IfOk result (λ body. length body.now ≤ longest_body) }
        ensures taken { OnOk result (refusal_to_find self.now label.now ≡ None) }
        ensures refused { IfErr result (λ e. refusal_to_find self.now label.now ≡ Some e) }
    {
        match read_label(label) {
            None => Err(ScpiError::IllegalMacroLabel),
            Some(key) => match self.found(&key) {
                None => Err(ScpiError::MacroHeaderNotFound),
                Some(body) => Ok(body.as_slice()),
            },
        }
    }

    /// How many macros are defined. Of every session's macros no two have one label, and none is beyond the limits.
    pub fn len(&self) -> usize
        ensures count { result ≡ length self.now.macros }
        ensures limits { IsTable self.now.macros }
    {
        self.macros.len()
    }

    /// The label of the macro number `i` from 0 in order of definition, in capitals (`*LMC?`).
    pub fn label(&self, i: usize) -> Option<&[u8]>
        ensures { option_map (λ label. label.now) result ≡ slice_get (labels self.now.macros) i }
    {
        match self.macros.get_index(i) {
            None => None,
            Some((label, _)) => Some(label.as_slice()),
        }
    }

    /// Switches macros on or off (`*EMC`).
    pub fn enable(&mut self, on: bool)
        ensures { self.new ≡ record self.old { on = on } }
    {
        self.on = on;
    }

    /// Whether macros are on (`*EMC?`).
    pub fn enabled(&self) -> bool
        ensures { result ≡ self.now.on }
    {
        self.on
    }

    /// The label and the body of the macro that a text names, where the text is a label.
    pub(crate) fn macro_at(&self, text: &[u8]) -> Option<(Label, &Body)>
        ensures { option_map (λ m. (m.0.items, m.1.now)) result ≡ macro_at self.now.macros text.now }
    {
        match read_label(text) {
            None => None,
            Some(key) => match self.found(&key) {
                None => None,
                Some(body) => Some((key, body)),
            },
        }
    }

    /// The body of the macro with this label.
    fn found(&self, key: &Label) -> Option<&Body>
        ensures value { option_map (λ body. body.now) result ≡ body_of key.now.items self.now.macros }
        ensures short { IfSome result (λ body. length body.now ≤ longest_body) }
    {
        self.macros.get(key)
    }

    /// Adds a macro with a label that isn't defined, as the last.
    fn append(&mut self, alloc: Global, key: Label, body: &[u8]) -> Result<(), ScpiError>
        requires absent { body_of key.items self.old.macros ≡ None }
        requires room { length self.old.macros < most_macros }
        requires good { IsMacro (key.items, body.now) }
        ensures added { OnOk result
            (self.new ≡ record self.old { macros = self.old.macros ++ (key.items, body.now) ∷ [] }) }
        ensures kept { OnErr result (self.new ≡ self.old) }
        ensures error { IfErr result (λ e. e ≡ OutOfMemory) }
    {
        let body = body.to_vec(alloc)?;
        self.macros.insert(key, Body::new(body))?;
        Ok(())
    }

    /// Removes the macro with this label, and answers whether there was one.
    fn take_out(&mut self, key: &Label) -> bool
        ensures found { result ≡ is_some (body_of key.now.items self.old.macros) }
        ensures removed { self.new ≡ record self.old { macros = without_label key.now.items self.old.macros } }
        ensures gone { body_of key.now.items self.new.macros ≡ None }
        ensures kept { result ≡ false → self.new ≡ self.old }
    {
        self.macros.shift_remove(key).is_some()
    }
}
