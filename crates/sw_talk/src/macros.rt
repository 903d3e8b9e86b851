//! The macro commands.

ghost use Rattle.std.specs.Prelude.{◌≡◌, ◌++◌, ◌∷◌, [], List, ℕ, true, false, IfOk, IfSome, IfNone, OnOk};
ghost use Rattle.sw_lex.specs.declared.command.Command.{Command};
ghost use Rattle.sw_macro.specs.Table.{labels};
ghost use Rattle.sw_core.specs.Answers.{yes_or_no};
ghost use Rattle.sw_talk.specs.Macros.{labels_text, row_of, TellsMacroText, TellsBody, DefinesMacro};
ghost use Rattle.sw_talk.specs.Macros.{Removes, ActsOnMacros};

use std::alloc::{AllocError, Global};
use sw_base::{ScpiError, Sequence};
use sw_core::AnswerText;
use sw_lex::{AllMacros, Definition, MacroCommand, block_of};
use sw_macro::Macros;

/// The outcome of a command: its answer, if it has one, or its refusal.
pub type Outcome = Result<Option<AnswerText>, ScpiError>;

/// What a command of all macros does.
pub fn act_on_all(alloc: Global, macros: &mut Macros, ask: AllMacros) -> Outcome
    ensures { ActsOnMacros (Command.Macros ask) macros.old result macros.new }
{
    match ask {
        AllMacros::LabelsQuery => tell_labels(alloc, macros),
        AllMacros::EnableQuery => tell_enabled(alloc, macros),
        AllMacros::Purge => {
            macros.purge();
            Ok(None)
        }
    }
}

/// What a macro command with data does.
pub fn act_on_one(alloc: Global, macros: &mut Macros, ask: &MacroCommand) -> Outcome
    ensures { ActsOnMacros (Command.Macro ask.now) macros.old result macros.new }
{
    match ask {
        MacroCommand::Define(definition) => define(alloc, macros, definition.get()),
        MacroCommand::BodyQuery(label) => tell_body(alloc, macros, label.as_slice()),
        MacroCommand::Remove(label) => remove(macros, label.as_slice()),
        MacroCommand::Enable(on) => {
            macros.enable(*on);
            Ok(None)
        }
    }
}

/// `*DMC`
fn define(alloc: Global, macros: &mut Macros, definition: &Definition) -> Outcome
    ensures { DefinesMacro definition.now.label definition.now.body macros.old result macros.new }
{
    macros.define(
        alloc,
        definition.label.as_slice(),
        definition.body.as_slice(),
    )?;
    Ok(None)
}

/// `*RMC`
fn remove(macros: &mut Macros, label: &[u8]) -> Outcome
    ensures { Removes label.now macros.old result macros.new }
{
    macros.remove(label)?;
    Ok(None)
}

/// `*GMC?`
fn tell_body(alloc: Global, macros: &Macros, label: &[u8]) -> Outcome
    ensures { TellsBody label.now macros.now result }
{
    let body = macros.body(label)?;
    Ok(Some(AnswerText::bytes(block_of(alloc, body)?)))
}

/// `*LMC?`
fn tell_labels(alloc: Global, macros: &Macros) -> Outcome
    ensures { TellsMacroText (labels_text (labels macros.now.macros)) result }
{
    Ok(Some(AnswerText::bytes(labels_text(alloc, macros)?)))
}

/// `*EMC?`
fn tell_enabled(alloc: Global, macros: &Macros) -> Outcome
    ensures { TellsMacroText (yes_or_no macros.now.on) result }
{
    let flag = if macros.enabled() { b'1' } else { b'0' };
    let text = Vec::from_slice(alloc, &[flag])?;
    Ok(Some(AnswerText::bytes(Sequence::new(text))))
}

/// The labels in order of definition, each in double quotes, joined by commas; `""` for none.
fn labels_text(alloc: Global, macros: &Macros) -> Result<Sequence<u8>, AllocError>
    ensures { IfOk result (λ text. text ≡ labels_text (labels macros.now.macros)) }
{
    let mut text = Vec::new(alloc);
    for i in 0..macros.len() {
        if let Some(label) = macros.label(i) {
            add_label(&mut text, label)?;
        }
    }
    if text.is_empty() {
        text.extend_from_slice(b"\"\"")?;
    }
    Ok(Sequence::new(text))
}

/// Adds a label in double quotes, behind a comma where there are labels before it.
fn add_label(text: &mut Vec<u8>, label: &[u8]) -> Result<(), AllocError>
    ensures { OnOk result ((before : List (List ℕ)) → text.old.items ≡ row_of before
        → text.new.items ≡ row_of (before ++ label.now ∷ [])) }
{
    if !text.is_empty() {
        text.push(b',')?;
    }
    text.push(b'"')?;
    text.extend_from_slice(label)?;
    text.push(b'"')?;
    Ok(())
}
