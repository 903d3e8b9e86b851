//! The texts of answers.

ghost use Rattle.std.specs.Prelude.{◌≡◌, ◌<◌, ◌∷◌, [], ◌++◌, List, ℕ, length, IfOk, OnOk, Some, map};
ghost use Rattle.std.specs.List.{join_with_byte};
ghost use Rattle.sw_cage.specs.Accounts.{is_closed};
ghost use Rattle.sw_core.specs.Answers.{identity_text, version, yes_or_no, as_asked, entry, error_entry, no_error};
ghost use Rattle.sw_core.specs.Answers.{all_entries, source_word, IsRow, IsOpenEnded};
ghost use Rattle.sw_core.specs.declared.ask.SessionAnswer.TheVariants.{Done};

use crate::answer_text::AnswerText;
use crate::ask::SessionAnswer;
use std::alloc::{AllocError, Global};
use sw_base::{Chan, NO_ERROR, ScpiError, Sequence, Source, print_signed};
use sw_cage::Cage;
use sw_card::{Meter, Relay};

/// The bytes that a growing text has room for at first.
pub const ROOM: usize = 64;

/// The maker, the model, the serial number and the version (IEEE 488.2, 10.14).
pub fn identity() -> AnswerText
    ensures { result ≡ identity_text }
{
    AnswerText::fixed(b"OPENBENCH,SWM8,0,1.0")
}

/// The version of SCPI (SCPI-1999, 21.21).
pub fn version() -> AnswerText
    ensures { result ≡ version }
{
    AnswerText::fixed(b"1999.0")
}

/// The short form of a source.
pub fn source_word(source: Source) -> AnswerText
    ensures { result ≡ source_word source }
{
    let word: &'static [u8] = match source {
        Source::Immediate => b"IMM",
        Source::Bus => b"BUS",
        Source::External => b"EXT",
        Source::Timer => b"TIM",
        Source::Hold => b"HOLD",
    };
    AnswerText::fixed(word)
}

/// The flag of one channel, as `flags` has it for each.
pub fn flag<R: Relay, M: Meter>(cage: &Cage<R, M>, closed: bool, chan: Chan) -> AnswerText
    ensures { result ≡ yes_or_no (as_asked closed (is_closed cage.now.seen.cards chan)) }
{
    AnswerText::flag(as_asked(closed, cage.is_closed(chan)))
}

/// For each channel `1` or `0`, joined by commas: whether it is closed, or, where `closed` is false, whether it is
/// open.
pub fn flags<R: Relay, M: Meter>(
    alloc: Global,
    cage: &Cage<R, M>,
    closed: bool,
    chans: &[Chan],
) -> Result<Sequence<u8>, AllocError>
    ensures { IfOk result (λ text. text
        ≡ join_with_byte 44 (map (λ c. yes_or_no (as_asked closed (is_closed cage.now.seen.cards c))) chans.now)) }
{
    let mut text = Vec::with_capacity(alloc, chans.len())?;
    for chan in chans {
        separate(&mut text)?;
        text.push(sign(as_asked(closed, cage.is_closed(*chan))))?;
    }
    Ok(Sequence::new(text))
}

/// The flag of a channel, by whether the query asks for the closed ones or the open ones.
fn as_asked(asked: bool, closed: bool) -> bool
    ensures { result ≡ as_asked asked closed }
{
    if asked { closed } else { !closed }
}

/// `1` for yes, `0` for no.
fn sign(yes: bool) -> u8
    ensures { result ∷ [] ≡ yes_or_no yes }
{
    if yes { b'1' } else { b'0' }
}

/// All entries of the error queue.
pub fn all_entries(alloc: Global, errors: &[ScpiError]) -> Result<Sequence<u8>, AllocError>
    ensures { IfOk result (λ text. text ≡ all_entries errors.now) }
{
    if errors.is_empty() {
        return nothing(alloc);
    }
    let mut text = Vec::with_capacity(alloc, ROOM)?;
    for error in errors {
        separate(&mut text)?;
        add_entry(&mut text, *error)?;
    }
    Ok(Sequence::new(text))
}

/// What an empty error queue answers.
fn nothing(alloc: Global) -> Result<Sequence<u8>, AllocError>
    ensures { IfOk result (λ text. text ≡ no_error) }
{
    let mut text = Vec::with_capacity(alloc, ROOM)?;
    add_numbered(&mut text, 0, NO_ERROR)?;
    Ok(Sequence::new(text))
}

/// Adds an entry of the error queue.
fn add_entry(text: &mut Vec<u8>, error: ScpiError) -> Result<(), AllocError>
    ensures { OnOk result (text.new.items ≡ text.old.items ++ error_entry error) }
{
    add_numbered(text, i64::from(error.code()), error.text())
}

/// Adds a number, a comma, and a text in quotes.
fn add_numbered(text: &mut Vec<u8>, number: i64, words: &str) -> Result<(), AllocError>
    ensures { OnOk result (text.new.items ≡ text.old.items ++ entry number words.now) }
{
    let mut buffer = [0; 32];
    let end = print_signed(number, &mut buffer);
    text.extend_from_slice(&buffer[..end])?;
    text.extend_from_slice(b",\"")?;
    text.extend_from_slice(words.as_bytes())?;
    text.push(b'"')?;
    Ok(())
}

/// Adds a comma behind the pieces that the text has, where there are any.
pub fn separate(text: &mut Vec<u8>) -> Result<(), AllocError>
    ensures { OnOk result ((pieces : List (List ℕ)) → IsRow text.old.items pieces → IsOpenEnded text.new.items pieces) }
{
    if text.is_empty() {
        return Ok(());
    }
    text.push(b',')?;
    Ok(())
}

/// A query's answer.
#[inline(always)]
pub fn answered(text: AnswerText) -> SessionAnswer
    ensures { result ≡ Done (Some text) }
{
    SessionAnswer::Done(Some(text))
}
