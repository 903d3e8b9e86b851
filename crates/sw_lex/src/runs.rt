//! Runs of bytes that units are made of.

ghost use Rattle.std.specs.Prelude.{◌≡◌, ◌==◌, ◌++◌, ◌∷◌, ◌≤◌, ◌<◌, nat_lt, true, [], ℕ, List, IfOk, IfErr};
ghost use Rattle.std.specs.Prelude.{IfSome, IfNone};
ghost use Rattle.std.specs.Prelude.{length, take, drop};
ghost use Rattle.sw_base.specs.Text.{is_blank, is_letter, is_word, AllPass, StartsOff, Spans};
ghost use Rattle.sw_base.specs.declared.error.ScpiError.TheVariants.{SyntaxError};
ghost use Rattle.sw_lex.specs.Elements.{is_inner};
ghost use Rattle.sw_lex.specs.Headed.{most_words, word_number};
ghost use Rattle.sw_lex.specs.Unit.{is_gap, fault_at, Ends, IsMnemonic, IsName};

use crate::packing::{Words, word_at};
use memchr::memchr2;
use sw_base::{ScpiError, is_blank, is_letter, letters};

/// The white space and the empty units at the front, and what follows them.
pub fn gaps(bytes: &[u8]) -> (&[u8], &[u8])
    ensures { Spans is_gap bytes.now result.0.now result.1.now }
{
    let mut n = 0;
    while n < bytes.len() && (is_blank(bytes[n]) || bytes[n] == b';') {
        n += 1;
    }
    bytes.split_at(n)
}

/// Whether an expression may have the byte between its parentheses.
fn is_inner(b: u8) -> bool
    ensures { result ≡ is_inner b }
{
    b != b')' && b != b'\n' && b < 127
}

/// The bytes at the front that an expression may have, and what follows them.
fn inner_run(bytes: &[u8]) -> (&[u8], &[u8])
    ensures { Spans is_inner bytes.now result.0.now result.1.now }
{
    let mut n = 0;
    while n < bytes.len() && is_inner(bytes[n]) {
        n += 1;
    }
    bytes.split_at(n)
}

/// Whether no byte is above 126.
fn are_low(bytes: &[u8]) -> bool
    ensures { result ≡ true → AllPass (λ b. nat_lt b 127) bytes.now }
{
    let mut greatest = 0;
    for byte in bytes {
        greatest = greatest.max(*byte);
    }
    greatest < 127
}

/// The same, in fewer steps where a parenthesis follows them.
pub fn inners(bytes: &[u8]) -> (&[u8], &[u8])
    ensures { Spans is_inner bytes.now result.0.now result.1.now }
{
    match memchr2(b')', b'\n', bytes) {
        Some(n) if are_low(&bytes[..n]) => bytes.split_at(n),
        _ => inner_run(bytes),
    }
}

/// What follows a unit's end, where the bytes begin with one.
pub fn end(bytes: &[u8]) -> Option<&[u8]>
    ensures found { IfSome result (λ rest. Ends bytes.now rest.now) }
    ensures none { IfNone result ((rest : List ℕ) → Ends bytes.now rest → ⊥) }
{
    match bytes {
        [first, rest @ ..] => { if *first == b';' { Some(rest) } else { None } }
        [] => Some(bytes),
    }
}

/// The error for the bytes at the front.
pub fn fault_at(error: ScpiError, bytes: &[u8]) -> ScpiError
    ensures { result ≡ fault_at error bytes.now }
{
    match bytes {
        [] => error,
        [b, ..] => {
            if *b == b'\n' || *b > 126 {
                ScpiError::InvalidCharacter
            } else {
                error
            }
        }
    }
}

/// How many bytes the mnemonic at the front has, 0 where none is there. Its number is put behind the others, where
/// there is room.
pub fn read_word(text: &[u8], words: &mut Words) -> usize
    ensures fits { result ≤ length text.now }
    ensures some { 0 < result → IsMnemonic (take result text.now) × StartsOff is_word (drop result text.now) }
    ensures number { 0 < result → take words.new.count words.new.kept
        ≡ take most_words (take words.old.count words.old.kept ++ word_number (take result text.now) ∷ []) }
    ensures none { result ≡ 0 → StartsOff is_letter text.now }
{
    match text {
        [first, ..] => {
            if !is_letter(*first) {
                return 0;
            }
            let (number, length) = word_at(text);
            words.push(number);
            length
        }
        [] => 0,
    }
}

/// The name of a common header at the front, and what follows it.
pub fn name(text: &[u8]) -> Result<(&[u8], &[u8]), ScpiError>
    ensures ok { IfOk result (λ x. IsName x.0.now × (text.now ≡ x.0.now ++ x.1.now) × StartsOff is_letter x.1.now) }
    ensures err { IfErr result (λ e. StartsOff is_letter text.now × (e ≡ fault_at SyntaxError text.now)) }
{
    match letters(text) {
        ([], _) => Err(fault_at(ScpiError::SyntaxError, text)),
        (name, rest) => Ok((name, rest)),
    }
}
