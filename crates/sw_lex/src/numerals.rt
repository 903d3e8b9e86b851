//! Where a number at the front of a text ends.

ghost use Rattle.std.specs.Prelude.{◌≡◌, ◌==◌, ◌&&◌, not, true, ℕ, List, IfSome, IfNone};
ghost use Rattle.sw_base.specs.Text.{Spans, StartsOff};
ghost use Rattle.sw_lex.specs.Elements.{is_run, IsApart, IsBody, IsSuffixed, IsNumeral};

use sw_base::{Exponent, blanks, digits, letters, read_exponent, read_mantissa};

/// Whether a number that has begun runs over the byte.
fn is_run(b: u8) -> bool
    ensures { result ≡ is_run b }
{
    b > 32 && b < 127 && b != b',' && b != b';'
}

/// What follows the bytes at the front that a number runs over.
fn run_end(bytes: &[u8]) -> &[u8]
    ensures { (run : List ℕ) × Spans is_run bytes.now run result.now }
{
    let mut n = 0;
    while n < bytes.len() && is_run(bytes[n]) {
        n += 1;
    }
    let (_, rest) = bytes.split_at(n);
    rest
}

/// What follows the number at the front that has white space round its `E`.
fn apart_end(text: &[u8]) -> Option<&[u8]>
    ensures some { IfSome result (λ rest. IsApart text.now rest.now) }
    ensures none { IfNone result ((other : List ℕ) → IsApart text.now other → ⊥) }
{
    match read_mantissa(text) {
        None => None,
        Some((_, after)) => match read_exponent(after) {
            None => None,
            Some((Exponent { apart, .. }, rest)) => { if apart { Some(rest) } else { None } }
        },
    }
}

/// What follows the number at the front without its suffix.
fn body_end(text: &[u8]) -> &[u8]
    ensures { IsBody text.now result.now }
{
    match apart_end(text) {
        Some(rest) => rest,
        None => run_end(text),
    }
}

/// What follows the letters at the front and the white space before them; all where there are no letters.
fn suffix_end(text: &[u8]) -> &[u8]
    ensures { IsSuffixed text.now result.now }
{
    let (_, more) = blanks(text);
    let (letters, rest) = letters(more);
    if letters.is_empty() { text } else { rest }
}

/// Whether an element ends before this text: nothing is there, or a comma, or a semicolon.
fn is_over(text: &[u8]) -> bool
    ensures { result ≡ true → StartsOff (λ b. not (b == 44) && not (b == 59)) text.now }
{
    match text {
        [] => true,
        [b, ..] => *b == b',' || *b == b';',
    }
}

/// What follows the number at the front, where it is digits alone and its element ends behind them.
fn plain_end(text: &[u8]) -> Option<&[u8]>
    ensures { IfSome result (λ rest. IsNumeral text.now rest.now) }
{
    let (front, rest) = digits(text);
    if !front.is_empty() && is_over(rest) {
        Some(rest)
    } else {
        None
    }
}

/// What follows the number at the front.
pub fn numeral_end(text: &[u8]) -> &[u8]
    ensures { IsNumeral text.now result.now }
{
    match plain_end(text) {
        Some(rest) => rest,
        None => suffix_end(body_end(text)),
    }
}
