//! Templates of what a driver sends for a channel.

ghost use Rattle.std.specs.Prelude.{◌≡◌, ◌≤◌, ◌<◌, ◌++◌, IfOk, IfSome, OnOk, is_some, option_map};
ghost use Rattle.sw_base.specs.Limits.{most_channels};
ghost use Rattle.sw_rack.specs.Templates.{decimal, one_digit, rendered, two_digits, word_for};

use arrayvec::ArrayVec;
use std::alloc::{AllocError, Global};

/// The digits that replace a word within braces.
type Digits = ArrayVec<u8, 2>;

/// What a template sends for a channel; none where a word within braces means nothing, or isn't ended.
#[tactic(auto, using(crate::proofs::Rendering::opened, crate::proofs::Rendering::plain, crate::proofs::Rendering::closed, crate::proofs::Rendering::unknown, crate::proofs::Rendering::within, crate::proofs::Rendering::ended, crate::proofs::Rendering::unended,))]
pub fn rendered(alloc: Global, template: &str, channel: u8) -> Result<Option<Vec<u8>>, AllocError>
    requires { channel ≤ most_channels }
    ensures { IfOk result (λ sent. option_map (λ v. v.items) sent ≡ rendered channel template.now) }
{
    let mut sent = Vec::new(alloc);
    let mut word = Vec::new(alloc);
    let mut is_within = false;
    for byte in template.as_bytes() {
        if !is_within {
            if *byte == b'{' {
                is_within = true;
                word.clear();
            } else {
                sent.push(*byte)?;
            }
        } else if *byte == b'}' {
            is_within = false;
            let Some(digits) = word_for(word.as_slice(), channel) else {
                return Ok(None);
            };
            sent.extend_from_slice(digits.as_slice())?;
        } else {
            word.push(*byte)?;
        }
    }
    if is_within {
        return Ok(None);
    }
    Ok(Some(sent))
}

/// The digits that replace a word within braces.
fn word_for(word: &[u8], channel: u8) -> Option<Digits>
    requires { channel ≤ most_channels }
    ensures { option_map (λ d. d.items) result ≡ word_for channel word.now }
{
    if word == b"ch".as_slice() {
        Some(decimal(channel))
    } else if word == b"ch0".as_slice() {
        Some(decimal(channel.saturating_sub(1)))
    } else if word == b"ch:02".as_slice() {
        Some(two_digits(channel))
    } else if word == b"ch0:02".as_slice() {
        Some(two_digits(channel.saturating_sub(1)))
    } else if word == b"ch:X".as_slice() {
        one_digit(channel)
    } else if word == b"ch0:X".as_slice() {
        one_digit(channel.saturating_sub(1))
    } else {
        None
    }
}

fn decimal(number: u8) -> Digits
    requires { number ≤ 99 }
    ensures { result.items ≡ decimal number }
{
    if number < 10 {
        let mut digits = Digits::new();
        digits.push(b'0' + number);
        return digits;
    }
    two_digits(number)
}

fn two_digits(number: u8) -> Digits
    requires { number ≤ 99 }
    ensures { result.items ≡ two_digits number }
{
    let mut digits = Digits::new();
    digits.push(b'0' + number / 10);
    digits.push(b'0' + number % 10);
    digits
}

/// One digit of base 36.
fn one_digit(number: u8) -> Option<Digits>
    ensures { option_map (λ d. d.items) result ≡ one_digit number }
{
    let digit = if number < 10 {
        b'0' + number
    } else if number < 36 {
        b'A' + (number - 10)
    } else {
        return None;
    };
    let mut digits = Digits::new();
    digits.push(digit);
    Some(digits)
}
