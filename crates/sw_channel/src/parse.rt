//! From bytes to what the parts of a list mean, each read at the front of a text: numbers, channels and items.

ghost use Rattle.std.specs.Prelude.{◌≡◌, ◌-◌, ◌∷◌, ◌++◌, List, [], ℕ, true, Some, IfSome, IfNone};
ghost use Rattle.sw_base.specs.Text.{is_blank, is_digit, StartsOff};
ghost use Rattle.sw_channel.specs.Grammar.{WrittenChannel, plain, pair, one, range, IsPadded, IsChannel, IsItem};
ghost use Rattle.sw_channel.specs.Meaning.{channel_numbered};
ghost use Rattle.sw_channel.specs.Seen.{ends_number, ends_channel, ends_item, LeadsPart, LeadsNone, LeadsDigits};
ghost use Rattle.sw_channel.specs.Seen.{EndsBy, MeansNumber, MeansChannel, MeansRun};

use crate::run::Run;
use sw_base::{CHANNELS, Chan, SLOTS, blanks, is_digit, strip_prefix};

/// The digits that a number may have.
const MOST_DIGITS: usize = 9;

/// The number of the digits at the front, none of more than nine, and what follows them; or there is no digit.
fn read_digits(text: &[u8]) -> Option<(Option<u32>, &[u8])>
    ensures found { IfSome result (λ x. LeadsDigits text.now x.0 x.1.now) }
    ensures none { IfNone result (StartsOff is_digit text.now) }
{
    let mut n = 0;
    let mut value = 0;
    while n < text.len() && is_digit(text[n]) {
        if n < MOST_DIGITS {
            value = 10 * value + u32::from(text[n] - b'0');
        }
        n += 1;
    }
    let (_, rest) = text.split_at(n);
    if n == 0 {
        None
    } else if n > MOST_DIGITS {
        Some((None, rest))
    } else {
        Some((Some(value), rest))
    }
}

/// The number at the front with the white space round it, none of more than nine digits, and what follows it.
fn read_number(text: &[u8]) -> Option<(Option<u32>, &[u8])>
    ensures found { IfSome result (λ x. LeadsPart IsPadded ends_number MeansNumber text.now x.0 x.1.now) }
    ensures none { IfNone result (LeadsNone IsPadded ends_number text.now) }
{
    let (_, text) = blanks(text);
    let (value, rest) = read_digits(text)?;
    let (_, rest) = blanks(rest);
    Some((value, rest))
}

/// The digit at the front, and what follows it.
#[inline(always)]
fn read_digit(text: &[u8]) -> Option<(u32, &[u8])>
    ensures found { IfSome result (λ x. (d : ℕ) × (text.now ≡ d ∷ x.1.now) × (is_digit d ≡ true) × (x.0 ≡ d - 48)) }
    ensures none { IfNone result (StartsOff is_digit text.now) }
{
    match text {
        [b, rest @ ..] if is_digit(*b) => Some((u32::from(*b - b'0'), rest)),
        _ => None,
    }
}

/// The text, unless it begins with white space.
#[inline(always)]
fn unpadded(text: &[u8]) -> Option<&[u8]>
    ensures { IfSome result (λ x. (x.now ≡ text.now) × StartsOff is_blank text.now) }
{
    match text {
        [b, ..] if *b <= 32 => None,
        _ => Some(text),
    }
}

/// The number at the front and what follows it, where it is one to three digits with no white space round it.
#[inline(always)]
fn short_number(text: &[u8]) -> Option<(u32, &[u8])>
    ensures { IfSome result (λ x. LeadsPart IsPadded ends_number MeansNumber text.now (Some x.0) x.1.now) }
{
    let (one, rest) = read_digit(text)?;
    let Some((second, rest)) = read_digit(rest) else {
        return Some((one, unpadded(rest)?));
    };
    let two = 10 * one + second;
    let Some((third, rest)) = read_digit(rest) else {
        return Some((two, unpadded(rest)?));
    };
    let three = 10 * two + third;
    match read_digit(rest) {
        None => Some((three, unpadded(rest)?)),
        Some(_) => None,
    }
}

/// The channel of these two numbers, where they are in range.
fn channel_at(slot: u32, ch: u32) -> Option<Chan>
    ensures { result ≡ channel_numbered slot ch }
{
    if 1 <= slot && slot <= u32::from(SLOTS) && 1 <= ch && ch <= u32::from(CHANNELS) {
        Some(Chan::new(slot as u8, ch as u8))
    } else {
        None
    }
}

/// The channel of a plain number.
fn plain_channel(number: Option<u32>) -> Option<Chan>
    ensures { (digits : List ℕ) → MeansNumber digits number → MeansChannel (plain digits) result }
{
    let n = number?;
    channel_at(n / 100, n % 100)
}

/// The channel of a slot and a number on its card.
fn paired_channel(slot: Option<u32>, ch: Option<u32>) -> Option<Chan>
    ensures { (s c : List ℕ) → MeansNumber s slot → MeansNumber c ch → MeansChannel (pair s c) result }
{
    channel_at(slot?, ch?)
}

/// What the channel at the front means, and what follows it.
fn any_channel(text: &[u8]) -> Option<(Option<Chan>, &[u8])>
    ensures found { IfSome result (λ x. LeadsPart IsChannel ends_channel MeansChannel text.now x.0 x.1.now) }
    ensures none { IfNone result (LeadsNone IsChannel ends_channel text.now) }
{
    let Some((first, rest)) = read_number(text) else {
        return None;
    };
    let Some(more) = strip_prefix(rest, b'!') else {
        return Some((plain_channel(first), rest));
    };
    let Some((second, others)) = read_number(more) else {
        return None;
    };
    Some((paired_channel(first, second), others))
}

/// What the channel at the front means and what follows it, where its numbers are short.
#[inline(always)]
fn short_channel(text: &[u8]) -> Option<(Option<Chan>, &[u8])>
    ensures { IfSome result (λ x. LeadsPart IsChannel ends_channel MeansChannel text.now x.0 x.1.now) }
{
    let (first, rest) = short_number(text)?;
    let Some(more) = strip_prefix(rest, b'!') else {
        return Some((plain_channel(Some(first)), rest));
    };
    let (second, others) = short_number(more)?;
    Some((paired_channel(Some(first), Some(second)), others))
}

/// What `any_channel` reads, in fewer steps where the numbers are short.
#[inline(never)]
pub fn read_channel(text: &[u8]) -> Option<(Option<Chan>, &[u8])>
    ensures found { IfSome result (λ x. LeadsPart IsChannel ends_channel MeansChannel text.now x.0 x.1.now) }
    ensures none { IfNone result (LeadsNone IsChannel ends_channel text.now) }
{
    match short_channel(text) {
        Some((chan, rest)) => Some((chan, rest)),
        None => any_channel(text),
    }
}

/// The run of one channel.
fn single_run(chan: Option<Chan>) -> Option<Run>
    ensures { (w : WrittenChannel) → MeansChannel w chan → MeansRun (one w) result }
{
    let chan = chan?;
    Some(Run {
        first: chan,
        last: chan,
    })
}

/// The run from a channel to another one of its slot.
pub fn range_run(first: Option<Chan>, last: Option<Chan>) -> Option<Run>
    ensures { (v w : WrittenChannel) → MeansChannel v first → MeansChannel w last → MeansRun (range v w) result }
{
    let first = first?;
    let last = last?;
    if first.slot() == last.slot() {
        Some(Run { first, last })
    } else {
        None
    }
}

/// What the item at the front names, and what follows it.
#[inline(never)]
pub fn read_item(text: &[u8]) -> Option<(Option<Run>, &[u8])>
    ensures found { IfSome result (λ x. LeadsPart IsItem ends_item MeansRun text.now x.0 x.1.now) }
    ensures none { IfNone result (LeadsNone IsItem ends_item text.now) }
{
    let Some((first, rest)) = read_channel(text) else {
        return None;
    };
    let Some(more) = strip_prefix(rest, b':') else {
        return Some((single_run(first), rest));
    };
    let Some((last, others)) = read_channel(more) else {
        return None;
    };
    Some((range_run(first, last), others))
}

/// Whether an item ends before this text: nothing is there, or a comma.
#[inline(always)]
fn is_end(text: &[u8]) -> bool
    ensures { result ≡ true → EndsBy ends_item text.now }
{
    match text {
        [] => true,
        [b, ..] => *b == b',',
    }
}

/// What the channel at the front means and what follows it, where its numbers are short and its item ends behind it.
#[inline(always)]
pub fn short_item(text: &[u8]) -> Option<(Option<Chan>, &[u8])>
    ensures { IfSome result (λ x. LeadsPart IsChannel ends_channel MeansChannel text.now x.0 x.1.now
        × EndsBy ends_item x.1.now) }
{
    match short_channel(text) {
        Some((chan, rest)) if is_end(rest) => Some((chan, rest)),
        _ => None,
    }
}

/// The text between the brackets of a list.
pub fn body_of(text: &[u8]) -> Option<&[u8]>
    ensures found { IfSome result (λ body. text.now ≡ 40 ∷ 64 ∷ (body.now ++ 41 ∷ [])) }
    ensures none { IfNone result ((body : List ℕ) → text.now ≡ 40 ∷ 64 ∷ (body ++ 41 ∷ []) → ⊥) }
{
    match text {
        [b'(', b'@', body @ .., b')'] => Some(body),
        _ => None,
    }
}
