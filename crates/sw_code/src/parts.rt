//! Parts of a text, and the numbers, channels and layers among them.

ghost use Rattle.std.specs.Prelude.{◌≡◌, ◌<◌, ◌≤◌, ◌∷◌, [], length, IfSome, IfNone, IfOk};
ghost use Rattle.std.specs.List.{list_all};
ghost use Rattle.std.specs.Str.{bytes_eq};
ghost use Rattle.sw_base.specs.Text.{AllPass, is_digit};
ghost use Rattle.sw_base.specs.Number.{value_of};
ghost use Rattle.sw_code.specs.Listing.{layer_word};
ghost use Rattle.sw_code.specs.Reading.{parts_at, is_numeral, number_in, channel_in, joined_with, joined_in};
ghost use Rattle.sw_code.specs.Reading.{position_in, layer_among, layer_in};
ghost use Rattle.sw_code.specs.Versions.{IsVersion};

use crate::fault::ListFault;
use crate::version::Version;
use sw_base::{ARMS, ArmLayer, CHANNELS, Chan, LayerName, is_digit, split_once};
use sw_channel::Position;

/// The bytes before the first mark, and those after it; none where there is no mark.
pub fn first_part(bytes: &[u8], mark: u8) -> Option<(&[u8], &[u8])>
    ensures found { IfSome result (λ x. parts_at mark bytes.now ≡ x.0.now ∷ parts_at mark x.1.now) }
    ensures shorter { IfSome result (λ x. length x.1.now < length bytes.now) }
    ensures more { IfSome result (λ x. 0 < length (parts_at mark x.1.now)) }
    ensures none { IfNone result (parts_at mark bytes.now ≡ bytes.now ∷ []) }
{
    split_once(bytes, mark)
}

pub fn is_word(part: &[u8], word: &[u8]) -> bool
    ensures { result ≡ bytes_eq part.now word.now }
{
    part == word
}

/// The number that the part writes by at most 20 digits, where it is from `low` to `high`.
#[tactic(auto, using(crate::proofs::Reread::numeral_digits))]
pub fn number(part: &[u8], low: u64, high: u64) -> Result<u64, ListFault>
    ensures number { result ≡ number_in low high part.now }
    ensures range { IfOk result (λ n. (low ≤ n) × (n ≤ high)) }
{
    if !is_numeral(part) {
        return Err(ListFault::BadNumber);
    }
    let n = value(part);
    if n < u128::from(low) || n > u128::from(high) {
        return Err(ListFault::BadNumber);
    }
    Ok(n as u64)
}

/// Whether the part is 1 to 20 digits.
fn is_numeral(part: &[u8]) -> bool
    ensures { result ≡ is_numeral part.now }
{
    !part.is_empty() && part.len() <= 20 && are_digits(part)
}

fn are_digits(part: &[u8]) -> bool
    ensures { result ≡ list_all is_digit part.now }
{
    part.iter().all(|b| is_digit(*b))
}

/// The channel that the part writes as `slot!channel`.
#[tactic(auto, using(crate::proofs::Listed::channel_more))]
fn channel(version: Version, part: &[u8]) -> Result<Chan, ListFault>
    requires version { IsVersion version }
    ensures { result ≡ channel_in version (parts_at 33 part.now) }
{
    let Some((slot, ch)) = first_part(part, b'!') else {
        return Err(ListFault::BadNumber);
    };
    if first_part(ch, b'!').is_some() {
        return Err(ListFault::BadNumber);
    }
    let slot = number(slot, 1, u64::from(version.slots))?;
    let ch = number(ch, 1, u64::from(CHANNELS))?;
    Ok(Chan::new(slot as u8, ch as u8))
}

/// The position that the part writes as channels joined by `&`.
pub fn position(version: Version, part: &[u8]) -> Result<Position, ListFault>
    requires version { IsVersion version }
    ensures { result ≡ position_in version (parts_at 38 part.now) }
{
    match first_part(part, b'&') {
        None => Ok(Position::new(channel(version, part)?)),
        Some((first, rest)) => all_joined(version, Position::new(channel(version, first)?), rest),
    }
}

/// The position with the channels that the text writes, joined by `&`.
fn all_joined(version: Version, position: Position, text: &[u8]) -> Result<Position, ListFault>
    requires version { IsVersion version }
    ensures { result ≡ joined_in version position (parts_at 38 text.now) }
{
    let mut joined = position;
    let mut rest = text;
    'channels: loop {
        match first_part(rest, b'&') {
            None => return with(version, joined, channel(version, rest)?),
            Some((first, others)) => {
                joined = with(version, joined, channel(version, first)?)?;
                rest = others;
            }
        }
    }
}

/// The position with one channel more, of as many as this version has.
fn with(version: Version, position: Position, chan: Chan) -> Result<Position, ListFault>
    requires version { IsVersion version }
    ensures { result ≡ joined_with version position chan }
{
    if position.len() >= version.joined {
        return Err(ListFault::BadNumber);
    }
    match position.joined(chan) {
        Ok(joined) => Ok(joined),
        Err(_) => Err(ListFault::BadNumber),
    }
}

fn value(digits: &[u8]) -> u128
    requires digits { AllPass is_digit digits.now }
    requires short { length digits.now ≤ 20 }
    ensures { result ≡ value_of digits.now }
{
    let mut n = 0;
    for d in digits {
        n = 10 * n + u128::from(*d - 48);
    }
    n
}

/// The layer that the part names, in this version.
pub fn layer(version: Version, part: &[u8]) -> Result<LayerName, ListFault>
    requires version { IsVersion version }
    ensures { result ≡ layer_in version part.now }
{
    layer_among(&ARMS[..usize::from(version.arm_layers)], part)
}

/// The layer that the part names, among these ARM layers and TRIGger.
fn layer_among(arms: &[ArmLayer], part: &[u8]) -> Result<LayerName, ListFault>
    ensures { result ≡ layer_among arms.now part.now }
{
    match arms {
        [] => {
            if is_word(part, &layer_word(LayerName::Trigger)) {
                return Ok(LayerName::Trigger);
            }
            Err(ListFault::BadStep)
        }
        [arm, inner @ ..] => {
            let name = LayerName::Arm(*arm);
            if is_word(part, &layer_word(name)) {
                return Ok(name);
            }
            layer_among(inner, part)
        }
    }
}

/// The word of a layer.
#[tactic(auto, using(crate::proofs::Words::arm_word))]
pub fn layer_word(name: LayerName) -> [u8; 4]
    ensures { result ≡ layer_word name }
{
    match name {
        LayerName::Arm(arm) => [b'a', b'r', b'm', b'0' + arm.number()],
        LayerName::Trigger => *b"trig",
    }
}
