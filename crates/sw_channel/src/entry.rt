//! What the items of a list of positions name, read at the front of a text.

ghost use Rattle.std.specs.Prelude.{◌≡◌, ◌∷◌, ◌≤◌, List, [], ℕ, Ok, IfSome, IfNone, length};
ghost use Rattle.sw_base.specs.Limits.{most_entries, most_channels};
ghost use Rattle.sw_base.specs.declared.error.ScpiError.{ScpiError as Error};
ghost use Rattle.sw_channel.specs.Grammar.{WrittenChannel, joined, single_each, IsChannel, AreJoined, IsPositionItem};
ghost use Rattle.sw_channel.specs.Positions.{Position as Channels};
ghost use Rattle.sw_channel.specs.PositionMeaning.{and_next};
ghost use Rattle.sw_channel.specs.Seen.{ends_channel, ends_item, LeadsPart, LeadsNone, MeansChannel, MeansJoined};
ghost use Rattle.sw_channel.specs.Seen.{MeansEntry, positions_in};

use crate::parse::{range_run, read_channel, short_item};
use crate::position::Position;
use crate::run::Run;
use sw_base::{Chan, LIST_ENTRIES, ScpiError, strip_prefix};

/// What an item names.
#[derive(Clone, Copy)]
pub enum Entry {
    /// The position of joined channels.
    Joined(Position),
    /// A position of each channel.
    Range(Run),
}

impl Entry {
    /// How many positions these are.
    pub fn count(&self) -> usize
        ensures value { result ≡ length (positions_in self.now) }
        ensures range { result ≤ most_channels }
    {
        match self {
            Entry::Joined(_) => 1,
            Entry::Range(run) => usize::from(run.count()),
        }
    }
}

/// The position of its first channel, in a list that has `count` positions.
fn begun(first: Option<Chan>, count: usize) -> Result<Position, ScpiError>
    ensures { result ≡ and_next count (Ok []) first }
{
    let chan = first.ok_or(ScpiError::DataOutOfRange)?;
    if count >= LIST_ENTRIES {
        return Err(ScpiError::TooMuchData);
    }
    Ok(Position::new(chan))
}

/// The position with the channel that is joined to it.
fn with_channel(
    position: Result<Position, ScpiError>,
    chan: Option<Chan>,
) -> Result<Position, ScpiError>
    ensures { (count : ℕ) → result ≡ and_next count position chan }
{
    position?.joined(chan.ok_or(ScpiError::DataOutOfRange)?)
}

/// The position of the first channel and those that are joined to it by `&`, and what follows them; the text is what
/// follows the first.
fn read_joined(
    first: Option<Chan>,
    text: &[u8],
    count: usize,
) -> Option<(Result<Position, ScpiError>, &[u8])>
    ensures found { IfSome result (λ x. (whole : List ℕ)
        → LeadsPart IsChannel ends_channel MeansChannel whole first text.now
        → LeadsPart (AreJoined 38 IsChannel) ends_item (MeansJoined count) whole x.0 x.1.now) }
    ensures none { IfNone result ((whole : List ℕ)
        → LeadsPart IsChannel ends_channel MeansChannel whole first text.now
        → LeadsNone (AreJoined 38 IsChannel) ends_item whole) }
{
    let mut position = begun(first, count);
    let mut rest = text;
    'channels: loop {
        match strip_prefix(rest, b'&') {
            None => return Some((position, rest)),
            Some(more) => {
                let Some((chan, after)) = read_channel(more) else {
                    return None;
                };
                position = with_channel(position, chan);
                rest = after;
            }
        }
    }
}

/// The entry of a range, in a list that has `count` positions.
fn range_entry(first: Option<Chan>, last: Option<Chan>, count: usize) -> Result<Entry, ScpiError>
    requires { count ≤ most_entries }
    ensures { (v w : WrittenChannel) → MeansChannel v first → MeansChannel w last
        → MeansEntry count (single_each v w) result }
{
    match range_run(first, last) {
        None => Err(ScpiError::DataOutOfRange),
        Some(run) => {
            let more = usize::from(run.count());
            if count > LIST_ENTRIES - more {
                return Err(ScpiError::TooMuchData);
            }
            Ok(Entry::Range(run))
        }
    }
}

/// The entry of joined channels.
fn joined_entry(position: Result<Position, ScpiError>) -> Result<Entry, ScpiError>
    ensures { (count : ℕ) (w : WrittenChannel) (ws : List WrittenChannel) → MeansJoined count (w ∷ ws) position
        → MeansEntry count (joined w ws) result }
{
    Ok(Entry::Joined(position?))
}

/// What the item at the front names in a list that has `count` positions, or its first refusal; and what follows it.
#[inline(never)]
fn any_entry(text: &[u8], count: usize) -> Option<(Result<Entry, ScpiError>, &[u8])>
    requires { count ≤ most_entries }
    ensures found { IfSome result (λ x. LeadsPart IsPositionItem ends_item (MeansEntry count) text.now x.0 x.1.now) }
    ensures none { IfNone result (LeadsNone IsPositionItem ends_item text.now) }
{
    let Some((first, rest)) = read_channel(text) else {
        return None;
    };
    let Some(more) = strip_prefix(rest, b':') else {
        let Some((position, others)) = read_joined(first, rest, count) else {
            return None;
        };
        return Some((joined_entry(position), others));
    };
    let Some((last, others)) = read_channel(more) else {
        return None;
    };
    Some((range_entry(first, last, count), others))
}

/// What `any_entry` reads, in fewer steps where the item is one channel of short numbers.
pub fn read_entry(text: &[u8], count: usize) -> Option<(Result<Entry, ScpiError>, &[u8])>
    requires { count ≤ most_entries }
    ensures found { IfSome result (λ x. LeadsPart IsPositionItem ends_item (MeansEntry count) text.now x.0 x.1.now) }
    ensures none { IfNone result (LeadsNone IsPositionItem ends_item text.now) }
{
    if let Some((chan, rest)) = short_item(text) {
        return Some((joined_entry(begun(chan, count)), rest));
    }
    any_entry(text, count)
}
