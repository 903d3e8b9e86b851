//! From the text between the brackets of a list to the positions that it names, in one pass.

ghost use Rattle.std.specs.Prelude.{◌≡◌, ◌≤◌, ◌∷◌, ◌++◌, List, [], ℕ, Result, IfOk, Ok, Err, map};
ghost use Rattle.std.specs.Result.{result_map_both, ForOk};
ghost use Rattle.sw_base.specs.Limits.{most_entries};
ghost use Rattle.sw_base.specs.declared.error.ScpiError.{ScpiError as Error};
ghost use Rattle.sw_channel.specs.Grammar.{PositionItem};
ghost use Rattle.sw_channel.specs.Positions.{Position as Channels, alone};
ghost use Rattle.sw_channel.specs.PositionMeaning.{positions_judged};
ghost use Rattle.sw_channel.specs.Seen.{channels_in, positions_in, entry_seen, TakesItem, GathersPositions};

use crate::collect::{Found, all_of, push_found, room};
use crate::entry::{Entry, read_entry};
use crate::position::Position;
use crate::run::Run;
use std::alloc::{AllocError, Global};
use sw_base::{ScpiError, strip_prefix};

/// Adds a position of each channel of the run.
fn push_each(entries: &mut Result<Vec<Position>, AllocError>, run: &Run)
    ensures { (front : List Channels) → IfOk entries.old (λ v. v.items ≡ front)
        → IfOk entries.new (λ v. v.items ≡ front ++ map alone (channels_in run.now)) }
{
    for k in 0..run.count() {
        push_found(entries, Position::new(run.channel(k)));
    }
}

/// Adds the positions of the entry.
fn push_entry(entries: &mut Result<Vec<Position>, AllocError>, entry: &Entry)
    ensures { (front : List Channels) → IfOk entries.old (λ v. v.items ≡ front)
        → IfOk entries.new (λ v. v.items ≡ front ++ positions_in entry.now) }
{
    match entry {
        Entry::Joined(position) => push_found(entries, *position),
        Entry::Range(run) => push_each(entries, run),
    }
}

/// How many positions are found.
fn count_of(found: &Result<Found<Position>, ScpiError>) -> usize
    requires { ForOk found.now (λ f. f.count ≤ most_entries) }
    ensures count { IfOk found.now (λ f. result ≡ f.count) }
    ensures within { result ≤ most_entries }
{
    match found {
        Ok(found) => found.count,
        Err(_) => 0,
    }
}

/// Adds what one more item names: an entry, or a refusal.
fn add_entry(found: &mut Result<Found<Position>, ScpiError>, entry: Result<Entry, ScpiError>)
    requires { ForOk found.old (λ f. f.count ≤ most_entries) }
    ensures taken { (i : PositionItem) → IfOk found.old (λ f. positions_judged f.count i ≡ entry_seen entry)
        → TakesItem positions_judged found.old i found.new }
    ensures within { (i : PositionItem) → IfOk found.old (λ f. positions_judged f.count i ≡ entry_seen entry)
        → IfOk found.new (λ f. f.count ≤ most_entries) }
{
    if let Ok(known) = found {
        match entry {
            Err(refusal) => *found = Err(refusal),
            Ok(entry) => {
                known.count += entry.count();
                push_entry(&mut known.entries, &entry);
            }
        }
    }
}

/// The positions that the items of the text name, or the first refusal.
pub fn collect_positions(alloc: Global, text: &[u8]) -> Result<Vec<Position>, ScpiError>
    ensures { GathersPositions text.now (result_map_both (λ v. v.items) (λ e. e) result) }
{
    let mut rest = text;
    let mut found = Ok(Found {
        count: 0,
        entries: room(alloc, text.len()),
    });
    'list: loop {
        let Some((entry, after)) = read_entry(rest, count_of(&found)) else {
            return Err(ScpiError::InvalidExpression);
        };
        add_entry(&mut found, entry);
        if after.is_empty() {
            return all_of(found);
        }
        match strip_prefix(after, b',') {
            None => return Err(ScpiError::InvalidExpression),
            Some(others) => rest = others,
        }
    }
}
