//! From the text between the brackets of a list to the channels that it names, in one pass.

ghost use Rattle.std.specs.Prelude.{◌≡◌, ◌≤◌, ◌∷◌, ◌++◌, List, [], Result, IfOk, IfSome, IfNone, Some, Ok, Err};
ghost use Rattle.std.specs.Result.{result_map_both, ForOk};
ghost use Rattle.sw_base.specs.Layout.{Channel};
ghost use Rattle.sw_base.specs.Limits.{most_entries};
ghost use Rattle.sw_base.specs.declared.error.ScpiError.{ScpiError as Error};
ghost use Rattle.sw_channel.specs.Grammar.{ListItem, IsItem};
ghost use Rattle.sw_channel.specs.Meaning.{channels_judged};
ghost use Rattle.sw_channel.specs.Seen.{ends_item, LeadsPart, LeadsNone, channels_in, MeansSingle, MeansRun, TakesItem};
ghost use Rattle.sw_channel.specs.Seen.{IsFound, AnswersDue, GathersChannels};

use crate::parse::{read_item, short_item};
use crate::run::Run;
use std::alloc::{AllocError, Global};
use sw_base::{Chan, LIST_ENTRIES, ScpiError, strip_prefix};

/// The least number of bytes that a channel takes in a list, its comma counted.
const LEAST_BYTES: usize = 4;

/// The entries that the first items of a list name: channels, or positions.
#[derive(Drop)]
pub struct Found<T> {
    /// How many they are.
    pub count: usize,
    /// Themselves, unless there was no memory for them.
    pub entries: Result<Vec<T>, AllocError>,
}

/// Adds the entry, unless there was no memory for those before it.
pub fn push_found<T: Copy + Drop>(entries: &mut Result<Vec<T>, AllocError>, entry: T)
    ensures { (front : List T) → IfOk entries.old (λ v. v.items ≡ front)
        → IfOk entries.new (λ v. v.items ≡ front ++ entry ∷ []) }
{
    if let Ok(known) = entries
        && let Err(e) = known.push(entry)
    {
        *entries = Err(e.into());
    }
}

/// Adds what one more item names, where that is a channel or none that is right.
fn add_channel(found: &mut Result<Found<Chan>, ScpiError>, chan: Option<Chan>)
    requires { ForOk found.old (λ f. f.count ≤ most_entries) }
    ensures taken { (i : ListItem) → MeansSingle i chan → TakesItem channels_judged found.old i found.new }
    ensures within { IfOk found.new (λ f. f.count ≤ most_entries) }
{
    if let Ok(known) = found {
        match chan {
            None => *found = Err(ScpiError::DataOutOfRange),
            Some(chan) if known.count < LIST_ENTRIES => {
                known.count += 1;
                push_found(&mut known.entries, chan);
            }
            Some(_) => *found = Err(ScpiError::TooMuchData),
        }
    }
}

/// Adds the channels of the run.
fn push_run(entries: &mut Result<Vec<Chan>, AllocError>, run: &Run)
    ensures { (front : List Channel) → IfOk entries.old (λ v. v.items ≡ front)
        → IfOk entries.new (λ v. v.items ≡ front ++ channels_in run.now) }
{
    for k in 0..run.count() {
        push_found(entries, run.channel(k));
    }
}

/// Adds what one more item names: a run, or nothing that is right.
fn add_item(found: &mut Result<Found<Chan>, ScpiError>, run: Option<Run>)
    requires { ForOk found.old (λ f. f.count ≤ most_entries) }
    ensures taken { (i : ListItem) → MeansRun i run → TakesItem channels_judged found.old i found.new }
    ensures within { IfOk found.new (λ f. f.count ≤ most_entries) }
{
    if let Ok(known) = found {
        match run {
            None => *found = Err(ScpiError::DataOutOfRange),
            Some(run) => {
                let more = usize::from(run.count());
                if known.count > LIST_ENTRIES - more {
                    *found = Err(ScpiError::TooMuchData);
                } else {
                    known.count += more;
                    push_run(&mut known.entries, &run);
                }
            }
        }
    }
}

/// Adds what the item at the front names; what follows the item.
fn take_item<'a>(found: &mut Result<Found<Chan>, ScpiError>, text: &'a [u8]) -> Option<&'a [u8]>
    requires { ForOk found.old (λ f. f.count ≤ most_entries) }
    ensures taken { IfSome result (λ rest.
        LeadsPart IsItem ends_item (TakesItem channels_judged found.old) text.now found.new rest.now) }
    ensures none { IfNone result (LeadsNone IsItem ends_item text.now) }
    ensures within { IfOk found.new (λ f. f.count ≤ most_entries) }
{
    if let Some((chan, rest)) = short_item(text) {
        add_channel(found, chan);
        return Some(rest);
    }
    let Some((run, rest)) = read_item(text) else {
        return None;
    };
    add_item(found, run);
    Some(rest)
}

/// Room for the entries of a list of this many bytes where none of its items is a range.
pub fn room<T>(alloc: Global, bytes: usize) -> Result<Vec<T>, AllocError>
    ensures { IfOk result (λ v. v.items ≡ []) }
{
    Vec::with_capacity(alloc, (bytes / LEAST_BYTES + 1).min(LIST_ENTRIES))
}

/// The entries that were found, unless there was no memory for them.
pub fn all_of<T>(found: Result<Found<T>, ScpiError>) -> Result<Vec<T>, ScpiError>
    ensures { (all : Result (List T) Error) → IsFound found all
        → AnswersDue all (result_map_both (λ v. v.items) (λ e. e) result) }
{
    Ok(found?.entries?)
}

/// The channels that the items of the text name, or the first refusal.
pub fn collect(alloc: Global, text: &[u8]) -> Result<Vec<Chan>, ScpiError>
    ensures { GathersChannels text.now (result_map_both (λ v. v.items) (λ e. e) result) }
{
    let mut rest = text;
    let mut found = Ok(Found {
        count: 0,
        entries: room(alloc, text.len()),
    });
    'list: loop {
        let Some(after) = take_item(&mut found, rest) else {
            return Err(ScpiError::InvalidExpression);
        };
        if after.is_empty() {
            return all_of(found);
        }
        match strip_prefix(after, b',') {
            None => return Err(ScpiError::InvalidExpression),
            Some(others) => rest = others,
        }
    }
}
