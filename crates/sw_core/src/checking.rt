//! Why channels may not be closed now.

ghost use Rattle.std.specs.Prelude.{◌≡◌, Bool, IfOk};
ghost use Rattle.sw_core.specs.Checking.{first_absent, are_joined, joined_with, first_joined, quoted, check_text};
ghost use Rattle.sw_core.specs.Step.{StepText};

use crate::answer_text::AnswerText;
use crate::ask::SessionAnswer;
use crate::state::Core;
use crate::text::answered;
use std::alloc::{AllocError, Global};
use sw_base::{Chan, ScpiError, Sequence};
use sw_card::{Meter, Relay};
use sw_channel::print_list;
use sw_verify::Layout;

impl<R: Relay, M: Meter> Core<R, M> {
    /// Answers why the channels may not be closed now, or `"ok"`.
    #[inline(never)]
    pub(crate) fn check_closing(&self, alloc: Global, chans: &[Chan]) -> SessionAnswer
        ensures { StepText self.now.seen (check_text chans.now self.now.seen) self.now.seen.status Bool.false result
            self.now.seen }
    {
        match self.why_not(alloc, chans) {
            Ok(text) => answered(AnswerText::bytes(text)),
            Err(_) => SessionAnswer::Refused(ScpiError::OutOfMemory),
        }
    }

    /// The text of that.
    fn why_not(&self, alloc: Global, chans: &[Chan]) -> Result<Sequence<u8>, ScpiError>
        ensures { IfOk result (λ text. text ≡ check_text chans.now self.now.seen) }
    {
        if self.cage.is_running() {
            return quoted(alloc, b"a scan runs", &[]);
        }
        let layout = self.cage.layout(alloc)?;
        if let Some(absent) = first_absent(&layout, chans) {
            return quoted(alloc, b"no such channel: ", &[absent]);
        }
        let closed = self.cage.closed_chans(alloc)?;
        match first_joined(&layout, closed, chans)? {
            Some((chan, other)) => quoted(alloc, b"of one group: ", &[chan, other]),
            None => quoted(alloc, b"ok", &[]),
        }
    }
}

/// The first of the channels that the cage lacks.
pub fn first_absent(layout: &Layout, chans: &[Chan]) -> Option<Chan>
    ensures { result ≡ first_absent layout.now chans.now }
{
    for chan in chans {
        if !layout.has_channel(*chan) {
            return Some(*chan);
        }
    }
    None
}

/// Whether two different channels are of one group.
fn are_joined(layout: &Layout, chan: Chan, other: Chan) -> bool
    ensures { result ≡ are_joined layout.now chan other }
{
    let group = layout.group(chan);
    chan != other && group != 0 && group == layout.group(other)
}

/// The first of these channels that is of one group with this one.
pub fn joined_with(layout: &Layout, chan: Chan, others: &[Chan]) -> Option<Chan>
    ensures { result ≡ joined_with layout.now chan others.now }
{
    for other in others {
        if are_joined(layout, chan, *other) {
            return Some(*other);
        }
    }
    None
}

/// The first of the channels that would join another where these are closed before, and that other.
fn first_joined(
    layout: &Layout,
    closed: Vec<Chan>,
    chans: &[Chan],
) -> Result<Option<(Chan, Chan)>, AllocError>
    ensures { IfOk result (λ pair. pair ≡ first_joined layout.now closed.items chans.now) }
{
    let mut before = closed;
    for chan in chans {
        if let Some(other) = joined_with(layout, *chan, before.as_slice()) {
            return Ok(Some((*chan, other)));
        }
        before.push(*chan)?;
    }
    Ok(None)
}

/// Words in double quotes, with channels behind them where there are any.
pub fn quoted(alloc: Global, words: &[u8], chans: &[Chan]) -> Result<Sequence<u8>, ScpiError>
    ensures { IfOk result (λ text. text ≡ quoted words.now chans.now) }
{
    let mut text = Vec::new(alloc);
    text.push(b'"')?;
    text.extend_from_slice(words)?;
    if !chans.is_empty() {
        text.extend_from_slice(print_list(alloc, chans)?.as_slice())?;
    }
    text.push(b'"')?;
    Ok(Sequence::new(text))
}
