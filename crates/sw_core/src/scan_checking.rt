//! Why no scan may begin now.

ghost use Rattle.std.specs.Prelude.{◌≡◌, Bool, None, IfOk, string_bytes};
ghost use Rattle.sw_channel.specs.Positions.{is_among};
ghost use Rattle.sw_core.specs.ScanChecking.{first_missing, blocked_by, first_in, first_blocked};
ghost use Rattle.sw_core.specs.ScanChecking.{refused_text, written, missing_words, joined_words};
ghost use Rattle.sw_core.specs.ScanChecking.{unmeasured_words, crowded_words};
ghost use Rattle.sw_core.specs.ScanChecking.{counted_text, ready_text, scan_check_text};
ghost use Rattle.sw_core.specs.Step.{StepText};

use crate::answer_text::AnswerText;
use crate::ask::SessionAnswer;
use crate::checking::{first_absent, joined_with, quoted};
use crate::state::Core;
use crate::text::answered;
use std::alloc::{AllocError, Global};
use sw_base::{Chan, ScpiError, Sequence};
use sw_card::{Meter, Relay};
use sw_channel::Position;
use sw_trigger::Settings;
use sw_verify::{Layout, Refusal, first_blocked};

impl<R: Relay, M: Meter> Core<R, M> {
    /// Answers why the mainframe would refuse INITiate now, or what its scan awaits and reads.
    #[inline(never)]
    pub(crate) fn check_scan(&self, alloc: Global) -> SessionAnswer
        ensures { StepText self.now.seen (scan_check_text self.now.seen) self.now.seen.status Bool.false result
            self.now.seen }
    {
        match self.scan_check(alloc) {
            Ok(text) => answered(AnswerText::bytes(text)),
            Err(_) => SessionAnswer::Refused(ScpiError::OutOfMemory),
        }
    }

    /// The text of that. It looks at each position that the scan uses and at each closed channel twice at most, and at
    /// the closed channels once more for each channel of the refused position.
    fn scan_check(&self, alloc: Global) -> Result<Sequence<u8>, ScpiError>
        ensures { IfOk result (λ text. text ≡ scan_check_text self.now.seen) }
    {
        if self.cage.is_running() {
            return quoted(alloc, b"a scan runs", &[]);
        }
        if self.settings.is_programmed() {
            return quoted(alloc, b"a program is on", &[]);
        }
        let slot = self.settings.scan.meter();
        if self.cage.has_out(slot) {
            let words = format!(in alloc; "the meter of slot {slot} is out")?;
            return quoted(alloc, words.as_bytes(), &[]);
        }
        if self.cage.number() == u64::MAX {
            return quoted(alloc, b"no number is left for a scan", &[]);
        }
        let layout = self.cage.layout(alloc)?;
        let closed = self.cage.closed_chans(alloc)?;
        ready_text(alloc, &self.settings.scan, &layout, closed)
    }
}

/// Why a scan of these settings would be refused with these cards while these channels are closed, or what it awaits
/// and reads.
fn ready_text(
    alloc: Global,
    settings: &Settings,
    layout: &Layout,
    closed: Vec<Chan>,
) -> Result<Sequence<u8>, ScpiError>
    ensures { IfOk result (λ text. text ≡ ready_text settings.now layout.now closed.items) }
{
    if settings.list().is_empty() {
        return refused_text(alloc, Refusal::EmptyList, "nothing is listed (ROUTe:SCAN)");
    }
    if let Some(missing) = first_missing(layout, settings.used()) {
        let words = missing_words(alloc, missing)?;
        return refused_text(alloc, Refusal::NoChannel, words.as_str());
    }
    let slot = settings.meter();
    if !layout.has_meter(slot) {
        let words = unmeasured_words(alloc, slot)?;
        return refused_text(alloc, Refusal::NoMeter, words.as_str());
    }
    if let Some((chan, other)) = blocked_channel(layout, closed, settings.used())? {
        let words = joined_words(alloc, chan, other, layout.group(chan))?;
        return refused_text(alloc, Refusal::GroupClash, words.as_str());
    }
    counted_text(alloc, settings)
}

/// The text on the count of readings of settings, where nothing else refuses them.
fn counted_text(alloc: Global, settings: &Settings) -> Result<Sequence<u8>, ScpiError>
    ensures { IfOk result (λ text. text ≡ counted_text settings.now) }
{
    let readings = settings.readings();
    let points = settings.points();
    if u64::from(points) < readings {
        let words = crowded_words(alloc, readings, points)?;
        return refused_text(alloc, Refusal::TooManyReadings, words.as_str());
    }
    let bound = settings.bound();
    let words = format!(in alloc; "ok bound {bound} readings {readings}")?;
    quoted(alloc, words.as_bytes(), &[])
}

/// The first channel of the positions that the cage lacks.
fn first_missing(layout: &Layout, positions: &[Position]) -> Option<Chan>
    ensures { result ≡ first_missing layout.now positions.now }
{
    for position in positions {
        if let Some(chan) = first_absent(layout, position.as_slice()) {
            return Some(chan);
        }
    }
    None
}

/// The first channel of the positions that may not be closed, and the closed one that it would join, where it is not
/// closed itself.
#[tactic(auto, using(crate::proofs::ScanCheckingLemmas::blocked_in, crate::proofs::ScanCheckingLemmas::free_none))]
fn blocked_channel(
    layout: &Layout,
    closed: Vec<Chan>,
    positions: &[Position],
) -> Result<Option<(Chan, Option<Chan>)>, AllocError>
    requires present { first_missing layout.now positions.now ≡ None }
    ensures { IfOk result (λ blocked. blocked ≡ first_blocked layout.now closed.items positions.now) }
{
    match first_blocked(layout, closed.as_slice(), positions) {
        Some(position) => first_in(layout, closed, position),
        None => Ok(None),
    }
}

/// The same of one position.
fn first_in(
    layout: &Layout,
    closed: Vec<Chan>,
    position: &Position,
) -> Result<Option<(Chan, Option<Chan>)>, AllocError>
    ensures { IfOk result (λ blocked. blocked ≡ first_in layout.now closed.items position.now) }
{
    let mut before = closed;
    for chan in position.as_slice() {
        let blocked = blocked_by(layout, before.as_slice(), *chan);
        if blocked.is_some() {
            return Ok(blocked);
        }
        before.push(*chan)?;
    }
    Ok(None)
}

/// The channel, where it may not be closed while these are, and the one of them that it would join.
fn blocked_by(layout: &Layout, closed: &[Chan], chan: Chan) -> Option<(Chan, Option<Chan>)>
    ensures { result ≡ blocked_by layout.now closed.now chan }
{
    if is_among(closed, chan) {
        return Some((chan, None));
    }
    match joined_with(layout, chan, closed) {
        Some(other) => Some((chan, Some(other))),
        None => None,
    }
}

fn is_among(chans: &[Chan], chan: Chan) -> bool
    ensures { result ≡ is_among chans.now chan }
{
    chans.iter().any(|c| chan == *c)
}

/// A refusal by its number and its name, with the cause in words.
fn refused_text(alloc: Global, refusal: Refusal, words: &str) -> Result<Sequence<u8>, ScpiError>
    ensures { IfOk result (λ text. text ≡ refused_text refusal words.now) }
{
    let number = refusal.number();
    let name = refusal.name();
    let told = format!(in alloc; "refused {number} {name}: {words}")?;
    quoted(alloc, told.as_bytes(), &[])
}

fn missing_words(alloc: Global, chan: Chan) -> Result<String, AllocError>
    ensures { IfOk result (λ words. string_bytes words ≡ missing_words chan) }
{
    let slot = chan.slot();
    let ch = chan.ch();
    format!(in alloc; "no such channel: {slot}!{ch}")
}

fn unmeasured_words(alloc: Global, slot: u8) -> Result<String, AllocError>
    ensures { IfOk result (λ words. string_bytes words ≡ unmeasured_words slot) }
{
    format!(in alloc; "no meter in slot {slot} (ROUTe:SCAN:METer)")
}

fn crowded_words(alloc: Global, readings: u64, points: u32) -> Result<String, AllocError>
    ensures { IfOk result (λ words. string_bytes words ≡ crowded_words readings points) }
{
    format!(in alloc; "{readings} readings, room for {points} (TRACe:POINts)")
}

fn joined_words(
    alloc: Global,
    chan: Chan,
    other: Option<Chan>,
    group: u8,
) -> Result<String, AllocError>
    ensures { IfOk result (λ words. string_bytes words ≡ joined_words chan other group) }
{
    let written_chan = written(alloc, chan)?;
    let chan = written_chan.as_str();
    let Some(other) = other else {
        return format!(in alloc; "{chan} is closed already");
    };
    let written_other = written(alloc, other)?;
    let other = written_other.as_str();
    format!(in alloc; "closing {chan} would join it with {other}, both of group {group}")
}

/// A channel as a listing writes it.
fn written(alloc: Global, chan: Chan) -> Result<String, AllocError>
    ensures { IfOk result (λ text. string_bytes text ≡ written chan) }
{
    let slot = chan.slot();
    let ch = chan.ch();
    format!(in alloc; "{slot}!{ch}")
}
