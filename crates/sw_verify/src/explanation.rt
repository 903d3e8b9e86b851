//! Why a listing is refused, in plain words. The crate promises of them only that they come from the first step that
//! the verifier refuses for that cause.

use crate::layout::Layout;
use crate::refusal::Refusal;
use std::alloc::{AllocError, Global};
use sw_base::Chan;
use sw_channel::Position;
use sw_code::{Step, read_listing};

/// Why the code that a text lists is refused with these cards, while these channels are closed and there is room for
/// `points` readings; where there is memory for it.
pub fn explain(
    alloc: Global,
    text: &[u8],
    layout: &Layout,
    closed: &[Chan],
    points: u32,
    refusal: Refusal,
) -> Option<String> {
    let code = read_listing(alloc, text).ok()?;
    let slot = code.meter();
    let remark = match refusal {
        Refusal::BadNesting | Refusal::BadJump => misnested(alloc, code.steps()),
        Refusal::NoMeter => format!(in alloc; "line 2: slot {slot} has no meter").map(Some),
        Refusal::TooManyReadings => {
            format!(in alloc; "it makes more than {points} readings").map(Some)
        }
        _ => misplaced(alloc, code.steps(), layout, closed),
    };
    remark.ok()?
}

/// The line of a step.
fn line_of(index: usize) -> usize {
    index.saturating_add(3)
}

/// A loop that is open: its counter, and the first step of its body.
#[derive(Clone, Copy, Drop)]
struct OpenLoop {
    counter: u8,
    start: usize,
}

/// What is wrong with the nesting of the loops.
fn misnested(alloc: Global, steps: &[Step]) -> Result<Option<String>, AllocError> {
    let mut open = Vec::new(alloc);
    for (index, step) in steps.iter().enumerate() {
        let last = index.saturating_add(1) == steps.len();
        let remark = nested(alloc, &mut open, index, *step, last)?;
        if remark.is_some() {
            return Ok(remark);
        }
    }
    let line = line_of(steps.len());
    format!(in alloc; "line {line}: `halt` is missing").map(Some)
}

/// What is wrong with the nesting at a step, with these loops open.
fn nested(
    alloc: Global,
    open: &mut Vec<OpenLoop>,
    index: usize,
    step: Step,
    last: bool,
) -> Result<Option<String>, AllocError> {
    let line = line_of(index);
    match step {
        Step::Set(counter, _) if counts(open, counter) => {
            format!(in alloc; "line {line}: counter {counter} counts an open loop already").map(
                Some,
            )
        }
        Step::Set(counter, _) => {
            let start = index.saturating_add(1);
            open.push(OpenLoop { counter, start })?;
            Ok(None)
        }
        Step::Loop(counter, to) => looped(alloc, open.pop(), line, counter, usize::from(to)),
        Step::Halt => halted(alloc, open.pop(), line, last),
        _ => Ok(None),
    }
}

/// Whether the counter is that of an open loop.
fn counts(open: &[OpenLoop], counter: u8) -> bool {
    open.iter().any(|looped| looped.counter == counter)
}

/// What is wrong with the end of a loop, by the innermost open one.
fn looped(
    alloc: Global,
    inner: Option<OpenLoop>,
    line: usize,
    counter: u8,
    to: usize,
) -> Result<Option<String>, AllocError> {
    let Some(
        OpenLoop {
            counter: inner,
            start,
        },
    ) = inner
    else {
        return format!(in alloc; "line {line}: no loop of counter {counter} is open").map(Some);
    };
    if inner != counter {
        return format!(in alloc;
            "line {line}: the innermost open loop is that of counter {inner}, not of counter {counter}"
        ).map(Some);
    }
    if start != to {
        return format!(in alloc;
            "line {line}: the loop goes back to step {to}, and its body begins at step {start}"
        ).map(Some);
    }
    Ok(None)
}

/// What is wrong with a halt, by the innermost open loop.
fn halted(
    alloc: Global,
    inner: Option<OpenLoop>,
    line: usize,
    last: bool,
) -> Result<Option<String>, AllocError> {
    if let Some(OpenLoop { counter, .. }) = inner {
        return format!(in alloc;
            "line {line}: the loop of counter {counter} is open at `halt`"
        ).map(Some);
    }
    if last {
        return Ok(None);
    }
    let next = line.saturating_add(1);
    format!(in alloc; "line {next}: a step stands behind `halt`").map(Some)
}

/// The channels that are closed at a step, those that were where each open loop began, and those before the scan.
#[derive(Drop)]
struct Closed<'a> {
    chans: Vec<Chan>,
    marks: Vec<Vec<Chan>>,
    before: &'a [Chan],
}

/// What is wrong with a step's channel, or with what a loop or the whole leaves closed.
fn misplaced(
    alloc: Global,
    steps: &[Step],
    layout: &Layout,
    before: &[Chan],
) -> Result<Option<String>, AllocError> {
    let mut closed = Closed {
        chans: before.to_vec(alloc)?,
        marks: Vec::new(alloc),
        before,
    };
    for (index, step) in steps.iter().enumerate() {
        let remark = placed(alloc, &mut closed, line_of(index), *step, layout)?;
        if remark.is_some() {
            return Ok(remark);
        }
    }
    Ok(None)
}

/// What is wrong with a step, with these channels closed.
fn placed(
    alloc: Global,
    closed: &mut Closed<'_>,
    line: usize,
    step: Step,
    layout: &Layout,
) -> Result<Option<String>, AllocError> {
    match step {
        Step::Set(_, _) => {
            closed.marks.push(closed.chans.as_slice().to_vec(alloc)?)?;
            Ok(None)
        }
        Step::Loop(_, _) => match closed.marks.pop() {
            Some(before) => left(alloc, line, "the loop", &before, &closed.chans),
            None => Ok(None),
        },
        Step::Halt => left(alloc, line, "the scan", closed.before, &closed.chans),
        Step::Close(position) => close_each(alloc, &mut closed.chans, line, &position, layout),
        Step::Open(position) => open_each(alloc, closed, line, &position),
        _ => Ok(None),
    }
}

/// Closes the channels of a position, from left to right, up to the first that may not be; and why not.
fn close_each(
    alloc: Global,
    closed: &mut Vec<Chan>,
    line: usize,
    position: &Position,
    layout: &Layout,
) -> Result<Option<String>, AllocError> {
    for chan in position.as_slice() {
        let remark = unclosable(alloc, line, *chan, layout, closed)?;
        if remark.is_some() {
            return Ok(remark);
        }
        closed.push(*chan)?;
    }
    Ok(None)
}

/// Opens the channels of a position, from left to right, up to the first that the scan has not closed; and says so.
fn open_each(
    alloc: Global,
    closed: &mut Closed<'_>,
    line: usize,
    position: &Position,
) -> Result<Option<String>, AllocError> {
    for chan in position.as_slice() {
        let at = closed.chans.iter().position(|c| c == chan);
        let Some(at) = at.filter(|_| !closed.before.contains(chan)) else {
            let name = name_of(alloc, *chan)?;
            return format!(in alloc; "line {line}: the scan has not closed {name}").map(Some);
        };
        closed.chans.remove(at);
    }
    Ok(None)
}

/// Why a channel may not be closed while these are.
fn unclosable(
    alloc: Global,
    line: usize,
    chan: Chan,
    layout: &Layout,
    closed: &[Chan],
) -> Result<Option<String>, AllocError> {
    let name = name_of(alloc, chan)?;
    if !layout.has_channel(chan) {
        return format!(in alloc; "line {line}: there is no channel {name}").map(Some);
    }
    if closed.contains(&chan) {
        return format!(in alloc; "line {line}: {name} is closed already").map(Some);
    }
    let group = layout.group(chan);
    let other = closed
        .iter()
        .find(|c| group != 0 && layout.group(**c) == group);
    let Some(other) = other else {
        return Ok(None);
    };
    let other = name_of(alloc, *other)?;
    format!(in alloc;
        "line {line}: closing {name} would join it with {other}, both of group {group}"
    ).map(Some)
}

/// Which channel a loop, or the whole scan, does not leave as it was before.
fn left(
    alloc: Global,
    line: usize,
    what: &str,
    before: &[Chan],
    now: &[Chan],
) -> Result<Option<String>, AllocError> {
    if let Some(chan) = now.iter().find(|c| !before.contains(*c)) {
        let name = name_of(alloc, *chan)?;
        return format!(in alloc; "line {line}: {what} leaves {name} closed").map(Some);
    }
    if let Some(chan) = before.iter().find(|c| !now.contains(*c)) {
        let name = name_of(alloc, *chan)?;
        return format!(in alloc;
            "line {line}: {what} opens {name}, which was closed before it"
        ).map(Some);
    }
    Ok(None)
}

/// A channel as a listing writes it.
fn name_of(alloc: Global, chan: Chan) -> Result<String, AllocError> {
    let slot = chan.slot();
    let ch = chan.ch();
    format!(in alloc; "{slot}!{ch}")
}
