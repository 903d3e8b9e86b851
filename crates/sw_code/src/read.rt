//! Reading a listing.

ghost use Rattle.std.specs.Prelude.{◌≡◌, ◌+◌, ◌<◌, ◌≤◌, ◌⊎◌, length, Ok, Err, IfOk, IfErr};
ghost use Rattle.std.specs.List.{AllByRecursion};
ghost use Rattle.sw_base.specs.Limits.{most_slots, most_counters};
ghost use Rattle.sw_code.specs.declared.fault.ListFault.TheVariants.{NoMemory};
ghost use Rattle.sw_code.specs.Range.{IsStep, most_steps};
ghost use Rattle.sw_code.specs.Reading.{parts_at, step_in, plain_step, step_with, step_with_two, counter_in, meter_in};
ghost use Rattle.sw_code.specs.Reading.{on_line, numbered_step, steps_in, code_after_version, code_in};
ghost use Rattle.sw_code.specs.Versions.{IsVersion};

use crate::code::{Code, STEPS, Step};
use crate::fault::{ListError, ListFault};
use crate::parts::{first_part, is_word, layer, number, position};
use crate::version::{Version, read_version};
use std::alloc::Global;
use sw_base::{LONGEST_DELAY, TRIGGER_COUNT};

/// The last line that may have a step: the first two lines have none.
const LAST_LINE: u32 = 2 + STEPS as u32;

/// The code that a text lists, in the version that its first line names, or the first fault by line; `NoMemory` where a
/// step found no room.
#[tactic(auto, using(crate::proofs::Listed::version_some))]
pub fn read_listing(alloc: Global, text: &[u8]) -> Result<Code, ListError>
    ensures code { IfOk result (λ c. code_in text.now ≡ Ok c) }
    ensures fault { IfErr result (λ e. (e.kind ≡ NoMemory) ⊎ (code_in text.now ≡ Err e)) }
{
    let Some((first, rest)) = first_part(text, b'\n') else {
        return Err(ListError {
            line: 1,
            kind: ListFault::BadStep,
        });
    };
    match read_version(first) {
        Err(kind) => Err(ListError { line: 1, kind }),
        Ok(version) => read_code(alloc, version, rest),
    }
}

/// The code of the lines from the second on.
#[tactic(auto, using(crate::proofs::Listed::second_some))]
fn read_code(alloc: Global, version: Version, text: &[u8]) -> Result<Code, ListError>
    requires version { IsVersion version }
    ensures code { IfOk result (λ c. code_after_version version (parts_at 10 text.now) ≡ Ok c) }
    ensures fault { IfErr result
        (λ e. (e.kind ≡ NoMemory) ⊎ (code_after_version version (parts_at 10 text.now) ≡ Err e)) }
{
    let Some((second, rest)) = first_part(text, b'\n') else {
        return Err(ListError {
            line: 2,
            kind: ListFault::BadStep,
        });
    };
    match read_meter(version, second) {
        Err(kind) => Err(ListError { line: 2, kind }),
        Ok(meter) => {
            let steps = read_steps(alloc, version, rest)?;
            Ok(Code::new(meter, steps))
        }
    }
}

#[tactic(auto, using(crate::proofs::Listed::meter_more))]
fn read_meter(version: Version, line: &[u8]) -> Result<u8, ListFault>
    requires version { IsVersion version }
    ensures meter { result ≡ meter_in version (parts_at 32 line.now) }
    ensures range { IfOk result (λ slot. (1 ≤ slot) × (slot ≤ most_slots)) }
{
    let Some((word, slot)) = first_part(line, b' ') else {
        return Err(ListFault::BadStep);
    };
    if first_part(slot, b' ').is_some() || !is_word(word, b"meter") {
        return Err(ListFault::BadStep);
    }
    let slot = number(slot, 1, u64::from(version.slots))?;
    Ok(slot as u8)
}

/// The steps of the lines from the third on.
fn read_steps(alloc: Global, version: Version, text: &[u8]) -> Result<Vec<Step>, ListError>
    requires version { IsVersion version }
    ensures steps { IfOk result (λ v. steps_in version 3 (parts_at 10 text.now) ≡ Ok v.items) }
    ensures room { IfOk result (λ v. length v.items ≤ most_steps) }
    ensures range { IfOk result (λ v. AllByRecursion IsStep v.items) }
    ensures fault { IfErr result
        (λ e. (e.kind ≡ NoMemory) ⊎ (steps_in version 3 (parts_at 10 text.now) ≡ Err e)) }
{
    let mut steps = Vec::new(alloc);
    let mut rest = text;
    let mut line = 3;
    'lines: loop {
        match first_part(rest, b'\n') {
            None => {
                return if rest.is_empty() {
                    Ok(steps)
                } else {
                    Err(ListError {
                        line,
                        kind: ListFault::BadStep,
                    })
                };
            }
            Some((first, others)) => {
                let step = numbered_step(version, line, first)?;
                match steps.push(step) {
                    Ok(()) => {
                        rest = others;
                        line += 1;
                    }
                    Err(_) => {
                        return Err(ListError {
                            line,
                            kind: ListFault::NoMemory,
                        });
                    }
                }
            }
        }
    }
}

/// The step of a line, with the number of the line where it has a fault.
fn numbered_step(version: Version, line: u32, text: &[u8]) -> Result<Step, ListError>
    requires version { IsVersion version }
    ensures step { result ≡ on_line line (numbered_step version line text.now) }
    ensures range { IfOk result IsStep }
    ensures room { IfOk result (λ s. line ≤ 2 + most_steps) }
{
    match read_step(version, text) {
        Err(kind) => Err(ListError { line, kind }),
        Ok(step) => {
            if line > LAST_LINE {
                return Err(ListError {
                    line,
                    kind: ListFault::TooLong,
                });
            }
            Ok(step)
        }
    }
}

#[tactic(auto, using(crate::proofs::Listed::step_more))]
fn read_step(version: Version, line: &[u8]) -> Result<Step, ListFault>
    requires version { IsVersion version }
    ensures step { result ≡ step_in version (parts_at 32 line.now) }
    ensures range { IfOk result IsStep }
{
    let Some((word, rest)) = first_part(line, b' ') else {
        return plain_step(line);
    };
    let Some((first, second)) = first_part(rest, b' ') else {
        return step_with(version, word, rest);
    };
    if first_part(second, b' ').is_some() {
        return Err(ListFault::BadStep);
    }
    step_with_two(version, word, first, second)
}

fn plain_step(word: &[u8]) -> Result<Step, ListFault>
    ensures step { result ≡ plain_step word.now }
    ensures range { IfOk result IsStep }
{
    if is_word(word, b"read") {
        return Ok(Step::Read);
    }
    if is_word(word, b"halt") {
        return Ok(Step::Halt);
    }
    Err(ListFault::BadStep)
}

/// The step of a word and one part.
fn step_with(version: Version, word: &[u8], part: &[u8]) -> Result<Step, ListFault>
    requires version { IsVersion version }
    ensures step { result ≡ step_with version word.now part.now }
    ensures range { IfOk result IsStep }
{
    if is_word(word, b"wait") {
        return Ok(Step::Wait(layer(version, part)?));
    }
    if is_word(word, b"pause") {
        return Ok(Step::Pause(number(part, 1, LONGEST_DELAY)?));
    }
    if is_word(word, b"close") {
        return Ok(Step::Close(position(version, part)?));
    }
    if is_word(word, b"open") {
        return Ok(Step::Open(position(version, part)?));
    }
    Err(ListFault::BadStep)
}

/// The step of a word and two parts.
fn step_with_two(
    version: Version,
    word: &[u8],
    first: &[u8],
    second: &[u8],
) -> Result<Step, ListFault>
    requires version { IsVersion version }
    ensures step { result ≡ step_with_two version word.now first.now second.now }
    ensures range { IfOk result IsStep }
{
    if is_word(word, b"set") {
        let counter = counter(version, first)?;
        let count = number(second, 1, u64::from(TRIGGER_COUNT))?;
        return Ok(Step::Set(counter, count as u32));
    }
    if version.has_timer && is_word(word, b"timer") {
        let name = layer(version, first)?;
        return Ok(Step::Timer(name, number(second, 1, LONGEST_DELAY)?));
    }
    if is_word(word, b"loop") {
        let counter = counter(version, first)?;
        let target = number(second, 0, u64::from(STEPS) - 1)?;
        return Ok(Step::Loop(counter, target as u16));
    }
    Err(ListFault::BadStep)
}

fn counter(version: Version, part: &[u8]) -> Result<u8, ListFault>
    requires version { IsVersion version }
    ensures counter { result ≡ counter_in version part.now }
    ensures range { IfOk result (λ k. k < most_counters) }
{
    let counter = number(part, 0, u64::from(version.counters) - 1)?;
    Ok(counter as u8)
}
