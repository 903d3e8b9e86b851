//! Printing a listing.

ghost use Rattle.std.specs.Prelude.{◌≡◌, ◌++◌, [], ◌∷◌, List, ℕ, Ok, IfOk, IfErr, OnOk, decimal};
ghost use Rattle.std.specs.List.{AllByRecursion, join_with_byte};
ghost use Rattle.sw_base.specs.declared.error.ScpiError.TheVariants.{OutOfMemory};
ghost use Rattle.sw_code.specs.Listing.{channel_text, position_text, others_text, parts_of, line_of, listed_lines};
ghost use Rattle.sw_code.specs.Listing.{listing_of, layer_word};
ghost use Rattle.sw_code.specs.Reading.{code_in};
ghost use Rattle.sw_code.specs.Range.{IsInChannelRange, IsPositionInRange, HasPosition, IsProgramInRange};
ghost use Rattle.sw_code.specs.declared.code.Step.TheVariants as step;

use crate::code::{Code, Step};
use crate::parts::layer_word;
use crate::version::NEWEST;
use std::alloc::{AllocError, Global};
use sw_base::{Chan, LayerName, ScpiError, print_number};
use sw_channel::Position;

/// The listing of a code, in the newest version: `scan` and its number, `meter` and its slot, and a line for each step,
/// numbers without leading zeros.
///
/// `OutOfMemory` comes where the text found no room, and no other error.
pub fn print_listing(alloc: Global, code: &Code) -> Result<Vec<u8>, ScpiError>
    ensures printed { IfOk result (λ v. v.items ≡ listing_of code.now) }
    // What is printed reads as the same code.
    ensures read { IfOk result (λ v. code_in v.items ≡ Ok code.now) }
    ensures refused { IfErr result (λ e. e ≡ OutOfMemory) }
{
    let text = all_lines(alloc, code)?;
    Ok(text)
}

fn all_lines(alloc: Global, code: &Code) -> Result<Vec<u8>, AllocError>
    ensures printed { IfOk result (λ v. v.items ≡ listing_of code.now) }
    ensures channels { IfOk result (λ v. AllByRecursion HasPosition code.now.steps) }
    ensures range { IfOk result (λ v. IsProgramInRange code.now) }
{
    let mut out = Vec::new(alloc);
    out.extend_from_slice(b"scan ")?;
    put_number(&mut out, u64::from(NEWEST.number))?;
    out.extend_from_slice(b"\nmeter ")?;
    put_number(&mut out, u64::from(code.meter()))?;
    out.push(b'\n')?;
    put_steps(&mut out, code.steps())?;
    Ok(out)
}

fn put_steps(out: &mut Vec<u8>, steps: &[Step]) -> Result<(), AllocError>
    ensures printed { OnOk result (out.new.items ≡ out.old.items ++ listed_lines steps.now) }
    ensures channels { OnOk result (AllByRecursion HasPosition steps.now) }
{
    for step in steps {
        put_step(out, *step)?;
        out.push(b'\n')?;
    }
    Ok(())
}

/// Adds a step's line, without its line feed.
fn put_step(out: &mut Vec<u8>, step: Step) -> Result<(), AllocError>
    ensures printed { OnOk result (out.new.items ≡ out.old.items ++ join_with_byte 32 (parts_of step)) }
    ensures channel { OnOk result (HasPosition step) }
{
    match step {
        Step::Set(counter, count) => put_pair(out, b"set ", counter, u64::from(count)),
        Step::Wait(name) => put_wait(out, name),
        Step::Timer(name, micros) => put_timer(out, name, micros),
        Step::Pause(micros) => {
            out.extend_from_slice(b"pause ")?;
            put_number(out, micros)
        }
        Step::Close(position) => put_position(out, b"close ", position),
        Step::Read => {
            out.extend_from_slice(b"read")?;
            Ok(())
        }
        Step::Open(position) => put_position(out, b"open ", position),
        Step::Loop(counter, step) => put_pair(out, b"loop ", counter, u64::from(step)),
        Step::Halt => {
            out.extend_from_slice(b"halt")?;
            Ok(())
        }
    }
}

/// Adds a word with its space, a counter and a number.
fn put_pair(out: &mut Vec<u8>, word: &[u8], counter: u8, number: u64) -> Result<(), AllocError>
    ensures { OnOk result (out.new.items ≡ out.old.items ++ (word.now ++ (decimal counter ++ 32 ∷ decimal number))) }
{
    out.extend_from_slice(word)?;
    put_number(out, u64::from(counter))?;
    out.push(b' ')?;
    put_number(out, number)
}

fn put_wait(out: &mut Vec<u8>, name: LayerName) -> Result<(), AllocError>
    ensures { OnOk result (out.new.items ≡ out.old.items ++ join_with_byte 32 (parts_of (step.Wait name))) }
{
    out.extend_from_slice(b"wait ")?;
    out.extend_from_slice(&layer_word(name))?;
    Ok(())
}

fn put_timer(out: &mut Vec<u8>, name: LayerName, micros: u64) -> Result<(), AllocError>
    ensures { OnOk result (out.new.items ≡ out.old.items ++ join_with_byte 32 (parts_of (step.Timer name micros))) }
{
    out.extend_from_slice(b"timer ")?;
    out.extend_from_slice(&layer_word(name))?;
    out.push(b' ')?;
    put_number(out, micros)
}

/// Adds a word with its space, and the channels joined by `&`.
fn put_position(out: &mut Vec<u8>, word: &[u8], position: Position) -> Result<(), AllocError>
    ensures printed { OnOk result (out.new.items ≡ out.old.items ++ (word.now ++ position_text position)) }
    ensures range { OnOk result (IsPositionInRange position) }
{
    out.extend_from_slice(word)?;
    put_joined(out, position.as_slice())
}

/// Adds the channels, joined by `&`.
fn put_joined(out: &mut Vec<u8>, chans: &[Chan]) -> Result<(), AllocError>
    ensures printed { OnOk result (out.new.items ≡ out.old.items ++ position_text chans.now) }
    ensures range { OnOk result (AllByRecursion IsInChannelRange chans.now) }
{
    match chans {
        [] => Ok(()),
        [head, tail @ ..] => {
            put_channel(out, *head)?;
            put_others(out, tail)
        }
    }
}

/// Adds each channel after `&`.
fn put_others(out: &mut Vec<u8>, chans: &[Chan]) -> Result<(), AllocError>
    ensures printed { OnOk result (out.new.items ≡ out.old.items ++ others_text chans.now) }
    ensures range { OnOk result (AllByRecursion IsInChannelRange chans.now) }
{
    for chan in chans {
        out.push(b'&')?;
        put_channel(out, *chan)?;
    }
    Ok(())
}

/// Adds `slot!channel`.
fn put_channel(out: &mut Vec<u8>, channel: Chan) -> Result<(), AllocError>
    ensures printed { OnOk result (out.new.items ≡ out.old.items ++ channel_text channel) }
    ensures range { IsInChannelRange channel }
{
    let slot = channel.slot();
    let ch = channel.ch();
    put_number(out, u64::from(slot))?;
    out.push(b'!')?;
    put_number(out, u64::from(ch))
}

fn put_number(out: &mut Vec<u8>, number: u64) -> Result<(), AllocError>
    ensures { OnOk result (out.new.items ≡ out.old.items ++ decimal number) }
{
    let mut buffer = [0; 32];
    let length = print_number(number, &mut buffer);
    out.extend_from_slice(&buffer[..length])?;
    Ok(())
}
