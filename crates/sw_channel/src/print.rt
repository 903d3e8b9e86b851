//! Printing a channel list, and a list of positions.

ghost use Rattle.std.specs.Prelude.{◌≡◌, ◌≢◌, ◌<◌, [], ◌++◌, IfOk, IfErr, OnOk};
ghost use Rattle.std.specs.List.{AllByRecursion};
ghost use Rattle.sw_base.specs.declared.error.ScpiError.TheVariants.{OutOfMemory};
ghost use Rattle.sw_channel.specs.Meaning.{Spells};
ghost use Rattle.sw_channel.specs.PositionMeaning.{SpellsPositions};
ghost use Rattle.sw_channel.specs.Printing.{printed, printed_positions, printed_position, printed_channel};
ghost use Rattle.sw_channel.specs.Printing.{printed_after, printed_joined, InRange, IsPrintable};
ghost use Rattle.sw_channel.specs.Printing.{printed_number};

use crate::position::Position;
use std::alloc::{AllocError, Global};
use sw_base::{Chan, ScpiError};

/// The bytes of a channel at most, its comma counted: `,16!99`.
const MOST_BYTES: usize = 6;

/// A channel list as text: `(@`, each channel as `slot!channel`, joined by commas, and `)`; `(@)` for none.
///
/// `OutOfMemory` comes where the text found no room, and no other error.
pub fn print_list(alloc: Global, chans: &[Chan]) -> Result<Vec<u8>, ScpiError>
    ensures printed { IfOk result (λ v. v.items ≡ printed chans.now) }
    // What is printed spells what it is printed of.
    ensures spelled { chans.now ≢ [] → IfOk result (λ v. Spells v.items chans.now) }
    ensures refused { IfErr result (λ e. e ≡ OutOfMemory) }
{
    let room = chans.len().saturating_mul(MOST_BYTES).saturating_add(3);
    let mut out = Vec::with_capacity(alloc, room)?;
    out.extend_from_slice(b"(@")?;
    put_all(&mut out, chans, b',')?;
    out.push(b')')?;
    Ok(out)
}

/// A list of positions as text: as a channel list, but with the channels of a position joined by `&`.
///
/// `OutOfMemory` comes where the text found no room, and no other error.
pub fn print_positions(alloc: Global, positions: &[Position]) -> Result<Vec<u8>, ScpiError>
    ensures printed { IfOk result (λ v. v.items ≡ printed_positions positions.now) }
    // What is printed spells what it is printed of.
    ensures spelled { positions.now ≢ [] → IfOk result (λ v. SpellsPositions v.items positions.now) }
    ensures refused { IfErr result (λ e. e ≡ OutOfMemory) }
{
    let room = positions.len().saturating_mul(MOST_BYTES).saturating_add(3);
    let mut out = Vec::with_capacity(alloc, room)?;
    out.extend_from_slice(b"(@")?;
    put_positions(&mut out, positions)?;
    out.push(b')')?;
    Ok(out)
}

/// Adds the positions, joined by commas.
fn put_positions(out: &mut Vec<u8>, positions: &[Position]) -> Result<(), AllocError>
    ensures printed { OnOk result (out.new.items ≡ out.old.items ++ printed_joined 44 printed_position positions.now) }
    ensures in_range { OnOk result (AllByRecursion IsPrintable positions.now) }
{
    match positions {
        [] => Ok(()),
        [head, tail @ ..] => {
            put_all(out, head.as_slice(), b'&')?;
            put_other_positions(out, tail)
        }
    }
}

/// Adds each position after a comma.
fn put_other_positions(out: &mut Vec<u8>, positions: &[Position]) -> Result<(), AllocError>
    ensures printed { OnOk result (out.new.items ≡ out.old.items ++ printed_after 44 printed_position positions.now) }
    ensures in_range { OnOk result (AllByRecursion IsPrintable positions.now) }
{
    for position in positions {
        out.push(b',')?;
        put_all(out, position.as_slice(), b'&')?;
    }
    Ok(())
}

/// Adds the channels, joined by the mark.
fn put_all(out: &mut Vec<u8>, chans: &[Chan], mark: u8) -> Result<(), AllocError>
    ensures printed { OnOk result (out.new.items ≡ out.old.items ++ printed_joined mark printed_channel chans.now) }
    ensures in_range { OnOk result (AllByRecursion InRange chans.now) }
{
    match chans {
        [] => Ok(()),
        [head, tail @ ..] => {
            put_channel(out, *head)?;
            put_others(out, tail, mark)
        }
    }
}

/// Adds each channel after the mark.
fn put_others(out: &mut Vec<u8>, chans: &[Chan], mark: u8) -> Result<(), AllocError>
    ensures printed { OnOk result (out.new.items ≡ out.old.items ++ printed_after mark printed_channel chans.now) }
    ensures in_range { OnOk result (AllByRecursion InRange chans.now) }
{
    for chan in chans {
        out.push(mark)?;
        put_channel(out, *chan)?;
    }
    Ok(())
}

/// Adds `slot!channel`, without leading zeros.
fn put_channel(out: &mut Vec<u8>, chan: Chan) -> Result<(), AllocError>
    ensures printed { OnOk result (out.new.items ≡ out.old.items ++ printed_channel chan) }
    ensures in_range { InRange chan }
{
    let slot = chan.slot();
    let ch = chan.ch();
    put_number(out, slot)?;
    out.push(b'!')?;
    put_number(out, ch)
}

/// Adds a number below 100, without a leading zero.
fn put_number(out: &mut Vec<u8>, number: u8) -> Result<(), AllocError>
    requires { number < 100 }
    ensures { OnOk result (out.new.items ≡ out.old.items ++ printed_number number) }
{
    if number >= 10 {
        out.push(b'0' + number / 10)?;
    }
    out.push(b'0' + number % 10)?;
    Ok(())
}
