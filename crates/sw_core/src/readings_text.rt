//! Readings that are printed only where a reader wants their text.

ghost use Rattle.std.specs.Prelude.{◌≡◌, ◌++◌, IfOk, OnOk, map};
ghost use Rattle.std.specs.List.{join_with_byte};
ghost use Rattle.sw_base.specs.Reading.{reading_text};

use crate::text::separate;
use std::alloc::{AllocError, Global};
use std::marker::Model;
use sw_base::{Reading, Sequence, print_reading};

/// How many bytes a reading of volts has at least: a digit, the point and nine decimals.
const LEAST_VOLTS: usize = 11;

/// How many an overload has.
const OVERLOAD: usize = 7;

/// A copy of readings. Their text is made outside the mainframe, so that no other session waits for it. Contracts see
/// the readings.
#[derive(Debug, Drop)]
pub struct ReadingsText {
    alloc: Global,
    readings: Sequence<Reading>,
}

impl Model for ReadingsText {
    ghost use Rattle.std.specs.Prelude.{List};
    ghost use Rattle.sw_base.specs.declared.reading.Reading.{Reading as Shown};

    ghost Value = { List Shown };

    ghost view = { λ r. r.readings };
}

impl ReadingsText {
    /// A copy of these readings.
    pub fn of(alloc: Global, readings: &[Reading]) -> Result<Self, AllocError>
        ensures { IfOk result (λ copy. copy ≡ readings.now) }
    {
        let mut copy = Vec::with_capacity(alloc, readings.len())?;
        copy.extend_from_slice(readings)?;
        Ok(ReadingsText {
            alloc,
            readings: Sequence::new(copy),
        })
    }

    /// How many bytes their text has.
    pub fn length(&self) -> usize {
        let readings = self.readings.as_slice();
        let commas = readings.len().saturating_sub(1);
        readings.iter().fold(
            commas,
            |sum, reading| sum.saturating_add(length_of(*reading)),
        )
    }

    /// The readings, joined by commas.
    pub fn text(&self) -> Result<Sequence<u8>, AllocError>
        ensures { IfOk result (λ text. text ≡ join_with_byte 44 (map reading_text self.now)) }
    {
        all_readings(self.alloc, self.length(), self.readings.as_slice())
    }
}

/// The readings, joined by commas, in a text with this much room at first.
#[tactic(auto, using(crate::proofs::RowsLemmas::reading_some))]
fn all_readings(
    alloc: Global,
    room: usize,
    readings: &[Reading],
) -> Result<Sequence<u8>, AllocError>
    ensures { IfOk result (λ text. text ≡ join_with_byte 44 (map reading_text readings.now)) }
{
    let mut text = Vec::with_capacity(alloc, room)?;
    for reading in readings {
        separate(&mut text)?;
        add_reading(&mut text, *reading)?;
    }
    Ok(Sequence::new(text))
}

/// How many bytes the text of a reading has.
fn length_of(reading: Reading) -> usize {
    match reading {
        Reading::Volts(nanovolts) => {
            let sign = usize::from(nanovolts < 0);
            let digits = nanovolts.unsigned_abs().checked_ilog10().unwrap_or(0) as usize;
            sign + LEAST_VOLTS.max(digits + 2)
        }
        Reading::Overload => OVERLOAD,
    }
}

/// Adds a reading.
fn add_reading(text: &mut Vec<u8>, reading: Reading) -> Result<(), AllocError>
    ensures { OnOk result (text.new.items ≡ text.old.items ++ reading_text reading) }
{
    let mut buffer = [0; 32];
    let end = print_reading(reading, &mut buffer);
    text.extend_from_slice(&buffer[..end])?;
    Ok(())
}
