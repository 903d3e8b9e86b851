//! Positions: the channels that a scan closes together for one reading.

ghost use Rattle.std.specs.Prelude.{◌≡◌, ◌↔◌, ◌<◌, ◌++◌, ◌∷◌, [], length, false, IsOk, IfOk, IfErr, if◌then◌else◌};
ghost use Rattle.std.specs.List.{slice_get};
ghost use Rattle.sw_base.specs.declared.error.ScpiError.TheVariants.{DataOutOfRange, TooMuchData};
ghost use Rattle.sw_channel.specs.Positions.{IsPosition, most_joined, is_among, alone};

use std::marker::Model;
use sw_base::{Chan, ScpiError};

/// How many channels a position has at most.
pub const MOST: usize = 4;

/// One to four different channels, in the order in which a scan closes and opens them.
///
/// Contracts see the list of them.
#[derive(Clone, Copy, Debug, PartialEq, Eq)]
pub struct Position {
    /// The channels, and then the first one again and again.
    chans: [Chan; MOST],
    len: usize,
}

impl Model for Position {
    ghost use Rattle.sw_base.specs.Layout.{Channel};
    ghost use Rattle.std.specs.Prelude.{List};

    ghost Value = { List Channel };

    ghost use Rattle.sw_channel.specs.PositionSeen.{position_of, HoldsPosition, inside_of, inside_back};

    ghost view = { position_of };

    ghost invariant = { HoldsPosition };

    ghost inverse = { inside_of };

    ghost inverse_ok = { inside_back };
}

impl Position {
    /// The position of one channel.
    pub fn new(chan: Chan) -> Position
        ensures { result ≡ alone chan }
    {
        Position {
            chans: [chan; MOST],
            len: 1,
        }
    }

    /// How many channels it has.
    pub fn len(&self) -> usize
        ensures len { result ≡ length self.now }
        ensures range { IsPosition self.now }
    {
        self.len
    }

    /// Its i-th channel, from 0.
    pub fn chan(&self, i: usize) -> Option<Chan>
        ensures { result ≡ slice_get self.now i }
    {
        if i < self.len {
            Some(self.chans[i])
        } else {
            None
        }
    }

    /// Its channels, in order.
    pub fn as_slice(&self) -> &[Chan]
        ensures chans { result.now ≡ self.now }
        ensures range { IsPosition self.now }
    {
        &self.chans[..self.len]
    }

    /// Whether the channel is among them.
    pub fn contains(&self, chan: Chan) -> bool
        ensures { result ≡ is_among self.now chan }
    {
        self.as_slice().iter().any(|c| chan == *c)
    }

    /// The position with one more channel; -222 for one that it has, -223 where it has four.
    pub fn joined(self, chan: Chan) -> Result<Position, ScpiError>
        ensures joined { IfOk result (λ p. p ≡ self ++ chan ∷ []) }
        ensures taken { IsOk result ↔ (is_among self chan ≡ false) × (length self < most_joined) }
        ensures refused { IfErr result (λ e. e ≡ (if is_among self chan then DataOutOfRange else TooMuchData)) }
    {
        if self.contains(chan) {
            return Err(ScpiError::DataOutOfRange);
        }
        if self.len() >= MOST {
            return Err(ScpiError::TooMuchData);
        }
        let mut chans = self.chans;
        chans[self.len] = chan;
        Ok(Position {
            chans,
            len: self.len + 1,
        })
    }
}
