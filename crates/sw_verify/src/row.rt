//! A row of flags, one for each channel's place, that is cheap to clear, to keep and to compare.

ghost use Rattle.std.specs.Prelude.{◌≡◌, ◌<◌, ◌↔◌, false, true, IsTrue, IfOk, replicate, slice_index_or, slice_set};
ghost use Rattle.sw_base.specs.Limits.{channel_places};
ghost use Rattle.sw_verify.specs.Rows.{flag_at};

use std::alloc::{AllocError, Global};
use std::marker::Model;
use sw_base::CHANNEL_PLACES;

/// How many words have a bit for each place.
const WORDS: usize = (CHANNEL_PLACES + 63) / 64;

/// A row of flags as bits, and how many of them are set. Contracts see the flags.
#[derive(Drop)]
pub struct Row {
    words: [u64; WORDS],
    count: usize,
}

impl Model for Row {
    ghost use Rattle.std.specs.Prelude.{Bool, List};
    ghost use Rattle.sw_verify.specs.Rows.{flags_of, IsRow};

    ghost Value = { List Bool };

    ghost view = { λ r. flags_of r.words };

    ghost invariant = { λ r. IsRow r.words r.count };
}

/// A row as it was at one moment. Where no flag was set, nothing is kept. Contracts see the flags.
#[derive(Drop)]
pub struct KeptRow {
    words: Vec<u64>,
}

impl Model for KeptRow {
    ghost use Rattle.std.specs.Prelude.{Bool, List};
    ghost use Rattle.sw_verify.specs.Rows.{flags_of, IsKept};

    ghost Value = { List Bool };

    ghost view = { λ k. flags_of k.words.items };

    ghost invariant = { λ k. IsKept k.words.items };
}

impl Row {
    /// No flag is set.
    #[inline(always)]
    pub fn new() -> Row
        ensures { result ≡ replicate channel_places false }
    {
        Row {
            words: [0; WORDS],
            count: 0,
        }
    }

    /// Whether the flag at this place is set.
    #[inline(always)]
    pub fn has(&self, at: usize) -> bool
        requires { at < channel_places }
        ensures { result ≡ slice_index_or self.now at false }
    {
        has_bit(&self.words, at)
    }

    /// Sets the flag at this place.
    #[inline(always)]
    pub fn set(&mut self, at: usize)
        requires { at < channel_places }
        ensures { self.new ≡ slice_set self.old at true }
    {
        if !has_bit(&self.words, at) {
            self.words[at / 64] |= 1 << (at % 64);
            self.count += 1;
        }
    }

    /// Clears the flag at this place.
    #[inline(always)]
    pub fn clear(&mut self, at: usize)
        requires { at < channel_places }
        ensures { self.new ≡ slice_set self.old at false }
    {
        if has_bit(&self.words, at) {
            self.words[at / 64] &= !(1 << (at % 64));
            self.count -= 1;
        }
    }

    /// Whether no flag is set.
    #[inline(always)]
    pub fn is_clear(&self) -> bool
        ensures { IsTrue result ↔ (self.now ≡ replicate channel_places false) }
    {
        self.count == 0
    }

    /// The row as it is now. Where a flag is set, it takes memory.
    #[inline(always)]
    pub fn keep(&self, alloc: Global) -> Result<KeptRow, AllocError>
        ensures { IfOk result (λ kept. kept ≡ self.now) }
    {
        if self.is_clear() {
            return Ok(KeptRow {
                words: Vec::new(alloc),
            });
        }
        Ok(KeptRow {
            words: self.words.to_vec(alloc)?,
        })
    }

    /// Whether the row is as it was when this was kept.
    #[inline(always)]
    pub fn is_as(&self, kept: &KeptRow) -> bool
        ensures { IsTrue result ↔ (self.now ≡ kept.now) }
    {
        if kept.words.is_empty() {
            return self.is_clear();
        }
        self.words.as_slice() == kept.words.as_slice()
    }
}

/// Whether the bit of this place is set.
#[inline(always)]
fn has_bit(words: &[u64; WORDS], at: usize) -> bool
    requires { at < channel_places }
    ensures { result ≡ flag_at words.now at }
{
    (words[at / 64] >> (at % 64)) & 1 == 1
}
