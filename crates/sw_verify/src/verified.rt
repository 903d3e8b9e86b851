//! Scan code that was verified.

ghost use Rattle.std.specs.Prelude.{◌≡◌, ℕ, true, IfOk, IfErr};
ghost use Rattle.sw_base.specs.Layout.{has_meter};
ghost use Rattle.sw_verify.specs.Channels.{is_among};
ghost use Rattle.sw_verify.specs.declared.refusal.Refusal.TheVariants.{NoMemory};
ghost use Rattle.sw_verify.specs.Judged.{IsVerified, HasCounts};
ghost use Rattle.sw_verify.specs.Denied.{IsInOrder, IsDenied, IsPlanned};

use crate::layout::Layout;
use crate::look::look;
use crate::nest::nesting;
use crate::refusal::Refusal;
use crate::tally::tally;
use std::alloc::Global;
use std::marker::Model;
use sw_base::Chan;
use sw_code::Code;

/// A code that was verified, with what its whole run awaits. There is no other way to make one than `verify`.
#[derive(Debug, Drop)]
pub struct Verified {
    code: Code,
    bound: u128,
    readings: u128,
}

impl Model for Verified {
    ghost use Rattle.sw_verify.specs.Judged.{Judged};

    ghost Value = { Judged };

    ghost use Rattle.sw_verify.specs.VerifiedSeen.{judged_of, HoldsCounts};

    ghost view = { judged_of };

    ghost invariant = { HoldsCounts };
}

impl Verified {
    /// How many things it awaits, loops counted as often as they are done.
    pub fn bound(&self) -> u128
        ensures bound { result ≡ self.now.bound }
        ensures counts { HasCounts self.now }
    {
        self.bound
    }

    /// How many readings it makes.
    pub fn readings(&self) -> u128
        ensures readings { result ≡ self.now.readings }
        ensures counts { HasCounts self.now }
    {
        self.readings
    }

    /// The code.
    pub fn code(&self) -> &Code
        ensures code { result.now ≡ self.now.code }
        ensures counts { HasCounts self.now }
    {
        &self.code
    }

    /// The code, as a value.
    pub fn into_code(self) -> Code
        ensures code { result ≡ self.code }
        ensures counts { HasCounts self }
    {
        let Verified { code, .. } = self;
        code
    }
}

/// The code with its counts, where a scan may do it with these cards, these channels closed and room for this many
/// readings; else the first refusal that applies.
///
/// It visits each step once, however often the loops make it.
pub fn verify(
    alloc: Global,
    code: Code,
    layout: &Layout,
    closed: &[Chan],
    points: u32,
) -> Result<Verified, Refusal>
    ensures sound { IfOk result (λ v. IsVerified layout.now (is_among closed.now) points code v) }
    ensures order { IfOk result (λ v. IsInOrder layout.now (is_among closed.now) code) }
    ensures refused { IfErr result (λ r. IsDenied layout.now (is_among closed.now) points code r) }
    // For settings that pass the check, only a lack of memory refuses their code.
    ensures complete { IfErr result (λ r. IsPlanned layout.now (is_among closed.now) points code → r ≡ NoMemory) }
{
    in_order(alloc, &code, layout, closed)?;
    let Ok(counts) = tally(alloc, code.steps()) else {
        return Err(Refusal::NoMemory);
    };
    if counts.readings > u128::from(points) {
        return Err(Refusal::TooManyReadings);
    }
    Ok(Verified {
        code,
        bound: counts.bound,
        readings: counts.readings,
    })
}

/// Whether its loops are nested, each step may be done and its meter is there; else the first refusal that applies.
fn in_order(alloc: Global, code: &Code, layout: &Layout, closed: &[Chan]) -> Result<(), Refusal>
    ensures order { IfOk result (λ u. IsInOrder layout.now (is_among closed.now) code.now) }
    ensures meter { IfOk result (λ u. has_meter layout.now code.now.meter ≡ true) }
    ensures refused { IfErr result (λ r. (room : ℕ) → IsDenied layout.now (is_among closed.now) room code.now r) }
{
    match nesting(alloc, code.steps()) {
        Err(_) => return Err(Refusal::NoMemory),
        Ok(Some(refusal)) => return Err(refusal),
        Ok(None) => {}
    }
    match look(alloc, layout, closed, code.steps()) {
        Err(_) => return Err(Refusal::NoMemory),
        Ok(Some(refusal)) => return Err(refusal),
        Ok(None) => {}
    }
    if !layout.has_meter(code.meter()) {
        return Err(Refusal::NoMeter);
    }
    Ok(())
}
