//! Programs of a scan.

ghost use Rattle.std.specs.Prelude.{◌≡◌, ◌↔◌, length, Err, IfOk, IsTrue};
ghost use Rattle.sw_trigger.specs.Counts.{awaiting, reads};
ghost use Rattle.sw_code.specs.Range.{IsProgramInRange};
ghost use Rattle.sw_verify.specs.Items.{items_of};
ghost use Rattle.sw_verify.specs.Runnable.{IsRunnable};
ghost use Rattle.sw_verify.specs.declared.program.ProgramFault.TheVariants.{NotRunnable};

use crate::nest::nesting;
use crate::pace::is_paced;
use crate::size::size;
use crate::tally::tally;
use std::alloc::{AllocError, Global};
use std::marker::Model;
use sw_code::Code;

/// Why a code is no program of a scan.
#[derive(Clone, Copy, Debug, PartialEq, Eq)]
pub enum ProgramFault {
    /// Its loops are not nested, or one does nothing, it awaits nothing, or its items can't be numbered.
    NotRunnable,
    /// Memory ran out.
    NoMemory,
}

/// A code that can be run wherever the cards allow it. There is no other way to make one than [`ScanProgram::judge`].
///
/// Contracts see its code.
#[derive(Debug, Drop)]
pub struct ScanProgram {
    code: Code,
    bound: u64,
    readings: u64,
}

impl Model for ScanProgram {
    ghost use Rattle.sw_code.specs.Range.{Program};

    ghost Value = { Program };

    ghost view = { λ p. p.code };

    ghost use Rattle.sw_verify.specs.ProgramKept.{IsScanProgram};

    ghost invariant = { IsScanProgram };
}

impl ScanProgram {
    /// The program of a code, where it can be run wherever the cards allow it. Where it can't, `NotRunnable` says so;
    /// memory may run out before that is known.
    #[tactic(auto, using(crate::proofs::ReadyLemmas::not_nested, crate::proofs::ReadyLemmas::not_paced, crate::proofs::ReadyLemmas::not_numbered, crate::proofs::ReadyLemmas::not_awaiting))]
    pub fn judge(alloc: Global, code: Code) -> Result<ScanProgram, ProgramFault>
        ensures program { IfOk result (λ p. p ≡ code) }
        ensures runnable { IfOk result (λ p. IsRunnable code) }
        ensures refused { result ≡ Err NotRunnable → IsRunnable code → ⊥ }
    {
        match nesting(alloc, code.steps()) {
            Err(_) => return Err(ProgramFault::NoMemory),
            Ok(Some(_)) => return Err(ProgramFault::NotRunnable),
            Ok(None) => {}
        }
        if !is_paced(code.steps()) {
            return Err(ProgramFault::NotRunnable);
        }
        let Ok(items) = size(alloc, code.steps()) else {
            return Err(ProgramFault::NoMemory);
        };
        let Some(_) = items else {
            return Err(ProgramFault::NotRunnable);
        };
        let Ok(counts) = tally(alloc, code.steps()) else {
            return Err(ProgramFault::NoMemory);
        };
        if counts.bound == 0 {
            return Err(ProgramFault::NotRunnable);
        }
        Ok(ScanProgram {
            code,
            bound: counts.bound as u64,
            readings: counts.readings as u64,
        })
    }

    /// Its code.
    pub fn code(&self) -> &Code
        ensures code { result.now ≡ self.now }
        ensures runnable { IsRunnable self.now }
        ensures range { IsProgramInRange self.now }
    {
        &self.code
    }

    /// A copy of the program.
    pub fn try_copy(&self, alloc: Global) -> Result<ScanProgram, AllocError>
        ensures { IfOk result (λ copy. copy ≡ self.now) }
    {
        let code = self.code.try_copy(alloc)?;
        Ok(ScanProgram {
            code,
            bound: self.bound,
            readings: self.readings,
        })
    }

    /// Whether the two are of one code.
    pub fn is_same(&self, other: &ScanProgram) -> bool
        ensures { IsTrue result ↔ (self.now ≡ other.now) }
    {
        self.code.is_same(&other.code)
    }

    /// How many things it awaits, loops counted as often as they are done.
    pub fn bound(&self) -> u64
        ensures { result ≡ length (awaiting (items_of self.now.steps)) }
    {
        self.bound
    }

    /// How many readings it makes, loops counted likewise.
    pub fn readings(&self) -> u64
        ensures { result ≡ reads (items_of self.now.steps) }
    {
        self.readings
    }
}
