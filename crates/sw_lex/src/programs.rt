//! Programs of a scan as data: a block that holds a listing.

ghost use Rattle.std.specs.Prelude.{◌≡◌, ◌⊎◌, IfOk, IfErr};
ghost use Rattle.sw_base.specs.declared.error.ScpiError.TheVariants.{ProgramSyntaxError, OutOfMemory};
ghost use Rattle.sw_verify.specs.Runnable.{IsRunnable};
ghost use Rattle.sw_lex.specs.Programs.{ReadsProgram, ReadsListing, fault_error};

use crate::elements::block_bytes;
use std::alloc::Global;
use sw_base::{Boxed, ScpiError};
use sw_code::{Code, ListFault, read_listing};
use sw_verify::{ProgramFault, ScanProgram};

/// The program that the block of a text lists.
pub fn program(alloc: Global, text: &[u8]) -> Result<Boxed<ScanProgram>, ScpiError>
    ensures { ReadsProgram text.now result }
{
    match block_bytes(text) {
        None => Err(ScpiError::InvalidBlockData),
        Some(bytes) => listed(alloc, bytes),
    }
}

/// The program that the bytes list.
fn listed(alloc: Global, bytes: &[u8]) -> Result<Boxed<ScanProgram>, ScpiError>
    ensures { ReadsListing bytes.now result }
{
    match read_listing(alloc, bytes) {
        Err(error) => Err(fault_error(error.kind)),
        Ok(code) => judged(alloc, code),
    }
}

/// The program of a code, where it can be run wherever the cards allow it.
fn judged(alloc: Global, code: Code) -> Result<Boxed<ScanProgram>, ScpiError>
    ensures program { IfOk result (λ p. (p ≡ code) × IsRunnable code) }
    ensures refused { IfErr result (λ e.
        (e ≡ OutOfMemory) ⊎ ((e ≡ ProgramSyntaxError) × (IsRunnable code → ⊥))) }
{
    match ScanProgram::judge(alloc, code) {
        Err(ProgramFault::NotRunnable) => Err(ScpiError::ProgramSyntaxError),
        Err(ProgramFault::NoMemory) => Err(ScpiError::OutOfMemory),
        Ok(program) => Ok(Boxed::new(alloc, program)?),
    }
}

/// The error of a text that is no listing: -285, -223 for a step too many, -225 for lack of memory.
fn fault_error(fault: ListFault) -> ScpiError
    ensures { result ≡ fault_error fault }
{
    match fault {
        ListFault::BadStep | ListFault::BadNumber => ScpiError::ProgramSyntaxError,
        ListFault::TooLong => ScpiError::TooMuchData,
        ListFault::NoMemory => ScpiError::OutOfMemory,
    }
}
