//! A scan that may begin, with its code.

ghost use Rattle.std.specs.Prelude.{◌≡◌, true, IfOk, IfErr};
ghost use Rattle.std.specs.List.{list_all};
ghost use Rattle.sw_base.specs.Layout.{has_meter};
ghost use Rattle.sw_trigger.specs.Agenda as settled;
ghost use Rattle.sw_code.specs.Code.{Unfolds};
ghost use Rattle.sw_code.specs.Compiled.{compiled};
ghost use Rattle.sw_verify.specs.declared.refusal.Refusal.TheVariants.{NoMemory};
ghost use Rattle.sw_verify.specs.Channels.{is_among};
ghost use Rattle.sw_verify.specs.Items.{items_of};
ghost use Rattle.sw_verify.specs.Sound.{IsSound};
ghost use Rattle.sw_verify.specs.Check.{IsReadyBySettings};
ghost use Rattle.sw_verify.specs.Setup.{agenda, code_of, course_of};
ghost use Rattle.sw_verify.specs.Ready.{IsReady, IsReadyByProgram, IsRefusedScan, RefusesSettings, RefusesProgram};
ghost use Rattle.sw_verify.specs.Ready.{has_source};

use crate::course::Course;
use crate::program::ScanProgram;
use crate::ready::check;
use crate::refusal::Refusal;
use crate::snapshot::Snapshot;
use crate::sources::Sources;
use crate::verified::{Verified, verify};
use std::alloc::Global;
use std::marker::Model;
use sw_base::{Boxed, Source};
use sw_code::{Code, Step, compile};
use sw_trigger::Settings;

/// A snapshot that passed the check, and the code of its scan. There is no other way to make one.
///
/// Contracts see the snapshot, which the code follows from.
#[derive(Debug, Drop)]
pub struct Plan {
    snapshot: Boxed<Snapshot>,
    verified: Boxed<Verified>,
}

impl Model for Plan {
    ghost use Rattle.sw_verify.specs.declared.snapshot.Snapshot.{Snapshot};

    ghost Value = { Snapshot };

    ghost use Rattle.sw_verify.specs.PlanSeen.{IsPlan};

    ghost view = { λ p. p.snapshot };

    ghost invariant = { IsPlan };
}

impl Plan {
    /// The plan of a snapshot that passes the check, by code that was verified; else the first refusal that applies, or
    /// `NoMemory`.
    pub fn make(alloc: Global, snapshot: Boxed<Snapshot>) -> Result<Plan, Refusal>
        ensures ready { IfOk result (λ p. IsReady snapshot) }
        ensures plan { IfOk result (λ p. p ≡ snapshot) }
        ensures refused { IfErr result (λ r. IsRefusedScan r snapshot) }
    {
        match boxed_code(alloc, snapshot.get()) {
            Ok(verified) => Ok(Plan { snapshot, verified }),
            Err(refusal) => {
                drop(snapshot);
                Err(refusal)
            }
        }
    }

    /// What the scan begins from.
    pub fn snapshot(&self) -> &Snapshot
        ensures snapshot { result.now ≡ self.now }
        ensures ready { IsReady self.now }
    {
        self.snapshot.get()
    }

    /// The code of the scan.
    pub fn code(&self) -> &Code
        ensures code { result.now ≡ code_of self.now.settings }
        ensures unfolds { Unfolds result.now.steps (agenda self.now.settings) }
        ensures ready { IsReady self.now }
    {
        self.verified.get().code()
    }

    /// What the scan does: the agenda of the settings.
    pub fn into_course(self) -> Course
        ensures course { result ≡ course_of self.settings }
        ensures measured { has_meter self.layout result.meter ≡ true }
        ensures sound { IsSound self.layout (is_among self.closed) result.points result.items }
        ensures ready { IsReady self }
    {
        let Plan { snapshot, verified } = self;
        let settings = &snapshot.get().settings;
        Course {
            verified: verified.into_inner(),
            sources: Sources::new(&settings.scan),
            points: settings.scan.points(),
        }
    }
}

/// The code of a snapshot, by its settings or its program.
fn verified_code(alloc: Global, snapshot: &Snapshot) -> Result<Verified, Refusal>
    ensures ready { IfOk result (λ v. IsReady snapshot.now) }
    ensures code { IfOk result (λ v. v.code ≡ code_of snapshot.now.settings) }
    ensures unfolds { IfOk result (λ v. Unfolds v.code.steps (agenda snapshot.now.settings)) }
    ensures refused { IfErr result (λ r. IsRefusedScan r snapshot.now) }
{
    match snapshot.settings.program.running() {
        Some(program) => program_code(alloc, snapshot, program),
        None => settings_code(alloc, snapshot),
    }
}

/// The same in a box.
fn boxed_code(alloc: Global, snapshot: &Snapshot) -> Result<Boxed<Verified>, Refusal>
    ensures ready { IfOk result (λ v. IsReady snapshot.now) }
    ensures code { IfOk result (λ v. v.code ≡ code_of snapshot.now.settings) }
    ensures unfolds { IfOk result (λ v. Unfolds v.code.steps (agenda snapshot.now.settings)) }
    ensures refused { IfErr result (λ r. IsRefusedScan r snapshot.now) }
{
    let verified = verified_code(alloc, snapshot)?;
    match Boxed::new(alloc, verified) {
        Ok(boxed) => Ok(boxed),
        Err(_) => Err(Refusal::NoMemory),
    }
}

/// The code of a program, where each of its steps may be done here.
fn program_code(
    alloc: Global,
    snapshot: &Snapshot,
    program: &ScanProgram,
) -> Result<Verified, Refusal>
    ensures ready { IfOk result (λ v. IsReadyByProgram snapshot.now program.now) }
    ensures code { IfOk result (λ v. v.code ≡ program.now) }
    ensures unfolds { IfOk result (λ v. Unfolds v.code.steps (items_of program.now.steps)) }
    ensures refused { IfErr result (λ r. RefusesProgram r snapshot.now program.now) }
{
    let Ok(code) = program.code().try_copy(alloc) else {
        return Err(Refusal::NoMemory);
    };
    let closed = snapshot.closed.as_slice();
    let settings = &snapshot.settings.scan;
    match verify(alloc, code, &snapshot.layout, closed, settings.points()) {
        Err(refusal) => Err(refusal),
        Ok(_) if !are_sourced(settings, program.code().steps()) => Err(Refusal::NoSource),
        Ok(verified) => Ok(verified),
    }
}

/// Whether what each of the steps awaits can come.
fn are_sourced(settings: &Settings, steps: &[Step]) -> bool
    ensures { result ≡ list_all (has_source settings.now) steps.now }
{
    steps.iter().all(|step| has_source(settings, step))
}

/// Whether what the step awaits can come: with IMMediate a layer awaits nothing.
fn has_source(settings: &Settings, step: &Step) -> bool
    ensures { result ≡ has_source settings.now step.now }
{
    match step {
        Step::Wait(layer) => settings.layer(*layer).source != Source::Immediate,
        _ => true,
    }
}

/// The code of the settings, or the first refusal of the check.
fn settings_code(alloc: Global, snapshot: &Snapshot) -> Result<Verified, Refusal>
    ensures ready { IfOk result (λ v. IsReadyBySettings snapshot.now) }
    ensures code { IfOk result (λ v. v.code ≡ compiled snapshot.now.settings.scan) }
    ensures unfolds { IfOk result (λ v. Unfolds v.code.steps (settled.agenda snapshot.now.settings.scan)) }
    ensures refused { IfErr result (λ r. RefusesSettings r snapshot.now) }
{
    match compiled_code(alloc, snapshot) {
        Ok(verified) => Ok(verified),
        Err(refusal) => Err(first_refusal(snapshot, refusal)),
    }
}

/// The code of the settings, which pass the check where it is verified. Where the scan may begin, the verifier refuses
/// none but for lack of memory.
fn compiled_code(alloc: Global, snapshot: &Snapshot) -> Result<Verified, Refusal>
    ensures ready { IfOk result (λ v. IsReadyBySettings snapshot.now) }
    ensures code { IfOk result (λ v. v.code ≡ compiled snapshot.now.settings.scan) }
    ensures unfolds { IfOk result (λ v. Unfolds v.code.steps (settled.agenda snapshot.now.settings.scan)) }
    ensures refused { IfErr result (λ r. IsReadyBySettings snapshot.now → r ≡ NoMemory) }
{
    let settings = &snapshot.settings.scan;
    if settings.list().is_empty() {
        return Err(Refusal::EmptyList);
    }
    let Ok(code) = compile(alloc, settings) else {
        return Err(Refusal::NoMemory);
    };
    let closed = snapshot.closed.as_slice();
    verify(alloc, code, &snapshot.layout, closed, settings.points())
}

/// The first refusal of the settings that applies, or this one where they pass the check.
fn first_refusal(snapshot: &Snapshot, refusal: Refusal) -> Refusal
    requires memory { IsReadyBySettings snapshot.now → refusal ≡ NoMemory }
    ensures { RefusesSettings result snapshot.now }
{
    match check(snapshot) {
        Err(first) => first,
        Ok(()) => refusal,
    }
}
