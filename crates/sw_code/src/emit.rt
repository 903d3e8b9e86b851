//! From settings to scan code.

ghost use Rattle.std.specs.Prelude.{◌≡◌, ◌+◌, ◌*◌, ◌<◌, ◌≤◌, [], ◌∷◌, ◌++◌, length, map, IfOk, IfErr, OnOk, vec_len, vec_capacity};
ghost use Rattle.sw_base.specs.declared.error.ScpiError.TheVariants.{OutOfMemory};
ghost use Rattle.sw_trigger.specs.Agenda.{agenda, head_of, pause_of, pass_of, passes, Awaits};
ghost use Rattle.sw_trigger.specs.Settings.{layer_of, named};
ghost use Rattle.sw_trigger.specs.Settings as settled;
ghost use Rattle.sw_code.specs.declared.code.Step.TheVariants as step;
ghost use Rattle.sw_code.specs.Code.{Unfolds};
ghost use Rattle.sw_code.specs.Range.{IsProgramInRange};
ghost use Rattle.sw_code.specs.Tree.{flatten};
ghost use Rattle.sw_code.specs.Compiled.{steps_of, passes_tree, arms_tree, compiled};

use crate::code::{Code, Step};
use std::alloc::{AllocError, Global};
use sw_base::{ARM_LAYERS, ARMS, ArmLayer, LayerName, ScpiError, Source};
use sw_trigger::{Layer, Settings};

/// The steps that the code has room for at first, so that a short code takes memory once. They are less than the KiB
/// below which an allocator reuses freed memory at once.
const ROOM: usize = 40;

/// The code of a scan: one loop for each ARM layer, and one for whole rounds of the list. `OutOfMemory` comes where the
/// steps found no room, and no other error.
pub fn compile(alloc: Global, settings: &Settings) -> Result<Code, ScpiError>
    requires listed { 0 < length settings.now.list }
    ensures code { IfOk result (λ code. code ≡ compiled settings.now) }
    ensures unfolds { IfOk result (λ code. Unfolds code.steps (agenda settings.now)) }
    ensures refused { IfErr result (λ e. e ≡ OutOfMemory) }
{
    match all_steps(alloc, settings) {
        Ok(steps) => Ok(Code::new(settings.meter(), steps)),
        Err(_) => Err(ScpiError::OutOfMemory),
    }
}

#[inline(always)]
fn all_steps(alloc: Global, settings: &Settings) -> Result<Vec<Step>, AllocError>
    requires listed { 0 < length settings.now.list }
    ensures steps { IfOk result (λ steps. steps.items ≡ (compiled settings.now).steps) }
    ensures range { IfOk result (λ steps. IsProgramInRange (compiled settings.now)) }
    ensures unfolds { IfOk result (λ steps. Unfolds (compiled settings.now).steps (agenda settings.now)) }
{
    let mut steps = Vec::with_capacity(alloc, ROOM)?;
    put_arms(&mut steps, settings, &ARMS, 0)?;
    push(&mut steps, Step::Halt)?;
    Ok(steps)
}

/// Adds the turns of these ARM layers, each as a loop, on counters from this one on, and the passes inside.
fn put_arms(
    steps: &mut Vec<Step>,
    settings: &Settings,
    arms: &[ArmLayer],
    counter: u8,
) -> Result<(), AllocError>
    requires listed { 0 < length settings.now.list }
    requires short { length steps.old.items + 3 * length arms.now < 100 }
    requires counters { counter + length arms.now < 100 }
    ensures range { settled.IsInRange settings.now }
    ensures steps { OnOk result (steps.new.items ≡ steps.old.items
        ++ flatten (arms_tree counter (named settings.now arms.now) (passes_tree settings.now))
        (length steps.old.items)) }
{
    match arms {
        [] => put_rounds(steps, settings),
        [arm, inner @ ..] => {
            let start = begin_turns(steps, counter, LayerName::Arm(*arm), settings)?;
            put_arms(steps, settings, inner, counter + 1)?;
            push(steps, Step::Loop(counter, start))?;
            Ok(())
        }
    }
}

/// Begins the turns of an ARM layer, as a loop that counts with this counter, by what each turn awaits before the next
/// layer inwards. Answers the number of the step with which a turn begins.
#[inline(always)]
fn begin_turns(
    steps: &mut Vec<Step>,
    counter: u8,
    name: LayerName,
    settings: &Settings,
) -> Result<u16, AllocError>
    requires short { length steps.old.items < 100 }
    ensures steps { OnOk result (steps.new.items ≡ steps.old.items
        ++ (step.Set counter (layer_of settings.now name).count
        ∷ steps_of (map Awaits (head_of name (layer_of settings.now name))))) }
    ensures place { IfOk result (λ start. start ≡ length steps.old.items + 1) }
    ensures short { OnOk result (length steps.new.items ≤ length steps.old.items + 3) }
    ensures range { settled.IsInRange settings.now }
{
    let layer = settings.layer(name);
    push(steps, Step::Set(counter, layer.count))?;
    let start = steps.len() as u16;
    put_head(steps, name, layer)?;
    Ok(start)
}

/// Adds the passes of one turn of the inmost ARM layer: whole rounds of the list as a loop, then those left over.
fn put_rounds(steps: &mut Vec<Step>, settings: &Settings) -> Result<(), AllocError>
    requires listed { 0 < length settings.now.list }
    requires short { length steps.old.items < 100 }
    ensures range { settled.IsInRange settings.now }
    ensures steps { OnOk result (steps.new.items ≡ steps.old.items
        ++ flatten (passes_tree settings.now) (length steps.old.items)) }
{
    let count = settings.layer(LayerName::Trigger).count;
    let entries = settings.list().len() as u32;
    let rounds = count / entries;
    if rounds == 0 {
        return put_passes(steps, settings, count % entries);
    }
    let start = steps.len() as u16 + 1;
    push(steps, Step::Set(ARM_LAYERS, rounds))?;
    put_passes(steps, settings, entries)?;
    push(steps, Step::Loop(ARM_LAYERS, start))?;
    put_passes(steps, settings, count % entries)
}

/// Adds the first passes.
fn put_passes(steps: &mut Vec<Step>, settings: &Settings, count: u32) -> Result<(), AllocError>
    requires listed { 0 < length settings.now.list }
    ensures { OnOk result (steps.new.items ≡ steps.old.items ++ steps_of (passes settings.now 0 count)) }
{
    for k in 0..count {
        put_pass(steps, settings, k)?;
    }
    Ok(())
}

#[inline(always)]
fn put_pass(steps: &mut Vec<Step>, settings: &Settings, k: u32) -> Result<(), AllocError>
    requires listed { 0 < length settings.now.list }
    ensures { OnOk result (steps.new.items ≡ steps.old.items ++ steps_of (pass_of settings.now k)) }
{
    let position = settings.position(k);
    put_head(
        steps,
        LayerName::Trigger,
        settings.layer(LayerName::Trigger),
    )?;
    push(steps, Step::Close(position))?;
    put_pause(steps, settings.settle_us())?;
    push(steps, Step::Read)?;
    push(steps, Step::Open(position))?;
    Ok(())
}

/// Adds a layer's wait and pause.
#[inline(always)]
fn put_head(steps: &mut Vec<Step>, name: LayerName, layer: Layer) -> Result<(), AllocError>
    ensures head { OnOk result (steps.new.items ≡ steps.old.items ++ steps_of (map Awaits (head_of name layer))) }
    ensures short { OnOk result (length steps.new.items ≤ length steps.old.items + 2) }
{
    match layer.source {
        Source::Immediate => {}
        Source::Timer => push(steps, Step::Timer(name, layer.timer_us))?,
        Source::Bus | Source::External | Source::Hold => push(steps, Step::Wait(name))?,
    }
    put_pause(steps, layer.delay_us)
}

/// Adds a pause of `micros` microseconds, unless that is 0.
#[inline(always)]
fn put_pause(steps: &mut Vec<Step>, micros: u64) -> Result<(), AllocError>
    ensures pause { OnOk result (steps.new.items ≡ steps.old.items ++ steps_of (map Awaits (pause_of micros))) }
    ensures short { OnOk result (length steps.new.items ≤ length steps.old.items + 1) }
{
    if micros != 0 {
        push(steps, Step::Pause(micros))?;
    }
    Ok(())
}

/// Adds a step, without a call where there is room for it.
#[inline(always)]
fn push(steps: &mut Vec<Step>, step: Step) -> Result<(), AllocError>
    ensures items { OnOk result (steps.new.items ≡ steps.old.items ++ step ∷ []) }
{
    if steps.len() == steps.capacity() {
        make_room(steps)?;
    }
    steps.push_reserved(step);
    Ok(())
}

/// Makes room for one more step at least.
#[inline(never)]
fn make_room(steps: &mut Vec<Step>) -> Result<(), AllocError>
    ensures items { steps.new.items ≡ steps.old.items }
    ensures room { OnOk result (vec_len steps.new < vec_capacity steps.new) }
{
    steps.reserve(1)
}
