//! Scan code and its steps.

ghost use Rattle.std.specs.Prelude.{◌≡◌, ◌≤◌, ◌↔◌, length, List, IfOk, IsTrue};
ghost use Rattle.std.specs.List.{AllByRecursion};
ghost use Rattle.sw_base.specs.Limits.{most_slots};
ghost use Rattle.sw_code.specs.Range.{IsStep, IsProgramInRange, most_steps};
ghost use Rattle.sw_code.specs.Code.{Unfolds};
ghost use Rattle.sw_trigger.specs.Agenda.{Item};
ghost use Rattle.sw_code.specs.declared.code.Step.{Step};

use std::alloc::{AllocError, Global};
use std::marker::Model;
use sw_base::LayerName;
use sw_channel::Position;

/// How many steps a code has at most. They are numbered from 0.
pub const STEPS: u16 = 8_192;

/// One step of a code.
#[derive(Clone, Copy, Debug, PartialEq, Eq)]
pub enum Step {
    /// The counter, below `COUNTERS`, becomes the number, 1 to `TRIGGER_COUNT`.
    Set(u8, u32),
    /// A trigger for the layer is awaited.
    Wait(LayerName),
    /// The scan awaits the end of the layer's timer, of this many microseconds, 1 to an hour.
    Timer(LayerName, u64),
    /// The scan awaits the end of a pause of this many microseconds, 1 to an hour.
    Pause(u64),
    /// The channels are closed, in order.
    Close(Position),
    /// A reading of the meter is awaited.
    Read,
    /// The channels are opened, in order.
    Open(Position),
    /// The counter goes down by one, and where it isn't 0 then, the step of that number is next, below `STEPS`.
    Loop(u8, u16),
    /// The end.
    Halt,
}

/// A code: the slot of its meter, 1 to `SLOTS`, and at most `STEPS` steps, which are numbered from 0.
///
/// Contracts see a plain record.
#[derive(Debug, Drop)]
pub struct Code {
    meter: u8,
    steps: Vec<Step>,
}

impl Model for Code {
    ghost use Rattle.sw_code.specs.Range.{Program};

    ghost Value = { Program };

    ghost use Rattle.sw_code.specs.Seen.{program_of, HoldsProgramRange};

    ghost view = { program_of };

    ghost invariant = { HoldsProgramRange };
}

impl Code {
    /// The code of these steps.
    pub fn new(meter: u8, steps: Vec<Step>) -> Code
        requires meter { (1 ≤ meter) × (meter ≤ most_slots) }
        requires length { length steps.items ≤ most_steps }
        requires steps { AllByRecursion IsStep steps.items }
        ensures { result ≡ record { meter = meter; steps = steps.items } }
    {
        Code { meter, steps }
    }

    /// The slot of its meter.
    pub fn meter(&self) -> u8
        ensures meter { result ≡ self.now.meter }
        ensures range { IsProgramInRange self.now }
    {
        self.meter
    }

    /// A copy of the code.
    pub fn try_copy(&self, alloc: Global) -> Result<Code, AllocError>
        ensures { IfOk result (λ copy. copy ≡ self.now) }
    {
        let steps = self.steps.as_slice().to_vec(alloc)?;
        Ok(Code {
            meter: self.meter,
            steps,
        })
    }

    /// Whether the two have the same meter and the same steps.
    pub fn is_same(&self, other: &Code) -> bool
        ensures { IsTrue result ↔ (self.now ≡ other.now) }
    {
        if self.meter != other.meter || self.steps.len() != other.steps.len() {
            return false;
        }
        for i in 0..self.steps.len() {
            if !is_same_step(&self.steps[i], &other.steps[i]) {
                return false;
            }
        }
        true
    }

    /// Its steps, from number 0 on.
    pub fn steps(&self) -> &[Step]
        ensures steps { result.now ≡ self.now.steps }
        ensures range { IsProgramInRange self.now }
    {
        self.steps.as_slice()
    }
}

/// Whether the two steps are one.
fn is_same_step(a: &Step, b: &Step) -> bool
    ensures { IsTrue result ↔ (a.now ≡ b.now) }
{
    match a {
        Step::Set(k, n) => matches!(b, Step::Set(j, m) if k == j && n == m),
        Step::Wait(name) => matches!(b, Step::Wait(other) if name == other),
        Step::Timer(name, n) => matches!(b, Step::Timer(other, m) if name == other && n == m),
        Step::Pause(n) => matches!(b, Step::Pause(m) if n == m),
        Step::Close(p) => matches!(b, Step::Close(q) if is_same_position(p, q)),
        Step::Read => matches!(b, Step::Read),
        Step::Open(p) => matches!(b, Step::Open(q) if is_same_position(p, q)),
        Step::Loop(k, to) => matches!(b, Step::Loop(j, at) if k == j && to == at),
        Step::Halt => matches!(b, Step::Halt),
    }
}

/// Whether the two positions have the same channels in the same order.
fn is_same_position(a: &Position, b: &Position) -> bool
    ensures { IsTrue result ↔ (a.now ≡ b.now) }
{
    a == b
}

/// A law: steps unfold to one list of items, or to none.
pub fn one_unfolding()
    ensures { (steps : List Step) (a b : List Item) → Unfolds steps a → Unfolds steps b → a ≡ b }
{}
