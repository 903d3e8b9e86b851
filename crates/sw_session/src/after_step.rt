//! How a channel continues.

ghost use Rattle.std.specs.Prelude.{◌≡◌};
ghost use Rattle.sw_session.specs.Serve.{Judges, after_step, goes_on};

use crate::fault::ServeFault;
use sw_channels::Step;

/// How a channel continues.
#[derive(Clone, Copy, Debug, PartialEq, Eq)]
pub enum AfterStep {
    Goes,
    /// It is over.
    Ends,
    /// A fatal error with this code was sent.
    Fatal(u8),
    /// A fatal error was sent, of a wrong prologue.
    Malformed,
}

/// Whether another message may follow.
pub fn goes_on(processed: Result<AfterStep, ServeFault>) -> bool
    ensures { result ≡ goes_on processed }
{
    matches!(processed, Ok(AfterStep::Goes))
}

/// How the channel continues after a step. `is_wrong` says that the wire was wrong.
pub fn after_step(is_wrong: bool, step: &Step) -> AfterStep
    ensures after { result ≡ after_step is_wrong step.now }
    ensures judged { Judges is_wrong result }
{
    if is_wrong {
        return AfterStep::Malformed;
    }
    if !step.ends() {
        return AfterStep::Goes;
    }
    match step.fatal_code() {
        Some(code) => AfterStep::Fatal(code),
        None => AfterStep::Ends,
    }
}
