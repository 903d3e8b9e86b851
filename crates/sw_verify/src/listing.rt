//! The judgement of a listing: whether its scan may be done with the cards of a cage, and why not.

ghost use Rattle.std.specs.Prelude.{◌≡◌, ℕ, List, false, true, None, Ok, Err, IfOk, string_bytes};
ghost use Rattle.sw_base.specs.Layout.{Layout as Cards, Channel};
ghost use Rattle.sw_code.specs.Reading.{code_in};
ghost use Rattle.sw_verify.specs.Listings.{Says, accepted_line, refused_line, faulty_line};

use crate::explanation::explain;
use crate::layout::Layout;
use crate::refusal::Refusal;
use crate::verified::verify;
use std::alloc::{AllocError, Global};
use sw_base::Chan;
use sw_code::{Code, ListError, ListFault, explain_fault, read_listing};

/// The judgement of a listing.
#[derive(Debug, Drop)]
pub struct Judgement {
    /// Whether its scan may be done.
    pub accepted: bool,
    /// `ok bound B readings R`, `refused N Name` or `line L: Name`.
    pub line: String,
    /// The line of the first fault of a text that lists no code, from 1.
    pub fault_line: Option<u32>,
    /// Why its scan may not be done, in plain words, where there was memory for them.
    pub cause: Option<String>,
}

/// The judgement of the text of a listing, against these cards, while these channels are closed and there is room for
/// `points` readings. It looks at each step four times at most, however often the loops make it.
pub fn judge_listing(
    alloc: Global,
    text: &[u8],
    layout: &Layout,
    closed: &[Chan],
    points: u32,
) -> Result<Judgement, AllocError>
    ensures says { IfOk result (λ j. Says layout.now closed.now points j.accepted text.now (string_bytes j.line)) }
    ensures fine { IfOk result (λ j. j.accepted ≡ true → j.cause ≡ None) }
{
    match read_listing(alloc, text) {
        Ok(code) => judge_code(alloc, text, code, layout, closed, points),
        Err(error) => match error.kind {
            ListFault::NoMemory => Err(AllocError),
            _ => faulty(alloc, text, error),
        },
    }
}

/// The judgement of a text that lists no code.
fn faulty(alloc: Global, text: &[u8], error: ListError) -> Result<Judgement, AllocError>
    requires listed { code_in text.now ≡ Err error }
    ensures says { (cards : Cards) (closed : List Channel) (points : ℕ) → IfOk result
        (λ j. Says cards closed points j.accepted text.now (string_bytes j.line)) }
    ensures accepted { IfOk result (λ j. j.accepted ≡ false) }
{
    let line = faulty_line(alloc, error)?;
    Ok(Judgement {
        accepted: false,
        line,
        fault_line: Some(error.line),
        cause: explain_fault(alloc, text, error),
    })
}

/// The judgement of a text that lists this code.
fn judge_code(
    alloc: Global,
    text: &[u8],
    code: Code,
    layout: &Layout,
    closed: &[Chan],
    points: u32,
) -> Result<Judgement, AllocError>
    requires listed { code_in text.now ≡ Ok code }
    ensures says { IfOk result (λ j. Says layout.now closed.now points j.accepted text.now (string_bytes j.line)) }
    ensures fine { IfOk result (λ j. j.accepted ≡ true → j.cause ≡ None) }
{
    match verify(alloc, code, layout, closed, points) {
        Ok(verified) => accepted(alloc, verified.bound(), verified.readings()),
        Err(refusal) => match refusal {
            Refusal::NoMemory => Err(AllocError),
            _ => refused(
                alloc,
                refusal,
                explain(alloc, text, layout, closed, points, refusal),
            ),
        },
    }
}

/// What is said of a code that is refused, with the cause.
fn refused(alloc: Global, refusal: Refusal, cause: Option<String>) -> Result<Judgement, AllocError>
    ensures line { IfOk result (λ j. string_bytes j.line ≡ refused_line refusal) }
    ensures accepted { IfOk result (λ j. j.accepted ≡ false) }
{
    let line = refused_line(alloc, refusal)?;
    Ok(Judgement {
        accepted: false,
        line,
        fault_line: None,
        cause,
    })
}

/// The judgement of a code with these counts.
fn accepted(alloc: Global, bound: u128, readings: u128) -> Result<Judgement, AllocError>
    ensures line { IfOk result (λ j. string_bytes j.line ≡ accepted_line bound readings) }
    ensures accepted { IfOk result (λ j. j.accepted ≡ true) }
    ensures cause { IfOk result (λ j. j.cause ≡ None) }
{
    let line = format!(in alloc; "ok bound {bound} readings {readings}")?;
    Ok(Judgement {
        accepted: true,
        line,
        fault_line: None,
        cause: None,
    })
}

fn refused_line(alloc: Global, refusal: Refusal) -> Result<String, AllocError>
    ensures { IfOk result (λ line. string_bytes line ≡ refused_line refusal) }
{
    let number = refusal.number();
    let name = refusal.name();
    format!(in alloc; "refused {number} {name}")
}

fn faulty_line(alloc: Global, error: ListError) -> Result<String, AllocError>
    ensures { IfOk result (λ line. string_bytes line ≡ faulty_line error) }
{
    let line = error.line;
    let name = error.kind.name();
    format!(in alloc; "line {line}: {name}")
}
