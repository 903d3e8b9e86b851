//! Checking a listing: whether the program's cards may do the scan that it lists.

ghost use Rattle.std.specs.Prelude.{◌≡◌, ◌≢◌, ◌⊎◌, if◌then◌else◌, IfOk, IfErr, IfSome, OnOk, Err};
ghost use Rattle.std.specs.Io.KnownBytes.{IsAtEnd, Keeps};
ghost use Rattle.mainframe.specs.Listings.{program_layout, IsChecked, IsPartlyChecked};
ghost use Rattle.mainframe.specs.Turns.{IsOfReading};
ghost use Rattle.mainframe.specs.Whole.{StandsAt};

use crate::fault::RunFault;
use crate::whole::read_whole;
use crate::writing::write_bytes;
use std::alloc::{AllocError, Global};
use std::io::{Read, Write};
use sw_base::POINTS;
use sw_verify::{Judgement, Layout, Slot, judge_listing};

/// What was said of a listing.
#[derive(Debug, Drop)]
pub struct Checked {
    /// Whether the program's cards may do its scan.
    pub accepted: bool,
    /// Why not, in plain words, where there was memory for them.
    pub remark: Option<String>,
}

impl Checked {
    /// The exit status: 0, or 3 where the listing is refused, whether there was memory to say why or not.
    pub fn status(&self) -> u8
        ensures { result ≡ (if self.now.accepted then 0 else 3) }
    {
        if self.accepted { 0 } else { 3 }
    }
}

/// Reads a listing to its end and writes what the verifier says of it, against these cards with nothing closed
/// and room for `POINTS` readings: `ok bound B readings R`, `refused N Name` or `line L: Name`, and a line feed.
///
/// At a fault of the reader, or where memory runs out, nothing is written, and the reader may have bytes left; at a
/// fault of the writer a front part is written. Otherwise the reader is at its end.
pub fn check_listing<Rd: Read, W: Write>(
    alloc: Global,
    reader: &mut Rd,
    writer: &mut W,
    layout: &Layout,
) -> Result<Checked, RunFault>
    ensures ok { IfOk result (λ checked. IfSome (Rd.remaining reader.old) (λ text.
        IsChecked layout.now checked.accepted text (W.contents writer.old) (W.contents writer.new))) }
    ensures all { OnOk result (IsAtEnd (Rd.remaining reader.new)) }
    ensures stands { IfErr result (λ fault. StandsAt fault (Rd.remaining reader.old) (Rd.remaining reader.new)) }
    ensures fault { IfErr result (λ fault. IsOfReading fault ⊎ (fault ≡ RunFault.Output)) }
    ensures unwritten { IfErr result (λ fault. fault ≢ RunFault.Output
        → Keeps (W.contents writer.old) (W.contents writer.new)) }
    ensures partly { result ≡ Err RunFault.Output → IfSome (Rd.remaining reader.old) (λ text.
        IsPartlyChecked layout.now text (W.contents writer.old) (W.contents writer.new)) }
{
    let text = read_whole(alloc, reader)?;
    let Ok(judgement) = judge_listing(alloc, &text, layout, &[], POINTS) else {
        return Err(RunFault::Memory);
    };
    let told = judgement.line.as_str();
    let Ok(line) = format!(in alloc; "{told}\n") else {
        return Err(RunFault::Memory);
    };
    write_bytes(writer, line.as_bytes())?;
    Ok(Checked {
        accepted: judgement.accepted,
        remark: remark(alloc, judgement),
    })
}

/// Why a listing isn't accepted, with the line of a text that lists no code.
fn remark(alloc: Global, judgement: Judgement) -> Option<String> {
    let cause = judgement.cause?;
    match judgement.fault_line {
        Some(line) => format!(in alloc; "line {line}: {cause}").ok(),
        None => Some(cause),
    }
}

/// The program's cards, in slots 1 to 4.
#[tactic(auto, unfolding(crate::specs::Cards::first_card, crate::specs::Cards::second_card, crate::specs::Cards::third_card, crate::specs::Cards::meter_card))]
pub fn program_layout(alloc: Global) -> Result<Layout, AllocError>
    ensures { IfOk result (λ layout. layout ≡ program_layout) }
{
    let mut slots = Vec::new(alloc);
    slots.push(Slot::relays(Vec::from_elem(alloc, 1, 20)?))?;
    slots.push(Slot::relays(Vec::from_elem(alloc, 0, 16)?))?;
    slots.push(Slot::relays(Vec::from_elem(alloc, 1, 10)?))?;
    slots.push(Slot::meter())?;
    Ok(Layout::new(slots))
}
