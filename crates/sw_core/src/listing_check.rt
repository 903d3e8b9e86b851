//! The check of a listing in a block: whether its scan may be done now.

ghost use Rattle.std.specs.Prelude.{◌≡◌, ◌∷◌, ◌++◌, [], Bool, IfOk, string_bytes};
ghost use Rattle.std.specs.Option.{option_map};
ghost use Rattle.sw_lex.specs.Elements.{doubled};
ghost use Rattle.sw_core.specs.ListingCheck.{IsListingTold, told_text};
ghost use Rattle.sw_core.specs.Step.{StepListing};

use crate::answer_text::AnswerText;
use crate::ask::SessionAnswer;
use crate::state::Core;
use crate::text::answered;
use std::alloc::{AllocError, Global};
use sw_base::{ScpiError, Sequence};
use sw_card::{Meter, Relay};
use sw_verify::{Judgement, judge_listing};

impl<R: Relay, M: Meter> Core<R, M> {
    /// Answers the check of this listing with the cards that are there, the channels that are closed and TRACe:POINts.
    #[inline(never)]
    pub(crate) fn check_listing(&self, alloc: Global, listing: &[u8]) -> SessionAnswer
        ensures { StepListing self.now.seen listing.now Bool.false result self.now.seen }
    {
        match self.listing_check(alloc, listing) {
            Ok(text) => answered(AnswerText::bytes(text)),
            Err(_) => SessionAnswer::Refused(ScpiError::OutOfMemory),
        }
    }

    /// The text of that.
    fn listing_check(&self, alloc: Global, listing: &[u8]) -> Result<Sequence<u8>, AllocError>
        ensures { IfOk result (λ text. IsListingTold self.now.seen listing.now text) }
    {
        let layout = self.cage.layout(alloc)?;
        let closed = self.cage.closed_chans(alloc)?;
        let points = self.settings.scan.points();
        let judgement = judge_listing(alloc, listing, &layout, closed.as_slice(), points)?;
        told(alloc, &judgement)
    }
}

/// A judgement in double quotes: its line, and its cause behind a colon where it has one.
fn told(alloc: Global, judgement: &Judgement) -> Result<Sequence<u8>, AllocError>
    ensures { IfOk result (λ text. text
        ≡ told_text (string_bytes judgement.now.line) (option_map string_bytes judgement.now.cause)) }
{
    let mut text = Vec::new(alloc);
    text.push(b'"')?;
    text.extend_from_slice(judgement.line.as_bytes())?;
    if let Some(words) = &judgement.cause {
        text.extend_from_slice(b": ")?;
        push_doubled(&mut text, words.as_bytes())?;
    }
    text.push(b'"')?;
    Ok(Sequence::new(text))
}

/// Appends these bytes, each double quote among them doubled (IEEE 488.2, 8.7.8).
fn push_doubled(text: &mut Vec<u8>, bytes: &[u8]) -> Result<(), AllocError>
    ensures { IfOk result (λ u. text.new.items ≡ text.old.items ++ doubled 34 bytes.now) }
{
    for byte in bytes {
        push_one(text, *byte)?;
    }
    Ok(())
}

/// Appends this byte, a double quote twice.
fn push_one(text: &mut Vec<u8>, byte: u8) -> Result<(), AllocError>
    ensures { IfOk result (λ u. text.new.items ≡ text.old.items ++ doubled 34 (byte ∷ [])) }
{
    if byte == b'"' {
        text.push(byte)?;
    }
    text.push(byte)?;
    Ok(())
}
