//! Queries of a slot: which card it has, its channels' groups, and whether the card is sure of its relays.

ghost use Rattle.std.specs.Prelude.{◌≡◌, ◌++◌, ◌||◌, Bool, true, IfOk, OnOk, OnErr, None, Some, codes, decimal, map};
ghost use Rattle.std.specs.List.{join_with_byte};
ghost use Rattle.sw_base.specs.declared.error.ScpiError.TheVariants.{OutOfMemory};
ghost use Rattle.sw_card.specs.Account.{is_meter};
ghost use Rattle.sw_card.specs.Kind.{surety};
ghost use Rattle.sw_core.specs.declared.ask.SessionAsk.{SessionAsk};
ghost use Rattle.sw_core.specs.declared.ask.SessionAnswer.TheVariants.{Done, Refused};
ghost use Rattle.sw_core.specs.Action.{slot_action};
ghost use Rattle.sw_core.specs.Answers.{four_fields, revision};
ghost use Rattle.sw_core.specs.SlotTexts.{kind_text, has_relays, groups_text, state_text, surety_word};
ghost use Rattle.sw_core.specs.SlotTexts.{kind_word};
ghost use Rattle.sw_core.specs.Step.{StepAction, StepText, StepHardware, StepSurety};

use crate::answer_text::AnswerText;
use crate::ask::SessionAnswer;
use crate::state::Core;
use crate::text::{ROOM, answered, separate};
use std::alloc::{AllocError, Global};
use sw_base::{ScpiError, Sequence, print_number};
use sw_card::{Card, Meter, Relay};
use sw_lex::SlotQuery;

impl<R: Relay, M: Meter> Core<R, M> {
    /// Answers a query of a slot.
    #[inline(never)]
    pub(crate) fn tell_slot(&self, alloc: Global, query: SlotQuery, slot: u8) -> SessionAnswer
        ensures { (ask : SessionAsk) → StepAction (slot_action query slot) self.now.seen ask Bool.false result None
            self.now.seen }
    {
        match query {
            SlotQuery::Kind => self.kind(alloc, slot),
            SlotQuery::Groups => self.groups(alloc, slot),
            SlotQuery::State => self.card_state(slot),
        }
    }

    /// The maker, the kind, the serial number and the revision of the slot's card.
    fn kind(&self, alloc: Global, slot: u8) -> SessionAnswer
        ensures { StepText self.now.seen (kind_text slot self.now.seen) self.now.seen.status Bool.false result
            self.now.seen }
    {
        match self.cage.card(slot) {
            Some(card) => told(kind_of(alloc, card)),
            None if self.cage.has_out(slot) => answered(meter_out()),
            None => answered(empty()),
        }
    }

    /// The group of each channel of the slot's relay card.
    fn groups(&self, alloc: Global, slot: u8) -> SessionAnswer
        ensures { StepHardware self.now.seen (has_relays slot self.now.seen) (groups_text slot self.now.seen) Bool.false
            result self.now.seen }
    {
        match self.cage.card(slot) {
            Some(card) if !card.is_meter() => told(groups_of(alloc, card)),
            _ => SessionAnswer::Refused(ScpiError::HardwareMissing),
        }
    }

    /// Whether the slot's card is sure of its relays.
    fn card_state(&self, slot: u8) -> SessionAnswer
        ensures { StepSurety self.now.seen (state_text slot self.now.seen) Bool.false result self.now.seen }
    {
        match self.cage.card(slot) {
            Some(card) => answered(word_of(card)),
            None if self.cage.has_out(slot) => answered(surety_word(true)),
            None => answered(AnswerText::fixed(b"EMPT")),
        }
    }
}

/// The answer with a text, or the refusal for a lack of memory.
fn told(text: Result<Sequence<u8>, AllocError>) -> SessionAnswer
    ensures ok { IfOk text (λ text. result ≡ Done (Some text)) }
    ensures err { OnErr text (result ≡ Refused OutOfMemory) }
{
    match text {
        Ok(text) => answered(AnswerText::bytes(text)),
        Err(_) => SessionAnswer::Refused(ScpiError::OutOfMemory),
    }
}

/// The answer for an empty slot.
fn empty() -> AnswerText
    ensures { result ≡ four_fields (codes "0") (codes "0") (codes "0") }
{
    AnswerText::fixed(b"OPENBENCH,0,0,0")
}

/// The answer for a meter that is out to measure: its serial number is not available.
fn meter_out() -> AnswerText
    ensures { result ≡ four_fields (codes "METER") (codes "0") revision }
{
    AnswerText::fixed(b"OPENBENCH,METER,0,1.0")
}

/// The maker, the kind, the serial number and the revision of a card.
fn kind_of<R: Relay, M: Meter>(alloc: Global, card: &Card<R, M>) -> Result<Sequence<u8>, AllocError>
    ensures { IfOk result (λ text.
        text ≡ four_fields (kind_word card.now.1) (decimal card.now.1.serial) revision) }
{
    let mut text = Vec::with_capacity(alloc, ROOM)?;
    text.extend_from_slice(b"OPENBENCH,")?;
    add_kind(&mut text, card)?;
    text.push(b',')?;
    add_number(&mut text, u64::from(card.serial()))?;
    text.extend_from_slice(b",1.0")?;
    Ok(Sequence::new(text))
}

/// Adds the kind of a card: `METER`, or `RELAY` and the count of its channels.
fn add_kind<R: Relay, M: Meter>(text: &mut Vec<u8>, card: &Card<R, M>) -> Result<(), AllocError>
    ensures { OnOk result (text.new.items ≡ text.old.items ++ kind_word card.now.1) }
{
    if card.is_meter() {
        text.extend_from_slice(b"METER")?;
        return Ok(());
    }
    text.extend_from_slice(b"RELAY")?;
    add_number(text, u64::from(card.channels()))
}

/// Adds the digits of a number.
fn add_number(text: &mut Vec<u8>, n: u64) -> Result<(), AllocError>
    ensures { OnOk result (text.new.items ≡ text.old.items ++ decimal n) }
{
    let mut buffer = [0; 32];
    let end = print_number(n, &mut buffer);
    text.extend_from_slice(&buffer[..end])
}

/// The group of each channel of a card, joined by commas.
fn groups_of<R: Relay, M: Meter>(
    alloc: Global,
    card: &Card<R, M>,
) -> Result<Sequence<u8>, AllocError>
    ensures { IfOk result (λ text. text ≡ join_with_byte 44 (map decimal card.now.1.groups)) }
{
    let mut text = Vec::with_capacity(alloc, ROOM)?;
    for before in 0..card.channels() {
        separate(&mut text)?;
        add_number(&mut text, u64::from(card.group(before + 1)))?;
    }
    Ok(Sequence::new(text))
}

/// What a card says of its relays; a meter has none.
fn word_of<R: Relay, M: Meter>(card: &Card<R, M>) -> AnswerText
    ensures { result ≡ surety_word (is_meter card.now.1 || surety R.sure card.now.0) }
{
    surety_word(card.is_meter() || card.is_sure())
}

/// What a card says of its relays, as a word.
fn surety_word(sure: bool) -> AnswerText
    ensures { result ≡ surety_word sure }
{
    AnswerText::fixed(if sure { b"SURE" } else { b"UNS" })
}
