//! Queries that change nothing.

ghost use Rattle.std.specs.Prelude.{◌≡◌, Bool, IfOk, IfErr, None, decimal};
ghost use Rattle.sw_channel.specs.Printing.{printed_positions};
ghost use Rattle.sw_trigger.specs.Settings.{layer_of};
ghost use Rattle.sw_lex.specs.Block.{block_of};
ghost use Rattle.sw_code.specs.Listing.{listing_of};
ghost use Rattle.sw_verify.specs.Setup.{kept};
ghost use Rattle.sw_base.specs.declared.error.ScpiError.TheVariants.{DataCorruptOrStale, OutOfMemory};
ghost use Rattle.sw_lex.specs.declared.command.GroupQuery.TheVariants.{Condition};
ghost use Rattle.sw_core.specs.Action.{query_text, layer_text, group_action, condition_text, program_text};
ghost use Rattle.sw_core.specs.Action.{programmed_text, readings_of_scan};
ghost use Rattle.sw_core.specs.declared.ask.SessionAsk.{SessionAsk};
ghost use Rattle.sw_core.specs.declared.ask.SessionAnswer.TheVariants.{Refused};
ghost use Rattle.sw_core.specs.Step.{StepAction, StepText, StepSurety, StepReadings};

use crate::answer_text::AnswerText;
use crate::ask::SessionAnswer;
use crate::readings_text::ReadingsText;
use crate::registers::condition_told;
use crate::state::Core;
use crate::text::{answered, identity, source_word, version};
use std::alloc::Global;
use sw_base::{LayerName, ScpiError, Sequence, StatusGroup};
use sw_card::{Meter, Relay};
use sw_channel::print_positions;
use sw_code::{Code, print_listing};
use sw_lex::{GroupQuery, LayerQuery, PlainQuery, block_of, headers_text};

impl<R: Relay, M: Meter> Core<R, M> {
    /// Answers a query; `available` says whether its message has answered before, so that a message is available.
    #[inline(always)]
    pub(crate) fn tell(&self, alloc: Global, query: PlainQuery, available: bool) -> SessionAnswer
        ensures { StepText self.now.seen (query_text available query self.now.seen) self.now.seen.status Bool.false
            result self.now.seen }
    {
        match query {
            PlainQuery::Identify => answered(identity()),
            PlainQuery::EventEnable => self.number(u64::from(self.status.ese())),
            PlainQuery::ServiceEnable => self.number(u64::from(self.status.sre())),
            PlainQuery::StatusByte => self.number(u64::from(self.status.byte(available))),
            PlainQuery::SelfTest => self.number(0),
            PlainQuery::InitiateContinuous => self.number(0),
            PlainQuery::CloseState => self.close_state(alloc),
            PlainQuery::Settling => answered(AnswerText::seconds(self.settings.scan.settle_us())),
            PlainQuery::Scan => self.scan_query(alloc),
            PlainQuery::ScanMeter => self.number(u64::from(self.settings.scan.meter())),
            PlainQuery::Program => self.program_query(alloc),
            PlainQuery::Programmed => self.programmed_query(),
            PlainQuery::ErrorCount => self.number(self.status.count() as u64),
            PlainQuery::Headers => answered(AnswerText::fixed(headers_text())),
            PlainQuery::Version => answered(version()),
            PlainQuery::Points => self.number(u64::from(self.settings.scan.points())),
            PlainQuery::ActualPoints => self.number(self.cage.readings().len() as u64),
            PlainQuery::Bound => self.number(self.settings.bound()),
            PlainQuery::ScanCheck => self.check_scan(alloc),
        }
    }

    /// Answers a query of a layer.
    #[inline(always)]
    pub(crate) fn tell_layer(&self, query: LayerQuery, layer: LayerName) -> SessionAnswer
        ensures { StepText self.now.seen (layer_text query (layer_of self.now.seen.settings.scan layer))
            self.now.seen.status Bool.false result self.now.seen }
    {
        let layer = self.settings.scan.layer(layer);
        match query {
            LayerQuery::Count => self.number(u64::from(layer.count)),
            LayerQuery::Source => answered(source_word(layer.source)),
            LayerQuery::Delay => answered(AnswerText::seconds(layer.delay_us)),
            LayerQuery::Timer => answered(AnswerText::seconds(layer.timer_us)),
        }
    }

    /// Answers a query of a status group. The condition of QUEStionable alone asks the cards.
    #[inline(always)]
    pub(crate) fn tell_group(&self, query: GroupQuery, group: StatusGroup) -> SessionAnswer
        ensures { (ask : SessionAsk) → StepAction (group_action query group) self.now.seen ask Bool.false result None
            self.now.seen }
    {
        let registers = self.status.group(group);
        let bits = match query {
            GroupQuery::Condition => return self.condition(group),
            GroupQuery::Enable => registers.enable(),
            GroupQuery::PositiveTransition => registers.ptr(),
            GroupQuery::NegativeTransition => registers.ntr(),
        };
        self.number(u64::from(bits))
    }

    /// The condition of a status group.
    #[inline(always)]
    fn condition(&self, group: StatusGroup) -> SessionAnswer
        ensures { (ask : SessionAsk) → StepAction (group_action Condition group) self.now.seen ask Bool.false result
            None self.now.seen }
    {
        match group {
            StatusGroup::Operation => self.number(u64::from(self.status.group(group).condition())),
            StatusGroup::Questionable => self.questionable(),
        }
    }

    /// The condition of QUEStionable, with bit 9 too while a card is unsure of its relays.
    #[inline(never)]
    fn questionable(&self) -> SessionAnswer
        ensures { StepSurety self.now.seen (condition_text self.now.seen) Bool.false result self.now.seen }
    {
        let bits = self.status.group(StatusGroup::Questionable).condition();
        answered(AnswerText::number(u64::from(condition_told(bits, &self.cage))))
    }

    /// A number as an answer.
    #[inline(always)]
    pub(crate) fn number(&self, n: u64) -> SessionAnswer
        ensures { StepText self.now.seen (decimal n) self.now.seen.status Bool.false result self.now.seen }
    {
        answered(AnswerText::number(n))
    }

    /// The channels of the scan.
    #[inline(never)]
    fn scan_query(&self, alloc: Global) -> SessionAnswer
        ensures { StepText self.now.seen (printed_positions self.now.seen.settings.scan.list) self.now.seen.status
            Bool.false result self.now.seen }
    {
        match print_positions(alloc, self.settings.scan.list()) {
            Ok(text) => answered(AnswerText::bytes(Sequence::new(text))),
            Err(error) => SessionAnswer::Refused(error),
        }
    }

    /// Whether INITiate runs a program.
    fn programmed_query(&self) -> SessionAnswer
        ensures { StepText self.now.seen (programmed_text self.now.seen.settings.program) self.now.seen.status
            Bool.false result self.now.seen }
    {
        if self.settings.is_programmed() {
            self.number(1)
        } else {
            self.number(0)
        }
    }

    /// The program as a listing in a block; an empty one for none.
    #[inline(never)]
    fn program_query(&self, alloc: Global) -> SessionAnswer
        ensures { StepText self.now.seen (program_text (kept self.now.seen.settings.program)) self.now.seen.status
            Bool.false result self.now.seen }
    {
        let Some(program) = self.settings.program.kept() else {
            return answered(AnswerText::fixed(b"#10"));
        };
        match listed(alloc, program.code()) {
            Ok(text) => answered(AnswerText::bytes(text)),
            Err(error) => SessionAnswer::Refused(error),
        }
    }

    /// The readings of the scan with this number, where it made exactly this count of them and no scan began since.
    #[inline(never)]
    pub(crate) fn scan_readings(&self, alloc: Global, number: u64, count: u64) -> SessionAnswer
        ensures { StepReadings (readings_of_scan number count self.now.seen) self.now.seen Bool.false result
            self.now.seen }
    {
        if self.cage.number() == number && self.cage.readings().len() as u64 == count {
            self.fetch(alloc)
        } else {
            stale()
        }
    }

    /// The readings of the last scan, copied: their text is made outside the mainframe, so that no other session waits
    /// for it.
    #[inline(never)]
    pub(crate) fn fetch(&self, alloc: Global) -> SessionAnswer
        ensures { StepReadings self.now.seen.cage.readings self.now.seen Bool.false result self.now.seen }
    {
        let readings = self.cage.readings();
        if readings.is_empty() {
            return stale();
        }
        match ReadingsText::of(alloc, readings) {
            Ok(readings) => answered(AnswerText::readings(readings)),
            Err(_) => SessionAnswer::Refused(ScpiError::OutOfMemory),
        }
    }
}

/// The answer where there are no readings.
fn stale() -> SessionAnswer
    ensures { result ≡ Refused DataCorruptOrStale }
{
    SessionAnswer::Refused(ScpiError::DataCorruptOrStale)
}

/// A code as a listing in a block.
fn listed(alloc: Global, code: &Code) -> Result<Sequence<u8>, ScpiError>
    ensures text { IfOk result (λ text. text ≡ block_of (listing_of code.now)) }
    ensures memory { IfErr result (λ e. e ≡ OutOfMemory) }
{
    let text = print_listing(alloc, code)?;
    Ok(block_of(alloc, &text)?)
}
