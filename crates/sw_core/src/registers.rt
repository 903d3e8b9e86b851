//! Commands that read status out or set it, and call no card.

ghost use Rattle.std.specs.Prelude.{◌≡◌, [], Bool, decimal, if◌then◌else◌};
ghost use Rattle.sw_status.specs.Registers.{event_taken};
ghost use Rattle.sw_status.specs.StatusModel.{popped, cleared, preset, registers_of, with_group};
ghost use Rattle.sw_cage.specs.Cards.{all_sure};
ghost use Rattle.sw_core.specs.Action.{with_bits, read_text, without_read};
ghost use Rattle.sw_core.specs.Answers.{oldest_entry, all_entries};
ghost use Rattle.sw_core.specs.Registers.{card_fault_reported, card_fault_cleared, condition_told};
ghost use Rattle.sw_core.specs.Step.{StepText, StepDone};

use crate::answer_text::AnswerText;
use crate::ask::SessionAnswer;
use crate::state::Core;
use crate::text::{all_entries, answered};
use std::alloc::Global;
use sw_base::{ScpiError, StatusGroup};
use sw_cage::Cage;
use sw_card::{Meter, Relay};
use sw_lex::{StatusRead, StatusSetting};
use sw_status::Status;

/// The condition bit of a card that failed, or that is unsure of its relays (own).
const CARD_FAULT: u16 = 1 << 9;

/// Sets the condition of QUEStionable: it reports that a card failed.
pub fn report_card_fault(status: &mut Status)
    ensures { status.new ≡ card_fault_reported status.old }
{
    status.set_condition(StatusGroup::Questionable, CARD_FAULT);
}

/// Clears the condition of QUEStionable: it reports no failure any more.
pub fn clear_card_fault(status: &mut Status)
    ensures { status.new ≡ card_fault_cleared status.old }
{
    status.set_condition(StatusGroup::Questionable, 0);
}

/// Sets QUEStionable by whether a card failed.
pub fn set_card_fault(status: &mut Status, failed: bool)
    ensures { status.new ≡ (if failed then card_fault_reported status.old else card_fault_cleared status.old) }
{
    if failed {
        report_card_fault(status);
    } else {
        clear_card_fault(status);
    }
}

/// The condition that QUEStionable's query answers, where these bits are its register: with bit 9 too while a card of
/// the cage is unsure of its relays.
pub(crate) fn condition_told<R: Relay, M: Meter>(bits: u16, cage: &Cage<R, M>) -> u16
    ensures { result ≡ condition_told bits (all_sure R.sure cage.now.cards) }
{
    if cage.is_sure() {
        bits
    } else {
        bits | CARD_FAULT
    }
}

impl<R: Relay, M: Meter> Core<R, M> {
    /// Answers what a query reads out of the status, and takes that out.
    #[inline(always)]
    pub(crate) fn read_out(&mut self, alloc: Global, read: StatusRead) -> SessionAnswer
        ensures step { StepText self.old.seen (read_text read self.old.seen.status)
            (without_read read self.old.seen.status) Bool.false result self.new.seen }
        ensures cards { self.new.cards ≡ self.old.cards }
    {
        match read {
            StatusRead::EventStatus => self.event_query(),
            StatusRead::GroupEvent(group) => self.group_event_query(group),
            StatusRead::NextError => self.next_error(),
            StatusRead::AllErrors => self.all_errors(alloc),
        }
    }

    /// Reads the event status register out.
    #[inline(always)]
    fn event_query(&mut self) -> SessionAnswer
        ensures step { StepText self.old.seen (decimal self.old.seen.status.esr)
            (record self.old.seen.status { esr = 0 }) Bool.false result self.new.seen }
        ensures cards { self.new.cards ≡ self.old.cards }
    {
        answered(AnswerText::number(u64::from(self.status.read_esr())))
    }

    /// Reads a group's event register out.
    #[inline(always)]
    fn group_event_query(&mut self, group: StatusGroup) -> SessionAnswer
        ensures step { StepText self.old.seen (decimal (registers_of self.old.seen.status group).event)
            (with_group self.old.seen.status group (event_taken (registers_of self.old.seen.status group))) Bool.false
            result self.new.seen }
        ensures cards { self.new.cards ≡ self.old.cards }
    {
        answered(AnswerText::number(u64::from(self.status.take_event(group))))
    }

    /// Takes the oldest error out of the queue.
    #[inline(never)]
    fn next_error(&mut self) -> SessionAnswer
        ensures step { StepText self.old.seen (oldest_entry self.old.seen.status.errors) (popped self.old.seen.status)
            Bool.false result self.new.seen }
        ensures cards { self.new.cards ≡ self.old.cards }
    {
        answered(AnswerText::entry(self.status.pop_error()))
    }

    /// Takes all errors out of the queue.
    #[inline(never)]
    fn all_errors(&mut self, alloc: Global) -> SessionAnswer
        ensures step { StepText self.old.seen (all_entries self.old.seen.status.errors)
            (record self.old.seen.status { errors = [] }) Bool.false result self.new.seen }
        ensures cards { self.new.cards ≡ self.old.cards }
    {
        if self.status.count() <= 1 {
            return self.next_error();
        }
        match all_entries(alloc, self.status.all_errors()) {
            Ok(text) => {
                self.status.clear_errors();
                answered(AnswerText::bytes(text))
            }
            Err(_) => SessionAnswer::Refused(ScpiError::OutOfMemory),
        }
    }

    /// Clears the error queue and the event registers, and drops a pending `*OPC` (IEEE 488.2, 10.3).
    pub(crate) fn clear_status(&mut self) -> SessionAnswer
        ensures step { StepDone (record self.old.seen { status = cleared self.old.seen.status; opc_waits = Bool.false })
            Bool.false result self.new.seen }
        ensures cards { self.new.cards ≡ self.old.cards }
    {
        self.status.clear();
        self.opc_waits = false;
        SessionAnswer::Done(None)
    }

    /// Lets the end of the scan set its event bit; the end of this event, where no scan runs (IEEE 488.2, 10.18).
    pub(crate) fn complete_operation(&mut self) -> SessionAnswer
        ensures step { StepDone (record self.old.seen { opc_waits = Bool.true }) Bool.false result self.new.seen }
        ensures cards { self.new.cards ≡ self.old.cards }
    {
        self.opc_waits = true;
        SessionAnswer::Done(None)
    }

    /// Sets bits of the status.
    #[inline(always)]
    pub(crate) fn set_status(&mut self, setting: StatusSetting) -> SessionAnswer
        ensures step { StepDone (record self.old.seen { status = with_bits setting self.old.seen.status }) Bool.false
            result self.new.seen }
        ensures cards { self.new.cards ≡ self.old.cards }
    {
        match setting {
            StatusSetting::EventEnable(bits) => self.status.set_ese(bits),
            StatusSetting::ServiceEnable(bits) => self.status.set_sre(bits),
            StatusSetting::Enable(group, bits) => self.status.set_enable(group, bits),
            StatusSetting::PositiveTransition(group, bits) => self.status.set_ptr(group, bits),
            StatusSetting::NegativeTransition(group, bits) => self.status.set_ntr(group, bits),
        }
        SessionAnswer::Done(None)
    }

    /// Sets the enable registers and transition filters to their preset values (SCPI-1999, 20.7).
    pub(crate) fn preset(&mut self) -> SessionAnswer
        ensures step { StepDone (record self.old.seen { status = preset self.old.seen.status }) Bool.false result
            self.new.seen }
        ensures cards { self.new.cards ≡ self.old.cards }
    {
        self.status.preset();
        SessionAnswer::Done(None)
    }
}
