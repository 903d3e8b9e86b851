//! Commands that call the relay cards.

ghost use Rattle.std.specs.Prelude.{◌≡◌, Bool, None};
ghost use Rattle.sw_cage.specs.Cards.{meters_of};
ghost use Rattle.sw_cage.specs.Change.{any_failed};
ghost use Rattle.sw_cage.specs.Accounts.{all_open};
ghost use Rattle.sw_cage.specs.Channels.{closed_list};
ghost use Rattle.sw_channel.specs.Printing.{printed};
ghost use Rattle.sw_core.specs.Action.{aborted, reset, flags_text};
ghost use Rattle.sw_core.specs.Panel.{with_cards, has_all};
ghost use Rattle.sw_core.specs.Step.{StepText, StepDone, StepClose, StepOpen, StepHardware};

use crate::answer_text::AnswerText;
use crate::ask::SessionAnswer;
use crate::registers::{clear_card_fault, report_card_fault};
use crate::state::Core;
use crate::text::{answered, flag, flags};
use std::alloc::Global;
use sw_base::{Chan, ScpiError, Sequence};
use sw_cage::CloseRefusal;
use sw_card::{Meter, Relay};
use sw_channel::print_list;

impl<R: Relay, M: Meter> Core<R, M> {
    /// Judges the whole list, and then closes one channel after another.
    #[tactic(auto, using(crate::proofs::CallsLemmas::failed_same))]
    #[inline(never)]
    pub(crate) fn close(&mut self, chans: &[Chan]) -> SessionAnswer
        requires idle { self.old.seen.cage.scan ≡ None }
        ensures step { StepClose self.old.seen chans.now (any_failed self.old.seen.cage.cards self.new.seen.cage.cards)
            result self.new.seen }
        ensures meters { meters_of self.new.cards ≡ meters_of self.old.cards }
    {
        match self.cage.judge(chans) {
            Err(CloseRefusal::Absent) => SessionAnswer::Refused(ScpiError::HardwareMissing),
            Err(CloseRefusal::Clash) => SessionAnswer::Refused(ScpiError::SettingsConflict),
            Ok(()) => match self.cage.close_listed(chans) {
                Ok(()) => SessionAnswer::Done(None),
                Err(_) => {
                    self.cage.open_all();
                    report_card_fault(&mut self.status);
                    SessionAnswer::Refused(ScpiError::HardwareError)
                }
            },
        }
    }

    /// Opens one channel after another.
    #[tactic(auto, using(crate::proofs::CallsLemmas::failed_same))]
    #[inline(never)]
    pub(crate) fn open(&mut self, chans: &[Chan]) -> SessionAnswer
        requires idle { self.old.seen.cage.scan ≡ None }
        ensures step { StepOpen self.old.seen chans.now (any_failed self.old.seen.cage.cards self.new.seen.cage.cards)
            result self.new.seen }
        ensures meters { meters_of self.new.cards ≡ meters_of self.old.cards }
    {
        if !self.cage.all_present(chans) {
            return SessionAnswer::Refused(ScpiError::HardwareMissing);
        }
        match self.cage.open_listed(chans) {
            Ok(()) => SessionAnswer::Done(None),
            Err(_) => {
                self.cage.open_all();
                report_card_fault(&mut self.status);
                SessionAnswer::Refused(ScpiError::HardwareError)
            }
        }
    }

    /// Opens every relay.
    #[tactic(auto, using(crate::proofs::CallsLemmas::failed_open))]
    #[inline(never)]
    pub(crate) fn open_everything(&mut self) -> SessionAnswer
        requires idle { self.old.seen.cage.scan ≡ None }
        ensures step { StepDone (with_cards self.old.seen (all_open self.old.seen.cage.cards))
            (any_failed self.old.seen.cage.cards self.new.seen.cage.cards) result self.new.seen }
        ensures meters { meters_of self.new.cards ≡ meters_of self.old.cards }
    {
        self.cage.open_all();
        SessionAnswer::Done(None)
    }

    /// Ends the scan, and opens every relay (SCPI-1999, 3).
    #[tactic(auto, using(crate::proofs::CallsLemmas::failed_open))]
    #[inline(never)]
    pub(crate) fn abort(&mut self) -> SessionAnswer
        ensures step { StepDone (aborted self.old.seen) (any_failed self.old.seen.cage.cards self.new.seen.cage.cards)
            result self.new.seen }
        ensures meters { meters_of self.new.cards ≡ meters_of self.old.cards }
    {
        self.cage.abort();
        SessionAnswer::Done(None)
    }

    /// Ends the scan, opens every relay, drops the readings and a pending `*OPC`, and sets the settings to their reset
    /// values (IEEE 488.2, 10.32).
    #[tactic(auto, using(crate::proofs::CallsLemmas::failed_open))]
    #[inline(never)]
    pub(crate) fn reset(&mut self) -> SessionAnswer
        ensures step { StepDone (reset self.old.seen) (any_failed self.old.seen.cage.cards self.new.seen.cage.cards)
            result self.new.seen }
        ensures meters { meters_of self.new.cards ≡ meters_of self.old.cards }
    {
        self.cage.abort();
        self.cage.reset_readings();
        clear_card_fault(&mut self.status);
        self.settings.reset();
        self.opc_waits = false;
        SessionAnswer::Done(None)
    }

    /// For each channel whether it is closed, or, where `closed` is false, whether it is open.
    #[inline(never)]
    pub(crate) fn flags(&self, alloc: Global, closed: bool, chans: &[Chan]) -> SessionAnswer
        ensures { StepHardware self.now.seen (has_all self.now.seen chans.now)
            (flags_text closed chans.now self.now.seen) Bool.false result self.now.seen }
    {
        if !self.cage.all_present(chans) {
            return SessionAnswer::Refused(ScpiError::HardwareMissing);
        }
        if let [chan] = chans {
            return answered(flag(&self.cage, closed, *chan));
        }
        match flags(alloc, &self.cage, closed, chans) {
            Ok(text) => answered(AnswerText::bytes(text)),
            Err(_) => SessionAnswer::Refused(ScpiError::OutOfMemory),
        }
    }

    /// The list of the closed channels.
    #[inline(never)]
    pub(crate) fn close_state(&self, alloc: Global) -> SessionAnswer
        ensures { StepText self.now.seen (printed (closed_list self.now.seen.cage.cards)) self.now.seen.status
            Bool.false result self.now.seen }
    {
        match self.cage.closed_chans(alloc) {
            Ok(closed) => match print_list(alloc, &closed) {
                Ok(text) => answered(AnswerText::bytes(Sequence::new(text))),
                Err(error) => SessionAnswer::Refused(error),
            },
            Err(_) => SessionAnswer::Refused(ScpiError::OutOfMemory),
        }
    }
}
