//! Commands: what each family does.

ghost use Rattle.std.specs.Prelude.{◌≡◌, ◌&&◌, None, false};
ghost use Rattle.sw_core.specs.Cards.{KeepsFor};
ghost use Rattle.sw_cage.specs.Cards.{meters_of};
ghost use Rattle.sw_cage.specs.Change.{any_failed};
ghost use Rattle.sw_lex.specs.declared.command.Command.{Command};
ghost use Rattle.sw_core.specs.Action.{action_of, no_data_action, relay_action, setting_action, awaits_end};
ghost use Rattle.sw_core.specs.Panel.{is_running};
ghost use Rattle.sw_core.specs.declared.ask.SessionAsk.{SessionAsk};
ghost use Rattle.sw_core.specs.Seen.{work_seen};
ghost use Rattle.sw_core.specs.Step.{StepAction, TakesSetting};

use crate::ask::{SessionAnswer, Work};
use crate::state::Core;
use std::alloc::Global;
use sw_base::{Chan, ScpiError};
use sw_cage::Happening;
use sw_card::{Meter, Relay};
use sw_lex::{Command, NoData, RelayCommand, Setting, Time};

impl<R: Relay, M: Meter> Core<R, M> {
    /// Carries out a joined session's command, which nothing holds, or refuses it while a scan runs; `available` says
    /// whether its message has answered before, so that a message is available. It leaves in `work` what the scan
    /// awaits now. A command that has no row here doesn't compile.
    #[tactic(auto, using(crate::proofs::CallsLemmas::failed_same))]
    #[inline(never)]
    pub(crate) fn command(
        &mut self,
        alloc: Global,
        command: Command,
        available: bool,
        work: &mut Option<Work<M>>,
    ) -> SessionAnswer
        requires unheld { awaits_end command && is_running self.old.seen ≡ false }
        requires empty { work.old ≡ None }
        ensures step { (ask : SessionAsk) → StepAction (action_of available command) self.old.seen ask
            (any_failed self.old.seen.cage.cards self.new.seen.cage.cards) result (work_seen work.new) self.new.seen }
        ensures meters { KeepsFor self.old.cards work.new self.new.cards }
    {
        match command {
            Command::NoData(ask) => self.without_data(alloc, ask, work),
            Command::Signal(layer) => self.signal(layer, work),
            Command::Query(query) => self.tell(alloc, query, available),
            Command::LayerQuery(query, layer) => self.tell_layer(query, layer),
            Command::GroupQuery(query, group) => self.tell_group(query, group),
            Command::SlotQuery(query, slot) => self.tell_slot(alloc, query, slot),
            Command::DestructiveQuery(read) => self.read_out(alloc, read),
            Command::Continuous(true) => conflict(),
            Command::Continuous(false) => SessionAnswer::Done(None),
            Command::Relays(ask, chans) => self.relays(alloc, ask, chans.as_slice()),
            Command::ListingCheck(listing) => self.check_listing(alloc, listing.as_slice()),
            Command::Set(setting) => self.set(setting),
            Command::SetStatus(setting) => self.set_status(setting),
            Command::Macros(_) | Command::Macro(_) => undefined(),
            Command::ScanReadings(number, count) => self.scan_readings(alloc, number, count),
        }
    }

    /// Carries a command without data out.
    #[tactic(auto, using(crate::proofs::CallsLemmas::failed_same))]
    #[inline(always)]
    fn without_data(
        &mut self,
        alloc: Global,
        ask: NoData,
        work: &mut Option<Work<M>>,
    ) -> SessionAnswer
        requires unheld { awaits_end (Command.NoData ask) && is_running self.old.seen ≡ false }
        requires empty { work.old ≡ None }
        ensures step { (asked : SessionAsk) → StepAction (no_data_action ask) self.old.seen asked
            (any_failed self.old.seen.cage.cards self.new.seen.cage.cards) result (work_seen work.new) self.new.seen }
        ensures meters { KeepsFor self.old.cards work.new self.new.cards }
    {
        match ask {
            NoData::Reset => self.reset(),
            NoData::ClearStatus => self.clear_status(),
            NoData::OperationComplete => self.complete_operation(),
            NoData::OperationCompleteQuery => self.number(1),
            NoData::Wait => SessionAnswer::Done(None),
            NoData::Trigger => self.trigger(Happening::Bus, ScpiError::TriggerIgnored, work),
            NoData::Abort => self.abort(),
            NoData::Initiate | NoData::Read => undefined(),
            NoData::OpenAll if self.cage.is_running() => conflict(),
            NoData::OpenAll => self.open_everything(),
            NoData::Preset => self.preset(),
            NoData::Fetch => self.fetch(alloc),
        }
    }

    /// Carries a command with a channel list out.
    #[tactic(auto, using(crate::proofs::CallsLemmas::failed_same))]
    #[inline(always)]
    fn relays(&mut self, alloc: Global, ask: RelayCommand, chans: &[Chan]) -> SessionAnswer
        ensures step { (asked : SessionAsk) → StepAction (relay_action ask chans.now) self.old.seen asked
            (any_failed self.old.seen.cage.cards self.new.seen.cage.cards) result None self.new.seen }
        ensures meters { meters_of self.new.cards ≡ meters_of self.old.cards }
    {
        match ask {
            RelayCommand::Close | RelayCommand::Open if self.cage.is_running() => conflict(),
            RelayCommand::Close => self.close(chans),
            RelayCommand::CloseQuery => self.flags(alloc, true, chans),
            RelayCommand::CloseCheck => self.check_closing(alloc, chans),
            RelayCommand::Open => self.open(chans),
            RelayCommand::OpenQuery => self.flags(alloc, false, chans),
        }
    }

    /// Sets a value for scans, where no scan runs and it is one that fits.
    #[tactic(auto, using(crate::proofs::CallsLemmas::failed_same))]
    #[inline(always)]
    fn set(&mut self, setting: Setting) -> SessionAnswer
        ensures step { (ask : SessionAsk) → StepAction (setting_action setting) self.old.seen ask
            (any_failed self.old.seen.cage.cards self.new.seen.cage.cards) result None self.new.seen }
        ensures cards { self.new.cards ≡ self.old.cards }
    {
        if self.cage.is_running() {
            return conflict();
        }
        match setting {
            Setting::Count(layer, n) => taken(self.settings.scan.set_count(layer, n)),
            Setting::Source(layer, source) => {
                self.settings.scan.set_source(layer, source);
                SessionAnswer::Done(None)
            }
            Setting::Time(Time::Delay, layer, micros) => {
                taken(self.settings.scan.set_delay(layer, micros))
            }
            Setting::Time(Time::Timer, layer, micros) => {
                taken(self.settings.scan.set_timer(layer, micros))
            }
            Setting::Time(Time::Settling, _, micros) => {
                taken(self.settings.scan.set_settling(micros))
            }
            Setting::Scan(positions) => taken(self.settings.scan.set_list(positions.into_vec())),
            Setting::ScanMeter(slot) => taken(self.settings.scan.set_meter(slot)),
            Setting::Points(n) => taken(self.settings.scan.set_points(n)),
            Setting::Program(program) => {
                self.settings.load(program.into_inner());
                SessionAnswer::Done(None)
            }
            Setting::Programmed(on) => taken(self.settings.switch(on)),
            Setting::NoProgram => {
                self.settings.unload();
                SessionAnswer::Done(None)
            }
        }
    }
}

/// The answer to a command that the mainframe refuses while a scan runs.
fn conflict() -> SessionAnswer
    ensures { result ≡ SessionAnswer.Refused ScpiError.SettingsConflict }
{
    SessionAnswer::Refused(ScpiError::SettingsConflict)
}

/// The answer to a command that only a session carries out.
fn undefined() -> SessionAnswer
    ensures { result ≡ SessionAnswer.Refused ScpiError.UndefinedHeader }
{
    SessionAnswer::Refused(ScpiError::UndefinedHeader)
}

/// The answer to a setting's command.
fn taken(set: Result<(), ScpiError>) -> SessionAnswer
    ensures { TakesSetting set result }
{
    match set {
        Ok(()) => SessionAnswer::Done(None),
        Err(error) => SessionAnswer::Refused(error),
    }
}
