//! Scans: their beginning, what happens to them, and the meters that return.

ghost use Rattle.std.specs.Prelude.{◌≡◌, Bool, IfOk, IfSome, IfNone, None, Some, false, ◌↔◌, IsTrue, if◌then◌else◌};
ghost use Rattle.sw_base.specs.Layout.{slot_at};
ghost use Rattle.sw_cage.specs.Cards.{KeepsMeters, with_card_back};
ghost use Rattle.sw_core.specs.Cards.{Keeps, KeepsFor, KeepsAfter, work_from, answer_from};
ghost use Rattle.sw_core.specs.Registers.{card_fault_reported};
ghost use Rattle.sw_cage.specs.Change.{any_failed};
ghost use Rattle.sw_cage.specs.TakenSeen.{taken_seen, tells_fault};
ghost use Rattle.sw_verify.specs.Ready.{IsReady};
ghost use Rattle.sw_core.specs.Event.{concluded};
ghost use Rattle.sw_core.specs.Seen.{work_seen, answer_seen, failed_in, AskElapsed, AskFinished, HandsBack};
ghost use Rattle.sw_core.specs.Seen.{IsOwnAccount};
ghost use Rattle.sw_core.specs.declared.ask.Ask.TheVariants as Ask;
ghost use Rattle.sw_core.specs.Step.{Happens, StepHappens, StepOutside, StepFinished, StepSnapshot, StepStart};
ghost use Rattle.sw_core.specs.Step.{RefusesScan, MayScan, session_told, outside_told, started_answer, work_of};
ghost use Rattle.sw_core.specs.Run.{StepBrings};
ghost use Rattle.sw_core.specs.Action.{action_of};
ghost use Rattle.sw_core.specs.Step.{StepAction, Brings, snapshot_of};
ghost use Rattle.sw_core.specs.declared.ask.SessionAsk.{SessionAsk};
ghost use Rattle.sw_lex.specs.declared.command.Command.TheVariants as Command;

use crate::ask::{Answer, SessionAnswer, Work};
use crate::asks::put;
use crate::registers::{report_card_fault, set_card_fault};
use crate::state::Core;
use std::alloc::{AllocError, Global};
use sw_base::{Boxed, LayerName, ScpiError, Sequence};
use sw_cage::{Finished, Happening, Taken, Ticket};
use sw_card::{Meter, Relay};
use sw_status::Status;
use sw_verify::{Plan, Snapshot};

/// The work that a scan awaits after this outcome.
#[inline(always)]
fn work_of<M: Meter>(told: Taken<M>) -> Option<Work<M>>
    ensures seen { work_seen result ≡ work_of (taken_seen told) }
    ensures very { result ≡ work_from told }
{
    match told {
        Taken::Pause(ticket, micros) => Some(Work::Pause(ticket, micros)),
        Taken::Job(job) => Some(Work::Measure(job)),
        _ => None,
    }
}

/// The answer to a session by the cage's outcome; this error refuses what no scan takes.
#[inline(always)]
fn session_told<M: Meter>(told: &Taken<M>, error: ScpiError) -> SessionAnswer
    ensures { result ≡ session_told error (taken_seen told.now) }
{
    match told {
        Taken::Ignored => SessionAnswer::Refused(error),
        Taken::Fault => SessionAnswer::Refused(ScpiError::HardwareError),
        _ => SessionAnswer::Done(None),
    }
}

/// The answer to no session by the cage's outcome.
fn outside_told<R: Relay, M: Meter>(told: Taken<M>) -> Answer<R, M>
    ensures seen { answer_seen result ≡ outside_told (taken_seen told) }
    ensures very { result ≡ answer_from told }
{
    match told {
        Taken::Ignored => Answer::Missed,
        Taken::Fault => Answer::Failed,
        told => Answer::Taken(work_of(told)),
    }
}

/// The answer to a session after its scan has begun.
fn started_answer<M: Meter>(told: &Taken<M>) -> SessionAnswer
    ensures { result ≡ started_answer (taken_seen told.now) }
{
    match told {
        Taken::Fault => SessionAnswer::Refused(ScpiError::HardwareError),
        _ => SessionAnswer::Done(None),
    }
}

/// Whether a card failed on the way.
#[inline(always)]
fn tells_fault<M: Meter>(told: &Taken<M>) -> bool
    ensures { result ≡ tells_fault (taken_seen told.now) }
{
    match told {
        Taken::Fault => true,
        _ => false,
    }
}

/// Sets QUEStionable where a card failed on the way.
#[inline(always)]
fn report_fault<M: Meter>(status: &mut Status, told: &Taken<M>)
    ensures { status.new ≡ (if tells_fault (taken_seen told.now) then card_fault_reported status.old
        else status.old) }
{
    if tells_fault(told) {
        report_card_fault(status);
    }
}

impl<R: Relay, M: Meter> Core<R, M> {
    /// Offers a happening to the scan.
    #[inline(always)]
    fn happens(&mut self, happening: Happening) -> Taken<M>
        ensures step { Happens self.old.seen happening (any_failed self.old.seen.cage.cards self.new.seen.cage.cards)
            (taken_seen result) self.new.seen }
        ensures meters { KeepsMeters self.old.cards result self.new.cards }
    {
        let told = self.cage.take(happening);
        if tells_fault(&told) {
            report_card_fault(&mut self.status);
        }
        told
    }

    /// Offers a session's happening to the scan; where no scan takes it, this error refuses it. It leaves in `work`
    /// what the scan awaits now.
    #[tactic(auto, using(crate::proofs::CardsLemmas::kept_for))]
    #[inline(never)]
    pub(crate) fn trigger(
        &mut self,
        happening: Happening,
        error: ScpiError,
        work: &mut Option<Work<M>>,
    ) -> SessionAnswer
        ensures step { StepHappens self.old.seen happening error (any_failed self.old.seen.cage.cards
            self.new.seen.cage.cards) result (work_seen work.new) self.new.seen }
        ensures meters { KeepsFor self.old.cards work.new self.new.cards }
    {
        let told = self.happens(happening);
        let answer = session_told(&told, error);
        *work = work_of(told);
        answer
    }

    /// Offers a layer's signal to the scan.
    #[inline(never)]
    pub(crate) fn signal(&mut self, layer: LayerName, work: &mut Option<Work<M>>) -> SessionAnswer
        ensures step { (ask : SessionAsk) (available : Bool)
            → StepAction (action_of available (Command.Signal layer)) self.old.seen ask
            (any_failed self.old.seen.cage.cards self.new.seen.cage.cards) result (work_seen work.new) self.new.seen }
        ensures meters { KeepsFor self.old.cards work.new self.new.cards }
    {
        let error = match layer {
            LayerName::Trigger => ScpiError::TriggerIgnored,
            LayerName::Arm(_) => ScpiError::ArmIgnored,
        };
        self.trigger(Happening::Signal(layer), error, work)
    }

    /// Offers a happening of no session to the scan.
    #[tactic(auto, using(crate::proofs::CardsLemmas::kept_after))]
    #[inline(never)]
    pub(crate) fn outside(&mut self, happening: Happening) -> Answer<R, M>
        ensures step { StepOutside self.old.seen happening (any_failed self.old.seen.cage.cards
            self.new.seen.cage.cards) (answer_seen result) self.new.seen }
        ensures meters { KeepsAfter self.old.cards result self.new.cards }
    {
        let told = self.happens(happening);
        outside_told(told)
    }

    /// Takes a meter back, and its reading where the scan awaits it.
    #[tactic(auto, using(crate::proofs::CardsLemmas::kept_after, crate::proofs::CardsLemmas::kept_back))]
    #[inline(never)]
    pub(crate) fn finished(&mut self, done: Finished<M>) -> Answer<R, M>
        ensures finished { StepFinished self.old.seen done.1
            (failed_in (AskFinished done.1) (answer_seen result) self.old.seen.cage.cards self.new.seen.cage.cards)
            (answer_seen result) self.new.seen }
        ensures own { IsOwnAccount (AskFinished done.1) }
        ensures back { HandsBack (Ask.Finished done) result }
        ensures cards { Keeps self.old.cards (Ask.Finished done) result self.new.cards }
    {
        match self.cage.finish(done) {
            Err(done) => Answer::Back(done),
            Ok(taken) => {
                if tells_fault(&taken) {
                    report_card_fault(&mut self.status);
                }
                outside_told(taken)
            }
        }
    }

    /// Takes a meter back: one event, as `finish` does it. It leaves what the scan awaits now in `work`, and drops a
    /// meter that is not out here.
    #[inline(always)]
    #[tactic(auto, using(crate::proofs::BroughtLemmas::returned_back, crate::proofs::CardsLemmas::kept_for))]
    pub fn come_back(&mut self, done: Finished<M>, work: &mut Option<Work<M>>)
        requires empty { work.old ≡ None }
        ensures brings { StepBrings self.old.seen (AskFinished done.1) (work_seen work.new) self.new.seen }
        ensures back { slot_at self.old.seen.cage.out done.1.slot ≡ Some done.1.ticket
            → KeepsFor (with_card_back self.old.cards done) work.new self.new.cards }
        ensures other { (slot_at self.old.seen.cage.out done.1.slot ≡ Some done.1.ticket → ⊥)
            → self.new.cards ≡ self.old.cards }
    {
        match self.cage.finish(done) {
            Err(_) => {}
            Ok(said) => {
                report_fault(&mut self.status, &said);
                self.conclude(said, work);
            }
        }
    }

    /// Ends a pause: one event, as `apply` does it. It leaves what the scan awaits now in `work`.
    #[inline(always)]
    #[tactic(auto, using(crate::proofs::BroughtLemmas::elapsed_worn, crate::proofs::CardsLemmas::kept_for))]
    pub fn elapse(&mut self, ticket: Ticket, work: &mut Option<Work<M>>)
        requires empty { work.old ≡ None }
        ensures brings { StepBrings self.old.seen (AskElapsed ticket) (work_seen work.new) self.new.seen }
        ensures meters { KeepsFor self.old.cards work.new self.new.cards }
    {
        if self.events == u64::MAX {
            return;
        }
        let told = self.happens(Happening::Elapsed(ticket));
        self.conclude(told, work);
    }

    /// Ends an event of no session by the cage's outcome, and leaves what the scan awaits now in `work`.
    #[inline(always)]
    #[tactic(auto, using(crate::proofs::BroughtLemmas::concluded_fault, crate::proofs::BroughtLemmas::concluded_else, crate::proofs::BroughtLemmas::told_brings))]
    fn conclude(&mut self, said: Taken<M>, work: &mut Option<Work<M>>)
        ensures ended { self.new.seen ≡ concluded (outside_told (taken_seen said)) self.old.seen }
        ensures brings { Brings (outside_told (taken_seen said)) (work_seen work.new) }
        ensures work { work.new ≡ work_from said }
        ensures cards { self.new.cards ≡ self.old.cards }
    {
        if tells_fault(&said) {
            self.status.push_error(ScpiError::HardwareError);
        }
        self.count_event();
        *work = work_of(said);
    }

    /// Why no scan may begin now.
    fn refuses_scan(&self) -> Option<ScpiError>
        ensures error { IfSome result (λ e. RefusesScan self.now.seen e) }
        ensures none { IfNone result (MayScan self.now.seen) }
    {
        if self.cage.is_running() {
            return Some(ScpiError::InitIgnored);
        }
        if self.cage.has_out(self.settings.meter()) {
            return Some(ScpiError::SettingsConflict);
        }
        if self.cage.number() == u64::MAX {
            return Some(ScpiError::SystemError);
        }
        None
    }

    /// What a scan would begin from.
    #[inline(never)]
    pub(crate) fn snapshot(&self, alloc: Global) -> SessionAnswer
        ensures { StepSnapshot self.now.seen Bool.false result self.now.seen }
    {
        if let Some(error) = self.refuses_scan() {
            return SessionAnswer::Refused(error);
        }
        match self.take_snapshot(alloc) {
            Ok(snapshot) => SessionAnswer::Snapshot(snapshot, self.cage.number()),
            Err(_) => SessionAnswer::Refused(ScpiError::OutOfMemory),
        }
    }

    fn take_snapshot(&self, alloc: Global) -> Result<Boxed<Snapshot>, AllocError>
        ensures { IfOk result (λ s. s ≡ snapshot_of self.now.seen) }
    {
        let snapshot = Snapshot {
            settings: self.settings.try_copy(alloc)?,
            layout: self.cage.layout(alloc)?,
            closed: Sequence::new(self.cage.closed_chans(alloc)?),
        };
        Boxed::new(alloc, snapshot)
    }

    /// Begins the scan of a plan, where the plan was made of the state as it is now. It leaves what the scan awaits now
    /// in `work`.
    #[inline(never)]
    #[tactic(auto, using(crate::proofs::HappenedLemmas::refused_start))]
    pub(crate) fn start(
        &mut self,
        alloc: Global,
        plan: Plan,
        work: &mut Option<Work<M>>,
    ) -> SessionAnswer
        requires empty { work.old ≡ None }
        ensures step { StepStart self.old.seen plan (any_failed self.old.seen.cage.cards self.new.seen.cage.cards)
            result (work_seen work.new) self.new.seen }
        ensures meters { KeepsFor self.old.cards work.new self.new.cards }
    {
        if let Some(error) = self.refuses_scan() {
            return SessionAnswer::Refused(error);
        }
        if !self.is_now(plan.snapshot()) {
            return SessionAnswer::Refused(ScpiError::SettingsConflict);
        }
        self.begin(alloc, plan, work)
    }

    /// Whether the snapshot is of the state as it is now. It takes no memory.
    fn is_now(&self, snapshot: &Snapshot) -> bool
        ensures { IsTrue result ↔ (snapshot.now ≡ snapshot_of self.now.seen) }
    {
        self.settings.is_same(&snapshot.settings)
            && self.cage.has_layout(&snapshot.layout)
            && self.cage.has_closed(snapshot.closed.as_slice())
    }

    #[tactic(auto, using(crate::proofs::CardsLemmas::kept_for))]
    fn begin(&mut self, alloc: Global, plan: Plan, work: &mut Option<Work<M>>) -> SessionAnswer
        requires may { MayScan self.old.seen }
        requires same { plan ≡ snapshot_of self.old.seen }
        requires ready { IsReady plan }
        requires empty { work.old ≡ None }
        ensures step { StepStart self.old.seen plan (any_failed self.old.seen.cage.cards self.new.seen.cage.cards)
            result (work_seen work.new) self.new.seen }
        ensures meters { KeepsFor self.old.cards work.new self.new.cards }
    {
        match self.cage.start(alloc, plan.into_course()) {
            Err(_) => SessionAnswer::Refused(ScpiError::OutOfMemory),
            Ok(told) => {
                set_card_fault(&mut self.status, tells_fault(&told));
                let answer = started_answer(&told);
                *work = work_of(told);
                answer
            }
        }
    }
}
