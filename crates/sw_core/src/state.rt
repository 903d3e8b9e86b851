//! The whole state of the mainframe, and the calls that change it: `apply`, and its part `ask`.

ghost use Rattle.std.specs.Prelude.{◌≡◌, ◌==◌, ◌&&◌, ◌||◌, Bool, IfOk, None, Some, replicate, true, false};
ghost use Rattle.sw_base.specs.Limits.{most_slots};
ghost use Rattle.sw_cage.specs.Accounts.{accounts_of};
ghost use Rattle.sw_cage.specs.Change.{any_failed};
ghost use Rattle.sw_status.specs.StatusModel.{summary_of};
ghost use Rattle.sw_core.specs.Sessions.{IsJoined};
ghost use Rattle.sw_core.specs.Seen.{ask_seen, answer_seen, work_seen, failed_in, HandsBack, IsOwnAccount};
ghost use Rattle.sw_core.specs.Seen.{AskSession, AskInstall, AskEject, SaysSession};
ghost use Rattle.sw_core.specs.Cards.{Keeps, KeepsFor};
ghost use Rattle.sw_core.specs.Panel.{is_running, opening, opening_at};
ghost use Rattle.sw_core.specs.Seats.{asker_of};
ghost use Rattle.sw_core.specs.Event.{last_number};
ghost use Rattle.sw_core.specs.Action.{awaits_end};
ghost use Rattle.sw_core.specs.Step.{Step, Acts, StepSession, StepNew, StepJoin, StepAttach, StepJoined, is_held};
ghost use Rattle.sw_core.specs.Step.{drops, shuts_out};
ghost use Rattle.sw_core.specs.declared.ask.Sid.{Sid};
ghost use Rattle.sw_core.specs.declared.ask.Ask.TheVariants as Ask;
ghost use Rattle.sw_core.specs.declared.ask.SessionAnswer.TheVariants.{Hold};
ghost use Rattle.sw_core.specs.declared.ask.SessionAsk.TheVariants.{Unit, Bus};
ghost use Rattle.sw_lex.specs.declared.command.Command.{Command};

use crate::ask::{Answer, Ask, SessionAnswer, SessionAsk, Sid, Work};
use crate::asks::{
    acts_unnumbered, asker, awaits_end, break_off, hand_back, hand_unit_back, hold, hold_unit,
    is_abort, is_held, put, session_acts_unnumbered, turn_away, unnumbered,
};
use crate::registers::clear_card_fault;
use crate::sessions::Sessions;
use std::alloc::{AllocError, Global};
use std::marker::Model;
use sw_base::ScpiError;
use sw_cage::{Cage, Finished, Happening};
use sw_card::{Card, Meter, Relay};
use sw_lex::{Command, NoData};
use sw_status::Status;
use sw_verify::Setup;

/// The mainframe: its cage of cards and its scan, its sessions, its status and the settings of its scans.
///
/// Contracts see the cards themselves by slot (`cards`), and the mainframe as data (`seen`), in which each card is its
/// own account.
#[derive(Drop)]
pub struct Core<R: Relay, M: Meter> {
    pub(crate) cage: Cage<R, M>,
    pub(crate) sessions: Sessions,
    pub(crate) status: Status,
    pub(crate) settings: Setup,
    /// Whether `*OPC` waits for the end of the scan.
    pub(crate) opc_waits: bool,
    /// How many events there were.
    pub(crate) events: u64,
}

impl<R: Relay, M: Meter> Model for Core<R, M> {
    ghost use Rattle.std.specs.Prelude.{◌⊎◌};
    ghost use Rattle.sw_core.specs.Cards.{CoreState};

    ghost Value = { CoreState (R ⊎ M) };

    ghost view = { λ c. record {
      cards = c.cage.cards;
      seen = record {
        cage = c.cage.seen;
        sessions = c.sessions;
        status = c.status;
        settings = c.settings;
        opc_waits = c.opc_waits;
        events = c.events;
      };
    } };
}

impl<R: Relay, M: Meter> Core<R, M> {
    /// A mainframe with an empty cage, and no session joined.
    pub fn new(alloc: Global) -> Result<Self, AllocError>
        ensures seen { IfOk result (λ core. core.seen ≡ opening) }
        ensures cards { IfOk result (λ core. core.cards ≡ replicate most_slots None) }
    {
        Core::with_counts(alloc, 0, 0)
    }

    /// A mainframe that counts its events and its scans on from these numbers.
    pub fn with_counts(alloc: Global, events: u64, scans: u64) -> Result<Self, AllocError>
        ensures seen { IfOk result (λ core. core.seen ≡ opening_at events scans) }
        ensures cards { IfOk result (λ core. core.cards ≡ replicate most_slots None) }
    {
        Ok(Core {
            cage: Cage::with_number(alloc, scans)?,
            sessions: Sessions::new(),
            status: Status::new(alloc)?,
            settings: Setup::new(alloc),
            opc_waits: false,
            events,
        })
    }

    /// The number of events so far. It stays at 2^64 - 1.
    pub fn events(&self) -> u64
        ensures { result ≡ self.now.seen.events }
    {
        self.events
    }

    /// Whether a scan runs.
    pub fn is_running(&self) -> bool
        ensures { result ≡ is_running self.now.seen }
    {
        self.cage.is_running()
    }

    /// A law: the mainframe as data has the accounts of the cards themselves. It costs nothing.
    pub fn has_accounts(&self)
        ensures { self.now.seen.cage.cards ≡ accounts_of self.now.cards }
    {
        self.cage.stays_good();
    }

    /// The status byte without bits 4 and 6, and the number of service requests so far: the published status.
    pub fn pair(&self) -> (u8, u64)
        ensures byte { result.0 ≡ summary_of self.now.seen.status }
        ensures requests { result.1 ≡ self.now.seen.status.requests }
    {
        (self.status.summary(), self.status.requests())
    }

    /// Does an ask: one event.
    ///
    /// A refusal queues its error. Only queries, snapshots and the start of a scan take memory; where there is none,
    /// -225 refuses them and they change nothing. After 2^64 - 1 events the answer gives the ask back, but for an
    /// abort, an eject and the return of a meter, which still act. A meter that returns reports what its own account
    /// says.
    #[tactic(auto, using(crate::proofs::NumberedLemmas::worn_step, crate::proofs::NumberedLemmas::numbered_step, crate::proofs::NumberedLemmas::own_worn))]
    pub fn apply(&mut self, alloc: Global, ask: Ask<R, M>) -> Answer<R, M>
        ensures step { Step self.old.seen (ask_seen ask)
            (failed_in (ask_seen ask) (answer_seen result) self.old.seen.cage.cards self.new.seen.cage.cards)
            (answer_seen result) self.new.seen }
        ensures own { IsOwnAccount (ask_seen ask) }
        ensures back { HandsBack ask result }
        ensures cards { Keeps self.old.cards ask result self.new.cards }
    {
        if self.events == u64::MAX && !acts_unnumbered(&ask) {
            return unnumbered(ask);
        }
        let answer = self.act(alloc, ask);
        self.end_event(&answer);
        answer
    }

    /// Does a session's ask: one event, as `apply` does it, where it can number that. It leaves the answer in `answer`,
    /// and what the scan awaits now in `work`.
    #[tactic(auto, using(crate::proofs::NumberedLemmas::worn_step, crate::proofs::NumberedLemmas::numbered_step))]
    pub fn ask(
        &mut self,
        alloc: Global,
        ask: SessionAsk,
        answer: &mut SessionAnswer,
        work: &mut Option<Work<M>>,
    )
        requires { work.old ≡ None }
        ensures step { Step self.old.seen (AskSession ask) (any_failed self.old.seen.cage.cards
            self.new.seen.cage.cards) (SaysSession answer.new (work_seen work.new)) self.new.seen }
        ensures meters { KeepsFor self.old.cards work.new self.new.cards }
    {
        if self.events == u64::MAX && !session_acts_unnumbered(&ask) {
            hand_back(ask, answer);
            return;
        }
        self.session(alloc, ask, answer, work);
        self.end_session_event(answer);
    }

    /// Does a session's unit, as `ask` does it. It makes the ask only where it gives it back.
    #[tactic(auto, using(crate::proofs::NumberedLemmas::worn_step, crate::proofs::NumberedLemmas::numbered_step))]
    #[inline(always)]
    pub fn ask_unit(
        &mut self,
        alloc: Global,
        sid: Sid,
        command: Command,
        available: bool,
        answer: &mut SessionAnswer,
        work: &mut Option<Work<M>>,
    )
        requires { work.old ≡ None }
        ensures step { Step self.old.seen (AskSession (Unit sid command available))
            (any_failed self.old.seen.cage.cards self.new.seen.cage.cards) (SaysSession answer.new (work_seen work.new))
            self.new.seen }
        ensures meters { KeepsFor self.old.cards work.new self.new.cards }
    {
        if self.events == u64::MAX && !is_abort(&command) {
            hand_unit_back(sid, command, available, answer);
            return;
        }
        self.unit(alloc, sid, command, available, answer, work);
        self.end_session_event(answer);
    }

    /// Whether the mainframe would hold a session's ask now; nothing changes. For a lock's ask the answer is no.
    pub fn holds(&self, ask: &SessionAsk) -> bool
        ensures held { result ≡ true → Step self.now.seen (AskSession ask.now) Bool.false
            (SaysSession (Hold ask.now) None) self.now.seen }
        ensures answer { (sid : Sid) → asker_of ask.now ≡ Some sid → IsJoined self.now.seen.sessions sid
            → drops self.now.seen sid ask.now ≡ false → (self.now.seen.events == last_number) ≡ false
            → result ≡ shuts_out self.now.seen sid ask.now || (is_held ask.now && is_running self.now.seen) }
    {
        if self.events == u64::MAX {
            return false;
        }
        let Some(sid) = asker(ask) else {
            return false;
        };
        if !self.sessions.has(sid) {
            return false;
        }
        if self.sessions.drops(sid, ask) {
            return false;
        }
        self.sessions.shuts_out(sid, ask) || (is_held(ask) && self.cage.is_running())
    }

    /// Does an ask, and leaves the end of the event to the caller.
    fn act(&mut self, alloc: Global, ask: Ask<R, M>) -> Answer<R, M>
        ensures acts { Acts self.old.seen (ask_seen ask)
            (failed_in (ask_seen ask) (answer_seen result) self.old.seen.cage.cards self.new.seen.cage.cards)
            (answer_seen result) self.new.seen }
        ensures own { IsOwnAccount (ask_seen ask) }
        ensures back { HandsBack ask result }
        ensures cards { Keeps self.old.cards ask result self.new.cards }
    {
        match ask {
            Ask::Session(ask) => {
                let mut answer = SessionAnswer::Stranger;
                let mut work = None;
                self.session(alloc, ask, &mut answer, &mut work);
                Answer::Session(answer, work)
            }
            Ask::Install(slot, card) => self.install(slot, card),
            Ask::Eject(slot) => self.eject(slot),
            Ask::External => self.outside(Happening::External),
            Ask::Elapsed(ticket) => self.outside(Happening::Elapsed(ticket)),
            Ask::Finished(done) => self.finished(done),
        }
    }

    #[tactic(auto, using(crate::proofs::CallsLemmas::failed_same))]
    #[inline(never)]
    fn install(&mut self, slot: u8, card: Card<R, M>) -> Answer<R, M>
        ensures acts { Acts self.old.seen (AskInstall slot card.1) (any_failed self.old.seen.cage.cards
            self.new.seen.cage.cards) (answer_seen result) self.new.seen }
        ensures back { HandsBack (Ask.Install slot card) result }
        ensures cards { Keeps self.old.cards (Ask.Install slot card) result self.new.cards }
    {
        match self.cage.install(slot, card) {
            Ok(()) => return Answer::Installed,
            Err((refusal, card)) => return Answer::NotInstalled(refusal, card),
        }
    }

    #[tactic(auto, using(crate::proofs::CallsLemmas::failed_same))]
    #[inline(never)]
    fn eject(&mut self, slot: u8) -> Answer<R, M>
        ensures acts { Acts self.old.seen (AskEject slot) (any_failed self.old.seen.cage.cards self.new.seen.cage.cards)
            (answer_seen result) self.new.seen }
        ensures cards { Keeps self.old.cards (Ask.Eject slot) result self.new.cards }
    {
        match self.cage.eject(slot) {
            Ok(card) => {
                clear_card_fault(&mut self.status);
                Answer::Ejected(card)
            }
            Err(refusal) => Answer::NotEjected(refusal),
        }
    }

    /// Does an ask of a session or of none, or drops it, holds it or answers `Stranger`.
    fn session(
        &mut self,
        alloc: Global,
        ask: SessionAsk,
        answer: &mut SessionAnswer,
        work: &mut Option<Work<M>>,
    )
        requires { work.old ≡ None }
        ensures step { StepSession (asker_of ask) self.old.seen ask (any_failed self.old.seen.cage.cards
            self.new.seen.cage.cards) answer.new (work_seen work.new) self.new.seen }
        ensures meters { KeepsFor self.old.cards work.new self.new.cards }
    {
        match ask {
            SessionAsk::Unit(sid, command, available) => {
                self.unit(alloc, sid, command, available, answer, work);
            }
            ask => self.beside_units(alloc, ask, answer, work),
        }
    }

    /// Does a session's unit, or drops it, holds it or answers `Stranger`.
    #[tactic(auto, using(crate::proofs::CallsLemmas::failed_same))]
    #[inline(always)]
    fn unit(
        &mut self,
        alloc: Global,
        sid: Sid,
        command: Command,
        available: bool,
        answer: &mut SessionAnswer,
        work: &mut Option<Work<M>>,
    )
        requires { work.old ≡ None }
        ensures step { StepSession (Some sid) self.old.seen (Unit sid command available)
            (any_failed self.old.seen.cage.cards self.new.seen.cage.cards) answer.new (work_seen work.new)
            self.new.seen }
        ensures meters { KeepsFor self.old.cards work.new self.new.cards }
    {
        if !self.sessions.has(sid) {
            drop(command);
            turn_away(answer);
            return;
        }
        if self.sessions.is_clearing(sid) {
            drop(command);
            break_off(answer);
            return;
        }
        if !self.sessions.admits(sid) || (awaits_end(&command) && self.cage.is_running()) {
            hold_unit(sid, command, available, answer);
            return;
        }
        put(self.command(alloc, command, available, work), answer);
    }

    /// Does an ask other than a unit, of a session or of none, or drops it, holds it or answers `Stranger`.
    #[tactic(auto, using(crate::proofs::CallsLemmas::failed_same))]
    #[inline(never)]
    fn beside_units(
        &mut self,
        alloc: Global,
        ask: SessionAsk,
        answer: &mut SessionAnswer,
        work: &mut Option<Work<M>>,
    )
        requires apart { (sid : Sid) (command : Command) (available : Bool) → ask ≡ Unit sid command available → ⊥ }
        requires empty { work.old ≡ None }
        ensures step { StepSession (asker_of ask) self.old.seen ask (any_failed self.old.seen.cage.cards
            self.new.seen.cage.cards) answer.new (work_seen work.new) self.new.seen }
        ensures meters { KeepsFor self.old.cards work.new self.new.cards }
    {
        let Some(sid) = asker(&ask) else {
            self.newcomer(ask, answer);
            return;
        };
        if !self.sessions.has(sid) {
            drop(ask);
            turn_away(answer);
            return;
        }
        if self.sessions.drops(sid, &ask) {
            drop(ask);
            break_off(answer);
            return;
        }
        if self.sessions.shuts_out(sid, &ask) {
            hold(ask, answer);
            return;
        }
        self.joined(alloc, sid, ask, answer, work);
    }

    /// Does an ask of no session.
    #[inline(never)]
    fn newcomer(&mut self, ask: SessionAsk, answer: &mut SessionAnswer)
        requires { asker_of ask ≡ None }
        ensures step { StepNew self.old.seen ask (any_failed self.old.seen.cage.cards self.new.seen.cage.cards)
            answer.new None self.new.seen }
        ensures cards { self.new.cards ≡ self.old.cards }
    {
        match ask {
            SessionAsk::Attach(number) => put(self.attach(number), answer),
            ask => {
                drop(ask);
                put(self.join(), answer);
            }
        }
    }

    /// Makes the second channel of a session.
    #[tactic(auto, using(crate::proofs::CallsLemmas::failed_same))]
    fn attach(&mut self, number: u8) -> SessionAnswer
        ensures step { StepAttach self.old.seen number (any_failed self.old.seen.cage.cards self.new.seen.cage.cards)
            result None self.new.seen }
        ensures cards { self.new.cards ≡ self.old.cards }
    {
        match self.sessions.attach(number) {
            Some(sid) => SessionAnswer::Joined(sid),
            None => SessionAnswer::Stranger,
        }
    }

    /// Makes a new session.
    #[tactic(auto, using(crate::proofs::CallsLemmas::failed_same))]
    fn join(&mut self) -> SessionAnswer
        ensures step { StepJoin self.old.seen (any_failed self.old.seen.cage.cards self.new.seen.cage.cards) result None
            self.new.seen }
        ensures cards { self.new.cards ≡ self.old.cards }
    {
        match self.sessions.join(self.events.saturating_add(1)) {
            Some(sid) => SessionAnswer::Joined(sid),
            None => SessionAnswer::Full,
        }
    }

    /// Does a joined session's ask other than a unit, where nothing holds it.
    #[tactic(auto, using(crate::proofs::CallsLemmas::failed_same))]
    fn joined(
        &mut self,
        alloc: Global,
        sid: Sid,
        ask: SessionAsk,
        answer: &mut SessionAnswer,
        work: &mut Option<Work<M>>,
    )
        requires asker { asker_of ask ≡ Some sid }
        requires joined { IsJoined self.old.seen.sessions sid }
        requires apart { (sid : Sid) (command : Command) (available : Bool) → ask ≡ Unit sid command available → ⊥ }
        requires empty { work.old ≡ None }
        ensures step { StepJoined self.old.seen ask (any_failed self.old.seen.cage.cards self.new.seen.cage.cards)
            answer.new (work_seen work.new) self.new.seen }
        ensures meters { KeepsFor self.old.cards work.new self.new.cards }
    {
        match ask {
            SessionAsk::Fault(_, error) => {
                self.status.push_error(error);
                put(SessionAnswer::Done(None), answer);
            }
            SessionAsk::Bus(_) => {
                let told = self.trigger(Happening::Bus, ScpiError::TriggerIgnored, work);
                put(told, answer);
            }
            SessionAsk::Snapshot(_) => put(self.snapshot(alloc), answer),
            SessionAsk::Start(_, plan) => put(self.start(alloc, plan, work), answer),
            ask => put(self.sessions.serve(alloc, sid, ask), answer),
        }
    }
}
