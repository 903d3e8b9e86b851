//! A mainframe with its history, which has an entry for each event, one after another; the status board shows the end
//! of it.

ghost use Rattle.std.specs.Prelude.{◌≡◌, ◌<◌, ◌^◌, ◌↔◌, ℕ, [], ◌∷◌, ◌++◌, None, Some, true};
ghost use mathlib.Core.List.{IsPrefix};
ghost use Rattle.sw_cage.specs.Accounts.{accounts_of};
ghost use Rattle.sw_status.specs.StatusModel.{summary_of};
ghost use Rattle.sw_core.specs.Opening.{IsFresh, IsReached};
ghost use Rattle.sw_core.specs.Panel.{Panel, is_running};
ghost use Rattle.sw_core.specs.Step.{Step};
ghost use Rattle.sw_core.specs.Seen.{failed_in, IsOwnAccount};
ghost use Rattle.sw_history.specs.Board.{entry_of};
ghost use Rattle.sw_history.specs.Came.{AllCame};
ghost use Rattle.sw_history.specs.Entries.{made_by};
ghost use Rattle.sw_history.specs.History.{pair_of, event, said_at, grown, IsHistory, AsksInHistory, AwaitsEnd};
ghost use Rattle.sw_history.specs.Said.{said_in};
ghost use Rattle.sw_history.specs.Shares.{is_event};

use crate::board::{BoardName, StatusBoard};
use crate::event_kind::EventKind;
use crate::seat::{LockedPass, StatusSeat};
use crate::telling::{Happened, tell_event};
use std::alloc::Global;
use std::marker::{Brand, Model};
use std::snapshot::Snapshot;
use std::sync::Arc;
use sw_card::{Meter, Relay};
use sw_core::{Core, SessionAsk, Sid, runs_go_on};
use sw_lex::{Command, NoData};

/// Which mainframe it is, to its cards.
pub trait Equipped {
    ghost use Rattle.std.specs.Prelude.{ℕ};
    ghost use Rattle.sw_card.specs.Account.{Account};

    /// The card came into this place, which is counted from 0: the mainframe opened with it, or an ask brought it.
    ghost came: { {C : Type 0} → ℕ → C × Account → Type 0 };
}

impl Equipped for Brand {
    ghost came = { λ place card. Unit {0} };
}

/// Which mainframe it is, to what is asked of it. Only the call here proves that the card of an ask came.
pub trait Asked: Equipped {
    ghost use Rattle.sw_core.specs.Seen.{failed_in, IsOwnAccount};
    ghost use Rattle.sw_core.specs.Step.{Step};
    ghost use Rattle.sw_history.specs.Came.{HasCome};

    /// Makes an ask of the mainframe. It leaves the answer in `answer`, and what comes beside it in `left`.
    fn make<R: Relay, M: Meter, E: EventKind<R, M>>(
        core: &mut Core<R, M>,
        alloc: Global,
        ask: E::Ask,
        answer: &mut E::Answer,
        left: &mut E::Left,
    )
        requires { E.is_blank left.old }
        ensures step { let said = E.answered answer.new left.new in Step core.old.seen (E.asked ask)
            (failed_in (E.asked ask) said core.old.seen.cage.cards core.new.seen.cage.cards) said core.new.seen }
        ensures own { IsOwnAccount (E.asked ask) }
        ensures back { E.hands_back ask answer.new }
        ensures cards { E.keeps core.old.cards ask answer.new left.new core.new.cards }
        ensures came { HasCome Self.came (E.brought ask) };
}

impl Asked for Brand {
    #[tactic(auto, using(crate::proofs::CameLemmas::has_come))]
    #[inline(always)]
    fn make<R: Relay, M: Meter, E: EventKind<R, M>>(
        core: &mut Core<R, M>,
        alloc: Global,
        ask: E::Ask,
        answer: &mut E::Answer,
        left: &mut E::Left,
    ) {
        E::happen(core, alloc, ask, answer, left);
    }
}

/// Which mainframe it is: its board, and the panel that it opened with.
pub trait Recording: BoardName {
    ghost first: { Panel };
}

impl Recording for Brand {
    ghost use Rattle.sw_core.specs.Panel.{opening};

    ghost first = { opening };
}

/// A mainframe and its history. Contracts see its panel, all its events, and the cards themselves by slot.
///
/// Whenever it is seen, the history leads from the opening panel to this one, and its last pair is this panel's. The
/// mainframe opened fresh, so this panel is reached by a run from the opening state. Each meter is one that came.
#[derive(Drop)]
pub struct Recorded<B: Recording + Asked, R: Relay, M: Meter> {
    core: Core<R, M>,
    pass: LockedPass<B>,
    board: Arc<StatusBoard<B>, Global>,
}

impl<B: Recording + Asked, R: Relay, M: Meter> Model for Recorded<B, R, M> {
    ghost use Rattle.std.specs.Prelude.{◌≡◌, ◌⊎◌};
    ghost use Rattle.sw_core.specs.Opening.{IsFresh, IsReached};
    ghost use Rattle.sw_history.specs.Came.{AllCame};
    ghost use Rattle.sw_history.specs.History.{InHistory, IsHistory, pair_of};

    ghost Value = { InHistory (R ⊎ M) };

    ghost view = { λ r. record { panel = r.core.seen; history = r.pass; cards = r.core.cards } };

    ghost invariant = { λ r. IsHistory B.first r.pass r.core.seen × IsReached r.core.seen × IsFresh B.first
        × (B.opening ≡ pair_of B.first) × AllCame B.came r.core.cards };
}

impl<B: Recording + Asked, R: Relay, M: Meter> Recorded<B, R, M> {
    /// A mainframe with no event yet, which was just made and offered cards.
    pub fn new(core: Core<R, M>, pass: LockedPass<B>, board: Arc<StatusBoard<B>, Global>) -> Self
        requires first { (core.seen ≡ B.first) × (B.opening ≡ pair_of B.first) }
        requires fresh { IsFresh core.seen }
        requires came { AllCame B.came core.cards }
        requires none { pass ≡ [] }
        ensures { result ≡ record { panel = core.seen; history = []; cards = core.cards } }
    {
        runs_go_on();
        Recorded { core, pass, board }
    }

    /// A seat of a new desk, which has seen the whole history and has no entry in it.
    pub fn new_desk(&mut self) -> StatusSeat<B>
        ensures same { self.new ≡ self.old }
        ensures desk { (d : ℕ) × (result.desk ≡ Some d) }
        ensures seen { (result.seen ≡ self.old.history) × (result.mine ≡ []) }
    {
        self.pass.new_desk(&self.board)
    }

    /// Makes an ask, and gives whether that was an event. An event is published and becomes one more entry of the desk
    /// in the history; what is no event changes nothing. The desk has then seen the whole history. It leaves the answer
    /// in `answer`, and what comes beside it in `left`.
    #[inline(always)]
    pub fn ask<E: EventKind<R, M>>(
        &mut self,
        alloc: Global,
        desk: &mut StatusSeat<B>,
        ask: E::Ask,
        answer: &mut E::Answer,
        left: &mut E::Left,
    ) -> bool
        requires desk { (d : ℕ) × (desk.old.desk ≡ Some d) }
        requires blank { E.is_blank left.old }
        ensures step { let said = E.answered answer.new left.new in Step self.old.panel (E.asked ask)
            (failed_in (E.asked ask) said self.old.panel.cage.cards self.new.panel.cage.cards) said self.new.panel }
        ensures own { IsOwnAccount (E.asked ask) }
        ensures back { E.hands_back ask answer.new }
        ensures cards { E.keeps self.old.cards ask answer.new left.new self.new.cards }
        ensures event { result ≡ is_event (E.answered answer.new left.new) }
        ensures history { AsksInHistory B.first self.old.panel desk.old
            (event (E.asked ask) (E.answered answer.new left.new) self.new.panel) desk.new }
        ensures seen { IsPrefix desk.old.seen self.old.history × (desk.new.seen ≡ self.new.history) }
        ensures grown { let said = E.answered answer.new left.new in self.new.history
            ≡ grown (is_event said) self.old.history (entry_of desk.old (said_at self.new.panel (E.asked ask) said)) }
    {
        runs_go_on();
        E::all_came::<B>();
        let Recorded { core, pass, board } = self;
        let asked = Snapshot::of(&ask);
        B::make::<R, M, E>(core, alloc, ask, answer, left);
        if !E::is_event(answer) {
            pass.tell(board, desk);
            return false;
        }
        let event = Happened {
            number: core.events(),
            ask: asked,
            answer: Snapshot::of(answer),
            left: Snapshot::of(left),
            pair: core.pair(),
        };
        tell_event::<B, R, M, E>(pass, board, desk, &event);
        true
    }

    /// Whether the mainframe would hold the session's `*OPC?` now: a scan runs, or others have a lock.
    #[tactic(auto, using(crate::proofs::HoldsLemmas::awaits_known))]
    pub fn awaits_end(&self, sid: Sid) -> bool
        ensures { (result ≡ true) ↔ AwaitsEnd self.now.panel sid }
    {
        let query = SessionAsk::Unit(sid, Command::NoData(NoData::OperationCompleteQuery), false);
        self.core.holds(&query)
    }

    /// Whenever it is seen, its history leads from the opening panel, which was fresh, to this one, which is reached,
    /// each meter is one that came, and the panel has the accounts of the cards themselves.
    pub fn has_history(&self)
        ensures leads { IsHistory B.first self.now.history self.now.panel }
        ensures reached { IsReached self.now.panel }
        ensures fresh { IsFresh B.first }
        ensures came { AllCame B.came self.now.cards }
        ensures accounts { self.now.panel.cage.cards ≡ accounts_of self.now.cards }
    {
        self.core.has_accounts();
    }

    /// Whether a scan runs.
    pub fn is_running(&self) -> bool
        ensures { result ≡ is_running self.now.panel }
    {
        self.core.is_running()
    }

    /// The number of events.
    pub fn events(&self) -> u64
        ensures { result ≡ self.now.panel.events }
    {
        self.core.events()
    }

    /// The mainframe, once no desk asks it any more.
    pub fn into_core(self) -> Core<R, M>
        ensures seen { result.seen ≡ self.panel }
        ensures cards { result.cards ≡ self.cards }
    {
        let Recorded {
            core,
            pass: _,
            board: _,
        } = self;
        core
    }
}
