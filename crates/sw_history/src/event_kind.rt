//! The two kinds of events: those for which a session asks, and those from outside. One step under the lock serves
//! both.

use crate::coming::Coming;
use crate::note::AskKind;
use crate::recorded::Equipped;
use crate::waking::{WakeScope, may_end};
use std::alloc::Global;
use std::mem::replace;
use sw_card::{Meter, Relay};
use sw_core::{Answer, Ask, Core, SessionAnswer, SessionAsk, Work};

/// A kind of event: its ask and its answer, how the mainframe is asked, and what ask and answer say.
pub trait EventKind<R: Relay, M: Meter> {
    ghost use Rattle.std.specs.Prelude.{◌≡◌, ℕ, Option, None, Some, MatchOption, ◌⊎◌};
    ghost use Rattle.sw_card.specs.Account.{Account};
    ghost use Rattle.sw_cage.specs.Cards.{Cards};
    ghost use Rattle.sw_core.specs.Step.{Step};
    ghost use Rattle.sw_core.specs.Seen.{AskSeen, AnswerSeen, failed_in, IsOwnAccount};
    ghost use Rattle.sw_history.specs.Closing.{is_unasked};
    ghost use Rattle.sw_history.specs.Came.{AllCame, HasCome};
    ghost use Rattle.sw_history.specs.Coming.{coming_of};
    ghost use Rattle.sw_history.specs.Kinds.{ask_kind};
    ghost use Rattle.sw_history.specs.Said.{session_told};
    ghost use Rattle.sw_history.specs.Shares.{is_event};
    ghost use Rattle.sw_history.specs.Waking.{scope_of, changes_seats, may_be_over};

    /// What is asked.
    type Ask: Drop;

    /// What is answered.
    type Answer: Drop;

    /// What comes beside the answer: the work that a session's scan awaits now.
    type Left: Drop;

    /// What is asked, with cards by their accounts.
    ghost asked: { Self.Ask → AskSeen };

    /// What is answered, with what came beside it.
    ghost answered: { Self.Answer → Self.Left → AnswerSeen };

    /// Nothing has come yet.
    ghost is_blank: { Self.Left → Type 0 };

    /// What the answer gives back is what the ask had.
    ghost hands_back: { Self.Ask → Self.Answer → Type 0 };

    /// Which cards are the very ones after the ask.
    ghost keeps: { Cards (R ⊎ M) → Self.Ask → Self.Answer → Self.Left → Cards (R ⊎ M) → Type 0 };

    /// The card that the ask brings, if any, and its place.
    ghost brought: { Self.Ask → Option (ℕ × ((R ⊎ M) × Account)) };

    /// Makes the ask. It leaves the answer in `answer`, and what comes beside it in `left`.
    fn happen(
        core: &mut Core<R, M>,
        alloc: Global,
        ask: Self::Ask,
        answer: &mut Self::Answer,
        left: &mut Self::Left,
    )
        requires { is_blank left.old }
        ensures step { let said = answered answer.new left.new in Step core.old.seen (asked ask)
            (failed_in (asked ask) said core.old.seen.cage.cards core.new.seen.cage.cards) said core.new.seen }
        ensures own { IsOwnAccount (asked ask) }
        ensures back { hands_back ask answer.new }
        ensures cards { keeps core.old.cards ask answer.new left.new core.new.cards };

    /// A law: where the meters and the card that an ask brings had come into their places, so have the meters that are
    /// there after it. It costs nothing.
    fn all_came<B: Equipped>()
        ensures { (old new : Cards (R ⊎ M)) (ask : Self.Ask) (answer : Self.Answer) (left : Self.Left)
            → keeps old ask answer left new → HasCome B.came (brought ask) → AllCame B.came old → AllCame B.came new };

    /// What the ask is called.
    fn kind(ask: &Self::Ask) -> AskKind
        ensures { result ≡ ask_kind (asked ask.now) };

    /// The causes of a hold that the ask may end.
    fn scope(ask: &Self::Ask) -> WakeScope
        ensures { result ≡ scope_of (asked ask.now) };

    /// Which session it is to bring or to take away.
    fn coming(ask: &Self::Ask) -> Coming
        ensures { result ≡ coming_of (asked ask.now) };

    /// Whether no session asks it.
    fn is_unasked(ask: &Self::Ask) -> bool
        ensures { result ≡ is_unasked (asked ask.now) };

    /// Whether the answer is an event's. It is none where the ask is of no joined session, is dropped or held, or is
    /// given back.
    fn is_event(answer: &Self::Answer) -> bool
        ensures { (left : Self.Left) → result ≡ is_event (answered answer.now left) };

    /// Whether an event with this answer may change locks or clears.
    fn changes_seats(answer: &Self::Answer) -> bool
        ensures { (left : Self.Left) → result ≡ changes_seats (answered answer.now left) };

    /// Whether a scan may be over after an event with this answer, for which no session asked.
    fn may_be_over(answer: &Self::Answer) -> bool
        ensures { (left : Self.Left) → result ≡ may_be_over (answered answer.now left) };

    /// The session's answer, where a session asked.
    fn session_answer(answer: &Self::Answer) -> Option<&SessionAnswer>
        ensures { (left : Self.Left) → let told = session_told (answered answer.now left) in
            MatchOption result (told ≡ None) (λ answer. told ≡ Some answer.now) };
}

/// An event for which a session asks. Its answer stays in the caller's place.
pub struct BySession;

impl<R: Relay, M: Meter> EventKind<R, M> for BySession {
    ghost use Rattle.std.specs.Prelude.{◌≡◌, None};
    ghost use Rattle.sw_core.specs.Cards.{KeepsFor};
    ghost use Rattle.sw_core.specs.Seen.{AskSession, SaysSession, work_seen};

    type Ask = SessionAsk;

    type Answer = SessionAnswer;

    type Left = Option<Work<M>>;

    ghost asked = { λ ask. AskSession ask };

    ghost answered = { λ answer work. SaysSession answer (work_seen work) };

    ghost is_blank = { λ work. work ≡ None };

    ghost hands_back = { λ ask answer. Unit {0} };

    ghost keeps = { λ old ask answer work new. KeepsFor old work new };

    ghost brought = { λ ask. None };

    #[inline(always)]
    fn happen(
        core: &mut Core<R, M>,
        alloc: Global,
        ask: SessionAsk,
        answer: &mut SessionAnswer,
        left: &mut Option<Work<M>>,
    ) {
        core.ask(alloc, ask, answer, left);
    }

    #[tactic(auto, using(crate::proofs::CameLemmas::came_for))]
    fn all_came<B: Equipped>() {}

    fn kind(ask: &SessionAsk) -> AskKind {
        match ask {
            SessionAsk::Join => AskKind::Join,
            SessionAsk::Attach(_) => AskKind::Attach,
            SessionAsk::Attached(_) => AskKind::Attached,
            SessionAsk::Leave(_) => AskKind::Leave,
            SessionAsk::Size(_, _) => AskKind::Size,
            SessionAsk::MaxSize(_) => AskKind::MaxSize,
            SessionAsk::Clear(_) => AskKind::Clear,
            SessionAsk::Cleared(_) => AskKind::Cleared,
            SessionAsk::Lock(_, _) => AskKind::Lock,
            SessionAsk::Release(_) => AskKind::Release,
            SessionAsk::LockInfo(_) => AskKind::LockInfo,
            SessionAsk::Unit(_, _, _) => AskKind::Unit,
            SessionAsk::Fault(_, _) => AskKind::Fault,
            SessionAsk::Bus(_) => AskKind::Bus,
            SessionAsk::Snapshot(_) => AskKind::Snapshot,
            SessionAsk::Start(_, _) => AskKind::Start,
        }
    }

    fn scope(ask: &SessionAsk) -> WakeScope {
        match ask {
            SessionAsk::Lock(_, _) | SessionAsk::Release(_) => WakeScope::Seats,
            SessionAsk::Leave(_) | SessionAsk::Clear(_) => WakeScope::Seats,
            SessionAsk::Unit(sid, command, _) if may_end(command) => WakeScope::ScanBy(*sid),
            SessionAsk::Unit(_, _, _) => WakeScope::Nobody,
            SessionAsk::Bus(sid) => WakeScope::ScanBy(*sid),
            SessionAsk::Join | SessionAsk::Attach(_) | SessionAsk::Attached(_) => WakeScope::Nobody,
            SessionAsk::Size(_, _) | SessionAsk::MaxSize(_) => WakeScope::Nobody,
            SessionAsk::Cleared(_) | SessionAsk::LockInfo(_) => WakeScope::Nobody,
            SessionAsk::Fault(_, _) | SessionAsk::Snapshot(_) => WakeScope::Nobody,
            SessionAsk::Start(_, _) => WakeScope::Nobody,
        }
    }

    #[inline(always)]
    fn coming(ask: &SessionAsk) -> Coming {
        match ask {
            SessionAsk::Join => Coming::Joins,
            SessionAsk::Attach(_) => Coming::Attaches,
            SessionAsk::Leave(sid) => Coming::Leaves(*sid),
            _ => Coming::Nobody,
        }
    }

    fn is_unasked(_ask: &SessionAsk) -> bool {
        false
    }

    fn is_event(answer: &SessionAnswer) -> bool {
        match answer {
            SessionAnswer::Stranger | SessionAnswer::Broken => false,
            SessionAnswer::Hold(_) | SessionAnswer::Worn(_) => false,
            _ => true,
        }
    }

    fn changes_seats(answer: &SessionAnswer) -> bool {
        match answer {
            SessionAnswer::Lock(code) => *code != 3,
            _ => true,
        }
    }

    fn may_be_over(_answer: &SessionAnswer) -> bool {
        true
    }

    fn session_answer(answer: &SessionAnswer) -> Option<&SessionAnswer> {
        Some(answer)
    }
}

/// An event from outside: a card goes in or comes out, an external trigger comes, a pause ends, a meter returns. A
/// session's ask may come so too, as any other ask.
pub struct FromOutside;

impl<R: Relay, M: Meter> EventKind<R, M> for FromOutside {
    ghost use Rattle.sw_core.specs.Cards.{Keeps};
    ghost use Rattle.sw_core.specs.Seen.{ask_seen, answer_seen, HandsBack};
    ghost use Rattle.sw_history.specs.Came.{brought};

    type Ask = Ask<R, M>;

    type Answer = Answer<R, M>;

    type Left = ();

    ghost asked = { λ ask. ask_seen ask };

    ghost answered = { λ answer left. answer_seen answer };

    ghost is_blank = { λ left. Unit {0} };

    ghost hands_back = { λ ask answer. HandsBack ask answer };

    ghost keeps = { λ old ask answer left new. Keeps old ask answer new };

    ghost brought = { λ ask. brought ask };

    fn happen(
        core: &mut Core<R, M>,
        alloc: Global,
        ask: Ask<R, M>,
        answer: &mut Answer<R, M>,
        _left: &mut (),
    ) {
        drop(replace(answer, core.apply(alloc, ask)));
    }

    fn all_came<B: Equipped>() {}

    fn kind(ask: &Ask<R, M>) -> AskKind {
        match ask {
            Ask::Session(ask) => <BySession as EventKind<R, M>>::kind(ask),
            Ask::Install(_, _) => AskKind::Install,
            Ask::Eject(_) => AskKind::Eject,
            Ask::External => AskKind::External,
            Ask::Elapsed(_) => AskKind::Elapsed,
            Ask::Finished(_) => AskKind::Finished,
        }
    }

    fn scope(ask: &Ask<R, M>) -> WakeScope {
        match ask {
            Ask::Session(ask) => <BySession as EventKind<R, M>>::scope(ask),
            Ask::Install(_, _) => WakeScope::Nobody,
            Ask::Eject(_) | Ask::External => WakeScope::Scan,
            Ask::Elapsed(_) | Ask::Finished(_) => WakeScope::Scan,
        }
    }

    fn coming(ask: &Ask<R, M>) -> Coming {
        match ask {
            Ask::Session(ask) => <BySession as EventKind<R, M>>::coming(ask),
            _ => Coming::Nobody,
        }
    }

    fn is_unasked(ask: &Ask<R, M>) -> bool {
        !matches!(ask, Ask::Session(_))
    }

    fn is_event(answer: &Answer<R, M>) -> bool {
        match answer {
            Answer::Session(answer, _) => <BySession as EventKind<R, M>>::is_event(answer),
            Answer::Back(_) | Answer::Worn(_) => false,
            _ => true,
        }
    }

    fn changes_seats(answer: &Answer<R, M>) -> bool {
        match answer {
            Answer::Session(answer, _) => <BySession as EventKind<R, M>>::changes_seats(answer),
            _ => true,
        }
    }

    fn may_be_over(answer: &Answer<R, M>) -> bool {
        match answer {
            Answer::Taken(work) => work.is_none(),
            Answer::Missed | Answer::NotEjected(_) => false,
            Answer::Failed | Answer::Ejected(_) => true,
            Answer::Session(_, _) | Answer::Installed | Answer::NotInstalled(_, _) => true,
            Answer::Back(_) | Answer::Worn(_) => true,
        }
    }

    fn session_answer(answer: &Answer<R, M>) -> Option<&SessionAnswer> {
        match answer {
            Answer::Session(answer, _) => Some(answer),
            _ => None,
        }
    }
}
