//! A mainframe for one session, without a network.

ghost use Rattle.std.specs.Prelude.{◌≡◌, IfOk, IfErr};
ghost use Rattle.sw_core.specs.Panel.{opening};
ghost use Rattle.sw_core.specs.declared.ask.SessionAnswer.TheVariants.{Joined};
ghost use Rattle.sw_core.specs.declared.ask.Sid.{Sid};
ghost use Rattle.sw_serve.specs.Fitting.{IsUnfittedForOne, AreWelcome};
ghost use Rattle.sw_serve.specs.SlotCards.{cards_seen, relay_seen, meter_seen, Joins, IsSetUp, IsDeskForOne};

use crate::slot_card::{SlotCard, install_all};
use crate::unfit::FitError;
use std::alloc::Global;
use sw_card::{Meter, Relay};
use sw_core::{Core, SessionAnswer, SessionAsk, Sid};
use sw_session::CoreDesk;

/// The desk over a mainframe that one session has joined and that took each of these cards, and that session: a
/// `Talker` of it answers program messages. Or the first card that the mainframe refuses, and why.
pub fn desk_for_one<R: Relay, M: Meter>(
    alloc: Global,
    cards: Vec<SlotCard<R, M>>,
) -> Result<(CoreDesk<R, M>, Sid), FitError>
    ensures desk { IfOk result (λ x. IsDeskForOne (cards_seen (relay_seen R.the_serial R.failed R.groups R.closed)
        (meter_seen M.the_serial M.failed M.last_reading) cards.items) x.1 x.0) }
    ensures refused { IfErr result (λ error. IsUnfittedForOne (cards_seen
        (relay_seen R.the_serial R.failed R.groups R.closed)
        (meter_seen M.the_serial M.failed M.last_reading) cards.items) error) }
    ensures welcome { AreWelcome (cards_seen (relay_seen R.the_serial R.failed R.groups R.closed)
        (meter_seen M.the_serial M.failed M.last_reading) cards.items)
        → IfErr result (λ error. error ≡ FitError.Memory) }
{
    let (core, sid) = set_up(alloc, cards)?;
    Ok((CoreDesk::new(alloc, core), sid))
}

/// A mainframe that one session has joined and that took each of these cards, and that session.
fn set_up<R: Relay, M: Meter>(
    alloc: Global,
    cards: Vec<SlotCard<R, M>>,
) -> Result<(Core<R, M>, Sid), FitError>
    ensures set_up { IfOk result (λ x. IsSetUp (cards_seen (relay_seen R.the_serial R.failed R.groups R.closed)
        (meter_seen M.the_serial M.failed M.last_reading) cards.items) x.1 x.0.seen) }
    ensures refused { IfErr result (λ error. IsUnfittedForOne (cards_seen
        (relay_seen R.the_serial R.failed R.groups R.closed)
        (meter_seen M.the_serial M.failed M.last_reading) cards.items) error) }
    ensures welcome { AreWelcome (cards_seen (relay_seen R.the_serial R.failed R.groups R.closed)
        (meter_seen M.the_serial M.failed M.last_reading) cards.items)
        → IfErr result (λ error. error ≡ FitError.Memory) }
{
    let mut core = Core::new(alloc)?;
    let sid = join(alloc, &mut core);
    if let Err((slot, why)) = install_all(alloc, &mut core, cards) {
        drop(core);
        return Err(FitError::Refused { slot, why });
    }
    Ok((core, sid))
}

/// Joins the opening mainframe.
fn join<R: Relay, M: Meter>(alloc: Global, core: &mut Core<R, M>) -> Sid
    requires { core.old.seen ≡ opening }
    ensures { Joins result core.new.seen }
{
    let mut answer = SessionAnswer::Stranger;
    let mut work = None;
    core.ask(alloc, SessionAsk::Join, &mut answer, &mut work);
    drop(work);
    let sid = joined(&answer);
    drop(answer);
    sid
}

/// The session that has joined by this answer.
fn joined(answer: &SessionAnswer) -> Sid
    requires { (sid : Sid) × (answer.now ≡ Joined sid) }
    ensures { answer.now ≡ Joined result }
{
    match answer {
        SessionAnswer::Joined(sid) => *sid,
        _ => unreachable!(),
    }
}
