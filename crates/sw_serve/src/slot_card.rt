//! Cards that are offered to the slots of a mainframe.

ghost use Rattle.std.specs.Prelude.{◌≡◌, ◌≤◌, ◌<◌, IfOk, IfErr, OnOk};
ghost use Rattle.sw_cage.specs.Install.{RefusesInstall};
ghost use Rattle.sw_core.specs.Event.{last_number};
ghost use Rattle.sw_core.specs.Opening.{IsFresh};
ghost use Rattle.sw_core.specs.Panel.{opening};
ghost use Rattle.sw_serve.specs.Fitting.{IsUnfitted, AreWelcome};
ghost use Rattle.sw_serve.specs.SlotCards.{placed, own_seen, cards_seen, relay_seen, meter_seen};
ghost use Rattle.sw_serve.specs.SlotCards.{Takes, TakesCards, RefusesCard, IsFitted};

use crate::unfit::FitError;
use std::alloc::Global;
use sw_cage::InstallRefusal;
use sw_card::{Card, Meter, Relay};
use sw_core::{Answer, Ask, Core, runs_go_on};

/// A caller's own card, of either kind.
#[derive(Drop)]
pub enum OwnCard<R: Relay, M: Meter> {
    Relays(R),
    Measures(M),
}

/// A card, and the slot that it is offered to, from 1.
#[derive(Drop)]
pub struct SlotCard<R: Relay, M: Meter> {
    pub slot: u8,
    pub card: OwnCard<R, M>,
}

impl<R: Relay, M: Meter> SlotCard<R, M> {
    /// Relays for a slot.
    pub fn relays(slot: u8, relays: R) -> Self
        ensures slot { result.slot ≡ slot }
        ensures card { result.card ≡ OwnCard.Relays relays }
    {
        SlotCard {
            slot,
            card: OwnCard::Relays(relays),
        }
    }

    /// A meter for a slot.
    pub fn meter(slot: u8, meter: M) -> Self
        ensures slot { result.slot ≡ slot }
        ensures card { result.card ≡ OwnCard.Measures meter }
    {
        SlotCard {
            slot,
            card: OwnCard::Measures(meter),
        }
    }
}

/// The card as a mainframe takes it.
fn card_of<R: Relay, M: Meter>(own: OwnCard<R, M>) -> Card<R, M>
    ensures { result.1 ≡ own_seen (relay_seen R.the_serial R.failed R.groups R.closed)
        (meter_seen M.the_serial M.failed M.last_reading) own }
{
    match own {
        OwnCard::Relays(relays) => Card::relays(relays),
        OwnCard::Measures(meter) => Card::meter(meter),
    }
}

/// Puts a card into a mainframe, or gives why that refuses it. It drops a refused card.
fn install_one<R: Relay, M: Meter>(
    alloc: Global,
    core: &mut Core<R, M>,
    slot: u8,
    card: Card<R, M>,
) -> Result<(), InstallRefusal>
    requires { core.old.seen.events < last_number }
    ensures taken { OnOk result (Takes core.old.seen (placed slot card.1) core.new.seen) }
    ensures refused { IfErr result (λ why. RefusesInstall core.old.seen.cage slot card.1 why) }
{
    match core.apply(alloc, Ask::Install(slot, card)) {
        Answer::Installed => Ok(()),
        Answer::NotInstalled(why, _) => Err(why),
        _ => unreachable!(),
    }
}

/// Puts these cards into a mainframe, one after another, up to the first that it refuses: its slot, and why.
pub(crate) fn install_all<R: Relay, M: Meter>(
    alloc: Global,
    core: &mut Core<R, M>,
    cards: Vec<SlotCard<R, M>>,
) -> Result<(), (u8, InstallRefusal)>
    requires { core.old.seen.events ≤ 1 }
    ensures taken { OnOk result (TakesCards core.old.seen (cards_seen
        (relay_seen R.the_serial R.failed R.groups R.closed)
        (meter_seen M.the_serial M.failed M.last_reading) cards.items) core.new.seen) }
    ensures refused { IfErr result (λ refused. RefusesCard core.old.seen (cards_seen
        (relay_seen R.the_serial R.failed R.groups R.closed)
        (meter_seen M.the_serial M.failed M.last_reading) cards.items) refused.0 refused.1) }
{
    for placed in cards {
        let SlotCard { slot, card } = placed;
        if let Err(why) = install_one(alloc, core, slot, card_of(card)) {
            return Err((slot, why));
        }
    }
    Ok(())
}

/// A mainframe that took each of these cards, or the first of them that it refuses, and why: a slot that the cage
/// doesn't have or that has a card, or relays of no channel, too many, or a closed one.
pub fn fit<R: Relay, M: Meter>(
    alloc: Global,
    cards: Vec<SlotCard<R, M>>,
) -> Result<Core<R, M>, FitError>
    ensures fitted { IfOk result (λ core. IsFitted (cards_seen
        (relay_seen R.the_serial R.failed R.groups R.closed)
        (meter_seen M.the_serial M.failed M.last_reading) cards.items) core.seen) }
    ensures fresh { IfOk result (λ core. IsFresh core.seen) }
    ensures refused { IfErr result (λ error. IsUnfitted opening (cards_seen
        (relay_seen R.the_serial R.failed R.groups R.closed)
        (meter_seen M.the_serial M.failed M.last_reading) cards.items) error) }
    ensures welcome { AreWelcome (cards_seen (relay_seen R.the_serial R.failed R.groups R.closed)
        (meter_seen M.the_serial M.failed M.last_reading) cards.items)
        → IfErr result (λ error. error ≡ FitError.Memory) }
{
    runs_go_on();
    let mut core = Core::new(alloc)?;
    if let Err((slot, why)) = install_all(alloc, &mut core, cards) {
        drop(core);
        return Err(FitError::Refused { slot, why });
    }
    Ok(core)
}
