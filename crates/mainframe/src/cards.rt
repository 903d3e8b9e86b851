//! The program's cards: simulated ones.

ghost use Rattle.std.specs.Prelude.{◌≡◌, IfOk};
ghost use Rattle.sw_serve.specs.SlotCards.{cards_seen, relay_seen, meter_seen};
ghost use Rattle.mainframe.specs.Cards.{first_card, second_card, third_card, meter_card, in_slots};

use std::alloc::{AllocError, Global};
use sw_card::{Meter, Relay};
use sw_kinds::{Fuse, Matrix, Mux, SimDriver, SimSource, Volt};
use sw_serve::SlotCard;

/// Slot 1: a multiplexer of 20 channels in group 1. The closing that `fuse` counts from 1 fails.
#[tactic(auto, unfolding(crate::specs::Cards::first_card))]
pub fn first_card(fuse: Option<u32>) -> Mux<Fuse<SimDriver>>
    ensures { result.1 ≡ first_card }
{
    Mux::new(1, 20, 1, Fuse::new(SimDriver::new(), fuse))
}

/// Slot 2: a matrix of 16 channels in no group.
#[tactic(auto, unfolding(crate::specs::Cards::second_card))]
pub fn second_card() -> Matrix<SimDriver>
    ensures { result.1 ≡ second_card }
{
    Matrix::new(2, 16, SimDriver::new())
}

/// Slot 3: a multiplexer of 10 channels in group 1.
#[tactic(auto, unfolding(crate::specs::Cards::third_card))]
pub fn third_card() -> Mux<SimDriver>
    ensures { result.1 ≡ third_card }
{
    Mux::new(3, 10, 1, SimDriver::new())
}

/// Slot 4: a meter that gives 1 V, and then one nanovolt more each time.
#[tactic(auto, unfolding(crate::specs::Cards::meter_card))]
pub fn meter_card() -> Volt<SimSource>
    ensures { result.1 ≡ meter_card }
{
    Volt::new(4, SimSource::new(1_000_000_000, 1))
}

/// These cards for their slots: the first for slot 1, and so on.
pub fn in_slots<R: Relay, M: Meter>(
    alloc: Global,
    first: R,
    second: R,
    third: R,
    meter: M,
) -> Result<Vec<SlotCard<R, M>>, AllocError>
    ensures { IfOk result (λ cards. cards_seen (relay_seen R.the_serial R.failed R.groups R.closed)
        (meter_seen M.the_serial M.failed M.last_reading) cards.items ≡ in_slots
        (relay_seen R.the_serial R.failed R.groups R.closed first)
        (relay_seen R.the_serial R.failed R.groups R.closed second)
        (relay_seen R.the_serial R.failed R.groups R.closed third)
        (meter_seen M.the_serial M.failed M.last_reading meter)) }
{
    let mut cards = Vec::new(alloc);
    cards.push(SlotCard::relays(1, first))?;
    cards.push(SlotCard::relays(2, second))?;
    cards.push(SlotCard::relays(3, third))?;
    cards.push(SlotCard::meter(4, meter))?;
    Ok(cards)
}
