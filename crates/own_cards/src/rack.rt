//! Which card is for which slot.

ghost use Rattle.std.specs.Prelude.{◌≡◌, ◌≤◌, length, map, IfOk};
ghost use Rattle.sw_base.specs.Limits.{most_slots};
ghost use Rattle.sw_serve.specs.SlotCards.{cards_seen, own_seen, relay_seen, meter_seen};
ghost use Rattle.own_cards.specs.Rack.{in_order};

use std::alloc::{AllocError, Global};
use sw_card::{Meter, Relay};
use sw_serve::{OwnCard, SlotCard};

/// The first card for slot 1, the next for slot 2, and so on.
pub fn in_rack<R: Relay, M: Meter>(
    alloc: Global,
    cards: Vec<OwnCard<R, M>>,
) -> Result<Vec<SlotCard<R, M>>, AllocError>
    requires few { length cards.items ≤ most_slots }
    ensures { IfOk result (λ rack. cards_seen (relay_seen R.the_serial R.failed R.groups R.closed)
        (meter_seen M.the_serial M.failed M.last_reading) rack.items ≡ in_order 1 (map
        (own_seen (relay_seen R.the_serial R.failed R.groups R.closed)
        (meter_seen M.the_serial M.failed M.last_reading)) cards.items)) }
{
    let mut rack = Vec::new(alloc);
    for card in cards {
        let slot = rack.len() as u8 + 1;
        rack.push(SlotCard { slot, card })?;
    }
    Ok(rack)
}
