//! Racks.

ghost use Rattle.std.specs.Prelude.{◌≤◌, map};
ghost use Rattle.sw_base.specs.Limits.{most_slots};
ghost use Rattle.sw_rack.specs.Ascending.{AreAscending, AreAscending-prop};
ghost use Rattle.sw_rack.specs.Coils.{HasItsCoils, HasItsCoils-prop};

use crate::kind::CardKind;

/// Which cards are in which slots, by their slots.
#[derive(Drop)]
pub struct Rack {
    pub cards: Vec<RackCard>,
    pub ghost ascending: { AreAscending (map (λ card. card.slot) cards.items) } by { AreAscending-prop (map (λ card. card.slot) cards.items) },
}

/// A card for a slot.
#[derive(Drop)]
pub struct RackCard {
    pub slot: u8,
    pub serial: u32,
    pub kind: CardKind,
    pub ghost in_cage: { (1 ≤ slot) × (slot ≤ most_slots) },
    pub ghost coils: { HasItsCoils kind } by { HasItsCoils-prop kind },
}
