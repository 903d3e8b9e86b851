//! Whether the cards are sure of their relays.

ghost use Rattle.std.specs.Prelude.{◌≡◌};
ghost use Rattle.sw_cage.specs.Cards.{all_sure};

use crate::cage::Cage;
use sw_card::{Meter, Relay};

impl<R: Relay, M: Meter> Cage<R, M> {
    /// Whether every card is sure that its relays are as its account says, a relay card by its own answer. A meter has
    /// no relays, in its slot or out, and an empty slot has none.
    pub fn is_sure(&self) -> bool
        ensures { result ≡ all_sure R.sure self.now.cards }
    {
        self.slots.is_sure()
    }
}
