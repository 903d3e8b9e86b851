//! Cards: what a relay card and a meter card promise, and a card of either kind as one value.
//!
//! The crate's contract to the layers above is the traits' own: a call that succeeds changes the one relay that it
//! names, a call that fails is counted and closes nothing that the call did not name, and no call changes which
//! channels a card has nor their groups. A [`Card`] holds a card, and contracts see it with its account, so they show
//! that a card that comes back is the one that was given. A [`Mask`] is a set of a card's channels as bits.
//!
//! It takes no memory. What a card really does with its relays is the card's own word: the account that contracts see
//! is what the card says of itself.
#![tactic(auto)]

mod board;
mod card;
mod mask;
mod meter;
mod relay;

pub use board::{Board, CardFault};
pub use card::Card;
pub use mask::Mask;
pub use meter::{Meter, MeterCard};
pub use relay::{Relay, RelayCard};
