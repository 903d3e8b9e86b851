//! The cage: slots of relay and meter cards, over all of which no two closed channels may clash, and the machine
//! that runs a scan over them.
//!
//! The crate's contract to the layers above: at the end of each call only present channels are closed, and no two
//! closed ones share a nonzero group, for any answers of the cards (`Cage::stays_good`). A scan begins from a `Course`
//! that is sound for the cards and what is closed, from any source of its code; it takes a happening exactly where it
//! awaits it, and does the closings and openings of its items in order up to the next thing that it awaits, with no
//! test of a card. Its meter goes out as a `Job` under a ticket; the cage takes it back under that ticket alone. An
//! abort, an eject while a scan runs and a failing card call of a scan end it with every relay open.
//!
//! Making a cage, starting a scan and listing channels or cards take memory; no happening of a scan does. Of what a
//! relay really does the cage has only the card's word.
#![tactic(auto)]

mod cage;
mod job;
mod refusal;
mod scan;
mod slots;
mod taken;

pub use cage::Cage;
pub use job::{Finished, Job, Ticket};
pub use refusal::{CloseRefusal, EjectRefusal, InstallRefusal};
pub use taken::{Happening, Taken};
