//! A server of sessions over any port and any cards.
//!
//! A caller with cards of its own makes a list of them (`SlotCard`), each with the slot that it is for. `desk_for_one`
//! fits them into a mainframe for one session without a network. `serve_cards` serves the connections that come to a
//! port (`Port`), each by a thread of its own, until `limit` have come or the port has ended, and then closes down.
//! Where the mainframe refuses a card, both name it and the cause (`FitError`), and serve no client.
//!
//! The crate's contract is that of `serve_cards`. It takes exactly `limit` connections, or fewer where the port has
//! ended. The mainframe took the cards of the list, each once and in its order, so that each was in its slot and
//! nothing else in any. At the end these come out of their slots, each as it was there at the end of the history, but
//! with every relay open (`ClosesDown`). Where the mainframe refuses a card, the error names the first such with the
//! mainframe's own cause, and no connection is taken. `serving::attend` says what the thread of a connection does.
//!
//! No contract says what a network carries, when a thread continues, or what a log gets.
#![tactic(auto)]

mod desk_pool;
mod failing;
mod log;
mod logged_connection;
mod orders;
mod port;
mod serving;
mod single;
mod slot_card;
mod tcp_port;
mod thread_pool;
mod unfit;

pub use failing::{LoggedCard, tell_failures};
pub use log::{Log, Parting, Remark, Silent};
pub use logged_connection::{LoggedConnection, LoggedReader};
pub use port::{Arrival, Port};
pub use serving::{serve_cards, serve_over};
pub use single::desk_for_one;
pub use slot_card::{OwnCard, SlotCard, fit};
pub use tcp_port::TcpPort;
pub use unfit::FitError;
