//! Connections, and what the two threads of a session share.
//!
//! A `Session` is who it is, as the thread of one of its channels has it; the two threads share a room, each part of it
//! under a lock of its own: whether a message is available, a seat at the status board, what the first one says on the
//! second connection, and their lines, which end together. A later session has another room. `Serving` is what a thread
//! serves: a connection of the server's `Connections`, and its session, once that is known. `Reading` is what a channel
//! reads from (`ByteSource`); a second channel's thread writes what the first one left before each read.
//!
//! `Admission`, `Outbox` and `Hearing` are marks of a mainframe that one call alone gives: a connection was not served,
//! since too many have no session, or the server ends; bytes were refused because they are too many, or because memory
//! had to grow and was refused; a client was found gone.
//!
//! No contract says what a client or the system does to a line, nor when.
#![tactic(auto)]

mod clients;
mod connection;
mod connections;
mod keepalive;
mod leaving;
mod limits;
mod line;
mod lines;
mod reading;
mod room;
mod serving;
mod side;

pub use clients::Clients;
pub use connection::{Connection, Tcp, Wired};
pub use connections::{Admission, Connections, Unserved};
pub use leaving::await_served;
pub use limits::{Limit, slice_of};
pub use line::{Hearing, Line};
pub use reading::{Reading, read_header};
pub use room::{Room, Session};
pub use serving::Serving;
pub use side::{Outbox, Refused};
