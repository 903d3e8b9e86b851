//! HiSLIP messages as bytes, and the locks of an instrument (IVI-6.1 HiSLIP, protocol version 1.0).
//!
//! The contract to the layers above: `encode` and `encode_into` write the one wire form of a message, `wire`. A
//! `Decoder` is fed the bytes of a connection in any pieces and gives its messages one by one: up to a rest that is no
//! whole message the stream is these messages and no others, however it was cut (`every_message_comes_out`,
//! `nothing_whole_is_left`, `one_stream`, `cuts_do_not_matter`). It reports a wrong prologue and a payload that is too
//! large only where they are in a message's place. It keeps nothing of a payload that it skips, and of what was taken
//! no more than of what is left (`room_is_bounded`). A lack of memory changes nothing.
//!
//! Contracts see `Locks` as a table: the session that holds the exclusive lock, and the key by which each session
//! shares one. Each call is an equation on it, by the rules of `specs/LockRules.antt` (`locks_keep_their_rules`,
//! `locks_stay_orderly`).
//!
//! It promises nothing of what a message means, nor which messages a connection may carry, nor when a lock comes free.
#![tactic(auto)]

mod decoder;
mod encoding;
mod fault;
mod header;
mod kind;
mod laws;
mod locks;
mod message;

pub use decoder::Decoder;
pub use encoding::{encode, encode_into};
pub use fault::WireFault;
pub use header::HEADER;
pub use kind::Kind;
pub use laws::{
    cuts_do_not_matter, encoded_is_decoded, every_message_comes_out, locks_keep_their_rules,
    locks_stay_orderly, nothing_whole_is_left, one_stream, room_is_bounded, wrong_prologue_stays,
};
pub use locks::{LockReply, Locks, Released};
pub use message::{LONGEST_PAYLOAD, Message};
