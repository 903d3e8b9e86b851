//! Sessions over any desk: a channel served over a reader and two writers, with what `sw_talk` and `sw_channels` have.
//!
//! `serve_channel` serves a channel of a HiSLIP session over any reader, two writers and any desk: it writes what the
//! engine says to the messages in what it read, however that was cut (`ServesChannel`). A reader (`ByteSource`) counts
//! the reads that a time limit ended, where it can; then a server gives up after as many bytes and such reads as it has
//! turns, and not before.
//!
//! Not promised: that a desk ever answers anything but a hold, and that memory is there.
#![tactic(auto)]

mod after_step;
mod beginning;
mod channel;
mod channel_server;
mod fault;
mod processing;
mod rooms;
mod sending;
mod source;
mod speaking;
mod turns;
mod writing;

pub use beginning::Beginning;
pub use channel::{serve_async, serve_channel, serve_sync};
pub use fault::ServeFault;
pub use source::{ByteSource, Memory, Unread};
pub use sw_channels::{Channel, Engine, Sent, Step, parts_are_one_message};
pub use sw_talk::{
    Available, CoreDesk, Desk, Mark, TURNS, Talker, View, Wake, core_desk_runs,
    core_rest_is_determined, core_talk_is_determined, note_leaves_others, talk_is_determined,
    work_is_done_in_order, work_is_kept_where_there_is_room,
};
pub use writing::{Sink, Unwritten, write_all};
