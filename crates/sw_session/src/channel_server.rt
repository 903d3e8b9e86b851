//! A server of one channel, but for its reader.

use crate::rooms::Rooms;
use crate::writing::Sink;
use std::alloc::Global;
use sw_channels::{Channel, Engine};
use sw_hislip::Decoder;
use sw_talk::Desk;

/// What serves one channel of a session.
#[derive(Drop)]
pub struct ChannelServer<'c, 'w, 's, 'd, W: Sink, S: Sink, D: Desk> {
    pub alloc: Global,
    /// Which channel it is: its messages go to the writer, those of the other one to the side writer.
    pub own: Channel,
    pub engine: &'c mut Engine,
    pub decoder: &'c mut Decoder,
    pub rooms: &'c mut Rooms,
    pub writer: &'w mut W,
    pub side: &'s mut S,
    pub desk: &'d mut D,
}
