//! The beginning of a connection.

ghost use Rattle.std.specs.Prelude.{◌≡◌};
ghost use Rattle.sw_session.specs.Beginning.{nothing_heard, NamesChannel, channel_of};

use std::alloc::Global;
use std::marker::Model;
use sw_channels::Channel;
use sw_hislip::{Decoder, Kind};

/// A connection before it is served: which channel of a session it is, and what was heard on it.
///
/// Contracts see the channel, and the bytes that were heard.
#[derive(Drop)]
pub struct Beginning {
    pub channel: Channel,
    pub decoder: Decoder,
}

impl Model for Beginning {
    ghost use Rattle.std.specs.Prelude.{◌≡◌};
    ghost use Rattle.sw_session.specs.Beginning.{BeginningSeen};

    ghost Value = { BeginningSeen };

    ghost view = { λ b. record { channel = b.channel; bytes = b.decoder.pending.bytes } };

    ghost invariant = { λ b. b.decoder.pending.skip ≡ 0 };
}

impl Beginning {
    /// A connection that is this channel, on which nothing was heard.
    pub fn of(alloc: Global, channel: Channel) -> Self
        ensures { result ≡ nothing_heard channel }
    {
        Beginning {
            channel,
            decoder: Decoder::new(alloc),
        }
    }

    /// A connection on which these bytes were heard. It is the second channel where they begin with the header of
    /// AsyncInitialize, else the first one (IVI-6.1 HiSLIP, initialization).
    pub fn heard(bytes: Vec<u8>) -> Self
        ensures bytes { result.bytes ≡ bytes.items }
        ensures channel { NamesChannel bytes.items result.channel }
    {
        let decoder = Decoder::of(bytes);
        let channel = match decoder.front_kind() {
            Some(kind) => channel_of(kind),
            None => Channel::Synchronous,
        };
        Beginning { channel, decoder }
    }

    /// Which channel it is.
    pub fn channel(&self) -> Channel
        ensures { result ≡ self.now.channel }
    {
        self.channel
    }
}

/// The channel that begins with a message of this kind.
fn channel_of(kind: Kind) -> Channel
    ensures { result ≡ channel_of kind }
{
    match kind {
        Kind::AsyncInitialize => Channel::Asynchronous,
        _ => Channel::Synchronous,
    }
}
