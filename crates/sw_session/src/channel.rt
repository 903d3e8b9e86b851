//! The server of one channel of a session.

ghost use Rattle.std.specs.Prelude.{◌≡◌};
ghost use Rattle.sw_channels.specs.Engine.{session_of};
ghost use Rattle.sw_session.specs.Beginning.{nothing_heard};
ghost use Rattle.sw_session.specs.Serve.{LeavesSession};
ghost use Rattle.sw_session.specs.Server.{StaysServer};
ghost use Rattle.sw_session.specs.ServeConnection.{ServesConnection, connected, wiring};

use crate::beginning::Beginning;
use crate::channel_server::ChannelServer;
use crate::fault::ServeFault;
use crate::rooms::Rooms;
use crate::source::ByteSource;
use crate::writing::Sink;
use std::alloc::Global;
use sw_channels::{Channel, Engine};
use sw_core::SessionAsk;
use sw_talk::Desk;

/// Serves one channel of a session over its connection (IVI-6.1 HiSLIP, synchronized mode), from the bytes on that were
/// heard on it: reads until the end of input, the end of the session or a fault, for at most `turns` reads, and leaves
/// the session then. What is said on the other channel goes to the side writer. The asynchronous channel sends service
/// requests before each message, and where a time limit ended a read.
pub fn serve_channel<R: ByteSource, W: Sink, S: Sink, D: Desk>(
    alloc: Global,
    beginning: Beginning,
    reader: &mut R,
    writer: &mut W,
    side: &mut S,
    desk: &mut D,
    turns: u64,
) -> Result<(), ServeFault>
    ensures { ServesConnection beginning turns D.passes (wiring R.ByteSource W.Sink S.Sink)
        (connected desk.old reader.old writer.old side.old) (connected desk.new reader.new writer.new side.new)
        result }
{
    let Beginning {
        channel,
        mut decoder,
    } = beginning;
    let mut engine = Engine::new(alloc, channel);
    let mut rooms = Rooms::new(alloc);
    let mut server = ChannelServer {
        alloc,
        own: channel,
        engine: &mut engine,
        decoder: &mut decoder,
        rooms: &mut rooms,
        writer,
        side,
        desk,
    };
    let result = server.run(reader, turns);
    server.leave();
    drop(engine);
    drop(decoder);
    drop(rooms);
    result
}

/// `serve_channel` of the synchronous channel.
pub fn serve_sync<R: ByteSource, W: Sink, S: Sink, D: Desk>(
    alloc: Global,
    reader: &mut R,
    writer: &mut W,
    side: &mut S,
    desk: &mut D,
    turns: u64,
) -> Result<(), ServeFault>
    ensures { ServesConnection (nothing_heard Channel.Synchronous) turns D.passes (wiring R.ByteSource W.Sink S.Sink)
        (connected desk.old reader.old writer.old side.old) (connected desk.new reader.new writer.new side.new)
        result }
{
    serve_channel(
        alloc,
        Beginning::of(alloc, Channel::Synchronous),
        reader,
        writer,
        side,
        desk,
        turns,
    )
}

/// `serve_channel` of the asynchronous channel.
pub fn serve_async<R: ByteSource, W: Sink, S: Sink, D: Desk>(
    alloc: Global,
    reader: &mut R,
    writer: &mut W,
    side: &mut S,
    desk: &mut D,
    turns: u64,
) -> Result<(), ServeFault>
    ensures { ServesConnection (nothing_heard Channel.Asynchronous) turns D.passes (wiring R.ByteSource W.Sink S.Sink)
        (connected desk.old reader.old writer.old side.old) (connected desk.new reader.new writer.new side.new)
        result }
{
    serve_channel(
        alloc,
        Beginning::of(alloc, Channel::Asynchronous),
        reader,
        writer,
        side,
        desk,
        turns,
    )
}

impl<W: Sink, S: Sink, D: Desk> ChannelServer<'_, '_, '_, '_, W, S, D> {
    /// Leaves the session that was joined.
    fn leave(&mut self)
        ensures leaves { LeavesSession D.passes (session_of self.old.engine.now.state) self.old.desk.now
            self.new.desk.now }
        ensures engine { self.new.engine ≡ self.old.engine }
        ensures writer { self.new.writer ≡ self.old.writer }
        ensures side { self.new.side ≡ self.old.side }
        ensures stays { StaysServer self.old self.new }
    {
        if let Some(sid) = self.engine.session() {
            drop(self.desk.ask(SessionAsk::Leave(sid)));
        }
    }
}
