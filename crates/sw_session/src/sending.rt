//! Messages to the writers.

ghost use Rattle.std.specs.Prelude.{◌≡◌, Err, OnErr};
ghost use Rattle.sw_hislip.specs.Wire.{wire};
ghost use Rattle.sw_channels.specs.Engine.{session_of};
ghost use Rattle.sw_session.specs.ServeHand.{Hands, HandsOne, notes_before, is_answer_part};
ghost use Rattle.sw_session.specs.ServeWrite.{is_own};
ghost use Rattle.sw_session.specs.Server.{voice_of, stands, StaysServer, WriteFails};
ghost use Rattle.sw_talk.specs.Trace.{Leads};

use crate::channel_server::ChannelServer;
use crate::fault::ServeFault;
use crate::writing::{Sink, Unwritten};
use sw_channels::{Channel, Engine, Sent, Step};
use sw_hislip::{Kind, encode_into};
use sw_talk::Desk;

/// Whether a message of that channel goes to the writer of this one.
fn is_own(own: Channel, other: Channel) -> bool
    ensures { result ≡ is_own own other }
{
    match (own, other) {
        (Channel::Synchronous, Channel::Synchronous) => true,
        (Channel::Asynchronous, Channel::Asynchronous) => true,
        _ => false,
    }
}

/// Whether a message is a part of an answer.
fn is_answer_part(kind: Kind) -> bool
    ensures { result ≡ is_answer_part kind }
{
    matches!(kind, Kind::Data | Kind::DataEnd)
}

/// Notes that a message is available for the engine's session, where this is a part of an answer: the write that
/// follows may wait for a client that waits for this note.
fn note<D: Desk>(engine: &Engine, sent: &Sent, desk: &mut D)
    ensures { Leads D.passes desk.old (notes_before (session_of engine.now.state) sent.now) desk.new }
{
    if let Some(sid) = engine.session() {
        if is_answer_part(sent.message.kind) {
            desk.note(sid, true);
        }
    }
}

impl<W: Sink, S: Sink, D: Desk> ChannelServer<'_, '_, '_, '_, W, S, D> {
    /// Hands the bytes of a message to the writer of its channel: all of them, or a front part where that fails. Before
    /// each part of an answer it notes that a message is available.
    fn hand_over(&mut self, sent: &Sent, bytes: &[u8]) -> Result<(), Unwritten>
        requires { bytes.now ≡ wire sent.now.message }
        ensures hands { HandsOne (voice_of D.passes self.old) (stands W.Sink S.Sink self.old)
            (stands W.Sink S.Sink self.new) sent.now result }
        ensures cause { OnErr result (WriteFails W.Sink S.Sink self.new) }
        ensures decoder { self.new.decoder ≡ self.old.decoder }
        ensures stays { StaysServer self.old self.new }
    {
        note(self.engine, sent, self.desk);
        if is_own(self.own, sent.channel) {
            self.writer.deliver(bytes)
        } else {
            self.side.deliver(bytes)
        }
    }

    /// Gives what is said to the writers, one message after another, header and payload of each together.
    pub fn hand_all(&mut self, said: Step) -> Result<(), ServeFault>
        ensures hands { Hands (voice_of D.passes self.old) (stands W.Sink S.Sink self.old)
            (stands W.Sink S.Sink self.new) said.out result }
        ensures cause { result ≡ Err ServeFault.Write → WriteFails W.Sink S.Sink self.new }
        ensures decoder { self.new.decoder ≡ self.old.decoder }
        ensures stays { StaysServer self.old self.new }
    {
        let mut left = said;
        loop {
            let sent = match left.next(self.alloc) {
                Ok(Some(sent)) => sent,
                Ok(None) => return Ok(()),
                Err(_) => return Err(ServeFault::NoMemory),
            };
            let mut bytes = self.rooms.take();
            let Ok(()) = encode_into(&sent.message, &mut bytes) else {
                return Err(ServeFault::NoMemory);
            };
            match self.hand_over(&sent, bytes.as_slice()) {
                Ok(()) => self.rooms.keep(bytes, sent.message),
                Err(_) => return Err(ServeFault::Write),
            }
        }
    }
}
