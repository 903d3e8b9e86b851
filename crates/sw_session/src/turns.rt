//! One channel over a reader, two writers and a desk.

ghost use Rattle.std.specs.Prelude.{◌≡◌, ◌<◌, ℕ, List, Option, length, Ok, Err};
ghost use Rattle.std.specs.Io.KnownBytes.{prepend_known};
ghost use Rattle.sw_hislip.specs.Pending.{Waits, nothing_fed};
ghost use Rattle.sw_session.specs.ServeRead.{IsLedTo};
ghost use Rattle.sw_session.specs.Serve.{Listens, CountsReceived, GivesHeard, HearsAll, TakesServerTurn, RunsChannel};
ghost use Rattle.sw_session.specs.Serve.{conclude, course};
ghost use Rattle.sw_session.specs.Server.{voice_of, stands, stands_by, StaysServer, WriteFails};

use crate::after_step::{AfterStep, goes_on};
use crate::channel_server::ChannelServer;
use crate::fault::ServeFault;
use crate::rooms::Rooms;
use crate::source::{ByteSource, Unread};
use crate::writing::Sink;
use std::alloc::Global;
use sw_hislip::{Decoder, Message, WireFault, every_message_comes_out, nothing_whole_is_left};
use sw_talk::Desk;

/// What a read gave.
#[derive(Clone, Copy, Debug, PartialEq, Eq)]
pub enum Received {
    End,
    Bytes,
    /// Nothing: a time limit ended it.
    Paused,
}

/// Whether another turn follows.
#[derive(Clone, Copy, Debug, PartialEq, Eq)]
pub enum Next {
    On,
    Over,
}

/// One read. Its bytes are fed.
fn listen<R: ByteSource>(
    reader: &mut R,
    rooms: &mut Rooms,
    decoder: &mut Decoder,
) -> Result<Received, ServeFault>
    ensures listens { Listens
        (R.remaining reader.old) (R.remaining reader.new) decoder.old.pending decoder.new.pending result }
    ensures pauses { CountsReceived (R.pauses reader.old) (R.pauses reader.new) result }
    ensures read { result ≡ Err ServeFault.Read → IsLedTo R.failed reader.new }
{
    let heard = rooms.heard();
    match reader.receive(heard) {
        Ok(n) => {
            if n == 0 {
                return Ok(Received::End);
            }
            let fed = decoder.feed(&heard[..n]);
            rooms.note_read(n);
            match fed {
                Ok(()) => Ok(Received::Bytes),
                Err(_) => Err(ServeFault::NoMemory),
            }
        }
        Err(Unread::Paused) => Ok(Received::Paused),
        Err(Unread::Failed) => Err(ServeFault::Read),
    }
}

/// How a turn ends.
fn conclude(processed: Result<AfterStep, ServeFault>) -> Result<Next, ServeFault>
    ensures { result ≡ conclude processed }
{
    match processed {
        Ok(AfterStep::Goes) => Ok(Next::On),
        Ok(AfterStep::Ends) => Ok(Next::Over),
        Ok(AfterStep::Fatal(code)) => Err(ServeFault::Fatal(code)),
        Ok(AfterStep::Malformed) => Err(ServeFault::Wire),
        Err(fault) => Err(fault),
    }
}

/// What the decoder gives next. None where no message is whole.
fn next_message(
    alloc: Global,
    rooms: &mut Rooms,
    decoder: &mut Decoder,
) -> Option<Result<Message, WireFault>>
    ensures { GivesHeard decoder.old.pending decoder.new.pending result }
{
    decoder.next_in(alloc, &mut rooms.spare).transpose()
}

impl<W: Sink, S: Sink, D: Desk> ChannelServer<'_, '_, '_, '_, W, S, D> {
    /// Processes all whole messages, or those up to one that ends the channel.
    fn process_all(&mut self) -> Result<AfterStep, ServeFault>
        ensures processed { HearsAll (voice_of D.passes self.old) self.old.decoder.now.pending
            self.new.decoder.now.pending (stands W.Sink S.Sink self.old) (stands W.Sink S.Sink self.new) result }
        ensures write { result ≡ Err ServeFault.Write → WriteFails W.Sink S.Sink self.new }
        ensures stays { StaysServer self.old self.new }
    {
        loop {
            let heard = match next_message(self.alloc, self.rooms, self.decoder) {
                Some(heard) => heard,
                None => return Ok(AfterStep::Goes),
            };
            let processed = self.serve(heard);
            if !goes_on(processed) {
                return processed;
            }
        }
    }

    /// One read, and what is gone through for it.
    fn take_turn<R: ByteSource>(&mut self, reader: &mut R) -> Result<Next, ServeFault>
        requires { Waits self.old.decoder.now.pending.bytes }
        ensures turn { TakesServerTurn (voice_of D.passes self.old) self.old.decoder.now.pending
            self.new.decoder.now.pending (stands_by R.ByteSource W.Sink S.Sink self.old reader.old)
            (stands_by R.ByteSource W.Sink S.Sink self.new reader.new) result }
        ensures read { result ≡ Err ServeFault.Read → IsLedTo R.failed reader.new }
        ensures write { result ≡ Err ServeFault.Write → WriteFails W.Sink S.Sink self.new }
        ensures stays { StaysServer self.old self.new }
    {
        match listen(reader, self.rooms, self.decoder) {
            Err(fault) => Err(fault),
            Ok(Received::End) => Ok(Next::Over),
            Ok(Received::Paused) => conclude(self.notice()),
            Ok(Received::Bytes) => conclude(self.process_all()),
        }
    }

    /// Carries out what was heard before this server began, as if it were read now.
    fn take_heard(&mut self) -> Result<Next, ServeFault>
        requires fresh { self.old.decoder.now.pending.skip ≡ 0 }
        requires some { 0 < length self.old.decoder.now.pending.bytes }
        ensures turn { (input : Option (List ℕ)) → (pauses : Option ℕ)
            → TakesServerTurn (voice_of D.passes self.old) nothing_fed self.new.decoder.now.pending
            (course (stands W.Sink S.Sink self.old) (prepend_known self.old.decoder.now.pending.bytes input) pauses)
            (course (stands W.Sink S.Sink self.new) input pauses) result }
        ensures read { result ≡ Err ServeFault.Read → ⊥ }
        ensures write { result ≡ Err ServeFault.Write → WriteFails W.Sink S.Sink self.new }
        ensures stays { StaysServer self.old self.new }
    {
        conclude(self.process_all())
    }

    /// Takes at most `turns` turns, from the bytes on that were heard before.
    pub fn run<R: ByteSource>(&mut self, reader: &mut R, turns: u64) -> Result<(), ServeFault>
        requires { self.old.decoder.now.pending.skip ≡ 0 }
        ensures runs { RunsChannel (voice_of D.passes self.old) turns
            (course (stands W.Sink S.Sink self.old)
            (prepend_known self.old.decoder.now.pending.bytes (R.remaining reader.old)) (R.pauses reader.old))
            (stands_by R.ByteSource W.Sink S.Sink self.new reader.new) result }
        ensures read { result ≡ Err ServeFault.Read → IsLedTo R.failed reader.new }
        ensures write { result ≡ Err ServeFault.Write → WriteFails W.Sink S.Sink self.new }
        ensures stays { StaysServer self.old self.new }
    {
        every_message_comes_out();
        nothing_whole_is_left();
        if self.decoder.room() > 0 {
            if let Next::Over = self.take_heard()? {
                return Ok(());
            }
        }
        for _turn in 0..turns {
            if let Next::Over = self.take_turn(reader)? {
                return Ok(());
            }
        }
        Err(ServeFault::ReadBound)
    }
}
