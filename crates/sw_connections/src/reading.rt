//! What the thread of a connection reads from.

ghost use Rattle.std.specs.Prelude.{◌≡◌, ◌≤◌, ◌⊎◌, [], length, vec_capacity, OnOk, OnErr};
ghost use Rattle.std.specs.Io.KnownBytes.{Consumes, IsAtEnd};
ghost use Rattle.sw_session.specs.ServeRead.{IsLedTo};
ghost use Rattle.sw_connections.specs.Reads.{Waited};

use crate::clients::Clients;
use crate::connection::Connection;
use crate::leaving::await_left;
use crate::serving::Serving;
use std::marker::Model;
use std::sync::Wait;
use std::time::Clock;
use sw_hislip::HEADER;
use sw_session::{ByteSource, Channel, Sink, Unread, Unwritten};

/// Reads until a header is whole, or the input ends or fails. It repeats a read that a time limit ended, until the
/// connection has been open for too long.
#[tactic(auto, using(crate::proofs::WaitedLemmas::waited_none, crate::proofs::WaitedLemmas::waited_on))]
pub fn read_header<H: Clients, R: ByteSource, W: Wait + Clock>(
    rt: &W,
    serving: &Serving<H>,
    reader: &mut R,
    header: &mut Vec<u8>,
) -> Result<(), Unread>
    requires { (header.old.items ≡ []) × (16 ≤ vec_capacity header.old) }
    ensures bytes { Consumes (R.remaining reader.old) (R.remaining reader.new) header.new.items }
    ensures waits { Waited (R.pauses reader.old) (R.pauses reader.new) }
    ensures whole { OnOk result ((length header.new.items ≡ 16) ⊎ IsAtEnd (R.remaining reader.new)) }
    ensures failed { OnErr result (IsLedTo R.failed reader.new) }
{
    for _ in rt.forever() {
        if header.len() >= HEADER {
            return Ok(());
        }
        let _ = serving.end_overdue(rt, false);
        let mut bytes = [0_u8; HEADER];
        let room = HEADER - header.len();
        match reader.receive(&mut bytes[..room]) {
            Ok(0) => return Ok(()),
            Ok(n) => header.extend_from_slice(&bytes[..n]).unwrap(),
            Err(Unread::Paused) => {}
            Err(Unread::Failed) => return Err(Unread::Failed),
        }
    }
    unreachable!()
}

/// What a channel reads from once its first header is whole, or its input has ended or failed in it.
///
/// Until its session has both connections, each read looks how long this one has been open. From then on the reads of a
/// first channel have no limit: the second one carries service requests, and the end of a session closes its lines.
/// Before each read of a second channel it writes what the first channel's thread left. The end of a second channel
/// comes once what had come on the first connection is served. Contracts see the reader, and the second way to the
/// client.
#[derive(Drop)]
pub struct Reading<'a, H: Clients, C: Connection, W: Wait + Clock + Drop> {
    pub reader: C::In,
    pub aside: C::Aside,
    pub serving: &'a Serving<H>,
    pub rt: W,
    pub channel: Channel,
    /// The connection was told that it has joined.
    pub is_joined: bool,
    /// Its session has both connections, or had them.
    pub is_paired: bool,
    /// A read in the first header failed, so each that follows does.
    pub has_failed: bool,
}

impl<'a, H: Clients, C: Connection, W: Wait + Clock + Drop> Model for Reading<'a, H, C, W> {
    ghost use Rattle.std.specs.Prelude.{◌≡◌, true};
    ghost use Rattle.sw_session.specs.ServeRead.{IsLedTo};
    ghost use Rattle.sw_connections.specs.Reads.{ReadingSeen};

    ghost Value = { ReadingSeen C.In C.Aside };

    ghost view = { λ s. record { reader = s.reader; aside = s.aside } };

    ghost invariant = { λ s. s.has_failed ≡ true → IsLedTo C.In.failed s.reader };
}

impl<H: Clients, C: Connection, W: Wait + Clock + Drop> ByteSource for Reading<'_, H, C, W> {
    ghost use Rattle.std.specs.Prelude.{◌⊎◌};
    ghost use Rattle.sw_session.specs.ServeRead.{IsLedTo};

    ghost remaining = { λ s. C.In.remaining s.reader };

    ghost pauses = { λ s. C.In.pauses s.reader };

    ghost failed = { λ _ t. IsLedTo C.In.failed t.reader ⊎ IsLedTo C.Aside.failed t.aside };

    fn receive(&mut self, buffer: &mut [u8]) -> Result<usize, Unread> {
        if !self.is_joined {
            self.is_joined = is_joined::<H, C, W>(&self.rt, self.serving, &self.reader);
        }
        if !self.is_paired {
            self.is_paired = is_paired(&self.rt, self.serving, self.channel);
        }
        let is_second = self.channel == Channel::Asynchronous;
        if is_second && forward(&self.rt, self.serving, &mut self.aside).is_err() {
            return Err(Unread::Failed);
        }
        if self.has_failed {
            return Err(Unread::Failed);
        }
        let read = self.reader.receive(buffer);
        if is_second && matches!(read, Ok(0) | Err(Unread::Failed)) {
            await_left(&self.rt, self.serving);
        }
        read
    }
}

/// Whether the connection has a session, as which it has joined then.
fn is_joined<H: Clients, C: Connection, W: Wait>(
    rt: &W,
    serving: &Serving<H>,
    reader: &C::In,
) -> bool {
    match serving.number(rt) {
        Some(number) => {
            C::joined(reader, number);
            true
        }
        None => false,
    }
}

/// Ends a line that has been open for too long, and gives whether its session has both connections. Where it has, the
/// reads of a first channel have no limit.
fn is_paired<H: Clients, W: Wait + Clock>(rt: &W, serving: &Serving<H>, channel: Channel) -> bool {
    let is_paired = serving.end_overdue(rt, true);
    if is_paired && channel == Channel::Synchronous {
        serving.listen_long(rt);
    }
    is_paired
}

/// Writes what the session's other thread left, if anything.
fn forward<H: Clients, A: Sink, W: Wait>(
    rt: &W,
    serving: &Serving<H>,
    aside: &mut A,
) -> Result<(), Unwritten>
    ensures { OnErr result (IsLedTo A.failed aside.new) }
{
    match serving.take_side(rt) {
        Some(left) => aside.deliver(left.as_slice()),
        None => Ok(()),
    }
}
