//! A session's connections, each served by the desk of one thread.

ghost use Rattle.std.specs.Prelude.{◌≡◌, ◌⊎◌, ◌≤◌, ℕ, List, [], Option, None, Some, Ok, Err, length, vec_capacity};
ghost use Rattle.std.specs.Prelude.{OnOk, OnErr};
ghost use Rattle.std.specs.Io.KnownBytes.{Consumes, IsAtEnd, prepend_known};
ghost use Rattle.sw_talk.specs.Talk.{turns};
ghost use Rattle.sw_session.specs.ServeRead.{IsLedTo};
ghost use Rattle.sw_session.specs.ServeEngine.{ServesChannel};
ghost use Rattle.sw_workers.specs.Connected.{mishaps, connection_seen, beside, Fails};
ghost use Rattle.sw_connections.specs.Reads.{Waited};
ghost use Rattle.sw_workers.specs.Connected.{ServesFromHeader, RunsSession};
ghost use Rattle.sw_workers.specs.Work.{DeskPasses, desk_seen};

use crate::desk::SharedDesk;
use crate::gate::Gate;
use crate::mainframe::Mainframe;
use std::alloc::Global;
use std::sync::{Arc, Wait};
use std::time::Clock;
use sw_card::{Meter, Relay};
use sw_connections::{Connection, Reading, Serving, Unserved, read_header};
use sw_hislip::HEADER;
use sw_session::{
    Beginning, ByteSource, Channel, Desk, ServeFault, Sink, TURNS, Unread, Unwritten, serve_channel,
};

/// How long a read lasts at most, in milliseconds. After it a second channel sends service requests, and a connection
/// that is open for too long ends.
const LIMIT_MS: u32 = 100;

/// How a connection was served.
#[derive(Drop)]
pub struct Ended<D: Drop, R: Drop, O: Drop, A: Drop> {
    /// The desk, which has left its session.
    pub desk: D,
    pub reader: R,
    pub writer: O,
    /// The second way to the client.
    pub aside: A,
    /// Why the connection was not served, if it was not: then nothing was read, asked or written.
    pub unserved: Option<Unserved>,
    /// How its channel was served.
    pub result: Result<(), ServeFault>,
}

/// The side writer of a session's first channel: it leaves what is said on the second one to the thread that serves
/// that.
#[derive(Drop)]
struct SideWriter<'a, H: Mainframe, W: Wait + Drop> {
    serving: &'a Serving<H>,
    rt: W,
}

impl<H: Mainframe, W: Wait + Drop> Sink for SideWriter<'_, H, W> {
    ghost use Rattle.std.specs.Prelude.{None};

    ghost contents = { λ _. None };

    ghost failed = { λ _ _. H.refused };

    fn deliver(&mut self, bytes: &[u8]) -> Result<(), Unwritten> {
        match self.serving.append(&self.rt, bytes) {
            Ok(()) => Ok(()),
            Err(_) => Err(Unwritten),
        }
    }
}

/// The side writer of a second channel, which says nothing on the first one.
#[derive(Clone, Copy, Debug, Drop)]
struct Nowhere;

impl Sink for Nowhere {
    ghost use Rattle.std.specs.Prelude.{None};

    ghost contents = { λ _. None };

    ghost failed = { λ _ _. ⊥ };

    fn deliver(&mut self, _bytes: &[u8]) -> Result<(), Unwritten> {
        Ok(())
    }
}

/// Serves a connection as the channel that its first header names, for at most 2^32 reads after that.
pub fn run_session<
    H: Mainframe,
    R: Relay,
    M: Meter,
    G: Gate + Drop,
    W: Wait + Clock + Copy + Drop,
    C: Connection,
>(
    connection: C,
    desk: SharedDesk<H, R, M, G, W>,
    alloc: Global,
) -> Ended<SharedDesk<H, R, M, G, W>, C::In, C::Out, C::Aside>
    ensures { RunsSession (λ before entry after. DeskPasses H.first H.over H.client_gone
        (desk_seen before.part before.serves) entry (desk_seen after.part after.serves))
        (mishaps C.In.ByteSource C.Out.Sink C.Aside.Sink H.refused result.reader result.writer result.aside)
        H.turned_away turns
        (connection_seen desk (C.input connection) (C.pauses connection) (C.output connection))
        (connection_seen result.desk (C.In.remaining result.reader) (C.In.pauses result.reader)
        (C.Out.contents result.writer)) result.unserved result.result }
{
    let line = connection.line();
    let (reader, writer, aside) = connection.into_parts();
    let wire = Parts {
        reader,
        writer,
        aside,
    };
    let rt = desk.rt;
    let Ok(serving) = Arc::try_clone(&desk.serving) else {
        return unbegun(wire, desk, Unserved::NoMemory);
    };
    let Ok(header) = Vec::with_capacity(alloc, HEADER) else {
        return unbegun(wire, desk, Unserved::NoMemory);
    };
    if let Err(why) = serving.begin(&rt, line) {
        return unbegun(wire, desk, why);
    }
    let ended = serve_parts::<H, C, _, W>(rt, alloc, header, wire, desk, &*serving);
    ended.desk.serving.finish(&rt);
    ended
}

/// The parts of a connection.
#[derive(Drop)]
struct Parts<I: Drop, O: Drop, A: Drop> {
    reader: I,
    writer: O,
    aside: A,
}

/// What is left of a connection that is not served, for this cause.
fn unbegun<I: Drop, O: Drop, A: Drop, D: Drop>(
    wire: Parts<I, O, A>,
    desk: D,
    why: Unserved,
) -> Ended<D, I, O, A>
    ensures desk { result.desk ≡ desk }
    ensures reader { result.reader ≡ wire.reader }
    ensures writer { result.writer ≡ wire.writer }
    ensures why { result.unserved ≡ Some why }
    ensures result { result.result ≡ Ok tt }
{
    let Parts {
        reader,
        writer,
        aside,
    } = wire;
    Ended {
        desk,
        reader,
        writer,
        aside,
        unserved: Some(why),
        result: Ok(()),
    }
}

/// Limits each read, and reads until the first header is whole, or the input ends or fails.
fn hear_header<H: Mainframe, C: Connection, W: Wait + Clock>(
    rt: &W,
    serving: &Serving<H>,
    reader: &mut C::In,
    header: &mut Vec<u8>,
) -> Result<(), Unread>
    requires { (header.old.items ≡ []) × (16 ≤ vec_capacity header.old) }
    ensures bytes { Consumes (C.In.remaining reader.old) (C.In.remaining reader.new) header.new.items }
    ensures waits { Waited (C.In.pauses reader.old) (C.In.pauses reader.new) }
    ensures whole { OnOk result ((length header.new.items ≡ 16) ⊎ IsAtEnd (C.In.remaining reader.new)) }
    ensures failed { OnErr result (IsLedTo C.In.failed reader.new) }
{
    if C::set_limit(reader, LIMIT_MS).is_err() {
        return Err(Unread::Failed);
    }
    read_header(rt, serving, reader, header)
}

/// Reads the first header, and serves the channel that it names.
fn serve_parts<H: Mainframe, C: Connection, D: Desk + Drop, W: Wait + Clock + Copy + Drop>(
    rt: W,
    alloc: Global,
    header: Vec<u8>,
    wire: Parts<C::In, C::Out, C::Aside>,
    desk: D,
    serving: &Serving<H>,
) -> Ended<D, C::In, C::Out, C::Aside>
    requires { (header.items ≡ []) × (16 ≤ vec_capacity header) }
    ensures serves { ServesFromHeader D.passes
        (mishaps C.In.ByteSource C.Out.Sink C.Aside.Sink H.refused result.reader result.writer result.aside) turns
        (connection_seen desk (C.In.remaining wire.reader) (C.In.pauses wire.reader) (C.Out.contents wire.writer))
        (connection_seen result.desk (C.In.remaining result.reader) (C.In.pauses result.reader)
        (C.Out.contents result.writer)) result.result }
    ensures served { result.unserved ≡ None }
{
    let Parts {
        mut reader,
        writer,
        aside,
    } = wire;
    let mut header = header;
    let has_failed = hear_header::<H, C, W>(&rt, serving, &mut reader, &mut header).is_err();
    let beginning = Beginning::heard(header);
    let channel = beginning.channel();
    let source = Reading::<H, C, W> {
        reader,
        aside,
        serving,
        rt,
        channel,
        is_joined: false,
        is_paired: false,
        has_failed,
    };
    match channel {
        Channel::Synchronous => {
            let side = SideWriter { serving, rt };
            serve_from(alloc, beginning, source, (writer, side), desk)
        }
        Channel::Asynchronous => serve_from(alloc, beginning, source, (writer, Nowhere), desk),
    }
}

/// Serves a channel from what was heard on, with a writer and a side writer.
fn serve_from<H: Mainframe, C: Connection, S: Sink + Drop, D: Desk + Drop, W: Wait + Clock + Drop>(
    alloc: Global,
    beginning: Beginning,
    source: Reading<'_, H, C, W>,
    writers: (C::Out, S),
    desk: D,
) -> Ended<D, C::In, C::Out, C::Aside>
    ensures serves { (side : Option (List ℕ)) × (side' : Option (List ℕ))
        × ServesChannel D.passes beginning.channel turns
        (beside side (connection_seen desk (prepend_known beginning.bytes (C.In.remaining source.entry.reader))
        (C.In.pauses source.entry.reader) (C.Out.contents writers.0)))
        (beside side' (connection_seen result.desk (C.In.remaining result.reader) (C.In.pauses result.reader)
        (C.Out.contents result.writer)))
        result.result }
    ensures read { result.result ≡ Err ServeFault.Read
        → IsLedTo C.In.failed result.reader ⊎ IsLedTo C.Aside.failed result.aside }
    ensures write { result.result ≡ Err ServeFault.Write → IsLedTo C.Out.failed result.writer ⊎ Fails S.failed }
    ensures served { result.unserved ≡ None }
{
    let mut source = source;
    let (mut writer, mut side) = writers;
    let mut desk = desk;
    let result = serve_channel(
        alloc,
        beginning,
        &mut source,
        &mut writer,
        &mut side,
        &mut desk,
        TURNS,
    );
    let Reading { reader, aside, .. } = source;
    Ended {
        desk,
        reader,
        writer,
        aside,
        unserved: None,
        result,
    }
}
