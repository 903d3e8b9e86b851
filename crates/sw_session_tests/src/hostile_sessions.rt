//! Sessions that end too early, connections that outlive their session, and sizes of odd lengths.

use crate::clients::{Client, FIRST, Fields, IDENTITY, Said, TAKEN, bench, carrying, plain};
use crate::hostile::{Halves, Row, Watched, line, quiet, sent_by, serve_on};
use std::alloc::Global;
use std::test::Fail;
use sw_core::{SessionAnswer, SessionAsk, Sid};
use sw_hislip::Kind;
use sw_session::{Beginning, Channel, Desk, TURNS, View, Wake, serve_channel};

/// Whether an answer is the identity in parts of `part` bytes.
fn is_cut(said: &Said, part: usize) -> bool {
    let mut left = IDENTITY;
    let mut is_so = !said.ends;
    for sent in said.out.as_slice() {
        let (front, rest) = left.split_at(part.min(left.len()));
        let kind = if rest.is_empty() {
            Kind::DataEnd
        } else {
            Kind::Data
        };
        is_so = is_so && sent.message.kind == kind && sent.message.payload.as_slice() == front;
        left = rest;
    }
    is_so && left.is_empty()
}

/// Whether the identity comes in parts of `part` bytes once the client sent this size.
fn cuts<D: Desk>(client: &mut Client, desk: &mut D, size: &[u8], part: usize) -> bool {
    let told = carrying(Kind::AsyncMaximumMessageSize, 0, 0, size);
    let own = [0, 0, 0, 0, 0, 1, 0, 0];
    let answer = carrying(Kind::AsyncMaximumMessageSizeResponse, 0, 0, &own);
    let is_told = client.adds(desk, told, answer);
    let it = carrying(Kind::DataEnd, TAKEN, FIRST, b"*IDN?");
    match client.hears(desk, Channel::Synchronous, it) {
        Some(step) => {
            let is_so = is_cut(&step, part);
            drop(step);
            is_told && is_so
        }
        None => false,
    }
}

/// Whether answers are cut by sizes of few bytes and of many: of 16 bytes less, one at least, and of 8 bytes alone.
fn cuts_by_each<D: Desk>(client: &mut Client, desk: &mut D) -> bool {
    cuts(client, desk, b"", 1)
        && cuts(client, desk, &[18], 2)
        && cuts(client, desk, &[0, 20], 4)
        && cuts(client, desk, &[0, 0, 26], 10)
        && cuts(client, desk, &[0, 0, 0, 36], 20)
        && cuts(client, desk, &[0, 0, 0, 0, 37], 21)
        && cuts(client, desk, &[0, 0, 0, 0, 0, 17], 1)
        && cuts(client, desk, &[0, 0, 0, 0, 0, 0, 18], 2)
        && cuts(client, desk, &[0, 0, 0, 0, 0, 0, 0, 16], 1)
        && cuts(client, desk, &[0, 0, 0, 0, 0, 0, 0, 20, 255], 4)
        && cuts(client, desk, &[255; 8], 21)
        && cuts(client, desk, &[255; 9], 21)
}

fn joins_and_cuts<D: Desk>(alloc: Global, desk: &mut D) -> bool {
    let mut client = Client::new(alloc);
    let is_so = client.joins(desk, 1) && cuts_by_each(&mut client, desk);
    drop(client);
    is_so
}

#[test]
fn sizes_of_odd_lengths_cut_answers(rt: HostRuntime) -> Result<(), Fail> {
    let Some(mut desk) = bench(rt.alloc()) else {
        return Err("no mainframe")?;
    };
    let is_so = joins_and_cuts(rt.alloc(), &mut desk);
    drop(desk);
    assert!(rt; is_so);
    Ok(())
}

/// Lets the client's session leave, as a server does at its end.
fn leave<D: Desk>(client: &Client, desk: &mut D) -> bool {
    match client.main.session() {
        Some(sid) => {
            drop(desk.ask(SessionAsk::Leave(sid)));
            true
        }
        None => false,
    }
}

/// Whether the channel ends at a message, and says nothing.
fn ends<D: Desk>(client: &mut Client, desk: &mut D, channel: Channel, it: Fields<'_>) -> bool {
    match client.hears(desk, channel, it) {
        Some(step) => {
            let is_so = step.ends && step.out.is_empty();
            drop(step);
            is_so
        }
        None => false,
    }
}

/// Whether a program message on a connection that outlived its session ends it, and the end of a device clear.
fn ends_first<D: Desk>(client: &mut Client, desk: &mut D) -> bool {
    let channel = Channel::Synchronous;
    let close = carrying(Kind::DataEnd, TAKEN, FIRST, b"ROUT:CLOS (@1!1)");
    ends(client, desk, channel, close)
        && ends(client, desk, channel, plain(Kind::Trigger, TAKEN, FIRST))
        && ends(
            client,
            desk,
            channel,
            plain(Kind::DeviceClearComplete, 0, 0),
        )
}

/// Whether what is asked on a second connection that outlived its session ends it.
fn ends_second<D: Desk>(client: &mut Client, desk: &mut D) -> bool {
    let channel = Channel::Asynchronous;
    let small = carrying(Kind::AsyncMaximumMessageSize, 0, 0, &[17]);
    ends(client, desk, channel, plain(Kind::AsyncLock, 0, 0))
        && ends(client, desk, channel, plain(Kind::AsyncLock, 1, 0))
        && ends(client, desk, channel, plain(Kind::AsyncLockInfo, 0, 0))
        && ends(client, desk, channel, small)
        && ends(client, desk, channel, plain(Kind::AsyncDeviceClear, 0, 0))
}

/// Whether the next session with that number is untouched: its lock, its message that is available, its size, its
/// commands, the relays and the errors.
fn is_untouched<D: Desk>(client: &mut Client, desk: &mut D) -> bool {
    let info = plain(Kind::AsyncLockInfo, 0, 0);
    client.has_message(desk)
        && client.adds(desk, info, plain(Kind::AsyncLockInfoResponse, 1, 1))
        && client.asks(desk, b"*IDN?", IDENTITY)
        && client.asks(desk, b"ROUT:CLOS:STAT?;:SYST:ERR?", b"(@);0,\"No error\"\n")
}

/// Whether the connections of a session that left end, and do nothing to the next one with its number.
fn outlives<D: Desk>(a: &mut Client, b: &mut Client, desk: &mut D) -> bool {
    let is_next = leave(a, desk) && b.joins(desk, 1) && b.locks(desk, b"", 1);
    b.note_answer(desk);
    let status = plain(Kind::AsyncStatusQuery, TAKEN, 0);
    let is_over = ends_first(a, desk) && ends_second(a, desk);
    drop(a.hears(desk, Channel::Asynchronous, status));
    is_next && is_over && is_untouched(b, desk)
}

/// Whether that is so, where the session that left had sent a command or none.
fn outlives_after<D: Desk>(alloc: Global, desk: &mut D, is_used: bool) -> bool {
    let mut a = Client::new(alloc);
    let mut b = Client::new(alloc);
    let is_so = a.joins(desk, 1)
        && (!is_used || a.asks(desk, b"*IDN?", IDENTITY))
        && outlives(&mut a, &mut b, desk);
    drop(a);
    drop(b);
    is_so
}

#[test]
fn a_connection_without_its_session_does_nothing_to_the_next(rt: HostRuntime) -> Result<(), Fail> {
    for is_used in [false, true] {
        let Some(mut desk) = bench(rt.alloc()) else {
            return Err("no mainframe")?;
        };
        let is_so = outlives_after(rt.alloc(), &mut desk, is_used);
        drop(desk);
        assert!(rt; is_so);
    }
    Ok(())
}

/// A desk on which a session leaves before the third look at its status, and another takes its number. The first look
/// is at the beginning of a second connection, and one is before each of its messages.
#[derive(Drop)]
struct Succeeded<D: Desk> {
    desk: D,
    looks: u32,
    next: Option<Sid>,
    /// How often the session that had the number before has left.
    leaves: u32,
}

impl<D: Desk> Succeeded<D> {
    /// Another session takes the number of this one, with its second connection.
    fn succeed(&mut self, sid: Sid) {
        drop(self.desk.ask(SessionAsk::Leave(sid)));
        let answer = self.desk.ask(SessionAsk::Join);
        match &answer {
            SessionAnswer::Joined(next) => self.next = Some(*next),
            _ => {}
        }
        drop(answer);
        drop(self.desk.ask(SessionAsk::Attach(sid.number)));
    }

    /// Whether the other session has this number and its second connection.
    fn stands(&mut self, number: u8) -> bool {
        let Some(next) = self.next else {
            return false;
        };
        let answer = self.desk.ask(SessionAsk::Attached(next));
        let is_so = next.number == number && matches!(&answer, SessionAnswer::Done(None));
        drop(answer);
        is_so
    }
}

impl<D: Desk> Desk for Succeeded<D> {
    ghost passes = { λ old entry new. Unit {0} };

    fn ask(&mut self, ask: SessionAsk) -> SessionAnswer {
        if matches!(&ask, SessionAsk::Leave(_)) {
            self.leaves = self.leaves.saturating_add(1);
        }
        self.desk.ask(ask)
    }

    fn wait(&mut self, limit_ms: Option<u32>) -> Wake {
        self.desk.wait(limit_ms)
    }

    fn poll(&mut self, sid: Sid) -> View {
        self.looks = self.looks.saturating_add(1);
        if self.looks == 3 {
            self.succeed(sid);
        }
        self.desk.poll(sid)
    }

    fn note(&mut self, sid: Sid, mav: bool) {
        self.desk.note(sid, mav)
    }
}

/// The second connection of session 3. Its client sends a size, and one more once its number is another session's.
fn late() -> [Row<'static>; 3] {
    [
        quiet(line(17, 0, 3, b"")),
        quiet(line(15, 0, 0, &[17])),
        quiet(line(15, 0, 0, &[18])),
    ]
}

/// What is said to that: AsyncInitializeResponse, and the answer to the first size alone.
const LATE_SAID: &[u8] = b"HS\x12\x00\x00\x00SW\x00\x00\x00\x00\x00\x00\x00\x00\
HS\x10\x00\x00\x00\x00\x00\x00\x00\x00\x00\x00\x00\x00\x08\x00\x00\x00\x00\x00\x01\x00\x00";

/// Whether the server of a second connection ends at the first message after its number went to another session, has
/// left once by itself, and that other session still has its connections.
fn ends_late<D: Desk>(alloc: Global, desk: &mut Succeeded<D>, sent: &[u8]) -> bool {
    let mut reader = Halves {
        front: sent,
        rest: b"",
    };
    let mut main = Vec::new(alloc);
    let mut side: Vec<u8> = Vec::new(alloc);
    let result = serve_channel(
        alloc,
        Beginning::of(alloc, Channel::Asynchronous),
        &mut reader,
        &mut main,
        &mut side,
        desk,
        TURNS,
    );
    let is_over = result == Ok(()) && main.as_slice() == LATE_SAID && side.is_empty();
    is_over && desk.leaves == 1 && desk.stands(3)
}

/// Whether that is so for the third of three sessions.
fn is_succeeded(alloc: Global) -> bool {
    let (Some(sent), Some(desk)) = (sent_by(alloc, &late()), bench(alloc)) else {
        return false;
    };
    let mut desk = Succeeded {
        desk,
        looks: 0,
        next: None,
        leaves: 0,
    };
    for _ in 0..3 {
        drop(desk.ask(SessionAsk::Join));
    }
    let is_so = ends_late(alloc, &mut desk, sent.as_slice());
    drop(desk);
    is_so
}

#[test]
fn a_late_second_connection_does_nothing_to_the_next_session(rt: HostRuntime) {
    assert!(rt; is_succeeded(rt.alloc()));
}

/// Begins a scan that awaits the bus.
const SCAN: &[u8] = b"*CLS;:ROUT:SCAN (@1!1);:TRIG:SOUR BUS;:INIT;*OPC";

/// Whether an `*OPC` that waits for a scan is served though its session left, and only once the scan is over.
fn completes<D: Desk>(a: &mut Client, b: &mut Client, desk: &mut D) -> bool {
    a.joins(desk, 1)
        && a.bids(desk, SCAN)
        && leave(a, desk)
        && b.joins(desk, 1)
        && b.asks(desk, b"*ESR?;:STAT:OPER:COND?", b"0;32\n")
        && b.bids(desk, b"*TRG")
        && b.asks(desk, b"*OPC?", b"1\n")
        && b.asks(desk, b"*ESR?;:STAT:OPER:COND?", b"1;0\n")
}

fn join_and_complete<D: Desk>(alloc: Global, desk: &mut D) -> bool {
    let mut a = Client::new(alloc);
    let mut b = Client::new(alloc);
    let is_so = completes(&mut a, &mut b, desk);
    drop(a);
    drop(b);
    is_so
}

#[test]
fn an_operation_completes_though_its_session_left(rt: HostRuntime) -> Result<(), Fail> {
    let Some(mut desk) = bench(rt.alloc()) else {
        return Err("no mainframe")?;
    };
    let is_so = join_and_complete(rt.alloc(), &mut desk);
    drop(desk);
    assert!(rt; is_so);
    Ok(())
}

/// Initialize, and a program message in two parts.
fn closing() -> [Row<'static>; 3] {
    [
        quiet(line(0, 0, 0x0100_5858, b"hislip0")),
        quiet(line(6, 0, 5, b"ROUT:CLOS (@1")),
        quiet(line(7, 0, 7, b"!1)")),
    ]
}

/// Whether the relays are so for the next session.
fn shows_relays<D: Desk>(alloc: Global, desk: &mut Watched<D>, relays: &[u8]) -> bool {
    let mut client = Client::new(alloc);
    let is_so = client.begins(desk, 1) && client.asks(desk, b"ROUT:CLOS:STAT?", relays);
    drop(client);
    is_so
}

/// Whether the relays are so after a server got these bytes.
fn closes_by(alloc: Global, sent: &[u8], relays: &[u8]) -> bool {
    let Some(desk) = bench(alloc) else {
        return false;
    };
    let mut desk = Watched {
        desk,
        attaches: true,
        leaves: 0,
    };
    let mut reader = Halves {
        front: sent,
        rest: b"",
    };
    drop(serve_on(alloc, Channel::Synchronous, &mut reader, &mut desk));
    let is_so = shows_relays(alloc, &mut desk, relays);
    drop(desk);
    is_so
}

/// Whether a message that ends too early, after any of its bytes, does nothing, and the whole one closes.
fn does_all_or_nothing(alloc: Global) -> bool {
    let Some(bytes) = sent_by(alloc, &closing()) else {
        return false;
    };
    let mut is_so = closes_by(alloc, bytes.as_slice(), b"(@1!1)\n");
    for cut in 0..bytes.len() {
        let (front, _) = bytes.split_at(cut.min(bytes.len()));
        is_so = is_so && closes_by(alloc, front, b"(@)\n");
    }
    is_so
}

#[test]
fn a_message_that_ends_too_early_does_nothing(rt: HostRuntime) {
    assert!(rt; does_all_or_nothing(rt.alloc()));
}
