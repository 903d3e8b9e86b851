//! HiSLIP's servers over readers that cut, pause and fail, and over writers that fail.

use std::alloc::Global;
use std::io::{self, ErrorKind, Read, Write};
use sw_base::Sequence;
use sw_core::{AnswerText, SessionAnswer, SessionAsk, Sid};
use sw_session::{
    Beginning, ByteSource, Channel, Desk, Memory, ServeFault, TURNS, View, Wake, serve_channel,
};

/// A desk with one session. Its client takes messages of 27 bytes. It answers each command with its identity, and with
/// each look at its status there was one more service request.
#[derive(Drop)]
struct Station {
    alloc: Global,
    looks: u64,
    is_available: bool,
    /// How often it was noted that a message is available.
    notes: u32,
    /// How often a session left.
    leaves: u32,
}

impl Station {
    fn new(alloc: Global) -> Self {
        Station {
            alloc,
            looks: 0,
            is_available: false,
            notes: 0,
            leaves: 0,
        }
    }

    fn identity(&self) -> Option<AnswerText> {
        match Vec::from_slice(self.alloc, b"OPENBENCH,SWM8,0,1.0") {
            Ok(text) => Some(AnswerText::bytes(Sequence::new(text))),
            Err(_) => None,
        }
    }
}

const SESSION: Sid = Sid {
    number: 1,
    joined: 0,
};

impl Desk for Station {
    ghost passes = { λ old entry new. Unit {0} };

    fn ask(&mut self, ask: SessionAsk) -> SessionAnswer {
        match ask {
            SessionAsk::Join | SessionAsk::Attach(1) => SessionAnswer::Joined(SESSION),
            SessionAsk::Attached(_) | SessionAsk::Fault(_, _) | SessionAsk::Bus(_) => {
                SessionAnswer::Done(None)
            }
            SessionAsk::MaxSize(_) => SessionAnswer::Max(27),
            SessionAsk::Leave(_) => {
                self.leaves = self.leaves.saturating_add(1);
                SessionAnswer::Done(None)
            }
            SessionAsk::Unit(_, command, _) => {
                drop(command);
                SessionAnswer::Done(self.identity())
            }
            other => {
                drop(other);
                SessionAnswer::Stranger
            }
        }
    }

    fn wait(&mut self, _limit_ms: Option<u32>) -> Wake {
        Wake::Over
    }

    fn poll(&mut self, _sid: Sid) -> View {
        let requests = self.looks;
        self.looks = self.looks.saturating_add(1);
        View {
            byte: 4,
            requests,
            mav: self.is_available,
        }
    }

    fn note(&mut self, _sid: Sid, mav: bool) {
        self.is_available = mav;
        if mav {
            self.notes = self.notes.saturating_add(1);
        }
    }
}

/// Gives its bytes in pieces, the first of them this long. After `good` reads a read is an error, once or for good.
#[derive(Clone, Copy)]
pub struct Pieces<'a> {
    left: &'a [u8],
    first: usize,
    rest: usize,
    good: u32,
    error: ErrorKind,
    is_lasting: bool,
}

impl<'a> Pieces<'a> {
    fn new(left: &'a [u8], first: usize, rest: usize) -> Self {
        Pieces {
            left,
            first,
            rest,
            good: u32::MAX,
            error: ErrorKind::BrokenPipe,
            is_lasting: true,
        }
    }

    /// One byte at a time, with an error after `good` reads.
    pub fn broken(left: &'a [u8], good: u32, error: ErrorKind, is_lasting: bool) -> Self {
        Pieces {
            left,
            first: 1,
            rest: 1,
            good,
            error,
            is_lasting,
        }
    }
}

impl Read for Pieces<'_> {
    fn read(&mut self, buf: &mut [u8]) -> io::Result<usize> {
        if self.good == 0 {
            if !self.is_lasting {
                self.good = u32::MAX;
            }
            return Err(io::Error::from(self.error));
        }
        self.good -= 1;
        let n = self.first.min(buf.len()).min(self.left.len());
        let (front, rest) = self.left.split_at(n);
        buf[..n].copy_from_slice(front);
        self.left = rest;
        self.first = self.rest;
        Ok(n)
    }
}

/// Takes `room` bytes, no more than five at a time, and then fails.
#[derive(Drop)]
struct Narrow {
    bytes: Vec<u8>,
    room: usize,
}

impl Write for Narrow {
    fn write(&mut self, buf: &[u8]) -> io::Result<usize> {
        let n = buf.len().min(self.room).min(5);
        if n == 0 {
            return Err(io::Error::from(ErrorKind::BrokenPipe));
        }
        self.bytes.extend_from_slice(&buf[..n])?;
        self.room -= n;
        Ok(n)
    }

    fn flush(&mut self) -> io::Result<()> {
        Ok(())
    }
}

/// Initialize for `hislip0`, then the query `*IDN?` in a DataEnd of identifier FFFFFF00, then, before its answer was
/// taken, Trigger of identifier FFFFFF02.
const TALK: &[u8] = b"HS\x00\x00\x01\x00XX\x00\x00\x00\x00\x00\x00\x00\x07hislip0\
HS\x07\x00\xff\xff\xff\x00\x00\x00\x00\x00\x00\x00\x00\x06*IDN?\n\
HS\x0c\x00\xff\xff\xff\x02\x00\x00\x00\x00\x00\x00\x00\x00";

/// What is said to that on the synchronous connection: InitializeResponse of session 1, the answer in payloads of 11
/// bytes, and Interrupted.
const SAID: &[u8] = b"HS\x01\x00\x01\x00\x00\x01\x00\x00\x00\x00\x00\x00\x00\x00\
HS\x06\x00\xff\xff\xff\x00\x00\x00\x00\x00\x00\x00\x00\x0bOPENBENCH,S\
HS\x07\x00\xff\xff\xff\x00\x00\x00\x00\x00\x00\x00\x00\x0aWM8,0,1.0\n\
HS\x0d\x00\xff\xff\xff\x02\x00\x00\x00\x00\x00\x00\x00\x00";

/// And on the asynchronous one: AsyncInterrupted.
const SAID_BESIDE: &[u8] = b"HS\x0e\x00\xff\xff\xff\x02\x00\x00\x00\x00\x00\x00\x00\x00";

/// AsyncInitialize of session 1.
pub const SECOND: &[u8] = b"HS\x11\x00\x00\x00\x00\x01\x00\x00\x00\x00\x00\x00\x00\x00";

/// AsyncInitializeResponse.
pub const SECOND_SAID: &[u8] = b"HS\x12\x00\x00\x00SW\x00\x00\x00\x00\x00\x00\x00\x00";

/// The same, and AsyncServiceRequest with bits 2 and 6 of the status byte.
pub const SECOND_SAID_MORE: &[u8] = b"HS\x12\x00\x00\x00SW\x00\x00\x00\x00\x00\x00\x00\x00\
HS\x14\x44\x00\x00\x00\x00\x00\x00\x00\x00\x00\x00\x00\x00";

/// FatalError 1 and 3.
const POORLY_FORMED: &[u8] = b"HS\x02\x01\x00\x00\x00\x00\x00\x00\x00\x00\x00\x00\x00\x00";

const WRONGLY_BEGUN: &[u8] = b"HS\x02\x03\x00\x00\x00\x00\x00\x00\x00\x00\x00\x00\x00\x00";

/// Error 4.
const TOO_LARGE: &[u8] = b"HS\x03\x04\x00\x00\x00\x00\x00\x00\x00\x00\x00\x00\x00\x00";

/// How a server ended, and what it had written and asked by then.
#[derive(Drop)]
pub struct Served {
    result: Result<(), ServeFault>,
    main: Vec<u8>,
    side: Vec<u8>,
    notes: u32,
    leaves: u32,
}

pub fn serve<R: ByteSource>(alloc: Global, channel: Channel, reader: &mut R, turns: u64) -> Served {
    let mut main = Vec::new(alloc);
    let mut side = Vec::new(alloc);
    let mut desk = Station::new(alloc);
    let result = serve_channel(
        alloc,
        Beginning::of(alloc, channel),
        reader,
        &mut main,
        &mut side,
        &mut desk,
        turns,
    );
    let (notes, leaves) = (desk.notes, desk.leaves);
    drop(desk);
    Served {
        result,
        main,
        side,
        notes,
        leaves,
    }
}

/// Whether a server ended so and said this on its two connections. A session that was joined has left once.
pub fn is_served(
    served: Served,
    end: Result<(), ServeFault>,
    main: &[u8],
    side: &[u8],
    leaves: u32,
) -> bool {
    let is_so = served.result == end
        && served.main.as_slice() == main
        && served.side.as_slice() == side
        && served.leaves == leaves;
    drop(served);
    is_so
}

/// Whether the talk is answered whole when it comes in such pieces. That a message is available is noted for each of
/// the answer's two parts.
fn is_whole_talk(alloc: Global, first: usize, rest: usize) -> bool {
    let mut reader = Pieces::new(TALK, first, rest);
    let served = serve(alloc, Channel::Synchronous, &mut reader, 1000);
    served.notes == 2 && is_served(served, Ok(()), SAID, SAID_BESIDE, 1)
}

#[test]
fn cuts_make_no_difference(rt: HostRuntime) {
    for cut in 1..62 {
        assert!(rt; is_whole_talk(rt.alloc(), cut, 512) && is_whole_talk(rt.alloc(), cut, cut));
    }
    assert!(rt; is_whole_talk(rt.alloc(), 512, 512));
}

/// Whether the talk is answered whole from memory, in `turns` turns.
fn is_whole_from_memory(alloc: Global, turns: u64, end: Result<(), ServeFault>) -> bool {
    let mut memory = Memory { left: TALK };
    let served = serve(alloc, Channel::Synchronous, &mut memory, turns);
    memory.left.is_empty() && is_served(served, end, SAID, SAID_BESIDE, 1)
}

#[test]
fn memory_is_read_whole(rt: HostRuntime) {
    let bound = Err(ServeFault::ReadBound);
    assert!(rt;
        is_whole_from_memory(rt.alloc(), 2, Ok(())) && is_whole_from_memory(rt.alloc(), 1, bound)
    );
}

/// How many bytes of the answer, and of what is said beside it, follow the first `read` bytes of the talk.
fn said_after(read: u32) -> (usize, usize) {
    match read {
        0..23 => (0, 0),
        23..45 => (16, 0),
        45..61 => (69, 0),
        _ => (85, 16),
    }
}

/// The first `count` bytes.
fn front(bytes: &[u8], count: usize) -> &[u8] {
    let (front, _) = bytes.split_at(count.min(bytes.len()));
    front
}

/// Whether a read that fails after `good` bytes leaves the answers to all before, and the session.
fn breaks_off(alloc: Global, good: u32) -> bool {
    let mut reader = Pieces::broken(TALK, good, ErrorKind::BrokenPipe, true);
    let served = serve(alloc, Channel::Synchronous, &mut reader, 1000);
    let (main, side) = said_after(good);
    let leaves = if good < 23 { 0 } else { 1 };
    let fault = Err(ServeFault::Read);
    is_served(
        served,
        fault,
        front(SAID, main),
        front(SAID_BESIDE, side),
        leaves,
    )
}

#[test]
fn each_read_fails_in_turn(rt: HostRuntime) {
    for good in 0..62 {
        assert!(rt; breaks_off(rt.alloc(), good));
    }
}

/// Whether an error of this kind after `good` reads makes no difference.
fn passes_over(alloc: Global, good: u32, error: ErrorKind) -> bool {
    let mut reader = Pieces::broken(TALK, good, error, false);
    let served = serve(alloc, Channel::Synchronous, &mut reader, 1000);
    is_served(served, Ok(()), SAID, SAID_BESIDE, 1)
}

#[test]
fn time_limits_and_interrupts_are_no_faults(rt: HostRuntime) {
    for good in 0..62 {
        assert!(rt;
            passes_over(rt.alloc(), good, ErrorKind::TimedOut)
                && passes_over(rt.alloc(), good, ErrorKind::WouldBlock)
                && passes_over(rt.alloc(), good, ErrorKind::Interrupted)
        );
    }
}

/// Whether a writer that fails after `room` bytes has the front of the answer, and the session leaves. The server notes
/// that a message is available where it gives each of its two parts to the writer, before it is written, and not where
/// what comes before the part fails.
fn stops_writing(alloc: Global, room: usize) -> bool {
    let mut reader = Pieces::new(TALK, 512, 512);
    let mut main = Narrow {
        bytes: Vec::new(alloc),
        room,
    };
    let mut side = Vec::new(alloc);
    let mut desk = Station::new(alloc);
    let result = serve_channel(
        alloc,
        Beginning::of(alloc, Channel::Synchronous),
        &mut reader,
        &mut main,
        &mut side,
        &mut desk,
        TURNS,
    );
    let (notes, leaves) = (desk.notes, desk.leaves);
    drop(desk);
    let noted = match room {
        0..16 => 0,
        16..43 => 1,
        _ => 2,
    };
    let served = Served {
        result,
        main: main.bytes,
        side,
        notes,
        leaves,
    };
    let beside = if room < 69 {
        b"".as_slice()
    } else {
        SAID_BESIDE
    };
    served.notes == noted && is_served(served, Err(ServeFault::Write), front(SAID, room), beside, 1)
}

/// Whether a side writer that fails after `room` bytes has the front of what is said beside the answer.
fn stops_beside(alloc: Global, room: usize) -> bool {
    let mut reader = Pieces::new(TALK, 512, 512);
    let mut main = Vec::new(alloc);
    let mut side = Narrow {
        bytes: Vec::new(alloc),
        room,
    };
    let mut desk = Station::new(alloc);
    let result = serve_channel(
        alloc,
        Beginning::of(alloc, Channel::Synchronous),
        &mut reader,
        &mut main,
        &mut side,
        &mut desk,
        TURNS,
    );
    let (notes, leaves) = (desk.notes, desk.leaves);
    drop(desk);
    let served = Served {
        result,
        main,
        side: side.bytes,
        notes,
        leaves,
    };
    is_served(
        served,
        Err(ServeFault::Write),
        front(SAID, 69),
        front(SAID_BESIDE, room),
        1,
    )
}

#[test]
fn each_write_fails_in_turn(rt: HostRuntime) {
    for room in 0..85 {
        assert!(rt; stops_writing(rt.alloc(), room));
    }
    for room in 0..16 {
        assert!(rt; stops_beside(rt.alloc(), room));
    }
}

/// Whether `turns` reads of one byte each are all that the server does.
fn reads_no_further(alloc: Global, turns: u64) -> bool {
    let mut reader = Pieces::new(TALK, 1, 1);
    let served = serve(alloc, Channel::Synchronous, &mut reader, turns);
    let is_so = is_served(served, Err(ServeFault::ReadBound), b"", b"", 0);
    is_so && turns.saturating_add(reader.left.len() as u64) == 61
}

#[test]
fn turns_are_bounded(rt: HostRuntime) {
    assert!(rt; reads_no_further(rt.alloc(), 0) && reads_no_further(rt.alloc(), 3));
}

/// Whether the asynchronous server without a bound begins and ends a session.
fn serves_second(alloc: Global) -> bool {
    let mut reader = Pieces::new(SECOND, 512, 512);
    let mut main = Vec::new(alloc);
    let mut side: Vec<u8> = Vec::new(alloc);
    let mut desk = Station::new(alloc);
    let result = serve_channel(
        alloc,
        Beginning::of(alloc, Channel::Asynchronous),
        &mut reader,
        &mut main,
        &mut side,
        &mut desk,
        TURNS,
    );
    let leaves = desk.leaves;
    drop(desk);
    result == Ok(()) && main.as_slice() == SECOND_SAID && side.is_empty() && leaves == 1
}

#[test]
fn a_second_channel_is_served(rt: HostRuntime) {
    assert!(rt; serves_second(rt.alloc()));
}

/// Whether both servers say this to such bytes, and end so.
fn both_end(alloc: Global, bytes: &[u8], said: &[u8], end: Result<(), ServeFault>) -> bool {
    let mut reader = Pieces::new(bytes, 7, 7);
    let first = serve(alloc, Channel::Synchronous, &mut reader, 1000);
    let mut reader = Pieces::new(bytes, 7, 7);
    let second = serve(alloc, Channel::Asynchronous, &mut reader, 1000);
    let is_first = is_served(first, end, said, b"", 0);
    is_served(second, end, said, b"", 0) && is_first
}

#[test]
fn faults_are_answered_and_told(rt: HostRuntime) {
    let wire = b"HX\x00\x00\x00\x00\x00\x00\x00\x00\x00\x00\x00\x00\x00\x00HS";
    assert!(rt; both_end(rt.alloc(), wire, POORLY_FORMED, Err(ServeFault::Wire)));
    let fatal = b"HS\x07\x00\x00\x00\x00\x00\x00\x00\x00\x00\x00\x00\x00\x00HS";
    assert!(rt; both_end(rt.alloc(), fatal, WRONGLY_BEGUN, Err(ServeFault::Fatal(3))));
    let large = b"HS\x06\x00\x00\x00\x00\x00\x00\x00\x00\x00\x00\x01\x00\x01skipped";
    assert!(rt; both_end(rt.alloc(), large, TOO_LARGE, Ok(())));
}
