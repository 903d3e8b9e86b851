//! HiSLIP streams that no client should send, to the servers of both channels over a mainframe: in two pieces cut after
//! each byte, and ended after each byte. What is answered is written here by the rules of `docs/HISLIP.md`.

use crate::clients::bench;
use std::alloc::Global;
use std::io::{self, Read};
use sw_core::{SessionAnswer, SessionAsk, Sid};
use sw_session::{
    Beginning, ByteSource, Channel, Desk, ServeFault, Sink, TURNS, View, Wake, serve_channel,
};

/// A desk that gives each session its second connection as it begins, where it is to, and counts how often one left.
#[derive(Drop)]
pub struct Watched<D: Desk> {
    pub desk: D,
    pub attaches: bool,
    pub leaves: u32,
}

impl<D: Desk> Watched<D> {
    /// Gives a session that has begun its second connection.
    fn attach(&mut self, answer: &SessionAnswer) {
        match answer {
            SessionAnswer::Joined(sid) if self.attaches => {
                drop(self.desk.ask(SessionAsk::Attach(sid.number)));
            }
            _ => {}
        }
    }
}

impl<D: Desk> Desk for Watched<D> {
    ghost passes = { λ old entry new. Unit {0} };

    fn ask(&mut self, ask: SessionAsk) -> SessionAnswer {
        let joins = matches!(&ask, SessionAsk::Join);
        if matches!(&ask, SessionAsk::Leave(_)) {
            self.leaves = self.leaves.saturating_add(1);
        }
        let answer = self.desk.ask(ask);
        if joins {
            self.attach(&answer);
        }
        answer
    }

    fn wait(&mut self, limit_ms: Option<u32>) -> Wake {
        self.desk.wait(limit_ms)
    }

    fn poll(&mut self, sid: Sid) -> View {
        self.desk.poll(sid)
    }

    fn note(&mut self, sid: Sid, mav: bool) {
        self.desk.note(sid, mav)
    }
}

/// Gives its bytes in two pieces.
#[derive(Clone, Copy)]
pub struct Halves<'a> {
    pub front: &'a [u8],
    pub rest: &'a [u8],
}

impl Read for Halves<'_> {
    fn read(&mut self, buf: &mut [u8]) -> io::Result<usize> {
        if self.front.is_empty() {
            self.front = self.rest;
            self.rest = b"";
        }
        let n = self.front.len().min(buf.len());
        let (given, left) = self.front.split_at(n);
        buf[..n].copy_from_slice(given);
        self.front = left;
        Ok(n)
    }
}

/// A message on the wire. Its header may claim another length than its payload has.
#[derive(Clone, Copy)]
pub struct Wire<'a> {
    prologue: [u8; 2],
    kind: u8,
    control: u8,
    parameter: u32,
    length: u64,
    payload: &'a [u8],
}

pub fn line<'a>(kind: u8, control: u8, parameter: u32, payload: &'a [u8]) -> Wire<'a> {
    Wire {
        prologue: *b"HS",
        kind,
        control,
        parameter,
        length: payload.len() as u64,
        payload,
    }
}

/// A message without control code, parameter and payload.
pub fn plain(kind: u8) -> Wire<'static> {
    line(kind, 0, 0, b"")
}

/// A message with a header that claims a payload of `length` bytes.
pub fn claims(kind: u8, length: u64, payload: &[u8]) -> Wire<'_> {
    Wire {
        prologue: *b"HS",
        kind,
        control: 0,
        parameter: 0,
        length,
        payload,
    }
}

/// A message with a header that begins with other bytes.
pub fn malformed(prologue: [u8; 2], kind: u8) -> Wire<'static> {
    Wire {
        prologue,
        kind,
        control: 0,
        parameter: 0,
        length: 0,
        payload: b"",
    }
}

/// Adds a message's bytes.
fn write(out: &mut Vec<u8>, it: Wire<'_>) -> bool {
    out.extend_from_slice(&it.prologue).is_ok()
        && out.extend_from_slice(&[it.kind, it.control]).is_ok()
        && out.extend_from_slice(&it.parameter.to_be_bytes()).is_ok()
        && out.extend_from_slice(&it.length.to_be_bytes()).is_ok()
        && out.extend_from_slice(it.payload).is_ok()
}

/// A message, what is said to it, and how many of its bytes have come when that is due.
#[derive(Clone, Copy)]
pub struct Row<'a> {
    sent: Wire<'a>,
    judged: usize,
    said: Option<Wire<'a>>,
}

impl Row<'_> {
    /// How many bytes it has.
    fn length(&self) -> usize {
        self.sent.payload.len().saturating_add(16)
    }
}

/// A message that is judged whole.
fn whole<'a>(sent: Wire<'a>, said: Option<Wire<'a>>) -> Row<'a> {
    Row {
        sent,
        judged: sent.payload.len().saturating_add(16),
        said,
    }
}

pub fn says<'a>(sent: Wire<'a>, said: Wire<'a>) -> Row<'a> {
    whole(sent, Some(said))
}

/// A message to which nothing is said.
pub fn quiet(sent: Wire<'_>) -> Row<'_> {
    whole(sent, None)
}

/// A message with a header that the server refuses with this.
pub fn refused<'a>(sent: Wire<'a>, said: Wire<'a>) -> Row<'a> {
    Row {
        sent,
        judged: 16,
        said: Some(said),
    }
}

/// What a client sends on a channel. The last row's answer ends it so.
#[derive(Clone, Copy)]
pub struct Stream<'a> {
    pub channel: Channel,
    pub attaches: bool,
    /// After how many bytes its channel belongs to a session.
    pub joins: usize,
    pub rows: &'a [Row<'a>],
    pub end: Result<(), ServeFault>,
}

/// On the first connection of a session that has its second.
pub fn first<'a>(joins: usize, rows: &'a [Row<'a>], end: Result<(), ServeFault>) -> Stream<'a> {
    Stream {
        channel: Channel::Synchronous,
        attaches: true,
        joins,
        rows,
        end,
    }
}

/// On the second connection of session 1.
pub fn second<'a>(joins: usize, rows: &'a [Row<'a>], end: Result<(), ServeFault>) -> Stream<'a> {
    Stream {
        channel: Channel::Asynchronous,
        attaches: false,
        joins,
        rows,
        end,
    }
}

/// All bytes of a stream.
pub fn sent_by(alloc: Global, rows: &[Row<'_>]) -> Option<Vec<u8>> {
    let mut out = Vec::new(alloc);
    let mut is_so = true;
    for row in rows {
        is_so = is_so && write(&mut out, row.sent);
    }
    if is_so { Some(out) } else { None }
}

/// What is said once `read` bytes have come.
pub fn said_after(alloc: Global, rows: &[Row<'_>], read: usize) -> Vec<u8> {
    let mut out = Vec::new(alloc);
    let mut left = read;
    for row in rows {
        if left >= row.judged {
            if let Some(line) = row.said {
                let _ = write(&mut out, line);
            }
        }
        left = left.saturating_sub(row.length());
    }
    out
}

/// Whether the last row is judged once `read` bytes have come.
fn is_over(rows: &[Row<'_>], read: usize) -> bool {
    let mut left = read;
    let mut is_so = false;
    for row in rows {
        is_so = left >= row.judged;
        left = left.saturating_sub(row.length());
    }
    is_so
}

/// How a server ended, what it had written by then, and how often its session left.
#[derive(Drop)]
pub struct Served {
    pub result: Result<(), ServeFault>,
    pub main: Vec<u8>,
    pub side: Vec<u8>,
    pub leaves: u32,
}

/// How a server ended, what it had written on the other connection, and how often its session left.
#[derive(Drop)]
pub struct Ended {
    pub result: Result<(), ServeFault>,
    pub side: Vec<u8>,
    pub leaves: u32,
}

/// Serves a connection; the second one is that of a session that is joined before.
pub fn serve_into<R: ByteSource, W: Sink, D: Desk>(
    alloc: Global,
    channel: Channel,
    reader: &mut R,
    main: &mut W,
    desk: &mut Watched<D>,
) -> Ended {
    let mut side = Vec::new(alloc);
    if channel == Channel::Asynchronous {
        drop(desk.ask(SessionAsk::Join));
    }
    let beginning = Beginning::of(alloc, channel);
    let result = serve_channel(alloc, beginning, reader, main, &mut side, desk, TURNS);
    Ended {
        result,
        side,
        leaves: desk.leaves,
    }
}

pub fn serve_on<D: Desk>(
    alloc: Global,
    channel: Channel,
    reader: &mut Halves<'_>,
    desk: &mut Watched<D>,
) -> Served {
    let mut main = Vec::new(alloc);
    let ended = serve_into(alloc, channel, reader, &mut main, desk);
    Served {
        result: ended.result,
        main,
        side: ended.side,
        leaves: ended.leaves,
    }
}

/// A mainframe's server over these bytes.
fn serve(alloc: Global, stream: Stream<'_>, reader: Halves<'_>) -> Option<Served> {
    let mut reader = reader;
    match bench(alloc) {
        Some(desk) => {
            let mut desk = Watched {
                desk,
                attaches: stream.attaches,
                leaves: 0,
            };
            let served = serve_on(alloc, stream.channel, &mut reader, &mut desk);
            drop(desk);
            Some(served)
        }
        None => None,
    }
}

/// Whether a server over these bytes, the first `read` of the stream, says what is due, ends so, and leaves once.
fn is_served(alloc: Global, stream: Stream<'_>, reader: Halves<'_>, read: usize) -> bool {
    let said = said_after(alloc, stream.rows, read);
    let end = if is_over(stream.rows, read) {
        stream.end
    } else {
        Ok(())
    };
    let leaves = if read < stream.joins { 0 } else { 1 };
    match serve(alloc, stream, reader) {
        Some(served) => {
            let is_so = served.result == end
                && served.main.as_slice() == said.as_slice()
                && served.side.as_slice().is_empty()
                && served.leaves == leaves;
            drop(served);
            is_so
        }
        None => false,
    }
}

/// Whether the stream is served so in two pieces, and so far as it has come where it ends with the first.
fn is_served_cut(alloc: Global, stream: Stream<'_>, bytes: &[u8], cut: usize) -> bool {
    let (front, rest) = bytes.split_at(cut.min(bytes.len()));
    is_served(alloc, stream, Halves { front, rest }, bytes.len())
        && is_served(alloc, stream, Halves { front, rest: b"" }, front.len())
}

/// Whether a stream of `length` bytes is cut here: everywhere, but in the middle of a long one.
fn is_place(length: usize, cut: usize) -> bool {
    cut < 300 || length.saturating_sub(cut) < 100
}

/// Whether the stream is served so where it comes in one piece.
pub fn holds_uncut(alloc: Global, stream: Stream<'_>) -> bool {
    match sent_by(alloc, stream.rows) {
        Some(bytes) => is_served_cut(alloc, stream, bytes.as_slice(), bytes.len()),
        None => false,
    }
}

/// Whether the stream is served so, however it is cut.
pub fn holds(alloc: Global, stream: Stream<'_>) -> bool {
    let Some(bytes) = sent_by(alloc, stream.rows) else {
        return false;
    };
    let mut is_so = true;
    for cut in 0..bytes.len().saturating_add(1) {
        if is_place(bytes.len(), cut) {
            is_so = is_so && is_served_cut(alloc, stream, bytes.as_slice(), cut);
        }
    }
    is_so
}
