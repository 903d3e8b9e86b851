//! Connections of both kinds that fail, at each place in turn: the answers until then are written, the session leaves
//! once, and its lock is free for the next.

use crate::clients::{Bench, Client, IDENTITY, bench};
use crate::hostile::{
    Row, Served, Watched, line, plain, quiet, said_after, says, sent_by, serve_into,
};
use std::alloc::Global;
use std::io::{self, ErrorKind, Read, Write};
use sw_session::{Channel, Desk, ServeFault};

/// Gives its bytes one by one, and then fails, or ends.
#[derive(Clone, Copy)]
struct Bytes<'a> {
    left: &'a [u8],
    fails: bool,
}

impl Read for Bytes<'_> {
    fn read(&mut self, buf: &mut [u8]) -> io::Result<usize> {
        if self.left.is_empty() && self.fails {
            return Err(io::Error::from(ErrorKind::ConnectionReset));
        }
        let n = 1.min(buf.len()).min(self.left.len());
        let (given, rest) = self.left.split_at(n);
        buf[..n].copy_from_slice(given);
        self.left = rest;
        Ok(n)
    }
}

/// Takes `room` bytes, three at a time, and then fails.
#[derive(Drop)]
struct Narrow {
    bytes: Vec<u8>,
    room: usize,
}

impl Write for Narrow {
    fn write(&mut self, buf: &[u8]) -> io::Result<usize> {
        let n = buf.len().min(self.room).min(3);
        if n == 0 {
            return Err(io::Error::from(ErrorKind::ConnectionReset));
        }
        self.bytes.extend_from_slice(&buf[..n])?;
        self.room -= n;
        Ok(n)
    }

    fn flush(&mut self) -> io::Result<()> {
        Ok(())
    }
}

/// A conversation on the first connection, with a command, a query in two parts, and a message that is not served.
fn first_rows() -> [Row<'static>; 6] {
    [
        says(
            line(0, 0, 0x0100_5858, b"hislip0"),
            line(1, 0, 0x0100_0001, b""),
        ),
        quiet(line(7, 1, 7, b"ROUT:CLOS (@1!1)")),
        quiet(line(6, 1, 7, b"*ID")),
        says(line(7, 1, 9, b"N?\n"), line(7, 0, 9, IDENTITY)),
        says(plain(26), line(3, 1, 0, b"")),
        says(line(7, 1, 11, b"*OPC?"), line(7, 0, 11, b"1\n")),
    ]
}

/// A conversation on the second connection, in which both kinds of lock are granted.
fn second_rows() -> [Row<'static>; 6] {
    [
        says(line(17, 0, 1, b""), line(18, 0, 0x5357, b"")),
        says(line(4, 1, 0, b"key"), line(5, 1, 0, b"")),
        says(line(4, 1, 0, b""), line(5, 1, 0, b"")),
        says(plain(24), line(25, 1, 1, b"")),
        says(plain(21), plain(22)),
        says(line(10, 9, 0, b""), line(3, 2, 0, b"")),
    ]
}

/// What a server does on a connection to these bytes, where `room` bytes can be written.
fn serve_narrow<D: Desk>(
    alloc: Global,
    channel: Channel,
    reader: &mut Bytes<'_>,
    room: usize,
    desk: &mut Watched<D>,
) -> Served {
    let mut main = Narrow {
        bytes: Vec::new(alloc),
        room,
    };
    let ended = serve_into(alloc, channel, reader, &mut main, desk);
    Served {
        result: ended.result,
        main: main.bytes,
        side: ended.side,
        leaves: ended.leaves,
    }
}

/// Whether a server ended by this fault, had written that, and its session has left `leaves` times.
fn is_ended(served: Served, fault: ServeFault, said: &[u8], leaves: u32) -> bool {
    let is_so = served.result == Err(fault)
        && served.main.as_slice() == said
        && served.side.is_empty()
        && served.leaves == leaves;
    drop(served);
    is_so
}

/// Whether the next session may have the exclusive lock and is answered.
fn is_free<D: Desk>(alloc: Global, desk: &mut Watched<D>) -> bool {
    desk.attaches = false;
    let mut client = Client::new(alloc);
    let is_so = client.joins(desk, 1)
        && client.locks(desk, b"", 1)
        && client.asks(desk, b"*IDN?;:SYST:ERR:COUN?", b"OPENBENCH,SWM8,0,1.0;0\n");
    drop(client);
    is_so
}

/// Whether a session on a desk that watches ends by a fault as it should, and leaves nothing behind.
fn fails_on<D: Desk>(
    alloc: Global,
    channel: Channel,
    reader: Bytes<'_>,
    room: usize,
    said: &[u8],
    desk: &mut Watched<D>,
) -> bool {
    let mut reader = reader;
    let begun = match channel {
        Channel::Synchronous => 23,
        Channel::Asynchronous => 16,
    };
    let is_joined = !reader.fails || reader.left.len() >= begun;
    let leaves = if is_joined { 1 } else { 0 };
    let fault = if reader.fails {
        ServeFault::Read
    } else {
        ServeFault::Write
    };
    let served = serve_narrow(alloc, channel, &mut reader, room, desk);
    let is_so = is_ended(served, fault, said, leaves);
    is_so && (!is_joined || is_free(alloc, desk))
}

fn watched(desk: Bench, channel: Channel) -> Watched<Bench> {
    Watched {
        desk,
        attaches: matches!(channel, Channel::Synchronous),
        leaves: 0,
    }
}

/// The same on a mainframe of its own.
fn fails(alloc: Global, channel: Channel, reader: Bytes<'_>, room: usize, said: &[u8]) -> bool {
    match bench(alloc) {
        Some(desk) => {
            let mut desk = watched(desk, channel);
            let is_so = fails_on(alloc, channel, reader, room, said, &mut desk);
            drop(desk);
            is_so
        }
        None => false,
    }
}

/// Whether each read of a conversation may fail.
fn fails_at_each_read(alloc: Global, channel: Channel, rows: &[Row<'_>]) -> bool {
    let Some(bytes) = sent_by(alloc, rows) else {
        return false;
    };
    let mut is_so = true;
    for cut in 0..bytes.len().saturating_add(1) {
        let (left, _) = bytes.split_at(cut.min(bytes.len()));
        let said = said_after(alloc, rows, cut);
        let reader = Bytes { left, fails: true };
        is_so = is_so && fails(alloc, channel, reader, usize::MAX, said.as_slice());
    }
    is_so
}

/// Whether each write of a conversation may fail.
fn fails_at_each_write(alloc: Global, channel: Channel, rows: &[Row<'_>]) -> bool {
    let Some(bytes) = sent_by(alloc, rows) else {
        return false;
    };
    let said = said_after(alloc, rows, bytes.len());
    let reader = Bytes {
        left: bytes.as_slice(),
        fails: false,
    };
    let mut is_so = true;
    for room in 0..said.len() {
        let (front, _) = said.split_at(room.min(said.len()));
        is_so = is_so && fails(alloc, channel, reader, room, front);
    }
    is_so
}

#[test]
fn each_read_of_a_first_connection_fails(rt: HostRuntime) {
    let rows = first_rows();
    assert!(rt; fails_at_each_read(rt.alloc(), Channel::Synchronous, &rows));
}

#[test]
fn each_read_of_a_second_connection_fails(rt: HostRuntime) {
    let rows = second_rows();
    assert!(rt; fails_at_each_read(rt.alloc(), Channel::Asynchronous, &rows));
}

#[test]
fn each_write_of_a_first_connection_fails(rt: HostRuntime) {
    let rows = first_rows();
    assert!(rt; fails_at_each_write(rt.alloc(), Channel::Synchronous, &rows));
}

#[test]
fn each_write_of_a_second_connection_fails(rt: HostRuntime) {
    let rows = second_rows();
    assert!(rt; fails_at_each_write(rt.alloc(), Channel::Asynchronous, &rows));
}
