//! What is done with the cards.

use crate::fault::Fault;
use std::alloc::Global;
use std::io::{BufRead, Read, Write};
use std::net::{Ipv4Addr, Net, TcpListener, TcpStream};
use std::os::fd::AsRawFd;
use std::sync::Wait;
use std::thread::Threads;
use std::time::Clock;
use sw_card::{Meter, Relay};
use sw_serve::{Silent, SlotCard, TcpPort, desk_for_one, serve_cards};
use sw_session::Talker;

/// Answers each line of the reader, unless the mainframe refuses a card.
pub fn answer<R: Relay, M: Meter, I: BufRead, O: Write>(
    alloc: Global,
    reader: &mut I,
    writer: &mut O,
    cards: Vec<SlotCard<R, M>>,
) -> Result<(), Fault> {
    let (mut desk, session) = desk_for_one(alloc, cards)?;
    let mut talker = Talker::new(alloc, session);
    let mut line = Vec::new(alloc);
    for _ in 0..u64::MAX {
        if reader.read_until(b'\n', &mut line)? == 0 {
            return Ok(());
        }
        let told = talker.message(&line, &mut desk);
        desk.rest();
        writer.write_all(&told)?;
        line.clear();
    }
    Ok(())
}

/// Serves the connections that come to this port of this machine, until the input ends; every relay is open then.
pub fn serve<
    W: Net<Listener = TcpListener, Stream = TcpStream>
        + Threads
        + Wait
        + Clock
        + Copy
        + Drop
        + Send
        + Sync
        + 'static,
    R: Relay + Send + 'static,
    M: Meter + Send + 'static,
    I: Read + AsRawFd + Drop,
>(rt: W, alloc: Global, port: u16, input: I, cards: Vec<SlotCard<R, M>>) -> Result<(), Fault> {
    let listener = TcpListener::bind(&rt, (Ipv4Addr::LOCALHOST, port))?;
    let mut connections = TcpPort::new(rt, alloc, &listener, Some(input), Silent);
    let closed = serve_cards(rt, alloc, &mut connections, u32::MAX, cards)?;
    drop(closed);
    Ok(())
}
