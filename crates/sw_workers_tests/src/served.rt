//! The threads that serve the connections in memory.

use crate::sessions::Client;
use crate::shop::{DeskThread, Shop, gathers};
use crate::wires::{End, Incoming, Outgoing, SharedWire};
use std::alloc::Global;
use std::sync::Wait;
use std::thread;
use std::thread::Threads;
use std::time::Clock;
use sw_card::{Meter, Relay};
use sw_workers::{Ended, Gate, Mainframe, SharedDesk, Wired, run_session};

/// Serves a connection, and gives the desk back.
fn serve<H: Mainframe, R: Relay, M: Meter, G: Gate + Drop, W: Wait + Clock + Copy + Drop>(
    alloc: Global,
    desk: SharedDesk<H, R, M, G, W>,
    connection: Wired<Incoming<W>, Outgoing<W>, Outgoing<W>>,
    wire: SharedWire,
) -> SharedDesk<H, R, M, G, W> {
    let ended = run_session(connection, desk, alloc);
    wire.end();
    let Ended {
        desk,
        reader,
        writer,
        aside,
        unserved: _,
        result,
    } = ended;
    drop(reader);
    drop(writer);
    drop(aside);
    drop(result);
    desk
}

/// Serves the other end by this desk, in a thread of its own.
pub fn serve_by<
    H: Mainframe + Send + Sync + 'static,
    R: Relay + Send + 'static,
    M: Meter + Send + 'static,
    G: Gate + Drop + Send + Sync + 'static,
    W: Threads + Wait + Clock + Copy + Drop + Send + Sync + 'static,
>(
    rt: W,
    alloc: Global,
    desk: SharedDesk<H, R, M, G, W>,
    end: &End<W>,
) -> Option<DeskThread<H, R, M, G, W>> {
    let (connection, wire) = end.served()?;
    thread::spawn(&rt, move || serve(alloc, desk, connection, wire)).ok()
}

impl<
    H: Mainframe + Send + Sync + 'static,
    R: Relay + Send + 'static,
    M: Meter + Send + 'static,
    G: Gate + Drop + Send + Sync + 'static,
    W: Threads + Wait + Clock + Copy + Drop + Send + Sync + 'static,
> Shop<H, R, M, G, W> {
    /// Serves the other end in a thread of its own.
    pub fn connect(&self, rt: W, alloc: Global, end: &End<W>) -> Option<DeskThread<H, R, M, G, W>> {
        serve_by(rt, alloc, SharedDesk::open(rt, &self.shared)?, end)
    }

    /// Serves both connections of a client, each in a thread of its own.
    pub fn connect_both(
        &self,
        rt: W,
        alloc: Global,
        client: &Client<W>,
    ) -> Option<(DeskThread<H, R, M, G, W>, DeskThread<H, R, M, G, W>)> {
        let first = self.connect(rt, alloc, &client.first)?;
        let second = self.connect(rt, alloc, &client.second)?;
        Some((first, second))
    }

    /// A desk by which `crowd` sessions have joined, as a list.
    pub fn gather(
        &self,
        rt: W,
        alloc: Global,
        crowd: u8,
    ) -> Option<Vec<SharedDesk<H, R, M, G, W>>> {
        gathers(alloc, SharedDesk::open(rt, &self.shared)?, crowd)
    }
}
