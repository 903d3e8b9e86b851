//! What the threads of a server share: the mainframe, and the desks that no thread has.

use std::alloc::{AllocError, Global};
use std::mem;
use std::sync::{Arc, Mutex, Wait};
use std::time::Clock;
use sw_card::{Meter, Relay};
use sw_workers::{Gate, Mainframe, Shared, SharedDesk};

/// A mainframe, and the desks that no thread has.
#[derive(Drop)]
pub struct DeskPool<
    H: Mainframe,
    R: Relay,
    M: Meter,
    G: Gate + Drop,
    W: Wait + Clock + Copy + Drop,
> {
    shared: Arc<Shared<H, R, M, G>, Global>,
    free: Mutex<Vec<SharedDesk<H, R, M, G, W>>>,
    /// The server's own desk, by which every relay is opened. It is there until all desks are taken.
    own: Mutex<Option<SharedDesk<H, R, M, G, W>>>,
    rt: W,
}

impl<H: Mainframe, R: Relay, M: Meter, G: Gate + Drop, W: Wait + Clock + Copy + Drop> DeskPool<
    H,
    R,
    M,
    G,
    W,
> {
    /// A mainframe with the server's own desk alone.
    pub fn new(
        rt: W,
        alloc: Global,
        shared: Arc<Shared<H, R, M, G>, Global>,
    ) -> Result<Self, AllocError> {
        let Some(own) = SharedDesk::open(rt, &shared) else {
            drop(shared);
            return Err(AllocError);
        };
        Ok(DeskPool {
            shared,
            free: Mutex::new(Vec::new(alloc)),
            own: Mutex::new(Some(own)),
            rt,
        })
    }

    /// Ends the scan that runs and opens every relay, whichever session has a lock.
    pub fn open_all(&self) {
        let mut guard = self.own.lock(&self.rt);
        if let Some(desk) = &mut *guard {
            desk.open_all();
        }
    }

    /// A desk that no thread has, or a new one. None where there is no memory.
    pub fn desk(&self) -> Option<SharedDesk<H, R, M, G, W>> {
        let free = self.free.lock(&self.rt).pop();
        match free {
            Some(desk) => Some(desk),
            None => SharedDesk::open(self.rt, &self.shared),
        }
    }

    /// Takes a desk back, for the next thread. Where there is no memory it loses the desk, which the end reports.
    pub fn give_back(&self, desk: SharedDesk<H, R, M, G, W>) {
        let mut guard = self.free.lock(&self.rt);
        let free = &mut *guard;
        drop(free.push(desk));
    }

    /// Takes the desk back that a thread left, if it left one.
    pub fn take_back(&self, left: Option<SharedDesk<H, R, M, G, W>>) {
        match left {
            Some(desk) => self.give_back(desk),
            None => {}
        }
    }

    /// Serves no connection that comes from now on, and ends each session after its current message; or ends all
    /// connections at once.
    pub fn end_lines(&self, is_at_once: bool) {
        self.shared.end_lines(&self.rt, is_at_once);
    }

    /// From now on no thread has to wait, and workers end.
    pub fn end_work(&self) {
        self.shared.end_work(&self.rt);
    }

    /// All desks that were given back, and the server's own.
    pub fn take_desks(&self, alloc: Global) -> Vec<SharedDesk<H, R, M, G, W>> {
        if let Some(own) = self.own.lock(&self.rt).take() {
            self.give_back(own);
        }
        mem::replace(&mut *self.free.lock(&self.rt), Vec::new(alloc))
    }
}
