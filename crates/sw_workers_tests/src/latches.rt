//! Latches: each stops a thread until a test lets it continue, for a bounded number of turns.

use std::alloc::{AllocError, Global};
use std::sync::atomic::{AtomicBool, Ordering};
use std::sync::{Arc, Wait};
use std::thread;
use std::time::{Clock, Duration};
use sw_base::Reading;
use sw_card::CardFault;
use sw_kinds::{Driver, SimSource, Source};
use sw_workers::{Gate, Point};

/// The most turns for which one thread waits for another.
pub const TURNS: u32 = 100_000;

/// Lets other threads run.
pub fn turn<C: Clock>(clock: &C) {
    thread::sleep(clock, Duration::from_micros(10));
}

/// What holds a thread.
#[derive(Drop)]
pub struct Latch<C: Clock + Drop> {
    clock: C,
    reached: AtomicBool,
    opened: AtomicBool,
    expired: AtomicBool,
}

pub type SharedLatch<C> = Arc<Latch<C>, Global>;

impl<C: Clock + Drop> Latch<C> {
    /// A latch that no thread has reached.
    pub fn new(alloc: Global, clock: C) -> Result<SharedLatch<C>, AllocError> {
        let latch = Latch {
            clock,
            reached: AtomicBool::new(false),
            opened: AtomicBool::new(false),
            expired: AtomicBool::new(false),
        };
        Ok(Arc::new(alloc, latch)?)
    }

    /// A thread has come here.
    pub fn reach(&self) {
        self.reached.store(true, Ordering::SeqCst);
    }

    /// Returns once it is opened, or after `TURNS` turns.
    fn hold(&self) {
        self.reach();
        for _ in 0..TURNS {
            if self.opened.load(Ordering::SeqCst) {
                return;
            }
            turn(&self.clock);
        }
        self.expired.store(true, Ordering::SeqCst);
    }

    /// Whether a thread reaches it, within `TURNS` turns.
    pub fn is_reached(&self) -> bool {
        for _ in 0..TURNS {
            if self.reached.load(Ordering::SeqCst) {
                return true;
            }
            turn(&self.clock);
        }
        false
    }

    /// Lets the thread continue, and says whether that was stopped until now.
    pub fn opens(&self) -> bool {
        self.opened.store(true, Ordering::SeqCst);
        !self.expired.load(Ordering::SeqCst)
    }
}

/// A gate that holds at one point.
#[derive(Drop)]
pub struct LatchedGate<C: Clock + Drop> {
    pub point: Point,
    pub latch: SharedLatch<C>,
}

impl<C: Clock + Drop> Gate for LatchedGate<C> {
    fn pass<W: Wait>(&self, _rt: &W, point: Point) {
        if point == self.point {
            self.latch.hold();
        }
    }
}

/// A driver that holds before it drives a coil.
#[derive(Drop)]
pub struct LatchedDriver<D: Driver, C: Clock + Drop> {
    pub driver: D,
    pub latch: SharedLatch<C>,
}

impl<D: Driver, C: Clock + Drop> Driver for LatchedDriver<D, C> {
    ghost driven = { λ d. D.driven d.driver };

    fn drive(&mut self, ch: u8, on: bool) -> Result<(), CardFault> {
        self.latch.hold();
        self.driver.drive(ch, on)
    }

    fn is_sure(&self) -> bool {
        true
    }

    fn cut(&mut self) {
        self.driver.cut();
    }
}

/// A source that holds before each of its samples.
#[derive(Drop)]
pub struct LatchedSource<C: Clock + Drop> {
    pub source: SimSource,
    pub latch: SharedLatch<C>,
}

impl<C: Clock + Drop> Source for LatchedSource<C> {
    fn sample(&mut self) -> Result<Reading, CardFault> {
        self.latch.hold();
        self.source.sample()
    }
}
