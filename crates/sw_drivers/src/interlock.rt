//! What all cards of a rack know of each other.

use std::alloc::{AllocError, Global};
use std::sync::Arc;
use std::sync::atomic::{AtomicU64, Ordering};

/// The slots whose board has not yet confirmed that its relays are off, after the driver told it to switch them off.
#[derive(Drop)]
pub struct Interlock {
    unsure: Arc<AtomicU64, Global>,
}

impl Interlock {
    /// Every slot is sure.
    pub fn new(alloc: Global) -> Result<Self, AllocError> {
        Ok(Interlock {
            unsure: Arc::new(alloc, AtomicU64::new(0))?,
        })
    }

    /// The same one.
    pub fn try_clone(&self) -> Result<Self, AllocError> {
        Ok(Interlock {
            unsure: Arc::try_clone(&self.unsure)?,
        })
    }

    /// Whether some slot is unsure.
    pub fn is_held(&self) -> bool {
        self.unsure.load(Ordering::SeqCst) != 0
    }

    /// Whether this slot is unsure.
    pub fn is_unsure(&self, slot: u8) -> bool {
        self.unsure.load(Ordering::SeqCst) & bit(slot) != 0
    }

    /// Notes whether this slot is sure.
    pub fn note(&self, slot: u8, is_sure: bool) {
        if is_sure {
            self.unsure.fetch_and(!bit(slot), Ordering::SeqCst);
        } else {
            self.unsure.fetch_or(bit(slot), Ordering::SeqCst);
        }
    }
}

fn bit(slot: u8) -> u64 {
    1 << (slot % 64)
}
