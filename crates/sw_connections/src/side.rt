//! What the first thread of a session leaves to the second one, which says it on its connection.

ghost use Rattle.std.specs.Prelude.{◌≡◌, [], IfSome, IfNone, OnErr};
ghost use Rattle.sw_connections.specs.Side.{Leaves};

use std::alloc::Global;
use std::marker::{Brand, Model};
use std::mem;

/// How many bytes wait at most for a session's second thread. A session with a client that doesn't read them is left.
const SIDE_BYTES: usize = 65_536;

/// Why bytes are not left to a session's second thread.
#[derive(Clone, Copy, Debug, PartialEq, Eq)]
pub enum Refused {
    /// With those that wait they are too many.
    Full,
    /// There is no memory for them.
    NoMemory,
}

/// Which mainframe it is, to what its sessions' threads leave to each other. Only the call here that was to leave bytes
/// proves that they were refused.
pub trait Outbox {
    ghost use Rattle.std.specs.Prelude.{OnErr};
    ghost use Rattle.sw_connections.specs.Side.{Leaves};

    /// Bytes that were left to a session's second thread were refused.
    ghost refused: { Type 0 };

    /// Leaves bytes beside those that wait, all of them or none.
    fn append(side: &mut Side, bytes: &[u8]) -> Result<(), Refused>
        ensures leaves { Leaves side.old bytes.now result side.new }
        ensures refused { OnErr result refused };
}

impl Outbox for Brand {
    ghost use Rattle.std.specs.Prelude.{List, ℕ};
    ghost use Rattle.sw_connections.specs.Side.{Waiting, Refuses};
    ghost use Rattle.sw_connections.specs.declared.side.Refused.{Refused};

    ghost refused = { (waiting : Waiting) × (bytes : List ℕ) × (why : Refused) × Refuses waiting bytes why };

    fn append(side: &mut Side, bytes: &[u8]) -> Result<(), Refused> {
        side.append(bytes)
    }
}

/// The bytes that wait for a session's second thread.
#[derive(Drop)]
pub struct Side {
    bytes: Vec<u8>,
}

impl Model for Side {
    ghost use Rattle.std.specs.Vec.{vec_capacity};
    ghost use Rattle.sw_connections.specs.Side.{Waiting};

    ghost Value = { Waiting };

    ghost view = { λ s. record { bytes = s.bytes.items; room = vec_capacity s.bytes } };
}

impl Side {
    /// Nothing waits.
    pub fn new(alloc: Global) -> Self
        ensures { result.bytes ≡ [] }
    {
        Side {
            bytes: Vec::new(alloc),
        }
    }

    /// Appends what is left, all or none. It refuses what would be more than `SIDE_BYTES` with what waits, and what
    /// finds no memory where the room has to grow.
    fn append(&mut self, bytes: &[u8]) -> Result<(), Refused>
        ensures { Leaves self.old bytes.now result self.new }
    {
        if self.bytes.len().saturating_add(bytes.len()) > SIDE_BYTES {
            return Err(Refused::Full);
        }
        match self.bytes.extend_from_slice(bytes) {
            Ok(()) => Ok(()),
            Err(_) => Err(Refused::NoMemory),
        }
    }

    /// Takes all that waits, if anything does.
    pub fn take(&mut self, alloc: Global) -> Option<Vec<u8>>
        ensures some { IfSome result (λ bytes. bytes.items ≡ self.old.bytes) }
        ensures none { IfNone result (self.old.bytes ≡ []) }
        ensures rest { self.new.bytes ≡ [] }
    {
        if self.bytes.is_empty() {
            return None;
        }
        Some(mem::replace(&mut self.bytes, Vec::new(alloc)))
    }
}
