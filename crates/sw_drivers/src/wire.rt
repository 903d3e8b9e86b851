//! The ways to boards and meters.

use std::io;

/// A way to something that answers. What is sent and heard fails once the time of an exchange is over.
///
/// Contracts see the bytes of the exchange and the coils of the board at the other end, where they are known. Such a
/// board is one by two rules: no coil of it comes on but by a request that switches it on, and a coil is off that its
/// answer says is off.
pub trait Wire: Drop {
    ghost use Rattle.std.specs.Prelude.{◌≡◌, ◌≤◌, ℕ, Bool, List, [], Option, None, length, take, OnOk, IfOk};
    ghost use Rattle.sw_drivers.specs.declared.frame.Request.{Request as Asked};
    ghost use Rattle.sw_drivers.specs.declared.frame.Wrapping.{Wrapping as Wrapped};
    ghost use Rattle.sw_drivers.specs.Frames.{frame};
    ghost use Rattle.sw_drivers.specs.Wires.{Fewer, IsAll, IsHonest, Switched, grown};

    /// All that was ever sent.
    ghost sent: { Self → Option (List ℕ) } = { λ _. None };

    /// What was sent since the exchange began.
    ghost asked: { Self → Option (List ℕ) };

    /// What was heard since the exchange began.
    ghost answered: { Self → Option (List ℕ) };

    /// Whether this unit's coil at this address is on, as far as is known.
    ghost on: { Self → ℕ → ℕ → Bool };

    /// Opens it anew, and closes it first where it was open.
    fn open(&mut self) -> io::Result<()>
        ensures sent { sent self.new ≡ sent self.old }
        ensures fewer { Fewer (on self.old) (on self.new) };

    /// Whether it is open, as far as this end knows.
    fn is_open(&self) -> bool;

    /// Begins an exchange: drops bytes that came unasked, and sets the time. Fails where the other side has ended it.
    fn begin(&mut self) -> io::Result<()>
        ensures asked { OnOk result (IsAll (asked self.new) []) }
        ensures answered { OnOk result (IsAll (answered self.new) []) }
        ensures sent { sent self.new ≡ sent self.old }
        ensures fewer { Fewer (on self.old) (on self.new) };

    /// Sends all of these bytes.
    fn send(&mut self, bytes: &[u8]) -> io::Result<()>
        ensures asked { OnOk result (asked self.new ≡ grown (asked self.old) bytes.now) }
        ensures answered { answered self.new ≡ answered self.old }
        ensures sent { OnOk result (sent self.new ≡ grown (sent self.old) bytes.now) }
        ensures switched { (wrapping : Wrapped) (number unit : ℕ) (request : Asked)
            → bytes.now ≡ frame wrapping number unit request → Switched unit request (on self.old) (on self.new) };

    /// Hears as many bytes as there is room for.
    fn hear(&mut self, room: &mut [u8]) -> io::Result<()>
        ensures answered { OnOk result (answered self.new ≡ grown (answered self.old) room.new) }
        ensures asked { asked self.new ≡ asked self.old }
        ensures sent { sent self.new ≡ sent self.old }
        ensures fewer { Fewer (on self.old) (on self.new) }
        ensures honest { OnOk result (IsHonest (asked self.new) (answered self.new) (on self.new)) };

    /// Hears what comes, no more than there is room for. The number of bytes heard; 0 where no more comes.
    fn hear_some(&mut self, room: &mut [u8]) -> io::Result<usize>
        ensures within { IfOk result (λ n. n ≤ length room.new) }
        ensures answered { IfOk result (λ n. answered self.new ≡ grown (answered self.old) (take n room.new)) }
        ensures asked { asked self.new ≡ asked self.old }
        ensures sent { sent self.new ≡ sent self.old }
        ensures fewer { Fewer (on self.old) (on self.new) };

    /// Closes it.
    fn close(&mut self)
        ensures sent { sent self.new ≡ sent self.old }
        ensures fewer { Fewer (on self.old) (on self.new) };

    /// Closes it, and keeps it closed for a while.
    fn rest(&mut self)
        ensures sent { sent self.new ≡ sent self.old }
        ensures fewer { Fewer (on self.old) (on self.new) };
}
