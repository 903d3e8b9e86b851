//! The work that is outstanding, the oldest first.

ghost use Rattle.std.specs.Prelude.{◌≡◌, ◌∷◌, ◌++◌, [], ◌≤◌, true, false, IfSome, IfNone, length};
ghost use Rattle.sw_talk.specs.CoreDesk.{piece_seen, no_work};

use std::alloc::Global;
use std::collections::VecDeque;
use std::marker::Model;
use sw_card::Meter;
use sw_core::Work;

/// Work that is outstanding. Contracts see the pieces, the oldest first, and for how many there is room before more
/// memory is taken.
///
/// The oldest has a place of its own: a scan has one piece outstanding, which so takes no memory and isn't moved on.
#[derive(Drop)]
pub struct WorkQueue<M: Meter> {
    oldest: Option<Work<M>>,
    others: VecDeque<Work<M>>,
}

impl<M: Meter> Model for WorkQueue<M> {
    ghost use Rattle.std.specs.Prelude.{◌≡◌, [], None, suc};
    ghost use Rattle.std.specs.VecDeque.{deque_capacity};
    ghost use Rattle.sw_talk.specs.CoreDesk.{QueueSeen, outstanding};

    ghost Value = { QueueSeen };

    ghost view = { λ q. record {
      pieces = outstanding q.oldest q.others.items;
      room = suc (deque_capacity q.others);
    } };

    ghost invariant = { λ q. q.oldest ≡ None → q.others.items ≡ [] };
}

impl<M: Meter> WorkQueue<M> {
    /// None, and room for one.
    pub fn new(alloc: Global) -> Self
        ensures { result ≡ no_work }
    {
        WorkQueue {
            oldest: None,
            others: VecDeque::with_capacity(alloc, 0).unwrap(),
        }
    }

    /// Whether there is no work.
    #[inline(always)]
    pub fn is_empty(&self) -> bool
        ensures empty { result ≡ true → self.now.pieces ≡ [] }
        ensures some { result ≡ false → self.now.pieces ≡ [] → ⊥ }
    {
        self.oldest.is_none()
    }

    /// Takes this piece in, where there is no other. No memory is taken.
    #[inline(always)]
    pub fn begin(&mut self, piece: Work<M>)
        requires { self.old.pieces ≡ [] }
        ensures { self.new ≡ record self.old { pieces = piece_seen piece ∷ [] } }
    {
        self.oldest = Some(piece);
    }

    /// Puts a piece behind the rest. Where that would take more memory and there is none, the oldest of all comes off
    /// and gives it room.
    pub fn put(&mut self, piece: Work<M>) -> Option<Work<M>>
        ensures none { IfNone result (self.new.pieces ≡ self.old.pieces ++ piece_seen piece ∷ []) }
        ensures some { IfSome result (λ oldest.
            self.old.pieces ++ piece_seen piece ∷ [] ≡ piece_seen oldest ∷ self.new.pieces) }
        ensures full { IfSome result (λ _. self.old.room ≤ length self.old.pieces) }
        ensures roomy { self.old.room ≤ self.new.room }
    {
        if self.is_empty() {
            self.begin(piece);
            None
        } else {
            self.put_behind(piece)
        }
    }

    /// Puts a piece behind others.
    fn put_behind(&mut self, piece: Work<M>) -> Option<Work<M>>
        requires { self.old.pieces ≡ [] → ⊥ }
        ensures none { IfNone result (self.new.pieces ≡ self.old.pieces ++ piece_seen piece ∷ []) }
        ensures some { IfSome result (λ oldest.
            self.old.pieces ++ piece_seen piece ∷ [] ≡ piece_seen oldest ∷ self.new.pieces) }
        ensures full { IfSome result (λ _. self.old.room ≤ length self.old.pieces) }
        ensures roomy { self.old.room ≤ self.new.room }
    {
        let Err(refused) = self.others.push_back(piece) else {
            return None;
        };
        let oldest = self.take();
        if self.is_empty() {
            self.begin(refused.value);
        } else {
            self.others.push_back(refused.value).unwrap();
        }
        oldest
    }

    /// Takes the oldest piece off.
    #[inline(always)]
    pub fn take(&mut self) -> Option<Work<M>>
        ensures some { IfSome result (λ piece. self.old.pieces ≡ piece_seen piece ∷ self.new.pieces) }
        ensures none { IfNone result (self.old.pieces ≡ []) }
        ensures room { self.new.room ≡ self.old.room }
        ensures same { IfNone result (self.new ≡ self.old) }
    {
        let oldest = self.oldest.take();
        if !self.others.is_empty() {
            self.oldest = self.others.pop_front();
        }
        oldest
    }
}
