//! Threads that are joined soon after they end.

ghost use Rattle.std.specs.Prelude.{◌≡◌, ◌+◌, true, IfOk, IfSome, IfNone, vec_len};
ghost use Rattle.std.specs.Prelude.{if◌then◌else◌};

use crossbeam_channel::{Receiver, Sender};
use std::alloc::{AllocError, Global};
use std::sync::{Arc, Wait};
use std::thread;
use std::thread::{JoinHandle, Threads};

/// A thread that was not joined yet, by its number.
#[derive(Drop)]
struct Member<T: Send + Drop + 'static> {
    number: u32,
    handle: JoinHandle<T>,
}

/// Threads that were not joined yet. Each reports its number when its work is done, since a handle can't be asked.
#[derive(Drop)]
pub struct ThreadPool<T: Send + Drop + 'static> {
    members: Vec<Member<T>>,
    bell: Arc<Sender<u32>, Global>,
    rung: Receiver<u32>,
}

impl<T: Send + Drop + 'static> ThreadPool<T> {
    /// A pool without a thread.
    pub fn new(alloc: Global) -> Result<Self, AllocError>
        ensures { IfOk result (λ threads. vec_len threads.members ≡ 0) }
    {
        let (bell, rung) = crossbeam_channel::unbounded(alloc)?;
        let bell = Arc::new(alloc, bell)?;
        Ok(ThreadPool {
            members: Vec::new(alloc),
            bell,
            rung,
        })
    }

    /// Two pools without a thread.
    pub fn two(alloc: Global) -> Result<(Self, Self), AllocError>
        ensures { IfOk result (λ threads. (vec_len threads.0.members ≡ 0) × (vec_len threads.1.members ≡ 0)) }
    {
        let first = ThreadPool::new(alloc)?;
        let second = ThreadPool::new(alloc)?;
        Ok((first, second))
    }

    /// Starts a thread for this work. It does not where there is no memory or no thread.
    pub fn start<
        W: Threads + Wait + Copy + Drop + Send + 'static,
        F: FnOnce() -> T + Send + Drop + 'static,
    >(&mut self, rt: W, number: u32, work: F) -> bool
        requires { F.pre work }
        ensures { vec_len self.new.members
            ≡ (if result then vec_len self.old.members + 1 else vec_len self.old.members) }
    {
        if self.members.reserve(1).is_err() {
            return false;
        }
        let Ok(bell) = Arc::try_clone(&self.bell) else {
            return false;
        };
        let told = move || -> T
            requires { F.pre work }
        {
            let left = work();
            let _ = bell.send(&rt, number);
            left
        };
        let Ok(handle) = thread::spawn(&rt, told) else {
            return false;
        };
        self.members.push(Member { number, handle }).unwrap();
        true
    }

    /// Joins a thread that reported its end, and gives what its work gave. None where no thread did.
    pub fn join_ended<W: Threads + Wait>(&mut self, rt: &W) -> Option<T>
        ensures some { IfSome result (λ _. vec_len self.old.members ≡ vec_len self.new.members + 1) }
        ensures none { IfNone result (vec_len self.new.members ≡ vec_len self.old.members) }
    {
        let Ok(number) = self.rung.try_recv(rt) else {
            return None;
        };
        let member = self.take(number)?;
        Some(member.handle.join(rt))
    }

    /// Takes the thread of this number out.
    fn take(&mut self, number: u32) -> Option<Member<T>>
        ensures some { IfSome result (λ _. vec_len self.old.members ≡ vec_len self.new.members + 1) }
        ensures number { IfSome result (λ member. member.number ≡ number) }
        ensures none { IfNone result (vec_len self.new.members ≡ vec_len self.old.members) }
    {
        let at = self
            .members
            .iter()
            .position(|member| member.number == number)?;
        Some(self.members.swap_remove(at))
    }

    /// Whether no thread is left.
    pub fn is_empty(&self) -> bool
        ensures { result ≡ true → vec_len self.now.members ≡ 0 }
    {
        self.members.is_empty()
    }

    /// Joins a thread when its work is done. None where none is left.
    pub fn join_any<W: Threads + Wait>(&mut self, rt: &W) -> Option<T>
        ensures some { IfSome result (λ _. vec_len self.old.members ≡ vec_len self.new.members + 1) }
        ensures none { IfNone result ((vec_len self.old.members ≡ 0) × (vec_len self.new.members ≡ 0)) }
    {
        let member = self.members.pop()?;
        Some(member.handle.join(rt))
    }
}
