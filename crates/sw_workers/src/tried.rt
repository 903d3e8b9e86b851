//! Locks that are tried before a thread sleeps for them.

use std::hint::spin_loop;
use std::sync::{Mutex, MutexGuard, Wait};

/// How often a lock is tried while another thread has it.
const TRIES: u32 = 200;

/// Takes a lock that each thread holds for a moment; the guard gives what is behind it. It tries the lock first, since
/// a thread that slept is woken later than such a lock is free.
pub fn lock_soon<'a, T, W: Wait>(lock: &'a Mutex<T>, rt: &W) -> MutexGuard<'a, T> {
    for _ in 0..TRIES {
        if let Some(guard) = lock.try_lock() {
            return guard;
        }
        spin_loop();
    }
    lock.lock(rt)
}
