//! The sessions that hold the locks of the instrument.

ghost use Rattle.std.specs.Prelude.{◌≡◌, ◌≤◌, true, false, is_some, is_none, [], Some, None, IfOk, OnErr};
ghost use Rattle.std.specs.List.{list_all};
ghost use Rattle.sw_hislip.specs.LockTable.{no_locks, agrees, shares, other_excludes, admits, excludes, holds, holders};
ghost use Rattle.sw_hislip.specs.LockTable.{is_wrong_key, grants_shared, with_key, Replies, RepliesBy, MayLackMemory};
ghost use Rattle.sw_base.specs.Limits.{most_sessions};
ghost use Rattle.sw_hislip.specs.LockTable.{freed, released, without_session};
ghost use Rattle.sw_hislip.specs.LockRules.{IsOrderly};

use std::alloc::{AllocError, Global};
use std::marker::Model;
use sw_base::{SESSIONS, Sequence};

/// A place for each session.
const LOCK_PLACES: usize = SESSIONS as usize;

/// The most bytes of a key (IVI-6.1 HiSLIP, lock transaction).
const LONGEST_KEY: usize = 256;

/// The answer to a session that asks for a lock.
#[derive(Clone, Copy, Debug, PartialEq, Eq)]
pub enum LockReply {
    Granted,
    /// Other sessions hold locks that forbid it now.
    NotNow,
    /// The session holds such a lock already, or the key has more than 256 bytes.
    Wrong,
}

/// What a release freed.
#[derive(Clone, Copy, Debug, PartialEq, Eq)]
pub enum Released {
    Exclusive,
    Shared,
    /// The session held no lock.
    Nothing,
}

/// The sessions' locks: at most one session holds the exclusive lock; those that share one hold it by a key.
///
/// Contracts see a `LockTable`: the session with the exclusive lock, and the key of each session that shares one.
#[derive(Debug, Drop)]
pub struct Locks {
    exclusive: Option<u8>,
    /// The keys of the sessions, by number from 1.
    keys: [Option<Sequence<u8>>; LOCK_PLACES],
    /// No session holds a key.
    unshared: bool,
}

impl Model for Locks {
    ghost use Rattle.sw_hislip.specs.LockTable.{LockTable};

    ghost Value = { LockTable };

    ghost view = { λ l. record { exclusive = l.exclusive; keys = l.keys } };

    ghost use Rattle.std.specs.Prelude.{◌≡◌, is_none};
    ghost use Rattle.std.specs.List.{list_all};
    ghost use Rattle.sw_hislip.specs.LockRules.{IsOrderly};

    ghost invariant = { λ l. IsOrderly (record { exclusive = l.exclusive; keys = l.keys })
        × (l.unshared ≡ list_all is_none l.keys) };
}

impl Locks {
    /// No session holds a lock.
    pub fn new() -> Locks
        ensures { result ≡ no_locks }
    {
        Locks {
            exclusive: None,
            keys: [
                None, None, None, None, None, None, None, None, None, None, None, None, None, None,
                None, None,
            ],
            unshared: true,
        }
    }

    /// A session asks for a lock: for the exclusive one by an empty key, else for the shared one by its key. `Wrong`
    /// has precedence over `NotNow`. The only error is a lack of memory for the key of a shared lock that is due. Only
    /// `Granted` changes anything.
    pub fn ask(&mut self, alloc: Global, sid: u8, key: &[u8]) -> Result<LockReply, AllocError>
        requires { (1 ≤ sid) × (sid ≤ most_sessions) }
        ensures replied { IfOk result (λ reply. Replies self.old sid key.now reply self.new) }
        ensures due { OnErr result (MayLackMemory self.old sid key.now) }
        ensures kept { OnErr result (self.new ≡ self.old) }
    {
        if key.is_empty() {
            return Ok(self.ask_exclusive(sid));
        }
        self.ask_shared(alloc, sid, key)
    }

    /// Frees a lock of the session at once: the exclusive one first, then the shared one.
    pub fn release(&mut self, sid: u8) -> Released
        requires { (1 ≤ sid) × (sid ≤ most_sessions) }
        ensures which { result ≡ freed self.old sid }
        ensures rest { self.new ≡ released self.old sid }
    {
        if self.excludes(sid) {
            self.exclusive = None;
            Released::Exclusive
        } else if self.shares(sid) {
            self.forget(sid);
            Released::Shared
        } else {
            Released::Nothing
        }
    }

    /// Whether no lock of another session keeps the session out.
    pub fn admits(&self, sid: u8) -> bool
        requires { (1 ≤ sid) × (sid ≤ most_sessions) }
        ensures admitted { result ≡ admits self.now sid }
        ensures orderly { IsOrderly self.now }
    {
        !self.other_excludes(sid) && (self.unshared || self.shares(sid))
    }

    /// Whether a session holds the exclusive lock, and how many sessions hold a lock.
    #[tactic(auto, unfolding(crate::specs::LockTable::holders))]
    pub fn info(&self) -> (bool, u8)
        ensures exclusive { result.0 ≡ is_some self.now.exclusive }
        ensures holders { result.1 ≡ holders self.now most_sessions }
        ensures orderly { IsOrderly self.now }
    {
        let mut count = 0;
        for before in 0..SESSIONS {
            if self.holds(before + 1) {
                count += 1;
            }
        }
        (self.exclusive.is_some(), count)
    }

    /// Frees every lock of a session that leaves.
    pub fn leave(&mut self, sid: u8)
        requires { (1 ≤ sid) × (sid ≤ most_sessions) }
        ensures { self.new ≡ without_session self.old sid }
    {
        if self.excludes(sid) {
            self.exclusive = None;
        }
        self.forget(sid);
    }

    /// A session asks for the exclusive lock.
    fn ask_exclusive(&mut self, sid: u8) -> LockReply
        requires { (1 ≤ sid) × (sid ≤ most_sessions) }
        ensures { Replies self.old sid [] result self.new }
    {
        if self.excludes(sid) {
            LockReply::Wrong
        } else if self.admits(sid) {
            self.exclusive = Some(sid);
            LockReply::Granted
        } else {
            LockReply::NotNow
        }
    }

    /// A session asks for the shared lock.
    fn ask_shared(&mut self, alloc: Global, sid: u8, key: &[u8]) -> Result<LockReply, AllocError>
        requires { (1 ≤ sid) × (sid ≤ most_sessions) }
        ensures replied { IfOk result (λ reply.
            RepliesBy (is_wrong_key self.old sid key.now) (grants_shared self.old sid key.now)
            self.old (with_key self.old sid (Some key.now)) reply self.new) }
        ensures due { OnErr result
            ((is_wrong_key self.old sid key.now ≡ false) × (grants_shared self.old sid key.now ≡ true)) }
        ensures kept { OnErr result (self.new ≡ self.old) }
    {
        if key.len() > LONGEST_KEY || self.shares(sid) {
            return Ok(LockReply::Wrong);
        }
        if self.other_excludes(sid) || !all_agree(&self.keys, key) {
            return Ok(LockReply::NotNow);
        }
        let key = Vec::from_slice(alloc, key)?;
        self.keys[(sid - 1) as usize] = Some(Sequence::new(key));
        self.unshared = false;
        Ok(LockReply::Granted)
    }

    /// Frees the shared lock of a session that has not the exclusive one.
    fn forget(&mut self, sid: u8)
        requires session { (1 ≤ sid) × (sid ≤ most_sessions) }
        requires alone { excludes self.old sid ≡ false }
        ensures { self.new ≡ with_key self.old sid None }
    {
        self.keys[(sid - 1) as usize] = None;
        self.unshared = self.unshared || none_held(&self.keys);
    }

    /// Whether the session holds the exclusive lock.
    fn excludes(&self, sid: u8) -> bool
        ensures { result ≡ excludes self.now sid }
    {
        match self.exclusive {
            None => false,
            Some(holder) => holder == sid,
        }
    }

    /// Whether another session holds the exclusive lock.
    fn other_excludes(&self, sid: u8) -> bool
        ensures { result ≡ other_excludes self.now sid }
    {
        match self.exclusive {
            None => false,
            Some(holder) => holder != sid,
        }
    }

    /// Whether the session shares a lock.
    fn shares(&self, sid: u8) -> bool
        requires { (1 ≤ sid) × (sid ≤ most_sessions) }
        ensures { result ≡ shares self.now sid }
    {
        self.keys[(sid - 1) as usize].is_some()
    }

    /// Whether the session holds a lock.
    fn holds(&self, sid: u8) -> bool
        requires { (1 ≤ sid) × (sid ≤ most_sessions) }
        ensures { result ≡ holds self.now sid }
    {
        self.excludes(sid) || self.shares(sid)
    }
}

/// Whether no session holds a key.
fn none_held(keys: &[Option<Sequence<u8>>]) -> bool
    ensures { result ≡ list_all is_none keys.now }
{
    for held in keys {
        if held.is_some() {
            return false;
        }
    }
    true
}

/// Whether every session that holds a key holds this one.
fn all_agree(keys: &[Option<Sequence<u8>>], key: &[u8]) -> bool
    ensures { result ≡ list_all (agrees key.now) keys.now }
{
    for held in keys {
        if !agrees(held, key) {
            return false;
        }
    }
    true
}

/// Whether this is the key, where there is one.
fn agrees(held: &Option<Sequence<u8>>, key: &[u8]) -> bool
    ensures { result ≡ agrees key.now held.now }
{
    match held {
        None => true,
        Some(held) => held.as_slice() == key,
    }
}
