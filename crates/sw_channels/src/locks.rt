//! Locks that a client asks for (IVI-6.1 HiSLIP, lock transaction).

ghost use Rattle.std.specs.Prelude.{◌≡◌, Some};
ghost use Rattle.sw_channels.specs.EngineStep.{LedBy, reply_step};
ghost use Rattle.sw_channels.specs.EngineAsync.{AsksForLock, AsksLock, AwaitsLock, ReleasesLock, TellsLocks, lock_code};
ghost use Rattle.sw_channels.specs.EngineAsync.{lock_reply, info_reply};
ghost use Rattle.sw_channels.specs.declared.step.Channel.TheVariants.{Asynchronous};

use crate::refusals::{ErrorCode, error};
use crate::responses::{lock_info, plain};
use crate::step::Reply;
use std::alloc::Global;
use sw_base::Sequence;
use sw_core::{SessionAnswer, SessionAsk, Sid};
use sw_hislip::{Kind, Message};
use sw_talk::{Desk, TURNS, Wake};

/// Answers an AsyncLock: control code 1 asks for a lock, 0 releases one.
pub fn lock<D: Desk>(alloc: Global, sid: Sid, message: Message, desk: &mut D) -> Reply
    ensures { LedBy D.passes desk.old desk.new
        (λ asked. AsksForLock sid message asked (reply_step Asynchronous result)) }
{
    match message.control {
        1 => ask_lock(alloc, sid, message.payload, message.parameter, desk),
        0 => release(alloc, sid, desk),
        _ => Reply::Says(error(alloc, ErrorCode::UnrecognizedControl)),
    }
}

/// Asks for a lock by this key within `limit_ms` milliseconds.
fn ask_lock<D: Desk>(
    alloc: Global,
    sid: Sid,
    key: Sequence<u8>,
    limit_ms: u32,
    desk: &mut D,
) -> Reply
    ensures { LedBy D.passes desk.old desk.new (λ asked.
        AsksLock sid key limit_ms asked (reply_step Asynchronous result)) }
{
    let code = await_lock(sid, key, limit_ms, desk);
    lock_reply(alloc, code)
}

/// Asks for a lock until it isn't held, waits for as long as the limit allows between, and gives the code of the
/// response; none where the channel ends.
fn await_lock<D: Desk>(sid: Sid, key: Sequence<u8>, limit_ms: u32, desk: &mut D) -> Option<u8>
    ensures { LedBy D.passes desk.old desk.new (λ asked.
        AwaitsLock 0 (SessionAsk.Lock sid key) (Some limit_ms) asked result) }
{
    let mut ask = SessionAsk::Lock(sid, key);
    let mut limit = Some(limit_ms);
    for _turn in 0..TURNS {
        match desk.ask(ask) {
            SessionAnswer::Hold(held) => match desk.wait(limit) {
                Wake::Again(left) => {
                    ask = held;
                    limit = left;
                }
                Wake::Over => {
                    drop(held);
                    return Some(0);
                }
            },
            answer => return lock_code(answer),
        }
    }
    drop(ask);
    Some(0)
}

/// Frees a lock.
fn release<D: Desk>(alloc: Global, sid: Sid, desk: &mut D) -> Reply
    ensures { LedBy D.passes desk.old desk.new (λ asked. ReleasesLock sid asked (reply_step Asynchronous result)) }
{
    let answer = desk.ask(SessionAsk::Release(sid));
    lock_reply(alloc, lock_code(answer))
}

/// Answers an AsyncLockInfo.
pub fn tell_locks<D: Desk>(alloc: Global, sid: Sid, desk: &mut D) -> Reply
    ensures { LedBy D.passes desk.old desk.new (λ asked. TellsLocks sid asked (reply_step Asynchronous result)) }
{
    let answer = desk.ask(SessionAsk::LockInfo(sid));
    info_reply(alloc, answer)
}

/// The code in an answer about a lock.
fn lock_code(answer: SessionAnswer) -> Option<u8>
    ensures { result ≡ lock_code answer }
{
    let code = match &answer {
        SessionAnswer::Lock(code) => Some(*code),
        SessionAnswer::Broken => Some(3),
        _ => None,
    };
    drop(answer);
    code
}

/// The response by this code; without one the channel ends.
fn lock_reply(alloc: Global, code: Option<u8>) -> Reply
    ensures { reply_step Asynchronous result ≡ lock_reply code }
{
    match code {
        Some(code) => Reply::Says(plain(alloc, Kind::AsyncLockResponse, code, 0)),
        None => Reply::Leaves,
    }
}

/// The response to AsyncLockInfo: whether a session holds the exclusive lock, and how many sessions hold a lock.
fn info_reply(alloc: Global, answer: SessionAnswer) -> Reply
    ensures { reply_step Asynchronous result ≡ info_reply answer }
{
    let reply = match &answer {
        SessionAnswer::Info(exclusive, holders) => {
            Reply::Says(lock_info(alloc, *exclusive, *holders))
        }
        _ => Reply::Leaves,
    };
    drop(answer);
    reply
}
