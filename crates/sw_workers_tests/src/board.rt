//! The status board over threads.

ghost use Rattle.std.specs.Prelude.{◌≡◌, ◌<◌, ◌^◌, ℕ, Some};
ghost use Rattle.sw_history.specs.Board.{pair_in};

use crate::latches::{TURNS, turn};
use std::marker::Brand;
use std::process::Abort;
use std::sync::atomic::{AtomicBool, Ordering};
use std::sync::{Mutex, Wait};
use std::test::*;
use std::thread;
use std::thread::{Threads, join};
use std::time::Clock;
use sw_history::{BlankBoard, BoardName, LockedPass, SeatSlot};
use sw_workers::{StatusBoard, StatusSeat};

/// Waits until the flag is up, for at most `TURNS` turns. Whether it came up.
fn waits_for<C: Clock>(clock: &C, flag: &AtomicBool) -> bool {
    for _ in 0..TURNS {
        if flag.load(Ordering::SeqCst) {
            return true;
        }
        turn(clock);
    }
    false
}

/// Publishes a pair under the lock, as an event of a desk.
fn publishes<B: BoardName, W: Wait>(
    rt: &W,
    board: &StatusBoard<B>,
    lock: &Mutex<LockedPass<B>>,
    desk: &mut StatusSeat<B>,
    byte: u8,
    requests: u32,
)
    requires { (d : ℕ) × (desk.old.desk ≡ Some d) }
    ensures { desk.new.desk ≡ desk.old.desk }
{
    lock.lock(rt)
        .publish::<Brand>(board, desk, (byte, requests as u64));
}

/// Holds the lock until the flag is up, and gives whether it came up in time.
pub fn holds<T: Drop, W: Wait + Clock>(
    rt: &W,
    lock: &Mutex<T>,
    held: &AtomicBool,
    read: &AtomicBool,
) -> bool {
    let guard = lock.lock(rt);
    held.store(true, Ordering::SeqCst);
    let in_time = waits_for(rt, read);
    drop(guard);
    in_time
}

/// Reads once a thread has the lock.
pub fn reads<B: BoardName, C: Clock>(
    clock: &C,
    board: &StatusBoard<B>,
    mut seat: StatusSeat<B>,
    held: &AtomicBool,
    read: &AtomicBool,
) -> (u8, u64) {
    let _ = waits_for(clock, held);
    let pair = seat.read(board);
    read.store(true, Ordering::SeqCst);
    pair
}

/// The board's name is chosen where a test begins.
fn under_the_lock<B: BoardName + Send + Sync, W: Threads + Wait + Clock + Abort + Sync>(
    rt: &W,
    blank: BlankBoard,
)
    requires { (blank.table.shared.table_id ≡ B.table) × (blank.table.shared.key ≡ B.opening) }
{
    let (board, mut pass) = blank.open::<B>();
    let mut desk = pass.new_desk(&board);
    let lock = Mutex::new(pass);
    publishes(rt, &board, &lock, &mut desk, 4, 1);
    let seat = desk.split(&board);
    let held = AtomicBool::new(false);
    let read = AtomicBool::new(false);
    let (in_time, pair) = join(
        rt,
        || holds(rt, &lock, &held, &read),
        || reads(rt, &board, seat, &held, &read),
    );
    assert!(rt; in_time && pair == (4, 1));
}

#[test]
fn a_read_waits_for_no_lock(rt: HostRuntime) -> Result<(), Fail> {
    let blank = BlankBoard::new(rt.alloc(), (0, 0))?;
    under_the_lock::<Brand, _>(&rt, blank);
    Ok(())
}

/// Publishes `most` pairs, each with one more request.
fn publishes_on<B: BoardName, W: Wait>(
    rt: &W,
    board: &StatusBoard<B>,
    lock: &Mutex<LockedPass<B>>,
    mut desk: StatusSeat<B>,
    most: u32,
)
    requires { (d : ℕ) × (desk.desk ≡ Some d) }
{
    for i in 0..most {
        publishes(rt, board, lock, &mut desk, 0, i);
        thread::yield_now();
    }
}

/// Reads until there are `most` requests. Gives whether they never went down, and how many there were.
fn watches<B: BoardName, C: Clock>(
    clock: &C,
    board: &StatusBoard<B>,
    mut seat: StatusSeat<B>,
    most: u64,
) -> (bool, u64) {
    let mut last = 0;
    let mut rises = true;
    for _ in 0..TURNS {
        let (_, requests) = seat.read(board);
        rises = rises && last <= requests;
        last = requests;
        if last >= most {
            break;
        }
        turn(clock);
    }
    (rises, last)
}

fn while_published<B: BoardName + Send + Sync, W: Threads + Wait + Clock + Abort + Sync>(
    rt: &W,
    blank: BlankBoard,
)
    requires { (blank.table.shared.table_id ≡ B.table) × (blank.table.shared.key ≡ B.opening) }
{
    let (board, mut pass) = blank.open::<B>();
    let mut desk = pass.new_desk(&board);
    let seat = desk.split(&board);
    let lock = Mutex::new(pass);
    let ((), (rises, last)) = join(
        rt,
        || publishes_on(rt, &board, &lock, desk, 40),
        || watches(rt, &board, seat, 39),
    );
    assert!(rt; rises && last == 39);
}

#[test]
fn requests_never_go_down(rt: HostRuntime) -> Result<(), Fail> {
    let blank = BlankBoard::new(rt.alloc(), (0, 0))?;
    while_published::<Brand, _>(&rt, blank);
    Ok(())
}

/// One thread's event leaves a seat in the session's slot, and another thread, with a seat that saw nothing of it,
/// polls.
fn by_its_slot<B: BoardName + Send + Sync, W: Threads + Wait + Clock + Abort + Sync>(
    rt: &W,
    blank: BlankBoard,
    slot: &SeatSlot<B>,
)
    requires { (blank.table.shared.table_id ≡ B.table) × (blank.table.shared.key ≡ B.opening) }
{
    let (board, mut pass) = blank.open::<B>();
    let mut desk = pass.new_desk(&board);
    let seat = desk.split(&board);
    let lock = Mutex::new(pass);
    let left = AtomicBool::new(false);
    let ((), pair) = join(
        rt,
        || leaves(rt, &board, &lock, slot, desk, &left),
        || polls(rt, &board, slot, seat, &left),
    );
    assert!(rt; pair == (68, 1));
}

fn leaves<B: BoardName, W: Wait>(
    rt: &W,
    board: &StatusBoard<B>,
    lock: &Mutex<LockedPass<B>>,
    slot: &SeatSlot<B>,
    mut desk: StatusSeat<B>,
    left: &AtomicBool,
)
    requires { (d : ℕ) × (desk.desk ≡ Some d) }
{
    publishes(rt, board, lock, &mut desk, 68, 1);
    slot.leave(rt, desk.split(board));
    left.store(true, Ordering::SeqCst);
}

fn polls<B: BoardName, W: Wait + Clock>(
    rt: &W,
    board: &StatusBoard<B>,
    slot: &SeatSlot<B>,
    mut seat: StatusSeat<B>,
    left: &AtomicBool,
) -> (u8, u64) {
    let _ = waits_for(rt, left);
    slot.poll(rt, board, &mut seat)
}

fn with_slot<B: BoardName + Send + Sync, W: Threads + Wait + Clock + Abort + Sync>(
    rt: &W,
    blank: BlankBoard,
)
    requires { (blank.table.shared.table_id ≡ B.table) × (blank.table.shared.key ≡ B.opening) }
{
    by_its_slot(rt, blank, &SeatSlot::<B>::new());
}

#[test]
fn a_session_polls_what_its_event_left(rt: HostRuntime) -> Result<(), Fail> {
    let blank = BlankBoard::new(rt.alloc(), (0, 0))?;
    with_slot::<Brand, _>(&rt, blank);
    Ok(())
}
