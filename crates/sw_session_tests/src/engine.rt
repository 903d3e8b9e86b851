//! Worked conversations of HiSLIP clients with a mainframe, message by message.

use crate::clients::{
    Client, FIRST, Fields, IDENTITY, TAKEN, bench, carrying, is_answer, plain, take,
};
use std::alloc::Global;
use std::mem::replace;
use std::test::Fail;
use sw_core::{SessionAnswer, SessionAsk, Sid};
use sw_hislip::Kind;
use sw_session::{Channel, Desk, Engine, View, Wake};

/// The answer to a client's `*IDN?`, whole and cut to the size that it sent.
fn identifies<D: Desk>(client: &mut Client, desk: &mut D) -> bool {
    let whole = carrying(Kind::DataEnd, 0, FIRST, IDENTITY);
    let size = carrying(
        Kind::AsyncMaximumMessageSize,
        0,
        0,
        &[0, 0, 0, 0, 0, 0, 0, 32],
    );
    let taken = carrying(
        Kind::AsyncMaximumMessageSizeResponse,
        0,
        0,
        &[0, 0, 0, 0, 0, 1, 0, 0],
    );
    let again = carrying(Kind::DataEnd, TAKEN, FIRST + 2, b"*IDN?\n");
    let front = carrying(Kind::Data, 0, FIRST + 2, b"OPENBENCH,SWM8,0");
    let end = carrying(Kind::DataEnd, 0, FIRST + 2, b",1.0\n");
    let channel = Channel::Synchronous;
    client.tells(desk, carrying(Kind::DataEnd, 0, FIRST, b"*IDN?\n"), whole)
        && client.adds(desk, size, taken)
        && client.says_pair(desk, again, (channel, front), (channel, end))
}

fn begins_and_identifies<D: Desk>(alloc: Global, desk: &mut D) -> bool {
    let mut client = Client::new(alloc);
    let is_so = client.joins(desk, 1) && identifies(&mut client, desk);
    drop(client);
    is_so
}

#[test]
fn a_session_begins_and_its_answers_are_cut(rt: HostRuntime) -> Result<(), Fail> {
    let Some(mut desk) = bench(rt.alloc()) else {
        return Err("no mainframe")?;
    };
    let is_so = begins_and_identifies(rt.alloc(), &mut desk);
    drop(desk);
    assert!(rt; is_so);
    Ok(())
}

/// Whether a client's first message on a channel is answered by this fault, which ends the channel.
fn fails_at_first<D: Desk>(
    alloc: Global,
    desk: &mut D,
    channel: Channel,
    it: Fields<'_>,
    code: u8,
) -> bool {
    let mut client = Client::new(alloc);
    let fault = plain(Kind::FatalError, code, 0);
    let is_so = client.exchanges(desk, channel, it, fault, true);
    drop(client);
    is_so
}

/// Whether a client that joined by its first connection alone gets this fault.
fn fails_without_second<D: Desk>(alloc: Global, desk: &mut D, number: u32) -> bool {
    let mut client = Client::new(alloc);
    let it = carrying(Kind::Data, 0, FIRST, b"*ID");
    let fault = plain(Kind::FatalError, 2, 0);
    let is_so = client.begins(desk, number)
        && client.exchanges(desk, Channel::Synchronous, it, fault, true);
    drop(client);
    is_so
}

/// Whether a client that joined gets a fault where it begins once more, on either connection.
fn fails_where_it_begins_again<D: Desk>(alloc: Global, desk: &mut D, number: u32) -> bool {
    let mut client = Client::new(alloc);
    let first = carrying(Kind::Initialize, 0, 0x0100_5858, b"hislip0");
    let second = plain(Kind::AsyncInitialize, 0, number);
    let fault = plain(Kind::FatalError, 3, 0);
    let is_so = client.joins(desk, number)
        && client.exchanges(desk, Channel::Synchronous, first, fault, true)
        && client.exchanges(desk, Channel::Asynchronous, second, fault, true);
    drop(client);
    is_so
}

fn begins_wrongly<D: Desk>(alloc: Global, desk: &mut D) -> bool {
    let stranger = plain(Kind::AsyncInitialize, 0, 9);
    let great = plain(Kind::AsyncInitialize, 0, 257);
    let early = carrying(Kind::DataEnd, 0, FIRST, b"*IDN?\n");
    let beyond = carrying(Kind::Initialize, 0, 0x0100_5858, b"hislip\xe9");
    let long = carrying(Kind::Initialize, 0, 0x0100_5858, &[b'a'; 257]);
    fails_at_first(alloc, desk, Channel::Asynchronous, stranger, 3)
        && fails_at_first(alloc, desk, Channel::Asynchronous, great, 3)
        && fails_at_first(alloc, desk, Channel::Synchronous, early, 3)
        && fails_at_first(alloc, desk, Channel::Synchronous, beyond, 3)
        && fails_at_first(alloc, desk, Channel::Synchronous, long, 3)
        && fails_without_second(alloc, desk, 1)
        && fails_where_it_begins_again(alloc, desk, 2)
}

#[test]
fn a_wrong_beginning_is_fatal(rt: HostRuntime) -> Result<(), Fail> {
    let Some(mut desk) = bench(rt.alloc()) else {
        return Err("no mainframe")?;
    };
    let is_so = begins_wrongly(rt.alloc(), &mut desk);
    drop(desk);
    assert!(rt; is_so);
    Ok(())
}

/// Whether a client of an earlier version joins as this session.
fn joins_earlier<D: Desk>(alloc: Global, desk: &mut D, number: u32) -> bool {
    let mut client = Client::new(alloc);
    let it = carrying(Kind::Initialize, 0, 0x0080_5858, b"");
    let welcome = plain(Kind::InitializeResponse, 0, 0x0080_0000 | number);
    let is_so = client.tells(desk, it, welcome);
    drop(client);
    is_so
}

fn takes_sixteen<D: Desk>(alloc: Global, desk: &mut D) -> bool {
    let mut is_so = true;
    for number in 1..17 {
        is_so = is_so && joins_earlier(alloc, desk, number);
    }
    let next = carrying(Kind::Initialize, 0, 0x0100_5858, b"hislip0");
    is_so && fails_at_first(alloc, desk, Channel::Synchronous, next, 4)
}

#[test]
fn a_seventeenth_client_is_one_too_many(rt: HostRuntime) -> Result<(), Fail> {
    let Some(mut desk) = bench(rt.alloc()) else {
        return Err("no mainframe")?;
    };
    let is_so = takes_sixteen(rt.alloc(), &mut desk);
    drop(desk);
    assert!(rt; is_so);
    Ok(())
}

/// Whether an answer that wasn't taken is dropped, and a taken one is not.
fn interrupts<D: Desk>(client: &mut Client, desk: &mut D) -> bool {
    client.note_answer(desk);
    let it = carrying(Kind::DataEnd, 0, FIRST + 4, b"ROUT:CLOS (@1!1)");
    let side = plain(Kind::AsyncInterrupted, 0, FIRST + 4);
    let main = plain(Kind::Interrupted, 0, FIRST + 4);
    let first = (Channel::Asynchronous, side);
    let is_so = client.says_pair(desk, it, first, (Channel::Synchronous, main))
        && !client.has_message(desk)
        && client.asks(
            desk,
            b"SYST:ERR?;:ROUT:CLOS? (@1!1)",
            b"-410,\"Query INTERRUPTED\";1\n",
        );
    client.note_answer(desk);
    is_so
        && client.has_message(desk)
        && client.asks(desk, b"SYST:ERR?", b"0,\"No error\"\n")
        && !client.has_message(desk)
}

fn joins_and_interrupts<D: Desk>(alloc: Global, desk: &mut D) -> bool {
    let mut client = Client::new(alloc);
    let is_so = client.joins(desk, 1) && interrupts(&mut client, desk);
    drop(client);
    is_so
}

#[test]
fn a_message_before_an_answer_was_taken_interrupts(rt: HostRuntime) -> Result<(), Fail> {
    let Some(mut desk) = bench(rt.alloc()) else {
        return Err("no mainframe")?;
    };
    let is_so = joins_and_interrupts(rt.alloc(), &mut desk);
    drop(desk);
    assert!(rt; is_so);
    Ok(())
}

/// Whether two clients get and free locks by the rules.
fn share_locks<D: Desk>(a: &mut Client, b: &mut Client, desk: &mut D) -> bool {
    let info = plain(Kind::AsyncLockInfo, 0, 0);
    a.locks(desk, b"", 1)
        && b.locks(desk, b"k", 0)
        && b.adds(desk, info, plain(Kind::AsyncLockInfoResponse, 1, 1))
        && a.locks(desk, b"k", 1)
        && a.releases(desk, 1)
        && a.releases(desk, 2)
        && a.releases(desk, 3)
        && b.adds(desk, info, plain(Kind::AsyncLockInfoResponse, 0, 0))
        && a.locks(desk, b"", 1)
        && a.locks(desk, b"", 3)
        && a.adds(desk, plain(Kind::AsyncLock, 2, 0), plain(Kind::Error, 2, 0))
}

fn join_and_share_locks<D: Desk>(alloc: Global, desk: &mut D) -> bool {
    let mut a = Client::new(alloc);
    let mut b = Client::new(alloc);
    let is_so = a.joins(desk, 1) && b.joins(desk, 2) && share_locks(&mut a, &mut b, desk);
    drop(a);
    drop(b);
    is_so
}

#[test]
fn two_clients_lock_and_release(rt: HostRuntime) -> Result<(), Fail> {
    let Some(mut desk) = bench(rt.alloc()) else {
        return Err("no mainframe")?;
    };
    let is_so = join_and_share_locks(rt.alloc(), &mut desk);
    drop(desk);
    assert!(rt; is_so);
    Ok(())
}

/// A desk that plays a turn at each wait: the session that holds the lock sends its next message, or the session that
/// waits serves its second connection.
#[derive(Drop)]
struct Played<D: Desk> {
    desk: D,
    holder: Client,
    side: Engine,
    turn: u32,
    /// Whether all was answered as it should be so far.
    is_right: bool,
}

impl<D: Desk> Played<D> {
    /// Whether what comes in this turn is answered as it should be.
    fn plays(&mut self, turn: u32) -> bool {
        match turn {
            0 => self.holder.asks(&mut self.desk, b"*STB?", b"0\n"),
            1 => self.tells_status(),
            2 => self.holder.bids(&mut self.desk, b"ROUT:CLOS (@1!1)"),
            _ => self.holder.releases(&mut self.desk, 1),
        }
    }

    /// Whether the session that waits gets its status at once.
    fn tells_status(&mut self) -> bool {
        let query = plain(Kind::AsyncStatusQuery, 0, 0);
        let status = plain(Kind::AsyncStatusResponse, 0, 0);
        match take(self.holder.alloc, &mut self.side, &mut self.desk, query) {
            Some(step) => {
                let is_so = is_answer(&step, Channel::Asynchronous, status, false);
                drop(step);
                is_so
            }
            None => false,
        }
    }
}

impl<D: Desk> Desk for Played<D> {
    ghost passes = { λ old entry new. Unit {0} };

    fn ask(&mut self, ask: SessionAsk) -> SessionAnswer {
        self.desk.ask(ask)
    }

    fn wait(&mut self, limit_ms: Option<u32>) -> Wake {
        let turn = self.turn;
        if turn > 3 {
            return self.desk.wait(limit_ms);
        }
        self.turn = turn + 1;
        let is_so = self.plays(turn);
        self.is_right = self.is_right && is_so;
        Wake::Again(limit_ms)
    }

    fn poll(&mut self, sid: Sid) -> View {
        self.desk.poll(sid)
    }

    fn note(&mut self, sid: Sid, mav: bool) {
        self.desk.note(sid, mav)
    }
}

/// Two sessions. The first has the exclusive lock.
fn lock_out<D: Desk>(a: &mut Client, b: &mut Client, desk: &mut D) -> bool {
    a.joins(desk, 1) && b.joins(desk, 2) && a.locks(desk, b"", 1)
}

/// Whether a query waits until the lock is free, and all else that comes meanwhile is answered at once.
fn waits_for_lock<D: Desk + Drop>(alloc: Global, desk: D) -> bool {
    let mut desk = desk;
    let mut a = Client::new(alloc);
    let mut b = Client::new(alloc);
    let is_locked = lock_out(&mut a, &mut b, &mut desk);
    let side = replace(&mut b.side, Engine::new(alloc, Channel::Asynchronous));
    let mut played = Played {
        desk,
        holder: a,
        side,
        turn: 0,
        is_right: is_locked,
    };
    let is_so = b.asks(&mut played, b"ROUT:CLOS? (@1!1)", b"1\n")
        && played.is_right
        && played.turn == 4;
    drop(played);
    drop(b);
    is_so
}

#[test]
fn a_query_waits_until_the_lock_is_free(rt: HostRuntime) -> Result<(), Fail> {
    let Some(desk) = bench(rt.alloc()) else {
        return Err("no mainframe")?;
    };
    let is_so = waits_for_lock(rt.alloc(), desk);
    assert!(rt; is_so);
    Ok(())
}

/// Whether a lock is granted once it is free.
fn gets_lock_later<D: Desk + Drop>(alloc: Global, desk: D) -> bool {
    let mut desk = desk;
    let mut a = Client::new(alloc);
    let mut b = Client::new(alloc);
    let is_locked = lock_out(&mut a, &mut b, &mut desk);
    let mut played = Played {
        desk,
        holder: a,
        side: Engine::new(alloc, Channel::Asynchronous),
        turn: 3,
        is_right: is_locked,
    };
    let it = carrying(Kind::AsyncLock, 1, 1_000, b"k");
    let is_so = b.adds(&mut played, it, plain(Kind::AsyncLockResponse, 1, 0)) && played.is_right;
    drop(played);
    drop(b);
    is_so
}

#[test]
fn a_lock_is_granted_once_it_is_free(rt: HostRuntime) -> Result<(), Fail> {
    let Some(desk) = bench(rt.alloc()) else {
        return Err("no mainframe")?;
    };
    let is_so = gets_lock_later(rt.alloc(), desk);
    assert!(rt; is_so);
    Ok(())
}

/// Whether an error asks for service once, in the message after the one that enabled it, and MAV shows until the client
/// has taken its answer.
fn asks_for_service<D: Desk>(client: &mut Client, desk: &mut D) -> bool {
    let is_so = client.bids(desk, b"*SRE 4")
        && client.notices_none(desk)
        && client.bids(desk, b"FOO")
        && client.notices(desk, 68)
        && client.notices_none(desk)
        && client.shows(desk, 0, 68)
        && client.shows(desk, 0, 4);
    client.note_answer(desk);
    is_so && client.shows(desk, 0, 20) && client.shows(desk, TAKEN, 4) && !client.has_message(desk)
}

/// Whether that is so for the second of two sessions, and the first gets the same request, without MAV.
fn joins_and_asks_for_service<D: Desk>(alloc: Global, desk: &mut D) -> bool {
    let mut other = Client::new(alloc);
    let mut client = Client::new(alloc);
    let is_so = other.joins(desk, 1)
        && client.joins(desk, 2)
        && asks_for_service(&mut client, desk)
        && other.notices(desk, 68)
        && other.notices_none(desk)
        && other.shows(desk, 0, 68)
        && other.shows(desk, 0, 4);
    drop(other);
    drop(client);
    is_so
}

#[test]
fn an_error_asks_for_service_once(rt: HostRuntime) -> Result<(), Fail> {
    let Some(mut desk) = bench(rt.alloc()) else {
        return Err("no mainframe")?;
    };
    let is_so = joins_and_asks_for_service(rt.alloc(), &mut desk);
    drop(desk);
    assert!(rt; is_so);
    Ok(())
}

/// Whether a device clear drops the part that has come of program messages, before it and during it, and the answer.
fn clears<D: Desk>(client: &mut Client, desk: &mut D) -> bool {
    let clear = plain(Kind::AsyncDeviceClear, 0, 0);
    let complete = plain(Kind::DeviceClearComplete, 0, 0);
    let is_so = client.is_quiet(desk, carrying(Kind::Data, 0, FIRST, b"FOO;"))
        && client.adds(desk, clear, plain(Kind::AsyncDeviceClearAcknowledge, 0, 0))
        && client.is_quiet(desk, carrying(Kind::DataEnd, 0, FIRST + 2, b"*IDN?"))
        && client.is_quiet(desk, carrying(Kind::Data, 0, FIRST + 4, b"BAR;"));
    client.note_answer(desk);
    is_so
        && client.tells(desk, complete, plain(Kind::DeviceClearAcknowledge, 0, 0))
        && !client.has_message(desk)
        && client.asks(desk, b"*IDN?", IDENTITY)
        && client.asks(desk, b"SYST:ERR?", b"0,\"No error\"\n")
}

fn joins_and_clears<D: Desk>(alloc: Global, desk: &mut D) -> bool {
    let mut client = Client::new(alloc);
    let is_so = client.joins(desk, 1) && clears(&mut client, desk);
    drop(client);
    is_so
}

#[test]
fn a_device_clear_drops_messages_and_answers(rt: HostRuntime) -> Result<(), Fail> {
    let Some(mut desk) = bench(rt.alloc()) else {
        return Err("no mainframe")?;
    };
    let is_so = joins_and_clears(rt.alloc(), &mut desk);
    drop(desk);
    assert!(rt; is_so);
    Ok(())
}

/// Whether a trigger is an error within a program message, and a bus trigger else.
fn triggers<D: Desk>(client: &mut Client, desk: &mut D) -> bool {
    client.is_quiet(desk, carrying(Kind::Data, 0, FIRST, b"*ID"))
        && client.is_quiet(desk, plain(Kind::Trigger, 0, FIRST + 2))
        && client.is_quiet(desk, carrying(Kind::DataEnd, 0, FIRST + 4, b"N?"))
        && client.is_quiet(desk, plain(Kind::Trigger, 0, FIRST + 6))
        && client.asks(
            desk,
            b"SYST:ERR:ALL?",
            b"-105,\"GET not allowed\",-113,\"Undefined header\",-211,\"Trigger ignored\"\n",
        )
}

/// Whether the channel reports faults of single messages, and serves the next message.
fn tells_faults<D: Desk>(client: &mut Client, desk: &mut D) -> bool {
    let vendor = plain(Kind::Vendor(200), 0, 0);
    let undefined = plain(Kind::Undefined(26), 0, 0);
    let control = plain(Kind::AsyncRemoteLocalControl, 7, 0);
    let remote = plain(Kind::AsyncRemoteLocalControl, 6, 0);
    client.tells(desk, vendor, plain(Kind::Error, 3, 0))
        && client.adds(desk, vendor, plain(Kind::Error, 3, 0))
        && client.tells(desk, undefined, plain(Kind::Error, 1, 0))
        && client.tells(desk, control, plain(Kind::Error, 1, 0))
        && client.adds(
            desk,
            plain(Kind::Trigger, 0, FIRST),
            plain(Kind::Error, 1, 0),
        )
        && client.adds(desk, control, plain(Kind::Error, 2, 0))
        && client.adds(desk, remote, plain(Kind::AsyncRemoteLocalResponse, 0, 0))
        && client.is_quiet(desk, plain(Kind::Error, 1, 0))
        && client.asks(desk, b"*IDN?", IDENTITY)
}

/// Whether a part that was skipped drops its program message whole, and no other.
fn skips<D: Desk>(client: &mut Client, desk: &mut D) -> bool {
    let told = client.main.skip(Kind::Data);
    let is_told = told.kind == Kind::Error && told.control == 4;
    drop(told);
    is_told && client.bids(desk, b"FOO") && client.asks(desk, b"SYST:ERR?", b"0,\"No error\"\n")
}

fn joins_and_errs<D: Desk>(alloc: Global, desk: &mut D) -> bool {
    let mut client = Client::new(alloc);
    let is_so = client.joins(desk, 1)
        && triggers(&mut client, desk)
        && tells_faults(&mut client, desk)
        && skips(&mut client, desk);
    drop(client);
    is_so
}

#[test]
fn a_fault_of_a_message_is_told_and_the_next_is_served(rt: HostRuntime) -> Result<(), Fail> {
    let Some(mut desk) = bench(rt.alloc()) else {
        return Err("no mainframe")?;
    };
    let is_so = joins_and_errs(rt.alloc(), &mut desk);
    drop(desk);
    assert!(rt; is_so);
    Ok(())
}
