//! Messages as the bytes that clients and instruments exchange, and locks in the order in which sessions ask for them.

use std::alloc::Global;
use sw_base::Sequence;
use sw_hislip::{Decoder, Kind, LockReply, Locks, Message, Released, WireFault, encode};

/// Initialize of the sub-address `hislip0`, protocol version 1.0, vendor `XX`.
const INITIALIZE: [u8; 23] = [
    0x48, 0x53, 0, 0, 0x01, 0x00, 0x58, 0x58, 0, 0, 0, 0, 0, 0, 0, 7, b'h', b'i', b's', b'l', b'i',
    b'p', b'0',
];

/// Trigger with the first identifier of a client.
const TRIGGER: [u8; 16] = [
    0x48, 0x53, 12, 1, 0xff, 0xff, 0xff, 0x00, 0, 0, 0, 0, 0, 0, 0, 0,
];

/// The header of a DataEnd with a payload of 65,537 bytes.
const TOO_LARGE: [u8; 16] = [0x48, 0x53, 7, 0, 0, 0, 0, 0, 0, 0, 0, 0, 0, 1, 0, 1];

/// Whether the decoder takes these bytes. It promises nothing, nor do those below it.
fn feeds(decoder: &mut Decoder, bytes: &[u8]) -> bool {
    decoder.feed(bytes).is_ok()
}

/// Whether the next message isn't whole.
fn waits(alloc: Global, decoder: &mut Decoder) -> bool {
    matches!(decoder.next(alloc), Ok(None))
}

/// The next message, where it is whole.
fn next_message(alloc: Global, decoder: &mut Decoder) -> Option<Message> {
    match decoder.next(alloc) {
        Ok(message) => message,
        Err(_) => None,
    }
}

/// Whether this is the wire form of a message.
fn is_encoded(alloc: Global, message: &Message, wanted: &[u8]) -> bool {
    match encode(alloc, message) {
        Ok(bytes) => bytes.as_slice() == wanted,
        Err(_) => false,
    }
}

/// Whether the next message has this wire form.
fn reads(alloc: Global, decoder: &mut Decoder, wanted: &[u8]) -> bool {
    match next_message(alloc, decoder) {
        Some(message) => {
            let is_so = is_encoded(alloc, &message, wanted);
            drop(message);
            is_so
        }
        None => false,
    }
}

/// Whether there is this fault in place of a next message.
fn fails(alloc: Global, decoder: &mut Decoder, wanted: WireFault) -> bool {
    match decoder.next(alloc) {
        Ok(message) => {
            drop(message);
            false
        }
        Err(fault) => fault == wanted,
    }
}

/// Whether a message is Initialize, with the versions and the vendor of its client, and its sub-address.
fn is_initialize(message: &Message) -> bool {
    message.kind == Kind::Initialize
        && message.control == 0
        && message.parameter == 0x0100_5858
        && message.payload.as_slice() == b"hislip0".as_slice()
}

/// Whether the next message is such an Initialize.
fn reads_initialize(alloc: Global, decoder: &mut Decoder) -> bool {
    match next_message(alloc, decoder) {
        Some(message) => {
            let is_so = is_initialize(&message);
            drop(message);
            is_so
        }
        None => false,
    }
}

#[test]
fn initialize_is_read(rt: HostRuntime) {
    let mut decoder = Decoder::new(rt.alloc());
    assert!(rt; feeds(&mut decoder, &INITIALIZE));
    assert!(rt; reads_initialize(rt.alloc(), &mut decoder));
    drop(decoder);
}

/// Whether this is the wire form of a message without a payload.
fn writes(alloc: Global, kind: Kind, parameter: u32, wanted: &[u8]) -> bool {
    let message = Message {
        kind,
        control: 0,
        parameter,
        payload: Sequence::new(Vec::new(alloc)),
    };
    let is_so = is_encoded(alloc, &message, wanted);
    drop(message);
    is_so
}

#[test]
fn responses_are_written(rt: HostRuntime) {
    let initialize = [
        0x48, 0x53, 0x01, 0, 0x01, 0, 0, 0x01, 0, 0, 0, 0, 0, 0, 0, 0,
    ];
    assert!(rt;
        writes(
            rt.alloc(),
            Kind::InitializeResponse,
            0x0100_0001,
            &initialize
        )
    );
    let asynchronous = [
        0x48, 0x53, 0x12, 0, 0, 0, 0x53, 0x57, 0, 0, 0, 0, 0, 0, 0, 0,
    ];
    assert!(rt;
        writes(
            rt.alloc(),
            Kind::AsyncInitializeResponse,
            0x5357,
            &asynchronous
        )
    );
}

/// Whether a header is read at its last byte and not before.
fn reads_at_once(alloc: Global, decoder: &mut Decoder) -> bool {
    feeds(decoder, &TRIGGER[..15])
        && waits(alloc, decoder)
        && feeds(decoder, &TRIGGER[15..])
        && reads(alloc, decoder, &TRIGGER)
}

/// Whether another prologue is refused at the header's last byte and not before, and so is all that follows.
fn refuses_prologue(alloc: Global, decoder: &mut Decoder) -> bool {
    feeds(decoder, b"HT345678901234")
        && waits(alloc, decoder)
        && feeds(decoder, b"56")
        && fails(alloc, decoder, WireFault::BadPrologue)
        && feeds(decoder, &TRIGGER)
        && fails(alloc, decoder, WireFault::BadPrologue)
}

#[test]
fn header_is_judged_at_its_sixteenth_byte(rt: HostRuntime) {
    let mut decoder = Decoder::new(rt.alloc());
    let is_read = reads_at_once(rt.alloc(), &mut decoder);
    let is_refused = refuses_prologue(rt.alloc(), &mut decoder);
    drop(decoder);
    assert!(rt; is_read && is_refused);
}

/// Whether 65,536 bytes are taken without a message.
fn skips_65536(alloc: Global, decoder: &mut Decoder) -> bool {
    for _ in 0..16u8 {
        if !feeds(decoder, &[b'H'; 4096]) || !waits(alloc, decoder) {
            return false;
        }
    }
    true
}

/// Whether a message of 65,537 bytes is refused and passed over.
fn skips(alloc: Global, decoder: &mut Decoder) -> bool {
    feeds(decoder, &TOO_LARGE)
        && fails(alloc, decoder, WireFault::TooLarge(Kind::DataEnd))
        && skips_65536(alloc, decoder)
        && decoder.room() == 0
        && feeds(decoder, b"H")
        && feeds(decoder, &TRIGGER)
        && reads(alloc, decoder, &TRIGGER)
}

#[test]
fn large_payload_is_skipped(rt: HostRuntime) {
    let mut decoder = Decoder::new(rt.alloc());
    let is_skipped = skips(rt.alloc(), &mut decoder);
    drop(decoder);
    assert!(rt; is_skipped);
}

/// Whether a session that asks for a lock with this key gets this answer.
fn answers(alloc: Global, locks: &mut Locks, sid: u8, key: &[u8], wanted: LockReply) -> bool {
    sid >= 1 && sid <= 16 && locks.ask(alloc, sid, key) == Ok(wanted)
}

/// Whether a session's release frees that.
fn releases(locks: &mut Locks, sid: u8, wanted: Released) -> bool {
    sid >= 1 && sid <= 16 && locks.release(sid) == wanted
}

/// Whether the locks answer this: whether one is exclusive, and how many sessions hold one.
fn tells(locks: &Locks, is_exclusive: bool, holders: u8) -> bool {
    locks.info() == (is_exclusive, holders)
}

/// Whether session 1 gets both kinds of lock, and session 2 none.
fn takes_both(alloc: Global, locks: &mut Locks) -> bool {
    answers(alloc, locks, 1, b"", LockReply::Granted)
        && answers(alloc, locks, 2, b"k", LockReply::NotNow)
        && tells(locks, true, 1)
        && answers(alloc, locks, 1, b"k", LockReply::Granted)
}

/// Whether session 1 releases both, and gets one anew.
fn releases_both(alloc: Global, locks: &mut Locks) -> bool {
    releases(locks, 1, Released::Exclusive)
        && releases(locks, 1, Released::Shared)
        && releases(locks, 1, Released::Nothing)
        && answers(alloc, locks, 1, b"", LockReply::Granted)
        && answers(alloc, locks, 1, b"", LockReply::Wrong)
}

#[test]
fn locks_go_by_their_rules(rt: HostRuntime) {
    let mut locks = Locks::new();
    let is_so = takes_both(rt.alloc(), &mut locks) && releases_both(rt.alloc(), &mut locks);
    drop(locks);
    assert!(rt; is_so);
}

/// Whether a session that asks with this many bytes `k` gets this answer.
fn answers_long(
    alloc: Global,
    locks: &mut Locks,
    sid: u8,
    length: usize,
    wanted: LockReply,
) -> bool {
    let key = [b'k'; 257];
    length <= 257 && answers(alloc, locks, sid, &key[..length], wanted)
}

/// Whether the locks answer this after session 16 has left.
fn tells_without_16(locks: &mut Locks, is_exclusive: bool, holders: u8) -> bool {
    locks.leave(16);
    tells(locks, is_exclusive, holders)
}

/// Whether sessions 1 and 16 share a lock until one leaves, and session 2 is kept out.
fn shares(alloc: Global, locks: &mut Locks) -> bool {
    answers_long(alloc, locks, 1, 257, LockReply::Wrong)
        && answers_long(alloc, locks, 1, 256, LockReply::Granted)
        && answers(alloc, locks, 16, b"k", LockReply::NotNow)
        && answers_long(alloc, locks, 16, 256, LockReply::Granted)
        && tells(locks, false, 2)
        && locks.admits(16)
        && !locks.admits(2)
        && tells_without_16(locks, false, 1)
}

#[test]
fn shared_locks_have_one_key(rt: HostRuntime) {
    let mut locks = Locks::new();
    let is_so = shares(rt.alloc(), &mut locks);
    drop(locks);
    assert!(rt; is_so);
}
