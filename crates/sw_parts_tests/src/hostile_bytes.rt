//! HiSLIP byte streams that no client should send, whole, cut in two after each of their first 32 bytes, and byte by
//! byte.

use std::alloc::{AllocError, Global};
use std::test::Fail;
use sw_base::ScpiError;
use sw_hislip::{Decoder, Kind, Message, WireFault, encode};
use sw_lex::{Elements, next_unit};

/// What a decoder gives.
#[derive(Clone, Copy, PartialEq, Eq)]
enum Told {
    Whole(Kind),
    Fault(WireFault),
}

/// All that a decoder gave, and the wire form of its messages.
#[derive(Drop)]
struct Heard {
    told: Vec<Told>,
    bytes: Vec<u8>,
}

impl Heard {
    fn new(alloc: Global) -> Self {
        Heard {
            told: Vec::new(alloc),
            bytes: Vec::new(alloc),
        }
    }

    /// Takes a message or fault down, and says whether there was memory.
    fn take(&mut self, alloc: Global, next: Result<Message, WireFault>) -> bool {
        match next {
            Ok(message) => {
                let is_told = self.told.push(Told::Whole(message.kind)).is_ok();
                let is_written = add(alloc, &mut self.bytes, &message);
                drop(message);
                is_told && is_written
            }
            Err(fault) => self.told.push(Told::Fault(fault)).is_ok(),
        }
    }
}

/// Adds a message's wire form.
fn add(alloc: Global, bytes: &mut Vec<u8>, message: &Message) -> bool {
    match encode(alloc, message) {
        Ok(wire) => bytes.extend_from_slice(wire.as_slice()).is_ok(),
        Err(_) => false,
    }
}

/// The next message or fault, if any.
fn next(alloc: Global, decoder: &mut Decoder) -> Option<Result<Message, WireFault>> {
    match decoder.next(alloc) {
        Ok(None) => None,
        Ok(Some(message)) => Some(Ok(message)),
        Err(fault) => Some(Err(fault)),
    }
}

/// Feeds a piece, and records what the decoder gives until it gives nothing; eight things at most.
fn hears(alloc: Global, decoder: &mut Decoder, heard: &mut Heard, piece: &[u8]) -> bool {
    if decoder.feed(piece).is_err() {
        return false;
    }
    for _ in 0..8u8 {
        let Some(next) = next(alloc, decoder) else {
            return true;
        };
        if !heard.take(alloc, next) {
            return false;
        }
    }
    false
}

/// Whether the decoder gave these things, and messages of these bytes.
fn is_as_wanted(heard: &Heard, told: &[Told], bytes: &[u8]) -> bool {
    heard.told.as_slice() == told && heard.bytes.as_slice() == bytes
}

/// Whether the decoder gives that for the stream, cut in two.
fn tells_cut(alloc: Global, parts: (&[u8], &[u8]), told: &[Told], bytes: &[u8]) -> bool {
    let mut decoder = Decoder::new(alloc);
    let mut heard = Heard::new(alloc);
    let is_heard = hears(alloc, &mut decoder, &mut heard, parts.0)
        && hears(alloc, &mut decoder, &mut heard, parts.1)
        && is_as_wanted(&heard, told, bytes);
    drop(heard);
    drop(decoder);
    is_heard
}

/// Whether the decoder gives that for the stream, cut after each of its first 32 bytes.
fn tells_each_cut(alloc: Global, stream: &[u8], told: &[Told], bytes: &[u8]) -> bool {
    for cut in 0..33usize {
        if cut <= stream.len() && !tells_cut(alloc, (&stream[..cut], &stream[cut..]), told, bytes) {
            return false;
        }
    }
    true
}

/// Feeds a stream byte by byte.
fn hears_bytes(alloc: Global, decoder: &mut Decoder, heard: &mut Heard, stream: &[u8]) -> bool {
    for byte in stream {
        if !hears(alloc, decoder, heard, &[*byte]) {
            return false;
        }
    }
    true
}

/// Whether the decoder gives that for the stream, byte by byte.
fn tells_bytes(alloc: Global, stream: &[u8], told: &[Told], bytes: &[u8]) -> bool {
    let mut decoder = Decoder::new(alloc);
    let mut heard = Heard::new(alloc);
    let is_heard = hears_bytes(alloc, &mut decoder, &mut heard, stream)
        && is_as_wanted(&heard, told, bytes);
    drop(heard);
    drop(decoder);
    is_heard
}

/// Whether the decoder gives that for the stream under every cut.
fn tells(alloc: Global, stream: &[u8], told: &[Told], bytes: &[u8]) -> bool {
    tells_each_cut(alloc, stream, told, bytes) && tells_bytes(alloc, stream, told, bytes)
}

/// The header of a message without control code and parameter, with a payload of this many bytes.
fn header(kind: u8, length: u64) -> [u8; 16] {
    let mut bytes = [0; 16];
    bytes[0] = b'H';
    bytes[1] = b'S';
    bytes[2] = kind;
    bytes[8..].copy_from_slice(&length.to_be_bytes());
    bytes
}

/// A message's header and payload.
fn stream_of(alloc: Global, kind: u8, payload: &[u8]) -> Result<Vec<u8>, AllocError> {
    let mut stream = Vec::new(alloc);
    stream.extend_from_slice(&header(kind, payload.len() as u64))?;
    stream.extend_from_slice(payload)?;
    Ok(stream)
}

#[test]
fn a_payload_without_end_is_refused_once(rt: HostRuntime) -> Result<(), Fail> {
    let mut stream = Vec::new(rt.alloc());
    stream.extend_from_slice(&header(6, u64::MAX))?;
    stream.extend_from_slice(&[b'H'; 64])?;
    let told = [Told::Fault(WireFault::TooLarge(Kind::Data))];
    assert!(rt; tells(rt.alloc(), stream.as_slice(), &told, b""));
    Ok(())
}

#[test]
fn unknown_types_are_passed_on(rt: HostRuntime) -> Result<(), Fail> {
    let mut stream = Vec::new(rt.alloc());
    for kind in [26, 127, 128, 255, 12] {
        stream.extend_from_slice(&header(kind, 0))?;
    }
    let told = [
        Told::Whole(Kind::Undefined(26)),
        Told::Whole(Kind::Undefined(127)),
        Told::Whole(Kind::Vendor(128)),
        Told::Whole(Kind::Vendor(255)),
        Told::Whole(Kind::Trigger),
    ];
    assert!(rt; tells(rt.alloc(), stream.as_slice(), &told, stream.as_slice()));
    Ok(())
}

/// Whether a message with this payload comes as it is.
fn passes_on(alloc: Global, kind: Kind, payload: &[u8]) -> Result<bool, AllocError> {
    let stream = stream_of(alloc, kind.number(), payload)?;
    Ok(tells(
        alloc,
        stream.as_slice(),
        &[Told::Whole(kind)],
        stream.as_slice(),
    ))
}

#[test]
fn odd_sub_addresses_are_passed_on(rt: HostRuntime) -> Result<(), Fail> {
    assert!(rt; passes_on(rt.alloc(), Kind::Initialize, &[b'h'; 257])?);
    assert!(rt; passes_on(rt.alloc(), Kind::Initialize, b"hislip\x80")?);
    Ok(())
}

/// Whether this is why the text begins with no unit.
fn is_refused(text: &[u8], error: ScpiError) -> bool {
    match next_unit(text, &mut Elements::new()) {
        Ok(_) => false,
        Err(why) => why == error,
    }
}

#[test]
fn a_block_without_its_digits_is_passed_on_and_refused(rt: HostRuntime) -> Result<(), Fail> {
    assert!(rt; passes_on(rt.alloc(), Kind::DataEnd, b"*DMC \"A\",#9")?);
    assert!(rt; is_refused(b"*DMC \"A\",#9", ScpiError::InvalidBlockData));
    Ok(())
}
