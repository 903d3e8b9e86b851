//! Responses to the client: messages that only report something.

ghost use Rattle.std.specs.Prelude.{◌≡◌, IfOk};
ghost use Rattle.sw_channels.specs.EngineMessages.{plain, size_told, size_response, tells_delivery, status_byte};
ghost use Rattle.sw_channels.specs.EngineMessages.{lock_info};

use std::alloc::{AllocError, Global};
use sw_base::Sequence;
use sw_hislip::{Kind, LONGEST_PAYLOAD, Message};

/// MAV, bit 4 of the status byte (IEEE 488.2, 11.2.1.2).
const MESSAGE_AVAILABLE: u8 = 1 << 4;

/// RQS, bit 6 of the status byte (IEEE 488.2, 11.2.2).
const REQUESTS_SERVICE: u8 = 1 << 6;

/// A message without a payload.
pub fn plain(alloc: Global, kind: Kind, control: u8, parameter: u32) -> Message
    ensures { result ≡ plain kind control parameter }
{
    Message {
        kind,
        control,
        parameter,
        payload: Sequence::new(Vec::new(alloc)),
    }
}

/// The size that a client sends in a payload: its first eight bytes, or a shorter number where there are fewer.
pub fn size_told(payload: &[u8]) -> u64
    ensures { result ≡ size_told payload.now }
{
    let count = payload.len().min(8);
    let mut bytes = [0; 8];
    bytes[8 - count..].copy_from_slice(&payload[..count]);
    u64::from_be_bytes(bytes)
}

/// Says the size of the payloads that the instrument takes.
pub fn size_response(alloc: Global) -> Result<Message, AllocError>
    ensures { IfOk result (λ m. m ≡ size_response) }
{
    let payload = Vec::from_slice(alloc, &LONGEST_PAYLOAD.to_be_bytes())?;
    Ok(Message {
        kind: Kind::AsyncMaximumMessageSizeResponse,
        control: 0,
        parameter: 0,
        payload: Sequence::new(payload),
    })
}

/// Whether a control code says that the client has taken the last answer whole.
pub fn tells_delivery(control: u8) -> bool
    ensures { result ≡ tells_delivery control }
{
    control % 2 == 1
}

/// A status byte with what the session adds to it.
pub fn status_byte(byte: u8, mav: bool, rqs: bool) -> u8
    ensures { result ≡ status_byte byte mav rqs }
{
    let available = if mav { MESSAGE_AVAILABLE } else { 0 };
    let requests = if rqs { REQUESTS_SERVICE } else { 0 };
    byte | available | requests
}

/// Says whether a session holds the exclusive lock, and how many sessions hold a lock.
pub fn lock_info(alloc: Global, exclusive: bool, holders: u8) -> Message
    ensures { result ≡ lock_info exclusive holders }
{
    let control = if exclusive { 1 } else { 0 };
    plain(
        alloc,
        Kind::AsyncLockInfoResponse,
        control,
        u32::from(holders),
    )
}
