//! Messages to bytes.

ghost use Rattle.std.specs.Prelude.{◌≡◌, IfOk};
ghost use Rattle.sw_hislip.specs.Wire.{wire};

use crate::header::HEADER;
use crate::message::Message;
use std::alloc::{AllocError, Global};

/// The wire form of a message: its header of 16 bytes, and its payload. The only error is a lack of memory.
pub fn encode(alloc: Global, message: &Message) -> Result<Vec<u8>, AllocError>
    ensures { IfOk result (λ bytes. bytes.items ≡ wire message.now) }
{
    let mut bytes = Vec::new(alloc);
    encode_into(message, &mut bytes)?;
    Ok(bytes)
}

/// Leaves the wire form of a message in `bytes`, in place of what was there, and uses its memory again. Only a lack of
/// memory is an error.
pub fn encode_into(message: &Message, bytes: &mut Vec<u8>) -> Result<(), AllocError>
    ensures { IfOk result (λ _. bytes.new.items ≡ wire message.now) }
{
    let payload = message.payload.as_slice();
    bytes.clear();
    bytes.reserve(payload.len().saturating_add(HEADER))?;
    bytes.extend_from_slice(&[b'H', b'S', message.kind.number(), message.control])?;
    bytes.extend_from_slice(&message.parameter.to_be_bytes())?;
    bytes.extend_from_slice(&(payload.len() as u64).to_be_bytes())?;
    bytes.extend_from_slice(payload)?;
    Ok(())
}
