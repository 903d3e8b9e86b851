//! Headers of messages.

ghost use Rattle.std.specs.Prelude.{◌≡◌, length};
ghost use Rattle.std.specs.Int.{w32, w64, from_be_bytes};
ghost use Rattle.sw_hislip.specs.Pending.{ReadsHeader};

use crate::fault::WireFault;
use crate::kind::Kind;

/// The bytes of a header.
pub const HEADER: usize = 16;

/// A header: what it says of the message, and the length of the payload in bytes (IVI-6.1 HiSLIP, message header).
#[derive(Clone, Copy, Debug, Drop)]
pub struct Header {
    pub kind: Kind,
    pub control: u8,
    pub parameter: u32,
    pub length: u64,
}

/// The header at the front; none where fewer than 16 bytes are there. `BadPrologue` where it doesn't begin with `HS`.
pub fn read_header(bytes: &[u8]) -> Result<Option<Header>, WireFault>
    ensures { ReadsHeader bytes.now result }
{
    if bytes.len() < HEADER {
        return Ok(None);
    }
    if bytes[0] != b'H' || bytes[1] != b'S' {
        return Err(WireFault::BadPrologue);
    }
    let (_, numbers) = bytes.split_at(4);
    let (parameter, numbers) = numbers.split_at(4);
    let (length, _) = numbers.split_at(8);
    Ok(Some(Header {
        kind: Kind::of(bytes[2]),
        control: bytes[3],
        parameter: number_of_4(parameter),
        length: number_of_8(length),
    }))
}

/// The number in four bytes.
fn number_of_4(bytes: &[u8]) -> u32
    requires { length bytes.now ≡ 4 }
    ensures { result ≡ from_be_bytes w32 bytes.now }
{
    u32::from_be_bytes([bytes[0], bytes[1], bytes[2], bytes[3]])
}

/// The number in eight bytes.
fn number_of_8(bytes: &[u8]) -> u64
    requires { length bytes.now ≡ 8 }
    ensures { result ≡ from_be_bytes w64 bytes.now }
{
    u64::from_be_bytes([
        bytes[0], bytes[1], bytes[2], bytes[3], bytes[4], bytes[5], bytes[6], bytes[7],
    ])
}
