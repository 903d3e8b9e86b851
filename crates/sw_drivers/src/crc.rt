//! The checksum of Modbus RTU.

ghost use Rattle.std.specs.Prelude.{◌≡◌};
ghost use Rattle.sw_drivers.specs.Crc.{after_bit, after_byte, crc_of};

/// The checksum of these bytes.
pub fn checksum(bytes: &[u8]) -> u16
    ensures { result ≡ crc_of bytes.now }
{
    let mut sum = 0xFFFF;
    for byte in bytes {
        sum = after_byte(sum, *byte);
    }
    sum
}

fn after_byte(sum: u16, byte: u8) -> u16
    ensures { result ≡ after_byte sum byte }
{
    let mixed = sum ^ u16::from(byte);
    let half = after_bit(after_bit(after_bit(after_bit(mixed))));
    after_bit(after_bit(after_bit(after_bit(half))))
}

fn after_bit(sum: u16) -> u16
    ensures { result ≡ after_bit sum }
{
    if sum % 2 == 1 {
        (sum / 2) ^ 0xA001
    } else {
        sum / 2
    }
}
