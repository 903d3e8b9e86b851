//! Readings as meters write them.

ghost use Rattle.std.specs.Prelude.{◌≡◌, ◌⊎◌, ◌↔◌, IsTrue, IfOk, IfErr, OnOk, pos, codes};
ghost use Rattle.sw_base.specs.Number.{IsRefusedNumber, rounded};
ghost use Rattle.sw_base.specs.declared.error.ScpiError.{ScpiError};
ghost use Rattle.sw_drivers.specs.Readings.{IsNan, IsReading};
ghost use Rattle.sw_drivers.specs.declared.fault.DriverFault.{DriverFault as Fault};

use crate::fault::DriverFault;
use sw_base::{Nrf, Reading, read_exponent, read_mantissa};

/// The reading at the front of an answer, in volts, to the nearest nanovolt, a half away from zero. One past an `i64`
/// of nanovolts, as `+9.9E+37`, is an overload. Garbled where the answer begins with no number, or with the one that
/// says that there is none (9.91E37; SCPI-1999, 7.2.1.5).
pub fn reading_of(answer: &[u8]) -> Result<Reading, DriverFault>
    ensures reading { IfOk result (λ reading. IsReading answer.now reading) }
    ensures some { OnOk result (IsNan answer.now → ⊥) }
    ensures garbled { IfErr result (λ fault. (fault ≡ Fault.Garbled)
        × (IsNan answer.now ⊎ ((cause : ScpiError) × IsRefusedNumber answer.now cause))) }
{
    if is_nan(answer) {
        return Err(DriverFault::Garbled);
    }
    let Ok((number, _)) = Nrf::read(answer) else {
        return Err(DriverFault::Garbled);
    };
    match number.billionths() {
        Ok(nanovolts) => Ok(Reading::Volts(nanovolts)),
        Err(_) => Ok(Reading::Overload),
    }
}

/// Whether the text begins with 9.91E37, the exponent of two or three digits.
fn is_nan(text: &[u8]) -> bool
    ensures { IsTrue result ↔ IsNan text.now }
{
    let Some((mantissa, rest)) = read_mantissa(text) else {
        return false;
    };
    let Some((exponent, _)) = read_exponent(rest) else {
        return false;
    };
    if exponent.negative || !is_size(&mantissa) {
        return false;
    }
    is_tens(exponent.digits)
}

/// Whether the number is 9.91.
fn is_size(number: &Nrf<'_>) -> bool
    ensures { IsTrue result ↔ (rounded number.now 9 ≡ pos 9910000000) }
{
    match number.billionths() {
        Ok(size) => size == 9_910_000_000,
        Err(_) => false,
    }
}

/// Whether these digits are 37.
fn is_tens(digits: &[u8]) -> bool
    ensures { IsTrue result ↔ ((digits.now ≡ codes "37") ⊎ (digits.now ≡ codes "037")) }
{
    digits == b"37".as_slice() || digits == b"037".as_slice()
}
