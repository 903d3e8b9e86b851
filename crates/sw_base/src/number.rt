//! Numbers as text: their form, their refusals, and their value rounded to a whole number.

ghost use Rattle.std.specs.Prelude.{◌≡◌, ℕ, ◌+◌, ◌*◌, ◌^◌, ◌<◌, ◌≤◌, ◌↔◌, ◌++◌, ◌∷◌, ◌⊎◌, [], List, length, pos, neg_ℤ};
ghost use Rattle.std.specs.Prelude.{◌-ℤ◌, unsigned_abs, Bool, not, IsTrue, IfSome, IfNone, IfOk, IfErr, nat_le};
ghost use Rattle.std.specs.Prelude.{if◌then◌else◌};
ghost use Rattle.sw_base.specs.Text.{is_digit, is_letter, AllPass, StartsOff, Spans};
ghost use Rattle.sw_base.specs.declared.error.ScpiError.{ScpiError as Fault};
ghost use Rattle.sw_base.specs.Number.{Written, value_after, value_of, is_negative, unsigned, with_sign, IsFraction};
ghost use Rattle.sw_base.specs.Number.{IsMantissa, IsExponent, IsExponentTail, is_end, IsEnded, IsNumber, from_first};
ghost use Rattle.sw_base.specs.Number.{significant, IsInLimits, IsRefusedNumber, magnitude, size_of, rounded, in_range};
ghost use Rattle.sw_base.specs.Number.{tens_of, in_u64};

use crate::bytes::{blanks, digits, is_blank, letters, strip_prefix};
use crate::error::ScpiError;
use std::marker::Model;

/// The most digits that a mantissa may have from the first that isn't 0 (IEEE 488.2, 7.7.2.4.1).
const MOST_DIGITS: usize = 255;

/// The largest exponent, of either sign (IEEE 488.2, 7.7.2.4.1).
const LARGEST_EXPONENT: u32 = 32_000;

/// A unit of time, as a suffix names it: seconds, milliseconds, microseconds.
#[derive(Clone, Copy, Debug, PartialEq, Eq)]
pub enum Unit {
    S,
    Ms,
    Us,
}

impl Unit {
    /// How many microseconds it has, as a power of ten.
    fn tens(self) -> u8
        ensures value { result ≡ tens_of self }
        ensures range { result ≤ 6 }
    {
        match self {
            Unit::S => 6,
            Unit::Ms => 3,
            Unit::Us => 0,
        }
    }
}

/// A decimal number as a text writes it (IEEE 488.2, 7.7.2): a sign, digits with or without a point, an exponent.
///
/// It borrows its digits from the text, and takes no memory. Contracts see it as `Written`.
#[derive(Debug, Drop)]
pub struct Nrf<'a> {
    negative: bool,
    whole: &'a [u8],
    fraction: &'a [u8],
    exponent: i32,
}

impl<'a> Model for Nrf<'a> {
    ghost Value = { Written };

    ghost view = { λ n. record {
      negative = n.negative;
      whole = n.whole.now;
      fraction = n.fraction.now;
      exponent = n.exponent;
    } };

    ghost invariant = { λ n. AllPass is_digit n.whole.now × AllPass is_digit n.fraction.now
        × (unsigned_abs n.exponent ≤ 32000) };
}

impl<'a> Nrf<'a> {
    /// The number at the front of the text, and the unread rest: a suffix, with white space before it if there is any.
    ///
    /// White space, a comma or a semicolon ends a number; only letters may follow it directly. Errors, in this order:
    /// InvalidCharacterInNumber where the text begins with no number, TooManyDigits, ExponentTooLarge.
    pub fn read(text: &'a [u8]) -> Result<(Nrf<'a>, &'a [u8]), ScpiError>
        ensures number { IfOk result (λ x. IsNumber text.now x.0 x.1.now) }
        ensures within { IfOk result (λ x. IsInLimits x.0) }
        ensures refused { IfErr result (IsRefusedNumber text.now) }
    {
        let Some((mut number, after)) = read_mantissa(text) else {
            return Err(ScpiError::InvalidCharacterInNumber);
        };
        let (negative, digits, rest) = tail(after);
        if !is_ended(rest) {
            return Err(ScpiError::InvalidCharacterInNumber);
        }
        if number.significant() > MOST_DIGITS {
            return Err(ScpiError::TooManyDigits);
        }
        let Some(size) = exponent_size(digits) else {
            return Err(ScpiError::ExponentTooLarge);
        };
        number.exponent = with_sign(negative, u64::from(size)) as i32;
        Ok((number, rest))
    }

    /// How many digits the mantissa has from the first that isn't 0.
    fn significant(&self) -> usize
        ensures { result ≡ significant self.now }
    {
        let whole = from_first(self.whole);
        if whole.is_empty() {
            from_first(self.fraction).len()
        } else {
            whole.len() + self.fraction.len()
        }
    }

    /// The nearest whole number, a half rounded away from zero, where it is from `low` to `high`; else DataOutOfRange.
    pub fn whole(&self, low: i64, high: i64) -> Result<i64, ScpiError>
        ensures { result ≡ in_range low high (rounded self.now 0) }
    {
        match self.size(0) {
            Some(size) => in_range(with_sign(self.negative, size), low, high),
            None => Err(ScpiError::DataOutOfRange),
        }
    }

    /// The nearest whole number of microseconds, a half rounded away from zero, where it is from 0 to 2^64 - 1; else
    /// DataOutOfRange.
    pub fn micros(&self, unit: Unit) -> Result<u64, ScpiError>
        ensures { result ≡ in_u64 (rounded self.now (tens_of unit)) }
    {
        match self.size(unit.tens()) {
            Some(size) if !self.negative || size == 0 => Ok(size),
            _ => Err(ScpiError::DataOutOfRange),
        }
    }

    /// The nearest whole number of billionths, a half rounded away from zero, where an `i64` has it; else
    /// DataOutOfRange.
    pub fn billionths(&self) -> Result<i64, ScpiError>
        ensures { result ≡ in_range i64.MIN i64.MAX (rounded self.now 9) }
    {
        match self.size(9) {
            Some(size) => in_range(with_sign(self.negative, size), i64::MIN, i64::MAX),
            None => Err(ScpiError::DataOutOfRange),
        }
    }

    /// The number times 10^tens without its sign, rounded, unless it is 2^64 or more.
    fn size(&self, tens: u8) -> Option<u64>
        requires { tens ≤ 9 }
        ensures some { IfSome result (λ n. n ≡ size_of self.now tens) }
        ensures none { IfNone result (2 ^ 64 ≤ size_of self.now tens) }
    {
        let point = self.exponent + i32::from(tens);
        let places = point.unsigned_abs() as usize;
        if point < 0 {
            moved_left(self.whole, self.fraction, places)
        } else {
            moved_right(self.whole, self.fraction, places)
        }
    }
}

/// A law: a text is one number with one rest, or has one refusal, and not both.
pub fn one_reading()
    ensures number { (text : List ℕ) (n m : Written) (rest other : List ℕ) → IsNumber text n rest
        → IsNumber text m other → (n ≡ m) × (rest ≡ other) }
    ensures refusal { (text : List ℕ) (e f : Fault) → IsRefusedNumber text e → IsRefusedNumber text f → e ≡ f }
    ensures either { (text : List ℕ) (n : Written) (rest : List ℕ) (e : Fault) → IsNumber text n rest → IsInLimits n
        → IsRefusedNumber text e → ⊥ }
{}

/// Whether the first byte is a minus, and what follows the sign, if there is one.
fn sign(text: &[u8]) -> (bool, &[u8])
    ensures negative { result.0 ≡ is_negative text.now }
    ensures rest { result.1.now ≡ unsigned text.now }
{
    match strip_prefix(text, b'-') {
        Some(rest) => (true, rest),
        None => (false, strip_prefix(text, b'+').unwrap_or(text)),
    }
}

/// The digits behind a point, if the text begins with one, and what follows them.
fn fraction(text: &[u8]) -> (&[u8], &[u8])
    ensures { IsFraction text.now result.0.now result.1.now }
{
    match strip_prefix(text, b'.') {
        Some(after) => digits(after),
        None => (&[], text),
    }
}

/// The mantissa at the front, if there is one, as a number without exponent; and what follows it.
pub fn read_mantissa(text: &[u8]) -> Option<(Nrf<'_>, &[u8])>
    ensures found { IfSome result (λ x. IsMantissa text.now x.0 x.1.now × (x.0.exponent ≡ pos 0)) }
    ensures none { IfNone result ((n : Written) (rest : List ℕ) → IsMantissa text.now n rest → ⊥) }
{
    let (negative, unsigned) = sign(text);
    let (whole, pointed) = digits(unsigned);
    let (fraction, rest) = fraction(pointed);
    if whole.is_empty() && fraction.is_empty() {
        return None;
    }
    Some((
        Nrf {
            negative,
            whole,
            fraction,
            exponent: 0,
        },
        rest,
    ))
}

/// What follows an `E` or `e`, where the text begins with one.
fn strip_mark(text: &[u8]) -> Option<&[u8]>
    ensures found { IfSome result (λ after. (text.now ≡ 69 ∷ after.now) ⊎ (text.now ≡ 101 ∷ after.now)) }
    ensures none { IfNone result ((after : List ℕ) → (text.now ≡ 69 ∷ after) ⊎ (text.now ≡ 101 ∷ after) → ⊥) }
{
    match strip_prefix(text, b'E') {
        Some(after) => Some(after),
        None => strip_prefix(text, b'e'),
    }
}

/// An exponent as a text writes it: its sign, its digits, and whether white space is round its `E`.
#[derive(Clone, Copy, Debug)]
pub struct Exponent<'a> {
    pub negative: bool,
    pub digits: &'a [u8],
    pub apart: bool,
}

/// The exponent at the front, if there is one, and what follows it.
pub fn read_exponent(text: &[u8]) -> Option<(Exponent<'_>, &[u8])>
    ensures found { IfSome result (λ x. (e : IsExponent text.now x.0.negative x.0.digits.now x.1.now)
        × (IsTrue x.0.apart ↔ (0 < length e.before + length e.gap))) }
    ensures none { IfNone result ((negative : Bool) (digits rest : List ℕ) → IsExponent text.now negative digits rest
        → ⊥) }
{
    let (before, marked) = blanks(text);
    let after = strip_mark(marked)?;
    let (gap, signed) = blanks(after);
    let (negative, unsigned) = sign(signed);
    let (digits, rest) = digits(unsigned);
    if digits.is_empty() {
        return None;
    }
    let apart = before.len() + gap.len() > 0;
    Some((
        Exponent {
            negative,
            digits,
            apart,
        },
        rest,
    ))
}

/// The exponent at the front, or none of no digits; and what follows it.
fn tail(text: &[u8]) -> (bool, &[u8], &[u8])
    ensures tail { IsExponentTail text.now (with_sign result.0 (value_of result.1.now)) result.2.now }
    ensures digits { AllPass is_digit result.1.now }
{
    match read_exponent(text) {
        Some((found, rest)) => (found.negative, found.digits, rest),
        None => (false, &[], text),
    }
}

/// Whether the text has only letters up to white space, a comma, a semicolon or the end.
fn is_ended(text: &[u8]) -> bool
    ensures { IsTrue result ↔ IsEnded text.now }
{
    let (_, rest) = letters(text);
    is_at_end(rest)
}

/// Whether the text is empty or begins with white space, a comma or a semicolon.
fn is_at_end(text: &[u8]) -> bool
    ensures { IsTrue result ↔ StartsOff (λ b. not (is_end b)) text.now }
{
    match text {
        [first, _rest @ ..] => is_blank(*first) || *first == b',' || *first == b';',
        [] => true,
    }
}

/// The digits from the first that isn't 0.
fn from_first(digits: &[u8]) -> &[u8]
    ensures { result.now ≡ from_first digits.now }
{
    let mut n = 0;
    while n < digits.len() && digits[n] == b'0' {
        n += 1;
    }
    &digits[n..]
}

fn with_sign(negative: bool, size: u64) -> i128
    ensures value { result ≡ with_sign negative size }
{
    if negative {
        -i128::from(size)
    } else {
        i128::from(size)
    }
}

fn in_range(value: i128, low: i64, high: i64) -> Result<i64, ScpiError>
    ensures { result ≡ in_range low high value }
{
    if i128::from(low) <= value && value <= i128::from(high) {
        Ok(value as i64)
    } else {
        Err(ScpiError::DataOutOfRange)
    }
}

/// The number that the digits write where they follow those of `start`, unless it is 2^64 or more.
fn append(start: u64, digits: &[u8]) -> Option<u64>
    requires { AllPass is_digit digits.now }
    ensures some { IfSome result (λ n. n ≡ value_after start digits.now) }
    ensures none { IfNone result (2 ^ 64 ≤ value_after start digits.now) }
{
    let mut n = start;
    for digit in digits {
        n = n.checked_mul(10)?.checked_add(u64::from(*digit - b'0'))?;
    }
    Some(n)
}

/// `n` times a power of ten, unless it is 2^64 or more.
fn with_zeros(n: u64, zeros: usize) -> Option<u64>
    ensures some { IfSome result (λ m. m ≡ n * 10 ^ zeros) }
    ensures none { IfNone result (2 ^ 64 ≤ n * 10 ^ zeros) }
{
    if n == 0 {
        return Some(0);
    }
    let mut product = n;
    for _ in 0..zeros {
        product = product.checked_mul(10)?;
    }
    Some(product)
}

/// The number that two runs of digits write together, and one more where the digit behind them is 5 or above, unless
/// it is 2^64 or more.
fn nearest(first: &[u8], second: &[u8], next: u8) -> Option<u64>
    requires first { AllPass is_digit first.now }
    requires second { AllPass is_digit second.now }
    ensures some { IfSome result (λ n. n ≡ value_of (first.now ++ second.now) + (if nat_le 53 next then 1 else 0)) }
    ensures none { IfNone result (2 ^ 64 ≤ value_of (first.now ++ second.now) + (if nat_le 53 next then 1 else 0)) }
{
    append(append(0, first)?, second)?.checked_add(u64::from(next >= b'5'))
}

/// The number that a run of digits writes, unless it is above the largest exponent.
fn exponent_size(digits: &[u8]) -> Option<u32>
    requires { AllPass is_digit digits.now }
    ensures some { IfSome result (λ n. (n ≡ value_of digits.now) × (n ≤ 32000)) }
    ensures none { IfNone result (32000 < value_of digits.now) }
{
    let mut n = 0u32;
    for digit in digits {
        n = n * 10 + u32::from(*digit - b'0');
        if n > LARGEST_EXPONENT {
            return None;
        }
    }
    Some(n)
}

/// The number of two runs of digits with the point moved from between them by `places` to the right, rounded, unless it
/// is 2^64 or more.
fn moved_right(whole: &[u8], fraction: &[u8], places: usize) -> Option<u64>
    requires whole { AllPass is_digit whole.now }
    requires fraction { AllPass is_digit fraction.now }
    ensures some { IfSome result
        (λ n. n ≡ magnitude (value_of (whole.now ++ fraction.now)) (pos places -ℤ pos (length fraction.now))) }
    ensures none { IfNone result
        (2 ^ 64 ≤ magnitude (value_of (whole.now ++ fraction.now)) (pos places -ℤ pos (length fraction.now))) }
{
    if places < fraction.len() {
        nearest(whole, &fraction[..places], fraction[places])
    } else {
        let n = append(append(0, whole)?, fraction)?;
        with_zeros(n, places - fraction.len())
    }
}

/// The number of two runs of digits with the point moved from between them by `places` to the left, rounded, unless it
/// is 2^64 or more.
fn moved_left(whole: &[u8], fraction: &[u8], places: usize) -> Option<u64>
    requires places { 0 < places }
    requires whole { AllPass is_digit whole.now }
    requires fraction { AllPass is_digit fraction.now }
    ensures some { IfSome result
        (λ n. n ≡ magnitude (value_of (whole.now ++ fraction.now)) (neg_ℤ (pos places) -ℤ pos (length fraction.now))) }
    ensures none { IfNone result
        (2 ^ 64 ≤ magnitude (value_of (whole.now ++ fraction.now)) (neg_ℤ (pos places) -ℤ pos (length fraction.now))) }
{
    if whole.len() < places {
        return Some(0);
    }
    let point = whole.len() - places;
    nearest(&whole[..point], &[], whole[point])
}
