//! Readings and numbers as text.

ghost use Rattle.std.specs.Prelude.{◌≡◌, ◌+◌, ◌/◌, ◌%◌, ◌<◌, ◌≤◌, ◌∷◌, ◌++◌, length, take, drop, set, decimal};
ghost use Rattle.std.specs.Prelude.{if◌then◌else◌};
ghost use Rattle.std.specs.Fmt.{signed_decimal, sign_text};
ghost use Rattle.sw_base.specs.declared.reading.Reading.{Reading as Shown};
ghost use Rattle.sw_base.specs.Reading.{last_digits, fixed, reading_text, IsBounded};

/// The numbers below 100, each with its two digits.
static PAIRS: [u8; 200] =
    *b"0001020304050607080910111213141516171819202122232425262728293031323334353637383940414243444546474849\
5051525354555657585960616263646566676869707172737475767778798081828384858687888990919293949596979899";

/// What a meter measured.
#[derive(Clone, Copy, Debug, PartialEq, Eq)]
pub enum Reading {
    /// In nanovolts.
    Volts(i64),
    /// Past what the meter can show.
    Overload,
}

/// Writes the reading in volts with nine decimals at the front of the buffer, and returns the length of its text.
///
/// An overload is `9.9E+37` (SCPI-1999, 7.2.1.4).
pub fn print_reading(reading: Reading, buffer: &mut [u8; 32]) -> usize
    ensures text { take result buffer.new ≡ reading_text reading }
    ensures within { result ≤ 32 }
    ensures rest { drop result buffer.new ≡ drop result buffer.old }
{
    match reading {
        Reading::Volts(nanovolts) => {
            let size = nanovolts.unsigned_abs();
            let start = write_minus(nanovolts < 0, buffer);
            write_fixed(size / 1_000_000_000, size, 9, buffer, start)
        }
        Reading::Overload => {
            buffer[..7].copy_from_slice(b"9.9E+37");
            7
        }
    }
}

/// Writes the number at the front of the buffer, and returns the length of its text.
pub fn print_number(n: u64, buffer: &mut [u8; 32]) -> usize
    ensures text { take result buffer.new ≡ decimal n }
    ensures within { result ≤ 32 }
    ensures rest { drop result buffer.new ≡ drop result buffer.old }
{
    write_number(n, buffer, 0)
}

/// Writes the signed number at the front of the buffer, and returns the length of its text.
pub fn print_signed(n: i64, buffer: &mut [u8; 32]) -> usize
    ensures text { take result buffer.new ≡ signed_decimal n }
    ensures within { result ≤ 32 }
    ensures rest { drop result buffer.new ≡ drop result buffer.old }
{
    let start = write_minus(n < 0, buffer);
    write_number(n.unsigned_abs(), buffer, start)
}

/// Writes microseconds as seconds with six decimals at the front of the buffer, and returns the length of the text.
pub fn print_micros(micros: u64, buffer: &mut [u8; 32]) -> usize
    ensures text { take result buffer.new ≡ fixed 6 micros }
    ensures within { result ≤ 32 }
    ensures rest { drop result buffer.new ≡ drop result buffer.old }
{
    write_fixed(micros / 1_000_000, micros, 6, buffer, 0)
}

/// A law: the text of a reading determines it.
pub fn one_text()
    ensures { (r s : Shown) → IsBounded r → IsBounded s → reading_text r ≡ reading_text s → r ≡ s }
{}

/// Writes a minus at the front of the buffer if the number is negative, and returns where its digits begin.
fn write_minus(negative: bool, buffer: &mut [u8; 32]) -> usize
    ensures text { take result buffer.new ≡ sign_text negative }
    ensures rest { drop result buffer.new ≡ drop result buffer.old }
    ensures within { result ≡ (if negative then 1 else 0) }
{
    if negative {
        buffer[0] = b'-';
        1
    } else {
        0
    }
}

/// Writes `whole`, a point and the last `places` digits of `n` from `start` on, and returns where the text ends.
fn write_fixed(whole: u64, n: u64, places: usize, buffer: &mut [u8; 32], start: usize) -> usize
    requires { (start ≤ 1) × (places ≤ 10) }
    ensures text { buffer.new
        ≡ take start buffer.old ++ (decimal whole ++ (46 ∷ last_digits places n)) ++ drop result buffer.old }
    ensures end { result ≡ start + length (decimal whole) + 1 + places }
    ensures within { result ≤ 32 }
{
    let point = write_number(whole, buffer, start);
    buffer[point] = b'.';
    write_digits(n, places, buffer, point + 1);
    point + 1 + places
}

/// Writes the number from `start` on, and returns where its text ends.
fn write_number(n: u64, buffer: &mut [u8; 32], start: usize) -> usize
    requires { start ≤ 1 }
    ensures text { buffer.new ≡ take start buffer.old ++ (decimal n ++ drop result buffer.old) }
    ensures end { result ≡ start + length (decimal n) }
    ensures within { result ≤ start + 20 }
{
    if n < 10 {
        buffer[start] = b'0' + n as u8;
        return start + 1;
    }
    let count = width(n);
    write_digits(n, count, buffer, start);
    start + count
}

/// How many digits the number has.
fn width(n: u64) -> usize
    ensures value { result ≡ length (decimal n) }
    ensures within { (1 ≤ result) × (result ≤ 20) }
{
    let mut left = n;
    let mut count = 1;
    while left >= 10 {
        left /= 10;
        count += 1;
    }
    count
}

/// Writes the last `count` digits of `n` from `start` on, two at a time from the end.
fn write_digits(n: u64, count: usize, buffer: &mut [u8; 32], start: usize)
    requires { start + count ≤ 32 }
    ensures { buffer.new ≡ take start buffer.old ++ (last_digits count n ++ drop (start + count) buffer.old) }
{
    let mut left = n;
    let mut end = start + count;
    for _pair in 0..count / 2 {
        end -= 2;
        write_pair((left % 100) as usize, buffer, end);
        left /= 100;
    }
    if count % 2 == 1 {
        buffer[start] = b'0' + (left % 10) as u8;
    }
}

/// Writes the two digits of a number below 100.
fn write_pair(pair: usize, buffer: &mut [u8; 32], at: usize)
    requires { (pair < 100) × (at + 2 ≤ 32) }
    ensures { buffer.new ≡ set (set buffer.old at (48 + pair / 10)) (at + 1) (48 + pair % 10) }
{
    let from = pair * 2;
    let (tens, ones) = (PAIRS[from], PAIRS[from + 1]);
    buffer[at] = tens;
    buffer[at + 1] = ones;
}
