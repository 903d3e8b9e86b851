//! What data mean: numbers with their suffixes, and words.

ghost use Rattle.std.specs.Prelude.{◌≡◌, ◌≤◌, ◌<◌, true, [], ℕ, List, IsTrue, ◌↔◌, IfOk, map, length};
ghost use Rattle.std.specs.Char.{to_ascii_uppercase};
ghost use Rattle.std.specs.Result.{result_map_both};
ghost use Rattle.sw_base.specs.Text.{is_blank, is_digit, is_letter, AllPass, Spans};
ghost use Rattle.sw_base.specs.Number.{Written, rounded};
ghost use Rattle.sw_lex.specs.Values.{IsQuantity, ReadsQuantity, natural_in, digits_written, whole_of};
ghost use Rattle.sw_lex.specs.Values.{of_switch, switched_by, macros_of};
ghost use Rattle.sw_lex.specs.Values.{time_unit_of, time_of, source_of, switch_of, source_meant};
ghost use Rattle.sw_lex.specs.Values.{switch_meant, all_digits, unnumbered};

use crate::choice::{greatest, least, least_micros, of_whole};
use crate::command::{Command, MacroCommand, Setting, Time};
use crate::elements::value;
use crate::headers::is_form;
use crate::table::{Numeric, Switch};
use sw_base::{
    LONGEST_DELAY, LayerName, Nrf, ScpiError, Source, Unit, blanks, digits, letters, read_exponent,
    read_mantissa,
};

/// Whether the text has only letters, after white space.
fn is_suffix(text: &[u8]) -> bool
    ensures { IsTrue result ↔ ((gap suffix : List ℕ) × Spans is_blank text.now gap suffix × AllPass is_letter suffix) }
{
    let (_, suffix) = blanks(text);
    let (_, rest) = letters(suffix);
    rest.is_empty()
}

/// Whether the text is a number and its suffix.
fn is_quantity(text: &[u8]) -> bool
    ensures { IsTrue result ↔ ((n : Written) × (suffix : List ℕ) × IsQuantity text.now n suffix) }
{
    match read_mantissa(text) {
        None => false,
        Some((_, after)) => match read_exponent(after) {
            None => is_suffix(after),
            Some((_, rest)) => is_suffix(rest),
        },
    }
}

/// The number and the suffix that the text is.
pub fn quantity(text: &[u8]) -> Result<(Nrf<'_>, &[u8]), ScpiError>
    ensures { ReadsQuantity text.now (result_map_both (λ x. (x.0, x.1.now)) (λ e. e) result) }
{
    match Nrf::read(text) {
        Ok((number, rest)) => {
            if is_suffix(rest) {
                let (_, suffix) = blanks(rest);
                Ok((number, suffix))
            } else {
                Err(ScpiError::InvalidCharacterInNumber)
            }
        }
        Err(e) => {
            if is_quantity(text) {
                Err(e)
            } else {
                Err(ScpiError::InvalidCharacterInNumber)
            }
        }
    }
}

/// The nearest whole number without its sign, where it lies in the range.
fn natural(n: &Nrf<'_>, low: u32, high: u32) -> Result<u32, ScpiError>
    ensures value { result ≡ natural_in low high (rounded n.now 0) }
    ensures range { IfOk result (λ m. m ≤ high) }
{
    let value = n.whole(i64::from(low), i64::from(high))?;
    Ok(value.unsigned_abs() as u32)
}

/// The command with this number, which takes no suffix.
pub fn whole_of(ask: Numeric, number: u8, n: &Nrf<'_>, suffix: &[u8]) -> Result<Command, ScpiError>
    ensures { result ≡ whole_of ask number n.now suffix.now }
{
    match suffix {
        [] => Ok(of_whole(ask, number, natural(n, least(ask), greatest(ask))?)),
        _ => Err(ScpiError::SuffixNotAllowed),
    }
}

/// Whether the text is digits alone, at most nine.
pub fn is_plain(text: &[u8]) -> bool
    ensures { result ≡ true → AllPass is_digit text.now × (0 < length text.now) × (length text.now ≤ 9) }
{
    let (_, rest) = digits(text);
    rest.is_empty() && !text.is_empty() && text.len() <= 9
}

/// The command with the number that these digits write, at most nine.
pub fn plain_of(ask: Numeric, number: u8, digits: &[u8]) -> Result<Command, ScpiError>
    requires numeric { AllPass is_digit digits.now }
    requires few { length digits.now ≤ 9 }
    ensures { result ≡ whole_of ask number (digits_written digits.now) [] }
{
    let n = value(digits);
    if n < least(ask) as usize || n > greatest(ask) as usize {
        return Err(ScpiError::DataOutOfRange);
    }
    Ok(of_whole(ask, number, n as u32))
}

/// The command that sets a switch.
fn of_switch(ask: Switch, on: bool) -> Command
    ensures { result ≡ of_switch ask on }
{
    match ask {
        Switch::Continuous => Command::Continuous(on),
        Switch::Programmed => Command::Set(Setting::Programmed(on)),
    }
}

/// A switch's command with this number: 0 is OFF, any other ON.
pub fn switched_by(ask: Switch, n: &Nrf<'_>, suffix: &[u8]) -> Result<Command, ScpiError>
    ensures { result ≡ switched_by ask n.now suffix.now }
{
    match suffix {
        [] => match n.whole(0, 0) {
            Err(_) => Ok(of_switch(ask, true)),
            Ok(_) => Ok(of_switch(ask, false)),
        },
        _ => Err(ScpiError::SuffixNotAllowed),
    }
}

/// `*EMC` with this number.
pub fn macros_of(n: &Nrf<'_>, suffix: &[u8]) -> Result<Command, ScpiError>
    ensures { result ≡ macros_of n.now suffix.now }
{
    match suffix {
        [] => {
            let on = n.whole(-32_767, 32_767)?.unsigned_abs() > 0;
            Ok(Command::Macro(MacroCommand::Enable(on)))
        }
        _ => Err(ScpiError::SuffixNotAllowed),
    }
}

/// The unit of time that a suffix names.
fn unit_of(suffix: &[u8]) -> Option<Unit>
    ensures { result ≡ time_unit_of (map to_ascii_uppercase suffix.now) }
{
    if is_form(suffix, b"") {
        Some(Unit::S)
    } else if is_form(suffix, b"S") {
        Some(Unit::S)
    } else if is_form(suffix, b"MS") {
        Some(Unit::Ms)
    } else if is_form(suffix, b"US") {
        Some(Unit::Us)
    } else {
        None
    }
}

/// A time of a layer, of this number and suffix.
pub fn time_of(
    time: Time,
    layer: LayerName,
    n: &Nrf<'_>,
    suffix: &[u8],
) -> Result<Command, ScpiError>
    ensures { result ≡ time_of time layer n.now suffix.now }
{
    match unit_of(suffix) {
        None => Err(ScpiError::InvalidSuffix),
        Some(unit) => match n.micros(unit) {
            Err(e) => Err(e),
            Ok(micros) => {
                if micros >= least_micros(time) && micros <= LONGEST_DELAY {
                    Ok(Command::Set(Setting::Time(time, layer, micros)))
                } else {
                    Err(ScpiError::DataOutOfRange)
                }
            }
        },
    }
}

fn source_of(text: &[u8]) -> Option<Source>
    ensures { result ≡ source_of (map to_ascii_uppercase text.now) }
{
    if is_form(text, b"IMMediate") {
        Some(Source::Immediate)
    } else if is_form(text, b"BUS") {
        Some(Source::Bus)
    } else if is_form(text, b"EXTernal") {
        Some(Source::External)
    } else if is_form(text, b"HOLD") {
        Some(Source::Hold)
    } else if is_form(text, b"TIMer") {
        Some(Source::Timer)
    } else {
        None
    }
}

fn switch_of(text: &[u8]) -> Option<bool>
    ensures { result ≡ switch_of (map to_ascii_uppercase text.now) }
{
    if is_form(text, b"ON") {
        Some(true)
    } else if is_form(text, b"OFF") {
        Some(false)
    } else {
        None
    }
}

/// A layer's source of this name.
pub fn source_meant(layer: LayerName, text: &[u8]) -> Result<Command, ScpiError>
    ensures { result ≡ source_meant layer text.now }
{
    match source_of(text) {
        Some(source) => Ok(Command::Set(Setting::Source(layer, source))),
        None => match switch_of(text) {
            Some(_) => Err(ScpiError::IllegalParameterValue),
            None => Err(ScpiError::InvalidCharacterData),
        },
    }
}

/// A switch's command with this word.
pub fn switch_meant(ask: Switch, text: &[u8]) -> Result<Command, ScpiError>
    ensures { result ≡ switch_meant ask text.now }
{
    match switch_of(text) {
        Some(on) => Ok(of_switch(ask, on)),
        None => match source_of(text) {
            Some(_) => Err(ScpiError::IllegalParameterValue),
            None => Err(ScpiError::InvalidCharacterData),
        },
    }
}

/// Whether all bytes are digits.
fn all_digits(text: &[u8]) -> bool
    ensures { result ≡ all_digits text.now }
{
    let (_, rest) = digits(text);
    rest.is_empty()
}

/// `LAYer` without the number behind it; any other word stays.
pub fn unnumbered(word: &[u8]) -> &[u8]
    ensures { result.now ≡ unnumbered word.now }
{
    let (front, rest) = letters(word);
    if is_form(front, b"LAYer") {
        if all_digits(rest) { front } else { word }
    } else {
        word
    }
}
