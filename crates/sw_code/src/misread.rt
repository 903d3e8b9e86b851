//! Why a text lists no code, in plain words, by the word or the part on the line. The crate promises of these texts
//! only that they quote the line.

use crate::code::STEPS;
use crate::fault::{ListError, ListFault};
use crate::version::{Version, listing_version};
use std::alloc::{AllocError, Global};
use sw_base::{CHANNELS, LONGEST_DELAY, TRIGGER_COUNT};

/// The most bytes of a line that are quoted.
const QUOTED: usize = 40;

/// What a part of a step is.
#[derive(Clone, Copy)]
enum Part {
    Layer,
    Counter,
    Count,
    Target,
    Micros,
    Position,
}

/// A step's word, how the step is written, and what its parts are.
struct Form {
    word: &'static [u8],
    written: &'static str,
    parts: &'static [Part],
}

const FORMS: [Form; 9] = [
    Form {
        word: b"set",
        written: "set k n",
        parts: &[Part::Counter, Part::Count],
    },
    Form {
        word: b"wait",
        written: "wait l",
        parts: &[Part::Layer],
    },
    Form {
        word: b"timer",
        written: "timer l u",
        parts: &[Part::Layer, Part::Micros],
    },
    Form {
        word: b"pause",
        written: "pause u",
        parts: &[Part::Micros],
    },
    Form {
        word: b"close",
        written: "close p",
        parts: &[Part::Position],
    },
    Form {
        word: b"open",
        written: "open p",
        parts: &[Part::Position],
    },
    Form {
        word: b"read",
        written: "read",
        parts: &[],
    },
    Form {
        word: b"loop",
        written: "loop k t",
        parts: &[Part::Counter, Part::Target],
    },
    Form {
        word: b"halt",
        written: "halt",
        parts: &[],
    },
];

/// Why a text lists no code, by its first fault: the cause without the line where it is, where there is memory for it.
pub fn explain_fault(alloc: Global, text: &[u8], error: ListError) -> Option<String> {
    let line = error.line;
    let cause = match error.kind {
        ListFault::BadStep if ends_in_return(text, line) =>
            "a line ends with a line feed alone, and here a carriage return stands before it",
        ListFault::BadStep if line == 1 =>
            "a listing begins with `scan` and its version, as `scan 1`, and a line feed",
        ListFault::BadStep if line == 2 =>
            "the second line is `meter`, a space, a slot and a line feed",
        ListFault::BadStep | ListFault::BadNumber => return misread(alloc, text, error),
        ListFault::TooLong => "a listing has at most 8192 steps",
        ListFault::NoMemory => "memory ran out",
    };
    String::from_str(alloc, cause).ok()
}

/// What is wrong with this line, by its text.
fn misread(alloc: Global, text: &[u8], error: ListError) -> Option<String> {
    let line = error.line;
    let version = listing_version(text)?;
    let before = usize::try_from(line).ok()?.checked_sub(1)?;
    let mut lines = text.split(|byte| *byte == b'\n');
    let found = lines.nth(before)?;
    if lines.next().is_none() {
        return String::from_str(alloc, "its line feed is missing").ok();
    }
    if line == 2 {
        misread_slot(alloc, version, found).ok()
    } else {
        misread_step(alloc, version, found, error.kind).ok()
    }
}

/// Whether this line has a carriage return before its line feed.
fn ends_in_return(text: &[u8], line: u32) -> bool {
    let mut lines_left = line;
    let mut before = 0;
    for byte in text {
        if *byte == b'\n' {
            lines_left = lines_left.saturating_sub(1);
            if lines_left == 0 {
                return before == b'\r';
            }
        }
        before = *byte;
    }
    false
}

/// Why this version has no such step.
fn misread_step(
    alloc: Global,
    version: Version,
    line: &[u8],
    fault: ListFault,
) -> Result<String, AllocError> {
    let mut parts = line.split(|byte| *byte == b' ');
    let word = parts.next().unwrap_or(line);
    let Some(form) = FORMS.iter().find(|form| form.word == word) else {
        return misread_word(alloc, version, word);
    };
    if form.word == b"timer".as_slice() && !version.has_timer {
        return misread_word(alloc, version, word);
    }
    match (form.parts, parts.next(), parts.next(), parts.next()) {
        ([kind], Some(part), None, _) => misread_part(alloc, version, *kind, part),
        ([kind, next], Some(first), Some(second), None) => {
            if is_read(version, *kind, first, fault) {
                misread_part(alloc, version, *next, second)
            } else {
                misread_part(alloc, version, *kind, first)
            }
        }
        _ => {
            let found = cut(line).escape_ascii();
            let written = form.written;
            format!(in alloc; "`{found}` does not have the form `{written}`")
        }
    }
}

/// Why the slot of the second line is none.
fn misread_slot(alloc: Global, version: Version, line: &[u8]) -> Result<String, AllocError> {
    let slot = line.split(|byte| *byte == b' ').nth(1).unwrap_or(line);
    misread_number(alloc, slot, 1, u64::from(version.slots))
}

/// Whether the first of two parts was read, where one of them was not.
fn is_read(version: Version, kind: Part, part: &[u8], fault: ListFault) -> bool {
    match (kind, fault) {
        (Part::Layer, ListFault::BadStep) => false,
        (Part::Layer, _) => true,
        _ => is_counter(version, part),
    }
}

fn is_counter(version: Version, part: &[u8]) -> bool {
    let is_numeral = part.len() <= 20 && part.iter().all(|byte| byte.is_ascii_digit());
    let Ok(text) = str::from_utf8(part) else {
        return false;
    };
    is_numeral
        && text
            .parse::<u64>()
            .is_ok_and(|number| number < u64::from(version.counters))
}

fn misread_word(alloc: Global, version: Version, word: &[u8]) -> Result<String, AllocError> {
    if word.is_empty() {
        return format!(in alloc; "no word stands at its beginning");
    }
    let word = cut(word).escape_ascii();
    let number = version.number;
    let timer = if version.has_timer { "timer, " } else { "" };
    format!(in alloc;
        "`{word}` is no step of version {number}, whose words are set, wait, {timer}pause, close, open, read, loop, halt"
    )
}

fn misread_part(
    alloc: Global,
    version: Version,
    kind: Part,
    part: &[u8],
) -> Result<String, AllocError> {
    match kind {
        Part::Layer => misread_layer(alloc, version, part),
        Part::Position => misread_position(alloc, version, part),
        Part::Counter => {
            misread_number(
                alloc,
                part,
                0,
                u64::from(version.counters.saturating_sub(1)),
            )
        }
        Part::Count => misread_number(alloc, part, 1, u64::from(TRIGGER_COUNT)),
        Part::Target => misread_number(alloc, part, 0, STEPS as u64 - 1),
        Part::Micros => misread_number(alloc, part, 1, LONGEST_DELAY),
    }
}

fn misread_layer(alloc: Global, version: Version, part: &[u8]) -> Result<String, AllocError> {
    let found = cut(part).escape_ascii();
    let number = version.number;
    let last = version.arm_layers;
    format!(in alloc;
        "`{found}` is no layer of version {number}, whose layers are arm1 to arm{last} and trig"
    )
}

fn misread_position(alloc: Global, version: Version, part: &[u8]) -> Result<String, AllocError> {
    let found = cut(part).escape_ascii();
    let number = version.number;
    let joined = version.joined;
    let slots = version.slots;
    format!(in alloc;
        "`{found}` is no position of version {number}, which is one to {joined} different channels as `1!1`, \
        joined by `&`, of slot 1 to {slots} and channel 1 to {CHANNELS}"
    )
}

fn misread_number(alloc: Global, part: &[u8], low: u64, high: u64) -> Result<String, AllocError> {
    let found = cut(part).escape_ascii();
    format!(in alloc; "`{found}` is no number from {low} to {high} of at most 20 digits")
}

/// The front of what is quoted.
fn cut(bytes: &[u8]) -> &[u8] {
    bytes.get(..QUOTED).unwrap_or(bytes)
}
