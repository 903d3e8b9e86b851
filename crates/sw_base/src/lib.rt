//! What every layer of the mainframe uses: limits, channels, errors, runs of bytes, numbers and readings, lists that a
//! value owns, and values in boxes.
//!
//! The crate's contract to the layers above: an error has one number, one text and one event bit; a channel is a pair
//! of numbers in its range; a run of bytes is the longest; a text is one number with one rounded value, or has one
//! refusal; the text of a reading determines it. Its `specs/` have the words that several layers share: the
//! layout of a cage by slot, a present channel, a clash of two channels over all slots.
//!
//! It takes no memory but for boxes, and promises nothing of when a layer above uses which error.
#![tactic(auto)]

mod boxed;
mod bytes;
mod chan;
mod error;
mod limits;
mod number;
mod reading;
mod sequence;
mod terms;

pub use boxed::Boxed;
pub use bytes::{
    blanks, digits, is_blank, is_digit, is_letter, is_word, letters, split_once, strip_prefix,
    words,
};
pub use chan::Chan;
pub use error::{NO_ERROR, ScpiError};
pub use limits::{
    ANSWER_BYTES, ARM_COUNT, ARM_LAYERS, BODY_BYTES, CHANNEL_PLACES, CHANNELS, COUNTERS,
    KEPT_BYTES, LIST_ENTRIES, LONGEST_DELAY, MACRO_LEVELS, MACROS, MESSAGE_BYTES, MNEMONIC_BYTES,
    POINTS, QUEUED_ERRORS, SESSIONS, SLOTS, TRIGGER_COUNT, limits_agree,
};
pub use number::{Exponent, Nrf, Unit, one_reading, read_exponent, read_mantissa};
pub use reading::{Reading, one_text, print_micros, print_number, print_reading, print_signed};
pub use sequence::Sequence;
pub use terms::{ARMS, ArmLayer, LayerName, Source, StatusGroup, arms_agree};
