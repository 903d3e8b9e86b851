//! The text of a query's answer.

ghost use Rattle.std.specs.Prelude.{◌≡◌, decimal, map};
ghost use Rattle.std.specs.List.{join_with_byte};
ghost use Rattle.sw_base.specs.Reading.{fixed, reading_text};
ghost use Rattle.sw_core.specs.AnswerText.{form_text};
ghost use Rattle.sw_core.specs.Answers.{yes_or_no, entry_told};

use crate::readings_text::ReadingsText;
use std::marker::Model;
use sw_base::{ScpiError, Sequence};

/// A query's answer. Contracts see its text.
///
/// What can be printed where its text is wanted takes no memory until then.
#[derive(Debug, Drop)]
pub struct AnswerText {
    form: AnswerForm,
}

/// What an answer's text is made of.
#[derive(Debug, Drop)]
pub enum AnswerForm {
    /// Its bytes.
    Bytes(Sequence<u8>),
    /// A whole number; its text is its decimal digits.
    Number(u64),
    /// Microseconds; their text is seconds with six decimals.
    Seconds(u64),
    /// A text that is always the same.
    Fixed(&'static [u8]),
    /// An entry of the error queue, or that it has none.
    Entry(Option<ScpiError>),
    /// Readings; their text has commas between them.
    Readings(ReadingsText),
}

impl Model for AnswerText {
    ghost use Rattle.std.specs.Prelude.{List, ℕ};
    ghost use Rattle.sw_core.specs.AnswerText.{form_text};

    ghost Value = { List ℕ };

    ghost view = { λ t. form_text t.form };
}

impl AnswerText {
    /// The text of these bytes.
    pub fn bytes(text: Sequence<u8>) -> Self
        ensures { result ≡ text }
    {
        AnswerText {
            form: AnswerForm::Bytes(text),
        }
    }

    /// The digits of this number.
    #[inline(always)]
    pub fn number(n: u64) -> Self
        ensures { result ≡ decimal n }
    {
        AnswerText {
            form: AnswerForm::Number(n),
        }
    }

    /// `1` for yes, `0` for no.
    pub fn flag(yes: bool) -> Self
        ensures { result ≡ yes_or_no yes }
    {
        AnswerText::fixed(if yes { b"1" } else { b"0" })
    }

    /// Microseconds as seconds with six decimals.
    #[inline(always)]
    pub fn seconds(micros: u64) -> Self
        ensures { result ≡ fixed 6 micros }
    {
        AnswerText {
            form: AnswerForm::Seconds(micros),
        }
    }

    /// This text, which is always the same.
    #[inline(always)]
    pub fn fixed(text: &'static [u8]) -> Self
        ensures { result ≡ text.now }
    {
        AnswerText {
            form: AnswerForm::Fixed(text),
        }
    }

    /// An entry of the error queue: its number, a comma, and its text in quotes; or that there is none (SCPI-1999,
    /// 21.8).
    #[inline(always)]
    pub fn entry(error: Option<ScpiError>) -> Self
        ensures { result ≡ entry_told error }
    {
        AnswerText {
            form: AnswerForm::Entry(error),
        }
    }

    /// Readings, joined by commas.
    #[inline(always)]
    pub fn readings(readings: ReadingsText) -> Self
        ensures { result ≡ join_with_byte 44 (map reading_text readings) }
    {
        AnswerText {
            form: AnswerForm::Readings(readings),
        }
    }

    /// What the text is made of.
    #[inline(always)]
    pub fn into_form(self) -> AnswerForm
        ensures { form_text result ≡ self }
    {
        let AnswerText { form } = self;
        form
    }
}
