//! The errors of the instrument.

ghost use Rattle.std.specs.Prelude.{◌≡◌, ◌≤◌};
ghost use Rattle.sw_base.specs.Errors.{number_of, text_of, code_of, event_bit_of};
ghost use Rattle.sw_base.specs.declared.error.ScpiError.TheVariants.{OutOfMemory};

use std::alloc::{AllocError, AllocFailed};

/// What an empty error queue answers with the number 0 (SCPI-1999, 21.8.10).
pub const NO_ERROR: &str = "No error";

/// An error of the instrument (SCPI-1999, 21.8).
#[derive(Clone, Copy, Debug, PartialEq, Eq)]
pub enum ScpiError {
    InvalidCharacter,
    SyntaxError,
    InvalidSeparator,
    DataTypeError,
    GetNotAllowed,
    ParameterNotAllowed,
    MissingParameter,
    UndefinedHeader,
    HeaderSuffixOutOfRange,
    InvalidCharacterInNumber,
    ExponentTooLarge,
    TooManyDigits,
    InvalidSuffix,
    SuffixNotAllowed,
    InvalidCharacterData,
    InvalidStringData,
    InvalidBlockData,
    InvalidExpression,
    TriggerIgnored,
    ArmIgnored,
    InitIgnored,
    SettingsConflict,
    DataOutOfRange,
    TooMuchData,
    IllegalParameterValue,
    OutOfMemory,
    DataCorruptOrStale,
    HardwareError,
    HardwareMissing,
    IllegalMacroLabel,
    MacroParameterError,
    MacroDefinitionTooLong,
    MacroRecursionError,
    MacroRedefinitionNotAllowed,
    MacroHeaderNotFound,
    ProgramSyntaxError,
    SystemError,
    QueueOverflow,
    InputBufferOverrun,
    QueryInterrupted,
}

impl ScpiError {
    /// Its number, below 0.
    pub fn code(self) -> i16
        ensures { result ≡ code_of self }
    {
        -(self.row().0 as i16)
    }

    /// Its text, without quotes.
    pub fn text(self) -> &'static str
        ensures { result.now ≡ text_of self }
    {
        self.row().1
    }

    /// The bit of the standard event status register that it sets, by the hundreds of its number
    /// (SCPI-1999, 21.8.9 to 21.8.12; IEEE 488.2, 11.5.1).
    pub fn event_bit(self) -> u8
        ensures { result ≡ event_bit_of self }
    {
        match self.row().0 {
            0..=199 => 5,
            200..=299 => 4,
            300..=399 => 3,
            _ => 2,
        }
    }

    /// The table: the number without its sign, and the text.
    fn row(self) -> (u16, &'static str)
        ensures number { result.0 ≡ number_of self }
        ensures text { result.1.now ≡ text_of self }
        ensures range { (1 ≤ result.0) × (result.0 ≤ 499) }
    {
        match self {
            ScpiError::InvalidCharacter => (101, "Invalid character"),
            ScpiError::SyntaxError => (102, "Syntax error"),
            ScpiError::InvalidSeparator => (103, "Invalid separator"),
            ScpiError::DataTypeError => (104, "Data type error"),
            ScpiError::GetNotAllowed => (105, "GET not allowed"),
            ScpiError::ParameterNotAllowed => (108, "Parameter not allowed"),
            ScpiError::MissingParameter => (109, "Missing parameter"),
            ScpiError::UndefinedHeader => (113, "Undefined header"),
            ScpiError::HeaderSuffixOutOfRange => (114, "Header suffix out of range"),
            ScpiError::InvalidCharacterInNumber => (121, "Invalid character in number"),
            ScpiError::ExponentTooLarge => (123, "Exponent too large"),
            ScpiError::TooManyDigits => (124, "Too many digits"),
            ScpiError::InvalidSuffix => (131, "Invalid suffix"),
            ScpiError::SuffixNotAllowed => (138, "Suffix not allowed"),
            ScpiError::InvalidCharacterData => (141, "Invalid character data"),
            ScpiError::InvalidStringData => (151, "Invalid string data"),
            ScpiError::InvalidBlockData => (161, "Invalid block data"),
            ScpiError::InvalidExpression => (171, "Invalid expression"),
            ScpiError::TriggerIgnored => (211, "Trigger ignored"),
            ScpiError::ArmIgnored => (212, "Arm ignored"),
            ScpiError::InitIgnored => (213, "Init ignored"),
            ScpiError::SettingsConflict => (221, "Settings conflict"),
            ScpiError::DataOutOfRange => (222, "Data out of range"),
            ScpiError::TooMuchData => (223, "Too much data"),
            ScpiError::IllegalParameterValue => (224, "Illegal parameter value"),
            ScpiError::OutOfMemory => (225, "Out of memory"),
            ScpiError::DataCorruptOrStale => (230, "Data corrupt or stale"),
            ScpiError::HardwareError => (240, "Hardware error"),
            ScpiError::HardwareMissing => (241, "Hardware missing"),
            ScpiError::IllegalMacroLabel => (273, "Illegal macro label"),
            ScpiError::MacroParameterError => (274, "Macro parameter error"),
            ScpiError::MacroDefinitionTooLong => (275, "Macro definition too long"),
            ScpiError::MacroRecursionError => (276, "Macro recursion error"),
            ScpiError::MacroRedefinitionNotAllowed => (277, "Macro redefinition not allowed"),
            ScpiError::MacroHeaderNotFound => (278, "Macro header not found"),
            ScpiError::ProgramSyntaxError => (285, "Program syntax error"),
            ScpiError::SystemError => (310, "System error"),
            ScpiError::QueueOverflow => (350, "Queue overflow"),
            ScpiError::InputBufferOverrun => (363, "Input buffer overrun"),
            ScpiError::QueryInterrupted => (410, "Query INTERRUPTED"),
        }
    }
}

impl From<AllocError> for ScpiError {
    ghost from_gives = { λ _ e. e ≡ OutOfMemory };

    fn from(_e: AllocError) -> ScpiError {
        ScpiError::OutOfMemory
    }
}

impl<T: Drop> From<AllocFailed<T>> for ScpiError {
    ghost from_gives = { λ _ e. e ≡ OutOfMemory };

    fn from(_e: AllocFailed<T>) -> ScpiError {
        ScpiError::OutOfMemory
    }
}
