//! What is wrong with a listing.

ghost use Rattle.std.specs.Prelude.{◌≡◌};
ghost use Rattle.sw_code.specs.Reading.{fault_name};

/// What is wrong with a line of a listing.
#[derive(Clone, Copy, Debug, PartialEq, Eq)]
pub enum ListFault {
    /// An unknown word, a wrong number of parts, another first or second line, a line that is missing, or one that does
    /// not end with a line feed.
    BadStep,
    /// A part that is no number or out of its range.
    BadNumber,
    /// A step past `STEPS` of them.
    TooLong,
    /// Memory ran out.
    NoMemory,
}

impl ListFault {
    /// Its name.
    pub fn name(self) -> &'static str
        ensures { result.now ≡ fault_name self }
    {
        match self {
            ListFault::BadStep => "BadStep",
            ListFault::BadNumber => "BadNumber",
            ListFault::TooLong => "TooLong",
            ListFault::NoMemory => "NoMemory",
        }
    }
}

/// The first fault of a listing: its line, from 1, and what is wrong there.
#[derive(Clone, Copy, Debug, PartialEq, Eq)]
pub struct ListError {
    pub line: u32,
    pub kind: ListFault,
}
