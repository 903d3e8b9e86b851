//! A meter that gives its readings by lines of text.

use std::alloc::Global;
use std::io::BufRead;
use sw_base::Reading;
use sw_card::CardFault;
use sw_kinds::Source;

/// Readings of anything that gives lines: each a whole number of nanovolts, or `over` past what the meter can show.
#[derive(Drop)]
pub struct LineSource<R: BufRead + Drop> {
    alloc: Global,
    lines: R,
}

impl<R: BufRead + Drop> LineSource<R> {
    /// The readings that these lines give.
    pub fn new(alloc: Global, lines: R) -> Self {
        LineSource { alloc, lines }
    }
}

impl<R: BufRead + Drop> Source for LineSource<R> {
    fn sample(&mut self) -> Result<Reading, CardFault> {
        let mut line = String::new(self.alloc);
        if self.lines.read_line(&mut line).is_err() {
            return Err(CardFault);
        }
        reading_of(line.as_str().trim())
    }
}

/// The reading in a line.
fn reading_of(text: &str) -> Result<Reading, CardFault> {
    if text == "over" {
        return Ok(Reading::Overload);
    }
    match text.parse::<i64>() {
        Ok(nanovolts) => Ok(Reading::Volts(nanovolts)),
        Err(_) => Err(CardFault),
    }
}
