//! `own_cards`: two multiplexers of one exclusion group, a matrix and a meter, driven by lines of text.
//!
//! `own_cards run BOARD METER` answers each line of standard input on standard output. `own_cards PORT BOARD METER`
//! serves HiSLIP clients at that port of this machine until the end of standard input, and then leaves every relay
//! open. BOARD is the file to which the relays' lines are appended, and METER the one from which readings are taken, a
//! line each: a serial port is such a file.
#![tactic(auto)]

mod fault;
mod line_driver;
mod line_source;
mod rack;
#[cfg(test)]
mod tests;
mod uses;

use fault::Fault;
use line_driver::LineDriver;
use line_source::LineSource;
use rack::in_rack;
use std::fs::{File, OpenOptions};
use std::io;
use std::io::{BufReader, ErrorKind};
use sw_card::{Meter, Relay};
use sw_kinds::{Matrix, Mux, Volt};
use sw_serve::OwnCard;
use uses::{answer, serve};

fn main(rt: HostRuntime) -> Result<(), Fault> {
    let alloc = rt.alloc();
    let words: Vec<String> = std::env::args(&rt)?.collect(alloc)?;
    let [_, order, board, meter] = words.as_slice() else {
        return Err(Fault::Io(io::Error::from(ErrorKind::InvalidInput)));
    };
    let mut appending = OpenOptions::new();
    appending.append(true);
    let first = LineDriver::new(1, appending.open(&rt, board.as_str())?);
    let second = LineDriver::new(2, appending.open(&rt, board.as_str())?);
    let third = LineDriver::new(3, appending.open(&rt, board.as_str())?);
    let lines = BufReader::new(alloc, File::open(&rt, meter.as_str())?)?;

    let first: Box<dyn Relay + Send> = Box::new(alloc, Mux::new(1, 8, 1, first))?;
    let second: Box<dyn Relay + Send> = Box::new(alloc, Mux::new(2, 8, 1, second))?;
    let matrix: Box<dyn Relay + Send> = Box::new(alloc, Matrix::new(3, 16, third))?;
    let source = LineSource::new(alloc, lines);
    let meter: Box<dyn Meter + Send> = Box::new(alloc, Volt::new(4, source))?;
    let cards = vec![in alloc;
        OwnCard::Relays(first),
        OwnCard::Relays(second),
        OwnCard::Relays(matrix),
        OwnCard::Measures(meter),
    ]?;
    let cards = in_rack(alloc, cards)?;
    match order.parse::<u16>() {
        Ok(port) => serve(rt, alloc, port, rt.reader(), cards),
        Err(_) => answer(alloc, &mut rt.reader(), &mut io::writer(&rt), cards),
    }
}
