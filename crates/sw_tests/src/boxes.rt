//! Boxed cards without hardware, for a cage and a mainframe.

use std::alloc::{AllocError, Global};
use sw_card::{Meter, Relay};
use sw_kinds::{Matrix, Mux, SimDriver, SimSource, Volt};

pub type Relays = Box<dyn Relay + Send>;

pub type Voltmeter = Box<dyn Meter + Send>;

/// A multiplexer of four channels of the group.
pub fn mux(alloc: Global, serial: u32, group: u8) -> Result<Relays, AllocError> {
    Ok(Box::new(alloc, Mux::new(serial, 4, group, SimDriver::new()))?)
}

/// A multiplexer of 20 channels in group 1, a matrix of 16 and a multiplexer of 10 in group 1, numbered from 1.
pub fn three(alloc: Global) -> Result<(Relays, Relays, Relays), AllocError> {
    let first: Relays = Box::new(alloc, Mux::new(1, 20, 1, SimDriver::new()))?;
    let second: Relays = Box::new(alloc, Matrix::new(2, 16, SimDriver::new()))?;
    let third: Relays = Box::new(alloc, Mux::new(3, 10, 1, SimDriver::new()))?;
    Ok((first, second, third))
}

/// A multiplexer of four channels in group 1, of which the first is closed, with serial number 7.
pub fn closed(alloc: Global) -> Result<Relays, AllocError> {
    let mut card = mux(alloc, 7, 1)?;
    close_first(&mut card);
    Ok(card)
}

/// Closes channel 1, where it is open.
fn close_first(card: &mut Relays) {
    if card.channels() >= 1 && !card.is_closed(1) {
        let _ = card.close(1);
    }
}

/// A meter with serial number 4, which counts nanovolts from 1.
pub fn voltmeter(alloc: Global) -> Result<Voltmeter, AllocError> {
    Ok(Box::new(alloc, Volt::new(4, SimSource::new(1, 1)))?)
}
