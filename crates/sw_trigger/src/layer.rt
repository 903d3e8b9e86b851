//! One layer of the trigger model, and what a scan awaits.

use sw_base::{LayerName, Source};

/// One layer: how often it is passed each time that it is entered, and after which trigger and delay each time.
#[derive(Clone, Copy, Debug, PartialEq, Eq)]
pub struct Layer {
    pub count: u32,
    pub source: Source,
    /// Microseconds, 0 for no pause.
    pub delay_us: u64,
    /// Microseconds that the wait of a layer with source Timer lasts.
    pub timer_us: u64,
}

/// What a running scan awaits.
#[derive(Clone, Copy, Debug, PartialEq, Eq)]
pub enum Awaited {
    /// A trigger for the layer.
    Wait(LayerName),
    /// The end of the layer's timer, after this many microseconds.
    Period(LayerName, u64),
    /// The end of a pause of this many microseconds.
    Pause(u64),
    /// The meter's reading.
    Read,
}
