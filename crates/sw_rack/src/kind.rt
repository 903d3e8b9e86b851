//! What a card is, and what it drives or reads.

ghost use Rattle.std.specs.Prelude.{◌≤◌, length};
ghost use Rattle.sw_base.specs.Limits.{most_channels};

/// The exclusion group of each channel of a card, from channel 1 on, 0 for none.
#[derive(Drop)]
pub struct Groups {
    pub numbers: Vec<u8>,
    pub ghost few: { (1 ≤ length numbers.items) × (length numbers.items ≤ most_channels) },
}

#[derive(Drop)]
pub enum CardKind {
    Relays(Groups, Relays),
    Meter(Meter),
}

/// What drives relays.
#[derive(Drop)]
pub enum Relays {
    /// Nothing; the closing of this number fails, counted from 1.
    Simulated(Option<u32>),
    ModbusTcp(Modbus),
    ModbusRtu(Modbus),
    Lines(Lines),
    Scpi(Lines),
}

/// What gives readings.
#[derive(Drop)]
pub enum Meter {
    /// The first reading in nanovolts, and how many more the next one has.
    Simulated(i64, i64),
    Scpi(Query),
}

/// Where something is reached.
#[derive(Drop)]
pub enum Place {
    Address(String),
    Device(String),
    /// A device with a kernel driver that waits by itself.
    Waiting(String),
}

/// A board that speaks Modbus.
#[derive(Drop)]
pub struct Modbus {
    pub place: Place,
    pub limit_ms: u32,
    pub unit: u8,
    pub first_coil: u16,
    pub confirm: bool,
}

/// A board that obeys lines. The text for a channel is a template.
#[derive(Drop)]
pub struct Lines {
    pub place: Place,
    pub limit_ms: u32,
    pub on: String,
    pub off: String,
    pub all_off: Vec<String>,
    /// How each answer ends; the driver reads no answer where it is empty.
    pub answer_end: String,
    /// The text that each answer contains.
    pub answer: String,
    pub state: Option<State>,
    /// What the driver sends each time it reaches the board anew.
    pub setup: Vec<String>,
}

/// The query of a channel's state, and what the answer has where it is on, and where it is off.
#[derive(Drop)]
pub struct State {
    pub query: String,
    pub on: String,
    pub off: String,
}

/// A meter that speaks SCPI.
#[derive(Drop)]
pub struct Query {
    pub place: Place,
    pub limit_ms: u32,
    /// What the driver sends each time it reaches the meter anew.
    pub setup: Vec<String>,
    /// What asks for a reading.
    pub query: String,
}
