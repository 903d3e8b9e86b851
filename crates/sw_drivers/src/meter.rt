//! Meters that speak SCPI.

ghost use Rattle.std.specs.Prelude.{◌≡◌, ◌≤◌, IfOk, OnOk};
ghost use Rattle.sw_drivers.specs.Lines.{all_lines};
ghost use Rattle.sw_drivers.specs.Wires.{grown};

use crate::fault::{DriverFault, Told};
use crate::setup::set_up;
use crate::volts::reading_of;
use crate::wire::Wire;
use sw_base::Reading;
use sw_card::CardFault;
use sw_kinds::Source;

/// The most bytes of an answer.
const ANSWER: usize = 256;

/// A meter that some lines set up each time the driver reaches it anew, and that answers a query by a reading.
#[derive(Drop)]
pub struct ScpiMeter<W: Wire, T: Told + Drop> {
    wire: W,
    slot: u8,
    setup: Vec<Vec<u8>>,
    query: Vec<u8>,
    told: T,
}

impl<W: Wire, T: Told + Drop> ScpiMeter<W, T> {
    /// The meter at the other end, after the driver has reached it and set it up; or why not. The driver asks for no
    /// reading. Each line ends as the meter wants it.
    pub fn new(
        wire: W,
        slot: u8,
        setup: Vec<Vec<u8>>,
        query: Vec<u8>,
        told: T,
    ) -> Result<Self, DriverFault>
        ensures { IfOk result (λ meter. W.sent meter.wire ≡ grown (W.sent wire) (all_lines setup.items)) }
    {
        let mut meter = ScpiMeter {
            wire,
            slot,
            setup,
            query,
            told,
        };
        meter.reach()?;
        Ok(meter)
    }

    fn reach(&mut self) -> Result<(), DriverFault>
        ensures { OnOk result (W.sent self.new.wire ≡ grown (W.sent self.old.wire) (all_lines self.old.setup.items)) }
    {
        self.wire.open()?;
        set_up(&mut self.wire, self.setup.as_slice())
    }

    fn ask(&mut self) -> Result<Reading, DriverFault> {
        if !self.wire.is_open() || self.wire.begin().is_err() {
            self.reach()?;
            self.wire.begin()?;
        }
        self.wire.send(self.query.as_slice())?;
        let mut answer = [0_u8; ANSWER];
        let length = read_line(&mut self.wire, &mut answer)?;
        reading_of(&answer[..length])
    }
}

/// Reads up to a line feed. The number of bytes before it.
fn read_line<L: Wire>(link: &mut L, line: &mut [u8; ANSWER]) -> Result<usize, DriverFault>
    ensures { IfOk result (λ length. length ≤ 256) }
{
    let mut length = 0;
    for _ in 0..ANSWER {
        let n = link.hear_some(&mut line[length..])?;
        let told = length + n;
        if n == 0 || told >= ANSWER {
            return Err(DriverFault::Garbled);
        }
        for at in length..told {
            if line[at] == b'\n' {
                return Ok(at);
            }
        }
        length = told;
    }
    Err(DriverFault::Garbled)
}

impl<W: Wire, T: Told + Drop> Source for ScpiMeter<W, T> {
    fn sample(&mut self) -> Result<Reading, CardFault> {
        match self.ask() {
            Ok(reading) => Ok(reading),
            Err(fault) => {
                self.wire.close();
                self.told.tell(self.slot, fault);
                Err(CardFault)
            }
        }
    }
}
