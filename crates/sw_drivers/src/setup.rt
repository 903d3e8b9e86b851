//! Lines that set up a board or a meter.

ghost use Rattle.std.specs.Prelude.{◌≡◌, OnOk};
ghost use Rattle.sw_drivers.specs.Lines.{all_lines};
ghost use Rattle.sw_drivers.specs.Wires.{grown};

use crate::fault::DriverFault;
use crate::wire::Wire;

/// Sends these lines, by one exchange.
pub fn set_up<W: Wire>(wire: &mut W, setup: &[Vec<u8>]) -> Result<(), DriverFault>
    ensures { OnOk result (W.sent wire.new ≡ grown (W.sent wire.old) (all_lines setup.now)) }
{
    wire.begin()?;
    for line in setup {
        wire.send(line.as_slice())?;
    }
    Ok(())
}
