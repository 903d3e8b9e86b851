//! Names that commands and settings share: layers of the trigger model, sources, status groups.

ghost use Rattle.std.specs.Prelude.{◌≡◌, ◌≤◌};
ghost use Rattle.sw_base.specs.Layers.{arm_layers, arm_numbered, number_of};
ghost use Rattle.sw_base.specs.Limits.{most_arm_layers};

/// An ARM layer. That they are numbered from the outermost inwards is our own.
#[derive(Clone, Copy, Debug, PartialEq, Eq)]
pub enum ArmLayer {
    First,
    Second,
    Third,
}

/// The ARM layers, the outermost first.
pub const ARMS: [ArmLayer; 3] = [ArmLayer::First, ArmLayer::Second, ArmLayer::Third];

impl ArmLayer {
    /// The ARM layer of this number, from 1 for the outermost; the outermost for any other.
    pub fn numbered(number: u8) -> ArmLayer
        ensures { result ≡ arm_numbered number }
    {
        match number {
            2 => ArmLayer::Second,
            3 => ArmLayer::Third,
            _ => ArmLayer::First,
        }
    }

    /// Its number, from 1 for the outermost.
    pub fn number(self) -> u8
        ensures value { result ≡ number_of self }
        ensures range { (1 ≤ result) × (result ≤ most_arm_layers) }
    {
        match self {
            ArmLayer::First => 1,
            ArmLayer::Second => 2,
            ArmLayer::Third => 3,
        }
    }
}

/// A law: the list of the ARM layers is the one in contracts.
pub fn arms_agree()
    ensures { ARMS ≡ arm_layers }
{}

/// A layer of the trigger model. That TRIGger lies inside all ARM layers is our own.
#[derive(Clone, Copy, Debug, PartialEq, Eq)]
pub enum LayerName {
    /// An ARM layer.
    Arm(ArmLayer),
    /// TRIGger.
    Trigger,
}

/// Where a layer's wait takes its trigger from (SCPI-1999, chapter 24: SOURce).
#[derive(Clone, Copy, Debug, PartialEq, Eq)]
pub enum Source {
    /// No wait: the layer is passed at once.
    Immediate,
    /// A bus trigger: `*TRG`, or the interface's trigger message.
    Bus,
    /// The external trigger input.
    External,
    /// Nothing but the layer's own SIGNal command.
    Hold,
    /// The end of the layer's own timer.
    Timer,
}

/// A group of status registers (SCPI-1999, 20.1).
#[derive(Clone, Copy, Debug, PartialEq, Eq)]
pub enum StatusGroup {
    /// OPERation.
    Operation,
    /// QUEStionable.
    Questionable,
}
