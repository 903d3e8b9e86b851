//! The commands' headers, as a table (SCPI-1999, volume 1, 6.2; IEEE 488.2, 10).

use crate::command::{
    AllMacros, GroupQuery, LayerQuery, NoData, PlainQuery, RelayCommand, SlotQuery, StatusRead,
    Time,
};
use sw_base::StatusGroup;

/// Which command a header is, by the data that it takes.
#[derive(Clone, Copy, Debug, PartialEq, Eq)]
pub enum HeaderMeaning {
    /// A command without data.
    NoData(NoData),
    /// A query that changes nothing.
    Query(PlainQuery),
    /// A query of a trigger layer.
    LayerQuery(LayerQuery, Family),
    /// A query of a status group that changes nothing.
    GroupQuery(GroupQuery, StatusGroup),
    /// A query that takes its answer out of the status.
    DestructiveQuery(StatusRead),
    /// A layer's signal.
    Signal(Family),
    /// A command of all macros.
    Macros(AllMacros),
    /// A command with a channel list.
    Relays(RelayCommand),
    /// `ROUTe:SCAN`
    Scan,
    /// `ROUTe:SCAN:PROGram[:DEFine]`
    Program,
    /// `ROUTe:SCAN:PROGram:DELete`
    NoProgram,
    /// `DIAGnostic:SCAN:CHECk?`
    ScanCheck,
    /// A command with a whole number.
    Numeric(Numeric),
    /// A layer's delay, or its timer.
    Time(Time, Family),
    /// A layer's source.
    Source(Family),
    /// A command that switches something on or off.
    Switch(Switch),
    /// `*EMC`
    EnableMacros,
    /// `*DMC`
    DefineMacro,
    /// `*GMC?`
    MacroQuery,
    /// `*RMC`
    RemoveMacro,
}

/// The commands that switch something on or off.
#[derive(Clone, Copy, Debug, PartialEq, Eq)]
pub enum Switch {
    /// `INITiate:CONTinuous`
    Continuous,
    /// `ROUTe:SCAN:PROGram:STATe`
    Programmed,
}

/// The commands and queries with a whole number.
#[derive(Clone, Copy, Debug, PartialEq, Eq)]
pub enum Numeric {
    EventEnable,
    ServiceEnable,
    Count(Family),
    ScanMeter,
    Enable(StatusGroup),
    PositiveTransition(StatusGroup),
    NegativeTransition(StatusGroup),
    Points,
    Slot(SlotQuery),
}

/// The nodes of trigger layers: ARM has several, by the number in the header, and TRIGger is one.
#[derive(Clone, Copy, Debug, PartialEq, Eq)]
pub enum Family {
    Arm,
    Trigger,
}
