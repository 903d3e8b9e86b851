//! The commands, by families: the commands of a family are one variant of `Command`.

use std::fmt::Debug;
use sw_base::{Boxed, Chan, LayerName, Sequence, Source, StatusGroup};
use sw_channel::Position;
use sw_verify::ScanProgram;

/// What a unit asks for, with its data read (SCPI-1999; IEEE 488.2, 10).
///
/// It borrows nothing from the message. Numbers are rounded to whole ones and lie within the ranges named here.
#[derive(Debug, Drop)]
pub enum Command {
    /// A command without data.
    NoData(NoData),
    /// A query that changes nothing.
    Query(PlainQuery),
    /// A query of a trigger layer.
    LayerQuery(LayerQuery, LayerName),
    /// A query of a status group that changes nothing.
    GroupQuery(GroupQuery, StatusGroup),
    /// A query of a slot, 1 to `SLOTS`.
    SlotQuery(SlotQuery, u8),
    /// A query that takes its answer out of the status.
    DestructiveQuery(StatusRead),
    /// `ARM[:LAYer]:SIGNal`, `TRIGger:SIGNal`
    Signal(LayerName),
    /// `INITiate:CONTinuous`: ON or OFF, or a number that is 0 for off.
    Continuous(bool),
    /// A command with these channels, in this order.
    Relays(RelayCommand, Sequence<Chan>),
    /// `DIAGnostic:SCAN:CHECk?` with a block: the bytes of a listing.
    ListingCheck(Sequence<u8>),
    /// A setting of scans.
    Set(Setting),
    /// A setting of the status.
    SetStatus(StatusSetting),
    /// A command of all macros.
    Macros(AllMacros),
    /// A command of one macro, or of whether macros are on.
    Macro(MacroCommand),
    /// The readings of the scan with this number, where it has made exactly this count of them: `READ?` asks for them
    /// after it has begun that scan. No header names it.
    ScanReadings(u64, u64),
}

/// The commands without data.
#[derive(Clone, Copy, Debug, PartialEq, Eq)]
pub enum NoData {
    /// `*RST`
    Reset,
    /// `*CLS`
    ClearStatus,
    /// `*OPC`
    OperationComplete,
    /// `*OPC?`
    OperationCompleteQuery,
    /// `*WAI`
    Wait,
    /// `*TRG`
    Trigger,
    /// `ABORt`
    Abort,
    /// `INITiate[:IMMediate]`
    Initiate,
    /// `ROUTe:OPEN:ALL`
    OpenAll,
    /// `STATus:PRESet`
    Preset,
    /// `FETCh?`
    Fetch,
    /// `READ?`
    Read,
}

/// The queries without data that change nothing.
#[derive(Clone, Copy, Debug, PartialEq, Eq)]
pub enum PlainQuery {
    /// `*IDN?`
    Identify,
    /// `*ESE?`
    EventEnable,
    /// `*SRE?`
    ServiceEnable,
    /// `*STB?`
    StatusByte,
    /// `*TST?`
    SelfTest,
    /// `INITiate:CONTinuous?`
    InitiateContinuous,
    /// `ROUTe:CLOSe:STATe?`
    CloseState,
    /// `ROUTe:CHANnel:DELay?`
    Settling,
    /// `ROUTe:SCAN?`
    Scan,
    /// `ROUTe:SCAN:METer?`
    ScanMeter,
    /// `ROUTe:SCAN:PROGram[:DEFine]?`
    Program,
    /// `ROUTe:SCAN:PROGram:STATe?`
    Programmed,
    /// `SYSTem:ERRor:COUNt?`
    ErrorCount,
    /// `SYSTem:HELP:HEADers?`
    Headers,
    /// `SYSTem:VERSion?`
    Version,
    /// `TRACe:POINts?`
    Points,
    /// `TRACe:POINts:ACTual?`
    ActualPoints,
    /// `DIAGnostic:SCAN:BOUNd?`
    Bound,
    /// `DIAGnostic:SCAN:CHECk?` alone
    ScanCheck,
}

/// The queries of a trigger layer.
#[derive(Clone, Copy, Debug, PartialEq, Eq)]
pub enum LayerQuery {
    /// `ARM[:LAYer]:COUNt?`, `TRIGger:COUNt?`
    Count,
    /// `ARM[:LAYer]:SOURce?`, `TRIGger:SOURce?`
    Source,
    /// `ARM[:LAYer]:DELay?`, `TRIGger:DELay?`
    Delay,
    /// `ARM[:LAYer]:TIMer?`, `TRIGger:TIMer?`
    Timer,
}

/// The queries of a status group that change nothing.
#[derive(Clone, Copy, Debug, PartialEq, Eq)]
pub enum GroupQuery {
    /// `STATus:OPERation:CONDition?`, `STATus:QUEStionable:CONDition?`
    Condition,
    /// `STATus:OPERation:ENABle?`, `STATus:QUEStionable:ENABle?`
    Enable,
    /// `STATus:OPERation:PTRansition?`, `STATus:QUEStionable:PTRansition?`
    PositiveTransition,
    /// `STATus:OPERation:NTRansition?`, `STATus:QUEStionable:NTRansition?`
    NegativeTransition,
}

/// The queries of a slot.
#[derive(Clone, Copy, Debug, PartialEq, Eq)]
pub enum SlotQuery {
    /// `SYSTem:CTYPe?`
    Kind,
    /// `SYSTem:CTYPe:GROups?`
    Groups,
    /// `SYSTem:CTYPe:STATe?`
    State,
}

/// The queries that take their answer out of the status.
#[derive(Clone, Copy, Debug, PartialEq, Eq)]
pub enum StatusRead {
    /// `*ESR?`
    EventStatus,
    /// `STATus:OPERation[:EVENt]?`, `STATus:QUEStionable[:EVENt]?`
    GroupEvent(StatusGroup),
    /// `SYSTem:ERRor[:NEXT]?`
    NextError,
    /// `SYSTem:ERRor:ALL?`
    AllErrors,
}

/// The commands with a channel list.
#[derive(Clone, Copy, Debug, PartialEq, Eq)]
pub enum RelayCommand {
    /// `ROUTe:CLOSe`
    Close,
    /// `ROUTe:CLOSe?`
    CloseQuery,
    /// `ROUTe:OPEN`
    Open,
    /// `ROUTe:OPEN?`
    OpenQuery,
    /// `DIAGnostic:CLOSe:CHECk?`
    CloseCheck,
}

/// The times of a trigger layer. TRIGger alone has the one for which a closed position settles.
#[derive(Clone, Copy, Debug, PartialEq, Eq)]
pub enum Time {
    Delay,
    Timer,
    Settling,
}

/// The settings of scans, each with its value.
#[derive(Debug, Drop)]
pub enum Setting {
    /// `ARM[:LAYer]:COUNt`, 1 to 1,000; `TRIGger:COUNt`, 1 to 100,000.
    Count(LayerName, u32),
    /// `ARM[:LAYer]:SOURce`, `TRIGger:SOURce`
    Source(LayerName, Source),
    /// `ARM[:LAYer]:DELay`, `TRIGger:DELay`: whole microseconds, 0 to 3,600,000,000; `ARM[:LAYer]:TIMer`,
    /// `TRIGger:TIMer`: whole microseconds, 1 to 3,600,000,000; `ROUTe:CHANnel:DELay`: as a delay's.
    Time(Time, LayerName, u64),
    /// `ROUTe:SCAN`: these positions, in this order.
    Scan(Sequence<Position>),
    /// `ROUTe:SCAN:METer`: a slot, 1 to `SLOTS`.
    ScanMeter(u8),
    /// `TRACe:POINts`: how many readings are kept, 1 to 100,000.
    Points(u32),
    /// `ROUTe:SCAN:PROGram[:DEFine]`: what INITiate runs in place of what the other settings say.
    Program(Boxed<ScanProgram>),
    /// `ROUTe:SCAN:PROGram:STATe`: whether INITiate runs the program.
    Programmed(bool),
    /// `ROUTe:SCAN:PROGram:DELete`
    NoProgram,
}

/// The settings of the status, each with its bits.
#[derive(Clone, Copy, Debug, PartialEq, Eq)]
pub enum StatusSetting {
    /// `*ESE`: the bits of the standard event status that count, 0 to 255.
    EventEnable(u8),
    /// `*SRE`: the bits of the status byte that request service, 0 to 255.
    ServiceEnable(u8),
    /// `STATus:OPERation:ENABle`, `STATus:QUEStionable:ENABle`: 0 to 65,535.
    Enable(StatusGroup, u16),
    /// `STATus:OPERation:PTRansition`, `STATus:QUEStionable:PTRansition`: 0 to 65,535.
    PositiveTransition(StatusGroup, u16),
    /// `STATus:OPERation:NTRansition`, `STATus:QUEStionable:NTRansition`: 0 to 65,535.
    NegativeTransition(StatusGroup, u16),
}

/// The commands of all macros, which have no data.
#[derive(Clone, Copy, Debug, PartialEq, Eq)]
pub enum AllMacros {
    /// `*LMC?`
    LabelsQuery,
    /// `*PMC`
    Purge,
    /// `*EMC?`
    EnableQuery,
}

/// The macro commands with data. A label is without its quotes, its doubled marks undone.
#[derive(Debug, Drop)]
pub enum MacroCommand {
    /// `*DMC`
    Define(Boxed<Definition>),
    /// `*GMC?`: a label.
    BodyQuery(Sequence<u8>),
    /// `*RMC`: a label.
    Remove(Sequence<u8>),
    /// `*EMC`: whether macros are on, from a number from -32,767 to 32,767 that is 0 for off.
    Enable(bool),
}

/// What `*DMC` defines.
#[derive(Debug, Drop)]
pub struct Definition {
    pub label: Sequence<u8>,
    /// The bytes of the block.
    pub body: Sequence<u8>,
}
