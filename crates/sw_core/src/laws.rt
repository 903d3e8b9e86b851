//! What no run can do: laws over every list of events that are steps from the opening state.

ghost use Rattle.sw_core.specs.Good.{StaysGood};
ghost use Rattle.sw_core.specs.Run.{EveryRunIsGood, RelaysObey, StepIsDetermined};
ghost use Rattle.sw_core.specs.Ends.{EveryScanEnds};
ghost use Rattle.sw_core.specs.Opening.{RunsGoOn};
ghost use Rattle.sw_core.specs.Reads.{ReadTellsItsScan};
ghost use Rattle.sw_core.specs.ClosingTold.{ClosingIsTold};
ghost use Rattle.sw_core.specs.ScanTold.{ScanIsTold};
ghost use Rattle.sw_core.specs.SlotsTold.{SlotsAreTold};

/// A mainframe begins good and stays good, after any asks: no absent channel is closed and no two closed channels
/// clash, a scan that runs follows the settings and has done a prefix of its agenda, which is sound, the queue holds 32
/// errors at most, OPERation shows what the scan awaits, the locks are in order, and each session that holds one is
/// joined.
pub fn mainframe_stays_good()
    ensures { StaysGood }
{}

/// Each event of every run leaves the mainframe good. The bound that `DIAGnostic:SCAN:BOUNd?` answers is that of the
/// scan that runs. An answer reports a card's failure where a card counted one, and nowhere else; then every relay is
/// open and no scan runs. A reading that is added is the last one of the meter that came back; none is lost but by a
/// reset and where a scan begins. A happening that no scan takes leaves the scan, its readings and every relay as they
/// were.
pub fn every_run_is_good()
    ensures { EveryRunIsGood }
{}

/// After a ROUTe:CLOSe that the mainframe does, each channel of its list is closed; after such a ROUTe:OPEN each is
/// open. A refusal for any other cause than a card's failure queues its error and does nothing else. After an abort, a
/// reset, a card's failure and an eject from a running scan no scan runs and every relay is open; an ejected card
/// leaves with its relays open.
pub fn relays_obey()
    ensures { RelaysObey }
{}

/// Where memory suffices, an ask has one answer and leaves one state for what the cards do: whether one failed in the
/// call, and if so, how often each has failed after it; and whether the cards that it asks say that they are sure.
pub fn step_is_determined()
    ensures { StepIsDetermined }
{}

/// In every run a scan that a plan began does a prefix of that plan's agenda, from what the plan found closed, with the
/// readings of that prefix. It is over after at most as many taken triggers, ends of pauses and returns of its meter as
/// its plan's bound says; what it took and what it still awaits make up the bound. Where it is over it is complete,
/// with what the plan found closed and the readings of its whole agenda, or an abort, a reset, an eject or a card's
/// failure broke it off, every relay is open, and the readings are those that it had made, but for a reset. Nothing
/// else ends it.
pub fn every_scan_ends()
    ensures { EveryScanEnds }
{}

/// A run from the opening state leads to each mainframe that was made, fitted with cards and asked anything since. So
/// `every_run_is_good` and `every_scan_ends` hold of each run from its state.
pub fn runs_go_on()
    ensures { RunsGoOn }
{}

/// In every run, with any asks of other sessions in between: a session gets a snapshot, a plan's scan begins, and a
/// text answers the readings of the scan whose number is next after the snapshot's, as many as that plan makes. Then no
/// other scan began from the snapshot on, the scan is over, and the text is all of its readings.
pub fn read_tells_its_scan()
    ensures { ReadTellsItsScan }
{}

/// On every good mainframe `DIAGnostic:CLOSe:CHECk?` answers `"ok"` exactly where nothing refuses ROUTe:CLOSe of the
/// same channels: then it closes them, unless a card fails.
pub fn closing_is_told()
    ensures { ClosingIsTold }
{}

/// On every good mainframe the answer to `DIAGnostic:SCAN:CHECk?` begins with `"ok` exactly where the mainframe takes
/// INITiate, unless memory runs out. It names a refusal exactly where that is the first one that INITiate finds.
pub fn scan_is_told()
    ensures { ScanIsTold }
{}

/// On every good mainframe the queries of a slot answer the layout by which scans are checked: the kind and the count
/// of channels that `SYSTem:CTYPe?` answers are those of the layout, whether a meter is out or in, and so are the
/// groups that `SYSTem:CTYPe:GROups?` answers.
pub fn slots_are_told()
    ensures { SlotsAreTold }
{}
