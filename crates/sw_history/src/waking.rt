//! The events after which waiting sessions may proceed: a row for each family of commands.

ghost use Rattle.std.specs.Prelude.{◌≡◌};
ghost use Rattle.sw_history.specs.Shares.{is_event};
ghost use Rattle.sw_history.specs.Waking.{may_end, wakes, turn_after};

use crate::event_kind::EventKind;
use sw_card::{Meter, Relay};
use sw_core::Sid;
use sw_lex::{Command, NoData};

/// The causes of a hold that an ask may end.
#[derive(Clone, Copy, Debug, PartialEq, Eq)]
pub enum WakeScope {
    /// None.
    Nobody,
    /// Locks or clears.
    Seats,
    /// The scan that runs, by what this session asks.
    ScanBy(Sid),
    /// The scan that runs, by what no session asks.
    Scan,
}

/// Whether a command may end the scan that runs.
pub fn may_end(command: &Command) -> bool
    ensures { result ≡ may_end command.now }
{
    match command {
        Command::NoData(NoData::Abort | NoData::Reset | NoData::Trigger) => true,
        Command::NoData(NoData::ClearStatus | NoData::Initiate | NoData::Wait) => false,
        Command::NoData(NoData::OperationComplete | NoData::OperationCompleteQuery) => false,
        Command::NoData(NoData::OpenAll | NoData::Preset | NoData::Fetch | NoData::Read) => false,
        Command::Signal(_) => true,
        Command::Query(_) | Command::LayerQuery(_, _) | Command::GroupQuery(_, _) => false,
        Command::SlotQuery(_, _) | Command::ListingCheck(_) => false,
        Command::DestructiveQuery(_) | Command::SetStatus(_) => false,
        Command::Continuous(_) | Command::Relays(_, _) | Command::Set(_) => false,
        Command::Macros(_) | Command::Macro(_) | Command::ScanReadings(_, _) => false,
    }
}

/// Whether waiting sessions may proceed after an answer. `happened`: the answer is an event's. For a session's ask that
/// may end the scan, that is where a scan ran before it and none runs after it.
pub fn wakes<R: Relay, M: Meter, E: EventKind<R, M>>(
    scope: WakeScope,
    ran: bool,
    runs: bool,
    happened: bool,
    answer: &E::Answer,
) -> bool
    ensures { (left : E.Left) → happened ≡ is_event (E.answered answer.now left)
        → result ≡ wakes scope ran runs (E.answered answer.now left) }
{
    happened
        && match scope {
            WakeScope::Nobody => false,
            WakeScope::Seats => E::changes_seats(answer),
            WakeScope::ScanBy(_) => ran && !runs,
            WakeScope::Scan => E::may_be_over(answer),
        }
}

/// The turn after an ask: another one where waiting sessions may proceed, and where no more events can be numbered.
pub fn turn_after(turn: u64, may_go_on: bool, events: u64) -> u64
    ensures { result ≡ turn_after turn may_go_on events }
{
    if !may_go_on && events != u64::MAX {
        return turn;
    }
    if turn == u64::MAX { 0 } else { turn + 1 }
}
