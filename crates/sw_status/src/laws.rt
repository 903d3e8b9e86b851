//! What holds of every status, after any calls.

ghost use Rattle.std.specs.Prelude.{◌≡◌, ℕ, Bool, List, [], fold};
ghost use Rattle.sw_base.specs.declared.error.ScpiError.{ScpiError};
ghost use Rattle.sw_status.specs.Registers.{GroupSeen, IsGroup, first_group};
ghost use Rattle.sw_status.specs.StatusModel.{StatusSeen, IsStatus, queued, first_status, IsSettled};
ghost use Rattle.sw_status.specs.Laws.{LosesOnlyToOverflow, held_of, TellsEachBit, CountsOnce, LatchesEachBit};
ghost use Rattle.sw_status.specs.Laws.{KeepsBit15Clear, KeepsLimits};

/// The queue loses an error only to -350, and has at most 32.
pub fn error_is_lost_only_to_overflow()
    ensures { (errors : List ScpiError) (e : ScpiError) → LosesOnlyToOverflow errors e }
{}

/// A queue that no session reads has all errors that came, or the first 31 and -350.
pub fn queue_holds_the_oldest()
    ensures { (came : List ScpiError) → fold queued [] came ≡ held_of came }
{}

/// Each bit of the status byte reports one thing, and bit 6 is 0 where nothing is enabled.
pub fn byte_tells_each_bit()
    ensures { (s : StatusSeen) (mav : Bool) → TellsEachBit s mav }
{}

/// An event counts at most one service request, and none where nothing changed since the last one ended.
pub fn event_counts_once()
    ensures each { (s : StatusSeen) → CountsOnce s }
    ensures start { IsSettled first_status }
{}

/// A bit of an event register is set where it was, where its condition rose and PTRansition has it, and where its
/// condition fell and NTRansition has it.
pub fn transition_filters_decide()
    ensures { (g : GroupSeen) (bits : ℕ) → LatchesEachBit g bits }
{}

/// A status starts within its limits and stays there under every change: at most 32 errors, fewer than 2^56 requests,
/// and in each group's registers bit 15 is 0.
pub fn limits_are_kept()
    ensures start { IsStatus first_status }
    ensures each { (s : StatusSeen) → IsStatus s → KeepsLimits s }
    ensures group_start { IsGroup first_group }
    ensures each_group { (g : GroupSeen) → IsGroup g → KeepsBit15Clear g }
{}
