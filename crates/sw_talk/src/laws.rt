//! What follows from the contract of a talk.

ghost use Rattle.sw_talk.specs.Law.{TalkIsDetermined, CoreTalkIsDetermined, CoreRestIsDetermined};
ghost use Rattle.sw_talk.specs.Available.{NoteLeavesOthers};
ghost use Rattle.sw_talk.specs.DeskRuns.{CoreDeskRuns};
ghost use Rattle.sw_talk.specs.Order.{WorkIsDoneInOrder, WorkIsKeptWhereThereIsRoom};

use sw_core::step_is_determined;
use sw_lex::{one_meaning, one_reading};
use sw_macro::one_expansion;

/// A law: what a session asks and writes, and its macros after that, are determined by its message, its macros and by
/// what it is answered, where no growth is refused.
pub fn talk_is_determined()
    ensures { TalkIsDetermined }
{
    one_reading();
    one_meaning();
    one_expansion();
}

/// A law: over a mainframe the message, the macros, what is measured and what the cards do determine what is written,
/// the macros after it and the desk that is left but for its room, where no growth is refused. What the cards do: in
/// which calls one fails, how often each has failed after such a call, and whether a card that is asked says that it is
/// sure of its relays.
pub fn core_talk_is_determined()
    ensures { CoreTalkIsDetermined }
{
    step_is_determined();
    talk_is_determined();
}

/// A law: over a mainframe what is measured and what the cards do determine the desk that a rest leaves but for its
/// room, where no growth is refused.
pub fn core_rest_is_determined()
    ensures { CoreRestIsDetermined }
{
    step_is_determined();
}

/// A law: a `CoreDesk` carries its work out in the order in which it came, oldest first, also where a growth was
/// refused: in each call, what was outstanding before it and then what came in it is, piece by piece, what was carried
/// out in it and then what is outstanding after it.
pub fn work_is_done_in_order()
    ensures { WorkIsDoneInOrder }
{}

/// A law: what a `CoreDesk` does over its mainframe is a run, in which a card failed exactly where a count of failures
/// says so. Its events are, in their order, each ask of the sessions with its answer, and each report of work that was
/// carried out.
pub fn core_desk_runs()
    ensures { CoreDeskRuns }
{}

/// A law: a `CoreDesk` carries a piece of work out at once only where keeping it would take more memory: no ask does so
/// while there is room for one piece more, and no wait, which takes a piece off first, while no more is outstanding
/// than there is room for.
pub fn work_is_kept_where_there_is_room()
    ensures { WorkIsKeptWhereThereIsRoom }
{}

/// A law: what is noted of one session leaves what is noted of every other, also of an earlier or a later one of the
/// same number.
pub fn note_leaves_others()
    ensures { NoteLeavesOthers }
{}
