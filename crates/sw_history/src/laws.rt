//! Laws over every ask that a desk makes, and over every history.

ghost use Rattle.sw_history.specs.Joined.{SessionsStay};
ghost use Rattle.sw_history.specs.Laws.{EachEventIsCounted, EveryHistoryIsARun};
ghost use Rattle.sw_history.specs.Waking.{WhoMayGoOnIsWoken};

use sw_core::runs_go_on;

/// A law: each event of a desk is an entry of its own in the history, and the desk's share rises by one, unless the
/// number of the entry before it is the last number. Where an answer is no event's, the share stays.
pub fn each_event_is_counted()
    ensures { EachEventIsCounted }
{}

/// A law: a step that ends what holds some session's ask changes the turn, which wakes each thread that waits. The step
/// is any command, or a trigger, a lock, a release, a clear, a leave, the end of a pause, a meter's return, an eject,
/// or a card that fails. Where the turn stays, the mainframe still holds every ask that it held.
pub fn whoever_may_go_on_is_woken()
    ensures { WhoMayGoOnIsWoken }
{}

/// A law: a session is joined from its Join on until its own Leave: no other ask, whoever makes it, changes that. Who
/// attaches is answered a session that is joined.
pub fn sessions_stay()
    ensures { SessionsStay }
{}

/// A law: every history of a mainframe that opened fresh, just made and offered cards, is a run of the core: one event
/// for each entry, with its ask and answer, its number and the pair that it leaves. So the panel that it has led to is
/// reached, every law over runs holds of it (`IsGoodEvent`), and each scan that begins in it does what its plan says,
/// and ends.
pub fn every_history_is_a_run()
    ensures { EveryHistoryIsARun }
{
    runs_go_on();
}
