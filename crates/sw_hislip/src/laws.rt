//! What holds of every decoder, every stream and every table of locks.

ghost use Rattle.std.specs.Prelude.{◌≡◌, ℕ, List, Result, length};
ghost use Rattle.sw_base.specs.Limits.{most_sessions};
ghost use Rattle.sw_hislip.specs.LockTable.{LockTable, no_locks};
ghost use Rattle.sw_hislip.specs.LockRules.{LockTurn, AreRules, IsOrderly, KeepsOrder};
ghost use Rattle.sw_hislip.specs.declared.kind.Kind.{Kind};
ghost use Rattle.sw_hislip.specs.declared.message.Message.{Message};
ghost use Rattle.sw_hislip.specs.Pending.{Pending, DecoderSeen};
ghost use Rattle.sw_hislip.specs.Stream.{Call, EveryMessageComesOut, LeavesARest, OneStream, TellAlike};
ghost use Rattle.sw_hislip.specs.Stream.{CutsDoNotMatter, RoomIsBounded, ComesBack, WrongPrologueStays};

/// For any calls a decoder gives the messages of its stream, in order, and nothing else.
pub fn every_message_comes_out()
    ensures { (calls : List Call) (p : Pending) → EveryMessageComesOut calls p }
{}

/// Where a decoder waits for more, or is at a wrong prologue, it has given every message of its stream: what is left is
/// no whole message.
pub fn nothing_whole_is_left()
    ensures { (bytes : List ℕ) (told : List (Result Message Kind)) (p : Pending) → LeavesARest bytes told p }
{}

/// Bytes are one list of messages and one rest that is no whole message.
pub fn one_stream()
    ensures { (bytes : List ℕ) → OneStream bytes }
{}

/// What a decoder gives for a stream, and what is pending then, doesn't depend on the pieces in which it was fed: where
/// it waits for more, and where the stream ends in a wrong prologue.
pub fn cuts_do_not_matter()
    ensures calls { (calls others : List Call) → CutsDoNotMatter calls others }
    ensures streams { (bytes : List ℕ) (t u : List (Result Message Kind)) (p q : Pending) → TellAlike bytes t u p q }
{}

/// A decoder that waits for more keeps less than 131,104 bytes in memory, after any bytes.
pub fn room_is_bounded()
    ensures { (d : DecoderSeen) → RoomIsBounded d }
{}

/// After a wrong prologue a decoder answers that from then on, with any bytes fed.
pub fn wrong_prologue_stays()
    ensures { (calls : List Call) → WrongPrologueStays calls }
{}

/// The decoder gives an encoded message as it was, with any bytes behind it.
pub fn encoded_is_decoded()
    ensures { (m : Message) → ComesBack m }
{}

/// The table admits a session, and grants a lock, exactly where the rules say so in terms of the other sessions.
pub fn locks_keep_their_rules()
    ensures { (l : LockTable) (sid : ℕ) → length l.keys ≡ most_sessions → AreRules l sid }
{}

/// Each turn of a session keeps the order of the locks: all sessions that share one have one key, and beside the
/// exclusive lock only sessions share one with which its holder shares it. A table without locks is in order.
pub fn locks_stay_orderly()
    ensures first { IsOrderly no_locks }
    ensures step { (old new : LockTable) (turn : LockTurn) → KeepsOrder old turn new }
{}
