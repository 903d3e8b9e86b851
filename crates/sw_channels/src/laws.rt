//! What follows from how a message that comes in parts is kept.

ghost use Rattle.sw_channels.specs.Parts.{PartsAreOneMessage};

/// A law: a program message that came in parts, none of them skipped, is talked over as all their bytes, however many
/// they are: what is kept of them has the same talk. So those within the limit are the message, and else it is -363.
pub fn parts_are_one_message()
    ensures { PartsAreOneMessage }
{}
