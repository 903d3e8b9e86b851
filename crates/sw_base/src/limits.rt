//! The limits of the instrument, each in one place. All are our own, but for the length of a mnemonic.
//!
//! `specs/Limits.antt` says the same numbers to contracts; `limits_agree` proves that they are the same.

ghost use Rattle.std.specs.Prelude.{◌≡◌};
ghost use Rattle.sw_base.specs.Limits.{most_slots, most_channels, most_entries, most_bytes, most_sessions, most_points};
ghost use Rattle.sw_base.specs.Limits.{most_arm_count, most_trigger_count, longest_delay, most_macros, longest_body};
ghost use Rattle.sw_base.specs.Limits.{most_kept, most_levels, longest_mnemonic, most_errors};
ghost use Rattle.sw_base.specs.Limits.{most_arm_layers, most_counters, channel_places, most_answer_bytes};

/// How many slots a cage has. They are numbered from 1.
pub const SLOTS: u8 = 16;

/// How many channels a card has at most. They are numbered from 1.
pub const CHANNELS: u8 = 99;

/// How many places the channels of all slots take, each at 100 times its slot and its number.
pub const CHANNEL_PLACES: usize = 1_700;

/// How many channels a list has at most, and how many positions.
pub const LIST_ENTRIES: usize = 512;

/// How many bytes a program message, its expansion and the payload of a HiSLIP message have at most.
pub const MESSAGE_BYTES: usize = 65_536;

/// The most bytes that a session keeps of a program message that comes in parts: the longest one, its line feed, and
/// one byte, which shows a longer one.
pub const KEPT_BYTES: usize = MESSAGE_BYTES + 2;

/// The most bytes of the answers to one program message, with their separators and the line feed: 16 MiB.
pub const ANSWER_BYTES: usize = 16_777_216;

/// How many sessions there are at a time. They are numbered from 1.
pub const SESSIONS: u8 = 16;

/// How many readings a scan takes at most.
pub const POINTS: u32 = 100_000;

/// How many ARM layers there are. They are numbered from 1, the outermost.
pub const ARM_LAYERS: u8 = 3;

/// How many counters scan code has: one for each ARM layer, and one for whole rounds of the list. They are numbered
/// from 0.
pub const COUNTERS: u8 = ARM_LAYERS + 1;

/// How often an ARM layer is passed at most.
pub const ARM_COUNT: u32 = 1_000;

/// How often the TRIGger layer is passed at most.
pub const TRIGGER_COUNT: u32 = 100_000;

/// The longest delay of a layer and the longest time of its timer, in microseconds: an hour.
pub const LONGEST_DELAY: u64 = 3_600_000_000;

/// How many macros a session has at most.
pub const MACROS: usize = 64;

/// How many bytes the body of a macro has at most.
pub const BODY_BYTES: usize = 4_096;

/// How deep a macro may call macros, itself counted.
pub const MACRO_LEVELS: usize = 8;

/// How many bytes a mnemonic has at most, a node of a header or a macro's label (IEEE 488.2, 7.6.1).
pub const MNEMONIC_BYTES: usize = 12;

/// How many errors the error queue keeps at most.
pub const QUEUED_ERRORS: usize = 32;

/// A law: the limits that the code keeps are those in contracts.
pub fn limits_agree()
    ensures slots { (SLOTS ≡ most_slots) × (CHANNELS ≡ most_channels) × (CHANNEL_PLACES ≡ channel_places) }
    ensures texts { (LIST_ENTRIES ≡ most_entries) × (MESSAGE_BYTES ≡ most_bytes) × (KEPT_BYTES ≡ most_kept)
        × (MNEMONIC_BYTES ≡ longest_mnemonic) × (ANSWER_BYTES ≡ most_answer_bytes) }
    ensures scans { (POINTS ≡ most_points) × (ARM_COUNT ≡ most_arm_count) × (TRIGGER_COUNT ≡ most_trigger_count)
        × (LONGEST_DELAY ≡ longest_delay) }
    ensures layers { (ARM_LAYERS ≡ most_arm_layers) × (COUNTERS ≡ most_counters) }
    ensures macros { (MACROS ≡ most_macros) × (BODY_BYTES ≡ longest_body) × (MACRO_LEVELS ≡ most_levels) }
    ensures sessions { (SESSIONS ≡ most_sessions) × (QUEUED_ERRORS ≡ most_errors) }
{}
