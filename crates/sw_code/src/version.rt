//! The versions of the listing format.

ghost use Rattle.std.specs.Prelude.{◌≡◌, IfOk, IfSome};
ghost use Rattle.std.specs.List.{join_with_byte};
ghost use Rattle.std.specs.Str.{bytes_eq};
ghost use Rattle.sw_code.specs.Versions.{version_in, version_among, first_parts, IsVersion};
ghost use Rattle.sw_code.specs.Reading.{version_of};

use crate::fault::ListFault;
use crate::parts::{first_part, is_word};
use sw_base::{ARM_LAYERS, COUNTERS, SLOTS, print_number};
use sw_channel::MOST;

/// What a version of the listing format has.
#[derive(Clone, Copy, Debug, PartialEq, Eq)]
pub struct Version {
    /// Its number, which the first line has.
    pub number: u8,
    /// How many slots there are. They are numbered from 1.
    pub slots: u8,
    /// How many ARM layers there are. They are numbered from 1, the outermost.
    pub arm_layers: u8,
    /// How many counters there are. They are numbered from 0.
    pub counters: u8,
    /// How many channels a position has at most.
    pub joined: usize,
    /// Whether there is the step `timer`.
    pub has_timer: bool,
}

/// The versions, each with a number above that of the one before. The last one is printed.
const VERSIONS: [Version; 2] = [
    Version {
        number: 1,
        slots: 8,
        arm_layers: 2,
        counters: 3,
        joined: 4,
        has_timer: false,
    },
    NEWEST,
];

/// The version that is printed. It has all that the instrument has.
pub const NEWEST: Version = Version {
    number: 2,
    slots: SLOTS,
    arm_layers: ARM_LAYERS,
    counters: COUNTERS,
    joined: MOST,
    has_timer: true,
};

/// The version of a text, by its first line; none where that names none, or has no line feed.
#[tactic(auto, using(crate::proofs::Listed::told_some))]
pub fn listing_version(text: &[u8]) -> Option<Version>
    ensures version { result ≡ version_of text.now }
    ensures range { IfSome result IsVersion }
{
    let (line, _) = first_part(text, b'\n')?;
    read_version(line).ok()
}

/// The version that a first line names.
pub fn read_version(line: &[u8]) -> Result<Version, ListFault>
    ensures version { result ≡ version_in line.now }
    ensures range { IfOk result IsVersion }
{
    version_among(&VERSIONS, line)
}

/// The version among these that a first line names.
fn version_among(versions: &[Version], line: &[u8]) -> Result<Version, ListFault>
    ensures { result ≡ version_among versions.now line.now }
{
    for version in versions {
        if tells(line, *version) {
            return Ok(*version);
        }
    }
    Err(ListFault::BadStep)
}

/// Whether a first line names this version: `scan` and its number, without leading zeros.
fn tells(line: &[u8], version: Version) -> bool
    ensures { result ≡ bytes_eq line.now (join_with_byte 32 (first_parts version)) }
{
    let mut buffer = [0; 32];
    let length = print_number(u64::from(version.number), &mut buffer);
    match line.strip_prefix(b"scan ") {
        Some(number) => is_word(number, &buffer[..length]),
        None => false,
    }
}
