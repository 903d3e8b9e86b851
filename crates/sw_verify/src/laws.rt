//! What holds of every scan that passes the check, while the cards stay and nothing else closes a channel.

ghost use Rattle.std.specs.Prelude.{◌≡◌, ℕ, ◌≤◌, take, None};
ghost use Rattle.sw_base.specs.Layout.{Channel, IsExclusive};
ghost use Rattle.sw_trigger.specs.Counts.{reads};
ghost use Rattle.sw_verify.specs.Sound.{effect};
ghost use Rattle.sw_verify.specs.Setup.{agenda, running};
ghost use Rattle.sw_verify.specs.Ready.{IsReady, IsFirstCause};
ghost use Rattle.sw_verify.specs.declared.refusal.Refusal.{Refusal};
ghost use Rattle.sw_verify.specs.Moments.{found, closed_after, IsListed, AtMostOneMore};

use crate::snapshot::Snapshot;

/// At its end it has closed nothing that it did not find closed, and opened nothing that it did.
pub fn ends_as_it_began(snapshot: &Snapshot)
    requires passed { IsReady snapshot.now }
    ensures { (c : Channel) → effect (found snapshot.now) (agenda snapshot.now.settings) c ≡ found snapshot.now c }
{}

/// At each moment the closed channels are those that it found, and at most those of one of its positions more. A
/// program may close several positions at once.
pub fn closes_one_position_at_a_time(snapshot: &Snapshot)
    requires passed { IsReady snapshot.now }
    requires settings { running snapshot.now.settings.program ≡ None }
    ensures { (i : ℕ) → AtMostOneMore (IsListed snapshot.now.settings.scan.list) (found snapshot.now)
        (closed_after snapshot.now i) }
{}

/// Where it found present channels closed of which no two clash, it is so at each moment: it closes no absent channel,
/// and never two of one group.
pub fn never_clashes(snapshot: &Snapshot)
    requires passed { IsReady snapshot.now }
    requires began { IsExclusive snapshot.now.layout (found snapshot.now) }
    ensures { (i : ℕ) → IsExclusive snapshot.now.layout (closed_after snapshot.now i) }
{}

/// At no moment has it made more readings than there is room for.
pub fn stays_within_its_points(snapshot: &Snapshot)
    requires passed { IsReady snapshot.now }
    ensures { (i : ℕ) → reads (take i (agenda snapshot.now.settings)) ≤ snapshot.now.settings.scan.points }
{}

/// A scan that may not begin has one first cause.
pub fn one_cause(snapshot: &Snapshot)
    ensures { (r s : Refusal) → IsFirstCause r snapshot.now → IsFirstCause s snapshot.now → r ≡ s }
{}
