//! The check of a scan before it begins.

ghost use Rattle.std.specs.Prelude.{◌≡◌, ◌↔◌, IsOk, IfErr, IfSome, IfNone};
ghost use Rattle.std.specs.List.{list_all, AllByRecursion};
ghost use Rattle.sw_base.specs.Layout.{is_present};
ghost use Rattle.sw_verify.specs.Channels.{is_among};
ghost use Rattle.sw_verify.specs.Sound.{CanCloseEach};
ghost use Rattle.sw_verify.specs.Stops.{IsFirstBarred};
ghost use Rattle.sw_verify.specs.Check.{IsReadyBySettings, IsFirst};

use crate::layout::Layout;
use crate::ledger::Ledger;
use crate::refusal::Refusal;
use crate::snapshot::Snapshot;
use sw_base::Chan;
use sw_channel::Position;

/// Whether the scan of the settings may begin, under any program; else the first refusal that applies, and never
/// `NoMemory`.
///
/// It looks at each position that the scan uses once, and at each closed channel once.
pub fn check(snapshot: &Snapshot) -> Result<(), Refusal>
    ensures ok { IsOk result ↔ IsReadyBySettings snapshot.now }
    ensures first { IfErr result (λ r. IsFirst r snapshot.now) }
{
    let settings = &snapshot.settings.scan;
    let layout = &snapshot.layout;
    if settings.list().is_empty() {
        return Err(Refusal::EmptyList);
    }
    let used = settings.used();
    if !are_present(layout, used) {
        return Err(Refusal::NoChannel);
    }
    if !layout.has_meter(settings.meter()) {
        return Err(Refusal::NoMeter);
    }
    if let Some(_) = first_blocked(layout, snapshot.closed.as_slice(), used) {
        return Err(Refusal::GroupClash);
    }
    if u64::from(settings.points()) < settings.readings() {
        return Err(Refusal::TooManyReadings);
    }
    Ok(())
}

fn are_present(layout: &Layout, positions: &[Position]) -> bool
    ensures { result ≡ list_all (list_all (is_present layout.now)) positions.now }
{
    positions.iter().all(|p| all_present(layout, p.as_slice()))
}

fn all_present(layout: &Layout, channels: &[Chan]) -> bool
    ensures { result ≡ list_all (is_present layout.now) channels.now }
{
    channels.iter().all(|c| layout.has_channel(*c))
}

/// The first of the positions that can't be closed where these channels are, each judged by itself.
pub fn first_blocked<'a>(
    layout: &Layout,
    closed: &[Chan],
    positions: &'a [Position],
) -> Option<&'a Position>
    ensures free { IfNone result (AllByRecursion (CanCloseEach layout.now (is_among closed.now)) positions.now) }
    ensures blocked { IfSome result (λ p. IsFirstBarred layout.now (is_among closed.now) positions.now p.now) }
{
    let mut ledger = Ledger::room();
    ledger.begin(layout, closed);
    for p in positions {
        if let Err(_) = ledger.close(layout, p) {
            return Some(p);
        }
        if let Err(_) = ledger.open(layout, p) {
            unreachable!();
        }
    }
    None
}
