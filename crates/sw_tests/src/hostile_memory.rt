//! A mainframe that loses the cards of its running scan, where the allocator refuses a growth of memory: until the scan
//! has begun the mainframe may report a lack of memory, and from then on nothing takes any. `tests/growths/run --tests`
//! runs this while the allocator refuses each growth in turn.

use crate::asks::{fit, misses_return};
use crate::boxes::{mux, three, voltmeter};
use crate::scans::{comes_out_safe, keeps_its_cards, measuring};
use std::alloc::{AllocError, Global};
use sw_card::{Meter, Relay};
use sw_core::Core;

/// Whether a scan that has begun keeps its cards and releases them as ever, or none has begun.
fn is_pulled_or_unbegun<R: Relay, M: Meter>(
    alloc: Global,
    core: &mut Core<R, M>,
    cards: (R, R, R),
    other: R,
    meter: M,
) -> bool {
    let Some(sid) = fit(alloc, core, cards, meter) else {
        return false;
    };
    match measuring(alloc, core, sid) {
        Some(job) => {
            keeps_its_cards(alloc, core, other)
                && comes_out_safe(alloc, core, 1, 1)
                && misses_return(alloc, core, job)
                && comes_out_safe(alloc, core, 4, 4)
        }
        None => true,
    }
}

/// The same over a core that is at rest, or for which there is no memory.
fn is_so_at_rest<R: Relay, M: Meter>(alloc: Global, cards: (R, R, R), other: R, meter: M) -> bool {
    let Ok(mut core) = Core::new(alloc) else {
        return true;
    };
    let is_so = is_pulled_or_unbegun(alloc, &mut core, cards, other, meter);
    drop(core);
    is_so
}

/// The same of boxed cards.
fn boxes_are_pulled(alloc: Global) -> Result<bool, AllocError> {
    let cards = three(alloc)?;
    let other = mux(alloc, 7, 1)?;
    let meter = voltmeter(alloc)?;
    Ok(is_so_at_rest(alloc, cards, other, meter))
}

#[test]
fn a_running_scan_loses_its_cards_without_memory(rt: HostRuntime) {
    let is_so = boxes_are_pulled(rt.alloc()).unwrap_or(true);
    assert!(rt; is_so);
}
