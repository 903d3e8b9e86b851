//! The cards that come out where a mainframe is closed down, by slot.

ghost use Rattle.std.specs.Prelude.{◌≡◌, IfSome};
ghost use Rattle.sw_core.specs.Opening.{IsFresh};
ghost use Rattle.sw_history.specs.Came.{AllCame};

use crate::shop::{come_out, fitted, install, join, opened, tells};
use std::alloc::Global;
use std::marker::Brand;
use std::sync::{Arc, Wait};
use std::test::*;
use std::time::Clock;
use sw_card::{Card, Meter, Relay};
use sw_core::Core;
use sw_kinds::{Mux, SimDriver, SimSource, Volt};
use sw_workers::{Closed, Mainframe, Open, Opening, Shared, SharedDesk, close_down};

/// A mainframe with relay cards in slots 1 and 3 and a meter in slot 16. It is fresh.
fn spread(alloc: Global) -> Option<Core<Mux<SimDriver>, Volt<SimSource>>>
    ensures { IfSome result (λ core. IsFresh core.seen) }
{
    let Ok(core) = Core::new(alloc) else {
        return None;
    };
    let mut core = opened(core);
    let first = Mux::new(1, 4, 1, SimDriver::new());
    let third = Mux::new(3, 4, 2, SimDriver::new());
    let last = Volt::new(16, SimSource::new(1, 1));
    let has_first = install(alloc, &mut core, 1, Card::relays(first));
    let has_third = install(alloc, &mut core, 3, Card::relays(third));
    let has_last = install(alloc, &mut core, 16, Card::meter(last));
    if has_first && has_third && has_last {
        return Some(core);
    }
    drop(core);
    None
}

/// How a mainframe is closed down.
#[derive(Clone, Copy, PartialEq, Eq)]
enum Ending {
    /// Every relay is opened first.
    Opened,
    /// A session asks once more behind that.
    AskedSince,
    /// Nothing is opened.
    Unopened,
}

/// Closes a mainframe down that no worker serves, after a session sent it this.
fn closed_after<H: Mainframe, R: Relay, M: Meter, W: Wait + Clock + Copy + Drop>(
    rt: W,
    alloc: Global,
    opening: Opening<R, M>,
    message: &[u8],
    ending: Ending,
) -> Option<Closed<R, M>>
    requires first { (opening.core.seen ≡ H.first) × IsFresh opening.core.seen }
    requires came { AllCame H.came opening.core.cards }
    requires ledger { (opening.blank.name ≡ H.name) × (opening.blank.parts ≡ H.parts) }
    requires board { (opening.board.table.shared.table_id ≡ H.table) × (opening.board.table.shared.key ≡ H.opening) }
{
    let (shared, receivers) = Shared::<H, R, M, Open>::new(alloc, opening, Open).ok()?;
    let shared = Arc::new(alloc, shared).ok()?;
    let mut desk = SharedDesk::open(rt, &shared)?;
    let sid = join(&mut desk)?;
    let is_done = tells(alloc, &mut desk, sid, message, b"");
    if ending != Ending::Unopened {
        desk.open_all();
    }
    let is_asked = ending != Ending::AskedSince || tells(alloc, &mut desk, sid, b"*CLS", b"");
    let mut desks = Vec::new(alloc);
    desks.push(desk).ok()?;
    let closed = close_down(&rt, alloc, shared, desks).ok()?;
    drop(receivers);
    if is_done && is_asked {
        return Some(closed);
    }
    None
}

/// Whether these cards come out, by slot, after a session sent the mainframe this.
fn leaves<W: Wait + Clock + Copy + Drop>(
    rt: W,
    alloc: Global,
    core: Core<Mux<SimDriver>, Volt<SimSource>>,
    message: &[u8],
    serials: &[u32; 16],
    ending: Ending,
) -> bool
    requires { IsFresh core.seen }
{
    let Ok(opening) = Opening::new(alloc, core) else {
        return false;
    };
    match closed_after::<Brand, _, _, W>(rt, alloc, opening, message, ending) {
        Some(closed) => come_out(&closed, serials),
        None => false,
    }
}

#[test]
fn each_card_comes_out_at_the_place_of_its_slot(rt: HostRuntime) {
    let serials = [1, 0, 3, 0, 0, 0, 0, 0, 0, 0, 0, 0, 0, 0, 0, 16];
    match spread(rt.alloc()) {
        Some(core) => {
            assert!(rt;
                leaves(
                    rt,
                    rt.alloc(),
                    core,
                    b"ROUT:CLOS (@1!1,3!2)",
                    &serials,
                    Ending::Opened
                )
            )
        }
        None => assert!(rt; false),
    }
}

#[test]
fn a_meter_that_measures_leaves_its_place_empty(rt: HostRuntime) {
    let serials = [1, 0, 0, 0, 0, 0, 0, 0, 0, 0, 0, 0, 0, 0, 0, 0];
    match fitted(rt.alloc(), SimDriver::new(), SimSource::new(1, 1)) {
        Some(core) => {
            assert!(rt;
                leaves(
                    rt,
                    rt.alloc(),
                    core,
                    b"ROUT:SCAN (@1!1);:INIT",
                    &serials,
                    Ending::Opened
                )
            )
        }
        None => assert!(rt; false),
    }
}

/// Whether a mainframe with a closed channel is closed down by such an ending.
fn ends_by<W: Wait + Clock + Copy + Drop>(rt: W, alloc: Global, ending: Ending) -> bool {
    let serials = [1, 0, 3, 0, 0, 0, 0, 0, 0, 0, 0, 0, 0, 0, 0, 16];
    match spread(alloc) {
        Some(core) => leaves(rt, alloc, core, b"ROUT:CLOS (@1!1)", &serials, ending),
        None => false,
    }
}

#[test]
fn a_mainframe_is_closed_down_only_at_rest(rt: HostRuntime) {
    let is_opened = ends_by(rt, rt.alloc(), Ending::Opened);
    let is_asked_since = ends_by(rt, rt.alloc(), Ending::AskedSince);
    let is_unopened = ends_by(rt, rt.alloc(), Ending::Unopened);
    assert!(rt; is_opened && !is_asked_since && !is_unopened);
}
