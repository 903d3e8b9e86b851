//! The lists of ROUTe:CLOSe and ROUTe:OPEN over a core of cards with drivers that write into one record: the order of
//! their calls, and that none comes behind one that fails.

use crate::asks::{does, fit, has_closed, refuses};
use crate::boxes::voltmeter;
use crate::recorded::{Record, recorded, recorded_with_fuse};
use std::alloc::Global;
use std::sync::Arc;
use std::sync::atomic::{AtomicU64, Ordering};
use std::test::Fail;
use sw_base::ScpiError;
use sw_card::{Meter, Relay};
use sw_core::{Core, Sid};

/// Whether a command is done by these calls.
fn drives<R: Relay, M: Meter>(
    alloc: Global,
    core: &mut Core<R, M>,
    sid: Sid,
    record: &Record,
    unit: &[u8],
    wanted: u64,
) -> bool {
    record.store(0, Ordering::SeqCst);
    does(alloc, core, sid, unit) && record.load(Ordering::SeqCst) == wanted
}

/// Whether lists are closed and opened in the order written, and what is so already is passed over.
fn keeps_order<R: Relay, M: Meter>(
    alloc: Global,
    core: &mut Core<R, M>,
    sid: Sid,
    record: &Record,
) -> bool {
    drives(alloc, core, sid, record, b"ROUT:CLOS (@2!2,2!1)", 221_211)
        && drives(alloc, core, sid, record, b"ROUT:CLOS (@2!1,3!2,2!2)", 321)
        && drives(
            alloc,
            core,
            sid,
            record,
            b"ROUT:OPEN (@2!1,3!2,2!1,2!2)",
            210_320_220,
        )
}

/// Whether no channel behind the one that fails is closed, and every relay is open then.
fn stops_at_failure<R: Relay, M: Meter>(
    alloc: Global,
    core: &mut Core<R, M>,
    sid: Sid,
    record: &Record,
) -> bool {
    record.store(0, Ordering::SeqCst);
    refuses(
        alloc,
        core,
        sid,
        b"ROUT:CLOS (@1!1,2!2,3!1)",
        ScpiError::HardwareError,
    ) && record.load(Ordering::SeqCst) == 111_221
        && has_closed(alloc, core, sid, b"(@)")
}

/// What a test looks at over a core of these cards.
#[derive(Clone, Copy)]
enum Look {
    Order,
    Failure,
}

fn holds<R: Relay, M: Meter>(
    alloc: Global,
    cards: (R, R, R),
    meter: M,
    record: &Record,
    look: Look,
) -> bool {
    let Ok(mut core) = Core::new(alloc) else {
        return false;
    };
    let is_so = match fit(alloc, &mut core, cards, meter) {
        Some(sid) => match look {
            Look::Order => keeps_order(alloc, &mut core, sid, record),
            Look::Failure => stops_at_failure(alloc, &mut core, sid, record),
        },
        None => false,
    };
    drop(core);
    is_so
}

#[test]
fn lists_are_done_in_the_order_written(rt: HostRuntime) -> Result<(), Fail> {
    let record = Arc::new(rt.alloc(), AtomicU64::new(0))?;
    let cards = recorded(rt.alloc(), &record)?;
    let meter = voltmeter(rt.alloc())?;
    assert!(rt; holds(rt.alloc(), cards, meter, &record, Look::Order));
    Ok(())
}

#[test]
fn a_list_stops_at_its_first_failure(rt: HostRuntime) -> Result<(), Fail> {
    let record = Arc::new(rt.alloc(), AtomicU64::new(0))?;
    let cards = recorded_with_fuse(rt.alloc(), &record)?;
    let meter = voltmeter(rt.alloc())?;
    assert!(rt; holds(rt.alloc(), cards, meter, &record, Look::Failure));
    Ok(())
}
