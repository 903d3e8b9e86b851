//! That what `hostile_memory.rt` works on is there where memory is ample: its own tests pass where nothing began, since
//! each growth of theirs may be refused.

use crate::hostile_memory::{EXAMPLE, LIST, cage, example};
use std::alloc::Global;
use sw_channel::{read_list, read_positions};
use sw_code::{compile, print_listing, read_listing};
use sw_hislip::Locks;
use sw_macro::Macros;
use sw_status::Status;
use sw_trigger::Settings;
use sw_verify::verify;

fn reads_lists(alloc: Global) -> bool {
    let channels = read_list(alloc, LIST).is_ok();
    channels && read_positions(alloc, b"(@1!1&2!1,2!3:2!2)").is_ok()
}

/// Whether settings are compiled to a code that is printed.
fn compiles(alloc: Global, settings: &Settings) -> bool {
    if settings.list().is_empty() {
        return false;
    }
    match compile(alloc, settings) {
        Ok(code) => {
            let is_printed = print_listing(alloc, &code).is_ok();
            drop(code);
            is_printed
        }
        Err(_) => false,
    }
}

/// Whether those of the example are.
fn compiles_example(alloc: Global) -> bool {
    let Some(settings) = example(alloc) else {
        return false;
    };
    let is_so = compiles(alloc, &settings);
    drop(settings);
    is_so
}

/// Whether the example's listing is read, and verified for the cage.
fn verifies_example(alloc: Global) -> bool {
    let Some(layout) = cage(alloc) else {
        return false;
    };
    let is_so = match read_listing(alloc, EXAMPLE) {
        Ok(code) => verify(alloc, code, &layout, &[], 100_000).is_ok(),
        Err(_) => false,
    };
    drop(layout);
    is_so
}

fn defines_macro(alloc: Global) -> bool {
    let mut macros = Macros::new(alloc);
    let is_so = macros.define(alloc, b"A", b"*IDN?").is_ok();
    drop(macros);
    is_so
}

fn locks_by_key(alloc: Global) -> bool {
    let mut locks = Locks::new();
    let is_so = locks.ask(alloc, 1, b"key").is_ok();
    drop(locks);
    is_so
}

#[test]
fn nothing_lacks_memory_that_is_there(rt: HostRuntime) {
    assert!(rt;
        reads_lists(rt.alloc())
            && compiles_example(rt.alloc())
            && verifies_example(rt.alloc())
            && defines_macro(rt.alloc())
            && locks_by_key(rt.alloc())
            && Status::new(rt.alloc()).is_ok()
    );
}
