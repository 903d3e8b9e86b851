//! Listings that no client should send, ended after each of their bytes. The tests have the answers by the rules of
//! `docs/LISTING.md`: a line counts once its line feed is there, and a line without one is no step.

use std::alloc::Global;
use sw_code::{ListError, ListFault, read_listing};

/// The first fault of a front part of a listing that itself has this first fault.
fn fault_of(text: &[u8], fault: ListError) -> Option<ListError> {
    let mut lines = 0u32;
    let mut is_open = false;
    for byte in text {
        is_open = *byte != b'\n';
        if !is_open {
            lines = lines.saturating_add(1);
        }
    }
    if lines >= fault.line {
        return Some(fault);
    }
    if lines >= 2 && !is_open {
        return None;
    }
    Some(ListError {
        line: lines.saturating_add(1),
        kind: ListFault::BadStep,
    })
}

/// Whether a text is refused by this fault, or read where there is none.
fn is_answered(alloc: Global, text: &[u8], fault: Option<ListError>) -> bool {
    match read_listing(alloc, text) {
        Ok(code) => {
            drop(code);
            fault.is_none()
        }
        Err(error) => fault == Some(error),
    }
}

/// Whether each front part of a listing gets the answer of the rules, where this is its first fault.
fn holds(alloc: Global, text: &[u8], line: u32, kind: ListFault) -> bool {
    let fault = ListError { line, kind };
    let mut is_so = is_answered(alloc, text, fault_of(text, fault));
    for cut in 0..text.len() {
        let (front, _) = text.split_at(cut);
        is_so = is_so && is_answered(alloc, front, fault_of(front, fault));
    }
    is_so
}

/// Whether each of these texts is refused as step 0, wherever it is cut.
fn refuses_each(alloc: Global, texts: &[&[u8]], kind: ListFault) -> bool {
    let mut is_so = true;
    for text in texts {
        is_so = is_so && holds(alloc, text, 3, kind);
    }
    is_so
}

#[test]
fn a_listing_cut_anywhere_is_refused_by_its_line(rt: HostRuntime) {
    let whole =
        b"scan 1\nmeter 4\nset 0 2\nset 1 100000\nwait arm1\nwait arm2\nwait trig\npause 3600000000\n\
close 1!1\nread\nopen 1!1\nloop 1 2\nloop 0 1\nhalt\n";
    let zeros = b"scan 1\nmeter 00000000000000000004\nclose 01!0099\nloop 0 00008191\n";
    let newer =
        b"scan 2\nmeter 16\nset 2 1\nset 3 100000\nwait arm3\ntimer arm1 1\ntimer trig 3600000000\n\
close 16!99&9!1\nread\nopen 9!1&16!99\nloop 3 2\nloop 2 1\nhalt\n";
    assert!(rt;
        holds(rt.alloc(), whole, u32::MAX, ListFault::BadStep)
            && holds(rt.alloc(), zeros, u32::MAX, ListFault::BadStep)
            && holds(rt.alloc(), newer, u32::MAX, ListFault::BadStep)
    );
}

#[test]
fn wrong_first_lines_are_refused_wherever_they_are_cut(rt: HostRuntime) {
    let step = ListFault::BadStep;
    let number = ListFault::BadNumber;
    assert!(rt;
        holds(rt.alloc(), b"scan 99\nmeter 4\nhalt\n", 1, step)
            && holds(rt.alloc(), b"scan 02\nmeter 4\nhalt\n", 1, step)
            && holds(rt.alloc(), b"SCAN 1\nmeter 4\nhalt\n", 1, step)
            && holds(rt.alloc(), b"scan 1 \nmeter 4\nhalt\n", 1, step)
            && holds(rt.alloc(), b"scan 1\r\nmeter 4\r\nhalt\r\n", 1, step)
            && holds(rt.alloc(), b"\nscan 1\nmeter 4\nhalt\n", 1, step)
            && holds(rt.alloc(), b"\xff\n\0\n", 1, step)
            && holds(rt.alloc(), b"scan 1\nhalt\n", 2, step)
            && holds(rt.alloc(), b"scan 1\nmeter\nhalt\n", 2, step)
            && holds(rt.alloc(), b"scan 1\nmeter 4 4\nhalt\n", 2, step)
            && holds(rt.alloc(), b"scan 1\nmeter 0\nhalt\n", 2, number)
            && holds(rt.alloc(), b"scan 1\nmeter 9\nhalt\n", 2, number)
            && holds(rt.alloc(), b"scan 2\nmeter 17\nhalt\n", 2, number)
            && holds(rt.alloc(), b"scan 1\nmeter x\nhalt\n", 2, number)
            && holds(
                rt.alloc(),
                b"scan 1\nmeter 000000000000000000004\nhalt\n",
                2,
                number
            )
    );
}

#[test]
fn lines_that_are_no_steps_are_refused_wherever_they_are_cut(rt: HostRuntime) {
    let texts: [&[u8]; 20] = [
        b"scan 1\nmeter 4\n\nhalt\n",
        b"scan 1\nmeter 4\nclos 1!1\nhalt\n",
        b"scan 1\nmeter 4\nClose 1!1\nhalt\n",
        b"scan 1\nmeter 4\nclose  1!1\nhalt\n",
        b"scan 1\nmeter 4\n close 1!1\nhalt\n",
        b"scan 1\nmeter 4\nclose\t1!1\nhalt\n",
        b"scan 1\nmeter 4\nclose 1 1\nhalt\n",
        b"scan 1\nmeter 4\nread 1\nhalt\n",
        b"scan 1\nmeter 4\nread \nhalt\n",
        b"scan 1\nmeter 4\nhalt\r\n",
        b"scan 1\nmeter 4\nwait arm3\nhalt\n",
        b"scan 1\nmeter 4\ntimer arm1 1\nhalt\n",
        b"scan 2\nmeter 4\nwait arm4\nhalt\n",
        b"scan 2\nmeter 4\ntimer arm4 1\nhalt\n",
        b"scan 2\nmeter 4\ntimer arm1\nhalt\n",
        b"scan 1\nmeter 4\nwait\nhalt\n",
        b"scan 1\nmeter 4\nset 9\nhalt\n",
        b"scan 1\nmeter 4\nset 9 9 9\nhalt\n",
        b"scan 1\nmeter 4\n\0\nhalt\n",
        b"scan 1\nmeter 4\n\xff\xfe\nhalt\n",
    ];
    assert!(rt; refuses_each(rt.alloc(), &texts, ListFault::BadStep));
}

#[test]
fn numbers_out_of_range_are_refused_wherever_they_are_cut(rt: HostRuntime) {
    let texts: [&[u8]; 25] = [
        b"scan 1\nmeter 4\nset 3 1\nhalt\n",
        b"scan 2\nmeter 4\nset 4 1\nhalt\n",
        b"scan 1\nmeter 4\nset 0 0\nhalt\n",
        b"scan 1\nmeter 4\nset 0 100001\nhalt\n",
        b"scan 1\nmeter 4\nset 0 18446744073709551616\nhalt\n",
        b"scan 1\nmeter 4\nset 0 1e3\nhalt\n",
        b"scan 1\nmeter 4\npause 0\nhalt\n",
        b"scan 1\nmeter 4\npause 3600000001\nhalt\n",
        b"scan 1\nmeter 4\npause -1\nhalt\n",
        b"scan 1\nmeter 4\npause +1\nhalt\n",
        b"scan 1\nmeter 4\npause 000000000000000000001\nhalt\n",
        b"scan 1\nmeter 4\nclose 0!1\nhalt\n",
        b"scan 1\nmeter 4\nclose 9!1\nhalt\n",
        b"scan 1\nmeter 4\nclose 1!0\nhalt\n",
        b"scan 1\nmeter 4\nclose 1!100\nhalt\n",
        b"scan 1\nmeter 4\nclose 1!1!1\nhalt\n",
        b"scan 1\nmeter 4\nclose 1!\nhalt\n",
        b"scan 1\nmeter 4\nclose 101\nhalt\n",
        b"scan 1\nmeter 4\nopen 1!1\r\nhalt\n",
        b"scan 1\nmeter 4\nloop 3 0\nhalt\n",
        b"scan 2\nmeter 4\nloop 4 0\nhalt\n",
        b"scan 2\nmeter 4\nclose 17!1\nhalt\n",
        b"scan 2\nmeter 4\ntimer arm1 0\nhalt\n",
        b"scan 2\nmeter 4\ntimer arm3 3600000001\nhalt\n",
        b"scan 1\nmeter 4\nloop 0 8192\nhalt\n",
    ];
    assert!(rt; refuses_each(rt.alloc(), &texts, ListFault::BadNumber));
}
