//! What the calls answer, with values from the standards' registers.

use std::process::Abort;
use std::test::Fail;
use sw_base::{ScpiError, StatusGroup};
use sw_status::{Group, Status};

/// Reports an unknown header. It promises nothing, nor do those below it.
fn fault(status: &mut Status) {
    status.push_error(ScpiError::UndefinedHeader);
}

/// Whether reading the event status register gives this.
fn reads_esr(status: &mut Status, wanted: u8) -> bool {
    status.read_esr() == wanted
}

/// Whether the status byte is this.
fn has_byte(status: &Status, mav: bool, wanted: u8) -> bool {
    status.byte(mav) == wanted
}

/// Whether the oldest error is this.
fn pops(status: &mut Status, wanted: Option<ScpiError>) -> bool {
    status.pop_error() == wanted
}

/// Reports an unknown header 33 times.
fn fault_33_times(status: &mut Status) {
    for _ in 0..33u8 {
        fault(status);
    }
}

/// Whether the oldest 31 errors are unknown headers.
fn pops_31_headers(status: &mut Status) -> bool {
    for _ in 0..31u8 {
        if !pops(status, Some(ScpiError::UndefinedHeader)) {
            return false;
        }
    }
    true
}

fn overflow(rt: &impl Abort, status: &mut Status) {
    fault_33_times(status);
    assert!(rt; status.count() == 32 && reads_esr(status, 0x80 + 0x20 + 0x08));
    assert_eq!(rt; status.all_errors().len(), 32);
    assert!(rt; pops_31_headers(status));
    assert!(rt; pops(status, Some(ScpiError::QueueOverflow)));
    assert!(rt; pops(status, None));
}

#[test]
fn newest_of_33_errors_is_overflow(rt: HostRuntime) -> Result<(), Fail> {
    let mut status = Status::new(rt.alloc())?;
    overflow(&rt, &mut status);
    drop(status);
    Ok(())
}

/// Power came on: the status reports that once.
fn begin(rt: &impl Abort, status: &mut Status) {
    assert_eq!(rt; status.esr(), 128);
    assert!(rt; reads_esr(status, 128) && reads_esr(status, 0));
}

/// An error, and a message that is available, with each bit of the byte enabled.
fn enable_service(rt: &impl Abort, status: &mut Status) {
    status.set_sre(255);
    assert_eq!(rt; status.sre(), 191);
    fault(status);
    assert!(rt; has_byte(status, false, 68));
    status.clear();
    assert!(rt; has_byte(status, true, 80));
    status.set_sre(0);
}

/// An error with its event status bit enabled.
fn enable_events(rt: &impl Abort, status: &mut Status) {
    status.set_ese(32);
    assert_eq!(rt; status.ese(), 32);
    fault(status);
    assert!(rt; has_byte(status, false, 36) && status.summary() == 36);
    status.clear_errors();
    status.operation_complete();
    assert!(rt; reads_esr(status, 33));
}

#[test]
fn status_byte_follows_its_registers(rt: HostRuntime) -> Result<(), Fail> {
    let mut status = Status::new(rt.alloc())?;
    begin(&rt, &mut status);
    enable_service(&rt, &mut status);
    enable_events(&rt, &mut status);
    drop(status);
    Ok(())
}

/// Whether reading the group's event register gives this.
fn takes_event(status: &mut Status, which: StatusGroup, wanted: u16) -> bool {
    status.take_event(which) == wanted
}

/// The status reports an event of the questionable group once, and its condition stays.
fn rise(rt: &impl Abort, status: &mut Status) {
    status.set_condition(StatusGroup::Questionable, 512);
    assert!(rt; takes_event(status, StatusGroup::Questionable, 512));
    assert!(rt; takes_event(status, StatusGroup::Questionable, 0));
    assert_eq!(rt; status.group(StatusGroup::Questionable).condition(), 512);
}

/// The end of a condition is an event by the negative filter.
fn fall(rt: &impl Abort, status: &mut Status) {
    status.set_ntr(StatusGroup::Questionable, 65535);
    status.set_ptr(StatusGroup::Questionable, 0);
    status.set_enable(StatusGroup::Questionable, 512);
    status.set_condition(StatusGroup::Questionable, 32768);
    assert!(rt; has_byte(status, false, 8));
    assert_eq!(rt; status.group(StatusGroup::Questionable).ntr(), 32767);
}

/// The operation group joins it, until both are preset.
fn summarize(rt: &impl Abort, status: &mut Status) {
    status.set_enable(StatusGroup::Operation, 32);
    status.set_condition(StatusGroup::Operation, 32);
    assert!(rt; has_byte(status, false, 136));
    status.preset();
    assert!(rt; has_byte(status, false, 0));
}

#[test]
fn each_group_latches_its_events(rt: HostRuntime) -> Result<(), Fail> {
    let mut status = Status::new(rt.alloc())?;
    rise(&rt, &mut status);
    fall(&rt, &mut status);
    summarize(&rt, &mut status);
    drop(status);
    Ok(())
}

/// Whether there are this many service requests after the end of an event, with an error in it or none.
fn requests(status: &mut Status, is_faulty: bool, wanted: u64) -> bool {
    if is_faulty {
        fault(status);
    }
    status.end_event();
    status.requests() == wanted
}

fn request(rt: &impl Abort, status: &mut Status) {
    status.set_sre(4);
    assert!(rt; requests(status, false, 0));
    assert!(rt; requests(status, true, 1));
    assert!(rt; requests(status, true, 1));
    status.clear();
    assert!(rt; requests(status, false, 1));
    assert!(rt; requests(status, true, 2));
}

#[test]
fn a_new_reason_is_one_request(rt: HostRuntime) -> Result<(), Fail> {
    let mut status = Status::new(rt.alloc())?;
    request(&rt, &mut status);
    drop(status);
    Ok(())
}

/// Enables every event, a rise of bit 0 and a fall of bit 1.
fn set_filters(rt: &impl Abort, group: &mut Group) {
    group.set_enable(65535);
    group.set_ptr(1);
    group.set_ntr(2);
    assert!(rt; group.enable() == 32767 && group.ptr() == 1 && group.ntr() == 2);
}

/// Whether reading the event register gives this, once the condition is that.
fn gives(group: &mut Group, condition: u16, wanted: u16) -> bool {
    group.set_condition(condition);
    group.condition() == condition
        && group.event() == wanted
        && group.summary()
        && group.take_event() == wanted
}

#[test]
fn group_alone(rt: HostRuntime) {
    let mut group = Group::new();
    set_filters(&rt, &mut group);
    assert!(rt; gives(&mut group, 3, 1));
    assert!(rt; gives(&mut group, 0, 2));
    group.preset();
    assert_eq!(rt; group.ptr(), 32767);
}
