//! What templates send.

use std::alloc::Global;
use std::test::Fail;
use sw_rack::rendered;

/// Whether the template sends this for the channel.
fn sends(alloc: Global, template: &str, channel: u8, wanted: &[u8]) -> bool {
    if channel > 99 {
        return false;
    }
    match rendered(alloc, template, channel) {
        Ok(Some(sent)) => sent.as_slice() == wanted,
        _ => false,
    }
}

fn is_refused(alloc: Global, template: &str, channel: u8) -> bool {
    if channel > 99 {
        return false;
    }
    matches!(rendered(alloc, template, channel), Ok(None))
}

#[test]
fn numbers_are_written_as_asked(rt: HostRuntime) -> Result<(), Fail> {
    let alloc = rt.alloc();
    assert!(rt; sends(alloc, "set {ch} 1\n", 7, b"set 7 1\n"));
    assert!(rt; sends(alloc, "{ch}{ch0}", 10, b"109"));
    assert!(rt; sends(alloc, "ROUT:CLOS (@1{ch:02})", 3, b"ROUT:CLOS (@103)"));
    assert!(rt; sends(alloc, "{ch0:02}.{ch:02}", 99, b"98.99"));
    assert!(rt; sends(alloc, "relay on {ch0:X}\r", 11, b"relay on A\r"));
    assert!(rt; sends(alloc, "{ch0:X}{ch:X}", 35, b"YZ"));
    assert!(rt; sends(alloc, "", 1, b""));
    Ok(())
}

#[test]
fn other_words_are_refused(rt: HostRuntime) -> Result<(), Fail> {
    let alloc = rt.alloc();
    assert!(rt; is_refused(alloc, "relay {n}", 1));
    assert!(rt; is_refused(alloc, "relay {ch", 1));
    assert!(rt; is_refused(alloc, "{}", 1));
    assert!(rt; is_refused(alloc, "{ch:03}", 1));
    assert!(rt; is_refused(alloc, "{ {ch}", 1));
    assert!(rt; is_refused(alloc, "{ch:X}", 36));
    assert!(rt; is_refused(alloc, "{ch0:X}", 37));
    assert!(rt; sends(alloc, "} {ch0:X}", 36, b"} Z"));
    Ok(())
}
