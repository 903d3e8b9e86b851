//! Lists with known answers, and the first refusals of others.

use std::alloc::Global;
use std::test::Fail;
use sw_base::{Chan, ScpiError};
use sw_channel::{
    Position, one_reading, one_reading_of_positions, print_list, print_positions, read_list,
    read_positions,
};

/// Whether a text is that list.
fn reads(alloc: Global, text: &[u8], wanted: &[Chan]) -> bool {
    match read_list(alloc, text) {
        Ok(list) => list.as_slice() == wanted,
        Err(_) => false,
    }
}

/// Whether a text is refused by this error.
fn refuses(alloc: Global, text: &[u8], error: ScpiError) -> bool {
    match read_list(alloc, text) {
        Ok(_) => false,
        Err(why) => why == error,
    }
}

/// Whether a list is printed so.
fn prints(alloc: Global, list: &[Chan], wanted: &[u8]) -> Result<bool, Fail> {
    let text = print_list(alloc, list)?;
    Ok(text.as_slice() == wanted)
}

#[test]
fn reads_lists(rt: HostRuntime) {
    let plain = [Chan::new(1, 3), Chan::new(1, 4)];
    assert!(rt; reads(rt.alloc(), b"(@1!3,104)", &plain));
    let range = [Chan::new(1, 5), Chan::new(1, 4), Chan::new(1, 3)];
    assert!(rt; reads(rt.alloc(), b"(@1!5:1!3)", &range));
    let spaced = [Chan::new(8, 99), Chan::new(1, 1), Chan::new(1, 2)];
    assert!(rt; reads(rt.alloc(), b"(@ 8 ! 099 , 000000101:1!2 )", &spaced));
    let high = [Chan::new(9, 1), Chan::new(16, 1), Chan::new(16, 99)];
    assert!(rt; reads(rt.alloc(), b"(@901,1601,16!99)", &high));
}

#[test]
fn refuses_other_texts(rt: HostRuntime) {
    let cases = [
        (b"(@)".as_slice(), ScpiError::InvalidExpression),
        (b"(@17!1,1!1&1!2)".as_slice(), ScpiError::InvalidExpression),
        (b"(@1!1,)".as_slice(), ScpiError::InvalidExpression),
        (b"( @1!1)".as_slice(), ScpiError::InvalidExpression),
        (b"(@17!1)".as_slice(), ScpiError::DataOutOfRange),
        (b"(@1701)".as_slice(), ScpiError::DataOutOfRange),
        (b"(@1600)".as_slice(), ScpiError::DataOutOfRange),
        (b"(@16!100)".as_slice(), ScpiError::DataOutOfRange),
        (b"(@15!99:16!1)".as_slice(), ScpiError::DataOutOfRange),
        (b"(@1!0)".as_slice(), ScpiError::DataOutOfRange),
        (b"(@1!1:2!2)".as_slice(), ScpiError::DataOutOfRange),
        (b"(@0000000101)".as_slice(), ScpiError::DataOutOfRange),
    ];
    for (text, error) in cases {
        assert!(rt; refuses(rt.alloc(), text, error));
    }
}

#[test]
fn holds_512_entries(rt: HostRuntime) -> Result<(), Fail> {
    let full = read_list(
        rt.alloc(),
        b"(@1!1:1!99,1!1:1!99,1!1:1!99,1!1:1!99,1!1:1!99,1!1:1!17)",
    )?;
    assert_eq!(rt; full.len(), 512);
    let over = b"(@1!1:1!99,1!1:1!99,1!1:1!99,1!1:1!99,1!1:1!99,1!1:1!18)";
    assert!(rt; refuses(rt.alloc(), over, ScpiError::TooMuchData));
    Ok(())
}

#[test]
fn prints_lists(rt: HostRuntime) -> Result<(), Fail> {
    let list = [Chan::new(1, 5), Chan::new(1, 4), Chan::new(8, 99)];
    assert!(rt; prints(rt.alloc(), &list, b"(@1!5,1!4,8!99)")?);
    let high = [Chan::new(9, 99), Chan::new(10, 1), Chan::new(16, 10)];
    assert!(rt; prints(rt.alloc(), &high, b"(@9!99,10!1,16!10)")?);
    assert!(rt; prints(rt.alloc(), &[], b"(@)")?);
    one_reading();
    Ok(())
}

/// Whether a text spells positions that are printed so.
fn reads_positions(alloc: Global, text: &[u8], wanted: &[u8]) -> Result<bool, Fail> {
    let positions = read_positions(alloc, text)?;
    let printed = print_positions(alloc, &positions)?;
    Ok(printed.as_slice() == wanted)
}

/// Whether a text is refused as a list of positions by this error.
fn refuses_positions(alloc: Global, text: &[u8], error: ScpiError) -> bool {
    match read_positions(alloc, text) {
        Ok(_) => false,
        Err(why) => why == error,
    }
}

#[test]
fn reads_positions_as_they_are_written(rt: HostRuntime) -> Result<(), Fail> {
    let alloc = rt.alloc();
    assert!(rt; reads_positions(alloc, b"(@1!1&2!1,2!3:2!2)", b"(@1!1&2!1,2!3,2!2)")?);
    assert!(rt; reads_positions(alloc, b"(@1699&901,1602:1601)", b"(@16!99&9!1,16!2,16!1)")?);
    assert!(rt;
        reads_positions(
            alloc,
            b"(@ 1!1 & 201 & 3 ! 01&8!99 , 1!1 )",
            b"(@1!1&2!1&3!1&8!99,1!1)"
        )?
    );
    assert!(rt;
        reads_positions(
            alloc,
            b"(@2!1&1!1,1!1&2!1,2!1&1!1)",
            b"(@2!1&1!1,1!1&2!1,2!1&1!1)"
        )?
    );
    let printed = print_positions(alloc, &[])?;
    assert!(rt; printed.as_slice() == b"(@)".as_slice());
    one_reading_of_positions();
    Ok(())
}

#[test]
fn shows_the_channels_of_a_position(rt: HostRuntime) -> Result<(), Fail> {
    let positions = read_positions(rt.alloc(), b"(@2!3&1!20)")?;
    let position = positions
        .get(0)
        .copied()
        .unwrap_or(Position::new(Chan::new(1, 1)));
    assert_eq!(rt; position.len(), 2);
    assert!(rt;
        position.chan(0) == Some(Chan::new(2, 3)) && position.chan(1) == Some(Chan::new(1, 20))
    );
    assert!(rt; position.chan(2).is_none());
    Ok(())
}

#[test]
fn refuses_other_texts_of_positions(rt: HostRuntime) {
    let cases = [
        (b"(@)".as_slice(), ScpiError::InvalidExpression),
        (b"(@1!1&)".as_slice(), ScpiError::InvalidExpression),
        (b"(@&1!1)".as_slice(), ScpiError::InvalidExpression),
        (b"(@1!1&&2!1)".as_slice(), ScpiError::InvalidExpression),
        (b"(@1!1&1!2:1!3)".as_slice(), ScpiError::InvalidExpression),
        (b"(@1!1:1!3&2!1)".as_slice(), ScpiError::InvalidExpression),
        (b"(@1!1&1!1&x)".as_slice(), ScpiError::InvalidExpression),
        (b"(@1!1&1!1)".as_slice(), ScpiError::DataOutOfRange),
        (b"(@1!1&101)".as_slice(), ScpiError::DataOutOfRange),
        (b"(@2!1&1!1&01!1)".as_slice(), ScpiError::DataOutOfRange),
        (b"(@1!1&17!1)".as_slice(), ScpiError::DataOutOfRange),
        (b"(@1!1&1!2&1!3&1!4&1!5)".as_slice(), ScpiError::TooMuchData),
        (
            b"(@1!1&1!2&1!3&1!4&1!2)".as_slice(),
            ScpiError::DataOutOfRange,
        ),
        (
            b"(@1!1&1!2&1!3&1!4&1!0)".as_slice(),
            ScpiError::DataOutOfRange,
        ),
        (
            b"(@1!1&1!2&1!3&1!4&1!5,17!1)".as_slice(),
            ScpiError::TooMuchData,
        ),
    ];
    for (text, error) in cases {
        assert!(rt; refuses_positions(rt.alloc(), text, error));
    }
}

/// 512 positions, the last of two channels, and more text behind them.
fn after_512(alloc: Global, more: &[u8]) -> Result<Vec<u8>, Fail> {
    let mut text = b"(@1!1:1!99,1!1:1!99,1!1:1!99,1!1:1!99,1!1:1!99,1!1:1!16,1!1&2!1"
        .as_slice()
        .to_vec(alloc)?;
    text.extend_from_slice(more)?;
    Ok(text)
}

#[test]
fn holds_512_positions(rt: HostRuntime) -> Result<(), Fail> {
    let full = read_positions(rt.alloc(), &after_512(rt.alloc(), b")")?)?;
    assert_eq!(rt; full.len(), 512);
    let cases = [
        (b",1!1)".as_slice(), ScpiError::TooMuchData),
        (b",17!1)".as_slice(), ScpiError::DataOutOfRange),
        (b",1!1&1!1)".as_slice(), ScpiError::TooMuchData),
        (b",1!1:1!2)".as_slice(), ScpiError::TooMuchData),
        (b",1!1:2!2)".as_slice(), ScpiError::DataOutOfRange),
    ];
    for (more, error) in cases {
        assert!(rt; refuses_positions(rt.alloc(), &after_512(rt.alloc(), more)?, error));
    }
    Ok(())
}
