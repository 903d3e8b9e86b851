//! Macros at their limits, and expansions.

use std::alloc::{AllocError, Global};
use std::process::Abort;
use std::test::Fail;
use sw_base::ScpiError;
use sw_lex::{Elements, next_unit};
use sw_macro::Macros;

/// What the first unit of a message becomes.
fn expanded(alloc: Global, macros: &Macros, message: &[u8]) -> Result<Vec<u8>, ScpiError> {
    let mut room = Elements::new();
    let Some((unit, _)) = next_unit(message, &mut room)? else {
        return Err(ScpiError::SystemError);
    };
    let mut text = Vec::new(alloc);
    if macros.expand(alloc, &unit, &mut text)? {
        Ok(text)
    } else {
        Ok(unit.text().to_vec(alloc)?)
    }
}

/// Whether the first unit of a message becomes this.
fn becomes(alloc: Global, macros: &Macros, message: &[u8], wanted: &[u8]) -> bool {
    match expanded(alloc, macros, message) {
        Ok(text) => text.as_slice() == wanted,
        Err(_) => false,
    }
}

/// How many bytes the first unit of a message becomes.
fn length(alloc: Global, macros: &Macros, message: &[u8]) -> Result<usize, ScpiError> {
    let text = expanded(alloc, macros, message)?;
    Ok(text.len())
}

/// Whether the first unit of a message is refused by this error.
fn refuses(alloc: Global, macros: &Macros, message: &[u8], error: ScpiError) -> bool {
    match expanded(alloc, macros, message) {
        Ok(_) => false,
        Err(why) => why == error,
    }
}

/// Whether a call is refused by this error.
fn is_refused(answer: Result<(), ScpiError>, error: ScpiError) -> bool {
    answer == Err(error)
}

/// Whether the body of this macro is refused by this error.
fn refuses_body(macros: &Macros, label: &[u8], error: ScpiError) -> bool {
    macros.body(label) == Err(error)
}

/// Defines a macro. It promises nothing, so that a test is checked without all that `define` promises.
fn define(alloc: Global, macros: &mut Macros, label: &[u8], body: &[u8]) -> Result<(), ScpiError> {
    macros.define(alloc, label, body)
}

/// As many bytes `A`.
fn long_body(alloc: Global, n: usize) -> Result<Vec<u8>, AllocError> {
    vec![in alloc; b'A'; n]
}

/// Defines a macro with as many bytes `A`.
fn define_long(
    alloc: Global,
    macros: &mut Macros,
    label: &[u8],
    length: usize,
) -> Result<(), ScpiError> {
    let body = long_body(alloc, length)?;
    define(alloc, macros, label, body.as_slice())
}

/// Defines macros `A` and `B` with these bodies and `NONE` with an empty one, and turns macros on.
fn define_two(alloc: Global, macros: &mut Macros, a: &[u8], b: &[u8]) -> Result<(), ScpiError> {
    define(alloc, macros, b"a", a)?;
    define(alloc, macros, b"B", b)?;
    define(alloc, macros, b"None", b"")?;
    macros.enable(true);
    Ok(())
}

/// The label `M` and two digits.
fn numbered(n: u8) -> [u8; 3] {
    [b'M', b'0' + n / 10 % 10, b'0' + n % 10]
}

/// Defines the macro of that number.
fn define_numbered(
    alloc: Global,
    macros: &mut Macros,
    n: u8,
    body: &[u8],
) -> Result<(), ScpiError> {
    define(alloc, macros, numbered(n).as_slice(), body)
}

/// Whether the macro has this body.
fn has_body(macros: &Macros, label: &[u8], wanted: &[u8]) -> bool {
    macros.body(label) == Ok(wanted)
}

/// Whether the macro in that place has this label.
fn has_label(macros: &Macros, i: usize, wanted: &[u8]) -> bool {
    macros.label(i) == Some(wanted)
}

fn keep_order(rt: &impl Abort, alloc: Global, macros: &mut Macros) -> Result<(), Fail> {
    define_two(alloc, macros, b"1", b"2")?;
    assert_eq!(rt; macros.len(), 3);
    assert!(rt; has_body(macros, b"b", b"2"));
    assert!(rt; has_label(macros, 2, b"NONE"));
    macros.remove(b"A")?;
    assert!(rt; has_label(macros, 0, b"B"));
    assert!(rt; macros.label(2).is_none());
    assert!(rt; is_refused(macros.remove(b"a"), ScpiError::MacroHeaderNotFound));
    assert!(rt; refuses_body(macros, b"1A", ScpiError::IllegalMacroLabel));
    let again = define(alloc, macros, b"none", b"");
    assert!(rt; is_refused(again, ScpiError::MacroRedefinitionNotAllowed));
    macros.purge();
    assert_eq!(rt; macros.len(), 0);
    assert!(rt; macros.enabled());
    Ok(())
}

#[test]
fn keeps_order_of_definition(rt: HostRuntime) -> Result<(), Fail> {
    let mut macros = Macros::new(rt.alloc());
    let result = keep_order(&rt, rt.alloc(), &mut macros);
    drop(macros);
    result
}

/// Defines macros until there are 64.
fn fill(alloc: Global, macros: &mut Macros) -> Result<(), ScpiError> {
    for n in 0..64u8 {
        define_numbered(alloc, macros, n, b"*CLS")?;
    }
    Ok(())
}

fn hold_64(rt: &impl Abort, alloc: Global, macros: &mut Macros) -> Result<(), Fail> {
    fill(alloc, macros)?;
    assert_eq!(rt; macros.len(), 64);
    let again = define(alloc, macros, b"M63", b"");
    assert!(rt; is_refused(again, ScpiError::MacroRedefinitionNotAllowed));
    let more = define(alloc, macros, b"M64", b"");
    assert!(rt; is_refused(more, ScpiError::TooMuchData));
    Ok(())
}

#[test]
fn holds_64_macros(rt: HostRuntime) -> Result<(), Fail> {
    let mut macros = Macros::new(rt.alloc());
    let result = hold_64(&rt, rt.alloc(), &mut macros);
    drop(macros);
    result
}

/// How long the body of the macro is.
fn body_length(macros: &Macros, label: &[u8]) -> Result<usize, ScpiError> {
    Ok(macros.body(label)?.len())
}

fn hold_4096(rt: &impl Abort, alloc: Global, macros: &mut Macros) -> Result<(), Fail> {
    let bad = define_long(alloc, macros, b"LABEL_OF_13_B", 4097);
    assert!(rt; is_refused(bad, ScpiError::IllegalMacroLabel));
    let over = define_long(alloc, macros, b"LABEL_OF_12B", 4097);
    assert!(rt; is_refused(over, ScpiError::MacroDefinitionTooLong));
    define_long(alloc, macros, b"LABEL_OF_12B", 4096)?;
    assert_eq!(rt; body_length(macros, b"label_of_12b")?, 4096);
    Ok(())
}

#[test]
fn holds_bodies_of_4096_bytes(rt: HostRuntime) -> Result<(), Fail> {
    let mut macros = Macros::new(rt.alloc());
    let result = hold_4096(&rt, rt.alloc(), &mut macros);
    drop(macros);
    result
}

fn put_parameters_in(rt: &impl Abort, alloc: Global, macros: &mut Macros) -> Result<(), Fail> {
    define_two(alloc, macros, b"X $1, $2$$1 '$1$'$", b"Y")?;
    assert!(rt;
        becomes(
            alloc,
            macros,
            b" A  1.5 MS ,#13;A\" ;*IDN?",
            b"X 1.5 MS, #13;A\"$1.5 MS '1.5 MS$'$"
        )
    );
    assert!(rt; refuses(alloc, macros, b"a 1", ScpiError::MacroParameterError));
    assert!(rt; becomes(alloc, macros, b"B 1,2", b"Y"));
    Ok(())
}

#[test]
fn puts_parameters_in(rt: HostRuntime) -> Result<(), Fail> {
    let mut macros = Macros::new(rt.alloc());
    let result = put_parameters_in(&rt, rt.alloc(), &mut macros);
    drop(macros);
    result
}

fn leave_as_it_is(rt: &impl Abort, alloc: Global, macros: &mut Macros) -> Result<(), Fail> {
    define_two(alloc, macros, b"X", b"Y")?;
    let messages = [
        b":A 1".as_slice(),
        b"A? 1",
        b"*A 1",
        b"A:B 1",
        b"AA 'A;'",
        b"ROUT:CLOS (@1!1;A)",
    ];
    for message in messages {
        assert!(rt; becomes(alloc, macros, message, message));
    }
    assert!(rt; becomes(alloc, macros, b"; A 1 ; B", b"X"));
    macros.enable(false);
    assert!(rt; becomes(alloc, macros, b"A 1 ;", b"A 1"));
    Ok(())
}

#[test]
fn leaves_what_calls_no_macro(rt: HostRuntime) -> Result<(), Fail> {
    let mut macros = Macros::new(rt.alloc());
    let result = leave_as_it_is(&rt, rt.alloc(), &mut macros);
    drop(macros);
    result
}

/// Whether `A` with this message becomes that by macros `A` and `B` with these bodies.
fn makes(
    alloc: Global,
    bodies: (&[u8], &[u8]),
    message: &[u8],
    wanted: &[u8],
) -> Result<bool, ScpiError> {
    let mut macros = Macros::new(alloc);
    let set = define_two(alloc, &mut macros, bodies.0, bodies.1);
    let is_made = becomes(alloc, &macros, message, wanted);
    drop(macros);
    set?;
    Ok(is_made)
}

#[test]
fn expands_units_of_bodies(rt: HostRuntime) -> Result<(), Fail> {
    let alloc = rt.alloc();
    let bodies = (
        b" b 1 ; ;B?;'A;B;b".as_slice(),
        b"X '$1;B' ;NONE;:B".as_slice(),
    );
    assert!(rt; makes(alloc, bodies, b"A", b" X '1;B' ;;:B ; ;B?;'A;B;b")?);
    let nested = (b"B $1;B (@2)".as_slice(), b"ROUT:CLOS $1;*WAI".as_slice());
    let wanted = b"ROUT:CLOS (@1;1);*WAI;ROUT:CLOS (@2);*WAI";
    assert!(rt; makes(alloc, nested, b"A (@1;1)", wanted)?);
    Ok(())
}

/// Whether `A` is refused by this error, by macros `A` and `B` with these bodies.
fn refuses_of_two(
    alloc: Global,
    bodies: (&[u8], &[u8]),
    error: ScpiError,
) -> Result<bool, ScpiError> {
    let mut macros = Macros::new(alloc);
    let set = define_two(alloc, &mut macros, bodies.0, bodies.1);
    let is_refused = refuses(alloc, &macros, b"A", error);
    drop(macros);
    set?;
    Ok(is_refused)
}

#[test]
fn refuses_labels_inside_their_bodies(rt: HostRuntime) -> Result<(), Fail> {
    let alloc = rt.alloc();
    let inside = (b"X;B".as_slice(), b"Y;a".as_slice());
    assert!(rt; refuses_of_two(alloc, inside, ScpiError::MacroRecursionError)?);
    let after = (b"B;A".as_slice(), b"$1".as_slice());
    assert!(rt; refuses_of_two(alloc, after, ScpiError::MacroParameterError)?);
    Ok(())
}

/// Macros `M01` to `M08` that each call the next one, and `M09`, which are on.
fn chain(alloc: Global, macros: &mut Macros) -> Result<(), ScpiError> {
    for n in 1..9u8 {
        define_numbered(alloc, macros, n, numbered(n + 1).as_slice())?;
    }
    define(alloc, macros, b"M09", b"*IDN?")?;
    macros.enable(true);
    Ok(())
}

fn expand_eight_levels(rt: &impl Abort, alloc: Global, macros: &mut Macros) -> Result<(), Fail> {
    chain(alloc, macros)?;
    assert!(rt; refuses(alloc, macros, b"M01", ScpiError::MacroRecursionError));
    assert!(rt; becomes(alloc, macros, b"M02", b"*IDN?"));
    Ok(())
}

#[test]
fn expands_eight_levels(rt: HostRuntime) -> Result<(), Fail> {
    let mut macros = Macros::new(rt.alloc());
    let result = expand_eight_levels(&rt, rt.alloc(), &mut macros);
    drop(macros);
    result
}

/// Macros `B` of 4,096 bytes and `A`, which calls it 16 times, and are on.
fn define_longest(alloc: Global, macros: &mut Macros) -> Result<(), ScpiError> {
    define(alloc, macros, b"A", b"B;B;B;B;B;B;B;B;B;B;B;B;B;B;B;B")?;
    define_long(alloc, macros, b"B", 4096)?;
    macros.enable(true);
    Ok(())
}

/// `A` is one byte longer than can be.
fn pass_65536(rt: &impl Abort, alloc: Global, macros: &mut Macros) -> Result<(), Fail> {
    define_longest(alloc, macros)?;
    assert!(rt; refuses(alloc, macros, b"A", ScpiError::MacroRecursionError));
    Ok(())
}

/// `A` has 65,535 bytes, and one more behind it is the last that can be.
fn reach_65536(rt: &impl Abort, alloc: Global, macros: &mut Macros) -> Result<(), Fail> {
    macros.remove(b"B")?;
    define_long(alloc, macros, b"B", 4095)?;
    assert_eq!(rt; length(alloc, macros, b"A")?, 65_535);
    define(alloc, macros, b"C", b"A;")?;
    assert_eq!(rt; length(alloc, macros, b"C")?, 65_536);
    define(alloc, macros, b"D", b"C;")?;
    assert!(rt; refuses(alloc, macros, b"D", ScpiError::MacroRecursionError));
    Ok(())
}

fn expand_to_65536(rt: &impl Abort, alloc: Global, macros: &mut Macros) -> Result<(), Fail> {
    pass_65536(rt, alloc, macros)?;
    reach_65536(rt, alloc, macros)
}

#[test]
fn expands_to_65536_bytes(rt: HostRuntime) -> Result<(), Fail> {
    let mut macros = Macros::new(rt.alloc());
    let result = expand_to_65536(&rt, rt.alloc(), &mut macros);
    drop(macros);
    result
}
