//! Program messages: what known units ask for, and the first refusals of others.

use std::alloc::Global;
use std::test::Fail;
use sw_base::{Chan, LayerName, ScpiError, Source, StatusGroup};
use sw_lex::{
    Command, Element, Elements, LayerQuery, MacroCommand, NoData, Path, PlainQuery, RawUnit,
    RelayCommand, Setting, SlotQuery, StatusSetting, Time, next_unit, resolve,
};

/// What the first unit of a text gives below this path.
fn read_at(alloc: Global, text: &[u8], path: Path) -> Result<Command, ScpiError> {
    let mut path = path;
    match next_unit(text, &mut Elements::new())? {
        Some((unit, _)) => resolve(alloc, &unit, &mut path),
        None => Err(ScpiError::SystemError),
    }
}

/// What the first unit of a message gives.
pub fn first(alloc: Global, message: &[u8]) -> Result<Command, ScpiError> {
    read_at(alloc, message, Path::root())
}

/// The path that a unit leaves.
fn path_behind(alloc: Global, unit: &RawUnit<'_>) -> Path {
    let mut path = Path::root();
    drop(resolve(alloc, unit, &mut path));
    path
}

/// The path that the first unit of a message leaves, and what follows it.
fn path_and_rest(alloc: Global, message: &[u8]) -> Result<(Path, &[u8]), ScpiError> {
    match next_unit(message, &mut Elements::new())? {
        Some((unit, rest)) => Ok((path_behind(alloc, &unit), rest)),
        None => Err(ScpiError::SystemError),
    }
}

/// What the second unit of a message gives, after a first that is a unit.
fn second(alloc: Global, message: &[u8]) -> Result<Command, ScpiError> {
    let (path, rest) = path_and_rest(alloc, message)?;
    read_at(alloc, rest, path)
}

/// A command's name, and its channels.
fn parts(command: &Command) -> (&str, &[Chan]) {
    match command {
        Command::Query(PlainQuery::Identify) => ("identify", &[]),
        Command::Query(PlainQuery::CloseState) => ("state?", &[]),
        Command::Query(PlainQuery::Headers) => ("headers?", &[]),
        Command::Query(PlainQuery::ScanCheck) => ("scan check?", &[]),
        Command::ListingCheck(listing) if listing.as_slice() == b"a;\n".as_slice() => (
            "listing check?",
            &[],
        ),
        Command::NoData(NoData::Read) => ("read?", &[]),
        Command::Relays(RelayCommand::Close, list) => ("close", list.as_slice()),
        Command::Relays(RelayCommand::CloseQuery, list) => ("close?", list.as_slice()),
        Command::Relays(RelayCommand::CloseCheck, list) => ("check?", list.as_slice()),
        Command::Relays(RelayCommand::Open, list) => ("open", list.as_slice()),
        _ => ("another", &[]),
    }
}

/// Whether what was read is the command of this name, with these channels.
fn is_command(read: &Result<Command, ScpiError>, name: &str, list: &[Chan]) -> bool {
    match read {
        Ok(command) => parts(command) == (name, list),
        Err(_) => false,
    }
}

/// Whether the first unit of a message is the command of this name, with these channels.
fn reads_first(alloc: Global, message: &[u8], name: &str, list: &[Chan]) -> bool {
    let read = first(alloc, message);
    let is_so = is_command(&read, name, list);
    drop(read);
    is_so
}

/// Whether the second unit of a message is the command of this name, with these channels.
fn reads_second(alloc: Global, message: &[u8], name: &str, list: &[Chan]) -> bool {
    let read = second(alloc, message);
    let is_so = is_command(&read, name, list);
    drop(read);
    is_so
}

/// Whether what was read is refused by this error.
fn is_refused(read: &Result<Command, ScpiError>, error: ScpiError) -> bool {
    match read {
        Ok(_) => false,
        Err(why) => *why == error,
    }
}

/// Whether the first unit of a message is refused by this error.
pub fn refuses_first(alloc: Global, message: &[u8], error: ScpiError) -> bool {
    let read = first(alloc, message);
    let is_so = is_refused(&read, error);
    drop(read);
    is_so
}

/// Whether the second unit of a message is refused by this error.
fn refuses_second(alloc: Global, message: &[u8], error: ScpiError) -> bool {
    let read = second(alloc, message);
    let is_so = is_refused(&read, error);
    drop(read);
    is_so
}

#[test]
fn reads_commands(rt: HostRuntime) {
    let alloc = rt.alloc();
    let list = [Chan::new(2, 3), Chan::new(2, 1), Chan::new(2, 2)];
    assert!(rt; reads_first(alloc, b"rout:close (@2!3,2!1,202)", "close", &list));
    assert!(rt; reads_first(alloc, b"ROUT:CLOS (@1601)", "close", &[Chan::new(16, 1)]));
    assert!(rt; reads_first(alloc, b":ROUTE:CLOSE:STATE?", "state?", &[]));
    assert!(rt; reads_first(alloc, b"syst:help:head?", "headers?", &[]));
    assert!(rt; reads_first(alloc, b"READ?", "read?", &[]));
    assert!(rt;
        reads_first(
            alloc,
            b"DIAG:CLOS:CHEC? (@1601)",
            "check?",
            &[Chan::new(16, 1)]
        )
    );
    assert!(rt; reads_second(alloc, b"FOO;*IDN?", "identify", &[]));
    assert!(rt; reads_first(alloc, b"DIAG:SCAN:CHEC?", "scan check?", &[]));
    assert!(rt; reads_first(alloc, b"DIAG:SCAN:CHEC? #13a;\n", "listing check?", &[]));
    assert!(rt; refuses_first(alloc, b"DIAG:SCAN:CHEC? 5", ScpiError::DataTypeError));
    assert!(rt;
        refuses_first(
            alloc,
            b"DIAG:SCAN:CHEC? #10,#10",
            ScpiError::ParameterNotAllowed
        )
    );
}

#[test]
fn reads_elements(rt: HostRuntime) -> Result<(), Fail> {
    let text = b"A 1 E +1,-.5 S ,On_1,\"a;\"\"b\",#13a;\n,(;,);B";
    let mut room = Elements::new();
    let Some((unit, rest)) = next_unit(text, &mut room)? else {
        return Err(ScpiError::SystemError.into());
    };
    assert!(rt; rest == b"B".as_slice());
    assert_eq!(rt;
        unit.elements,
        [
            Element::Number(b"1 E +1"),
            Element::Number(b"-.5 S"),
            Element::Character(b"On_1"),
            Element::String(b"\"a;\"\"b\""),
            Element::Block(b"#13a;\n"),
            Element::Expression(b"(;,)"),
        ]
        .as_slice()
    );
    Ok(())
}

#[test]
fn keeps_paths(rt: HostRuntime) {
    let alloc = rt.alloc();
    let list = [Chan::new(1, 3), Chan::new(1, 4)];
    assert!(rt; reads_second(alloc, b"ROUT:CLOS (@1!3);CLOS? (@1!3,104)", "close?", &list));
    assert!(rt; reads_second(alloc, b" ROUT:OPEN (@1!3) ; ;CLOS:STAT?", "state?", &[]));
    assert!(rt; reads_second(alloc, b"ROUT:CLOS:STAT?;STAT?", "state?", &[]));
    assert!(rt;
        refuses_second(
            alloc,
            b"ROUT:OPEN (@1!1);:CLOS:STAT?",
            ScpiError::UndefinedHeader
        )
    );
}

/// The path that the only unit of a message leaves. The message is gone then.
fn path_left(alloc: Global, message: Vec<u8>) -> Result<Path, ScpiError> {
    let (path, _) = path_and_rest(alloc, message.as_slice())?;
    Ok(path)
}

/// A command's number, and its layer or group where it has one.
fn numbers(command: &Command) -> (u64, u8) {
    match command {
        Command::Set(setting) => setting_numbers(setting),
        Command::SetStatus(setting) => status_numbers(*setting),
        Command::Continuous(on) | Command::Macro(MacroCommand::Enable(on)) => (u64::from(*on), 0),
        Command::SlotQuery(query, slot) => (u64::from(*slot), slot_query(*query)),
        Command::LayerQuery(LayerQuery::Count, layer) | Command::Signal(layer) => (
            0,
            layer_number(*layer),
        ),
        _ => (99, 99),
    }
}

/// Which query of a slot it is.
fn slot_query(query: SlotQuery) -> u8 {
    match query {
        SlotQuery::Kind => 1,
        SlotQuery::Groups => 2,
        SlotQuery::State => 3,
    }
}

/// A setting's number, and its layer where it has one; 8 for the time that a position settles.
fn setting_numbers(setting: &Setting) -> (u64, u8) {
    match setting {
        Setting::ScanMeter(n) => (u64::from(*n), 0),
        Setting::Count(layer, n) => (u64::from(*n), layer_number(*layer)),
        Setting::Time(Time::Delay, layer, n) => (*n, layer_number(*layer)),
        Setting::Time(Time::Settling, LayerName::Trigger, n) => (*n, 8),
        Setting::Source(layer, Source::External) => (77, layer_number(*layer)),
        Setting::Source(layer, Source::Timer) => (78, layer_number(*layer)),
        Setting::Points(n) => (u64::from(*n), 0),
        _ => (99, 99),
    }
}

/// The bits of a setting of the status, and its group where it has one.
fn status_numbers(setting: StatusSetting) -> (u64, u8) {
    match setting {
        StatusSetting::EventEnable(n) | StatusSetting::ServiceEnable(n) => (u64::from(n), 0),
        StatusSetting::Enable(StatusGroup::Operation, n) => (u64::from(n), 1),
        StatusSetting::NegativeTransition(StatusGroup::Questionable, n) => (u64::from(n), 2),
        _ => (99, 99),
    }
}

/// The number of an ARM layer, and 9 for TRIGger.
pub fn layer_number(layer: LayerName) -> u8 {
    match layer {
        LayerName::Arm(arm) => arm.number(),
        LayerName::Trigger => 9,
    }
}

/// The numbers of what was read.
fn numbers_of(read: &Result<Command, ScpiError>) -> Result<(u64, u8), ScpiError> {
    match read {
        Ok(command) => Ok(numbers(command)),
        Err(error) => Err(*error),
    }
}

/// The numbers of the first unit of a text, below this path.
fn numbers_at(alloc: Global, text: &[u8], path: Path) -> Result<(u64, u8), ScpiError> {
    let read = read_at(alloc, text, path);
    let numbers = numbers_of(&read);
    drop(read);
    numbers
}

/// Whether these are the numbers of the first unit of a message.
fn has_numbers(alloc: Global, message: &[u8], wanted: (u64, u8)) -> bool {
    numbers_at(alloc, message, Path::root()) == Ok(wanted)
}

#[test]
fn outlives_messages(rt: HostRuntime) -> Result<(), Fail> {
    let message = b"status:questionable:ptransition 3".to_vec(rt.alloc())?;
    let path = path_left(rt.alloc(), message)?;
    assert!(rt; numbers_at(rt.alloc(), b"NTR 2", path)? == (2, 2));
    Ok(())
}

#[test]
fn reads_numbers(rt: HostRuntime) {
    let cases = [
        (b"*ESE 2.5".as_slice(), (3, 0)),
        (b"*SRE -0.4".as_slice(), (0, 0)),
        (b"*ESE 1 E +1".as_slice(), (10, 0)),
        (b"ARM:COUNT 1000".as_slice(), (1000, 1)),
        (b"arm:layer2:coun 7".as_slice(), (7, 2)),
        (b"ARM:LAY3:COUN 1000".as_slice(), (1000, 3)),
        (b"ARM:LAY1:SIGN".as_slice(), (0, 1)),
        (b"arm:layer3:sign".as_slice(), (0, 3)),
        (b"TRIGGER:COUNT?".as_slice(), (0, 9)),
        (b"TRIG:DEL 0".as_slice(), (0, 9)),
        (b"TRIG:DEL 1.0000005".as_slice(), (1_000_001, 9)),
        (b"TRIG:DEL 500 MS".as_slice(), (500_000, 9)),
        (b"ARM:LAY2:DEL 3us".as_slice(), (3, 2)),
        (b"ROUT:CHAN:DEL 10 MS".as_slice(), (10_000, 8)),
        (b"route:channel:delay 3600".as_slice(), (3_600_000_000, 8)),
        (b"TRIG:SOUR ext".as_slice(), (77, 9)),
        (b"TRIG:SOUR TIM".as_slice(), (78, 9)),
        (b"ARM:LAYER3:SOURCE timer".as_slice(), (78, 3)),
        (b"TRAC:POIN 1e5".as_slice(), (100_000, 0)),
        (b"ROUT:SCAN:MET 16".as_slice(), (16, 0)),
        (b"SYST:CTYP? 16".as_slice(), (16, 1)),
        (b"system:ctype:groups? 1.4".as_slice(), (1, 2)),
        (b"SYSTem:CTYPe:STATe? 2".as_slice(), (2, 3)),
        (b"STAT:OPER:ENAB 65535".as_slice(), (65_535, 1)),
        (b"STATUS:QUESTIONABLE:NTRANSITION 2".as_slice(), (2, 2)),
        (b"INIT:CONT OFF".as_slice(), (0, 0)),
        (b"INITIATE:CONTINUOUS ON".as_slice(), (1, 0)),
        (b"INIT:CONT -1E30".as_slice(), (1, 0)),
        (b"*EMC -2".as_slice(), (1, 0)),
        (b"*EMC 0.4".as_slice(), (0, 0)),
    ];
    for (message, wanted) in cases {
        assert!(rt; has_numbers(rt.alloc(), message, wanted));
    }
}

/// The label of a command about a macro.
fn label(command: &Command) -> &[u8] {
    match command {
        Command::Macro(MacroCommand::Define(definition)) => definition.get().label.as_slice(),
        Command::Macro(MacroCommand::BodyQuery(label)) => label.as_slice(),
        Command::Macro(MacroCommand::Remove(label)) => label.as_slice(),
        _ => &[],
    }
}

/// The body of a macro's definition.
fn body(command: &Command) -> &[u8] {
    match command {
        Command::Macro(MacroCommand::Define(definition)) => definition.get().body.as_slice(),
        _ => &[],
    }
}

/// Whether what was read is about the macro of this label, with this body.
fn is_macro(read: &Result<Command, ScpiError>, wanted: &[u8], content: &[u8]) -> bool {
    match read {
        Ok(command) => label(command) == wanted && body(command) == content,
        Err(_) => false,
    }
}

/// Whether a message is about the macro of this label, with this body.
fn reads_macro(alloc: Global, message: &[u8], wanted: &[u8], content: &[u8]) -> bool {
    let read = first(alloc, message);
    let is_so = is_macro(&read, wanted, content);
    drop(read);
    is_so
}

#[test]
fn reads_macros(rt: HostRuntime) {
    let alloc = rt.alloc();
    assert!(rt; reads_macro(alloc, b"*DMC \"A\",#15*IDN?", b"A", b"*IDN?"));
    assert!(rt; reads_macro(alloc, b"*GMC? \"a\"\"b'\"", b"a\"b'", b""));
    assert!(rt; reads_macro(alloc, b"*RMC 'c'", b"c", b""));
}

/// Whether a text is refused by this error before a unit is read.
fn refuses_unit(text: &[u8], error: ScpiError) -> bool {
    match next_unit(text, &mut Elements::new()) {
        Ok(_) => false,
        Err(why) => why == error,
    }
}

#[test]
fn refuses_units(rt: HostRuntime) -> Result<(), Fail> {
    let cases = [
        (b"ROUT:".as_slice(), ScpiError::SyntaxError),
        (b"ROUT:CLOS (@1!1),".as_slice(), ScpiError::SyntaxError),
        (b"ROUT:CLOS(@1!1)".as_slice(), ScpiError::InvalidSeparator),
        (
            b"ROUT:CLOS (@1!1) (@1!2)".as_slice(),
            ScpiError::InvalidSeparator,
        ),
        (
            b"ROUT:CLOS (@1!1;*IDN?".as_slice(),
            ScpiError::InvalidExpression,
        ),
        (b"ROUT:CLOS\n".as_slice(), ScpiError::InvalidCharacter),
        (b"*IDN?\xff".as_slice(), ScpiError::InvalidCharacter),
        (b"*1".as_slice(), ScpiError::SyntaxError),
        (b"A \"b;c".as_slice(), ScpiError::InvalidStringData),
        (b"A 'b''".as_slice(), ScpiError::InvalidStringData),
        (b"A #".as_slice(), ScpiError::InvalidBlockData),
        (b"A #0".as_slice(), ScpiError::InvalidBlockData),
        (b"A #12a".as_slice(), ScpiError::InvalidBlockData),
        (b"A #2\xff1a".as_slice(), ScpiError::InvalidBlockData),
        (b"A #;".as_slice(), ScpiError::DataTypeError),
        (b"A # ".as_slice(), ScpiError::DataTypeError),
        (b"A #\xff".as_slice(), ScpiError::InvalidCharacter),
        (b"A 1\n".as_slice(), ScpiError::InvalidCharacter),
        (b"A 1 E5#".as_slice(), ScpiError::InvalidSeparator),
        (b"A 1,".as_slice(), ScpiError::SyntaxError),
        (b"A 1,?".as_slice(), ScpiError::SyntaxError),
        (
            b"A 1,2,3,4,5,6,7,8,9,10,11,12,13,14,15,16,#".as_slice(),
            ScpiError::ParameterNotAllowed,
        ),
        (
            b"A (),(),(),(),(),(),(),(),(),(),(),(),(),(),(),(),(".as_slice(),
            ScpiError::ParameterNotAllowed,
        ),
    ];
    for (message, error) in cases {
        assert!(rt; refuses_unit(message, error));
    }
    assert!(rt; next_unit(b" ; ;", &mut Elements::new()).is_ok());
    Ok(())
}

#[test]
fn refuses_commands(rt: HostRuntime) {
    let cases = [
        (b"*IDN".as_slice(), ScpiError::UndefinedHeader),
        (b"ROUTE:CLO (@1!1)".as_slice(), ScpiError::UndefinedHeader),
        (b"ROUT:OPEN:STAT?".as_slice(), ScpiError::UndefinedHeader),
        (b"ROUT:OPEN:ALL?".as_slice(), ScpiError::UndefinedHeader),
        (
            b"ARM:LAY0:COUN 1".as_slice(),
            ScpiError::HeaderSuffixOutOfRange,
        ),
        (
            b"ARM:LAY4:COUN 2".as_slice(),
            ScpiError::HeaderSuffixOutOfRange,
        ),
        (
            b"ARM:LAY03:COUN?".as_slice(),
            ScpiError::HeaderSuffixOutOfRange,
        ),
        (
            b"ARM:LAYER01:COUN".as_slice(),
            ScpiError::HeaderSuffixOutOfRange,
        ),
        (b"ARM:LAY4:COUNTS 1".as_slice(), ScpiError::UndefinedHeader),
        (b"ROUT2:OPEN:ALL".as_slice(), ScpiError::UndefinedHeader),
        (b"ROUT:CLOS".as_slice(), ScpiError::MissingParameter),
        (
            b"ROUT:CLOS? (@1!1),(@1!1)".as_slice(),
            ScpiError::ParameterNotAllowed,
        ),
        (b"*IDN? (@1!1)".as_slice(), ScpiError::ParameterNotAllowed),
        (b"ROUT:CLOS (@1!0)".as_slice(), ScpiError::DataOutOfRange),
        (b"ROUT:CLOS (@17!1)".as_slice(), ScpiError::DataOutOfRange),
        (b"ROUT:CLOS (@1600)".as_slice(), ScpiError::DataOutOfRange),
        (b"ROUT:SCAN:MET 0".as_slice(), ScpiError::DataOutOfRange),
        (b"ROUT:SCAN:MET 17".as_slice(), ScpiError::DataOutOfRange),
        (b"*ESE".as_slice(), ScpiError::MissingParameter),
        (b"*ESE ON,1".as_slice(), ScpiError::ParameterNotAllowed),
        (b"*ESE ON".as_slice(), ScpiError::DataTypeError),
        (
            b"*ESE 1.2.3".as_slice(),
            ScpiError::InvalidCharacterInNumber,
        ),
        (b"*ESE 1\"a".as_slice(), ScpiError::InvalidCharacterInNumber),
        (b"*ESE 1E+".as_slice(), ScpiError::InvalidCharacterInNumber),
        (
            b"*ESE 1E99999#".as_slice(),
            ScpiError::InvalidCharacterInNumber,
        ),
        (b"*ESE 1E99999".as_slice(), ScpiError::ExponentTooLarge),
        (
            b"*ESE 011111111111111111111111111111111111111111111111111111111111111111111111111111111111111111\
              11111111111111111111111111111111111111111111111111111111111111111111111111111111111111111111111\
              111111111111111111111111111111111111111111111111111111111111111111111111"
                .as_slice(),
            ScpiError::TooManyDigits,
        ),
        (b"*ESE 1E99999 S T".as_slice(), ScpiError::InvalidSeparator),
        (b"*ESE 1 E".as_slice(), ScpiError::SuffixNotAllowed),
        (b"*ESE 1 S".as_slice(), ScpiError::SuffixNotAllowed),
        (b"*ESE 256".as_slice(), ScpiError::DataOutOfRange),
        (b"*ESE -0.5".as_slice(), ScpiError::DataOutOfRange),
        (b"TRIG:DEL 1 E".as_slice(), ScpiError::InvalidSuffix),
        (
            b"TRIG:DEL 3600.0000005".as_slice(),
            ScpiError::DataOutOfRange,
        ),
        (b"TRIG:COUN 100001".as_slice(), ScpiError::DataOutOfRange),
        (b"TRIG:COUN 0".as_slice(), ScpiError::DataOutOfRange),
        (b"ARM:COUN 1001".as_slice(), ScpiError::DataOutOfRange),
        (b"ARM:SOUR 1".as_slice(), ScpiError::DataTypeError),
        (b"ARM:SOUR ON".as_slice(), ScpiError::IllegalParameterValue),
        (
            b"ARM:SOUR IMMED".as_slice(),
            ScpiError::InvalidCharacterData,
        ),
        (
            b"INIT:CONT HOLD".as_slice(),
            ScpiError::IllegalParameterValue,
        ),
        (b"INIT:CONT \"ON\"".as_slice(), ScpiError::DataTypeError),
    ];
    for (message, error) in cases {
        assert!(rt; refuses_first(rt.alloc(), message, error));
    }
}
