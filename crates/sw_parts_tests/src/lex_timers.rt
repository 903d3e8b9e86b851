//! Program messages: what a layer's timer is set to, and the first refusals of others.

use crate::lex::{first, layer_number, refuses_first};
use std::alloc::Global;
use sw_base::ScpiError;
use sw_lex::{Command, LayerQuery, Setting, Time};

/// The layer of a timer that is set or asked, and the microseconds that it is set to.
fn timer(command: &Command) -> Option<(u8, Option<u64>)> {
    match command {
        Command::Set(Setting::Time(Time::Timer, layer, micros)) => Some((
            layer_number(*layer),
            Some(*micros),
        )),
        Command::LayerQuery(LayerQuery::Timer, layer) => Some((layer_number(*layer), None)),
        _ => None,
    }
}

/// Whether the first unit of a message sets or asks this timer.
fn has_timer(alloc: Global, message: &[u8], wanted: (u8, Option<u64>)) -> bool {
    let read = first(alloc, message);
    let is_so = match &read {
        Ok(command) => timer(command) == Some(wanted),
        Err(_) => false,
    };
    drop(read);
    is_so
}

#[test]
fn reads_timers(rt: HostRuntime) {
    let cases = [
        (b"TRIG:TIM 0.25".as_slice(), (9, Some(250_000))),
        (b"TRIGGER:TIMER 2 MS".as_slice(), (9, Some(2_000))),
        (b"ARM:TIM 1".as_slice(), (1, Some(1_000_000))),
        (b"arm:layer2:timer 7us".as_slice(), (2, Some(7))),
        (b"ARM:LAY3:TIM 3600".as_slice(), (3, Some(3_600_000_000))),
        (b"TRIG:TIM 0.000001".as_slice(), (9, Some(1))),
        (b"TRIG:TIM 0.0000005".as_slice(), (9, Some(1))),
        (
            b"TRIG:TIM 3600.0000004".as_slice(),
            (9, Some(3_600_000_000)),
        ),
        (b"TRIG:TIM?".as_slice(), (9, None)),
        (b"ARM:TIM?".as_slice(), (1, None)),
        (b"ARM:LAYER3:TIMER?".as_slice(), (3, None)),
    ];
    for (message, wanted) in cases {
        assert!(rt; has_timer(rt.alloc(), message, wanted));
    }
}

#[test]
fn refuses_timers(rt: HostRuntime) {
    let cases = [
        (b"TRIG:TIM 0".as_slice(), ScpiError::DataOutOfRange),
        (b"TRIG:TIM 0.0000004".as_slice(), ScpiError::DataOutOfRange),
        (b"TRIG:TIM -1".as_slice(), ScpiError::DataOutOfRange),
        (
            b"ARM:LAY3:TIM 3600.0000005".as_slice(),
            ScpiError::DataOutOfRange,
        ),
        (b"TRIG:TIM 1 H".as_slice(), ScpiError::InvalidSuffix),
        (b"TRIG:TIM".as_slice(), ScpiError::MissingParameter),
        (b"TRIG:TIM? 1".as_slice(), ScpiError::ParameterNotAllowed),
        (b"TRIG:TIM TIM".as_slice(), ScpiError::DataTypeError),
        (b"TRIG:LAY3:TIM 1".as_slice(), ScpiError::UndefinedHeader),
        (
            b"ARM:LAY4:TIM 1".as_slice(),
            ScpiError::HeaderSuffixOutOfRange,
        ),
        (
            b"INIT:CONT TIM".as_slice(),
            ScpiError::IllegalParameterValue,
        ),
        (b"ARM:SOUR TIME".as_slice(), ScpiError::InvalidCharacterData),
    ];
    for (message, error) in cases {
        assert!(rt; refuses_first(rt.alloc(), message, error));
    }
}
