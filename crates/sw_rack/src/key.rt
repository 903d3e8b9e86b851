//! The keys of a card's table.

ghost use Rattle.std.specs.Prelude.{◌≡◌};
ghost use Rattle.sw_rack.specs.Keys.{name_of, all_keys, named};

/// A key of a card's table.
#[derive(Clone, Copy, Debug, PartialEq, Eq)]
pub enum Key {
    Card,
    Serial,
    Driver,
    Channels,
    Group,
    Groups,
    Address,
    Device,
    LimitMs,
    UnitIdentifier,
    FirstCoil,
    Confirm,
    On,
    Off,
    AllOff,
    AnswerEnd,
    Answer,
    State,
    StateOn,
    StateOff,
    Setup,
    Query,
    FirstNv,
    StepNv,
    FailClosing,
}

/// All keys.
const KEYS: [Key; 25] = [
    Key::Card,
    Key::Serial,
    Key::Driver,
    Key::Channels,
    Key::Group,
    Key::Groups,
    Key::Address,
    Key::Device,
    Key::LimitMs,
    Key::UnitIdentifier,
    Key::FirstCoil,
    Key::Confirm,
    Key::On,
    Key::Off,
    Key::AllOff,
    Key::AnswerEnd,
    Key::Answer,
    Key::State,
    Key::StateOn,
    Key::StateOff,
    Key::Setup,
    Key::Query,
    Key::FirstNv,
    Key::StepNv,
    Key::FailClosing,
];

impl Key {
    /// The key as a file writes it.
    pub fn name(self) -> &'static str
        ensures { result.now ≡ name_of self }
    {
        match self {
            Key::Card => "card",
            Key::Serial => "serial",
            Key::Driver => "driver",
            Key::Channels => "channels",
            Key::Group => "group",
            Key::Groups => "groups",
            Key::Address => "address",
            Key::Device => "device",
            Key::LimitMs => "limit_ms",
            Key::UnitIdentifier => "unit",
            Key::FirstCoil => "first_coil",
            Key::Confirm => "confirm",
            Key::On => "on",
            Key::Off => "off",
            Key::AllOff => "all_off",
            Key::AnswerEnd => "answer_end",
            Key::Answer => "answer",
            Key::State => "state",
            Key::StateOn => "state_on",
            Key::StateOff => "state_off",
            Key::Setup => "setup",
            Key::Query => "query",
            Key::FirstNv => "first_nv",
            Key::StepNv => "step_nv",
            Key::FailClosing => "fail_closing",
        }
    }
}

/// The key of this name.
pub fn key_named(name: &str) -> Option<Key>
    ensures { result ≡ named all_keys name.now }
{
    named_among(&KEYS, name)
}

/// The first of these keys that has this name.
fn named_among(keys: &[Key], name: &str) -> Option<Key>
    ensures { result ≡ named keys.now name.now }
{
    for key in keys {
        if key.name() == name {
            return Some(*key);
        }
    }
    None
}
