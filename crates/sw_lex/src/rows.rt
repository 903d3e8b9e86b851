//! The rows of the table of headers (SCPI-1999, volume 2; IEEE 488.2, 10): how they are written, and those of the
//! instrument's commands.

ghost use Rattle.std.specs.Prelude.{◌≡◌, false};
ghost use Rattle.std.specs.Char.{to_ascii_uppercase};
ghost use Rattle.sw_lex.specs.Rows.{row_nodes, key_of_row};
ghost use Rattle.sw_lex.specs.Parts.{IsPart};

use crate::command::{
    GroupQuery, LayerQuery, NoData, PlainQuery, RelayCommand, SlotQuery, StatusRead, Time,
};
use crate::mnemonics::{
    ABORT, ACTUAL, ALL, ARM, BOUND, CARD_TYPE, CHANNEL, CHECK, CLOSE, CONDITION, CONTINUOUS, COUNT,
    DEFINE, DELAY, DELETE, DIAGNOSTIC, ENABLE, ERROR, EVENT, FETCH, GROUPS, HEADERS, HELP,
    IMMEDIATE, INITIATE, LAYER, METER, NEXT, NTRANSITION, OPEN, OPERATION, POINTS, PRESET, PROGRAM,
    PTRANSITION, QUESTIONABLE, READ, ROUTE, SCAN, SIGNAL, SOURCE, STATE, STATUS, SYSTEM, TIMER,
    TRACE, TRIGGER, VERSION,
};
use crate::packing::Mnemonic;
use crate::rows::HeaderNode::{May, Must, Numbered};
use crate::rows::Row::{Command, Query};
use crate::table::Family::{Arm, Trigger};
use crate::table::{HeaderMeaning, Numeric, Switch};
use sw_base::StatusGroup::{Operation, Questionable};

/// A node of a header, with its mnemonic.
#[derive(Clone, Copy)]
pub enum HeaderNode {
    /// It has to be there.
    Must(Mnemonic),
    /// It may be left out.
    May(Mnemonic),
    /// It may be left out, and may have the number of an ARM layer.
    Numbered(Mnemonic),
}

/// A header's nodes below the first, and what it asks for: as a command, or with a question mark.
#[derive(Clone, Copy)]
pub enum Row {
    Command(&'static [HeaderNode], HeaderMeaning),
    Query(&'static [HeaderNode], HeaderMeaning),
}

impl Row {
    /// Its nodes below the first.
    pub fn nodes(&self) -> &'static [HeaderNode]
        ensures { result.now ≡ row_nodes self.now }
    {
        match *self {
            Command(nodes, _) | Query(nodes, _) => nodes,
        }
    }

    /// What it asks for.
    pub fn key(&self) -> HeaderMeaning
        ensures { result ≡ key_of_row self.now }
    {
        match *self {
            Command(_, key) | Query(_, key) => key,
        }
    }
}

/// The headers that begin with one mnemonic.
#[derive(Clone, Copy)]
pub struct Subsystem {
    pub first: Mnemonic,
    pub rows: &'static [Row],
}

/// The headers whose first words begin with the same letter, by their first mnemonics.
#[derive(Clone, Copy)]
pub struct HeadersByLetter {
    pub commands: &'static [Subsystem],
    pub queries: &'static [Subsystem],
}

/// No headers.
pub static NONE: HeadersByLetter = HeadersByLetter {
    commands: &[],
    queries: &[],
};

// The other commands, by their first letter.

static PATHS_A: HeadersByLetter = HeadersByLetter {
    commands: &[
        Subsystem {
            first: ABORT,
            rows: &[Command(&[], HeaderMeaning::NoData(NoData::Abort))],
        },
        Subsystem {
            first: ARM,
            rows: &[
                Command(
                    &[Numbered(LAYER), Must(COUNT)],
                    HeaderMeaning::Numeric(Numeric::Count(Arm)),
                ),
                Command(&[Numbered(LAYER), Must(SOURCE)], HeaderMeaning::Source(Arm)),
                Command(
                    &[Numbered(LAYER), Must(DELAY)],
                    HeaderMeaning::Time(Time::Delay, Arm),
                ),
                Command(
                    &[Numbered(LAYER), Must(TIMER)],
                    HeaderMeaning::Time(Time::Timer, Arm),
                ),
                Command(&[Numbered(LAYER), Must(SIGNAL)], HeaderMeaning::Signal(Arm)),
            ],
        },
    ],
    queries: &[Subsystem {
        first: ARM,
        rows: &[
            Query(
                &[Numbered(LAYER), Must(COUNT)],
                HeaderMeaning::LayerQuery(LayerQuery::Count, Arm),
            ),
            Query(
                &[Numbered(LAYER), Must(SOURCE)],
                HeaderMeaning::LayerQuery(LayerQuery::Source, Arm),
            ),
            Query(
                &[Numbered(LAYER), Must(DELAY)],
                HeaderMeaning::LayerQuery(LayerQuery::Delay, Arm),
            ),
            Query(
                &[Numbered(LAYER), Must(TIMER)],
                HeaderMeaning::LayerQuery(LayerQuery::Timer, Arm),
            ),
        ],
    }],
};

static PATHS_I: HeadersByLetter = HeadersByLetter {
    commands: &[Subsystem {
        first: INITIATE,
        rows: &[
            Command(&[May(IMMEDIATE)], HeaderMeaning::NoData(NoData::Initiate)),
            Command(
                &[Must(CONTINUOUS)],
                HeaderMeaning::Switch(Switch::Continuous),
            ),
        ],
    }],
    queries: &[Subsystem {
        first: INITIATE,
        rows: &[Query(
            &[Must(CONTINUOUS)],
            HeaderMeaning::Query(PlainQuery::InitiateContinuous),
        )],
    }],
};

static PATHS_T: HeadersByLetter = HeadersByLetter {
    commands: &[
        Subsystem {
            first: TRIGGER,
            rows: &[
                Command(
                    &[Must(COUNT)],
                    HeaderMeaning::Numeric(Numeric::Count(Trigger)),
                ),
                Command(&[Must(SOURCE)], HeaderMeaning::Source(Trigger)),
                Command(&[Must(DELAY)], HeaderMeaning::Time(Time::Delay, Trigger)),
                Command(&[Must(TIMER)], HeaderMeaning::Time(Time::Timer, Trigger)),
                Command(&[Must(SIGNAL)], HeaderMeaning::Signal(Trigger)),
            ],
        },
        Subsystem {
            first: TRACE,
            rows: &[Command(&[Must(POINTS)], HeaderMeaning::Numeric(Numeric::Points))],
        },
    ],
    queries: &[
        Subsystem {
            first: TRIGGER,
            rows: &[
                Query(
                    &[Must(COUNT)],
                    HeaderMeaning::LayerQuery(LayerQuery::Count, Trigger),
                ),
                Query(
                    &[Must(SOURCE)],
                    HeaderMeaning::LayerQuery(LayerQuery::Source, Trigger),
                ),
                Query(
                    &[Must(DELAY)],
                    HeaderMeaning::LayerQuery(LayerQuery::Delay, Trigger),
                ),
                Query(
                    &[Must(TIMER)],
                    HeaderMeaning::LayerQuery(LayerQuery::Timer, Trigger),
                ),
            ],
        },
        Subsystem {
            first: TRACE,
            rows: &[
                Query(&[Must(POINTS)], HeaderMeaning::Query(PlainQuery::Points)),
                Query(
                    &[Must(POINTS), Must(ACTUAL)],
                    HeaderMeaning::Query(PlainQuery::ActualPoints),
                ),
            ],
        },
    ],
};

static PATHS_R: HeadersByLetter = HeadersByLetter {
    commands: &[Subsystem {
        first: ROUTE,
        rows: &[
            Command(&[Must(CLOSE)], HeaderMeaning::Relays(RelayCommand::Close)),
            Command(&[Must(OPEN)], HeaderMeaning::Relays(RelayCommand::Open)),
            Command(
                &[Must(OPEN), Must(ALL)],
                HeaderMeaning::NoData(NoData::OpenAll),
            ),
            Command(
                &[Must(CHANNEL), Must(DELAY)],
                HeaderMeaning::Time(Time::Settling, Trigger),
            ),
            Command(&[Must(SCAN)], HeaderMeaning::Scan),
            Command(
                &[Must(SCAN), Must(METER)],
                HeaderMeaning::Numeric(Numeric::ScanMeter),
            ),
            Command(
                &[Must(SCAN), Must(PROGRAM), May(DEFINE)],
                HeaderMeaning::Program,
            ),
            Command(
                &[Must(SCAN), Must(PROGRAM), Must(STATE)],
                HeaderMeaning::Switch(Switch::Programmed),
            ),
            Command(
                &[Must(SCAN), Must(PROGRAM), Must(DELETE)],
                HeaderMeaning::NoProgram,
            ),
        ],
    }],
    queries: &[
        Subsystem {
            first: ROUTE,
            rows: &[
                Query(
                    &[Must(CLOSE)],
                    HeaderMeaning::Relays(RelayCommand::CloseQuery),
                ),
                Query(
                    &[Must(CLOSE), Must(STATE)],
                    HeaderMeaning::Query(PlainQuery::CloseState),
                ),
                Query(
                    &[Must(OPEN)],
                    HeaderMeaning::Relays(RelayCommand::OpenQuery),
                ),
                Query(
                    &[Must(CHANNEL), Must(DELAY)],
                    HeaderMeaning::Query(PlainQuery::Settling),
                ),
                Query(&[Must(SCAN)], HeaderMeaning::Query(PlainQuery::Scan)),
                Query(
                    &[Must(SCAN), Must(METER)],
                    HeaderMeaning::Query(PlainQuery::ScanMeter),
                ),
                Query(
                    &[Must(SCAN), Must(PROGRAM), May(DEFINE)],
                    HeaderMeaning::Query(PlainQuery::Program),
                ),
                Query(
                    &[Must(SCAN), Must(PROGRAM), Must(STATE)],
                    HeaderMeaning::Query(PlainQuery::Programmed),
                ),
            ],
        },
        Subsystem {
            first: READ,
            rows: &[Query(&[], HeaderMeaning::NoData(NoData::Read))],
        },
    ],
};

static PATHS_S: HeadersByLetter = HeadersByLetter {
    commands: &[Subsystem {
        first: STATUS,
        rows: &[
            Command(
                &[Must(OPERATION), Must(ENABLE)],
                HeaderMeaning::Numeric(Numeric::Enable(Operation)),
            ),
            Command(
                &[Must(OPERATION), Must(PTRANSITION)],
                HeaderMeaning::Numeric(Numeric::PositiveTransition(Operation)),
            ),
            Command(
                &[Must(OPERATION), Must(NTRANSITION)],
                HeaderMeaning::Numeric(Numeric::NegativeTransition(Operation)),
            ),
            Command(
                &[Must(QUESTIONABLE), Must(ENABLE)],
                HeaderMeaning::Numeric(Numeric::Enable(Questionable)),
            ),
            Command(
                &[Must(QUESTIONABLE), Must(PTRANSITION)],
                HeaderMeaning::Numeric(Numeric::PositiveTransition(Questionable)),
            ),
            Command(
                &[Must(QUESTIONABLE), Must(NTRANSITION)],
                HeaderMeaning::Numeric(Numeric::NegativeTransition(Questionable)),
            ),
            Command(&[Must(PRESET)], HeaderMeaning::NoData(NoData::Preset)),
        ],
    }],
    queries: &[
        Subsystem {
            first: STATUS,
            rows: &[
                Query(
                    &[Must(OPERATION), May(EVENT)],
                    HeaderMeaning::DestructiveQuery(StatusRead::GroupEvent(Operation)),
                ),
                Query(
                    &[Must(OPERATION), Must(CONDITION)],
                    HeaderMeaning::GroupQuery(GroupQuery::Condition, Operation),
                ),
                Query(
                    &[Must(OPERATION), Must(ENABLE)],
                    HeaderMeaning::GroupQuery(GroupQuery::Enable, Operation),
                ),
                Query(
                    &[Must(OPERATION), Must(PTRANSITION)],
                    HeaderMeaning::GroupQuery(GroupQuery::PositiveTransition, Operation),
                ),
                Query(
                    &[Must(OPERATION), Must(NTRANSITION)],
                    HeaderMeaning::GroupQuery(GroupQuery::NegativeTransition, Operation),
                ),
                Query(
                    &[Must(QUESTIONABLE), May(EVENT)],
                    HeaderMeaning::DestructiveQuery(StatusRead::GroupEvent(Questionable)),
                ),
                Query(
                    &[Must(QUESTIONABLE), Must(CONDITION)],
                    HeaderMeaning::GroupQuery(GroupQuery::Condition, Questionable),
                ),
                Query(
                    &[Must(QUESTIONABLE), Must(ENABLE)],
                    HeaderMeaning::GroupQuery(GroupQuery::Enable, Questionable),
                ),
                Query(
                    &[Must(QUESTIONABLE), Must(PTRANSITION)],
                    HeaderMeaning::GroupQuery(GroupQuery::PositiveTransition, Questionable),
                ),
                Query(
                    &[Must(QUESTIONABLE), Must(NTRANSITION)],
                    HeaderMeaning::GroupQuery(GroupQuery::NegativeTransition, Questionable),
                ),
            ],
        },
        Subsystem {
            first: SYSTEM,
            rows: &[
                Query(
                    &[Must(ERROR), May(NEXT)],
                    HeaderMeaning::DestructiveQuery(StatusRead::NextError),
                ),
                Query(
                    &[Must(ERROR), Must(ALL)],
                    HeaderMeaning::DestructiveQuery(StatusRead::AllErrors),
                ),
                Query(
                    &[Must(ERROR), Must(COUNT)],
                    HeaderMeaning::Query(PlainQuery::ErrorCount),
                ),
                Query(
                    &[Must(HELP), Must(HEADERS)],
                    HeaderMeaning::Query(PlainQuery::Headers),
                ),
                Query(&[Must(VERSION)], HeaderMeaning::Query(PlainQuery::Version)),
                Query(
                    &[Must(CARD_TYPE)],
                    HeaderMeaning::Numeric(Numeric::Slot(SlotQuery::Kind)),
                ),
                Query(
                    &[Must(CARD_TYPE), Must(GROUPS)],
                    HeaderMeaning::Numeric(Numeric::Slot(SlotQuery::Groups)),
                ),
                Query(
                    &[Must(CARD_TYPE), Must(STATE)],
                    HeaderMeaning::Numeric(Numeric::Slot(SlotQuery::State)),
                ),
            ],
        },
    ],
};

static PATHS_D: HeadersByLetter = HeadersByLetter {
    commands: &[],
    queries: &[Subsystem {
        first: DIAGNOSTIC,
        rows: &[
            Query(
                &[Must(SCAN), Must(BOUND)],
                HeaderMeaning::Query(PlainQuery::Bound),
            ),
            Query(&[Must(SCAN), Must(CHECK)], HeaderMeaning::ScanCheck),
            Query(
                &[Must(CLOSE), Must(CHECK)],
                HeaderMeaning::Relays(RelayCommand::CloseCheck),
            ),
        ],
    }],
};

static PATHS_F: HeadersByLetter = HeadersByLetter {
    commands: &[],
    queries: &[Subsystem {
        first: FETCH,
        rows: &[Query(&[], HeaderMeaning::NoData(NoData::Fetch))],
    }],
};

/// The other commands that begin with this letter.
pub fn path_at(letter: u8) -> &'static HeadersByLetter
    ensures { IsPart (false, to_ascii_uppercase letter) result.now }
{
    match letter.to_ascii_uppercase() {
        b'A' => &PATHS_A,
        b'I' => &PATHS_I,
        b'T' => &PATHS_T,
        b'R' => &PATHS_R,
        b'S' => &PATHS_S,
        b'D' => &PATHS_D,
        b'F' => &PATHS_F,
        _ => &NONE,
    }
}
