//! The rows of the common commands in the table of headers (IEEE 488.2, 10), by the letter behind the star.

ghost use Rattle.std.specs.Prelude.{true};
ghost use Rattle.std.specs.Char.{to_ascii_uppercase};
ghost use Rattle.sw_lex.specs.Parts.{IsPart};

use crate::command::{AllMacros, NoData, PlainQuery, StatusRead};
use crate::mnemonics::{
    STAR_CLS, STAR_DMC, STAR_EMC, STAR_ESE, STAR_ESR, STAR_GMC, STAR_IDN, STAR_LMC, STAR_OPC,
    STAR_PMC, STAR_RMC, STAR_RST, STAR_SRE, STAR_STB, STAR_TRG, STAR_TST, STAR_WAI,
};
use crate::rows::Row::{Command, Query};
use crate::rows::{HeadersByLetter, NONE, Subsystem};
use crate::table::{HeaderMeaning, Numeric};

static COMMON_I: HeadersByLetter = HeadersByLetter {
    commands: &[],
    queries: &[Subsystem {
        first: STAR_IDN,
        rows: &[Query(&[], HeaderMeaning::Query(PlainQuery::Identify))],
    }],
};

static COMMON_R: HeadersByLetter = HeadersByLetter {
    commands: &[
        Subsystem {
            first: STAR_RST,
            rows: &[Command(&[], HeaderMeaning::NoData(NoData::Reset))],
        },
        Subsystem {
            first: STAR_RMC,
            rows: &[Command(&[], HeaderMeaning::RemoveMacro)],
        },
    ],
    queries: &[],
};

static COMMON_O: HeadersByLetter = HeadersByLetter {
    commands: &[Subsystem {
        first: STAR_OPC,
        rows: &[Command(&[], HeaderMeaning::NoData(NoData::OperationComplete))],
    }],
    queries: &[Subsystem {
        first: STAR_OPC,
        rows: &[Query(&[], HeaderMeaning::NoData(NoData::OperationCompleteQuery))],
    }],
};

static COMMON_W: HeadersByLetter = HeadersByLetter {
    commands: &[Subsystem {
        first: STAR_WAI,
        rows: &[Command(&[], HeaderMeaning::NoData(NoData::Wait))],
    }],
    queries: &[],
};

static COMMON_T: HeadersByLetter = HeadersByLetter {
    commands: &[Subsystem {
        first: STAR_TRG,
        rows: &[Command(&[], HeaderMeaning::NoData(NoData::Trigger))],
    }],
    queries: &[Subsystem {
        first: STAR_TST,
        rows: &[Query(&[], HeaderMeaning::Query(PlainQuery::SelfTest))],
    }],
};

static COMMON_C: HeadersByLetter = HeadersByLetter {
    commands: &[Subsystem {
        first: STAR_CLS,
        rows: &[Command(&[], HeaderMeaning::NoData(NoData::ClearStatus))],
    }],
    queries: &[],
};

static COMMON_E: HeadersByLetter = HeadersByLetter {
    commands: &[
        Subsystem {
            first: STAR_ESE,
            rows: &[Command(&[], HeaderMeaning::Numeric(Numeric::EventEnable))],
        },
        Subsystem {
            first: STAR_EMC,
            rows: &[Command(&[], HeaderMeaning::EnableMacros)],
        },
    ],
    queries: &[
        Subsystem {
            first: STAR_ESE,
            rows: &[Query(&[], HeaderMeaning::Query(PlainQuery::EventEnable))],
        },
        Subsystem {
            first: STAR_ESR,
            rows: &[Query(
                &[],
                HeaderMeaning::DestructiveQuery(StatusRead::EventStatus),
            )],
        },
        Subsystem {
            first: STAR_EMC,
            rows: &[Query(&[], HeaderMeaning::Macros(AllMacros::EnableQuery))],
        },
    ],
};

static COMMON_S: HeadersByLetter = HeadersByLetter {
    commands: &[Subsystem {
        first: STAR_SRE,
        rows: &[Command(&[], HeaderMeaning::Numeric(Numeric::ServiceEnable))],
    }],
    queries: &[
        Subsystem {
            first: STAR_SRE,
            rows: &[Query(&[], HeaderMeaning::Query(PlainQuery::ServiceEnable))],
        },
        Subsystem {
            first: STAR_STB,
            rows: &[Query(&[], HeaderMeaning::Query(PlainQuery::StatusByte))],
        },
    ],
};

static COMMON_D: HeadersByLetter = HeadersByLetter {
    commands: &[Subsystem {
        first: STAR_DMC,
        rows: &[Command(&[], HeaderMeaning::DefineMacro)],
    }],
    queries: &[],
};

static COMMON_G: HeadersByLetter = HeadersByLetter {
    commands: &[],
    queries: &[Subsystem {
        first: STAR_GMC,
        rows: &[Query(&[], HeaderMeaning::MacroQuery)],
    }],
};

static COMMON_L: HeadersByLetter = HeadersByLetter {
    commands: &[],
    queries: &[Subsystem {
        first: STAR_LMC,
        rows: &[Query(&[], HeaderMeaning::Macros(AllMacros::LabelsQuery))],
    }],
};

static COMMON_P: HeadersByLetter = HeadersByLetter {
    commands: &[Subsystem {
        first: STAR_PMC,
        rows: &[Command(&[], HeaderMeaning::Macros(AllMacros::Purge))],
    }],
    queries: &[],
};

/// The common commands with this letter behind the star.
pub fn common_at(letter: u8) -> &'static HeadersByLetter
    ensures { IsPart (true, to_ascii_uppercase letter) result.now }
{
    match letter.to_ascii_uppercase() {
        b'I' => &COMMON_I,
        b'R' => &COMMON_R,
        b'O' => &COMMON_O,
        b'W' => &COMMON_W,
        b'T' => &COMMON_T,
        b'C' => &COMMON_C,
        b'E' => &COMMON_E,
        b'S' => &COMMON_S,
        b'D' => &COMMON_D,
        b'G' => &COMMON_G,
        b'L' => &COMMON_L,
        b'P' => &COMMON_P,
        _ => &NONE,
    }
}
