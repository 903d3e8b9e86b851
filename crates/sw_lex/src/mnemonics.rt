//! The mnemonics of the table of headers, as texts and as numbers.

use crate::packing::Mnemonic;

pub const ABORT: Mnemonic = Mnemonic {
    text: b"ABORt",
    short: 0x1_41_42_4F_52,
    long: 0x1_41_42_4F_52_54,
};

pub const ACTUAL: Mnemonic = Mnemonic {
    text: b"ACTual",
    short: 0x1_41_43_54,
    long: 0x1_41_43_54_55_41_4C,
};

pub const ALL: Mnemonic = Mnemonic {
    text: b"ALL",
    short: 0x1_41_4C_4C,
    long: 0x1_41_4C_4C,
};

pub const ARM: Mnemonic = Mnemonic {
    text: b"ARM",
    short: 0x1_41_52_4D,
    long: 0x1_41_52_4D,
};

pub const BOUND: Mnemonic = Mnemonic {
    text: b"BOUNd",
    short: 0x1_42_4F_55_4E,
    long: 0x1_42_4F_55_4E_44,
};

pub const CARD_TYPE: Mnemonic = Mnemonic {
    text: b"CTYPe",
    short: 0x1_43_54_59_50,
    long: 0x1_43_54_59_50_45,
};

pub const CHANNEL: Mnemonic = Mnemonic {
    text: b"CHANnel",
    short: 0x1_43_48_41_4E,
    long: 0x1_43_48_41_4E_4E_45_4C,
};

pub const CHECK: Mnemonic = Mnemonic {
    text: b"CHECk",
    short: 0x1_43_48_45_43,
    long: 0x1_43_48_45_43_4B,
};

pub const CLOSE: Mnemonic = Mnemonic {
    text: b"CLOSe",
    short: 0x1_43_4C_4F_53,
    long: 0x1_43_4C_4F_53_45,
};

pub const CONDITION: Mnemonic = Mnemonic {
    text: b"CONDition",
    short: 0x1_43_4F_4E_44,
    long: 0x1_43_4F_4E_44_49_54_49_4F_4E,
};

pub const CONTINUOUS: Mnemonic = Mnemonic {
    text: b"CONTinuous",
    short: 0x1_43_4F_4E_54,
    long: 0x1_43_4F_4E_54_49_4E_55_4F_55_53,
};

pub const COUNT: Mnemonic = Mnemonic {
    text: b"COUNt",
    short: 0x1_43_4F_55_4E,
    long: 0x1_43_4F_55_4E_54,
};

pub const DEFINE: Mnemonic = Mnemonic {
    text: b"DEFine",
    short: 0x1_44_45_46,
    long: 0x1_44_45_46_49_4E_45,
};

pub const DELETE: Mnemonic = Mnemonic {
    text: b"DELete",
    short: 0x1_44_45_4C,
    long: 0x1_44_45_4C_45_54_45,
};

pub const DELAY: Mnemonic = Mnemonic {
    text: b"DELay",
    short: 0x1_44_45_4C,
    long: 0x1_44_45_4C_41_59,
};

pub const DIAGNOSTIC: Mnemonic = Mnemonic {
    text: b"DIAGnostic",
    short: 0x1_44_49_41_47,
    long: 0x1_44_49_41_47_4E_4F_53_54_49_43,
};

pub const ENABLE: Mnemonic = Mnemonic {
    text: b"ENABle",
    short: 0x1_45_4E_41_42,
    long: 0x1_45_4E_41_42_4C_45,
};

pub const ERROR: Mnemonic = Mnemonic {
    text: b"ERRor",
    short: 0x1_45_52_52,
    long: 0x1_45_52_52_4F_52,
};

pub const EVENT: Mnemonic = Mnemonic {
    text: b"EVENt",
    short: 0x1_45_56_45_4E,
    long: 0x1_45_56_45_4E_54,
};

pub const FETCH: Mnemonic = Mnemonic {
    text: b"FETCh",
    short: 0x1_46_45_54_43,
    long: 0x1_46_45_54_43_48,
};

pub const GROUPS: Mnemonic = Mnemonic {
    text: b"GROups",
    short: 0x1_47_52_4F,
    long: 0x1_47_52_4F_55_50_53,
};

pub const HEADERS: Mnemonic = Mnemonic {
    text: b"HEADers",
    short: 0x1_48_45_41_44,
    long: 0x1_48_45_41_44_45_52_53,
};

pub const HELP: Mnemonic = Mnemonic {
    text: b"HELP",
    short: 0x1_48_45_4C_50,
    long: 0x1_48_45_4C_50,
};

pub const IMMEDIATE: Mnemonic = Mnemonic {
    text: b"IMMediate",
    short: 0x1_49_4D_4D,
    long: 0x1_49_4D_4D_45_44_49_41_54_45,
};

pub const INITIATE: Mnemonic = Mnemonic {
    text: b"INITiate",
    short: 0x1_49_4E_49_54,
    long: 0x1_49_4E_49_54_49_41_54_45,
};

pub const LAYER: Mnemonic = Mnemonic {
    text: b"LAYer",
    short: 0x1_4C_41_59,
    long: 0x1_4C_41_59_45_52,
};

pub const METER: Mnemonic = Mnemonic {
    text: b"METer",
    short: 0x1_4D_45_54,
    long: 0x1_4D_45_54_45_52,
};

pub const NEXT: Mnemonic = Mnemonic {
    text: b"NEXT",
    short: 0x1_4E_45_58_54,
    long: 0x1_4E_45_58_54,
};

pub const NTRANSITION: Mnemonic = Mnemonic {
    text: b"NTRansition",
    short: 0x1_4E_54_52,
    long: 0x1_4E_54_52_41_4E_53_49_54_49_4F_4E,
};

pub const OPEN: Mnemonic = Mnemonic {
    text: b"OPEN",
    short: 0x1_4F_50_45_4E,
    long: 0x1_4F_50_45_4E,
};

pub const OPERATION: Mnemonic = Mnemonic {
    text: b"OPERation",
    short: 0x1_4F_50_45_52,
    long: 0x1_4F_50_45_52_41_54_49_4F_4E,
};

pub const POINTS: Mnemonic = Mnemonic {
    text: b"POINts",
    short: 0x1_50_4F_49_4E,
    long: 0x1_50_4F_49_4E_54_53,
};

pub const PRESET: Mnemonic = Mnemonic {
    text: b"PRESet",
    short: 0x1_50_52_45_53,
    long: 0x1_50_52_45_53_45_54,
};

pub const PROGRAM: Mnemonic = Mnemonic {
    text: b"PROGram",
    short: 0x1_50_52_4F_47,
    long: 0x1_50_52_4F_47_52_41_4D,
};

pub const PTRANSITION: Mnemonic = Mnemonic {
    text: b"PTRansition",
    short: 0x1_50_54_52,
    long: 0x1_50_54_52_41_4E_53_49_54_49_4F_4E,
};

pub const QUESTIONABLE: Mnemonic = Mnemonic {
    text: b"QUEStionable",
    short: 0x1_51_55_45_53,
    long: 0x1_51_55_45_53_54_49_4F_4E_41_42_4C_45,
};

pub const READ: Mnemonic = Mnemonic {
    text: b"READ",
    short: 0x1_52_45_41_44,
    long: 0x1_52_45_41_44,
};

pub const ROUTE: Mnemonic = Mnemonic {
    text: b"ROUTe",
    short: 0x1_52_4F_55_54,
    long: 0x1_52_4F_55_54_45,
};

pub const SCAN: Mnemonic = Mnemonic {
    text: b"SCAN",
    short: 0x1_53_43_41_4E,
    long: 0x1_53_43_41_4E,
};

pub const SIGNAL: Mnemonic = Mnemonic {
    text: b"SIGNal",
    short: 0x1_53_49_47_4E,
    long: 0x1_53_49_47_4E_41_4C,
};

pub const SOURCE: Mnemonic = Mnemonic {
    text: b"SOURce",
    short: 0x1_53_4F_55_52,
    long: 0x1_53_4F_55_52_43_45,
};

pub const STAR_CLS: Mnemonic = Mnemonic {
    text: b"*CLS",
    short: 0x1_2A_43_4C_53,
    long: 0x1_2A_43_4C_53,
};

pub const STAR_DMC: Mnemonic = Mnemonic {
    text: b"*DMC",
    short: 0x1_2A_44_4D_43,
    long: 0x1_2A_44_4D_43,
};

pub const STAR_EMC: Mnemonic = Mnemonic {
    text: b"*EMC",
    short: 0x1_2A_45_4D_43,
    long: 0x1_2A_45_4D_43,
};

pub const STAR_ESE: Mnemonic = Mnemonic {
    text: b"*ESE",
    short: 0x1_2A_45_53_45,
    long: 0x1_2A_45_53_45,
};

pub const STAR_ESR: Mnemonic = Mnemonic {
    text: b"*ESR",
    short: 0x1_2A_45_53_52,
    long: 0x1_2A_45_53_52,
};

pub const STAR_GMC: Mnemonic = Mnemonic {
    text: b"*GMC",
    short: 0x1_2A_47_4D_43,
    long: 0x1_2A_47_4D_43,
};

pub const STAR_IDN: Mnemonic = Mnemonic {
    text: b"*IDN",
    short: 0x1_2A_49_44_4E,
    long: 0x1_2A_49_44_4E,
};

pub const STAR_LMC: Mnemonic = Mnemonic {
    text: b"*LMC",
    short: 0x1_2A_4C_4D_43,
    long: 0x1_2A_4C_4D_43,
};

pub const STAR_OPC: Mnemonic = Mnemonic {
    text: b"*OPC",
    short: 0x1_2A_4F_50_43,
    long: 0x1_2A_4F_50_43,
};

pub const STAR_PMC: Mnemonic = Mnemonic {
    text: b"*PMC",
    short: 0x1_2A_50_4D_43,
    long: 0x1_2A_50_4D_43,
};

pub const STAR_RMC: Mnemonic = Mnemonic {
    text: b"*RMC",
    short: 0x1_2A_52_4D_43,
    long: 0x1_2A_52_4D_43,
};

pub const STAR_RST: Mnemonic = Mnemonic {
    text: b"*RST",
    short: 0x1_2A_52_53_54,
    long: 0x1_2A_52_53_54,
};

pub const STAR_SRE: Mnemonic = Mnemonic {
    text: b"*SRE",
    short: 0x1_2A_53_52_45,
    long: 0x1_2A_53_52_45,
};

pub const STAR_STB: Mnemonic = Mnemonic {
    text: b"*STB",
    short: 0x1_2A_53_54_42,
    long: 0x1_2A_53_54_42,
};

pub const STAR_TRG: Mnemonic = Mnemonic {
    text: b"*TRG",
    short: 0x1_2A_54_52_47,
    long: 0x1_2A_54_52_47,
};

pub const STAR_TST: Mnemonic = Mnemonic {
    text: b"*TST",
    short: 0x1_2A_54_53_54,
    long: 0x1_2A_54_53_54,
};

pub const STAR_WAI: Mnemonic = Mnemonic {
    text: b"*WAI",
    short: 0x1_2A_57_41_49,
    long: 0x1_2A_57_41_49,
};

pub const STATE: Mnemonic = Mnemonic {
    text: b"STATe",
    short: 0x1_53_54_41_54,
    long: 0x1_53_54_41_54_45,
};

pub const STATUS: Mnemonic = Mnemonic {
    text: b"STATus",
    short: 0x1_53_54_41_54,
    long: 0x1_53_54_41_54_55_53,
};

pub const SYSTEM: Mnemonic = Mnemonic {
    text: b"SYSTem",
    short: 0x1_53_59_53_54,
    long: 0x1_53_59_53_54_45_4D,
};

pub const TIMER: Mnemonic = Mnemonic {
    text: b"TIMer",
    short: 0x1_54_49_4D,
    long: 0x1_54_49_4D_45_52,
};

pub const TRACE: Mnemonic = Mnemonic {
    text: b"TRACe",
    short: 0x1_54_52_41_43,
    long: 0x1_54_52_41_43_45,
};

pub const TRIGGER: Mnemonic = Mnemonic {
    text: b"TRIGger",
    short: 0x1_54_52_49_47,
    long: 0x1_54_52_49_47_47_45_52,
};

pub const VERSION: Mnemonic = Mnemonic {
    text: b"VERSion",
    short: 0x1_56_45_52_53,
    long: 0x1_56_45_52_53_49_4F_4E,
};
