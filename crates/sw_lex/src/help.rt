//! The table of headers as a text (SCPI-1999, volume 2, 21, SYSTem:HELP:HEADers?).

ghost use Rattle.std.specs.Prelude.{◌≡◌};
ghost use Rattle.sw_lex.specs.Help.{headers_text};

/// The lines of the table, in its order. `specs/Help.antt` makes them of `specs/Table.antt`, so that a row that is
/// added there has to be added here, and the length with it.
static HEADERS: &[u8] = b"#41395\
    *IDN?/qonly/\n\
    *RST/nquery/\n\
    *OPC\n\
    *WAI/nquery/\n\
    *TST?/qonly/\n\
    *TRG/nquery/\n\
    *CLS/nquery/\n\
    *ESE\n\
    *ESR?/qonly/\n\
    *SRE\n\
    *STB?/qonly/\n\
    *DMC/nquery/\n\
    *GMC?/qonly/\n\
    *RMC/nquery/\n\
    *LMC?/qonly/\n\
    *PMC/nquery/\n\
    *EMC\n\
    :ABORt/nquery/\n\
    :ARM[:LAYer#]:COUNt\n\
    :ARM[:LAYer#]:SOURce\n\
    :ARM[:LAYer#]:DELay\n\
    :ARM[:LAYer#]:TIMer\n\
    :ARM[:LAYer#]:SIGNal/nquery/\n\
    :INITiate[:IMMediate]/nquery/\n\
    :INITiate:CONTinuous\n\
    :TRIGger:COUNt\n\
    :TRIGger:SOURce\n\
    :TRIGger:DELay\n\
    :TRIGger:TIMer\n\
    :TRIGger:SIGNal/nquery/\n\
    :TRACe:POINts\n\
    :TRACe:POINts:ACTual?/qonly/\n\
    :ROUTe:CLOSe\n\
    :ROUTe:CLOSe:STATe?/qonly/\n\
    :ROUTe:OPEN\n\
    :ROUTe:OPEN:ALL/nquery/\n\
    :ROUTe:CHANnel:DELay\n\
    :ROUTe:SCAN\n\
    :ROUTe:SCAN:METer\n\
    :ROUTe:SCAN:PROGram[:DEFine]\n\
    :ROUTe:SCAN:PROGram:STATe\n\
    :ROUTe:SCAN:PROGram:DELete/nquery/\n\
    :STATus:OPERation[:EVENt]?/qonly/\n\
    :STATus:OPERation:CONDition?/qonly/\n\
    :STATus:OPERation:ENABle\n\
    :STATus:OPERation:PTRansition\n\
    :STATus:OPERation:NTRansition\n\
    :STATus:QUEStionable[:EVENt]?/qonly/\n\
    :STATus:QUEStionable:CONDition?/qonly/\n\
    :STATus:QUEStionable:ENABle\n\
    :STATus:QUEStionable:PTRansition\n\
    :STATus:QUEStionable:NTRansition\n\
    :STATus:PRESet/nquery/\n\
    :SYSTem:ERRor[:NEXT]?/qonly/\n\
    :SYSTem:ERRor:ALL?/qonly/\n\
    :SYSTem:ERRor:COUNt?/qonly/\n\
    :SYSTem:HELP:HEADers?/qonly/\n\
    :SYSTem:VERSion?/qonly/\n\
    :SYSTem:CTYPe?/qonly/\n\
    :SYSTem:CTYPe:GROups?/qonly/\n\
    :SYSTem:CTYPe:STATe?/qonly/\n\
    :DIAGnostic:SCAN:BOUNd?/qonly/\n\
    :DIAGnostic:SCAN:CHECk?/qonly/\n\
    :DIAGnostic:CLOSe:CHECk?/qonly/\n\
    :FETCh?/qonly/\n\
    :READ?/qonly/";

/// All headers as a block: one a line, from the root, as the standard writes it; `/qonly/` behind one that is a query
/// alone, `/nquery/` behind one that has no query. `#` is the number of an ARM layer, or none.
pub fn headers_text() -> &'static [u8]
    ensures { result.now ≡ headers_text }
{
    HEADERS
}
