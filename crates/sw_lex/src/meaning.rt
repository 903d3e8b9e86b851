//! From a unit to its command.

ghost use Rattle.std.specs.Prelude.{◌≡◌, ◌≢◌, ◌≤◌, ◌<◌, ℕ, List, Result, Err, IfSome, length, map};
ghost use Rattle.std.specs.Result.{result_map_both};
ghost use Rattle.sw_base.specs.Number.{Written};
ghost use Rattle.sw_base.specs.Text.{is_digit, AllPass};
ghost use Rattle.sw_base.specs.declared.error.ScpiError.{ScpiError as Error};
ghost use Rattle.sw_base.specs.declared.error.ScpiError.TheVariants.{OutOfMemory};
ghost use Rattle.sw_channel.specs.Reading.{Reads, ReadsPositions};
ghost use Rattle.sw_lex.specs.declared.command.Command.{Command as Meant};
ghost use Rattle.sw_lex.specs.Unit.{UnitSeen, unit_of, heading_of, data_of};
ghost use Rattle.sw_lex.specs.Meaning.{asked, looked_up, path_after, Nodes, path_of, WithNone, WithList, WithString};
ghost use Rattle.sw_lex.specs.Meaning.{Defines, WithBlock};
ghost use Rattle.sw_lex.specs.Programs.{ReadsProgram};
ghost use Rattle.sw_lex.specs.Meaning.{OfMacro, WithNumber, OfNumber, OfWord, OfSwitch, DecodesCommand, IsRefusal};
ghost use Rattle.sw_lex.specs.Meaning.{OfCheck, Resolves};
ghost use Rattle.sw_lex.specs.Found.{IsIn, spellings};
ghost use Rattle.sw_lex.specs.Table.{HeaderEntry, entries};
ghost use Rattle.sw_lex.specs.Values.{ReadsBlock};
ghost use Rattle.sw_lex.specs.Values.{on_ok, ReadsQuantity, ReadsString, whole_of, switched_by, macros_of, time_of};
ghost use Rattle.sw_lex.specs.Values.{source_meant};

use crate::choice::layer_of;
use crate::command::{Command, Definition, MacroCommand, PlainQuery, RelayCommand, Setting, Time};
use crate::headers::find_words;
use crate::owned::{body, content};
use crate::path::Path;
use crate::paths::{find_unit, texts, texts_of, unnumbered_all};
use crate::programs::program;
use crate::raw_unit::RawUnit;
use crate::table::{HeaderMeaning, Numeric, Switch};
use crate::unit::{Element, Header};
use crate::values::{
    is_plain, macros_of, plain_of, quantity, source_meant, switch_meant, switched_by, time_of,
    whole_of,
};
use std::alloc::Global;
use sw_base::{Boxed, Chan, LayerName, Nrf, ScpiError, Sequence};
use sw_channel::{Position, read_list, read_positions};
use sw_verify::ScanProgram;

/// This command, which takes no data.
#[inline(always)]
fn plain(command: Command, elements: &[Element<'_>]) -> Result<Command, ScpiError>
    ensures { WithNone command (data_of elements.now) result }
{
    match elements {
        [] => Ok(command),
        _ => Err(ScpiError::ParameterNotAllowed),
    }
}

/// The channels of the one element, which is a channel list.
fn one_list(alloc: Global, elements: &[Element<'_>]) -> Result<Sequence<Chan>, ScpiError>
    ensures { WithList Reads (data_of elements.now) result }
{
    match elements {
        [] => Err(ScpiError::MissingParameter),
        [list] => match *list {
            Element::Expression(text) => Ok(Sequence::new(read_list(alloc, text)?)),
            _ => Err(ScpiError::DataTypeError),
        },
        _ => Err(ScpiError::ParameterNotAllowed),
    }
}

/// The positions of the one element, which is a list of positions.
fn one_position_list(
    alloc: Global,
    elements: &[Element<'_>],
) -> Result<Sequence<Position>, ScpiError>
    ensures { WithList ReadsPositions (data_of elements.now) result }
{
    match elements {
        [] => Err(ScpiError::MissingParameter),
        [positions] => match *positions {
            Element::Expression(text) => Ok(Sequence::new(read_positions(alloc, text)?)),
            _ => Err(ScpiError::DataTypeError),
        },
        _ => Err(ScpiError::ParameterNotAllowed),
    }
}

/// The one element, which is a number, and its suffix.
fn one_number<'a>(elements: &[Element<'a>]) -> Result<(Nrf<'a>, &'a [u8]), ScpiError>
    ensures { WithNumber (data_of elements.now) (result_map_both (λ x. (x.0, x.1.now)) (λ e. e) result) }
{
    match elements {
        [] => Err(ScpiError::MissingParameter),
        [number] => match *number {
            Element::Number(text) => quantity(text),
            _ => Err(ScpiError::DataTypeError),
        },
        _ => Err(ScpiError::ParameterNotAllowed),
    }
}

/// The one element, where it is a number of at most nine digits alone.
fn plain_digits<'a>(elements: &[Element<'a>]) -> Option<&'a [u8]>
    ensures { IfSome result (λ digits. ((read : Result (Written × List ℕ) Error) → ReadsQuantity digits.now read
        → WithNumber (data_of elements.now) read)
        × AllPass is_digit digits.now × (0 < length digits.now) × (length digits.now ≤ 9)) }
{
    match elements {
        [number] => match *number {
            Element::Number(text) if is_plain(text) => Some(text),
            _ => None,
        },
        _ => None,
    }
}

/// The command of one whole number.
#[inline(never)]
fn of_whole(ask: Numeric, number: u8, elements: &[Element<'_>]) -> Result<Command, ScpiError>
    ensures { OfNumber (whole_of ask number) (data_of elements.now) result }
{
    if let Some(digits) = plain_digits(elements) {
        return plain_of(ask, number, digits);
    }
    match one_number(elements) {
        Err(e) => Err(e),
        Ok((n, suffix)) => whole_of(ask, number, &n, suffix),
    }
}

/// A time of a layer.
#[inline(never)]
fn of_time(time: Time, layer: LayerName, elements: &[Element<'_>]) -> Result<Command, ScpiError>
    ensures { OfNumber (time_of time layer) (data_of elements.now) result }
{
    match one_number(elements) {
        Err(e) => Err(e),
        Ok((n, suffix)) => time_of(time, layer, &n, suffix),
    }
}

/// `*EMC`
#[inline(never)]
fn of_macros(elements: &[Element<'_>]) -> Result<Command, ScpiError>
    ensures { OfNumber macros_of (data_of elements.now) result }
{
    match one_number(elements) {
        Err(e) => Err(e),
        Ok((n, suffix)) => macros_of(&n, suffix),
    }
}

/// A layer's source.
#[inline(never)]
fn of_source(layer: LayerName, elements: &[Element<'_>]) -> Result<Command, ScpiError>
    ensures { OfWord (source_meant layer) (data_of elements.now) result }
{
    match elements {
        [] => Err(ScpiError::MissingParameter),
        [word] => match *word {
            Element::Character(text) => source_meant(layer, text),
            _ => Err(ScpiError::DataTypeError),
        },
        _ => Err(ScpiError::ParameterNotAllowed),
    }
}

/// A switch's command with the number of a text.
fn of_number(ask: Switch, text: &[u8]) -> Result<Command, ScpiError>
    ensures { (read : Result (Written × List ℕ) Error) × ReadsQuantity text.now read
        × (result ≡ on_ok read (λ x. switched_by ask x.0 x.1)) }
{
    match quantity(text) {
        Err(e) => Err(e),
        Ok((n, suffix)) => switched_by(ask, &n, suffix),
    }
}

/// A switch: ON, OFF or a number.
#[inline(never)]
fn of_switch(ask: Switch, elements: &[Element<'_>]) -> Result<Command, ScpiError>
    ensures { OfSwitch ask (data_of elements.now) result }
{
    match elements {
        [] => Err(ScpiError::MissingParameter),
        [switch] => match *switch {
            Element::Number(text) => of_number(ask, text),
            Element::Character(text) => switch_meant(ask, text),
            _ => Err(ScpiError::DataTypeError),
        },
        _ => Err(ScpiError::ParameterNotAllowed),
    }
}

/// The content of the one element, which is a string.
#[inline(never)]
fn one_string(alloc: Global, elements: &[Element<'_>]) -> Result<Sequence<u8>, ScpiError>
    ensures { WithString (data_of elements.now) result }
{
    match elements {
        [] => Err(ScpiError::MissingParameter),
        [label] => match *label {
            Element::String(text) => content(alloc, text),
            _ => Err(ScpiError::DataTypeError),
        },
        _ => Err(ScpiError::ParameterNotAllowed),
    }
}

/// `*DMC` with the texts of these two elements.
fn define(alloc: Global, label: &[u8], text: &[u8]) -> Result<Command, ScpiError>
    ensures { (read : Result (List ℕ) Error) × ReadsString label.now read × Defines text.now read result }
{
    match content(alloc, label) {
        Err(e) => Err(e),
        Ok(label) => match body(alloc, text) {
            Err(e) => Err(e),
            Ok(body) => {
                let definition = Boxed::new(alloc, Definition { label, body })?;
                Ok(Command::Macro(MacroCommand::Define(definition)))
            }
        },
    }
}

/// `*DMC`
#[inline(never)]
fn of_macro(alloc: Global, elements: &[Element<'_>]) -> Result<Command, ScpiError>
    ensures { OfMacro (data_of elements.now) result }
{
    match elements {
        [] => Err(ScpiError::MissingParameter),
        [_] => Err(ScpiError::MissingParameter),
        [label, text] => match *label {
            Element::String(label) => match *text {
                Element::Block(text) => define(alloc, label, text),
                _ => Err(ScpiError::DataTypeError),
            },
            _ => Err(ScpiError::DataTypeError),
        },
        _ => Err(ScpiError::ParameterNotAllowed),
    }
}

/// A command with a channel list.
#[inline(never)]
fn of_channels(
    alloc: Global,
    ask: RelayCommand,
    elements: &[Element<'_>],
) -> Result<Command, ScpiError>
    ensures { (k : ℕ) → DecodesCommand (HeaderMeaning.Relays ask) k (data_of elements.now) result }
{
    Ok(Command::Relays(ask, one_list(alloc, elements)?))
}

/// `ROUTe:SCAN`
#[inline(never)]
fn of_scan(alloc: Global, elements: &[Element<'_>]) -> Result<Command, ScpiError>
    ensures { (k : ℕ) → DecodesCommand HeaderMeaning.Scan k (data_of elements.now) result }
{
    Ok(Command::Set(Setting::Scan(one_position_list(alloc, elements)?)))
}

/// The program of the one element, which is a block.
fn one_program(alloc: Global, elements: &[Element<'_>]) -> Result<Boxed<ScanProgram>, ScpiError>
    ensures { WithBlock ReadsProgram (data_of elements.now) result }
{
    match elements {
        [] => Err(ScpiError::MissingParameter),
        [listing] => match *listing {
            Element::Block(text) => program(alloc, text),
            _ => Err(ScpiError::DataTypeError),
        },
        _ => Err(ScpiError::ParameterNotAllowed),
    }
}

/// `ROUTe:SCAN:PROGram[:DEFine]`
#[inline(never)]
fn of_program(alloc: Global, elements: &[Element<'_>]) -> Result<Command, ScpiError>
    ensures { (k : ℕ) → DecodesCommand HeaderMeaning.Program k (data_of elements.now) result }
{
    Ok(Command::Set(Setting::Program(one_program(alloc, elements)?)))
}

/// The bytes of the one element, which is a block.
fn one_block(alloc: Global, elements: &[Element<'_>]) -> Result<Sequence<u8>, ScpiError>
    ensures { WithBlock ReadsBlock (data_of elements.now) result }
{
    match elements {
        [] => Err(ScpiError::MissingParameter),
        [bytes] => match *bytes {
            Element::Block(text) => body(alloc, text),
            _ => Err(ScpiError::DataTypeError),
        },
        _ => Err(ScpiError::ParameterNotAllowed),
    }
}

/// `DIAGnostic:SCAN:CHECk?`, alone or with a listing in a block.
#[inline(never)]
fn of_check(alloc: Global, elements: &[Element<'_>]) -> Result<Command, ScpiError>
    ensures { OfCheck (data_of elements.now) result }
{
    if elements.is_empty() {
        return Ok(Command::Query(PlainQuery::ScanCheck));
    }
    match one_block(alloc, elements) {
        Ok(listing) => Ok(Command::ListingCheck(listing)),
        Err(e) => Err(e),
    }
}

/// `*GMC?`
#[inline(never)]
fn of_body_query(alloc: Global, elements: &[Element<'_>]) -> Result<Command, ScpiError>
    ensures { (k : ℕ) → DecodesCommand HeaderMeaning.MacroQuery k (data_of elements.now) result }
{
    Ok(Command::Macro(MacroCommand::BodyQuery(one_string(alloc, elements)?)))
}

/// `*RMC`
#[inline(never)]
fn of_removal(alloc: Global, elements: &[Element<'_>]) -> Result<Command, ScpiError>
    ensures { (k : ℕ) → DecodesCommand HeaderMeaning.RemoveMacro k (data_of elements.now) result }
{
    Ok(Command::Macro(MacroCommand::Remove(one_string(alloc, elements)?)))
}

/// The command of a header with this number in it and these data.
#[inline(always)]
fn decode(
    alloc: Global,
    key: HeaderMeaning,
    number: u8,
    elements: &[Element<'_>],
) -> Result<Command, ScpiError>
    ensures { DecodesCommand key number (data_of elements.now) result }
{
    match key {
        HeaderMeaning::NoData(ask) => plain(Command::NoData(ask), elements),
        HeaderMeaning::Query(ask) => plain(Command::Query(ask), elements),
        HeaderMeaning::LayerQuery(ask, family) => {
            plain(Command::LayerQuery(ask, layer_of(family, number)), elements)
        }
        HeaderMeaning::GroupQuery(ask, group) => plain(Command::GroupQuery(ask, group), elements),
        HeaderMeaning::DestructiveQuery(ask) => plain(Command::DestructiveQuery(ask), elements),
        HeaderMeaning::Signal(family) => plain(Command::Signal(layer_of(family, number)), elements),
        HeaderMeaning::Macros(ask) => plain(Command::Macros(ask), elements),
        HeaderMeaning::Relays(ask) => of_channels(alloc, ask, elements),
        HeaderMeaning::Scan => of_scan(alloc, elements),
        HeaderMeaning::Program => of_program(alloc, elements),
        HeaderMeaning::NoProgram => plain(Command::Set(Setting::NoProgram), elements),
        HeaderMeaning::ScanCheck => of_check(alloc, elements),
        HeaderMeaning::Numeric(ask) => of_whole(ask, number, elements),
        HeaderMeaning::Time(time, family) => of_time(time, layer_of(family, number), elements),
        HeaderMeaning::Source(family) => of_source(layer_of(family, number), elements),
        HeaderMeaning::Switch(ask) => of_switch(ask, elements),
        HeaderMeaning::EnableMacros => of_macros(elements),
        HeaderMeaning::DefineMacro => of_macro(alloc, elements),
        HeaderMeaning::MacroQuery => of_body_query(alloc, elements),
        HeaderMeaning::RemoveMacro => of_removal(alloc, elements),
    }
}

/// The refusal of a header that is none of the table.
#[inline(never)]
fn refusal(nodes: &[&[u8]], query: bool) -> ScpiError
    requires { length nodes.now ≤ 4 }
    ensures { IsRefusal (map (λ w. w.now) nodes.now) query result }
{
    let plain = unnumbered_all(nodes);
    match find_words(plain.as_slice(), query) {
        None => ScpiError::UndefinedHeader,
        Some(_) => ScpiError::HeaderSuffixOutOfRange,
    }
}

/// The refusal of a header that is none of the table below this path.
#[inline(never)]
fn refused(header: Header<'_>, path: &Path, query: bool) -> ScpiError
    ensures { IsRefusal (looked_up (heading_of header.entry) (path_of path.now)) query result }
{
    let below = texts(path);
    match texts_of(header, below.as_slice()) {
        None => ScpiError::UndefinedHeader,
        Some(nodes) => refusal(nodes.as_slice(), query),
    }
}

/// The command that a unit below a path asks for, or its first refusal. The path is then that of the next unit.
///
/// The refusals, in this order: `UndefinedHeader`; `HeaderSuffixOutOfRange`; `MissingParameter`; `ParameterNotAllowed`;
/// `DataTypeError`; of a number `InvalidCharacterInNumber`, `TooManyDigits`, `ExponentTooLarge`, `SuffixNotAllowed` or
/// `InvalidSuffix`, and `DataOutOfRange`; of a word `InvalidCharacterData` where no setting has it, and
/// `IllegalParameterValue` where another one has; those of a channel list; `OutOfMemory` where a list, a
/// label or a body could not grow.
#[inline(always)]
pub fn resolve(alloc: Global, unit: &RawUnit<'_>, path: &mut Path) -> Result<Command, ScpiError>
    ensures { Resolves (unit_of unit.now) (path_of path.old) result (path_of path.new) }
{
    match find_unit(unit, path) {
        None => Err(refused(unit.header, path, unit.query)),
        Some((key, number)) => decode(alloc, key, number, unit.elements),
    }
}

/// A law: but for lack of memory, a unit below a path has one command or one first refusal, and leaves one path.
pub fn one_meaning()
    ensures { (unit : UnitSeen) (below : Nodes) (r s : Result Meant Error) (a b : Nodes) → Resolves unit below r a
        → Resolves unit below s b → r ≢ Err OutOfMemory → s ≢ Err OutOfMemory → (r ≡ s) × (a ≡ b) }
{}

/// A law: a unit with any spelling of a table's entry as its header is what that entry asks for.
pub fn every_spelling()
    ensures { (entry : HeaderEntry) (unit : UnitSeen) (below : Nodes) (number : ℕ) (r : Result Meant Error)
        (left : Nodes) → IsIn entry entries → entry.query ≡ unit.query
        → IsIn (asked unit below, number) (spellings entry.nodes)
        → Resolves unit below r left → DecodesCommand entry.key number unit.elements r
        × (left ≡ path_after unit.header below) }
{}
