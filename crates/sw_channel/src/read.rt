//! The channels, or the positions, that a text spells, or its refusal.

ghost use Rattle.std.specs.Prelude.{◌≡◌, ◌≢◌, ◌≤◌, ◌↔◌, List, [], ℕ, length, Result, IfOk, Ok, Err};
ghost use Rattle.std.specs.Result.{result_map_both};
ghost use Rattle.sw_base.specs.Layout.{Channel};
ghost use Rattle.sw_base.specs.Limits.{most_entries};
ghost use Rattle.sw_base.specs.Memory.{Gives};
ghost use Rattle.sw_base.specs.declared.error.ScpiError.{ScpiError as Error};
ghost use Rattle.sw_base.specs.declared.error.ScpiError.TheVariants.{OutOfMemory};
ghost use Rattle.sw_channel.specs.Grammar.{ListItem, IsList, PositionItem, IsPositionList};
ghost use Rattle.sw_channel.specs.Meaning.{Spells, judged, channels_judged};
ghost use Rattle.sw_channel.specs.Positions.{Position as Channels};
ghost use Rattle.sw_channel.specs.PositionMeaning.{SpellsPositions, positions_judged};
ghost use Rattle.sw_channel.specs.Reading.{Reads, IsRefusedList, IsNoList};
ghost use Rattle.sw_channel.specs.Reading.{ReadsPositions, IsRefusedPositions, IsNoPositionList};

use crate::collect::collect;
use crate::parse::body_of;
use crate::position::Position;
use crate::positions::collect_positions;
use std::alloc::Global;
use sw_base::{Chan, ScpiError};

/// The channels that a text spells as a channel list, with repeats and in order (SCPI-1999 volume 1, 8.3.2).
///
/// A list is `(@`, items joined by commas, and `)`. An item is a channel, or two of one slot joined by `:`, which name
/// every channel from the first to the second, upwards or downwards. A channel is `slot!channel`, or a plain number,
/// which is slot times 100 and channel. White space may be round each number.
///
/// It answers the first of these refusals, where there is one:
/// - `InvalidExpression` where any part of the text is no list, and for one of no item;
/// - then item by item `DataOutOfRange` for a number of more than nine digits, a slot outside 1 to 16, a channel
///   outside 1 to 99 or a range over two slots, and `TooMuchData` for a 513th channel.
///
/// `OutOfMemory` comes where a list that has none of these finds no room.
pub fn read_list(alloc: Global, text: &[u8]) -> Result<Vec<Chan>, ScpiError>
    // The answer is what the text spells, its first refusal, or lack of memory for what it spells.
    ensures reads { Reads text.now (result_map_both (λ v. v.items) (λ e. e) result) }
    // What is read is spelled so.
    ensures found { IfOk result (λ v. Spells text.now v.items × (length v.items ≤ most_entries)) }
    // What is spelled so is read, unless memory runs out.
    ensures only { (cs : List Channel) → Spells text.now cs → length cs ≤ most_entries
        → Gives (λ v. v.items) result (Ok cs) }
    // What is refused is refused so, however much memory there is.
    ensures refused { (e : Error) → IsRefusedList text.now e → result ≡ Err e }
    // A text that is written right gives its channels or its first refusal, unless memory runs out.
    ensures judged { (is : List ListItem) → IsList text.now is
        → Gives (λ v. v.items) result (judged channels_judged [] is) }
    // Any other text, and no other, is no list.
    ensures malformed { (result ≡ Err ScpiError.InvalidExpression) ↔ IsNoList text.now }
{
    read(alloc, text)
}

/// The answer to the text, from which all that `read_list` ensures follows.
fn read(alloc: Global, text: &[u8]) -> Result<Vec<Chan>, ScpiError>
    ensures { Reads text.now (result_map_both (λ v. v.items) (λ e. e) result) }
{
    match body_of(text) {
        None => Err(ScpiError::InvalidExpression),
        Some(body) => collect(alloc, body),
    }
}

/// The positions that a text spells as a list of positions (this instrument's own), with repeats and in order.
///
/// Such a list is a channel list in which an item may also be up to four different channels joined by `&`, with white
/// space round it: these are one position. Any other channel is a position by itself, and so is each channel of a
/// range.
///
/// It answers the first of these refusals, where there is one:
/// - `InvalidExpression` where any part of the text is no such list, as for a range with `&` on either side;
/// - then channel by channel `DataOutOfRange` for one that `read_list` refuses so, and for one that its position has;
///   `TooMuchData` for a position's fifth, and for the first of a 513th position.
///
/// `OutOfMemory` comes where a list that has none of these finds no room.
pub fn read_positions(alloc: Global, text: &[u8]) -> Result<Vec<Position>, ScpiError>
    // The answer is what the text spells, its first refusal, or lack of memory for what it spells.
    ensures reads { ReadsPositions text.now (result_map_both (λ v. v.items) (λ e. e) result) }
    // What is read is spelled so.
    ensures found { IfOk result (λ v. SpellsPositions text.now v.items × (length v.items ≤ most_entries)) }
    // What is spelled so is read, unless memory runs out.
    ensures only { (ps : List Channels) → SpellsPositions text.now ps → length ps ≤ most_entries
        → Gives (λ v. v.items) result (Ok ps) }
    // What is refused is refused so, however much memory there is.
    ensures refused { (e : Error) → IsRefusedPositions text.now e → result ≡ Err e }
    // A text that is written right gives its positions or its first refusal, unless memory runs out.
    ensures judged { (is : List PositionItem) → IsPositionList text.now is
        → Gives (λ v. v.items) result (judged positions_judged [] is) }
    // Any other text, and no other, is no list.
    ensures malformed { (result ≡ Err ScpiError.InvalidExpression) ↔ IsNoPositionList text.now }
{
    read_bracketed(alloc, text)
}

/// The answer to the text, from which all that `read_positions` ensures follows.
fn read_bracketed(alloc: Global, text: &[u8]) -> Result<Vec<Position>, ScpiError>
    ensures { ReadsPositions text.now (result_map_both (λ v. v.items) (λ e. e) result) }
{
    match body_of(text) {
        None => Err(ScpiError::InvalidExpression),
        Some(body) => collect_positions(alloc, body),
    }
}

/// A law: but for a lack of memory there is one answer to a text. No text spells two lists, nor a list of at most 512
/// and a refusal, nor has it two first refusals; and what is refused is refused with any memory.
pub fn one_reading()
    ensures one { (text : List ℕ) (r s : Result (List Channel) Error) → Reads text r → Reads text s
        → r ≢ Err OutOfMemory → s ≢ Err OutOfMemory → r ≡ s }
    ensures refused { (text : List ℕ) (e : Error) (r : Result (List Channel) Error) → IsRefusedList text e
        → Reads text r
        → r ≡ Err e }
{}

/// The same law of lists of positions: no text has two readings, nor a reading and a refusal.
pub fn one_reading_of_positions()
    ensures one { (text : List ℕ) (r s : Result (List Channels) Error) → ReadsPositions text r → ReadsPositions text s
        → r ≢ Err OutOfMemory → s ≢ Err OutOfMemory → r ≡ s }
    ensures refused { (text : List ℕ) (e : Error) (r : Result (List Channels) Error) → IsRefusedPositions text e
        → ReadsPositions text r
        → r ≡ Err e }
{}
