//! From the nodes of a header to its command.

ghost use Rattle.std.specs.Prelude.{◌≡◌, ◌≤◌, ℕ, Bool, true, false, ◌==◌, List, length, map, take, IfSome, IfNone};
ghost use Rattle.std.specs.Prelude.{IsTrue, ◌↔◌};
ghost use Rattle.std.specs.List.{filter};
ghost use Rattle.std.specs.Char.{to_ascii_uppercase};
ghost use Rattle.sw_lex.specs.Found.{IsFound, IsForm};
ghost use Rattle.sw_lex.specs.Table.{entries};
ghost use Rattle.sw_lex.specs.Values.{is_named};
ghost use Rattle.sw_lex.specs.Rows.{entries_of, is_form_from};
ghost use Rattle.sw_lex.specs.Headed.{most_words, first_word};
ghost use Rattle.sw_lex.specs.Packed.{AreNumbersOf, IsFormNumber, IsNumberedForm, FitNumbers, RowNumbers, GroupNumbers};
ghost use Rattle.sw_lex.specs.Packed.{groups_packed};
ghost use Rattle.sw_lex.specs.Parts.{IsPart, belongs, part_of};
ghost use Rattle.sw_lex.specs.declared.table.HeaderMeaning.{HeaderMeaning};

use crate::common_rows::common_at;
use crate::packing::{Mnemonic, Word, numbers_of};
use crate::rows::{HeaderNode, HeadersByLetter, NONE, Row, Subsystem, path_at};
use crate::table::HeaderMeaning;
use sw_base::ARM_LAYERS;

/// Whether two bytes are one but for the case of a letter.
fn is_alike(byte: u8, next: u8) -> bool
    ensures { result ≡ (to_ascii_uppercase byte == to_ascii_uppercase next) }
{
    byte == next || byte.to_ascii_uppercase() == next.to_ascii_uppercase()
}

/// Whether the rest of a word is the rest of the long form of a mnemonic, or of the short form, where only capitals of
/// the mnemonic have been passed.
fn is_rest(word: &[u8], form: &[u8], capitals: bool) -> bool
    ensures { result ≡ is_form_from (map to_ascii_uppercase word.now) form.now capitals }
{
    match word {
        [] => match form {
            [] => true,
            [next, ..] => capitals && next.is_ascii_lowercase(),
        },
        [byte, word @ ..] => match form {
            [] => false,
            [next, form @ ..] => {
                if is_alike(*byte, *next) {
                    is_rest(word, form, capitals && !next.is_ascii_lowercase())
                } else {
                    false
                }
            }
        },
    }
}

/// Whether a word is the short form or the long form of a mnemonic that is written as in the standard, but for the
/// case of its letters.
pub fn is_form(word: &[u8], form: &[u8]) -> bool
    ensures form { IsTrue result ↔ IsForm form.now (map to_ascii_uppercase word.now) }
    ensures named { result ≡ is_named form.now (map to_ascii_uppercase word.now) }
{
    is_rest(word, form, true)
}

/// Whether a word is one of the two forms.
#[inline(always)]
fn is_spelling(word: Word, form: &Mnemonic) -> bool
    ensures { IsTrue result ↔ IsFormNumber form.now word }
{
    word == form.short || word == form.long
}

/// The number of an ARM layer that a word has behind one of the two forms.
fn number_behind(word: Word, form: &Mnemonic) -> Option<u8>
    ensures some { IfSome result (λ k. IsNumberedForm form.now k word) }
    ensures none { IfNone result ((k : ℕ) → IsNumberedForm form.now k word → ⊥) }
{
    let last = (word % 256) as u8;
    if last > b'0' && last <= b'0' + ARM_LAYERS && is_spelling(word / 256, form) {
        Some(last - b'0')
    } else {
        None
    }
}

/// Whether the words are a spelling of the nodes, and the number in them.
fn spelled(nodes: &[HeaderNode], words: &[Word]) -> Option<u8>
    ensures some { IfSome result (λ k. FitNumbers nodes.now words.now k) }
    ensures none { IfNone result ((k : ℕ) → FitNumbers nodes.now words.now k → ⊥) }
{
    match nodes {
        [] => if words.is_empty() { Some(0) } else { None },
        [node, others @ ..] => match node {
            HeaderNode::Must(form) => match words {
                [] => None,
                [word, rest @ ..] => if is_spelling(*word, form) {
                    spelled(others, rest)
                } else {
                    None
                },
            },
            HeaderNode::May(form) => match words {
                [] => spelled(others, words),
                [word, rest @ ..] => {
                    if is_spelling(*word, form) {
                        if let Some(number) = spelled(others, rest) {
                            return Some(number);
                        }
                    }
                    spelled(others, words)
                }
            },
            HeaderNode::Numbered(form) => match words {
                [] => spelled(others, words),
                [word, rest @ ..] => {
                    if let Some(number) = spelled(others, rest) {
                        if is_spelling(*word, form) {
                            return Some(number);
                        }
                        if let Some(number) = number_behind(*word, form) {
                            return Some(number);
                        }
                    }
                    spelled(others, words)
                }
            },
        },
    }
}

/// What is left of the nodes and of the words behind those at the front that have to be spelled; none where one of them
/// isn't.
#[inline(always)]
fn behind_musts<'s, 'w>(
    nodes: &'s [HeaderNode],
    words: &'w [Word],
) -> Option<(&'s [HeaderNode], &'w [Word])>
    ensures fits { IfSome result (λ x. (k : ℕ) → FitNumbers nodes.now words.now k ↔ FitNumbers x.0.now x.1.now k) }
    ensures none { IfNone result ((k : ℕ) → FitNumbers nodes.now words.now k → ⊥) }
{
    let mut nodes = nodes;
    let mut words = words;
    'nodes: loop {
        match nodes {
            [] => return Some((nodes, words)),
            [node, others @ ..] => match node {
                HeaderNode::Must(form) => match words {
                    [word, rest @ ..] if is_spelling(*word, form) => {
                        nodes = others;
                        words = rest;
                    }
                    _ => return None,
                },
                HeaderNode::May(_) | HeaderNode::Numbered(_) => return Some((nodes, words)),
            },
        }
    }
}

/// What the first row asks for that these words spell below its first node, and the number in them.
#[inline(always)]
fn below(rows: &[Row], words: &[Word]) -> Option<(HeaderMeaning, u8)>
    ensures some { IfSome result (λ x. (query : Bool) × RowNumbers rows.now words.now query x.0 x.1) }
    ensures none { IfNone result ((query : Bool) (key : HeaderMeaning) (k : ℕ)
        → RowNumbers rows.now words.now query key k → ⊥) }
{
    for row in rows {
        if let Some((nodes, rest)) = behind_musts(row.nodes(), words) {
            if let Some(number) = spelled(nodes, rest) {
                return Some((row.key(), number));
            }
        }
    }
    None
}

/// What a header asks for that is this word and then these, and the number in it.
#[inline(always)]
fn matching(groups: &[Subsystem], word: Word, words: &[Word]) -> Option<(HeaderMeaning, u8)>
    ensures some { IfSome result (λ x. (query : Bool) × GroupNumbers groups.now word words.now query x.0 x.1) }
    ensures none { IfNone result ((query : Bool) (key : HeaderMeaning) (k : ℕ)
        → GroupNumbers groups.now word words.now query key k → ⊥) }
{
    for group in groups {
        if is_spelling(word, &group.first) {
            if let Some(found) = below(group.rows, words) {
                return Some(found);
            }
        }
    }
    None
}

/// The headers that begin as this word does.
fn part_at(word: &[u8]) -> &'static HeadersByLetter
    ensures { IsPart (part_of (map to_ascii_uppercase word.now)) result.now }
{
    match word {
        [] => &NONE,
        [letter] => path_at(*letter),
        [first, letter, ..] => {
            if *first == b'*' {
                common_at(*letter)
            } else {
                path_at(*first)
            }
        }
    }
}

/// The headers that begin as this word does, and are commands, or queries.
pub fn groups_at(word: &[u8], query: bool) -> &'static [Subsystem]
    ensures whole { entries_of result.now ≡ filter (belongs (part_of (map to_ascii_uppercase word.now)) query) entries }
    ensures numbers { groups_packed result.now ≡ true }
{
    let part = part_at(word);
    if query { part.queries } else { part.commands }
}

/// The other headers that begin with this letter, and are commands, or queries.
#[inline(always)]
pub fn path_groups(letter: u8, query: bool) -> &'static [Subsystem]
    ensures whole { entries_of result.now ≡ filter (belongs (false, to_ascii_uppercase letter) query) entries }
    ensures numbers { groups_packed result.now ≡ true }
{
    let part = path_at(letter);
    if query { part.queries } else { part.commands }
}

/// The command of the header with words of these numbers, by the rows that it looks among, and the number in it.
#[inline(always)]
pub fn find(groups: &[Subsystem], numbers: &[Word]) -> Option<(HeaderMeaning, u8)>
    ensures some { IfSome result (λ x. (query : Bool) (ws : List (List ℕ)) → AreNumbersOf ws numbers.now
        → entries_of groups.now ≡ filter (belongs (part_of (first_word ws)) query) entries
        → groups_packed groups.now ≡ true → IsFound entries ws query x.0 x.1) }
    ensures none { IfNone result ((query : Bool) (ws : List (List ℕ)) → AreNumbersOf ws numbers.now
        → entries_of groups.now ≡ filter (belongs (part_of (first_word ws)) query) entries
        → groups_packed groups.now ≡ true → (key : HeaderMeaning) (k : ℕ) → IsFound entries ws query key k → ⊥) }
{
    match numbers {
        [] => None,
        [number, others @ ..] => matching(groups, *number, others),
    }
}

/// The same by the numbers of a header's first words. None with more than four of them is in the table.
#[inline(always)]
pub fn find_kept(groups: &[Subsystem], numbers: &[Word]) -> Option<(HeaderMeaning, u8)>
    ensures some { IfSome result (λ x. (query : Bool) (ws : List (List ℕ))
        → AreNumbersOf (take most_words ws) numbers.now
        → entries_of groups.now ≡ filter (belongs (part_of (first_word ws)) query) entries
        → groups_packed groups.now ≡ true → IsFound entries ws query x.0 x.1) }
    ensures none { IfNone result ((query : Bool) (ws : List (List ℕ)) → AreNumbersOf (take most_words ws) numbers.now
        → entries_of groups.now ≡ filter (belongs (part_of (first_word ws)) query) entries
        → groups_packed groups.now ≡ true → (key : HeaderMeaning) (k : ℕ) → IsFound entries ws query key k → ⊥) }
{
    if numbers.len() > 4 {
        return None;
    }
    find(groups, numbers)
}

/// The command that a header of these words is, and the number in it.
pub fn find_words(words: &[&[u8]], query: bool) -> Option<(HeaderMeaning, u8)>
    requires { length words.now ≤ 4 }
    ensures some { IfSome result (λ x. IsFound entries
        (map (λ w. map to_ascii_uppercase w.now) words.now) query x.0 x.1) }
    ensures none { IfNone result ((key : HeaderMeaning) (k : ℕ)
        → IsFound entries (map (λ w. map to_ascii_uppercase w.now) words.now) query key k → ⊥) }
{
    match words {
        [] => None,
        [first, ..] => find(groups_at(first, query), numbers_of(words).as_slice()),
    }
}

/// No header is two commands.
pub fn one_command()
    ensures { (ws : List (List ℕ)) (query : Bool) (key other : HeaderMeaning) (k m : ℕ) → IsFound entries ws query key k
        → IsFound entries ws query other m → (key ≡ other) × (k ≡ m) }
{}
