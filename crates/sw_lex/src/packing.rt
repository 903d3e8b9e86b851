//! Words as numbers, so that two are compared at once.

ghost use Rattle.std.specs.Prelude.{◌≡◌, true, ◌≤◌, ◌<◌, ◌++◌, ◌∷◌, [], length, map, take, drop};
ghost use Rattle.std.specs.Char.{to_ascii_uppercase};
ghost use Rattle.sw_base.specs.Text.{is_letter, is_word, AllPass, StartsOff};
ghost use Rattle.sw_lex.specs.Headed.{most_words, word_number};
ghost use Rattle.sw_lex.specs.Packed.{capital_of, are_capitals, IsNumberOf, AreNumbersOf};

use arrayvec::ArrayVec;
use sw_base::{MNEMONIC_BYTES, is_letter, is_word, words};

/// A word as a number: a one, and then the word's bytes in capitals, the first the most significant. A word that is
/// longer than each mnemonic of the table is 0.
pub type Word = u128;

/// A mnemonic as the standard writes it, its short form in capitals, and what the long form adds in small letters; and
/// the numbers of the two forms, which `specs/Packed.antt` compares with the text.
#[derive(Clone, Copy)]
pub struct Mnemonic {
    pub text: &'static [u8],
    pub short: Word,
    pub long: Word,
}

/// The capital of each byte that a mnemonic may have, 0 for any other.
static CAPITALS: [u8; 256] = [
    0, 0, 0, 0, 0, 0, 0, 0, 0, 0, 0, 0, 0, 0, 0, 0, 0, 0, 0, 0, 0, 0, 0, 0, 0, 0, 0, 0, 0, 0, 0, 0,
    0, 0, 0, 0, 0, 0, 0, 0, 0, 0, 0, 0, 0, 0, 0, 0, 48, 49, 50, 51, 52, 53, 54, 55, 56, 57, 0, 0,
    0, 0, 0, 0, 0, 65, 66, 67, 68, 69, 70, 71, 72, 73, 74, 75, 76, 77, 78, 79, 80, 81, 82, 83, 84,
    85, 86, 87, 88, 89, 90, 0, 0, 0, 0, 95, 0, 65, 66, 67, 68, 69, 70, 71, 72, 73, 74, 75, 76, 77,
    78, 79, 80, 81, 82, 83, 84, 85, 86, 87, 88, 89, 90, 0, 0, 0, 0, 0, 0, 0, 0, 0, 0, 0, 0, 0, 0,
    0, 0, 0, 0, 0, 0, 0, 0, 0, 0, 0, 0, 0, 0, 0, 0, 0, 0, 0, 0, 0, 0, 0, 0, 0, 0, 0, 0, 0, 0, 0, 0,
    0, 0, 0, 0, 0, 0, 0, 0, 0, 0, 0, 0, 0, 0, 0, 0, 0, 0, 0, 0, 0, 0, 0, 0, 0, 0, 0, 0, 0, 0, 0, 0,
    0, 0, 0, 0, 0, 0, 0, 0, 0, 0, 0, 0, 0, 0, 0, 0, 0, 0, 0, 0, 0, 0, 0, 0, 0, 0, 0, 0, 0, 0, 0, 0,
    0, 0, 0, 0, 0, 0, 0, 0, 0, 0, 0, 0, 0, 0, 0, 0, 0, 0, 0, 0, 0, 0, 0,
];

/// The capitals of all bytes.
#[inline(always)]
fn capitals() -> &'static [u8; 256]
    ensures { are_capitals 0 result.now ≡ true }
{
    &CAPITALS
}

/// The capital of a byte that a mnemonic may have, 0 of any other.
#[inline(always)]
fn capital(byte: u8) -> u8
    ensures { result ≡ capital_of byte }
{
    capitals()[usize::from(byte)]
}

/// The number of a word.
pub fn number_of(word: &[u8]) -> Word
    ensures { IsNumberOf (map to_ascii_uppercase word.now) result }
{
    if word.len() > MNEMONIC_BYTES {
        return 0;
    }
    let mut number: Word = 1;
    for byte in word {
        number = number * 256 + u128::from(byte.to_ascii_uppercase());
    }
    number
}

/// The numbers of the words of a header.
pub fn numbers_of(words: &[&[u8]]) -> ArrayVec<Word, 4>
    requires { length words.now ≤ 4 }
    ensures { AreNumbersOf (map (λ w. map to_ascii_uppercase w.now) words.now) result.items }
{
    let mut numbers = ArrayVec::new();
    for word in words {
        numbers.push(number_of(word));
    }
    numbers
}

/// This many bytes with a one before them are a number of 64 bits.
const FEW: usize = 7;

/// The number of the first bytes at the front that a mnemonic may have, and how many they are, seven at most.
#[inline(always)]
fn few_at(text: &[u8]) -> (u64, usize)
    ensures fits { result.1 ≤ length text.now }
    ensures pass { AllPass is_word (take result.1 text.now) }
    ensures off { result.1 < 7 → StartsOff is_word (drop result.1 text.now) }
    ensures number { result.1 < 7 → result.0 ≡ word_number (take result.1 text.now) }
{
    let most = text.len().min(FEW);
    let mut n = 0;
    let mut number: u64 = 1;
    while n < most && capital(text[n]) != 0 {
        number = number * 256 + u64::from(capital(text[n]));
        n += 1;
    }
    (number, n)
}

/// A one and a star as a number.
const STAR: u64 = 298;

/// This many letters with a star and a one before them are a number of 64 bits.
pub const FEW_LETTERS: usize = 6;

/// The number of a star and the first letters at the front behind it, and how many letters these are, six at most.
#[inline(always)]
pub fn star_at(more: &[u8]) -> (u64, usize)
    ensures fits { result.1 ≤ length more.now }
    ensures pass { AllPass is_letter (take result.1 more.now) }
    ensures off { result.1 < 6 → StartsOff is_letter (drop result.1 more.now) }
    ensures number { result.1 < 6 → result.0 ≡ word_number (42 ∷ take result.1 more.now) }
{
    let most = more.len().min(FEW_LETTERS);
    let mut n = 0;
    let mut number = STAR;
    while n < most && is_letter(more[n]) {
        number = number * 256 + u64::from(more[n].to_ascii_uppercase());
        n += 1;
    }
    (number, n)
}

/// What `word_at` finds, for a word of any length.
#[inline(never)]
fn long_word_at(text: &[u8]) -> (Word, usize)
    ensures fits { result.1 ≤ length text.now }
    ensures pass { AllPass is_word (take result.1 text.now) }
    ensures off { StartsOff is_word (drop result.1 text.now) }
    ensures number { result.0 ≡ word_number (take result.1 text.now) }
{
    let most = text.len().min(MNEMONIC_BYTES);
    let mut n = 0;
    let mut number: Word = 1;
    while n < most && capital(text[n]) != 0 {
        number = number * 256 + u128::from(capital(text[n]));
        n += 1;
    }
    if n == MNEMONIC_BYTES && n < text.len() && is_word(text[n]) {
        let (all, _) = words(text);
        return (0, all.len());
    }
    (number, n)
}

/// The number of the bytes at the front that a mnemonic may have, and how many they are.
pub fn word_at(text: &[u8]) -> (Word, usize)
    ensures fits { result.1 ≤ length text.now }
    ensures pass { AllPass is_word (take result.1 text.now) }
    ensures off { StartsOff is_word (drop result.1 text.now) }
    ensures number { result.0 ≡ word_number (take result.1 text.now) }
{
    let (number, n) = few_at(text);
    if n < FEW {
        return (Word::from(number), n);
    }
    long_word_at(text)
}

/// How many words of a header are kept.
const WORDS: usize = 5;

/// The numbers of a header's words, of the first few.
#[derive(Drop)]
pub struct Words {
    pub kept: [Word; WORDS],
    pub count: usize,
    ghost whole: { length kept ≡ most_words },
    ghost few: { count ≤ most_words },
}

impl Words {
    /// None.
    pub fn new() -> Self
        ensures { result.count ≡ 0 }
    {
        Words {
            kept: [0; WORDS],
            count: 0,
        }
    }

    /// Those that are kept.
    #[inline(always)]
    pub fn as_slice(&self) -> &[Word]
        ensures { result.now ≡ take self.now.count self.now.kept }
    {
        &self.kept[..self.count]
    }

    /// Puts numbers behind the others, as far as there is room.
    #[inline(always)]
    pub fn append(&mut self, words: &[Word])
        ensures { take self.new.count self.new.kept
            ≡ take most_words (take self.old.count self.old.kept ++ words.now) }
    {
        for word in words {
            self.push(*word);
        }
    }

    /// Puts a number behind the others, where there is room.
    #[inline(always)]
    pub fn push(&mut self, word: Word)
        ensures { take self.new.count self.new.kept
            ≡ take most_words (take self.old.count self.old.kept ++ word ∷ []) }
    {
        if self.count < WORDS {
            self.kept[self.count] = word;
            self.count += 1;
        }
    }
}
