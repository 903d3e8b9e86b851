//! Runs of bytes, and marks among them: what every reader of a text is made of.

ghost use Rattle.std.specs.Prelude.{◌≡◌, ◌++◌, ◌∷◌, ◌==◌, not, length, ◌<◌, IfSome, IfNone};
ghost use Rattle.sw_base.specs.Text.{is_blank, is_digit, is_letter, is_word, Spans, Lacks, StartsOff};

/// Whether the byte is white space: 0 to 9 or 11 to 32 (IEEE 488.2, 7.4.1.2).
pub fn is_blank(b: u8) -> bool
    ensures { result ≡ is_blank b }
{
    b < 33 && b != 10
}

/// Whether the byte is a decimal digit.
pub fn is_digit(b: u8) -> bool
    ensures { result ≡ is_digit b }
{
    48 <= b && b < 58
}

/// Whether the byte is a letter.
pub fn is_letter(b: u8) -> bool
    ensures { result ≡ is_letter b }
{
    b.is_ascii_alphabetic()
}

/// Whether a mnemonic may have the byte after its first letter: a letter, a digit or an underscore.
pub fn is_word(b: u8) -> bool
    ensures { result ≡ is_word b }
{
    is_letter(b) || is_digit(b) || b == 95
}

/// The white space at the front, and what follows it.
pub fn blanks(bytes: &[u8]) -> (&[u8], &[u8])
    ensures { Spans is_blank bytes.now result.0.now result.1.now }
{
    bytes.split_at(bytes.iter().take_while(|b| is_blank(**b)).count())
}

/// The digits at the front, and what follows them.
pub fn digits(bytes: &[u8]) -> (&[u8], &[u8])
    ensures { Spans is_digit bytes.now result.0.now result.1.now }
{
    bytes.split_at(bytes.iter().take_while(|b| is_digit(**b)).count())
}

/// The letters at the front, and what follows them.
pub fn letters(bytes: &[u8]) -> (&[u8], &[u8])
    ensures { Spans is_letter bytes.now result.0.now result.1.now }
{
    bytes.split_at(bytes.iter().take_while(|b| is_letter(**b)).count())
}

/// The letters, digits and underscores at the front, and what follows them.
pub fn words(bytes: &[u8]) -> (&[u8], &[u8])
    ensures { Spans is_word bytes.now result.0.now result.1.now }
{
    bytes.split_at(bytes.iter().take_while(|b| is_word(**b)).count())
}

/// The bytes before the first `mark` and those after it.
pub fn split_once(bytes: &[u8], mark: u8) -> Option<(&[u8], &[u8])>
    ensures found { IfSome result (λ x. Lacks mark x.0.now × (bytes.now ≡ x.0.now ++ mark ∷ x.1.now)) }
    ensures none { IfNone result (Lacks mark bytes.now) }
{
    let n = bytes.iter().position(|b| *b == mark)?;
    Some((&bytes[..n], &bytes[n + 1..]))
}

/// What follows the mark, where the bytes begin with it.
pub fn strip_prefix(bytes: &[u8], mark: u8) -> Option<&[u8]>
    ensures found { IfSome result (λ rest. bytes.now ≡ mark ∷ rest.now) }
    ensures none { IfNone result (StartsOff (λ b. b == mark) bytes.now) }
{
    match bytes {
        [first, rest @ ..] => { if *first == mark { Some(rest) } else { None } }
        [] => None,
    }
}
