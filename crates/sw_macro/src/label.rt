//! Labels of macros.

ghost use Rattle.std.specs.Prelude.{◌≡◌, ◌∷◌, true, false, IfSome, IfNone};
ghost use Rattle.std.specs.List.{list_all};
ghost use Rattle.sw_base.specs.Text.{is_word};
ghost use Rattle.sw_macro.specs.Label.{is_label, in_capitals};

use arrayvec::ArrayVec;
use sw_base::{MNEMONIC_BYTES, is_letter, words};

/// A label in capitals.
pub type Label = ArrayVec<u8, MNEMONIC_BYTES>;

/// Whether the bytes are letters, digits and underscores.
fn all_words(bytes: &[u8]) -> bool
    ensures { result ≡ list_all is_word bytes.now }
{
    let (_, rest) = words(bytes);
    rest.is_empty()
}

/// Whether the byte and the others are a label.
fn is_label_of(first: u8, others: &[u8]) -> bool
    ensures { result ≡ is_label (first ∷ others.now) }
{
    is_letter(first) && others.len() < MNEMONIC_BYTES && all_words(others)
}

/// Whether the bytes are a label: a letter, and then letters, digits or underscores, 1 to 12 bytes.
pub fn is_label(bytes: &[u8]) -> bool
    ensures { result ≡ is_label bytes.now }
{
    match bytes {
        [] => false,
        [first, others @ ..] => is_label_of(*first, others),
    }
}

/// The bytes in capitals, where they are a label.
pub fn read_label(bytes: &[u8]) -> Option<Label>
    ensures some { IfSome result (λ label. (is_label bytes.now ≡ true) × (label.items ≡ in_capitals bytes.now)) }
    ensures none { IfNone result (is_label bytes.now ≡ false) }
{
    if !is_label(bytes) {
        return None;
    }
    let mut label = Label::new();
    for b in bytes {
        label.push(b.to_ascii_uppercase());
    }
    Some(label)
}
