//! Flags by channel.

ghost use Rattle.std.specs.Prelude.{◌≡◌, ℕ, ◌≤◌, false, length, replicate, slice_index_or, take};

/// Flags of which none is set, as a driver keeps them by channel.
pub fn no_flags<const N: usize>() -> [bool; N]
    ensures size { length result ≡ N }
    ensures front { (n : ℕ) → n ≤ N → take n result ≡ replicate n false }
    ensures each { (k : ℕ) → slice_index_or result k false ≡ false }
{
    [false; N]
}
