//! Texts that are split at a byte.

ghost use Rattle.std.specs.Prelude.{◌≡◌, ◌≤◌, ◌+◌, ◌∷◌, length};
ghost use Rattle.partial_text.specs.Pieces.{until, from, pieces, pieces_behind};

use memchr::memchr;

/// Splits the bytes before the first separator, by a loop over the bytes: the word or field before a space is
/// a few bytes long, and for so few a call of `memchr` spares no time.
pub(crate) fn split_before(bytes: &[u8], separator: u8) -> (&[u8], &[u8])
    ensures front { result.0.now ≡ until separator bytes.now }
    ensures rest { result.1.now ≡ from separator bytes.now }
    ensures shorter { length result.1.now ≤ length bytes.now }
    ensures split { pieces separator bytes.now
        ≡ result.0.now ∷ pieces_behind separator result.1.now }
{
    for (index, byte) in bytes.iter().enumerate() {
        if *byte == separator {
            return bytes.split_at(index);
        }
    }
    (bytes, &[])
}

/// Splits the bytes before the first separator, as `split_before` does, where that may be far away.
pub(crate) fn split_at_first(bytes: &[u8], separator: u8) -> (&[u8], &[u8])
    ensures front { result.0.now ≡ until separator bytes.now }
    ensures rest { result.1.now ≡ from separator bytes.now }
    ensures shorter { length result.1.now ≤ length bytes.now }
    ensures split { pieces separator bytes.now
        ≡ result.0.now ∷ pieces_behind separator result.1.now }
{
    match memchr(separator, bytes) {
        Some(index) => bytes.split_at(index),
        None => (bytes, &[]),
    }
}

/// How many separators there are.
pub(crate) fn count(bytes: &[u8], separator: u8) -> usize
    ensures value { result + 1 ≡ length (pieces separator bytes.now) }
    ensures bound { result ≤ length bytes.now }
{
    let mut found = 0;
    for byte in bytes {
        if *byte == separator {
            found += 1;
        }
    }
    found
}
