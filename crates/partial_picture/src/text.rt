//! Words as a drawing has them.

ghost use Rattle.std.specs.Prelude.{◌≡◌, ◌≤◌, ◌<◌, ◌/◌, ◌++◌, [], length, IfOk, OnOk, string_bytes};
ghost use Rattle.partial_picture.specs.Texts.{escaped_letter, Escapes, cut_to};

use crate::pixels::Pixels;
use std::alloc::{AllocError, Global};

/// The width of a letter, with some room.
const LETTER: u64 = 7;

/// Writes a letter, escaped when SVG gives it a meaning.
fn push_letter(text: &mut String, letter: char) -> Result<(), AllocError>
    ensures { OnOk result (string_bytes text.new ≡ string_bytes text.old ++ escaped_letter letter) }
{
    match letter {
        '&' => text.push_str("&amp;"),
        '<' => text.push_str("&lt;"),
        '>' => text.push_str("&gt;"),
        '"' => text.push_str("&quot;"),
        '\'' => text.push_str("&#39;"),
        _ => text.push(letter),
    }
}

/// Writes words, with each letter escaped to which SVG gives a meaning.
///
/// # Errors
///
/// [`AllocError`] when an allocation was refused. A part of the words from their front may have been
/// written.
pub fn push_escaped(text: &mut String, words: &str) -> Result<(), AllocError>
    ensures { OnOk result (Escapes words.now (string_bytes text.old) (string_bytes text.new)) }
{
    for letter in words.chars() {
        push_letter(text, letter)?;
    }
    Ok(())
}

/// Cuts words to a room, with three dots at the end when not all of them fit. Returns no words when hardly
/// any fit.
///
/// # Errors
///
/// [`AllocError`] when an allocation was refused.
pub fn fitted(alloc: Global, words: &str, room: Pixels) -> Result<String, AllocError>
    // A letter is 7 wide.
    ensures whole { length words.now ≤ room.0 / 7 → IfOk result (λ shown. string_bytes shown ≡ words.now) }
    ensures none { room.0 / 7 < length words.now → room.0 / 7 < 3 →
        IfOk result (λ shown. string_bytes shown ≡ []) }
    ensures cut { room.0 / 7 < length words.now → 3 ≤ room.0 / 7 →
        IfOk result (λ shown. string_bytes shown ≡ cut_to (room.0 / 7) words.now) }
{
    let letters = (room.0 / LETTER) as usize;
    if words.len() <= letters {
        return String::from_str(alloc, words);
    }
    if letters < 3 {
        return Ok(String::new(alloc));
    }
    let mut cut: String = words.chars().take(letters - 1).collect(alloc)?;
    cut.push('…')?;
    Ok(cut)
}
