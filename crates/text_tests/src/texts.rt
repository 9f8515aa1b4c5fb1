//! Texts that are made of parts, and judged.

use std::alloc::{AllocError, Global};
use std::process::Abort;

/// The front of a text, a part so many times, and the end.
pub(crate) fn repeated(
    alloc: Global,
    front: &[u8],
    part: &[u8],
    count: u32,
    end: &[u8],
) -> Result<Vec<u8>, AllocError> {
    let mut text = Vec::from_slice(alloc, front)?;
    for _ in 0..count {
        text.extend_from_slice(part)?;
    }
    text.extend_from_slice(end)?;
    Ok(text)
}

/// Judges that the text is the expected one.
pub(crate) fn judge_text(rt: &impl Abort, text: &[u8], expected: &[u8]) {
    assert_eq!(rt; text, expected);
}
