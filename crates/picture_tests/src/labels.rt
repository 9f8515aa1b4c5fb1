//! The names of words.

use partial_picture::word_words;
use partial_words::Sizes;
use std::test::Fail;

// Words of a memory of two components, four slots, eight list words and 64 pool words, and their names.
fn named() -> [(u32, &'static str); 11] {
    [
        (0, "component 0"),
        (1, "component 1"),
        (2, "slot counter"),
        (3, "list head"),
        (4, "pool counter"),
        (5, "list counter"),
        (6, "slot 0"),
        (9, "slot 3"),
        (10, "list word 10"),
        (17, "list word 17"),
        (18, "pool word 18"),
    ]
}

#[test]
fn words_have_names(rt: HostRuntime) -> Result<(), Fail> {
    let sizes = Sizes::new(2, 4, 8, 64)?;
    for (word, wanted) in named() {
        let name = word_words(rt.alloc(), sizes, word)?;
        assert_eq!(rt; name.as_str(), wanted);
    }
    Ok(())
}
