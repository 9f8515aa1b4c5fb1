//! The sizes of a memory, the numbers of its words, and the words at opening.

use partial_words::{SizeError, Sizes};
use std::test::Fail;

#[test]
fn counter_words(rt: HostRuntime) -> Result<(), Fail> {
    let sizes = Sizes::new(2, 4, 8, 64)?;
    let counters = [
        sizes.slot_counter(),
        sizes.list_head(),
        sizes.pool_counter(),
        sizes.list_counter(),
    ];
    assert_eq!(rt; counters, [2, 3, 4, 5]);
    Ok(())
}

#[test]
fn word_numbers(rt: HostRuntime) -> Result<(), Fail> {
    let sizes = Sizes::new(2, 4, 8, 64)?;
    assert_eq!(rt; (sizes.component_word(1), sizes.slot_word(3)), (1, 9));
    assert_eq!(rt; (sizes.list_base(), sizes.list_end()), (10, 18));
    assert_eq!(rt; (sizes.pool_base(), sizes.pool_end()), (18, 82));
    assert_eq!(rt; sizes.total(), 82);
    assert_eq!(rt; (sizes.initial_record(1), sizes.first_free()), (21, 24));
    Ok(())
}

#[test]
fn opening_words(rt: HostRuntime) -> Result<(), Fail> {
    let sizes = Sizes::new(2, 4, 8, 64)?;
    let initial = [10, 20];
    let front = [
        18, 21, 0, 0, 24, 10, 0, 0, 0, 0, 0, 0, 0, 0, 0, 0, 0, 0, 0, 10, 0, 0, 20, 0,
    ];
    for w in 0..82u32 {
        let expected = if w < 24 { front[w as usize] } else { 0 };
        assert_eq!(rt; sizes.opening_word(&initial, w), expected);
    }
    Ok(())
}

#[test]
fn sizes_are_refused_in_order(rt: HostRuntime) -> Result<(), Fail> {
    assert!(rt; matches!(Sizes::new(0, 0, 65_537, 0), Err(SizeError::Components)));
    assert!(rt; matches!(Sizes::new(65_537, 1, 0, 3), Err(SizeError::Components)));
    assert!(rt; matches!(Sizes::new(1, 0, 65_537, 0), Err(SizeError::Slots)));
    assert!(rt; matches!(Sizes::new(1, 65_537, 0, 3), Err(SizeError::Slots)));
    assert!(rt; matches!(Sizes::new(1, 1, 65_537, 0), Err(SizeError::Lists)));
    assert!(rt; matches!(Sizes::new(2, 1, 0, 5), Err(SizeError::Pool)));
    assert!(rt; matches!(Sizes::new(2, 1, 0, 4_194_305), Err(SizeError::Pool)));
    assert!(rt; Sizes::new(65_536, 65_536, 65_536, 4_194_304).is_ok());
    Ok(())
}
