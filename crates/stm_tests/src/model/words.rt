//! Values as words.
use stm_model::WordValue;

fn there_and_back<T: WordValue>(value: T) -> Option<T> {
    T::from_word(value.to_word())
}

#[test]
fn values_come_back_from_their_words(rt: HostRuntime) {
    assert_eq!(rt; there_and_back(u64::MAX), Some(u64::MAX));
    assert_eq!(rt; there_and_back(u32::MAX), Some(u32::MAX));
    assert_eq!(rt; there_and_back(true), Some(true));
    assert_eq!(rt; there_and_back('\u{10FFFF}'), Some('\u{10FFFF}'));
    assert_eq!(rt; 'A'.to_word(), 65);
}

#[test]
fn words_past_the_bounds_are_no_values(rt: HostRuntime) {
    assert_eq!(rt; u32::from_word(0xFFFF_FFFF), Some(u32::MAX));
    assert_eq!(rt; u32::from_word(0x1_0000_0000), None);
    for (word, value) in [(0, Some(false)), (1, Some(true)), (2, None)] {
        assert_eq!(rt; bool::from_word(word), value);
    }
    for (word, value) in [
        (0xD7FF, Some('\u{D7FF}')),
        (0xD800, None),
        (0xDFFF, None),
        (0xE000, Some('\u{E000}')),
        (0x10_FFFF, Some('\u{10FFFF}')),
        (0x11_0000, None),
        (0x1_0000_0041, None),
    ] {
        assert_eq!(rt; char::from_word(word), value);
    }
}
