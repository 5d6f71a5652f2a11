//! Lines, words and numbers at their edges.

use super::*;
use std::test::Fail;

#[test]
fn numbers_have_one_to_twenty_digits_below_the_limit(rt: HostRuntime) {
    for (word, number) in [
        (b"".as_slice(), None),
        (b"0", Some(0)),
        (b"00000000000000000007", Some(7)),
        (b"000000000000000000007", None),
        (b"18446744073709551615", Some(u64::MAX)),
        (b"18446744073709551616", None),
        (b"99999999999999999999", None),
        (b"+1", None),
        (b"-1", None),
        (b"1a", None),
        (b" 1", None),
    ] {
        assert_eq!(rt; number_of(word), number, "at {word:?}");
    }
}

#[test]
fn a_line_ends_at_its_feed_or_with_the_text(rt: HostRuntime) {
    for (text, line, rest) in [
        (b"\n".as_slice(), b"".as_slice(), b"".as_slice()),
        (b"ab", b"ab", b""),
        (b"ab\n", b"ab", b""),
        (b"a\n\nb", b"a", b"\nb"),
    ] {
        prove!(!text.is_empty());
        let (first, behind) = cut_line(text);
        assert_eq!(rt; first, line);
        assert_eq!(rt; behind, rest);
    }
}

#[test]
fn words_stand_between_spaces(rt: HostRuntime) {
    for (line, word, rest) in [
        (
            b"  two words ".as_slice(),
            b"two".as_slice(),
            b"words ".as_slice(),
        ),
        (b"words ", b"words", b""),
        (b"one", b"one", b""),
    ] {
        assert_eq!(rt; cut_word(line), Some((word, rest)));
    }
    assert_eq!(rt; cut_word(b""), None);
    assert_eq!(rt; cut_word(b"  "), None);
}

#[test]
fn fields_stand_between_single_spaces(rt: HostRuntime) {
    for (line, field, rest) in [
        (b"".as_slice(), b"".as_slice(), None),
        (b" a", b"", Some(b"a".as_slice())),
        (b"a  b", b"a", Some(b" b")),
        (b"a ", b"a", Some(b"")),
    ] {
        assert_eq!(rt; cut_field(line), (field, rest));
    }
}

#[test]
fn a_whole_text_is_empty_or_ends_with_a_feed(rt: HostRuntime) {
    for (text, ends) in [
        (b"".as_slice(), true),
        (b"\n", true),
        (b"a\n", true),
        (b"a\nb", false),
    ] {
        assert_eq!(rt; ends_every_line(text), ends);
    }
}

#[test]
fn a_row_is_written_word_by_word(rt: HostRuntime) -> Result<(), Fail> {
    let mut text = Vec::new(rt.alloc());
    put(&mut text, b"ref")?;
    put_number_word(&mut text, 0)?;
    put_number_word(&mut text, u64::MAX)?;
    end_line(&mut text)?;
    put_number(&mut text, 10)?;
    put_word(&mut text, b"w")?;
    end_line(&mut text)?;
    assert_eq!(rt;
        text.as_slice(),
        b"ref 0 18446744073709551615\n10 w\n".as_slice()
    );
    Ok(())
}
