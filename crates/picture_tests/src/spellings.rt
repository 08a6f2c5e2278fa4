//! Lines, words, numbers and colours.

use spelling::{
    after_word, begins_with, colour, cut_at, first_line, is_done, is_printable, natural,
    natural_at, natural_in, number_at,
};

#[test]
fn texts_are_cut_at_the_first_mark(rt: HostRuntime) {
    assert!(rt; cut_at(b',', b"a,b,c") == (b"a".as_slice(), Some(b"b,c".as_slice())));
    assert!(rt; cut_at(b',', b"ab,") == (b"ab".as_slice(), Some(b"".as_slice())));
    assert!(rt; cut_at(b',', b",ab") == (b"".as_slice(), Some(b"ab".as_slice())));
    assert!(rt; cut_at(b',', b"ab") == (b"ab".as_slice(), None));
    assert!(rt; cut_at(b',', b"") == (b"".as_slice(), None));
}

#[test]
fn the_last_line_may_lack_its_end(rt: HostRuntime) {
    assert!(rt; first_line(b"a\nb") == (b"a".as_slice(), b"b".as_slice()));
    assert!(rt; first_line(b"a\n") == (b"a".as_slice(), b"".as_slice()));
    assert!(rt; first_line(b"a") == (b"a".as_slice(), b"".as_slice()));
    assert!(rt; first_line(b"\n\nb") == (b"".as_slice(), b"\nb".as_slice()));
}

#[test]
fn single_spaces_part_words(rt: HostRuntime) {
    let line = Some(b"exec  now".as_slice());
    assert!(rt; begins_with(b"exec", line) && !begins_with(b"exe", line));
    assert!(rt; !begins_with(b"exec", None));
    assert!(rt; after_word(b"exec", line) == Some(Some(b" now".as_slice())));
    assert!(rt; after_word(b"", Some(b" now")) == Some(Some(b"now".as_slice())));
    assert!(rt; after_word(b"now", Some(b"now")) == Some(None));
    assert!(rt; is_done(None) && !is_done(Some(b"")));
}

const NUMBERS: [(&str, Option<i16>); 13] = [
    ("0", Some(0)),
    ("7", Some(7)),
    ("-1", Some(-1)),
    ("32767", Some(32767)),
    ("-32768", Some(-32768)),
    ("32768", None),
    ("-32769", None),
    ("-0", None),
    ("+1", None),
    ("01", None),
    ("", None),
    ("-", None),
    ("1a", None),
];

#[test]
fn a_number_has_one_spelling(rt: HostRuntime) {
    for (word, value) in NUMBERS {
        let found = match number_at(Some(word.as_bytes())) {
            Some((number, _)) => Some(number),
            None => None,
        };
        assert!(rt; found == value, "{word}");
    }
}

/// Words, the numbers that they spell, and those from 2 to 256.
const NATURALS: [(&str, Option<u32>, Option<u16>); 10] = [
    ("2", Some(2), Some(2)),
    ("256", Some(256), Some(256)),
    ("1", Some(1), None),
    ("257", Some(257), None),
    ("4294967295", Some(4_294_967_295), None),
    ("4294967296", None, None),
    ("4294967298", None, None),
    ("02", None, None),
    ("-2", None, None),
    ("", None, None),
];

#[test]
fn a_natural_number_lies_in_its_range(rt: HostRuntime) {
    for (word, value, within) in NATURALS {
        let bytes = word.as_bytes();
        let at = match natural_at(2, 256, Some(bytes)) {
            Some((number, _)) => Some(number),
            None => None,
        };
        assert!(rt; natural(bytes) == value, "{word}");
        assert!(rt;
            natural_in(2, 256, bytes) == within && at == within,
            "{word}"
        );
    }
}

const COLOURS: [(&str, Option<u32>); 11] = [
    ("000000", Some(0)),
    ("0000FF", Some(255)),
    ("FFFFFF", Some(16_777_215)),
    ("12ABEF", Some(1_223_663)),
    ("00000", None),
    ("0000000", None),
    ("0000ff", None),
    ("00000G", None),
    ("00000@", None),
    ("00000/", None),
    ("-", None),
];

#[test]
fn a_colour_is_six_digits(rt: HostRuntime) {
    for (word, value) in COLOURS {
        let found = match colour(word.as_bytes()) {
            Some(colour) => Some(colour.value()),
            None => None,
        };
        assert!(rt; found == value, "{word}");
    }
}

#[test]
fn printable_bytes_are_from_32_to_126(rt: HostRuntime) {
    assert!(rt; is_printable(b"") && is_printable(b" ~") && is_printable(b"a b"));
    assert!(rt; !is_printable(b"a\x1f") && !is_printable(b"\x7fa") && !is_printable(b"a\xff"));
}
