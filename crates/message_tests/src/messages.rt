//! What a reader answers to a viewer's bytes.

ghost use Rattle.std.specs.Prelude.{◌<◌, ◌≤◌};

use pixel_format::{Format, FormatFault};
use rfb_msg::{Encoding, Message, Reader, Step, Why};
use samples::Numbers;

const VERSION: &[u8] = b"RFB 003.003\n";

/// Feeds all these bytes. `None` where one before the last brings something.
fn feed_all(reader: &mut Reader, bytes: &[u8]) -> Option<Step> {
    let mut last = Step::Nothing;
    for byte in bytes {
        if last != Step::Nothing {
            return None;
        }
        last = reader.feed(*byte);
    }
    Some(last)
}

/// Whether the last of these bytes brings a step, and none before it anything.
fn brings(reader: &mut Reader, bytes: &[u8], wanted: &Step) -> bool {
    match feed_all(reader, bytes) {
        Some(step) => step == *wanted,
        None => false,
    }
}

/// A reader of a viewer that has sent its version and the byte after it.
fn greeted() -> Reader {
    let mut reader = Reader::new();
    for byte in VERSION {
        let _step = reader.feed(*byte);
    }
    let _step = reader.feed(1);
    reader
}

/// Whether these bytes are a version, and any byte may follow it.
fn greets(version: &[u8], byte: u8) -> bool {
    let mut reader = Reader::new();
    let is_version = brings(&mut reader, version, &Step::Version);
    let is_init = brings(&mut reader, &[byte], &Step::Init);
    is_version && is_init
}

#[test]
fn the_handshake_is_read(rt: HostRuntime) {
    assert!(rt; greets(VERSION, 1));
    assert!(rt; greets(b"RFB 003.889\n", 0));
    assert!(rt; greets(b"RFB 003.000\n", 255));
}

/// Why a reader is closed once it was fed with a byte, if it is.
fn why_closed(reader: &mut Reader, byte: u8) -> Option<Why> {
    match reader.feed(byte) {
        Step::Closed(why) => Some(why),
        _ => None,
    }
}

/// A reader of a viewer that has sent the first bytes of its version.
fn after_prefix(count: usize) -> Reader {
    let mut reader = Reader::new();
    for byte in VERSION.iter().take(count) {
        let _step = reader.feed(*byte);
    }
    reader
}

/// Whether a wrong byte at a place of a version closes, and the right one after it is answered
/// alike.
fn closes_at(place: usize, wrong: u8, right: u8) -> bool {
    let mut reader = after_prefix(place);
    let at_wrong = why_closed(&mut reader, wrong);
    let at_right = why_closed(&mut reader, right);
    at_wrong == Some(Why::Version(wrong)) && at_right == at_wrong
}

/// Whether a version may have a byte where this one has another.
fn is_digit(place: usize, byte: u8) -> bool {
    8 <= place && place < 11 && byte.is_ascii_digit()
}

#[test]
fn wrong_bytes_of_a_version_close(rt: HostRuntime) {
    for (place, right) in VERSION.iter().enumerate() {
        for byte in 0..=255 {
            if byte != *right && !is_digit(place, byte) {
                assert!(rt; closes_at(place, byte, *right));
            }
        }
    }
}

/// Messages, each with what it brings.
const MESSAGES: [(&[u8], Message); 12] = [
    (
        &[3, 0, 0, 0, 0, 0, 0, 2, 0, 1],
        Message::Request {
            incremental: false,
            x: 0,
            y: 0,
            w: 2,
            h: 1,
        },
    ),
    (
        &[3, 1, 0, 1, 2, 0, 255, 254, 128, 0],
        Message::Request {
            incremental: true,
            x: 1,
            y: 512,
            w: 65534,
            h: 32768,
        },
    ),
    (
        &[4, 0, 9, 9, 0, 0, 255, 13],
        Message::Key {
            down: false,
            key: 65293,
        },
    ),
    (
        &[4, 255, 0, 0, 1, 2, 3, 4],
        Message::Key {
            down: true,
            key: 0x1020304,
        },
    ),
    (
        &[5, 3, 1, 0, 0, 5],
        Message::Pointer {
            mask: 3,
            x: 256,
            y: 5,
        },
    ),
    (&[6, 7, 8, 9, 0, 0, 0, 0], Message::Cut),
    (&[6, 0, 0, 0, 0, 0, 0, 3, 6, 0, 255], Message::Cut),
    (&[2, 0, 0, 0], Message::SetEncodings(Encoding::Raw)),
    (
        &[2, 0, 0, 1, 0, 0, 0, 5],
        Message::SetEncodings(Encoding::Hextile),
    ),
    (
        &[2, 9, 0, 1, 0, 0, 0, 16],
        Message::SetEncodings(Encoding::Raw),
    ),
    (
        &[2, 0, 0, 3, 255, 255, 255, 17, 0, 0, 0, 0, 0, 0, 0, 5],
        Message::SetEncodings(Encoding::Raw),
    ),
    (
        &[2, 0, 0, 3, 5, 0, 0, 0, 0, 0, 0, 5, 0, 0, 0, 0],
        Message::SetEncodings(Encoding::Hextile),
    ),
];

/// A SetPixelFormat with the first format, and padding that isn't 0.
const SET_FIRST: &[u8] = &[
    0, 1, 2, 3, 32, 24, 0, 1, 0, 255, 0, 255, 0, 255, 16, 8, 0, 4, 5, 6,
];

/// Whether bytes bring this step with their last one, wherever they are cut in two.
fn is_read_in_two(bytes: &[u8], wanted: &Step) -> bool {
    for place in 0..bytes.len() {
        let (front, back) = bytes.split_at(place);
        let mut reader = greeted();
        let begun = brings(&mut reader, front, &Step::Nothing);
        let whole = brings(&mut reader, back, wanted);
        if !begun || !whole {
            return false;
        }
    }
    true
}

/// Whether each message is read behind all those before it, and cut in two.
fn are_all_read() -> bool {
    let mut reader = greeted();
    for (bytes, message) in MESSAGES {
        let wanted = Step::Message(message);
        let behind = brings(&mut reader, bytes, &wanted);
        let in_two = is_read_in_two(bytes, &wanted);
        if !behind || !in_two {
            return false;
        }
    }
    true
}

#[test]
fn messages_are_read_wherever_they_are_cut(rt: HostRuntime) {
    assert!(rt; are_all_read());
    let first = Step::Message(Message::SetFormat(Format::first()));
    assert!(rt; is_read_in_two(SET_FIRST, &first));
}

/// Whether a byte closes just where no kind of message begins with it, and for good.
fn closes_as_kind(kind: u8) -> bool {
    let mut reader = greeted();
    let at_once = why_closed(&mut reader, kind);
    let later = why_closed(&mut reader, 3);
    let wanted = match kind {
        0 | 2 | 3 | 4 | 5 | 6 => None,
        _ => Some(Why::Kind(kind)),
    };
    at_once == wanted && later == wanted
}

#[test]
fn other_kinds_close(rt: HostRuntime) {
    for kind in 0..=255 {
        assert!(rt; closes_as_kind(kind));
    }
}

/// A SetPixelFormat of a colour map.
const COLOUR_MAP: &[u8] = &[0, 0, 0, 0, 8, 8, 0, 0, 0, 7, 0, 7, 0, 3, 0, 3, 6, 0, 0, 0];

#[test]
fn a_faulty_format_closes_at_its_last_byte(rt: HostRuntime) {
    let why = Why::Format(FormatFault::NotTrueColour);
    let mut reader = greeted();
    let at_last = brings(&mut reader, COLOUR_MAP, &Step::Closed(why));
    assert!(rt; at_last);
    assert!(rt; why_closed(&mut reader, 0) == Some(why));
    assert!(rt; why_closed(&mut reader, 0) == Some(why));
}

/// Feeds the number of an encoding, or nothing where a byte brings something.
fn feed_number(reader: &mut Reader, number: u32) -> Option<Step> {
    feed_all(reader, &number.to_be_bytes())
}

/// What a list of 65,535 encodings brings, of which one is at a place and all others are unknown.
fn long_list(place: u16, number: u32) -> Option<Step> {
    let mut reader = greeted();
    let mut last = feed_all(&mut reader, &[2, 0, 255, 255])?;
    for i in 0..65535 {
        if last != Step::Nothing {
            return None;
        }
        last = feed_number(&mut reader, if i == place { number } else { 7 })?;
    }
    Some(last)
}

/// Whether such a list brings this encoding.
fn chooses(place: u16, number: u32, encoding: Encoding) -> bool {
    long_list(place, number) == Some(Step::Message(Message::SetEncodings(encoding)))
}

#[test]
fn the_longest_list_of_encodings(rt: HostRuntime) {
    for place in [0, 1, 255, 256, 32767, 65533, 65534] {
        assert!(rt; chooses(place, 5, Encoding::Hextile));
        assert!(rt; chooses(place, 0, Encoding::Raw));
    }
    assert!(rt; chooses(65535, 5, Encoding::Raw));
}

/// How many of as many bytes bring nothing.
fn count_nothing(reader: &mut Reader, bytes: u32) -> u32 {
    let mut count = 0u32;
    for i in 0..bytes {
        if reader.feed((i % 256) as u8) == Step::Nothing {
            count = count.wrapping_add(1);
        }
    }
    count
}

/// Whether a text of 4,000,000 bytes is passed over and a message after it is read, and of one of
/// 4,294,967,295 the first bytes bring nothing.
fn texts_are_passed_over() -> bool {
    let mut reader = greeted();
    let head = brings(&mut reader, &[6, 0, 0, 0, 0, 0x3D, 9, 0], &Step::Nothing);
    let text = count_nothing(&mut reader, 3_999_999) == 3_999_999;
    let end = brings(&mut reader, &[6], &Step::Message(Message::Cut));
    let moved = Step::Message(Message::Pointer {
        mask: 1,
        x: 2,
        y: 3,
    });
    let after = brings(&mut reader, &[5, 1, 0, 2, 0, 3], &moved);
    let longest = brings(
        &mut reader,
        &[6, 0, 0, 0, 255, 255, 255, 255],
        &Step::Nothing,
    );
    head && text && end && after && longest && count_nothing(&mut reader, 5_000_000) == 5_000_000
}

#[test]
fn long_texts_are_passed_over(rt: HostRuntime) {
    assert!(rt; texts_are_passed_over());
}

/// Feeds a reader a thousand random bytes below a bound. Whether it answers the same once it is
/// closed.
fn stays_closed(numbers: &mut Numbers, bound: u16) -> bool
    requires some { 0 < bound }
    requires bytes { bound ≤ 256 }
{
    let mut reader = greeted();
    let mut closed = None;
    for _ in 0..1000 {
        let byte = numbers.below(bound) as u8;
        let why = why_closed(&mut reader, byte);
        if closed.is_some() && why != closed {
            return false;
        }
        closed = why;
    }
    true
}

/// Whether a million random bytes are read. Half of them are below 8, as the kinds of messages are.
fn are_read() -> bool {
    let mut numbers = Numbers::new(1);
    for round in 0..1000 {
        let bound = if round % 2 == 0 { 256 } else { 8 };
        if !stays_closed(&mut numbers, bound) {
            return false;
        }
    }
    true
}

#[test]
fn a_million_random_bytes(rt: HostRuntime) {
    assert!(rt; are_read());
}
