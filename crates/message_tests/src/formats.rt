//! Which bytes tell a format, and the first fault of those that tell none.

use pixel_format::{Format, FormatFault};

/// 32 bits, the least significant byte first, and a byte for each part.
const FIRST: [u8; 16] = [32, 24, 0, 1, 0, 255, 0, 255, 0, 255, 16, 8, 0, 0, 0, 0];

/// 16 bits, the most significant byte first, with 5, 6 and 5 bits.
const SMALL: [u8; 16] = [16, 16, 1, 1, 0, 31, 0, 63, 0, 31, 11, 5, 0, 0, 0, 0];

/// 8 bits, with 3, 3 and 2 bits.
const TINY: [u8; 16] = [8, 8, 0, 1, 0, 7, 0, 7, 0, 3, 0, 3, 6, 0, 0, 0];

/// These bytes with another one at a place.
fn changed(mut bytes: [u8; 16], place: usize, byte: u8) -> [u8; 16] {
    if place < 16 {
        bytes[place] = byte;
    }
    bytes
}

/// Whether each of these changes of the first format leaves one that is served.
fn are_served(changes: &[(usize, u8)]) -> bool {
    for (place, byte) in changes {
        if Format::read(&changed(FIRST, *place, *byte)).is_err() {
            return false;
        }
    }
    true
}

/// Another depth, flag or padding, red of each width, and red at the pixel's upper end.
const SERVED: [(usize, u8); 22] = [
    (1, 0),
    (1, 255),
    (2, 1),
    (3, 255),
    (13, 255),
    (15, 1),
    (5, 1),
    (5, 3),
    (5, 7),
    (5, 15),
    (5, 31),
    (5, 63),
    (5, 127),
    (4, 1),
    (4, 3),
    (4, 7),
    (4, 15),
    (4, 31),
    (4, 63),
    (4, 127),
    (4, 255),
    (10, 24),
];

#[test]
fn formats_are_served(rt: HostRuntime) {
    assert!(rt; Format::read(&FIRST) == Ok(Format::first()));
    assert!(rt; are_served(&SERVED));
}

/// Whether a format is served, and with each of these changes has the fault beside it.
fn has_faults(format: [u8; 16], faults: &[(usize, u8, FormatFault)]) -> bool {
    for (place, byte, fault) in faults {
        if Format::read(&changed(format, *place, *byte)).err() != Some(*fault) {
            return false;
        }
    }
    Format::read(&format).is_ok()
}

const FIRST_FAULTS: [(usize, u8, FormatFault); 22] = [
    (0, 0, FormatFault::BadBits),
    (0, 15, FormatFault::BadBits),
    (0, 24, FormatFault::BadBits),
    (0, 33, FormatFault::BadBits),
    (0, 64, FormatFault::BadBits),
    (3, 0, FormatFault::NotTrueColour),
    (5, 0, FormatFault::BadMax),
    (5, 2, FormatFault::BadMax),
    (5, 254, FormatFault::BadMax),
    (4, 2, FormatFault::BadMax),
    (4, 254, FormatFault::BadMax),
    (6, 128, FormatFault::BadMax),
    (9, 128, FormatFault::BadMax),
    (0, 16, FormatFault::BadShift),
    (10, 25, FormatFault::BadShift),
    (10, 32, FormatFault::BadShift),
    (10, 255, FormatFault::BadShift),
    (11, 25, FormatFault::BadShift),
    (12, 64, FormatFault::BadShift),
    (10, 15, FormatFault::Overlap),
    (11, 7, FormatFault::Overlap),
    (12, 16, FormatFault::Overlap),
];

const SMALL_FAULTS: [(usize, u8, FormatFault); 3] = [
    (3, 0, FormatFault::NotTrueColour),
    (10, 12, FormatFault::BadShift),
    (11, 6, FormatFault::Overlap),
];

const TINY_FAULTS: [(usize, u8, FormatFault); 3] = [
    (5, 5, FormatFault::BadMax),
    (12, 7, FormatFault::BadShift),
    (12, 5, FormatFault::Overlap),
];

#[test]
fn formats_have_faults(rt: HostRuntime) {
    assert!(rt; has_faults(FIRST, &FIRST_FAULTS));
    assert!(rt; has_faults(SMALL, &SMALL_FAULTS));
    assert!(rt; has_faults(TINY, &TINY_FAULTS));
}

/// Changes of the first format that have a fault each, in the order in which faults are told.
const ORDER: [(usize, u8, FormatFault); 5] = [
    (0, 24, FormatFault::BadBits),
    (3, 0, FormatFault::NotTrueColour),
    (9, 254, FormatFault::BadMax),
    (10, 32, FormatFault::BadShift),
    (11, 0, FormatFault::Overlap),
];

#[test]
fn of_two_faults_the_first_is_told(rt: HostRuntime) {
    for (place, byte, fault) in ORDER {
        for (other, with, _) in ORDER {
            if place <= other {
                let both = changed(changed(FIRST, place, byte), other, with);
                assert!(rt; Format::read(&both).err() == Some(fault));
            }
        }
    }
}
