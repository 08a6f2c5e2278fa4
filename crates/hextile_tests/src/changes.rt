//! Data of which a byte is missing or changed. A plain program worked out what the changed ones
//! mean: the sum of the values, each times its place counted from 1, modulo 2^32, or how many bytes
//! begin hextile data.

ghost use Rattle.std.specs.Prelude.{◌≤◌};

use crate::rectangles::TINY;
use hextile::{DecodeRefused, decode};
use pixel_format::Format;
use std::alloc::Global;

/// Four points in a row: three 0000FF and one FF0000.
const FOUR: [u8; 12] = [0x0E, 0xFF, 0, 0, 0, 0, 0, 0xFF, 0, 1, 0x30, 0];

/// Seventeen points in a row: fifteen 0000FF, one FF0000 and one 0000FF.
const TWO_TILES: [u8; 13] = [0x0E, 0xFF, 0, 0, 0, 0, 0, 0xFF, 0, 1, 0xF0, 0, 0];

/// Three by three points of 8 bits: a background and three coloured subrectangles that overlap.
const COLOURED: [u8; 12] = [
    0x1A, 0x55, 3, 0xAA, 0, 0x11, 0xBB, 0x11, 0x10, 0xCC, 0x20, 1,
];

/// A place, the byte there, and what the data then mean.
type Change = (usize, u8, Result<u32, usize>);

const FOUR_CHANGED: [Change; 36] = [
    (0, 15, Err(12)),
    (0, 30, Err(0)),
    (0, 241, Err(12)),
    (1, 254, Ok(66848244)),
    (1, 239, Ok(66848154)),
    (1, 0, Ok(66846720)),
    (2, 1, Ok(66849786)),
    (2, 16, Ok(66872826)),
    (2, 255, Ok(67239930)),
    (3, 1, Ok(67241466)),
    (3, 16, Ok(73139706)),
    (3, 255, Ok(167118330)),
    (4, 1, Ok(167511546)),
    (4, 16, Ok(1677460986)),
    (4, 255, Ok(4261152250)),
    (5, 1, Ok(66848254)),
    (5, 16, Ok(66848314)),
    (5, 255, Ok(66849270)),
    (6, 1, Ok(66849274)),
    (6, 16, Ok(66864634)),
    (6, 255, Ok(67109370)),
    (7, 254, Ok(66586106)),
    (7, 239, Ok(62653946)),
    (7, 0, Ok(1530)),
    (8, 1, Ok(133957114)),
    (8, 16, Ok(1140590074)),
    (8, 255, Ok(4294706682)),
    (9, 0, Err(10)),
    (9, 17, Err(12)),
    (9, 254, Err(12)),
    (10, 49, Err(10)),
    (10, 32, Ok(50136825)),
    (10, 207, Err(10)),
    (11, 1, Err(11)),
    (11, 16, Err(11)),
    (11, 255, Err(11)),
];

const TWO_TILES_CHANGED: [Change; 39] = [
    (0, 15, Err(13)),
    (0, 30, Err(0)),
    (0, 241, Err(13)),
    (1, 254, Ok(267421678)),
    (1, 239, Ok(267419623)),
    (1, 0, Ok(267386880)),
    (2, 1, Ok(267456887)),
    (2, 16, Ok(267982967)),
    (2, 255, Ok(276365175)),
    (3, 1, Ok(276400247)),
    (3, 16, Ok(411076727)),
    (3, 255, Ok(2556921975)),
    (4, 1, Ok(2565900407)),
    (4, 16, Ok(2683340919)),
    (4, 255, Ok(2263910519)),
    (5, 1, Ok(267421831)),
    (5, 16, Ok(267422071)),
    (5, 255, Ok(267425895)),
    (6, 1, Ok(267425911)),
    (6, 16, Ok(267487351)),
    (6, 255, Ok(268466295)),
    (7, 254, Ok(266373239)),
    (7, 239, Ok(250644599)),
    (7, 0, Ok(34935)),
    (8, 1, Ok(535857271)),
    (8, 16, Ok(267421815)),
    (8, 255, Ok(4293953655)),
    (9, 0, Err(10)),
    (9, 17, Err(13)),
    (9, 254, Err(13)),
    (10, 241, Err(10)),
    (10, 224, Ok(250710390)),
    (10, 15, Err(10)),
    (11, 1, Err(11)),
    (11, 16, Err(11)),
    (11, 255, Err(11)),
    (12, 1, Err(13)),
    (12, 16, Err(12)),
    (12, 255, Err(13)),
];

const COLOURED_CHANGED: [Change; 36] = [
    (0, 27, Err(10)),
    (0, 10, Err(0)),
    (0, 229, Err(10)),
    (1, 84, Ok(5977)),
    (1, 69, Ok(5617)),
    (1, 170, Ok(8041)),
    (2, 2, Err(9)),
    (2, 19, Err(12)),
    (2, 252, Err(12)),
    (3, 171, Ok(6008)),
    (3, 186, Ok(6113)),
    (3, 85, Ok(5406)),
    (4, 1, Ok(7021)),
    (4, 16, Ok(5576)),
    (4, 255, Err(4)),
    (5, 16, Ok(5661)),
    (5, 1, Ok(5831)),
    (5, 238, Err(5)),
    (6, 186, Ok(5996)),
    (6, 171, Ok(5921)),
    (6, 68, Ok(5406)),
    (7, 16, Ok(5950)),
    (7, 1, Ok(6069)),
    (7, 238, Err(7)),
    (8, 17, Ok(7735)),
    (8, 0, Ok(6001)),
    (8, 239, Err(8)),
    (9, 205, Ok(6010)),
    (9, 220, Ok(6145)),
    (9, 51, Ok(4624)),
    (10, 33, Ok(6715)),
    (10, 48, Err(10)),
    (10, 223, Err(10)),
    (11, 0, Ok(5899)),
    (11, 17, Err(11)),
    (11, 254, Err(11)),
];

/// What the bytes mean.
fn meaning(alloc: Global, bytes: &[u8], w: u16, h: u16, format: &Format) -> Result<u32, usize> {
    match decode(alloc, bytes, w, h, format) {
        Ok(values) => {
            let mut sum = 0u32;
            let mut place = 0u32;
            for value in &values {
                place = place.wrapping_add(1);
                sum = sum.wrapping_add(value.wrapping_mul(place));
            }
            Ok(sum)
        }
        Err(DecodeRefused::Bad { at }) => Err(at),
        Err(DecodeRefused::Memory) => Err(usize::MAX),
    }
}

/// What they mean with another byte at a place.
fn changed(
    alloc: Global,
    bytes: &[u8],
    at: usize,
    byte: u8,
    w: u16,
    h: u16,
    format: &Format,
) -> Result<u32, usize> {
    let mut copy = [0; 16];
    let count = bytes.len();
    if count > 16 || at >= count {
        return Err(usize::MAX);
    }
    copy[..count].copy_from_slice(bytes);
    copy[at] = byte;
    meaning(alloc, &copy[..count], w, h, format)
}

/// Whether all changes are told as they are, and each part from the beginning as far as it goes.
fn are_told(
    alloc: Global,
    bytes: &[u8],
    changes: &[Change],
    w: u16,
    h: u16,
    format: &Format,
) -> bool {
    for end in 0..bytes.len() {
        if meaning(alloc, &bytes[..end], w, h, format) != Err(end) {
            return false;
        }
    }
    changes.iter().all(|(at, byte, told)| changed(alloc, bytes, *at, *byte, w, h, format) == *told)
}

#[test]
fn cut_and_changed_data_are_told(rt: HostRuntime) {
    let alloc = rt.alloc();
    let first = Format::first();
    assert!(rt; are_told(alloc, &FOUR, &FOUR_CHANGED, 4, 1, &first));
    assert!(rt; are_told(alloc, &TWO_TILES, &TWO_TILES_CHANGED, 17, 1, &first));
    let coloured = Format::read(&TINY).is_ok_and(|tiny| are_told(
        alloc,
        &COLOURED,
        &COLOURED_CHANGED,
        3,
        3,
        &tiny,
    ));
    assert!(rt; coloured);
}
