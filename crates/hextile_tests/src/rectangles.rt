//! Rectangles of frames, encoded and decoded again.

ghost use Rattle.std.specs.Prelude.{◌≤◌};

use frame::Frame;
use gfx_base::{Colour, Rect};
use hextile::{DecodeRefused, decode, encode};
use pixel_format::Format;
use std::alloc::Global;

/// 16 bits, the most significant byte first, with 5, 6 and 5 bits.
const SMALL: [u8; 16] = [16, 16, 1, 1, 0, 31, 0, 63, 0, 31, 11, 5, 0, 0, 0, 0];

/// 8 bits, with 3, 3 and 2 bits, blue the highest.
pub const TINY: [u8; 16] = [8, 8, 0, 1, 0, 7, 0, 7, 0, 3, 0, 3, 6, 0, 0, 0];

/// How many points the sides of the rectangles have.
const SIDES: [(u16, u16); 9] = [
    (1, 1),
    (2, 1),
    (1, 33),
    (15, 16),
    (16, 16),
    (17, 15),
    (31, 17),
    (32, 2),
    (33, 33),
];

/// The pictures: one colour, a chessboard, a window with a title and text, bars, and noise.
const PICTURES: u32 = 5;

/// The colour of a point of a picture.
fn colour_of(picture: u32, x: u16, y: u16) -> u32 {
    let (x, y) = (u32::from(x), u32::from(y));
    match picture {
        0 => 0x103050,
        1 => (x ^ y) % 2 * 0xFFFFFF,
        2 => {
            if y < 5 {
                0x0000FF
            } else if x % 30 == 0 {
                0xFFFFFF
            } else if y % 8 < 5 && x % 3 == y % 2 {
                0
            } else {
                0xC0C0C0
            }
        }
        3 => x / 5 % 7 * 0x1F3D5B,
        _ => x
            .wrapping_mul(2_654_435_761)
            .wrapping_add(y.wrapping_mul(40_503_001))
            >> 8,
    }
}

/// A frame with a picture.
fn painted(alloc: Global, picture: u32, w: u16, h: u16) -> Option<Frame>
    requires width { (1 ≤ w) × (w ≤ 1024) }
    requires height { (1 ≤ h) × (h ≤ 768) }
{
    let mut frame = Frame::new(alloc, w, h).ok()?;
    for y in 0..h {
        for x in 0..w {
            frame.put(x, y, Colour::new(colour_of(picture, x, y) % 0x100_0000)?);
        }
    }
    Some(frame)
}

/// The bytes of a whole frame.
fn encoded(alloc: Global, frame: &Frame, format: &Format) -> Option<Vec<u8>> {
    let (w, h) = (frame.width(), frame.height());
    let tiles = usize::from((h + 15) / 16) * usize::from((w + 15) / 16);
    let pixels = usize::from(h) * usize::from(w) * format.bytes();
    let mut out = Vec::with_capacity(alloc, tiles + pixels).ok()?;
    let whole = Rect {
        x0: 0,
        y0: 0,
        x1: i32::from(w) - 1,
        y1: i32::from(h) - 1,
    };
    encode(frame, &whole, format, &mut out);
    Some(out)
}

/// Whether a frame's bytes are decoded to the values of its points.
fn comes_back(alloc: Global, frame: &Frame, format: &Format) -> Option<bool> {
    let (w, h) = (frame.width(), frame.height());
    let bytes = encoded(alloc, frame, format)?;
    let values = decode(alloc, &bytes, w, h, format).ok()?;
    let mut rest = values.iter();
    for y in 0..h {
        for x in 0..w {
            if rest.next() != Some(&format.value(frame.get(x, y))) {
                return Some(false);
            }
        }
    }
    Some(rest.next().is_none())
}

/// Whether a picture of these sides comes back in 32, 16 and 8 bits.
fn picture_comes_back(alloc: Global, picture: u32, w: u16, h: u16) -> Option<bool> {
    if w < 1 || w > 33 || h < 1 || h > 33 {
        return None;
    }
    let frame = painted(alloc, picture, w, h)?;
    let small = Format::read(&SMALL).ok()?;
    let tiny = Format::read(&TINY).ok()?;
    Some(
        comes_back(alloc, &frame, &Format::first())?
            && comes_back(alloc, &frame, &small)?
            && comes_back(alloc, &frame, &tiny)?,
    )
}

#[test]
fn pictures_come_back(rt: HostRuntime) {
    for picture in 0..PICTURES {
        for (w, h) in SIDES {
            assert_eq!(rt; picture_comes_back(rt.alloc(), picture, w, h), Some(true));
        }
    }
}

/// Rows of points, and their bytes in the first format.
const ROWS: [(&[u32], &[u8]); 6] = [
    (&[0x0000FF, 0x0000FF], &[2, 0xFF, 0, 0, 0]),
    (&[0xFF0000, 0x0000FF], &[1, 0, 0, 0xFF, 0, 0xFF, 0, 0, 0]),
    (
        &[0x0000FF, 0x0000FF, 0x0000FF, 0xFF0000],
        &[0x0E, 0xFF, 0, 0, 0, 0, 0, 0xFF, 0, 1, 0x30, 0],
    ),
    (&[0xFF; 17], &[2, 0xFF, 0, 0, 0, 0]),
    (
        &[
            255, 255, 255, 255, 255, 255, 255, 255, 255, 255, 255, 255, 255, 255, 255, 0xFF0000,
            255,
        ],
        &[0x0E, 0xFF, 0, 0, 0, 0, 0, 0xFF, 0, 1, 0xF0, 0, 0],
    ),
    (&[0], &[2, 0, 0, 0, 0]),
];

/// Whether a row of 1 to 17 points has these bytes, and they are decoded to it.
fn is_row(alloc: Global, row: &[u32], bytes: &[u8]) -> Option<bool> {
    let count = row.len();
    if count < 1 || count > 17 {
        return None;
    }
    let mut frame = Frame::new(alloc, count as u16, 1).ok()?;
    for (x, colour) in row.iter().enumerate() {
        frame.put(x as u16, 0, Colour::new(*colour)?);
    }
    let first = Format::first();
    let out = encoded(alloc, &frame, &first)?;
    let values = decode(alloc, bytes, count as u16, 1, &first).ok()?;
    Some(out.as_slice() == bytes && values.as_slice() == row)
}

#[test]
fn rows_have_their_bytes(rt: HostRuntime) {
    let alloc = rt.alloc();
    let first = Format::first();
    for (row, bytes) in ROWS {
        assert_eq!(rt; is_row(alloc, row, bytes), Some(true));
    }
    let cut = decode(alloc, &[2, 0xFF, 0, 0], 2, 1, &first);
    assert!(rt; matches!(cut, Err(DecodeRefused::Bad { at: 4 })));
    let unknown = decode(alloc, &[0], 1, 1, &first);
    assert!(rt; matches!(unknown, Err(DecodeRefused::Bad { at: 0 })));
}
