//! Frames.

ghost use Rattle.std.specs.Prelude.{◌≤◌};

use frame::Frame;
use gfx_base::{Colour, Tile};
use std::alloc::Global;

fn colour(value: u32) -> Colour {
    Colour::new(value).unwrap_or_default()
}

/// The columns and rows of a block of points, with its ends.
type Block = [u16; 4];

/// A block without a point.
const NOTHING: Block = [1, 1, 0, 0];

/// Whether the points of the block have the colour, and all others are black.
fn shows_only([left, top, right, bottom]: Block, c: Colour, frame: &Frame) -> bool {
    for y in 0..frame.height() {
        for x in 0..frame.width() {
            let inside = left <= x && x <= right && top <= y && y <= bottom;
            let want = if inside { c } else { Colour::default() };
            if frame.get(x, y) != want {
                return false;
            }
        }
    }
    true
}

fn is_new_one_black(alloc: Global, w: u16, h: u16) -> bool
    requires width { (1 ≤ w) × (w ≤ 1024) }
    requires height { (1 ≤ h) × (h ≤ 768) }
{
    let Ok(frame) = Frame::new(alloc, w, h) else {
        return false;
    };
    (frame.width(), frame.height()) == (w, h)
        && shows_only(NOTHING, colour(1), &frame)
        && frame.writes() == 0
}

#[test]
fn a_new_frame_is_black(rt: HostRuntime) {
    for (w, h) in [(1, 1), (1, 768), (1024, 1), (1024, 768)] {
        assert!(rt; is_new_one_black(rt.alloc(), w, h), "{w} by {h}");
    }
}

/// A call that draws: on the point at x and y, on the span of row y from x0 to x1, or on a tile.
#[derive(Clone, Copy)]
enum Call {
    Put(u16, u16),
    Fill(u16, u16, u16),
    CopySpan(u16, u16, u16),
    CopyTile(u8, u8),
}

/// Draws a call on a frame, in one colour or from a frame of the same sides. Tells whether the call
/// asks for points inside.
fn draw(call: Call, c: Colour, from: &Frame, frame: &mut Frame) -> bool {
    let (w, h) = (frame.width(), frame.height());
    if from.width() != w || from.height() != h {
        return false;
    }
    match call {
        Call::Put(x, y) if x < w && y < h => frame.put(x, y, c),
        Call::Fill(y, x0, x1) if x1 < w && y < h => frame.fill_span(y, x0, x1, c),
        Call::CopySpan(y, x0, x1) if x1 < w && y < h => frame.copy_span(from, y, x0, x1),
        Call::CopyTile(col, row) if u16::from(col) * 16 < w && u16::from(row) * 16 < h => {
            frame.copy_tile(from, Tile { col, row });
        }
        _ => return false,
    }
    true
}

/// Gives the first 40 points of the first 36 rows of a frame one colour.
fn fill(c: Colour, blank: &Frame, frame: &mut Frame) {
    for y in 0..36 {
        draw(Call::Fill(y, 0, 39), c, blank, frame);
    }
}

/// Whether a call draws just the block, in one colour or from a frame in that colour, on a black
/// frame of 40 by 36 points, and counts so many points.
fn draws(alloc: Global, call: Call, block: Block, count: u64) -> bool {
    let c = colour(0x12_3456);
    let (Ok(mut from), Ok(mut frame)) = (Frame::new(alloc, 40, 36), Frame::new(alloc, 40, 36))
    else {
        return false;
    };
    fill(c, &frame, &mut from);
    draw(call, c, &from, &mut frame) && shows_only(block, c, &frame) && frame.writes() == count
}

/// Calls, the block that they draw, and how many points they write.
const CALLS: [(&str, Call, Block, u64); 26] = [
    ("the first point", Call::Put(0, 0), [0, 0, 0, 0], 1),
    ("upper right", Call::Put(39, 0), [39, 0, 39, 0], 1),
    ("lower left", Call::Put(0, 35), [0, 35, 0, 35], 1),
    ("lower right", Call::Put(39, 35), [39, 35, 39, 35], 1),
    ("a point within", Call::Put(2, 1), [2, 1, 2, 1], 1),
    ("one point", Call::Fill(1, 2, 2), [2, 1, 2, 1], 1),
    ("some points", Call::Fill(1, 2, 5), [2, 1, 5, 1], 4),
    ("a whole row", Call::Fill(2, 0, 39), [0, 2, 39, 2], 40),
    ("the start", Call::Fill(0, 0, 0), [0, 0, 0, 0], 1),
    ("the last row", Call::Fill(35, 38, 39), [38, 35, 39, 35], 2),
    ("empty by one", Call::Fill(1, 3, 2), NOTHING, 0),
    ("empty from far", Call::Fill(1, 9, 0), NOTHING, 0),
    ("empty from outside", Call::Fill(1, 65_535, 0), NOTHING, 0),
    ("copy one point", Call::CopySpan(1, 2, 2), [2, 1, 2, 1], 1),
    ("copy points", Call::CopySpan(1, 2, 5), [2, 1, 5, 1], 4),
    ("copy a row", Call::CopySpan(2, 0, 39), [0, 2, 39, 2], 40),
    (
        "copy the end",
        Call::CopySpan(35, 38, 39),
        [38, 35, 39, 35],
        2,
    ),
    ("copy nothing", Call::CopySpan(1, 3, 2), NOTHING, 0),
    ("the first tile", Call::CopyTile(0, 0), [0, 0, 15, 15], 256),
    ("within", Call::CopyTile(1, 1), [16, 16, 31, 31], 256),
    ("at the right", Call::CopyTile(2, 1), [32, 16, 39, 31], 128),
    (
        "at the lower edge",
        Call::CopyTile(1, 2),
        [16, 32, 31, 35],
        64,
    ),
    ("at both", Call::CopyTile(2, 2), [32, 32, 39, 35], 32),
    ("at the left", Call::CopyTile(0, 1), [0, 16, 15, 31], 256),
    (
        "at the upper edge",
        Call::CopyTile(1, 0),
        [16, 0, 31, 15],
        256,
    ),
    (
        "upper right tile",
        Call::CopyTile(2, 0),
        [32, 0, 39, 15],
        128,
    ),
];

#[test]
fn calls_draw_their_points(rt: HostRuntime) {
    for (name, call, block, count) in CALLS {
        assert!(rt; draws(rt.alloc(), call, block, count), "{name}");
    }
}

fn is_largest_drawn_on(alloc: Global) -> bool {
    let Ok(mut frame) = Frame::new(alloc, 1024, 768) else {
        return false;
    };
    frame.put(1023, 767, colour(7));
    let point = frame.get(1023, 767).value() == 7 && frame.get(1022, 767).value() == 0;
    frame.fill_span(767, 0, 1023, colour(9));
    point && shows_only([0, 767, 1023, 767], colour(9), &frame) && frame.writes() == 1025
}

#[test]
fn the_largest_frame(rt: HostRuntime) {
    assert!(rt; is_largest_drawn_on(rt.alloc()));
}

/// Whether a copy of the points 1 and 2 of row 1 takes them to the same places.
fn copies_to_the_same_places(alloc: Global) -> bool {
    let (Ok(mut from), Ok(mut frame)) = (Frame::new(alloc, 8, 4), Frame::new(alloc, 8, 4)) else {
        return false;
    };
    draw(Call::Put(2, 1), colour(3), &frame, &mut from);
    draw(Call::Fill(1, 0, 7), colour(4), &from, &mut frame);
    draw(Call::CopySpan(1, 1, 2), colour(5), &from, &mut frame);
    shows_row(&frame, [4, 0, 3, 4, 4, 4, 4, 4]) && frame.writes() == 10
}

/// Whether row 1 has these colours.
fn shows_row(frame: &Frame, row: [u32; 8]) -> bool {
    1 < frame.height()
        && frame
            .row(1)
            .iter()
            .zip(row)
            .all(|(c, value)| c.value() == value)
}

#[test]
fn a_copy_takes_the_same_places(rt: HostRuntime) {
    assert!(rt; copies_to_the_same_places(rt.alloc()));
}
