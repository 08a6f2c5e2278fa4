//! Small pictures of strokes and copies.

ghost use Rattle.std.specs.Prelude.{◌≤◌};
ghost use Rattle.paint_ops.specs.Soundness.{IsSound};

use crate::setups::{assets, colour, is_stroke};
use context::Context;
use frame::Frame;
use gfx_base::Colour;
use paint_ops::Assets;
use samples::{are_paintable, are_single};
use scene::Win;
use std::alloc::Global;
use strokes::{Shape, copy, on_device, on_screen};

/// A desktop of 8 by 3 points with a window of 5 by 2 at (2, 1), of which a window above hides the
/// last column.
fn windows() -> [Win; 3] {
    let desktop = Win {
        handle: 1,
        w: 8,
        h: 3,
        shown: true,
        ..Win::default()
    };
    let lower = Win {
        handle: 2,
        parent: 1,
        x: 2,
        y: 1,
        w: 5,
        h: 2,
        shown: true,
        class: 1,
        ..Win::default()
    };
    let upper = Win {
        handle: 3,
        x: 6,
        w: 2,
        class: 3,
        ..lower
    };
    [desktop, lower, upper]
}

/// The colour's sign in a picture.
fn sign(c: Colour) -> u8 {
    match c.value() {
        0xFF_FFFF => b'#',
        0x80_8080 => b'-',
        0xFF_0000 => b'r',
        0xFF00 => b'g',
        0xFF => b'b',
        _ => b'.',
    }
}

/// Whether a frame shows the picture, whose rows `|` parts.
fn shows(frame: &Frame, picture: &str) -> bool {
    let mut y = 0u16;
    for row in picture.split('|') {
        if y >= frame.height() {
            return false;
        }
        let is_row = row.len() == usize::from(frame.width())
            && row
                .as_bytes()
                .iter()
                .zip(frame.row(y))
                .all(|(wanted, c)| *wanted == sign(*c));
        if !is_row {
            return false;
        }
        y = y.saturating_add(1);
    }
    y == frame.height()
}

/// What a stroke in the window at a place leaves on a black screen.
fn drawn(
    alloc: Global,
    which: usize,
    trans_text: bool,
    shape: Shape,
    assets: &Assets,
) -> Option<Frame>
    requires { IsSound assets.now }
{
    let context = Context {
        bk: colour(0x80_8080),
        trans_text,
        ..Context::default()
    };
    let stack = windows();
    let mut target = Frame::new(alloc, 8, 3).ok()?;
    let is_given = are_paintable(&stack, assets)
        && are_single(&stack)
        && is_stroke(&context, &shape, assets)
        && which < stack.len();
    if !is_given {
        return None;
    }
    on_screen(&stack, which, &context, &shape, assets, &mut target);
    Some(target)
}

/// The window's place, whether text leaves what is behind it, the shape, and the picture.
fn cases() -> [(usize, bool, Shape, &'static str); 14] {
    let (low, high) = (i16::MIN, i16::MAX);
    [
        // The windows above hide what lies in them.
        (
            0,
            false,
            Shape::Fill(low, low, high, high),
            "########|##......|##......",
        ),
        (
            1,
            false,
            Shape::Fill(0, 0, 9, 9),
            "........|..####..|..####..",
        ),
        (
            2,
            false,
            Shape::Fill(-9, 1, 0, 1),
            "........|........|......#.",
        ),
        // Inverted ranges have no point.
        (
            0,
            false,
            Shape::Fill(3, 0, 2, 2),
            "........|........|........",
        ),
        (
            0,
            false,
            Shape::Frame(0, 2, 7, 1),
            "........|........|........",
        ),
        (
            0,
            false,
            Shape::Frame(0, 0, 7, 2),
            "########|#.......|##......",
        ),
        (
            1,
            false,
            Shape::Frame(-1, -1, 1, 1),
            "........|...#....|..##....",
        ),
        // A line is the same from both ends.
        (
            0,
            false,
            Shape::Line(0, 0, 2, 1),
            "#.......|.#......|........",
        ),
        (
            0,
            false,
            Shape::Line(1, 2, 0, 0),
            "#.......|.#......|.#......",
        ),
        (
            1,
            false,
            Shape::Line(low, 0, high, 0),
            "........|..####..|........",
        ),
        (
            2,
            false,
            Shape::Line(0, 0, 0, 0),
            "........|......#.|........",
        ),
        // A bitmap's transparent points stay.
        (
            0,
            false,
            Shape::Bitmap(0, -31, 0),
            ".gggg...|........|........",
        ),
        // A text's other points get the colour behind it, or stay.
        (1, false, Shape::Text(1, 0, 0), "........|...##...|...#-..."),
        (1, true, Shape::Text(1, 0, 0), "........|...##...|...#...."),
    ]
}

#[test]
fn strokes_on_small_screens(rt: HostRuntime) {
    for (i, (which, trans_text, shape, picture)) in cases().into_iter().enumerate() {
        let shown = match assets(rt.alloc()) {
            Some(assets) => match drawn(rt.alloc(), which, trans_text, shape, &assets) {
                Some(target) => shows(&target, picture),
                None => false,
            },
            None => false,
        };
        assert!(rt; shown, "case {i}");
    }
}

/// A device of these sides with a shape over grey.
fn device(alloc: Global, w: u16, h: u16, shape: Shape, assets: &Assets) -> Option<Frame>
    requires assets { IsSound assets.now }
    requires sides { (1 ≤ w) × (w ≤ 8) × (1 ≤ h) × (h ≤ 3) }
{
    let grey = Context {
        colour: colour(0x80_8080),
        ..Context::default()
    };
    let context = Context::default();
    if !is_stroke(&context, &shape, assets) {
        return None;
    }
    let mut device = Frame::new(alloc, w, h).ok()?;
    on_device(&grey, &Shape::Fill(0, 0, 7, 2), assets, &mut device);
    on_device(&context, &shape, assets, &mut device);
    Some(device)
}

/// The shape, and the picture of a device of 5 by 3 points.
fn device_cases() -> [(Shape, &'static str); 8] {
    let (low, high) = (i16::MIN, i16::MAX);
    [
        (Shape::Fill(low, low, high, high), "#####|#####|#####"),
        (Shape::Fill(3, 1, high, high), "-----|---##|---##"),
        (Shape::Fill(5, 0, high, 2), "-----|-----|-----"),
        (Shape::Frame(-1, -1, 2, 2), "--#--|--#--|###--"),
        (Shape::Line(low, 0, high, 0), "#####|-----|-----"),
        (Shape::Bitmap(0, -31, 0), "-gggg|-----|-----"),
        (Shape::Bitmap(0, high, high), "-----|-----|-----"),
        (Shape::Text(3, 0, 0), "---##|---#.|---.."),
    ]
}

/// What a copy of a picture of 3 by 2 points leaves in the window at a place on a grey screen.
fn copied(alloc: Global, which: usize, x: i16, y: i16, assets: &Assets) -> Option<Frame>
    requires { IsSound assets.now }
{
    let stack = windows();
    let picture = device(alloc, 3, 2, Shape::Text(0, 0, 0), assets)?;
    let mut target = device(alloc, 8, 3, Shape::Fill(1, 0, 0, 0), assets)?;
    let is_given = are_paintable(&stack, assets) && are_single(&stack) && which < stack.len();
    if !is_given {
        return None;
    }
    copy(&stack, which, x, y, &picture, assets, &mut target);
    Some(target)
}

/// The window's place, where the upper left point of the picture `##-|#.-` comes to, and the
/// screen.
fn copy_cases() -> [(usize, i16, i16, &'static str); 8] {
    [
        // The windows above hide what lies in them.
        (0, 0, 0, "##------|#.------|--------"),
        (0, 7, 0, "-------#|--------|--------"),
        (0, 5, 1, "--------|--------|--------"),
        // A copy ends at the window's edges.
        (1, 0, 0, "--------|--##----|--#.----"),
        (1, -1, -1, "--------|--.-----|--------"),
        (1, 3, 0, "--------|-----#--|-----#--"),
        (2, 0, 1, "--------|--------|------##"),
        (2, i16::MAX, i16::MIN, "--------|--------|--------"),
    ]
}

/// Whether there is a frame, and it shows the picture.
fn is_picture(frame: Option<Frame>, picture: &str) -> bool {
    match frame {
        Some(frame) => shows(&frame, picture),
        None => false,
    }
}

fn are_pictures(alloc: Global, assets: &Assets) -> bool
    requires { IsSound assets.now }
{
    for (shape, picture) in device_cases() {
        if !is_picture(device(alloc, 5, 3, shape, assets), picture) {
            return false;
        }
    }
    for (which, x, y, picture) in copy_cases() {
        if !is_picture(copied(alloc, which, x, y, assets), picture) {
            return false;
        }
    }
    true
}

#[test]
fn shapes_end_at_a_devices_edges_and_copies_at_a_windows(rt: HostRuntime) {
    let shown = match assets(rt.alloc()) {
        Some(assets) => are_pictures(rt.alloc(), &assets),
        None => false,
    };
    assert!(rt; shown);
}
