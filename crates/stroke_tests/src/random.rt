//! Shapes and copies in random windows, and shapes on devices, held point by point against a plain
//! program.

ghost use Rattle.std.specs.Prelude.{◌≡◌, ◌<◌, ◌≤◌, length, true};
ghost use Rattle.std.specs.List.{AllByRecursion};
ghost use Rattle.scene.specs.Looks.{IsPaintable};
ghost use Rattle.scene.specs.Places.{AreSingle};
ghost use Rattle.paint_ops.specs.Soundness.{IsSound};

use crate::coverage::{colour_at, colour_of, colour_of_copy};
use crate::setups::{assets, colour, is_stroke};
use context::Context;
use frame::Frame;
use gfx_base::{Colour, Point, Rect, Tile, Tiles};
use paint_ops::Assets;
use samples::{Numbers, are_paintable, are_single};
use scene::{MOST_WINDOWS, Stack, Win, ground, origin, paint_whole, screen};
use std::alloc::Global;
use strokes::{Shape, copy, on_device, on_screen};

const WIDTH: u16 = 40;

const HEIGHT: u16 = 36;

/// A coordinate on the screen or beside it, and now and then an end of the range.
fn any_place(numbers: &mut Numbers) -> i16 {
    match numbers.below(16) {
        0 => i16::MIN,
        1 => i16::MAX,
        2 => 4096,
        _ => numbers.below(56) as i16 - 10,
    }
}

fn any_shape(numbers: &mut Numbers) -> Shape {
    let (x0, y0) = (any_place(numbers), any_place(numbers));
    let (x1, y1) = (any_place(numbers), any_place(numbers));
    match numbers.below(6) {
        0 => Shape::Fill(x0, y0, x1, y1),
        1 => Shape::Frame(x0, y0, x1, y1),
        2 | 3 => Shape::Line(x0, y0, x1, y1),
        4 => Shape::Bitmap(0, x0, y0),
        _ => Shape::Text(x0, y0, numbers.below(4) as u8),
    }
}

/// A window that lies in the desktop or in one of the windows before it, often partly outside.
fn any_window(numbers: &mut Numbers, handle: u16) -> Win {
    let levels = handle.clamp(2, 7) - 1;
    Win {
        handle: u32::from(handle),
        parent: u32::from(1 + numbers.below(levels)),
        x: numbers.below(40) as i16 - 10,
        y: numbers.below(36) as i16 - 10,
        w: 1 + numbers.below(30),
        h: 1 + numbers.below(28),
        shown: numbers.below(8) != 0,
        class: numbers.below(4) as u8,
        trans: numbers.below(6) == 0,
        ..Win::default()
    }
}

/// The desktop and so many windows above it.
fn any_stack(numbers: &mut Numbers, count: u16) -> Stack {
    let mut stack = Stack::new();
    let desktop = Win {
        handle: 1,
        w: WIDTH,
        h: HEIGHT,
        shown: true,
        ..Win::default()
    };
    let _ = stack.try_push(desktop);
    for at in 0..count {
        let window = any_window(numbers, at.saturating_add(2));
        let _ = stack.try_push(window);
    }
    stack
}

fn is_opaque(w: &Win, assets: &Assets) -> bool {
    match assets.classes.get(usize::from(w.class)) {
        Some(class) => class.back.is_some() && !w.trans,
        None => false,
    }
}

/// Whether the window at a place sees the point.
fn sees(stack: &[Win], which: usize, screen: &Rect, assets: &Assets, p: Point) -> bool {
    if which >= stack.len() || !ground(stack, which, screen).has(p) {
        return false;
    }
    for above in 0..stack.len() {
        let hides = which < above && is_opaque(&stack[above], assets);
        if hides && ground(stack, above, screen).has(p) {
            return false;
        }
    }
    true
}

/// What is put down in a window.
#[derive(Clone, Copy)]
enum Ink {
    Stroke(Context, Shape),
    Copy(i16, i16),
}

/// The colour that is put on a point of the screen, if any. Copies are of the picture.
fn due_colour(
    stack: &[Win],
    which: usize,
    ink: &Ink,
    picture: &Frame,
    assets: &Assets,
    p: Point,
) -> Option<Colour> {
    if which >= stack.len() || !sees(stack, which, &screen(WIDTH, HEIGHT), assets, p) {
        return None;
    }
    let corner = origin(stack, which);
    let x = i64::from(p.x).wrapping_sub(i64::from(corner.x));
    let y = i64::from(p.y).wrapping_sub(i64::from(corner.y));
    match ink {
        Ink::Stroke(context, shape) => colour_of(context, shape, assets, (x, y)),
        Ink::Copy(left, top) => colour_of_copy(picture, *left, *top, (x, y)),
    }
}

/// The tile that holds the point, which lies on a screen.
fn tile_of(x: u16, y: u16) -> Tile
    requires { (x < 1024) × (y < 768) }
    ensures { (result.col < 64) × (result.row < 48) }
{
    Tile {
        col: (x / 16) as u8,
        row: (y / 16) as u8,
    }
}

/// How many points aren't those that were put down, or what was there before; answered tiles
/// without a point that was put down and those that aren't answered count too. The frames are the
/// picture, and the screen before and after.
fn wrong_points(
    stack: &[Win],
    which: usize,
    ink: &Ink,
    assets: &Assets,
    frames: [&Frame; 3],
    tiles: &Tiles,
) -> u32 {
    let [picture, before, after] = frames;
    let mut due = Tiles::empty();
    let mut wrong = 0u32;
    for y in 0..HEIGHT {
        for x in 0..WIDTH {
            let p = Point {
                x: i32::from(x),
                y: i32::from(y),
            };
            let put = due_colour(stack, which, ink, picture, assets, p);
            if put.is_some() {
                due.add(tile_of(x, y));
            }
            let wanted = put.or(colour_at(before, x, y));
            if colour_at(after, x, y) != wanted {
                wrong = wrong.saturating_add(1);
            }
        }
    }
    for y in 0..HEIGHT {
        for x in 0..WIDTH {
            let tile = tile_of(x, y);
            if tiles.has(tile) != due.has(tile) {
                wrong = wrong.saturating_add(1);
            }
        }
    }
    wrong
}

fn any_context(numbers: &mut Numbers) -> Context {
    Context {
        colour: colour(0xFF_FFFF),
        bk: colour(0x80_8080),
        trans_text: numbers.below(2) == 0,
        ..Context::default()
    }
}

fn any_ink(numbers: &mut Numbers) -> Ink {
    if numbers.below(3) == 0 {
        return Ink::Copy(any_place(numbers), any_place(numbers));
    }
    Ink::Stroke(any_context(numbers), any_shape(numbers))
}

/// A device with a shape, which is compared with the plain program's: how many points are wrong.
fn drawn_device(alloc: Global, numbers: &mut Numbers, assets: &Assets) -> Option<(Frame, u32)>
    requires { IsSound assets.now }
{
    let (w, h) = (1 + numbers.below(60), 1 + numbers.below(20));
    let mut device = Frame::new(alloc, w, h).ok()?;
    let (context, shape) = (any_context(numbers), any_shape(numbers));
    if !is_stroke(&context, &shape, assets) {
        return None;
    }
    on_device(&context, &shape, assets, &mut device);
    let mut wrong = 0u32;
    for y in 0..h {
        for x in 0..w {
            let put = colour_of(&context, &shape, assets, (i64::from(x), i64::from(y)));
            if colour_at(&device, x, y) != Some(put.unwrap_or_default()) {
                wrong = wrong.saturating_add(1);
            }
        }
    }
    Some((device, wrong))
}

/// Whether the windows are some that may be drawn on.
fn are_given(stack: &[Win], assets: &Assets) -> bool
    ensures few { result ≡ true → length stack.now ≤ 256 }
    ensures windows { result ≡ true → AllByRecursion (IsPaintable assets.now) stack.now }
    ensures single { result ≡ true → AreSingle stack.now }
{
    stack.len() <= MOST_WINDOWS && are_paintable(stack, assets) && are_single(stack)
}

/// A screen with the painter's picture, where there is one.
fn painted(alloc: Global, stack: &[Win], assets: &Assets) -> Option<Frame>
    requires { IsSound assets.now }
{
    if !are_given(stack, assets) {
        return None;
    }
    let mut target = Frame::new(alloc, WIDTH, HEIGHT).ok()?;
    paint_whole(stack, assets, &mut target);
    Some(target)
}

/// Puts a stroke or a copy of the picture in the window at a place.
fn put(
    stack: &[Win],
    which: usize,
    ink: &Ink,
    picture: &Frame,
    assets: &Assets,
    target: &mut Frame,
) -> Option<Tiles>
    requires { IsSound assets.now }
{
    if !are_given(stack, assets) || which >= stack.len() {
        return None;
    }
    match ink {
        Ink::Stroke(context, shape) if is_stroke(context, shape, assets) => {
            Some(on_screen(stack, which, context, shape, assets, target))
        }
        Ink::Stroke(..) => None,
        Ink::Copy(x, y) => Some(copy(stack, which, *x, *y, picture, assets, target)),
    }
}

/// Draws one random shape on a device, and puts another one or a copy of the device in a random
/// window. The answer is how many points and tiles are wrong.
fn try_one(alloc: Global, numbers: &mut Numbers, assets: &Assets) -> Option<u32>
    requires { IsSound assets.now }
{
    let count = numbers.below(7);
    let stack = any_stack(numbers, count);
    let which = usize::from(numbers.below(count.saturating_add(1).max(1)));
    let ink = any_ink(numbers);
    let (picture, wrong) = drawn_device(alloc, numbers, assets)?;
    let before = painted(alloc, &stack, assets)?;
    let mut after = painted(alloc, &stack, assets)?;
    let tiles = put(&stack, which, &ink, &picture, assets, &mut after)?;
    let frames = [&picture, &before, &after];
    Some(wrong_points(&stack, which, &ink, assets, frames, &tiles).saturating_add(wrong))
}

#[test]
fn strokes_and_copies_are_those_of_a_plain_program(rt: HostRuntime) {
    let mut numbers = Numbers::new(18);
    let mut wrong = 0u32;
    let mut drawn = 0u32;
    if let Some(assets) = assets(rt.alloc()) {
        for _ in 0..400 {
            if let Some(count) = try_one(rt.alloc(), &mut numbers, &assets) {
                drawn = drawn.saturating_add(1);
                wrong = wrong.saturating_add(count);
            }
        }
    }
    assert!(rt;
        drawn == 400 && wrong == 0,
        "{drawn} drawn, {wrong} points wrong"
    );
}
