//! The painter's picture, by asking each point of the screen.

ghost use Rattle.std.specs.Prelude.{◌≡◌, ◌<◌, ◌≤◌, pos, length, None, if◌then◌else◌, unwrap_or};
ghost use Rattle.std.specs.List.{AllByRecursion};
ghost use Rattle.gfx_base.specs.Rects.{point_at};
ghost use Rattle.frame.specs.Pictures.{HasShape, colour_at, changed};
ghost use Rattle.frame.specs.Areas.{is_at};
ghost use Rattle.paint_ops.specs.Soundness.{IsSound, IsOperation};
ghost use Rattle.paint_ops.specs.Operations.{seen_from, colour_of_operation, colour_of_operations};
ghost use Rattle.paint_ops.specs.Rows.{IsOrigin};
ghost use Rattle.scene.specs.Clips.{AreClips};
ghost use Rattle.scene.specs.Painting.{painted};
ghost use Rattle.scene.specs.Looks.{IsPaintable, screen_with, inputs_of, colour_in_window, looks_of, painter};

use crate::place::{ground, origin, screen};
use crate::win::{MOST_WINDOWS, Win};
use frame::Frame;
use gfx_base::{Colour, NO_POINTS, Point, Rect};
use paint_ops::{Assets, Class, Op, draw};
use region::Span;

/// The clip rectangle of each window, in its place in the list.
type ClipsByPlace = [Rect; MOST_WINDOWS];

/// Asks each window by itself, so that this holds of windows in any order.
fn clips_by_place(stack: &[Win], screen: &Rect) -> ClipsByPlace
    requires { length stack.now ≤ 256 }
    ensures { AreClips screen.now stack.now result }
{
    let mut clips = [NO_POINTS; MOST_WINDOWS];
    for i in 0..stack.len() {
        clips[i] = ground(stack, i, screen);
    }
    clips
}

/// A point of a frame, which lies inside.
#[derive(Clone, Copy)]
struct Dot {
    x: u16,
    y: u16,
}

/// Draws an operation of a window, whose upper left corner is given, on one point.
fn draw_dot(op: &Op, window: &Win, corner: Point, dot: Dot, assets: &Assets, target: &mut Frame)
    requires assets { IsSound assets.now }
    requires operation { IsOperation assets.now op.now }
    requires size { (window.now.w ≤ 4096) × (window.now.h ≤ 4096) }
    requires corner { IsOrigin corner.x × IsOrigin corner.y }
    requires shape { HasShape target.old.picture }
    requires inside { (dot.x < target.old.picture.width) × (dot.y < target.old.picture.height) }
    ensures { target.new.picture
        ≡ changed target.old.picture (is_at dot.x dot.y)
        (λ x y. unwrap_or
        (colour_of_operation assets.now (inputs_of window.now) op.now
        (seen_from corner (point_at (pos x) (pos y)))) (colour_at target.old.picture x y)) }
{
    let x = i32::from(dot.x);
    let span = [Span { x0: x, x1: x }];
    draw(
        op,
        &window.values,
        window.w,
        window.h,
        corner,
        dot.y,
        &span,
        assets,
        target,
    );
}

/// Draws all operations of a window's class on one point.
fn draw_class(
    class: &Class,
    window: &Win,
    corner: Point,
    dot: Dot,
    assets: &Assets,
    target: &mut Frame,
)
    requires assets { IsSound assets.now }
    requires operations { AllByRecursion (IsOperation assets.now) class.now.ops }
    requires size { (window.now.w ≤ 4096) × (window.now.h ≤ 4096) }
    requires corner { IsOrigin corner.x × IsOrigin corner.y }
    requires shape { HasShape target.old.picture }
    requires inside { (dot.x < target.old.picture.width) × (dot.y < target.old.picture.height) }
    ensures { target.new.picture
        ≡ changed target.old.picture (is_at dot.x dot.y)
        (λ x y. unwrap_or
        (colour_of_operations assets.now (inputs_of window.now) class.now.ops
        (seen_from corner (point_at (pos x) (pos y)))) (colour_at target.old.picture x y)) }
{
    for op in &class.ops {
        draw_dot(op, window, corner, dot, assets, target);
    }
}

/// Gives one point a window's back colour, where its class has one and the window isn't
/// transparent.
fn put_back(class: &Class, window: &Win, dot: Dot, target: &mut Frame)
    requires shape { HasShape target.old.picture }
    requires inside { (dot.x < target.old.picture.width) × (dot.y < target.old.picture.height) }
    ensures { target.new.picture
        ≡ changed target.old.picture (is_at dot.x dot.y)
        (λ x y. unwrap_or (if window.now.trans then None else class.now.back)
        (colour_at target.old.picture x y)) }
{
    if window.trans {
        return;
    }
    if let Some(back) = class.back {
        target.put(dot.x, dot.y, back);
    }
}

/// Paints a window, whose upper left corner is given, on one point.
fn paint_window(window: &Win, corner: Point, dot: Dot, assets: &Assets, target: &mut Frame)
    requires assets { IsSound assets.now }
    requires window { IsPaintable assets.now window.now }
    requires corner { IsOrigin corner.x × IsOrigin corner.y }
    requires shape { HasShape target.old.picture }
    requires inside { (dot.x < target.old.picture.width) × (dot.y < target.old.picture.height) }
    ensures { target.new.picture
        ≡ changed target.old.picture (is_at dot.x dot.y)
        (λ x y. unwrap_or
        (colour_in_window assets.now window.now (seen_from corner (point_at (pos x) (pos y))))
        (colour_at target.old.picture x y)) }
{
    let class = &assets.classes[usize::from(window.class)];
    put_back(class, window, dot, target);
    draw_class(class, window, corner, dot, assets, target);
}

/// Gives one point the painter's colour: over black each window there paints, from back to front.
fn paint_dot(
    stack: &[Win],
    clips: &ClipsByPlace,
    screen: &Rect,
    dot: Dot,
    assets: &Assets,
    target: &mut Frame,
)
    requires assets { IsSound assets.now }
    requires windows { AllByRecursion (IsPaintable assets.now) stack.now }
    requires screen { screen.now ≡ screen_with target.old.picture.width target.old.picture.height }
    requires few { length stack.now ≤ 256 }
    requires clips { AreClips screen.now stack.now clips.now }
    requires shape { HasShape target.old.picture }
    requires inside { (dot.x < target.old.picture.width) × (dot.y < target.old.picture.height) }
    ensures { target.new.picture
        ≡ changed target.old.picture (is_at dot.x dot.y)
        (λ x y. painted (looks_of assets.now screen.now stack.now) stack.now
        (point_at (pos x) (pos y))) }
{
    target.put(dot.x, dot.y, Colour::default());
    let p = Point {
        x: i32::from(dot.x),
        y: i32::from(dot.y),
    };
    for i in 0..stack.len() {
        if clips[i].has(p) {
            paint_window(&stack[i], origin(stack, i), dot, assets, target);
        }
    }
}

/// Gives the target the painter's picture of the windows, by asking each point: over black each
/// window whose clip has it paints there, from back to front. The screen has the target's sides.
/// There are at most 256 windows, each with sides of at most 4,096 points and with a class that
/// exists.
pub fn paint_whole(stack: &[Win], assets: &Assets, target: &mut Frame)
    requires assets { IsSound assets.now }
    requires few { length stack.now ≤ 256 }
    requires windows { AllByRecursion (IsPaintable assets.now) stack.now }
    ensures { target.new.picture
        ≡ painter assets.now target.old.picture.width target.old.picture.height stack.now }
{
    let screen = screen(target.width(), target.height());
    let clips = clips_by_place(stack, &screen);
    for y in 0..target.height() {
        for x in 0..target.width() {
            paint_dot(stack, &clips, &screen, Dot { x, y }, assets, target);
        }
    }
}
