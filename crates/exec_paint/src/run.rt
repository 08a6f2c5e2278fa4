//! A window on some neighbouring columns of one row.

ghost use Rattle.std.specs.Prelude.{◌≡◌, ℕ, ◌<◌, ◌≤◌, ◌&&◌, pos, length, None, if◌then◌else◌, unwrap_or, IfSome};
ghost use Rattle.std.specs.Prelude.{◌≤ℤ◌, ◌<ℤ◌};
ghost use Rattle.std.specs.Int.{int_max, int_min};
ghost use Rattle.std.specs.List.{AllByRecursion};
ghost use Rattle.gfx_base.specs.Range.{is_within};
ghost use Rattle.gfx_base.specs.Rects.{point_at};
ghost use Rattle.region.specs.Spans.{in_span};
ghost use Rattle.frame.specs.Pictures.{HasShape};
ghost use Rattle.paint_ops.specs.Soundness.{IsSound, IsOperation};
ghost use Rattle.paint_ops.specs.Operations.{seen_from, colour_of_operation, colour_of_operations};
ghost use Rattle.paint_ops.specs.Rows.{IsOrigin};
ghost use Rattle.scene.specs.Looks.{IsPaintable, inputs_of, colour_in_window};

use frame::Frame;
use gfx_base::{Colour, Point, Rect};
use paint_ops::{Assets, Class, Op, draw};
use region::Span;
use scene::Win;

/// Neighbouring columns of a row of a frame, from the left one to the right one, both included.
#[derive(Clone, Copy)]
pub struct Run {
    pub y: u16,
    pub left: u16,
    pub right: u16,
}

ghost use Rattle.exec_paint.specs.Rows.{row_mapped, in_run, in_some_run, FitsIn};

/// A number that isn't negative.
pub fn unsigned(z: i32) -> u16
    requires low { pos 0 ≤ℤ z }
    requires high { z <ℤ pos 65535 }
    ensures value { pos result ≡ z }
{
    z as u16
}

/// The columns from x0 to x1 that lie in a row of this width, or `None` where there is none.
fn run_of(x0: i32, x1: i32, y: u16, width: u16) -> Option<Run>
    ensures row { IfSome result (λ run. run.y ≡ y) }
    ensures some { IfSome result (λ run. run.left ≤ run.right) }
    ensures within { IfSome result (λ run. run.right < width) }
    ensures columns { (u : ℕ) → u < width → in_some_run result u ≡ is_within x0 x1 (pos u) }
{
    let left = x0.max(0);
    let right = x1.min(i32::from(width) - 1);
    if right < left {
        return None;
    }
    Some(Run {
        y,
        left: unsigned(left),
        right: unsigned(right),
    })
}

/// The columns of a span that lie in a clip and in a row of this width, or `None` where there is
/// none.
pub fn run_in(span: Span, clip: &Rect, y: u16, width: u16) -> Option<Run>
    ensures row { IfSome result (λ run. run.y ≡ y) }
    ensures some { IfSome result (λ run. run.left ≤ run.right) }
    ensures within { IfSome result (λ run. run.right < width) }
    ensures columns { (u : ℕ) → u < width
        → in_some_run result u
        ≡ (in_span span (pos u) && is_within clip.now.x0 clip.now.x1 (pos u)) }
{
    let x0 = span.x0.max(clip.x0);
    let x1 = span.x1.min(clip.x1);
    run_of(x0, x1, y, width)
}

/// The columns of a span that lie in a row of this width, or `None` where there is none.
pub fn run_of_span(span: Span, y: u16, width: u16) -> Option<Run>
    ensures row { IfSome result (λ run. run.y ≡ y) }
    ensures some { IfSome result (λ run. run.left ≤ run.right) }
    ensures within { IfSome result (λ run. run.right < width) }
    ensures columns { (u : ℕ) → u < width → in_some_run result u ≡ in_span span (pos u) }
{
    run_of(span.x0, span.x1, y, width)
}

/// Whether the rectangle reaches the row.
pub fn has_row(r: &Rect, y: u16) -> bool
    ensures { result ≡ is_within r.now.y0 r.now.y1 (pos y) }
{
    let row = i32::from(y);
    r.y0 <= row && row <= r.y1
}

/// Gives the columns a colour.
pub fn fill_run(run: Run, colour: Colour, target: &mut Frame)
    requires shape { HasShape target.old.picture }
    requires run { FitsIn target.old.picture run }
    ensures { target.new.picture
        ≡ row_mapped target.old.picture run.y (in_run run) (λ u old. colour) }
{
    target.fill_span(run.y, run.left, run.right, colour);
}

/// Gives the columns a window's back colour, where its class has one and the window isn't
/// transparent.
fn put_back(class: &Class, window: &Win, run: Run, target: &mut Frame)
    requires shape { HasShape target.old.picture }
    requires run { FitsIn target.old.picture run }
    ensures { target.new.picture
        ≡ row_mapped target.old.picture run.y (in_run run)
        (λ u old. unwrap_or (if window.now.trans then None else class.now.back) old) }
{
    if window.trans {
        return;
    }
    if let Some(back) = class.back {
        fill_run(run, back, target);
    }
}

/// Draws an operation of a window, whose upper left corner is given, on the columns.
fn draw_run(op: &Op, window: &Win, corner: Point, run: Run, assets: &Assets, target: &mut Frame)
    requires assets { IsSound assets.now }
    requires operation { IsOperation assets.now op.now }
    requires size { (window.now.w ≤ 4096) × (window.now.h ≤ 4096) }
    requires corner { IsOrigin corner.x × IsOrigin corner.y }
    requires shape { HasShape target.old.picture }
    requires run { FitsIn target.old.picture run }
    ensures { target.new.picture
        ≡ row_mapped target.old.picture run.y (in_run run)
        (λ u old. unwrap_or
        (colour_of_operation assets.now (inputs_of window.now) op.now
        (seen_from corner (point_at (pos u) (pos run.y)))) old) }
{
    let x0 = i32::from(run.left);
    let x1 = i32::from(run.right);
    let span = [Span { x0, x1 }];
    draw(
        op,
        &window.values,
        window.w,
        window.h,
        corner,
        run.y,
        &span,
        assets,
        target,
    );
}

/// Draws all operations of a window's class on the columns.
fn draw_class(
    class: &Class,
    window: &Win,
    corner: Point,
    run: Run,
    assets: &Assets,
    target: &mut Frame,
)
    requires assets { IsSound assets.now }
    requires operations { AllByRecursion (IsOperation assets.now) class.now.ops }
    requires size { (window.now.w ≤ 4096) × (window.now.h ≤ 4096) }
    requires corner { IsOrigin corner.x × IsOrigin corner.y }
    requires shape { HasShape target.old.picture }
    requires run { FitsIn target.old.picture run }
    ensures { target.new.picture
        ≡ row_mapped target.old.picture run.y (in_run run)
        (λ u old. unwrap_or
        (colour_of_operations assets.now (inputs_of window.now) class.now.ops
        (seen_from corner (point_at (pos u) (pos run.y)))) old) }
{
    for op in &class.ops {
        draw_run(op, window, corner, run, assets, target);
    }
}

/// Paints a window, whose upper left corner is given, on the columns.
pub fn paint_run(window: &Win, corner: Point, run: Run, assets: &Assets, target: &mut Frame)
    requires assets { IsSound assets.now }
    requires window { IsPaintable assets.now window.now }
    requires corner { IsOrigin corner.x × IsOrigin corner.y }
    requires shape { HasShape target.old.picture }
    requires run { FitsIn target.old.picture run }
    ensures { target.new.picture
        ≡ row_mapped target.old.picture run.y (in_run run)
        (λ u old. unwrap_or
        (colour_in_window assets.now window.now
        (seen_from corner (point_at (pos u) (pos run.y)))) old) }
{
    let class = &assets.classes[usize::from(window.class)];
    put_back(class, window, run, target);
    draw_class(class, window, corner, run, assets, target);
}
