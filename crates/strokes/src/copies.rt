//! Copies of pictures on the screen.

ghost use Rattle.std.specs.Prelude.{◌≡◌, ◌+◌, ◌<◌, ◌≤◌, ◌==◌, ◌&&◌, nat_le, ℤ, pos, ◌+ℤ◌, ◌-ℤ◌, length, true};
ghost use Rattle.std.specs.List.{AllByRecursion};
ghost use Rattle.gfx_base.specs.Range.{IsNear};
ghost use Rattle.gfx_base.specs.Rects.{point_at};
ghost use Rattle.gfx_base.specs.TileSets.{AreTilesOf};
ghost use Rattle.frame.specs.Pictures.{HasShape, changed};
ghost use Rattle.region.specs.Spans.{in_span, in_spans};
ghost use Rattle.paint_ops.specs.Soundness.{IsSound};
ghost use Rattle.paint_ops.specs.Rows.{IsOrigin};
ghost use Rattle.scene.specs.Looks.{IsPaintable, screen_with, looks_of};
ghost use Rattle.scene.specs.Places.{AreSingle};
ghost use Rattle.exec_paint.specs.Areas.{IsOn};
ghost use Rattle.strokes.specs.Strokes.{colour_of_copy, puts_down, stroked};
ghost use Rattle.strokes.specs.Parts.{is_free, LiesWithin, colour_copied, IsFrom};

use crate::bounds::points_of_picture;
use crate::edges::free_tiles;
use crate::visible::{Holes, Part, visible_part};
use exec_paint::{Hole, plan_row, unsigned};
use frame::Frame;
use gfx_base::{Point, Rect, Tiles};
use paint_ops::Assets;
use region::Span;
use scene::Win;

/// Copies a row's columns from the left one to the right one, both included, out of a picture whose
/// upper left point lies at the corner.
fn copy_run(from: &Frame, corner: Point, y: u16, left: u16, right: u16, target: &mut Frame)
    requires from { HasShape from.now.picture }
    requires corner { IsNear corner.x × IsNear corner.y }
    requires row { IsFrom corner.y from.now.picture.height (pos y) }
    requires some { left ≤ right }
    requires left { IsFrom corner.x from.now.picture.width (pos left) }
    requires right { IsFrom corner.x from.now.picture.width (pos right) }
    requires shape { HasShape target.old.picture }
    requires inside { (right < target.old.picture.width) × (y < target.old.picture.height) }
    ensures { target.new.picture
        ≡ changed target.old.picture (λ u v. v == y && (nat_le left u && nat_le u right))
        (colour_copied from.now.picture corner) }
{
    let row = (i32::from(y) - corner.y) as u16;
    for x in left..right + 1 {
        target.put(x, y, from.get((i32::from(x) - corner.x) as u16, row));
    }
}

/// Copies a row's columns in the span out of a picture whose upper left point lies at the corner.
fn copy_span(from: &Frame, corner: Point, y: u16, span: Span, target: &mut Frame)
    requires from { HasShape from.now.picture }
    requires corner { IsNear corner.x × IsNear corner.y }
    requires row { IsFrom corner.y from.now.picture.height (pos y) }
    requires shape { HasShape target.old.picture }
    requires below { y < target.old.picture.height }
    requires columns { (x : ℤ) → in_span span x ≡ true
        → IsFrom corner.x from.now.picture.width x × IsFrom (pos 0) target.old.picture.width x }
    ensures { target.new.picture
        ≡ changed target.old.picture (λ u v. v == y && in_span span (pos u))
        (colour_copied from.now.picture corner) }
{
    if span.x1 < span.x0 {
        return;
    }
    let (left, right) = (unsigned(span.x0), unsigned(span.x1));
    copy_run(from, corner, y, left, right, target);
}

/// Copies a row's columns in the spans out of a picture whose upper left point lies at the corner.
fn copy_spans(from: &Frame, corner: Point, y: u16, spans: &[Span], target: &mut Frame)
    requires from { HasShape from.now.picture }
    requires corner { IsNear corner.x × IsNear corner.y }
    requires row { IsFrom corner.y from.now.picture.height (pos y) }
    requires shape { HasShape target.old.picture }
    requires below { y < target.old.picture.height }
    requires columns { (x : ℤ) → in_spans spans.now x ≡ true
        → IsFrom corner.x from.now.picture.width x × IsFrom (pos 0) target.old.picture.width x }
    ensures { target.new.picture
        ≡ changed target.old.picture (λ u v. v == y && in_spans spans.now (pos u))
        (colour_copied from.now.picture corner) }
{
    for span in spans {
        copy_span(from, corner, y, *span, target);
    }
}

/// Copies the free points of the area out of a picture whose upper left point lies at the corner,
/// and which has the whole area.
fn copy_free(from: &Frame, corner: Point, area: &Rect, holes: &[Hole], target: &mut Frame)
    requires from { HasShape from.now.picture }
    requires corner { IsNear corner.x × IsNear corner.y }
    requires shape { HasShape target.old.picture }
    requires area { IsOn target.old.picture.width target.old.picture.height area.now }
    requires inside { LiesWithin area.now corner
        (screen_with from.now.picture.width from.now.picture.height) }
    requires few { length holes.now ≤ 255 }
    ensures { target.new.picture
        ≡ changed target.old.picture
        (λ x y. is_free area.now holes.now (point_at (pos x) (pos y)))
        (colour_copied from.now.picture corner) }
{
    let top = unsigned(area.y0);
    let mut plan = plan_row(area, holes, top);
    for y in top..unsigned(area.y1) + 1 {
        if plan.last < y {
            plan = plan_row(area, holes, y);
        }
        copy_spans(from, corner, y, plan.spans.spans(), target);
    }
}

/// The point at x and y, which are counted from the corner.
fn counted_from(corner: Point, x: i16, y: i16) -> Point
    requires { IsOrigin corner.x × IsOrigin corner.y }
    ensures value { result ≡ point_at (corner.x +ℤ x) (corner.y +ℤ y) }
    ensures near { IsNear result.x × IsNear result.y }
{
    Point {
        x: corner.x + i32::from(x),
        y: corner.y + i32::from(y),
    }
}

/// Copies all points of a picture to the window at `i`: the picture's upper left point comes to x
/// and y, which are counted from the window's upper left corner, and only points that the window
/// sees change. The answer has just the tiles that hold a point that was put down. The target has
/// the screen's sides, and the picture may have others; there are at most 256 windows, each with
/// sides of at most 4,096 points and with a class that exists, and no handle stands twice. No
/// memory is taken.
///
/// What it costs: a look for the window's corner, and where the picture meets the window's clip a
/// pass over the windows above. Then each point that is put down, and for each row of that part a
/// look at what windows above hide of it.
pub fn copy(
    stack: &[Win],
    i: usize,
    x: i16,
    y: i16,
    from: &Frame,
    assets: &Assets,
    target: &mut Frame,
) -> Tiles
    requires assets { IsSound assets.now }
    requires few { length stack.now ≤ 256 }
    requires windows { AllByRecursion (IsPaintable assets.now) stack.now }
    requires single { AreSingle stack.now }
    requires place { i < length stack.now }
    ensures picture { target.new.picture
        ≡ stroked
        (looks_of assets.now
        (screen_with target.old.picture.width target.old.picture.height) stack.now) stack.now i
        (colour_of_copy from.now.picture x y) target.old.picture }
    ensures tiles { AreTilesOf target.old.picture.width target.old.picture.height
        (λ u v. puts_down
        (looks_of assets.now
        (screen_with target.old.picture.width target.old.picture.height) stack.now) stack.now i
        (colour_of_copy from.now.picture x y) (point_at (pos u) (pos v))) result }
{
    let (width, height) = (target.width(), target.height());
    let rect = points_of_picture(from, x, y);
    let mut holes = Holes::new();
    let Some(part) = visible_part(stack, i, &rect, width, height, assets, &mut holes) else {
        return Tiles::empty();
    };
    let Part { corner, area } = part;
    let holes = holes.as_slice();
    copy_free(from, counted_from(corner, x, y), &area, holes, target);
    free_tiles(&area, holes, width, height)
}
