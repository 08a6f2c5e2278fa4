//! One row of a job: the columns that are to be painted, painting them, and the tiles that they lie
//! in.

ghost use Rattle.std.specs.Prelude.{◌≡◌, ℕ, ℤ, ◌+◌, ◌/◌, ◌*◌, ◌<◌, ◌≤◌, ◌||◌, ◌&&◌, not, true, false, if◌then◌else◌, pos, length};
ghost use Rattle.std.specs.List.{AllByRecursion};
ghost use Rattle.gfx_base.specs.Range.{is_within};
ghost use Rattle.gfx_base.specs.Rects.{point_at};
ghost use Rattle.gfx_base.specs.TileSets.{has_tile, is_in_run};
ghost use Rattle.frame.specs.Pictures.{HasShape};
ghost use Rattle.region.specs.Spans.{in_spans};
ghost use Rattle.paint_ops.specs.Soundness.{IsSound};
ghost use Rattle.scene.specs.Looks.{IsPaintable, screen_with, looks_of};
ghost use Rattle.scene.specs.Painting.{windows_at, painted_over};
ghost use Rattle.exec_paint.specs.Rows.{row_mapped};
ghost use Rattle.exec_paint.specs.Layers.{IsLayer, windows_in};
ghost use Rattle.exec_paint.specs.Plans.{IsPlanFrom};
ghost use Rattle.std.specs.Prelude.{◌≤ℤ◌};
ghost use Rattle.std.specs.Int.{int_min};
ghost use Rattle.exec_paint.specs.Marks.{AddsTiles};

use crate::layer::{Layer, paint_layers};
use crate::plan::Hole;
use crate::run::{Run, fill_run, has_row, run_of_span};
use frame::Frame;
use gfx_base::{Colour, Rect, Tiles};
use paint_ops::Assets;
use region::{RowSpans, Span};
use scene::Win;

/// The side of a tile in points.
const TILE_SIDE: u16 = 16;

/// Cuts the columns of a hole out of the spans.
fn cut_hole(spans: &mut RowSpans, hole: &Hole)
    requires { length spans.old < 258 }
    ensures columns { (x : ℤ)
        → in_spans spans.new x
        ≡ (in_spans spans.old x && not (is_within hole.now.clip.x0 hole.now.clip.x1 x)) }
    ensures count { length spans.new ≤ length spans.old + 1 }
{
    spans.cut(hole.clip.x0, hole.clip.x1);
}

/// The columns of the area that are to be painted on some rows, and the last of these rows.
#[derive(Drop)]
pub struct RowPlan {
    pub spans: RowSpans,
    pub last: u16,
}

/// A row number, or the greatest one where the number is beyond it.
fn row_number(z: i32) -> u16
    requires { pos 0 ≤ℤ z }
    ensures { pos result ≡ int_min z (pos 65535) }
{
    z.min(i32::from(u16::MAX)) as u16
}

/// The last row, from `y` on, up to which a rectangle reaches all rows or none.
fn last_alike(r: &Rect, y: u16) -> u16
    ensures from { y ≤ result }
    ensures alike { (v : ℕ) → y ≤ v → v ≤ result
        → is_within r.now.y0 r.now.y1 (pos v) ≡ is_within r.now.y0 r.now.y1 (pos y) }
{
    let row = i32::from(y);
    if row < r.y0 {
        row_number(r.y0 - 1)
    } else if row <= r.y1 {
        row_number(r.y1)
    } else {
        u16::MAX
    }
}

/// The columns of the area on the row `y` that no hole has, and on the rows below up to which the
/// holes are the same.
pub fn plan_row(area: &Rect, holes: &[Hole], y: u16) -> RowPlan
    requires { length holes.now ≤ 255 }
    ensures from { y ≤ result.last }
    ensures columns { IsPlanFrom y area.now holes.now result }
{
    let mut spans = RowSpans::whole(area.x0, area.x1);
    let mut last = u16::MAX;
    for hole in holes {
        if has_row(&hole.clip, y) {
            cut_hole(&mut spans, hole);
        }
        last = last.min(last_alike(&hole.clip, y));
    }
    RowPlan { spans, last }
}

/// Gives the columns of the spans a colour.
fn fill_spans(spans: &[Span], y: u16, colour: Colour, target: &mut Frame)
    requires shape { HasShape target.old.picture }
    requires row { y < target.old.picture.height }
    ensures { target.new.picture
        ≡ row_mapped target.old.picture y (λ u. in_spans spans.now (pos u)) (λ u old. colour) }
{
    let width = target.width();
    for span in spans {
        if let Some(run) = run_of_span(*span, y, width) {
            fill_run(run, colour, target);
        }
    }
}

/// Paints windows on the row `y` inside the spans, from the first to the last; over black, where
/// the row is bare, and else over what is there.
pub fn paint_row(
    stack: &[Win],
    layers: &[Layer],
    bare: bool,
    spans: &[Span],
    y: u16,
    assets: &Assets,
    target: &mut Frame,
)
    requires assets { IsSound assets.now }
    requires windows { AllByRecursion (IsPaintable assets.now) stack.now }
    requires layers { AllByRecursion
        (IsLayer (screen_with target.old.picture.width target.old.picture.height) stack.now)
        layers.now }
    requires shape { HasShape target.old.picture }
    requires row { y < target.old.picture.height }
    ensures { target.new.picture
        ≡ row_mapped target.old.picture y (λ u. in_spans spans.now (pos u))
        (λ u old. let looks = looks_of assets.now
        (screen_with target.old.picture.width target.old.picture.height) stack.now in
        let p = point_at (pos u) (pos y) in painted_over looks p (if bare then 0 else old)
        (windows_at looks (windows_in stack.now layers.now) p)) }
{
    if bare {
        fill_spans(spans, y, Colour::default(), target);
    }
    paint_layers(stack, layers, spans, y, assets, target);
}

/// Adds the tiles in which the run's points lie.
fn add_run(run: Run, tiles: &mut Tiles)
    requires some { run.left ≤ run.right }
    requires within { (run.right < 1024) × (run.y < 768) }
    ensures { (c r : ℕ)
        → has_tile tiles.new c r
        ≡ (has_tile tiles.old c r || is_in_run (run.y / 16) (run.left / 16) (run.right / 16) c r) }
{
    let row = run.y / TILE_SIDE;
    let first = run.left / TILE_SIDE;
    let last = run.right / TILE_SIDE;
    tiles.add_run(row as u8, first as u8, last as u8);
}

/// Adds the tiles that hold a point of the row `y` inside the spans.
pub fn add_tiles(spans: &[Span], y: u16, width: u16, tiles: &mut Tiles)
    requires width { width ≤ 1024 }
    requires row { y < 768 }
    ensures { AddsTiles width y (λ u. in_spans spans.now (pos u)) tiles.old tiles.new }
{
    for span in spans {
        if let Some(run) = run_of_span(*span, y, width) {
            add_run(run, tiles);
        }
    }
}
