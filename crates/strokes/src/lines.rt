//! The tiles of lines, point by point along the axis on which they are longer.

ghost use Rattle.std.specs.Prelude.{◌≡◌, ◌≢◌, ◌≤◌, ◌<◌, ◌+◌, ◌*◌, ◌/◌, ◌&&◌, ℕ, pos, ◌+ℤ◌, ◌-ℤ◌, ◌<ℤ◌, ◌≤ℤ◌, true, false, if◌then◌else◌};
ghost use Rattle.gfx_base.specs.Range.{IsNear};
ghost use Rattle.gfx_base.specs.Rects.{has, point_at};
ghost use Rattle.gfx_base.specs.TileSets.{AreTilesOf};
ghost use Rattle.line_ink.specs.Lines.{flipped, left_of, right_of, y_at, is_same, is_on_wide, is_on_line};
ghost use Rattle.paint_ops.specs.Operations.{seen_from};
ghost use Rattle.paint_ops.specs.Panes.{point_on_screen};
ghost use Rattle.paint_ops.specs.Rows.{IsOrigin};
ghost use Rattle.exec_paint.specs.Areas.{IsOn};
ghost use Rattle.strokes.specs.Parts.{is_free, AddsTilesOf, IsShort, IsShortPoint, turned};

use crate::points::add_free;
use exec_paint::Hole;
use gfx_base::{Point, Rect, Tiles};

/// How far a line that rises so much in so many steps has gone up at a step, rounded to the nearest
/// by what is added before the division.
fn offset(rise: u32, step: u32, half: u32, steps: u32) -> u32
    requires steps { (1 ≤ steps) × (steps ≤ 65535) }
    requires rise { rise ≤ 65535 }
    requires step { step ≤ steps }
    requires half { half ≤ steps }
    ensures value { result ≡ (2 * rise * step + half) / (2 * steps) }
    ensures most { result ≤ rise }
{
    let progress = 2 * u64::from(rise) * u64::from(step) + u64::from(half);
    (progress / (2 * u64::from(steps))) as u32
}

/// The y of the line from l to r at x, where l lies to the left of r.
fn y_at(l: Point, r: Point, x: i32) -> i32
    requires ends { IsShortPoint l × IsShortPoint r }
    requires order { l.x <ℤ r.x }
    requires between { (l.x ≤ℤ x) × (x ≤ℤ r.x) }
    ensures value { result ≡ y_at l r x }
    ensures short { IsShort result }
{
    let steps = r.x.abs_diff(l.x);
    let rise = r.y.abs_diff(l.y);
    let step = x.abs_diff(l.x);
    if r.y < l.y {
        l.y - offset(rise, step, steps - 1, steps) as i32
    } else {
        l.y + offset(rise, step, steps, steps) as i32
    }
}

fn flipped(p: Point) -> Point
    ensures { result ≡ flipped p }
{
    Point { x: p.y, y: p.x }
}

/// The point of a window on the screen, where x and y are exchanged in a steep line.
fn on_screen(corner: Point, is_steep: bool, p: Point) -> Point
    requires corner { IsOrigin corner.x × IsOrigin corner.y }
    requires point { IsShortPoint p }
    ensures { result ≡ point_on_screen corner (turned is_steep p) }
{
    let p = if is_steep { flipped(p) } else { p };
    Point {
        x: corner.x + p.x,
        y: corner.y + p.y,
    }
}

/// The first and the last column of the area as they are seen from the corner, and for a steep line
/// the first and the last row.
fn reach(corner: Point, is_steep: bool, area: &Rect) -> (i32, i32)
    requires corner { IsOrigin corner.x × IsOrigin corner.y }
    requires near { IsNear area.now.x0 × IsNear area.now.y0 × IsNear area.now.x1
        × IsNear area.now.y1 }
    ensures first { result.0 ≡ (if is_steep then area.now.y0 -ℤ corner.y
        else area.now.x0 -ℤ corner.x) }
    ensures last { result.1 ≡ (if is_steep then area.now.y1 -ℤ corner.y
        else area.now.x1 -ℤ corner.x) }
{
    if is_steep {
        (area.y0 - corner.y, area.y1 - corner.y)
    } else {
        (area.x0 - corner.x, area.x1 - corner.x)
    }
}

/// The tiles that hold a free point of the area on the line from l to r, where l lies to the left
/// of r. In a steep line x and y are exchanged.
fn course_tiles(
    l: Point,
    r: Point,
    is_steep: bool,
    corner: Point,
    area: &Rect,
    holes: &[Hole],
    width: u16,
    height: u16,
) -> Tiles
    requires ends { IsShortPoint l × IsShortPoint r }
    requires order { l.x <ℤ r.x }
    requires corner { IsOrigin corner.x × IsOrigin corner.y }
    requires sides { (width ≤ 1024) × (height ≤ 768) }
    requires area { IsOn width height area.now }
    ensures { AreTilesOf width height
        (λ x y. let p = point_at (pos x) (pos y) in is_free area.now holes.now p
        && is_on_wide l r (turned is_steep (seen_from corner p))) result }
{
    let (first, last) = reach(corner, is_steep, area);
    let mut tiles = Tiles::empty();
    for x in l.x.max(first)..r.x.min(last) + 1 {
        let p = Point {
            x,
            y: y_at(l, r, x),
        };
        add_free(on_screen(corner, is_steep, p), area, holes, &mut tiles);
    }
    tiles
}

/// The same for a line whose ends may stand in either order.
fn ordered_tiles(
    a: Point,
    b: Point,
    is_steep: bool,
    corner: Point,
    area: &Rect,
    holes: &[Hole],
    width: u16,
    height: u16,
) -> Tiles
    requires ends { IsShortPoint a × IsShortPoint b }
    requires apart { a.x ≢ b.x }
    requires corner { IsOrigin corner.x × IsOrigin corner.y }
    requires sides { (width ≤ 1024) × (height ≤ 768) }
    requires area { IsOn width height area.now }
    ensures { AreTilesOf width height
        (λ x y. let p = point_at (pos x) (pos y) in is_free area.now holes.now p
        && is_on_wide (left_of a b) (right_of a b) (turned is_steep (seen_from corner p))) result }
{
    if a.x <= b.x {
        course_tiles(a, b, is_steep, corner, area, holes, width, height)
    } else {
        course_tiles(b, a, is_steep, corner, area, holes, width, height)
    }
}

/// The tile of a point of a window where it is a free point of the area.
fn point_tiles(
    p: Point,
    corner: Point,
    area: &Rect,
    holes: &[Hole],
    width: u16,
    height: u16,
) -> Tiles
    requires point { IsShortPoint p }
    requires corner { IsOrigin corner.x × IsOrigin corner.y }
    requires sides { (width ≤ 1024) × (height ≤ 768) }
    requires area { IsOn width height area.now }
    ensures { AreTilesOf width height
        (λ x y. let q = point_at (pos x) (pos y) in is_free area.now holes.now q
        && is_same (seen_from corner q) p) result }
{
    let mut tiles = Tiles::empty();
    add_free(on_screen(corner, false, p), area, holes, &mut tiles);
    tiles
}

/// The tiles that hold a free point of the area on the line from a to b, told from the corner.
pub fn line_tiles(
    a: Point,
    b: Point,
    corner: Point,
    area: &Rect,
    holes: &[Hole],
    width: u16,
    height: u16,
) -> Tiles
    requires ends { IsShortPoint a × IsShortPoint b }
    requires corner { IsOrigin corner.x × IsOrigin corner.y }
    requires sides { (width ≤ 1024) × (height ≤ 768) }
    requires area { IsOn width height area.now }
    ensures { AreTilesOf width height
        (λ x y. let p = point_at (pos x) (pos y) in is_free area.now holes.now p
        && is_on_line a b (seen_from corner p)) result }
{
    if a == b {
        point_tiles(a, corner, area, holes, width, height)
    } else if b.x.abs_diff(a.x) < b.y.abs_diff(a.y) {
        ordered_tiles(
            flipped(a),
            flipped(b),
            true,
            corner,
            area,
            holes,
            width,
            height,
        )
    } else {
        ordered_tiles(a, b, false, corner, area, holes, width, height)
    }
}
