//! The tiles of areas and of frames' edges.

ghost use Rattle.std.specs.Prelude.{◌≡◌, ◌≤◌, ◌&&◌, pos, length, true};
ghost use Rattle.gfx_base.specs.declared.point.Point.{Point as Place};
ghost use Rattle.gfx_base.specs.Rects.{has, point_at};
ghost use Rattle.gfx_base.specs.TileSets.{AreTilesOf};
ghost use Rattle.paint_ops.specs.Operations.{is_on_edge};
ghost use Rattle.exec_paint.specs.Areas.{IsOn};
ghost use Rattle.strokes.specs.Parts.{is_free};

use exec_paint::{Hole, add_tiles, plan_row, unsigned};
use gfx_base::{Rect, Tiles};

/// The tiles that hold a free point of the area, on a screen of these sides.
pub fn free_tiles(area: &Rect, holes: &[Hole], width: u16, height: u16) -> Tiles
    requires width { width ≤ 1024 }
    requires height { height ≤ 768 }
    requires area { IsOn width height area.now }
    requires few { length holes.now ≤ 255 }
    ensures { AreTilesOf width height
        (λ x y. is_free area.now holes.now (point_at (pos x) (pos y))) result }
{
    let mut tiles = Tiles::empty();
    let top = unsigned(area.y0);
    let mut plan = plan_row(area, holes, top);
    for y in top..unsigned(area.y1) + 1 {
        if plan.last < y {
            plan = plan_row(area, holes, y);
        }
        add_tiles(plan.spans.spans(), y, width, &mut tiles);
    }
    tiles
}

/// The tiles that hold a free point of both rectangles.
fn common_tiles(area: &Rect, part: &Rect, holes: &[Hole], width: u16, height: u16) -> Tiles
    requires width { width ≤ 1024 }
    requires height { height ≤ 768 }
    requires area { IsOn width height area.now }
    requires few { length holes.now ≤ 255 }
    ensures { AreTilesOf width height
        (λ x y. has part.now (point_at (pos x) (pos y))
        && is_free area.now holes.now (point_at (pos x) (pos y))) result }
{
    let both = area.meet(part);
    if both.is_empty() {
        return Tiles::empty();
    }
    free_tiles(&both, holes, width, height)
}

/// The tiles that hold a free point of the area on the edge of a rectangle that has the area.
pub fn edge_tiles(area: &Rect, rect: &Rect, holes: &[Hole], width: u16, height: u16) -> Tiles
    requires width { width ≤ 1024 }
    requires height { height ≤ 768 }
    requires area { IsOn width height area.now }
    requires inside { (p : Place) → has area.now p ≡ true → has rect.now p ≡ true }
    requires few { length holes.now ≤ 255 }
    ensures { AreTilesOf width height
        (λ x y. is_on_edge rect.now (point_at (pos x) (pos y))
        && is_free area.now holes.now (point_at (pos x) (pos y))) result }
{
    let Rect { x0, y0, x1, y1 } = *rect;
    let mut tiles = common_tiles(area, &Rect { x0, y0, x1, y1: y0 }, holes, width, height);
    let low = common_tiles(area, &Rect { x0, y0: y1, x1, y1 }, holes, width, height);
    let left = common_tiles(area, &Rect { x0, y0, x1: x0, y1 }, holes, width, height);
    let right = common_tiles(area, &Rect { x0: x1, y0, x1, y1 }, holes, width, height);
    tiles.join(&low);
    tiles.join(&left);
    tiles.join(&right);
    tiles
}
