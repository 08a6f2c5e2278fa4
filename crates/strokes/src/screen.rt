//! Strokes on the screen.

ghost use Rattle.std.specs.Prelude.{◌≡◌, ◌<◌, ◌≤◌, pos, length};
ghost use Rattle.std.specs.List.{AllByRecursion};
ghost use Rattle.gfx_base.specs.Rects.{point_at};
ghost use Rattle.gfx_base.specs.TileSets.{AreTilesOf};
ghost use Rattle.paint_ops.specs.Soundness.{IsSound, IsOperation};
ghost use Rattle.scene.specs.Looks.{IsPaintable, screen_with, looks_of};
ghost use Rattle.scene.specs.Places.{AreSingle};
ghost use Rattle.paint_ops.specs.Rows.{IsOrigin};
ghost use Rattle.exec_paint.specs.Areas.{IsOn};
ghost use Rattle.strokes.specs.Strokes.{operation_of, colour_of_stroke, puts_down, stroked};
ghost use Rattle.strokes.specs.Parts.{bounds_of, LiesWithin, is_inked, IsShortPoint};

use crate::bounds::bounds;
use crate::drawing::draw_stroke;
use crate::edges::{edge_tiles, free_tiles};
use crate::lines::line_tiles;
use crate::points::drawn_tiles;
use crate::shape::Shape;
use crate::visible::{Holes, Part, visible_part};
use context::Context;
use exec_paint::Hole;
use frame::Frame;
use gfx_base::{Point, Rect, Tiles};
use paint_ops::Assets;
use scene::Win;

/// The point with these coordinates.
fn place(x: i16, y: i16) -> Point
    ensures value { result ≡ point_at x y }
    ensures short { IsShortPoint result }
{
    Point {
        x: i32::from(x),
        y: i32::from(y),
    }
}

/// The tiles that hold a free point of the area, which lies in the stroke's bounds, on which a
/// stroke from the corner puts a colour.
fn stroke_tiles(
    context: &Context,
    shape: &Shape,
    corner: Point,
    area: &Rect,
    holes: &[Hole],
    assets: &Assets,
    width: u16,
    height: u16,
) -> Tiles
    requires stroke { IsOperation assets.now (operation_of context.now shape.now) }
    requires corner { IsOrigin corner.x × IsOrigin corner.y }
    requires sides { (width ≤ 1024) × (height ≤ 768) }
    requires area { IsOn width height area.now }
    requires inside { LiesWithin area.now corner (bounds_of assets.now context.now shape.now) }
    requires few { length holes.now ≤ 255 }
    ensures { AreTilesOf width height
        (is_inked assets.now context.now shape.now corner area.now holes.now) result }
{
    match *shape {
        Shape::Fill(..) => free_tiles(area, holes, width, height),
        Shape::Frame(..) => {
            let rect = bounds(context, shape, assets).shift(corner.x, corner.y);
            edge_tiles(area, &rect, holes, width, height)
        }
        Shape::Line(x0, y0, x1, y1) => line_tiles(
            place(x0, y0),
            place(x1, y1),
            corner,
            area,
            holes,
            width,
            height,
        ),
        Shape::Text(..) if !context.trans_text => free_tiles(area, holes, width, height),
        _ => drawn_tiles(context, shape, corner, area, holes, assets, width, height),
    }
}

/// Draws a shape with the context in the window at `i`, whichever the context selects: its
/// coordinates are counted from the window's upper left corner, and only points that the window
/// sees change. The answer has just the tiles that hold a point that was put down. The target has
/// the screen's sides; there are at most 256 windows, each with sides of at most 4,096 points and
/// with a class that exists, and no handle stands twice. The assets have what the shape names, and
/// for a text the context's font. No memory is taken.
///
/// What it costs: a look for the window's corner, and where the shape's bounds meet the window's
/// clip a pass over the windows above. Then, for each row of that part, what the shape has there,
/// and for a bitmap, and a text that leaves the points behind it as they are, a look at each of its
/// points.
pub fn on_screen(
    stack: &[Win],
    i: usize,
    context: &Context,
    shape: &Shape,
    assets: &Assets,
    target: &mut Frame,
) -> Tiles
    requires assets { IsSound assets.now }
    requires few { length stack.now ≤ 256 }
    requires windows { AllByRecursion (IsPaintable assets.now) stack.now }
    requires single { AreSingle stack.now }
    requires place { i < length stack.now }
    requires shape { IsOperation assets.now (operation_of context.now shape.now) }
    ensures picture { target.new.picture
        ≡ stroked
        (looks_of assets.now
        (screen_with target.old.picture.width target.old.picture.height) stack.now) stack.now i
        (colour_of_stroke assets.now context.now shape.now) target.old.picture }
    ensures tiles { AreTilesOf target.old.picture.width target.old.picture.height
        (λ x y. puts_down
        (looks_of assets.now
        (screen_with target.old.picture.width target.old.picture.height) stack.now) stack.now i
        (colour_of_stroke assets.now context.now shape.now) (point_at (pos x) (pos y))) result }
{
    let (width, height) = (target.width(), target.height());
    let bounds = bounds(context, shape, assets);
    let mut holes = Holes::new();
    let Some(part) = visible_part(stack, i, &bounds, width, height, assets, &mut holes) else {
        return Tiles::empty();
    };
    let Part { corner, area } = part;
    let holes = holes.as_slice();
    draw_stroke(context, shape, corner, &area, holes, assets, target);
    stroke_tiles(context, shape, corner, &area, holes, assets, width, height)
}
