//! Drawing on the free points of an area, row by row.

ghost use Rattle.std.specs.Prelude.{◌≡◌, ◌≤◌, ◌&&◌, pos, length, true, is_some, unwrap_or};
ghost use Rattle.gfx_base.specs.Rects.{point_at};
ghost use Rattle.frame.specs.Pictures.{HasShape, changed};
ghost use Rattle.paint_ops.specs.Soundness.{IsSound, IsOperation};
ghost use Rattle.paint_ops.specs.Operations.{Inputs};
ghost use Rattle.paint_ops.specs.Rows.{IsOrigin, colour_on_screen};
ghost use Rattle.exec_paint.specs.Areas.{IsOn};
ghost use Rattle.strokes.specs.Strokes.{operation_of};
ghost use Rattle.strokes.specs.Parts.{is_free, bounds_of, LiesWithin, inked};

use crate::shape::Shape;
use context::Context;
use exec_paint::{Hole, plan_row, unsigned};
use frame::Frame;
use gfx_base::{Base, Colour, Num, Point, Rect};
use paint_ops::{Assets, Op, draw};

/// The values of no window, on which no shape depends.
const NO_VALUES: [i16; 16] = [0; 16];

/// The coordinate 0.
const START: Num = Num {
    base: Base::Zero,
    plus: 0,
};

/// The last column of a window.
const LAST_COLUMN: Num = Num {
    base: Base::Width,
    plus: -1,
};

/// The last row of a window.
const LAST_ROW: Num = Num {
    base: Base::Height,
    plus: -1,
};

/// Draws an operation of a window with these values and sides, whose upper left corner lies at
/// `origin`, on the free points of the area.
fn draw_rows(
    op: &Op,
    values: &[i16; 16],
    width: u16,
    height: u16,
    origin: Point,
    area: &Rect,
    holes: &[Hole],
    assets: &Assets,
    target: &mut Frame,
)
    requires assets { IsSound assets.now }
    requires operation { IsOperation assets.now op.now }
    requires sides { (width ≤ 4096) × (height ≤ 4096) }
    requires origin { IsOrigin origin.x × IsOrigin origin.y }
    requires shape { HasShape target.old.picture }
    requires area { IsOn target.old.picture.width target.old.picture.height area.now }
    requires few { length holes.now ≤ 255 }
    ensures { let given : Inputs = record { values = values.now; width = width; height = height } in
        target.new.picture
        ≡ changed target.old.picture
        (λ x y. is_free area.now holes.now (point_at (pos x) (pos y))
        && is_some (colour_on_screen assets.now given op.now origin x y))
        (λ x y. unwrap_or (colour_on_screen assets.now given op.now origin x y) 0) }
{
    let top = unsigned(area.y0);
    let mut plan = plan_row(area, holes, top);
    for y in top..unsigned(area.y1) + 1 {
        if plan.last < y {
            plan = plan_row(area, holes, y);
        }
        draw(
            op,
            values,
            width,
            height,
            origin,
            y,
            plan.spans.spans(),
            assets,
            target,
        );
    }
}

/// Gives the free points of the area a colour.
fn fill_area(area: &Rect, holes: &[Hole], colour: Colour, assets: &Assets, target: &mut Frame)
    requires assets { IsSound assets.now }
    requires shape { HasShape target.old.picture }
    requires area { IsOn target.old.picture.width target.old.picture.height area.now }
    requires few { length holes.now ≤ 255 }
    ensures { target.new.picture
        ≡ changed target.old.picture
        (λ x y. is_free area.now holes.now (point_at (pos x) (pos y))) (λ x y. colour) }
{
    // The frame is at most 1,024 points wide and 768 high, and so is the area.
    let _ = target.width();
    let origin = Point {
        x: area.x0,
        y: area.y0,
    };
    let width = unsigned(area.x1 - area.x0 + 1);
    let height = unsigned(area.y1 - area.y0 + 1);
    let op = Op::Fill(START, START, LAST_COLUMN, LAST_ROW, colour);
    draw_rows(
        &op, &NO_VALUES, width, height, origin, area, holes, assets, target,
    );
}

/// Draws a stroke from the corner on the free points of the area, which lies in its bounds.
pub fn draw_stroke(
    context: &Context,
    shape: &Shape,
    corner: Point,
    area: &Rect,
    holes: &[Hole],
    assets: &Assets,
    target: &mut Frame,
)
    requires assets { IsSound assets.now }
    requires stroke { IsOperation assets.now (operation_of context.now shape.now) }
    requires corner { IsOrigin corner.x × IsOrigin corner.y }
    requires shape { HasShape target.old.picture }
    requires area { IsOn target.old.picture.width target.old.picture.height area.now }
    requires inside { LiesWithin area.now corner (bounds_of assets.now context.now shape.now) }
    requires few { length holes.now ≤ 255 }
    ensures { target.new.picture
        ≡ inked assets.now context.now shape.now corner area.now holes.now target.old.picture }
{
    if let Shape::Text(..) = shape {
        let hides_all = !context.trans_text;
        if hides_all {
            fill_area(area, holes, context.bk, assets, target);
        }
    }
    let op = shape.operation(context);
    draw_rows(&op, &NO_VALUES, 0, 0, corner, area, holes, assets, target);
}
