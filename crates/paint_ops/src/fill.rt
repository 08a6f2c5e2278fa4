//! Fills and frames.

ghost use Rattle.std.specs.Prelude.{◌≡◌, pos, ◌&&◌, ◌||◌};
ghost use Rattle.std.specs.Ordering.{int_eq};
ghost use Rattle.gfx_base.specs.Range.{is_within};
ghost use Rattle.gfx_base.specs.Rects.{has, point_at};
ghost use Rattle.paint_ops.specs.Operations.{is_on_edge, on_points};
ghost use Rattle.paint_ops.specs.Rows.{row_written};
ghost use Rattle.paint_ops.specs.Strips.{FitsIn, in_strip};

use crate::strip::Strip;
use frame::Frame;
use gfx_base::{Colour, Rect};

/// Fills what the columns from x0 to x1 have in a strip.
fn fill_columns(x0: i32, x1: i32, strip: Strip, colour: Colour, target: &mut Frame)
    requires strip { FitsIn target.old strip }
    ensures { target.new ≡ row_written target.old strip.y (in_strip strip)
        (λ u. on_points (is_within x0 x1 (pos u)) colour) }
{
    if let Some(part) = strip.cut(x0, x1) {
        target.fill_span(part.y, part.left, part.right, colour);
    }
}

/// Fills what a rectangle of the screen has in a strip.
pub fn fill_rect(rect: &Rect, strip: Strip, colour: Colour, target: &mut Frame)
    requires strip { FitsIn target.old strip }
    ensures { target.new ≡ row_written target.old strip.y (in_strip strip)
        (λ u. on_points (has rect.now (point_at (pos u) (pos strip.y))) colour) }
{
    let y = i32::from(strip.y);
    if rect.y0 <= y && y <= rect.y1 {
        fill_columns(rect.x0, rect.x1, strip, colour, target);
    }
}

/// Draws what a rectangle's left and right edges have in a strip.
fn draw_sides(rect: &Rect, strip: Strip, colour: Colour, target: &mut Frame)
    requires strip { FitsIn target.old strip }
    ensures { target.new ≡ row_written target.old strip.y (in_strip strip)
        (λ u. on_points (has rect.now (point_at (pos u) (pos strip.y))
        && (int_eq (pos u) rect.now.x0 || int_eq (pos u) rect.now.x1)) colour) }
{
    if rect.x0 < rect.x1 {
        let left = Rect {
            x0: rect.x0,
            y0: rect.y0,
            x1: rect.x0,
            y1: rect.y1,
        };
        let right = Rect {
            x0: rect.x1,
            y0: rect.y0,
            x1: rect.x1,
            y1: rect.y1,
        };
        fill_rect(&left, strip, colour, target);
        fill_rect(&right, strip, colour, target);
    } else {
        fill_rect(rect, strip, colour, target);
    }
}

/// Draws what the edge of a rectangle of the screen has in a strip.
pub fn draw_edge(rect: &Rect, strip: Strip, colour: Colour, target: &mut Frame)
    requires strip { FitsIn target.old strip }
    ensures { target.new ≡ row_written target.old strip.y (in_strip strip)
        (λ u. on_points (is_on_edge rect.now (point_at (pos u) (pos strip.y))) colour) }
{
    let y = i32::from(strip.y);
    if y == rect.y0 || y == rect.y1 {
        fill_rect(rect, strip, colour, target);
    } else {
        draw_sides(rect, strip, colour, target);
    }
}
