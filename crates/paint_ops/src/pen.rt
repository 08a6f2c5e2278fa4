//! Lines, put point by point on one row.

ghost use Rattle.std.specs.Prelude.{◌≡◌, pos};
ghost use Rattle.gfx_base.specs.Rects.{point_at};
ghost use Rattle.line_ink.specs.Lines.{IsInReach, is_on_line};
ghost use Rattle.paint_ops.specs.Operations.{on_points, seen_from};
ghost use Rattle.paint_ops.specs.Rows.{IsOrigin, row_written};
ghost use Rattle.paint_ops.specs.Strips.{FitsIn, in_strip};
ghost use Rattle.paint_ops.specs.Pens.{IsReady, after_point};

use crate::strip::Strip;
use frame::Frame;
use gfx_base::{Colour, Point, Rect};
use line_ink::{Plot, walk};

/// Puts points on one row of a frame. Its points are counted from `origin`, and lie on that row.
#[derive(Drop)]
struct Pen<'f> {
    target: &'f mut Frame,
    origin: i32,
    y: u16,
    colour: Colour,
}

impl<'f> Plot for Pen<'f> {
    type State = Pen<'f>;

    ghost stands_for = { λ pen. pen };

    ghost may_put = { λ pen p. IsReady pen.target.now.picture pen.origin pen.y p };

    ghost after = { λ pen p. record pen {
      target = record pen.target { now = after_point pen.target.now pen.origin pen.y pen.colour p };
    } };

    ghost stays = { λ pen p q h. record {
      row = h.row;
      not_too_wide = h.not_too_wide;
      not_left = h.not_left;
      not_right = h.not_right;
    } };

    fn put(&mut self, p: Point) {
        self.target
            .put((self.origin + p.x) as u16, self.y, self.colour);
    }
}

/// Draws what a line has in a strip. Its ends are counted from the origin.
pub fn draw_line(
    a: Point,
    b: Point,
    origin: Point,
    strip: Strip,
    colour: Colour,
    target: &mut Frame,
)
    requires ends { IsInReach a.x × IsInReach a.y × IsInReach b.x × IsInReach b.y }
    requires origin { IsOrigin origin.x × IsOrigin origin.y }
    requires strip { FitsIn target.old strip }
    ensures { target.new ≡ row_written target.old strip.y (in_strip strip)
        (λ u. on_points (is_on_line a b
        (seen_from origin (point_at (pos u) (pos strip.y)))) colour) }
{
    let y = i32::from(strip.y) - origin.y;
    let clip = Rect {
        x0: i32::from(strip.left) - origin.x,
        y0: y,
        x1: i32::from(strip.right) - origin.x,
        y1: y,
    };
    let mut pen = Pen {
        target,
        origin: origin.x,
        y: strip.y,
        colour,
    };
    walk(a, b, &clip, &mut pen);
}
