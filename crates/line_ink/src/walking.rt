ghost use Rattle.std.specs.Prelude.{◌≡◌, true, fold, [], ◌∷◌};
ghost use Rattle.gfx_base.specs.declared.point.Point.{Point};
ghost use Rattle.gfx_base.specs.Rects.{has};
ghost use Rattle.line_ink.specs.Lines.{IsInReach, points_of_line, clipped};

use crate::course::Course;
use crate::plot::Plot;
use gfx_base::{Point, Rect};

/// Puts each point of the line from a to b that lies in the clip, once: from left to right, and
/// where the line is higher than wide from top to bottom, whichever end is a. Both ends belong to
/// the line. The four numbers of the ends lie from −131,072 to 131,072; the clip may be any
/// rectangle, also an empty one. The work is that of the points put.
pub fn walk<P: Plot>(a: Point, b: Point, clip: &Rect, out: &mut P)
    requires ends { IsInReach a.x × IsInReach a.y × IsInReach b.x × IsInReach b.y }
    requires may_put { (p : Point) → has clip.now p ≡ true → P.may_put (P.stands_for out.old) p }
    ensures { P.stands_for out.new
        ≡ fold P.after (P.stands_for out.old) (clipped clip.now (points_of_line a b)) }
{
    if a == b {
        put_inside(a, clip, out);
        return;
    }
    let course = Course::new(a, b);
    let (from, to) = course.window(clip);
    course.put_steps(from, to, out);
}

/// Puts the point where it lies in the clip.
fn put_inside<P: Plot>(p: Point, clip: &Rect, out: &mut P)
    requires { has clip.now p ≡ true → P.may_put (P.stands_for out.old) p }
    ensures { P.stands_for out.new
        ≡ fold P.after (P.stands_for out.old) (clipped clip.now (p ∷ [])) }
{
    if clip.has(p) {
        out.put(p);
    }
}
