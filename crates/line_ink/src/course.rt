//! A line as it is walked: step by step along its longer axis, with a running remainder.

ghost use Rattle.std.specs.Prelude.{◌≡◌, ◌↔◌, ℕ, ◌+◌, ◌-◌, ◌*◌, ◌<◌, ◌≤◌, pos, ◌+ℤ◌, ◌<ℤ◌, ◌≤ℤ◌, neg_ℤ, ◌^◌, IsTrue, true, false, map, fold};
ghost use Rattle.std.specs.List.{range_with_len};
ghost use Rattle.gfx_base.specs.declared.point.Point.{Point};
ghost use Rattle.gfx_base.specs.Range.{is_within};
ghost use Rattle.gfx_base.specs.Rects.{has};
ghost use Rattle.line_ink.specs.Lines.{IsInReach, flipped, is_same, is_wide, points_of_line};
ghost use Rattle.line_ink.specs.Courses.{IsCourse, course_from, course_between, half, progress, offset, IsAt, across, turned_rect, place_at, place, points_of_course};

use crate::plot::Plot;
use gfx_base::{Point, Rect};

/// A line of at least two points. Its axis is the horizontal one, and the vertical one where it is
/// higher than wide: then its points have x and y exchanged here. Steps are counted along the axis
/// from the left end, or the upper one.
#[derive(Clone, Copy)]
pub struct Course {
    /// Whether x and y are exchanged.
    is_steep: bool,
    /// The first end.
    first: Point,
    /// How many steps there are to the last end: from 1 to 262,144.
    steps: u32,
    /// How far apart the ends are across the axis: at most `steps`.
    rise: u32,
    /// Whether the coordinate across the axis descends.
    descends: bool,
}

fn flipped(p: Point) -> Point
    ensures { result ≡ flipped p }
{
    Point { x: p.y, y: p.x }
}

impl Course {
    /// The line between two points that differ.
    pub fn new(a: Point, b: Point) -> Course
        requires ends { IsInReach a.x × IsInReach a.y × IsInReach b.x × IsInReach b.y }
        requires differ { is_same a b ≡ false }
        ensures course { IsCourse result }
        ensures points { points_of_course result ≡ points_of_line a b }
    {
        if b.y.abs_diff(a.y) <= b.x.abs_diff(a.x) {
            Course::between(a, b, false)
        } else {
            Course::between(flipped(a), flipped(b), true)
        }
    }

    fn between(a: Point, b: Point, is_steep: bool) -> Course
        ensures { result ≡ course_between is_steep a b }
    {
        if a.x <= b.x {
            Course::from_left(a, b, is_steep)
        } else {
            Course::from_left(b, a, is_steep)
        }
    }

    fn from_left(first: Point, last: Point, is_steep: bool) -> Course
        ensures { result ≡ course_from is_steep first last }
    {
        Course {
            is_steep,
            first,
            steps: last.x.abs_diff(first.x),
            rise: last.y.abs_diff(first.y),
            descends: last.y < first.y,
        }
    }

    /// The steps whose points lie in the clip: from the first number to before the second.
    pub fn window(&self, clip: &Rect) -> (u32, u32)
        requires { IsCourse self.now }
        ensures most { result.1 ≤ self.now.steps + 1 }
        ensures steps { (i : ℕ) → i ≤ self.now.steps → IsTrue (has clip.now (place self.now i))
            ↔ ((result.0 ≤ i) × (i < result.1)) }
    {
        let clip = self.turned(clip);
        let (near, far) = self.offsets(clip.y0, clip.y1);
        let left = self.steps_before(i64::from(clip.x0));
        let right = self.steps_before(i64::from(clip.x1) + 1);
        let from = left.max(self.steps_below(near));
        let to = right.min(self.steps_below(far + 1));
        (from, to)
    }

    /// The rectangle as the line's points are: with x and y exchanged where theirs are.
    fn turned(&self, r: &Rect) -> Rect
        ensures { result ≡ turned_rect self.now.is_steep r.now }
    {
        if self.is_steep {
            Rect {
                x0: r.y0,
                y0: r.x0,
                x1: r.y1,
                y1: r.x1,
            }
        } else {
            *r
        }
    }

    /// Puts the points from one step to before another.
    pub fn put_steps<P: Plot>(&self, from: u32, to: u32, out: &mut P)
        requires course { IsCourse self.now }
        requires most { to ≤ self.now.steps + 1 }
        requires may_put { (i : ℕ) → from ≤ i → i < to
            → P.may_put (P.stands_for out.old) (place self.now i) }
        ensures { P.stands_for out.new ≡ fold P.after (P.stands_for out.old)
            (map (place self.now) (range_with_len from (to - from))) }
    {
        if to <= from {
            return;
        }
        let (mut offset, mut rest) = self.start(from);
        for step in from..to {
            let p = self.point(step, offset);
            out.put(p);
            let (quotient, remainder) = self.next(offset, rest);
            offset = quotient;
            rest = remainder;
        }
    }

    /// How many of the steps come before the coordinate along the axis.
    fn steps_before(&self, x: i64) -> u32
        requires course { IsCourse self.now }
        requires coordinate { (neg_ℤ (pos (2 ^ 32)) ≤ℤ x) × (x ≤ℤ pos (2 ^ 32)) }
        ensures most { result ≤ self.now.steps + 1 }
        ensures steps { (i : ℕ) → i ≤ self.now.steps → (i < result)
            ↔ ((self.now.first.x +ℤ pos i) <ℤ x) }
    {
        let most = i64::from(self.steps) + 1;
        (x - i64::from(self.first.x)).clamp(0, most) as u32
    }

    /// From which offset to which the coordinate across the axis lies from y0 to y1.
    fn offsets(&self, y0: i32, y1: i32) -> (i64, i64)
        requires { IsCourse self.now }
        ensures most { result.1 ≤ℤ pos (2 ^ 32) }
        ensures offsets { (k : ℕ) → IsTrue (is_within y0 y1 (across self.now k))
            ↔ ((result.0 ≤ℤ pos k) × (pos k ≤ℤ result.1)) }
    {
        let first = i64::from(self.first.y);
        if self.descends {
            (first - i64::from(y1), first - i64::from(y0))
        } else {
            (i64::from(y0) - first, i64::from(y1) - first)
        }
    }

    /// At how many of the steps the offset is below k.
    fn steps_below(&self, k: i64) -> u32
        requires { IsCourse self.now }
        ensures most { result ≤ self.now.steps + 1 }
        ensures steps { (i : ℕ) → i ≤ self.now.steps → (i < result)
            ↔ (pos (offset self.now i) <ℤ k) }
    {
        if k <= 0 {
            return 0;
        }
        if i64::from(self.rise) < k {
            return self.steps + 1;
        }
        self.first_step(k as u32)
    }

    /// The first step at which the offset is k, which is from 1 to the rise.
    fn first_step(&self, k: u32) -> u32
        requires course { IsCourse self.now }
        requires offset { (0 < k) × (k ≤ self.now.rise) }
        ensures most { result ≤ self.now.steps }
        ensures steps { (i : ℕ) → (i < result) ↔ (offset self.now i < k) }
    {
        let missing = 2 * u64::from(self.steps) * u64::from(k) - u64::from(self.half());
        missing.div_ceil(2 * u64::from(self.rise)) as u32
    }

    /// What is added before the division, so that the quotient is the nearest.
    fn half(&self) -> u32
        requires { IsCourse self.now }
        ensures { result ≡ half self.now }
    {
        if self.descends {
            self.steps - 1
        } else {
            self.steps
        }
    }

    /// The offset at a step, and the remainder of its division.
    fn start(&self, step: u32) -> (u32, u64)
        requires course { IsCourse self.now }
        requires most { step ≤ self.now.steps }
        ensures { IsAt self.now step result.0 result.1 }
    {
        let divisor = 2 * u64::from(self.steps);
        let progress = 2 * u64::from(self.rise) * u64::from(step) + u64::from(self.half());
        ((progress / divisor) as u32, progress % divisor)
    }

    /// The same one step later.
    fn next(&self, offset: u32, rest: u64) -> (u32, u64)
        requires course { IsCourse self.now }
        requires most { offset ≤ self.now.steps }
        requires rest { rest < 2 * self.now.steps }
        ensures { (i : ℕ) → IsAt self.now i offset rest → IsAt self.now (i + 1) result.0 result.1 }
    {
        let divisor = 2 * u64::from(self.steps);
        let rest = rest + 2 * u64::from(self.rise);
        if rest < divisor {
            (offset, rest)
        } else {
            (offset + 1, rest - divisor)
        }
    }

    /// The point at a step with this offset.
    fn point(&self, step: u32, offset: u32) -> Point
        requires course { IsCourse self.now }
        requires most { (step ≤ self.now.steps) × (offset ≤ self.now.steps) }
        ensures { result ≡ place_at self.now step offset }
    {
        let x = self.first.x + step as i32;
        let y = if self.descends {
            self.first.y - offset as i32
        } else {
            self.first.y + offset as i32
        };
        let p = Point { x, y };
        if self.is_steep { flipped(p) } else { p }
    }
}
