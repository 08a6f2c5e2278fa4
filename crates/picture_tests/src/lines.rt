//! Lines.

ghost use Rattle.std.specs.Prelude.{◌≡◌, true};
ghost use Rattle.gfx_base.specs.declared.point.Point.{Point};
ghost use Rattle.line_ink.specs.Lines.{IsInReach};

use gfx_base::{Point, Rect};
use line_ink::{Plot, walk};
use std::alloc::Global;

/// Keeps the points in order.
#[derive(Drop)]
struct Trail {
    points: Vec<Point>,
}

impl Plot for Trail {
    type State = u8;

    ghost stands_for = { λ t. 0 };

    ghost may_put = { λ s p. Unit {0} };

    ghost after = { λ s p. s };

    ghost stays = { λ s p q h. tt };

    fn put(&mut self, p: Point) {
        if self.points.push(p).is_err() {
            self.points.clear();
        }
    }
}

/// The x and y of a point.
type Place = (i32, i32);

/// The corners of a clip: left, top, right and bottom.
type Corners = [i32; 4];

/// A clip that has every point that an end may be.
const ALL: Corners = [-131_072, -131_072, 131_072, 131_072];

fn is_in_reach(z: i32) -> bool
    ensures { result ≡ true → IsInReach z }
{
    -131_072 <= z && z <= 131_072
}

fn is_end(p: Point) -> bool
    ensures { result ≡ true → IsInReach p.x × IsInReach p.y }
{
    is_in_reach(p.x) && is_in_reach(p.y)
}

/// The points that a walk puts in order; none where an end lies out of reach.
fn walked(alloc: Global, a: Place, b: Place, [x0, y0, x1, y1]: Corners) -> Vec<Point> {
    let mut out = Trail {
        points: Vec::new(alloc),
    };
    let (a, b) = (Point { x: a.0, y: a.1 }, Point { x: b.0, y: b.1 });
    if is_end(a) && is_end(b) {
        walk(a, b, &Rect { x0, y0, x1, y1 }, &mut out);
    }
    out.points
}

/// Whether a walk puts just these points in this order.
fn puts(alloc: Global, a: Place, b: Place, clip: Corners, points: &[Place]) -> bool {
    let found = walked(alloc, a, b, clip);
    found.len() == points.len()
        && found
            .iter()
            .zip(points)
            .all(|(p, at)| p.x == at.0 && p.y == at.1)
}

/// The same from either end.
fn puts_both_ways(alloc: Global, [a, b]: [Place; 2], clip: Corners, points: &[Place]) -> bool {
    puts(alloc, a, b, clip, points) && puts(alloc, b, a, clip, points)
}

/// Lines by their ends, with their points in order.
const LINES: [(&str, [Place; 2], &[Place]); 7] = [
    ("flat", [(0, 0), (3, 1)], &[(0, 0), (1, 0), (2, 1), (3, 1)]),
    (
        "upwards",
        [(0, 1), (3, 0)],
        &[(0, 1), (1, 1), (2, 0), (3, 0)],
    ),
    ("a tie", [(0, 0), (2, 1)], &[(0, 0), (1, 1), (2, 1)]),
    ("as wide as high", [(0, 0), (1, 1)], &[(0, 0), (1, 1)]),
    ("upright", [(0, 0), (0, 2)], &[(0, 0), (0, 1), (0, 2)]),
    ("steep", [(1, 0), (0, 2)], &[(1, 0), (1, 1), (0, 2)]),
    ("a point", [(1, 1), (1, 1)], &[(1, 1)]),
];

#[test]
fn points_in_order_from_either_end(rt: HostRuntime) {
    for (name, ends, points) in LINES {
        assert!(rt; puts_both_ways(rt.alloc(), ends, ALL, points), "{name}");
    }
}

/// Clips, with the points of the line from (0, 0) to (3, 1) in them.
const CLIPS: [(&str, Corners, &[Place]); 14] = [
    ("columns", [1, -9, 2, 9], &[(1, 0), (2, 1)]),
    ("left", [2, -9, 9, 9], &[(2, 1), (3, 1)]),
    ("right", [-9, -9, 0, 9], &[(0, 0)]),
    ("above", [-9, 1, 9, 9], &[(2, 1), (3, 1)]),
    ("below", [-9, -9, 9, 0], &[(0, 0), (1, 0)]),
    ("touched at the end", [3, 1, 9, 9], &[(3, 1)]),
    ("touched at the corner", [2, 0, 3, 0], &[]),
    ("missed to the right", [4, 0, 9, 9], &[]),
    ("missed below", [0, 2, 9, 9], &[]),
    ("missed to the left", [-9, -9, -1, 9], &[]),
    ("missed above", [-9, -9, 9, -1], &[]),
    ("empty", [3, 0, 0, 1], &[]),
    (
        "empty at the ends",
        [i32::MAX, i32::MAX, i32::MIN, i32::MIN],
        &[],
    ),
    (
        "all that there is",
        [i32::MIN, i32::MIN, i32::MAX, i32::MAX],
        &[(0, 0), (1, 0), (2, 1), (3, 1)],
    ),
];

#[test]
fn clips_cut_each_side(rt: HostRuntime) {
    for (name, clip, points) in CLIPS {
        assert!(rt;
            puts_both_ways(rt.alloc(), [(0, 0), (3, 1)], clip, points),
            "{name}"
        );
    }
}

/// The least and the greatest coordinate of an end.
const LOW: i32 = -131_072;

const HIGH: i32 = 131_072;

/// Lines from (LOW, LOW) to their ends, clips, and the points in them.
const FAR: [(&str, Place, Corners, &[Place]); 5] = [
    (
        "the middle",
        (HIGH, HIGH),
        [-1, -9, 1, 9],
        &[(-1, -1), (0, 0), (1, 1)],
    ),
    (
        "the end",
        (HIGH, HIGH),
        [HIGH, 0, 200_000, 200_000],
        &[(HIGH, HIGH)],
    ),
    (
        "level",
        (HIGH, -131_071),
        [-1, LOW, 0, -131_071],
        &[(-1, LOW), (0, -131_071)],
    ),
    (
        "level at the start",
        (HIGH, -131_071),
        [LOW, LOW, -131_071, 0],
        &[(LOW, LOW), (-131_071, LOW)],
    ),
    (
        "upright",
        (-131_071, HIGH),
        [LOW, -1, -131_071, 0],
        &[(LOW, -1), (-131_071, 0)],
    ),
];

#[test]
fn ends_as_far_apart_as_may_be(rt: HostRuntime) {
    for (name, end, clip, points) in FAR {
        assert!(rt; puts(rt.alloc(), (LOW, LOW), end, clip, points), "{name}");
    }
}

/// The y at x of the line from l to r, which lies to the right of l: the nearest, and the greater
/// of two that are as near.
fn y_at(l: Place, r: Place, x: i32) -> i32 {
    let (width, height) = (r.0.wrapping_sub(l.0), r.1.wrapping_sub(l.1));
    let along = x.wrapping_sub(l.0).wrapping_mul(2);
    let dividend = height.wrapping_mul(along).wrapping_add(width);
    let quotient = dividend.checked_div_euclid(width.wrapping_mul(2));
    l.1.wrapping_add(quotient.unwrap_or(i32::MAX))
}

fn is_on_wide(a: Place, b: Place, p: Place) -> bool {
    let (l, r) = if a.0 <= b.0 { (a, b) } else { (b, a) };
    l.0 <= p.0 && p.0 <= r.0 && p.1 == y_at(l, r, p.0)
}

/// Whether the point lies on the line, by the formula.
fn is_on_line(a: Place, b: Place, p: Place) -> bool {
    if a == b {
        return p == a;
    }
    if a.1.abs_diff(b.1) <= a.0.abs_diff(b.0) {
        is_on_wide(a, b, p)
    } else {
        is_on_wide((a.1, a.0), (b.1, b.0), (p.1, p.0))
    }
}

/// Whether a walk puts a point of the square once where it lies on the line and in the clip, and
/// else not at all.
fn agrees(alloc: Global, a: Place, b: Place, clip: Corners) -> bool {
    let found = walked(alloc, a, b, clip);
    for x in -4..5 {
        for y in -4..5 {
            let times = found.iter().filter(|q| q.x == x && q.y == y).count();
            let [x0, y0, x1, y1] = clip;
            let inside = Rect { x0, y0, x1, y1 }.has(Point { x, y });
            if times != usize::from(is_on_line(a, b, (x, y)) && inside) {
                return false;
            }
        }
    }
    true
}

/// The same of all lines from a point to those of the square.
fn agrees_from(alloc: Global, from: Place, clip: Corners) -> bool {
    for x in -4..5 {
        for y in -4..5 {
            if !agrees(alloc, from, (x, y), clip) {
                return false;
            }
        }
    }
    true
}

#[test]
fn every_point_of_a_square_by_the_formula(rt: HostRuntime) {
    for (name, from) in [
        ("the middle", (0, 0)),
        ("left", (-4, 1)),
        ("above", (3, -4)),
    ] {
        assert!(rt; agrees_from(rt.alloc(), from, ALL), "from {name}");
        assert!(rt;
            agrees_from(rt.alloc(), from, [-2, -1, 3, 1]),
            "from {name}, clipped"
        );
    }
}
