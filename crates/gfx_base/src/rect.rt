ghost use Rattle.std.specs.Prelude.{◌≡◌, ◌↔◌, ◌&&◌, ◌-ℤ◌, true, false, IsTrue};
ghost use Rattle.gfx_base.specs.Range.{is_within, IsNear};

use crate::point::Point;

/// A rectangle of points, from its upper left corner (x0, y0) to its lower right corner (x1, y1).
/// Both corners belong to it, so it is empty where x1 < x0 or y1 < y0. Every empty rectangle that a
/// call gives is [`NO_POINTS`].
#[derive(Clone, Copy, Debug, PartialEq, Eq)]
pub struct Rect {
    pub x0: i32,
    pub y0: i32,
    pub x1: i32,
    pub y1: i32,
}

/// The empty rectangle that calls give: (0, 0, −1, −1).
pub const NO_POINTS: Rect = Rect {
    x0: 0,
    y0: 0,
    x1: -1,
    y1: -1,
};

#[tactic(auto, unfolding(crate::specs::Range::is_within))]
fn is_within(low: i32, high: i32, z: i32) -> bool
    ensures { result ≡ is_within low high z }
{
    low <= z && z <= high
}

impl Rect {
    ghost use Rattle.gfx_base.specs.declared.point.Point.{Point};
    ghost use Rattle.gfx_base.specs.Rects.{has, is_empty, no_points, canonical, meet, hull, cover, shift, point_at, IsSmallest};

    /// Whether no point lies in the rectangle.
    #[tactic(auto, unfolding(crate::specs::Rects::is_empty))]
    pub fn is_empty(&self) -> bool
        ensures value { result ≡ is_empty self.now }
        ensures points { IsTrue result ↔ ((p : Point) → has self.now p ≡ false) }
    {
        self.x1 < self.x0 || self.y1 < self.y0
    }

    /// Whether the point lies in the rectangle.
    #[tactic(auto, unfolding(crate::specs::Rects::has))]
    pub fn has(&self, p: Point) -> bool
        ensures { result ≡ has self.now p }
    {
        is_within(self.x0, self.x1, p.x) && is_within(self.y0, self.y1, p.y)
    }

    /// The rectangle as calls give it.
    fn canonical(self) -> Rect
        ensures { result ≡ canonical self }
    {
        if self.is_empty() { NO_POINTS } else { self }
    }

    /// The smallest rectangle that has the corners of both.
    fn hull(&self, other: &Rect) -> Rect
        ensures { result ≡ hull self.now other.now }
    {
        Rect {
            x0: self.x0.min(other.x0),
            y0: self.y0.min(other.y0),
            x1: self.x1.max(other.x1),
            y1: self.y1.max(other.y1),
        }
    }

    /// The rectangle of the points that both have.
    pub fn meet(&self, other: &Rect) -> Rect
        ensures value { result ≡ meet self.now other.now }
        ensures points { (p : Point) → has result p ≡ (has self.now p && has other.now p) }
        ensures empty { is_empty result ≡ true → result ≡ no_points }
    {
        let both = Rect {
            x0: self.x0.max(other.x0),
            y0: self.y0.max(other.y0),
            x1: self.x1.min(other.x1),
            y1: self.y1.min(other.y1),
        };
        both.canonical()
    }

    /// The smallest rectangle that has all points of both: where one is empty, the other.
    pub fn cover(&self, other: &Rect) -> Rect
        ensures value { result ≡ cover self.now other.now }
        ensures points { IsSmallest self.now other.now result }
        ensures empty { is_empty result ≡ true → result ≡ no_points }
    {
        if self.is_empty() {
            return other.canonical();
        }
        if other.is_empty() {
            return *self;
        }
        self.hull(other)
    }

    /// The rectangle moved by dx points to the right and by dy points downwards. Its four numbers,
    /// dx and dy each lie from −1,048,576 to 1,048,576.
    pub fn shift(&self, dx: i32, dy: i32) -> Rect
        requires corners { IsNear self.now.x0 × IsNear self.now.y0 × IsNear self.now.x1
            × IsNear self.now.y1 }
        requires by { IsNear dx × IsNear dy }
        ensures value { result ≡ shift self.now dx dy }
        ensures points { (p : Point) → has result p
            ≡ has self.now (point_at (p.x -ℤ dx) (p.y -ℤ dy)) }
        ensures empty { is_empty result ≡ true → result ≡ no_points }
    {
        let moved = Rect {
            x0: self.x0 + dx,
            y0: self.y0 + dy,
            x1: self.x1 + dx,
            y1: self.y1 + dy,
        };
        moved.canonical()
    }
}
