ghost use Rattle.std.specs.Prelude.{◌≡◌, pos, neg_ℤ, ◌≤ℤ◌};
ghost use Rattle.gfx_base.specs.Range.{IsNear};
ghost use Rattle.gfx_base.specs.Nums.{IsBase, IsNum};
ghost use Rattle.paint_ops.specs.Operations.{base_of, number_of, point_of_numbers, rect_of};

use gfx_base::{Base, Num, Point, Rect};

/// A window as its operations see it: its values, its size in points, and where its upper left
/// corner lies on the screen.
#[derive(Clone, Copy)]
pub struct Pane<'v> {
    pub values: &'v [i16; 16],
    pub width: u16,
    pub height: u16,
    pub origin: Point,
}

impl<'v> Pane<'v> {
    ghost use Rattle.paint_ops.specs.Panes.{inputs_of_pane, IsPane, IsCoordinate, point_on_screen, rect_on_screen};

    fn base(&self, base: Base) -> i32
        requires pane { IsPane self.now }
        requires base { IsBase base }
        ensures value { result ≡ base_of (inputs_of_pane self.now) base }
        ensures range { (neg_ℤ (pos 32768) ≤ℤ result) × (result ≤ℤ pos 32767) }
    {
        match base {
            Base::Zero => 0,
            Base::Width => i32::from(self.width),
            Base::Height => i32::from(self.height),
            Base::Value(i) => i32::from(self.values[usize::from(i)]),
        }
    }

    /// The exact sum of base and offset, from −65,536 to 65,535.
    pub fn number(&self, num: Num) -> i32
        requires pane { IsPane self.now }
        requires num { IsNum num }
        ensures value { result ≡ number_of (inputs_of_pane self.now) num }
        ensures range { IsCoordinate result }
    {
        self.base(num.base) + i32::from(num.plus)
    }

    /// A point of the window.
    pub fn place(&self, x: Num, y: Num) -> Point
        requires pane { IsPane self.now }
        requires nums { IsNum x × IsNum y }
        ensures value { result ≡ point_of_numbers (inputs_of_pane self.now) x y }
        ensures range { IsCoordinate result.x × IsCoordinate result.y }
    {
        Point {
            x: self.number(x),
            y: self.number(y),
        }
    }

    /// The same point on the screen.
    pub fn corner(&self, x: Num, y: Num) -> Point
        requires pane { IsPane self.now }
        requires nums { IsNum x × IsNum y }
        ensures value { result ≡ point_on_screen self.now.origin
            (point_of_numbers (inputs_of_pane self.now) x y) }
        ensures range { IsNear result.x × IsNear result.y }
    {
        Point {
            x: self.origin.x + self.number(x),
            y: self.origin.y + self.number(y),
        }
    }

    /// A rectangle of the window on the screen.
    pub fn rect(&self, x0: Num, y0: Num, x1: Num, y1: Num) -> Rect
        requires pane { IsPane self.now }
        requires nums { IsNum x0 × IsNum y0 × IsNum x1 × IsNum y1 }
        ensures { result ≡ rect_on_screen self.now.origin
            (rect_of (inputs_of_pane self.now) x0 y0 x1 y1) }
    {
        Rect {
            x0: self.origin.x + self.number(x0),
            y0: self.origin.y + self.number(y0),
            x1: self.origin.x + self.number(x1),
            y1: self.origin.y + self.number(y1),
        }
    }
}
