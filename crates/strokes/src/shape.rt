ghost use Rattle.std.specs.Prelude.{◌≡◌};
ghost use Rattle.strokes.specs.Strokes.{plain, operation_of};

use context::Context;
use gfx_base::{Base, Num};
use paint_ops::Op;

/// What a stroke draws. Coordinates are counted in points from the upper left corner of the window
/// or the device that is drawn on. Both ends of a range belong to it, and a range whose last number
/// is below its first has no point.
#[derive(Clone, Copy, Debug, PartialEq, Eq)]
pub enum Shape {
    /// All points of the rectangle x0 y0 x1 y1.
    Fill(i16, i16, i16, i16),
    /// The points of that rectangle with x0 or x1 as x, or y0 or y1 as y.
    Frame(i16, i16, i16, i16),
    /// The straight line from x0 y0 to x1 y1, each point the nearest one to the true line.
    Line(i16, i16, i16, i16),
    /// The points of the bitmap of this number that have a colour, with its upper left point at x
    /// y.
    Bitmap(u8, i16, i16),
    /// The set points of a string's glyphs, with the first glyph's upper left point at x y, and the
    /// string's number. Unless the text leaves them as they are, the other points of the glyphs'
    /// cells too, in the colour behind text.
    Text(i16, i16, u8),
}

/// The coordinate that is this number.
fn plain(z: i16) -> Num
    ensures { result ≡ plain z }
{
    Num {
        base: Base::Zero,
        plus: z,
    }
}

impl Shape {
    /// The operation that covers the same points, in the context's colour and font.
    pub(crate) fn operation(&self, context: &Context) -> Op
        ensures { result ≡ operation_of context.now self.now }
    {
        match *self {
            Shape::Fill(x0, y0, x1, y1) => {
                Op::Fill(plain(x0), plain(y0), plain(x1), plain(y1), context.colour)
            }
            Shape::Frame(x0, y0, x1, y1) => {
                Op::Frame(plain(x0), plain(y0), plain(x1), plain(y1), context.colour)
            }
            Shape::Line(x0, y0, x1, y1) => {
                Op::Line(plain(x0), plain(y0), plain(x1), plain(y1), context.colour)
            }
            Shape::Bitmap(bitmap, x, y) => Op::Bitmap(bitmap, plain(x), plain(y)),
            Shape::Text(x, y, string) => {
                Op::Text(context.font, plain(x), plain(y), context.colour, string)
            }
        }
    }
}
