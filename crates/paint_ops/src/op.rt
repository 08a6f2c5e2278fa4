use gfx_base::{Colour, Num};

/// A drawing operation. Its coordinates are local: from the upper left corner of the window. Both
/// ends of a range belong to it, and a range whose last number is below its first has no point.
#[derive(Clone, Copy, Debug, PartialEq, Eq)]
pub enum Op {
    /// All points of the rectangle x0 y0 x1 y1.
    Fill(Num, Num, Num, Num, Colour),
    /// The points of that rectangle with x0 or x1 as x, or y0 or y1 as y.
    Frame(Num, Num, Num, Num, Colour),
    /// The points from x0 to x1 with this y.
    HLine(Num, Num, Num, Colour),
    /// The points with this x from y0 to y1.
    VLine(Num, Num, Num, Colour),
    /// The straight line from x0 y0 to x1 y1, each point the nearest one to the true line.
    Line(Num, Num, Num, Num, Colour),
    /// The points of the bitmap of this number that have a colour, with its upper left point at x
    /// y.
    Bitmap(u8, Num, Num),
    /// The set points of a string's glyphs: the font's number, x, y, the colour, and the string's
    /// number. The first glyph's upper left point is at x y, and each next glyph begins where the
    /// one before ends.
    Text(u8, Num, Num, Colour, u8),
    /// The same for the decimal digits of a number: the font's number, x, y, the colour, and the
    /// number.
    Number(u8, Num, Num, Colour, Num),
}
