//! Bitmaps, row by row.

ghost use Rattle.std.specs.Prelude.{◌≡◌, ◌==◌, ◌^◌, ◌<◌, ◌≤◌, pos, ◌+ℤ◌, ◌-ℤ◌, ◌≤ℤ◌, ◌<ℤ◌};
ghost use Rattle.gfx_base.specs.Range.{IsNear};
ghost use Rattle.frame.specs.Pictures.{HasShape};
ghost use Rattle.paint_ops.specs.Operations.{bitmap_colour};
ghost use Rattle.paint_ops.specs.Rows.{row_written};
ghost use Rattle.paint_ops.specs.Strips.{FitsIn, in_strip};

use crate::strip::Strip;
use bitmap::Bitmap;
use frame::Frame;
use gfx_base::{Colour, Point};

/// Gives the point at (x, y), which lies inside, the colour that was found, if there is one.
fn put_found(found: Option<Colour>, x: u16, y: u16, target: &mut Frame)
    requires shape { HasShape target.old.picture }
    requires count { target.old.writes < 2 ^ 64 }
    requires inside { (x < target.old.picture.width) × (y < target.old.picture.height) }
    ensures { target.new ≡ row_written target.old y (λ u. u == x) (λ _. found) }
{
    if let Some(colour) = found {
        target.put(x, y, colour);
    }
}

/// Draws a row of a bitmap in the columns of a part, which lie in the bitmap. The bitmap's left
/// column lies at x.
fn draw_points(bitmap: &Bitmap, x: i32, row: u16, part: Strip, target: &mut Frame)
    requires part { FitsIn target.old part }
    requires inside { (x ≤ℤ pos part.left) × (pos part.right <ℤ (x +ℤ pos bitmap.now.width)) }
    requires width { bitmap.now.width ≤ 256 }
    requires row { row < bitmap.now.height }
    requires x { IsNear x }
    ensures { target.new ≡ row_written target.old part.y (in_strip part)
        (λ u. bitmap_colour bitmap.now (pos u -ℤ x) (pos row)) }
{
    for u in part.left..part.right + 1 {
        put_found(bitmap.at((i32::from(u) - x) as u16, row), u, part.y, target);
    }
}

/// Draws what a row of a bitmap has in a strip. The bitmap's left column lies at x.
fn draw_row(bitmap: &Bitmap, x: i32, row: u16, strip: Strip, target: &mut Frame)
    requires strip { FitsIn target.old strip }
    requires row { row < bitmap.now.height }
    requires x { IsNear x }
    ensures { target.new ≡ row_written target.old strip.y (in_strip strip)
        (λ u. bitmap_colour bitmap.now (pos u -ℤ x) (pos row)) }
{
    let last = x + i32::from(bitmap.width()) - 1;
    if let Some(part) = strip.cut(x, last) {
        draw_points(bitmap, x, row, part, target);
    }
}

/// Draws what a bitmap has in a strip. Its upper left point lies at the corner.
pub fn draw_bitmap(bitmap: &Bitmap, corner: Point, strip: Strip, target: &mut Frame)
    requires strip { FitsIn target.old strip }
    requires corner { IsNear corner.x × IsNear corner.y }
    ensures { target.new ≡ row_written target.old strip.y (in_strip strip)
        (λ u. bitmap_colour bitmap.now (pos u -ℤ corner.x) (pos strip.y -ℤ corner.y)) }
{
    let row = i32::from(strip.y) - corner.y;
    if 0 <= row && row < i32::from(bitmap.height()) {
        draw_row(bitmap, corner.x, row as u16, strip, target);
    }
}
