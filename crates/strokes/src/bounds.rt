//! Rectangles that have all points of a shape or of a picture.

ghost use Rattle.std.specs.Prelude.{◌≡◌, ℤ, pos, ◌+ℤ◌, ◌-ℤ◌, ◌≤◌, ◌<◌, length, true, is_some};
ghost use Rattle.gfx_base.specs.declared.point.Point.{Point as Place};
ghost use Rattle.gfx_base.specs.Range.{IsNear};
ghost use Rattle.gfx_base.specs.Rects.{has};
ghost use Rattle.glyph_font.specs.Fonts.{IsFont};
ghost use Rattle.paint_ops.specs.Soundness.{IsOperation};
ghost use Rattle.frame.specs.Pictures.{HasShape};
ghost use Rattle.strokes.specs.Strokes.{operation_of, cells_of, colour_of_stroke, colour_of_copy};
ghost use Rattle.strokes.specs.Parts.{rect_with, block_of, points_of_image, bounds_of};

use crate::shape::Shape;
use bitmap::Bitmap;
use context::Context;
use frame::Frame;
use gfx_base::Rect;
use glyph_font::Font;
use paint_ops::Assets;

/// The rectangle with these corners.
fn rect(x0: i16, y0: i16, x1: i16, y1: i16) -> Rect
    ensures value { result ≡ rect_with x0 y0 x1 y1 }
    ensures near { IsNear result.x0 × IsNear result.y0 × IsNear result.x1 × IsNear result.y1 }
{
    Rect {
        x0: i32::from(x0),
        y0: i32::from(y0),
        x1: i32::from(x1),
        y1: i32::from(y1),
    }
}

/// The last of so many coordinates from the first one on.
fn last(first: i16, count: u32) -> i32
    requires { count ≤ 4096 }
    ensures value { result ≡ (first +ℤ pos count) -ℤ pos 1 }
    ensures near { IsNear result }
{
    i32::from(first) + count as i32 - 1
}

/// The points of so many columns and rows, the upper left one at x and y.
fn block(x: i16, y: i16, width: u16, height: u16) -> Rect
    requires { (width ≤ 4096) × (height ≤ 4096) }
    ensures value { result ≡ block_of x y width height }
    ensures near { IsNear result.x0 × IsNear result.y0 × IsNear result.x1 × IsNear result.y1 }
{
    Rect {
        x0: i32::from(x),
        y0: i32::from(y),
        x1: last(x, u32::from(width)),
        y1: last(y, u32::from(height)),
    }
}

/// The points of a bitmap whose upper left one is at x and y.
fn points_of(bitmap: &Bitmap, x: i16, y: i16) -> Rect
    ensures value { result ≡ points_of_image bitmap.now x y }
    ensures near { IsNear result.x0 × IsNear result.y0 × IsNear result.x1 × IsNear result.y1 }
{
    let width = bitmap.width();
    block(x, y, width, bitmap.height())
}

/// The cells of a text's glyphs, side by side, the first one's upper left point at x and y.
fn cells_of(font: &Font, text: &[u8], x: i16, y: i16) -> Rect
    requires { length text.now ≤ 64 }
    ensures value { result ≡ cells_of font.now text.now x y }
    ensures font { IsFont font.now }
    ensures near { IsNear result.x0 × IsNear result.y0 × IsNear result.x1 × IsNear result.y1 }
{
    let height = font.height();
    let width = font.width_of(text);
    Rect {
        x0: i32::from(x),
        y0: i32::from(y),
        x1: last(x, width),
        y1: last(y, u32::from(height)),
    }
}

/// A rectangle that has all points of the shape.
pub fn bounds(context: &Context, shape: &Shape, assets: &Assets) -> Rect
    requires shape { IsOperation assets.now (operation_of context.now shape.now) }
    ensures value { result ≡ bounds_of assets.now context.now shape.now }
    ensures all { (p : Place) → is_some (colour_of_stroke assets.now context.now shape.now p) ≡ true
        → has result p ≡ true }
    ensures near { IsNear result.x0 × IsNear result.y0 × IsNear result.x1 × IsNear result.y1 }
{
    match *shape {
        Shape::Fill(x0, y0, x1, y1) => rect(x0, y0, x1, y1),
        Shape::Frame(x0, y0, x1, y1) => rect(x0, y0, x1, y1),
        Shape::Line(x0, y0, x1, y1) => rect(x0.min(x1), y0.min(y1), x0.max(x1), y0.max(y1)),
        Shape::Bitmap(bitmap, x, y) => points_of(&assets.bitmaps[usize::from(bitmap)], x, y),
        Shape::Text(x, y, string) => {
            let text = assets.strings[usize::from(string)].bytes();
            cells_of(&assets.fonts[usize::from(context.font)], text, x, y)
        }
    }
}

/// The points of a picture whose upper left one is at x and y.
pub fn points_of_picture(picture: &Frame, x: i16, y: i16) -> Rect
    ensures shape { HasShape picture.now.picture }
    ensures all { (p : Place) → is_some (colour_of_copy picture.now.picture x y p) ≡ has result p }
    ensures near { IsNear result.x0 × IsNear result.y0 × IsNear result.x1 × IsNear result.y1 }
{
    let width = picture.width();
    block(x, y, width, picture.height())
}
