//! Texts, glyph by glyph.

ghost use Rattle.std.specs.Prelude.{◌≡◌, ◌≤◌, ◌<◌, length, pos, ◌+ℤ◌, ◌-ℤ◌, ◌≤ℤ◌, ◌<ℤ◌, [], ◌∷◌};
ghost use Rattle.std.specs.Fmt.{signed_decimal};
ghost use Rattle.gfx_base.specs.Range.{IsNear};
ghost use Rattle.gfx_base.specs.Rects.{point_at};
ghost use Rattle.glyph_font.specs.Fonts.{width_of_code};
ghost use Rattle.paint_ops.specs.Operations.{is_in_text, on_points, seen_from, text_colour};
ghost use Rattle.paint_ops.specs.Rows.{row_written};
ghost use Rattle.paint_ops.specs.Strips.{FitsIn, in_strip};

use crate::strip::Strip;
use frame::Frame;
use gfx_base::{Colour, Point};
use glyph_font::Font;
use itoa::Buffer;

/// Draws a row of one glyph in the columns of a part, which lie in the glyph. The glyph's left
/// column lies at x.
fn draw_glyph(
    font: &Font,
    code: u8,
    x: i32,
    row: u8,
    part: Strip,
    colour: Colour,
    target: &mut Frame,
)
    requires part { FitsIn target.old part }
    requires inside { (x ≤ℤ pos part.left)
        × (pos part.right <ℤ (x +ℤ pos (width_of_code font.now code))) }
    requires width { width_of_code font.now code ≤ 255 }
    requires x { IsNear x }
    ensures { target.new ≡ row_written target.old part.y (in_strip part)
        (λ u. on_points (is_in_text font.now (code ∷ []) (pos u -ℤ x) (pos row)) colour) }
{
    for u in part.left..part.right + 1 {
        if font.is_set(code, (i32::from(u) - x) as u8, row) {
            target.put(u, part.y, colour);
        }
    }
}

/// Draws what a row of one glyph has in a strip. The glyph's left column lies at x.
fn draw_cell(
    font: &Font,
    code: u8,
    x: i32,
    row: u8,
    strip: Strip,
    colour: Colour,
    target: &mut Frame,
)
    requires strip { FitsIn target.old strip }
    requires x { IsNear x }
    ensures { target.new ≡ row_written target.old strip.y (in_strip strip)
        (λ u. on_points (is_in_text font.now (code ∷ []) (pos u -ℤ x) (pos row)) colour) }
{
    let last = x + i32::from(font.width(code)) - 1;
    if let Some(part) = strip.cut(x, last) {
        draw_glyph(font, code, x, row, part, colour, target);
    }
}

/// Draws what a row of a text's glyphs has in a strip. The first glyph's left column lies at x.
fn draw_cells(
    font: &Font,
    text: &[u8],
    x: i32,
    row: u8,
    strip: Strip,
    colour: Colour,
    target: &mut Frame,
)
    requires few { length text.now ≤ 64 }
    requires strip { FitsIn target.old strip }
    requires x { IsNear x }
    ensures { target.new ≡ row_written target.old strip.y (in_strip strip)
        (λ u. on_points (is_in_text font.now text.now (pos u -ℤ x) (pos row)) colour) }
{
    let mut left = x;
    for code in text {
        if left > i32::from(strip.right) {
            return;
        }
        draw_cell(font, *code, left, row, strip, colour, target);
        left += i32::from(font.width(*code));
    }
}

/// Draws what a text of at most 64 bytes has in a strip. The first glyph's upper left point lies at
/// the corner.
pub fn draw_text(
    font: &Font,
    text: &[u8],
    corner: Point,
    strip: Strip,
    colour: Colour,
    target: &mut Frame,
)
    requires few { length text.now ≤ 64 }
    requires strip { FitsIn target.old strip }
    requires corner { IsNear corner.x × IsNear corner.y }
    ensures { target.new ≡ row_written target.old strip.y (in_strip strip)
        (λ u. text_colour font.now text.now
        (seen_from corner (point_at (pos u) (pos strip.y))) colour) }
{
    let row = i32::from(strip.y) - corner.y;
    if 0 <= row && row < i32::from(font.height()) {
        draw_cells(font, text, corner.x, row as u8, strip, colour, target);
    }
}

/// Draws what the decimal digits of a number have in a strip, as a text.
pub fn draw_number(
    font: &Font,
    number: i32,
    corner: Point,
    strip: Strip,
    colour: Colour,
    target: &mut Frame,
)
    requires strip { FitsIn target.old strip }
    requires corner { IsNear corner.x × IsNear corner.y }
    ensures { target.new ≡ row_written target.old strip.y (in_strip strip)
        (λ u. text_colour font.now (signed_decimal number)
        (seen_from corner (point_at (pos u) (pos strip.y))) colour) }
{
    let mut buffer = Buffer::new();
    let digits = buffer.format(number).as_bytes();
    draw_text(font, digits, corner, strip, colour, target);
}
