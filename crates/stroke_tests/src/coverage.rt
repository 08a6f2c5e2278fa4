//! What a stroke or a copy puts on a point, by a plain program.

use context::Context;
use frame::Frame;
use gfx_base::Colour;
use glyph_font::Font;
use paint_ops::Assets;
use strokes::Shape;

/// A point of a window: x and y.
pub type Place = (i64, i64);

fn place(x: i16, y: i16) -> Place {
    (i64::from(x), i64::from(y))
}

fn is_inside(first: Place, last: Place, p: Place) -> bool {
    first.0 <= p.0 && p.0 <= last.0 && first.1 <= p.1 && p.1 <= last.1
}

fn is_on_edge(first: Place, last: Place, p: Place) -> bool {
    is_inside(first, last, p)
        && (p.0 == first.0 || p.0 == last.0 || p.1 == first.1 || p.1 == last.1)
}

/// Twice the distance between the point and the true line at its x, times the line's width.
fn twice_off(left: Place, right: Place, p: Place) -> i64 {
    let wide = right.0.wrapping_sub(left.0);
    let high = right.1.wrapping_sub(left.1);
    let way = p.0.wrapping_sub(left.0).wrapping_mul(high);
    let own = p.1.wrapping_sub(left.1).wrapping_mul(wide);
    own.wrapping_sub(way).wrapping_mul(2)
}

/// Whether the point is the nearest one at its x, the lower one where two are as near.
fn is_on_wide(a: Place, b: Place, p: Place) -> bool {
    let (left, right) = if a.0 <= b.0 { (a, b) } else { (b, a) };
    if left.0 == right.0 {
        return p == left;
    }
    let wide = right.0.wrapping_sub(left.0);
    let off = twice_off(left, right, p);
    left.0 <= p.0 && p.0 <= right.0 && wide.wrapping_neg() < off && off <= wide
}

fn is_on_line(a: Place, b: Place, p: Place) -> bool {
    if b.1.abs_diff(a.1) > b.0.abs_diff(a.0) {
        is_on_wide((a.1, a.0), (b.1, b.0), (p.1, p.0))
    } else {
        is_on_wide(a, b, p)
    }
}

/// Whether a text has the point in a cell, and whether it is set there.
fn in_text(font: &Font, text: &[u8], p: Place) -> (bool, bool) {
    let mut left = 0i64;
    for code in text {
        let width = i64::from(font.width(*code));
        let col = p.0.wrapping_sub(left);
        let is_in_cell = 0 <= col && col < width && 0 <= p.1 && p.1 < i64::from(font.height());
        if is_in_cell {
            return (true, font.is_set(*code, col as u8, p.1 as u8));
        }
        left = left.wrapping_add(width);
    }
    (false, false)
}

fn text_colour(context: &Context, string: u8, assets: &Assets, p: Place) -> Option<Colour> {
    let font = assets.fonts.get(usize::from(context.font))?;
    let text = assets.strings.get(usize::from(string))?;
    match in_text(font, text.bytes(), p) {
        (true, true) => Some(context.colour),
        (true, false) if !context.trans_text => Some(context.bk),
        _ => None,
    }
}

fn bitmap_colour(bitmap: u8, assets: &Assets, p: Place) -> Option<Colour> {
    let bitmap = assets.bitmaps.get(usize::from(bitmap))?;
    let x = u16::try_from(p.0).ok()?;
    let y = u16::try_from(p.1).ok()?;
    if x < bitmap.width() && y < bitmap.height() {
        bitmap.at(x, y)
    } else {
        None
    }
}

fn seen(x: i16, y: i16, p: Place) -> Place {
    (
        p.0.wrapping_sub(i64::from(x)),
        p.1.wrapping_sub(i64::from(y)),
    )
}

/// The colour that the stroke puts on the point of its window, if any.
pub fn colour_of(context: &Context, shape: &Shape, assets: &Assets, p: Place) -> Option<Colour> {
    let covers = match *shape {
        Shape::Fill(x0, y0, x1, y1) => is_inside(place(x0, y0), place(x1, y1), p),
        Shape::Frame(x0, y0, x1, y1) => is_on_edge(place(x0, y0), place(x1, y1), p),
        Shape::Line(x0, y0, x1, y1) => is_on_line(place(x0, y0), place(x1, y1), p),
        Shape::Bitmap(bitmap, x, y) => return bitmap_colour(bitmap, assets, seen(x, y, p)),
        Shape::Text(x, y, string) => return text_colour(context, string, assets, seen(x, y, p)),
    };
    if covers { Some(context.colour) } else { None }
}

/// The colour of a frame's point, if it lies inside.
pub fn colour_at(frame: &Frame, x: u16, y: u16) -> Option<Colour> {
    if x < frame.width() && y < frame.height() {
        Some(frame.get(x, y))
    } else {
        None
    }
}

/// The colour that a copy of a picture to x and y puts on the point of its window, if any.
pub fn colour_of_copy(picture: &Frame, x: i16, y: i16, p: Place) -> Option<Colour> {
    let q = seen(x, y, p);
    colour_at(picture, u16::try_from(q.0).ok()?, u16::try_from(q.1).ok()?)
}
