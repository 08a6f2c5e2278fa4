//! Which points an operation covers, by a plain program that asks each point.

use gfx_base::Point;
use glyph_font::Font;
use paint_ops::{Assets, Base, Num, Op};

/// A window's values, its size, and where its upper left corner lies.
#[derive(Clone, Copy)]
pub struct Window {
    pub values: [i16; 16],
    pub width: u16,
    pub height: u16,
    pub origin: Point,
}

/// A point of a window: x and y.
pub type Place = (i64, i64);

fn number_of(window: &Window, num: Num) -> i64 {
    let base = match num.base {
        Base::Zero => 0,
        Base::Width => i64::from(window.width),
        Base::Height => i64::from(window.height),
        Base::Value(i) => match window.values.get(usize::from(i)) {
            Some(value) => i64::from(*value),
            None => 0,
        },
    };
    base.wrapping_add(i64::from(num.plus))
}

fn place(window: &Window, x: Num, y: Num) -> Place {
    (number_of(window, x), number_of(window, y))
}

/// The point as it is seen from a corner.
fn seen(window: &Window, x: Num, y: Num, p: Place) -> Place {
    let corner = place(window, x, y);
    (p.0.wrapping_sub(corner.0), p.1.wrapping_sub(corner.1))
}

fn is_inside(first: Place, last: Place, p: Place) -> bool {
    first.0 <= p.0 && p.0 <= last.0 && first.1 <= p.1 && p.1 <= last.1
}

fn is_on_edge(first: Place, last: Place, p: Place) -> bool {
    is_inside(first, last, p)
        && (p.0 == first.0 || p.0 == last.0 || p.1 == first.1 || p.1 == last.1)
}

/// The height at x of the line from the left end to the right one, rounded to the nearest point,
/// and downwards on the screen where two are as near.
fn height_at(left: Place, right: Place, x: i64) -> i64 {
    let wide = right.0.wrapping_sub(left.0);
    let high = right.1.wrapping_sub(left.1);
    let way = x.wrapping_sub(left.0).wrapping_mul(high);
    let halves = way.wrapping_mul(2).wrapping_add(wide);
    let steps = halves.checked_div_euclid(wide.wrapping_mul(2)).unwrap_or(0);
    left.1.wrapping_add(steps)
}

fn is_on_wide(a: Place, b: Place, p: Place) -> bool {
    let (left, right) = if a.0 <= b.0 { (a, b) } else { (b, a) };
    if left.0 == right.0 {
        return p == left;
    }
    left.0 <= p.0 && p.0 <= right.0 && p.1 == height_at(left, right, p.0)
}

fn is_on_line(a: Place, b: Place, p: Place) -> bool {
    if b.1.abs_diff(a.1) > b.0.abs_diff(a.0) {
        is_on_wide((a.1, a.0), (b.1, b.0), (p.1, p.0))
    } else {
        is_on_wide(a, b, p)
    }
}

fn is_in_text(font: &Font, text: &[u8], p: Place) -> bool {
    let mut left = 0i64;
    for code in text {
        let col = u8::try_from(p.0.wrapping_sub(left));
        let row = u8::try_from(p.1);
        if let (Ok(col), Ok(row)) = (col, row) {
            if font.is_set(*code, col, row) {
                return true;
            }
        }
        left = left.wrapping_add(i64::from(font.width(*code)));
    }
    false
}

fn is_in_string(assets: &Assets, font: u8, string: u8, p: Place) -> bool {
    let (font, string) = (usize::from(font), usize::from(string));
    if font >= assets.fonts.len() || string >= assets.strings.len() {
        return false;
    }
    is_in_text(&assets.fonts[font], assets.strings[string].bytes(), p)
}

/// Whether an operation in red, that isn't a number, covers the point of the window.
pub fn covers(op: &Op, w: &Window, assets: &Assets, p: Place) -> bool {
    match *op {
        Op::Fill(x0, y0, x1, y1, _) => is_inside(place(w, x0, y0), place(w, x1, y1), p),
        Op::Frame(x0, y0, x1, y1, _) => is_on_edge(place(w, x0, y0), place(w, x1, y1), p),
        Op::HLine(x0, x1, y, _) => is_inside(place(w, x0, y), place(w, x1, y), p),
        Op::VLine(x, y0, y1, _) => is_inside(place(w, x, y0), place(w, x, y1), p),
        Op::Line(x0, y0, x1, y1, _) => is_on_line(place(w, x0, y0), place(w, x1, y1), p),
        Op::Text(font, x, y, _, string) => is_in_string(assets, font, string, seen(w, x, y, p)),
        Op::Bitmap(_, x, y) => {
            let seen = seen(w, x, y, p);
            seen == (0, 0) || seen == (2, 0) || seen == (1, 1)
        }
        Op::Number(..) => false,
    }
}
