//! The rectangles of one colour that a picture is made of.

ghost use Rattle.std.specs.Prelude.{◌≡◌, ◌<◌, ◌≤◌, ◌==◌, length, option_to_list};
ghost use Rattle.std.specs.List.{prefix_len};
ghost use Rattle.svg.specs.Rectangles.{begins, run_width, is_same_run, is_top, height_at, rectangle_at, rectangles_at};

use crate::image::Image;
use gfx_base::Colour;

/// The points of `width` columns from `x` on and `height` rows from `y` on, all of one colour.
#[derive(Clone, Copy, Debug, PartialEq, Eq)]
pub struct Rectangle {
    pub x: usize,
    pub y: usize,
    pub width: usize,
    pub height: usize,
    pub colour: Colour,
}

/// Whether a run of points of one colour begins at `x`.
fn begins(row: &[Colour], x: usize) -> bool
    requires { x < length row.now }
    ensures { result ≡ begins row.now x }
{
    x == 0 || row[x - 1] != row[x]
}

/// How many points from the left have that colour.
fn leading(row: &[Colour], colour: Colour) -> usize
    ensures { result ≡ prefix_len (λ point. point == colour) row.now }
{
    row.iter().take_while(|point| **point == colour).count()
}

/// How many points the run that begins at `x` has; 0 where none begins.
fn run_width(row: &[Colour], x: usize) -> usize
    requires { x < length row.now }
    ensures { result ≡ run_width row.now x }
{
    if begins(row, x) {
        leading(&row[x..], row[x])
    } else {
        0
    }
}

/// Whether two rows have the same run at `x`.
fn is_same_run(x: usize, row: &[Colour], other: &[Colour]) -> bool
    requires row { x < length row.now }
    requires other { x < length other.now }
    ensures { result ≡ is_same_run x row.now other.now }
{
    row[x] == other[x] && run_width(row, x) == run_width(other, x)
}

/// Whether the row above lacks what row `y` has at `x`.
fn is_top(image: &Image, x: usize, y: usize) -> bool
    requires inside { (x < image.now.width) × (y < image.now.height) }
    ensures { result ≡ is_top image.now x y }
{
    y == 0 || !is_same_run(x, image.row(y - 1), image.row(y))
}

/// How many rows from `y` on have the same run at `x`.
fn height_at(image: &Image, x: usize, y: usize) -> usize
    requires inside { (x < image.now.width) × (y < image.now.height) }
    ensures { result ≡ height_at image.now x y }
{
    let height = image.height();
    let row = image.row(y);
    let mut end = y + 1;
    while end < height && is_same_run(x, image.row(end), row) {
        end += 1;
    }
    end - y
}

/// The rectangle whose upper left point is that of column `x` and row `y`, if there is one.
pub fn rectangle_at(image: &Image, x: usize, y: usize) -> Option<Rectangle>
    requires inside { (x < image.now.width) × (y < image.now.height) }
    ensures { option_to_list result ≡ rectangles_at image.now y x }
{
    let row = image.row(y);
    if begins(row, x) && is_top(image, x, y) {
        Some(Rectangle {
            x,
            y,
            width: run_width(row, x),
            height: height_at(image, x, y),
            colour: row[x],
        })
    } else {
        None
    }
}
