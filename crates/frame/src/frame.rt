ghost use Rattle.std.specs.Prelude.{◌≡◌, ℕ, ◌+◌, ◌*◌, ◌<◌, ◌≤◌, min, length, replicate, IfOk};

use gfx_base::{Colour, Memory, Tile};
use std::alloc::Global;
use std::marker::Model;

/// The side of a tile in points.
const TILE_SIDE: u16 = 16;

/// A map from points to colours, which counts the points written. It is 1 to 1,024 points wide and
/// 1 to 768 points high.
#[derive(Drop)]
pub struct Frame {
    width: u16,
    height: u16,
    points: Vec<Colour>,
    writes: u64,
}

impl Model for Frame {
    ghost use Rattle.std.specs.Prelude.{vec_len};
    ghost use Rattle.frame.specs.Pictures.{IsShape};
    ghost use Rattle.frame.specs.Canvases.{Canvas, canvas};

    ghost Value = { Canvas };

    ghost view = { λ f. canvas f.width f.height f.points.items f.writes };

    ghost invariant = { λ f. IsShape f.width f.height (vec_len f.points) };
}

impl Frame {
    ghost use Rattle.frame.specs.Pictures.{IsShape, colour_at, row_at};
    ghost use Rattle.frame.specs.Areas.{is_at, in_span, in_tile, span_count, tile_count};
    ghost use Rattle.frame.specs.Canvases.{drawn};

    /// A black frame, to which no point was written. `w` is from 1 to 1,024 and `h` from 1 to 768.
    /// Each point takes four bytes, in one allocation. The error is that there is no memory for
    /// them.
    pub fn new(alloc: Global, w: u16, h: u16) -> Result<Frame, Memory>
        requires width { (1 ≤ w) × (w ≤ 1024) }
        requires height { (1 ≤ h) × (h ≤ 768) }
        ensures width { IfOk result (λ f. f.picture.width ≡ w) }
        ensures height { IfOk result (λ f. f.picture.height ≡ h) }
        ensures black { IfOk result (λ f. f.picture.points ≡ replicate (h * w) 0) }
        ensures writes { IfOk result (λ f. f.writes ≡ 0) }
    {
        let count = usize::from(h) * usize::from(w);
        match vec![in alloc; Colour::default(); count] {
            Ok(points) => Ok(Frame {
                width: w,
                height: h,
                points,
                writes: 0,
            }),
            Err(_) => Err(Memory),
        }
    }

    /// The width in points, from 1 to 1,024.
    pub fn width(&self) -> u16
        ensures value { result ≡ self.now.picture.width }
        ensures shape { IsShape self.now.picture.width self.now.picture.height
            (length self.now.picture.points) }
    {
        self.width
    }

    /// The height in points, from 1 to 768.
    pub fn height(&self) -> u16
        ensures { result ≡ self.now.picture.height }
    {
        self.height
    }

    /// The place of a point in the list of all points.
    fn place(&self, x: u16, y: u16) -> usize
        requires inside { (x < self.now.picture.width) × (y < self.now.picture.height) }
        ensures value { result ≡ y * self.now.picture.width + x }
        ensures within { result < length self.now.picture.points }
    {
        usize::from(y) * usize::from(self.width) + usize::from(x)
    }

    /// The places of a span's points in that list: from the first number to before the second.
    fn span(&self, y: u16, x0: u16, x1: u16) -> (usize, usize)
        requires inside { (x1 < self.now.picture.width) × (y < self.now.picture.height) }
        ensures first { result.0 ≡ y * self.now.picture.width + min x0 (x1 + 1) }
        ensures end { result.1 ≡ y * self.now.picture.width + (x1 + 1) }
        ensures within { result.1 ≤ length self.now.picture.points }
    {
        let row = usize::from(y) * usize::from(self.width);
        let end = usize::from(x1) + 1;
        (row + usize::from(x0).min(end), row + end)
    }

    /// The colour of the point at (x, y), which lies inside.
    pub fn get(&self, x: u16, y: u16) -> Colour
        requires inside { (x < self.now.picture.width) × (y < self.now.picture.height) }
        ensures { result ≡ colour_at self.now.picture x y }
    {
        self.points[self.place(x, y)]
    }

    /// The colours of row `y`, which lies inside, from the left to the right: a part of the frame
    /// itself, not a copy.
    pub fn row(&self, y: u16) -> &[Colour]
        requires { y < self.now.picture.height }
        ensures { result.now ≡ row_at self.now.picture y }
    {
        let width = usize::from(self.width);
        let start = usize::from(y) * width;
        &self.points[start..start + width]
    }

    /// Gives the point at (x, y), which lies inside, the colour `c`.
    pub fn put(&mut self, x: u16, y: u16, c: Colour)
        requires inside { (x < self.old.picture.width) × (y < self.old.picture.height) }
        ensures { self.new ≡ drawn self.old (is_at x y) (λ _ _. c) 1 }
    {
        let at = self.place(x, y);
        self.points[at] = c;
        self.writes = self.writes.wrapping_add(1);
    }

    /// Gives the points of row `y` from `x0` to `x1`, both ends included, the colour `c`. The row
    /// and `x1` lie inside. Nothing is written where `x1` is below `x0`.
    pub fn fill_span(&mut self, y: u16, x0: u16, x1: u16, c: Colour)
        requires inside { (x1 < self.old.picture.width) × (y < self.old.picture.height) }
        ensures { self.new ≡ drawn self.old (in_span y x0 x1) (λ _ _. c) (span_count x0 x1) }
    {
        let (start, end) = self.span(y, x0, x1);
        self.points[start..end].fill(c);
        self.writes = self.writes.wrapping_add((end - start) as u64);
    }

    /// Copies the points of row `y` from `x0` to `x1`, both ends included, to the same places. Both
    /// frames have the same sides, and the row and `x1` lie inside. Nothing is written where `x1`
    /// is below `x0`.
    pub fn copy_span(&mut self, from: &Frame, y: u16, x0: u16, x1: u16)
        requires same_sides { (from.now.picture.width ≡ self.old.picture.width)
            × (from.now.picture.height ≡ self.old.picture.height) }
        requires inside { (x1 < self.old.picture.width) × (y < self.old.picture.height) }
        ensures { self.new ≡ drawn self.old (in_span y x0 x1) (colour_at from.now.picture)
            (span_count x0 x1) }
    {
        let (start, end) = self.span(y, x0, x1);
        self.points[start..end].copy_from_slice(&from.points[start..end]);
        self.writes = self.writes.wrapping_add((end - start) as u64);
    }

    /// Copies the points of the tile `t` to the same places, as far as the tile lies inside. Both
    /// frames have the same sides, and the tile's upper left point lies inside.
    pub fn copy_tile(&mut self, from: &Frame, t: Tile)
        requires same_sides { (from.now.picture.width ≡ self.old.picture.width)
            × (from.now.picture.height ≡ self.old.picture.height) }
        requires inside { (t.col * 16 < self.old.picture.width)
            × (t.row * 16 < self.old.picture.height) }
        ensures { self.new ≡ drawn self.old (in_tile t.col t.row) (colour_at from.now.picture)
            (tile_count self.old.picture t.col t.row) }
    {
        let x0 = u16::from(t.col) * TILE_SIDE;
        let y0 = u16::from(t.row) * TILE_SIDE;
        let x1 = (x0 + TILE_SIDE).min(self.width) - 1;
        let y_end = (y0 + TILE_SIDE).min(self.height);
        for y in y0..y_end {
            self.copy_span(from, y, x0, x1);
        }
    }

    /// How many points were written since the frame was made, modulo 2^64.
    pub fn writes(&self) -> u64
        ensures { result ≡ self.now.writes }
    {
        self.writes
    }
}
