//! Rectangles, cut into tiles.

ghost use Rattle.std.specs.Prelude.{◌≡◌, ◌≢◌, ℕ, ◌*◌, ◌/◌, ◌%◌, ◌<◌, ◌≤◌, length};
ghost use Rattle.hextile.specs.Tiles.{tiles_along, tile_side, tile_at, spot_of};

/// The side of a tile in points.
const TILE_SIDE: usize = 16;

/// A rectangle of w by h points, cut into tiles from its upper left corner on. They are numbered
/// from left to right and top to bottom. Its sides are at most 65,535.
#[derive(Clone, Copy)]
pub struct Grid {
    pub w: usize,
    pub h: usize,
}

/// How many tiles lie side by side on so many points.
fn tile_count(side: usize) -> usize
    requires { side ≤ 65535 }
    ensures value { result ≡ tiles_along side }
    ensures few { result ≤ 4096 }
{
    (side + (TILE_SIDE - 1)) / TILE_SIDE
}

impl Grid {
    /// How many tiles there are.
    pub fn count(self) -> usize
        requires sides { (self.w ≤ 65535) × (self.h ≤ 65535) }
        ensures { result ≡ tiles_along self.h * tiles_along self.w }
    {
        tile_count(self.h) * tile_count(self.w)
    }

    /// How many points a row of a tile has: from 1 to 16.
    pub fn width(self, number: usize) -> usize
        requires sides { (self.w ≤ 65535) × (self.h ≤ 65535) }
        requires number { number < tiles_along self.h * tiles_along self.w }
        ensures value { result ≡ tile_side self.w (number % tiles_along self.w) }
        ensures within { (1 ≤ result) × (result ≤ 16) }
    {
        let column = number % tile_count(self.w);
        (self.w - column * TILE_SIDE).min(TILE_SIDE)
    }

    /// How many rows a tile has: from 1 to 16.
    pub fn height(self, number: usize) -> usize
        requires sides { (self.w ≤ 65535) × (self.h ≤ 65535) }
        requires number { number < tiles_along self.h * tiles_along self.w }
        ensures value { result ≡ tile_side self.h (number / tiles_along self.w) }
        ensures within { (1 ≤ result) × (result ≤ 16) }
    {
        let row = number / tile_count(self.w);
        (self.h - row * TILE_SIDE).min(TILE_SIDE)
    }

    /// The place in the rectangle of a tile's point, told by its place in the tile.
    fn spot(self, number: usize, i: usize) -> usize
        requires sides { (self.w ≤ 65535) × (self.h ≤ 65535) }
        requires number { number < tiles_along self.h * tiles_along self.w }
        requires point { i < tile_side self.h (number / tiles_along self.w)
            * tile_side self.w (number % tiles_along self.w) }
        ensures value { result ≡ spot_of self.w number i }
        ensures within { result < self.h * self.w }
    {
        let columns = tile_count(self.w);
        let width = self.width(number);
        let x = number % columns * TILE_SIDE + i % width;
        let y = number / columns * TILE_SIDE + i / width;
        y * self.w + x
    }

    /// Gives the points of a tile these values, which are as many.
    pub fn place(self, number: usize, points: &[u32], values: &mut [u32])
        requires sides { (self.w ≤ 65535) × (self.h ≤ 65535) }
        requires number { number < tiles_along self.h * tiles_along self.w }
        requires points { length points.now ≡ tile_side self.h (number / tiles_along self.w)
            * tile_side self.w (number % tiles_along self.w) }
        requires values { length values.old ≡ self.h * self.w }
        ensures tile { (tile_at self.w self.h values.new number).values ≡ points.now }
        ensures others { (other : ℕ) → other < tiles_along self.h * tiles_along self.w
            → other ≢ number
            → tile_at self.w self.h values.new other ≡ tile_at self.w self.h values.old other }
    {
        for i in 0..points.len() {
            values[self.spot(number, i)] = points[i];
        }
    }
}
