//! Sets of tiles, in bits: a word for each row of the grid, a bit for each column.

ghost use Rattle.std.specs.Prelude.{◌≡◌, ℕ, ◌*◌, ◌<◌, ◌≤◌, ◌&&◌, ◌||◌, ◌==◌, nat_le, nat_lt, not, true, false, min};
ghost use Rattle.std.specs.Int.{bit_at};

use crate::point::Tile;
use std::marker::Model;

/// How many rows of tiles the grid has.
const ROWS: usize = 48;

/// The side of a tile in points.
const SIDE: u16 = 16;

/// A set of tiles of the grid of 64 columns and 48 rows.
#[derive(Drop)]
pub struct Tiles {
    words: [u64; ROWS],
}

impl Model for Tiles {
    ghost use Rattle.std.specs.Prelude.{ℕ, List};

    ghost Value = { List ℕ };

    ghost view = { λ t. t.words };
}

/// The word with the bits from the first to the last, both included, set.
fn run(first: u8, last: u8) -> u64
    requires { (first ≤ last) × (last < 64) }
    ensures { (i : ℕ) → (bit_at result i == 1) ≡ (nat_le first i && nat_le i last) }
{
    (u64::MAX << first) & (u64::MAX >> (63 - last))
}

/// The word with all bits of both set.
fn either(a: u64, b: u64) -> u64
    ensures { (i : ℕ) → (bit_at result i == 1) ≡ (bit_at a i == 1 || bit_at b i == 1) }
{
    a | b
}

/// The word with this bit cleared.
fn without(word: u64, col: u8) -> u64
    requires { col < 64 }
    ensures { (i : ℕ) → i < 64 → (bit_at result i == 1) ≡ (bit_at word i == 1 && not (i == col)) }
{
    word & !(1 << col)
}

impl Tiles {
    ghost use Rattle.gfx_base.specs.TileSets.{has_tile, is_in_run};

    /// No tile.
    pub fn empty() -> Tiles
        ensures { (col row : ℕ) → has_tile result col row ≡ false }
    {
        Tiles { words: [0; ROWS] }
    }

    /// The tiles of a screen of `w` by `h` points, from 1 to 1,024 and from 1 to 768.
    pub fn all(w: u16, h: u16) -> Tiles
        requires width { (1 ≤ w) × (w ≤ 1024) }
        requires height { (1 ≤ h) × (h ≤ 768) }
        ensures { (col row : ℕ)
            → has_tile result col row ≡ (nat_lt (col * 16) w && nat_lt (row * 16) h) }
    {
        let mut tiles = Tiles::empty();
        let last = ((w - 1) / SIDE) as u8;
        let rows = (h - 1) / SIDE + 1;
        for row in 0..rows {
            tiles.add_run(row as u8, 0, last);
        }
        tiles
    }

    /// Whether the tile, which lies in the grid, is one of them.
    pub fn has(&self, t: Tile) -> bool
        requires { (t.col < 64) × (t.row < 48) }
        ensures { result ≡ has_tile self.now t.col t.row }
    {
        (self.words[usize::from(t.row)] >> t.col) & 1 == 1
    }

    /// Adds the tile, which lies in the grid.
    pub fn add(&mut self, t: Tile)
        requires { (t.col < 64) × (t.row < 48) }
        ensures { (col row : ℕ)
            → has_tile self.new col row
            ≡ (has_tile self.old col row || (col == t.col && row == t.row)) }
    {
        self.add_run(t.row, t.col, t.col);
    }

    /// Adds the tiles of one row from the first column to the last, both included.
    pub fn add_run(&mut self, row: u8, first: u8, last: u8)
        requires row { row < 48 }
        requires columns { (first ≤ last) × (last < 64) }
        ensures { (c r : ℕ)
            → has_tile self.new c r ≡ (has_tile self.old c r || is_in_run row first last c r) }
    {
        let at = usize::from(row);
        let word = either(self.words[at], run(first, last));
        self.words[at] = word;
    }

    /// Adds all tiles of the other set.
    pub fn join(&mut self, other: &Tiles)
        ensures { (col row : ℕ)
            → has_tile self.new col row
            ≡ (has_tile self.old col row || has_tile other.now col row) }
    {
        for row in 0..ROWS {
            let word = either(self.words[row], other.words[row]);
            self.words[row] = word;
        }
    }

    /// Takes the tile, which lies in the grid, out.
    pub fn clear(&mut self, t: Tile)
        requires { (t.col < 64) × (t.row < 48) }
        ensures { (col row : ℕ)
            → has_tile self.new col row
            ≡ (has_tile self.old col row && not (col == t.col && row == t.row)) }
    {
        let at = usize::from(t.row);
        let word = without(self.words[at], t.col);
        self.words[at] = word;
    }
}
