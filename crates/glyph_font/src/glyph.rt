//! A glyph as it is kept: each row is a word, whose lowest bit is the leftmost point.

ghost use Rattle.std.specs.Prelude.{◌≡◌, ◌≢◌, ℕ, ◌<◌, ◌≤◌, ◌==◌, length, map};
ghost use Rattle.std.specs.Int.{bit_at};
ghost use Rattle.glyph_font.specs.Bits.{bits_of};

/// How many points a glyph is wide and high at most.
pub const MOST_POINTS: usize = 32;

/// The glyph of a byte. Of its rows as many count as the font is high.
#[derive(Clone, Copy)]
pub struct Glyph {
    pub code: u8,
    pub width: u8,
    pub rows: [u32; MOST_POINTS],
}

/// Whether the point in this column of a row is set.
pub fn has_bit(row: u32, col: u8) -> bool
    requires { col < 32 }
    ensures { result ≡ (bit_at row col == 1) }
{
    (row >> col) & 1 == 1
}

/// The row with the point in this column set.
fn with_bit(row: u32, col: usize) -> u32
    requires { col < 32 }
    ensures set { bit_at result col ≡ 1 }
    ensures others { (i : ℕ) → i ≢ col → bit_at result i ≡ bit_at row i }
{
    row | 1 << col
}

/// The row that these bytes draw, `#` for each point that is set.
pub fn bits_of(line: &[u8]) -> u32
    requires { length line.now ≤ 32 }
    ensures { bits_of (length line.now) result ≡ map (λ b. b == 35) line.now }
{
    let mut row = 0;
    for (col, b) in line.iter().enumerate() {
        if *b == b'#' {
            row = with_bit(row, col);
        }
    }
    row
}
