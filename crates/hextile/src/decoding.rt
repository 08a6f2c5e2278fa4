//! Hextile data, decoded.

ghost use Rattle.std.specs.Prelude.{◌≡◌, ℕ, ◌*◌, ◌≤◌, List, Ok, Err, replicate, length, IfOk, IfErr, MatchResult};
ghost use Rattle.hextile.specs.declared.refused.DecodeRefused.{DecodeRefused};
ghost use Rattle.hextile.specs.Tiles.{tiles_of};
ghost use Rattle.hextile.specs.Meaning.{DecodesTo};
ghost use Rattle.hextile.specs.Reading.{read_rectangle};
ghost use Rattle.hextile.specs.Refusals.{IsRefused};

use crate::grid::Grid;
use crate::known::Known;
use crate::pixels::Fault;
use crate::reading::read_tile;
use crate::refused::DecodeRefused;
use crate::sub::Sub;
use crate::tile::MOST_POINTS;
use pixel_format::Format;
use pixel_format::laws::bytes_tell_value;
use std::alloc::Global;

/// Reads all tiles of a rectangle, and puts their values into `values`. The answer is what follows
/// them.
#[tactic(auto, using(crate::proofs::PlaceLemmas::tiles))]
fn read_tiles<'a>(
    format: &Format,
    grid: Grid,
    bytes: &'a [u8],
    values: &mut [u32],
) -> Result<&'a [u8], Fault>
    requires sides { (grid.w ≤ 65535) × (grid.h ≤ 65535) }
    requires values { length values.old ≡ grid.h * grid.w }
    ensures { MatchResult result
        (λ rest. read_rectangle format.now grid.w grid.h bytes.now
        ≡ Ok (tiles_of grid.w grid.h values.new, rest.now))
        (λ fault. read_rectangle format.now grid.w grid.h bytes.now ≡ Err fault.left) }
{
    let mut points = [0; MOST_POINTS];
    let mut subs = [Sub::default(); MOST_POINTS];
    let mut known = Known {
        background: None,
        foreground: None,
    };
    let mut rest = bytes;
    for number in 0..grid.count() {
        let width = grid.width(number);
        let height = grid.height(number);
        let (after, left) = read_tile(format, known, width, height, rest, &mut points, &mut subs)?;
        grid.place(number, &points[..height * width], values);
        known = after;
        rest = left;
    }
    Ok(rest)
}

/// The values of a rectangle of w by h points, row by row, that these bytes mean as hextile data
/// (RFC 6143, section 7.7.4). The bytes have to be those of its tiles, and no more. A subrectangle
/// lies in its tile; the bits 32 to 128 of a mask are 0, bits 4 and 16 aren't set together, and bit
/// 16 is set only with bit 8, but where bit 1 is set no other has a meaning; and what a tile
/// doesn't tell is known of the tiles before it.
pub fn decode(
    alloc: Global,
    bytes: &[u8],
    w: u16,
    h: u16,
    format: &Format,
) -> Result<Vec<u32>, DecodeRefused>
    ensures values { IfOk result (λ values. DecodesTo format.now w h bytes.now values.items) }
    ensures only { (meant : List ℕ) → DecodesTo format.now w h bytes.now meant
        → MatchResult result (λ values. values.items ≡ meant) (λ e. e ≡ DecodeRefused.Memory) }
    ensures refused { IfErr result (IsRefused format.now w h bytes.now) }
{
    bytes_tell_value();
    let _pixel_bytes = format.bytes();
    let grid = Grid {
        w: usize::from(w),
        h: usize::from(h),
    };
    let mut values = vec![in alloc; 0; grid.h * grid.w]?;
    match read_tiles(format, grid, bytes, &mut values) {
        Ok([]) => Ok(values),
        Ok(rest) => Err(DecodeRefused::Bad {
            at: bytes.len() - rest.len(),
        }),
        Err(fault) => Err(DecodeRefused::Bad {
            at: bytes.len() - fault.left,
        }),
    }
}
