//! The subrectangles of a tile, found one after the other.

ghost use Rattle.std.specs.Prelude.{◌≡◌, ◌≢◌, ℕ, ◌+◌, ◌-◌, ◌*◌, ◌/◌, ◌%◌, ◌<◌, ◌≤◌, length, drop, take, slice_index};
ghost use Rattle.hextile.specs.Encoding.{run_length, run_height, cleared, width_at, sub_at, subrects_from};
ghost use Rattle.hextile.specs.Rows.{AreWithin};

use crate::sub::Sub;

/// The most rows of a tile.
const MOST_ROWS: usize = 16;

/// The points of a row of most tiles. A division by it is a shift.
const WHOLE: usize = 16;

/// How many points of this value stand side by side at the front.
fn run_length(value: u32, points: &[u32]) -> usize
    ensures value { result ≡ run_length value points.now }
    ensures within { result ≤ length points.now }
{
    for (i, x) in points.iter().enumerate() {
        if *x != value {
            return i;
        }
    }
    points.len()
}

/// In how many rows from a place on all points, so many in each, have this value. It stays a call:
/// as a part of the search it makes each of its steps longer, also over background.
#[inline(never)]
#[tactic(auto, using(crate::proofs::RunLemmas::steps))]
fn run_height(w: usize, value: u32, width: usize, points: &[u32], at: usize) -> usize
    requires sides { (w ≤ 16) × (1 ≤ width) × (width ≤ 16) }
    requires inside { at ≤ 256 }
    ensures value { result ≡ run_height w value width points.now at 16 }
    ensures within { AreWithin w width (length points.now) at result }
    ensures most { result ≤ 16 }
{
    let mut start = at;
    for row in 0..MOST_ROWS {
        if points.len() < start + width
            || run_length(value, &points[start..start + width]) != width
        {
            return row;
        }
        start += w;
    }
    MOST_ROWS
}

/// The subrectangle whose first point stands at a place.
#[tactic(auto, using(crate::proofs::RunLemmas::steps), unfolding(crate::specs::Encoding::sub_at))]
fn sub_at(w: usize, points: &[u32], at: usize) -> Sub
    requires sides { (1 ≤ w) × (w ≤ 16) × (length points.now ≤ 256)
        × (length points.now ≤ 16 * w) }
    requires inside { at < length points.now }
    ensures value { result ≡ sub_at w points.now at }
    ensures within { AreWithin w result.width (length points.now) at result.height }
    ensures most { (result.width ≤ 16) × (result.height ≤ 16) }
{
    let value = points[at];
    let x = if w == WHOLE { at % WHOLE } else { at % w };
    let y = if w == WHOLE { at / WHOLE } else { at / w };
    let end = (at + (w - x)).min(points.len());
    let width = run_length(value, &points[at..end]);
    let height = run_height(w, value, width, points, at);
    Sub {
        value,
        x: x as u8,
        y: y as u8,
        width: width as u8,
        height: height as u8,
    }
}

/// Makes the points of a subrectangle this value: so many points, from a place on, in so many rows.
#[tactic(auto, using(crate::proofs::RunLemmas::steps))]
pub fn clear(points: &mut [u32], w: usize, value: u32, at: usize, width: usize, rows: usize)
    requires within { AreWithin w width (length points.old) at rows }
    requires sides { (w ≤ 16) × (rows ≤ 16) × (at ≤ 256) }
    ensures value { points.new ≡ cleared w value at width rows points.old }
{
    let mut start = at;
    for _row in 0..rows {
        points[start..start + width].fill(value);
        start += w;
    }
}

/// Finds the subrectangles of the points, and puts them into `subs`. The points of each become
/// background. The answer is how many there are.
#[tactic(auto, using(crate::proofs::RunLemmas::steps))]
pub fn find_subs(points: &mut [u32], w: usize, background: u32, subs: &mut [Sub]) -> usize
    requires sides { (1 ≤ w) × (w ≤ 16) × (length points.old ≤ 256)
        × (length points.old ≤ 16 * w) }
    requires room { length points.old ≤ length subs.old }
    ensures value { take result subs.new
        ≡ subrects_from w background points.old 0 (length points.old) }
    ensures within { result ≤ length points.old }
{
    let mut count = 0;
    for at in 0..points.len() {
        if points[at] != background {
            let sub = sub_at(w, points, at);
            clear(
                points,
                w,
                background,
                at,
                usize::from(sub.width),
                usize::from(sub.height),
            );
            subs[count] = sub;
            count += 1;
        }
    }
    count
}
