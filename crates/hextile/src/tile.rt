//! The bytes of one tile.

ghost use Rattle.std.specs.Prelude.{◌≡◌, ℕ, IsTrue, ◌+◌, ◌*◌, ◌<◌, ◌≤◌, ◌++◌, [], ◌∷◌, All, Some, None, take, length, vec_len, vec_capacity};
ghost use Rattle.std.specs.List.{flat_map};
ghost use Rattle.pixel_format.specs.Formats.{byte_count, pixel_bytes};
ghost use Rattle.hextile.specs.Tiles.{nothing_known};
ghost use Rattle.hextile.specs.Encoding.{subrects, one_value, two_values, more_values, raw, or_shorter, coded, coded_by, coded_by_third, tile_of};
ghost use Rattle.hextile.specs.Rows.{IsTile, IsSmall, HasPoint};

use crate::counts::{count, count_buckets, most_common, other_than};
use crate::known::{Known, is_known};
use crate::put::{bit_unless, put_coloured, put_pixels, put_plain, put_unless, size_unless};
use crate::sub::Sub;
use crate::sub::finding::find_subs;
use pixel_format::Format;

/// The most points of a tile.
pub const MOST_POINTS: usize = 256;

/// Finds the subrectangles of a tile and puts them into `subs`. The answer is how many there are.
fn find_all(points: &[u32], w: usize, back: u32, left: &mut [u32], subs: &mut [Sub]) -> usize
    requires tile { IsTile w (length points.now) }
    requires back { HasPoint points.now back }
    requires room { (length left.old ≡ 256) × (length subs.old ≡ 256) }
    ensures value { take result subs.new ≡ subrects w back points.now }
    ensures count { result ≡ length (subrects w back points.now) }
    ensures few { result ≤ 255 }
    ensures small { All IsSmall (take result subs.new) }
{
    let count = points.len();
    left[..count].copy_from_slice(points);
    find_subs(&mut left[..count], w, back, subs)
}

/// The pixels themselves.
fn put_raw(format: &Format, points: &[u32], out: &mut Vec<u8>) -> Known
    requires room { vec_len out.old + (1 + length points.now * byte_count format.now)
        ≤ vec_capacity out.old }
    ensures bytes { out.new.items
        ≡ out.old.items ++ (1 ∷ flat_map (pixel_bytes format.now) points.now) }
    ensures after { result ≡ nothing_known }
    ensures room { vec_capacity out.new ≡ vec_capacity out.old }
{
    out.push_reserved(1);
    put_pixels(format, points, out);
    Known {
        background: None,
        foreground: None,
    }
}

/// A tile of one value.
fn put_one(format: &Format, known: Known, c: u32, out: &mut Vec<u8>) -> Known
    requires room { vec_len out.old + (1 + byte_count format.now) ≤ vec_capacity out.old }
    ensures bytes { out.new.items ≡ out.old.items ++ (one_value format.now known c).bytes }
    ensures after { result ≡ (one_value format.now known c).after }
    ensures room { vec_capacity out.new ≡ vec_capacity out.old }
{
    let same = is_known(known.background, c);
    out.push_reserved(bit_unless(same, 2));
    put_unless(format, same, c, out);
    Known {
        background: Some(c),
        foreground: known.foreground,
    }
}

/// A tile of two values.
#[tactic(auto, using(crate::proofs::SizeLemmas::sizes))]
fn put_two(
    format: &Format,
    points: &[u32],
    w: usize,
    known: Known,
    back: u32,
    fore: u32,
    left: &mut [u32],
    subs: &mut [Sub],
    out: &mut Vec<u8>,
) -> Known
    requires tile { IsTile w (length points.now) }
    requires back { HasPoint points.now back }
    requires work { (length left.old ≡ 256) × (length subs.old ≡ 256) }
    requires room { vec_len out.old + (1 + length points.now * byte_count format.now)
        ≤ vec_capacity out.old }
    ensures bytes { out.new.items ≡ out.old.items ++ (or_shorter format.now (tile_of w points.now)
        (two_values format.now known (tile_of w points.now) back fore)).bytes }
    ensures after { result ≡ (or_shorter format.now (tile_of w points.now)
        (two_values format.now known (tile_of w points.now) back fore)).after }
    ensures room { vec_capacity out.new ≡ vec_capacity out.old }
{
    let same = is_known(known.background, back);
    let fore_same = is_known(known.foreground, fore);
    let count = find_all(points, w, back, left, subs);
    let most = 1 + points.len() * format.bytes();
    let size = 2 + size_unless(format, same) + size_unless(format, fore_same) + count * 2;
    if most < size {
        return put_raw(format, points, out);
    }
    out.push_reserved(8 + bit_unless(same, 2) + bit_unless(fore_same, 4));
    put_unless(format, same, back, out);
    put_unless(format, fore_same, fore, out);
    out.push_reserved(count as u8);
    put_plain(&subs[..count], out);
    Known {
        background: Some(back),
        foreground: Some(fore),
    }
}

/// A tile of more values.
#[tactic(auto, using(crate::proofs::SizeLemmas::sizes))]
fn put_more(
    format: &Format,
    points: &[u32],
    w: usize,
    known: Known,
    back: u32,
    left: &mut [u32],
    subs: &mut [Sub],
    out: &mut Vec<u8>,
) -> Known
    requires tile { IsTile w (length points.now) }
    requires back { HasPoint points.now back }
    requires work { (length left.old ≡ 256) × (length subs.old ≡ 256) }
    requires room { vec_len out.old + (1 + length points.now * byte_count format.now)
        ≤ vec_capacity out.old }
    ensures bytes { out.new.items ≡ out.old.items ++ (or_shorter format.now (tile_of w points.now)
        (more_values format.now known (tile_of w points.now) back)).bytes }
    ensures after { result ≡ (or_shorter format.now (tile_of w points.now)
        (more_values format.now known (tile_of w points.now) back)).after }
    ensures room { vec_capacity out.new ≡ vec_capacity out.old }
{
    let same = is_known(known.background, back);
    let count = find_all(points, w, back, left, subs);
    let most = 1 + points.len() * format.bytes();
    let size = 2 + size_unless(format, same) + count * (format.bytes() + 2);
    if most < size {
        return put_raw(format, points, out);
    }
    out.push_reserved(24 + bit_unless(same, 2));
    put_unless(format, same, back, out);
    out.push_reserved(count as u8);
    put_coloured(format, &subs[..count], out);
    Known {
        background: Some(back),
        foreground: None,
    }
}

/// Whether a tile has so many values that its pixels are shorter than its subrectangles, whichever
/// value is the background: each other value takes a subrectangle at least.
fn has_many(format: &Format, points: &[u32]) -> bool
    requires { length points.now ≤ 256 }
    ensures { IsTrue result → (w back : ℕ) → IsTile w (length points.now) → HasPoint points.now back
        → 1 + length points.now * byte_count format.now
        < 2 + length (subrects w back points.now) * (byte_count format.now + 2) }
{
    let count = count_buckets(points);
    let bytes = format.bytes();
    1 + points.len() * bytes + (bytes + 2) < 2 + count * (bytes + 2)
}

/// Appends the bytes of a tile. The answer is what is known after it.
#[tactic(auto, unfolding(crate::specs::Encoding::coded))]
pub fn put_tile(
    format: &Format,
    points: &[u32],
    w: usize,
    known: Known,
    left: &mut [u32],
    subs: &mut [Sub],
    out: &mut Vec<u8>,
) -> Known
    requires tile { IsTile w (length points.now) }
    requires work { (length left.old ≡ 256) × (length subs.old ≡ 256) }
    requires room { vec_len out.old + (1 + length points.now * byte_count format.now)
        ≤ vec_capacity out.old }
    ensures bytes { out.new.items
        ≡ out.old.items ++ (coded format.now known (tile_of w points.now)).bytes }
    ensures after { result ≡ (coded format.now known (tile_of w points.now)).after }
    ensures room { vec_capacity out.new ≡ vec_capacity out.old }
{
    let _pixel_bytes = format.bytes();
    let a = points[0];
    let Some(b) = other_than(points, a) else {
        return put_one(format, known, a, out);
    };
    let a_count = count(points, a);
    let b_count = count(points, b);
    if a_count + b_count == points.len() {
        let back = if a_count < b_count { b } else { a };
        let fore = if back == a { b } else { a };
        return put_two(format, points, w, known, back, fore, left, subs, out);
    }
    if has_many(format, points) {
        return put_raw(format, points, out);
    }
    let back = most_common(points);
    put_more(format, points, w, known, back, left, subs, out)
}
