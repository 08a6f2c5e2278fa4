//! The parts of a tile, as bytes.

ghost use Rattle.std.specs.Prelude.{◌≡◌, ◌+◌, ◌*◌, ◌<◌, ◌≤◌, ◌++◌, [], ◌∷◌, All, length, vec_len, vec_capacity};
ghost use Rattle.std.specs.List.{flat_map};
ghost use Rattle.pixel_format.specs.Formats.{byte_count, pixel_bytes};
ghost use Rattle.hextile.specs.Encoding.{pixel_unless, bit_unless, pixel_size, sub_bytes, coloured_sub};
ghost use Rattle.hextile.specs.Rows.{IsSmall};

use crate::sub::Sub;
use pixel_format::Format;

/// The pixel, unless it is known.
pub fn put_unless(format: &Format, known: bool, value: u32, out: &mut Vec<u8>)
    requires room { vec_len out.old + byte_count format.now ≤ vec_capacity out.old }
    ensures bytes { out.new.items ≡ out.old.items ++ pixel_unless format.now known value }
    ensures count { vec_len out.new ≡ vec_len out.old + pixel_size format.now known }
    ensures room { vec_capacity out.new ≡ vec_capacity out.old }
{
    if !known {
        format.put(value, out);
    }
}

/// The bit of the mask that announces it, unless it is known.
pub fn bit_unless(known: bool, bit: u8) -> u8
    ensures { result ≡ bit_unless known bit }
{
    if known { 0 } else { bit }
}

/// How many bytes the pixel takes, unless it is known.
pub fn size_unless(format: &Format, known: bool) -> usize
    ensures value { result ≡ pixel_size format.now known }
    ensures within { result ≤ byte_count format.now }
{
    if known { 0 } else { format.bytes() }
}

/// The place and the sides of a subrectangle.
fn put_sub(s: Sub, out: &mut Vec<u8>)
    requires small { IsSmall s }
    requires room { vec_len out.old + 2 ≤ vec_capacity out.old }
    ensures bytes { out.new.items ≡ out.old.items ++ sub_bytes s }
    ensures room { vec_capacity out.new ≡ vec_capacity out.old }
{
    out.push_reserved(s.x * 16 + s.y);
    out.push_reserved((s.width - 1) * 16 + (s.height - 1));
}

/// Subrectangles without their pixels.
pub fn put_plain(subs: &[Sub], out: &mut Vec<u8>)
    requires small { All IsSmall subs.now }
    requires room { vec_len out.old + length subs.now * 2 ≤ vec_capacity out.old }
    ensures bytes { out.new.items ≡ out.old.items ++ flat_map sub_bytes subs.now }
    ensures room { vec_capacity out.new ≡ vec_capacity out.old }
{
    for s in subs {
        put_sub(*s, out);
    }
}

/// Subrectangles, each with its pixel.
pub fn put_coloured(format: &Format, subs: &[Sub], out: &mut Vec<u8>)
    requires small { All IsSmall subs.now }
    requires room { vec_len out.old + length subs.now * (byte_count format.now + 2)
        ≤ vec_capacity out.old }
    ensures bytes { out.new.items ≡ out.old.items ++ flat_map (coloured_sub format.now) subs.now }
    ensures room { vec_capacity out.new ≡ vec_capacity out.old }
{
    for s in subs {
        format.put(s.value, out);
        put_sub(*s, out);
    }
}

/// Pixels.
pub fn put_pixels(format: &Format, points: &[u32], out: &mut Vec<u8>)
    requires room { vec_len out.old + length points.now * byte_count format.now
        ≤ vec_capacity out.old }
    ensures bytes { out.new.items
        ≡ out.old.items ++ flat_map (pixel_bytes format.now) points.now }
    ensures room { vec_capacity out.new ≡ vec_capacity out.old }
{
    for value in points {
        format.put(*value, out);
    }
}
