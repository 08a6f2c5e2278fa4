//! The bytes of a rectangle of a frame.

ghost use Rattle.std.specs.Prelude.{◌≡◌, ℕ, ◌+◌, ◌*◌, ◌/◌, ◌%◌, ◌<◌, ◌≤◌, ◌++◌, take, map, length, vec_len, vec_capacity, pos, ◌-ℤ◌, ◌≤ℤ◌, ◌<ℤ◌};
ghost use Rattle.std.specs.List.{range_with_len};
ghost use Rattle.frame.specs.Pictures.{colour_at};
ghost use Rattle.pixel_format.specs.Formats.{byte_count, value_of};
ghost use Rattle.hextile.specs.Tiles.{tile_side, tiles_along, tile_at};
ghost use Rattle.hextile.specs.Encoding.{encoding_of, tile_of};
ghost use Rattle.hextile.specs.Frames.{values_in, IsPartOf};
ghost use Rattle.hextile.specs.Rectangles.{natural, IsInside, width_of, height_of, rect_values, room_for};
ghost use Rattle.hextile.specs.Rows.{IsTile};

use crate::known::Known;
use crate::loading::load;
use crate::sub::Sub;
use crate::tile::{MOST_POINTS, put_tile};
use frame::Frame;
use gfx_base::{Colour, Rect};
use pixel_format::Format;

/// The side of a tile in points.
const TILE_SIDE: u16 = 16;

/// How many tiles lie side by side on so many points.
fn tile_count(side: u16) -> u16
    requires { side ≤ 1024 }
    ensures { result ≡ tiles_along side }
{
    (side + (TILE_SIDE - 1)) / TILE_SIDE
}

/// The side of the tile with this number, of those that lie side by side on so many points.
fn tile_side(side: u16, number: u16) -> u16
    requires within { number * 16 < side }
    requires few { side ≤ 1024 }
    ensures { result ≡ tile_side side number }
{
    (side - number * TILE_SIDE).min(TILE_SIDE)
}

/// Puts the values of a tile of a part of a frame into `points`. The answer is how many a row has,
/// and how many there are.
fn load_tile(
    frame: &Frame,
    format: &Format,
    x: u16,
    y: u16,
    w: u16,
    h: u16,
    number: u16,
    colours: &mut [Colour],
    points: &mut [u32],
) -> (usize, usize)
    requires part { IsPartOf frame.now.picture x y w h }
    requires number { number < tiles_along h * tiles_along w }
    requires room { (length colours.old ≡ 256) × (length points.old ≡ 256) }
    ensures tile { tile_of result.0 (take result.1 points.new)
        ≡ tile_at w h (values_in format.now frame.now.picture x y w h) number }
    ensures shape { IsTile result.0 (length (take result.1 points.new)) }
    ensures count { length (take result.1 points.new) ≡ result.1 }
    ensures few { result.1 ≤ 256 }
{
    let _frame_width = frame.width();
    let columns = tile_count(w);
    let col = number % columns;
    let row = number / columns;
    let width = tile_side(w, col);
    let height = tile_side(h, row);
    let count = load(
        frame,
        format,
        x + col * TILE_SIDE,
        y + row * TILE_SIDE,
        width,
        height,
        colours,
        points,
    );
    (usize::from(width), count)
}

/// Appends the bytes of a part of a frame: the w by h points from column x and row y on. There is
/// room for the raw pixels and a byte for each tile.
fn encode_part(frame: &Frame, x: u16, y: u16, w: u16, h: u16, format: &Format, out: &mut Vec<u8>)
    requires part { IsPartOf frame.now.picture x y w h }
    requires room { vec_len out.old
        + (tiles_along h * tiles_along w + h * w * byte_count format.now) ≤ vec_capacity out.old }
    ensures bytes { out.new.items ≡ out.old.items
        ++ encoding_of format.now w h (values_in format.now frame.now.picture x y w h) }
    ensures room { vec_capacity out.new ≡ vec_capacity out.old }
{
    let _frame_width = frame.width();
    let _pixel_bytes = format.bytes();
    let mut colours = [Colour::default(); MOST_POINTS];
    let mut points = [0; MOST_POINTS];
    let mut left = [0; MOST_POINTS];
    let mut subs = [Sub::default(); MOST_POINTS];
    let mut known = Known {
        background: None,
        foreground: None,
    };
    for number in 0..tile_count(h) * tile_count(w) {
        let (width, count) = load_tile(
            frame,
            format,
            x,
            y,
            w,
            h,
            number,
            &mut colours,
            &mut points,
        );
        known = put_tile(
            format,
            &points[..count],
            width,
            known,
            &mut left,
            &mut subs,
            out,
        );
    }
}

/// A number of the screen as a natural one.
fn natural(z: i32) -> u16
    requires low { pos 0 ≤ℤ z }
    requires high { z <ℤ pos 1024 }
    ensures { result ≡ natural z }
{
    z as u16
}

/// How many numbers lie from one to another, both included.
fn side(low: i32, high: i32) -> u16
    requires low { pos 0 ≤ℤ low }
    requires some { low ≤ℤ high }
    requires high { high <ℤ pos 1024 }
    ensures { result ≡ natural (high -ℤ low) + 1 }
{
    natural(high - low) + 1
}

/// Appends the bytes of a rectangle of a frame, which lies on it and isn't empty (RFC 6143, section
/// 7.7.4). There is spare room for the raw pixels and a byte for each tile, and no memory is taken.
pub fn encode(frame: &Frame, rect: &Rect, format: &Format, out: &mut Vec<u8>)
    requires inside { IsInside rect.now frame.now.picture }
    requires room { vec_len out.old + room_for format.now rect.now ≤ vec_capacity out.old }
    ensures bytes { out.new.items ≡ out.old.items
        ++ encoding_of format.now (width_of rect.now) (height_of rect.now)
        (rect_values format.now frame.now.picture rect.now) }
    ensures room { vec_capacity out.new ≡ vec_capacity out.old }
{
    let _frame_width = frame.width();
    encode_part(
        frame,
        natural(rect.x0),
        natural(rect.y0),
        side(rect.x0, rect.x1),
        side(rect.y0, rect.y1),
        format,
        out,
    );
}
