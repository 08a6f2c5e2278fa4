//! The values of a frame's points.

ghost use Rattle.std.specs.Prelude.{◌≡◌, ◌+◌, ◌*◌, ◌/◌, ◌%◌, ◌<◌, ◌≤◌, take, map, length};
ghost use Rattle.std.specs.List.{range_with_len};
ghost use Rattle.frame.specs.Pictures.{colour_at};
ghost use Rattle.pixel_format.specs.Formats.{value_of};
ghost use Rattle.hextile.specs.Frames.{IsPartOf};

use frame::Frame;
use gfx_base::Colour;
use pixel_format::Format;

/// Copies the colours of a part of a frame, row by row, into `colours`. The answer is how many
/// there are.
fn copy_colours(frame: &Frame, x: u16, y: u16, w: u16, h: u16, colours: &mut [Colour]) -> usize
    requires part { IsPartOf frame.now.picture x y w h }
    requires sides { (w ≤ 16) × (h ≤ 16) × (frame.now.picture.width ≤ 1024)
        × (frame.now.picture.height ≤ 768) }
    requires room { length colours.old ≡ 256 }
    ensures colours { take result colours.new
        ≡ map (λ i. colour_at frame.now.picture (x + i % w) (y + i / w))
        (range_with_len 0 (h * w)) }
    ensures count { result ≡ h * w }
{
    let _frame_width = frame.width();
    let width = usize::from(w);
    let start = usize::from(x);
    let mut at = 0;
    for v in 0..h {
        let row = &frame.row(y + v)[start..start + width];
        colours[at..at + width].copy_from_slice(row);
        at += width;
    }
    at
}

/// Puts the values of any colours into `points`. Equal colours have equal values, so those of the
/// last two that differ are kept.
fn put_each(format: &Format, colours: &[Colour], points: &mut [u32])
    requires { length points.old ≡ length colours.now }
    ensures { points.new ≡ map (value_of format.now) colours.now }
{
    let mut one = Colour::default();
    let mut one_value = format.value(one);
    let mut other = one;
    let mut other_value = one_value;
    for (i, colour) in colours.iter().enumerate() {
        if (colour.value() != one.value()) & (colour.value() != other.value()) {
            one = other;
            one_value = other_value;
            other = *colour;
            other_value = format.value(other);
        }
        points[i] = if colour.value() == one.value() {
            one_value
        } else {
            other_value
        };
    }
}

/// Puts the values of colours into `points`. Most tiles have two colours at most, so that is tried
/// first, with no branch for each point.
fn put_values(format: &Format, colours: &[Colour], points: &mut [u32])
    requires count { length points.old ≡ length colours.now }
    requires some { 0 < length colours.now }
    ensures { points.new ≡ map (value_of format.now) colours.now }
{
    let one = colours[0].value();
    let other = colours
        .iter()
        .copied()
        .find(|colour| colour.value() != one)
        .unwrap_or(colours[0]);
    let one_value = format.value(colours[0]);
    let other_value = format.value(other);
    let mut are_two = true;
    for (i, colour) in colours.iter().enumerate() {
        let is_one = colour.value() == one;
        are_two &= is_one | (colour.value() == other.value());
        points[i] = if is_one { one_value } else { other_value };
    }
    if !are_two {
        put_each(format, colours, points);
    }
}

/// Puts the values of a part of a frame into `points`. Its colours are copied to `colours` first.
/// The answer is how many there are.
pub fn load(
    frame: &Frame,
    format: &Format,
    x: u16,
    y: u16,
    w: u16,
    h: u16,
    colours: &mut [Colour],
    points: &mut [u32],
) -> usize
    requires part { IsPartOf frame.now.picture x y w h }
    requires sides { (w ≤ 16) × (h ≤ 16) × (frame.now.picture.width ≤ 1024)
        × (frame.now.picture.height ≤ 768) }
    requires room { (length colours.old ≡ 256) × (length points.old ≡ 256) }
    ensures values { take result points.new
        ≡ map (λ i. value_of format.now (colour_at frame.now.picture (x + i % w) (y + i / w)))
        (range_with_len 0 (h * w)) }
    ensures count { result ≡ h * w }
{
    let count = copy_colours(frame, x, y, w, h, colours);
    put_values(format, &colours[..count], &mut points[..count]);
    count
}
