//! Encodes a picture of 1,024 by 768 points again and again, so that `bench/hextile` can time it.
//! The words are the picture, the format, how it is encoded, and how often. It tells how many bytes
//! the picture takes.
#![tactic(auto)]

ghost use Rattle.std.specs.Prelude.{◌≤◌};

use frame::Frame;
use gfx_base::{Colour, Rect};
use hextile::encode;
use pixel_format::Format;
use std::alloc::Global;
use std::env;
use std::process::ExitCode;

const WIDTH: u16 = 1024;

const HEIGHT: u16 = 768;

/// 16 bits, with 5, 6 and 5 bits.
const SMALL: [u8; 16] = [16, 16, 0, 1, 0, 31, 0, 63, 0, 31, 11, 5, 0, 0, 0, 0];

/// 8 bits, with 3, 3 and 2 bits.
const TINY: [u8; 16] = [8, 8, 0, 1, 0, 7, 0, 7, 0, 3, 5, 2, 0, 0, 0, 0];

/// The colour of a point of a desktop: windows in a grid, each with a title, a frame and text.
fn desktop(x: u32, y: u32) -> u32 {
    let (column, row) = (x % 200, y % 150);
    if column < 2 || row < 2 {
        0x103050
    } else if row < 18 {
        0x0000A0
    } else if row % 12 < 8 && column % 7 < 5 && (column * row) % 3 == 0 {
        0
    } else {
        0xC0C0C0
    }
}

/// A colour as good as by chance.
fn noise(x: u32, y: u32) -> u32 {
    x.wrapping_mul(2_654_435_761)
        .wrapping_add(y.wrapping_mul(2_246_822_519))
        .wrapping_mul(3_266_489_917)
        >> 8
}

/// The colour of a point of the picture with this name. `None` where there is none.
fn colour_of(picture: &str, x: u16, y: u16) -> Option<Colour> {
    let (x, y) = (u32::from(x), u32::from(y));
    match picture {
        "plain" => Colour::new(0x103050),
        "desktop" => Colour::new(desktop(x, y)),
        "noise" => Colour::new(noise(x, y)),
        _ => None,
    }
}

/// A frame of these sides with the picture of this name.
fn painted(alloc: Global, picture: &str, w: u16, h: u16) -> Option<Frame>
    requires width { (1 ≤ w) × (w ≤ 1024) }
    requires height { (1 ≤ h) × (h ≤ 768) }
{
    let mut frame = Frame::new(alloc, w, h).ok()?;
    for y in 0..h {
        for x in 0..w {
            frame.put(x, y, colour_of(picture, x, y)?);
        }
    }
    Some(frame)
}

/// The format with this name.
fn format_of(name: &str) -> Option<Format> {
    match name {
        "32" => Some(Format::first()),
        "16" => Format::read(&SMALL).ok(),
        "8" => Format::read(&TINY).ok(),
        _ => None,
    }
}

/// The bytes of a frame's points as they are.
fn raw(alloc: Global, frame: &Frame, format: &Format) -> Option<usize> {
    let count = format.bytes();
    let room = usize::from(frame.height()) * usize::from(frame.width()) * count;
    let mut out = Vec::with_capacity(alloc, room).ok()?;
    for y in 0..frame.height() {
        for x in 0..frame.width() {
            if out.capacity() - out.len() >= count {
                format.put(format.value(frame.get(x, y)), &mut out);
            }
        }
    }
    Some(out.len())
}

/// The hextile data of a frame.
fn hextile(alloc: Global, frame: &Frame, format: &Format) -> Option<usize> {
    let (w, h) = (frame.width(), frame.height());
    let tiles = usize::from((h + 15) / 16) * usize::from((w + 15) / 16);
    let pixels = usize::from(h) * usize::from(w) * format.bytes();
    let mut out = Vec::with_capacity(alloc, tiles + pixels).ok()?;
    let whole = Rect {
        x0: 0,
        y0: 0,
        x1: i32::from(w) - 1,
        y1: i32::from(h) - 1,
    };
    encode(frame, &whole, format, &mut out);
    Some(out.len())
}

/// Encodes a frame so often, and gives how many bytes it takes.
fn repeat(alloc: Global, frame: &Frame, format: &Format, way: &str, rounds: u32) -> Option<usize> {
    let mut bytes = 0;
    for _ in 0..rounds {
        bytes = match way {
            "hextile" => hextile(alloc, frame, format)?,
            "raw" => raw(alloc, frame, format)?,
            _ => return None,
        };
    }
    Some(bytes)
}

/// What the words ask for.
#[derive(Drop)]
struct Asked {
    picture: String,
    format: String,
    way: String,
    rounds: u32,
}

/// The words. `None` where they are others.
fn words(rt: &HostRuntime) -> Option<Asked> {
    let mut words = env::args(rt).ok()?.skip(1);
    Some(Asked {
        picture: words.next()?,
        format: words.next()?,
        way: words.next()?,
        rounds: words.next()?.parse::<u32>().ok()?,
    })
}

/// Does what the words ask for. `None` where memory runs out, or a word is no name.
fn measure(alloc: Global, asked: &Asked) -> Option<usize> {
    let frame = painted(alloc, asked.picture.as_str(), WIDTH, HEIGHT)?;
    let format = format_of(asked.format.as_str())?;
    repeat(alloc, &frame, &format, asked.way.as_str(), asked.rounds)
}

fn main(rt: HostRuntime) -> ExitCode {
    let Some(asked) = words(&rt) else {
        return ExitCode::from(2);
    };
    let Some(told) = measure(rt.alloc(), &asked) else {
        return ExitCode::from(2);
    };
    match println!(rt; "{told}") {
        Ok(()) => ExitCode::from(0),
        Err(_) => ExitCode::from(1),
    }
}
