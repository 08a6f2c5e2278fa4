//! Draws one operation again and again, so that `bench/draw` can time it. The words are the
//! operation's name and how often it is drawn; `span` fills all rows by whole spans, without an
//! operation.
#![tactic(auto)]

ghost use Rattle.std.specs.Prelude.{◌≡◌, ◌≤◌, ◌<◌, length, IfSome, IfOk};
ghost use Rattle.paint_ops.specs.Kinds.{Assets as Content};
ghost use Rattle.paint_ops.specs.Soundness.{IsBase, IsNum, IsOperation, IsSound};

use bitmap::Bitmap;
use frame::Frame;
use gfx_base::{Colour, Point};
use glyph_font::Font;
use paint_ops::{Assets, Base, Num, Op, Text, draw};
use region::Span;
use std::alloc::{AllocError, Global};
use std::env;
use std::process::ExitCode;

const WIDTH: u16 = 1024;

const HEIGHT: u16 = 768;

const LAST_COLUMN: i32 = 1023;

/// How many rows a glyph has, and how many a bitmap.
const GLYPH_ROWS: u16 = 32;

const BITMAP_ROWS: u16 = 256;

/// An operation, and in how many rows from the top it has points.
#[derive(Clone, Copy)]
struct Case {
    op: Op,
    rows: u16,
}

fn blue() -> Colour {
    Colour::new(0xFF).unwrap_or_default()
}

fn plain(plus: i16) -> Num
    ensures { IsNum result }
{
    Num {
        base: Base::Zero,
        plus,
    }
}

/// The last column or row of a window of that width or height.
fn last(base: Base) -> Num
    requires { IsBase base }
    ensures { IsNum result }
{
    Num { base, plus: -1 }
}

fn case_of(name: &str) -> Option<Case>
    ensures rows { IfSome result (λ case. case.rows ≤ 768) }
    ensures operation { (assets : Content) → 1 ≤ length assets.fonts → 1 ≤ length assets.bitmaps
        → 1 ≤ length assets.strings → IfSome result (λ case. IsOperation assets case.op) }
{
    let (x0, y0) = (plain(0), plain(0));
    let (x1, y1) = (last(Base::Width), last(Base::Height));
    let (op, rows) = match name {
        "fill" => (Op::Fill(x0, y0, x1, y1, blue()), HEIGHT),
        "frame" => (Op::Frame(x0, y0, x1, y1, blue()), HEIGHT),
        "hline" => (Op::HLine(x0, x1, y0, blue()), 1),
        "vline" => (Op::VLine(x0, y0, y1, blue()), HEIGHT),
        "line" => (Op::Line(x0, y0, x1, y1, blue()), HEIGHT),
        "bitmap" => (Op::Bitmap(0, x0, y0), BITMAP_ROWS),
        "text" => (Op::Text(0, x0, y0, blue(), 0), GLYPH_ROWS),
        "number" => (Op::Number(0, x0, y0, blue(), plain(-32768)), GLYPH_ROWS),
        _ => return None,
    };
    Some(Case { op, rows })
}

/// A text of one line and others like it, and the line `end`.
fn push_lines(text: &mut String, line: &str, count: u16) -> Result<(), AllocError> {
    for _ in 0..count {
        text.push_str(line)?;
        text.push_str("\n")?;
    }
    Ok(())
}

/// A font whose glyphs, a sign, the ten digits and an `A`, are full squares of 32 by 32 points.
fn font(alloc: Global) -> Option<Font> {
    let mut text = String::new(alloc);
    for head in [
        "glyph 45 32",
        "glyph 48 32",
        "glyph 49 32",
        "glyph 50 32",
        "glyph 51 32",
        "glyph 52 32",
        "glyph 53 32",
        "glyph 54 32",
        "glyph 55 32",
        "glyph 56 32",
        "glyph 57 32",
        "glyph 65 32",
    ] {
        push_lines(&mut text, head, 1).ok()?;
        push_lines(&mut text, "################################", GLYPH_ROWS).ok()?;
    }
    push_lines(&mut text, "end", 1).ok()?;
    Font::read(alloc, GLYPH_ROWS as u8, text.as_bytes()).ok()
}

/// A bitmap of 256 by 256 points, none of them transparent.
fn bitmap(alloc: Global) -> Option<Bitmap> {
    let mut text = String::new(alloc);
    push_lines(&mut text, "0000FF*256", BITMAP_ROWS).ok()?;
    push_lines(&mut text, "end", 1).ok()?;
    Bitmap::read(alloc, BITMAP_ROWS, BITMAP_ROWS, text.as_bytes()).ok()
}

/// One font, one bitmap, and a string of as many letters as the screen is wide.
fn assets(alloc: Global) -> Option<Assets>
    ensures sound { IfSome result IsSound }
    ensures one { IfSome result
        (λ assets. (1 ≤ length assets.fonts) × (1 ≤ length assets.bitmaps)
        × (1 ≤ length assets.strings)) }
{
    let mut fonts = Vec::with_capacity(alloc, 1).ok()?;
    fonts.push_reserved(font(alloc)?);
    let mut bitmaps = Vec::with_capacity(alloc, 1).ok()?;
    bitmaps.push_reserved(bitmap(alloc)?);
    let mut strings = Vec::with_capacity(alloc, 1).ok()?;
    strings.push_reserved(Text::new(b"AAAAAAAAAAAAAAAAAAAAAAAAAAAAAAAA")?);
    Some(Assets {
        classes: Vec::new(alloc),
        fonts,
        bitmaps,
        strings,
    })
}

/// Draws the operation of a window as large as the screen, on all its rows.
fn draw_case(case: &Case, assets: &Assets, target: &mut Frame)
    requires sound { IsSound assets.now }
    requires operation { IsOperation assets.now case.now.op }
    requires rows { case.now.rows ≤ 768 }
    requires width { target.old.picture.width ≡ 1024 }
    requires height { target.old.picture.height ≡ 768 }
    ensures width { target.new.picture.width ≡ 1024 }
    ensures height { target.new.picture.height ≡ 768 }
{
    let values = [0; 16];
    let span = [Span {
        x0: 0,
        x1: LAST_COLUMN,
    }];
    for y in 0..case.rows {
        draw(
            &case.op,
            &values,
            WIDTH,
            HEIGHT,
            Point { x: 0, y: 0 },
            y,
            &span,
            assets,
            target,
        );
    }
}

/// Fills all rows.
fn fill_spans(target: &mut Frame)
    requires width { target.old.picture.width ≡ 1024 }
    requires height { target.old.picture.height ≡ 768 }
    ensures width { target.new.picture.width ≡ 1024 }
    ensures height { target.new.picture.height ≡ 768 }
{
    for y in 0..HEIGHT {
        target.fill_span(y, 0, WIDTH - 1, blue());
    }
}

/// Draws what the name says so often, and tells whether it is a name.
fn draw_named(name: &str, rounds: u32, assets: &Assets, target: &mut Frame) -> bool
    requires sound { IsSound assets.now }
    requires one { (1 ≤ length assets.now.fonts) × (1 ≤ length assets.now.bitmaps)
        × (1 ≤ length assets.now.strings) }
    requires width { target.old.picture.width ≡ 1024 }
    requires height { target.old.picture.height ≡ 768 }
    ensures width { target.new.picture.width ≡ 1024 }
    ensures height { target.new.picture.height ≡ 768 }
{
    if name == "span" {
        for _ in 0..rounds {
            fill_spans(target);
        }
        return true;
    }
    let Some(case) = case_of(name) else {
        return false;
    };
    for _ in 0..rounds {
        draw_case(&case, assets, target);
    }
    true
}

/// Does what the words say, and gives the colour of the first point. `None` where memory runs out
/// or the words are others.
fn run(rt: &HostRuntime) -> Option<u32> {
    let alloc = rt.alloc();
    let mut words = env::args(rt).ok()?.skip(1);
    let name = words.next()?;
    let rounds = words.next()?.parse::<u32>().ok()?;
    let assets = assets(alloc)?;
    let mut target = Frame::new(alloc, WIDTH, HEIGHT).ok()?;
    if draw_named(name.as_str(), rounds, &assets, &mut target) {
        Some(target.get(0, 0).value())
    } else {
        None
    }
}

fn main(rt: HostRuntime) -> ExitCode {
    let Some(colour) = run(&rt) else {
        return ExitCode::from(2);
    };
    match println!(rt; "{colour}") {
        Ok(()) => ExitCode::from(0),
        Err(_) => ExitCode::from(1),
    }
}
