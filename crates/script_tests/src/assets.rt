//! Fonts, bitmaps, strings and classes of scripts.

use crate::faults::HEADER;
use bitmap::Bitmap;
use gfx_base::Colour;
use glyph_font::Font;
use paint_ops::{Base, Class, Num, Op};
use script::{Script, read};
use std::alloc::Global;

/// Assets of each kind among one another, with comments between them.
const MIXED: &str = "# 1 exec\n\nfont 0 2\nglyph 35 1\n#\n.\nglyph 65 3\n#.#\n.#.\nend\n\
    # a comment\nclass 1 000001\nnumber 0 1 2 0000FF v3\n\n# within\nend\n\
    string 0 # no comment\nbitmap 0 3 2\nFF0000 -*2\n000001*2 000001\nend\n\n\
    class 2 000002\ntext 0 w-1 h+2 0000FF 0\nbitmap 0 -1 v15\nend\nstring 1 \nfont 1 32\nend\n\
    bitmap 1 1 1\n000000\nend\nstring 2 end\nclass 3 000003\nbitmap 1 0 0\n\
    text 1 0 0 0000FF 2\nend\n# calls\n1 exec\n# font 2 1\n2 scan";

/// Whether a row of the glyph of a code has its points set just where the text has `#`.
fn shows_row(font: &Font, code: u8, row: u8, text: &str) -> bool {
    let mut col = 0u8;
    for b in text.bytes() {
        if font.is_set(code, col, row) != (b == b'#') {
            return false;
        }
        col = col.wrapping_add(1);
    }
    font.width(code) == col
}

/// Whether the glyph of a code has just these rows, which `/` parts.
fn shows(font: &Font, code: u8, rows: &str) -> bool {
    let mut row = 0u8;
    for text in rows.split('/') {
        if !shows_row(font, code, row, text) {
            return false;
        }
        row = row.wrapping_add(1);
    }
    font.height() == row
}

/// The value of a bitmap's point, or `None` where it is transparent or outside.
fn value_at(bitmap: &Bitmap, x: u16, y: u16) -> Option<u32> {
    if x < bitmap.width() && y < bitmap.height() {
        Some(bitmap.at(x, y)?.value())
    } else {
        None
    }
}

/// The bitmaps of the mixed assets: the number of each, its sides, and its points row by row.
const BITMAPS: [(usize, u16, u16, &[Option<u32>]); 2] = [
    (
        0,
        3,
        2,
        &[Some(0xFF_0000), None, None, Some(1), Some(1), Some(1)],
    ),
    (1, 1, 1, &[Some(0)]),
];

/// Whether a bitmap has these sides and points.
fn has_points(bitmap: &Bitmap, width: u16, height: u16, points: &[Option<u32>]) -> bool {
    let mut left = points.iter();
    for y in 0..height {
        for x in 0..width {
            if left.next() != Some(&value_at(bitmap, x, y)) {
                return false;
            }
        }
    }
    bitmap.width() == width && bitmap.height() == height && left.next().is_none()
}

fn are_mixed_fonts(script: &Script) -> Option<bool> {
    let fonts = script.assets.fonts.as_slice();
    let (first, second) = (fonts.first()?, fonts.get(1)?);
    Some(
        fonts.len() == 2
            && shows(first, 35, "#/.")
            && shows(first, 65, "#.#/.#.")
            && first.width(66) == 0
            && second.height() == 32
            && second.width(65) == 0,
    )
}

fn are_mixed_bitmaps(script: &Script) -> Option<bool> {
    for (number, width, height, points) in BITMAPS {
        if !has_points(script.assets.bitmaps.get(number)?, width, height, points) {
            return None;
        }
    }
    Some(script.assets.bitmaps.len() == 2)
}

fn are_mixed_strings(script: &Script) -> bool {
    let strings = ["# no comment", "", "end"];
    let mut pairs = script.assets.strings.iter().zip(&strings);
    script.assets.strings.len() == 3
        && pairs.all(|(string, text)| string.bytes() == text.as_bytes())
}

fn num(base: Base, plus: i16) -> Num {
    Num { base, plus }
}

fn blue() -> Colour {
    Colour::new(0xFF).unwrap_or_default()
}

/// The operations of the mixed classes, one after the other.
fn mixed_operations() -> [Op; 5] {
    let zero = num(Base::Zero, 0);
    [
        Op::Number(
            0,
            num(Base::Zero, 1),
            num(Base::Zero, 2),
            blue(),
            num(Base::Value(3), 0),
        ),
        Op::Text(0, num(Base::Width, -1), num(Base::Height, 2), blue(), 0),
        Op::Bitmap(0, num(Base::Zero, -1), num(Base::Value(15), 0)),
        Op::Bitmap(1, zero, zero),
        Op::Text(1, zero, zero, blue(), 2),
    ]
}

fn are_mixed_classes(script: &Script) -> bool {
    let operations = mixed_operations();
    let mut left = operations.iter();
    let mut value = 0;
    for class in script.assets.classes.as_slice() {
        if class.back != Colour::new(value) || !class.reactions.is_empty() {
            return false;
        }
        for op in class.ops.as_slice() {
            if left.next() != Some(op) {
                return false;
            }
        }
        value = value.wrapping_add(1);
    }
    value == 4 && left.next().is_none()
}

fn are_mixed_assets(alloc: Global) -> Option<bool> {
    let text = format!(in alloc; "{HEADER}{MIXED}").ok()?;
    let script = read(alloc, text.as_bytes()).ok()?;
    Some(
        are_mixed_fonts(&script)?
            && are_mixed_bitmaps(&script)?
            && are_mixed_strings(&script)
            && are_mixed_classes(&script)
            && script.lines.len() == 2,
    )
}

#[test]
fn assets_of_each_kind_with_comments_between_them(rt: HostRuntime) {
    assert_eq!(rt; are_mixed_assets(rt.alloc()), Some(true));
}

/// Coordinates: each base alone, with a number added and with one taken away.
const COORDINATES: [(&str, Base, i16); 12] = [
    ("0", Base::Zero, 0),
    ("w+32767", Base::Width, i16::MAX),
    ("h", Base::Height, 0),
    ("v15-9", Base::Value(15), -9),
    ("32767", Base::Zero, i16::MAX),
    ("w-1", Base::Width, -1),
    ("h+1", Base::Height, 1),
    ("v0", Base::Value(0), 0),
    ("-32768", Base::Zero, i16::MIN),
    ("w", Base::Width, 0),
    ("h-32768", Base::Height, i16::MIN),
    ("v9+15", Base::Value(9), 15),
];

/// Operations, where `W` to `Z` stand for four coordinates that follow one another.
const OPERATIONS: [&str; 8] = [
    "fill W X Y Z 0000FF\n",
    "frame W X Y Z 0000FF\n",
    "hline W X Y 0000FF\n",
    "vline W X Y 0000FF\n",
    "line W X Y Z 0000FF\n",
    "bitmap 1 W X\n",
    "text 1 W X 0000FF 2\n",
    "number 1 W X 0000FF Y\n",
];

/// The operation of this place among them.
fn operation(place: usize, [w, x, y, z]: [Num; 4]) -> Option<Op> {
    match place {
        0 => Some(Op::Fill(w, x, y, z, blue())),
        1 => Some(Op::Frame(w, x, y, z, blue())),
        2 => Some(Op::HLine(w, x, y, blue())),
        3 => Some(Op::VLine(w, x, y, blue())),
        4 => Some(Op::Line(w, x, y, z, blue())),
        5 => Some(Op::Bitmap(1, w, x)),
        6 => Some(Op::Text(1, w, x, blue(), 2)),
        7 => Some(Op::Number(1, w, x, blue(), y)),
        _ => None,
    }
}

/// A coordinate by its place, counted round.
fn coordinate(place: usize) -> Option<(&'static str, Num)> {
    let (text, base, plus) = *COORDINATES.get(place % COORDINATES.len())?;
    Some((text, Num { base, plus }))
}

/// Adds the line of an operation with the coordinates from this place on.
fn push_operation(text: &mut String, form: &str, place: usize) -> Option<()> {
    for sign in form.chars() {
        match sign {
            'W' => text.push_str(coordinate(place)?.0).ok()?,
            'X' => text.push_str(coordinate(place.wrapping_add(1))?.0).ok()?,
            'Y' => text.push_str(coordinate(place.wrapping_add(2))?.0).ok()?,
            'Z' => text.push_str(coordinate(place.wrapping_add(3))?.0).ok()?,
            _ => text.push(sign).ok()?,
        }
    }
    Some(())
}

/// A script whose class N has the operation N with coordinates from each place on.
fn text_of_operations(alloc: Global) -> Option<String> {
    let mut text = format!(in alloc; "{HEADER}font 0 1\nend\nfont 1 1\nend\n").ok()?;
    text.push_str(
        "bitmap 0 1 1\n-\nend\nbitmap 1 1 1\n-\nend\nstring 0 a\nstring 1 b\nstring 2 c\n",
    ).ok()?;
    let mut number = 0u32;
    for form in OPERATIONS {
        number = number.wrapping_add(1);
        text.push_str(format!(in alloc; "class {number} 000000\n").ok()?.as_str())
            .ok()?;
        for place in 0..12 {
            push_operation(&mut text, form, place)?;
        }
        text.push_str("end\n").ok()?;
    }
    Some(text)
}

/// How many operations of a class, up to the first other one, are the one of this place with the
/// coordinates from each place on.
fn operations_in(class: &Class, form: usize) -> Option<u32> {
    let mut place = 0usize;
    let mut count = 0u32;
    for op in class.ops.as_slice() {
        let nums = [
            coordinate(place)?.1,
            coordinate(place.wrapping_add(1))?.1,
            coordinate(place.wrapping_add(2))?.1,
            coordinate(place.wrapping_add(3))?.1,
        ];
        if operation(form, nums) != Some(*op) {
            return Some(count);
        }
        place = place.wrapping_add(1);
        count = count.wrapping_add(1);
    }
    Some(count)
}

/// How many operations of a script's classes are those that the lines say.
fn operations_of(script: &Script) -> Option<u32> {
    let mut count = 0u32;
    for form in 0..OPERATIONS.len() {
        let class = script.assets.classes.get(form.wrapping_add(1))?;
        count = count.wrapping_add(operations_in(class, form)?);
    }
    Some(count)
}

fn operations_read(alloc: Global) -> Option<u32> {
    let text = text_of_operations(alloc)?;
    operations_of(&read(alloc, text.as_bytes()).ok()?)
}

#[test]
fn operations_with_each_coordinate(rt: HostRuntime) {
    assert_eq!(rt; operations_read(rt.alloc()), Some(96));
}

/// A piece so often.
fn repeated(alloc: Global, piece: &str, count: u32) -> Option<String> {
    let mut text = String::new(alloc);
    for _ in 0..count {
        text.push_str(piece).ok()?;
    }
    Some(text)
}

/// Adds the largest fonts, as many as there may be. The upper half of each glyph is set.
fn push_fonts(alloc: Global, text: &mut String) -> Option<()> {
    let upper = repeated(alloc, "################################\n", 16)?;
    let lower = repeated(alloc, "................................\n", 16)?;
    for number in 0..8 {
        text.push_str(format!(in alloc; "font {number} 32\n").ok()?.as_str())
            .ok()?;
        for code in 32..=126 {
            let glyph = format!(in alloc; "glyph {code} 32\n{upper}{lower}").ok()?;
            text.push_str(glyph.as_str()).ok()?;
        }
        text.push_str("end\n").ok()?;
    }
    Some(())
}

/// Adds the largest bitmaps, as many as there may be, of one run for each point.
fn push_bitmaps(alloc: Global, text: &mut String) -> Option<()> {
    let row = repeated(alloc, "FF0000 0000FF ", 127)?;
    let body = repeated(
        alloc,
        format!(in alloc; "{row}- 0000FF\n").ok()?.as_str(),
        256,
    )?;
    for number in 0..32 {
        let bitmap = format!(in alloc; "bitmap {number} 256 256\n{body}end\n").ok()?;
        text.push_str(bitmap.as_str()).ok()?;
    }
    Some(())
}

/// Adds the longest strings and the largest classes, as many as there may be.
fn push_strings_and_classes(alloc: Global, text: &mut String) -> Option<()> {
    let long = repeated(alloc, "~", 64)?;
    for number in 0..256 {
        text.push_str(format!(in alloc; "string {number} {long}\n").ok()?.as_str())
            .ok()?;
    }
    let lines = repeated(alloc, "text 7 w-32768 v15-32768 0000FF 255\n", 64)?;
    let reactions = repeated(alloc, "on 255 set 15 -32768\n", 16)?;
    for number in 1..64 {
        let class = format!(in alloc; "class {number} FFFFFF\n{lines}{reactions}end\n").ok()?;
        text.push_str(class.as_str()).ok()?;
    }
    Some(())
}

/// Whether a font is as it was written.
fn is_large_font(font: &Font) -> bool {
    let full = "################################";
    let empty = "................................";
    for code in 32..=126 {
        if !shows_row(font, code, 15, full) || !shows_row(font, code, 16, empty) {
            return false;
        }
    }
    font.height() == 32 && font.width(127) == 0
}

/// Whether a bitmap is as it was written, in its first and its last row.
fn is_large_bitmap(bitmap: &Bitmap) -> bool {
    for y in [0, 255] {
        for x in 0..254 {
            let value = if x % 2 == 0 { 0xFF_0000 } else { 0xFF };
            if value_at(bitmap, x, y) != Some(value) {
                return false;
            }
        }
        if value_at(bitmap, 254, y).is_some() || value_at(bitmap, 255, y) != Some(0xFF) {
            return false;
        }
    }
    true
}

/// How many fonts, bitmaps, strings and classes are read as they were written.
fn largest_assets(alloc: Global) -> Option<[usize; 4]> {
    let mut text = String::from_str(alloc, HEADER).ok()?;
    push_fonts(alloc, &mut text)?;
    push_bitmaps(alloc, &mut text)?;
    push_strings_and_classes(alloc, &mut text)?;
    let assets = read(alloc, text.as_bytes()).ok()?.assets;
    let strings = assets
        .strings
        .iter()
        .filter(|string| string.bytes().len() == 64);
    let classes = assets.classes.iter().filter(|class| class.ops.len() == 64);
    Some([
        assets
            .fonts
            .iter()
            .filter(|font| is_large_font(font))
            .count(),
        assets
            .bitmaps
            .iter()
            .filter(|bitmap| is_large_bitmap(bitmap))
            .count(),
        strings.count(),
        classes.filter(|class| class.reactions.len() == 16).count(),
    ])
}

#[test]
fn the_largest_assets(rt: HostRuntime) {
    assert_eq!(rt; largest_assets(rt.alloc()), Some([8, 32, 256, 63]));
}
