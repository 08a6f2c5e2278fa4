//! What the tested operations draw with, and copies of it.

ghost use Rattle.std.specs.Prelude.{◌≡◌, ◌≤◌, length, IfSome};
ghost use Rattle.paint_ops.specs.Soundness.{IsSound};

use bitmap::Bitmap;
use gfx_base::Colour;
use glyph_font::Font;
use paint_ops::{Assets, Base, Class, Num, Op, Operand, React, Reaction, Text};
use std::alloc::Global;

pub fn red() -> Colour {
    Colour::new(0xFF_0000).unwrap_or_default()
}

/// A font of two rows with a sign, the ten digits and an `A`, which are 1 to 3 points wide, and no
/// other glyph.
const FONT: &str = "glyph 45 2\n##\n..\nglyph 48 3\n###\n#.#\nglyph 49 1\n#\n#\n\
    glyph 50 2\n#.\n##\nglyph 51 2\n.#\n##\nglyph 52 2\n##\n.#\nglyph 53 2\n##\n#.\n\
    glyph 54 3\n#..\n###\nglyph 55 3\n###\n..#\nglyph 56 1\n#\n.\nglyph 57 1\n.\n#\n\
    glyph 65 2\n#.\n.#\nend\n";

/// A bitmap of 3 by 2 points: red at the corners of the upper row and in the middle of the lower
/// one, and else transparent.
const BITMAP: &str = "FF0000 - FF0000\n- FF0000 -\nend\n";

/// The strings, each by its number.
const STRINGS: &str = "A0A|AB C0||0|-1|10|-32768|32767|-65536|65534";

/// At most 256 strings, which `|` parts.
fn strings_of(alloc: Global, all: &str) -> Option<Vec<Text>>
    ensures { IfSome result (λ strings. length strings.items ≤ 256) }
{
    let mut strings = Vec::new(alloc);
    for string in all.split('|') {
        strings.push(Text::new(string.as_bytes())?).ok()?;
    }
    if strings.len() <= 256 {
        Some(strings)
    } else {
        None
    }
}

fn fonts_of(alloc: Global) -> Option<Vec<Font>>
    ensures { IfSome result (λ fonts. length fonts.items ≡ 1) }
{
    let font = Font::read(alloc, 2, FONT.as_bytes()).ok()?;
    Vec::from_array(alloc, [font]).ok()
}

fn bitmaps_of(alloc: Global) -> Option<Vec<Bitmap>>
    ensures { IfSome result (λ bitmaps. length bitmaps.items ≡ 1) }
{
    let bitmap = Bitmap::read(alloc, 3, 2, BITMAP.as_bytes()).ok()?;
    Vec::from_array(alloc, [bitmap]).ok()
}

/// One font, one bitmap, and the strings.
pub fn assets_of(alloc: Global) -> Option<Assets>
    ensures { IfSome result IsSound }
{
    Some(Assets {
        classes: Vec::new(alloc),
        fonts: fonts_of(alloc)?,
        bitmaps: bitmaps_of(alloc)?,
        strings: strings_of(alloc, STRINGS)?,
    })
}

fn are_strings_copied(alloc: Global) -> bool {
    let Some(assets) = assets_of(alloc) else {
        return false;
    };
    let Ok(copy) = assets.copy(alloc) else {
        return false;
    };
    let counts = (copy.fonts.len(), copy.bitmaps.len(), copy.strings.len());
    counts == (1, 1, 10) && has_strings(&copy, STRINGS)
}

/// Whether the strings are these, which `|` parts.
fn has_strings(assets: &Assets, all: &str) -> bool {
    let mut i = 0;
    for string in all.split('|') {
        if i >= assets.strings.len() || assets.strings[i].bytes() != string.as_bytes() {
            return false;
        }
        i += 1;
    }
    i == assets.strings.len()
}

/// A class with a back colour, an operation and a reaction.
fn class_of(alloc: Global, fill: Op, reaction: Reaction) -> Option<Class> {
    Some(Class {
        back: Some(red()),
        ops: Vec::from_slice(alloc, &[fill]).ok()?,
        reactions: Vec::from_slice(alloc, &[reaction]).ok()?,
    })
}

fn are_classes_copied(alloc: Global) -> Option<bool> {
    let edge = Num {
        base: Base::Width,
        plus: -1,
    };
    let fill = Op::Fill(edge, edge, edge, edge, red());
    let react = React::Add(3, Operand::Argument);
    let reaction = Reaction { on: 7, react };
    let assets = Assets {
        classes: Vec::from_array(alloc, [class_of(alloc, fill, reaction)?]).ok()?,
        fonts: Vec::new(alloc),
        bitmaps: Vec::new(alloc),
        strings: Vec::new(alloc),
    };
    let copy = assets.copy(alloc).ok()?;
    let [class] = copy.classes.as_slice() else {
        return None;
    };
    let back = class.back == Some(red());
    let ops = class.ops.as_slice() == [fill].as_slice();
    let reactions = class.reactions.as_slice() == [reaction].as_slice();
    Some(back && ops && reactions)
}

#[test]
fn copies_are_equal(rt: HostRuntime) {
    assert!(rt; are_strings_copied(rt.alloc()), "strings");
    assert!(rt; are_classes_copied(rt.alloc()) == Some(true), "classes");
}
