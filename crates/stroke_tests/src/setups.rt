//! What the tested strokes draw with.

ghost use Rattle.std.specs.Prelude.{◌≡◌, ◌≤◌, true, length, IfSome};
ghost use Rattle.std.specs.List.{AllByRecursion};
ghost use Rattle.paint_ops.specs.Kinds.{Assets as Content};
ghost use Rattle.paint_ops.specs.Soundness.{IsClass, IsSound, IsOperation};
ghost use Rattle.strokes.specs.Strokes.{operation_of};

use bitmap::Bitmap;
use context::Context;
use gfx_base::Colour;
use glyph_font::Font;
use paint_ops::{Assets, Class, Text};
use samples::class;
use std::alloc::Global;
use strokes::Shape;

pub fn colour(value: u32) -> Colour {
    Colour::new(value).unwrap_or_default()
}

/// A font of three rows: an `A` of two columns, and a `B` of twenty whose points are far apart.
const FONT: &str = "glyph 65 2\n##\n#.\n..\nglyph 66 20\n#..................#\n\
    ....................\n.........#..........\nend\n";

/// A bitmap of 36 by 3 points, most of which are transparent.
const BITMAP: &str = "FF0000*2 -*30 00FF00*4\n-*36\n-*17 0000FF -*18\nend\n";

/// Four classes: black, green, one without a back colour, and blue.
fn classes(alloc: Global) -> Option<Vec<Class>>
    ensures few { IfSome result (λ classes. length classes.items ≤ 64) }
    ensures sound { (assets : Content)
        → IfSome result (λ classes. AllByRecursion (IsClass assets) classes.items) }
{
    let black = class(alloc, Some(colour(0)), &[], &[])?;
    let green = class(alloc, Some(colour(0xFF00)), &[], &[])?;
    let clear = class(alloc, None, &[], &[])?;
    let blue = class(alloc, Some(colour(0xFF)), &[], &[])?;
    Vec::from_array(alloc, [black, green, clear, blue]).ok()
}

fn fonts(alloc: Global) -> Option<Vec<Font>>
    ensures { IfSome result (λ fonts. length fonts.items ≡ 1) }
{
    let font = Font::read(alloc, 3, FONT.as_bytes()).ok()?;
    Vec::from_array(alloc, [font]).ok()
}

fn bitmaps(alloc: Global) -> Option<Vec<Bitmap>>
    ensures { IfSome result (λ bitmaps. length bitmaps.items ≡ 1) }
{
    let bitmap = Bitmap::read(alloc, 36, 3, BITMAP.as_bytes()).ok()?;
    Vec::from_array(alloc, [bitmap]).ok()
}

fn strings(alloc: Global) -> Option<Vec<Text>>
    ensures { IfSome result (λ strings. length strings.items ≡ 4) }
{
    let texts = [
        Text::new(b"A")?,
        Text::new(b"AB")?,
        Text::new(b"")?,
        Text::new(b"B A?A")?,
    ];
    Vec::from_array(alloc, texts).ok()
}

/// Those classes with one font, one bitmap and four strings.
pub fn assets(alloc: Global) -> Option<Assets>
    ensures { IfSome result IsSound }
{
    Some(Assets {
        classes: classes(alloc)?,
        fonts: fonts(alloc)?,
        bitmaps: bitmaps(alloc)?,
        strings: strings(alloc)?,
    })
}

/// Whether the assets have what a stroke names.
pub fn is_stroke(context: &Context, shape: &Shape, assets: &Assets) -> bool
    ensures { result ≡ true → IsOperation assets.now (operation_of context.now shape.now) }
{
    match *shape {
        Shape::Bitmap(bitmap, _, _) => usize::from(bitmap) < assets.bitmaps.len(),
        Shape::Text(_, _, string) => {
            usize::from(context.font) < assets.fonts.len()
                && usize::from(string) < assets.strings.len()
        }
        _ => true,
    }
}
