//! Where a line stands.

ghost use Rattle.std.specs.Prelude.{◌≡◌};
ghost use Rattle.glyph_font.specs.Faults.{why_at};

use crate::fault::FontWhy;

/// What the next line has to be.
#[derive(Clone, Copy, Debug, PartialEq, Eq)]
pub enum Place {
    /// A glyph's first line, or `end`.
    Between,
    /// A row of the last glyph.
    Within,
    /// Nothing: the line before is `end`.
    After,
}

/// What is wrong with a line that doesn't belong at a place.
pub fn why_at(place: Place) -> FontWhy
    ensures { result ≡ why_at place }
{
    match place {
        Place::Between => FontWhy::Glyph,
        Place::Within => FontWhy::Row,
        Place::After => FontWhy::End,
    }
}
