//! Where a line stands.

ghost use Rattle.std.specs.Prelude.{◌≡◌};
ghost use Rattle.bitmap.specs.Faults.{why_at};

use crate::fault::BitmapWhy;

/// What the lines so far are.
#[derive(Clone, Copy, Debug, PartialEq, Eq)]
pub enum Place {
    /// So many rows, at most all of them.
    AfterRows(u16),
    /// All rows, and the line `end`.
    AfterEnd,
}

/// What is wrong with a line that doesn't belong at a place.
pub fn why_at(height: u16, place: Place) -> BitmapWhy
    ensures { result ≡ why_at height place }
{
    match place {
        Place::AfterRows(many) if many < height => BitmapWhy::Row,
        _ => BitmapWhy::End,
    }
}
