//! Tiles, painted as their subrectangles say.

ghost use Rattle.std.specs.Prelude.{◌≡◌, ◌/◌, ◌≤◌, All, length};
ghost use Rattle.hextile.specs.Painting.{with_subs};
ghost use Rattle.hextile.specs.Rows.{IsTile, IsInTile};

use crate::sub::Sub;
use crate::sub::finding::clear;

/// Paints a tile of rows of so many points: the background, and then one subrectangle after the
/// other.
pub fn paint(points: &mut [u32], width: usize, background: u32, subs: &[Sub])
    requires tile { IsTile width (length points.old) }
    requires inside { All (IsInTile width (length points.old / width)) subs.now }
    ensures { points.new ≡ with_subs width (length points.old) background subs.now }
{
    points.fill(background);
    for s in subs {
        let at = usize::from(s.y) * width + usize::from(s.x);
        let (across, down) = (usize::from(s.width), usize::from(s.height));
        clear(points, width, s.value, at, across, down);
    }
}
