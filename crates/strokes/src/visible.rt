//! What a window sees of a rectangle of its own.

ghost use Rattle.std.specs.Prelude.{◌≡◌, ◌+◌, ◌<◌, ◌≤◌, length, drop, true, false, [], IfSome, IfNone};
ghost use Rattle.std.specs.List.{AllByRecursion};
ghost use Rattle.arrayvec.specs.ArrayVec.{array_vec_len};
ghost use Rattle.gfx_base.specs.declared.point.Point.{Point as Place};
ghost use Rattle.gfx_base.specs.Range.{IsNear};
ghost use Rattle.gfx_base.specs.Rects.{has};
ghost use Rattle.scene.specs.Looks.{IsPaintable, screen_with, looks_of};
ghost use Rattle.scene.specs.Painting.{windows_at, hides_behind};
ghost use Rattle.scene.specs.Paths.{AreOnLevels};
ghost use Rattle.scene.specs.Places.{place_at, AreSingle};
ghost use Rattle.exec_paint.specs.Plans.{HideTo};
ghost use Rattle.strokes.specs.Parts.{sees_in, IsVisible};

use arrayvec::ArrayVec;
use exec_paint::{Hole, covers, is_opaque, meets, window_of};
use gfx_base::{Point, Rect};
use paint_ops::Assets;
use scene::{Ancestors, MOST_WINDOWS, Win, screen};

/// What windows hide of an area.
pub type Holes = ArrayVec<Hole, MOST_WINDOWS>;

/// A part of a window on the screen.
#[derive(Clone, Copy)]
pub struct Part {
    /// The window's upper left corner.
    pub corner: Point,
    /// The points of the part, of which holes may hide some.
    pub area: Rect,
}

/// Takes the windows above the one at `which` that hide a part of the area as holes. The answer is
/// whether a single one hides the whole area.
fn take_holes(
    stack: &[Win],
    which: usize,
    area: &Rect,
    screen: &Rect,
    assets: &Assets,
    ancestors: &mut Ancestors,
    holes: &mut Holes,
) -> bool
    requires few { length stack.now ≤ 256 }
    requires windows { AllByRecursion (IsPaintable assets.now) stack.now }
    requires single { AreSingle stack.now }
    requires which { which < length stack.now }
    requires ancestors { AreOnLevels (place_at stack.now) screen.now 1 ancestors.old }
    requires holes { holes.old.items ≡ [] }
    ensures few { array_vec_len holes.new ≤ 255 }
    ensures hidden { result ≡ true → (p : Place) → has area.now p ≡ true
        → let looks = looks_of assets.now screen.now stack.now in
        hides_behind looks (windows_at looks (drop (which + 1) stack.now) p) ≡ true }
    ensures holes { result ≡ false
        → HideTo (looks_of assets.now screen.now stack.now) area.now holes.new.items []
        (drop (which + 1) stack.now) }
{
    for i in which + 1..stack.len() {
        let spot = ancestors.next_spot(stack, i, screen);
        if is_opaque(window_of(stack, i), assets) && meets(&spot.clip, area) {
            if covers(&spot.clip, area) {
                return true;
            }
            holes.push(Hole { clip: spot.clip });
        }
    }
    false
}

/// The part of the window at `i` that has what the window sees of a rectangle, on a screen of these
/// sides: the free points of its area. `None` where the window sees nothing of it. The rectangle is
/// counted from the window's upper left corner.
pub fn visible_part(
    stack: &[Win],
    i: usize,
    rect: &Rect,
    width: u16,
    height: u16,
    assets: &Assets,
    holes: &mut Holes,
) -> Option<Part>
    requires few { length stack.now ≤ 256 }
    requires windows { AllByRecursion (IsPaintable assets.now) stack.now }
    requires single { AreSingle stack.now }
    requires place { i < length stack.now }
    requires rect { IsNear rect.now.x0 × IsNear rect.now.y0 × IsNear rect.now.x1
        × IsNear rect.now.y1 }
    requires sides { (width ≤ 1024) × (height ≤ 768) }
    requires holes { holes.old.items ≡ [] }
    ensures some { IfSome result
        (λ part. IsVisible width height
        (looks_of assets.now (screen_with width height) stack.now) stack.now i rect.now part
        holes.new.items) }
    ensures none { IfNone result ((p : Place)
        → sees_in (looks_of assets.now (screen_with width height) stack.now) stack.now i rect.now p
        ≡ false) }
{
    let screen = screen(width, height);
    let mut ancestors = Ancestors::new();
    let spot = ancestors.next_spot(stack, i, &screen);
    // A window that is nowhere on the screen may lie far from it.
    if spot.clip.is_empty() {
        return None;
    }
    let corner = spot.corner;
    let area = spot.clip.meet(&rect.shift(corner.x, corner.y));
    if area.is_empty() {
        return None;
    }
    if take_holes(stack, i, &area, &screen, assets, &mut ancestors, holes) {
        return None;
    }
    Some(Part { corner, area })
}
