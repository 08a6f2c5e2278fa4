//! Which windows a job paints with, and what hides parts of its area.

ghost use Rattle.std.specs.Prelude.{◌≡◌, ◌+◌, ◌<◌, ◌≤◌, ◌&&◌, int_le, Bool, true, false, IsSome, IfSome, OnSome, length, drop, [], ◌∷◌, ◌++◌, slice_index_or};
ghost use Rattle.scene.specs.Clips.{corner_in, clip_in};
ghost use Rattle.scene.specs.Paths.{AreOnLevels};
ghost use Rattle.std.specs.List.{AllByRecursion};
ghost use Rattle.arrayvec.specs.ArrayVec.{array_vec_len};
ghost use Rattle.gfx_base.specs.declared.point.Point.{Point as Place};
ghost use Rattle.gfx_base.specs.Rects.{has};
ghost use Rattle.paint_ops.specs.Soundness.{IsSound};
ghost use Rattle.scene.specs.Looks.{IsPaintable, is_opaque, looks_of};
ghost use Rattle.scene.specs.Painting.{windows_at, hides_behind};
ghost use Rattle.scene.specs.Places.{no_window, place_at, AreSingle};
ghost use Rattle.exec_paint.specs.Layers.{IsLayer, windows_in};

use crate::layer::{Layer, window_of};
use arrayvec::ArrayVec;
use gfx_base::{NO_POINTS, Point, Rect};
use paint_ops::Assets;
use scene::{Ancestors, Spot, Win};

/// A part of the screen that a window hides.
#[derive(Clone, Copy)]
pub struct Hole {
    pub clip: Rect,
}

impl Default for Hole {
    ghost is_default = { λ hole. Unit {0} };

    fn default() -> Hole {
        Hole { clip: NO_POINTS }
    }
}

impl Default for Layer {
    ghost is_default = { λ layer. Unit {0} };

    fn default() -> Layer {
        Layer {
            at: 0,
            corner: Point { x: 0, y: 0 },
            clip: NO_POINTS,
        }
    }
}

ghost use Rattle.exec_paint.specs.Areas.{LiesInWindow};
ghost use Rattle.exec_paint.specs.Plans.{PaintTo, HideTo};

/// Whether nothing behind the window can be seen through it.
pub fn is_opaque(window: &Win, assets: &Assets) -> bool
    requires { window.now.class < length assets.now.classes }
    ensures { result ≡ is_opaque assets.now window.now }
{
    let class = &assets.classes[usize::from(window.class)];
    !window.trans && class.back.is_some()
}

/// Whether the numbers from a to b lie between low and high.
fn lies_in(low: i32, high: i32, a: i32, b: i32) -> bool
    ensures { result ≡ (int_le low a && int_le b high) }
{
    low <= a && b <= high
}

/// Whether all points of the area lie in the clip, by their corners.
pub fn covers(clip: &Rect, area: &Rect) -> bool
    ensures { result
        ≡ (int_le clip.now.x0 area.now.x0 && int_le area.now.x1 clip.now.x1
        && (int_le clip.now.y0 area.now.y0 && int_le area.now.y1 clip.now.y1)) }
{
    lies_in(clip.x0, clip.x1, area.x0, area.x1) && lies_in(clip.y0, clip.y1, area.y0, area.y1)
}

/// Whether some point of the area lies in the clip.
pub fn meets(clip: &Rect, area: &Rect) -> bool
    ensures { result ≡ false → (p : Place) → has area.now p ≡ true → has clip.now p ≡ false }
{
    !area.meet(clip).is_empty()
}

/// Adds the window at `i`, whose spot is given, to the layers. `None` where they have no room.
fn add_layer<const N: usize>(
    stack: &[Win],
    i: usize,
    spot: &Spot,
    screen: &Rect,
    layers: &mut ArrayVec<Layer, N>,
) -> Option<()>
    requires at { i < length stack.now }
    requires corner { spot.now.corner ≡ corner_in stack.now (slice_index_or stack.now i no_window) }
    requires clip { spot.now.clip
        ≡ clip_in screen.now stack.now (slice_index_or stack.now i no_window) }
    requires layers { AllByRecursion (IsLayer screen.now stack.now) layers.old.items }
    ensures room { array_vec_len layers.old < N → IsSome result }
    ensures count { array_vec_len layers.new ≤ array_vec_len layers.old + 1 }
    ensures layers { AllByRecursion (IsLayer screen.now stack.now) layers.new.items }
    ensures windows { OnSome result (windows_in stack.now layers.new.items
        ≡ windows_in stack.now layers.old.items ++ slice_index_or stack.now i no_window ∷ []) }
{
    if layers.is_full() {
        return None;
    }
    layers.push(Layer {
        at: i,
        corner: spot.corner,
        clip: spot.clip,
    });
    Some(())
}

/// Adds a clip to the holes. `None` where they have no room.
pub fn add_hole<const N: usize>(clip: &Rect, holes: &mut ArrayVec<Hole, N>) -> Option<()>
    ensures room { array_vec_len holes.old < N → IsSome result }
    ensures holes { OnSome result (holes.new.items
        ≡ holes.old.items ++ record { clip = clip.now } ∷ []) }
{
    if holes.is_full() {
        return None;
    }
    holes.push(Hole { clip: *clip });
    Some(())
}

/// Adds a window below, which is the next one and meets the area. Where nothing behind it can be
/// seen, those that were taken before don't count, and the area is not bare.
fn add_over<const N: usize>(
    stack: &[Win],
    i: usize,
    spot: &Spot,
    area: &Rect,
    screen: &Rect,
    assets: &Assets,
    bare: bool,
    layers: &mut ArrayVec<Layer, N>,
) -> Option<bool>
    requires windows { AllByRecursion (IsPaintable assets.now) stack.now }
    requires at { i < length stack.now }
    requires corner { spot.now.corner ≡ corner_in stack.now (slice_index_or stack.now i no_window) }
    requires clip { spot.now.clip
        ≡ clip_in screen.now stack.now (slice_index_or stack.now i no_window) }
    requires layers { AllByRecursion (IsLayer screen.now stack.now) layers.old.items }
    requires colours { PaintTo (looks_of assets.now screen.now stack.now) stack.now area.now bare
        (windows_in stack.now layers.old.items) [] (drop i stack.now) }
    ensures room { array_vec_len layers.old < N → IsSome result }
    ensures count { array_vec_len layers.new ≤ array_vec_len layers.old + 1 }
    ensures layers { AllByRecursion (IsLayer screen.now stack.now) layers.new.items }
    ensures colours { IfSome result
        (λ bare. PaintTo (looks_of assets.now screen.now stack.now) stack.now area.now bare
        (windows_in stack.now layers.new.items) [] (drop (i + 1) stack.now)) }
{
    if is_opaque(window_of(stack, i), assets) && covers(&spot.clip, area) {
        layers.clear();
        add_layer(stack, i, spot, screen, layers)?;
        return Some(false);
    }
    add_layer(stack, i, spot, screen, layers)?;
    Some(bare)
}

/// Takes the windows up to the one at `which` that count on the area, which lies in its clip: from
/// the last opaque one on whose clip has the whole area, so that nothing behind it counts. Where
/// there is none the area is painted over black, from the first window on, and the answer is that
/// it is bare. `None` where the layers have no room.
pub fn take_below<const N: usize>(
    stack: &[Win],
    which: usize,
    area: &Rect,
    screen: &Rect,
    assets: &Assets,
    ancestors: &mut Ancestors,
    layers: &mut ArrayVec<Layer, N>,
) -> Option<bool>
    requires windows { AllByRecursion (IsPaintable assets.now) stack.now }
    requires single { AreSingle stack.now }
    requires which { which < length stack.now }
    requires area { LiesInWindow screen.now stack.now which area.now }
    requires ancestors { AreOnLevels (place_at stack.now) screen.now 1 ancestors.old }
    requires layers { layers.old.items ≡ [] }
    ensures ancestors { AreOnLevels (place_at stack.now) screen.now 1 ancestors.new }
    ensures room { length stack.now ≤ N → IsSome result }
    ensures count { array_vec_len layers.new ≤ which + 1 }
    ensures layers { AllByRecursion (IsLayer screen.now stack.now) layers.new.items }
    ensures colours { IfSome result
        (λ bare. PaintTo (looks_of assets.now screen.now stack.now) stack.now area.now bare
        (windows_in stack.now layers.new.items) [] (drop (which + 1) stack.now)) }
{
    let own = ancestors.next_spot(stack, which, screen);
    if is_opaque(window_of(stack, which), assets) {
        add_layer(stack, which, &own, screen, layers)?;
        return Some(false);
    }
    let mut bare = true;
    for i in 0..which + 1 {
        let spot = ancestors.next_spot(stack, i, screen);
        if meets(&spot.clip, area) {
            bare = add_over(stack, i, &spot, area, screen, assets, bare, layers)?;
        }
    }
    Some(bare)
}

/// Takes the windows above `which` that meet the area: as holes those that hide what is behind
/// them, and as layers the others. The answer is whether a single one hides the whole area, and
/// then nothing is left to paint. `None` where the layers or the holes have no room.
pub fn take_above<const N: usize>(
    stack: &[Win],
    which: usize,
    area: &Rect,
    screen: &Rect,
    assets: &Assets,
    ancestors: &mut Ancestors,
    layers: &mut ArrayVec<Layer, N>,
    holes: &mut ArrayVec<Hole, N>,
) -> Option<bool>
    requires few { length stack.now ≤ 256 }
    requires windows { AllByRecursion (IsPaintable assets.now) stack.now }
    requires single { AreSingle stack.now }
    requires which { which < length stack.now }
    requires ancestors { AreOnLevels (place_at stack.now) screen.now 1 ancestors.old }
    requires count { array_vec_len layers.old ≤ which + 1 }
    requires layers { AllByRecursion (IsLayer screen.now stack.now) layers.old.items }
    requires holes { holes.old.items ≡ [] }
    ensures room { length stack.now ≤ N → IsSome result }
    ensures layers { AllByRecursion (IsLayer screen.now stack.now) layers.new.items }
    ensures few_holes { result ≡ Some false → array_vec_len holes.new ≤ 255 }
    ensures hidden { result ≡ Some true → (p : Place) → has area.now p ≡ true
        → let looks = looks_of assets.now screen.now stack.now in
        hides_behind looks (windows_at looks (drop (which + 1) stack.now) p) ≡ true }
    ensures holes { result ≡ Some false
        → HideTo (looks_of assets.now screen.now stack.now) area.now holes.new.items []
        (drop (which + 1) stack.now) }
    ensures colours { (bare : Bool) → result ≡ Some false
        → PaintTo (looks_of assets.now screen.now stack.now) stack.now area.now bare
        (windows_in stack.now layers.old.items) [] (drop (which + 1) stack.now)
        → PaintTo (looks_of assets.now screen.now stack.now) stack.now area.now bare
        (windows_in stack.now layers.new.items) holes.new.items [] }
{
    for i in which + 1..stack.len() {
        let spot = ancestors.next_spot(stack, i, screen);
        if meets(&spot.clip, area) {
            if is_opaque(window_of(stack, i), assets) {
                if covers(&spot.clip, area) {
                    return Some(true);
                }
                add_hole(&spot.clip, holes)?;
            } else {
                add_layer(stack, i, &spot, screen, layers)?;
            }
        }
    }
    Some(false)
}
