//! The job of one window.

ghost use Rattle.std.specs.Prelude.{◌≡◌, ◌+◌, ◌%◌, ◌^◌, ◌<◌, ◌≤◌, true, false, pos, length, drop, slice_index_or, [], None, IsSome, IfSome, OnSome};
ghost use Rattle.std.specs.List.{AllByRecursion};
ghost use Rattle.gfx_base.specs.Rects.{point_at};
ghost use Rattle.frame.specs.Areas.{points_in};
ghost use Rattle.frame.specs.Pictures.{HasShape};
ghost use Rattle.paint_ops.specs.Soundness.{IsSound};
ghost use Rattle.scene.specs.Looks.{IsPaintable, screen_with, looks_of};
ghost use Rattle.scene.specs.Places.{AreSingle, no_window};
ghost use Rattle.scene.specs.Damage.{in_patch_at, repainted};
ghost use Rattle.gfx_base.specs.TileSets.{AreTilesOf};
ghost use Rattle.exec_paint.specs.Areas.{IsOn, LiesInWindow, is_open, painted_in, painted_once, IsPainted};
ghost use Rattle.exec_paint.specs.Layers.{IsLayer, windows_in};
ghost use Rattle.exec_paint.specs.Plans.{PaintTo, HideTo};
ghost use Rattle.exec_paint.specs.Writes.{HaveSameSides};

use crate::copy::{copy_spans, frame_is_sound};
use crate::layer::{Layer, window_of};
use crate::plan::{Hole, take_above, take_below};
use crate::row::{add_tiles, paint_row, plan_row};
use crate::run::unsigned;
use arrayvec::ArrayVec;
use frame::Frame;
use gfx_base::{Rect, Tiles};
use paint_ops::Assets;
use scene::{Ancestors, MOST_WINDOWS, Win, ground, screen};

/// For how many windows there is room at first. Few jobs have more that count, and to make room for
/// all that can be takes longer than to paint a small area.
const FEW: usize = 16;

/// Paints the layers on the rows of the area, as far as no hole has their points, and gives the
/// tiles that hold a point of that part. Where the window at `which` has a memory device, each row
/// is composed there, and what was painted is then copied. What the device held before doesn't
/// count: the layers cover it, or begin on black.
fn paint_rows(
    stack: &[Win],
    which: usize,
    area: &Rect,
    layers: &[Layer],
    holes: &[Hole],
    bare: bool,
    assets: &Assets,
    device: &mut Frame,
    target: &mut Frame,
) -> Tiles
    requires assets { IsSound assets.now }
    requires windows { AllByRecursion (IsPaintable assets.now) stack.now }
    requires which { which < length stack.now }
    requires sides { HaveSameSides device.old.picture target.old.picture }
    requires area { IsOn target.old.picture.width target.old.picture.height area.now }
    requires layers { AllByRecursion
        (IsLayer (screen_with target.old.picture.width target.old.picture.height) stack.now)
        layers.now }
    requires few_holes { length holes.now ≤ 255 }
    requires holes { HideTo
        (looks_of assets.now
        (screen_with target.old.picture.width target.old.picture.height) stack.now) area.now
        holes.now [] (drop (which + 1) stack.now) }
    requires colours { PaintTo
        (looks_of assets.now
        (screen_with target.old.picture.width target.old.picture.height) stack.now) stack.now
        area.now bare (windows_in stack.now layers.now) holes.now [] }
    ensures painted { IsPainted
        (looks_of assets.now
        (screen_with target.old.picture.width target.old.picture.height) stack.now) stack.now which
        area.now device.old target.old device.new target.new }
    ensures tiles { AreTilesOf target.old.picture.width target.old.picture.height
        (λ x y. is_open
        (looks_of assets.now
        (screen_with target.old.picture.width target.old.picture.height) stack.now)
        (drop (which + 1) stack.now) area.now (point_at (pos x) (pos y))) result }
{
    frame_is_sound(device);
    frame_is_sound(target);
    let composed = window_of(stack, which).memdev;
    let width = target.width();
    let mut tiles = Tiles::empty();
    let top = unsigned(area.y0);
    let mut plan = plan_row(area, holes, top);
    for y in top..unsigned(area.y1) + 1 {
        if plan.last < y {
            plan = plan_row(area, holes, y);
        }
        let spans = plan.spans.spans();
        if composed {
            paint_row(stack, layers, bare, spans, y, assets, device);
            copy_spans(spans, y, device, target);
        } else {
            paint_row(stack, layers, bare, spans, y, assets, target);
        }
        add_tiles(spans, y, width, &mut tiles);
    }
    tiles
}

/// Paints the area, which isn't empty and lies in the clip of the window at `which`, as far as no
/// opaque window above hides it, and gives the tiles that hold a point of that part. `None`, with
/// nothing painted, where there is no room for the windows that count on the area.
fn paint_with_room<const N: usize>(
    stack: &[Win],
    which: usize,
    area: &Rect,
    layers: &mut ArrayVec<Layer, N>,
    holes: &mut ArrayVec<Hole, N>,
    assets: &Assets,
    device: &mut Frame,
    target: &mut Frame,
) -> Option<Tiles>
    requires assets { IsSound assets.now }
    requires few { length stack.now ≤ 256 }
    requires windows { AllByRecursion (IsPaintable assets.now) stack.now }
    requires single { AreSingle stack.now }
    requires which { which < length stack.now }
    requires sides { HaveSameSides device.old.picture target.old.picture }
    requires shape { HasShape target.old.picture }
    requires area { IsOn target.old.picture.width target.old.picture.height area.now }
    requires inside { LiesInWindow
        (screen_with target.old.picture.width target.old.picture.height) stack.now which area.now }
    requires layers { layers.old.items ≡ [] }
    requires holes { holes.old.items ≡ [] }
    ensures room { length stack.now ≤ N → IsSome result }
    ensures nothing { result ≡ None
        → (target.new ≡ target.old) × (device.new ≡ device.old) }
    ensures painted { OnSome result (IsPainted
        (looks_of assets.now
        (screen_with target.old.picture.width target.old.picture.height) stack.now) stack.now which
        area.now device.old target.old device.new target.new) }
    ensures tiles { IfSome result
        (AreTilesOf target.old.picture.width target.old.picture.height
        (λ x y. is_open
        (looks_of assets.now
        (screen_with target.old.picture.width target.old.picture.height) stack.now)
        (drop (which + 1) stack.now) area.now (point_at (pos x) (pos y)))) }
{
    let screen = screen(target.width(), target.height());
    let mut ancestors = Ancestors::new();
    let bare = take_below(stack, which, area, &screen, assets, &mut ancestors, layers)?;
    let hidden = take_above(
        stack,
        which,
        area,
        &screen,
        assets,
        &mut ancestors,
        layers,
        holes,
    )?;
    if hidden {
        frame_is_sound(target);
        return Some(Tiles::empty());
    }
    Some(paint_rows(
        stack,
        which,
        area,
        layers.as_slice(),
        holes.as_slice(),
        bare,
        assets,
        device,
        target,
    ))
}

/// The same with room for few windows.
fn paint_few(
    stack: &[Win],
    which: usize,
    area: &Rect,
    assets: &Assets,
    device: &mut Frame,
    target: &mut Frame,
) -> Option<Tiles>
    requires assets { IsSound assets.now }
    requires few { length stack.now ≤ 256 }
    requires windows { AllByRecursion (IsPaintable assets.now) stack.now }
    requires single { AreSingle stack.now }
    requires which { which < length stack.now }
    requires sides { HaveSameSides device.old.picture target.old.picture }
    requires shape { HasShape target.old.picture }
    requires area { IsOn target.old.picture.width target.old.picture.height area.now }
    requires inside { LiesInWindow
        (screen_with target.old.picture.width target.old.picture.height) stack.now which area.now }
    ensures room { length stack.now ≤ FEW → IsSome result }
    ensures nothing { result ≡ None
        → (target.new ≡ target.old) × (device.new ≡ device.old) }
    ensures painted { OnSome result (IsPainted
        (looks_of assets.now
        (screen_with target.old.picture.width target.old.picture.height) stack.now) stack.now which
        area.now device.old target.old device.new target.new) }
    ensures tiles { IfSome result
        (AreTilesOf target.old.picture.width target.old.picture.height
        (λ x y. is_open
        (looks_of assets.now
        (screen_with target.old.picture.width target.old.picture.height) stack.now)
        (drop (which + 1) stack.now) area.now (point_at (pos x) (pos y)))) }
{
    let mut layers = ArrayVec::<Layer, FEW>::new();
    let mut holes = ArrayVec::<Hole, FEW>::new();
    paint_with_room(
        stack,
        which,
        area,
        &mut layers,
        &mut holes,
        assets,
        device,
        target,
    )
}

/// The same with room for all windows that there can be.
fn paint_many(
    stack: &[Win],
    which: usize,
    area: &Rect,
    assets: &Assets,
    device: &mut Frame,
    target: &mut Frame,
) -> Tiles
    requires assets { IsSound assets.now }
    requires few { length stack.now ≤ 256 }
    requires windows { AllByRecursion (IsPaintable assets.now) stack.now }
    requires single { AreSingle stack.now }
    requires which { which < length stack.now }
    requires sides { HaveSameSides device.old.picture target.old.picture }
    requires shape { HasShape target.old.picture }
    requires area { IsOn target.old.picture.width target.old.picture.height area.now }
    requires inside { LiesInWindow
        (screen_with target.old.picture.width target.old.picture.height) stack.now which area.now }
    ensures painted { IsPainted
        (looks_of assets.now
        (screen_with target.old.picture.width target.old.picture.height) stack.now) stack.now which
        area.now device.old target.old device.new target.new }
    ensures tiles { AreTilesOf target.old.picture.width target.old.picture.height
        (λ x y. is_open
        (looks_of assets.now
        (screen_with target.old.picture.width target.old.picture.height) stack.now)
        (drop (which + 1) stack.now) area.now (point_at (pos x) (pos y))) result }
{
    let mut layers = ArrayVec::<Layer, MOST_WINDOWS>::new();
    let mut holes = ArrayVec::<Hole, MOST_WINDOWS>::new();
    paint_with_room(
        stack,
        which,
        area,
        &mut layers,
        &mut holes,
        assets,
        device,
        target,
    )
    .unwrap()
}

/// Paints the area, which isn't empty and lies in the clip of the window at `which`, as far as no
/// opaque window above hides it, and gives the tiles that hold a point of that part.
fn paint_area(
    stack: &[Win],
    which: usize,
    area: &Rect,
    assets: &Assets,
    device: &mut Frame,
    target: &mut Frame,
) -> Tiles
    requires assets { IsSound assets.now }
    requires few { length stack.now ≤ 256 }
    requires windows { AllByRecursion (IsPaintable assets.now) stack.now }
    requires single { AreSingle stack.now }
    requires which { which < length stack.now }
    requires sides { HaveSameSides device.old.picture target.old.picture }
    requires shape { HasShape target.old.picture }
    requires area { IsOn target.old.picture.width target.old.picture.height area.now }
    requires inside { LiesInWindow
        (screen_with target.old.picture.width target.old.picture.height) stack.now which area.now }
    ensures painted { IsPainted
        (looks_of assets.now
        (screen_with target.old.picture.width target.old.picture.height) stack.now) stack.now which
        area.now device.old target.old device.new target.new }
    ensures tiles { AreTilesOf target.old.picture.width target.old.picture.height
        (λ x y. is_open
        (looks_of assets.now
        (screen_with target.old.picture.width target.old.picture.height) stack.now)
        (drop (which + 1) stack.now) area.now (point_at (pos x) (pos y))) result }
{
    match paint_few(stack, which, area, assets, device, target) {
        Some(tiles) => tiles,
        None => paint_many(stack, which, area, assets, device, target),
    }
}

/// Paints the window at `which`: on its patch, which are the points of its clip that no opaque
/// window above it hides and that lie in its invalid rectangle, the target becomes the painter's
/// picture of all windows, and elsewhere it stays. The answer has just the tiles that hold a point
/// of the patch. The target has the screen's sides; there are at most 256 windows, each with sides
/// of at most 4,096 points and with a class that exists, and no handle stands twice. No memory is
/// taken.
///
/// The job of a window with `memdev` composes in `device` and writes each point of the patch to the
/// target just once, so that the target's count of writes grows by the number of these points, and
/// none of them shows a colour between its old one and its last. `device` has the target's sides
/// and may hold any colours before; what it holds afterwards isn't said. The job of any other
/// window paints on the target itself, where a point may be written more than once, and leaves
/// `device` as it is.
///
/// What it costs: where the window's clip and its invalid rectangle have no common point, the
/// search for that clip alone, which is one of the stack for each ancestor. Else a pass over the
/// windows above, and before it, where the window can be seen through, over those below; where the
/// stack is in a tree's order, each of these costs a look at no more than eight ancestors. The job
/// ends where an opaque window above covers the area. Where more than 16 windows are to be painted
/// on the area, or more than 16 hide parts of it, the pass is made again. Then, for each row of the
/// area on which an opaque window above begins or ends, it looks at each of those that meet the
/// area and cuts out what they cover, and on every row it draws each other window that meets the
/// area and reaches the row on the spans that are left. Where it composes, each of these spans is
/// then copied as a whole.
pub fn job(
    stack: &[Win],
    which: usize,
    assets: &Assets,
    device: &mut Frame,
    target: &mut Frame,
) -> Tiles
    requires assets { IsSound assets.now }
    requires few { length stack.now ≤ 256 }
    requires windows { AllByRecursion (IsPaintable assets.now) stack.now }
    requires single { AreSingle stack.now }
    requires which { which < length stack.now }
    requires device { (device.old.picture.width ≡ target.old.picture.width)
        × (device.old.picture.height ≡ target.old.picture.height) }
    ensures picture { target.new.picture
        ≡ repainted (looks_of assets.now
        (screen_with target.old.picture.width target.old.picture.height) stack.now) stack.now which
        target.old.picture }
    ensures tiles { AreTilesOf target.old.picture.width target.old.picture.height
        (λ x y. in_patch_at
        (looks_of assets.now
        (screen_with target.old.picture.width target.old.picture.height) stack.now) stack.now which
        (point_at (pos x) (pos y))) result }
    ensures once { (slice_index_or stack.now which no_window).memdev ≡ true
        → target.new.writes
        ≡ (target.old.writes
        + points_in target.old.picture
        (λ x y. in_patch_at
        (looks_of assets.now
        (screen_with target.old.picture.width target.old.picture.height) stack.now) stack.now which
        (point_at (pos x) (pos y)))) % 2 ^ 64 }
    ensures device { (device.new.picture.width ≡ device.old.picture.width)
        × (device.new.picture.height ≡ device.old.picture.height) }
    ensures unused { (slice_index_or stack.now which no_window).memdev ≡ false
        → device.new ≡ device.old }
{
    let screen = screen(target.width(), target.height());
    let window = window_of(stack, which);
    if let Some(invalid) = window.invalid {
        let area = ground(stack, which, &screen).meet(&invalid);
        if !area.is_empty() {
            return paint_area(stack, which, &area, assets, device, target);
        }
    }
    frame_is_sound(target);
    Tiles::empty()
}
