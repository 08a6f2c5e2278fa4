//! Where windows lie on the screen: each at a place in its parent, and cut to it.

ghost use Rattle.std.specs.Prelude.{◌≡◌, ◌+◌, ◌<◌, ◌≤◌, ◌==◌, ℕ, pos, length, option_map, slice_get, Some, None};
ghost use Rattle.gfx_base.specs.Rects.{point_at};
ghost use Rattle.scene.specs.declared.win.Win.{Win};
ghost use Rattle.scene.specs.Places.{place_of, window_of, place_at, parent_in};
ghost use Rattle.scene.specs.Looks.{screen_with};
ghost use Rattle.scene.specs.Clips.{deepest_level, FitsLevels, corner_from, corner_of, corner_in};
ghost use Rattle.scene.specs.Clips.{frame_of, clip_from, outer_clip, clip_of, clip_in};

use crate::win::Win;
use gfx_base::{NO_POINTS, Point, Rect};

/// The deepest level of a window: the desktop has level 1, and a child the level after its
/// parent's.
pub(crate) const LEVELS: u8 = 8;

/// The screen's upper left corner.
const TOP_LEFT: Point = Point { x: 0, y: 0 };

/// Where a window's upper left corner is on the screen, and the part of the screen that it may
/// paint.
#[derive(Clone, Copy)]
pub struct Spot {
    pub corner: Point,
    pub clip: Rect,
}

/// Nowhere on the screen.
pub(crate) const NOWHERE: Spot = Spot {
    corner: TOP_LEFT,
    clip: NO_POINTS,
};

/// The window in which another lies, if it is found; the desktop lies in none.
pub(crate) fn parent_of<'s>(stack: &'s [Win], w: &Win) -> Option<&'s Win>
    ensures { option_map (λ parent. place_of parent.now) result
        ≡ parent_in (place_at stack.now) (place_of w.now) }
{
    if w.parent == 0 {
        return None;
    }
    find(stack, w.parent)
}

/// The first window that has the handle.
fn find(stack: &[Win], handle: u32) -> Option<&Win>
    ensures { option_map (λ w. w.now) result ≡ window_of stack.now handle }
{
    stack.iter().find(|w| w.handle == handle)
}

/// The corner of a window from that of its parent.
fn corner_within(outer: Point, w: &Win) -> Point
    requires { FitsLevels 7 outer }
    ensures value { result ≡ corner_from (place_of w.now) outer }
    ensures fits { (levels : ℕ) → FitsLevels levels outer → FitsLevels (levels + 1) result }
{
    Point {
        x: outer.x + i32::from(w.x),
        y: outer.y + i32::from(w.y),
    }
}

/// All points that a window takes up, if its corner is here.
fn frame(corner: Point, w: &Win) -> Rect
    requires { FitsLevels 8 corner }
    ensures { result ≡ frame_of corner (place_of w.now) }
{
    Rect {
        x0: corner.x,
        y0: corner.y,
        x1: corner.x + i32::from(w.w) - 1,
        y1: corner.y + i32::from(w.h) - 1,
    }
}

/// The clip of a window from that of its parent.
fn clip_within(outer: &Rect, corner: Point, w: &Win) -> Rect
    requires { FitsLevels 8 corner }
    ensures { result ≡ clip_from (place_of w.now) corner outer.now }
{
    if w.shown {
        frame(corner, w).meet(outer)
    } else {
        NO_POINTS
    }
}

/// Where a window lies, from where its parent lies.
pub(crate) fn spot_within(outer: &Spot, w: &Win) -> Spot
    requires { FitsLevels 7 outer.now.corner }
    ensures corner { result.corner ≡ corner_from (place_of w.now) outer.now.corner }
    ensures fits { (levels : ℕ) → FitsLevels levels outer.now.corner
        → FitsLevels (levels + 1) result.corner }
    ensures clip { result.clip ≡ clip_from (place_of w.now) result.corner outer.now.clip }
{
    let corner = corner_within(outer.corner, w);
    Spot {
        corner,
        clip: clip_within(&outer.clip, corner, w),
    }
}

/// What a window without a parent lies in: the screen for the desktop, and nothing where the parent
/// isn't found.
pub(crate) fn outermost(w: &Win, screen: &Rect) -> Spot
    ensures corner { result.corner ≡ point_at (pos 0) (pos 0) }
    ensures clip { result.clip ≡ outer_clip screen.now (w.now.parent == 0) None }
{
    Spot {
        corner: TOP_LEFT,
        clip: if w.parent == 0 { *screen } else { NO_POINTS },
    }
}

/// Where a window lies, if it and its ancestors up to the desktop are at most `levels` windows.
/// Else its clip is empty.
pub(crate) fn spot_of(stack: &[Win], w: &Win, screen: &Rect, levels: u8) -> Spot
    requires { levels ≤ deepest_level }
    ensures corner { result.corner ≡ corner_of levels (place_at stack.now) (place_of w.now) }
    ensures fits { FitsLevels levels result.corner }
    ensures clip { result.clip ≡ clip_of levels screen.now (place_at stack.now) (place_of w.now) }
{
    if levels == 0 {
        return NOWHERE;
    }
    match parent_of(stack, w) {
        Some(parent) => spot_within(&spot_of(stack, parent, screen, levels - 1), w),
        None => spot_within(&outermost(w, screen), w),
    }
}

/// All points of a screen of these sides.
pub fn screen(width: u16, height: u16) -> Rect
    ensures { result ≡ screen_with width height }
{
    Rect {
        x0: 0,
        y0: 0,
        x1: i32::from(width) - 1,
        y1: i32::from(height) - 1,
    }
}

/// Where on the screen the upper left corner of the window at `i` lies: the sum of its own place
/// and those of its ancestors. Windows nest at most eight levels deep.
pub fn origin(stack: &[Win], i: usize) -> Point
    requires { i < length stack.now }
    ensures { (w : Win) → slice_get stack.now i ≡ Some w → result ≡ corner_in stack.now w }
{
    spot_of(stack, &stack[i], &NO_POINTS, LEVELS).corner
}

/// The clip rectangle of the window at `i`: the points common to it, its ancestors and the screen,
/// and none where it or an ancestor is hidden.
pub fn ground(stack: &[Win], i: usize, screen: &Rect) -> Rect
    requires { i < length stack.now }
    ensures { (w : Win) → slice_get stack.now i ≡ Some w → result ≡ clip_in screen.now stack.now w }
{
    spot_of(stack, &stack[i], screen, LEVELS).clip
}
