//! Where the windows of a stack lie, told one after the other. A window stands after its parent,
//! and between the two stand only windows that lie in the parent too, so the parent is among the
//! ancestors of the window before, of which there are few.

ghost use Rattle.std.specs.Prelude.{◌≡◌, ◌≤◌, ◌<◌, ◌+◌, ◌==◌, Some, Option, ℕ, length, position, option_map, slice_get, IfSome};
ghost use Rattle.gfx_base.specs.declared.rect.Rect.{Rect as Area};
ghost use Rattle.scene.specs.declared.win.Win.{Win as Window};
ghost use Rattle.scene.specs.Places.{Place, place_of, place_at, AreSingle};
ghost use Rattle.scene.specs.Clips.{corner_in, clip_in};
ghost use Rattle.scene.specs.Paths.{IsSettled, IsOuter, AreOnLevels};

use crate::place::{LEVELS, NOWHERE, Spot, outermost, parent_of, spot_of, spot_within};
use crate::win::Win;
use arrayvec::ArrayVec;
use gfx_base::Rect;
use std::marker::Model;

/// How many windows can lie in one another.
const DEEPEST: usize = LEVELS as usize;

/// A window in which the next one may lie.
#[derive(Clone, Copy)]
pub(crate) struct Ancestor {
    pub(crate) handle: u32,
    pub(crate) spot: Spot,
}

impl Default for Ancestor {
    fn default() -> Ancestor {
        Ancestor {
            handle: 0,
            spot: NOWHERE,
        }
    }
}

/// The windows from the desktop down to the last one.
type Path = ArrayVec<Ancestor, DEEPEST>;

/// The place on the path of the window that has the handle.
fn place_on(path: &[Ancestor], handle: u32) -> Option<usize>
    ensures { result ≡ position (λ a. a.handle == handle) path.now }
{
    path.iter().position(|a| a.handle == handle)
}

/// What a window lies in, if that is told: its parent is on the path, or it has none. The path then
/// ends there.
#[inline(always)]
fn outer_on(stack: &[Win], path: &mut Path, w: &Win, screen: &Rect) -> Option<Spot>
    requires { AreOnLevels (place_at stack.now) screen.now 1 path.old.items }
    ensures path { AreOnLevels (place_at stack.now) screen.now 1 path.new.items }
    ensures outer { IfSome result
        (λ outer. IsOuter (place_at stack.now) screen.now (length path.new.items)
        (place_of w.now) outer) }
    ensures room { IfSome result (λ outer. length path.new.items < 8) }
{
    if w.parent == 0 {
        path.clear();
        return Some(outermost(w, screen));
    }
    let place = place_on(path, w.parent)?;
    if place + 1 == DEEPEST {
        return None;
    }
    let spot = path[place].spot;
    path.truncate(place + 1);
    Some(spot)
}

/// Lets the path end with a window that lies in its last one, and tells its spot.
#[inline(always)]
fn add(stack: &[Win], path: &mut Path, w: &Win, outer: &Spot, screen: &Rect) -> Spot
    requires path { AreOnLevels (place_at stack.now) screen.now 1 path.old.items }
    requires outer { IsOuter (place_at stack.now) screen.now (length path.old.items)
        (place_of w.now) outer.now }
    requires room { length path.old.items < 8 }
    requires known { place_at stack.now w.now.handle ≡ Some (place_of w.now) }
    ensures path { AreOnLevels (place_at stack.now) screen.now 1 path.new.items }
    ensures spot { IsSettled (place_at stack.now) screen.now (length path.new.items)
        (place_of w.now) result }
    ensures count { length path.new.items ≡ length path.old.items + 1 }
{
    let spot = spot_within(outer, w);
    path.push(Ancestor {
        handle: w.handle,
        spot,
    });
    spot
}

/// What a window lies in, if that is told by the path or by looking for at most so many of its
/// ancestors in the stack. The path then ends there.
fn outer_of(stack: &[Win], path: &mut Path, w: &Win, screen: &Rect, levels: u8) -> Option<Spot>
    requires { AreOnLevels (place_at stack.now) screen.now 1 path.old.items }
    ensures path { AreOnLevels (place_at stack.now) screen.now 1 path.new.items }
    ensures outer { IfSome result
        (λ outer. IsOuter (place_at stack.now) screen.now (length path.new.items)
        (place_of w.now) outer) }
    ensures room { IfSome result (λ outer. length path.new.items < 8) }
{
    if let Some(outer) = outer_on(stack, path, w, screen) {
        return Some(outer);
    }
    if levels == 0 {
        return None;
    }
    let parent = parent_of(stack, w)?;
    let outer = outer_of(stack, path, parent, screen, levels - 1)?;
    let spot = add(stack, path, parent, &outer, screen);
    if path.len() == DEEPEST {
        return None;
    }
    Some(spot)
}

/// The spot of a window, with which the path then ends where it has room.
#[inline(always)]
fn spot_on(stack: &[Win], path: &mut Path, w: &Win, screen: &Rect) -> Spot
    requires path { AreOnLevels (place_at stack.now) screen.now 1 path.old.items }
    requires known { place_at stack.now w.now.handle ≡ Some (place_of w.now) }
    ensures path { AreOnLevels (place_at stack.now) screen.now 1 path.new.items }
    ensures corner { result.corner ≡ corner_in stack.now w.now }
    ensures clip { result.clip ≡ clip_in screen.now stack.now w.now }
{
    if let Some(outer) = outer_on(stack, path, w, screen) {
        return add(stack, path, w, &outer, screen);
    }
    match outer_of(stack, path, w, screen, LEVELS) {
        Some(outer) => add(stack, path, w, &outer, screen),
        None => spot_of(stack, w, screen, LEVELS),
    }
}

/// The open ancestors of the windows of a stack, while their spots are asked for one after the
/// other: the last window and those in which it lies, at most eight, with their spots.
#[derive(Drop)]
pub struct Ancestors {
    path: Path,
}

impl Model for Ancestors {
    ghost use Rattle.std.specs.Prelude.{List};
    ghost use Rattle.scene.specs.declared.ancestors.Ancestor.{Ancestor};

    ghost Value = { List Ancestor };

    ghost view = { λ a. a.path.items };
}

impl Ancestors {
    /// None, before the first window.
    pub fn new() -> Ancestors
        ensures { (found : ℕ → Option Place) (screen : Area)
            → AreOnLevels found screen 1 result }
    {
        Ancestors { path: Path::new() }
    }

    /// The spot of the window at `i`. Any window may be asked for, and all in one stack and on one
    /// screen. Where the windows are in a tree's order and each is the next after the last one, it
    /// is found by those ancestors alone, and else by a search of the stack for each ancestor that
    /// isn't one of them. No handle stands twice.
    #[inline(always)]
    pub fn next_spot(&mut self, stack: &[Win], i: usize, screen: &Rect) -> Spot
        requires place { i < length stack.now }
        requires single { AreSingle stack.now }
        requires ancestors { AreOnLevels (place_at stack.now) screen.now 1 self.old }
        ensures ancestors { AreOnLevels (place_at stack.now) screen.now 1 self.new }
        ensures corner { (w : Window) → slice_get stack.now i ≡ Some w
            → result.corner ≡ corner_in stack.now w }
        ensures clip { (w : Window) → slice_get stack.now i ≡ Some w
            → result.clip ≡ clip_in screen.now stack.now w }
    {
        spot_on(stack, &mut self.path, &stack[i], screen)
    }
}
