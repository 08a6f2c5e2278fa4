//! One window that is made invalid.

ghost use Rattle.std.specs.Prelude.{◌≡◌, ◌<◌, Some, length, position, slice_get, slice_set};
ghost use Rattle.gfx_base.specs.Range.{IsNear};
ghost use Rattle.gfx_base.specs.Rects.{shift};
ghost use Rattle.scene.specs.declared.win.Win.{Win as Window};
ghost use Rattle.scene.specs.Clips.{clip_in};
ghost use Rattle.scene.specs.Damage.{invalidated};
ghost use Rattle.scene.specs.Stacks.{IsStack, desktop_screen};
ghost use Rattle.invalidate.specs.Invalidation.{is_invalid, on_screen, wholly_invalidated, IsLocal};

use gfx_base::{Point, Rect};
use scene::{Win, ground, origin};

/// Lets the invalid rectangle of a window, whose clip is given, cover a part of the screen, as far
/// as it lies in the clip.
pub(crate) fn grow(window: &mut Win, clip: &Rect, area: &Rect)
    ensures { window.new ≡ invalidated clip.now area.now window.old }
{
    let part = area.meet(clip);
    if part.is_empty() {
        return;
    }
    window.invalid = Some(match &window.invalid {
        None => part,
        Some(old) => old.cover(&part),
    });
}

/// Makes all of the window at `i` invalid, as far as it may paint on the screen.
pub fn window(stack: &mut [Win], i: usize, screen: &Rect)
    requires { i < length stack.old }
    ensures { (w : Window) → slice_get stack.old i ≡ Some w
        → stack.new ≡ slice_set stack.old i (wholly_invalidated screen.now stack.old w) }
{
    let clip = ground(stack, i, screen);
    grow(&mut stack[i], &clip, &clip);
}

/// A rectangle that is told from a corner, on the screen.
fn moved(local: &Rect, corner: Point) -> Rect
    requires local { IsLocal local.now }
    requires corner { IsNear corner.x × IsNear corner.y }
    ensures { result ≡ shift local.now corner.x corner.y }
{
    local.shift(corner.x, corner.y)
}

/// Makes a rectangle of the window at `i` invalid. It is told from the window's upper left corner,
/// by numbers from −32,768 to 32,767; one that has no point changes nothing.
pub fn rect(stack: &mut [Win], i: usize, local: &Rect, screen: &Rect)
    requires stack { IsStack stack.old }
    requires place { i < length stack.old }
    requires screen { screen.now ≡ desktop_screen stack.old }
    requires local { IsLocal local.now }
    ensures { (w : Window) → slice_get stack.old i ≡ Some w
        → stack.new ≡ slice_set stack.old i
        (invalidated (clip_in screen.now stack.old w) (on_screen stack.old w local.now) w) }
{
    let clip = ground(stack, i, screen);
    if clip.is_empty() {
        return;
    }
    let corner = origin(stack, i);
    let area = moved(local, corner);
    grow(&mut stack[i], &clip, &area);
}

/// The place of the first invalid window, if there is one.
pub fn first_invalid(stack: &[Win]) -> Option<usize>
    ensures { result ≡ position is_invalid stack.now }
{
    stack.iter().position(|w| w.invalid.is_some())
}
