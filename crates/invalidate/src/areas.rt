//! Areas of the screen that are made invalid.

ghost use Rattle.std.specs.Prelude.{◌≡◌, ◌≤◌, length};
ghost use Rattle.scene.specs.Places.{AreSingle};
ghost use Rattle.scene.specs.Clips.{clip_in};
ghost use Rattle.scene.specs.Damage.{area_invalidated};

use crate::windows::grow;
use gfx_base::Rect;
use scene::{Ancestors, Win};

/// Makes an area of the screen invalid in every window, as far as it lies in the window's clip. One
/// that has no point on the screen changes nothing. The time is that of the number of windows where
/// they are in a tree's order.
pub fn area(stack: &mut [Win], a: &Rect, screen: &Rect)
    requires few { length stack.old ≤ 256 }
    requires single { AreSingle stack.old }
    ensures { stack.new ≡ area_invalidated (clip_in screen.now stack.old) a.now stack.old }
{
    if a.meet(screen).is_empty() {
        return;
    }
    let mut ancestors = Ancestors::new();
    for i in 0..stack.len() {
        let clip = ancestors.next_spot(stack, i, screen).clip;
        grow(&mut stack[i], &clip, a);
    }
}
