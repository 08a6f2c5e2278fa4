//! The clip rectangles of all windows in one pass.

ghost use Rattle.std.specs.Prelude.{◌≡◌, ◌≤◌, length, map, vec_capacity};
ghost use Rattle.scene.specs.Places.{AreSingle};
ghost use Rattle.scene.specs.Clips.{clip_in};

use crate::ancestors::Ancestors;
use crate::win::Win;
use gfx_base::Rect;

/// Puts the clip rectangles of all windows into `clips`, which has room for them: the points common
/// to a window, its ancestors and the screen, and none where one of these windows is hidden. No
/// handle stands twice. The time is that of the number of windows where they are in a tree's order.
pub fn put_clips(stack: &[Win], screen: &Rect, clips: &mut Vec<Rect>)
    requires room { length stack.now ≤ vec_capacity clips.old }
    requires single { AreSingle stack.now }
    ensures clips { clips.new.items ≡ map (clip_in screen.now stack.now) stack.now }
    ensures room { vec_capacity clips.new ≡ vec_capacity clips.old }
{
    clips.clear();
    let mut ancestors = Ancestors::new();
    for i in 0..stack.len() {
        clips.push_reserved(ancestors.next_spot(stack, i, screen).clip);
    }
}
