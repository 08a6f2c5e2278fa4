//! Windows that are given values.

ghost use Rattle.std.specs.Prelude.{◌≡◌, ◌<◌, Some, length, slice_get, slice_set};
ghost use Rattle.scene.specs.declared.win.Win.{Win as Window};
ghost use Rattle.messages.specs.Delivery.{with_new_values};

use gfx_base::Rect;
use invalidate::window;
use scene::Win;

/// Gives the window at `i` these values. Where one differs from before, the window becomes invalid
/// on its whole clip, covered by other windows or not; where none does, nothing changes.
pub fn put_values(stack: &mut [Win], i: usize, values: &[i16; 16], screen: &Rect)
    requires { i < length stack.old }
    ensures { (w : Window) → slice_get stack.old i ≡ Some w
        → stack.new
        ≡ slice_set stack.old i (with_new_values screen.now stack.old values.now w) }
{
    if stack[i].values == *values {
        return;
    }
    stack[i].values = *values;
    window(stack, i, screen);
}
