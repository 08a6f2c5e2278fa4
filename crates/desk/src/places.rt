//! Where windows stand in their list.

ghost use Rattle.std.specs.Prelude.{◌≡◌, ◌==◌, is_some, position};
ghost use Rattle.scene.specs.Places.{window_of};

use scene::Win;

/// The place of the window that has the handle, if there is one.
pub fn place_of(stack: &[Win], h: u32) -> Option<usize>
    ensures { result ≡ position (λ w. w.handle == h) stack.now }
{
    stack.iter().position(|w| w.handle == h)
}

/// Whether a window of the list has the handle.
pub fn has_window(stack: &[Win], h: u32) -> bool
    ensures { result ≡ is_some (window_of stack.now h) }
{
    place_of(stack, h).is_some()
}
