//! The first invalid window.

ghost use Rattle.std.specs.Prelude.{◌≡◌, Some, position};
ghost use Rattle.invalidate.specs.Invalidation.{is_invalid};
ghost use Rattle.desk.specs.Jobs.{windows_after_job};

use scene::Win;

/// The first invalid window, which is the one at `which`, is no longer invalid.
pub fn make_valid(windows: &mut [Win], which: usize)
    requires { position is_invalid windows.old ≡ Some which }
    ensures { windows.new ≡ windows_after_job windows.old }
{
    let window = &mut windows[which];
    window.invalid = None;
}
