//! What holds of buffers whenever no call of theirs is under way: laws, each as the contract of a
//! function that does nothing.
ghost use Rattle.std.specs.Prelude.{◌≡◌, ◌≢◌, ◌≤◌, ◌↔◌, ℕ, Option, Some, None, IsSome, MatchOption, IfSome};
ghost use Rattle.flip.specs.Drawers.{IsConsistent};
ghost use Rattle.flip.specs.Display.{IsDisplay};
ghost use Rattle.multibuf.specs.Buffering.{back_index};
ghost use Rattle.multibuf.specs.Frames.{frame_at, shown_frame, waiting_frame, IsShownOrWaits};
ghost use Rattle.multibuf.specs.Screens.{screen_of};

use crate::buffers::Buffers;

/// Does nothing. Until the next call the display shows the frame that is shown here or the one that
/// waits, whatever the display does meanwhile, and of several buffers the one that is drawn on is
/// neither shown nor waits there.
pub fn displayed_frame_is_known(buffers: &Buffers)
    ensures displayed { (shown : ℕ) (waiting : Option ℕ) →
        IsDisplay buffers.now.drawer shown waiting → IsShownOrWaits buffers.now shown }
    ensures shown { frame_at buffers.now buffers.now.drawer.shown ≡ Some (shown_frame buffers.now) }
    ensures waiting { MatchOption buffers.now.drawer.waiting (waiting_frame buffers.now ≡ None)
        (λ k. IsSome (waiting_frame buffers.now)
        × (frame_at buffers.now k ≡ waiting_frame buffers.now)) }
    ensures drawn { (k shown : ℕ) (waiting : Option ℕ) →
        back_index buffers.now ≡ Some k → IsDisplay buffers.now.drawer shown waiting →
        (k ≢ shown) × (waiting ≢ Some k) }
{
    // What holds of every value is known where one of its fields is named.
    let _ = &buffers.held;
}

/// Does nothing. The pictures fit what the drawer knows: a picture waits exactly where it knows a
/// buffer to wait, under the number of the last switch, and one is drawn on exactly where drawing
/// was begun on several buffers.
pub fn pictures_fit_the_drawer(buffers: &Buffers)
    ensures consistent { IsConsistent buffers.now.drawer }
    ensures waiting { IsSome (screen_of buffers.now).waiting ↔ IsSome buffers.now.drawer.waiting }
    ensures number { IfSome (screen_of buffers.now).waiting (λ w. w.0 ≡ buffers.now.switches) }
    ensures back { IsSome (screen_of buffers.now).back ↔
        ((buffers.now.count ≢ 0) × (2 ≤ buffers.now.drawer.buffers)) }
    ensures count { buffers.now.count ≤ 100 }
{
    // What holds of every value is known where one of its fields is named.
    let _ = &buffers.held;
}
