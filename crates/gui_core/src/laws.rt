//! Laws of the definitions, each as the contract of a function that does nothing.

ghost use Rattle.std.specs.Prelude.{◌≡◌, ◌≤◌, ℕ, None, false, List};
ghost use Rattle.std.specs.List.{AllByRecursion, list_any};
ghost use Rattle.gfx_base.specs.declared.point.Point.{Point};
ghost use Rattle.scene.specs.declared.win.Win.{Win};
ghost use Rattle.scene.specs.Painting.{windows_at, visible, painted_over, painted};
ghost use Rattle.context.specs.Contexts.{owned_by};
ghost use Rattle.calls.specs.declared.entry.Entry.{Entry};
ghost use Rattle.calls.specs.declared.entry.Entry.TheVariants as entry;
ghost use Rattle.desk.specs.Devices.{picture_on};
ghost use Rattle.desk.specs.Setups.{Setup, looks_of, painter};
ghost use Rattle.multibuf.specs.Screens.{latest};
ghost use Rattle.desk.specs.Desks.{is_refused};
ghost use Rattle.engine.specs.States.{State, desk_of, opening, step, state_after};
ghost use Rattle.desk.specs.Stains.{Stain, no_stain};
ghost use Rattle.gui_core.specs.Stains.{stained, stain_after, draws};
ghost use Rattle.desk.specs.Promises.{IsRightOutside, IsPainterOutside, NoneInvalid};
ghost use Rattle.gui_core.specs.Promises.{IsQuiet, window_calls, changes_contexts, IsByAnother};

use calls::{Call, Refusal, Reply};

/// Does nothing. After any calls and marks the picture that is drawn on is the painter's outside
/// the damage and the stain, which is what tasks drew directly and no job has painted since. Where
/// no window is invalid it is the painter's outside the stain, and where no task drew the whole
/// painter's picture. A call that draws nothing stains no point. An exec that isn't refused leaves
/// no window invalid.
pub fn damage_covers_change()
    ensures covers { (setup : Setup) (es : List Entry)
        → IsRightOutside setup (desk_of (state_after setup (opening setup) es))
        (stain_after setup (opening setup) es no_stain) }
    ensures valid { (setup : Setup) (es : List Entry)
        → NoneInvalid (state_after setup (opening setup) es).windows
        → IsPainterOutside setup (state_after setup (opening setup) es).windows
        (latest (state_after setup (opening setup) es).screen)
        (stain_after setup (opening setup) es no_stain) }
    ensures undrawn { (setup : Setup) (es : List Entry) → list_any draws es ≡ false
        → NoneInvalid (state_after setup (opening setup) es).windows
        → latest (state_after setup (opening setup) es).screen
        ≡ painter setup (state_after setup (opening setup) es).windows }
    ensures clean { (setup : Setup) (s : State) (e : Entry) (stain : Stain) (p : Point)
        → draws e ≡ false → stain p ≡ false → stained setup s e stain p ≡ false }
    ensures exec { (setup : Setup) (s : State) (actor : ℕ)
        → is_refused (step setup s (entry.Call actor Call.Exec)).reply ≡ false
        → NoneInvalid (step setup s (entry.Call actor Call.Exec)).state.windows }
    ensures visible { (setup : Setup) (ws : List Win) (p : Point)
        → painted (looks_of setup ws) ws p
        ≡ painted_over (looks_of setup ws) p 0
        (visible (looks_of setup ws) (windows_at (looks_of setup ws) ws p)) }
{}

/// Does nothing. With two or three buffers no call changes the picture that is shown: only a mark
/// shows another one. After any calls and marks, where no window is invalid, no begin is open and
/// no switch waits, the picture that is shown is the one that is drawn on; so it is the painter's
/// outside the stain, and where no task drew the whole painter's picture.
pub fn shown_picture_is_whole()
    ensures calls { (setup : Setup) (s : State) (actor : ℕ) (call : Call)
        → 2 ≤ setup.config.buffers
        → (step setup s (entry.Call actor call)).state.screen.shown ≡ s.screen.shown }
    ensures latest { (setup : Setup) (es : List Entry)
        → IsQuiet (state_after setup (opening setup) es)
        → (state_after setup (opening setup) es).screen.shown
        ≡ latest (state_after setup (opening setup) es).screen }
    ensures quiet { (setup : Setup) (es : List Entry)
        → IsQuiet (state_after setup (opening setup) es)
        → IsPainterOutside setup (state_after setup (opening setup) es).windows
        (state_after setup (opening setup) es).screen.shown
        (stain_after setup (opening setup) es no_stain) }
    ensures undrawn { (setup : Setup) (es : List Entry) → list_any draws es ≡ false
        → IsQuiet (state_after setup (opening setup) es)
        → (state_after setup (opening setup) es).screen.shown
        ≡ painter setup (state_after setup (opening setup) es).windows }
{}

/// Does nothing. A refused call changes nothing.
pub fn refusal_changes_nothing()
    ensures { (setup : Setup) (s : State) (e : Entry) (refusal : Refusal)
        → (step setup s e).reply ≡ Reply.Refused refusal → (step setup s e).state ≡ s }
{}

/// Does nothing. Painting changes nothing that the painter's picture looks at: the calls that may
/// change windows leave the same picture to paint, with or without the others between them.
pub fn painting_moves_nothing()
    ensures { (setup : Setup) (es : List Entry)
        → painter setup (state_after setup (opening setup) (window_calls es)).windows
        ≡ painter setup (state_after setup (opening setup) es).windows }
{}

/// Does nothing. What a task draws with and saved stays through the calls of other tasks, one or
/// many, and through all calls that aren't on contexts. Tasks are numbered from 1.
pub fn contexts_are_separate()
    ensures others { (setup : Setup) (s : State) (e : Entry) (task : ℕ) → 1 ≤ task
        → IsByAnother task e
        → owned_by (step setup s e).state.contexts task ≡ owned_by s.contexts task }
    ensures many { (setup : Setup) (s : State) (es : List Entry) (task : ℕ) → 1 ≤ task
        → AllByRecursion (IsByAnother task) es
        → owned_by (state_after setup s es).contexts task ≡ owned_by s.contexts task }
    ensures rest { (setup : Setup) (s : State) (e : Entry) → changes_contexts e ≡ false
        → (step setup s e).state.contexts ≡ s.contexts }
{}

/// Does nothing. A handle that was given out, and whose device is gone, finds no device after any
/// further calls: the handle of a device is never used again.
pub fn device_handles_are_never_used_again()
    ensures { (setup : Setup) (s : State) (es : List Entry) (handle : ℕ)
        → handle ≤ s.devices.handles → picture_on s.devices.live handle ≡ None
        → picture_on (state_after setup s es).devices.live handle ≡ None }
{}
