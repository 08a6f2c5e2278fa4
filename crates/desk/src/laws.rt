//! Laws of the definitions, each as the contract of a function that does nothing.

ghost use Rattle.std.specs.Prelude.{ℕ, List};
ghost use Rattle.calls.specs.declared.call.Call.{Call};
ghost use Rattle.desk.specs.Setups.{Setup};
ghost use Rattle.desk.specs.Desks.{opening_desk};
ghost use Rattle.desk.specs.Stains.{no_stain, desk_after, stain_after_calls};
ghost use Rattle.desk.specs.Promises.{IsRightOutside, IsPainterOutside, NoneInvalid};

/// Does nothing. After any calls, each with its actor, the picture is the painter's outside the
/// damage, which is what can be seen of the invalid parts of windows, and the stain, which is what
/// tasks drew directly and no job has painted since. Where no window is invalid it is the painter's
/// outside the stain.
pub fn damage_covers_calls()
    ensures covers { (setup : Setup) (calls : List (ℕ × Call))
        → IsRightOutside setup (desk_after setup (opening_desk setup) calls)
        (stain_after_calls setup (opening_desk setup) calls no_stain) }
    ensures valid { (setup : Setup) (calls : List (ℕ × Call))
        → NoneInvalid (desk_after setup (opening_desk setup) calls).windows
        → IsPainterOutside setup (desk_after setup (opening_desk setup) calls).windows
        (desk_after setup (opening_desk setup) calls).picture
        (stain_after_calls setup (opening_desk setup) calls no_stain) }
{}
