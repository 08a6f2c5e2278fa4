//! Laws of devices, each as the contract of a function that does nothing.

ghost use Rattle.std.specs.Prelude.{◌≡◌, ◌≢◌, ◌+◌, ◌<◌, ◌==◌, ℕ, if◌then◌else◌, [], ◌∷◌, Some, None};
ghost use Rattle.std.specs.Option.{option_map};
ghost use Rattle.frame.specs.Canvases.{Canvas, canvas};
ghost use Rattle.memdev.specs.declared.refused.DevRefused.TheVariants as DevRefused;
ghost use Rattle.memdev.specs.Frames.{filled};
ghost use Rattle.memdev.specs.Devices.{Table, no_devices, frame_of, with_device, without_device, with_drawn, AreGiven, IsGone};
ghost use Rattle.memdev.specs.Refusals.{refusal_of_create};
ghost use Rattle.memdev.specs.Examples.{with_dot, with_dots, handles_of};

/// Does nothing. What a handle finds after each change: the new device, none where it was deleted,
/// what was written where one was lent, and else what it found before.
pub fn others_stay()
    ensures created { (t : Table) (frame : Canvas) (d : ℕ) → AreGiven t
        → frame_of (with_device t frame).live d
        ≡ (if t.handles + 1 == d then Some frame else frame_of t.live d) }
    ensures deleted { (t : Table) (gone d : ℕ) → frame_of (without_device t gone).live d
        ≡ (if gone == d then None else frame_of t.live d) }
    ensures written { (t : Table) (lent d : ℕ) (frame : Canvas)
        → frame_of (with_drawn t lent frame).live d
        ≡ (if lent == d then option_map (λ _. frame) (frame_of t.live d) else frame_of t.live d) }
{}

/// Does nothing. The handles of live devices were given out, and no two are the same, at the start
/// and after each change. So 0 is none of them, and neither is the handle of the next device.
pub fn handles_stay_given()
    ensures start { AreGiven no_devices }
    ensures created { (t : Table) (frame : Canvas) → AreGiven t → AreGiven (with_device t frame) }
    ensures deleted { (t : Table) (gone : ℕ) → AreGiven t → AreGiven (without_device t gone) }
    ensures written { (t : Table) (lent : ℕ) (frame : Canvas) → AreGiven t
        → AreGiven (with_drawn t lent frame) }
    ensures screen { (t : Table) → AreGiven t → frame_of t.live 0 ≡ None }
    ensures next { (t : Table) → AreGiven t → frame_of t.live (t.handles + 1) ≡ None }
{}

/// Does nothing. A handle whose device is gone is not given out again and finds none, whatever
/// changes. The handle of a deleted device is such a one.
pub fn handles_are_never_used_again()
    ensures gone { (t : Table) (d : ℕ) (frame : Canvas) → AreGiven t
        → frame_of t.live d ≡ Some frame → IsGone (without_device t d) d }
    ensures created { (t : Table) (frame : Canvas) (d : ℕ) → AreGiven t → IsGone t d
        → IsGone (with_device t frame) d }
    ensures deleted { (t : Table) (gone d : ℕ) → IsGone t d → IsGone (without_device t gone) d }
    ensures written { (t : Table) (lent d : ℕ) (frame : Canvas) → IsGone t d
        → IsGone (with_drawn t lent frame) d }
    ensures next { (t : Table) (d : ℕ) → IsGone t d → d ≢ t.handles + 1 }
{}

/// Does nothing. Devices in numbers: sixteen are made, the seventeenth is refused, sides at and
/// beyond their limits, a blue device of two points, and the handles after one was deleted.
pub fn devices_in_numbers()
    ensures few { (n : ℕ) → n < 16 → refusal_of_create (with_dots n).live 1 1 ≡ None }
    ensures full { refusal_of_create (with_dots 16).live 1 1 ≡ Some DevRefused.TooMany }
    ensures handles { handles_of (with_dots 16) ≡ 1 ∷ 2 ∷ 3 ∷ 4 ∷ 5 ∷ 6 ∷ 7 ∷ 8 ∷ 9 ∷ 10 ∷ 11
        ∷ 12 ∷ 13 ∷ 14 ∷ 15 ∷ 16 ∷ [] }
    ensures greatest { refusal_of_create [] 1024 768 ≡ None }
    ensures too_wide { refusal_of_create [] 1025 768 ≡ Some DevRefused.BadSize }
    ensures too_high { refusal_of_create [] 1024 769 ≡ Some DevRefused.BadSize }
    ensures no_width { refusal_of_create [] 0 1 ≡ Some DevRefused.BadSize }
    ensures no_height { refusal_of_create (with_dots 16).live 1 0 ≡ Some DevRefused.BadSize }
    ensures blue { filled 2 1 255 ≡ canvas 2 1 (255 ∷ 255 ∷ []) 2 }
    ensures after { handles_of (with_dot (without_device (with_dots 2) 2)) ≡ 1 ∷ 3 ∷ [] }
{}
