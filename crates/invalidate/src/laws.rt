//! Laws of invalidation, each as the contract of a function that does nothing.

ghost use Rattle.std.specs.Prelude.{◌≡◌, ℕ, ℤ, pos, true, List, map, None, Some, slice_get, slice_set};
ghost use Rattle.gfx_base.specs.declared.rect.Rect.{Rect};
ghost use Rattle.gfx_base.specs.Rects.{is_empty, shift, IsSmallest};
ghost use Rattle.scene.specs.declared.win.Win.{Win};
ghost use Rattle.scene.specs.Places.{place_of, no_window};
ghost use Rattle.scene.specs.Damage.{grown, invalidated, area_invalidated, with_invalid};
ghost use Rattle.scene.specs.Families.{window_changed};
ghost use Rattle.scene.specs.Stacks.{IsStack};
ghost use Rattle.invalidate.specs.Invalidation.{corners};

/// Does nothing. Invalidation keeps a valid stack, and so no invalid rectangle is ever empty.
pub fn stacks_stay_valid()
    ensures area { (clip : Win → Rect) (area : Rect) (ws : List Win) → IsStack ws
        → IsStack (area_invalidated clip area ws) }
    ensures one { (clip area : Rect) (ws : List Win) (i : ℕ) (w : Win) → IsStack ws
        → slice_get ws i ≡ Some w → IsStack (slice_set ws i (invalidated clip area w)) }
{}

/// Does nothing. Invalidation moves no window.
pub fn windows_stay_in_place()
    ensures area { (clip : Win → Rect) (area : Rect) (ws : List Win)
        → map place_of (area_invalidated clip area ws) ≡ map place_of ws }
    ensures one { (clip area : Rect) (w : Win) → place_of (invalidated clip area w) ≡ place_of w }
{}

/// Does nothing. In a valid stack, to change what stands at a place is to change the window that
/// has the handle of the one there.
pub fn places_have_handles()
    ensures { (ws : List Win) (i : ℕ) (w : Win) (change : Win → Win) → IsStack ws
        → slice_get ws i ≡ Some w → slice_set ws i (change w) ≡ window_changed w.handle change ws }
{}

/// Does nothing. A window stays as it is where the area has no point, moved or not, and where its
/// clip has none.
pub fn nothing_is_invalidated_by_no_point()
    ensures area { (clip area : Rect) (w : Win) → is_empty area ≡ true
        → invalidated clip area w ≡ w }
    ensures moved { (clip area : Rect) (dx dy : ℤ) (w : Win) → is_empty area ≡ true
        → invalidated clip (shift area dx dy) w ≡ w }
    ensures clip { (clip area : Rect) (w : Win) → is_empty clip ≡ true
        → invalidated clip area w ≡ w }
{}

/// Does nothing. An invalid rectangle becomes the smallest one that has its points and the new
/// ones.
pub fn invalid_rectangles_are_smallest()
    ensures { (old part : Rect) → IsSmallest old part (grown (Some old) part) }
{}

/// Does nothing. Invalidation in numbers, in a clip of ten by ten points.
pub fn invalidation_in_numbers()
    ensures first { invalidated (corners 0 0 9 9) (corners 5 5 20 20) no_window
        ≡ with_invalid no_window (Some (corners 5 5 9 9)) }
    ensures second { invalidated (corners 0 0 9 9) (corners 0 1 1 1)
        (with_invalid no_window (Some (corners 5 5 9 9)))
        ≡ with_invalid no_window (Some (corners 0 1 9 9)) }
    ensures outside { invalidated (corners 0 0 9 9) (corners 10 0 20 9) no_window ≡ no_window }
    ensures inverted { invalidated (corners 0 0 9 9) (corners 3 0 2 9) no_window ≡ no_window }
{}
