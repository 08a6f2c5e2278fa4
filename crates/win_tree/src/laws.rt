//! Laws of the windows' list, each as the contract of a function that does nothing.

ghost use Rattle.std.specs.Prelude.{◌≡◌, ◌≢◌, ◌+◌, ◌<◌, ◌==◌, ℕ, Bool, true, false, if◌then◌else◌, List, [], ◌∷◌, map, filter, length, Some, None};
ghost use Rattle.std.specs.List.{AllByRecursion};
ghost use Rattle.gfx_base.specs.declared.rect.Rect.{Rect};
ghost use Rattle.gfx_base.specs.Rects.{LiesIn};
ghost use Rattle.scene.specs.declared.win.Win.{Win};
ghost use Rattle.scene.specs.Places.{window_of, place_of, place_at};
ghost use Rattle.scene.specs.Clips.{clip_in, corner_in};
ghost use Rattle.scene.specs.Changes.{Adds, TakesAway, Changes, Reorders};
ghost use Rattle.scene.specs.Families.{has_handle, family_of, without_family, on_top_of, raised, lowered, window_changed, places_above, StandsIn};
ghost use Rattle.scene.specs.Stacks.{has_ancestors, IsStack, IsWindow, AreGiven, MayBecome};
ghost use Rattle.win_tree.specs.Examples.{dot_in, small_tree, handles_of};

/// Does nothing. In a valid stack a window and its descendants stand in one piece. Where they are
/// raised or lowered they stand elsewhere among the same others, and a new window stands among
/// those that were there.
pub fn families_stand_in_one_piece()
    ensures family { (ws : List Win) (h : ℕ) (w : Win) → IsStack ws → window_of ws h ≡ Some w
        → StandsIn (family_of h ws) (without_family h ws) ws }
    ensures raised { (ws : List Win) (h : ℕ) (w : Win) → IsStack ws → window_of ws h ≡ Some w
        → h ≢ 1
        → StandsIn (family_of h ws) (without_family h ws) (raised h ws) }
    ensures lowered { (ws : List Win) (h : ℕ) (w : Win) → IsStack ws → window_of ws h ≡ Some w
        → h ≢ 1
        → StandsIn (family_of h ws) (without_family h ws) (lowered h ws) }
    ensures created { (ws : List Win) (w over : Win) → IsStack ws
        → window_of ws w.parent ≡ Some over
        → StandsIn (w ∷ []) ws (on_top_of w.parent (w ∷ []) ws) }
{}

/// Does nothing. Each change of the list keeps a valid stack: a new window, whose handle wasn't
/// given out before, in a parent that doesn't have the deepest level; a window deleted with its
/// descendants, raised or lowered; and windows changed in place.
pub fn stacks_stay_valid()
    ensures created { (ws : List Win) (handles : ℕ) (w over : Win) → IsStack ws
        → AreGiven handles ws
        → handles < w.handle → window_of ws w.parent ≡ Some over → has_ancestors 7 ws over ≡ false
        → length ws < 256 → IsWindow w → IsStack (on_top_of w.parent (w ∷ []) ws) }
    ensures deleted { (ws : List Win) (h : ℕ) (w : Win) → IsStack ws → window_of ws h ≡ Some w
        → h ≢ 1 → IsStack (without_family h ws) }
    ensures raised { (ws : List Win) (h : ℕ) (w : Win) → IsStack ws → window_of ws h ≡ Some w
        → h ≢ 1 → IsStack (raised h ws) }
    ensures lowered { (ws : List Win) (h : ℕ) (w : Win) → IsStack ws → window_of ws h ≡ Some w
        → h ≢ 1 → IsStack (lowered h ws) }
    ensures changed { (ws : List Win) (h : ℕ) (change : Win → Win) → IsStack ws
        → ((w : Win) → window_of ws h ≡ Some w → MayBecome w (change w))
        → IsStack (window_changed h change ws) }
    ensures each { (ws : List Win) (change : Win → Win) → IsStack ws
        → AllByRecursion (λ w. MayBecome w (change w)) ws → IsStack (map change ws) }
{}

/// Does nothing. The handles that stand in the list are among those that were given out, after each
/// change too: a new window has the next one.
pub fn handles_stay_given()
    ensures created { (ws : List Win) (handles : ℕ) (w over : Win) → IsStack ws
        → AreGiven handles ws
        → w.handle ≡ handles + 1 → window_of ws w.parent ≡ Some over
        → AreGiven (handles + 1) (on_top_of w.parent (w ∷ []) ws) }
    ensures deleted { (ws : List Win) (handles h : ℕ) (w : Win) → IsStack ws → AreGiven handles ws
        → window_of ws h ≡ Some w → AreGiven handles (without_family h ws) }
    ensures raised { (ws : List Win) (handles h : ℕ) (w : Win) → IsStack ws → AreGiven handles ws
        → window_of ws h ≡ Some w → h ≢ 1 → AreGiven handles (raised h ws) }
    ensures lowered { (ws : List Win) (handles h : ℕ) (w : Win) → IsStack ws → AreGiven handles ws
        → window_of ws h ≡ Some w → h ≢ 1 → AreGiven handles (lowered h ws) }
    ensures each { (ws : List Win) (handles : ℕ) (change : Win → Win) → AreGiven handles ws
        → AllByRecursion (λ w. MayBecome w (change w)) ws → AreGiven handles (map change ws) }
{}

/// Does nothing. What a handle finds after each change: the new window, no window of a deleted
/// family, and else what it found before.
pub fn handles_find_their_windows()
    ensures created { (ws : List Win) (handles : ℕ) (w over : Win) → IsStack ws
        → AreGiven handles ws
        → handles < w.handle → window_of ws w.parent ≡ Some over → (x : ℕ)
        → window_of (on_top_of w.parent (w ∷ []) ws) x
        ≡ (if w.handle == x then Some w else window_of ws x) }
    ensures deleted { (ws : List Win) (h x : ℕ) → window_of (without_family h ws) x
        ≡ (if has_handle x (family_of h ws) then None else window_of ws x) }
    ensures raised { (ws : List Win) (h : ℕ) (w : Win) → IsStack ws → window_of ws h ≡ Some w
        → h ≢ 1 → (x : ℕ) → window_of (raised h ws) x ≡ window_of ws x }
    ensures lowered { (ws : List Win) (h : ℕ) (w : Win) → IsStack ws → window_of ws h ≡ Some w
        → h ≢ 1 → (x : ℕ) → window_of (lowered h ws) x ≡ window_of ws x }
{}

/// Does nothing. The windows that pass a test, as that of standing at a point, are in the order in
/// which they were, where the new window or the family that is deleted, raised or lowered has none
/// that passes.
pub fn other_windows_stand_as_before()
    ensures created { (ws : List Win) (w over : Win) (test : Win → Bool) → IsStack ws
        → window_of ws w.parent ≡ Some over → test w ≡ false
        → filter test (on_top_of w.parent (w ∷ []) ws) ≡ filter test ws }
    ensures deleted { (ws : List Win) (h : ℕ) (w : Win) (test : Win → Bool) → IsStack ws
        → window_of ws h ≡ Some w → filter test (family_of h ws) ≡ []
        → filter test (without_family h ws) ≡ filter test ws }
    ensures raised { (ws : List Win) (h : ℕ) (w : Win) (test : Win → Bool) → IsStack ws
        → window_of ws h ≡ Some w → h ≢ 1 → filter test (family_of h ws) ≡ []
        → filter test (raised h ws) ≡ filter test ws }
    ensures lowered { (ws : List Win) (h : ℕ) (w : Win) (test : Win → Bool) → IsStack ws
        → window_of ws h ≡ Some w → h ≢ 1 → filter test (family_of h ws) ≡ []
        → filter test (lowered h ws) ≡ filter test ws }
{}

/// Does nothing. The changes are those that the laws on damage speak of: a window is added, one is
/// taken away with those below it, one is changed in its place, and one comes with those below it
/// to another place of the order.
pub fn damage_covers_these_changes()
    ensures created { (ws : List Win) (handles : ℕ) (w over : Win) → IsStack ws
        → AreGiven handles ws
        → handles < w.handle → window_of ws w.parent ≡ Some over
        → Adds ws (on_top_of w.parent (w ∷ []) ws) w }
    ensures deleted { (ws : List Win) (w : Win) → IsStack ws → window_of ws w.handle ≡ Some w
        → TakesAway ws (without_family w.handle ws) w }
    ensures changed { (ws : List Win) (w : Win) (change : Win → Win) → IsStack ws
        → window_of ws w.handle ≡ Some w → (change w).handle ≡ w.handle
        → Changes ws (window_changed w.handle change ws) w (change w) }
    ensures raised { (ws : List Win) (w : Win) → IsStack ws → window_of ws w.handle ≡ Some w
        → w.handle ≢ 1 → Reorders ws (raised w.handle ws) w }
    ensures lowered { (ws : List Win) (w : Win) → IsStack ws → window_of ws w.handle ≡ Some w
        → w.handle ≢ 1 → Reorders ws (lowered w.handle ws) w }
{}

/// Does nothing. The clips of a window's descendants lie in its own, and so does its own.
pub fn descendants_are_clipped()
    ensures { (screen : Rect) (ws : List Win) (h : ℕ) (w : Win) → IsStack ws
        → window_of ws h ≡ Some w
        → AllByRecursion (λ v. LiesIn (clip_in screen ws v) (clip_in screen ws w))
        (family_of h ws) }
{}

/// Does nothing. Where a window lies and what it may paint depends on it and its ancestors alone.
pub fn clips_depend_on_ancestors()
    ensures clip { (screen : Rect) (ws vs : List Win) (w : Win)
        → places_above 8 (place_at ws) (place_of w) ≡ places_above 8 (place_at vs) (place_of w)
        → clip_in screen ws w ≡ clip_in screen vs w }
    ensures corner { (ws vs : List Win) (w : Win)
        → places_above 8 (place_at ws) (place_of w) ≡ places_above 8 (place_at vs) (place_of w)
        → corner_in ws w ≡ corner_in vs w }
{}

/// Does nothing. What the changes make of a small tree, told by handles: the desktop has 2, which
/// has 3, and above it 4.
pub fn changes_in_numbers()
    ensures raised { handles_of (raised 2 small_tree) ≡ 1 ∷ 4 ∷ 2 ∷ 3 ∷ [] }
    ensures lowered { handles_of (lowered 4 small_tree) ≡ 1 ∷ 4 ∷ 2 ∷ 3 ∷ [] }
    ensures deleted { handles_of (without_family 2 small_tree) ≡ 1 ∷ 4 ∷ [] }
    ensures created { handles_of (on_top_of 2 (dot_in 2 5 ∷ []) small_tree)
        ≡ 1 ∷ 2 ∷ 3 ∷ 5 ∷ 4 ∷ [] }
    ensures level { has_ancestors 2 small_tree (dot_in 2 3) ≡ true }
    ensures no_deeper { has_ancestors 3 small_tree (dot_in 2 3) ≡ false }
{}
