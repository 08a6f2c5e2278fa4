//! Laws of messages, each as the contract of a function that does nothing.

ghost use Rattle.std.specs.Prelude.{◌≡◌, ◌≢◌, ◌≤◌, ℕ, suc, ℤ, pos, negsuc, true, false, List, [], ◌∷◌};
ghost use Rattle.std.specs.Prelude.{map, None, Some, slice_get, slice_set};
ghost use Rattle.gfx_base.specs.declared.point.Point.{Point};
ghost use Rattle.gfx_base.specs.declared.rect.Rect.{Rect};
ghost use Rattle.gfx_base.specs.Rects.{has};
ghost use Rattle.paint_ops.specs.Kinds.{Assets};
ghost use Rattle.scene.specs.declared.win.Win.{Win};
ghost use Rattle.scene.specs.Places.{place_of, window_of, AreSingle};
ghost use Rattle.scene.specs.Clips.{deepest_level, clip_in};
ghost use Rattle.scene.specs.Damage.{is_invalid_at};
ghost use Rattle.scene.specs.Looks.{looks_of};
ghost use Rattle.scene.specs.Changes.{DamageCovers};
ghost use Rattle.scene.specs.Families.{has_handle};
ghost use Rattle.scene.specs.Stacks.{IsStack};
ghost use Rattle.invalidate.specs.Invalidation.{corners};
ghost use Rattle.messages.specs.Reactions.{reacted, values_after, first_up};
ghost use Rattle.messages.specs.Delivery.{rest_of, with_new_values, lineage, delivered};
ghost use Rattle.messages.specs.Puts.{Put, after_put, after_puts};
ghost use Rattle.messages.specs.Examples.{add_argument, set_argument_add_two};
ghost use Rattle.messages.specs.Examples.{add_two_set_argument, two_ups};
ghost use Rattle.messages.specs.Examples.{one_step, whole_way, row_screen, desktop, outer, inner};
ghost use Rattle.messages.specs.Examples.{three_windows, changed_to};

/// Does nothing. Messages and new values keep a valid stack.
pub fn stacks_stay_valid()
    ensures message { (assets : Assets) (screen : Rect) (message : ℕ) (argument : ℤ) (w : Win)
        (ws : List Win) → IsStack ws → IsStack (delivered assets screen message argument w ws) }
    ensures values { (screen : Rect) (ws : List Win) (i : ℕ) (w : Win) (values : List ℤ)
        → IsStack ws → slice_get ws i ≡ Some w
        → IsStack (slice_set ws i (with_new_values screen ws values w)) }
{}

/// Does nothing. Messages and new values move no window.
pub fn windows_stay_in_place()
    ensures message { (assets : Assets) (screen : Rect) (message : ℕ) (argument : ℤ) (w : Win)
        (ws : List Win)
        → map place_of (delivered assets screen message argument w ws) ≡ map place_of ws }
    ensures values { (screen : Rect) (ws : List Win) (values : List ℤ) (w : Win)
        → place_of (with_new_values screen ws values w) ≡ place_of w }
{}

/// Does nothing. Messages and new values change nothing of a window but its values and its invalid
/// rectangle.
pub fn only_values_change()
    ensures message { (assets : Assets) (screen : Rect) (message : ℕ) (argument : ℤ) (w : Win)
        (ws : List Win)
        → map rest_of (delivered assets screen message argument w ws) ≡ map rest_of ws }
    ensures values { (screen : Rect) (ws : List Win) (values : List ℤ) (w : Win)
        → rest_of (with_new_values screen ws values w) ≡ rest_of w }
{}

/// Does nothing. A message gives values to windows, one after the other, and does nothing else.
pub fn deliver_is_a_chain()
    ensures { (assets : Assets) (screen : Rect) (message : ℕ) (argument : ℤ) (w : Win)
        (ws : List Win) → AreSingle ws → (puts : List Put)
        × (delivered assets screen message argument w ws ≡ after_puts screen puts ws) }
{}

/// Does nothing. In a valid stack eight windows are enough for every window and all its ancestors,
/// and above the desktop there is none.
pub fn chains_end_at_the_desktop()
    ensures eight { (ws : List Win) (w : Win) (levels : ℕ) → IsStack ws
        → window_of ws w.handle ≡ Some w → deepest_level ≤ levels
        → lineage levels ws w ≡ lineage deepest_level ws w }
    ensures desktop { (w : Win) (ws : List Win) (levels : ℕ) → IsStack (w ∷ ws)
        → lineage (suc levels) (w ∷ ws) w ≡ w ∷ [] }
{}

/// Does nothing. A window stays as it is where the message goes neither to it nor to one of which
/// it is an ancestor.
pub fn others_stay()
    ensures { (assets : Assets) (screen : Rect) (message : ℕ) (argument : ℤ) (w : Win)
        (ws : List Win) (i : ℕ) (v : Win) → slice_get ws i ≡ Some v
        → has_handle v.handle (lineage deepest_level ws w) ≡ false
        → slice_get (delivered assets screen message argument w ws) i ≡ Some v }
{}

/// Does nothing. Where a window's values differ from before, all of its clip is invalid. It stays
/// as it is where it is given the values that it has.
pub fn values_change_wholly()
    ensures message { (assets : Assets) (screen : Rect) (message : ℕ) (argument : ℤ) (w : Win)
        (ws : List Win) (i : ℕ) (v u : Win) (p : Point) → slice_get ws i ≡ Some v
        → slice_get (delivered assets screen message argument w ws) i ≡ Some u
        → u.values ≢ v.values → has (clip_in screen ws v) p ≡ true → is_invalid_at p u ≡ true }
    ensures values { (screen : Rect) (ws : List Win) (values : List ℤ) (w : Win) (p : Point)
        → values ≢ w.values → has (clip_in screen ws w) p ≡ true
        → is_invalid_at p (with_new_values screen ws values w) ≡ true }
    ensures same { (screen : Rect) (ws : List Win) (w : Win)
        → with_new_values screen ws w.values w ≡ w }
{}

/// Does nothing. The damage covers what messages and new values change of the painter's picture.
pub fn damage_covers_messages()
    ensures message { (assets : Assets) (screen : Rect) (message : ℕ) (argument : ℤ) (w : Win)
        (ws : List Win) (p : Point) → let now = delivered assets screen message argument w ws in
        DamageCovers (looks_of assets screen ws) ws (looks_of assets screen now) now p }
    ensures values { (assets : Assets) (screen : Rect) (ws : List Win) (put : Put) (p : Point)
        → let now = after_put screen ws put in
        DamageCovers (looks_of assets screen ws) ws (looks_of assets screen now) now p }
{}

/// Does nothing. Messages in numbers.
pub fn messages_in_numbers()
    ensures high { reacted (pos 1) (pos 32767 ∷ []) add_argument ≡ pos 32767 ∷ [] }
    ensures low { reacted (negsuc 0) (negsuc 32767 ∷ []) add_argument ≡ negsuc 32767 ∷ [] }
    ensures set_first { values_after (pos 5) set_argument_add_two (pos 9 ∷ []) ≡ pos 7 ∷ [] }
    ensures set_last { values_after (pos 5) add_two_set_argument (pos 9 ∷ []) ≡ pos 5 ∷ [] }
    ensures first_up { first_up two_ups ≡ Some 4 }
    ensures step { delivered one_step row_screen 3 (pos 2) inner three_windows
        ≡ desktop
        ∷ changed_to (pos 0) (pos 3) (corners 0 0 3 0) outer
        ∷ changed_to (pos 2) (pos 0) (corners 0 0 2 0) inner ∷ [] }
    ensures unknown { delivered one_step row_screen 4 (pos 2) inner three_windows ≡ three_windows }
    ensures way { delivered whole_way row_screen 3 (pos 2) inner three_windows
        ≡ changed_to (pos 2) (pos 0) (corners 0 0 3 0) desktop
        ∷ changed_to (pos 32767) (pos 0) (corners 0 0 3 0) outer
        ∷ changed_to (pos 2) (pos 0) (corners 0 0 2 0) inner ∷ [] }
    ensures nothing_new { delivered whole_way row_screen 3 (pos 0) inner three_windows
        ≡ desktop ∷ changed_to (pos 32767) (pos 0) (corners 0 0 3 0) outer ∷ inner ∷ [] }
{}
