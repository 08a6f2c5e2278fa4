//! Laws of what windows see and of the damage, each as the contract of a function that does
//! nothing.

ghost use Rattle.std.specs.Prelude.{◌≡◌, ◌||◌, true, false, not, filter, List, [], ◌∷◌, ◌++◌, length, Some, None};
ghost use Rattle.std.specs.List.{list_any, AllZip};
ghost use Rattle.gfx_base.specs.declared.point.Point.{Point};
ghost use Rattle.gfx_base.specs.declared.rect.Rect.{Rect};
ghost use Rattle.gfx_base.specs.Rects.{has};
ghost use Rattle.paint_ops.specs.Kinds.{Assets};
ghost use Rattle.scene.specs.declared.win.Win.{Win};
ghost use Rattle.scene.specs.Places.{place_of, window_of, place_at, AreSingle};
ghost use Rattle.scene.specs.Clips.{clip_in};
ghost use Rattle.scene.specs.Painting.{Looks, windows_at, visible, painted_over, painted};
ghost use Rattle.scene.specs.Damage.{is_invalid_at, windows_seeing, is_damaged, in_patch_at, with_invalid};
ghost use Rattle.scene.specs.Looks.{looks_of};
ghost use Rattle.scene.specs.Changes.{DamageCovers, AreasCover, areas_have, clips_have, FindAlike, is_below, in_family};
ghost use Rattle.scene.specs.Changes.{Adds, TakesAway, Changes, Reorders, ChangesAlone};

/// Does nothing. The windows that see a point are the visible ones of those there, the point is
/// damaged where one of them is invalid, and the painter's colour depends on them alone.
pub fn visible_windows_see()
    ensures seeing { (looks : Looks) (ws : List Win) (p : Point)
        → windows_seeing looks ws p ≡ visible looks (windows_at looks ws p) }
    ensures damaged { (looks : Looks) (ws : List Win) (p : Point)
        → is_damaged looks ws p
        ≡ list_any (is_invalid_at p) (visible looks (windows_at looks ws p)) }
    ensures colour { (assets : Assets) (screen : Rect) (ws : List Win) (p : Point)
        → painted (looks_of assets screen ws) ws p
        ≡ painted_over (looks_of assets screen ws) p 0
        (visible (looks_of assets screen ws) (windows_at (looks_of assets screen ws) ws p)) }
{}

/// Does nothing. After the job of a window, which is then valid, its patch alone is no longer
/// damaged, as far as it lies in no other patch; the painter's picture is what it was.
pub fn a_job_ends_its_patch()
    ensures damage { (assets : Assets) (screen : Rect) (before : List Win) (w : Win)
        (after : List Win) (p : Point)
        → let ws = before ++ w ∷ after in
        let valid = before ++ with_invalid w None ∷ after in
        is_damaged (looks_of assets screen ws) ws p
        ≡ (in_patch_at (looks_of assets screen ws) ws (length before) p
        || is_damaged (looks_of assets screen valid) valid p) }
    ensures colour { (assets : Assets) (screen : Rect) (before : List Win) (w : Win)
        (after : List Win) (p : Point)
        → let ws = before ++ w ∷ after in
        let valid = before ++ with_invalid w None ∷ after in
        painted (looks_of assets screen valid) valid p
        ≡ painted (looks_of assets screen ws) ws p }
{}

/// Does nothing. Where a window isn't at a point, none that lies below it is.
pub fn windows_lie_inside()
    ensures { (screen : Rect) (ws : List Win) (w v : Win) (p : Point)
        → place_at ws w.handle ≡ Some (place_of w)
        → is_below ws w.handle (place_of v) ≡ true
        → has (clip_in screen ws w) p ≡ false → has (clip_in screen ws v) p ≡ false }
{}

/// Does nothing. The damage covers a call that changes nothing, and it covers two changes one after
/// the other where it covers each.
pub fn damage_covers_in_turn()
    ensures same { (looks : Looks) (ws : List Win) (p : Point) → DamageCovers looks ws looks ws p }
    ensures chained { (first second third : Looks) (us vs ws : List Win) (p : Point)
        → DamageCovers first us second vs p → DamageCovers second vs third ws p
        → DamageCovers first us third ws p }
{}

/// Does nothing. The damage covers any change of the list with areas that are made invalid after
/// it: where an area has the point, a window must be there, and where none has it, each handle must
/// find what it found or what isn't there, and the windows there must stand as they stood.
pub fn damage_covers_a_change_elsewhere()
    ensures { (assets : Assets) (screen : Rect) (old new : List Win) (areas : List Rect) (p : Point)
        → (areas_have areas p ≡ true → clips_have (looks_of assets screen new) new p ≡ true)
        → (areas_have areas p ≡ false → FindAlike screen old new p)
        → (areas_have areas p ≡ false
        → windows_at (looks_of assets screen old) new p
        ≡ windows_at (looks_of assets screen old) old p)
        → AreasCover assets screen old new areas p }
{}

/// Does nothing. These are lists with a window more in any place, with one changed in its place,
/// without one and all that lie below it, and with these on top of all others.
pub fn lists_change_so()
    ensures added { (before after : List Win) (w : Win)
        → place_at (before ++ after) w.handle ≡ None
        → Adds (before ++ after) (before ++ w ∷ after) w }
    ensures changed { (before : List Win) (w v : Win) (after : List Win)
        → v.handle ≡ w.handle → place_at before w.handle ≡ None
        → Changes (before ++ w ∷ after) (before ++ v ∷ after) w v }
    ensures taken_away { (ws : List Win) (w : Win)
        → AreSingle ws → window_of ws w.handle ≡ Some w
        → TakesAway ws (filter (λ v. not (in_family ws w.handle v)) ws) w }
    ensures on_top { (ws : List Win) (w : Win)
        → AreSingle ws → window_of ws w.handle ≡ Some w
        → let others = filter (λ v. not (in_family ws w.handle v)) ws in
        Reorders ws (others ++ filter (in_family ws w.handle) ws) w }
{}

/// Does nothing. The damage covers a new window, anywhere in the list, whose clip is made invalid.
pub fn damage_covers_a_new_window()
    ensures { (assets : Assets) (screen : Rect) (old new : List Win) (w : Win) (p : Point)
        → Adds old new w → AreasCover assets screen old new (clip_in screen new w ∷ []) p }
{}

/// Does nothing. The damage covers that a window goes, with all that lie below it, where its clip
/// is made invalid and a window is left there.
pub fn damage_covers_a_removal()
    ensures { (assets : Assets) (screen : Rect) (old new : List Win) (w : Win) (p : Point)
        → TakesAway old new w
        → (has (clip_in screen old w) p ≡ true
        → clips_have (looks_of assets screen new) new p ≡ true)
        → AreasCover assets screen old new (clip_in screen old w ∷ []) p }
{}

/// Does nothing. The damage covers whatever of a window changes in its place in the list, with all
/// that lie below it, where the areas cover its old clip and its new one, and a window is left
/// there.
pub fn damage_covers_a_changed_window()
    ensures { (assets : Assets) (screen : Rect) (old new : List Win) (w v : Win) (areas : List Rect)
        (p : Point)
        → Changes old new w v
        → (areas_have areas p ≡ true → clips_have (looks_of assets screen new) new p ≡ true)
        → (areas_have areas p ≡ false
        → (has (clip_in screen old w) p ≡ false) × (has (clip_in screen new v) p ≡ false))
        → AreasCover assets screen old new areas p }
{}

/// Does nothing. The damage covers that a window, with all that lie below it, comes to another
/// place of the order, where its clip is made invalid.
pub fn damage_covers_a_new_order()
    ensures { (assets : Assets) (screen : Rect) (old new : List Win) (w : Win) (p : Point)
        → Reorders old new w → AreasCover assets screen old new (clip_in screen old w ∷ []) p }
{}

/// Does nothing. The damage covers areas that are made invalid in every window, and windows that
/// change alone.
pub fn damage_covers_areas()
    ensures areas { (assets : Assets) (screen : Rect) (ws : List Win) (areas : List Rect)
        (p : Point) → AreasCover assets screen ws ws areas p }
    ensures alone { (assets : Assets) (screen : Rect) (old new : List Win) (p : Point)
        → AllZip (ChangesAlone (looks_of assets screen old) p) old new
        → DamageCovers (looks_of assets screen old) old (looks_of assets screen new) new p }
{}
