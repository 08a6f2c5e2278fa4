//! What holds of a display at any moment, for those who know its drawer alone: laws, each as the
//! contract of a function that does nothing.
ghost use Rattle.std.specs.Prelude.{◌≡◌, ◌≢◌, ◌⊎◌, ◌↔◌, ℕ, Option, Some, None};
ghost use Rattle.flip.specs.declared.views.Drawing.{Drawing};
ghost use Rattle.flip.specs.Drawers.{IsConsistent, IsFree};
ghost use Rattle.flip.specs.Display.{IsDisplay};

/// Does nothing. A buffer that the drawer may draw on is neither the one that the display shows nor
/// the one that waits, at any moment until the drawer's next step.
pub fn drawn_is_never_displayed()
    ensures { (d : Drawing) (shown : ℕ) (waiting : Option ℕ) (k : ℕ) →
        IsDisplay d shown waiting → IsFree d k → (k ≢ shown) × (waiting ≢ Some k) }
{}

/// Does nothing. What the display shows is what the drawer knows as shown, or what it knows to
/// wait; and it is the latter exactly where the drawer knows one to wait and none waits.
pub fn displayed_is_known()
    ensures known { (d : Drawing) (shown : ℕ) (waiting : Option ℕ) →
        IsDisplay d shown waiting → (shown ≡ d.shown) ⊎ (d.waiting ≡ Some shown) }
    ensures confirmed { (d : Drawing) (shown : ℕ) (waiting : Option ℕ) (k : ℕ) →
        IsConsistent d → IsDisplay d shown waiting → d.waiting ≡ Some k →
        (waiting ≡ None) ↔ (shown ≡ k) }
{}
