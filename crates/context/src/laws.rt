//! Laws of contexts, each as the contract of a function that does nothing.

ghost use Rattle.std.specs.Prelude.{◌≡◌, ◌≢◌, ◌≤◌, ◌<◌, ◌+◌, ℕ, false, List, [], ◌∷◌, length};
ghost use Rattle.context.specs.declared.context.Context.{Context};
ghost use Rattle.context.specs.Contexts.{Owned, first_owned, first_contexts, owned_by, with_owned, with_context, after_save, after_restore, after_saves, with_saved, with_restored, with_written};

/// Does nothing. Where a task has something else, which is what a save, a restore and a write
/// through a loan make, every other task has what it had.
pub fn others_stay()
    ensures others { (all : List Owned) (task other : ℕ) (own : Owned) → 1 ≤ task → 1 ≤ other
        → other ≢ task → owned_by (with_owned all task own) other ≡ owned_by all other }
    ensures own { (all : List Owned) (task : ℕ) (own : Owned) → 1 ≤ task → task ≤ length all
        → owned_by (with_owned all task own) task ≡ own }
    ensures tasks { (all : List Owned) (task : ℕ) (own : Owned)
        → length (with_owned all task own) ≡ length all }
{}

/// Does nothing. Whatever is written to a context after its save, the restore gives back what was
/// saved and leaves the same ones saved: as for one task, so in the list of all.
pub fn save_then_restore()
    ensures one { (own : Owned) (context : Context)
        → after_restore (with_context (after_save own) context) ≡ own }
    ensures all { (all : List Owned) (task : ℕ) (context : Context) → 1 ≤ task → task ≤ length all
        → with_restored (with_written (with_saved all task) task context) task ≡ all }
{}

/// Does nothing. Contexts in numbers: how each task begins, that eight saves leave so many saved
/// that the ninth is refused, and none before, and two contexts that are given back in turn.
pub fn contexts_in_numbers()
    ensures tasks { length first_contexts ≡ 16 }
    ensures first { (task : ℕ) → 1 ≤ task → task ≤ 16 → owned_by first_contexts task ≡ record {
      context = record {
        colour = 16777215;
        bk = 0;
        font = 0;
        trans_text = false;
        window = 1;
        device = 0;
      };
      saved = [];
    } }
    ensures eight { (saves : ℕ) → saves < 8 → length (after_saves saves first_owned).saved ≢ 8 }
    ensures ninth { length (after_saves 8 first_owned).saved ≡ 8 }
    ensures in_turn { (older newer now : Context)
        → after_restore (record { context = now; saved = newer ∷ older ∷ [] })
        ≡ record { context = newer; saved = older ∷ [] } }
{}
