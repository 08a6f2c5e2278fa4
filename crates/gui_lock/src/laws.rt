//! Laws of passes, each as the contract of a function that does nothing.

ghost use Rattle.std.specs.Prelude.{◌≡◌, ℕ, ◌+◌, ◌<◌, List, Bool};
ghost use Rattle.gui_lock.specs.declared.entry.Entry.{Entry};
ghost use Rattle.gui_lock.specs.Blocks.{StaysAlone};
ghost use Rattle.gui_lock.specs.Entries.{Outcome};
ghost use Rattle.gui_lock.specs.Passes.{Held, Sees, Acts, Waits};

use crate::kept::Kept;

/// Does nothing. While a pass holds the lock, each step of it adds its own calls and marks alone to
/// what it saw, and so does one such step after another: from a `lock` to its outermost `unlock` a
/// pass's calls stand next to one another, but for marks.
pub fn calls_under_one_lock_stand_together<V: Kept>()
    ensures lock { (passes : ℕ) (old new : Held V.Call V.Kind) →
        0 < old.depth → Sees passes old new → StaysAlone old new }
    ensures apply { (passes : ℕ) (gives : List (Entry V.Call) → Outcome V.Reply V.Room)
        (wanting may_want : Bool) (call : V.Call) (old new : Held V.Call V.Kind)
        (reply : V.Reply) (old_room room : V.Room) →
        0 < old.depth → Acts passes gives wanting may_want call old new reply old_room room →
        StaysAlone old new }
    ensures wait { (passes : ℕ) (old new : Held V.Call V.Kind) →
        0 < old.depth → Waits passes old new → StaysAlone old new }
    ensures unlock { (old new : Held V.Call V.Kind) →
        old ≡ record new { depth = new.depth + 1 } → StaysAlone old new }
    ensures together { (first next last : Held V.Call V.Kind) →
        StaysAlone first next → StaysAlone next last → StaysAlone first last }
{}
