//! Laws of scripts and faults, each as the contract of a function that does nothing.

ghost use Rattle.std.specs.Prelude.{◌≡◌, ◌↔◌, ℕ, List, take};
ghost use Rattle.script.specs.declared.fault.ScriptFault.{ScriptFault};
ghost use Rattle.script.specs.Scripts.{Script, IsScript, IsNoScript, AreItemsOf, listing_of};
ghost use Rattle.script.specs.Faults.{IsFault};
ghost use Rattle.script.specs.Examples.{small_listing, small_items, small_lines};
ghost use Rattle.script.specs.Examples.{tick_listing, tick_items, tick_lines};

/// Does nothing. A file is at most one script.
pub fn one_script()
    ensures { (file : List ℕ) (s t : Script) → IsScript file s → IsScript file t → s ≡ t }
{}

/// Does nothing. A file has a fault just where it is no script, and has no second one.
pub fn faults_are_first()
    ensures either { (file : List ℕ) → ((fault : ScriptFault) × IsFault file fault)
        ↔ IsNoScript file }
    ensures one { (file : List ℕ) (a b : ScriptFault) → IsFault file a → IsFault file b → a ≡ b }
{}

/// Does nothing. The first bytes of a file, one more than a script may have, say what the file
/// says.
pub fn prefix_says_all()
    ensures script { (file : List ℕ) (s : Script) → IsScript (take 100663297 file) s
        ↔ IsScript file s }
    ensures fault { (file : List ℕ) (fault : ScriptFault) → IsFault (take 100663297 file) fault
        ↔ IsFault file fault }
{}

/// Does nothing. The items of a small script, written out with comments, and what they say; and
/// those of one with two buffers and a tick.
pub fn spelling_in_numbers()
    ensures items { AreItemsOf small_items small_lines }
    ensures listing { listing_of small_items ≡ small_listing }
    ensures ticks { AreItemsOf tick_items tick_lines }
    ensures ticks_listing { listing_of tick_items ≡ tick_listing }
{}
