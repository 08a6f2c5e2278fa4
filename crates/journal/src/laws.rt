//! Laws of the texts, each as the contract of a function that does nothing.

ghost use Rattle.std.specs.Prelude.{◌≡◌, ℕ, ◌*◌, ◌≤◌, List, pos, true, false, length, codes};
ghost use Rattle.spelling.specs.Digits.{hex_colour};
ghost use Rattle.journal.specs.Texts.{points_line, frame_text, reply_text, tick_text, summary_text, fault_text};
ghost use Rattle.journal.specs.Examples.{single, striped, mixed_row};

use calls::{Call, Refusal, Reply};

/// Does nothing. Its clauses say what the texts are at some values.
pub fn texts_in_numbers()
    ensures colour { hex_colour 0x12AB0F ≡ codes "12AB0F" }
    ensures row { points_line mixed_row ≡ codes "000001*12 FFFFFF 000001 000000*2\n" }
    ensures picture { frame_text striped
        ≡ codes "frame 8 4\n000000*8\n000000*2 0000FF*3 000000*3\n=\n000000*8\n" }
    ensures handle { reply_text (Call.Create 1 (pos 1) (pos 2) 3 4 5) (Reply.Handle 70000) single
        ≡ codes "ok 70000\n" }
    ensures jobs { reply_text Call.Exec (Reply.Jobs 3) single ≡ codes "ok 3\n" }
    ensures done { reply_text Call.Exec Reply.Done single ≡ codes "ok\n" }
    ensures scan { reply_text Call.Scan Reply.Done single ≡ codes "frame 1 1\n00FF00\n" }
    ensures size { reply_text Call.Exec (Reply.Refused Refusal.BadSize) single
        ≡ codes "refused BadSize\n" }
    ensures class { reply_text Call.Exec (Reply.Refused (Refusal.NoClass 9)) single
        ≡ codes "refused NoClass 9\n" }
    ensures window { reply_text Call.Exec (Reply.Refused (Refusal.NoWindow 70000)) single
        ≡ codes "refused NoWindow 70000\n" }
    ensures many { reply_text Call.Exec (Reply.Refused Refusal.TooManyWindows) single
        ≡ codes "refused TooManyWindows\n" }
    ensures waiting { reply_text Call.Begin (Reply.Refused (Refusal.Waiting 3)) single
        ≡ codes "refused Waiting 3\n" }
    ensures shown { tick_text true ≡ codes "shown\n" }
    ensures nothing { tick_text false ≡ codes "nothing\n" }
    ensures summary { summary_text 50 1 22 3
        ≡ codes "done calls 50 refused 1 shown 22 windows 3\n" }
    ensures fault { fault_text 7 (codes "syntax") ≡ codes "fault 7 syntax\n" }
{}

/// Does nothing. A row's line, with its end, has at most 7 bytes for each point.
#[tactic(auto, using(crate::proofs::RunLemmas::row_fits))]
pub fn rows_fit()
    ensures { (row : List ℕ) → 1 ≤ length row → length row ≤ 1024
        → length (points_line row) ≤ 7 * length row }
{}
