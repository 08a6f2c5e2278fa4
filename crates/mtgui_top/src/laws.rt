//! Laws of the play text, each as the contract of a function that does nothing.

ghost use Rattle.std.specs.Prelude.{◌≡◌, ◌++◌, codes};
ghost use Rattle.script.specs.Scripts.{Script};
ghost use Rattle.mtgui_top.specs.Playing.{play_text};
ghost use Rattle.mtgui_top.specs.Promises.{ScansShowPainter};
ghost use Rattle.mtgui_top.specs.Examples.{first_script, refused_script};

/// Does nothing. Every script's play text has the shown picture at each scan, and where no window
/// is invalid that is the painter's at each point that no task drew since it was painted.
pub fn scans_show_painter()
    ensures { (script : Script) → ScansShowPainter script }
{}

/// Does nothing. Its clauses say what is written for two scripts.
pub fn scripts_in_numbers()
    ensures first { play_text first_script
        ≡ codes "ok 2\nok 2\nframe 8 4\n000000*8\n000000*2 0000FF*3 000000*3\n=\n000000*8\n"
        ++ codes "done calls 3 refused 0 shown 0 windows 2\n" }
    ensures refused { play_text refused_script
        ≡ codes "refused BadSize\nrefused NoClass 7\nok 1\n"
        ++ codes "done calls 3 refused 2 shown 0 windows 1\n" }
{}
