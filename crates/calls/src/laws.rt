//! Laws of the definitions, each as the contract of a function that does nothing.

ghost use Rattle.std.specs.Prelude.{◌≡◌, ◌↔◌, List, ℕ, Some};
ghost use Rattle.spelling.specs.Words.{words_of};
ghost use Rattle.calls.specs.declared.line.Line.{Line};
ghost use Rattle.calls.specs.Words.{line_of, text_of_line, LineFits};

/// Does nothing. A text says the call line whose spelling it is, where that line's numbers are in
/// their ranges, and no other.
pub fn lines_are_read()
    ensures { (text : List ℕ) (line : Line) → (line_of (words_of text) ≡ Some line)
        ↔ ((text ≡ text_of_line line) × LineFits line) }
{}
