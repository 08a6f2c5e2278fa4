//! Laws of the definitions, each as the contract of a function that does nothing.

ghost use Rattle.std.specs.Prelude.{◌≡◌, ◌↔◌, List, ℕ, Some, codes};
ghost use Rattle.spelling.specs.Words.{words_of};
ghost use Rattle.class_lines.specs.declared.line.ClassLine.{ClassLine};
ghost use Rattle.class_lines.specs.Words.{class_line_of, text_of_class_line, ClassLineFits};
ghost use Rattle.class_lines.specs.Examples.{blue_row, low_number, keeps_argument};

/// Does nothing. A text says the line of a class's body whose spelling it is, where that line's
/// numbers are in their ranges, and no other.
pub fn class_lines_are_read()
    ensures { (text : List ℕ) (line : ClassLine)
        → (class_line_of (words_of text) ≡ Some line)
        ↔ ((text ≡ text_of_class_line line) × ClassLineFits line) }
{}

/// Does nothing. A few lines and their texts, written out.
pub fn class_lines_in_numbers()
    ensures row { text_of_class_line blue_row ≡ codes "hline 0 w-1 v3+12 0000FF" }
    ensures number { text_of_class_line low_number ≡ codes "number 1 -2 h FF0000 v15" }
    ensures reaction { text_of_class_line keeps_argument ≡ codes "on 7 set 15 a" }
{}
