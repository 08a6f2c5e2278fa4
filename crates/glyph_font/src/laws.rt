//! Laws of the definitions, each as the contract of a function that does nothing: a body is a
//! font's or has a fault, and what a small font's text is.

ghost use Rattle.std.specs.Prelude.{◌≡◌, ◌⊎◌, ℕ, ◌≤◌, true, false, List, codes};
ghost use Rattle.glyph_font.specs.declared.fault.FontFault.{FontFault};
ghost use Rattle.glyph_font.specs.Fonts.{Font, width_of_code, is_set, width_of_text};
ghost use Rattle.glyph_font.specs.Texts.{font_lines, IsBody};
ghost use Rattle.glyph_font.specs.Faults.{IsFault};
ghost use Rattle.glyph_font.specs.Examples.{single, single_lines};

/// Does nothing. At each height a body is a font's or has a fault, and not both.
pub fn either()
    ensures some { (height : ℕ) (body : List ℕ) → 1 ≤ height → height ≤ 32
        → ((font : Font) × IsBody height body font)
        ⊎ ((fault : FontFault) × IsFault height body fault) }
    ensures not_both { (height : ℕ) (body : List ℕ) (font : Font) (fault : FontFault)
        → IsBody height body font → IsFault height body fault → ⊥ }
{}

/// Does nothing. A body is one font's, and has one fault.
pub fn one()
    ensures font { (height : ℕ) (body : List ℕ) (a b : Font) → IsBody height body a
        → IsBody height body b → a ≡ b }
    ensures fault { (height : ℕ) (body : List ℕ) (a b : FontFault) → 1 ≤ height → height ≤ 32
        → IsFault height body a → IsFault height body b → a ≡ b }
{}

/// Does nothing. Its clauses say what a font of one glyph is, and what its text is.
pub fn font_in_numbers()
    ensures lines { font_lines single ≡ single_lines }
    ensures width { width_of_code single 65 ≡ 2 }
    ensures no_width { width_of_code single 66 ≡ 0 }
    ensures set { is_set single 65 0 0 ≡ true }
    ensures clear { is_set single 65 1 0 ≡ false }
    ensures text { width_of_text single (codes "AAB") ≡ 4 }
{}
