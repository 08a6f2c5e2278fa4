//! Laws of the definitions, each as the contract of a function that does nothing: a body is a
//! bitmap's or has a fault, a bitmap's lines are those that are taken one by one, and what the
//! texts of a small bitmap are.

ghost use Rattle.std.specs.Prelude.{◌≡◌, ◌⊎◌, ℕ, List, Some, None, Ok};
ghost use Rattle.spelling.specs.LineReading.{run};
ghost use Rattle.bitmap.specs.declared.place.Place.TheVariants.{AfterEnd};
ghost use Rattle.bitmap.specs.declared.fault.BitmapFault.{BitmapFault};
ghost use Rattle.bitmap.specs.Bitmaps.{Bitmap, colour_at};
ghost use Rattle.bitmap.specs.Texts.{AreLinesOf, IsBody};
ghost use Rattle.bitmap.specs.Faults.{IsFault};
ghost use Rattle.bitmap.specs.Reading.{Draft, start, line_step, bitmap_of};
ghost use Rattle.bitmap.specs.Examples.{dotted, dotted_text, other_text, narrow_text, narrow_fault, open_text, open_fault};

/// Does nothing. At any sides a body is a bitmap's or has a fault, and not both.
pub fn either()
    ensures some { (width height : ℕ) (body : List ℕ) → ((b : Bitmap) × IsBody width height body b)
        ⊎ ((fault : BitmapFault) × IsFault width height body fault) }
    ensures not_both { (width height : ℕ) (body : List ℕ) (b : Bitmap) (fault : BitmapFault)
        → IsBody width height body b → IsFault width height body fault → ⊥ }
{}

/// Does nothing. A body is one bitmap's, and has one fault.
pub fn one()
    ensures bitmap { (width height : ℕ) (body : List ℕ) (a b : Bitmap) → IsBody width height body a
        → IsBody width height body b → a ≡ b }
    ensures fault { (width height : ℕ) (body : List ℕ) (a b : BitmapFault)
        → IsFault width height body a → IsFault width height body b → a ≡ b }
{}

/// Does nothing. A bitmap's lines are taken one after the other and leave this bitmap, and lines
/// that leave a bitmap are its lines.
pub fn line_by_line()
    ensures taken { (width height : ℕ) (lines : List (List ℕ)) (b : Bitmap)
        → AreLinesOf width height lines b
        → (d : Draft) × (run line_step (start width height) lines ≡ Ok d) × (d.place ≡ AfterEnd)
        × (bitmap_of d ≡ b) }
    ensures left { (width height : ℕ) (lines : List (List ℕ)) (d : Draft)
        → run line_step (start width height) lines ≡ Ok d → d.place ≡ AfterEnd
        → AreLinesOf width height lines (bitmap_of d) }
{}

/// Does nothing. Its clauses say what a bitmap of three points is, what two of its texts are, and
/// two faults.
pub fn bitmap_in_numbers()
    ensures text { IsBody 3 1 dotted_text dotted }
    ensures other_text { IsBody 3 1 other_text dotted }
    ensures colour { colour_at dotted 0 0 ≡ Some 0xFF0000 }
    ensures transparent { colour_at dotted 2 0 ≡ None }
    ensures narrow { IsFault 3 1 narrow_text narrow_fault }
    ensures unended { IsFault 3 1 open_text open_fault }
{}
