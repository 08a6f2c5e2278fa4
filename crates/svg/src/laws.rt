//! Laws of the definitions, each as the contract of a function that does nothing.

ghost use Rattle.std.specs.Prelude.{◌≡◌, ◌⊎◌, ℕ, ◌<◌, ◌≤◌, List, [], ◌∷◌, Option, None, Ok, IfSome};
ghost use Rattle.std.specs.List.{AllByRecursion, filter, flat_map};
ghost use Rattle.frame.specs.Pictures.{Picture, HasShape, colour_at};
ghost use Rattle.journal.specs.Texts.{frame_text};
ghost use Rattle.svg.specs.declared.fault.Reason.TheVariants.{Missing};
ghost use Rattle.svg.specs.declared.shapes.Rectangle.{Rectangle};
ghost use Rattle.svg.specs.Rectangles.{rectangles, has};
ghost use Rattle.svg.specs.Pictures.{HasColours};
ghost use Rattle.svg.specs.Reading.{or_reason, at_line, picture_in};
ghost use Rattle.svg.specs.Pieces.{Piece, IsPiece, text_of_piece, pictures_of, picked};

/// Does nothing. Each point of a picture lies in just one of the rectangles, which has the point's
/// colour, and no point outside lies in any.
pub fn each_point_lies_in_one_rectangle()
    ensures one { (p : Picture) (x y : ℕ) → HasShape p → x < p.width → y < p.height
        → (r : Rectangle) × (filter (has x y) (rectangles p) ≡ r ∷ [])
        × (r.colour ≡ colour_at p x y) }
    ensures none_outside { (p : Picture) (x y : ℕ) → HasShape p
        → (p.width ≤ x) ⊎ (p.height ≤ y) → filter (has x y) (rectangles p) ≡ [] }
{}

/// Does nothing. The frame text that the journal writes of a picture is read as this picture. Of a
/// text of frame texts and other lines the picture of the wanted number is read, or the last one;
/// where there is none, this is told.
pub fn frame_texts_are_read()
    ensures alone { (p : Picture) → HasShape p → HasColours p
        → picture_in None (frame_text p) ≡ Ok p }
    ensures amid { (wanted : Option ℕ) (pieces : List Piece) → IfSome wanted (λ n. 1 ≤ n)
        → AllByRecursion IsPiece pieces
        → (line : ℕ) × (picture_in wanted (flat_map text_of_piece pieces)
        ≡ at_line line (or_reason Missing (picked wanted (pictures_of pieces)))) }
{}
