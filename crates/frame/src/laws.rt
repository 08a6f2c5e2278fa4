//! Laws of pictures, each as the contract of a function that does nothing.

ghost use Rattle.std.specs.Prelude.{◌≡◌, ℕ, ◌*◌, ◌<◌, Bool, length, if◌then◌else◌};
ghost use Rattle.frame.specs.Areas.{is_at, in_span, in_tile, points_in, span_count, tile_count};
ghost use Rattle.frame.specs.Pictures.{Picture, IsShape, HasShape, colour_at, changed};

/// Does nothing. Two pictures of the same sides that have the same colour at each point inside are
/// equal.
pub fn pictures_equal_by_points()
    ensures { (p q : Picture) → HasShape p → HasShape q → p.width ≡ q.width → p.height ≡ q.height
        → ((x y : ℕ) → x < p.width → y < p.height → colour_at p x y ≡ colour_at q x y) → p ≡ q }
{}

/// Does nothing. A changed picture has its new colour at the points that the test names and its old
/// colour at all others, and keeps its shape. Of a picture's points the tests name as many as the
/// calls count.
pub fn changes_only_there()
    ensures colour { (p : Picture) (here : ℕ → ℕ → Bool) (colour : ℕ → ℕ → ℕ) (x y : ℕ) → HasShape p
        → x < p.width → y < p.height
        → colour_at (changed p here colour) x y
        ≡ (if here x y then colour x y else colour_at p x y) }
    ensures shape { (p : Picture) (here : ℕ → ℕ → Bool) (colour : ℕ → ℕ → ℕ) → HasShape p
        → HasShape (changed p here colour) }
    ensures point { (p : Picture) (x y : ℕ) → HasShape p → x < p.width → y < p.height
        → points_in p (is_at x y) ≡ 1 }
    ensures span { (p : Picture) (y x0 x1 : ℕ) → HasShape p → x1 < p.width → y < p.height
        → points_in p (in_span y x0 x1) ≡ span_count x0 x1 }
    ensures tile { (p : Picture) (col row : ℕ) → HasShape p → col * 16 < p.width
        → row * 16 < p.height → points_in p (in_tile col row) ≡ tile_count p col row }
{}
