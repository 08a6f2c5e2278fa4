//! Laws of the definitions, each as the contract of a function that does nothing.

ghost use Rattle.std.specs.Prelude.{◌≡◌, ◌≢◌, ◌↔◌, ℤ, pos, ◌+ℤ◌, ◌*ℤ◌, ◌≤ℤ◌, ◌<ℤ◌, true, Contains, AllPairs};
ghost use Rattle.std.specs.Int.{int_div_euclid};
ghost use Rattle.gfx_base.specs.declared.point.Point.{Point};
ghost use Rattle.gfx_base.specs.declared.rect.Rect.{Rect};
ghost use Rattle.gfx_base.specs.Rects.{has};
ghost use Rattle.line_ink.specs.Lines.{is_on_line, points_of_line, clipped};

/// Does nothing. A point is among the points of a line exactly where it lies on the line, and each
/// stands there once.
pub fn points_are_on_the_line()
    ensures member { (a b p : Point) → Contains (points_of_line a b) p ↔ (is_on_line a b p ≡ true) }
    ensures once { (a b : Point) → AllPairs ◌≢◌ (points_of_line a b) }
{}

/// Does nothing. The quotient by which a line's y is defined is the one rounded down, also where it
/// is negative.
pub fn quotients_are_rounded_down()
    ensures { (n d : ℤ) → pos 0 <ℤ d → ((int_div_euclid n d *ℤ d) ≤ℤ n)
        × (n <ℤ (int_div_euclid n d *ℤ d +ℤ d)) }
{}

/// Does nothing. A line has the same points in the same order from either end.
pub fn same_in_both_directions()
    ensures points { (a b : Point) → points_of_line a b ≡ points_of_line b a }
    ensures on_line { (a b p : Point) → is_on_line a b p ≡ is_on_line b a p }
{}

/// Does nothing. A point is among the clipped points of a line exactly where it lies on the line
/// and in the clip, and each stands there once.
pub fn clipped_points()
    ensures member { (clip : Rect) (a b p : Point) → Contains (clipped clip (points_of_line a b)) p
        ↔ ((is_on_line a b p ≡ true) × (has clip p ≡ true)) }
    ensures once { (clip : Rect) (a b : Point) → AllPairs ◌≢◌ (clipped clip (points_of_line a b)) }
{}
