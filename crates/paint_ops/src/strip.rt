ghost use Rattle.std.specs.Prelude.{◌≡◌, ℕ, ◌^◌, ◌<◌, ◌≤◌, ◌&&◌, pos, ◌≤ℤ◌, IfSome};
ghost use Rattle.frame.specs.Canvases.{Canvas};
ghost use Rattle.frame.specs.Pictures.{HasShape};
ghost use Rattle.gfx_base.specs.Range.{is_within};
ghost use Rattle.region.specs.Spans.{in_span};

use region::Span;

/// Some neighbouring columns of one row of a frame, in points. Both ends belong to them.
#[derive(Clone, Copy)]
pub struct Strip {
    pub y: u16,
    pub left: u16,
    pub right: u16,
}

impl Strip {
    ghost use Rattle.paint_ops.specs.Strips.{FitsIn, in_strip, in_some_strip};

    /// The columns of a span in a row of this width, or `None` where it has none.
    pub fn of(span: Span, y: u16, width: u16) -> Option<Strip>
        requires width { 1 ≤ width }
        ensures fits { (f : Canvas) → HasShape f.picture → f.writes < 2 ^ 64
            → width ≡ f.picture.width → y < f.picture.height → IfSome result (FitsIn f) }
        ensures row { IfSome result (λ s. s.y ≡ y) }
        ensures columns { (u : ℕ) → u < width → in_some_strip result u ≡ in_span span (pos u) }
    {
        let row = Strip {
            y,
            left: 0,
            right: width - 1,
        };
        row.cut(span.x0, span.x1)
    }

    /// The columns from x0 to x1, both ends included, or `None` where there is none.
    pub fn cut(self, x0: i32, x1: i32) -> Option<Strip>
        ensures fits { (f : Canvas) → FitsIn f self → IfSome result (FitsIn f) }
        ensures row { IfSome result (λ s. s.y ≡ self.y) }
        ensures within { IfSome result (λ s. (x0 ≤ℤ pos s.left) × (pos s.right ≤ℤ x1)) }
        ensures columns { (u : ℕ) → in_some_strip result u
            ≡ (in_strip self u && is_within x0 x1 (pos u)) }
    {
        let left = x0.max(i32::from(self.left));
        let right = x1.min(i32::from(self.right));
        if right < left {
            return None;
        }
        Some(Strip {
            y: self.y,
            left: left as u16,
            right: right as u16,
        })
    }
}
