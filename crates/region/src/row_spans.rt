//! The part of a row that is left once ranges of columns were cut out of it.

ghost use Rattle.std.specs.Prelude.{◌≡◌, ℤ, pos, ◌+ℤ◌, ◌-ℤ◌, ◌<ℤ◌, ◌+◌, ◌<◌, ◌≤◌, ◌≤ℤ◌, Bool, ◌&&◌, not, length, slice_set};
ghost use Rattle.std.specs.Int.{int_max, int_min};
ghost use Rattle.arrayvec.specs.ArrayVec.{array_vec_len};
ghost use Rattle.gfx_base.specs.Range.{is_within};

use crate::span::Span;
use arrayvec::ArrayVec;
use std::marker::Model;

/// The greatest number of spans.
const MOST_SPANS: usize = 258;

type Spans = ArrayVec<Span, MOST_SPANS>;

/// Columns of a row, as spans that aren't empty, each to the right of those before it. There is
/// room for 258 of them, in the value itself.
#[derive(Drop)]
pub struct RowSpans {
    spans: Spans,
}

impl Model for RowSpans {
    ghost use Rattle.std.specs.Prelude.{List};
    ghost use Rattle.region.specs.declared.span.Span.{Span as Part};
    ghost use Rattle.region.specs.Spans.{AreRising};

    ghost Value = { List Part };

    ghost view = { λ r. r.spans.items };

    ghost invariant = { λ r. AreRising r.spans.items };
}

ghost use Rattle.region.specs.Spans.{in_spans, AreRising};
ghost use Rattle.region.specs.Cuts.{span_of, cut_spans};

/// Puts a span in the place of the one at `i`.
fn put(spans: &mut Spans, i: usize, span: Span)
    requires { i < array_vec_len spans.old }
    ensures { spans.new.items ≡ slice_set spans.old.items i span }
{
    spans[i] = span;
}

/// The part of a span left of x0, where it has one.
fn left_part(span: Span, x0: i32) -> Span
    requires { span.x0 <ℤ x0 }
    ensures { result ≡ span_of span.x0 (int_min span.x1 (x0 -ℤ pos 1)) }
{
    Span {
        x0: span.x0,
        x1: span.x1.min(x0 - 1),
    }
}

/// The part of a span right of x1, where it has one.
fn right_part(span: Span, x1: i32) -> Span
    requires { x1 <ℤ span.x1 }
    ensures { result ≡ span_of (int_max span.x0 (x1 +ℤ pos 1)) span.x1 }
{
    Span {
        x0: span.x0.max(x1 + 1),
        x1: span.x1,
    }
}

/// Cuts the range out of the spans: those left of its last column are shortened, split in two or
/// taken out, in place.
fn cut_in_place(spans: &mut Spans, x0: i32, x1: i32)
    requires range { x0 ≤ℤ x1 }
    requires rising { AreRising spans.old.items }
    requires room { array_vec_len spans.old < 258 }
    ensures value { spans.new.items ≡ cut_spans x0 x1 spans.old.items }
    ensures count { array_vec_len spans.new ≤ array_vec_len spans.old + 1 }
{
    let mut i = 0;
    while i < spans.len() {
        let span = spans[i];
        if x1 < span.x1 {
            put(spans, i, right_part(span, x1));
            if span.x0 < x0 {
                spans.insert(i, left_part(span, x0));
            }
            return;
        }
        if span.x0 < x0 {
            put(spans, i, left_part(span, x0));
            i += 1;
        } else {
            spans.remove(i);
        }
    }
}

impl RowSpans {
    /// All columns from x0 to x1, both ends included; none where x1 < x0.
    pub fn whole(x0: i32, x1: i32) -> RowSpans
        ensures columns { (x : ℤ) → in_spans result x ≡ is_within x0 x1 x }
        ensures count { length result ≤ 1 }
        ensures rising { AreRising result }
    {
        let mut spans = Spans::new();
        if x0 <= x1 {
            spans.push(Span { x0, x1 });
        }
        RowSpans { spans }
    }

    /// Takes the columns from x0 to x1, both ends included, away. There are fewer than 258 spans,
    /// and at most one more afterwards.
    pub fn cut(&mut self, x0: i32, x1: i32)
        requires { length self.old < 258 }
        ensures columns { (x : ℤ)
            → in_spans self.new x ≡ (in_spans self.old x && not (is_within x0 x1 x)) }
        ensures count { length self.new ≤ length self.old + 1 }
        ensures rising { AreRising self.new }
    {
        if x0 <= x1 {
            cut_in_place(&mut self.spans, x0, x1);
        }
    }

    /// The spans, from left to right.
    pub fn spans(&self) -> &[Span]
        ensures value { result.now ≡ self.now }
        ensures rising { AreRising self.now }
        ensures count { length self.now ≤ 258 }
    {
        self.spans.as_slice()
    }
}
