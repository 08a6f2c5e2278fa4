//! Columns of a row, out of which others are cut.

use region::{RowSpans, Span};
use std::test::*;

/// Which columns of a row are left, from column 0 on.
type Left = [bool; 40];

/// The first column of a range and the last one.
type Ends = (i32, i32);

/// Two ranges, and what is left of the columns from 0 to 9 without them.
const CUTS: [(Ends, Ends, &[Ends]); 6] = [
    ((3, 5), (0, -1), &[(0, 2), (6, 9)]),
    ((3, 5), (2, 7), &[(0, 1), (8, 9)]),
    ((2, 3), (5, 6), &[(0, 1), (4, 4), (7, 9)]),
    ((-5, 0), (9, 99), &[(1, 8)]),
    ((10, 12), (-9, -1), &[(0, 9)]),
    ((4, 4), (-1, 10), &[]),
];

/// The columns from 0 to 9, without two ranges of them.
fn cut_twice(first: Ends, second: Ends) -> RowSpans {
    let mut row = RowSpans::whole(0, 9);
    row.cut(first.0, first.1);
    row.cut(second.0, second.1);
    row
}

/// Whether the spans have just these ends.
fn have_ends(spans: &[Span], ends: &[Ends]) -> bool {
    for (span, (x0, x1)) in spans.iter().zip(ends) {
        if span.x0 != *x0 || span.x1 != *x1 {
            return false;
        }
    }
    spans.len() == ends.len()
}

#[test]
fn ranges_are_cut_out(rt: HostRuntime) {
    for (first, second, ends) in CUTS {
        let left = cut_twice(first, second);
        assert!(rt; have_ends(left.spans(), ends), "{} {}", first.0, second.0);
    }
}

/// Whether a column lies in one of the spans.
fn has(spans: &[Span], x: i32) -> bool {
    for span in spans {
        if span.x0 <= x && x <= span.x1 {
            return true;
        }
    }
    false
}

/// How many runs of columns are left.
fn run_count(left: &Left) -> usize {
    let mut count = 0usize;
    let mut last = false;
    for is_left in left {
        if *is_left && !last {
            count = count.saturating_add(1);
        }
        last = *is_left;
    }
    count
}

/// Whether the spans are the longest runs of these columns.
fn are_runs(spans: &[Span], left: &Left) -> bool {
    for (x, is_left) in (0..).zip(left) {
        if has(spans, x) != *is_left {
            return false;
        }
    }
    spans.len() == run_count(left)
}

/// Cuts the same range out of both, if there is room. Whether they agree then.
fn agrees_after(row: &mut RowSpans, left: &mut Left, x0: i32, x1: i32) -> bool {
    if row.spans().len() >= 258 {
        return false;
    }
    row.cut(x0, x1);
    for (x, is_left) in (0..).zip(left.iter_mut()) {
        *is_left = *is_left && !(x0 <= x && x <= x1);
    }
    are_runs(row.spans(), left)
}

/// The first step after which the spans are others than the columns that are left, where each step
/// cuts a range out. The ranges lie in the row, at its ends and outside, and some are empty.
fn first_other(stride: u16) -> Option<u16> {
    let mut row = RowSpans::whole(0, 39);
    let mut left = [true; 40];
    for step in 0u16..40 {
        let x0 = i32::from(step.wrapping_mul(stride) % 47) - 3;
        let x1 = x0 + i32::from(step % 4) - 1;
        if !agrees_after(&mut row, &mut left, x0, x1) {
            return Some(step);
        }
    }
    None
}

#[test]
fn spans_are_the_columns_that_are_left(rt: HostRuntime) {
    for stride in 1..47 {
        assert_eq!(rt; first_other(stride), None, "{stride}");
    }
}
