//! Operations on all rows of small frames.

ghost use Rattle.std.specs.Prelude.{◌≡◌, ◌≤◌, true};
ghost use Rattle.std.specs.List.{AllByRecursion};
ghost use Rattle.paint_ops.specs.Soundness.{IsSound, IsNum, IsOperation};
ghost use Rattle.paint_ops.specs.Rows.{IsOrigin, LiesInRow};

use crate::assets::{assets_of, red};
use crate::coverage::{Window, covers};
use frame::Frame;
use gfx_base::{Colour, Point};
use paint_ops::{Assets, Base, Num, Op, draw};
use region::Span;
use std::alloc::Global;

/// The first value of the tested windows is 3 and the last −2, with the greatest and the least one
/// after the first.
const VALUES: [i16; 16] = [
    3,
    i16::MAX,
    i16::MIN,
    0,
    0,
    0,
    0,
    0,
    0,
    0,
    0,
    0,
    0,
    0,
    0,
    -2,
];

/// Values that are each its own number.
const COUNTING: [i16; 16] = [0, 1, 2, 3, 4, 5, 6, 7, 8, 9, 10, 11, 12, 13, 14, 15];

/// A window of 6 by 5 points.
fn window_at(x: i32, y: i32, values: [i16; 16]) -> Window {
    Window {
        values,
        width: 6,
        height: 5,
        origin: Point { x, y },
    }
}

// ---- which operations and spans may be drawn

fn is_num(num: Num) -> bool
    ensures { result ≡ true → IsNum num }
{
    match num.base {
        Base::Value(i) => i < 16,
        _ => true,
    }
}

fn are_nums(a: Num, b: Num, c: Num, d: Num) -> bool
    ensures { result ≡ true → IsNum a × IsNum b × IsNum c × IsNum d }
{
    is_num(a) && is_num(b) && is_num(c) && is_num(d)
}

fn is_operation(op: &Op, assets: &Assets) -> bool
    ensures { result ≡ true → IsOperation assets.now op.now }
{
    match *op {
        Op::Fill(x0, y0, x1, y1, _) => are_nums(x0, y0, x1, y1),
        Op::Frame(x0, y0, x1, y1, _) => are_nums(x0, y0, x1, y1),
        Op::Line(x0, y0, x1, y1, _) => are_nums(x0, y0, x1, y1),
        Op::HLine(x0, x1, y, _) => are_nums(x0, x1, y, y),
        Op::VLine(x, y0, y1, _) => are_nums(x, y0, y1, y1),
        Op::Bitmap(bitmap, x, y) => {
            usize::from(bitmap) < assets.bitmaps.len() && are_nums(x, y, x, y)
        }
        Op::Text(font, x, y, _, string) => {
            usize::from(font) < assets.fonts.len()
                && usize::from(string) < assets.strings.len()
                && are_nums(x, y, x, y)
        }
        Op::Number(font, x, y, _, num) => {
            usize::from(font) < assets.fonts.len() && are_nums(x, y, num, num)
        }
    }
}

fn lies_in_row(span: Span, width: u16) -> bool
    ensures { result ≡ true → LiesInRow width span }
{
    span.x1 < span.x0 || (0 <= span.x0 && span.x1 < i32::from(width))
}

fn lie_in_row(spans: &[Span], width: u16) -> bool
    ensures { result ≡ true → AllByRecursion (LiesInRow width) spans.now }
{
    for span in spans {
        if !lies_in_row(*span, width) {
            return false;
        }
    }
    true
}

fn is_origin(z: i32) -> bool
    ensures { result ≡ true → IsOrigin z }
{
    -65_535 <= z && z <= 65_535
}

fn is_window(window: &Window) -> bool
    ensures { result ≡ true → (window.now.width ≤ 4096) × (window.now.height ≤ 4096)
        × IsOrigin window.now.origin.x × IsOrigin window.now.origin.y }
{
    window.width <= 4096
        && window.height <= 4096
        && is_origin(window.origin.x)
        && is_origin(window.origin.y)
}

// ---- drawing

/// Draws an operation on a row of a frame, or tells that it may not be drawn.
fn draw_row(op: &Op, w: &Window, y: u16, spans: &[Span], assets: &Assets, frame: &mut Frame) -> bool
    requires { IsSound assets.now }
{
    if !is_operation(op, assets) || !is_window(w) {
        return false;
    }
    if !lie_in_row(spans, frame.width()) || y >= frame.height() {
        return false;
    }
    draw(
        op, &w.values, w.width, w.height, w.origin, y, spans, assets, frame,
    );
    true
}

/// The same on all rows.
fn draw_rows(op: &Op, w: &Window, spans: &[Span], assets: &Assets, frame: &mut Frame) -> bool
    requires { IsSound assets.now }
{
    for y in 0..frame.height() {
        if !draw_row(op, w, y, spans, assets, frame) {
            return false;
        }
    }
    true
}

/// How many of the spans have the column.
fn spans_at(spans: &[Span], x: u16) -> usize {
    let x = i32::from(x);
    let at = spans.iter().filter(|span| span.x0 <= x && x <= span.x1);
    at.count()
}

/// Whether the frame is red just where the spans have points that the operation covers, each
/// written once for each span that has it, and else black.
fn shows(op: &Op, w: &Window, spans: &[Span], assets: &Assets, frame: &Frame) -> bool {
    let mut writes = 0u64;
    for y in 0..frame.height() {
        for x in 0..frame.width() {
            let p = (
                i64::from(x) - i64::from(w.origin.x),
                i64::from(y) - i64::from(w.origin.y),
            );
            let times = if covers(op, w, assets, p) {
                spans_at(spans, x)
            } else {
                0
            };
            let want = if 0 < times { red() } else { Colour::default() };
            if frame.get(x, y) != want {
                return false;
            }
            writes = writes.wrapping_add(times as u64);
        }
    }
    frame.writes() == writes
}

/// Whether an operation draws what it should on a frame of 12 by 10 points, and draws the same with
/// a copy of the assets.
fn draws(alloc: Global, op: &Op, w: &Window, spans: &[Span]) -> bool {
    let Some(assets) = assets_of(alloc) else {
        return false;
    };
    let Ok(copy) = assets.copy(alloc) else {
        return false;
    };
    let Ok(mut frame) = Frame::new(alloc, 12, 10) else {
        return false;
    };
    draw_rows(op, w, spans, &copy, &mut frame) && shows(op, w, spans, &assets, &frame)
}

const ALL: Span = Span { x0: 0, x1: 11 };

/// A coordinate: its base and what is added.
type Sum = (Base, i16);

/// Operations in red but for their coordinates.
#[derive(Clone, Copy)]
enum Kind {
    Fill,
    Frame,
    HLine,
    VLine,
    Line,
    Bitmap,
    Text(u8),
    Number,
}

fn num((base, plus): Sum) -> Num {
    Num { base, plus }
}

/// The operation with these coordinates: x0, y0, x1 and y1; x0, x1 and y of a row; x, y0 and y1 of
/// a column; x and y of a bitmap or a text; x, y and the number of a number.
fn op_of(kind: Kind, [a, b, c, d]: [Sum; 4]) -> Op {
    let (a, b, c, d) = (num(a), num(b), num(c), num(d));
    match kind {
        Kind::Fill => Op::Fill(a, b, c, d, red()),
        Kind::Frame => Op::Frame(a, b, c, d, red()),
        Kind::HLine => Op::HLine(a, b, c, red()),
        Kind::VLine => Op::VLine(a, b, c, red()),
        Kind::Line => Op::Line(a, b, c, d, red()),
        Kind::Bitmap => Op::Bitmap(0, a, b),
        Kind::Text(string) => Op::Text(0, a, b, red(), string),
        Kind::Number => Op::Number(0, a, b, red(), c),
    }
}

const Z: Base = Base::Zero;

const W: Base = Base::Width;

const H: Base = Base::Height;

/// The value 3, and the value −2.
const FIRST: Base = Base::Value(0);

const LAST: Base = Base::Value(15);

const NO: Sum = (Base::Zero, 0);

const SHAPES: [(&str, Kind, [Sum; 4]); 28] = [
    ("fill", Kind::Fill, [(Z, 1), (Z, 1), (W, -2), (H, -1)]),
    (
        "fill of values",
        Kind::Fill,
        [(LAST, 0), (Z, 0), (FIRST, 0), (FIRST, -1)],
    ),
    (
        "fill of a point",
        Kind::Fill,
        [(Z, 2), (Z, 2), (Z, 2), (Z, 2)],
    ),
    (
        "fill without columns",
        Kind::Fill,
        [(Z, 3), (Z, 0), (Z, 2), (Z, 4)],
    ),
    (
        "fill without rows",
        Kind::Fill,
        [(Z, 0), (Z, 3), (Z, 4), (Z, 2)],
    ),
    ("frame", Kind::Frame, [(Z, 0), (Z, 0), (W, -1), (H, -1)]),
    (
        "frame of two columns",
        Kind::Frame,
        [(Z, 1), (Z, 1), (Z, 2), (Z, 4)],
    ),
    (
        "frame of one row",
        Kind::Frame,
        [(Z, 1), (Z, 1), (Z, 4), (Z, 1)],
    ),
    (
        "frame without columns",
        Kind::Frame,
        [(Z, 4), (Z, 0), (Z, 1), (Z, 4)],
    ),
    (
        "frame without rows",
        Kind::Frame,
        [(Z, 0), (Z, 4), (Z, 3), (Z, 1)],
    ),
    (
        "frame across the edge",
        Kind::Frame,
        [(LAST, -2), (LAST, 0), (FIRST, 0), (FIRST, 0)],
    ),
    ("row", Kind::HLine, [(Z, 0), (W, -1), (FIRST, 0), NO]),
    (
        "row without points",
        Kind::HLine,
        [(Z, 4), (Z, 1), (Z, 2), NO],
    ),
    ("column", Kind::VLine, [(FIRST, 0), (Z, 0), (H, -1), NO]),
    (
        "column without points",
        Kind::VLine,
        [(Z, 2), (Z, 4), (Z, 1), NO],
    ),
    ("line", Kind::Line, [(Z, 0), (Z, 0), (W, 0), (FIRST, 0)]),
    (
        "line turned round",
        Kind::Line,
        [(W, 0), (FIRST, 0), (Z, 0), (Z, 0)],
    ),
    (
        "steep line",
        Kind::Line,
        [(Z, 1), (Z, 0), (FIRST, 0), (H, 1)],
    ),
    (
        "line upwards",
        Kind::Line,
        [(LAST, 0), (H, 0), (W, 0), (Z, 1)],
    ),
    (
        "line of a point",
        Kind::Line,
        [(Z, 2), (Z, 3), (Z, 2), (Z, 3)],
    ),
    ("text", Kind::Text(0), [(Z, 1), (Z, 1), NO, NO]),
    (
        "text without some glyphs",
        Kind::Text(1),
        [(FIRST, 0), (FIRST, 0), NO, NO],
    ),
    (
        "text without bytes",
        Kind::Text(2),
        [(Z, 0), (Z, 0), NO, NO],
    ),
    (
        "text across the edge",
        Kind::Text(0),
        [(LAST, -1), (LAST, 0), NO, NO],
    ),
    (
        "text past the edge",
        Kind::Text(0),
        [(W, 0), (H, 0), NO, NO],
    ),
    ("bitmap", Kind::Bitmap, [(Z, 1), (FIRST, 0), NO, NO]),
    (
        "bitmap across the edge",
        Kind::Bitmap,
        [(LAST, 1), (Z, -1), NO, NO],
    ),
    (
        "bitmap past the edge",
        Kind::Bitmap,
        [(W, -1), (H, -1), NO, NO],
    ),
];

#[test]
fn shapes_at_each_base(rt: HostRuntime) {
    for (name, kind, sums) in SHAPES {
        for (x, y) in [(0, 0), (3, 2), (-1, -1), (9, 7)] {
            let op = op_of(kind, sums);
            assert!(rt;
                draws(rt.alloc(), &op, &window_at(x, y, VALUES), &[ALL]),
                "{name}"
            );
        }
    }
}

/// The kinds with coordinates that come from one sum.
const KINDS: [(&str, Kind); 7] = [
    ("fill", Kind::Fill),
    ("frame", Kind::Frame),
    ("row", Kind::HLine),
    ("column", Kind::VLine),
    ("line", Kind::Line),
    ("bitmap", Kind::Bitmap),
    ("text", Kind::Text(0)),
];

/// The coordinate that is this sum in a window of counting values, and another one if the wrong
/// value is taken.
fn sum_from(value: u8, sum: i16) -> Sum {
    (Base::Value(value), sum.wrapping_sub(i16::from(value)))
}

/// The coordinates of an operation from the sum.
fn sums_of(kind: Kind, v: Sum) -> [Sum; 4] {
    match kind {
        Kind::Fill | Kind::Frame => [NO, NO, v, v],
        Kind::HLine | Kind::Line => [NO, v, v, NO],
        Kind::VLine => [v, NO, v, NO],
        _ => [v, NO, NO, NO],
    }
}

/// Whether a kind draws what it should from each of a window's values.
fn draws_from_each_value(alloc: Global, kind: Kind) -> bool {
    for value in 0..16 {
        let op = op_of(kind, sums_of(kind, sum_from(value, 3)));
        if !draws(alloc, &op, &window_at(1, 2, COUNTING), &[ALL]) {
            return false;
        }
    }
    true
}

#[test]
fn each_value_is_a_base(rt: HostRuntime) {
    for (name, kind) in KINDS {
        assert!(rt; draws_from_each_value(rt.alloc(), kind), "{name}");
    }
}

/// The least and the greatest number.
const LO: Sum = (Base::Zero, i16::MIN);

const HI: Sum = (Base::Zero, i16::MAX);

const FAR: [(&str, Kind, [Sum; 4]); 11] = [
    ("fill", Kind::Fill, [LO, LO, HI, HI]),
    ("frame", Kind::Frame, [LO, (Z, 2), HI, HI]),
    ("row", Kind::HLine, [LO, HI, (Z, 1), NO]),
    ("column", Kind::VLine, [(Z, 1), LO, HI, NO]),
    ("line", Kind::Line, [LO, LO, HI, HI]),
    ("flat line", Kind::Line, [LO, (Z, 3), HI, (Z, 4)]),
    ("line to one side", Kind::Line, [(Z, 2), (Z, 1), HI, LO]),
    ("text", Kind::Text(0), [LO, LO, NO, NO]),
    ("text to the right", Kind::Text(0), [HI, (Z, 1), NO, NO]),
    ("bitmap", Kind::Bitmap, [LO, LO, NO, NO]),
    ("bitmap to the right", Kind::Bitmap, [HI, (Z, 1), NO, NO]),
];

#[test]
fn far_ends_and_origins(rt: HostRuntime) {
    for (name, kind, sums) in FAR {
        for z in [0, -65_535, 65_535, -32_768, 32_768, -32_760] {
            let op = op_of(kind, sums);
            for (x, y) in [(z, z), (z, 2), (2, z)] {
                assert!(rt;
                    draws(rt.alloc(), &op, &window_at(x, y, VALUES), &[ALL]),
                    "{name}"
                );
            }
        }
    }
}

const SPANS: [(&str, &[Span]); 9] = [
    ("none", &[]),
    ("one", &[Span { x0: 2, x1: 6 }]),
    ("one point", &[Span { x0: 4, x1: 4 }]),
    ("two", &[Span { x0: 0, x1: 2 }, Span { x0: 5, x1: 8 }]),
    (
        "overlapping",
        &[Span { x0: 1, x1: 5 }, Span { x0: 3, x1: 7 }],
    ),
    ("touching", &[Span { x0: 1, x1: 3 }, Span { x0: 4, x1: 7 }]),
    (
        "the ends",
        &[Span { x0: 0, x1: 0 }, Span { x0: 11, x1: 11 }],
    ),
    ("outside the shape", &[Span { x0: 10, x1: 11 }]),
    (
        "without a point",
        &[Span { x0: 6, x1: 3 }, Span { x0: 2000, x1: 1999 }],
    ),
];

const CUT: [(Kind, [Sum; 4]); 9] = [
    (Kind::Fill, [(Z, 1), (Z, 1), (Z, 6), (Z, 3)]),
    (Kind::Frame, [(Z, 1), (Z, 1), (Z, 6), (Z, 3)]),
    (Kind::HLine, [(Z, -1), (Z, 7), (Z, 2), NO]),
    (Kind::VLine, [(Z, 2), (Z, 0), (Z, 4), NO]),
    (Kind::Line, [(Z, -1), (Z, -1), (Z, 8), (Z, 4)]),
    (Kind::Line, [(Z, 1), (Z, -1), (Z, 4), (Z, 6)]),
    (Kind::Text(0), [(Z, 0), (Z, 2), NO, NO]),
    (Kind::Text(1), [(Z, 1), (Z, 2), NO, NO]),
    (Kind::Bitmap, [(Z, 2), (Z, 1), NO, NO]),
];

#[test]
fn spans_cut_anywhere(rt: HostRuntime) {
    for (kind, sums) in CUT {
        for (name, spans) in SPANS {
            let op = op_of(kind, sums);
            assert!(rt;
                draws(rt.alloc(), &op, &window_at(2, 1, VALUES), spans),
                "{name}"
            );
        }
    }
}

/// Whether both frames have the same colours, and not all are black.
fn are_alike(a: &Frame, b: &Frame) -> bool {
    let mut inked = false;
    for y in 0..a.height().min(b.height()) {
        for x in 0..a.width().min(b.width()) {
            if a.get(x, y) != b.get(x, y) {
                return false;
            }
            inked = inked || a.get(x, y) == red();
        }
    }
    inked
}

/// Whether two operations draw the same points.
fn draw_alike(alloc: Global, w: &Window, a: &Op, b: &Op) -> bool {
    let Some(assets) = assets_of(alloc) else {
        return false;
    };
    let (Ok(mut first), Ok(mut second)) = (Frame::new(alloc, 24, 4), Frame::new(alloc, 24, 4))
    else {
        return false;
    };
    let spans = [Span { x0: 0, x1: 23 }];
    draw_rows(a, w, &spans, &assets, &mut first)
        && draw_rows(b, w, &spans, &assets, &mut second)
        && are_alike(&first, &second)
}

/// Whether a number is drawn as the string of this number is.
fn is_drawn_as(alloc: Global, w: &Window, number: Sum, string: u8) -> bool {
    let at = (Base::Zero, 1);
    let number = op_of(Kind::Number, [at, at, number, NO]);
    draw_alike(
        alloc,
        w,
        &number,
        &op_of(Kind::Text(string), [at, at, NO, NO]),
    )
}

/// Numbers, and the strings of their digits.
const NUMBERS: [(Sum, u8); 10] = [
    ((Z, 0), 3),
    ((Z, -1), 4),
    ((W, 4), 5),
    ((H, 5), 5),
    ((FIRST, -4), 4),
    ((Z, i16::MIN), 6),
    ((Base::Value(2), 0), 6),
    ((Base::Value(1), 0), 7),
    ((Base::Value(2), i16::MIN), 8),
    ((Base::Value(1), i16::MAX), 9),
];

#[test]
fn numbers_are_drawn_as_their_digits(rt: HostRuntime) {
    for (number, string) in NUMBERS {
        assert!(rt;
            is_drawn_as(rt.alloc(), &window_at(2, 1, VALUES), number, string),
            "{string}"
        );
    }
    for value in 0..16 {
        let number = sum_from(value, 0);
        assert!(rt;
            is_drawn_as(rt.alloc(), &window_at(1, 2, COUNTING), number, 3),
            "{value}"
        );
    }
}
