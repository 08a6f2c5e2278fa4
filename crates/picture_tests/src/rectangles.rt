//! Rectangles and colours.

use gfx_base::{Colour, NO_POINTS, Point, Rect};

/// The corners of a rectangle: left, top, right and bottom.
type Corners = [i32; 4];

fn rect([x0, y0, x1, y1]: Corners) -> Rect {
    Rect { x0, y0, x1, y1 }
}

/// What every call gives where no point is left.
const NOTHING: Corners = [0, 0, -1, -1];

const EMPTY: [(&str, Corners, bool); 7] = [
    ("a point", [0, 0, 0, 0], false),
    (
        "a point left of and above the origin",
        [-3, -2, -3, -2],
        false,
    ),
    ("a block", [2, 3, 5, 4], false),
    ("no column", [0, 0, -1, 0], true),
    ("no row", [0, 0, 0, -1], true),
    ("right and left exchanged", [5, 3, 2, 4], true),
    ("the empty one that calls give", NOTHING, true),
];

#[test]
fn empty_where_one_end_lies_below_the_other(rt: HostRuntime) {
    for (name, corners, empty) in EMPTY {
        assert!(rt; rect(corners).is_empty() == empty, "{name}");
    }
    assert!(rt; NO_POINTS == rect(NOTHING));
}

const BLOCK: Corners = [2, 3, 5, 4];

const POINTS: [(&str, [i32; 2], bool); 9] = [
    ("upper left", [2, 3], true),
    ("upper right", [5, 3], true),
    ("lower left", [2, 4], true),
    ("lower right", [5, 4], true),
    ("within", [3, 3], true),
    ("to the left", [1, 3], false),
    ("to the right", [6, 4], false),
    ("above", [2, 2], false),
    ("below", [5, 5], false),
];

#[test]
fn both_corners_belong_to_a_rectangle(rt: HostRuntime) {
    for (name, [x, y], inside) in POINTS {
        let p = Point { x, y };
        assert!(rt; rect(BLOCK).has(p) == inside, "{name}");
        assert!(rt; !rect([5, 3, 2, 4]).has(p), "{name}");
    }
}

/// Two rectangles, the one of the points that both have, and the smallest with all points of both.
const PAIRS: [(&str, Corners, Corners, Corners, Corners); 10] = [
    (
        "right over left",
        [0, 0, 4, 4],
        [2, 3, 6, 8],
        [2, 3, 4, 4],
        [0, 0, 6, 8],
    ),
    (
        "across",
        [0, -2, 3, 3],
        [-1, 0, 2, 5],
        [0, 0, 2, 3],
        [-1, -2, 3, 5],
    ),
    (
        "nested",
        [0, 0, 9, 9],
        [2, 3, 4, 5],
        [2, 3, 4, 5],
        [0, 0, 9, 9],
    ),
    (
        "one column",
        [0, 0, 3, 3],
        [3, 0, 6, 3],
        [3, 0, 3, 3],
        [0, 0, 6, 3],
    ),
    (
        "one point",
        [0, 0, 3, 3],
        [3, 3, 6, 6],
        [3, 3, 3, 3],
        [0, 0, 6, 6],
    ),
    (
        "side by side",
        [0, 0, 3, 3],
        [4, 0, 6, 3],
        NOTHING,
        [0, 0, 6, 3],
    ),
    (
        "one above the other",
        [0, 0, 3, 3],
        [0, 4, 3, 6],
        NOTHING,
        [0, 0, 3, 6],
    ),
    ("apart", [0, 0, 1, 1], [5, 6, 7, 8], NOTHING, [0, 0, 7, 8]),
    ("with an empty one", BLOCK, [2, 2, 1, 3], NOTHING, BLOCK),
    (
        "two empty ones",
        [7, 7, 6, 9],
        [3, 3, 3, 2],
        NOTHING,
        NOTHING,
    ),
];

#[test]
fn meetings_and_covers(rt: HostRuntime) {
    for (name, a, b, both, all) in PAIRS {
        let (a, b) = (rect(a), rect(b));
        let (meetings, covers) = ([a.meet(&b), b.meet(&a)], [a.cover(&b), b.cover(&a)]);
        assert!(rt;
            meetings == [rect(both); 2] && covers == [rect(all); 2],
            "{name}"
        );
    }
}

#[test]
fn shifts(rt: HostRuntime) {
    const FAR: i32 = 1_048_576;
    let here = Rect {
        x0: 0,
        y0: 1,
        x1: 3,
        y1: 2,
    };
    assert!(rt; here.shift(5, -2) == rect([5, -1, 8, 0]));
    assert!(rt; here.shift(FAR, -FAR) == rect([1_048_576, -1_048_575, 1_048_579, -1_048_574]));
    let widest = Rect {
        x0: -FAR,
        y0: -FAR,
        x1: FAR,
        y1: FAR,
    };
    assert!(rt; widest.shift(-FAR, FAR) == rect([-2_097_152, 0, 0, 2_097_152]));
    let empty = Rect {
        x0: 2,
        y0: 2,
        x1: 1,
        y1: 9,
    };
    assert!(rt; empty.shift(5, 5) == rect(NOTHING));
}

/// The value of the colour of this value, or `None` where it is none.
fn value_of(value: u32) -> Option<u32> {
    Some(Colour::new(value)?.value())
}

#[test]
fn colours_have_three_bytes(rt: HostRuntime) {
    for value in [0, 255, 16_777_215] {
        assert!(rt; value_of(value) == Some(value), "{value}");
    }
    for value in [16_777_216, u32::MAX] {
        assert!(rt; value_of(value).is_none(), "{value}");
    }
    assert!(rt; Colour::default().value() == 0);
}
