//! Where windows lie, and which part of the screen each may paint.

use gfx_base::{Point, Rect};
use scene::{Win, ground, origin};

/// The clip of a window of which nothing is to be seen.
const NOTHING: [i32; 4] = [0, 0, -1, -1];

/// A window's handle, its parent's, its place in it, its size and whether it is shown, and then the
/// place of its corner on the screen and its clip.
type Row = (u32, u32, [i16; 2], [u16; 2], bool, [i32; 2], [i32; 4]);

const WINDOWS: [Row; 13] = [
    (1, 0, [0, 0], [8, 4], true, [0, 0], [0, 0, 7, 3]),
    // Partly off the screen, with a child and with one that lies wholly outside it.
    (2, 1, [5, -1], [5, 3], true, [5, -1], [5, 0, 7, 1]),
    (3, 2, [1, 2], [2, 4], true, [6, 1], [6, 1, 7, 1]),
    (4, 2, [-4, 1], [3, 2], true, [1, 0], NOTHING),
    // Hidden, with a child.
    (5, 1, [1, 1], [4, 2], false, [1, 1], NOTHING),
    (6, 5, [1, 0], [2, 1], true, [2, 1], NOTHING),
    // From level 2 to level 8.
    (7, 1, [1, 0], [8, 4], true, [1, 0], [1, 0, 7, 3]),
    (8, 7, [1, 1], [8, 4], true, [2, 1], [2, 1, 7, 3]),
    (9, 8, [1, -1], [8, 4], true, [3, 0], [3, 1, 7, 3]),
    (10, 9, [1, 0], [8, 4], true, [4, 0], [4, 1, 7, 3]),
    (11, 10, [1, 0], [3, 3], true, [5, 0], [5, 1, 7, 2]),
    (12, 11, [-1, 0], [8, 4], true, [4, 0], [5, 1, 7, 2]),
    (13, 12, [2, 2], [1, 2], true, [6, 2], [6, 2, 6, 2]),
];

fn win_of((handle, parent, [x, y], [w, h], shown, _, _): Row) -> Win {
    Win {
        handle,
        parent,
        x,
        y,
        w,
        h,
        shown,
        ..Win::default()
    }
}

/// Whether a window's corner and clip are these, on a screen of 8 by 4 points.
fn lies_at(stack: &[Win], i: usize, [x, y]: [i32; 2], [x0, y0, x1, y1]: [i32; 4]) -> bool {
    let screen = Rect {
        x0: 0,
        y0: 0,
        x1: 7,
        y1: 3,
    };
    i < stack.len()
        && origin(stack, i) == Point { x, y }
        && ground(stack, i, &screen) == Rect { x0, y0, x1, y1 }
}

#[test]
fn windows_lie_in_their_parents(rt: HostRuntime) {
    let mut stack = [Win::default(); 13];
    for (place, row) in stack.iter_mut().zip(WINDOWS) {
        *place = win_of(row);
    }
    let mut i = 0usize;
    for (_, _, _, _, _, corner, clip) in WINDOWS {
        assert!(rt; lies_at(&stack, i, corner, clip), "window {i}");
        i = i.wrapping_add(1);
    }
}
