//! Messages worked out by hand.

ghost use Rattle.paint_ops.specs.Soundness.{IsSound};

use crate::sound::assets;
use Operand::{Argument, Const};
use React::{Add, Set, Up};
use gfx_base::Rect;
use messages::{deliver, put_values};
use paint_ops::{Assets, Operand, React, Reaction};
use samples::are_single;
use scene::{Win, screen};

/// The desktop adds the argument of 5 and hands on 5.
const DESKTOP: [Reaction; 2] = [
    Reaction {
        on: 5,
        react: Add(0, Argument),
    },
    Reaction {
        on: 5,
        react: Up(5),
    },
];

/// At 3 a value grows by the argument, before and after what is handed on, and 9 is not handed on.
const INNER: [Reaction; 5] = [
    Reaction {
        on: 3,
        react: Add(0, Argument),
    },
    Reaction {
        on: 3,
        react: Up(4),
    },
    Reaction {
        on: 3,
        react: Up(9),
    },
    Reaction {
        on: 3,
        react: Add(0, Argument),
    },
    Reaction {
        on: 7,
        react: Up(4),
    },
];

/// 4 sets a value to 3 and another to the argument, 5 goes on upwards, and 6 and 8 reach the ends.
const OUTER: [Reaction; 8] = [
    Reaction {
        on: 4,
        react: Set(1, Const(3)),
    },
    Reaction {
        on: 4,
        react: Set(0, Argument),
    },
    Reaction {
        on: 4,
        react: Up(5),
    },
    Reaction {
        on: 9,
        react: Set(15, Const(1)),
    },
    Reaction {
        on: 6,
        react: Set(0, Const(32767)),
    },
    Reaction {
        on: 6,
        react: Add(0, Argument),
    },
    Reaction {
        on: 8,
        react: Set(0, Const(-32768)),
    },
    Reaction {
        on: 8,
        react: Add(0, Argument),
    },
];

/// A window in a row of points, from its parent's first one.
fn window(handle: u32, parent: u32, w: u16, class: u8) -> Win {
    Win {
        handle,
        parent,
        w,
        h: 1,
        shown: true,
        class,
        ..Win::default()
    }
}

/// The desktop of four points, in it the outer window of four, in that the inner one of three, and
/// in that one of two points, whose class isn't there.
fn windows() -> [Win; 4] {
    [
        window(1, 0, 4, 0),
        window(2, 1, 4, 2),
        window(3, 2, 3, 1),
        window(4, 3, 2, 3),
    ]
}

/// To which window which message goes with which argument, and the first two values of the three
/// windows then.
type Row = (usize, u8, i16, [[i16; 2]; 3]);

const ROWS: [Row; 14] = [
    (2, 3, 2, [[2, 0], [2, 3], [4, 0]]),
    (2, 3, 0, [[0, 0], [0, 3], [0, 0]]),
    (2, 3, 20000, [[20000, 0], [20000, 3], [32767, 0]]),
    (2, 3, -20000, [[-20000, 0], [-20000, 3], [-32768, 0]]),
    // Up without a value.
    (2, 7, 5, [[5, 0], [5, 3], [0, 0]]),
    // Nothing is handed down, and no other message is answered.
    (1, 4, -1, [[-1, 0], [-1, 3], [0, 0]]),
    (0, 5, 7, [[7, 0], [0, 0], [0, 0]]),
    (2, 4, 2, [[0, 0]; 3]),
    (0, 3, 2, [[0, 0]; 3]),
    // The ends of the numbers.
    (1, 6, 1, [[0, 0], [32767, 0], [0, 0]]),
    (1, 6, -1, [[0, 0], [32766, 0], [0, 0]]),
    (1, 8, -1, [[0, 0], [-32768, 0], [0, 0]]),
    (1, 8, 32767, [[0, 0], [-1, 0], [0, 0]]),
    // A class that isn't there.
    (3, 3, 2, [[0, 0]; 3]),
];

/// The windows after a message to one of them.
fn after(i: usize, msg: u8, arg: i16, assets: &Assets) -> [Win; 4]
    requires { IsSound assets.now }
{
    let mut stack = windows();
    if i < stack.len() && are_single(&stack) {
        deliver(&mut stack, i, msg, arg, assets, &screen(4, 1));
    }
    stack
}

/// All of a window that has so many points.
fn whole(w: u16) -> Rect {
    screen(w, 1)
}

/// The window with its first two values, and wholly invalid where they are new.
fn with_values(w: Win, [first, second]: [i16; 2]) -> Win {
    let mut values = w.values;
    values[0] = first;
    values[1] = second;
    let invalid = if values == w.values {
        None
    } else {
        Some(whole(w.w))
    };
    Win {
        values,
        invalid,
        ..w
    }
}

#[test]
fn messages_give_values_and_go_up(rt: HostRuntime) {
    let assets = assets(rt.alloc(), [&DESKTOP, &INNER, &OUTER]).expect(&rt, "assets");
    for (i, msg, arg, values) in ROWS {
        let mut wanted = windows();
        for (w, two) in wanted.iter_mut().zip(values) {
            *w = with_values(*w, two);
        }
        assert_eq!(rt; after(i, msg, arg, &assets), wanted, "{msg} {arg} to {i}");
    }
}

#[test]
fn new_values_are_invalid_on_the_whole_clip(rt: HostRuntime) {
    let mut stack = windows();
    put_values(&mut stack, 2, &[0; 16], &screen(4, 1));
    assert_eq!(rt; stack, windows());
    put_values(&mut stack, 2, &[1; 16], &screen(4, 1));
    assert_eq!(rt; stack[2].values, [1; 16]);
    assert_eq!(rt; stack[2].invalid, Some(whole(3)));
    assert_eq!(rt; stack[1], windows()[1]);
}
