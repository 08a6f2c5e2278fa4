//! What of windows is made invalid, by rows worked out by hand.

ghost use Rattle.std.specs.Prelude.{◌≡◌, IfOk};
ghost use Rattle.scene.specs.Stacks.{IsStack, desktop_screen};
ghost use Rattle.invalidate.specs.Invalidation.{IsLocal};

use gfx_base::Rect;
use invalidate::{area, first_invalid, rect, window};
use scene::{Stack, Win, screen};
use std::alloc::Global;
use std::test::*;
use win_tree::Tree;

/// What is made invalid: a window by its place, a rectangle of one, or an area of the screen.
#[derive(Clone, Copy, Debug)]
enum What {
    Window(usize),
    Part(usize, [i16; 4]),
    Area([i16; 4]),
}

use What::{Area, Part, Window};

/// The desktop of twenty by ten points; in it 2, which has 3, of which it shows one point; and 4,
/// which is hidden.
fn windows(alloc: Global) -> Result<Stack, Fail>
    ensures { IfOk result (λ stack. IsStack stack.items) }
{
    let mut tree = Tree::open(alloc, 20, 10)?;
    let outer = tree.create(1, 5, 3, 4, 4, 0)?;
    tree.create(outer, 3, 3, 4, 4, 0)?;
    let hidden = tree.create(1, 0, 0, 3, 3, 0)?;
    tree.set_shown(hidden, false)?;
    let mut stack = Stack::new();
    tree.walk(&mut stack);
    Ok(stack)
}

fn desktop_screen(stack: &[Win]) -> Rect
    requires { IsStack stack.now }
    ensures { result ≡ desktop_screen stack.now }
{
    screen(stack[0].w, stack[0].h)
}

fn corners(numbers: [i16; 4]) -> Rect
    ensures { IsLocal result }
{
    let [x0, y0, x1, y1] = numbers;
    Rect {
        x0: i32::from(x0),
        y0: i32::from(y0),
        x1: i32::from(x1),
        y1: i32::from(y1),
    }
}

/// Makes one thing invalid of a valid stack.
fn invalidate(stack: &mut [Win], what: What)
    requires { IsStack stack.old }
{
    let screen = desktop_screen(stack);
    match what {
        Window(i) => {
            if i < stack.len() {
                window(stack, i, &screen);
            }
        }
        Part(i, local) => {
            let local = corners(local);
            if i < stack.len() {
                rect(stack, i, &local, &screen);
            }
        }
        Area(a) => {
            let a = corners(a);
            area(stack, &a, &screen);
        }
    }
}

/// What is made invalid, and the invalid rectangles of the three windows then.
type Row = (What, [Option<[i16; 4]>; 3]);

const NONE: [Option<[i16; 4]>; 3] = [None; 3];

const ROWS: [Row; 16] = [
    (Window(0), NONE),
    (Window(1), [Some([5, 3, 8, 6]), None, None]),
    (Window(2), [None, Some([8, 6, 8, 6]), None]),
    (Window(3), NONE),
    (Part(1, [0, 0, 0, 0]), [Some([5, 3, 5, 3]), None, None]),
    (Part(1, [-9, -9, 1, 1]), [Some([5, 3, 6, 4]), None, None]),
    (
        Part(1, [-32768, -32768, 32767, 32767]),
        [Some([5, 3, 8, 6]), None, None],
    ),
    (Part(2, [0, 0, 3, 3]), [None, Some([8, 6, 8, 6]), None]),
    // Inverted, or off the clip.
    (Part(1, [3, 0, 2, 3]), NONE),
    (Part(1, [4, 0, 9, 9]), NONE),
    (Part(2, [1, 1, 3, 3]), NONE),
    (Part(3, [0, 0, 2, 2]), NONE),
    (Area([0, 0, 5, 3]), [Some([5, 3, 5, 3]), None, None]),
    (
        Area([8, 6, 30, 30]),
        [Some([8, 6, 8, 6]), Some([8, 6, 8, 6]), None],
    ),
    (Area([6, 0, 5, 9]), NONE),
    (Area([-5, -5, -1, -1]), NONE),
];

/// The invalid rectangles of all windows but the desktop.
fn found(stack: &[Win]) -> [Option<Rect>; 3] {
    let mut rects = [None; 3];
    for (place, w) in rects.iter_mut().zip(stack.iter().skip(1)) {
        *place = w.invalid;
    }
    rects
}

#[test]
fn windows_become_invalid_where_they_may_paint(rt: HostRuntime) -> Result<(), Fail> {
    for (what, rects) in ROWS {
        let mut stack = windows(rt.alloc())?;
        invalidate(stack.as_mut_slice(), what);
        let wanted = rects.map(|r| r.map(corners));
        assert_eq!(rt; found(stack.as_slice()), wanted, "{what:?}");
    }
    Ok(())
}

#[test]
fn the_first_invalid_window_is_found(rt: HostRuntime) {
    let valid = Win::default();
    let invalid = Win {
        invalid: Some(corners([1, 1, 2, 2])),
        ..valid
    };
    assert_eq!(rt; first_invalid(&[valid, valid]), None);
    assert_eq!(rt; first_invalid(&[valid, invalid, invalid]), Some(1));
}
