//! Small pictures of windows with operations, and of windows that can be seen through.

ghost use Rattle.std.specs.Prelude.{IfSome};
ghost use Rattle.paint_ops.specs.Kinds.{Assets as Content};
ghost use Rattle.paint_ops.specs.Soundness.{IsNum, IsOperation, IsSound};

use frame::Frame;
use gfx_base::Colour;
use paint_ops::{Assets, Base, Num, Op};
use samples::{are_paintable, assets_of, class};
use scene::{Win, paint_whole};
use std::alloc::Global;

const BLACK: u32 = 0;

const RED: u32 = 0xFF_0000;

const GREEN: u32 = 0xFF00;

const BLUE: u32 = 0xFF;

const WHITE: u32 = 0xFF_FFFF;

fn colour(value: u32) -> Colour {
    Colour::new(value).unwrap_or_default()
}

fn plain(plus: i16) -> Num
    ensures { IsNum result }
{
    Num {
        base: Base::Zero,
        plus,
    }
}

/// All columns of the first row before that of the first value.
fn bar() -> Op
    ensures { (assets : Content) → IsOperation assets result }
{
    let end = Num {
        base: Base::Value(0),
        plus: -1,
    };
    Op::Fill(plain(0), plain(0), end, plain(0), colour(RED))
}

/// The second and the third column of the first row.
fn middle() -> Op
    ensures { (assets : Content) → IsOperation assets result }
{
    Op::Fill(plain(1), plain(0), plain(2), plain(0), colour(WHITE))
}

/// Class 0 has no operation, class 1 a bar on green, class 2 a middle on nothing, and class 3 is
/// blue.
pub fn assets(alloc: Global) -> Option<Assets>
    ensures { IfSome result IsSound }
{
    let plain = class(alloc, Some(colour(BLACK)), &[], &[])?;
    let barred = class(alloc, Some(colour(GREEN)), &[bar()], &[])?;
    let overlay = class(alloc, None, &[middle()], &[])?;
    let blue = class(alloc, Some(colour(BLUE)), &[], &[])?;
    assets_of(alloc, [plain, barred, overlay, blue])
}

pub fn win(handle: u32, parent: u32, x: i16, w: u16, class: u8) -> Win {
    Win {
        handle,
        parent,
        x,
        w,
        h: 1,
        shown: true,
        class,
        ..Win::default()
    }
}

pub fn with_value(value: i16, w: Win) -> Win {
    let mut values = w.values;
    values[0] = value;
    Win { values, ..w }
}

/// Whether the painter makes a row of these four points of the windows.
fn paints(alloc: Global, stack: [Win; 3], assets: &Assets, row: [u32; 4]) -> bool
    requires { IsSound assets.now }
{
    let Ok(mut target) = Frame::new(alloc, 4, 1) else {
        return false;
    };
    if !are_paintable(&stack, assets) {
        return false;
    }
    paint_whole(&stack, assets, &mut target);
    shows_row(&target, row)
}

fn shows_row(target: &Frame, row: [u32; 4]) -> bool {
    0 < target.height()
        && target
            .row(0)
            .iter()
            .zip(row)
            .all(|(c, value)| c.value() == value)
}

/// The desktop and the two windows of each case, with the row that is seen.
fn cases() -> [(&'static str, Win, Win, [u32; 4]); 6] {
    let bar = with_value(2, win(2, 1, 0, 4, 1));
    let hidden = Win {
        shown: false,
        ..win(2, 1, 0, 4, 3)
    };
    let transparent = Win {
        trans: true,
        ..with_value(1, win(3, 1, 1, 3, 1))
    };
    [
        ("a bar", bar, win(3, 1, 4, 1, 3), [RED, RED, GREEN, GREEN]),
        (
            "a cover",
            bar,
            win(3, 1, 1, 1, 3),
            [RED, BLUE, GREEN, GREEN],
        ),
        (
            "an overlay",
            bar,
            win(3, 1, 0, 4, 2),
            [RED, WHITE, WHITE, GREEN],
        ),
        (
            "an overlay in a window",
            bar,
            win(3, 2, 1, 2, 2),
            [RED, RED, WHITE, GREEN],
        ),
        (
            "a transparent one",
            win(2, 1, 0, 2, 3),
            transparent,
            [BLUE, RED, BLACK, BLACK],
        ),
        (
            "a hidden one",
            hidden,
            win(3, 2, 0, 4, 3),
            [BLACK, BLACK, BLACK, BLACK],
        ),
    ]
}

#[test]
fn windows_with_operations(rt: HostRuntime) {
    let desktop = win(1, 0, 0, 4, 0);
    for (name, lower, upper, row) in cases() {
        let shown = match assets(rt.alloc()) {
            Some(assets) => paints(rt.alloc(), [desktop, lower, upper], &assets, row),
            None => false,
        };
        assert!(rt; shown, "{name}");
    }
}
