//! Jobs of windows in random stacks, held point by point against a plain program: the painter's
//! picture on the window's patch, what was there elsewhere, and the patch's tiles. Each stack's job
//! is done straight on the target and by way of a memory device, and the latter writes as many
//! points to the target as the patch has.

ghost use Rattle.std.specs.Prelude.{◌≡◌, ◌<◌, IfSome};
ghost use Rattle.paint_ops.specs.Soundness.{IsSound};

use crate::painter::{assets, win, with_value};
use exec_paint::job;
use frame::Frame;
use gfx_base::{Colour, Point, Rect, Tile, Tiles};
use paint_ops::Assets;
use samples::{Numbers, are_paintable, are_single};
use scene::{Stack, Win, ground, paint_whole, screen};
use std::alloc::Global;

fn chance(numbers: &mut Numbers, one_in: u16) -> bool
    requires { 0 < one_in }
{
    numbers.below(one_in) == 0
}

/// A window that lies in the desktop or in one of the first windows, often partly outside.
fn any_window(numbers: &mut Numbers, handle: u16) -> Win {
    let levels = handle.clamp(2, 9) - 1;
    let parent = if chance(numbers, 2) {
        1
    } else {
        1 + numbers.below(levels)
    };
    let place = win(
        u32::from(handle),
        u32::from(parent),
        numbers.below(40) as i16 - 10,
        1,
        0,
    );
    let sides = Win {
        y: numbers.below(36) as i16 - 10,
        w: 1 + numbers.below(24),
        h: 1 + numbers.below(20),
        class: numbers.below(4) as u8,
        ..place
    };
    let look = Win {
        shown: !chance(numbers, 8),
        trans: chance(numbers, 6),
        ..sides
    };
    with_value(numbers.below(24) as i16, look)
}

fn any_area(numbers: &mut Numbers) -> Rect {
    let x0 = i32::from(numbers.below(44)) - 6;
    let y0 = i32::from(numbers.below(40)) - 6;
    Rect {
        x0,
        y0,
        x1: x0 + i32::from(numbers.below(40)),
        y1: y0 + i32::from(numbers.below(36)),
    }
}

/// So many windows, the desktop among them, with a memory device or without, of which the one at a
/// random place is invalid.
fn any_stack(numbers: &mut Numbers, count: u16, memdev: bool) -> (Stack, usize) {
    let which = if count == 0 { 0 } else { numbers.below(count) };
    let mut stack = Stack::new();
    for at in 0..count {
        let place = if at == 0 {
            desktop()
        } else {
            any_window(numbers, at + 1)
        };
        let invalid = if at == which {
            Some(any_area(numbers))
        } else {
            None
        };
        let _ = stack.try_push(Win {
            invalid,
            memdev,
            ..place
        });
    }
    (stack, usize::from(which))
}

fn desktop() -> Win {
    Win {
        h: 4096,
        ..win(1, 0, 0, 4096, 0)
    }
}

fn is_opaque(w: &Win, assets: &Assets) -> bool {
    match assets.classes.get(usize::from(w.class)) {
        Some(class) => class.back.is_some() && !w.trans,
        None => false,
    }
}

/// The patch of a window: the points of a rectangle that none of the others has.
#[derive(Drop)]
struct Patch {
    area: Rect,
    hidden: Vec<Rect>,
}

impl Patch {
    fn of(
        alloc: Global,
        stack: &[Win],
        which: usize,
        screen: &Rect,
        assets: &Assets,
    ) -> Option<Patch> {
        let invalid = stack.get(which)?.invalid?;
        let mut hidden = Vec::new(alloc);
        for above in which..stack.len() {
            if which < above && is_opaque(&stack[above], assets) {
                hidden.push(ground(stack, above, screen)).ok()?;
            }
        }
        Some(Patch {
            area: ground(stack, which, screen).meet(&invalid),
            hidden,
        })
    }

    fn has(&self, p: Point) -> bool {
        self.area.has(p) && !self.hidden.iter().any(|r| r.has(p))
    }
}

fn colour_at(frame: &Frame, x: u16, y: u16) -> Option<Colour> {
    if x < frame.width() && y < frame.height() {
        Some(frame.get(x, y))
    } else {
        None
    }
}

/// How many points of the last frame aren't those of the second one on the patch, and of the first
/// one elsewhere; the answered tiles that have no point of the patch, and those of the patch that
/// aren't answered, count too.
fn wrong_points(patch: &Patch, sides: (u16, u16), frames: [&Frame; 3], tiles: &Tiles) -> u32 {
    let [before, whole, after] = frames;
    let mut due = Tiles::empty();
    let mut wrong = 0u32;
    for y in 0..sides.1.min(768) {
        for x in 0..sides.0.min(1024) {
            let is_due = patch.has(Point {
                x: i32::from(x),
                y: i32::from(y),
            });
            if is_due {
                due.add(Tile {
                    col: (x / 16) as u8,
                    row: (y / 16) as u8,
                });
            }
            let expected = if is_due { whole } else { before };
            if colour_at(after, x, y) != colour_at(expected, x, y) {
                wrong = wrong.wrapping_add(1);
            }
        }
    }
    for row in 0..48 {
        for col in 0..64 {
            let tile = Tile { col, row };
            if tiles.has(tile) != due.has(tile) {
                wrong = wrong.wrapping_add(1);
            }
        }
    }
    wrong
}

/// How many points of a screen of these sides the patch has.
fn points_of(patch: &Patch, sides: (u16, u16)) -> u64 {
    let mut count = 0u64;
    for y in 0..sides.1 {
        for x in 0..sides.0 {
            let is_due = patch.has(Point {
                x: i32::from(x),
                y: i32::from(y),
            });
            count = count.wrapping_add(u64::from(is_due));
        }
    }
    count
}

/// A frame of these sides on which the windows are painted; it is black where there are none.
fn painted(alloc: Global, stack: &[Win], assets: &Assets, sides: (u16, u16)) -> Option<Frame>
    requires { IsSound assets.now }
    ensures { IfSome result (λ f. (f.picture.width ≡ sides.0) × (f.picture.height ≡ sides.1)) }
{
    if sides.0 == 0 || 1024 < sides.0 || sides.1 == 0 || 768 < sides.1 {
        return None;
    }
    let mut frame = Frame::new(alloc, sides.0, sides.1).ok()?;
    if 256 < stack.len() || !are_paintable(stack, assets) {
        return None;
    }
    paint_whole(stack, assets, &mut frame);
    Some(frame)
}

/// How many points and tiles are wrong after the job of a window, on a frame that was blue, and one
/// more where a job that composes wrote another number of points than the patch has, or any other
/// one wrote to the device; `None` where there is no memory or no such window.
fn wrong_in_job(
    alloc: Global,
    stack: &[Win],
    which: usize,
    assets: &Assets,
    sides: (u16, u16),
) -> Option<u32>
    requires { IsSound assets.now }
{
    let blue = [Win {
        class: 3,
        ..desktop()
    }];
    let before = painted(alloc, &blue, assets, sides)?;
    let whole = painted(alloc, stack, assets, sides)?;
    let mut after = painted(alloc, &blue, assets, sides)?;
    let mut device = painted(alloc, &blue, assets, sides)?;
    if stack.len() <= which || 256 < stack.len() || !are_paintable(stack, assets) {
        return None;
    }
    if !are_single(stack) {
        return None;
    }
    let patch = Patch::of(alloc, stack, which, &screen(sides.0, sides.1), assets)?;
    let (shown, composed) = (after.writes(), device.writes());
    let tiles = job(stack, which, assets, &mut device, &mut after);
    let as_counted = if stack[which].memdev {
        after.writes().wrapping_sub(shown) == points_of(&patch, sides)
    } else {
        device.writes() == composed
    };
    let wrong = wrong_points(&patch, sides, [&before, &whole, &after], &tiles);
    Some(wrong.wrapping_add(u32::from(!as_counted)))
}

#[test]
fn jobs_in_random_stacks(rt: HostRuntime) {
    let alloc = rt.alloc();
    let assets = assets(alloc);
    for turn in 0..40 {
        let (seed, memdev) = (turn / 2, turn % 2 == 1);
        let mut numbers = Numbers::new(seed);
        for count in [1u16, 2, 3, 5, 9, 16, 40, 256] {
            let (stack, which) = any_stack(&mut numbers, count, memdev);
            let wrong = match &assets {
                Some(assets) => wrong_in_job(alloc, &stack, which, assets, (30, 33)),
                None => None,
            };
            assert_eq!(rt; wrong, Some(0), "seed {seed}, {count} windows, {memdev}");
        }
    }
}

/// A window that is invalid as a whole, below one that hides all of it or but its lowest row.
fn covered(height: u16, memdev: bool) -> [Win; 3] {
    let lower = Win {
        h: 20,
        memdev,
        invalid: Some(screen(1024, 768)),
        ..win(2, 1, 4, 20, 1)
    };
    let upper = Win {
        h: height,
        ..win(3, 1, 2, 30, 3)
    };
    [desktop(), lower, upper]
}

#[test]
fn a_hidden_patch_and_the_largest_screen(rt: HostRuntime) {
    let alloc = rt.alloc();
    let assets = assets(alloc);
    for (sides, height, memdev) in [
        ((40, 40), 20, false),
        ((40, 40), 20, true),
        ((40, 40), 19, false),
        ((40, 40), 19, true),
        ((1, 1), 1, true),
        ((1024, 768), 19, false),
        ((1024, 768), 19, true),
    ] {
        let stack = covered(height, memdev);
        let wrong = match &assets {
            Some(assets) => wrong_in_job(alloc, &stack, 1, assets, sides),
            None => None,
        };
        assert_eq!(rt; wrong, Some(0), "{height} rows, {memdev}");
    }
}
