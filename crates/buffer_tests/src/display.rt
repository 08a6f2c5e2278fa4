//! All sequences of eight steps of a display's two sides, held against a plain display.
ghost use Rattle.std.specs.Prelude.{◌≡◌, ◌≤◌, IfSome, IsTrue};
ghost use Rattle.flip.specs.Drawers.{IsFree};

use flip::{Controller, Drawer, open, open_alone};
use gfx_base::Memory;
use std::alloc::Global;
use std::test::*;

/// How many steps a sequence has, and how many sequences of three kinds of steps there are.
const STEPS: u32 = 8;

const SEQUENCES: u32 = 6561;

/// A display: the buffer that it shows, the one that waits there, and the one that its drawer knew
/// to wait after its last step.
#[derive(Drop)]
struct Display {
    buffers: u8,
    shown: u8,
    waiting: Option<u8>,
    known: Option<u8>,
}

impl Display {
    fn new(buffers: u8) -> Display {
        Display {
            buffers,
            shown: 0,
            waiting: None,
            known: None,
        }
    }

    /// Shows what waits.
    fn tick(&mut self) -> Option<u8> {
        let taken = self.waiting.take();
        if let Some(index) = taken {
            self.shown = index;
        }
        taken
    }

    /// The buffer that was known to wait, where it is shown by now.
    fn confirmed(&self) -> Option<u8> {
        if self.known == Some(self.shown) {
            self.known
        } else {
            None
        }
    }

    /// The first buffer that is neither shown nor waits.
    fn back(&self) -> Option<u8> {
        for index in 0..self.buffers {
            if index != self.shown && self.waiting != Some(index) {
                return Some(index);
            }
        }
        None
    }
}

/// Looks, gives the buffer to draw on, and tells whether the look told what the display is.
fn look(drawer: &mut Drawer, display: &mut Display) -> (Option<u8>, bool)
    ensures free { IfSome result.0 (IsFree drawer.new) }
    ensures alone { drawer.new.alone ≡ drawer.old.alone }
{
    let looked = drawer.look();
    let right = looked.confirmed == display.confirmed() && looked.back == display.back();
    display.known = display.waiting;
    (looked.back, right)
}

/// Posts, and tells whether the post told what became of the buffer that was known to wait.
fn post(drawer: &mut Drawer, display: &mut Display, back: u8) -> bool
    requires { IsFree drawer.old back }
    ensures { drawer.new.alone ≡ drawer.old.alone }
{
    let posted = drawer.post(back);
    let right = posted.confirmed == display.confirmed() && posted.replaced == display.waiting;
    display.waiting = Some(back);
    display.known = Some(back);
    right
}

/// Makes the steps of a sequence, and tells how many answers were wrong. The drawer posts the
/// buffer that its last look gave, once.
fn wrong_answers(drawer: &mut Drawer, controller: &mut Controller, n: u8, sequence: u32) -> u32 {
    let mut display = Display::new(n);
    let mut rest = sequence;
    let mut back = None;
    let mut wrong = 0u32;
    for _ in 0..STEPS {
        let right = match rest % 3 {
            0 => {
                let (next, right) = look(drawer, &mut display);
                back = next;
                right
            }
            1 => controller.tick() == display.tick(),
            _ => match back.take() {
                Some(index) => post(drawer, &mut display, index),
                None => true,
            },
        };
        if !right {
            wrong = wrong.wrapping_add(1);
        }
        rest /= 3;
    }
    wrong
}

/// The same for a drawer that is its own controller.
fn wrong_answers_alone(drawer: &mut Drawer, n: u8, sequence: u32) -> u32
    requires { IsTrue drawer.old.alone }
{
    let mut display = Display::new(n);
    let mut rest = sequence;
    let mut back = None;
    let mut wrong = 0u32;
    for _ in 0..STEPS {
        let right = match rest % 3 {
            0 => {
                let (next, right) = look(drawer, &mut display);
                back = next;
                right
            }
            1 => {
                display.known = None;
                drawer.tick() == display.tick()
            }
            _ => match back.take() {
                Some(index) => post(drawer, &mut display, index),
                None => true,
            },
        };
        if !right {
            wrong = wrong.wrapping_add(1);
        }
        rest /= 3;
    }
    wrong
}

fn all_wrong_answers(alloc: Global, n: u8) -> Result<u32, Memory>
    requires some { 1 ≤ n }
    requires few { n ≤ 3 }
{
    let mut wrong = 0u32;
    for sequence in 0..SEQUENCES {
        let (mut drawer, mut controller) = open(alloc, n)?;
        wrong = wrong.wrapping_add(wrong_answers(&mut drawer, &mut controller, n, sequence));
    }
    Ok(wrong)
}

fn all_wrong_answers_alone(alloc: Global, n: u8) -> Result<u32, Memory>
    requires some { 1 ≤ n }
    requires few { n ≤ 3 }
{
    let mut wrong = 0u32;
    for sequence in 0..SEQUENCES {
        let mut drawer = open_alone(alloc, n)?;
        wrong = wrong.wrapping_add(wrong_answers_alone(&mut drawer, n, sequence));
    }
    Ok(wrong)
}

#[test]
fn two_sides_in_any_order_tell_what_the_display_is(rt: HostRuntime) -> Result<(), Fail> {
    for n in 1..4u8 {
        assert_eq!(rt; all_wrong_answers(rt.alloc(), n)?, 0, "{n} buffers");
    }
    Ok(())
}

#[test]
fn a_drawer_alone_tells_what_the_display_is(rt: HostRuntime) -> Result<(), Fail> {
    for n in 1..4u8 {
        assert_eq!(rt; all_wrong_answers_alone(rt.alloc(), n)?, 0, "{n} buffers");
    }
    Ok(())
}
