//! Paints the windows of a grid that covers the screen by a job each, again and again, so that
//! `bench/job` can time it. The words are the screen's sides, how many windows there are, how often
//! they are painted, and how, if not plainly: `busy` windows fill themselves twenty times, and
//! `composed` ones do so by way of a memory device. With no window all rows are filled by whole
//! spans.
#![tactic(auto)]

ghost use Rattle.std.specs.Prelude.{◌≡◌, ◌≤◌, length, IfSome};
ghost use Rattle.std.specs.List.{AllByRecursion};
ghost use Rattle.paint_ops.specs.Kinds.{Assets as Content};
ghost use Rattle.paint_ops.specs.Soundness.{IsNum, IsOperation, IsSound};
ghost use Rattle.scene.specs.Looks.{IsPaintable};
ghost use Rattle.scene.specs.Places.{AreSingle};

use exec_paint::job;
use frame::Frame;
use gfx_base::Colour;
use paint_ops::{Assets, Base, Num, Op};
use samples::{are_paintable, are_single, assets_of, class};
use scene::{Stack, Win, screen};
use std::alloc::Global;
use std::env;
use std::process::ExitCode;

fn blue() -> Colour {
    Colour::new(0xFF).unwrap_or_default()
}

/// All points of a window.
fn whole() -> Op
    ensures { (assets : Content) → IsOperation assets result }
{
    let first = Num {
        base: Base::Zero,
        plus: 0,
    };
    let right = Num {
        base: Base::Width,
        plus: -1,
    };
    let bottom = Num {
        base: Base::Height,
        plus: -1,
    };
    Op::Fill(first, first, right, bottom, blue())
}

/// Assets of three classes: the desktop's, a blue one, and one that is made blue twenty times more.
fn assets(alloc: Global) -> Option<Assets>
    ensures { IfSome result IsSound }
{
    let black = class(alloc, Some(Colour::default()), &[], &[])?;
    let plain = class(alloc, Some(blue()), &[], &[])?;
    let busy = class(alloc, Some(blue()), &[whole(); 20], &[])?;
    assets_of(alloc, [black, plain, busy])
}

/// How the windows of a grid are painted.
#[derive(Clone, Copy)]
struct Manner {
    class: u8,
    memdev: bool,
}

fn manner_of(word: Option<&str>) -> Option<Manner> {
    let (class, memdev) = match word {
        None => (1, false),
        Some("busy") => (2, false),
        Some("composed") => (2, true),
        Some(_) => return None,
    };
    Some(Manner { class, memdev })
}

/// The desktop, and so many windows on it, which lie side by side in rows.
fn grid(w: u16, h: u16, windows: u16, manner: Manner) -> Stack {
    let across = match windows {
        0..=1 => 1,
        2..=16 => 4,
        _ => 16,
    };
    let desktop = Win {
        handle: 1,
        w,
        h,
        shown: true,
        ..Win::default()
    };
    let mut stack = Stack::new();
    let _ = stack.try_push(desktop);
    for i in 0..windows {
        let window = Win {
            handle: u32::from(i) + 2,
            parent: 1,
            x: i16::try_from((i % across).wrapping_mul(w / across)).unwrap_or(0),
            y: i16::try_from((i / across).wrapping_mul(h / across)).unwrap_or(0),
            w: w / across,
            h: h / across,
            class: manner.class,
            memdev: manner.memdev,
            invalid: Some(screen(w, h)),
            ..desktop
        };
        let _ = stack.try_push(window);
    }
    stack
}

/// Paints each window but the desktop.
fn paint(stack: &[Win], assets: &Assets, device: &mut Frame, target: &mut Frame)
    requires assets { IsSound assets.now }
    requires few { length stack.now ≤ 256 }
    requires windows { AllByRecursion (IsPaintable assets.now) stack.now }
    requires single { AreSingle stack.now }
    requires sides { (device.old.picture.width ≡ target.old.picture.width)
        × (device.old.picture.height ≡ target.old.picture.height) }
    ensures sides { (device.new.picture.width ≡ target.new.picture.width)
        × (device.new.picture.height ≡ target.new.picture.height) }
{
    for which in 1..stack.len() {
        let _tiles = job(stack, which, assets, device, target);
    }
}

/// Paints all windows of a grid so often. `None` where memory runs out.
fn paint_grid(alloc: Global, stack: &[Win], rounds: u32, target: &mut Frame) -> Option<()> {
    let assets = assets(alloc)?;
    let mut device = Frame::new(alloc, target.width(), target.height()).ok()?;
    if 256 < stack.len() || !are_paintable(stack, &assets) || !are_single(stack) {
        return None;
    }
    for _ in 0..rounds {
        paint(stack, &assets, &mut device, target);
    }
    Some(())
}

/// Fills all rows so often.
fn fill(w: u16, h: u16, rounds: u32, target: &mut Frame)
    requires some { 1 ≤ w }
    requires width { target.old.picture.width ≡ w }
    requires height { target.old.picture.height ≡ h }
{
    for _ in 0..rounds {
        for y in 0..h {
            target.fill_span(y, 0, w - 1, blue());
        }
    }
}

/// Paints so many windows so often on a screen of these sides, and gives the colour of its first
/// point. `None` where memory runs out or the sides are others than a screen can have.
fn painted(
    alloc: Global,
    (w, h): (u16, u16),
    windows: u16,
    rounds: u32,
    manner: Manner,
) -> Option<u32> {
    if w == 0 || 1024 < w || h == 0 || 768 < h {
        return None;
    }
    let mut target = Frame::new(alloc, w, h).ok()?;
    if windows == 0 {
        fill(w, h, rounds, &mut target);
    } else {
        paint_grid(alloc, &grid(w, h, windows, manner), rounds, &mut target)?;
    }
    Some(target.row(0).first()?.value())
}

/// Does what the words say, and gives the colour of the first point. `None` where memory runs out
/// or the words are others.
fn run(rt: &HostRuntime) -> Option<u32> {
    let mut words = env::args(rt).ok()?.skip(1);
    let w = words.next()?.parse::<u16>().ok()?;
    let h = words.next()?.parse::<u16>().ok()?;
    let windows = words.next()?.parse::<u16>().ok()?;
    let rounds = words.next()?.parse::<u32>().ok()?;
    let manner = manner_of(words.next().as_deref())?;
    painted(rt.alloc(), (w, h), windows, rounds, manner)
}

fn main(rt: HostRuntime) -> ExitCode {
    let Some(colour) = run(&rt) else {
        return ExitCode::from(2);
    };
    match println!(rt; "{colour}") {
        Ok(()) => ExitCode::from(0),
        Err(_) => ExitCode::from(1),
    }
}
