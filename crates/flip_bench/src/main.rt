//! Makes steps on a display's word, or whole pictures, again and again, so that `bench/flip` can
//! time them. The words are what is done and how often.
#![tactic(auto)]

ghost use Rattle.std.specs.Prelude.{◌≡◌, ◌≤◌, IsTrue, IfSome};
ghost use Rattle.multibuf.specs.Buffering.{IsEven};

use flip::{Controller, Drawer};
use frame::Frame;
use multibuf::Buffers;
use std::alloc::Global;
use std::env;
use std::process::ExitCode;
use std::thread::{Threads, join};

const WIDTH: u16 = 1024;

const HEIGHT: u16 = 768;

/// How often something is done at most.
const MOST: u32 = 1_000_000_000;

/// Looks so often, and gives the last buffer to draw on.
fn look(drawer: &mut Drawer, rounds: u32) -> u32 {
    let mut last = 0;
    for _ in 0..rounds {
        last = u32::from(drawer.look().back.unwrap_or(0));
    }
    last
}

/// Looks and posts so often, and gives how many posts replaced a buffer that waited.
fn post(drawer: &mut Drawer, rounds: u32) -> u32 {
    let mut replaced = 0u32;
    for _ in 0..rounds {
        if let Some(back) = drawer.look().back {
            if drawer.post(back).replaced.is_some() {
                replaced = replaced.wrapping_add(1);
            }
        }
    }
    replaced
}

/// Ticks so often, and gives how many buffers were shown.
fn tick(controller: &mut Controller, rounds: u32) -> u32 {
    let mut shown = 0u32;
    for _ in 0..rounds {
        if controller.tick().is_some() {
            shown = shown.wrapping_add(1);
        }
    }
    shown
}

/// Begins, ends and shows so often, and gives the number of the last switch.
fn begin(buffers: &mut Buffers, rounds: u32) -> u32
    requires even { IsEven buffers.old }
    requires alone { IsTrue buffers.old.drawer.alone }
    requires switches { buffers.old.switches ≡ 0 }
    requires rounds { rounds ≤ MOST }
{
    let mut last = 0;
    for round in 0..rounds {
        let _begun = buffers.begin();
        let _ended = buffers.end();
        last = buffers.tick().unwrap_or(last);
    }
    last
}

/// Begins, ends and shows so often on two buffers of these sides.
fn begins(alloc: Global, w: u16, h: u16, rounds: u32) -> Option<u32>
    requires width { (1 ≤ w) × (w ≤ 1024) }
    requires height { (1 ≤ h) × (h ≤ 768) }
    requires rounds { rounds ≤ MOST }
{
    let mut buffers = Buffers::open_alone(alloc, w, h, 2).ok()?;
    Some(begin(&mut buffers, rounds))
}

/// Copies all rows so often from one frame of these sides to another.
fn copies(alloc: Global, w: u16, h: u16, rounds: u32) -> Option<u32>
    requires width { (1 ≤ w) × (w ≤ 1024) }
    requires height { (1 ≤ h) × (h ≤ 768) }
{
    let from = Frame::new(alloc, w, h).ok()?;
    let mut to = Frame::new(alloc, w, h).ok()?;
    for _ in 0..rounds {
        for y in 0..h {
            to.copy_span(&from, y, 0, w - 1);
        }
    }
    Some(to.get(0, 0).value())
}

/// Does what the name says so often. `None` where memory runs out or it is no name.
fn measure(rt: &(impl Threads + Sync), alloc: Global, name: &str, rounds: u32) -> Option<u32>
    requires { rounds ≤ MOST }
{
    let (mut drawer, mut controller) = flip::open(alloc, 3).ok()?;
    match name {
        "look" => Some(look(&mut drawer, rounds)),
        "post" => Some(post(&mut drawer, rounds)),
        "tick" => Some(tick(&mut controller, rounds)),
        "look-beside" => {
            let both = join(
                rt,
                move || tick(&mut controller, rounds),
                move || look(&mut drawer, rounds),
            );
            Some(both.1)
        }
        "post-beside" => {
            let both = join(
                rt,
                move || tick(&mut controller, rounds),
                move || post(&mut drawer, rounds),
            );
            Some(u32::from(both.0 <= rounds))
        }
        "begin" => begins(alloc, WIDTH, HEIGHT, rounds),
        "copy" => copies(alloc, WIDTH, HEIGHT, rounds),
        _ => None,
    }
}

/// What the words ask for, and how often. `None` where they are others.
fn words(rt: &HostRuntime) -> Option<(String, u32)>
    ensures { IfSome result (λ asked. asked.1 ≤ MOST) }
{
    let mut words = env::args(rt).ok()?.skip(1);
    let name = words.next()?;
    let rounds = words.next()?.parse::<u32>().ok()?;
    if rounds > MOST {
        return None;
    }
    Some((name, rounds))
}

fn main(rt: HostRuntime) -> ExitCode {
    let Some((name, rounds)) = words(&rt) else {
        return ExitCode::from(2);
    };
    let Some(told) = measure(&rt, rt.alloc(), name.as_str(), rounds) else {
        return ExitCode::from(2);
    };
    match println!(rt; "{told}") {
        Ok(()) => ExitCode::from(0),
        Err(_) => ExitCode::from(1),
    }
}
