//! Takes a lock and gives it up, again and again, so that `bench/lock` can time it. The words are
//! what is done and how often: `bare` makes calls on a value without a lock, `single` takes the
//! lock for each call, `nested` takes it within a lock that is held, and `two` and `four` do as
//! `single` on so many threads at once.
#![tactic(auto)]

mod tally;

ghost use Rattle.std.specs.Prelude.{◌≡◌, ◌≤◌, ◌<◌, length, IfSome};
ghost use Rattle.gui_lock.specs.Passes.{Locked, Held, IsOf};

use crate::tally::Tally;
use gui_lock::{GuiLock, Kept, Pass};
use std::alloc::Global;
use std::env;
use std::process::ExitCode;
use std::sync::Wait;
use std::thread::{Threads, join};

const CALL: u8 = 7;

/// Makes calls on a value that is under no lock, and counts them.
fn bare(alloc: Global, rounds: u32) -> Option<usize> {
    let mut tally = Tally::new(alloc).ok()?;
    let mut room = 0;
    for _ in 0..rounds {
        let _ = tally.apply(1, &CALL, &mut room);
    }
    Some(tally.len())
}

/// Takes the lock for each call.
fn single<R: Wait>(rt: &R, lock: &GuiLock<Tally>, mut pass: Pass<Tally>, rounds: u32) -> Pass<Tally>
    requires { IsOf lock.now pass }
    ensures { IsOf lock.now result }
{
    let mut room = 0;
    for _ in 0..rounds {
        let _ = pass.lock(rt, lock);
        let _ = pass.apply(lock, &CALL, &mut room);
        let _ = pass.unlock(lock);
    }
    pass
}

/// Takes the lock for each call, within a lock that it holds.
fn nested<R: Wait>(rt: &R, lock: &GuiLock<Tally>, mut pass: Pass<Tally>, rounds: u32) -> Pass<Tally>
    requires { IsOf lock.now pass }
    ensures { IsOf lock.now result }
{
    let _ = pass.lock(rt, lock);
    let mut pass = single(rt, lock, pass, rounds);
    let _ = pass.unlock(lock);
    pass
}

/// The passes of two threads.
type Pair = (Pass<Tally>, Pass<Tally>);

/// Takes the lock for each call, on two threads.
fn two<R: Threads + Wait + Sync>(rt: &R, lock: &GuiLock<Tally>, passes: Pair, rounds: u32) -> Pair
    requires { IsOf lock.now passes.0 × IsOf lock.now passes.1 }
    ensures { IsOf lock.now result.0 × IsOf lock.now result.1 }
{
    let (one, other) = passes;
    join(
        rt,
        || -> Pass<Tally>
            requires { IsOf lock.now one }
            ensures { IsOf lock.entry.now result }
        { single(rt, lock, one, rounds) },
        || -> Pass<Tally>
            requires { IsOf lock.now other }
            ensures { IsOf lock.entry.now result }
        { single(rt, lock, other, rounds) },
    )
}

/// Takes the lock for each call, on four threads. Gives the first two passes back.
fn four<R: Threads + Wait + Sync>(
    rt: &R,
    lock: &GuiLock<Tally>,
    first: Pair,
    second: Pair,
    rounds: u32,
) -> Pair
    requires first { IsOf lock.now first.0 × IsOf lock.now first.1 }
    requires second { IsOf lock.now second.0 × IsOf lock.now second.1 }
    ensures { IsOf lock.now result.0 × IsOf lock.now result.1 }
{
    let (passes, _) = join(
        rt,
        || -> Pair
            requires { IsOf lock.now first.0 × IsOf lock.now first.1 }
            ensures { IsOf lock.entry.now result.0 × IsOf lock.entry.now result.1 }
        { two(rt, lock, first, rounds) },
        || -> Pair
            requires { IsOf lock.now second.0 × IsOf lock.now second.1 }
            ensures { IsOf lock.entry.now result.0 × IsOf lock.entry.now result.1 }
        { two(rt, lock, second, rounds) },
    );
    passes
}

/// A lock round no calls, with four passes.
fn open_four(alloc: Global) -> Option<(GuiLock<Tally>, Pair, Pair)>
    ensures first { IfSome result (λ r. IsOf r.0 r.1.0 × IsOf r.0 r.1.1) }
    ensures second { IfSome result (λ r. IsOf r.0 r.2.0 × IsOf r.0 r.2.1) }
{
    let tally = Tally::new(alloc).ok()?;
    let Ok((lock, mut passes)) = GuiLock::open(alloc, tally, 4) else {
        return None;
    };
    let (Some(d), Some(c), Some(b), Some(a)) = (
        passes.pop(),
        passes.pop(),
        passes.pop(),
        passes.pop(),
    ) else {
        unreachable!()
    };
    passes.destroy_empty();
    Some((lock, (a, b), (c, d)))
}

/// Does under a lock what the name says, and gives a pass back.
fn locked<R: Threads + Wait + Sync>(
    rt: &R,
    lock: &GuiLock<Tally>,
    name: &str,
    first: Pair,
    second: Pair,
    rounds: u32,
) -> Option<Pass<Tally>>
    requires first { IsOf lock.now first.0 × IsOf lock.now first.1 }
    requires second { IsOf lock.now second.0 × IsOf lock.now second.1 }
    ensures { IfSome result (λ pass. IsOf lock.now pass) }
{
    if name == "four" {
        return Some(four(rt, lock, first, second, rounds).0);
    }
    if name == "two" {
        return Some(two(rt, lock, first, rounds).0);
    }
    let (pass, _other) = first;
    if name == "nested" {
        return Some(nested(rt, lock, pass, rounds));
    }
    if name == "single" {
        return Some(single(rt, lock, pass, rounds));
    }
    None
}

/// The words: what is done, and how often.
fn asked(rt: &HostRuntime) -> Option<(String, u32)> {
    let mut words = env::args(rt).ok()?.skip(1);
    let name = words.next()?;
    let rounds = words.next()?.parse::<u32>().ok()?;
    Some((name, rounds))
}

/// Does what the name says, and counts the calls. `None` where memory runs out or there is no such
/// name.
fn run<R: Threads + Wait + Sync>(rt: &R, alloc: Global, name: &str, rounds: u32) -> Option<usize> {
    if name == "bare" {
        return bare(alloc, rounds);
    }
    let (lock, first, second) = open_four(alloc)?;
    let mut pass = locked(rt, &lock, name, first, second, rounds)?;
    let _ = pass.lock(rt, &lock);
    Some(pass.len_seen())
}

fn main(rt: HostRuntime) -> ExitCode {
    let Some((name, rounds)) = asked(&rt) else {
        return ExitCode::from(2);
    };
    let Some(count) = run(&rt, rt.alloc(), name.as_str(), rounds) else {
        return ExitCode::from(2);
    };
    match println!(rt; "{count}") {
        Ok(()) => ExitCode::from(0),
        Err(_) => ExitCode::from(1),
    }
}
