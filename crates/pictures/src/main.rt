//! Plays and paints scripts up to each call that paints all, and counts how often the shown picture
//! isn't the painter's: each kind of call alone and after each other one, and random scripts. The
//! words are numbers of random scripts, each followed by how many calls each of these has.
#![tactic(auto)]

mod chains;
mod looks;
mod random;

use crate::looks::Looks;
use std::alloc::Global;
use std::env;
use std::process::ExitCode;

/// What is seen of random scripts, as many of as many calls as the words say. `None` where memory
/// runs out, the words are others, or a command fails.
fn look_at_random(rt: &HostRuntime) -> Option<Looks> {
    let mut looks = Looks::none();
    let mut words = env::args(rt).ok()?.skip(1);
    while let Some(scripts) = words.next() {
        let scripts = scripts.parse::<u16>().ok()?;
        let calls = words.next()?.parse::<u16>().ok()?;
        looks = random::look_at_all(rt.alloc(), scripts, calls, looks)?;
    }
    Some(looks)
}

fn show(rt: &HostRuntime, name: &str, looks: Option<Looks>) -> bool {
    let Some(Looks { count, differing }) = looks else {
        return false;
    };
    println!(rt; "{name} {count} differing {differing}").is_ok()
}

fn main(rt: HostRuntime) -> ExitCode {
    let alloc: Global = rt.alloc();
    let shown = show(&rt, "alone", chains::look_at_each(alloc))
        && show(&rt, "pairs", chains::look_at_pairs(alloc))
        && show(&rt, "random", look_at_random(&rt));
    ExitCode::from(u8::from(!shown))
}
