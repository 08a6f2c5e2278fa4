//! Makes calls on windows that lie in one another again and again, so that they can be timed, or
//! changes a bar below a window that is seen through and paints it. The words are what is done,
//! with how many windows, and how often.
#![tactic(auto)]

use calls::Call;
use sessions::{MOST_CALLS, Session};
use std::alloc::Global;
use std::env;
use std::process::ExitCode;

/// The first class has a bar, adds a message's argument to its value, and hands the message on. One
/// sees through the second.
const HEADER: &str = "mtgui 1\nscreen 1024 768\nbuffers 1\ndesktop 000000\nclass 1 0000FF\n\
    fill 0 0 v0 11 FF0000\non 0 add 0 a\non 0 up 0\nend\nclass 2 -\n\
    frame 0 0 w-1 h-1 FFFFFF\nhline 0 w-1 6 FFFFFF\nend\n";

/// Makes so many windows, in chains of seven that lie in one another on the desktop.
fn fill(alloc: Global, session: &mut Session, windows: u32) {
    for last in 1..windows {
        let parent = if (last - 1) % 7 == 0 { 1 } else { last };
        session.call(alloc, &create(parent, (100, 100), 1));
    }
}

/// Makes a bar of 100 by 12 points and lays a window that is seen through over it.
fn lay_bar(alloc: Global, session: &mut Session) {
    session.call(alloc, &create(1, (100, 12), 1));
    session.call(alloc, &create(1, (200, 40), 2));
    session.call(alloc, &Call::Exec);
}

/// Makes both calls in turn, so often together, and tells the sum of the windows' values.
fn repeat(alloc: Global, session: &mut Session, first: &Call, second: &Call, rounds: u32) -> i32 {
    for round in 0..rounds {
        let call = if round % 2 == 0 { first } else { second };
        session.call(alloc, call);
    }
    let mut sum = 0i32;
    for w in session.windows().iter() {
        sum = sum.wrapping_add(i32::from(w.values[0]));
    }
    sum
}

fn create(parent: u32, (w, h): (u16, u16), class: u8) -> Call {
    Call::Create {
        parent,
        x: 1,
        y: 1,
        w,
        h,
        class,
    }
}

fn set_value(h: u32, value: i16) -> Call {
    Call::SetValue { h, index: 0, value }
}

fn send(h: u32, argument: i16) -> Call {
    Call::Send {
        h,
        message: 0,
        argument,
    }
}

/// The deepest window of the last chain of seven, or the last of all where no chain has as many.
fn deepest(windows: u32) -> u32 {
    let chains = windows.saturating_sub(1) / 7;
    if chains == 0 {
        windows
    } else {
        chains.wrapping_mul(7).wrapping_add(1)
    }
}

/// Does what the name says so often, and tells the sum of the windows' values. `None` where memory
/// runs out or it is no name.
fn measure(alloc: Global, name: &str, windows: u32, rounds: u32) -> Option<i32> {
    let mut session = Session::open(alloc, HEADER, MOST_CALLS)?;
    fill(alloc, &mut session, windows);
    let h = deepest(windows);
    let (first, second) = match name {
        "refused" => (set_value(0, 1), set_value(0, 2)),
        "set_value" => (set_value(h, 1), set_value(h, 2)),
        "same_value" => (set_value(h, 1), set_value(h, 1)),
        "send" => (send(h, 1), send(h, -1)),
        "bar" => {
            lay_bar(alloc, &mut session);
            (send(2, 1), Call::Exec)
        }
        _ => return None,
    };
    Some(repeat(alloc, &mut session, &first, &second, rounds))
}

/// What the words ask for. `None` where they are others.
fn asked(rt: &HostRuntime) -> Option<(String, u32, u32)> {
    let mut words = env::args(rt).ok()?.skip(1);
    let name = words.next()?;
    let windows = words.next()?.parse::<u32>().ok()?;
    let rounds = words.next()?.parse::<u32>().ok()?;
    Some((name, windows, rounds))
}

fn main(rt: HostRuntime) -> ExitCode {
    let Some((name, windows, rounds)) = asked(&rt) else {
        return ExitCode::from(2);
    };
    let Some(sum) = measure(rt.alloc(), name.as_str(), windows, rounds) else {
        return ExitCode::from(2);
    };
    match println!(rt; "{sum}") {
        Ok(()) => ExitCode::from(0),
        Err(_) => ExitCode::from(1),
    }
}
