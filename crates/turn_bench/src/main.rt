//! Makes calls on twelve windows of a screen of 320 by 240 points, paints what they change and
//! shows it, or begins and ends alone, so that it can be timed. The words are what is done, with
//! how many buffers, and how often.
#![tactic(auto)]

use calls::{Call, Reply};
use sessions::{MOST_CALLS, Session};
use std::alloc::{AllocError, Global};
use std::env;
use std::process::ExitCode;

/// The lines of the header before and after the number of buffers. The class has a bar.
const SCREEN: &str = "mtgui 1\nscreen 320 240\n";

const CLASSES: &str = "desktop 102030\nclass 1 204060\nfill 1 1 v0 h-2 F0A040\nend\n";

/// How many windows there are beside the desktop.
const WINDOWS: u32 = 12;

/// A screen with windows, and how many jobs painted them.
#[derive(Drop)]
struct Panel {
    session: Session,
    jobs: u32,
}

fn header(alloc: Global, buffers: u8) -> Result<String, AllocError> {
    let mut header = String::from_str(alloc, SCREEN)?;
    writeln!(&mut header, "buffers {buffers}")?;
    header.push_str(CLASSES)?;
    Ok(header)
}

impl Panel {
    /// A screen with the desktop alone.
    fn open(alloc: Global, buffers: u8) -> Option<Panel> {
        let header = header(alloc, buffers).ok()?;
        let session = Session::open(alloc, &header, MOST_CALLS)?;
        Some(Panel { session, jobs: 0 })
    }

    /// Makes a call, where there is room for one more.
    fn call(&mut self, alloc: Global, call: &Call) {
        if let Reply::Jobs(jobs) = self.session.call(alloc, call) {
            self.jobs = self.jobs.saturating_add(u32::from(jobs));
        }
    }

    /// Paints what is invalid and shows it.
    fn show(&mut self, alloc: Global) {
        self.call(alloc, &Call::Exec);
        self.session.tick();
    }

    /// Makes the windows side by side, of 40 by 20 points, and paints them.
    fn fill(&mut self, alloc: Global) {
        for _ in 0..WINDOWS {
            let create = Call::Create {
                parent: 1,
                x: 100,
                y: 100,
                w: 40,
                h: 20,
                class: 1,
            };
            self.call(alloc, &create);
        }
        for i in 0..WINDOWS {
            let apart = Call::MoveBy {
                h: 2 + i,
                dx: (i % 4) as i16 * 60 - 80,
                dy: (i / 4) as i16 * 60 - 80,
            };
            self.call(alloc, &apart);
        }
        self.show(alloc);
    }

    /// Seven calls: a window moves, is raised, and two get other values, and all is painted and
    /// shown.
    fn mix(&mut self, alloc: Global, round: u32) {
        let h = 2 + round % WINDOWS;
        let other = 2 + (round % WINDOWS + 5) % WINDOWS;
        let away = if round / WINDOWS % 2 == 0 { 7 } else { -7 };
        let value = (round % 38) as i16;
        self.call(alloc, &Call::MoveBy { h, dx: away, dy: 2 });
        self.call(alloc, &Call::ToTop { h });
        self.call(alloc, &set_value(h, value));
        self.call(alloc, &Call::MoveBy { h, dx: 0, dy: -2 });
        self.call(alloc, &set_value(other, value));
        self.call(alloc, &Call::ToTop { h: other });
        self.show(alloc);
    }

    /// The same calls, of which none is painted.
    fn change(&mut self, alloc: Global, round: u32) {
        let h = 2 + round % WINDOWS;
        let away = if round / WINDOWS % 2 == 0 { 7 } else { -7 };
        let value = (round % 38) as i16;
        self.call(alloc, &Call::MoveBy { h, dx: away, dy: 2 });
        self.call(alloc, &Call::ToTop { h });
        self.call(alloc, &set_value(h, value));
        self.call(alloc, &Call::MoveBy { h, dx: 0, dy: -2 });
    }

    /// A begin and its end, and what was begun is shown.
    fn turn(&mut self, alloc: Global) {
        self.call(alloc, &Call::Begin);
        self.call(alloc, &Call::End);
        self.session.tick();
    }
}

fn set_value(h: u32, value: i16) -> Call {
    Call::SetValue { h, index: 0, value }
}

/// Does what the name says so often, and tells how many jobs that took. `None` where memory runs
/// out or it is no name.
fn measure(alloc: Global, name: &str, buffers: u8, rounds: u32) -> Option<u32> {
    let mut panel = Panel::open(alloc, buffers)?;
    panel.fill(alloc);
    match name {
        "mix" => {
            for round in 0..rounds {
                panel.mix(alloc, round);
            }
        }
        "change" => {
            for round in 0..rounds {
                panel.change(alloc, round);
            }
        }
        "turn" => {
            for _ in 0..rounds {
                panel.turn(alloc);
            }
        }
        _ => return None,
    }
    Some(panel.jobs)
}

/// What the words ask for. `None` where they are others.
fn asked(rt: &HostRuntime) -> Option<(String, u8, u32)> {
    let mut words = env::args(rt).ok()?.skip(1);
    let name = words.next()?;
    let buffers = words.next()?.parse::<u8>().ok()?;
    let rounds = words.next()?.parse::<u32>().ok()?;
    Some((name, buffers, rounds))
}

fn main(rt: HostRuntime) -> ExitCode {
    let Some((name, buffers, rounds)) = asked(&rt) else {
        return ExitCode::from(2);
    };
    let Some(jobs) = measure(rt.alloc(), name.as_str(), buffers, rounds) else {
        return ExitCode::from(2);
    };
    match println!(rt; "{jobs}") {
        Ok(()) => ExitCode::from(0),
        Err(_) => ExitCode::from(1),
    }
}
