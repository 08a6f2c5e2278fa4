//! A core whose display is stepped by its own side, in turns and at once.

use crate::told::told;
use calls::{Ask, Call, Config, Entry, Refusal, Reply};
use flip::Controller;
use gfx_base::Colour;
use gui_core::Gui;
use script::{Script, read};
use sessions::points_of;
use std::alloc::Global;
use std::marker::Model;
use std::test::*;
use std::thread::join;

/// The task that makes the calls.
const TASK: u16 = 1;

/// How often each side steps where both step at once.
const ROUNDS: u32 = 5_000;

/// A core whose calls one task makes. Contracts see nothing of it, so that many calls in a row are
/// as cheap to prove as one.
#[derive(Drop)]
struct Sided {
    gui: Gui,
}

impl Model for Sided {
    ghost Value = { Unit {0} };

    ghost view = { λ s. tt };
}

impl Sided {
    /// The core that the header of a script opens, for so many calls that each round may make two,
    /// and its display's side.
    fn open(alloc: Global, header: &str) -> Result<(Sided, Controller), Fail> {
        let Script {
            config,
            assets,
            lines: _,
        } = read(alloc, header.as_bytes())?;
        let config = Config {
            calls: 2 * ROUNDS,
            ..config
        };
        let (gui, controller) = Gui::open(alloc, assets, config)?;
        Ok((Sided { gui }, controller))
    }

    fn call(&mut self, alloc: Global, call: &Call) -> Reply {
        let mut taken = Vec::new(alloc);
        self.gui.apply(alloc, TASK, call, &mut taken)
    }

    fn look(&mut self) {
        self.gui.look();
    }

    fn ask(&mut self, ask: Ask) -> bool {
        self.gui.ask(ask)
    }

    fn history(&self) -> &[Entry] {
        self.gui.history()
    }

    /// Whether the first point that is shown has this colour.
    fn shows(&self, alloc: Global, value: u32) -> bool {
        match points_of(alloc, self.gui.shown()) {
            Ok(points) => points.first().map(Colour::value) == Some(value),
            Err(_) => false,
        }
    }
}

/// Whether a buffer is free and no switch waits.
fn is_idle(core: &mut Sided) -> bool {
    core.ask(Ask::Free) && core.ask(Ask::Still)
}

/// Whether neither is so.
fn is_waiting(core: &mut Sided) -> bool {
    !core.ask(Ask::Free) && !core.ask(Ask::Still)
}

/// Whether the desktop is painted and isn't shown, since its switch waits, which a begin is refused
/// for.
fn waits(alloc: Global, core: &mut Sided) -> bool {
    matches!(core.call(alloc, &Call::Exec), Reply::Jobs(1))
        && is_waiting(core)
        && core.shows(alloc, 0)
        && matches!(
            core.call(alloc, &Call::Begin),
            Reply::Refused(Refusal::Waiting(1))
        )
}

/// Whether the switch that was made is known by a look, and not before.
fn is_known_by_a_look(alloc: Global, core: &mut Sided) -> bool {
    let unknown = core.history().len() == 2;
    core.look();
    core.look();
    unknown && core.shows(alloc, 0xFF) && is_idle(core)
}

/// Whether a begin and its end are done.
fn turns(alloc: Global, core: &mut Sided) -> bool {
    matches!(core.call(alloc, &Call::Begin), Reply::Done)
        && matches!(core.call(alloc, &Call::End), Reply::Done)
}

/// Whether each step of both sides is as told, in turns.
fn steps_in_turns(alloc: Global, core: &mut Sided, controller: &mut Controller) -> bool {
    is_idle(core)
        && controller.tick().is_none()
        && waits(alloc, core)
        && controller.tick().is_some()
        && is_known_by_a_look(alloc, core)
        && turns(alloc, core)
        && controller.tick().is_some()
}

#[test]
fn a_switch_is_known_once_it_is_looked_for(rt: HostRuntime) -> Result<(), Fail> {
    let header = "mtgui 1\nscreen 1 1\nbuffers 2\ndesktop 0000FF\n";
    let (mut core, mut controller) = Sided::open(rt.alloc(), header)?;
    assert!(rt; steps_in_turns(rt.alloc(), &mut core, &mut controller));
    // A call looks first, and so what it finds stands before it.
    core.call(rt.alloc(), &Call::Scan);
    assert_eq!(rt;
        told(rt.alloc(), core.history())?.as_str(),
        "1 exec\n1 begin\nshown 1\n1 begin\n1 end\nshown 2\n1 scan\n"
    );
    Ok(())
}

/// Begins and ends as often as there are rounds, and tells how often it was let.
fn draw(alloc: Global, core: &mut Sided) -> u32 {
    let mut done = 0u32;
    for _ in 0..ROUNDS {
        if turns(alloc, core) {
            done = done.wrapping_add(1);
        }
    }
    core.look();
    done
}

/// Shows what waits, and tells how often anything did.
fn show(controller: &mut Controller) -> u32 {
    let mut shown = 0u32;
    for _ in 0..ROUNDS {
        if controller.tick().is_some() {
            shown = shown.wrapping_add(1);
        }
    }
    shown
}

/// How many marks a history has, and how many of them name no later switch than the one before.
fn marks_in(history: &[Entry]) -> (u32, u32) {
    let (mut count, mut disordered, mut last) = (0u32, 0u32, 0u32);
    for entry in history {
        if let Entry::Shown { switch } = entry {
            count = count.wrapping_add(1);
            if *switch <= last {
                disordered = disordered.wrapping_add(1);
            }
            last = *switch;
        }
    }
    (count, disordered)
}

#[test]
fn each_switch_is_marked_once_while_both_sides_step(rt: HostRuntime) -> Result<(), Fail> {
    let header = "mtgui 1\nscreen 1 1\nbuffers 3\ndesktop 0000FF\n";
    let (mut core, mut controller) = Sided::open(rt.alloc(), header)?;
    let alloc = rt.alloc();
    let ((shown, mut controller), (mut core, done)) = join(
        &rt,
        move || {
            let shown = show(&mut controller);
            (shown, controller)
        },
        move || {
            let done = draw(alloc, &mut core);
            (core, done)
        },
    );
    assert_eq!(rt; done, ROUNDS);
    let more = u32::from(controller.tick().is_some());
    core.look();
    let (count, disordered) = marks_in(core.history());
    assert_eq!(rt; count, shown.wrapping_add(more));
    assert_eq!(rt; disordered, 0);
    Ok(())
}
