//! A core that is its own display, whose calls one task makes: what tests and timed programs make
//! calls on. It tells of the core what the core tells, and contracts see nothing of it.
#![tactic(auto)]

use calls::{Call, Config, Entry, Reply};
use frame::Frame;
use gfx_base::Colour;
use gui_core::Gui;
use scene::Stack;
use script::{Script, read};
use std::alloc::{AllocError, Global};
use std::marker::Model;

/// The most calls that a session is opened for.
pub const MOST_CALLS: u32 = 400_000;

/// The task that makes the calls.
const TASK: u16 = 1;

/// A core that is its own display, whose calls one task makes.
#[derive(Drop)]
pub struct Session {
    gui: Gui,
}

impl Model for Session {
    ghost use Rattle.std.specs.Prelude.{IsTrue};

    ghost Value = { Unit {0} };

    ghost view = { λ s. tt };

    ghost invariant = { λ s. IsTrue s.gui.drawer.alone };
}

impl Session {
    /// The core that the header of a script opens, for so many calls, or 400,000 where that is
    /// less. `None` where it is no header, or memory runs out.
    pub fn open(alloc: Global, header: &str, calls: u32) -> Option<Session> {
        let Script {
            config,
            assets,
            lines: _,
        } = read(alloc, header.as_bytes()).ok()?;
        let config = Config {
            calls: calls.min(MOST_CALLS),
            ..config
        };
        Some(Session {
            gui: Gui::open_alone(alloc, assets, config).ok()?,
        })
    }

    /// Makes a call.
    pub fn call(&mut self, alloc: Global, call: &Call) -> Reply {
        let mut taken = Vec::new(alloc);
        self.gui.apply(alloc, TASK, call, &mut taken)
    }

    /// Lets the display show what waits, and tells whether anything did.
    pub fn tick(&mut self) -> bool {
        self.gui.tick()
    }

    /// The calls that were made, with their actors, and the switches.
    pub fn history(&self) -> &[Entry] {
        self.gui.history()
    }

    /// How many calls were refused.
    pub fn refused(&self) -> u32 {
        self.gui.refused()
    }

    /// The windows, from back to front.
    pub fn windows(&self) -> Stack {
        let mut windows = Stack::new();
        self.gui.windows(&mut windows);
        windows
    }

    /// The points of the shown picture, row by row.
    pub fn shown(&self, alloc: Global) -> Result<Vec<Colour>, AllocError> {
        points_of(alloc, self.gui.shown())
    }

    /// The points of the painter's picture, row by row.
    pub fn painted(self, alloc: Global) -> Result<Vec<Colour>, AllocError> {
        let Session { gui } = self;
        points_of(alloc, &gui.into_painted())
    }
}

/// The points of a picture, row by row.
pub fn points_of(alloc: Global, picture: &Frame) -> Result<Vec<Colour>, AllocError> {
    let mut points = Vec::new(alloc);
    for y in 0..picture.height() {
        points.extend_from_slice(picture.row(y))?;
    }
    Ok(points)
}
