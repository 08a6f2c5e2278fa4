//! The core as a script plays it.

ghost use Rattle.std.specs.Prelude.{◌≡◌, ◌≤◌, true, false, is_some, length, IfOk};
ghost use Rattle.paint_ops.specs.Soundness.{IsSound};
ghost use Rattle.multibuf.specs.Screens.{number_waiting};
ghost use Rattle.calls.specs.Actors.{fits};
ghost use Rattle.desk.specs.Setups.{painter};
ghost use Rattle.desk.specs.Desks.{is_want_of_memory};
ghost use Rattle.engine.specs.Machines.{IsConfig};
ghost use Rattle.gui_core.specs.Histories.{unwritten, state_of, refused_of, is_full, says_full, is_entered, IsLegal, Enters, MayMakeDevice, ticked};

use calls::{Call, Config, Entry, Reply};
use frame::Frame;
use gfx_base::Memory;
use gui_core::Gui;
use paint_ops::Assets;
use scene::Stack;
use std::alloc::Global;
use std::marker::Model;

/// A core that is its own display. Contracts see what it was opened with, and its history.
#[derive(Drop)]
pub struct Player {
    gui: Gui,
}

impl Model for Player {
    ghost use Rattle.std.specs.Prelude.{IsTrue};
    ghost use Rattle.gui_core.specs.Histories.{Chronicle};

    ghost Value = { Chronicle };

    ghost view = { λ p. p.gui.chronicle };

    ghost invariant = { λ p. IsTrue p.gui.drawer.alone };
}

impl Player {
    pub fn open(alloc: Global, assets: Assets, config: Config) -> Result<Player, Memory>
        requires config { IsConfig config }
        requires assets { IsSound assets }
        requires desktop { 1 ≤ length assets.classes }
        ensures { IfOk result (λ player. player ≡ unwritten assets config) }
    {
        let gui = Gui::open_alone(alloc, assets, config)?;
        Ok(Player { gui })
    }

    pub fn history(&self) -> &[Entry]
        ensures entries { result.now ≡ self.now.history }
        ensures legal { IsLegal self.now }
    {
        self.gui.history()
    }

    pub fn shown(&self) -> &Frame
        ensures { result.now.picture ≡ (state_of self.now).screen.shown }
    {
        self.gui.shown()
    }

    pub fn windows(&self, out: &mut Stack)
        ensures { out.new.items ≡ (state_of self.now).windows }
    {
        self.gui.windows(out);
    }

    pub fn refused(&self) -> u32
        ensures { result ≡ refused_of self.now }
    {
        self.gui.refused()
    }

    pub fn into_painted(self) -> Frame
        ensures { result.picture ≡ painter self.setup (state_of self).windows }
    {
        let Player { gui } = self;
        gui.into_painted()
    }

    pub fn tick(&mut self) -> bool
        ensures waited { result ≡ is_some (number_waiting (state_of self.old).screen) }
        ensures entered { self.new ≡ ticked self.old }
    {
        self.gui.tick()
    }

    /// Makes a call. Without room or memory for it nothing changes.
    pub fn apply(&mut self, alloc: Global, actor: u16, call: &Call, room: &mut Vec<u8>) -> Reply
        requires fits { fits call.now actor ≡ true }
        ensures full { says_full result ≡ is_full self.old }
        ensures answers { is_entered result ≡ true
            → Enters self.old actor call.now self.new result }
        ensures left_out { is_entered result ≡ false → self.new ≡ self.old }
        ensures unmade { is_want_of_memory result ≡ true
            → MayMakeDevice self.old actor call.now }
        ensures bytes { room.new ≡ room.old }
    {
        self.gui.apply(alloc, actor, call, room)
    }
}
