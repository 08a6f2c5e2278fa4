//! The core as its callers see it: the history of its calls, and what these come to.

ghost use Rattle.std.specs.Prelude.{◌≡◌, ◌+◌, ◌<◌, ◌≤◌, [], ◌∷◌, ◌++◌, vec_capacity, true, false, is_some, length, IsTrue, IfOk, OnErr};
ghost use Rattle.paint_ops.specs.Soundness.{IsSound};
ghost use Rattle.multibuf.specs.Screens.{number_waiting};
ghost use Rattle.calls.specs.Actors.{fits};
ghost use Rattle.desk.specs.Setups.{painter};
ghost use Rattle.desk.specs.Desks.{is_want_of_memory};
ghost use Rattle.surfaces.specs.Turns.{waiting_count};
ghost use Rattle.engine.specs.Machines.{IsConfig};
ghost use Rattle.gui_core.specs.Histories.{mark_of};

use calls::{Ask, Call, Config, Entry, Refusal, Reply};
use engine::Engine;
use flip::Controller;
use frame::Frame;
use gfx_base::Memory;
use paint_ops::Assets;
use scene::Stack;
use std::alloc::Global;
use std::marker::Model;

/// The core of one screen. Contracts see what it was opened with, and the history of its calls and
/// of the switches that its display made: all else is what these come to, one after the other.
/// Besides, they see what it knows of its display.
#[derive(Drop)]
pub struct Gui {
    engine: Engine,
    history: Vec<Entry>,
}

impl Model for Gui {
    ghost use Rattle.std.specs.Prelude.{vec_capacity};
    ghost use Rattle.gui_core.specs.Histories.{Core, IsCore};

    ghost Value = { Core };

    ghost view = { λ g. record {
      chronicle = record { setup = g.engine.setup; history = g.history.items };
      drawer = g.engine.drawer;
    } };

    ghost invariant = { λ g. IsCore g.engine g.history.items (vec_capacity g.history) };
}

/// Enters an entry, for which there is room.
fn enter(history: &mut Vec<Entry>, entry: Entry)
    requires { length history.old.items < vec_capacity history.old }
    ensures items { history.new.items ≡ history.old.items ++ entry ∷ [] }
    ensures capacity { vec_capacity history.new ≡ vec_capacity history.old }
{
    // The prover asks that a body names the types that an entry holds.
    let _: Option<Call> = None;
    history.push_reserved(entry);
}

/// Enters the mark of a switch, if there is one, for which there is room.
fn enter_mark(history: &mut Vec<Entry>, mark: Option<u32>)
    requires { length history.old.items + waiting_count mark ≤ vec_capacity history.old }
    ensures items { history.new.items ≡ history.old.items ++ mark_of mark }
    ensures capacity { vec_capacity history.new ≡ vec_capacity history.old }
{
    if let Some(switch) = mark {
        enter(history, Entry::Shown { switch });
    }
}

impl Gui {
    ghost use Rattle.flip.specs.Controllers.{new_showing};
    ghost use Rattle.flip.specs.Drawers.{after_own_tick};
    ghost use Rattle.gui_core.specs.Histories.{starting, state_of, refused_of, is_full, says_full, is_entered, IsLegal, Looked, RecordsCall, Answers, MayMakeDevice, ticked, answer_to};

    /// The desktop alone, which is invalid, on black buffers, and an empty history; and the side of
    /// the display that shows, which may be on another thread. What windows paint with is sound and
    /// has a class 0, in whose place comes the desktop's: the configuration's colour alone. The
    /// screen has from 1 by 1 to 1,024 by 768 points, and from 1 to 3 buffers. Refused for want of
    /// memory alone; no later call takes any but the one that makes a device.
    pub fn open(alloc: Global, assets: Assets, config: Config) -> Result<(Gui, Controller), Memory>
        requires config { IsConfig config }
        requires assets { IsSound assets }
        requires desktop { 1 ≤ length assets.classes }
        ensures core { IfOk result (λ sides. sides.0 ≡ starting false assets config) }
        ensures controller { IfOk result (λ sides. sides.1 ≡ new_showing config.buffers) }
    {
        let Ok(history) = Vec::with_capacity(alloc, 2 * config.calls as usize) else {
            return Err(Memory);
        };
        let (engine, controller) = Engine::open(alloc, assets, config)?;
        Ok((Gui { engine, history }, controller))
    }

    /// The same as its own display, which shows what waits by `tick` alone.
    pub fn open_alone(alloc: Global, assets: Assets, config: Config) -> Result<Gui, Memory>
        requires config { IsConfig config }
        requires assets { IsSound assets }
        requires desktop { 1 ≤ length assets.classes }
        ensures { IfOk result (λ gui. gui ≡ starting true assets config) }
    {
        let Ok(history) = Vec::with_capacity(alloc, 2 * config.calls as usize) else {
            return Err(Memory);
        };
        let engine = Engine::open_alone(alloc, assets, config)?;
        Ok(Gui { engine, history })
    }

    /// All calls that were made, in order, each with its actor, and between them a mark for each
    /// switch that was made. They are one legal sequence: each actor may make its calls, each mark
    /// stands where its switch waits, and there are no more calls than the core was opened for.
    pub fn history(&self) -> &[Entry]
        ensures entries { result.now ≡ self.now.chronicle.history }
        ensures legal { IsLegal self.now.chronicle }
    {
        self.history.as_slice()
    }

    /// The history alone.
    pub fn into_history(self) -> Vec<Entry>
        ensures entries { result.items ≡ self.chronicle.history }
        ensures legal { IsLegal self.chronicle }
    {
        let Gui { engine: _, history } = self;
        history
    }

    /// The picture that is shown.
    pub fn shown(&self) -> &Frame
        ensures { result.now.picture ≡ (state_of self.now.chronicle).screen.shown }
    {
        self.engine.shown()
    }

    /// Puts the windows, from back to front, into `out`.
    pub fn windows(&self, out: &mut Stack)
        ensures { out.new.items ≡ (state_of self.now.chronicle).windows }
    {
        out.clear();
        // Both hold as many, so this can't fail.
        let copied = out.try_extend_from_slice(self.engine.windows()).is_ok();
        prove!(copied);
    }

    /// What windows paint with.
    pub fn assets(&self) -> &Assets
        ensures { result.now ≡ self.now.chronicle.setup.assets }
    {
        self.engine.assets()
    }

    /// How many calls of the history were refused.
    pub fn refused(&self) -> u32
        ensures { result ≡ refused_of self.now.chronicle }
    {
        self.engine.refused()
    }

    /// The painter's picture of the windows, apart from any buffer.
    pub fn into_painted(self) -> Frame
        ensures { let c = self.chronicle in
            result.picture ≡ painter c.setup (state_of c).windows }
    {
        let Gui { engine, history: _ } = self;
        engine.into_painted()
    }

    /// The display shows what waits, and its mark is the history's last entry. Tells whether
    /// anything waited; else nothing changes. The core was opened alone.
    pub fn tick(&mut self) -> bool
        requires { IsTrue self.old.drawer.alone }
        ensures waited { result
            ≡ is_some (number_waiting (state_of self.old.chronicle).screen) }
        ensures entered { self.new.chronicle ≡ ticked self.old.chronicle }
        ensures drawer { self.new.drawer ≡ after_own_tick self.old.drawer self.new.drawer.found }
        ensures alone { self.new.drawer.alone ≡ self.old.drawer.alone }
    {
        let shown = self.engine.tick();
        enter_mark(&mut self.history, shown);
        shown.is_some()
    }

    /// Looks at the display, and enters the mark of the switch that was confirmed since, if one
    /// was. A core that was opened alone finds none.
    pub fn look(&mut self)
        ensures { Looked self.old self.new }
    {
        let seen = self.engine.look();
        enter_mark(&mut self.history, seen);
    }

    /// Looks at the display, and tells whether what is asked for holds.
    pub fn ask(&mut self, ask: Ask) -> bool
        ensures looked { Looked self.old self.new }
        ensures answer { result ≡ answer_to ask self.new.chronicle.setup.config.buffers
            (state_of self.new.chronicle).screen }
    {
        self.look();
        match ask {
            Ask::Free => self.engine.is_free(),
            Ask::Still => self.engine.is_still(),
        }
    }

    /// Whether as many calls were made as the core was opened for.
    fn is_full(&self) -> bool
        ensures { result ≡ is_full self.now.chronicle }
    {
        self.engine.made() >= self.engine.most_calls()
    }

    /// Makes a call of an actor whose number is one of a task, and enters it. Fewer calls were made
    /// than the core was opened for.
    fn make(&mut self, alloc: Global, actor: u16, call: &Call) -> Result<Reply, Memory>
        requires fits { fits call.now actor ≡ true }
        requires room { is_full self.old.chronicle ≡ false }
        ensures made { IfOk result (λ reply. RecordsCall self.old actor call.now self.new reply) }
        ensures unmade { OnErr result (self.new ≡ self.old) }
        ensures device { OnErr result (MayMakeDevice self.old.chronicle actor call.now) }
    {
        let reply = self.engine.apply(alloc, actor, call)?;
        let found = self.engine.take_mark();
        enter_mark(&mut self.history, found);
        enter(
            &mut self.history,
            Entry::Call {
                actor,
                call: call.copy(),
            },
        );
        Ok(reply)
    }

    /// Looks at the display, makes a call of an actor who may make it, enters it into the history,
    /// and gives its reply: that of the step at its place. A refused call changes nothing but the
    /// history, of which it is a part too. At most one mark, which the look or the call's end
    /// enters, stands before it.
    ///
    /// Two replies tell that the call wasn't made and isn't entered, and then nothing changes but
    /// by the look. `Full` comes just where as many calls were made as the core was opened for.
    /// `Memory` comes where there is none for a device, though nothing else is held against it. No
    /// other call takes memory, and none of today gives bytes into `_room`.
    pub fn apply(&mut self, alloc: Global, actor: u16, call: &Call, _room: &mut Vec<u8>) -> Reply
        requires fits { fits call.now actor ≡ true }
        ensures full { says_full result ≡ is_full self.old.chronicle }
        ensures answers { is_entered result ≡ true
            → Answers self.old actor call.now self.new result }
        ensures left_out { is_entered result ≡ false → Looked self.old self.new }
        ensures unmade { is_want_of_memory result ≡ true
            → MayMakeDevice self.new.chronicle actor call.now }
        ensures alone { self.new.drawer.alone ≡ self.old.drawer.alone }
        ensures bytes { _room.new ≡ _room.old }
    {
        self.look();
        if self.is_full() {
            return Reply::Refused(Refusal::Full);
        }
        match self.make(alloc, actor, call) {
            Ok(answer) => answer,
            Err(Memory) => Reply::Refused(Refusal::Memory),
        }
    }
}
