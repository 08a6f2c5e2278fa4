ghost use Rattle.std.specs.Prelude.{◌≡◌, ◌+◌, ◌<◌, ◌↔◌, ◌≤◌, [], length, IsErr, OnOk, OnErr};
ghost use Rattle.std.specs.Borrow.{sem};

use crate::context::Context;
use crate::own::Own;
use crate::refused::{ContextDepth, NoContext};
use arrayvec::ArrayVec;
use std::marker::Model;

/// How many tasks there are.
const TASKS: usize = 16;

/// The contexts of sixteen tasks, with numbers from 1 to 16. Each task has one that it draws
/// with, and at most 8 that it saved, of which the last one is given back first. They take no
/// memory beside their own room.
#[derive(Drop)]
pub struct Contexts {
    owned: ArrayVec<Own, TASKS>,
}

impl Model for Contexts {
    ghost use Rattle.std.specs.Prelude.{◌≡◌, List};
    ghost use Rattle.context.specs.Contexts.{Owned};
    ghost use Rattle.arrayvec.specs.ArrayVec.{array_vec_len};

    ghost Value = { List Owned };

    ghost view = { λ c. c.owned.items };

    ghost invariant = { λ c. array_vec_len c.owned ≡ 16 };
}

// The place of a task in the list.
fn place(task: u16) -> usize
    requires { (1 ≤ task) × (task ≤ 16) }
    ensures value { result + 1 ≡ task }
    ensures within { result < 16 }
{
    usize::from(task) - 1
}

impl Contexts {
    ghost use Rattle.context.specs.Contexts.{first_contexts, owned_by, with_saved, with_restored};
    ghost use Rattle.context.specs.Lending.{LendsContextOf};

    /// The contexts at the start, when no task has saved one.
    pub fn new() -> Contexts
        ensures { result ≡ first_contexts }
    {
        let mut owned = ArrayVec::new();
        for _ in 0..TASKS {
            owned.push(Own::default());
        }
        Contexts { owned }
    }

    /// What the task draws with. `task` is from 1 to 16.
    pub fn get(&self, task: u16) -> &Context
        requires task { (1 ≤ task) × (task ≤ 16) }
        ensures context { result.now ≡ (owned_by self.now task).context }
        ensures tasks { length self.now ≡ 16 }
    {
        self.owned[place(task)].context()
    }

    /// What the task draws with, to be changed. `task` is from 1 to 16.
    pub fn get_mut(&mut self, task: u16) -> &mut Context
        requires task { (1 ≤ task) × (task ≤ 16) }
        ensures* written { sem 𝓛 (LendsContextOf self.entry task result) }
        ensures context { result.now ≡ (owned_by self.old task).context }
        ensures tasks { length self.old ≡ 16 }
    {
        match self.owned.get_mut(place(task)) {
            Some(own) => own.context_mut(),
            None => unreachable!(),
        }
    }

    /// Saves what the task draws with, and leaves it as it is. It is refused where the task has 8
    /// contexts saved. `task` is from 1 to 16.
    pub fn save(&mut self, task: u16) -> Result<(), ContextDepth>
        requires task { (1 ≤ task) × (task ≤ 16) }
        ensures refused { IsErr result ↔ (length (owned_by self.old task).saved ≡ 8) }
        ensures unchanged { OnErr result (self.new ≡ self.old) }
        ensures saved { OnOk result (self.new ≡ with_saved self.old task) }
        ensures tasks { length self.old ≡ 16 }
    {
        self.owned[place(task)].save()
    }

    /// Makes the context that the task saved last what it draws with. It is no longer saved. It is
    /// refused where the task has none saved. `task` is from 1 to 16.
    pub fn restore(&mut self, task: u16) -> Result<(), NoContext>
        requires task { (1 ≤ task) × (task ≤ 16) }
        ensures refused { IsErr result ↔ ((owned_by self.old task).saved ≡ []) }
        ensures unchanged { OnErr result (self.new ≡ self.old) }
        ensures restored { OnOk result (self.new ≡ with_restored self.old task) }
        ensures tasks { length self.old ≡ 16 }
    {
        self.owned[place(task)].restore()
    }
}
