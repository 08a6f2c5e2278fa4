// Pairs of an actor and a number, in order.
ghost use Rattle.std.specs.Prelude.{⊤, ◌≡◌, ◌≤◌, [], false, vec_len, vec_capacity, length, nat_le, IfOk};

use gui_lock::{Entry, Kept};
use std::alloc::{AllocError, Global};

/// How many pairs there may be.
const MOST: usize = 4096;

/// From this number on memory is wanting for a call, as where a device can't be had.
pub const WANTING: u32 = 1_000_000;

#[derive(Clone, Copy, Debug, PartialEq, Eq)]
pub enum Answer {
    Added,
    Full,
    Memory,
}

impl Answer {
    ghost use Rattle.lock_tests.specs.Pairs.{is_added_lem};

    pub fn is_added(self) -> bool
        ensures { result ≡ is_added_lem self }
    {
        match self {
            Answer::Added => true,
            Answer::Full | Answer::Memory => false,
        }
    }
}

/// The pairs that were added.
#[derive(Drop)]
pub struct Pairs {
    entries: Vec<Entry<u32>>,
    ghost within: { vec_len entries ≤ 4096 },
    ghost reserved: { 4096 ≤ vec_capacity entries },
}

impl Pairs {
    pub fn new(alloc: Global) -> Result<Pairs, AllocError>
        ensures { IfOk result (λ pairs. pairs.entries.items ≡ []) }
    {
        Ok(Pairs {
            entries: Vec::with_capacity(alloc, MOST)?,
        })
    }

    pub fn entries(&self) -> &[Entry<u32>] {
        self.entries.as_slice()
    }
}

impl Kept for Pairs {
    ghost use Rattle.lock_tests.specs.Pairs.{is_wanting, may_want, adds};
    ghost use Rattle.std.proofs.Common.{rules};
    ghost use Rattle.std.proofs.lemmas.Grind.{common_steps};

    type Call = u32;

    type Reply = Answer;

    type Room = u8;

    type Ask = usize;

    type Kind = u8;

    ghost entries = { λ pairs. pairs.entries.items };

    ghost kind = { λ _. 0 };

    ghost may_apply = { λ _ _ _ _. ⊤ };

    ghost is_memory = { is_wanting };

    ghost may_want = { may_want };

    ghost gives = { λ _ _ _ room before. adds room before };

    ghost reach = { λ _. 0 };

    ghost answers = { λ _ least log. nat_le least (length log) };

    ghost short = { λ pairs. Prim.search (rules, common_steps) };

    fn len(&self) -> usize {
        self.entries.len()
    }

    fn apply(&mut self, actor: u16, call: &u32, _room: &mut u8) -> Answer {
        if *call >= WANTING {
            return Answer::Memory;
        }
        if self.entries.len() >= MOST {
            return Answer::Full;
        }
        self.entries.push_reserved(Entry::Made(actor, *call));
        Answer::Added
    }

    fn ask(&mut self, least: usize) -> bool {
        least <= self.entries.len()
    }
}
