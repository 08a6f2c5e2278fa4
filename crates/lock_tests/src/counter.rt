// A counter, at which each actor waits for its turn.
ghost use Rattle.std.specs.Prelude.{⊤, ◌≡◌, ◌≤◌, [], false, vec_len, vec_capacity, length, nat_eq, IfOk};

use gui_lock::{Entry, Kept};
use std::alloc::{AllocError, Global};

const MOST: usize = 100;

/// Who counted, in order.
#[derive(Drop)]
pub struct Counter {
    entries: Vec<Entry<u8>>,
    ghost within: { vec_len entries ≤ 100 },
    ghost reserved: { 100 ≤ vec_capacity entries },
}

impl Counter {
    pub fn new(alloc: Global) -> Result<Counter, AllocError>
        ensures { IfOk result (λ counter. counter.entries.items ≡ []) }
    {
        Ok(Counter {
            entries: Vec::with_capacity(alloc, MOST)?,
        })
    }

    pub fn entries(&self) -> &[Entry<u8>] {
        self.entries.as_slice()
    }
}

impl Kept for Counter {
    ghost use Rattle.lock_tests.specs.Counter.{counts};
    ghost use Rattle.std.proofs.Common.{rules};
    ghost use Rattle.std.proofs.lemmas.Grind.{common_steps};

    type Call = u8;

    type Reply = bool;

    type Room = u8;

    type Ask = usize;

    type Kind = u8;

    ghost entries = { λ counter. counter.entries.items };

    ghost kind = { λ _. 0 };

    ghost may_apply = { λ _ _ _ _. ⊤ };

    ghost is_memory = { λ _. false };

    ghost may_want = { λ _. false };

    ghost gives = { λ _ _ _ room before. counts room before };

    ghost reach = { λ _. 0 };

    ghost answers = { λ _ count log. nat_eq count (length log) };

    ghost short = { λ counter. Prim.search (rules, common_steps) };

    fn len(&self) -> usize {
        self.entries.len()
    }

    fn apply(&mut self, actor: u16, call: &u8, _room: &mut u8) -> bool {
        if self.entries.len() >= MOST {
            return false;
        }
        self.entries.push_reserved(Entry::Made(actor, *call));
        true
    }

    fn ask(&mut self, count: usize) -> bool {
        count == self.entries.len()
    }
}
