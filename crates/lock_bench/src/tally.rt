// A small value under the lock: who called, in order.
ghost use Rattle.std.specs.Prelude.{⊤, ◌≡◌, ◌≤◌, [], false, vec_len, vec_capacity, length, nat_le, IfOk};

use gui_lock::{Entry, Kept};
use std::alloc::{AllocError, Global};

/// How many calls there may be.
const MOST: usize = 40_000_000;

/// The calls that were made.
#[derive(Drop)]
pub struct Tally {
    calls: Vec<Entry<u8>>,
    ghost within: { vec_len calls ≤ 40000000 },
    ghost reserved: { 40000000 ≤ vec_capacity calls },
}

impl Tally {
    pub fn new(alloc: Global) -> Result<Tally, AllocError>
        ensures { IfOk result (λ tally. tally.calls.items ≡ []) }
    {
        Ok(Tally {
            calls: Vec::with_capacity(alloc, MOST)?,
        })
    }
}

impl Kept for Tally {
    ghost use Rattle.lock_bench.specs.Tallies.{adds};
    ghost use Rattle.std.proofs.Common.{rules};
    ghost use Rattle.std.proofs.lemmas.Grind.{common_steps};

    type Call = u8;

    type Reply = bool;

    type Room = u8;

    type Ask = usize;

    type Kind = u8;

    ghost entries = { λ tally. tally.calls.items };

    ghost kind = { λ _. 0 };

    ghost may_apply = { λ _ _ _ _. ⊤ };

    ghost is_memory = { λ _. false };

    ghost may_want = { λ _. false };

    ghost gives = { λ _ _ _ room before. adds room before };

    ghost reach = { λ _. 0 };

    ghost answers = { λ _ least log. nat_le least (length log) };

    ghost short = { λ tally. Prim.search (rules, common_steps) };

    fn len(&self) -> usize {
        self.calls.len()
    }

    fn apply(&mut self, actor: u16, call: &u8, _room: &mut u8) -> bool {
        if self.calls.len() >= MOST {
            return false;
        }
        self.calls.push_reserved(Entry::Made(actor, *call));
        true
    }

    fn ask(&mut self, least: usize) -> bool {
        least <= self.calls.len()
    }
}
