//! Random numbers.

ghost use Rattle.std.specs.Prelude.{◌≡◌, ◌/◌, ◌%◌, ◌^◌, ◌<◌};
ghost use Rattle.rand_pcg.specs.Lcg.{started, increment_of};
ghost use Rattle.rand_pcg.specs.Pcg.{multiplier_64, pcg32};

use rand_core::utils::NextWord;
use rand_pcg::Pcg32;
use std::marker::Model;

/// Random numbers, the same ones for the same seed. Clauses see the generator that they come from.
#[derive(Drop)]
pub struct Numbers {
    words: Pcg32,
}

impl Model for Numbers {
    ghost use Rattle.rand_pcg.specs.Lcg.{Lcg};

    ghost Value = { Lcg };

    ghost view = { λ numbers. numbers.words };
}

impl Numbers {
    /// The numbers of a seed.
    pub fn new(seed: u64) -> Numbers
        ensures { result ≡ started 64 multiplier_64 seed (increment_of 64 0) }
    {
        Numbers {
            words: Pcg32::new(seed, 0),
        }
    }

    /// The next number, which is below `end`: the remainder of the next word's upper half by it.
    pub fn below(&mut self, end: u16) -> u16
        requires { 0 < end }
        ensures below { result < end }
        ensures value { result ≡ (pcg32 self.old).0 / 2 ^ 16 % end }
        ensures next { self.new ≡ (pcg32 self.old).1 }
    {
        (self.words.next_word() >> 16) as u16 % end
    }
}
