//! The fields of a line: its words, read from left to right.

ghost use Rattle.std.specs.Prelude.{◌≡◌, ◌≤◌, ◌==◌, length, IfSome};
ghost use Rattle.spelling.specs.Words.{left, first_word, number_at, natural_at};
ghost use Rattle.spelling.specs.Fields.{Reads, number_or_at, colour_at, choice_at};
ghost use Rattle.spelling.specs.Coordinates.{num_at};

use crate::{hex, num, words};
use gfx_base::{Colour, Num};

/// The words of a line that are left. Each call takes the next one, where it is a field of its
/// kind; where it isn't, it answers None, and nothing is said of the words that are left then.
#[derive(Drop)]
pub struct Args<'l> {
    pub rest: Option<&'l [u8]>,
}

impl<'l> Args<'l> {
    /// The next word.
    pub fn word(&mut self) -> Option<&'l [u8]>
        ensures { Reads (λ word. word.now) result (left self.new.rest)
            (first_word (left self.old.rest)) }
    {
        let (word, rest) = words::word_at(self.rest)?;
        self.rest = rest;
        Some(word)
    }

    /// The next word as a number from -32,768 to 32,767.
    pub fn number(&mut self) -> Option<i16>
        ensures { Reads (λ z. z) result (left self.new.rest) (number_at (left self.old.rest)) }
    {
        let (number, rest) = words::number_at(self.rest)?;
        self.rest = rest;
        Some(number)
    }

    /// The next word as a number from -32,768 to 32,767, or as no number where it is `name`.
    #[tactic(auto, unfolding(crate::specs::Fields::number_or_at))]
    pub fn number_or(&mut self, name: &[u8]) -> Option<Option<i16>>
        ensures { Reads (λ v. v) result (left self.new.rest)
            (number_or_at name.now (left self.old.rest)) }
    {
        let word = self.word()?;
        if word == name {
            Some(None)
        } else {
            Some(Some(words::number(word)?))
        }
    }

    /// The next word as a coordinate.
    #[tactic(auto, unfolding(crate::specs::Coordinates::num_at))]
    pub fn coordinate(&mut self) -> Option<Num>
        ensures { Reads (λ num. num) result (left self.new.rest) (num_at (left self.old.rest)) }
    {
        num::num(self.word()?)
    }

    /// The next word as a number from `low` to `high`.
    pub fn natural(&mut self, low: u16, high: u16) -> Option<u16>
        ensures value { Reads (λ n. n) result (left self.new.rest)
            (natural_at low high (left self.old.rest)) }
        ensures within { IfSome result (λ n. (low ≤ n) × (n ≤ high)) }
    {
        let (number, rest) = words::natural_at(low, high, self.rest)?;
        self.rest = rest;
        Some(number)
    }

    /// The next word as a number of 32 bits.
    #[tactic(auto, unfolding(crate::specs::Words::natural_at, crate::specs::Words::natural_in))]
    pub fn handle(&mut self) -> Option<u32>
        ensures { Reads (λ n. n) result (left self.new.rest)
            (natural_at 0 4294967295 (left self.old.rest)) }
    {
        words::natural(self.word()?)
    }

    /// The next word as a number of 16 bits that isn't negative.
    pub fn side(&mut self) -> Option<u16>
        ensures { Reads (λ n. n) result (left self.new.rest)
            (natural_at 0 65535 (left self.old.rest)) }
    {
        self.natural(0, u16::MAX)
    }

    /// The next word as a number of 8 bits.
    pub fn byte(&mut self) -> Option<u8>
        ensures { Reads (λ n. n) result (left self.new.rest)
            (natural_at 0 255 (left self.old.rest)) }
    {
        Some(self.natural(0, 255)? as u8)
    }

    /// The next word as a colour.
    #[tactic(auto, unfolding(crate::specs::Fields::colour_at))]
    pub fn colour(&mut self) -> Option<Colour>
        ensures { Reads (λ c. c) result (left self.new.rest) (colour_at (left self.old.rest)) }
    {
        hex::colour(self.word()?)
    }

    /// Whether the next word is the second of two.
    #[tactic(auto, unfolding(crate::specs::Fields::choice_at))]
    pub fn choice(&mut self, first: &[u8], second: &[u8]) -> Option<bool>
        ensures { Reads (λ b. b) result (left self.new.rest)
            (choice_at first.now second.now (left self.old.rest)) }
    {
        let word = self.word()?;
        if word == first {
            Some(false)
        } else if word == second {
            Some(true)
        } else {
            None
        }
    }

    /// Whether no word is left.
    pub fn is_done(&self) -> bool
        ensures { result ≡ (length (left self.now.rest) == 0) }
    {
        words::is_done(self.rest)
    }
}
