//! A line's words, and the numbers that they spell.

ghost use Rattle.std.specs.Prelude.{◌≡◌, ◌≤◌, ◌==◌, length, IfSome};
ghost use Rattle.spelling.specs.Words.{Gives, left, first_word, after_word, begins_with, number_of, number_at, natural_of, natural_in, natural_at};

use crate::lines::cut_at;
use itoa::Buffer;
use std::str;

/// The first word, and the words after it.
pub fn word_at(rest: Option<&[u8]>) -> Option<(&[u8], Option<&[u8]>)>
    ensures { Gives (λ x. (x.0.now, left x.1)) result (first_word (left rest.entry)) }
{
    Some(cut_at(b' ', rest?))
}

/// The words after this one, where it is the first.
pub fn after_word<'l>(name: &[u8], rest: Option<&'l [u8]>) -> Option<Option<&'l [u8]>>
    ensures { Gives (λ words. left words) result (after_word name.now (left rest.entry)) }
{
    let (word, rest) = word_at(rest)?;
    if word == name { Some(rest) } else { None }
}

/// Whether this word is the first.
pub fn begins_with(name: &[u8], rest: Option<&[u8]>) -> bool
    ensures { result ≡ begins_with name.now (left rest.entry) }
{
    match word_at(rest) {
        None => false,
        Some((word, _)) => word == name,
    }
}

/// Whether no word is left.
pub fn is_done(rest: Option<&[u8]>) -> bool
    ensures { result ≡ (length (left rest.entry) == 0) }
{
    rest.is_none()
}

/// The number that a word spells. Writing it again refuses the other spellings that `parse` takes.
pub fn number(word: &[u8]) -> Option<i16>
    ensures { result ≡ number_of word.now }
{
    let text = str::from_utf8(word).ok()?;
    let number = text.parse::<i16>().ok()?;
    if Buffer::new().format(number).as_bytes() == word {
        Some(number)
    } else {
        None
    }
}

/// The number that the first word spells, and the words after it.
#[tactic(auto, unfolding(crate::specs::Words::number_at))]
pub fn number_at(rest: Option<&[u8]>) -> Option<(i16, Option<&[u8]>)>
    ensures { Gives (λ x. (x.0, left x.1)) result (number_at (left rest.entry)) }
{
    let (word, rest) = word_at(rest)?;
    Some((number(word)?, rest))
}

/// The number of 32 bits that a word spells.
pub fn natural(word: &[u8]) -> Option<u32>
    ensures { result ≡ natural_of word.now }
{
    let text = str::from_utf8(word).ok()?;
    let value = text.parse::<u32>().ok()?;
    if Buffer::new().format(value).as_bytes() == word {
        Some(value)
    } else {
        None
    }
}

/// The number from `low` to `high` that a word spells.
#[tactic(auto, unfolding(crate::specs::Words::natural_in))]
pub fn natural_in(low: u16, high: u16, word: &[u8]) -> Option<u16>
    ensures value { result ≡ natural_in low high word.now }
    ensures within { IfSome result (λ n. (low ≤ n) × (n ≤ high)) }
{
    let number = natural(word)?;
    if u32::from(low) <= number && number <= u32::from(high) {
        Some(number as u16)
    } else {
        None
    }
}

/// The number from `low` to `high` that the first word spells, and the words after it.
#[tactic(auto, unfolding(crate::specs::Words::natural_at))]
pub fn natural_at(low: u16, high: u16, rest: Option<&[u8]>) -> Option<(u16, Option<&[u8]>)>
    ensures value { Gives (λ x. (x.0, left x.1)) result (natural_at low high (left rest.entry)) }
    ensures within { IfSome result (λ x. (low ≤ x.0) × (x.0 ≤ high)) }
{
    let (word, rest) = word_at(rest)?;
    Some((natural_in(low, high, word)?, rest))
}
