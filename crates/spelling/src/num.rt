//! Words that spell coordinates.

ghost use Rattle.std.specs.Prelude.{◌≡◌, ◌<◌, ◌≤◌, ◌==◌, ◌||◌, length, position, IfSome};
ghost use Rattle.spelling.specs.Coordinates.{offset_of, base_of, base_length, based_num_of, num_of};

use crate::words::{natural_in, number};
use gfx_base::{Base, Num};

/// What the rest of a word adds to a base.
#[tactic(auto, unfolding(crate::specs::Coordinates::offset_of))]
fn offset(word: &[u8]) -> Option<i16>
    ensures { result ≡ offset_of word.now }
{
    if word.is_empty() {
        Some(0)
    } else if word[0] == b'+' {
        Some(natural_in(1, 32767, &word[1..])? as i16)
    } else if word[0] == b'-' {
        number(word)
    } else {
        None
    }
}

/// The base whose text the word is.
#[tactic(auto, unfolding(crate::specs::Coordinates::base_of))]
fn base(word: &[u8]) -> Option<Base>
    ensures { result ≡ base_of word.now }
{
    if word == b"w".as_slice() {
        Some(Base::Width)
    } else if word == b"h".as_slice() {
        Some(Base::Height)
    } else if !word.is_empty() && word[0] == b'v' {
        Some(Base::Value(natural_in(0, 15, &word[1..])? as u8))
    } else {
        None
    }
}

/// Where the first sign stands.
fn sign_of(word: &[u8]) -> Option<usize>
    ensures value { result ≡ position (λ b. b == 43 || b == 45) word.now }
    ensures within { IfSome result (λ i. i < length word.now) }
{
    word.iter().position(|b| *b == b'+' || *b == b'-')
}

/// How many bytes stand before the first sign.
#[tactic(auto, unfolding(crate::specs::Coordinates::base_length))]
fn base_length(word: &[u8]) -> usize
    ensures value { result ≡ base_length word.now }
    ensures within { result ≤ length word.now }
{
    sign_of(word).unwrap_or(word.len())
}

/// The coordinate with a base that a word spells.
#[tactic(auto, unfolding(crate::specs::Coordinates::based_num_of))]
fn based_num(word: &[u8]) -> Option<Num>
    ensures { result ≡ based_num_of word.now }
{
    let (start, rest) = word.split_at(base_length(word));
    Some(Num {
        base: base(start)?,
        plus: offset(rest)?,
    })
}

/// The coordinate that a word spells.
#[tactic(auto, unfolding(crate::specs::Coordinates::num_of))]
pub fn num(word: &[u8]) -> Option<Num>
    ensures { result ≡ num_of word.now }
{
    match number(word) {
        Some(plus) => Some(Num {
            base: Base::Zero,
            plus,
        }),
        None => based_num(word),
    }
}
