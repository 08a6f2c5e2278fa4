//! The words of the program.

ghost use Rattle.std.specs.Prelude.{◌≡◌};
ghost use Rattle.svg.specs.Words.{number_of, choice_of, texts_of};

use spelling::natural;

/// The number of a picture, from 1 on, that a word spells.
#[tactic(auto, unfolding(spelling::specs::Words::natural_in))]
fn number(word: &[u8]) -> Option<usize>
    ensures { result ≡ number_of word.now }
{
    let number = natural(word)?;
    if number >= 1 {
        Some(number as usize)
    } else {
        None
    }
}

/// The picture that the words ask for: that of a number, or the last one.
pub fn choice(words: &[String]) -> Option<Option<usize>>
    ensures { result ≡ choice_of (texts_of words.now) }
{
    match words {
        [] => Some(None),
        [word] => Some(Some(number(word.as_bytes())?)),
        _ => None,
    }
}
