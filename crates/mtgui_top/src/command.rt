//! The words of a command.

ghost use Rattle.std.specs.Prelude.{◌≡◌, List, ℕ, MatchOption};
ghost use Rattle.mtgui_top.specs.declared.command.Verb.{Verb};
ghost use Rattle.mtgui_top.specs.Words.{verb_word, is_file_name, IsCommand};

/// What is asked for of a file.
#[derive(Clone, Copy)]
pub enum Verb {
    /// To make the calls of its script and to write what they are answered.
    Play,
    /// To make them and to write the painter's picture of the windows afterwards.
    Paint,
}

fn verb_of(word: &str) -> Option<Verb>
    ensures { MatchOption result ((verb : Verb) → word.now ≡ verb_word verb → ⊥)
        (λ verb. word.now ≡ verb_word verb) }
{
    match word {
        "play" => Some(Verb::Play),
        "paint" => Some(Verb::Paint),
        _ => None,
    }
}

fn is_file_name(name: &str) -> bool
    ensures { result ≡ is_file_name name.now }
{
    let bytes = name.as_bytes();
    bytes.len() == 1 || bytes.first() != Some(&b'-')
}

/// What the words ask for, and the file that they name.
pub fn command(words: &[String]) -> Option<(Verb, &str)>
    ensures { MatchOption result ((verb : Verb) (name : List ℕ) → IsCommand verb words.now name → ⊥)
        (λ c. IsCommand c.0 words.now c.1.now) }
{
    let [word, name] = words else {
        return None;
    };
    let verb = verb_of(word.as_str())?;
    if is_file_name(name.as_str()) {
        Some((verb, name.as_str()))
    } else {
        None
    }
}
