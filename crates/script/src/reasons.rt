//! Reasons against lines, and the words that decide on a line's form.

ghost use Rattle.std.specs.Prelude.{◌≡◌};
ghost use Rattle.script.specs.Later.{is_one_of, asset_words, later_words};
ghost use Rattle.script.specs.Reading.{call_reason, drawing_reason};

use crate::fault::Reason;
use spelling::word_at;

/// First words of assets' lines.
const ASSET_WORDS: &[u8] = b"string class font bitmap";

/// First words, after the header and outside classes, of forms that this version doesn't build.
const LATER_WORDS: &[u8] = b"viewer done";

/// Whether the word is one of those in the text.
#[tactic(auto, unfolding(crate::specs::Later::is_one_of))]
fn is_one_of(names: &[u8], word: &[u8]) -> bool
    ensures { result ≡ is_one_of names.now word.now }
{
    names.split(|b| *b == b' ').any(|name| name == word)
}

/// Whether the word is the first one of an asset's line.
#[tactic(auto, unfolding(crate::specs::Later::asset_words))]
pub fn is_asset_word(word: &[u8]) -> bool
    ensures { result ≡ is_one_of asset_words word.now }
{
    is_one_of(ASSET_WORDS, word)
}

/// Whether a line with this first word is of a form that isn't built.
#[tactic(auto, unfolding(crate::specs::Later::later_words))]
fn is_later_word(word: &[u8]) -> bool
    ensures { result ≡ is_one_of later_words word.now }
{
    is_one_of(LATER_WORDS, word)
}

/// Why a line with this first word, which is no asset's, is no call line.
pub fn call_reason(first: &[u8]) -> Reason
    ensures { result ≡ call_reason first.now }
{
    if is_later_word(first) {
        Reason::Later
    } else {
        Reason::Call
    }
}

/// Why a line doesn't go on with a font or a bitmap.
pub fn drawing_reason(line: &[u8]) -> Reason
    ensures { result ≡ drawing_reason line.now }
{
    match word_at(Some(line)) {
        Some((first, _)) if is_later_word(first) => Reason::Later,
        _ => Reason::Block,
    }
}
