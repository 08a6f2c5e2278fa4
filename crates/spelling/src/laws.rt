//! Laws of the definitions, each as the contract of a function that does nothing.

ghost use Rattle.std.specs.Prelude.{◌≡◌, ◌↔◌, ℕ, ◌^◌, ◌<◌, ◌≤◌, ℤ, true, List, Some, decimal, FitsSigned};
ghost use Rattle.std.specs.Fmt.{signed_decimal};
ghost use Rattle.std.specs.Int.{w16};
ghost use Rattle.spelling.specs.Digits.{hex_colour};
ghost use Rattle.spelling.specs.Words.{words_of, text_of_words, number_of, natural_in, colour_of};
ghost use Rattle.spelling.specs.Fields.{Field, Values, texts_of, AreIn, is_word, are_fields, values_of, text_with, line_values};

/// Does nothing. What is read from a word is the value whose spelling the word is, and a line is
/// its words.
pub fn one_spelling()
    ensures words { (line : List ℕ) → text_of_words (words_of line) ≡ line }
    ensures number { (word : List ℕ) (z : ℤ) → (number_of word ≡ Some z)
        ↔ ((word ≡ signed_decimal z) × FitsSigned w16 z) }
    ensures natural { (low high : ℕ) (word : List ℕ) (n : ℕ) → high < 2 ^ 32
        → (natural_in low high word ≡ Some n) ↔ ((word ≡ decimal n) × (low ≤ n) × (n ≤ high)) }
    ensures colour { (word : List ℕ) (c : ℕ) → (colour_of word ≡ Some c)
        ↔ ((word ≡ hex_colour c) × (c < 2 ^ 24)) }
{}

/// Does nothing. Words say values of fields exactly where they are the words of these values, and
/// the values are in their ranges; so they say at most one list of values. The same holds of a line
/// of a word and fields.
pub fn fields_tell_values()
    ensures words { (fs : List Field) (words : List (List ℕ)) (vs : Values fs)
        → are_fields fs ≡ true
        → (values_of fs words ≡ Some vs) ↔ ((words ≡ texts_of fs vs) × AreIn fs vs) }
    ensures line { (name : List ℕ) (fs : List Field) (line : List ℕ) (vs : Values fs)
        → is_word name ≡ true → are_fields fs ≡ true
        → (line_values name fs (words_of line) ≡ Some vs)
        ↔ ((line ≡ text_with name fs vs) × AreIn fs vs) }
{}
