ghost use Rattle.std.specs.Prelude.{◌≡◌};
ghost use Rattle.class_lines.specs.Words.{name_of_word, word_of};

/// The word that names an operation, or what is done at a message.
#[derive(Clone, Copy, Debug, PartialEq, Eq)]
pub enum Word {
    Fill,
    Frame,
    HLine,
    VLine,
    Line,
    Bitmap,
    Text,
    Number,
    Set,
    Add,
    Up,
}

const WORDS: [Word; 11] = [
    Word::Fill,
    Word::Frame,
    Word::HLine,
    Word::VLine,
    Word::Line,
    Word::Bitmap,
    Word::Text,
    Word::Number,
    Word::Set,
    Word::Add,
    Word::Up,
];

impl Word {
    /// The word as it is written.
    #[tactic(auto, unfolding(crate::specs::Words::name_of_word))]
    pub fn name(self) -> &'static [u8]
        ensures { result.now ≡ name_of_word self }
    {
        match self {
            Word::Fill => b"fill",
            Word::Frame => b"frame",
            Word::HLine => b"hline",
            Word::VLine => b"vline",
            Word::Line => b"line",
            Word::Bitmap => b"bitmap",
            Word::Text => b"text",
            Word::Number => b"number",
            Word::Set => b"set",
            Word::Add => b"add",
            Word::Up => b"up",
        }
    }

    /// The word that is written so, if there is one.
    #[tactic(auto, unfolding(crate::specs::Words::word_of))]
    pub fn of(name: &[u8]) -> Option<Word>
        ensures { result ≡ word_of name.now }
    {
        WORDS.iter().copied().find(|word| name == word.name())
    }
}
