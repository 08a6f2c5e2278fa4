ghost use Rattle.std.specs.Prelude.{◌≡◌};
ghost use Rattle.calls.specs.Words.{name_of_word, word_of};

/// The word of a script's line that names a call.
#[derive(Clone, Copy, Debug, PartialEq, Eq)]
pub enum Word {
    Create,
    Delete,
    MoveTo,
    MoveBy,
    Resize,
    Show,
    Hide,
    ToTop,
    ToBottom,
    SetClass,
    SetTrans,
    SetMemdev,
    SetValue,
    Send,
    Select,
    Colour,
    BkColour,
    TextMode,
    Font,
    Save,
    Restore,
    Fill,
    Frame,
    Line,
    Bitmap,
    Text,
    DevCreate,
    DevDelete,
    DevSelect,
    DevCopy,
    Invalidate,
    InvalidateRect,
    InvalidateArea,
    Begin,
    End,
    Exec,
    Exec1,
    Scan,
}

/// The words that name calls.
const WORDS: [Word; 38] = [
    Word::Create,
    Word::Delete,
    Word::MoveTo,
    Word::MoveBy,
    Word::Resize,
    Word::Show,
    Word::Hide,
    Word::ToTop,
    Word::ToBottom,
    Word::SetClass,
    Word::SetTrans,
    Word::SetMemdev,
    Word::SetValue,
    Word::Send,
    Word::Select,
    Word::Colour,
    Word::BkColour,
    Word::TextMode,
    Word::Font,
    Word::Save,
    Word::Restore,
    Word::Fill,
    Word::Frame,
    Word::Line,
    Word::Bitmap,
    Word::Text,
    Word::DevCreate,
    Word::DevDelete,
    Word::DevSelect,
    Word::DevCopy,
    Word::Invalidate,
    Word::InvalidateRect,
    Word::InvalidateArea,
    Word::Begin,
    Word::End,
    Word::Exec,
    Word::Exec1,
    Word::Scan,
];

impl Word {
    /// The word as it is written.
    #[tactic(auto, unfolding(crate::specs::Words::name_of_word))]
    pub fn name(self) -> &'static [u8]
        ensures { result.now ≡ name_of_word self }
    {
        match self {
            Word::Create => b"create",
            Word::Delete => b"delete",
            Word::MoveTo => b"move_to",
            Word::MoveBy => b"move_by",
            Word::Resize => b"resize",
            Word::Show => b"show",
            Word::Hide => b"hide",
            Word::ToTop => b"to_top",
            Word::ToBottom => b"to_bottom",
            Word::SetClass => b"set_class",
            Word::SetTrans => b"set_trans",
            Word::SetMemdev => b"set_memdev",
            Word::SetValue => b"set_value",
            Word::Send => b"send",
            Word::Select => b"select",
            Word::Colour => b"colour",
            Word::BkColour => b"bk_colour",
            Word::TextMode => b"text_mode",
            Word::Font => b"font",
            Word::Save => b"save",
            Word::Restore => b"restore",
            Word::Fill => b"fill",
            Word::Frame => b"frame",
            Word::Line => b"line",
            Word::Bitmap => b"bitmap",
            Word::Text => b"text",
            Word::DevCreate => b"dev_create",
            Word::DevDelete => b"dev_delete",
            Word::DevSelect => b"dev_select",
            Word::DevCopy => b"dev_copy",
            Word::Invalidate => b"invalidate",
            Word::InvalidateRect => b"invalidate_rect",
            Word::InvalidateArea => b"invalidate_area",
            Word::Begin => b"begin",
            Word::End => b"end",
            Word::Exec => b"exec",
            Word::Exec1 => b"exec1",
            Word::Scan => b"scan",
        }
    }

    /// The word that is written so, if there is one.
    #[tactic(auto, unfolding(crate::specs::Words::word_of))]
    pub fn of(name: &[u8]) -> Option<Word>
        ensures { result ≡ word_of name.now }
    {
        WORDS.iter().copied().find(|word| name == word.name())
    }
}
