//! What the lines of a script say: the screen's sides and buffers, colours, classes, strings and
//! calls.

ghost use Rattle.std.specs.Prelude.{◌≡◌, ◌≤◌, IfSome};
ghost use Rattle.spelling.specs.Words.{Gives, left, words_of};
ghost use Rattle.spelling.specs.Fields.{Reads};
ghost use Rattle.calls.specs.Words.{call_with, act_at, task_line_of, line_of};
ghost use Rattle.script_lines.specs.Fields.{screen_in, buffers_in, desktop_in, back_of, back_in, class_in, font_in, bitmap_in, text_in, string_in, IsTasks};

use calls::{Act, Call, Line, Word};
use gfx_base::Colour;
use paint_ops::Text;
use spelling::{Args, after_word, colour, is_done, natural_at, word_at};

/// The sides that `screen W H` says.
#[tactic(auto, unfolding(crate::specs::Fields::screen_in, spelling::specs::Fields::line_values))]
pub fn screen_in(line: &[u8]) -> Option<(u16, u16)>
    ensures { Gives (λ sides. (sides.0, (sides.1, tt))) result (screen_in (words_of line.now)) }
{
    let mut args = Args {
        rest: after_word(b"screen", Some(line))?,
    };
    let width = args.natural(1, 1024)?;
    let height = args.natural(1, 768)?;
    if args.is_done() {
        Some((width, height))
    } else {
        None
    }
}

/// The number that `buffers N` says.
#[tactic(auto, unfolding(crate::specs::Fields::buffers_in, spelling::specs::Fields::line_values))]
pub fn buffers_in(line: &[u8]) -> Option<u8>
    ensures { Gives (λ buffers. (buffers, tt)) result (buffers_in (words_of line.now)) }
{
    let mut args = Args {
        rest: after_word(b"buffers", Some(line))?,
    };
    let buffers = args.natural(1, 3)?;
    if args.is_done() {
        Some(buffers as u8)
    } else {
        None
    }
}

/// The colour that `desktop COLOUR` says.
#[tactic(auto, unfolding(crate::specs::Fields::desktop_in, spelling::specs::Fields::line_values))]
pub fn desktop_in(line: &[u8]) -> Option<Colour>
    ensures { Gives (λ colour. (colour, tt)) result (desktop_in (words_of line.now)) }
{
    let mut args = Args {
        rest: after_word(b"desktop", Some(line))?,
    };
    let colour = args.colour()?;
    if args.is_done() { Some(colour) } else { None }
}

/// The back colour that a word says, or that there is none.
fn back(word: &[u8]) -> Option<Option<Colour>>
    ensures { result ≡ back_of word.now }
{
    if word == b"-".as_slice() {
        Some(None)
    } else {
        Some(Some(colour(word)?))
    }
}

/// The back colour that all the words say.
fn back_in(rest: Option<&[u8]>) -> Option<Option<Colour>>
    ensures { result ≡ back_in (left rest.entry) }
{
    let (word, rest) = word_at(rest)?;
    if is_done(rest) { back(word) } else { None }
}

/// The number and the back colour that the words after `class` say.
#[tactic(auto, unfolding(crate::specs::Fields::class_in))]
pub fn class_in(rest: Option<&[u8]>) -> Option<(u16, Option<Colour>)>
    ensures { result ≡ class_in (left rest.entry) }
{
    let (number, rest) = natural_at(1, 63, rest)?;
    let back = back_in(rest)?;
    Some((number, back))
}

/// The number and the height that the words after `font` say.
#[tactic(auto, unfolding(crate::specs::Fields::font_in))]
pub fn font_in(rest: Option<&[u8]>) -> Option<(u16, u8)>
    ensures value { Gives (λ font. (font.0, (font.1, tt))) result (font_in (left rest.entry)) }
    ensures within { IfSome result (λ font. (1 ≤ font.1) × (font.1 ≤ 32)) }
{
    let mut args = Args { rest };
    let number = args.natural(0, 7)?;
    let height = args.natural(1, 32)?;
    if args.is_done() {
        Some((number, height as u8))
    } else {
        None
    }
}

/// The number, the width and the height that the words after `bitmap` say.
#[tactic(auto, unfolding(crate::specs::Fields::bitmap_in))]
pub fn bitmap_in(rest: Option<&[u8]>) -> Option<(u16, u16, u16)>
    ensures value { Gives (λ bitmap. (bitmap.0, (bitmap.1, (bitmap.2, tt)))) result
        (bitmap_in (left rest.entry)) }
    ensures within { IfSome result
        (λ b. ((1 ≤ b.1) × (b.1 ≤ 256)) × ((1 ≤ b.2) × (b.2 ≤ 256))) }
{
    let mut args = Args { rest };
    let number = args.natural(0, 31)?;
    let width = args.natural(1, 256)?;
    let height = args.natural(1, 256)?;
    if args.is_done() {
        Some((number, width, height))
    } else {
        None
    }
}

/// The text that follows a space, if there is one.
fn text_in(rest: Option<&[u8]>) -> Option<Text>
    ensures { Gives (λ text. text) result (text_in (left rest.entry)) }
{
    Text::new(rest?)
}

/// The number and the text that the words after `string` say. The text is all that follows the
/// space after the number.
#[tactic(auto, unfolding(crate::specs::Fields::string_in))]
pub fn string_in(rest: Option<&[u8]>) -> Option<(u16, Text)>
    ensures { Gives (λ string. (string.0, string.1)) result (string_in (left rest.entry)) }
{
    let (number, rest) = natural_at(0, 255, rest)?;
    let text = text_in(rest)?;
    Some((number, text))
}

/// The call that a word makes of the fields after it.
fn call_with(word: Word, args: &mut Args) -> Option<Call>
    ensures { Reads (λ call. call) result (left args.new.rest)
        (call_with word (left args.old.rest)) }
{
    match word {
        Word::Create => Some(Call::Create {
            parent: args.handle()?,
            x: args.number()?,
            y: args.number()?,
            w: args.side()?,
            h: args.side()?,
            class: args.byte()?,
        }),
        Word::Delete => Some(Call::Delete { h: args.handle()? }),
        Word::MoveTo => Some(Call::MoveTo {
            h: args.handle()?,
            x: args.number()?,
            y: args.number()?,
        }),
        Word::MoveBy => Some(Call::MoveBy {
            h: args.handle()?,
            dx: args.number()?,
            dy: args.number()?,
        }),
        Word::Resize => Some(Call::Resize {
            h: args.handle()?,
            width: args.side()?,
            height: args.side()?,
        }),
        Word::Show => Some(Call::Show { h: args.handle()? }),
        Word::Hide => Some(Call::Hide { h: args.handle()? }),
        Word::ToTop => Some(Call::ToTop { h: args.handle()? }),
        Word::ToBottom => Some(Call::ToBottom { h: args.handle()? }),
        Word::SetClass => Some(Call::SetClass {
            h: args.handle()?,
            class: args.byte()?,
        }),
        Word::SetTrans => Some(Call::SetTrans {
            h: args.handle()?,
            trans: args.choice(b"0", b"1")?,
        }),
        Word::SetMemdev => Some(Call::SetMemdev {
            h: args.handle()?,
            memdev: args.choice(b"0", b"1")?,
        }),
        Word::SetValue => Some(Call::SetValue {
            h: args.handle()?,
            index: args.byte()?,
            value: args.number()?,
        }),
        Word::Send => Some(Call::Send {
            h: args.handle()?,
            message: args.byte()?,
            argument: args.number()?,
        }),
        Word::Select => Some(Call::Select { h: args.handle()? }),
        Word::Colour => Some(Call::Colour { c: args.colour()? }),
        Word::BkColour => Some(Call::BkColour { c: args.colour()? }),
        Word::TextMode => Some(Call::TextMode {
            trans: args.choice(b"normal", b"trans")?,
        }),
        Word::Font => Some(Call::Font { font: args.byte()? }),
        Word::Save => Some(Call::Save),
        Word::Restore => Some(Call::Restore),
        Word::Fill => Some(Call::Fill {
            x0: args.number()?,
            y0: args.number()?,
            x1: args.number()?,
            y1: args.number()?,
        }),
        Word::Frame => Some(Call::Frame {
            x0: args.number()?,
            y0: args.number()?,
            x1: args.number()?,
            y1: args.number()?,
        }),
        Word::Line => Some(Call::Line {
            x0: args.number()?,
            y0: args.number()?,
            x1: args.number()?,
            y1: args.number()?,
        }),
        Word::Bitmap => Some(Call::Bitmap {
            bitmap: args.byte()?,
            x: args.number()?,
            y: args.number()?,
        }),
        Word::Text => Some(Call::Text {
            x: args.number()?,
            y: args.number()?,
            string: args.byte()?,
        }),
        Word::DevCreate => Some(Call::DevCreate {
            w: args.side()?,
            h: args.side()?,
        }),
        Word::DevDelete => Some(Call::DevDelete {
            device: args.handle()?,
        }),
        Word::DevSelect => Some(Call::DevSelect {
            device: args.handle()?,
        }),
        Word::DevCopy => Some(Call::DevCopy {
            device: args.handle()?,
            x: args.number()?,
            y: args.number()?,
        }),
        Word::Invalidate => Some(Call::Invalidate { h: args.handle()? }),
        Word::InvalidateRect => Some(Call::InvalidateRect {
            h: args.handle()?,
            x0: args.number()?,
            y0: args.number()?,
            x1: args.number()?,
            y1: args.number()?,
        }),
        Word::InvalidateArea => Some(Call::InvalidateArea {
            x0: args.number()?,
            y0: args.number()?,
            x1: args.number()?,
            y1: args.number()?,
        }),
        Word::Begin => Some(Call::Begin),
        Word::End => Some(Call::End),
        Word::Exec => Some(Call::Exec),
        Word::Exec1 => Some(Call::Exec1),
        Word::Scan => Some(Call::Scan),
    }
}

/// What a word and the fields after it say that a task does.
#[tactic(auto, unfolding(calls::specs::Words::act_at))]
fn act_at(args: &mut Args) -> Option<Act>
    ensures { Reads (λ a. a) result (left args.new.rest) (act_at (left args.old.rest)) }
{
    let name = args.word()?;
    if name == b"lock".as_slice() {
        Some(Act::Lock)
    } else if name == b"unlock".as_slice() {
        Some(Act::Unlock)
    } else {
        Some(Act::Call(call_with(Word::of(name)?, args)?))
    }
}

/// What a line says that a task does.
#[tactic(auto, unfolding(calls::specs::Words::task_line_of))]
fn task_line_in(line: &[u8]) -> Option<Line>
    ensures value { result ≡ task_line_of (words_of line.now) }
    ensures within { IfSome result IsTasks }
{
    let mut args = Args { rest: Some(line) };
    let task = args.natural(1, 16)?;
    let act = act_at(&mut args)?;
    if args.is_done() {
        Some(Line::Task { task, act })
    } else {
        None
    }
}

/// The call line that a line says.
#[tactic(auto, unfolding(calls::specs::Words::line_of))]
pub fn line_in(line: &[u8]) -> Option<Line>
    ensures value { result ≡ line_of (words_of line.now) }
    ensures within { IfSome result IsTasks }
{
    if line == b"display tick".as_slice() {
        Some(Line::Tick)
    } else {
        task_line_in(line)
    }
}
