//! What a line says, read from left to right.

ghost use Rattle.std.specs.Prelude.{◌≡◌};
ghost use Rattle.spelling.specs.Words.{left, words_of, natural_at};
ghost use Rattle.spelling.specs.Fields.{Reads};
ghost use Rattle.class_lines.specs.Words.{operand_of, deed_with, deed_at, deed_of, operation_in, reaction_in, class_line_of};

use crate::line::{ClassLine, Deed};
use crate::word::Word;
use paint_ops::{Op, Operand, React, Reaction};
use spelling::{Args, after_word, begins_with};

/// The number of one of a window's sixteen values.
fn value_number(args: &mut Args) -> Option<u8>
    ensures { Reads (λ n. n) result (left args.new.rest) (natural_at 0 15 (left args.old.rest)) }
{
    Some(args.natural(0, 15)? as u8)
}

/// A number, or the message's argument where there is none.
fn operand(number: Option<i16>) -> Operand
    ensures { result ≡ operand_of number }
{
    match number {
        Some(number) => Operand::Const(number),
        None => Operand::Argument,
    }
}

/// What a word makes of the fields after it.
fn deed_with(word: Word, args: &mut Args) -> Option<Deed>
    ensures { Reads (λ deed. deed) result (left args.new.rest)
        (deed_with word (left args.old.rest)) }
{
    match word {
        Word::Fill => {
            let x0 = args.coordinate()?;
            let y0 = args.coordinate()?;
            let x1 = args.coordinate()?;
            let y1 = args.coordinate()?;
            let colour = args.colour()?;
            Some(Deed::Draw(Op::Fill(x0, y0, x1, y1, colour)))
        }
        Word::Frame => {
            let x0 = args.coordinate()?;
            let y0 = args.coordinate()?;
            let x1 = args.coordinate()?;
            let y1 = args.coordinate()?;
            let colour = args.colour()?;
            Some(Deed::Draw(Op::Frame(x0, y0, x1, y1, colour)))
        }
        Word::HLine => {
            let x0 = args.coordinate()?;
            let x1 = args.coordinate()?;
            let y = args.coordinate()?;
            let colour = args.colour()?;
            Some(Deed::Draw(Op::HLine(x0, x1, y, colour)))
        }
        Word::VLine => {
            let x = args.coordinate()?;
            let y0 = args.coordinate()?;
            let y1 = args.coordinate()?;
            let colour = args.colour()?;
            Some(Deed::Draw(Op::VLine(x, y0, y1, colour)))
        }
        Word::Line => {
            let x0 = args.coordinate()?;
            let y0 = args.coordinate()?;
            let x1 = args.coordinate()?;
            let y1 = args.coordinate()?;
            let colour = args.colour()?;
            Some(Deed::Draw(Op::Line(x0, y0, x1, y1, colour)))
        }
        Word::Bitmap => {
            let bitmap = args.byte()?;
            let x = args.coordinate()?;
            let y = args.coordinate()?;
            Some(Deed::Draw(Op::Bitmap(bitmap, x, y)))
        }
        Word::Text => {
            let font = args.byte()?;
            let x = args.coordinate()?;
            let y = args.coordinate()?;
            let colour = args.colour()?;
            let string = args.byte()?;
            Some(Deed::Draw(Op::Text(font, x, y, colour, string)))
        }
        Word::Number => {
            let font = args.byte()?;
            let x = args.coordinate()?;
            let y = args.coordinate()?;
            let colour = args.colour()?;
            let number = args.coordinate()?;
            Some(Deed::Draw(Op::Number(font, x, y, colour, number)))
        }
        Word::Set => Some(Deed::React(React::Set(
            value_number(args)?,
            operand(args.number_or(b"a")?),
        ))),
        Word::Add => Some(Deed::React(React::Add(
            value_number(args)?,
            operand(args.number_or(b"a")?),
        ))),
        Word::Up => Some(Deed::React(React::Up(args.byte()?))),
    }
}

#[tactic(auto, unfolding(crate::specs::Words::deed_at))]
fn deed_at(args: &mut Args) -> Option<Deed>
    ensures { Reads (λ deed. deed) result (left args.new.rest) (deed_at (left args.old.rest)) }
{
    let word = Word::of(args.word()?)?;
    deed_with(word, args)
}

/// What all the words that are left say.
#[tactic(auto, unfolding(crate::specs::Words::deed_of))]
fn deed_of(rest: Option<&[u8]>) -> Option<Deed>
    ensures { result ≡ deed_of (left rest.entry) }
{
    let mut args = Args { rest };
    let deed = deed_at(&mut args)?;
    if args.is_done() { Some(deed) } else { None }
}

/// The operation that a line says.
#[tactic(auto, unfolding(crate::specs::Words::operation_in))]
fn operation_in(line: &[u8]) -> Option<ClassLine>
    ensures { result ≡ operation_in (words_of line.now) }
{
    match deed_of(Some(line))? {
        Deed::Draw(op) => Some(ClassLine::Operation(op)),
        Deed::React(_) => None,
    }
}

/// The reaction that a line says.
#[tactic(auto, unfolding(crate::specs::Words::reaction_in))]
fn reaction_in(line: &[u8]) -> Option<ClassLine>
    ensures { result ≡ reaction_in (words_of line.now) }
{
    let mut args = Args {
        rest: after_word(b"on", Some(line))?,
    };
    let on = args.byte()?;
    match deed_of(args.rest)? {
        Deed::Draw(_) => None,
        Deed::React(react) => Some(ClassLine::Reaction(Reaction { on, react })),
    }
}

/// What a line of a class's body says, if it is one.
#[tactic(auto, unfolding(crate::specs::Words::class_line_of))]
pub fn class_line(line: &[u8]) -> Option<ClassLine>
    ensures { result ≡ class_line_of (words_of line.now) }
{
    if begins_with(b"on", Some(line)) {
        reaction_in(line)
    } else {
        operation_in(line)
    }
}
