//! A font as far as it was read.

ghost use Rattle.std.specs.Prelude.{◌≡◌, ◌≤◌, [], ◌∷◌, ◌++◌, IfOk, IfSome, length};
ghost use Rattle.std.specs.List.{list_all};
ghost use Rattle.spelling.specs.Words.{Gives, words_of};
ghost use Rattle.glyph_font.specs.declared.place.Place.TheVariants as place;
ghost use Rattle.glyph_font.specs.Fonts.{IsGlyph, IsRising};
ghost use Rattle.glyph_font.specs.Bits.{bits_of};
ghost use Rattle.glyph_font.specs.Reading.{start, begun, with_row, settled, is_whole, head_of, row_of, is_point, after_between, after_row, after_line, IsDraft, Takes};

use crate::fault::FontLineError;
use crate::font::{FIRST_CODE, Font, LAST_CODE};
use crate::glyph::{Glyph, MOST_POINTS, bits_of};
use crate::place::Place;
use gfx_base::Memory;
use spelling::{after_word, is_done, natural_at};
use std::alloc::Global;
use std::marker::Model;

/// A font as far as its lines were read.
#[derive(Drop)]
pub struct FontDraft {
    place: Place,
    /// The least code that the next glyph can have.
    least: u8,
    /// The glyphs that are whole.
    font: Font,
    /// The glyph that was begun last.
    last: Glyph,
    /// How many of its rows were read.
    rows: u8,
}

impl Model for FontDraft {
    ghost use Rattle.std.specs.Prelude.{◌≤◌};
    ghost use Rattle.glyph_font.specs.Kept.{glyph_from};
    ghost use Rattle.glyph_font.specs.Reading.{Draft};

    ghost Value = { Draft };

    ghost view = { λ d. record {
      place = d.place;
      least = d.least;
      font = d.font;
      last = glyph_from d.rows d.last;
    } };

    ghost invariant = { λ d. d.rows ≤ 32 };
}

/// The code, from `least` on, and the width that a glyph's first line spells.
#[tactic(auto, unfolding(crate::specs::Reading::head_of))]
fn head(least: u8, line: &[u8]) -> Option<(u8, u8)>
    ensures value { result ≡ head_of least (words_of line.now) }
    ensures within { IfSome result (λ x. x.0 ≤ 126) }
{
    let rest = after_word(b"glyph", Some(line))?;
    let (code, rest) = natural_at(u16::from(least), u16::from(LAST_CODE), rest)?;
    let (width, rest) = natural_at(1, MOST_POINTS as u16, rest)?;
    if is_done(rest) {
        Some((code as u8, width as u8))
    } else {
        None
    }
}

/// Whether each byte draws a point.
fn is_drawn(line: &[u8]) -> bool
    ensures { result ≡ list_all is_point line.now }
{
    line.iter().all(|b| *b == b'#' || *b == b'.')
}

/// The row that a line draws, if it has this width.
#[tactic(auto, unfolding(crate::specs::Reading::row_of))]
fn row(width: u8, line: &[u8]) -> Option<u32>
    requires { width ≤ 32 }
    ensures { Gives (λ row. bits_of width row) result (row_of width line.now) }
{
    if line.len() == usize::from(width) && is_drawn(line) {
        Some(bits_of(line))
    } else {
        None
    }
}

impl FontDraft {
    /// A font of which no line was read. Its height is from 1 to 32 points.
    pub fn new(alloc: Global, height: u8) -> Result<FontDraft, Memory>
        requires { (1 ≤ height) × (height ≤ 32) }
        ensures { IfOk result (λ draft. draft ≡ start height) }
    {
        let last = Glyph {
            code: 0,
            width: 0,
            rows: [0; MOST_POINTS],
        };
        Ok(FontDraft {
            place: Place::Between,
            least: FIRST_CODE,
            font: Font::empty(alloc, height)?,
            last,
            rows: 0,
        })
    }

    /// Begins a glyph, of which no row was read.
    fn begin(&mut self, code: u8, width: u8)
        requires { code ≤ 126 }
        ensures { self.new ≡ begun self.old (code, width) }
    {
        self.place = Place::Within;
        self.least = code + 1;
        self.last.code = code;
        self.last.width = width;
        self.rows = 0;
    }

    /// Takes a glyph's first line or `end`.
    fn take_between(&mut self, line: &[u8]) -> Result<(), FontLineError>
        ensures { Takes result self.new (after_between self.old line.now) }
    {
        if line == b"end".as_slice() {
            self.place = Place::After;
            return Ok(());
        }
        let Some((code, width)) = head(self.least, line) else {
            return Err(FontLineError::Wrong);
        };
        self.begin(code, width);
        Ok(())
    }

    /// Keeps the last glyph, if it is whole.
    #[tactic(auto, unfolding(crate::specs::Reading::settled))]
    fn settle(&mut self) -> Result<(), Memory>
        requires glyph { IsGlyph (length self.old.last.rows) self.old.last }
        requires rising { IsRising 32 (self.old.font.glyphs ++ self.old.last ∷ []) }
        ensures { IfOk result (λ _. self.new ≡ settled self.old) }
    {
        if self.rows == self.font.height() {
            self.font.push(self.last)?;
            self.place = Place::Between;
        }
        Ok(())
    }

    /// Takes a row of the last glyph.
    fn take_row(&mut self, line: &[u8]) -> Result<(), FontLineError>
        requires draft { IsDraft self.old }
        requires place { self.old.place ≡ place.Within }
        ensures { Takes result self.new
            (after_row self.old (row_of self.old.last.width line.now)) }
    {
        let Some(row) = row(self.last.width, line) else {
            return Err(FontLineError::Wrong);
        };
        self.last.rows[usize::from(self.rows)] = row;
        self.rows += 1;
        match self.settle() {
            Ok(()) => Ok(()),
            Err(Memory) => Err(FontLineError::Memory),
        }
    }

    /// Takes the next line. Of a draft that refused one nothing is said.
    #[tactic(auto, unfolding(crate::specs::Reading::after_line))]
    pub fn take(&mut self, line: &[u8]) -> Result<(), FontLineError>
        requires { IsDraft self.old }
        ensures { Takes result self.new (after_line self.old line.now) }
    {
        match self.place {
            Place::Between => self.take_between(line),
            Place::Within => self.take_row(line),
            Place::After => Err(FontLineError::Wrong),
        }
    }

    /// What the next line has to be.
    pub(crate) fn place(&self) -> Place
        ensures { result ≡ self.now.place }
    {
        self.place
    }

    /// Whether the font's last line was read.
    pub fn is_whole(&self) -> bool
        ensures { result ≡ is_whole self.now }
    {
        self.place == Place::After
    }

    /// The font, whose last line was read.
    pub fn into_font(self) -> Font
        requires { self.place ≡ place.After }
        ensures { result ≡ self.font }
    {
        self.font
    }
}
