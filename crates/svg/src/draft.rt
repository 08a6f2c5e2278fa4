//! The pictures of a text as far as its lines were read.

ghost use Rattle.std.specs.Prelude.{◌≡◌, ◌≤◌, ◌<◌, IfSome, IfOk, length};
ghost use Rattle.spelling.specs.Words.{words_of};
ghost use Rattle.svg.specs.declared.draft.Part.{Part};
ghost use Rattle.svg.specs.declared.draft.Draft.{Draft};
ghost use Rattle.svg.specs.Reading.{sides_of, is_wanted, one_less, opened, with_picture, with_part, after_row, after_other, line_step, start, ended, Takes};

use crate::fault::{LineError, Reason};
use crate::image::Image;
use crate::row::push_row;
use gfx_base::{Colour, Memory};
use spelling::{after_word, begins_with, is_done, natural_at};
use std::alloc::Global;
use std::marker::Model;

/// A picture some of whose rows were read, not all.
#[derive(Drop)]
pub struct Part {
    width: usize,
    height: usize,
    rows: usize,
    points: Vec<Colour>,
}

impl Model for Part {
    ghost use Rattle.svg.specs.Pictures.{PartOfPicture, IsPart};

    ghost Value = { PartOfPicture };

    ghost view = { λ p. record {
      picture = record { width = p.width; height = p.height; points = p.points.items };
      rows = p.rows;
    } };

    ghost invariant = { λ p. IsPart (record {
      picture = record { width = p.width; height = p.height; points = p.points.items };
      rows = p.rows;
    }) };
}

impl Part {
    /// Before the first row. The points get their one allocation here.
    fn new(alloc: Global, w: usize, h: usize) -> Result<Part, Memory>
        requires width { (1 ≤ w) × (w ≤ 1024) }
        requires height { (1 ≤ h) × (h ≤ 768) }
        ensures { IfOk result (λ p. p ≡ opened w h) }
    {
        match Vec::with_capacity(alloc, h * w) {
            Ok(points) => Ok(Part {
                width: w,
                height: h,
                rows: 0,
                points,
            }),
            Err(_) => Err(Memory),
        }
    }
}

/// What was read so far.
#[derive(Drop)]
pub struct Draft {
    /// How many pictures on the wanted one stands, counted from 1; 0 where it was read; none where
    /// the last one is wanted.
    wanted: Option<usize>,
    /// The wanted picture, or the last one so far.
    kept: Option<Image>,
    /// The picture that the next line belongs to.
    part: Option<Part>,
}

/// The sides that `frame W H` tells.
#[tactic(auto, unfolding(crate::specs::Reading::sides_of))]
fn sides_of(line: &[u8]) -> Option<(u16, u16)>
    ensures value { result ≡ sides_of (words_of line.now) }
    ensures within { IfSome result
        (λ s. ((1 ≤ s.0) × (s.0 ≤ 1024)) × ((1 ≤ s.1) × (s.1 ≤ 768))) }
{
    let rest = after_word(b"frame", Some(line))?;
    let (width, rest) = natural_at(1, 1024, rest)?;
    let (height, rest) = natural_at(1, 768, rest)?;
    if is_done(rest) {
        Some((width, height))
    } else {
        None
    }
}

fn is_wanted(wanted: Option<usize>) -> bool
    ensures { result ≡ is_wanted wanted }
{
    match wanted {
        None => true,
        Some(number) => number == 1,
    }
}

fn one_less(wanted: Option<usize>) -> Option<usize>
    ensures { result ≡ one_less wanted }
{
    match wanted {
        None => None,
        Some(number) => Some(number.saturating_sub(1)),
    }
}

impl Draft {
    /// Before the first line. The wanted picture is that of this number, from 1 on, or the last.
    pub fn new(wanted: Option<usize>) -> Draft
        ensures { result ≡ start wanted }
    {
        Draft {
            wanted,
            kept: None,
            part: None,
        }
    }

    /// With a picture that was read to its end.
    fn with_picture(self, picture: Image) -> Draft
        ensures { result ≡ with_picture self picture }
    {
        let Draft { wanted, kept, .. } = self;
        Draft {
            wanted: one_less(wanted),
            kept: if is_wanted(wanted) {
                Some(picture)
            } else {
                kept
            },
            part: None,
        }
    }

    /// With a picture some of whose rows were read.
    fn with_part(self, part: Part) -> Draft
        ensures { result ≡ with_part self part }
    {
        Draft {
            wanted: self.wanted,
            kept: self.kept,
            part: Some(part),
        }
    }

    /// After a line that isn't a row.
    #[tactic(auto, unfolding(crate::specs::Reading::after_other))]
    fn after_other(self, alloc: Global, line: &[u8]) -> Result<Draft, LineError>
        ensures { Takes result (after_other self line.now) }
    {
        if !begins_with(b"frame", Some(line)) {
            return Ok(self);
        }
        let Some((width, height)) = sides_of(line) else {
            return Err(LineError::Wrong(Reason::Sides));
        };
        match Part::new(alloc, usize::from(width), usize::from(height)) {
            Ok(part) => Ok(self.with_part(part)),
            Err(Memory) => Err(LineError::Memory),
        }
    }

    /// After a line that is the next row of a picture.
    #[tactic(auto, unfolding(crate::specs::Reading::after_row))]
    fn after_row(self, part: Part, line: &[u8]) -> Result<Draft, LineError>
        ensures { Takes result (after_row self part line.now) }
    {
        let Part {
            width,
            height,
            rows,
            mut points,
        } = part;
        push_row(&mut points, width, rows, line)?;
        let rows = rows + 1;
        if rows == height {
            return Ok(self.with_picture(Image::new(width, height, points)));
        }
        let part = Part {
            width,
            height,
            rows,
            points,
        };
        Ok(self.with_part(part))
    }

    /// After the next line.
    pub fn after(mut self, alloc: Global, line: &[u8]) -> Result<Draft, LineError>
        ensures { Takes result (line_step self line.now) }
    {
        match self.part.take() {
            None => self.after_other(alloc, line),
            Some(part) => self.after_row(part, line),
        }
    }

    /// The wanted picture, at the end of the text.
    pub fn into_picture(self) -> Result<Image, Reason>
        ensures { result ≡ ended self.part self.kept }
    {
        let Draft { kept, part, .. } = self;
        match (part, kept) {
            (Some(_), _) => Err(Reason::Cut),
            (None, None) => Err(Reason::Missing),
            (None, Some(picture)) => Ok(picture),
        }
    }
}
