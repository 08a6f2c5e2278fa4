//! A bitmap as far as its lines were read.

ghost use Rattle.std.specs.Prelude.{◌≡◌, ◌≤◌, ◌<◌, IfOk};
ghost use Rattle.bitmap.specs.declared.place.Place.TheVariants as place;
ghost use Rattle.bitmap.specs.Faults.{why_at};
ghost use Rattle.bitmap.specs.Reading.{start, row_of, with_row, after_end, after_line, is_whole, bitmap_of, IsDraft, Takes};

use crate::bitmap::Bitmap;
use crate::fault::{BitmapLineError, BitmapWhy};
use crate::place::{Place, why_at};
use crate::row::push_row;
use gfx_base::Memory;
use std::alloc::Global;
use std::marker::Model;

/// A bitmap as far as its lines were read. It takes its lines one after the other: its rows from
/// the top, and then the line `end`.
#[derive(Drop)]
pub struct BitmapDraft {
    width: u16,
    height: u16,
    place: Place,
    /// The points of the rows, kept as those of a bitmap.
    points: Vec<u32>,
}

impl Model for BitmapDraft {
    ghost use Rattle.bitmap.specs.Reading.{Draft, points_from};

    ghost Value = { Draft };

    ghost view = { λ d. record {
      width = d.width;
      height = d.height;
      place = d.place;
      points = points_from d.points.items;
    } };
}

impl BitmapDraft {
    /// A bitmap of these sides, each from 1 to 256, of which no line was read. Its points get their
    /// one allocation here.
    pub fn new(alloc: Global, w: u16, h: u16) -> Result<BitmapDraft, Memory>
        requires width { (1 ≤ w) × (w ≤ 256) }
        requires height { (1 ≤ h) × (h ≤ 256) }
        ensures { IfOk result (λ d. d ≡ start w h) }
    {
        let count = usize::from(h) * usize::from(w);
        let Ok(points) = Vec::with_capacity(alloc, count) else {
            return Err(Memory);
        };
        Ok(BitmapDraft {
            width: w,
            height: h,
            place: Place::AfterRows(0),
            points,
        })
    }

    /// What is wrong with the next line if it isn't taken.
    pub(crate) fn why(&self) -> BitmapWhy
        ensures { result ≡ why_at self.now.height self.now.place }
    {
        why_at(self.height, self.place)
    }

    /// Takes the next row, after so many.
    fn take_row(&mut self, many: u16, line: &[u8]) -> Result<(), BitmapLineError>
        requires draft { IsDraft self.old }
        requires place { self.old.place ≡ place.AfterRows many }
        requires lacks { many < self.old.height }
        ensures { Takes result self.new (with_row self.old many (row_of self.old.width line.now)) }
    {
        push_row(&mut self.points, self.width, line)?;
        self.place = Place::AfterRows(many + 1);
        Ok(())
    }

    /// Takes the line `end`.
    fn take_end(&mut self, line: &[u8]) -> Result<(), BitmapLineError>
        ensures { Takes result self.new (after_end self.old line.now) }
    {
        if line == b"end".as_slice() {
            self.place = Place::AfterEnd;
            Ok(())
        } else {
            Err(BitmapLineError::Wrong)
        }
    }

    /// Takes the next line. What the draft says after an error is left open.
    #[tactic(auto, unfolding(crate::specs::Reading::after_line))]
    pub fn take(&mut self, line: &[u8]) -> Result<(), BitmapLineError>
        requires { IsDraft self.old }
        ensures { Takes result self.new (after_line self.old line.now) }
    {
        match self.place {
            Place::AfterRows(many) if many < self.height => self.take_row(many, line),
            Place::AfterRows(_) => self.take_end(line),
            Place::AfterEnd => Err(BitmapLineError::Wrong),
        }
    }

    /// Whether all lines were read.
    pub fn is_whole(&self) -> bool
        ensures { result ≡ is_whole self.now }
    {
        self.place == Place::AfterEnd
    }

    /// The bitmap whose lines were all read.
    pub fn into_bitmap(self) -> Bitmap
        requires draft { IsDraft self }
        requires whole { self.place ≡ place.AfterEnd }
        ensures { result ≡ bitmap_of self }
    {
        Bitmap {
            width: self.width,
            height: self.height,
            points: self.points,
        }
    }
}
