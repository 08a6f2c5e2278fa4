ghost use Rattle.std.specs.Prelude.{◌≡◌, ◌+◌, ◌<◌, ◌≤◌, ◌++◌, [], ◌∷◌, length, IfOk, OnOk, MatchOption, Some, None};
ghost use Rattle.glyph_font.specs.Fonts.{IsFont, IsGlyph, IsRising, glyph_of, width_of_code, is_set, width_of_text};

use crate::glyph::{Glyph, has_bit};
use gfx_base::Memory;
use std::alloc::Global;
use std::marker::Model;

/// The first code that a glyph may have.
pub const FIRST_CODE: u8 = 32;

/// The last code that a glyph may have.
pub const LAST_CODE: u8 = 126;

/// How many glyphs a font may have.
const MOST_GLYPHS: usize = 95;

/// A font: glyphs of one height, from 1 to 32 points, for some of the codes from 32 to 126. Each is
/// from 1 to 32 points wide.
#[derive(Drop)]
pub struct Font {
    height: u8,
    /// For each code from 32 on the number of its glyph, counted from 1; 0 where there is none.
    slots: [u8; MOST_GLYPHS],
    glyphs: Vec<Glyph>,
}

impl Model for Font {
    ghost use Rattle.glyph_font.specs.Fonts.{Font as Content, IsFont};
    ghost use Rattle.glyph_font.specs.Kept.{glyphs_from, IsTable};

    ghost Value = { Content };

    ghost view = { λ f. record {
      height = f.height;
      glyphs = glyphs_from f.height f.glyphs.items;
    } };

    ghost invariant = { λ f. IsFont
        (record { height = f.height; glyphs = glyphs_from f.height f.glyphs.items })
        × IsTable f.slots (glyphs_from f.height f.glyphs.items) };
}

impl Font {
    ghost use Rattle.glyph_font.specs.Kept.{glyph_from};
    ghost use Rattle.glyph_font.specs.Reading.{with_glyph};

    /// A font without glyphs.
    pub(crate) fn empty(alloc: Global, height: u8) -> Result<Font, Memory>
        requires { (1 ≤ height) × (height ≤ 32) }
        ensures { IfOk result (λ f. f ≡ record { height = height; glyphs = [] }) }
    {
        match Vec::with_capacity(alloc, MOST_GLYPHS) {
            Ok(glyphs) => Ok(Font {
                height,
                slots: [0; MOST_GLYPHS],
                glyphs,
            }),
            Err(_) => Err(Memory),
        }
    }

    /// Adds a glyph, whose code is above all others.
    pub(crate) fn push(&mut self, glyph: Glyph) -> Result<(), Memory>
        requires glyph { IsGlyph self.old.height (glyph_from self.old.height glyph) }
        requires rising { IsRising 32 (self.old.glyphs ++ glyph_from self.old.height glyph ∷ []) }
        ensures { OnOk result (self.new ≡ with_glyph self.old (glyph_from self.old.height glyph)) }
    {
        let code = glyph.code;
        if self.glyphs.push(glyph).is_err() {
            return Err(Memory);
        }
        self.slots[usize::from(code - FIRST_CODE)] = self.glyphs.len() as u8;
        Ok(())
    }

    /// The font's height in points, from 1 to 32.
    pub fn height(&self) -> u8
        ensures value { result ≡ self.now.height }
        ensures within { (1 ≤ result) × (result ≤ 32) }
        ensures font { IsFont self.now }
    {
        self.height
    }

    /// The glyph of this code.
    fn glyph(&self, code: u8) -> Option<&Glyph>
        ensures { MatchOption result (glyph_of self.now code ≡ None)
            (λ g. glyph_of self.now code ≡ Some (glyph_from self.now.height g.now)) }
    {
        let slots = &self.slots;
        if code < FIRST_CODE || code > LAST_CODE {
            return None;
        }
        let slot = slots[usize::from(code - FIRST_CODE)];
        if slot == 0 {
            None
        } else {
            Some(&self.glyphs[usize::from(slot) - 1])
        }
    }

    /// The width of the glyph of this code in points, or 0 where there is none.
    pub fn width(&self, code: u8) -> u8
        ensures { result ≡ width_of_code self.now code }
    {
        match self.glyph(code) {
            None => 0,
            Some(glyph) => glyph.width,
        }
    }

    /// Whether the point of the glyph of this code is set, in the column counted from the left and
    /// the row counted from the top, both from 0. False where there is no glyph, and outside it.
    pub fn is_set(&self, code: u8, col: u8, row: u8) -> bool
        ensures { result ≡ is_set self.now code col row }
    {
        let Some(glyph) = self.glyph(code) else {
            return false;
        };
        if col >= glyph.width || row >= self.height {
            return false;
        }
        has_bit(glyph.rows[usize::from(row)], col)
    }

    /// The sum of the widths of these codes in points. There are at most 64.
    pub fn width_of(&self, text: &[u8]) -> u32
        requires { length text.now ≤ 64 }
        ensures { result ≡ width_of_text self.now text.now }
    {
        let mut sum = 0;
        for code in text {
            sum += u32::from(self.width(*code));
        }
        sum
    }

    /// An equal font, refused for want of memory alone.
    pub fn copy(&self, alloc: Global) -> Result<Font, Memory>
        ensures { IfOk result (λ f. f ≡ self.now) }
    {
        match Vec::from_slice(alloc, &self.glyphs) {
            Ok(glyphs) => Ok(Font {
                height: self.height,
                slots: self.slots,
                glyphs,
            }),
            Err(_) => Err(Memory),
        }
    }
}
