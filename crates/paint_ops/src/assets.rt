ghost use Rattle.std.specs.Prelude.{◌≡◌, IfOk};

use crate::class::Class;
use crate::replica::replicas;
use crate::text::Text;
use bitmap::Bitmap;
use gfx_base::Memory;
use glyph_font::Font;
use std::alloc::Global;
use std::marker::Model;

/// What windows paint with: classes, fonts, bitmaps and strings, each by its number from 0.
#[derive(Drop)]
pub struct Assets {
    pub classes: Vec<Class>,
    pub fonts: Vec<Font>,
    pub bitmaps: Vec<Bitmap>,
    pub strings: Vec<Text>,
}

impl Model for Assets {
    ghost use Rattle.paint_ops.specs.Kinds.{Assets as Content};

    ghost Value = { Content };

    ghost view = { λ a. record {
      classes = a.classes.items;
      fonts = a.fonts.items;
      bitmaps = a.bitmaps.items;
      strings = a.strings.items;
    } };
}

impl Assets {
    /// Equal assets, refused for want of memory alone.
    pub fn copy(&self, alloc: Global) -> Result<Assets, Memory>
        ensures { IfOk result (λ a. a ≡ self.now) }
    {
        Ok(Assets {
            classes: replicas(alloc, &self.classes)?,
            fonts: replicas(alloc, &self.fonts)?,
            bitmaps: replicas(alloc, &self.bitmaps)?,
            strings: replicas(alloc, &self.strings)?,
        })
    }
}
