ghost use Rattle.std.specs.Prelude.{◌≡◌, ◌<◌, ◌≤◌, IfOk};
ghost use Rattle.bitmap.specs.Bitmaps.{IsBitmap, colour_at};

use gfx_base::{Colour, Memory};
use std::alloc::Global;
use std::marker::Model;

/// A bitmap: points in columns and rows, each of a colour or transparent. It is 1 to 256 points
/// wide and high.
#[derive(Drop)]
pub struct Bitmap {
    pub(crate) width: u16,
    pub(crate) height: u16,
    /// The values of the colours, row by row from the top. One above the last colour stands for a
    /// transparent point, so that each point takes four bytes.
    pub(crate) points: Vec<u32>,
}

impl Model for Bitmap {
    ghost use Rattle.bitmap.specs.Bitmaps.{Bitmap as Content, IsBitmap};
    ghost use Rattle.bitmap.specs.Reading.{points_from};

    ghost Value = { Content };

    ghost view = { λ b. record {
      width = b.width;
      height = b.height;
      points = points_from b.points.items;
    } };

    ghost invariant = { λ b. IsBitmap
        (record { width = b.width; height = b.height; points = points_from b.points.items }) };
}

impl Bitmap {
    /// The width in points, from 1 to 256.
    pub fn width(&self) -> u16
        ensures value { result ≡ self.now.width }
        ensures shape { IsBitmap self.now }
    {
        self.width
    }

    /// The height in points, from 1 to 256.
    pub fn height(&self) -> u16
        ensures { result ≡ self.now.height }
    {
        self.height
    }

    /// The colour of the point in column `x` and row `y`, both counted from 0 at the upper left
    /// corner, or `None` where it is transparent. The point lies inside.
    pub fn at(&self, x: u16, y: u16) -> Option<Colour>
        requires inside { (x < self.now.width) × (y < self.now.height) }
        ensures { result ≡ colour_at self.now x y }
    {
        let row = usize::from(y) * usize::from(self.width);
        Colour::new(self.points[row + usize::from(x)])
    }

    /// An equal bitmap, refused for want of memory alone.
    pub fn copy(&self, alloc: Global) -> Result<Bitmap, Memory>
        ensures { IfOk result (λ b. b ≡ self.now) }
    {
        match Vec::from_slice(alloc, &self.points) {
            Ok(points) => Ok(Bitmap {
                width: self.width,
                height: self.height,
                points,
            }),
            Err(_) => Err(Memory),
        }
    }
}
