ghost use Rattle.std.specs.Prelude.{◌≡◌, ◌<◌, ◌≤◌, length};
ghost use Rattle.frame.specs.Pictures.{IsShape, row_at};

use gfx_base::Colour;
use std::marker::Model;

/// A picture: points in columns and rows. It is 1 to 1,024 points wide and 1 to 768 points high.
#[derive(Drop)]
pub struct Image {
    width: usize,
    height: usize,
    /// Row by row from the top.
    points: Vec<Colour>,
}

impl Model for Image {
    ghost use Rattle.frame.specs.Pictures.{Picture, IsShape};
    ghost use Rattle.std.specs.Prelude.{length};

    ghost Value = { Picture };

    ghost view = { λ i. record { width = i.width; height = i.height; points = i.points.items } };

    ghost invariant = { λ i. IsShape i.width i.height (length i.points.items) };
}

impl Image {
    /// The picture of these points, row by row from the top.
    pub(crate) fn new(width: usize, height: usize, points: Vec<Colour>) -> Image
        requires { IsShape width height (length points.items) }
        ensures { result ≡ record { width = width; height = height; points = points.items } }
    {
        Image {
            width,
            height,
            points,
        }
    }

    /// The width in points, from 1 to 1,024.
    pub fn width(&self) -> usize
        ensures value { result ≡ self.now.width }
        ensures shape { IsShape self.now.width self.now.height (length self.now.points) }
    {
        self.width
    }

    /// The height in points, from 1 to 768.
    pub fn height(&self) -> usize
        ensures value { result ≡ self.now.height }
        ensures within { result ≤ 768 }
    {
        self.height
    }

    /// The colours of row `y`, which lies inside.
    pub fn row(&self, y: usize) -> &[Colour]
        requires { y < self.now.height }
        ensures value { result.now ≡ row_at self.now y }
        ensures len { length result.now ≡ self.now.width }
    {
        let start = y * self.width;
        &self.points[start..start + self.width]
    }
}
