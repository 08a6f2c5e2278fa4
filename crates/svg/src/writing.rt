//! Pictures as SVG texts. Each line is put together in room of the call's own and reaches the sink
//! in one write.

ghost use Rattle.std.specs.Prelude.{◌<◌};
ghost use Rattle.std.specs.List.{flat_map};
ghost use Rattle.outside.specs.Logs.{Wrote};
ghost use Rattle.svg.specs.Rectangles.{rectangles_at, rectangles_of_row};
ghost use Rattle.svg.specs.Texts.{rectangle_text, svg_head, svg_text};

use crate::image::Image;
use crate::shapes::{Rectangle, rectangle_at};
use outside::{Sink, SinkFault};
use spelling::LineRoom;

/// Room for one line.
pub type ShortRoom = LineRoom<256>;

#[tactic(auto, unfolding(crate::specs::Texts::rectangle_text))]
fn write_rectangle<K: Sink>(out: &mut K, r: &Rectangle) -> Result<(), SinkFault>
    ensures { Wrote result (K.log out.old) (K.log out.new) (rectangle_text r.now) }
{
    let mut room = ShortRoom::new();
    room.push_bytes(b"<rect x=\"");
    room.push_number(r.x);
    room.push_bytes(b"\" y=\"");
    room.push_number(r.y);
    room.push_bytes(b"\" width=\"");
    room.push_number(r.width);
    room.push_bytes(b"\" height=\"");
    room.push_number(r.height);
    room.push_bytes(b"\" fill=\"#");
    room.push_colour(r.colour);
    room.push_bytes(b"\"/>\n");
    out.write(room.line())
}

#[tactic(auto, unfolding(crate::specs::Texts::svg_head))]
fn write_head<K: Sink>(out: &mut K, width: usize, height: usize) -> Result<(), SinkFault>
    ensures { Wrote result (K.log out.old) (K.log out.new) (svg_head width height) }
{
    let mut room = ShortRoom::new();
    room.push_bytes(b"<svg xmlns=\"http://www.w3.org/2000/svg\" width=\"");
    room.push_number(width);
    room.push_bytes(b"\" height=\"");
    room.push_number(height);
    room.push_bytes(b"\" viewBox=\"0 0 ");
    room.push_number(width);
    room.push_bytes(b" ");
    room.push_number(height);
    room.push_bytes(b"\" shape-rendering=\"crispEdges\">\n");
    out.write(room.line())
}

/// Writes the rectangle whose upper left point is that one, if there is one.
fn write_at<K: Sink>(out: &mut K, image: &Image, x: usize, y: usize) -> Result<(), SinkFault>
    requires inside { (x < image.now.width) × (y < image.now.height) }
    ensures { Wrote result (K.log out.old) (K.log out.new)
        (flat_map rectangle_text (rectangles_at image.now y x)) }
{
    match rectangle_at(image, x, y) {
        None => Ok(()),
        Some(rectangle) => write_rectangle(out, &rectangle),
    }
}

/// Writes the rectangles whose upper row is row `y`.
fn write_row<K: Sink>(out: &mut K, image: &Image, y: usize) -> Result<(), SinkFault>
    requires { y < image.now.height }
    ensures { Wrote result (K.log out.old) (K.log out.new)
        (flat_map rectangle_text (rectangles_of_row image.now y)) }
{
    for x in 0..image.width() {
        write_at(out, image, x, y)?;
    }
    Ok(())
}

/// Writes the SVG text of a picture. After a fault of the sink a prefix of it was written.
pub fn write_svg<K: Sink>(out: &mut K, image: &Image) -> Result<(), SinkFault>
    ensures { Wrote result (K.log out.old) (K.log out.new) (svg_text image.now) }
{
    write_head(out, image.width(), image.height())?;
    for y in 0..image.height() {
        write_row(out, image, y)?;
    }
    out.write(b"</svg>\n")
}
