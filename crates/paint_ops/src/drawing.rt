ghost use Rattle.std.specs.Prelude.{◌≡◌, ◌+◌, ◌%◌, ◌^◌, ◌≤◌, ◌<◌};
ghost use Rattle.std.specs.List.{AllByRecursion};
ghost use Rattle.paint_ops.specs.Soundness.{IsSound, IsOperation};
ghost use Rattle.paint_ops.specs.Operations.{Inputs};
ghost use Rattle.paint_ops.specs.Rows.{IsOrigin, LiesInRow, colour_on_screen, operation_count, operation_drawn, row_written};
ghost use Rattle.paint_ops.specs.Strips.{FitsIn, in_strip};
ghost use Rattle.paint_ops.specs.Panes.{inputs_of_pane, IsPane};

use crate::assets::Assets;
use crate::bitmaps::draw_bitmap;
use crate::fill::{draw_edge, fill_rect};
use crate::glyphs::{draw_number, draw_text};
use crate::op::Op;
use crate::pane::Pane;
use crate::pen::draw_line;
use crate::strip::Strip;
use frame::Frame;
use gfx_base::Point;
use region::Span;

/// Draws what an operation has in a strip.
fn draw_in(op: &Op, pane: &Pane, strip: Strip, assets: &Assets, target: &mut Frame)
    requires operation { IsOperation assets.now op.now }
    requires pane { IsPane pane.now }
    requires strip { FitsIn target.old strip }
    ensures { target.new ≡ row_written target.old strip.y (in_strip strip)
        (λ u. colour_on_screen assets.now (inputs_of_pane pane.now) op.now pane.now.origin u
        strip.y) }
{
    match *op {
        Op::Fill(x0, y0, x1, y1, colour) => {
            fill_rect(&pane.rect(x0, y0, x1, y1), strip, colour, target);
        }
        Op::Frame(x0, y0, x1, y1, colour) => {
            draw_edge(&pane.rect(x0, y0, x1, y1), strip, colour, target);
        }
        Op::HLine(x0, x1, y, colour) => {
            fill_rect(&pane.rect(x0, y, x1, y), strip, colour, target);
        }
        Op::VLine(x, y0, y1, colour) => {
            fill_rect(&pane.rect(x, y0, x, y1), strip, colour, target);
        }
        Op::Line(x0, y0, x1, y1, colour) => {
            draw_line(
                pane.place(x0, y0),
                pane.place(x1, y1),
                pane.origin,
                strip,
                colour,
                target,
            );
        }
        Op::Bitmap(bitmap, x, y) => {
            draw_bitmap(
                &assets.bitmaps[usize::from(bitmap)],
                pane.corner(x, y),
                strip,
                target,
            );
        }
        Op::Text(font, x, y, colour, string) => {
            let text = assets.strings[usize::from(string)].bytes();
            draw_text(
                &assets.fonts[usize::from(font)],
                text,
                pane.corner(x, y),
                strip,
                colour,
                target,
            );
        }
        Op::Number(font, x, y, colour, num) => {
            draw_number(
                &assets.fonts[usize::from(font)],
                pane.number(num),
                pane.corner(x, y),
                strip,
                colour,
                target,
            );
        }
    }
}

/// Draws an operation of a window on the row `y` of a frame, inside the spans: the points of them
/// that the operation covers get its colours, each written once for each span that has it, and no
/// other point is written. The window has these values, is `w` by `h` points large, each at most
/// 4,096, and its upper left corner lies at `origin`, whose numbers are from −65,535 to 65,535.
/// Coordinates are added exactly. The row and the points of the spans lie on the frame, and the
/// assets have all that the operation names.
pub fn draw(
    op: &Op,
    values: &[i16; 16],
    w: u16,
    h: u16,
    origin: Point,
    y: u16,
    spans: &[Span],
    assets: &Assets,
    target: &mut Frame,
)
    requires assets { IsSound assets.now }
    requires operation { IsOperation assets.now op.now }
    requires size { (w ≤ 4096) × (h ≤ 4096) }
    requires origin { IsOrigin origin.x × IsOrigin origin.y }
    requires row { y < target.old.picture.height }
    requires spans { AllByRecursion (LiesInRow target.old.picture.width) spans.now }
    ensures picture { target.new.picture ≡ operation_drawn assets.now
        (record { values = values.now; width = w; height = h }) op.now origin y spans.now
        target.old.picture }
    ensures writes { target.new.writes
        ≡ (target.old.writes
        + operation_count assets.now (record { values = values.now; width = w; height = h })
        op.now origin y spans.now target.old.picture.width) % 2 ^ 64 }
{
    let pane = Pane {
        values,
        width: w,
        height: h,
        origin,
    };
    let width = target.width();
    // The proof asks that the count of writes at first is a number of 64 bits.
    let _writes = target.writes();
    for span in spans {
        if let Some(strip) = Strip::of(*span, y, width) {
            draw_in(op, &pane, strip, assets, target);
        }
    }
}
