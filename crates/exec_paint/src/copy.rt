//! Copying from one frame to another what a job has composed, each point once.

ghost use Rattle.std.specs.Prelude.{◌≡◌, ◌<◌, ◌^◌, pos};
ghost use Rattle.frame.specs.Pictures.{HasShape, colour_at};
ghost use Rattle.region.specs.Spans.{in_spans, AreRising};
ghost use Rattle.exec_paint.specs.Rows.{in_run, FitsIn};
ghost use Rattle.exec_paint.specs.Writes.{HaveSameSides, in_row, written_once};

use crate::run::{Run, run_of_span};
use frame::Frame;
use frame::laws::changes_only_there;
use region::Span;

/// Does nothing. A frame has as many points as its sides say, and its count of writes is a number
/// of 64 bits.
pub fn frame_is_sound(frame: &Frame)
    ensures shape { HasShape frame.now.picture }
    ensures count { frame.now.writes < 2 ^ 64 }
{
    let _width = frame.width();
    let _writes = frame.writes();
}

/// Copies the columns to the same places.
fn copy_run(run: Run, device: &Frame, target: &mut Frame)
    requires sides { HaveSameSides device.now.picture target.old.picture }
    requires shape { HasShape target.old.picture }
    requires run { FitsIn target.old.picture run }
    ensures { target.new
        ≡ written_once target.old (in_row run.y (in_run run)) (colour_at device.now.picture) }
{
    changes_only_there();
    target.copy_span(device, run.y, run.left, run.right);
}

/// Copies the columns of the spans, of which none lies in two, to the same places.
pub fn copy_spans(spans: &[Span], y: u16, device: &Frame, target: &mut Frame)
    requires sides { HaveSameSides device.now.picture target.old.picture }
    requires row { y < target.old.picture.height }
    requires rising { AreRising spans.now }
    ensures { target.new
        ≡ written_once target.old (in_row y (λ u. in_spans spans.now (pos u)))
        (colour_at device.now.picture) }
{
    frame_is_sound(target);
    let width = target.width();
    for span in spans {
        if let Some(run) = run_of_span(*span, y, width) {
            copy_run(run, device, target);
        }
    }
}
