//! Strokes on devices.

ghost use Rattle.std.specs.Prelude.{◌≡◌};
ghost use Rattle.paint_ops.specs.Soundness.{IsSound, IsOperation};
ghost use Rattle.strokes.specs.Strokes.{operation_of, colour_of_stroke, inked_whole};

use crate::bounds::bounds;
use crate::drawing::draw_stroke;
use crate::shape::Shape;
use context::Context;
use frame::Frame;
use gfx_base::Point;
use paint_ops::Assets;
use scene::screen;

/// Draws a shape with the context on a device: its coordinates are counted from the device's upper
/// left corner, and only its points that lie inside the device change. The assets have what the
/// shape names, and for a text the context's font. No memory is taken.
///
/// What it costs: for each row of the device that the shape's bounds reach, what the shape has
/// there.
pub fn on_device(context: &Context, shape: &Shape, assets: &Assets, device: &mut Frame)
    requires assets { IsSound assets.now }
    requires shape { IsOperation assets.now (operation_of context.now shape.now) }
    ensures { device.new.picture
        ≡ inked_whole (colour_of_stroke assets.now context.now shape.now) device.old.picture }
{
    let whole = screen(device.width(), device.height());
    let area = bounds(context, shape, assets).meet(&whole);
    if area.is_empty() {
        return;
    }
    let corner = Point { x: 0, y: 0 };
    draw_stroke(context, shape, corner, &area, &[], assets, device);
}
