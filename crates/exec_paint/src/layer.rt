//! Windows, from back to front, on the visible parts of one row.

ghost use Rattle.std.specs.Prelude.{◌≡◌, ◌<◌, ◌≤◌, pos, length, slice_index_or};
ghost use Rattle.std.specs.List.{AllByRecursion};
ghost use Rattle.gfx_base.specs.Rects.{point_at};
ghost use Rattle.frame.specs.Pictures.{HasShape};
ghost use Rattle.region.specs.Spans.{in_spans};
ghost use Rattle.paint_ops.specs.Soundness.{IsSound};
ghost use Rattle.scene.specs.Looks.{IsPaintable, screen_with, looks_of};
ghost use Rattle.scene.specs.Painting.{windows_at, painted_over};

use crate::run::{has_row, paint_run, run_in};
use frame::Frame;
use gfx_base::{Point, Rect};
use paint_ops::Assets;
use region::Span;
use scene::Win;

/// A window that is painted: its place in the stack, where its upper left corner lies, and what it
/// may paint.
#[derive(Clone, Copy)]
pub struct Layer {
    pub at: usize,
    pub corner: Point,
    pub clip: Rect,
}

ghost use Rattle.exec_paint.specs.Rows.{row_mapped};
ghost use Rattle.scene.specs.Places.{no_window};
ghost use Rattle.exec_paint.specs.Layers.{IsLayer, window_at, windows_in, over_window};

/// The window at a place of the stack.
pub fn window_of(stack: &[Win], at: usize) -> &Win
    requires { at < length stack.now }
    ensures { result.now ≡ slice_index_or stack.now at no_window }
{
    &stack[at]
}

/// Paints one window on the row `y` inside the spans, as far as its clip has their points.
fn paint_layer(
    stack: &[Win],
    layer: &Layer,
    spans: &[Span],
    y: u16,
    assets: &Assets,
    target: &mut Frame,
)
    requires assets { IsSound assets.now }
    requires windows { AllByRecursion (IsPaintable assets.now) stack.now }
    requires layer { IsLayer
        (screen_with target.old.picture.width target.old.picture.height) stack.now layer.now }
    requires shape { HasShape target.old.picture }
    requires row { y < target.old.picture.height }
    ensures { target.new.picture
        ≡ row_mapped target.old.picture y (λ u. in_spans spans.now (pos u))
        (λ u old. over_window
        (looks_of assets.now
        (screen_with target.old.picture.width target.old.picture.height) stack.now)
        (window_at stack.now layer.now) (point_at (pos u) (pos y)) old) }
{
    if !has_row(&layer.clip, y) {
        return;
    }
    let width = target.width();
    let window = window_of(stack, layer.at);
    for span in spans {
        if let Some(run) = run_in(*span, &layer.clip, y, width) {
            paint_run(window, layer.corner, run, assets, target);
        }
    }
}

/// Paints windows on the row `y` inside the spans, from the first to the last.
pub fn paint_layers(
    stack: &[Win],
    layers: &[Layer],
    spans: &[Span],
    y: u16,
    assets: &Assets,
    target: &mut Frame,
)
    requires assets { IsSound assets.now }
    requires windows { AllByRecursion (IsPaintable assets.now) stack.now }
    requires layers { AllByRecursion
        (IsLayer (screen_with target.old.picture.width target.old.picture.height) stack.now)
        layers.now }
    requires shape { HasShape target.old.picture }
    requires row { y < target.old.picture.height }
    ensures { target.new.picture
        ≡ row_mapped target.old.picture y (λ u. in_spans spans.now (pos u))
        (λ u old. let looks = looks_of assets.now
        (screen_with target.old.picture.width target.old.picture.height) stack.now in
        let p = point_at (pos u) (pos y) in painted_over looks p old
        (windows_at looks (windows_in stack.now layers.now) p)) }
{
    for layer in layers {
        paint_layer(stack, layer, spans, y, assets, target);
    }
}
