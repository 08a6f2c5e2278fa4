//! Messages on their way from a window up to the desktop.

ghost use Rattle.std.specs.Prelude.{◌≡◌, ◌<◌, ◌==◌, Some, length, position, slice_get, slice_set};
ghost use Rattle.paint_ops.specs.Soundness.{IsSound};
ghost use Rattle.scene.specs.declared.win.Win.{Win as Window};
ghost use Rattle.scene.specs.Places.{AreSingle};
ghost use Rattle.messages.specs.Delivery.{after_message, handed_on};
ghost use Rattle.messages.specs.Delivery.{lineage, delivered_along, delivered};

use crate::reactions::{first_up, values_after};
use crate::values::put_values;
use gfx_base::Rect;
use paint_ops::Assets;
use scene::Win;

/// The deepest level of a window: the desktop has level 1, and a child the level after its
/// parent's.
const LEVELS: u8 = 8;

/// Lets the window at `i` react to a message, and tells which message it hands on, if any.
fn react(
    stack: &mut [Win],
    i: usize,
    msg: u8,
    arg: i16,
    assets: &Assets,
    screen: &Rect,
) -> Option<u8>
    requires place { i < length stack.old }
    requires assets { IsSound assets.now }
    ensures stack { (w : Window) → slice_get stack.old i ≡ Some w
        → stack.new
        ≡ slice_set stack.old i (after_message assets.now screen.now stack.old msg arg w) }
    ensures up { (w : Window) → slice_get stack.old i ≡ Some w
        → result ≡ handed_on assets.now msg w }
{
    let class = assets.classes.get(usize::from(stack[i].class))?;
    let values = values_after(&class.reactions, msg, arg, &stack[i].values);
    put_values(stack, i, &values, screen);
    first_up(&class.reactions, msg)
}

/// The place of the first window that has the handle.
fn place_of(stack: &[Win], handle: u32) -> Option<usize>
    ensures { result ≡ position (λ w. w.handle == handle) stack.now }
{
    stack.iter().position(|w| w.handle == handle)
}

/// Delivers a message to the window at `i` and upwards, to so many windows at most.
fn deliver_up(
    stack: &mut [Win],
    i: usize,
    msg: u8,
    arg: i16,
    assets: &Assets,
    screen: &Rect,
    levels: u8,
)
    requires place { i < length stack.old }
    requires single { AreSingle stack.old }
    requires assets { IsSound assets.now }
    ensures { (w : Window) → slice_get stack.old i ≡ Some w
        → stack.new
        ≡ delivered_along assets.now screen.now msg arg (lineage levels stack.old w) stack.old }
{
    if levels == 0 {
        return;
    }
    let Some(up) = react(stack, i, msg, arg, assets, screen) else {
        return;
    };
    let Some(parent) = place_of(stack, stack[i].parent) else {
        return;
    };
    deliver_up(stack, parent, up, arg, assets, screen, levels - 1);
}

/// Delivers a message, by its number and with an argument, to the window at `i`. Its class's
/// reactions to that number act in order: each sets one of its values to a number or to the
/// argument, or adds that to one, and sums stop at −32,768 and 32,767. Then, where a value differs
/// from before, the window becomes invalid on its whole clip, covered by other windows or not. Then
/// the first reaction that hands on a message delivers that one, with the same argument, to the
/// parent, and so on upwards, to the desktop at most, which in a valid stack is within eight
/// windows. Any further reaction that hands on a message does nothing. No handle stands twice. A
/// window of a class that isn't there has no reactions.
pub fn deliver(stack: &mut [Win], i: usize, msg: u8, arg: i16, assets: &Assets, screen: &Rect)
    requires place { i < length stack.old }
    requires single { AreSingle stack.old }
    requires assets { IsSound assets.now }
    ensures { (w : Window) → slice_get stack.old i ≡ Some w
        → stack.new ≡ delivered assets.now screen.now msg arg w stack.old }
{
    deliver_up(stack, i, msg, arg, assets, screen, LEVELS);
}
