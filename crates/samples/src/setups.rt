//! Windows and what they paint with.

ghost use Rattle.std.specs.Prelude.{◌≡◌, ◌<◌, ◌≤◌, ◌↔◌, [], length, All, AllPairs, IfSome, IsTrue};
ghost use Rattle.std.specs.List.{AllByRecursion};
ghost use Rattle.paint_ops.specs.declared.class.Reaction.{Reaction as Reacting};
ghost use Rattle.paint_ops.specs.Kinds.{Assets as Content};
ghost use Rattle.paint_ops.specs.Soundness.{IsClass, IsOperation, IsReact, IsSound};
ghost use Rattle.scene.specs.Looks.{IsPaintable};
ghost use Rattle.scene.specs.Places.{AreSingle};

use gfx_base::Colour;
use paint_ops::{Assets, Class, Op, Reaction};
use scene::Win;
use std::alloc::Global;

/// A class of these, whose operations name no fonts, bitmaps and strings. `None` where memory runs
/// out.
pub fn class(
    alloc: Global,
    back: Option<Colour>,
    ops: &[Op],
    reactions: &[Reaction],
) -> Option<Class>
    requires few_ops { length ops.now ≤ 64 }
    requires few_reactions { length reactions.now ≤ 16 }
    requires ops { (assets : Content) → AllByRecursion (IsOperation assets) ops.now }
    requires reactions { AllByRecursion (λ (r : Reacting). IsReact r.react) reactions.now }
    ensures value { IfSome result (λ class.
        class ≡ record { back = back; ops = ops.now; reactions = reactions.now }) }
    ensures sound { IfSome result (λ class. (assets : Content) → IsClass assets class) }
{
    let Ok(ops) = Vec::from_slice(alloc, ops) else {
        return None;
    };
    let Ok(reactions) = Vec::from_slice(alloc, reactions) else {
        return None;
    };
    Some(Class {
        back,
        ops,
        reactions,
    })
}

/// Assets of these classes alone. `None` where memory runs out.
pub fn assets_of<const N: usize>(alloc: Global, classes: [Class; N]) -> Option<Assets>
    requires few { length classes ≤ 64 }
    requires classes { (assets : Content) → AllByRecursion (IsClass assets) classes }
    ensures value { IfSome result (λ assets.
        assets ≡ record { classes = classes.entry; fonts = []; bitmaps = []; strings = [] }) }
    ensures sound { IfSome result IsSound }
{
    match Vec::from_array(alloc, classes) {
        Ok(classes) => Some(Assets {
            classes,
            fonts: Vec::new(alloc),
            bitmaps: Vec::new(alloc),
            strings: Vec::new(alloc),
        }),
        Err(_) => None,
    }
}

fn is_paintable(w: &Win, assets: &Assets) -> bool
    ensures { IsTrue result ↔ IsPaintable assets.now w.now }
{
    w.w <= 4096 && w.h <= 4096 && usize::from(w.class) < assets.classes.len()
}

/// Whether the windows may be painted.
pub fn are_paintable(stack: &[Win], assets: &Assets) -> bool
    ensures { IsTrue result ↔ AllByRecursion (IsPaintable assets.now) stack.now }
{
    for w in stack {
        if !is_paintable(w, assets) {
            return false;
        }
    }
    true
}

/// Whether each handle is above those before it and below `u32::MAX`, so that none stands twice.
pub fn are_single(stack: &[Win]) -> bool
    ensures single { IsTrue result → AreSingle stack.now }
    ensures rising { IsTrue result ↔ (AllPairs (λ v w. v.handle < w.handle) stack.now
        × All (λ w. w.handle < u32.MAX) stack.now) }
{
    let mut next = u32::MAX;
    for i in (0..stack.len()).rev() {
        let handle = stack[i].handle;
        if next <= handle {
            return false;
        }
        next = handle;
    }
    true
}
