//! Assets whose classes react and paint nothing.

ghost use Rattle.std.specs.Prelude.{◌≡◌, true, IfSome};
ghost use Rattle.std.specs.List.{AllByRecursion};
ghost use Rattle.paint_ops.specs.declared.class.Reaction.{Reaction as Reacting};
ghost use Rattle.paint_ops.specs.Kinds.{Assets as Content};
ghost use Rattle.paint_ops.specs.Soundness.{IsClass, IsReact, IsSound};

use paint_ops::{Assets, Class, React, Reaction};
use samples::{assets_of, class};
use std::alloc::Global;

/// Whether the reaction names only values that exist.
fn is_sound(reaction: &Reaction) -> bool
    ensures { result ≡ true → IsReact reaction.now.react }
{
    match reaction.react {
        React::Set(i, _) | React::Add(i, _) => i < 16,
        React::Up(_) => true,
    }
}

fn are_sound(reactions: &[Reaction]) -> bool
    ensures { result ≡ true
        → AllByRecursion (λ (r : Reacting). IsReact r.react) reactions.now }
{
    for reaction in reactions {
        if !is_sound(reaction) {
            return false;
        }
    }
    true
}

/// A class of at most sixteen sound reactions.
fn reacting(alloc: Global, reactions: &[Reaction]) -> Option<Class>
    ensures { IfSome result (λ class. (assets : Content) → IsClass assets class) }
{
    if reactions.len() > 16 || !are_sound(reactions) {
        return None;
    }
    class(alloc, None, &[], reactions)
}

/// Assets of three classes with these reactions, if they are sound.
pub fn assets(alloc: Global, reactions: [&[Reaction]; 3]) -> Option<Assets>
    ensures { IfSome result IsSound }
{
    let [first, second, third] = reactions;
    let first = reacting(alloc, first)?;
    let second = reacting(alloc, second)?;
    let third = reacting(alloc, third)?;
    assets_of(alloc, [first, second, third])
}
