//! Why calls on windows are refused.

ghost use Rattle.std.specs.Prelude.{◌≡◌, ℤ};
ghost use Rattle.calls.specs.declared.call.Call.TheVariants.{Create};
ghost use Rattle.window_list.specs.Refusals.{refusal_for};
ghost use Rattle.desk.specs.Desks.{refusal_of, objections};

use calls::Refusal;
use win_tree::{Tree, TreeRefused};

/// The core's refusal for the tree's.
pub fn refusal_for(refused: TreeRefused) -> Refusal
    ensures { result ≡ refusal_for refused }
{
    match refused {
        TreeRefused::NoWindow(h) => Refusal::NoWindow(h),
        TreeRefused::Desktop => Refusal::Desktop,
        TreeRefused::BadSize => Refusal::BadSize,
        TreeRefused::TooManyWindows => Refusal::TooManyWindows,
        TreeRefused::TooDeep => Refusal::TooDeep,
    }
}

/// Why a window can't be made, where there are so many classes. The number of windows counts last.
pub fn refusal_of_create(
    tree: &Tree,
    parent: u32,
    w: u16,
    h: u16,
    class: u8,
    classes: usize,
) -> Option<Refusal>
    ensures { (x y : ℤ) → result
        ≡ refusal_of (objections classes tree.now.windows (Create parent x y w h class)) }
{
    let is_known = usize::from(class) < classes;
    match tree.refusal_of_create(parent, w, h) {
        None | Some(TreeRefused::TooManyWindows) if !is_known => Some(Refusal::NoClass(class)),
        Some(refused) => Some(refusal_for(refused)),
        None => None,
    }
}
