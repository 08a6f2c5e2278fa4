//! Changes of one window, or of its place in the order.

ghost use Rattle.std.specs.Prelude.{◌≡◌, ℤ, ◌+ℤ◌, Ok, Err, Some};
ghost use Rattle.scene.specs.Stacks.{IsStack};
ghost use Rattle.desk.specs.Desks.{refusal_of, objections};
ghost use Rattle.desk.specs.Changes.{call_for, list_after};
ghost use Rattle.window_list.specs.Refusals.{Performs, told};

use crate::refusals::refusal_for;
use calls::Refusal;
use desk::Change;
use win_tree::{Tree, TreeRefused};

/// The desktop's handle.
const DESKTOP: u32 = 1;

/// What the tree answered, as the core answers it.
fn told(answer: Result<(), TreeRefused>) -> Result<(), Refusal>
    ensures { result ≡ told answer }
{
    match answer {
        Ok(()) => Ok(()),
        Err(refused) => Err(refusal_for(refused)),
    }
}

/// Moves a window by differences.
fn move_by(tree: &mut Tree, h: u32, dx: i16, dy: i16) -> Result<(), Refusal>
    requires { IsStack tree.old.windows }
    ensures { let change = call_for h (Change.MoveBy dx dy) in Performs result
        (refusal_of (objections 0 tree.old.windows change))
        (list_after h (Change.MoveBy dx dy) tree.old.windows) tree.old tree.new }
{
    let Some(win) = tree.get(h) else {
        return Err(Refusal::NoWindow(h));
    };
    let x = win.x.saturating_add(dx);
    let y = win.y.saturating_add(dy);
    told(tree.move_to(h, x, y))
}

/// Gives a window the class of this number, where there are so many.
fn set_class(tree: &mut Tree, h: u32, class: u8, classes: usize) -> Result<(), Refusal>
    requires { IsStack tree.old.windows }
    ensures { Performs result
        (refusal_of (objections classes tree.old.windows (call_for h (Change.SetClass class))))
        (list_after h (Change.SetClass class) tree.old.windows) tree.old tree.new }
{
    let Some(win) = tree.get(h) else {
        return Err(Refusal::NoWindow(h));
    };
    if h == DESKTOP {
        return Err(Refusal::Desktop);
    }
    if usize::from(class) >= classes {
        return Err(Refusal::NoClass(class));
    }
    let mut changed = *win;
    changed.class = class;
    tree.put(&changed);
    Ok(())
}

/// Lets what lies behind a window be seen through it, or no longer.
fn set_trans(tree: &mut Tree, h: u32, trans: bool) -> Result<(), Refusal>
    requires { IsStack tree.old.windows }
    ensures { Performs result
        (refusal_of (objections 0 tree.old.windows (call_for h (Change.SetTrans trans))))
        (list_after h (Change.SetTrans trans) tree.old.windows) tree.old tree.new }
{
    let Some(win) = tree.get(h) else {
        return Err(Refusal::NoWindow(h));
    };
    if h == DESKTOP {
        return Err(Refusal::Desktop);
    }
    let mut changed = *win;
    changed.trans = trans;
    tree.put(&changed);
    Ok(())
}

/// Makes a change in the tree, where there are so many classes.
pub fn perform(tree: &mut Tree, h: u32, change: Change, classes: usize) -> Result<(), Refusal>
    requires { IsStack tree.old.windows }
    ensures { Performs result
        (refusal_of (objections classes tree.old.windows (call_for h change)))
        (list_after h change tree.old.windows) tree.old tree.new }
{
    match change {
        Change::Delete => told(tree.delete(h)),
        Change::MoveTo { x, y } => told(tree.move_to(h, x, y)),
        Change::MoveBy { dx, dy } => move_by(tree, h, dx, dy),
        Change::Resize { width, height } => told(tree.resize(h, width, height)),
        Change::Show => told(tree.set_shown(h, true)),
        Change::Hide => told(tree.set_shown(h, false)),
        Change::ToTop => told(tree.to_top(h)),
        Change::ToBottom => told(tree.to_bottom(h)),
        Change::SetClass { class } => set_class(tree, h, class, classes),
        Change::SetTrans { trans } => set_trans(tree, h, trans),
    }
}
