//! The tree of windows.

ghost use Rattle.std.specs.Prelude.{ℕ, ◌≡◌, ◌≢◌, ◌+◌, ◌<◌, ◌≤◌, ◌==◌, [], ◌∷◌, ◌++◌, length, true, false, None, Some, option_map, IfOk, IfErr, OnOk, OnErr, IfSome, IsSome};
ghost use Rattle.scene.specs.declared.win.Win.{Win as Window};
ghost use Rattle.arrayvec.specs.ArrayVec.{array_vec_len};
ghost use Rattle.slab.specs.Slab.{get, slab_len};
ghost use Rattle.scene.specs.Looks.{screen_with};
ghost use Rattle.scene.specs.Places.{window_of};
ghost use Rattle.scene.specs.Families.{new_window, desktop_with, on_top_of, without_family, raised, lowered, window_changed, moved_to, resized_to, with_shown};
ghost use Rattle.scene.specs.Stacks.{has_ancestors, is_bad_size, IsWindow, IsDesktop, IsStack, AreGiven};
ghost use Rattle.win_tree.specs.Links.{order_from};
ghost use Rattle.win_tree.specs.Trees.{IsReplacement};
ghost use Rattle.win_tree.specs.Refusals.{refusal_of_create, refusal_of_change, refusal_of_resize};

use crate::links::{detach, free, put_at_bottom, put_on_top};
use crate::node::{Node, Nodes};
use crate::refused::TreeRefused;
use crate::search::find;
use gfx_base::Memory;
use scene::{MOST_WINDOWS, Stack, Win, screen};
use slab::Slab;
use std::alloc::Global;
use std::marker::Model;

/// The greatest side of a window, in points.
const MOST_SIDE: u16 = 4096;

/// The desktop's handle.
const DESKTOP: u32 = 1;

/// How many ancestors a window of the deepest level has.
const MOST_ANCESTORS: u8 = 7;

/// The windows of a screen. Contracts see them from back to front, with how many handles were given
/// out.
///
/// Each call that is given a handle looks for it among the windows, of which there are at most 256.
#[derive(Drop)]
pub struct Tree {
    nodes: Nodes,
    /// The key of the desktop.
    desktop: usize,
    /// How many handles were given out.
    handles: u32,
}

impl Model for Tree {
    ghost use Rattle.std.specs.Prelude.{Some};
    ghost use Rattle.slab.specs.Slab.{get, slab_len};
    ghost use Rattle.win_tree.specs.Trees.{Scene};

    ghost Value = { Scene };

    ghost use Rattle.win_tree.specs.Links.{order_from};
    ghost use Rattle.win_tree.specs.Forests.{IsTree};

    ghost view = { λ t. record {
      windows = order_from (slab_len t.nodes) (get t.nodes) (Some t.desktop);
      handles = t.handles;
    } };

    ghost invariant = { λ t. IsTree t.nodes t.desktop t.handles };
}

/// A new window: shown, not transparent, and nowhere invalid.
fn window(handle: u32, parent: u32, x: i16, y: i16, w: u16, h: u16, class: u8) -> Win
    ensures { result ≡ new_window handle parent x y w h class }
{
    Win {
        handle,
        parent,
        x,
        y,
        w,
        h,
        shown: true,
        class,
        trans: false,
        memdev: false,
        values: [0; 16],
        invalid: None,
    }
}

/// The desktop, which is wholly invalid.
fn desktop(width: u16, height: u16) -> Win
    ensures { result ≡ desktop_with width height (screen_with width height) }
{
    Win {
        invalid: Some(screen(width, height)),
        ..window(DESKTOP, 0, 0, 0, width, height, 0)
    }
}

/// Whether a window can't have these sides.
fn is_bad(w: u16, h: u16) -> bool
    ensures { result ≡ is_bad_size w h }
{
    w == 0 || h == 0 || w > MOST_SIDE || h > MOST_SIDE
}

/// Appends the windows that a link leads to, from back to front. So many links at most are followed
/// one after the other.
fn push_order(nodes: &Nodes, link: Option<usize>, steps: usize, out: &mut Stack)
    requires { array_vec_len out.old + length (order_from steps (get nodes.now) link) ≤ 256 }
    ensures { out.new.items ≡ out.old.items ++ order_from steps (get nodes.now) link }
{
    if steps == 0 {
        return;
    }
    let Some(key) = link else {
        return;
    };
    if let Some(node) = nodes.get(key) {
        push_order(nodes, node.next, steps - 1, out);
        out.push(node.win);
        push_order(nodes, node.first, steps - 1, out);
    }
}

impl Tree {
    /// The desktop alone, of a screen's size in points, from 1 by 1 to 1,024 by 768. The room for
    /// all windows is taken here, and no other call takes memory.
    pub fn open(alloc: Global, w: u16, h: u16) -> Result<Tree, Memory>
        requires width { (1 ≤ w) × (w ≤ 1024) }
        requires height { (1 ≤ h) × (h ≤ 768) }
        ensures { IfOk result (λ tree. tree
            ≡ record { windows = desktop_with w h (screen_with w h) ∷ []; handles = 1 }) }
    {
        let Ok(mut nodes) = Slab::with_capacity(alloc, MOST_WINDOWS) else {
            return Err(Memory);
        };
        let desktop = nodes.insert_reserved(Node {
            win: desktop(w, h),
            first: None,
            next: None,
        });
        Ok(Tree {
            nodes,
            desktop,
            handles: 1,
        })
    }

    /// Puts the windows into `out`, from back to front, in place of what it had. The time is that
    /// of copying them.
    pub fn walk(&self, out: &mut Stack)
        ensures windows { out.new.items ≡ self.now.windows }
        ensures stack { IsStack out.new.items }
        ensures given { AreGiven self.now.handles out.new.items }
    {
        out.clear();
        push_order(&self.nodes, Some(self.desktop), self.nodes.len(), out);
    }

    /// The window that has the handle, if there is one.
    pub fn get(&self, h: u32) -> Option<&Win>
        ensures found { option_map (λ w. w.now) result ≡ window_of self.now.windows h }
        ensures window { IfSome result (λ w. IsWindow w.now) }
    {
        let key = find(&self.nodes, h)?;
        Some(&self.nodes[key].win)
    }

    /// Whether a window has so many ancestors at least.
    #[tactic(auto, unfolding(scene::specs::Stacks::has_ancestors))]
    fn has_ancestors(&self, w: &Win, count: u8) -> bool
        ensures { result ≡ has_ancestors count self.now.windows w.now }
    {
        if count == 0 {
            return true;
        }
        match self.get(w.parent) {
            Some(parent) => self.has_ancestors(parent, count - 1),
            None => false,
        }
    }

    /// How many windows there are.
    fn len(&self) -> usize
        ensures { result ≡ length self.now.windows }
    {
        self.nodes.len()
    }

    /// The first reason why a window of these sides can't be made in a parent, if there is one, for
    /// which `create` would be refused.
    pub fn refusal_of_create(&self, parent: u32, w: u16, h: u16) -> Option<TreeRefused>
        ensures { result ≡ refusal_of_create self.now.windows parent w h }
    {
        let Some(over) = self.get(parent) else {
            return Some(TreeRefused::NoWindow(parent));
        };
        if self.has_ancestors(over, MOST_ANCESTORS) {
            return Some(TreeRefused::TooDeep);
        }
        if is_bad(w, h) {
            return Some(TreeRefused::BadSize);
        }
        if self.len() >= MOST_WINDOWS {
            return Some(TreeRefused::TooManyWindows);
        }
        None
    }

    /// Puts a new window, which has the next handle, on top of its parent's children.
    fn add(&mut self, win: &Win)
        requires parent { IsSome (window_of self.old.windows win.now.parent) }
        requires few { length self.old.windows < 256 }
        requires shallow { (over : Window) → window_of self.old.windows win.now.parent ≡ Some over
            → has_ancestors 7 self.old.windows over ≡ false }
        requires handle { win.now.handle ≡ self.old.handles + 1 }
        requires window { IsWindow win.now }
        ensures { self.new ≡ record {
          windows = on_top_of win.now.parent (win.now ∷ []) self.old.windows;
          handles = self.old.handles + 1;
        } }
    {
        let Some(parent) = find(&self.nodes, win.parent) else {
            unreachable!();
        };
        let key = self.nodes.insert_reserved(Node {
            win: *win,
            first: None,
            next: None,
        });
        put_on_top(&mut self.nodes, parent, key);
        self.handles = win.handle;
    }

    /// Makes a window in a parent, and gives its handle, the next one. It is shown, and on top of
    /// the parent's children. Its place is told from the parent's, and its sides are from 1 to
    /// 4,096 points. Where more than one reason speaks against it, the first of these is answered:
    /// there is no such parent, it has the deepest level, the size is bad, there are 256 windows.
    pub fn create(
        &mut self,
        parent: u32,
        x: i16,
        y: i16,
        w: u16,
        h: u16,
        class: u8,
    ) -> Result<u32, TreeRefused>
        requires { self.old.handles < 4294967295 }
        ensures refused { IfErr result
            (λ why. refusal_of_create self.old.windows parent w h ≡ Some why) }
        ensures unchanged { OnErr result (self.new ≡ self.old) }
        ensures accepted { OnOk result (refusal_of_create self.old.windows parent w h ≡ None) }
        ensures handle { IfOk result (λ handle. handle ≡ self.old.handles + 1) }
        ensures created { IfOk result (λ handle. self.new ≡ record {
          windows =
              on_top_of parent (new_window handle parent x y w h class ∷ []) self.old.windows;
          handles = handle;
        }) }
    {
        if let Some(why) = self.refusal_of_create(parent, w, h) {
            return Err(why);
        }
        let handle = self.handles + 1;
        self.add(&window(handle, parent, x, y, w, h, class));
        Ok(handle)
    }

    /// A window that may be changed, which the desktop may not.
    fn changeable(&self, h: u32) -> Result<Win, TreeRefused>
        ensures refused { IfErr result (λ why. refusal_of_change self.now.windows h ≡ Some why) }
        ensures accepted { OnOk result (refusal_of_change self.now.windows h ≡ None) }
        ensures live { IfOk result (λ w. window_of self.now.windows h ≡ Some w) }
        ensures handle { IfOk result (λ w. w.handle ≡ h) }
        ensures other { OnOk result (h ≢ 1) }
        ensures window { IfOk result IsWindow }
    {
        let _ = &self.nodes;
        let Some(w) = self.get(h) else {
            return Err(TreeRefused::NoWindow(h));
        };
        if h == DESKTOP {
            return Err(TreeRefused::Desktop);
        }
        Ok(*w)
    }

    /// Puts a window in the place of the one that has its handle and its parent.
    fn replace(&mut self, win: &Win)
        requires parent { IfSome (window_of self.old.windows win.now.handle)
            (λ w. w.parent ≡ win.now.parent) }
        requires live { IsSome (window_of self.old.windows win.now.handle) }
        requires window { IsWindow win.now }
        requires desktop { win.now.handle ≡ 1 → IsDesktop win.now }
        ensures { (w : Window) (change : Window → Window)
            → window_of self.old.windows win.now.handle ≡ Some w → change w ≡ win.now
            → self.new ≡ record {
              windows = window_changed win.now.handle change self.old.windows;
              handles = self.old.handles;
            } }
    {
        let Some(key) = find(&self.nodes, win.handle) else {
            unreachable!();
        };
        self.nodes[key].win = *win;
    }

    /// Takes a window out of its siblings and puts it on top of them, with its descendants.
    fn raise(&mut self, win: &Win)
        requires live { window_of self.old.windows win.now.handle ≡ Some win.now }
        requires other { win.now.handle ≢ 1 }
        ensures windows { self.new ≡ record {
          windows = raised win.now.handle self.old.windows;
          handles = self.old.handles;
        } }
        ensures found { (handle : ℕ)
            → window_of self.new.windows handle ≡ window_of self.old.windows handle }
    {
        let Some(key) = find(&self.nodes, win.handle) else {
            unreachable!();
        };
        let Some(parent) = find(&self.nodes, win.parent) else {
            unreachable!();
        };
        let below = self.nodes[key].next;
        detach(&mut self.nodes, key, below);
        put_on_top(&mut self.nodes, parent, key);
    }

    /// Takes a window out of its siblings and puts it below them, with its descendants.
    fn lower(&mut self, win: &Win)
        requires live { window_of self.old.windows win.now.handle ≡ Some win.now }
        requires other { win.now.handle ≢ 1 }
        ensures windows { self.new ≡ record {
          windows = lowered win.now.handle self.old.windows;
          handles = self.old.handles;
        } }
        ensures found { (handle : ℕ)
            → window_of self.new.windows handle ≡ window_of self.old.windows handle }
    {
        let Some(key) = find(&self.nodes, win.handle) else {
            unreachable!();
        };
        let Some(parent) = find(&self.nodes, win.parent) else {
            unreachable!();
        };
        let below = self.nodes[key].next;
        detach(&mut self.nodes, key, below);
        put_at_bottom(&mut self.nodes, parent, win.parent, key);
    }

    /// Removes a window with its descendants.
    fn remove(&mut self, win: &Win)
        requires live { window_of self.old.windows win.now.handle ≡ Some win.now }
        requires other { win.now.handle ≢ 1 }
        ensures { self.new ≡ record {
          windows = without_family win.now.handle self.old.windows;
          handles = self.old.handles;
        } }
    {
        let Some(key) = find(&self.nodes, win.handle) else {
            unreachable!();
        };
        let below = self.nodes[key].next;
        detach(&mut self.nodes, key, below);
        let first = self.nodes.remove(key).first;
        let steps = self.nodes.len();
        free(&mut self.nodes, first, steps);
    }

    /// Deletes a window with its descendants. The desktop can't be deleted.
    pub fn delete(&mut self, h: u32) -> Result<(), TreeRefused>
        ensures refused { IfErr result (λ why. refusal_of_change self.old.windows h ≡ Some why) }
        ensures unchanged { OnErr result (self.new ≡ self.old) }
        ensures accepted { OnOk result (refusal_of_change self.old.windows h ≡ None) }
        ensures deleted { OnOk result (self.new ≡ record {
          windows = without_family h self.old.windows;
          handles = self.old.handles;
        }) }
    {
        let win = self.changeable(h)?;
        self.remove(&win);
        Ok(())
    }

    /// Moves a window to another place in its parent, in points. The desktop stays where it is.
    pub fn move_to(&mut self, h: u32, x: i16, y: i16) -> Result<(), TreeRefused>
        ensures refused { IfErr result (λ why. refusal_of_change self.old.windows h ≡ Some why) }
        ensures unchanged { OnErr result (self.new ≡ self.old) }
        ensures accepted { OnOk result (refusal_of_change self.old.windows h ≡ None) }
        ensures moved { OnOk result (self.new ≡ record {
          windows = window_changed h (moved_to x y) self.old.windows;
          handles = self.old.handles;
        }) }
    {
        let win = self.changeable(h)?;
        self.replace(&Win { x, y, ..win });
        Ok(())
    }

    /// Gives a window another size, with sides from 1 to 4,096 points. The desktop keeps its own.
    pub fn resize(&mut self, h: u32, width: u16, height: u16) -> Result<(), TreeRefused>
        ensures refused { IfErr result
            (λ why. refusal_of_resize self.old.windows h width height ≡ Some why) }
        ensures unchanged { OnErr result (self.new ≡ self.old) }
        ensures accepted { OnOk result
            (refusal_of_resize self.old.windows h width height ≡ None) }
        ensures resized { OnOk result (self.new ≡ record {
          windows = window_changed h (resized_to width height) self.old.windows;
          handles = self.old.handles;
        }) }
    {
        let win = self.changeable(h)?;
        if is_bad(width, height) {
            return Err(TreeRefused::BadSize);
        }
        self.replace(&Win {
            w: width,
            h: height,
            ..win
        });
        Ok(())
    }

    /// Shows a window, or hides it. The desktop stays shown.
    pub fn set_shown(&mut self, h: u32, shown: bool) -> Result<(), TreeRefused>
        ensures refused { IfErr result (λ why. refusal_of_change self.old.windows h ≡ Some why) }
        ensures unchanged { OnErr result (self.new ≡ self.old) }
        ensures accepted { OnOk result (refusal_of_change self.old.windows h ≡ None) }
        ensures set { OnOk result (self.new ≡ record {
          windows = window_changed h (with_shown shown) self.old.windows;
          handles = self.old.handles;
        }) }
    {
        let win = self.changeable(h)?;
        self.replace(&Win { shown, ..win });
        Ok(())
    }

    /// Makes a window the topmost of its siblings, with its descendants.
    pub fn to_top(&mut self, h: u32) -> Result<(), TreeRefused>
        ensures refused { IfErr result (λ why. refusal_of_change self.old.windows h ≡ Some why) }
        ensures unchanged { OnErr result (self.new ≡ self.old) }
        ensures accepted { OnOk result (refusal_of_change self.old.windows h ≡ None) }
        ensures raised { OnOk result (self.new ≡ record {
          windows = raised h self.old.windows;
          handles = self.old.handles;
        }) }
        ensures found { (handle : ℕ)
            → window_of self.new.windows handle ≡ window_of self.old.windows handle }
    {
        let win = self.changeable(h)?;
        self.raise(&win);
        Ok(())
    }

    /// Makes a window the lowest of its siblings, with its descendants.
    pub fn to_bottom(&mut self, h: u32) -> Result<(), TreeRefused>
        ensures refused { IfErr result (λ why. refusal_of_change self.old.windows h ≡ Some why) }
        ensures unchanged { OnErr result (self.new ≡ self.old) }
        ensures accepted { OnOk result (refusal_of_change self.old.windows h ≡ None) }
        ensures lowered { OnOk result (self.new ≡ record {
          windows = lowered h self.old.windows;
          handles = self.old.handles;
        }) }
        ensures found { (handle : ℕ)
            → window_of self.new.windows handle ≡ window_of self.old.windows handle }
    {
        let win = self.changeable(h)?;
        self.lower(&win);
        Ok(())
    }

    /// Puts a window in the place of the live one that has its handle. It differs from that one at
    /// most in what it paints and where it is invalid, and the desktop keeps its class and
    /// isn't transparent. An invalid rectangle of it is not empty.
    pub fn put(&mut self, win: &Win)
        requires { IsReplacement (window_of self.old.windows win.now.handle) win.now }
        ensures { self.new ≡ record {
          windows = window_changed win.now.handle (λ w. win.now) self.old.windows;
          handles = self.old.handles;
        } }
    {
        let _ = &self.nodes;
        self.replace(win);
    }
}
