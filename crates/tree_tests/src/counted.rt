//! A tree with the number of windows that were asked for, so that tests know that it has handles
//! left.

ghost use Rattle.std.specs.Prelude.{◌+◌, ◌≤◌};

use gfx_base::Memory;
use scene::{Stack, Win};
use std::alloc::{AllocError, Global};
use win_tree::{Tree, TreeRefused};

/// A call on the tree: the window or the parent by its handle, and the sides in points.
#[derive(Clone, Copy, Debug)]
pub enum Act {
    Create(u32, u16, u16),
    Delete(u32),
    Move(u32, i16, i16),
    Resize(u32, u16, u16),
    Show(u32, bool),
    Top(u32),
    Bottom(u32),
}

/// How often windows are asked for at most.
const MOST: u32 = 1_000_000;

#[derive(Drop)]
pub struct Counted {
    tree: Tree,
    asked: u32,
    ghost few: { tree.handles ≤ asked + 1 },
}

impl Counted {
    /// A tree for a screen of eight by four points.
    pub fn open(alloc: Global) -> Result<Counted, Memory> {
        let tree = Tree::open(alloc, 8, 4)?;
        Ok(Counted { tree, asked: 0 })
    }

    fn create(&mut self, parent: u32, w: u16, h: u16) -> Result<u32, TreeRefused> {
        if self.asked >= MOST {
            return Err(TreeRefused::NoWindow(0));
        }
        self.asked += 1;
        self.tree.create(parent, 0, 0, w, h, 0)
    }

    /// The answer to a call: the new handle, or 0 where none is told.
    pub fn perform(&mut self, act: Act) -> Result<u32, TreeRefused> {
        match act {
            Act::Create(parent, w, h) => return self.create(parent, w, h),
            Act::Delete(h) => self.tree.delete(h)?,
            Act::Move(h, x, y) => self.tree.move_to(h, x, y)?,
            Act::Resize(h, width, height) => self.tree.resize(h, width, height)?,
            Act::Show(h, shown) => self.tree.set_shown(h, shown)?,
            Act::Top(h) => self.tree.to_top(h)?,
            Act::Bottom(h) => self.tree.to_bottom(h)?,
        }
        Ok(0)
    }

    pub fn get(&self, h: u32) -> Option<Win> {
        self.tree.get(h).copied()
    }

    /// The handles of the windows, from back to front.
    pub fn handles(&self, alloc: Global) -> Result<Vec<u32>, AllocError> {
        let mut stack = Stack::new();
        self.tree.walk(&mut stack);
        let mut found = Vec::new(alloc);
        for w in stack.as_slice() {
            found.push(w.handle)?;
        }
        Ok(found)
    }
}
