//! Random calls, held against a plain program: a list of windows with their parents, in which
//! siblings stand from bottom to top.

use crate::counted::{Act, Counted};
use samples::Numbers;
use std::alloc::{AllocError, Global};
use std::test::*;
use win_tree::TreeRefused;

/// A window's handle, and its parent's.
#[derive(Clone, Copy, PartialEq, Eq)]
struct Child {
    handle: u32,
    parent: u32,
}

#[derive(Drop)]
struct Plain {
    children: Vec<Child>,
    next: u32,
}

impl Plain {
    fn open(alloc: Global) -> Result<Plain, AllocError> {
        let mut children = Vec::new(alloc);
        children.push(Child {
            handle: 1,
            parent: 0,
        })?;
        Ok(Plain { children, next: 2 })
    }

    fn parent_of(&self, handle: u32) -> Option<u32> {
        for child in &self.children {
            if child.handle == handle {
                return Some(child.parent);
            }
        }
        None
    }

    /// How many windows lie between a window and the screen, itself among them.
    fn level_of(&self, handle: u32) -> u32 {
        let mut level = 0u32;
        let mut next = Some(handle);
        for _ in 0..9 {
            next = next.and_then(|h| self.parent_of(h));
            if next.is_some() {
                level = level.wrapping_add(1);
            }
        }
        level
    }

    fn why_not(&self, act: Act) -> Option<TreeRefused> {
        let (h, sides, parent) = match act {
            Act::Create(parent, w, h) => (parent, (w, h), true),
            Act::Resize(handle, w, h) => (handle, (w, h), false),
            Act::Move(handle, _, _) | Act::Show(handle, _) => (handle, (1, 1), false),
            Act::Delete(handle) | Act::Top(handle) | Act::Bottom(handle) => {
                (handle, (1, 1), false)
            }
        };
        let bad = |side: u16| side < 1 || side > 4096;
        if self.parent_of(h).is_none() {
            Some(TreeRefused::NoWindow(h))
        } else if h == 1 && !parent {
            Some(TreeRefused::Desktop)
        } else if parent && self.level_of(h) > 7 {
            Some(TreeRefused::TooDeep)
        } else if bad(sides.0) || bad(sides.1) {
            Some(TreeRefused::BadSize)
        } else if parent && self.children.len() > 255 {
            Some(TreeRefused::TooManyWindows)
        } else {
            None
        }
    }

    /// Takes a window out and puts it in again, at the bottom or on top of its siblings.
    fn reorder(&mut self, alloc: Global, handle: u32, top: bool) -> Result<(), AllocError> {
        let mine = Child {
            handle,
            parent: self.parent_of(handle).unwrap_or(0),
        };
        let mut children = Vec::new(alloc);
        if !top {
            children.push(mine)?;
        }
        for child in &self.children {
            if child.handle != handle {
                children.push(*child)?;
            }
        }
        if top {
            children.push(mine)?;
        }
        self.children = children;
        Ok(())
    }

    /// Takes away a window, and then all that have no parent any more.
    fn delete(&mut self, alloc: Global, handle: u32) -> Result<(), AllocError> {
        for _ in 0..9 {
            let mut children = Vec::new(alloc);
            for child in &self.children {
                let orphan = child.handle != 1 && self.parent_of(child.parent).is_none();
                if child.handle != handle && !orphan {
                    children.push(*child)?;
                }
            }
            self.children = children;
        }
        Ok(())
    }

    fn perform(&mut self, alloc: Global, act: Act) -> Result<Result<u32, TreeRefused>, AllocError> {
        if let Some(why) = self.why_not(act) {
            return Ok(Err(why));
        }
        match act {
            Act::Create(parent, _, _) => {
                let handle = self.next;
                self.children.push(Child { handle, parent })?;
                self.next = handle.wrapping_add(1);
                return Ok(Ok(handle));
            }
            Act::Delete(h) => self.delete(alloc, h)?,
            Act::Top(h) => self.reorder(alloc, h, true)?,
            Act::Bottom(h) => self.reorder(alloc, h, false)?,
            Act::Move(..) | Act::Resize(..) | Act::Show(..) => {}
        }
        Ok(Ok(0))
    }

    /// Appends the windows of a parent, each with its descendants.
    fn list(&self, parent: u32, levels: u32, out: &mut Vec<u32>) -> Result<(), AllocError> {
        if levels == 0 {
            return Ok(());
        }
        for child in &self.children {
            if child.parent == parent {
                out.push(child.handle)?;
                self.list(child.handle, levels - 1, out)?;
            }
        }
        Ok(())
    }
}

/// A call on a handle up to the given one, or on the next.
fn any_act(numbers: &mut Numbers, most: u32) -> Act {
    let handles = most.min(1_000) as u16 + 2;
    let h = u32::from(numbers.below(handles));
    let side = if numbers.below(20) == 0 { 0 } else { 1 };
    match numbers.below(16) {
        0..9 => Act::Create(h, side, 1),
        9 => Act::Delete(h),
        10 | 11 => Act::Top(h),
        12 | 13 => Act::Bottom(h),
        14 => Act::Resize(h, side, 4096),
        _ => Act::Show(h, side == 0),
    }
}

/// Makes so many calls on both, and tells how many were answered in two ways or led to two orders.
fn wrong_answers(alloc: Global, seed: u64, calls: u32) -> Result<u32, Fail> {
    let mut tree = Counted::open(alloc)?;
    let mut plain = Plain::open(alloc)?;
    let mut numbers = Numbers::new(seed);
    let mut wrong = 0u32;
    for _ in 0..calls {
        let act = any_act(&mut numbers, plain.next);
        let answer = plain.perform(alloc, act)?;
        let mut order = Vec::new(alloc);
        plain.list(0, 9, &mut order)?;
        if tree.perform(act) != answer || tree.handles(alloc)?.as_slice() != order.as_slice() {
            wrong = wrong.wrapping_add(1);
        }
    }
    Ok(wrong)
}

#[test]
fn random_calls_do_what_a_plain_program_does(rt: HostRuntime) -> Result<(), Fail> {
    for seed in 0..20 {
        assert_eq!(rt; wrong_answers(rt.alloc(), seed, 300)?, 0, "seed {seed}");
    }
    Ok(())
}
