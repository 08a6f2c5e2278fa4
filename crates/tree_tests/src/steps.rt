//! Calls with their answers, and the order in which the windows stand after each.

use crate::counted::Act::{self, Bottom, Create, Delete, Move, Resize, Show, Top};
use crate::counted::Counted;
use scene::Win;
use std::test::*;
use win_tree::TreeRefused::{self, BadSize, Desktop, NoWindow, TooDeep, TooManyWindows};

/// A call, its answer, and the handles after it.
type Step = (Act, Result<u32, TreeRefused>, &'static [u32]);

const STEPS: [Step; 34] = [
    (Create(1, 1, 1), Ok(2), &[1, 2]),
    (Create(1, 1, 1), Ok(3), &[1, 2, 3]),
    (Create(2, 1, 1), Ok(4), &[1, 2, 4, 3]),
    (Create(2, 1, 1), Ok(5), &[1, 2, 4, 5, 3]),
    (Create(4, 1, 1), Ok(6), &[1, 2, 4, 6, 5, 3]),
    (Create(3, 1, 1), Ok(7), &[1, 2, 4, 6, 5, 3, 7]),
    // Windows move with their descendants, among their siblings alone.
    (Top(2), Ok(0), &[1, 3, 7, 2, 4, 6, 5]),
    (Top(4), Ok(0), &[1, 3, 7, 2, 5, 4, 6]),
    (Bottom(2), Ok(0), &[1, 2, 5, 4, 6, 3, 7]),
    (Bottom(7), Ok(0), &[1, 2, 5, 4, 6, 3, 7]),
    (Top(3), Ok(0), &[1, 2, 5, 4, 6, 3, 7]),
    // Of three siblings the middle one is deleted with its child, and their room used again.
    (Create(2, 1, 1), Ok(8), &[1, 2, 5, 4, 6, 8, 3, 7]),
    (Delete(4), Ok(0), &[1, 2, 5, 8, 3, 7]),
    (Create(5, 1, 1), Ok(9), &[1, 2, 5, 9, 8, 3, 7]),
    (Create(9, 1, 1), Ok(10), &[1, 2, 5, 9, 10, 8, 3, 7]),
    (Delete(4), Err(NoWindow(4)), &[1, 2, 5, 9, 10, 8, 3, 7]),
    (Top(6), Err(NoWindow(6)), &[1, 2, 5, 9, 10, 8, 3, 7]),
    (Delete(2), Ok(0), &[1, 3, 7]),
    (Create(10, 1, 1), Err(NoWindow(10)), &[1, 3, 7]),
    // Refusals, of which the first that holds is answered.
    (Delete(1), Err(Desktop), &[1, 3, 7]),
    (Move(1, 0, 0), Err(Desktop), &[1, 3, 7]),
    (Show(1, true), Err(Desktop), &[1, 3, 7]),
    (Top(1), Err(Desktop), &[1, 3, 7]),
    (Bottom(1), Err(Desktop), &[1, 3, 7]),
    (Resize(1, 0, 0), Err(Desktop), &[1, 3, 7]),
    (Resize(9, 0, 0), Err(NoWindow(9)), &[1, 3, 7]),
    (Resize(3, 0, 1), Err(BadSize), &[1, 3, 7]),
    (Resize(3, 1, 4097), Err(BadSize), &[1, 3, 7]),
    (Resize(3, 4096, 4096), Ok(0), &[1, 3, 7]),
    (Create(9, 0, 0), Err(NoWindow(9)), &[1, 3, 7]),
    (Create(3, 0, 1), Err(BadSize), &[1, 3, 7]),
    (Create(3, 4097, 1), Err(BadSize), &[1, 3, 7]),
    (Move(0, 0, 0), Err(NoWindow(0)), &[1, 3, 7]),
    (Show(8, false), Err(NoWindow(8)), &[1, 3, 7]),
];

#[test]
fn windows_stand_in_a_trees_order(rt: HostRuntime) -> Result<(), Fail> {
    let mut tree = Counted::open(rt.alloc())?;
    for (act, answer, order) in STEPS {
        assert_eq!(rt; tree.perform(act), answer, "{act:?}");
        assert_eq!(rt; tree.handles(rt.alloc())?.as_slice(), order, "{act:?}");
    }
    Ok(())
}

#[test]
fn windows_nest_eight_levels_deep(rt: HostRuntime) -> Result<(), Fail> {
    let mut tree = Counted::open(rt.alloc())?;
    for parent in 1..8u32 {
        assert_eq!(rt; tree.perform(Create(parent, 1, 1)), Ok(parent + 1));
    }
    assert_eq!(rt; tree.perform(Create(8, 1, 1)), Err(TooDeep));
    assert_eq!(rt; tree.perform(Create(8, 0, 1)), Err(TooDeep));
    assert_eq!(rt; tree.perform(Create(7, 0, 1)), Err(BadSize));
    Ok(())
}

#[test]
fn there_are_256_windows(rt: HostRuntime) -> Result<(), Fail> {
    let mut tree = Counted::open(rt.alloc())?;
    for handle in 2..257u32 {
        assert_eq!(rt; tree.perform(Create(1, 1, 1)), Ok(handle));
    }
    assert_eq!(rt; tree.perform(Create(1, 1, 1)), Err(TooManyWindows));
    assert_eq!(rt; tree.perform(Create(1, 1, 0)), Err(BadSize));
    assert_eq!(rt; tree.perform(Create(257, 1, 1)), Err(NoWindow(257)));
    assert_eq!(rt; tree.perform(Delete(100)), Ok(0));
    assert_eq!(rt; tree.perform(Create(256, 1, 1)), Ok(257));
    assert_eq!(rt; tree.handles(rt.alloc())?.len(), 256);
    Ok(())
}

#[test]
fn one_window_is_changed(rt: HostRuntime) -> Result<(), Fail> {
    let mut tree = Counted::open(rt.alloc())?;
    for act in [
        Create(1, 3, 2),
        Create(2, 5, 4),
        Move(3, -3, 9),
        Resize(3, 4096, 1),
        Show(3, false),
    ] {
        assert_eq!(rt; tree.perform(act).is_ok(), true, "{act:?}");
    }
    let other = Win {
        handle: 2,
        parent: 1,
        w: 3,
        h: 2,
        shown: true,
        ..Win::default()
    };
    let changed = Win {
        handle: 3,
        parent: 2,
        x: -3,
        y: 9,
        w: 4096,
        h: 1,
        ..Win::default()
    };
    assert_eq!(rt; tree.get(2), Some(other));
    assert_eq!(rt; tree.get(3), Some(changed));
    assert_eq!(rt; tree.get(4), None);
    Ok(())
}
