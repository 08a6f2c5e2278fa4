//! Makes calls on a tree of windows again and again, so that `bench/tree` can time them. The words
//! are what is done, on how many windows, and how often.
#![tactic(auto)]

ghost use Rattle.std.specs.Prelude.{◌≡◌, ◌≤◌, ◌+◌, IfSome};

use gfx_base::Rect;
use invalidate::area;
use scene::{Stack, screen};
use std::alloc::Global;
use std::env;
use std::process::ExitCode;
use win_tree::Tree;

const WIDTH: u16 = 1024;

const HEIGHT: u16 = 768;

/// How often something is done at most.
const MOST: u32 = 1_000_000_000;

/// A tree of so many windows, in chains of seven that lie in one another on the desktop.
fn filled(alloc: Global, windows: u32) -> Option<Tree>
    requires some { 1 ≤ windows }
    requires few { windows ≤ 256 }
    ensures { IfSome result (λ tree. tree.handles ≤ 256) }
{
    let mut tree = Tree::open(alloc, WIDTH, HEIGHT).ok()?;
    for last in 1..windows {
        let parent = if (last - 1) % 7 == 0 { 1 } else { last };
        let Ok(_) = tree.create(parent, 1, 1, 100, 100, 0) else {
            return None;
        };
    }
    Some(tree)
}

/// Looks for a window so often, and gives the sum of the widths that it found.
fn look_up(tree: &Tree, handle: u32, rounds: u32) -> u32 {
    let mut widths = 0u32;
    for _ in 0..rounds {
        widths = widths.wrapping_add(tree.get(handle).map_or(0, |w| u32::from(w.w)));
    }
    widths
}

/// Walks so often, and gives how many windows there are.
fn walk(tree: &Tree, rounds: u32) -> u32 {
    let mut stack = Stack::new();
    for _ in 0..rounds {
        tree.walk(&mut stack);
    }
    u32::try_from(stack.len()).unwrap_or(0)
}

/// Walks and then makes an area invalid so often, and gives how many windows have a part of it.
fn invalidate(tree: &Tree, rounds: u32) -> u32 {
    let mut stack = Stack::new();
    let screen = screen(WIDTH, HEIGHT);
    let part = Rect {
        x0: 5,
        y0: 5,
        x1: 99,
        y1: 99,
    };
    for _ in 0..rounds {
        tree.walk(&mut stack);
        area(stack.as_mut_slice(), &part, &screen);
    }
    let invalid = stack.iter().filter(|w| w.invalid.is_some()).count();
    u32::try_from(invalid).unwrap_or(0)
}

/// Looks for a window and puts it back so often.
fn put(tree: &mut Tree, handle: u32, rounds: u32) -> u32 {
    for _ in 0..rounds {
        if let Some(found) = tree.get(handle) {
            let win = *found;
            tree.put(&win);
        }
    }
    rounds
}

/// Moves a window so often.
fn move_to(tree: &mut Tree, handle: u32, rounds: u32) -> u32 {
    let mut moved = 0u32;
    for round in 0..rounds {
        let x = if round % 2 == 0 { 1 } else { 2 };
        if tree.move_to(handle, x, 1).is_ok() {
            moved = moved.wrapping_add(1);
        }
    }
    moved
}

/// Raises each window in turn, or lowers it, so often together.
fn reorder(tree: &mut Tree, windows: u32, rounds: u32, top: bool) -> u32
    requires { windows ≤ 256 }
{
    let mut done = 0u32;
    let mut handle = 1u32;
    for _ in 0..rounds {
        handle = if handle < windows { handle + 1 } else { 2 };
        let answer = if top {
            tree.to_top(handle)
        } else {
            tree.to_bottom(handle)
        };
        if answer.is_ok() {
            done = done.wrapping_add(1);
        }
    }
    done
}

/// Makes a window in the last but one and deletes it, so often.
fn create(tree: &mut Tree, parent: u32, rounds: u32) -> u32
    requires handles { tree.old.handles ≤ 256 }
    requires rounds { rounds ≤ MOST }
{
    let mut last = 0;
    for round in 0..rounds {
        if let Ok(handle) = tree.create(parent, 1, 1, 100, 100, 0) {
            last = handle;
        }
        let _deleted = tree.delete(last);
    }
    last
}

/// Does what the name says so often. `None` where memory runs out or it is no name.
fn measure(alloc: Global, name: &str, windows: u32, rounds: u32) -> Option<u32>
    requires windows { (1 ≤ windows) × (windows ≤ 256) }
    requires rounds { rounds ≤ MOST }
{
    let mut tree = filled(alloc, windows)?;
    match name {
        "nothing" => Some(0),
        "get" => Some(look_up(&tree, windows, rounds)),
        "walk" => Some(walk(&tree, rounds)),
        "area" => Some(invalidate(&tree, rounds)),
        "put" => Some(put(&mut tree, windows, rounds)),
        "move" => Some(move_to(&mut tree, windows, rounds)),
        "top" => Some(reorder(&mut tree, windows, rounds, true)),
        "bottom" => Some(reorder(&mut tree, windows, rounds, false)),
        "create" => Some(create(&mut tree, 1, rounds)),
        _ => None,
    }
}

/// What the words ask for.
#[derive(Drop)]
struct Asked {
    name: String,
    windows: u32,
    rounds: u32,
    ghost some: { 1 ≤ windows },
    ghost few: { windows ≤ 256 },
    ghost bounded: { rounds ≤ 1000000000 },
}

/// What the words ask for. `None` where they are others.
fn words(rt: &HostRuntime) -> Option<Asked> {
    let mut words = env::args(rt).ok()?.skip(1);
    let name = words.next()?;
    let windows = words.next()?.parse::<u32>().ok()?;
    let rounds = words.next()?.parse::<u32>().ok()?;
    if windows < 1 || windows > 256 || rounds > MOST {
        return None;
    }
    Some(Asked {
        name,
        windows,
        rounds,
    })
}

fn main(rt: HostRuntime) -> ExitCode {
    let Some(asked) = words(&rt) else {
        return ExitCode::from(2);
    };
    let told = measure(rt.alloc(), asked.name.as_str(), asked.windows, asked.rounds);
    let Some(told) = told else {
        return ExitCode::from(2);
    };
    match println!(rt; "{told}") {
        Ok(()) => ExitCode::from(0),
        Err(_) => ExitCode::from(1),
    }
}
