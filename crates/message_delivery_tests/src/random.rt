//! Random messages and values, held against the plain program.

ghost use Rattle.std.specs.Prelude.{◌<◌};
ghost use Rattle.paint_ops.specs.Soundness.{IsSound};

use crate::plain::{self, Message};
use crate::sound::assets;
use gfx_base::Rect;
use messages::{deliver, put_values};
use paint_ops::{Assets, Operand, React, Reaction};
use samples::{Numbers, are_single};
use scene::{Win, screen};
use std::alloc::Global;

/// Numbers of 16 bits, from near their ends and from near 0.
const SPECIAL: [i16; 8] = [-32768, -32767, -20000, -1, 0, 1, 20000, 32767];

fn any_number(numbers: &mut Numbers) -> i16 {
    let i = numbers.below(8);
    SPECIAL[usize::from(i)]
}

fn any_operand(numbers: &mut Numbers) -> Operand {
    if numbers.below(3) == 0 {
        Operand::Argument
    } else {
        Operand::Const(any_number(numbers))
    }
}

/// A reaction to one of four messages, which may change one of two values.
fn any_reaction(numbers: &mut Numbers) -> Reaction {
    let on = numbers.below(4) as u8;
    let i = numbers.below(2) as u8 * 15;
    let react = match numbers.below(4) {
        0 => React::Set(i, any_operand(numbers)),
        1 => React::Add(i, any_operand(numbers)),
        _ => React::Up(numbers.below(4) as u8),
    };
    Reaction { on, react }
}

fn any_reactions(numbers: &mut Numbers) -> [Reaction; 8] {
    let up = React::Up(0);
    let mut reactions = [Reaction { on: 0, react: up }; 8];
    for reaction in reactions.iter_mut() {
        *reaction = any_reaction(numbers);
    }
    reactions
}

/// A window in one of those before it, which are so many.
fn any_window(numbers: &mut Numbers, before: u16) -> Win {
    let parent = if before == 0 {
        0
    } else {
        1 + numbers.below(before)
    };
    Win {
        handle: u32::from(before) + 1,
        parent: u32::from(parent),
        x: numbers.below(8) as i16 - 2,
        y: numbers.below(6) as i16 - 2,
        w: 1 + numbers.below(30),
        h: 1 + numbers.below(20),
        shown: numbers.below(10) != 0,
        class: numbers.below(4) as u8,
        ..Win::default()
    }
}

fn any_stack(numbers: &mut Numbers) -> [Win; 8] {
    let mut stack = [Win::default(); 8];
    for before in 0..8 {
        stack[usize::from(before)] = any_window(numbers, before);
    }
    stack
}

fn any_values(numbers: &mut Numbers) -> [i16; 16] {
    let mut values = [0; 16];
    values[usize::from(numbers.below(16))] = any_number(numbers);
    values
}

/// Two stacks, of which the second is the plain program's.
#[derive(Drop)]
struct Both {
    stack: [Win; 8],
    plain: [Win; 8],
}

impl Both {
    /// Delivers a message to the same window of both.
    fn deliver(
        &mut self,
        i: usize,
        message: Message,
        assets: &Assets,
        classes: &plain::Classes,
        screen: &Rect,
    )
        requires assets { IsSound assets.now }
        requires place { i < 8 }
    {
        if !are_single(&self.stack) {
            return;
        }
        let handle = self.plain[i].handle;
        deliver(
            &mut self.stack,
            i,
            message.number,
            message.argument,
            assets,
            screen,
        );
        plain::deliver(&mut self.plain, handle, message, classes, screen, 8);
    }

    /// Gives the same window of both these values.
    fn put(&mut self, i: usize, values: [i16; 16], screen: &Rect)
        requires { i < 8 }
    {
        put_values(&mut self.stack, i, &values, screen);
        plain::put(&mut self.plain, i, values, screen);
    }

    fn step(
        &mut self,
        numbers: &mut Numbers,
        assets: &Assets,
        classes: &plain::Classes,
        screen: &Rect,
    )
        requires { IsSound assets.now }
    {
        let i = usize::from(numbers.below(8));
        if numbers.below(4) == 0 {
            self.put(i, any_values(numbers), screen);
        } else {
            let message = Message {
                number: numbers.below(4) as u8,
                argument: any_number(numbers),
            };
            self.deliver(i, message, assets, classes, screen);
        }
    }
}

/// How often, in so many steps, the two stacks differ, and how often a step changes something.
fn outcomes(alloc: Global, seed: u64, steps: u32) -> Option<(u32, u32)> {
    let mut numbers = Numbers::new(seed);
    let tables = [
        any_reactions(&mut numbers),
        any_reactions(&mut numbers),
        any_reactions(&mut numbers),
    ];
    let classes = [&tables[0][..], &tables[1][..], &tables[2][..]];
    let assets = assets(alloc, classes)?;
    let screen = screen(24, 16);
    let stack = any_stack(&mut numbers);
    let mut both = Both {
        stack,
        plain: stack,
    };
    let (mut wrong, mut changes) = (0u32, 0u32);
    for _ in 0..steps {
        let before = both.stack;
        both.step(&mut numbers, &assets, &classes, &screen);
        if both.stack != both.plain {
            wrong = wrong.wrapping_add(1);
        }
        if both.stack != before {
            changes = changes.wrapping_add(1);
        }
    }
    Some((wrong, changes))
}

#[test]
fn random_messages_do_what_a_plain_program_does(rt: HostRuntime) {
    let mut changes = 0u32;
    for seed in 0..200 {
        let found = outcomes(rt.alloc(), seed, 20);
        assert_eq!(rt; found.map(|f| f.0), Some(0), "seed {seed}");
        changes = changes.wrapping_add(found.map_or(0, |f| f.1));
    }
    assert!(rt; changes > 1000, "only {changes} changes");
}
