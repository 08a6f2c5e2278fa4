//! Random calls of sixteen tasks, held against a stack of contexts for each task, on which the last
//! one is what the task draws with.

use crate::colours::any_colour;
use context::{Context, ContextDepth, Contexts, NoContext};
use gfx_base::Colour;
use samples::Numbers;
use std::alloc::{AllocError, Global};
use std::test::*;

#[derive(Drop)]
struct Plain {
    stacks: Vec<Vec<Context>>,
}

impl Plain {
    fn open(alloc: Global) -> Result<Plain, AllocError> {
        let mut stacks = Vec::new(alloc);
        for _ in 0..16u32 {
            let mut stack = Vec::new(alloc);
            stack.push(Context::default())?;
            stacks.push(stack)?;
        }
        Ok(Plain { stacks })
    }

    fn current(&self, task: u16) -> Option<Context> {
        let place = usize::from(task).checked_sub(1)?;
        self.stacks.get(place)?.last().copied()
    }

    fn write(&mut self, task: u16, context: Context) {
        let place = usize::from(task).saturating_sub(1);
        if let Some(stack) = self.stacks.get_mut(place) {
            if let Some(last) = stack.last_mut() {
                *last = context;
            }
        }
    }

    fn save(&mut self, task: u16) -> Result<bool, AllocError> {
        let Some(context) = self.current(task) else {
            return Ok(false);
        };
        let place = usize::from(task).saturating_sub(1);
        match self.stacks.get_mut(place) {
            Some(stack) => {
                if stack.len() < 9 {
                    stack.push(context)?;
                    return Ok(true);
                }
                Ok(false)
            }
            None => Ok(false),
        }
    }

    fn restore(&mut self, task: u16) -> bool {
        let place = usize::from(task).saturating_sub(1);
        match self.stacks.get_mut(place) {
            Some(stack) => {
                if stack.len() > 1 {
                    stack.pop();
                    return true;
                }
                false
            }
            None => false,
        }
    }
}

fn any_context(numbers: &mut Numbers) -> Context {
    Context {
        colour: any_colour(numbers),
        bk: any_colour(numbers),
        font: numbers.below(16) as u8,
        trans_text: numbers.below(2) == 0,
        window: u32::from(numbers.below(300)),
        device: u32::from(numbers.below(20)),
    }
}

/// How many tasks draw with something else than in the plain program.
fn other_tasks(contexts: &Contexts, plain: &Plain) -> u32 {
    let mut others = 0u32;
    for task in 1..17u16 {
        if plain.current(task) != Some(*contexts.get(task)) {
            others = others.wrapping_add(1);
        }
    }
    others
}

/// Makes so many calls on both, and tells how many were answered in two ways or left tasks with two
/// contexts.
fn wrong_answers(alloc: Global, seed: u64, calls: u32) -> Result<u32, Fail> {
    let mut contexts = Contexts::new();
    let mut plain = Plain::open(alloc)?;
    let mut numbers = Numbers::new(seed);
    let mut wrong = 0u32;
    for _ in 0..calls {
        let task = 1 + numbers.below(16);
        let right = match numbers.below(8) {
            0..4 => contexts.save(task).is_ok() == plain.save(task)?,
            4..7 => contexts.restore(task).is_ok() == plain.restore(task),
            _ => {
                let context = any_context(&mut numbers);
                *contexts.get_mut(task) = context;
                plain.write(task, context);
                true
            }
        };
        if !right || other_tasks(&contexts, &plain) > 0 {
            wrong = wrong.wrapping_add(1);
        }
    }
    Ok(wrong)
}

#[test]
fn random_calls_do_what_a_plain_program_does(rt: HostRuntime) -> Result<(), Fail> {
    for seed in 0..20 {
        assert_eq!(rt; wrong_answers(rt.alloc(), seed, 400)?, 0, "seed {seed}");
    }
    Ok(())
}

#[test]
fn tasks_begin_white_on_black(rt: HostRuntime) {
    let contexts = Contexts::new();
    for task in 1..17u16 {
        let context = contexts.get(task);
        assert_eq!(rt; context.colour.value(), 0xFF_FFFF);
        assert_eq!(rt; context.bk.value(), 0);
        assert_eq!(rt; (context.font, context.trans_text), (0, false));
        assert_eq!(rt; (context.window, context.device), (1, 0));
    }
}

#[test]
fn eight_contexts_can_be_saved(rt: HostRuntime) {
    let mut contexts = Contexts::new();
    for number in 0..8u8 {
        contexts.get_mut(3).font = number;
        assert_eq!(rt; contexts.save(3), Ok(()));
    }
    contexts.get_mut(3).font = 99;
    assert_eq!(rt; contexts.save(3), Err(ContextDepth));
    assert_eq!(rt; contexts.get(3).font, 99);
    assert_eq!(rt; contexts.save(4), Ok(()));
    for number in 0..8u8 {
        contexts.get_mut(3).colour = Colour::default();
        assert_eq!(rt; contexts.restore(3), Ok(()));
        assert_eq!(rt; contexts.get(3).font, 7 - number);
        assert_eq!(rt; contexts.get(3).colour.value(), 0xFF_FFFF);
    }
    assert_eq!(rt; contexts.restore(3), Err(NoContext));
    assert_eq!(rt; contexts.restore(4), Ok(()));
    assert_eq!(rt; contexts.restore(5), Err(NoContext));
}
