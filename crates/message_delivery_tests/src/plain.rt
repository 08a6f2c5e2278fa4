//! A plain program that delivers messages.

use gfx_base::Rect;
use paint_ops::{Operand, React, Reaction};
use scene::{Win, ground};

/// The reactions of three classes.
pub type Classes<'a> = [&'a [Reaction]; 3];

/// A message: its number, and its argument.
#[derive(Clone, Copy, Debug)]
pub struct Message {
    pub number: u8,
    pub argument: i16,
}

/// What one reaction makes of a value.
fn changed(value: i16, react: React, place: u8, argument: i16) -> i16 {
    let (i, operand, start) = match react {
        React::Set(i, operand) => (i, operand, 0),
        React::Add(i, operand) => (i, operand, value),
        React::Up(_) => return value,
    };
    if i != place {
        return value;
    }
    let number = match operand {
        Operand::Const(number) => number,
        Operand::Argument => argument,
    };
    let sum = i32::from(start) + i32::from(number);
    i16::try_from(sum).unwrap_or(if sum < 0 { i16::MIN } else { i16::MAX })
}

/// What a message makes of the values, one value after the other.
fn values_after(reactions: &[Reaction], message: Message, values: &[i16; 16]) -> [i16; 16] {
    let mut after = *values;
    let mut place = 0u8;
    for value in after.iter_mut() {
        for reaction in reactions {
            if reaction.on == message.number {
                *value = changed(*value, reaction.react, place, message.argument);
            }
        }
        place = place.wrapping_add(1);
    }
    after
}

/// The message that is handed on.
fn up_from(reactions: &[Reaction], message: Message) -> Option<u8> {
    for reaction in reactions {
        if let React::Up(number) = reaction.react
            && reaction.on == message.number
        {
            return Some(number);
        }
    }
    None
}

/// The smallest rectangle round both, of which the second may have no point.
fn spread(old: Option<Rect>, part: Rect) -> Option<Rect> {
    if part.x1 < part.x0 || part.y1 < part.y0 {
        return old;
    }
    let Some(old) = old else {
        return Some(part);
    };
    Some(Rect {
        x0: old.x0.min(part.x0),
        y0: old.y0.min(part.y0),
        x1: old.x1.max(part.x1),
        y1: old.y1.max(part.y1),
    })
}

/// Gives a window values, and makes it wholly invalid if one is new.
pub fn put(stack: &mut [Win], i: usize, values: [i16; 16], screen: &Rect) {
    if i >= stack.len() {
        return;
    }
    let clip = ground(stack, i, screen);
    let w = &mut stack[i];
    let mut is_new = false;
    for (old, new) in w.values.iter().zip(values.iter()) {
        is_new = is_new || old != new;
    }
    if is_new {
        w.values = values;
        w.invalid = spread(w.invalid, clip);
    }
}

fn place_of(stack: &[Win], handle: u32) -> Option<usize> {
    for (i, w) in stack.iter().enumerate() {
        if w.handle == handle {
            return Some(i);
        }
    }
    None
}

/// Delivers a message to the window that has the handle, and upwards, so many windows at most.
pub fn deliver(
    stack: &mut [Win],
    handle: u32,
    message: Message,
    classes: &Classes,
    screen: &Rect,
    levels: u8,
) {
    let Some(i) = place_of(stack, handle) else {
        return;
    };
    let Some(w) = stack.get(i).copied() else {
        return;
    };
    let Some(reactions) = classes.get(usize::from(w.class)) else {
        return;
    };
    put(
        stack,
        i,
        values_after(reactions, message, &w.values),
        screen,
    );
    if levels == 0 {
        return;
    }
    if let Some(number) = up_from(reactions, message) {
        let next = Message { number, ..message };
        deliver(stack, w.parent, next, classes, screen, levels - 1);
    }
}
