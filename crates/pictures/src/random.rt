//! Random scripts.

ghost use Rattle.std.specs.Prelude.{◌<◌};

use crate::looks::{Looks, header};
use samples::Numbers;
use std::alloc::{AllocError, Global};

/// Calls name handles below this at first. One call in twelve makes a window, by and large, so
/// there is a handle more after each twelve calls, and some of them name no window.
const HANDLES: u16 = 10;

/// A place in a parent, which may lie off the screen.
fn place(numbers: &mut Numbers) -> (i32, i32) {
    let x = i32::from(numbers.below(36)) - 12;
    let y = i32::from(numbers.below(26)) - 10;
    (x, y)
}

/// Adds a call that makes a window, which may be refused for each of the reasons.
fn add_create(numbers: &mut Numbers, script: &mut String, handles: u16) -> Result<(), AllocError>
    requires { 0 < handles }
{
    let parent = if numbers.below(3) == 0 {
        1
    } else {
        numbers.below(handles)
    };
    let (x, y) = place(numbers);
    let w = numbers.below(16);
    let h = numbers.below(12);
    let class = numbers.below(7);
    writeln!(script, "1 create {parent} {x} {y} {w} {h} {class}")
}

/// A value or an argument of a message: mostly one that fits on the screen, or an end of the range.
fn value(numbers: &mut Numbers) -> i32 {
    match numbers.below(10) {
        0 => 32_767,
        1 => -32_768,
        _ => i32::from(numbers.below(20)) - 6,
    }
}

/// Adds a call on how a window of this handle looks: its class, whether it is seen through or
/// composed aside, and its values, by themselves or by a message. It may be refused, also for a
/// value past the last.
fn add_look(numbers: &mut Numbers, script: &mut String, h: u16) -> Result<(), AllocError> {
    let value = value(numbers);
    match numbers.below(8) {
        0 => {
            let class = numbers.below(7);
            writeln!(script, "1 set_class {h} {class}")
        }
        1 => {
            let trans = numbers.below(2);
            writeln!(script, "1 set_trans {h} {trans}")
        }
        2 => {
            let memdev = numbers.below(2);
            writeln!(script, "1 set_memdev {h} {memdev}")
        }
        3 => {
            let index = numbers.below(17);
            writeln!(script, "1 set_value {h} {index} {value}")
        }
        4 => {
            let index = numbers.below(2);
            writeln!(script, "1 set_value {h} {index} {value}")
        }
        _ => {
            let message = numbers.below(5);
            writeln!(script, "1 send {h} {message} {value}")
        }
    }
}

/// Adds a call on the place of a window of this handle, on whether it is there or on what of it is
/// invalid, which may be refused too.
fn add_change(numbers: &mut Numbers, script: &mut String, h: u16) -> Result<(), AllocError> {
    let (x, y) = place(numbers);
    let w = numbers.below(16);
    match numbers.below(10) {
        0 => writeln!(script, "1 delete {h}"),
        1 => writeln!(script, "1 move_to {h} {x} {y}"),
        2 => writeln!(script, "1 move_by {h} {x} {y}"),
        3 => writeln!(script, "1 resize {h} {w} 7"),
        4 => writeln!(script, "1 show {h}"),
        5 => writeln!(script, "1 hide {h}"),
        6 => writeln!(script, "1 to_top {h}"),
        7 => writeln!(script, "1 to_bottom {h}"),
        8 => writeln!(script, "1 invalidate {h}"),
        _ => writeln!(script, "1 invalidate_rect {h} {x} {y} {w} 9"),
    }
}

/// Adds a call on what a task draws with or on devices, which may be refused.
fn add_context(numbers: &mut Numbers, script: &mut String, h: u16) -> Result<(), AllocError> {
    let task = if numbers.below(3) == 0 { 2 } else { 1 };
    match numbers.below(9) {
        0 => writeln!(script, "{task} select {h}"),
        1 => writeln!(script, "{task} colour FF8000"),
        2 => writeln!(script, "{task} bk_colour 0080FF"),
        3 => writeln!(script, "{task} text_mode trans"),
        4 => {
            let font = numbers.below(2);
            writeln!(script, "{task} font {font}")
        }
        5 => writeln!(script, "{task} save"),
        6 => writeln!(script, "{task} dev_create {h} 3"),
        7 => {
            let device = numbers.below(4);
            writeln!(script, "{task} dev_select {device}")
        }
        _ => writeln!(script, "{task} restore"),
    }
}

/// Adds a call that doesn't paint all: some do one job, some make an area invalid, some change what
/// a task draws with, and the others make or change a window.
fn add_call(numbers: &mut Numbers, script: &mut String, handles: u16) -> Result<(), AllocError>
    requires { 0 < handles }
{
    match numbers.below(11) {
        0 => script.push_str("1 exec1\n"),
        1 => {
            let (x, y) = place(numbers);
            writeln!(script, "1 invalidate_area {x} {y} 9 9")
        }
        2 | 3 => add_create(numbers, script, handles),
        4 | 5 | 6 => {
            let h = numbers.below(handles);
            add_look(numbers, script, h)
        }
        7 => {
            let h = numbers.below(handles);
            add_context(numbers, script, h)
        }
        _ => {
            let h = numbers.below(handles);
            add_change(numbers, script, h)
        }
    }
}

/// Adds a begin, an end or a tick, and tells whether it is a begin.
fn add_turn(numbers: &mut Numbers, script: &mut String) -> Result<bool, AllocError> {
    let turn = numbers.below(4);
    let line = match turn {
        0 => "1 begin\n",
        1 => "1 end\n",
        _ => "display tick\n",
    };
    script.push_str(line)?;
    Ok(turn == 0)
}

/// Adds a line on the lock, where it is held during the call beside it.
fn add_lock(script: &mut String, held: bool, line: &str) -> Result<(), AllocError> {
    if held { script.push_str(line) } else { Ok(()) }
}

/// Makes a script of so many buffers and calls, one in eight of which paints all, and looks at the
/// picture after each of these. Between them are begins, ends and ticks. During some calls a task
/// holds the lock.
fn look(
    alloc: Global,
    numbers: &mut Numbers,
    buffers: u16,
    calls: u16,
    before: Looks,
) -> Option<Looks> {
    let mut looks = before;
    let mut begun: u16 = 0;
    let mut script = header(alloc, buffers).ok()?;
    for call in 0..calls {
        if numbers.below(4) == 0 && add_turn(numbers, &mut script).ok()? {
            begun = begun.saturating_add(1);
        }
        let locked = numbers.below(6) == 0;
        let paints = numbers.below(8) == 0;
        add_lock(&mut script, locked, "1 lock\n").ok()?;
        if paints {
            script.push_str("1 exec\n").ok()?;
        } else {
            add_call(numbers, &mut script, HANDLES + call / 12).ok()?;
        }
        add_lock(&mut script, locked, "1 unlock\n").ok()?;
        if paints {
            looks = looks.look(alloc, script.as_str(), begun)?;
        }
    }
    Some(looks)
}

/// What is seen of so many scripts, of one, two and three buffers in turn, after what was seen
/// before. `None` where memory runs out or a command fails.
pub fn look_at_all(alloc: Global, scripts: u16, calls: u16, before: Looks) -> Option<Looks> {
    let mut numbers = Numbers::new(1);
    let mut looks = before;
    for script in 0..scripts {
        looks = look(alloc, &mut numbers, 1 + script % 3, calls, looks)?;
    }
    Some(looks)
}
