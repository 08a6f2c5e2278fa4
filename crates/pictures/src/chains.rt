//! Each kind of call alone, and after each other one.

use crate::looks::{Looks, header};
use std::alloc::{AllocError, Global};

/// Windows that lie in one another, cover one another and end off the screen, one of them hidden,
/// two seen through, and all is painted.
const SCENE: &str = "1 create 1 2 1 12 9 1\n1 create 2 1 1 6 5 2\n1 create 2 4 2 20 5 3\n\
    1 create 1 8 4 12 10 4\n1 create 5 -3 -2 8 6 1\n1 create 1 18 10 10 10 2\n\
    1 create 1 0 6 7 8 3\n1 hide 8\n1 create 2 3 2 9 6 5\n1 create 9 1 1 5 9 1\n\
    1 set_trans 10 1\n1 exec\n";

/// Calls of each kind, parted by `/`. Some change nothing, and some are refused. What is drawn is
/// to be painted over.
const CALLS: &str = "create 1 5 5 9 6 3/create 3 -1 2 9 9 4/create 8 1 1 3 3 1/create 1 30 2 3 3 1/\
    create 99 0 0 1 1 1/create 1 0 0 0 1 1/create 1 0 0 1 1 9/delete 2/delete 4/delete 5/delete 8/\
    delete 1/move_to 2 9 6/move_to 3 -4 -3/move_to 5 -30 0/move_to 8 4 4/move_to 2 2 1/\
    move_by 2 3 -2/move_by 6 5 1/move_by 5 32767 0/move_by 7 -32768 -32768/resize 2 5 20/\
    resize 5 24 3/resize 4 1 1/resize 2 0 5/show 8/show 2/hide 2/hide 4/hide 1/to_top 2/to_top 3/\
    to_top 8/to_bottom 5/to_bottom 4/set_class 2 4/set_class 5 4/set_class 6 9/invalidate 3/\
    invalidate_rect 2 -2 -2 3 3/invalidate_rect 5 9 9 1 1/invalidate_area 3 3 15 9/\
    invalidate_area -9 -9 -1 -1/exec1/exec/set_trans 2 1/set_trans 7 1/set_trans 8 1/\
    set_trans 9 1/set_trans 10 0/set_trans 2 0/set_trans 1 1/set_value 2 0 7/set_value 3 0 4/\
    set_value 9 1 -12/set_value 8 1 2/set_value 4 15 0/set_value 1 0 1/set_value 3 16 0/\
    send 10 0 3/send 3 1 -2/send 6 0 9/send 9 1 32767/send 8 2 1/send 4 9 1/send 1 0 1/\
    send 99 0 0/select 5/select 99/colour FF8000/bk_colour 0080FF/text_mode trans/font 0/save/\
    restore/fill -3 -3 40 40\n1 invalidate_area 0 0 23 15/\
    text 2 3 0\n1 bitmap 0 9 4\n1 invalidate_area 0 0 23 15/set_memdev 2 1/set_memdev 5 1/\
    dev_create 9 7\n1 dev_select 1\n1 fill -3 2 4 4\n1 dev_copy 1 6 5\n1 dev_delete 1\n\
    1 invalidate_area 0 0 23 15";

fn add_call(script: &mut String, call: &str) -> Result<(), AllocError> {
    writeln!(script, "1 {call}")
}

/// Looks at the picture after the scene, these calls and one that paints all.
fn look_after(alloc: Global, calls: &[&str], looks: Looks) -> Option<Looks> {
    let mut script = header(alloc, 1).ok()?;
    script.push_str(SCENE).ok()?;
    for call in calls {
        add_call(&mut script, call).ok()?;
    }
    script.push_str("1 exec\n").ok()?;
    looks.look(alloc, script.as_str(), 0)
}

/// What is seen after each call. `None` where memory runs out or a command fails.
pub fn look_at_each(alloc: Global) -> Option<Looks> {
    let mut looks = Looks::none();
    for call in CALLS.split('/') {
        looks = look_after(alloc, &[call], looks)?;
    }
    Some(looks)
}

/// What is seen after each call with each after it. `None` where memory runs out or a command
/// fails.
pub fn look_at_pairs(alloc: Global) -> Option<Looks> {
    let mut looks = Looks::none();
    for first in CALLS.split('/') {
        for second in CALLS.split('/') {
            looks = look_after(alloc, &[first, second], looks)?;
        }
    }
    Some(looks)
}
