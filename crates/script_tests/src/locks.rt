//! Lines on the lock.

use crate::faults::{HEADER, is_fault_after};
use script::{Reason, Script, read};
use std::alloc::Global;

/// Whether each task holds a lock and gives it back by a script of its own, the next task doesn't
/// give it back, and the file doesn't end before.
fn holds_its_own(alloc: Global, task: u32) -> Option<bool> {
    let other = if task < 16 { task.saturating_add(1) } else { 1 };
    let held = format!(in alloc; "{HEADER}{task} lock\n").ok()?;
    let unlock = format!(in alloc; "{task} unlock\n").ok()?;
    let other_unlock = format!(in alloc; "{other} unlock\n").ok()?;
    let text = format!(in alloc; "{held}{unlock}").ok()?;
    let script = read(alloc, text.as_bytes()).ok()?;
    Some(
        script.lines.len() == 2
            && script.config.calls == 0
            && is_fault_after(alloc, &held, "", 6, Reason::End)
            && is_fault_after(alloc, &held, &other_unlock, 6, Reason::Lock)
            && is_fault_after(alloc, &text, &unlock, 7, Reason::Lock),
    )
}

#[test]
fn each_task_holds_its_own_locks(rt: HostRuntime) {
    for task in 1..=16 {
        assert_eq!(rt; holds_its_own(rt.alloc(), task), Some(true), "{task}");
    }
}

/// Adds a line so often.
fn push_lines(text: &mut String, line: &str, count: u32) -> Option<()> {
    for _ in 0..count {
        text.push_str(line).ok()?;
    }
    Some(())
}

/// A text with 100 open locks of task 2, from line 5 on, and one of task 3, on line 105.
fn text_with_most_locks(alloc: Global) -> Option<String> {
    let mut text = String::from_str(alloc, HEADER).ok()?;
    push_lines(&mut text, "2 lock\n", 100)?;
    text.push_str("3 lock\n").ok()?;
    Some(text)
}

/// Lines after those of that text, and the first fault.
const AFTER_MOST_LOCKS: [(u32, Reason, &str); 9] = [
    (106, Reason::Lock, "2 lock\n"),
    (106, Reason::Lock, "2 lock\n2 unlock\n"),
    (106, Reason::Lock, "4 unlock\n"),
    (106, Reason::End, ""),
    (108, Reason::Lock, "2 unlock\n2 lock\n2 lock\n"),
    (108, Reason::Lock, "3 lock\n# \n2 lock\n"),
    (108, Reason::Lock, "3 unlock\n2 unlock\n3 unlock\n"),
    (107, Reason::End, "3 unlock"),
    (108, Reason::End, "2 unlock\n2 lock\n"),
];

/// The first of those lines after which another fault is told.
fn first_other_after_most_locks(alloc: Global) -> Option<Option<&'static str>> {
    let text = text_with_most_locks(alloc)?;
    for (line, why, rest) in AFTER_MOST_LOCKS {
        if !is_fault_after(alloc, &text, rest, line, why) {
            return Some(Some(rest));
        }
    }
    Some(None)
}

/// How many lines and calls a script has.
fn counts(script: &Script) -> (usize, u32) {
    (script.lines.len(), script.config.calls)
}

/// Whether all locks of that text are given back, one too many is a fault, and one too few is too.
fn are_most_locks_given_back(alloc: Global) -> Option<bool> {
    let mut text = text_with_most_locks(alloc)?;
    text.push_str("1 scan\n3 unlock\n").ok()?;
    push_lines(&mut text, "2 unlock\n", 99)?;
    let is_open = is_fault_after(alloc, &text, "", 207, Reason::End);
    text.push_str("2 unlock\n").ok()?;
    let script = read(alloc, text.as_bytes()).ok()?;
    let is_unlocked = is_fault_after(alloc, &text, "2 unlock\n", 208, Reason::Lock);
    Some(is_open && counts(&script) == (203, 1) && is_unlocked)
}

#[test]
fn a_task_holds_at_most_100_locks(rt: HostRuntime) {
    assert_eq!(rt; first_other_after_most_locks(rt.alloc()), Some(None));
    assert_eq!(rt; are_most_locks_given_back(rt.alloc()), Some(true));
}

/// A text with as many lines after the header as there may be, two of them on the lock.
fn text_with_most_lines(alloc: Global) -> Option<String> {
    let mut hundred = String::new(alloc);
    push_lines(&mut hundred, "1 scan\n", 100)?;
    let mut text = format!(in alloc; "{HEADER}2 lock\n").ok()?;
    push_lines(&mut text, hundred.as_str(), 3_999)?;
    push_lines(&mut text, "1 scan\n", 98)?;
    text.push_str("2 unlock\n").ok()?;
    Some(text)
}

/// Whether lines on the lock are counted with the calls, but aren't calls: an unlock too many after
/// those of that text is told as such, and a lock is one line too many.
fn are_most_lines_read(alloc: Global) -> Option<bool> {
    let text = text_with_most_lines(alloc)?;
    let script = read(alloc, text.as_bytes()).ok()?;
    Some(
        counts(&script) == (400_000, 399_998)
            && is_fault_after(alloc, &text, "2 unlock\n", 400_005, Reason::Lock)
            && is_fault_after(alloc, &text, "2 lock\n", 400_005, Reason::Many),
    )
}

#[test]
fn lines_on_the_lock_count_for_the_most(rt: HostRuntime) {
    assert_eq!(rt; are_most_lines_read(rt.alloc()), Some(true));
}
