//! How much a script may have: one more is a fault.

use crate::faults::{HEADER, is_fault, is_fault_after};
use script::{MOST_BYTES, Reason, Script, read};
use std::alloc::Global;

/// A text with a class that has a line so often.
fn text_with_lines(alloc: Global, count: u32, line: &str) -> Option<String> {
    let mut text = format!(in alloc; "{HEADER}class 1 000000\n").ok()?;
    for _ in 0..count {
        text.push_str(line).ok()?;
    }
    text.push_str("end\n").ok()?;
    Some(text)
}

/// Whether a class may have a line so often, and once more is a fault at that line.
fn is_most(alloc: Global, count: u32, line: &str) -> Option<bool> {
    let most = text_with_lines(alloc, count, line)?;
    let more = text_with_lines(alloc, count.saturating_add(1), line)?;
    let last = count.saturating_add(6);
    let is_read = read(alloc, most.as_bytes()).is_ok();
    Some(is_read && is_fault(alloc, more.as_bytes(), last, Reason::Block))
}

#[test]
fn a_class_has_at_most_64_operations_and_16_reactions(rt: HostRuntime) {
    assert_eq!(rt; is_most(rt.alloc(), 64, "hline 0 1 2 0000FF\n"), Some(true));
    assert_eq!(rt; is_most(rt.alloc(), 16, "on 1 up 2\n"), Some(true));
}

/// Each kind of asset: its word and what follows its number, in how many lines, the first number,
/// and how many there may be.
const ASSETS: [(&str, &str, u32, u32, u32); 5] = [
    ("font", "1\nend\n", 2, 0, 8),
    ("bitmap", "1 1\n-\nend\n", 3, 0, 32),
    ("string", "a\n", 1, 0, 256),
    ("class", "000000\nend\n", 2, 1, 63),
    ("class", "-\nend\n", 2, 1, 63),
];

/// How many assets a script has, without the desktop's class.
fn assets_of(script: &Script) -> usize {
    let assets = &script.assets;
    let classes = assets.classes.len().saturating_sub(1);
    classes
        .saturating_add(assets.fonts.len())
        .saturating_add(assets.bitmaps.len())
        .saturating_add(assets.strings.len())
}

/// A script may have so many of an asset, and the next one is a fault of its first line.
fn are_most(alloc: Global, kind: (&str, &str, u32, u32, u32)) -> Option<bool> {
    let (word, rest, lines, first, most) = kind;
    let mut text = String::from_str(alloc, HEADER).ok()?;
    for number in 0..most {
        let number = number.saturating_add(first);
        text.push_str(format!(in alloc; "{word} {number} {rest}").ok()?.as_str())
            .ok()?;
    }
    let count = assets_of(&read(alloc, text.as_bytes()).ok()?);
    let number = most.saturating_add(first);
    text.push_str(format!(in alloc; "{word} {number} {rest}").ok()?.as_str())
        .ok()?;
    let last = most.saturating_mul(lines).saturating_add(5);
    Some(u32::try_from(count) == Ok(most) && is_fault(alloc, text.as_bytes(), last, Reason::Asset))
}

#[test]
fn a_script_has_at_most_so_many_assets(rt: HostRuntime) {
    for kind in ASSETS {
        assert_eq!(rt; are_most(rt.alloc(), kind), Some(true), "{}", kind.0);
    }
}

/// A text with 400,000 calls, and comments among the first of them.
fn text_with_most_calls(alloc: Global) -> Option<String> {
    let mut text = format!(in alloc; "{HEADER}# no call\n\n1 exec\n# 1 exec\n\n").ok()?;
    for _ in 1..400_000 {
        text.push_str("1 scan\n").ok()?;
    }
    Some(text)
}

fn has_most_calls(alloc: Global, text: &str) -> bool {
    match read(alloc, text.as_bytes()) {
        Ok(script) => script.config.calls == 400_000 && script.lines.len() == 400_000,
        Err(_) => false,
    }
}

/// Whether 400,000 calls are read, with comments that aren't counted, and one more is a fault of
/// its line.
fn are_most_calls_read(alloc: Global) -> bool {
    let Some(mut text) = text_with_most_calls(alloc) else {
        return false;
    };
    text.push_str("# still fine\n").is_ok()
        && has_most_calls(alloc, text.as_str())
        && text.push_str("\n2 exec\n1 jump\n").is_ok()
        && is_fault(alloc, text.as_bytes(), 400_011, Reason::Many)
}

#[test]
fn a_script_has_at_most_400_000_calls(rt: HostRuntime) {
    assert!(rt; are_most_calls_read(rt.alloc()));
}

/// Whether 400,000 ticks are read beside as many calls, and one more of either is a fault of its
/// line.
fn are_most_ticks_read(alloc: Global) -> Option<bool> {
    let mut text = text_with_most_calls(alloc)?;
    for _ in 0..400_000 {
        text.push_str("display tick\n").ok()?;
    }
    let script = read(alloc, text.as_bytes()).ok()?;
    Some(
        script.config.calls == 400_000
            && script.lines.len() == 800_000
            && is_fault_after(
                alloc,
                &text,
                "display tick\n1 jump\n",
                800_009,
                Reason::Many,
            )
            && is_fault_after(alloc, &text, "2 lock\n", 800_009, Reason::Many),
    )
}

#[test]
fn a_script_has_at_most_400_000_ticks(rt: HostRuntime) {
    assert_eq!(rt; are_most_ticks_read(rt.alloc()), Some(true));
}

/// Whether the fault of the largest file is told, and one more byte is too many.
fn is_largest_file_read(alloc: Global) -> bool {
    // It has a fault in its first line, so that the rest need not be read.
    let Ok(mut text) = vec![in alloc; b'\n'; MOST_BYTES] else {
        return false;
    };
    text[0] = b'\t';
    is_fault(alloc, &text, 1, Reason::Ascii)
        && text.push(b'\n').is_ok()
        && is_fault(alloc, &text, 0, Reason::TooLarge)
}

#[test]
fn the_largest_file_and_a_byte_more(rt: HostRuntime) {
    assert!(rt; is_largest_file_read(rt.alloc()));
}
