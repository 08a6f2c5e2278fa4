//! Reads a generated script again and again, so that `bench/script` can time it. The words are what
//! the script is filled with, how many of them, and how often it is read. It tells how many bytes
//! the script has, and how many of them were read.
#![tactic(auto)]

use script::{Script, read};
use std::alloc::Global;
use std::env;
use std::process::ExitCode;

const HEADER: &str = "mtgui 1\nscreen 1024 768\nbuffers 1\ndesktop 000000\n";

/// Call lines, which come again and again.
const CALLS: [&str; 4] = [
    "1 create 4294967295 -32768 32767 65535 65535 255\n",
    "12 move_to 4294967295 -32768 32767\n",
    "3 invalidate_area -32768 -32768 32767 32767\n",
    "16 exec\n",
];

/// What a script is filled with.
#[derive(Clone, Copy)]
enum Filling {
    Calls,
    /// Calls with a comment after each.
    Commented,
    /// Calls with eighteen comments after each: with the most calls, nearly the most bytes.
    Full,
    /// Bitmaps of a run for each point, and of runs of two points.
    Bitmaps,
    Runs,
    Fonts,
}

impl Filling {
    /// The filling with this name. `None` where there is none.
    fn of(name: &str) -> Option<Filling> {
        match name {
            "calls" => Some(Filling::Calls),
            "commented" => Some(Filling::Commented),
            "full" => Some(Filling::Full),
            "bitmaps" => Some(Filling::Bitmaps),
            "runs" => Some(Filling::Runs),
            "fonts" => Some(Filling::Fonts),
            _ => None,
        }
    }

    /// How many of them a script has.
    fn count(self, script: &Script) -> usize {
        match self {
            Filling::Calls | Filling::Commented | Filling::Full => script.lines.len(),
            Filling::Bitmaps | Filling::Runs => script.assets.bitmaps.len(),
            Filling::Fonts => script.assets.fonts.len(),
        }
    }
}

/// A piece so often.
fn repeated(alloc: Global, piece: &str, count: u32) -> Option<String> {
    let mut text = String::new(alloc);
    for _ in 0..count {
        text.push_str(piece).ok()?;
    }
    Some(text)
}

/// So many call lines, with this after each.
fn call_lines(alloc: Global, comment: &str, count: u32) -> Option<String> {
    let mut text = String::new(alloc);
    for (line, _) in CALLS.iter().cycle().zip(0..count) {
        text.push_str(line).ok()?;
        text.push_str(comment).ok()?;
    }
    Some(text)
}

/// So many of the largest bitmaps, whose rows are this piece 64 times.
fn bitmaps(alloc: Global, piece: &str, count: u32) -> Option<String> {
    let row = repeated(alloc, piece, 64)?;
    let line = format!(in alloc; "{}\n", row.as_str().trim_end()).ok()?;
    let body = repeated(alloc, line.as_str(), 256)?;
    let mut text = String::new(alloc);
    for number in 0..count {
        text.push_str(
            format!(in alloc; "bitmap {number} 256 256\n{body}end\n")
                .ok()?
                .as_str(),
        )
        .ok()?;
    }
    Some(text)
}

/// So many of the largest fonts.
fn fonts(alloc: Global, count: u32) -> Option<String> {
    let rows = repeated(alloc, "#.#.#.#..#.#.#.####.....###..###\n", 32)?;
    let mut text = String::new(alloc);
    for number in 0..count {
        text.push_str(format!(in alloc; "font {number} 32\n").ok()?.as_str())
            .ok()?;
        for code in 32..=126 {
            text.push_str(format!(in alloc; "glyph {code} 32\n{rows}").ok()?.as_str())
                .ok()?;
        }
        text.push_str("end\n").ok()?;
    }
    Some(text)
}

/// A script with so many of a filling.
fn script_with(alloc: Global, filling: Filling, count: u32) -> Option<String> {
    let body = match filling {
        Filling::Calls => call_lines(alloc, "", count)?,
        Filling::Commented => call_lines(alloc, "# and painted\n\n", count)?,
        Filling::Full => {
            let comments = repeated(alloc, "# it's done\n", 18)?;
            call_lines(alloc, comments.as_str(), count)?
        }
        Filling::Bitmaps => bitmaps(alloc, "FF0000 00FF00 123ABC 0000FF ", count)?,
        Filling::Runs => bitmaps(alloc, "FF0000*2 -*2 ", count)?,
        Filling::Fonts => fonts(alloc, count)?,
    };
    format!(in alloc; "{HEADER}{body}").ok()
}

/// Reads a text so often, and gives how many of a filling it has. `None` where it is no script.
fn read_often(alloc: Global, text: &str, filling: Filling, rounds: u32) -> Option<usize> {
    let mut count = 0;
    for _ in 0..rounds {
        let script = read(alloc, text.as_bytes()).ok()?;
        count = filling.count(&script);
    }
    Some(count)
}

/// What the words ask for.
#[derive(Drop)]
struct Asked {
    filling: Filling,
    count: u32,
    rounds: u32,
}

/// What the words ask for. `None` where they are others.
fn words(rt: &HostRuntime) -> Option<Asked> {
    let mut words = env::args(rt).ok()?.skip(1);
    Some(Asked {
        filling: Filling::of(words.next()?.as_str())?,
        count: words.next()?.parse::<u32>().ok()?,
        rounds: words.next()?.parse::<u32>().ok()?,
    })
}

/// The bytes of the script, and how many it was read to have. `None` where memory runs out, or it
/// has too many.
fn measure(alloc: Global, asked: &Asked) -> Option<(usize, usize)> {
    let text = script_with(alloc, asked.filling, asked.count)?;
    let count = read_often(alloc, text.as_str(), asked.filling, asked.rounds)?;
    Some((text.len(), count))
}

fn main(rt: HostRuntime) -> ExitCode {
    let Some(asked) = words(&rt) else {
        return ExitCode::from(2);
    };
    let Some((bytes, count)) = measure(rt.alloc(), &asked) else {
        return ExitCode::from(2);
    };
    match println!(rt; "{bytes} {count}") {
        Ok(()) => ExitCode::from(0),
        Err(_) => ExitCode::from(1),
    }
}
