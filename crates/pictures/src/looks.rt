//! Looks at the picture that a script shows.

use command_runs::written;
use outside::MemSink;
use std::alloc::{AllocError, Global};
use std::str;

/// What windows paint with. The classes draw by their windows' values, and through one of them one
/// sees; some react to messages, and hand them on to the windows that they lie in.
const ASSETS: &str = "desktop 000000\n\
    font 0 3\nglyph 45 2\n..\n##\n..\nglyph 48 2\n##\n##\n##\nglyph 49 1\n#\n#\n#\n\
    glyph 50 2\n##\n.#\n#.\nglyph 55 2\n##\n.#\n.#\nglyph 65 3\n.#.\n###\n#.#\nend\n\
    bitmap 0 4 3\nFF8000 -*2 FF8000\n-*3 80FF00\n8000FF -*3\nend\nstring 0 A1 0\n\
    class 1 0000FF\nframe 0 0 w-1 h-1 8080FF\nline 1 1 w-2 h-2 C0C0FF\n\
    fill 1 1 v0 2 FFC000\non 0 set 0 a\non 0 add 1 -3\non 0 up 1\non 1 add 0 a\non 1 up 2\nend\n\
    class 2 00FF00\nfill 0 v1 v0-1 h-2 006000\nnumber 0 1 1 FFFFC0 v0+10\n\
    on 1 add 0 2\non 1 add 1 a\non 1 up 0\non 1 up 3\non 2 set 1 1\non 2 set 0 a\nend\n\
    class 3 FF0000\nfill 1 h-3 w-2 h-2 FF8080\nhline -2 w+2 0 FFC0C0\nvline w-1 0 h 800000\n\
    bitmap 0 1 v1-1\non 0 up 0\non 2 add 1 1\non 2 up 2\nend\n\
    class 4 FFFFFF\ntext 0 1 v1+1 202020 0\non 1 up 1\non 3 add 1 32767\non 3 add 1 -32766\nend\n\
    class 5 -\nframe 0 0 v0+2 h-1 FFFF00\nline 0 v1 w-1 h-1 00FFFF\nbitmap 0 w-5 2\n\
    number 0 2 3 FF00FF v1\non 0 set 1 a\non 0 up 1\non 1 add 1 2\non 1 set 0 4\non 1 up 0\nend\n";

/// The lines of each script before its calls, which has so many buffers.
pub fn header(alloc: Global, buffers: u16) -> Result<String, AllocError> {
    let mut script = String::from_str(alloc, "mtgui 1\nscreen 24 16\n")?;
    writeln!(&mut script, "buffers {buffers}")?;
    script.push_str(ASSETS)?;
    Ok(script)
}

/// What a command writes of a script. `None` where it isn't done to its end.
fn written_by(alloc: Global, words: &str, script: &str) -> Option<MemSink> {
    match written(alloc, words, script)? {
        (0, out) => Some(out),
        _ => None,
    }
}

/// Whether a script's calls show the painter's picture once all is painted: at most so many begins
/// are ended, and what waits is shown.
fn shows_the_painter(alloc: Global, calls: &str, begun: u16) -> Option<bool> {
    let mut script = String::from_str(alloc, calls).ok()?;
    for _ in 0..begun {
        script.push_str("1 end\n").ok()?;
    }
    script
        .push_str("display tick\n1 exec\ndisplay tick\n1 scan\n")
        .ok()?;
    let played = written_by(alloc, "play F", script.as_str())?;
    let painted = written_by(alloc, "paint F", script.as_str())?;
    let painted = str::from_utf8(painted.bytes()).ok()?;
    Some(str::from_utf8(played.bytes()).ok()?.contains(painted))
}

/// How often pictures were looked at, and how often they weren't the painter's.
#[derive(Clone, Copy)]
pub struct Looks {
    pub count: u32,
    pub differing: u32,
}

impl Looks {
    /// Nothing was looked at.
    pub fn none() -> Looks {
        Looks {
            count: 0,
            differing: 0,
        }
    }

    /// Looks at what a script shows, in which at most so many begins are open, once all is painted.
    /// `None` where memory runs out or a command fails.
    pub fn look(self, alloc: Global, script: &str, begun: u16) -> Option<Looks> {
        let is_right = shows_the_painter(alloc, script, begun)?;
        Some(Looks {
            count: self.count.saturating_add(1),
            differing: self.differing.saturating_add(u32::from(!is_right)),
        })
    }
}
