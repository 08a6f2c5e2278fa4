//! The cases of a file, line by line.

use command_runs::written;
use std::str;

/// The case that the lines so far belong to.
#[derive(Drop)]
struct Begun {
    /// Its first line.
    line: String,
    script: String,
    /// Whether some of its scripts were cases of their own.
    varied: bool,
}

/// The cases that are done as their lines are taken.
#[derive(Drop)]
pub struct Cases<'r> {
    rt: &'r HostRuntime,
    begun: Option<Begun>,
}

/// Does a command on a script, and tells the line of the case, behind the status with which the
/// command ends, and what it writes.
fn do_case(rt: &HostRuntime, line: &str, words: &str, script: &str) -> Option<()> {
    let (status, out) = written(rt.alloc(), words, script)?;
    println!(rt; "{status} {line}").ok()?;
    let text = str::from_utf8(out.bytes()).ok()?;
    print!(rt; "{text}").ok()
}

/// The words of a case's first line.
fn words_in(line: &str) -> &str {
    let words = line.strip_prefix('>').unwrap_or(line);
    words.split_once(':').map_or(words, |(words, _)| words)
}

/// Adds a text in which `\n` ends a line and `\xHH` is a byte.
fn push_escaped(script: &mut String, text: &str) -> Option<()> {
    let mut parts = text.split('\\');
    script.push_str(parts.next()?).ok()?;
    for part in parts {
        if let Some(rest) = part.strip_prefix('n') {
            script.push('\n').ok()?;
            script.push_str(rest).ok()?;
        } else {
            let (digits, rest) = part.strip_prefix('x')?.split_at_checked(2)?;
            script
                .push(char::from(u8::from_str_radix(digits, 16).ok()?))
                .ok()?;
            script.push_str(rest).ok()?;
        }
    }
    Some(())
}

impl<'r> Cases<'r> {
    /// No case was begun.
    pub fn none(rt: &'r HostRuntime) -> Cases<'r> {
        Cases { rt, begun: None }
    }

    /// Takes the next line. `None` where it isn't part of a case, memory runs out, or what is told
    /// can't be written.
    pub fn take(&mut self, line: &str) -> Option<()> {
        if line.starts_with('>') {
            self.finish()?;
            self.begun = Some(Begun {
                line: String::from_str(self.rt.alloc(), line).ok()?,
                script: String::new(self.rt.alloc()),
                varied: false,
            });
            return Some(());
        }
        let begun = self.begun.as_mut()?;
        match line.strip_prefix('+') {
            Some(text) => begun.vary(self.rt, line, text.strip_prefix(' ').unwrap_or(text)),
            None => {
                begun.script.push_str(line).ok()?;
                begun.script.push('\n').ok()
            }
        }
    }

    /// Does the last case.
    pub fn finish(&mut self) -> Option<()> {
        match self.begun.take() {
            Some(begun) if !begun.varied => do_case(
                self.rt,
                &begun.line,
                words_in(&begun.line),
                &begun.script,
            ),
            _ => Some(()),
        }
    }
}

impl Begun {
    /// Does the case whose script ends with a text.
    fn vary(&mut self, rt: &HostRuntime, line: &str, text: &str) -> Option<()> {
        self.varied = true;
        let mut script = String::from_str(rt.alloc(), &self.script).ok()?;
        push_escaped(&mut script, text)?;
        do_case(rt, line, words_in(&self.line), &script)
    }
}
