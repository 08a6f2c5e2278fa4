//! The call lines that were read, of which there may be so many of each kind.

ghost use Rattle.std.specs.Prelude.{◌≡◌, ◌<◌, ◌==◌, ◌++◌, ◌∷◌, [], length, nat_lt, IfOk};
ghost use Rattle.calls.specs.Lines.{call_count};
ghost use Rattle.script_lines.specs.Counts.{count_alike};

use calls::{Act, Line, call_count};
use std::alloc::{AllocError, Global};
use std::marker::Model;

/// How many call lines of tasks a script may have, and how many ticks.
const MOST_LINES: usize = 400_000;

/// Call lines, at most 400,000 of tasks and at most 400,000 ticks.
#[derive(Drop)]
pub struct CallLines {
    lines: Vec<Line>,
    /// How many of them are ticks.
    ticks: usize,
}

impl Model for CallLines {
    ghost use Rattle.std.specs.Prelude.{List};
    ghost use Rattle.calls.specs.declared.line.Line.{Line as LineOf};
    ghost use Rattle.script_lines.specs.Counts.{AreCounted};

    ghost Value = { List LineOf };

    ghost view = { λ c. c.lines.items };

    ghost invariant = { λ c. AreCounted c.lines.items c.ticks };
}

impl CallLines {
    pub fn new(alloc: Global) -> CallLines
        ensures { result ≡ [] }
    {
        CallLines {
            lines: Vec::new(alloc),
            ticks: 0,
        }
    }

    pub fn is_empty(&self) -> bool
        ensures { result ≡ (length self.now == 0) }
    {
        self.lines.is_empty()
    }

    /// Whether there may be one more line of this line's kind.
    #[tactic(auto, using(crate::proofs::CountLaws::ticks_fit, crate::proofs::CountLaws::tasks_are))]
    pub fn have_room(&self, line: &Line) -> bool
        ensures { result ≡ nat_lt (count_alike line.now self.now) 400000 }
    {
        match line {
            Line::Tick => self.ticks < MOST_LINES,
            Line::Task { .. } => self.lines.len() - self.ticks < MOST_LINES,
        }
    }

    /// Adds a line.
    #[tactic(auto, using(crate::proofs::CountLaws::counted_tick))]
    pub fn push(&mut self, line: Line) -> Result<(), AllocError>
        requires { count_alike line self.old < 400000 }
        ensures { IfOk result (λ _. self.new ≡ self.old ++ line ∷ []) }
    {
        // All acts are named, so that the check sees each type that a line holds.
        match &line {
            Line::Tick => {
                self.lines.push(line)?;
                self.ticks += 1;
            }
            Line::Task {
                act: Act::Call(_) | Act::Lock | Act::Unlock,
                ..
            } => self.lines.push(line)?,
        }
        Ok(())
    }

    /// How many of them ask for calls.
    pub fn call_count(&self) -> u32
        ensures { result ≡ call_count self.now }
    {
        call_count(&self.lines) as u32
    }

    pub fn into_lines(self) -> Vec<Line>
        ensures { result.items ≡ self }
    {
        self.lines
    }
}
