ghost use Rattle.std.specs.Prelude.{◌≡◌, ◌≤◌, length};
ghost use Rattle.calls.specs.Lines.{is_call, is_tick, call_count};

use crate::call::Call;

/// What a task does by one line of a script.
#[derive(Clone, Copy, Debug, PartialEq, Eq)]
pub enum Act {
    Call(Call),
    /// It takes the lock on all tasks' calls, which it may hold up to 100 times over.
    Lock,
    /// It gives the lock back once.
    Unlock,
}

/// A line of a script that asks for something.
#[derive(Clone, Copy, Debug, PartialEq, Eq)]
pub enum Line {
    /// What a task from 1 to 16 does.
    Task { task: u16, act: Act },
    /// The display shows what waits to be shown.
    Tick,
}

impl Line {
    /// Whether the line asks for a call. Lines on the lock and ticks don't.
    pub fn is_call(&self) -> bool
        ensures { result ≡ is_call self.now }
    {
        matches!(
            self,
            Line::Task {
                act: Act::Call(_),
                ..
            }
        )
    }

    /// Whether the line is a tick of the display.
    pub fn is_tick(&self) -> bool
        ensures { result ≡ is_tick self.now }
    {
        matches!(self, Line::Tick)
    }
}

/// How many of the lines ask for calls.
pub fn call_count(lines: &[Line]) -> usize
    ensures value { result ≡ call_count lines.now }
    ensures within { result ≤ length lines.now }
{
    lines.iter().filter(|line| line.is_call()).count()
}
