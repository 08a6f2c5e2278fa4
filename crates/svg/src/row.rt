//! Rows: the runs that a line spells, or the row above once more.

ghost use Rattle.std.specs.Prelude.{◌≡◌, ◌+◌, ◌*◌, ◌≤◌, ◌<◌, IfSome, OnOk, length, vec_len};
ghost use Rattle.spelling.specs.Parts.{parts_left};
ghost use Rattle.svg.specs.Reading.{count_of, run_of, runs_row, row_above, row_of, Adds, AddsRuns};

use crate::fault::{LineError, Reason};
use gfx_base::Colour;
use spelling::{colour, cut_at, natural_in, word_at};

/// The most points of a run.
const MOST_POINTS: u16 = 1024;

/// Points of one colour, one after the other.
#[derive(Clone, Copy)]
pub struct Run {
    colour: Colour,
    count: u16,
}

/// How many points a run has, by what stands after its `*`.
fn count_of(times: Option<&[u8]>) -> Option<u16>
    ensures value { result ≡ count_of (parts_left 42 times.entry) }
    ensures within { IfSome result (λ n. (1 ≤ n) × (n ≤ 1024)) }
{
    match times {
        None => Some(1),
        Some(times) => natural_in(2, MOST_POINTS, times),
    }
}

/// The run that a word spells.
#[tactic(auto, unfolding(crate::specs::Reading::run_of))]
fn run_of(word: &[u8]) -> Option<Run>
    ensures value { result ≡ run_of word.now }
    ensures within { IfSome result (λ run. (1 ≤ run.count) × (run.count ≤ 1024)) }
{
    let (text, times) = cut_at(b'*', word);
    let colour = colour(text)?;
    let count = count_of(times)?;
    Some(Run { colour, count })
}

/// Adds the points of the runs that a line spells.
#[tactic(auto, unfolding(crate::specs::Reading::runs_row))]
fn push_runs(points: &mut Vec<Colour>, width: usize, line: &[u8]) -> Result<(), LineError>
    requires few { (vec_len points.old ≤ 1048576) × (width ≤ 1024) }
    ensures row { AddsRuns result points.old.items points.new.items (runs_row width line.now) }
    ensures len { OnOk result (length points.new.items ≡ length points.old.items + width) }
{
    let mut room = width;
    let mut rest = Some(line);
    while let Some((word, after)) = word_at(rest) {
        let Some(run) = run_of(word) else {
            return Err(LineError::Wrong(Reason::Row));
        };
        let count = usize::from(run.count);
        if count > room {
            return Err(LineError::Wrong(Reason::Row));
        }
        if points.resize(points.len() + count, run.colour).is_err() {
            return Err(LineError::Memory);
        }
        room -= count;
        rest = after;
    }
    if room == 0 {
        Ok(())
    } else {
        Err(LineError::Wrong(Reason::Row))
    }
}

/// Adds the last row once more. There are so many.
fn push_above(points: &mut Vec<Colour>, width: usize, rows: usize) -> Result<(), LineError>
    requires few { (width ≤ 1024) × (rows ≤ 768) }
    requires count { vec_len points.old ≡ rows * width }
    ensures row { Adds result points.old.items points.new.items
        (row_above width rows points.old.items) }
    ensures len { OnOk result (length points.new.items ≡ length points.old.items + width) }
{
    if rows == 0 {
        return Err(LineError::Wrong(Reason::First));
    }
    let start = (rows - 1) * width;
    match points.extend_from_within(start..start + width) {
        Ok(()) => Ok(()),
        Err(_) => Err(LineError::Memory),
    }
}

/// Adds the points of the row that a line tells. There are so many rows before it.
#[tactic(auto, unfolding(crate::specs::Reading::row_of))]
pub fn push_row(
    points: &mut Vec<Colour>,
    width: usize,
    rows: usize,
    line: &[u8],
) -> Result<(), LineError>
    requires few { (width ≤ 1024) × (rows ≤ 768) }
    requires count { vec_len points.old ≡ rows * width }
    ensures row { Adds result points.old.items points.new.items
        (row_of width rows points.old.items line.now) }
    ensures len { OnOk result (length points.new.items ≡ length points.old.items + width) }
{
    if line == b"=".as_slice() {
        push_above(points, width, rows)
    } else {
        push_runs(points, width, line)
    }
}
