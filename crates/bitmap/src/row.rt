//! Rows: the runs that a line spells.

ghost use Rattle.std.specs.Prelude.{◌≡◌, ◌+◌, ◌≤◌, IfSome, OnOk, vec_len};
ghost use Rattle.spelling.specs.Parts.{parts_left};
ghost use Rattle.spelling.specs.Words.{Gives};
ghost use Rattle.bitmap.specs.Reading.{point_from, run_from, point_of, count_of, run_of, row_of, Adds};

use crate::fault::BitmapLineError;
use spelling::{colour, cut_at, natural_in, word_at};

/// The value that stands for a transparent point: it is above that of each colour.
const TRANSPARENT: u32 = 0x100_0000;

/// The most points of a run.
const MOST_POINTS: u16 = 256;

/// Points of one value, one after the other.
#[derive(Clone, Copy)]
struct Run {
    value: u32,
    count: u16,
}

/// The point that a word spells.
#[tactic(auto, unfolding(crate::specs::Reading::point_of))]
fn point_of(word: &[u8]) -> Option<u32>
    ensures { Gives point_from result (point_of word.now) }
{
    if word == b"-".as_slice() {
        return Some(TRANSPARENT);
    }
    Some(colour(word)?.value())
}

/// How many points a run has, by what stands after its `*`.
fn count_of(times: Option<&[u8]>) -> Option<u16>
    ensures value { result ≡ count_of (parts_left 42 times.entry) }
    ensures within { IfSome result (λ n. (1 ≤ n) × (n ≤ 256)) }
{
    match times {
        None => Some(1),
        Some(times) => natural_in(2, MOST_POINTS, times),
    }
}

/// The run that a word spells.
#[tactic(auto, unfolding(crate::specs::Reading::run_of))]
fn run_of(word: &[u8]) -> Option<Run>
    ensures value { Gives run_from result (run_of word.now) }
    ensures within { IfSome result (λ run. (1 ≤ run.count) × (run.count ≤ 256)) }
{
    let (text, times) = cut_at(b'*', word);
    let value = point_of(text)?;
    let count = count_of(times)?;
    Some(Run { value, count })
}

/// Adds the points of the row that a line spells.
#[tactic(auto, unfolding(crate::specs::Reading::row_of))]
pub fn push_row(points: &mut Vec<u32>, width: u16, line: &[u8]) -> Result<(), BitmapLineError>
    requires few { (vec_len points.old ≤ 65536) × (width ≤ 256) }
    ensures { Adds result points.old.items points.new.items (row_of width line.now) }
{
    let mut room = width;
    let mut rest = Some(line);
    while let Some((word, after)) = word_at(rest) {
        let Some(run) = run_of(word) else {
            return Err(BitmapLineError::Wrong);
        };
        if run.count > room {
            return Err(BitmapLineError::Wrong);
        }
        if points
            .resize(points.len() + usize::from(run.count), run.value)
            .is_err()
        {
            return Err(BitmapLineError::Memory);
        }
        room -= run.count;
        rest = after;
    }
    if room == 0 {
        Ok(())
    } else {
        Err(BitmapLineError::Wrong)
    }
}
