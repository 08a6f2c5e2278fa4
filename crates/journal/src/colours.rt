//! Colours as text, and runs of points of one colour.

ghost use Rattle.std.specs.Prelude.{◌≡◌, ◌+◌, ◌*◌, ◌≤◌, ◌<◌, ◌==◌, ◌++◌, length, if◌then◌else◌};
ghost use Rattle.std.specs.List.{prefix_len};
ghost use Rattle.journal.specs.Texts.{run_text, points_line};

use gfx_base::Colour;
use itoa::Buffer;
use spelling::LineRoom;

/// Room for a row's line: 7 bytes for each of 1,024 points.
pub type RowRoom = LineRoom<7168>;

/// How many points from the left have that colour.
fn leading(row: &[Colour], colour: Colour) -> usize
    ensures value { result ≡ prefix_len (λ point. point == colour) row.now }
    ensures within { result ≤ length row.now }
{
    row.iter().take_while(|point| **point == colour).count()
}

/// Pushes the text of a run of so many points.
#[tactic(auto, using(crate::proofs::RunLemmas::decimal_short), unfolding(crate::specs::Texts::run_text))]
fn push_run(room: &mut RowRoom, colour: Colour, count: usize)
    requires some { (1 ≤ count) × (count ≤ 1024) }
    requires room { length room.old + 7 * count ≤ 7168 }
    ensures line { room.new ≡ room.old ++ run_text (colour, count) }
    ensures len { length room.new + 1 ≤ length room.old + 7 * count }
{
    room.push_colour(colour);
    if count > 1 {
        room.push(b'*');
        room.push_bytes(Buffer::new().format(count).as_bytes());
    }
}

/// The byte after a run, before those points of its row.
fn end_of_run(rest: &[Colour]) -> u8
    ensures { result ≡ (if length rest.now == 0 then 10 else 32) }
{
    if rest.is_empty() { b'\n' } else { b' ' }
}

/// Pushes a row's line where it isn't the same as the row above.
pub fn push_points(room: &mut RowRoom, row: &[Colour])
    requires some { (1 ≤ length row.now) × (length row.now ≤ 1024) }
    requires room { length room.old + 7 * length row.now ≤ 7168 }
    ensures { room.new ≡ room.old ++ points_line row.now }
{
    let mut rest = row;
    while let Some((first, others)) = rest.split_first() {
        let same = leading(others, *first);
        push_run(room, *first, same + 1);
        rest = &others[same..];
        room.push(end_of_run(rest));
    }
}
