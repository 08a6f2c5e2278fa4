//! Reads bitmaps.

ghost use Rattle.std.specs.Prelude.{◌≡◌, ◌≤◌, MatchResult};
ghost use Rattle.bitmap.specs.declared.fault.BitmapRefused.{BitmapRefused};
ghost use Rattle.bitmap.specs.Texts.{IsBody};
ghost use Rattle.bitmap.specs.Faults.{IsRefused};
ghost use Rattle.bitmap.specs.Reading.{read_of, Says, SaysBitmap};

use crate::bitmap::Bitmap;
use crate::draft::BitmapDraft;
use crate::fault::{BitmapFault, BitmapLineError, BitmapRefused, BitmapWhy};
use spelling::first_line;
use std::alloc::Global;

fn fault(line: u32, why: BitmapWhy) -> BitmapRefused
    ensures { result ≡ BitmapRefused.Fault (record { line = line; why = why }) }
{
    BitmapRefused::Fault(BitmapFault { line, why })
}

#[tactic(auto, unfolding(crate::specs::Reading::read_of))]
fn read_lines(alloc: Global, w: u16, h: u16, body: &[u8]) -> Result<Bitmap, BitmapRefused>
    requires width { (1 ≤ w) × (w ≤ 256) }
    requires height { (1 ≤ h) × (h ≤ 256) }
    ensures { MatchResult result (SaysBitmap (read_of w h body.now)) (Says (read_of w h body.now)) }
{
    let Ok(mut draft) = BitmapDraft::new(alloc, w, h) else {
        return Err(BitmapRefused::Memory);
    };
    let mut rest = body;
    let mut number = 0;
    while !rest.is_empty() {
        let (line, after) = first_line(rest);
        number += 1;
        let why = draft.why();
        match draft.take(line) {
            Ok(()) => {}
            Err(BitmapLineError::Memory) => return Err(BitmapRefused::Memory),
            Err(BitmapLineError::Wrong) => return Err(fault(number, why)),
        }
        rest = after;
    }
    if draft.is_whole() {
        Ok(draft.into_bitmap())
    } else {
        Err(fault(number + 1, BitmapWhy::End))
    }
}

impl Bitmap {
    /// The bitmap that a body says: `h` rows of `w` points, from the top, and then the line `end`.
    /// A row is a line of runs, parted by single spaces. A run is `C` for one point and `C*n` for
    /// `n` points, from 2 to 256, where `C` is a colour of six digits `0` to `9` and `A` to `F`, or
    /// `-` for transparent points. Both sides are from 1 to 256 points. The points are kept in one
    /// allocation.
    pub fn read(alloc: Global, w: u16, h: u16, body: &[u8]) -> Result<Bitmap, BitmapRefused>
        requires width { (1 ≤ w) × (w ≤ 256) }
        requires height { (1 ≤ h) × (h ≤ 256) }
        // What is read is the body's bitmap; otherwise its first fault is told, unless memory runs
        // out.
        ensures { MatchResult result (λ b. IsBody w h body.now b) (IsRefused w h body.now) }
    {
        read_lines(alloc, w, h, body)
    }
}
