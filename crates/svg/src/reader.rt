//! Reads the wanted picture of a text.

ghost use Rattle.std.specs.Prelude.{◌≡◌, Ok, MatchResult, IfOk};
ghost use Rattle.frame.specs.Pictures.{HasShape};
ghost use Rattle.svg.specs.declared.fault.Refused.{Refused};
ghost use Rattle.svg.specs.Reading.{picture_in, Says};

use crate::draft::Draft;
use crate::fault::{Fault, LineError, Reason, Refused};
use crate::image::Image;
use spelling::first_line;
use std::alloc::Global;

fn fault(line: usize, why: Reason) -> Refused
    ensures { result ≡ Refused.Fault (record { line = line; why = why }) }
{
    Refused::Fault(Fault { line, why })
}

/// The picture that a text tells, or the first fault of its frame texts. Lines outside of frame
/// texts are passed over. Of several pictures the one of the wanted number is read, from 1 on, or
/// the last one.
#[tactic(auto, unfolding(crate::specs::Reading::picture_in))]
pub fn read(alloc: Global, wanted: Option<usize>, text: &[u8]) -> Result<Image, Refused>
    ensures told { MatchResult result (λ p. picture_in wanted text.now ≡ Ok p)
        (Says (picture_in wanted text.now)) }
    ensures shape { IfOk result (λ p. HasShape p) }
{
    let mut draft = Draft::new(wanted);
    let mut rest = text;
    let mut number = 0;
    while !rest.is_empty() {
        let (line, after) = first_line(rest);
        number += 1;
        match draft.after(alloc, line) {
            Ok(next) => draft = next,
            Err(LineError::Memory) => return Err(Refused::Memory),
            Err(LineError::Wrong(why)) => return Err(fault(number, why)),
        }
        rest = after;
    }
    match draft.into_picture() {
        Ok(picture) => Ok(picture),
        Err(why) => Err(fault(number + 1, why)),
    }
}
