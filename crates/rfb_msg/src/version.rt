ghost use Rattle.std.specs.Prelude.{◌≡◌, ◌<◌, length};
ghost use Rattle.rfb_msg.specs.Grammar.{is_version_byte};
ghost use Rattle.rfb_msg.specs.Reading.{after_version};

use crate::message::{Step, Why};
use crate::place::{Kept, Outcome, Place};

/// What each version begins with.
const PREFIX: [u8; 8] = *b"RFB 003.";

/// Whether a version may have this byte at this place: `RFB 003.`, three digits and byte 10.
#[tactic(auto, unfolding(crate::specs::Grammar::is_version_byte))]
fn is_version_byte(place: usize, byte: u8) -> bool
    ensures { result ≡ is_version_byte place byte }
{
    if place < 8 {
        byte == PREFIX[place]
    } else if place < 11 {
        b'0' <= byte && byte <= b'9'
    } else {
        byte == b'\n'
    }
}

/// The next byte of a version.
#[tactic(auto, unfolding(crate::specs::Reading::after_version))]
pub fn after_version(kept: &mut Kept, byte: u8) -> Outcome
    requires { length kept.old.items < 20 }
    ensures outcome { (result, kept.new.items) ≡ after_version kept.old.items byte }
    ensures left { length kept.new.items < 20 }
{
    if !is_version_byte(kept.len(), byte) {
        return Outcome::closed(Why::Version(byte));
    }
    kept.push(byte);
    if kept.len() < 12 {
        return Outcome::begun(Place::Version);
    }
    kept.clear();
    Outcome {
        step: Step::Version,
        place: Place::Init,
    }
}
