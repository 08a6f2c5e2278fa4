ghost use Rattle.std.specs.Prelude.{◌≡◌};

use crate::message::{Encoding, Message, Step, Why};
use arrayvec::ArrayVec;

/// The bytes that are kept: those of a version, of the head of a message, or of one encoding. The
/// head of a message is all of it but for the encodings that it lists and the text that was cut.
pub type Kept = ArrayVec<u8, 20>;

/// What comes next of a viewer's bytes.
#[derive(Clone, Copy)]
pub enum Place {
    /// More of the version, whose first bytes are kept.
    Version,
    /// The byte after the version.
    Init,
    /// More of a message's head, whose first bytes are kept.
    Head,
    /// As many encodings, and of the first of them some bytes are kept. Of those before, `chosen`
    /// is the first that is served here.
    Encodings { left: u16, chosen: Option<Encoding> },
    /// As many bytes of a text that was cut.
    Text { left: u32 },
    /// Nothing.
    Closed(Why),
}

/// What a byte brings, and what comes next after it.
#[derive(Clone, Copy)]
pub struct Outcome {
    pub step: Step,
    pub place: Place,
}

impl Outcome {
    /// Something is begun, and this comes next.
    pub fn begun(place: Place) -> Outcome
        ensures { result ≡ record { step = Step.Nothing; place = place } }
    {
        Outcome {
            step: Step::Nothing,
            place,
        }
    }

    /// A message is whole.
    pub fn said(message: Message) -> Outcome
        ensures { result ≡ record { step = Step.Message message; place = Place.Head } }
    {
        Outcome {
            step: Step::Message(message),
            place: Place::Head,
        }
    }

    /// The byte is bad.
    pub fn closed(why: Why) -> Outcome
        ensures { result ≡ record { step = Step.Closed why; place = Place.Closed why } }
    {
        Outcome {
            step: Step::Closed(why),
            place: Place::Closed(why),
        }
    }
}
