ghost use Rattle.std.specs.Prelude.{◌≡◌, ℕ, ◌<◌, List, [], ◌∷◌, ◌++◌, length};
ghost use Rattle.rfb_msg.specs.Reading.{outcome_at};

use crate::encodings::{after_encodings, after_text};
use crate::head::after_head;
use crate::message::Step;
use crate::place::{Kept, Outcome, Place};
use crate::version::after_version;
use std::marker::Model;

/// A reader of what a viewer sends. It keeps no more than the head of a message, and counts the
/// other bytes.
#[derive(Drop)]
pub struct Reader {
    place: Place,
    kept: Kept,
}

impl Model for Reader {
    ghost use Rattle.std.specs.Prelude.{◌<◌, length};
    ghost use Rattle.rfb_msg.specs.Kept.{Held};
    ghost use Rattle.rfb_msg.specs.Standing.{IsReader};

    ghost Value = { Held };

    ghost view = { λ r. record { place = r.place; kept = r.kept.items } };

    ghost invariant = { λ r. (length r.kept.items < 20)
        × IsReader (record { place = r.place; kept = r.kept.items }) };
}

impl Reader {
    ghost use Rattle.rfb_msg.specs.declared.message.Why.{Why};
    ghost use Rattle.rfb_msg.specs.Grammar.{Stage, AtVersion, Item, stage_of, stage_after, step_of, Spells, IsBad, IsGood, IsPart};
    ghost use Rattle.rfb_msg.specs.Reading.{advance};
    ghost use Rattle.rfb_msg.specs.Standing.{Stands, IsClosed, Brings, IsReader};

    /// A reader of a viewer that hasn't sent anything.
    pub fn new() -> Reader
        ensures { Stands result AtVersion [] }
    {
        Reader {
            place: Place::Version,
            kept: Kept::new(),
        }
    }

    /// Reads the next byte. Until it is closed, the reader stands for a stage of what a viewer
    /// sends, and for the bytes since the last item.
    pub fn feed(&mut self, byte: u8) -> Step
        // A bad byte closes the reader.
        ensures bad { (stage : Stage) (before : List ℕ) (why : Why)
            → Stands self.old stage before → IsBad stage before byte why
            → (result ≡ Step.Closed why) × IsClosed self.new why }
        // Another byte with which an item is whole brings the item, and the next stage begins.
        ensures item { (stage : Stage) (before : List ℕ) (item : Item)
            → Stands self.old stage before → IsGood stage before byte
            → stage_of item ≡ stage → Spells (before ++ byte ∷ []) item
            → (result ≡ step_of item) × Stands self.new (stage_after item) [] }
        // Any other byte is added.
        ensures nothing { (stage : Stage) (before : List ℕ)
            → Stands self.old stage before → IsGood stage before byte
            → IsPart stage (before ++ byte ∷ [])
            → (result ≡ Step.Nothing) × Stands self.new stage (before ++ byte ∷ []) }
        // What is answered is so.
        ensures brings { (stage : Stage) (before : List ℕ)
            → Stands self.old stage before → Brings stage before byte result self.new }
        // After a bad byte each byte is answered alike.
        ensures closed { (why : Why)
            → IsClosed self.old why → (result ≡ Step.Closed why) × IsClosed self.new why }
        // Until it is closed, the reader stands for a stage and some bytes.
        ensures stands { IsReader self.old × IsReader self.new }
    {
        let _ = &self.place;
        self.advance(byte)
    }

    /// Takes the next byte.
    #[tactic(auto, unfolding(crate::specs::Reading::advance))]
    fn advance(&mut self, byte: u8) -> Step
        ensures { (result, self.new) ≡ advance self.old byte }
    {
        let outcome = next(self.place, &mut self.kept, byte);
        self.place = outcome.place;
        outcome.step
    }
}

/// The next byte at this place.
fn next(place: Place, kept: &mut Kept, byte: u8) -> Outcome
    requires { length kept.old.items < 20 }
    ensures outcome { (result, kept.new.items) ≡ outcome_at place kept.old.items byte }
    ensures left { length kept.new.items < 20 }
{
    match place {
        Place::Version => after_version(kept, byte),
        Place::Init => Outcome {
            step: Step::Init,
            place: Place::Head,
        },
        Place::Head => after_head(kept, byte),
        Place::Encodings { left, chosen } => after_encodings(kept, left, chosen, byte),
        Place::Text { left } => after_text(left),
        Place::Closed(why) => Outcome::closed(why),
    }
}
