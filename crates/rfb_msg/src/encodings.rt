ghost use Rattle.std.specs.Prelude.{◌≡◌, ◌<◌, ◌≤◌, length};
ghost use Rattle.rfb_msg.specs.Grammar.{known};
ghost use Rattle.rfb_msg.specs.Reading.{listed, after_encodings, cut_off, after_text};

use crate::message::{Encoding, Message};
use crate::place::{Kept, Outcome, Place};
use byteorder::{BigEndian, ByteOrder};

/// The encoding of this number, if it is served here.
#[tactic(auto, unfolding(crate::specs::Grammar::known))]
fn known(number: u32) -> Option<Encoding>
    ensures { result ≡ known number }
{
    match number {
        0 => Some(Encoding::Raw),
        5 => Some(Encoding::Hextile),
        _ => None,
    }
}

/// What the head of a message brings that lists so many encodings.
pub fn listed(count: u16) -> Outcome
    ensures { result ≡ listed count }
{
    if count == 0 {
        Outcome::said(Message::SetEncodings(Encoding::Raw))
    } else {
        Outcome::begun(Place::Encodings {
            left: count,
            chosen: None,
        })
    }
}

/// The next byte of the encodings that a viewer lists, of which as many are left.
#[tactic(auto, unfolding(crate::specs::Reading::after_encodings))]
pub fn after_encodings(kept: &mut Kept, left: u16, chosen: Option<Encoding>, byte: u8) -> Outcome
    requires { length kept.old.items < 20 }
    ensures outcome { (result, kept.new.items) ≡ after_encodings kept.old.items left chosen byte }
    ensures left { length kept.new.items < 20 }
{
    kept.push(byte);
    if kept.len() < 4 {
        return Outcome::begun(Place::Encodings { left, chosen });
    }
    let number = BigEndian::read_u32(kept.as_slice());
    kept.clear();
    let chosen = chosen.or(known(number));
    if left > 1 {
        return Outcome::begun(Place::Encodings {
            left: left - 1,
            chosen,
        });
    }
    Outcome::said(Message::SetEncodings(chosen.unwrap_or(Encoding::Raw)))
}

/// What the head of a message brings that tells of a text of so many bytes.
pub fn cut_off(length: u32) -> Outcome
    ensures { result ≡ cut_off length }
{
    if length == 0 {
        Outcome::said(Message::Cut)
    } else {
        Outcome::begun(Place::Text { left: length })
    }
}

/// The next byte of a text that was cut, of which as many are left.
#[tactic(auto, unfolding(crate::specs::Reading::after_text))]
pub fn after_text(left: u32) -> Outcome
    ensures { result ≡ after_text left }
{
    if left > 1 {
        Outcome::begun(Place::Text { left: left - 1 })
    } else {
        Outcome::said(Message::Cut)
    }
}
