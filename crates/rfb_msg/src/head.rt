ghost use Rattle.std.specs.Prelude.{◌≡◌, ◌<◌, ◌≤◌, length};
ghost use Rattle.rfb_msg.specs.Kept.{kind_of, head_length};
ghost use Rattle.rfb_msg.specs.Reading.{asked_format, whole_head, after_head};

use crate::encodings::{cut_off, listed};
use crate::message::{Message, Why};
use crate::place::{Kept, Outcome, Place};
use byteorder::{BigEndian, ByteOrder};
use pixel_format::Format;

/// The kinds of messages.
#[derive(Clone, Copy)]
enum Kind {
    SetFormat,
    SetEncodings,
    Request,
    Key,
    Pointer,
    Cut,
}

/// The kind of message that begins with this byte, if there is one.
#[tactic(auto, unfolding(crate::specs::Kept::kind_of))]
fn kind_of(byte: u8) -> Option<Kind>
    ensures { result ≡ kind_of byte }
{
    match byte {
        0 => Some(Kind::SetFormat),
        2 => Some(Kind::SetEncodings),
        3 => Some(Kind::Request),
        4 => Some(Kind::Key),
        5 => Some(Kind::Pointer),
        6 => Some(Kind::Cut),
        _ => None,
    }
}

/// How many bytes the head of such a message has: all of it but for the encodings that it lists
/// and the text that was cut.
fn head_length(kind: Kind) -> usize
    ensures value { result ≡ head_length kind }
    ensures most { result ≤ 20 }
{
    match kind {
        Kind::SetFormat => 20,
        Kind::SetEncodings => 4,
        Kind::Request => 10,
        Kind::Key => 8,
        Kind::Pointer => 6,
        Kind::Cut => 8,
    }
}

/// What the head of a message brings that asks for a format.
fn asked_format(head: &[u8]) -> Outcome
    requires { length head.now ≡ 20 }
    ensures { result ≡ asked_format head.now }
{
    let mut format = [0; 16];
    format.copy_from_slice(&head[4..]);
    match Format::read(&format) {
        Ok(format) => Outcome::said(Message::SetFormat(format)),
        Err(fault) => Outcome::closed(Why::Format(fault)),
    }
}

/// What a message's whole head brings.
fn whole_head(kind: Kind, head: &[u8]) -> Outcome
    requires { (head_length kind ≤ length head.now) × (length head.now ≤ 20) }
    ensures { result ≡ whole_head kind head.now }
{
    match kind {
        Kind::SetFormat => asked_format(head),
        Kind::SetEncodings => listed(BigEndian::read_u16(&head[2..])),
        Kind::Request => Outcome::said(Message::Request {
            incremental: head[1] != 0,
            x: BigEndian::read_u16(&head[2..]),
            y: BigEndian::read_u16(&head[4..]),
            w: BigEndian::read_u16(&head[6..]),
            h: BigEndian::read_u16(&head[8..]),
        }),
        Kind::Key => Outcome::said(Message::Key {
            down: head[1] != 0,
            key: BigEndian::read_u32(&head[4..]),
        }),
        Kind::Pointer => Outcome::said(Message::Pointer {
            mask: head[1],
            x: BigEndian::read_u16(&head[2..]),
            y: BigEndian::read_u16(&head[4..]),
        }),
        Kind::Cut => cut_off(BigEndian::read_u32(&head[4..])),
    }
}

/// The next byte of a message's head.
#[tactic(auto, unfolding(crate::specs::Reading::after_head))]
pub fn after_head(kept: &mut Kept, byte: u8) -> Outcome
    requires { length kept.old.items < 20 }
    ensures outcome { (result, kept.new.items) ≡ after_head kept.old.items byte }
    ensures left { length kept.new.items < 20 }
{
    kept.push(byte);
    let Some(kind) = kind_of(kept[0]) else {
        kept.clear();
        return Outcome::closed(Why::Kind(byte));
    };
    if kept.len() < head_length(kind) {
        return Outcome::begun(Place::Head);
    }
    let outcome = whole_head(kind, kept.as_slice());
    kept.clear();
    outcome
}
