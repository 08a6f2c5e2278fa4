//! Draws a picture: an input is read, and the SVG text of the picture that it tells is written.

ghost use Rattle.std.specs.Prelude.{◌≡◌, ◌↔◌, None};
ghost use Rattle.svg.specs.declared.ending.Ending.{Ending};
ghost use Rattle.svg.specs.Words.{texts_of, choice_of};
ghost use Rattle.svg.specs.Outcome.{Shows, Ends};

use crate::command::choice;
use crate::ending::Ending;
use crate::fault::Refused;
use crate::reader::read;
use crate::writing::write_svg;
use outside::{ReadRefused, Sink, read_prefix};
use std::alloc::Global;
use std::io::Read;

/// Writes the picture that a text tells.
fn show<K: Sink>(alloc: Global, wanted: Option<usize>, text: &[u8], out: &mut K) -> Ending
    ensures { Shows result wanted text.now (K.log out.old) (K.log out.new) }
{
    match read(alloc, wanted, text) {
        Ok(picture) => match write_svg(out, &picture) {
            Ok(()) => Ending::Done,
            Err(_) => Ending::Output,
        },
        Err(Refused::Fault(fault)) => Ending::NoPicture(fault),
        Err(Refused::Memory) => Ending::Memory,
    }
}

/// Writes the SVG text of a picture that the input tells: of the one of the number that the one
/// word is, or of the last one. Nothing is written before all of the input was read.
pub fn draw<F: Read + Drop, K: Sink>(
    alloc: Global,
    words: &[String],
    input: F,
    out: &mut K,
) -> Ending
    ensures words { (result ≡ Ending.Usage) ↔ (choice_of (texts_of words.now) ≡ None) }
    ensures ends { Ends result (texts_of words.now) (F.remaining input) (K.log out.old)
        (K.log out.new) }
{
    let Some(wanted) = choice(words) else {
        return Ending::Usage;
    };
    match read_prefix(alloc, input, usize::MAX) {
        Ok(text) => show(alloc, wanted, &text, out),
        Err(ReadRefused::Failed) => Ending::Input,
        Err(ReadRefused::Memory) => Ending::Memory,
    }
}
