//! Reads fonts.

ghost use Rattle.std.specs.Prelude.{◌≡◌, ◌≤◌, IfOk, MatchResult};
ghost use Rattle.glyph_font.specs.declared.fault.FontRefused.{FontRefused};
ghost use Rattle.glyph_font.specs.Texts.{IsBody};
ghost use Rattle.glyph_font.specs.Faults.{IsRefused};
ghost use Rattle.glyph_font.specs.Reading.{read_of, Says, SaysFont};

use crate::draft::FontDraft;
use crate::fault::{FontFault, FontLineError, FontRefused, FontWhy};
use crate::font::Font;
use crate::place::why_at;
use spelling::first_line;
use std::alloc::Global;

fn fault(line: u32, why: FontWhy) -> FontRefused
    ensures { result ≡ FontRefused.Fault (record { line = line; why = why }) }
{
    FontRefused::Fault(FontFault { line, why })
}

#[tactic(auto, unfolding(crate::specs::Reading::read_of))]
fn read_lines(alloc: Global, height: u8, body: &[u8]) -> Result<Font, FontRefused>
    requires { (1 ≤ height) × (height ≤ 32) }
    ensures { MatchResult result (SaysFont (read_of height body.now))
        (Says (read_of height body.now)) }
{
    let Ok(mut draft) = FontDraft::new(alloc, height) else {
        return Err(FontRefused::Memory);
    };
    let mut rest = body;
    let mut number = 0;
    while !rest.is_empty() {
        let (line, after) = first_line(rest);
        number += 1;
        let place = draft.place();
        match draft.take(line) {
            Ok(()) => {}
            Err(FontLineError::Memory) => return Err(FontRefused::Memory),
            Err(FontLineError::Wrong) => return Err(fault(number, why_at(place))),
        }
        rest = after;
    }
    if draft.is_whole() {
        Ok(draft.into_font())
    } else {
        Err(fault(number + 1, FontWhy::End))
    }
}

impl Font {
    /// The font that a body says: any number of glyphs, and then the line `end`. A glyph is the
    /// line `glyph CODE WIDTH` and then a line for each row of the font's height, from the top.
    /// Codes are from 32 to 126 and rise, widths are from 1 to 32, and a row has a `#` for each
    /// point that is set and a `.` for each other. The height is from 1 to 32 points.
    pub fn read(alloc: Global, height: u8, body: &[u8]) -> Result<Font, FontRefused>
        requires { (1 ≤ height) × (height ≤ 32) }
        // What is read is the body's font; otherwise its first fault is told, unless memory runs
        // out.
        ensures { MatchResult result (λ font. IsBody height body.now font)
            (IsRefused height body.now) }
    {
        read_lines(alloc, height, body)
    }
}
