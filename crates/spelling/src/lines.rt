//! Texts: their bytes, and where marks cut them.

ghost use Rattle.std.specs.Prelude.{◌≡◌, ◌<◌, ◌==◌, ◌∷◌, length, position, IfSome, IfNone};
ghost use Rattle.spelling.specs.Parts.{parts, parts_left, lines_of, is_printable};

/// Where the first mark stands.
fn position_of(mark: u8, text: &[u8]) -> Option<usize>
    ensures { result ≡ position (λ b. b == mark) text.now }
{
    text.iter().position(|b| *b == mark)
}

/// What stands before the first mark, and what stands after it where there is one.
pub fn cut_at(mark: u8, text: &[u8]) -> (&[u8], Option<&[u8]>)
    ensures parts { parts mark text.now ≡ result.0.now ∷ parts_left mark result.1 }
    ensures whole { IfNone result.1 (result.0.now ≡ text.now) }
    ensures shorter { IfSome result.1 (λ rest. length rest.now < length text.now) }
{
    match position_of(mark, text) {
        None => (text, None),
        Some(end) => (&text[..end], Some(&text[end + 1..])),
    }
}

/// The first line of a text that isn't empty, and the text after it.
pub fn first_line(text: &[u8]) -> (&[u8], &[u8])
    requires { 0 < length text.now }
    ensures lines { lines_of text.now ≡ result.0.now ∷ lines_of result.1.now }
    ensures shorter { length result.1.now < length text.now }
{
    let (line, rest) = cut_at(b'\n', text);
    match rest {
        None => (line, &[]),
        Some(rest) => (line, rest),
    }
}

/// Whether each byte is printable: from 32 to 126.
pub fn is_printable(line: &[u8]) -> bool
    ensures { result ≡ is_printable line.now }
{
    line.iter().all(|b| (32..=126).contains(b))
}
