//! Words that spell colours, and the digits of a colour.

ghost use Rattle.std.specs.Prelude.{◌≡◌, ◌<◌, IfSome};
ghost use Rattle.spelling.specs.Digits.{hex_digit, hex_colour};
ghost use Rattle.spelling.specs.Words.{hex_digit_of, hex_byte_of, colour_of};

use gfx_base::Colour;

#[tactic(auto, unfolding(crate::specs::Words::hex_digit_of))]
fn digit_value(byte: u8) -> Option<u8>
    ensures value { result ≡ hex_digit_of byte }
    ensures small { IfSome result (λ d. d < 16) }
{
    match byte {
        b'0'..=b'9' => Some(byte - b'0'),
        b'A'..=b'F' => Some(byte - b'A' + 10),
        _ => None,
    }
}

#[tactic(auto, unfolding(crate::specs::Words::hex_byte_of))]
fn byte_value(high: u8, low: u8) -> Option<u8>
    ensures { result ≡ hex_byte_of high low }
{
    Some(digit_value(high)? * 16 + digit_value(low)?)
}

/// The colour that a word spells.
#[tactic(auto, unfolding(crate::specs::Words::colour_of))]
pub fn colour(word: &[u8]) -> Option<Colour>
    ensures { result ≡ colour_of word.now }
{
    let [a, b, c, d, e, f] = word else {
        return None;
    };
    let red = byte_value(*a, *b)?;
    let green = byte_value(*c, *d)?;
    let blue = byte_value(*e, *f)?;
    Colour::new(u32::from(red) * 65536 + u32::from(green) * 256 + u32::from(blue))
}

fn digit_of(value: u8) -> u8
    requires { value < 16 }
    ensures { result ≡ hex_digit value }
{
    if value < 10 {
        b'0' + value
    } else {
        b'A' + (value - 10)
    }
}

/// The six digits of a colour: two each of red, green and blue.
#[tactic(auto, unfolding(crate::specs::Digits::hex_colour))]
pub fn colour_digits(colour: Colour) -> [u8; 6]
    ensures { result ≡ hex_colour colour }
{
    let [_, red, green, blue] = colour.value().to_be_bytes();
    [
        digit_of(red / 16),
        digit_of(red % 16),
        digit_of(green / 16),
        digit_of(green % 16),
        digit_of(blue / 16),
        digit_of(blue % 16),
    ]
}
