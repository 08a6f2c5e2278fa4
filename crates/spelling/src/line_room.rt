//! Room for one line of output.

ghost use Rattle.std.specs.Prelude.{◌≡◌, ◌+◌, ◌≤◌, ◌<◌, [], ◌∷◌, ◌++◌, length};
ghost use Rattle.spelling.specs.Digits.{hex_colour};

use crate::hex::colour_digits;
use arrayvec::ArrayVec;
use gfx_base::Colour;
use itoa::{Buffer, Integer};
use std::marker::Model;

/// Room for a line of at most `N` bytes, in the value itself.
#[derive(Drop)]
pub struct LineRoom<const N: usize> {
    bytes: ArrayVec<u8, N>,
}

impl<const N: usize> Model for LineRoom<N> {
    ghost use Rattle.std.specs.Prelude.{List, ℕ};

    ghost Value = { List ℕ };

    ghost view = { λ room. room.bytes.items };
}

impl<const N: usize> LineRoom<N> {
    /// An empty line.
    pub fn new() -> LineRoom<N>
        ensures { result ≡ [] }
    {
        LineRoom {
            bytes: ArrayVec::new(),
        }
    }

    /// The line so far, as bytes.
    pub fn line(&self) -> &[u8]
        ensures { result.now ≡ self.now }
    {
        self.bytes.as_slice()
    }

    /// Begins a new line.
    pub fn clear(&mut self)
        ensures { self.new ≡ [] }
    {
        self.bytes.clear();
    }

    /// Pushes one byte.
    pub fn push(&mut self, byte: u8)
        requires { length self.old < N }
        ensures line { self.new ≡ self.old ++ byte ∷ [] }
        ensures len { length self.new ≡ length self.old + 1 }
    {
        self.bytes.push(byte);
    }

    /// Pushes these bytes.
    pub fn push_bytes(&mut self, bytes: &[u8])
        requires { length self.old + length bytes.now ≤ N }
        ensures line { self.new ≡ self.old ++ bytes.now }
        ensures len { length self.new ≡ length self.old + length bytes.now }
    {
        // There is room, so this can't fail.
        let pushed = self.bytes.try_extend_from_slice(bytes).is_ok();
        prove!(pushed);
    }

    /// Pushes a number's digits.
    pub fn push_number<I: Integer>(&mut self, number: I)
        requires { length self.old + I.MAX_STR_LEN ≤ N }
        ensures line { self.new ≡ self.old ++ I.text number }
        ensures len { length self.new ≤ length self.old + I.MAX_STR_LEN }
    {
        self.push_bytes(Buffer::new().format(number).as_bytes());
    }

    /// Pushes a colour's six digits.
    pub fn push_colour(&mut self, colour: Colour)
        requires { length self.old + 6 ≤ N }
        ensures line { self.new ≡ self.old ++ hex_colour colour }
        ensures len { length self.new ≡ length self.old + 6 }
    {
        self.push_bytes(&colour_digits(colour));
    }
}
