ghost use Rattle.std.specs.Prelude.{◌≡◌, ℕ, ◌^◌, ◌<◌, ◌≤◌, ◌↔◌, IsSome, IfSome};

use std::marker::Model;

/// A colour of three parts, red, green and blue, each from 0 to 255.
#[derive(Clone, Copy, Debug, PartialEq, Eq)]
pub struct Colour {
    value: u32,
}

impl Model for Colour {
    ghost Value = { ℕ };

    ghost view = { λ colour. colour.value };

    ghost invariant = { λ colour. colour.value < 2 ^ 24 };

    ghost inverse = { λ value. record { value = value } };
}

impl Colour {
    /// The colour of this value, or `None` above 16,777,215.
    pub fn new(v: u32) -> Option<Colour>
        ensures valid { IsSome result ↔ (v ≤ 16777215) }
        ensures value { IfSome result (λ colour. colour ≡ v) }
    {
        if v <= 0xFF_FFFF {
            Some(Colour { value: v })
        } else {
            None
        }
    }

    /// The sum of 65,536 times its red part, 256 times its green part, and its blue part.
    pub fn value(&self) -> u32
        ensures value { result ≡ self.now }
        ensures within { result ≤ 16777215 }
    {
        self.value
    }
}

/// Black, the colour of every point that nothing was drawn on.
impl Default for Colour {
    ghost is_default = { λ colour. colour ≡ 0 };

    fn default() -> Colour {
        Colour { value: 0 }
    }
}
