ghost use Rattle.std.specs.Prelude.{◌≡◌, ◌≤◌, ◌↔◌, length, IsSome, IfSome};
ghost use Rattle.paint_ops.specs.Texts.{IsText};

use arrayvec::ArrayVec;
use spelling::is_printable;
use std::marker::Model;

/// The most bytes of a text.
const MOST_BYTES: usize = 64;

/// A text of at most 64 printable bytes, from 32 to 126.
#[derive(Drop)]
pub struct Text {
    bytes: ArrayVec<u8, MOST_BYTES>,
}

impl Model for Text {
    ghost use Rattle.std.specs.Prelude.{List, ℕ};
    ghost use Rattle.paint_ops.specs.Texts.{IsText};

    ghost Value = { List ℕ };

    ghost view = { λ t. t.bytes.items };

    ghost invariant = { λ t. IsText t.bytes.items };
}

impl Text {
    /// The text of these bytes, or `None` where there are more than 64 or one lies outside 32 to
    /// 126.
    pub fn new(bytes: &[u8]) -> Option<Text>
        ensures valid { IsSome result ↔ IsText bytes.now }
        ensures value { IfSome result (λ text. text ≡ bytes.now) }
    {
        if !is_printable(bytes) {
            return None;
        }
        let bytes = ArrayVec::try_from(bytes).ok()?;
        Some(Text { bytes })
    }

    /// The bytes, at most 64, each from 32 to 126.
    pub fn bytes(&self) -> &[u8]
        ensures value { result.now ≡ self.now }
        ensures text { IsText self.now }
    {
        &self.bytes
    }

    /// An equal text.
    pub(crate) fn copy(&self) -> Text
        ensures { result ≡ self.now }
    {
        let all = self.bytes();
        let mut bytes = ArrayVec::new();
        for b in all {
            bytes.push(*b);
        }
        Text { bytes }
    }
}
