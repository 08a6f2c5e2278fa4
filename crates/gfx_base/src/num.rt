/// What a coordinate begins from: nothing, the window's width or height in points, or one of the
/// window's sixteen values by its number from 0 to 15.
#[derive(Clone, Copy, Debug, PartialEq, Eq)]
pub enum Base {
    Zero,
    Width,
    Height,
    Value(u8),
}

/// A coordinate in points from the window's upper left corner, or a number to print: a base and an
/// offset, added exactly.
#[derive(Clone, Copy, Debug, PartialEq, Eq)]
pub struct Num {
    pub base: Base,
    pub plus: i16,
}
