/// A point of the screen or of a window: x points to the right of its upper left corner and y
/// points below it.
#[derive(Clone, Copy, Debug, PartialEq, Eq)]
pub struct Point {
    pub x: i32,
    pub y: i32,
}

/// A square of 16 by 16 points of the screen, cut at the screen's right and lower edges. Its column
/// is from 0 to 63 and its row from 0 to 47, counted from the screen's upper left corner.
#[derive(Clone, Copy, Debug, PartialEq, Eq)]
pub struct Tile {
    pub col: u8,
    pub row: u8,
}
