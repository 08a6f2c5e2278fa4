/// The points of a row from x0 to x1, in points from the left. Both ends belong to it, so it has no
/// point where x1 < x0.
#[derive(Clone, Copy, Debug, Default, PartialEq, Eq)]
pub struct Span {
    pub x0: i32,
    pub x1: i32,
}
