use arrayvec::ArrayVec;
use gfx_base::Rect;

/// A window.
#[derive(Clone, Copy, Debug, Default, PartialEq, Eq)]
pub struct Win {
    /// The number that names the window, and no other as long as the program runs; 1 for the
    /// desktop.
    pub handle: u32,
    /// The handle of the window that it lies in; 0 for the desktop.
    pub parent: u32,
    /// How many points its upper left corner lies to the right of its parent's.
    pub x: i16,
    /// How many points its upper left corner lies below its parent's.
    pub y: i16,
    /// Its width in points, from 1 to 4,096.
    pub w: u16,
    /// Its height in points, from 1 to 4,096.
    pub h: u16,
    /// Whether it is shown. Where it isn't, its descendants are not to be seen either.
    pub shown: bool,
    /// The number of its class, which says what it paints.
    pub class: u8,
    /// Whether it paints no back colour, so that what lies behind it can be seen through it. The
    /// same goes for every window of a class without a back colour.
    pub trans: bool,
    /// Whether it is painted by way of a memory device.
    pub memdev: bool,
    /// The values that its class paints by and that messages change.
    pub values: [i16; 16],
    /// The rectangle of the screen in which it is invalid, if it is: there it is to be painted
    /// again. It is never empty.
    pub invalid: Option<Rect>,
}

/// The greatest number of windows, the desktop among them.
pub const MOST_WINDOWS: usize = 256;

/// Windows from back to front: the desktop first, and each window before its children, which stand
/// from bottom to top, each with its own descendants.
pub type Stack = ArrayVec<Win, MOST_WINDOWS>;
