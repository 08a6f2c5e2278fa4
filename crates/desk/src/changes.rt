//! Calls as changes of one window, or of what one task draws with.

use gfx_base::Colour;

/// What a call does to one window: to where it lies in points, to its sides in points, or to its
/// place in the order.
#[derive(Clone, Copy)]
pub enum Change {
    Delete,
    MoveTo { x: i16, y: i16 },
    MoveBy { dx: i16, dy: i16 },
    Resize { width: u16, height: u16 },
    Show,
    Hide,
    ToTop,
    ToBottom,
    SetClass { class: u8 },
    SetTrans { trans: bool },
}

/// What a call does to the context of its task.
#[derive(Clone, Copy)]
pub enum ContextChange {
    Select { h: u32 },
    Device { device: u32 },
    Colour { c: Colour },
    BkColour { c: Colour },
    TextMode { trans: bool },
    Font { font: u8 },
    Save,
    Restore,
}
