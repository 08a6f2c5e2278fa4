ghost use Rattle.std.specs.Prelude.{◌≡◌};
ghost use Rattle.calls.specs.Actors.{fits};

use gfx_base::Colour;

/// A call of the core. A window is named by its handle. Places, sides and differences are in
/// points; a window's place is told from its parent's upper left corner. A task's context is what
/// it draws with. A memory device is a picture aside, named by its handle. Calls that draw tell
/// places from the upper left corner of the device that the context selects, or of the window that
/// it selects, while it selects no device.
#[derive(Clone, Copy, Debug, PartialEq, Eq)]
pub enum Call {
    /// Makes a window in its parent, on top of the parent's children, of the class of this number.
    Create {
        parent: u32,
        x: i16,
        y: i16,
        w: u16,
        h: u16,
        class: u8,
    },
    /// Deletes a window with its descendants.
    Delete {
        h: u32,
    },
    /// Moves a window to a place.
    MoveTo {
        h: u32,
        x: i16,
        y: i16,
    },
    /// Moves a window by differences. A sum stops at −32,768 and at 32,767.
    MoveBy {
        h: u32,
        dx: i16,
        dy: i16,
    },
    /// Gives a window other sides.
    Resize {
        h: u32,
        width: u16,
        height: u16,
    },
    /// Shows a window that was hidden.
    Show {
        h: u32,
    },
    /// Hides a window, and its descendants with it.
    Hide {
        h: u32,
    },
    /// Puts a window on top of its siblings, with its descendants.
    ToTop {
        h: u32,
    },
    /// Puts a window below its siblings, with its descendants.
    ToBottom {
        h: u32,
    },
    /// Gives a window the class of this number.
    SetClass {
        h: u32,
        class: u8,
    },
    /// Lets what lies behind a window be seen through it, or no longer.
    SetTrans {
        h: u32,
        trans: bool,
    },
    /// Lets a window be composed aside before it shows, or no longer.
    SetMemdev {
        h: u32,
        memdev: bool,
    },
    /// Gives one of a window's sixteen values, which are numbered from 0, another number.
    SetValue {
        h: u32,
        index: u8,
        value: i16,
    },
    /// Delivers a message of this number with an argument to a window.
    Send {
        h: u32,
        message: u8,
        argument: i16,
    },
    /// Selects the window that the task draws in.
    Select {
        h: u32,
    },
    /// Gives the task's context a colour to draw with.
    Colour {
        c: Colour,
    },
    /// Gives it a colour for what is behind text.
    BkColour {
        c: Colour,
    },
    /// Lets the points behind text stay as they are, or no longer.
    TextMode {
        trans: bool,
    },
    /// Gives it the font of this number.
    Font {
        font: u8,
    },
    /// Saves the task's context.
    Save,
    /// Gives the context back that the task saved last.
    Restore,
    /// Fills a rectangle with the context's colour.
    Fill {
        x0: i16,
        y0: i16,
        x1: i16,
        y1: i16,
    },
    /// Draws the edges of a rectangle in that colour.
    Frame {
        x0: i16,
        y0: i16,
        x1: i16,
        y1: i16,
    },
    /// Draws the straight line between two places in that colour.
    Line {
        x0: i16,
        y0: i16,
        x1: i16,
        y1: i16,
    },
    /// Draws the bitmap of this number, its upper left corner at a place.
    Bitmap {
        bitmap: u8,
        x: i16,
        y: i16,
    },
    /// Writes the string of this number from a place, in the context's colours and font.
    Text {
        x: i16,
        y: i16,
        string: u8,
    },
    /// Makes a device of these sides, of the context's colour for what is behind text.
    DevCreate {
        w: u16,
        h: u16,
    },
    /// Deletes a device.
    DevDelete {
        device: u32,
    },
    /// Selects the device that the task draws on; 0 is the screen.
    DevSelect {
        device: u32,
    },
    /// Draws a device's picture in the selected window, its upper left corner at a place.
    DevCopy {
        device: u32,
        x: i16,
        y: i16,
    },
    /// Makes all of a window invalid.
    Invalidate {
        h: u32,
    },
    /// Makes a rectangle of a window invalid, told from the window's upper left corner.
    InvalidateRect {
        h: u32,
        x0: i16,
        y0: i16,
        x1: i16,
        y1: i16,
    },
    /// Makes an area of the screen invalid in every window.
    InvalidateArea {
        x0: i16,
        y0: i16,
        x1: i16,
        y1: i16,
    },
    /// Begins drawing on a buffer that isn't shown, which first gets what was asked for last. Up to
    /// 100 are open at a time, of all tasks together.
    Begin,
    /// Ends drawing that was begun. The outermost end asks for what was drawn to be shown.
    End,
    /// Paints until no window is invalid.
    Exec,
    /// Paints the first invalid window, if there is one.
    Exec1,
    /// Shows the picture that is on the screen.
    Scan,
}

/// The greatest number of a task; the least is 1.
const LAST_TASK: u16 = 16;

impl Call {
    /// Whether this actor may make the call. Tasks are the actors 1 to 16, and make all of these.
    pub fn fits(&self, actor: u16) -> bool
        ensures { result ≡ fits self.now actor }
    {
        let _ = self;
        1 <= actor && actor <= LAST_TASK
    }

    /// An equal call. Takes no memory.
    pub fn copy(&self) -> Call
        ensures { result ≡ self.now }
    {
        *self
    }
}
