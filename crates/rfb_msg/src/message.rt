use pixel_format::{Format, FormatFault};

/// How the rectangles of an update are written (RFC 6143, section 7.7).
#[derive(Clone, Copy, Debug, PartialEq, Eq)]
pub enum Encoding {
    /// The pixels themselves, number 0.
    Raw,
    /// Tiles of 16 by 16 points, number 5.
    Hextile,
}

/// A message of a viewer (RFC 6143, section 7.5). Places and sides are in points of the screen.
#[derive(Clone, Copy, Debug, PartialEq, Eq)]
pub enum Message {
    /// How it wants its pixels from now on.
    SetFormat(Format),
    /// The first of the encodings that it lists which is served here, and raw where none is.
    SetEncodings(Encoding),
    /// It wants a rectangle of the screen: all of it, or only what changed. `x` and `y` are its
    /// upper left point, and `w` and `h` its sides.
    Request {
        incremental: bool,
        x: u16,
        y: u16,
        w: u16,
        h: u16,
    },
    /// A key was pressed or released.
    Key {
        down: bool,
        key: u32,
    },
    /// The pointer is at this point, and the set bits of the mask tell its buttons that are down.
    Pointer {
        mask: u8,
        x: u16,
        y: u16,
    },
    /// It cut some text, which isn't kept.
    Cut,
}

/// Why nothing more is read of a viewer.
#[derive(Clone, Copy, Debug, PartialEq, Eq)]
pub enum Why {
    /// It left. No reader answers this.
    Left,
    /// This byte stood in its version where no version has it.
    Version(u8),
    /// No kind of message begins with this byte.
    Kind(u8),
    /// It wanted pixels of a format that isn't served.
    Format(FormatFault),
}

/// What a byte brings.
#[derive(Clone, Copy, Debug, PartialEq, Eq)]
pub enum Step {
    /// Something is begun that isn't whole.
    Nothing,
    /// The version is whole.
    Version,
    /// The byte after the version came.
    Init,
    /// This message is whole.
    Message(Message),
    /// The byte is bad, or came after a bad one.
    Closed(Why),
}
