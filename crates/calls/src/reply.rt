/// Why a call was refused.
#[derive(Clone, Copy, Debug, PartialEq, Eq)]
pub enum Refusal {
    /// No window that lives has this handle.
    NoWindow(u32),
    /// The desktop stays as it is.
    Desktop,
    /// A side is 0 or too long: a window's over 4,096 points, or a device's over 1,024 by 768.
    BadSize,
    /// 256 windows live already, the desktop among them.
    TooManyWindows,
    /// The parent lies on the deepest of the eight levels.
    TooDeep,
    /// There is no class of this number.
    NoClass(u8),
    /// A window has no value of this number, which is over 15.
    NoValue(u8),
    /// There is no font of this number.
    NoFont(u8),
    /// The task has 8 contexts saved.
    ContextDepth,
    /// The task has no context saved.
    NoContext,
    /// There is no bitmap of this number.
    NoBitmap(u8),
    /// There is no string of this number.
    NoText(u8),
    /// No device that lives has this handle.
    NoDevice(u32),
    /// 16 devices live already.
    TooManyDevices,
    /// No begin is open.
    NotOpen,
    /// 100 begins are open already.
    OpenDepth,
    /// Of two buffers the switch of this number still waits, so none is free to draw on.
    Waiting(u32),
    /// As many calls were made as the core was opened for.
    Full,
    /// There is no memory for a device.
    Memory,
}

/// What a call is answered.
#[derive(Clone, Copy, Debug, PartialEq, Eq)]
pub enum Reply {
    Done,
    /// The new window's handle.
    Handle(u32),
    /// How many jobs were done.
    Jobs(u16),
    /// The new device's handle.
    Device(u32),
    Refused(Refusal),
}
