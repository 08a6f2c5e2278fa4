// What each side of a display knows of it.

/// What a drawer knows: whether it is its own controller, how many buffers there are, which one was
/// shown and which one waited after its last step, how many steps it made, and which buffer that
/// step found waiting. No value of it is made.
pub(crate) struct Drawing {
    pub alone: bool,
    pub buffers: u8,
    pub shown: u8,
    pub waiting: Option<u8>,
    pub steps: u64,
    pub found: Option<u8>,
}

/// What a controller knows: how many buffers there are, which one it shows, how many steps it made,
/// and which buffer its last step found waiting. No value of it is made.
pub(crate) struct Showing {
    pub buffers: u8,
    pub shown: u8,
    pub steps: u64,
    pub found: Option<u8>,
}

/// What a side of a display knows. No value of it is made.
pub(crate) enum View {
    Draws(Drawing),
    Shows(Showing),
}
