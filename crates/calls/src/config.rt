use gfx_base::Colour;

/// What the core is opened with, beside what its windows paint with.
#[derive(Clone, Copy, Debug, PartialEq, Eq)]
pub struct Config {
    /// The screen's width in points, from 1 to 1,024.
    pub w: u16,
    /// The screen's height in points, from 1 to 768.
    pub h: u16,
    /// How many buffers it has, from 1 to 3.
    pub buffers: u8,
    /// The desktop's back colour, which is that of class 0.
    pub desktop: Colour,
    /// How many calls its history has room for, at most 400,000.
    pub calls: u32,
}
