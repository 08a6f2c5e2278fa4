ghost use Rattle.std.specs.Prelude.{◌≡◌};

use gfx_base::Colour;

/// What a task draws with. The windows and devices that it selects need not be there.
#[derive(Clone, Copy, Debug, PartialEq, Eq)]
pub struct Context {
    /// The colour that is drawn with.
    pub colour: Colour,
    /// The colour behind text, and of a device that the task makes.
    pub bk: Colour,
    /// The font's number.
    pub font: u8,
    /// Whether text leaves the points behind it as they are.
    pub trans_text: bool,
    /// The handle of the window that is drawn in.
    pub window: u32,
    /// The device that is drawn on, where 0 is the screen.
    pub device: u32,
}

/// White on black, with font 0 and text that hides what is behind it, in window 1 of the screen.
impl Default for Context {
    ghost use Rattle.context.specs.Contexts.{first_context};

    ghost is_default = { λ context. context ≡ first_context };

    fn default() -> Context {
        Context {
            colour: white(),
            bk: Colour::default(),
            font: 0,
            trans_text: false,
            window: 1,
            device: 0,
        }
    }
}

/// The colour with the greatest parts.
fn white() -> Colour
    ensures { result ≡ 16777215 }
{
    match Colour::new(0xFF_FFFF) {
        Some(colour) => colour,
        None => unreachable!(),
    }
}
