// One buffer, or several.
ghost use Rattle.std.specs.Prelude.{◌≡◌, ◌↔◌, ℕ, IsTrue};
ghost use Rattle.std.specs.Borrow.{sem};
ghost use Rattle.multibuf.specs.Held.{held_after_confirm, held_after_ask, held_after_begin, held_number, held_back_index, held_shown, held_target, HasFree, HasTarget, AreHeldEven};
ghost use Rattle.multibuf.specs.Lending.{LendsHeld};

use crate::owners::Back;
use crate::several::Several;
use frame::Frame;

/// All buffers. One alone is drawn on and shown.
#[derive(Drop)]
pub(crate) enum Held {
    One(Back),
    More(Several),
}

impl Held {
    // What waits is shown. Gives the number of the switch.
    pub(crate) fn confirm(&mut self) -> Option<u32>
        ensures held { self.new ≡ held_after_confirm self.old }
        ensures number { result ≡ held_number self.old }
    {
        match self {
            Held::One(_) => None,
            Held::More(several) => several.confirm(),
        }
    }

    // What is drawn on waits, under this number.
    pub(crate) fn ask(&mut self, number: u32)
        ensures { self.new ≡ held_after_ask self.old number }
    {
        match self {
            Held::One(_) => {}
            Held::More(several) => several.ask(number),
        }
    }

    // A free buffer is drawn on. False where none is free. One buffer alone is always drawn on.
    pub(crate) fn begin(&mut self) -> bool
        requires even { (w : ℕ) × (h : ℕ) × AreHeldEven w h self.old }
        ensures held { self.new ≡ held_after_begin self.old }
        ensures free { IsTrue result ↔ HasFree self.old }
    {
        match self {
            Held::One(_) => true,
            Held::More(several) => several.begin(),
        }
    }

    // The number of the switch that waits.
    pub(crate) fn waiting(&self) -> Option<u32>
        ensures { result ≡ held_number self.now }
    {
        match self {
            Held::One(_) => None,
            Held::More(several) => match &several.waiting {
                Some(waiting) => Some(waiting.number()),
                None => None,
            },
        }
    }

    // The index of the buffer that is drawn on, of several.
    pub(crate) fn back_index(&self) -> Option<u8>
        ensures { result ≡ held_back_index self.now }
    {
        match self {
            Held::One(_) => None,
            Held::More(several) => match &several.back {
                Some(back) => Some(back.index()),
                None => None,
            },
        }
    }

    // The frame that is shown.
    pub(crate) fn shown(&self) -> &Frame
        ensures { result.now ≡ held_shown self.now }
    {
        match self {
            Held::One(back) => back.frame(),
            Held::More(several) => several.shown.frame(),
        }
    }

    // The frame to draw on.
    pub(crate) fn target(&mut self) -> &mut Frame
        requires drawn { HasTarget self.old }
        ensures* written { sem 𝓛 (LendsHeld self.entry result) }
        ensures value { result.now ≡ held_target self.old }
    {
        match self {
            Held::One(back) => back.frame_mut(),
            Held::More(several) => several.target(),
        }
    }
}
