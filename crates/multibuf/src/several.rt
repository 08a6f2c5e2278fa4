// Two or three buffers.
ghost use Rattle.std.specs.Prelude.{◌≡◌, ◌↔◌, ℕ, IsTrue, IsSome};
ghost use Rattle.std.specs.Borrow.{sem};
ghost use Rattle.std.specs.Option.{option_map};

use crate::owners::{Back, Shown, Waiting};
use crate::stock::Stock;
use frame::Frame;
use std::mem;

/// Two or three buffers, each in its part.
#[derive(Drop)]
pub(crate) struct Several {
    pub(crate) shown: Shown,
    pub(crate) waiting: Option<Waiting>,
    pub(crate) back: Option<Back>,
    pub(crate) stock: Stock,
}

impl Several {
    ghost use Rattle.multibuf.specs.Owners.{number_of};
    ghost use Rattle.multibuf.specs.Parts.{several_after_confirm, several_after_ask, several_after_begin, asked_last, drawn_on, AreEven};
    ghost use Rattle.multibuf.specs.Lending.{LendsBack};

    // The buffer that waits is shown, and the one that was is free. Gives the number of the switch.
    pub(crate) fn confirm(&mut self) -> Option<u32>
        ensures parts { self.new ≡ several_after_confirm self.old }
        ensures number { result ≡ option_map number_of self.old.waiting }
    {
        let waiting = self.waiting.take()?;
        let number = waiting.number();
        let before = mem::replace(&mut self.shown, waiting.into_shown());
        self.stock.put(before.into_free());
        Some(number)
    }

    // The frame that waits, or else the one that is shown.
    fn asked_last(&self) -> &Frame
        ensures { result.now ≡ asked_last self.now.waiting self.now.shown }
    {
        match &self.waiting {
            Some(waiting) => waiting.frame(),
            None => self.shown.frame(),
        }
    }

    // The least free buffer is drawn on from now on, with the picture that was asked for last.
    // False where none is free.
    pub(crate) fn begin(&mut self) -> bool
        requires even { (w : ℕ) × (h : ℕ) × AreEven w h self.old }
        ensures parts { self.new ≡ several_after_begin self.old }
        ensures free { IsTrue result ↔ IsSome self.old.stock.low }
    {
        let Some(free) = self.stock.take() else {
            return false;
        };
        let mut back = free.into_back();
        back.copy_from(self.asked_last());
        self.back = Some(back);
        true
    }

    // The buffer that is drawn on waits, under this number, and one that waited is free.
    pub(crate) fn ask(&mut self, number: u32)
        ensures { self.new ≡ several_after_ask self.old number }
    {
        let Some(back) = self.back.take() else {
            return;
        };
        if let Some(waiting) = self.waiting.take() {
            self.stock.put(waiting.into_free());
        }
        self.waiting = Some(back.into_waiting(number));
    }

    // The frame to draw on.
    pub(crate) fn target(&mut self) -> &mut Frame
        requires drawn { IsSome self.old.back }
        ensures* written { sem 𝓛 (LendsBack self.entry result) }
        ensures value { result.now ≡ drawn_on self.old.back }
    {
        match &mut self.back {
            Some(back) => back.frame_mut(),
            None => unreachable!(),
        }
    }
}
