// The four owners of a buffer. A buffer changes its part by a move, and only a `Back` is written
// to.
ghost use Rattle.std.specs.Prelude.{◌≡◌};
ghost use Rattle.std.specs.Borrow.{sem};

use crate::copying::copy_all;
use frame::Frame;

/// A buffer that is neither shown nor drawn on, and doesn't wait.
#[derive(Drop)]
pub struct Free {
    frame: Frame,
    index: u8,
}

/// The buffer that is drawn on.
#[derive(Drop)]
pub struct Back {
    frame: Frame,
    index: u8,
}

/// The buffer that waits to be shown, with the number of its switch.
#[derive(Drop)]
pub struct Waiting {
    frame: Frame,
    index: u8,
    number: u32,
}

/// The buffer that is shown.
#[derive(Drop)]
pub struct Shown {
    frame: Frame,
    index: u8,
}

impl Free {
    ghost use Rattle.multibuf.specs.Owners.{back_of_free};

    pub(crate) fn new(frame: Frame, index: u8) -> Free
        ensures { result ≡ record { frame = frame; index = index } }
    {
        Free { frame, index }
    }

    pub(crate) fn index(&self) -> u8
        ensures { result ≡ self.now.index }
    {
        self.index
    }

    pub(crate) fn into_back(self) -> Back
        ensures { result ≡ back_of_free self }
    {
        let Free { frame, index } = self;
        Back { frame, index }
    }
}

impl Back {
    ghost use Rattle.multibuf.specs.Owners.{copied, waiting_of_back};
    ghost use Rattle.multibuf.specs.Lending.{LendsFrame};

    pub(crate) fn new(frame: Frame, index: u8) -> Back
        ensures { result ≡ record { frame = frame; index = index } }
    {
        Back { frame, index }
    }

    pub(crate) fn index(&self) -> u8
        ensures { result ≡ self.now.index }
    {
        self.index
    }

    pub(crate) fn frame(&self) -> &Frame
        ensures { result.now ≡ self.now.frame }
    {
        &self.frame
    }

    // The frame to draw on.
    pub(crate) fn frame_mut(&mut self) -> &mut Frame
        ensures* written { sem 𝓛 (LendsFrame self.entry result) }
        ensures value { result.now ≡ self.old.frame }
    {
        &mut self.frame
    }

    // Takes the whole picture of a frame of the same sides.
    pub(crate) fn copy_from(&mut self, from: &Frame)
        requires width { from.now.picture.width ≡ self.old.frame.picture.width }
        requires height { from.now.picture.height ≡ self.old.frame.picture.height }
        ensures { self.new ≡ record self.old { frame = copied from.now.picture self.old.frame } }
    {
        copy_all(&mut self.frame, from);
    }

    pub(crate) fn into_waiting(self, number: u32) -> Waiting
        ensures { result ≡ waiting_of_back self number }
    {
        let Back { frame, index } = self;
        Waiting {
            frame,
            index,
            number,
        }
    }
}

impl Waiting {
    ghost use Rattle.multibuf.specs.Owners.{shown_of_waiting, free_of_waiting};

    pub(crate) fn number(&self) -> u32
        ensures { result ≡ self.now.number }
    {
        self.number
    }

    pub(crate) fn frame(&self) -> &Frame
        ensures { result.now ≡ self.now.frame }
    {
        &self.frame
    }

    pub(crate) fn into_shown(self) -> Shown
        ensures { result ≡ shown_of_waiting self }
    {
        let Waiting { frame, index, .. } = self;
        Shown { frame, index }
    }

    pub(crate) fn into_free(self) -> Free
        ensures { result ≡ free_of_waiting self }
    {
        let Waiting { frame, index, .. } = self;
        Free { frame, index }
    }
}

impl Shown {
    ghost use Rattle.multibuf.specs.Owners.{free_of_shown};

    pub(crate) fn new(frame: Frame, index: u8) -> Shown
        ensures { result ≡ record { frame = frame; index = index } }
    {
        Shown { frame, index }
    }

    pub(crate) fn frame(&self) -> &Frame
        ensures { result.now ≡ self.now.frame }
    {
        &self.frame
    }

    pub(crate) fn into_free(self) -> Free
        ensures { result ≡ free_of_shown self }
    {
        let Shown { frame, index } = self;
        Free { frame, index }
    }
}
