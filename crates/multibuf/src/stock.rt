// The buffers that are free, in the order of their indexes.
ghost use Rattle.std.specs.Prelude.{◌≡◌};

use crate::owners::Free;

/// At most two free buffers. The second is there only where the first is.
#[derive(Drop)]
pub(crate) struct Stock {
    pub(crate) low: Option<Free>,
    pub(crate) high: Option<Free>,
}

impl Stock {
    ghost use Rattle.multibuf.specs.Stocks.{with_free, without_least};

    // Puts one in, where there is room.
    pub(crate) fn put(&mut self, free: Free)
        ensures { self.new ≡ with_free self.old free }
    {
        match self.low.take() {
            None => self.low = Some(free),
            Some(low) => {
                if free.index() < low.index() {
                    self.low = Some(free);
                    self.high = Some(low);
                } else {
                    self.low = Some(low);
                    self.high = Some(free);
                }
            }
        }
    }

    // Takes the one with the least index.
    pub(crate) fn take(&mut self) -> Option<Free>
        ensures least { result ≡ self.old.low }
        ensures rest { self.new ≡ without_least self.old }
    {
        let least = self.low.take()?;
        self.low = self.high.take();
        Some(least)
    }
}
