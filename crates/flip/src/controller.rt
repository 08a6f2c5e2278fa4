// The side of a display that shows.
ghost use Rattle.std.specs.Prelude.{◌≡◌};
ghost use Rattle.flip.specs.declared.views.Drawing.{Drawing};
ghost use Rattle.flip.specs.Controllers.{after_tick};
ghost use Rattle.flip.specs.Display.{ArePartners};

use crate::index::index_of;
use crate::rule::{Ticks, Word};
use crate::views::View;
use atomic_table::Seat;
use std::alloc::Global;
use std::marker::Model;
use std::sync::Arc;

/// The side of a display that shows. It never waits, and takes no memory.
#[derive(Drop)]
pub struct Controller {
    pub(crate) word: Arc<Word, Global>,
    pub(crate) seat: Seat<(), View>,
    pub(crate) shown: u8,
}

impl Model for Controller {
    ghost use Rattle.flip.specs.declared.views.Showing.{Showing};

    ghost Value = { Showing };

    ghost use Rattle.flip.specs.Views.{showing_of};
    ghost use Rattle.flip.specs.Seats.{IsController};

    ghost view = { λ c. showing_of c.seat.me.0 };

    ghost invariant = { IsController };
}

impl Controller {
    /// Shows the buffer that waits and gives its index. Nothing changes on the display where none
    /// waits.
    pub fn tick(&mut self) -> Option<u8>
        ensures controller { self.new ≡ after_tick self.old self.new.found }
        ensures result { result ≡ self.new.found }
        ensures display { (d : Drawing) × ArePartners d self.old self.new.found }
    {
        let found = index_of(self.word.shared.swap::<Ticks>(&mut self.seat, 0, 0));
        self.shown = found.unwrap_or(self.shown);
        found
    }
}
