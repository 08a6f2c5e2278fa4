// The side of a display that draws.
ghost use Rattle.std.specs.Prelude.{◌≡◌, ◌⊎◌, ◌↔◌, ℕ, IsSome, IsTrue};
ghost use Rattle.flip.specs.Indexes.{confirmed_by};
ghost use Rattle.flip.specs.Drawers.{after_look, after_post, after_own_tick, IsConsistent, IsFree, IsLeastFree, NamesOnce};
ghost use Rattle.flip.specs.Display.{IsDisplay};

use crate::index::{confirmed_by, index_of, least_free};
use crate::rule::{Looks, OwnTicks, Posts, Word};
use crate::views::View;
use atomic_table::Seat;
use std::alloc::Global;
use std::marker::Model;
use std::sync::Arc;

/// What a look told.
#[derive(Clone, Copy, Debug, PartialEq, Eq)]
pub struct Looked {
    /// The buffer that was known to wait, where it is shown by now.
    pub confirmed: Option<u8>,
    /// The least buffer that is neither shown nor waits, which may be drawn on.
    pub back: Option<u8>,
}

/// What a post told. Of the two, one at most is there.
#[derive(Clone, Copy, Debug, PartialEq, Eq)]
pub struct Posted {
    /// The buffer that was known to wait, where it is shown by now.
    pub confirmed: Option<u8>,
    /// The buffer that still waited, and now doesn't.
    pub replaced: Option<u8>,
}

/// The side of a display that draws. It never waits, and takes no memory once it is made.
#[derive(Drop)]
pub struct Drawer {
    pub(crate) word: Arc<Word, Global>,
    pub(crate) seat: Seat<(), View>,
    pub(crate) buffers: u8,
    pub(crate) shown: u8,
    pub(crate) waiting: Option<u8>,
}

impl Model for Drawer {
    ghost use Rattle.flip.specs.declared.views.Drawing.{Drawing};

    ghost Value = { Drawing };

    ghost use Rattle.flip.specs.Views.{drawing_of};
    ghost use Rattle.flip.specs.Seats.{IsDrawer};

    ghost view = { λ d. drawing_of d.seat.me.0 };

    ghost invariant = { IsDrawer };
}

impl Drawer {
    /// Learns whether the buffer that waited is shown by now, and which one may be drawn on. There
    /// is none to draw on with one buffer, and with two while one of them waits.
    pub fn look(&mut self) -> Looked
        ensures drawer { self.new ≡ after_look self.old self.new.found }
        ensures confirmed { result.confirmed ≡ confirmed_by self.old.waiting self.new.found }
        ensures back { IsLeastFree self.new result.back }
        ensures no_back { (result.back ≡ None) ↔
            ((self.old.buffers ≡ 1) ⊎ ((self.old.buffers ≡ 2) × IsSome self.new.found)) }
        ensures consistent { IsConsistent self.new }
        ensures alone { IsTrue self.old.alone → result.confirmed ≡ None }
        ensures display { (shown : ℕ) × IsDisplay self.old shown self.new.found }
    {
        let found = index_of(self.word.shared.load::<Looks>(&mut self.seat, 0));
        let confirmed = confirmed_by(self.waiting, found);
        self.shown = confirmed.unwrap_or(self.shown);
        self.waiting = found;
        Looked {
            confirmed,
            back: least_free(self.buffers, self.shown, self.waiting),
        }
    }

    /// Puts the buffer `back` up to be shown, in the place of one that still waits. It is a buffer
    /// of the display that is known neither as shown nor to wait.
    pub fn post(&mut self, back: u8) -> Posted
        requires free { IsFree self.old back }
        ensures drawer { self.new ≡ after_post self.old self.new.found back }
        ensures confirmed { result.confirmed ≡ confirmed_by self.old.waiting self.new.found }
        ensures replaced { result.replaced ≡ self.new.found }
        ensures once { NamesOnce self.old.waiting result.confirmed result.replaced }
        ensures consistent { IsConsistent self.new }
        ensures alone { IsTrue self.old.alone → result.confirmed ≡ None }
        ensures display { (shown : ℕ) × IsDisplay self.old shown self.new.found }
    {
        let next = u64::from(back) + 1;
        let found = index_of(self.word.shared.swap::<Posts>(&mut self.seat, 0, next));
        let confirmed = confirmed_by(self.waiting, found);
        self.shown = confirmed.unwrap_or(self.shown);
        self.waiting = Some(back);
        Posted {
            confirmed,
            replaced: found,
        }
    }

    /// Shows the buffer that waits and gives its index, where the drawer is its own controller.
    pub fn tick(&mut self) -> Option<u8>
        requires alone { IsTrue self.old.alone }
        ensures drawer { self.new ≡ after_own_tick self.old self.new.found }
        ensures found { self.new.found ≡ self.old.waiting }
        ensures result { result ≡ self.old.waiting }
        ensures consistent { IsConsistent self.new }
    {
        let found = index_of(self.word.shared.swap::<OwnTicks>(&mut self.seat, 0, 0));
        self.shown = found.unwrap_or(self.shown);
        self.waiting = None;
        found
    }
}
