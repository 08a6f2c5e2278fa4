// The rule over a display's word and over what its sides know, and what each step on the word
// tells.
use crate::views::View;
use atomic_table::{Play, Split, Table, TableRule};
use std::alloc::Global;

pub(crate) struct DisplayRule;

impl TableRule<(), View, u8> for DisplayRule {
    ghost use Rattle.std.specs.Prelude.{true};
    ghost use Rattle.flip.specs.declared.views.View.TheVariants.{Draws};
    ghost use Rattle.flip.specs.Drawers.{new_drawing};
    ghost use Rattle.flip.specs.Rule.{IsKept};

    ghost holds = { λ _ s. IsKept s.words s.views };

    ghost first = { λ n. Draws (new_drawing true n) };
}

/// The index of the buffer that waits plus 1, or 0 where none waits.
pub(crate) type Word = Table<(), View, u8, DisplayRule, Global>;

/// A drawer that was its own controller is parted from it.
pub(crate) struct Parts;

impl Split<View> for Parts {
    ghost use Rattle.flip.specs.Views.{parted, partner};

    ghost left = { parted };

    ghost right = { partner };
}

/// A drawer looks which buffer waits.
pub(crate) struct Looks;

impl Play<(), View> for Looks {
    ghost use Rattle.flip.specs.Rule.{IsLook};

    ghost then = { IsLook };
}

/// A drawer puts a buffer up to wait.
pub(crate) struct Posts;

impl Play<(), View> for Posts {
    ghost use Rattle.flip.specs.Rule.{IsPost};

    ghost then = { IsPost };
}

/// A drawer that is its own controller shows the buffer that waits.
pub(crate) struct OwnTicks;

impl Play<(), View> for OwnTicks {
    ghost use Rattle.flip.specs.Rule.{IsOwnTick};

    ghost then = { IsOwnTick };
}

/// A controller shows the buffer that waits.
pub(crate) struct Ticks;

impl Play<(), View> for Ticks {
    ghost use Rattle.flip.specs.Rule.{IsTick};

    ghost then = { IsTick };
}
