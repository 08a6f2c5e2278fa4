// The rule of the lock's table, and what each step tells the seat that takes it.
use crate::kept::Kept;
use crate::view::View;
use atomic_table::{Join, Play, Split, TableRule};
use std::marker::{Brand, PhantomData};
use std::snapshot::Snapshot;

/// What the table is told when it is made: the value as it was, and for how many passes.
pub struct LockKey<V> {
    pub value: Snapshot<V>,
    pub passes: u16,
}

impl<V> Drop for LockKey<V> {
    fn drop(self) {
        let LockKey {
            value: _,
            passes: _,
        } = self;
    }
}

/// Word 0 is twice the length of the history, and 1 more while a pass has the turn. Slot 0 has the
/// value.
pub struct LockRule;

impl<V: Kept> TableRule<Option<V>, View<V::Call, V::Kind>, LockKey<V>> for LockRule {
    ghost use Rattle.gui_lock.specs.Rule.{Rule, first_view};

    ghost holds = { λ key table. Rule V.entries V.kind
        (record { kind = V.kind key.value.value; passes = key.passes }) table };

    ghost first = { λ key. first_view
        (record { kind = V.kind key.value.value; passes = key.passes }) };
}

/// The turn is taken, where nobody has it.
pub struct Acquires;

impl<V: Kept> Play<Option<V>, View<V::Call, V::Kind>> for Acquires {
    ghost use Rattle.gui_lock.specs.Rule.{Acquired};

    ghost then = { Acquired V.entries V.kind };
}

/// A history that a proof picks at a call, since a step tells two numbers and no list.
pub trait Telling<C> {
    ghost use Rattle.std.specs.Prelude.{List};
    ghost use Rattle.gui_lock.specs.declared.entry.Entry.{Entry};

    ghost list: { List (Entry C) };
}

impl<C> Telling<C> for Brand {
    ghost use Rattle.std.specs.Prelude.{[]};

    ghost list = { [] };
}

/// What was added in this turn is announced.
pub struct Announces<T> {
    of: PhantomData<T>,
}

impl<V: Kept, T: Telling<V::Call>> Play<Option<V>, View<V::Call, V::Kind>> for Announces<T> {
    ghost use Rattle.gui_lock.specs.Rule.{Told};

    ghost then = { Told T.list };
}

/// The turn is given up.
pub struct Releases;

impl<V: Kept> Play<Option<V>, View<V::Call, V::Kind>> for Releases {
    ghost use Rattle.gui_lock.specs.Rule.{Released};

    ghost then = { Released };
}

/// Of two histories that were seen the shorter begins the longer.
pub struct Settles;

impl<V: Kept> Play<Option<V>, View<V::Call, V::Kind>> for Settles {
    ghost use Rattle.gui_lock.specs.Rule.{Settled};

    ghost then = { Settled };
}

/// The next number goes to a seat of its own.
pub struct NextNumber;

impl<C, K> Split<View<C, K>> for NextNumber {
    ghost use Rattle.gui_lock.specs.Rule.{without_next, with_next};

    ghost left = { without_next };

    ghost right = { with_next };
}

/// A seat that acts for no number has seen the same.
pub struct Note;

impl<C, K> Split<View<C, K>> for Note {
    ghost use Rattle.gui_lock.specs.Rule.{note_of};

    ghost left = { λ v. v };

    ghost right = { note_of };
}

/// Two seats become one.
pub struct Both;

impl<C, K> Join<View<C, K>> for Both {
    ghost use Rattle.gui_lock.specs.Rule.{joined, spent};

    ghost both = { joined };

    ghost spent = { spent };
}
