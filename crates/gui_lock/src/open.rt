// A lock and its passes are made, and taken apart.
ghost use Rattle.std.specs.Prelude.{◌≡◌, ℕ, ◌<◌, ◌≤◌, List, [], ◌∷◌, length, Some, IfOk, IfErr, vec_capacity};
ghost use Rattle.gui_lock.specs.Entries.{AreByPasses, Begins};
ghost use Rattle.gui_lock.specs.Passes.{Locked, Held, terms_of, longer, shorter, new_passes, AreFree, HasNumber, HasAll};
ghost use Rattle.gui_lock.specs.Rule.{claims, AreCallsIn, first_view, joined};

use crate::kept::Kept;
use crate::lock::{GuiLock, PassSeat};
use crate::pass::Pass;
use crate::rule::{Both, LockKey, NextNumber, Settles};
use atomic_table::{Refused, Table};
use std::alloc::Global;
use std::snapshot::Snapshot;

/// Gives each number a seat of its own.
fn deal<V: Kept>(lock: &GuiLock<V>, mut seat: PassSeat<V>, all: &mut Vec<Pass<V>>, passes: u16)
    requires table { seat.table_id ≡ lock.now.table }
    requires passes { passes ≡ lock.now.passes }
    requires seat { seat.me ≡ (first_view (terms_of lock.now), []) }
    requires some { 0 < passes }
    requires room { (all.old.items ≡ []) × (passes ≤ vec_capacity all.old) }
    ensures { all.new.items ≡ new_passes lock.now 1 passes }
{
    for number in 1..passes {
        let next = lock.table.shared.split_seat::<NextNumber>(&mut seat);
        all.push_reserved(Pass::of_seat(next, number));
    }
    all.push_reserved(Pass::of_seat(seat, passes));
}

/// Makes one seat act for the numbers of both.
fn gather<V: Kept>(lock: &GuiLock<V>, seat: &mut PassSeat<V>, other: PassSeat<V>)
    requires table { seat.old.table_id ≡ lock.now.table }
    requires other_table { other.table_id ≡ lock.now.table }
    requires free { seat.old.me.0.turns ≡ 0 }
    requires other_free { (other.me.0.turns ≡ 0) × (other.me.1 ≡ []) }
    ensures table { seat.new.table_id ≡ seat.old.table_id }
    ensures both { seat.new.me ≡ (joined seat.old.me.0 other.me.0, seat.old.me.1) }
    ensures begins { Begins (shorter seat.old.me.0.seen other.me.0.seen)
        (longer seat.old.me.0.seen other.me.0.seen) }
{
    let shared = &lock.table.shared;
    shared.join_seat::<Both>(seat, other);
    shared.load::<Settles>(seat, 0);
}

/// Takes the value out, where one seat acts for every number.
fn take_out<V: Kept>(lock: GuiLock<V>, seat: PassSeat<V>) -> Option<V>
    requires table { seat.table_id ≡ lock.table }
    requires free { seat.me.0.turns ≡ 0 }
    requires all { (k : ℕ) → 0 < k → k ≤ lock.passes → 0 < claims k seat.me.0.mine }
    ensures { (x : V) × (result ≡ Some x) × (V.kind x ≡ lock.kind)
        × Begins seat.me.0.seen (V.entries x) × AreCallsIn (V.entries x) seat.me.0.mine
        × AreByPasses lock.passes (V.entries x) }
{
    let GuiLock { table } = lock;
    let mut closed = table.close_with(seat);
    let value = closed.take(0);
    closed.free();
    value
}

impl<V: Kept> GuiLock<V> {
    /// Puts a value with an empty history under a lock, and makes its passes, numbered from 1.
    /// Where memory is wanting the value comes back.
    pub fn open(alloc: Global, value: V, passes: u16) -> Result<(GuiLock<V>, Vec<Pass<V>>), V>
        requires some { 0 < passes }
        requires empty { V.entries value ≡ [] }
        ensures kind { IfOk result (λ made. made.0.kind ≡ V.kind value) }
        ensures count { IfOk result (λ made. made.0.passes ≡ passes) }
        ensures passes { IfOk result (λ made. made.1.items ≡ new_passes made.0 1 passes) }
        ensures back { IfErr result (λ same. same ≡ value) }
    {
        let Ok(mut all) = Vec::with_capacity(alloc, passes as usize) else {
            return Err(value);
        };
        let Ok(mut slots) = Vec::with_capacity(alloc, 1) else {
            all.destroy_empty();
            return Err(value);
        };
        let key = LockKey {
            value: Snapshot::of(&value),
            passes,
        };
        slots.push_reserved(Some(value));
        match Table::new(alloc, &[0], slots, &key) {
            Ok((table, seat)) => {
                let lock = GuiLock { table };
                deal(&lock, seat, &mut all, passes);
                Ok((lock, all))
            }
            Err(Refused { mut slots }) => {
                all.destroy_empty();
                let last = slots.pop();
                slots.destroy_empty();
                let Some(Some(value)) = last else {
                    unreachable!()
                };
                Err(value)
            }
        }
    }

    /// Gives the value back, where all passes are there and none holds the lock. Its history begins
    /// with what each pass saw, and has just the calls that the passes made.
    pub fn close(self, mut passes: Vec<Pass<V>>) -> V
        requires free { AreFree self passes.items }
        requires all { (k : ℕ) → 0 < k → k ≤ self.passes → HasNumber k passes.items }
        ensures kind { V.kind result ≡ self.kind }
        ensures all { HasAll (V.entries result) passes.items }
        ensures others { AreByPasses self.passes (V.entries result) }
    {
        let _ = &self.table;
        let last = passes.pop();
        let Some(pass) = last else { unreachable!() };
        let mut seat = pass.into_seat();
        while let Some(pass) = passes.pop() {
            gather(&self, &mut seat, pass.into_seat());
        }
        passes.destroy_empty();
        let value = take_out(self, seat);
        let Some(value) = value else { unreachable!() };
        value
    }
}
