// The lock, and what a pass does with its table.
ghost use Rattle.std.specs.Prelude.{◌≡◌, ℕ, ◌+◌, ◌*◌, ◌<◌, ◌≤◌, List, [], ◌∷◌, ◌++◌, length, Some, None};
ghost use Rattle.gui_lock.specs.declared.entry.Entry.{Entry};
ghost use Rattle.gui_lock.specs.Entries.{AreMarks, AreByPasses, Applied, Begins, calls_by};
ghost use Rattle.gui_lock.specs.Passes.{Locked, terms_of, longer, shorter};
ghost use Rattle.gui_lock.specs.Rule.{claims, AreCallsIn, at_turn, after_turn, announced, joined, note_of};
ghost use Rattle.gui_lock.specs.Seats.{HasOut};

use crate::kept::Kept;
use crate::rule::{Acquires, Announces, Both, LockKey, LockRule, Note, Releases, Settles, Telling};
use crate::view::View;
use atomic_table::{Seat, Table};
use std::alloc::Global;
use std::marker::{Brand, Model};
use std::sync::Wait;
use std::thread;

/// A value under a lock, at which the passes that were made with it take turns.
#[derive(Drop)]
pub struct GuiLock<V: Kept> {
    pub(crate) table: Table<Option<V>, View<V::Call, V::Kind>, LockKey<V>, LockRule, Global>,
}

impl<V: Kept> Model for GuiLock<V> {
    ghost Value = { Locked V.Kind };

    ghost view = { λ l. record {
      table = l.table.shared.table_id;
      kind = V.kind l.table.shared.key.value.value;
      passes = l.table.shared.key.passes;
    } };

    ghost invariant = { λ l. (l.table.shared.table_id.words ≡ 1)
        × (l.table.shared.table_id.slots ≡ 1)
        × (0 < l.table.shared.key.passes) };
}

pub(crate) type PassSeat<V> = Seat<Option<V>, View<<V as Kept>::Call, <V as Kept>::Kind>>;

/// Waits for the turn, and takes it and the value.
pub(crate) fn acquire<V: Kept>(rt: &impl Wait, lock: &GuiLock<V>, seat: &mut PassSeat<V>) -> V
    requires table { seat.old.table_id ≡ lock.now.table }
    requires terms { seat.old.me.0.terms ≡ Some (terms_of lock.now) }
    requires free { seat.old.me.1 ≡ [] }
    requires named { (k : ℕ) × (0 < claims k seat.old.me.0.mine) }
    ensures table { seat.new.table_id ≡ seat.old.table_id }
    ensures taken { seat.new.me ≡ (at_turn seat.old.me.0 (V.entries result), (0, None) ∷ []) }
    ensures seen { Begins seat.old.me.0.seen (V.entries result) }
    ensures calls { AreCallsIn (V.entries result) seat.old.me.0.mine }
    ensures kind { V.kind result ≡ lock.now.kind }
    ensures within { AreByPasses lock.now.passes (V.entries result) }
{
    let shared = &lock.table.shared;
    for _ in rt.forever() {
        let word = shared.peek(0);
        if word % 2 == 0 {
            let found = shared.compare_exchange::<Acquires>(seat, 0, word, word + 1);
            if found == word {
                let Some(value) = shared.exchange(seat, 0, None) else {
                    unreachable!()
                };
                return value;
            }
        }
        thread::yield_now();
    }
    unreachable!()
}

/// Says on the word how long the value's history has become, and gives this length.
fn tell<V: Kept, T: Telling<V::Call>>(lock: &GuiLock<V>, seat: &mut PassSeat<V>, value: &V) -> usize
    requires table { seat.old.table_id ≡ lock.now.table }
    requires turn { seat.old.me.0.turns ≡ 1 }
    requires list { T.list ≡ V.entries value.now }
    requires more { (extra : List (Entry V.Call))
        × (V.entries value.now ≡ seat.old.me.0.seen ++ extra)
        × ((k : ℕ) → claims k seat.old.me.0.mine ≡ 0 → calls_by k extra ≡ []) }
    ensures table { seat.new.table_id ≡ seat.old.table_id }
    ensures told { seat.new.me ≡ (announced seat.old.me.0 (V.entries value.now), seat.old.me.1) }
    ensures length { result ≡ length (V.entries value.now) }
{
    let len = value.len();
    let new = 2 * len as u64 + 1;
    lock.table.shared.swap::<Announces<T>>(seat, 0, new);
    len
}

/// The same, where the proof picks the history that the step tells.
fn announce<V: Kept>(lock: &GuiLock<V>, seat: &mut PassSeat<V>, value: &V) -> usize
    requires table { seat.old.table_id ≡ lock.now.table }
    requires turn { seat.old.me.0.turns ≡ 1 }
    requires more { (extra : List (Entry V.Call))
        × (V.entries value.now ≡ seat.old.me.0.seen ++ extra)
        × ((k : ℕ) → claims k seat.old.me.0.mine ≡ 0 → calls_by k extra ≡ []) }
    ensures table { seat.new.table_id ≡ seat.old.table_id }
    ensures told { seat.new.me ≡ (announced seat.old.me.0 (V.entries value.now), seat.old.me.1) }
    ensures length { result ≡ length (V.entries value.now) }
{
    tell::<V, Brand>(lock, seat, value)
}

/// Puts the value back, and gives up the turn.
pub(crate) fn release<V: Kept>(lock: &GuiLock<V>, seat: &mut PassSeat<V>, value: V)
    requires table { seat.old.table_id ≡ lock.now.table }
    requires out { HasOut V.entries V.kind seat.old.me value }
    ensures table { seat.new.table_id ≡ seat.old.table_id }
    ensures back { seat.new.me ≡ (after_turn seat.old.me.0, []) }
{
    let shared = &lock.table.shared;
    let word = 2 * value.len() as u64;
    let empty = shared.exchange(seat, 0, Some(value));
    let None = empty else { unreachable!() };
    shared.swap::<Releases>(seat, 0, word);
}

/// Applies a call to the value that is out, and announces it. Gives the reply and the history's
/// length.
pub(crate) fn apply_out<V: Kept>(
    lock: &GuiLock<V>,
    seat: &mut PassSeat<V>,
    value: &mut Option<V>,
    number: u16,
    call: &V::Call,
    room: &mut V::Room,
) -> (V::Reply, usize)
    requires table { seat.old.table_id ≡ lock.now.table }
    requires out { (x : V) × (value.old ≡ Some x) × HasOut V.entries V.kind seat.old.me x
        × V.may_apply (V.kind x) number call.now room.old }
    requires named { 0 < claims number seat.old.me.0.mine }
    ensures table { seat.new.table_id ≡ seat.old.table_id }
    ensures reach { V.reach room.old ≤ V.reach room.new }
    ensures applied { (x : V) → value.old ≡ Some x →
        (y : V) × (value.new ≡ Some y) × (V.kind y ≡ V.kind x)
        × Applied (V.gives (V.kind x) number call.now room.old)
        (V.is_memory result.0) (V.may_want call.now) number call.now
        (V.entries x) (V.entries y) result.0 room.old room.new
        × (result.1 ≡ length (V.entries y))
        × (seat.new.me ≡ (announced seat.old.me.0 (V.entries y), seat.old.me.1)) }
{
    let Some(inner) = value.as_mut() else {
        unreachable!()
    };
    let reply = inner.apply(number, call, room);
    (reply, announce(lock, seat, inner))
}

/// Puts a question to the value that is out, and announces its marks. Gives the answer and the
/// history's length.
pub(crate) fn ask_out<V: Kept>(
    lock: &GuiLock<V>,
    seat: &mut PassSeat<V>,
    value: &mut Option<V>,
    ask: V::Ask,
) -> (bool, usize)
    requires table { seat.old.table_id ≡ lock.now.table }
    requires out { (x : V) × (value.old ≡ Some x) × HasOut V.entries V.kind seat.old.me x }
    ensures table { seat.new.table_id ≡ seat.old.table_id }
    ensures asked { (x : V) → value.old ≡ Some x →
        (y : V) × (value.new ≡ Some y) × (V.kind y ≡ V.kind x)
        × ((marks : List (Entry V.Call)) × AreMarks marks
        × (V.entries y ≡ V.entries x ++ marks)
        × (result.0 ≡ V.answers (V.kind x) ask (V.entries y)))
        × (result.1 ≡ length (V.entries y))
        × (seat.new.me ≡ (announced seat.old.me.0 (V.entries y), seat.old.me.1)) }
{
    let Some(inner) = value.as_mut() else {
        unreachable!()
    };
    let answer = inner.ask(ask);
    (answer, announce(lock, seat, inner))
}

/// Hands a note of what the other seat saw to this one.
pub(crate) fn hear<V: Kept>(lock: &GuiLock<V>, seat: &mut PassSeat<V>, other: &mut PassSeat<V>)
    requires table { seat.old.table_id ≡ lock.now.table }
    requires other_table { other.old.table_id ≡ lock.now.table }
    requires free { seat.old.me.0.turns ≡ 0 }
    ensures table { seat.new.table_id ≡ seat.old.table_id }
    ensures other_table { other.new.table_id ≡ other.old.table_id }
    ensures other { other.new.me ≡ other.old.me }
    ensures both { seat.new.me ≡ (joined seat.old.me.0 (note_of other.old.me.0), seat.old.me.1) }
    ensures begins { Begins (shorter seat.old.me.0.seen other.old.me.0.seen)
        (longer seat.old.me.0.seen other.old.me.0.seen) }
    ensures calls { (log : List (Entry V.Call))
        × Begins (longer seat.old.me.0.seen other.old.me.0.seen) log
        × AreCallsIn log seat.old.me.0.mine }
{
    let shared = &lock.table.shared;
    let note = shared.split_seat::<Note>(other);
    shared.join_seat::<Both>(seat, note);
    shared.load::<Settles>(seat, 0);
}
