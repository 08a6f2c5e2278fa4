// A pass: who may take a lock, and what it has seen of the history.
ghost use Rattle.std.specs.Prelude.{◌≡◌, ℕ, ◌+◌, ◌<◌, ◌≤◌, List, [], ◌∷◌, ◌++◌, true, length, OnOk, OnErr, IfOk, MatchResult};
ghost use Rattle.gui_lock.specs.Entries.{Begins, calls_by};
ghost use Rattle.gui_lock.specs.Passes.{Locked, Held, IsOf, Sees, Acts, Waits, longer};
ghost use Rattle.gui_lock.specs.Seats.{Asks, held, IsPass};

use crate::kept::Kept;
use crate::lock::{GuiLock, PassSeat, acquire, apply_out, ask_out, hear, release};
use std::marker::Model;
use std::sync::Wait;
use std::{mem, thread};
use thiserror::Error;

/// How often a pass may hold its lock at once.
const DEEPEST: u8 = 100;

/// The pass holds the lock a hundred times.
#[derive(Clone, Copy, Debug, PartialEq, Eq, Error)]
#[error("the lock is held a hundred times")]
pub struct Deep;

/// The pass doesn't hold the lock.
#[derive(Clone, Copy, Debug, PartialEq, Eq, Error)]
#[error("the lock is not held")]
pub struct NotLocked;

/// Who may take a lock: one of the passes that were made with it. It acts under its number, and may
/// hold the lock up to a hundred times at once. While it holds it, the value is in the pass, and
/// nobody else makes a call.
#[derive(Drop)]
pub struct Pass<V: Kept> {
    seat: PassSeat<V>,
    value: Option<V>,
    number: u16,
    depth: u8,
    len: usize,
}

impl<V: Kept> Model for Pass<V> {
    ghost Value = { Held V.Call V.Kind };

    ghost view = { λ p. held p.seat.table_id p.number p.depth p.seat.me };

    ghost invariant = { λ p. IsPass V.entries V.kind p.seat.me p.value p.number p.depth p.len };
}

fn larger(a: usize, b: usize) -> usize
    ensures above { a < b → result ≡ b }
    ensures below { b ≤ a → result ≡ a }
{
    if a < b { b } else { a }
}

impl<V: Kept> Pass<V> {
    /// The number that it acts under.
    pub fn number(&self) -> u16
        ensures value { result ≡ self.now.number }
        ensures counted { calls_by self.now.number self.now.seen ≡ self.now.mine }
    {
        self.number
    }

    /// How often it holds the lock, from 0 to 100.
    pub fn depth(&self) -> u8
        ensures value { result ≡ self.now.depth }
        ensures most { result ≤ 100 }
    {
        self.depth
    }

    /// How many entries the history had that it last saw.
    pub fn len_seen(&self) -> usize
        ensures { result ≡ length self.now.seen }
    {
        self.len
    }

    /// Takes the lock, for which it may wait, or holds it once more.
    pub fn lock(&mut self, rt: &impl Wait, lock: &GuiLock<V>) -> Result<(), Deep>
        requires { IsOf lock.now self.old }
        ensures deep { MatchResult result (λ _. self.old.depth < 100) (λ _. self.old.depth ≡ 100) }
        ensures sees { OnOk result (Sees lock.now.passes self.old self.new) }
        ensures depth { OnOk result (self.new.depth ≡ self.old.depth + 1) }
        ensures unchanged { OnErr result (self.new ≡ self.old) }
    {
        if self.depth >= DEEPEST {
            return Err(Deep);
        }
        if self.depth == 0 {
            let value = acquire(rt, lock, &mut self.seat);
            self.len = value.len();
            let empty = mem::replace(&mut self.value, Some(value));
            let None = empty else { unreachable!() };
        }
        self.depth += 1;
        Ok(())
    }

    /// Holds the lock once less. The outermost `unlock` gives it up.
    pub fn unlock(&mut self, lock: &GuiLock<V>) -> Result<(), NotLocked>
        requires { IsOf lock.now self.old }
        ensures locked { MatchResult result (λ _. 0 < self.old.depth) (λ _. self.old.depth ≡ 0) }
        ensures depth { OnOk result (self.old ≡ record self.new { depth = self.new.depth + 1 }) }
        ensures unchanged { OnErr result (self.new ≡ self.old) }
    {
        if self.depth == 0 {
            return Err(NotLocked);
        }
        if self.depth == 1 {
            let Some(value) = mem::replace(&mut self.value, None) else {
                unreachable!()
            };
            release(lock, &mut self.seat, value);
        }
        self.depth -= 1;
        Ok(())
    }

    /// Makes a call, under the lock that the pass holds.
    pub fn apply(
        &mut self,
        lock: &GuiLock<V>,
        call: &V::Call,
        room: &mut V::Room,
    ) -> Result<V::Reply, NotLocked>
        requires made { IsOf lock.now self.old }
        requires may { V.may_apply lock.now.kind self.old.number call.now room.old }
        ensures locked { MatchResult result (λ _. 0 < self.old.depth) (λ _. self.old.depth ≡ 0) }
        ensures acts { IfOk result (λ reply. Acts lock.now.passes
            (V.gives lock.now.kind self.old.number call.now room.old)
            (V.is_memory reply) (V.may_want call.now) call.now
            self.old self.new reply room.old room.new) }
        ensures reach { V.reach room.old ≤ V.reach room.new }
        ensures unchanged { OnErr result ((self.new ≡ self.old) × (room.new ≡ room.old)) }
    {
        if self.depth == 0 {
            return Err(NotLocked);
        }
        let (reply, len) = apply_out(
            lock,
            &mut self.seat,
            &mut self.value,
            self.number,
            call,
            room,
        );
        self.len = len;
        Ok(reply)
    }

    /// Takes the lock, makes a call and gives the lock up.
    pub fn call(
        &mut self,
        rt: &impl Wait,
        lock: &GuiLock<V>,
        call: &V::Call,
        room: &mut V::Room,
    ) -> Result<V::Reply, Deep>
        requires made { IsOf lock.now self.old }
        requires may { V.may_apply lock.now.kind self.old.number call.now room.old }
        ensures deep { MatchResult result (λ _. self.old.depth < 100) (λ _. self.old.depth ≡ 100) }
        ensures acts { IfOk result (λ reply. Acts lock.now.passes
            (V.gives lock.now.kind self.old.number call.now room.old)
            (V.is_memory reply) (V.may_want call.now) call.now
            self.old self.new reply room.old room.new) }
        ensures reach { V.reach room.old ≤ V.reach room.new }
        ensures unchanged { OnErr result ((self.new ≡ self.old) × (room.new ≡ room.old)) }
    {
        self.lock(rt, lock)?;
        let done = self.apply(lock, call, room);
        let Ok(reply) = done else { unreachable!() };
        let Ok(()) = self.unlock(lock) else {
            unreachable!()
        };
        Ok(reply)
    }

    fn ask(&mut self, lock: &GuiLock<V>, ask: V::Ask) -> bool
        requires made { IsOf lock.now self.old }
        requires deep { 0 < self.old.depth }
        ensures { Asks (V.answers lock.now.kind ask) result self.old self.new }
    {
        let (answer, len) = ask_out(lock, &mut self.seat, &mut self.value, ask);
        self.len = len;
        answer
    }

    fn ask_alone(&mut self, rt: &impl Wait, lock: &GuiLock<V>, ask: V::Ask) -> bool
        requires made { IsOf lock.now self.old }
        requires free { self.old.depth ≡ 0 }
        ensures waits { Waits lock.now.passes self.old self.new }
        ensures answered { result ≡ V.answers lock.now.kind ask self.new.seen }
    {
        let Ok(()) = self.lock(rt, lock) else {
            unreachable!()
        };
        let answer = self.ask(lock, ask);
        let Ok(()) = self.unlock(lock) else {
            unreachable!()
        };
        answer
    }

    fn ask_once(&mut self, rt: &impl Wait, lock: &GuiLock<V>, ask: V::Ask) -> bool
        requires { IsOf lock.now self.old }
        ensures waits { Waits lock.now.passes self.old self.new }
        ensures answered { result ≡ V.answers lock.now.kind ask self.new.seen }
    {
        if self.depth == 0 {
            self.ask_alone(rt, lock, ask)
        } else {
            self.ask(lock, ask)
        }
    }

    /// Asks until the answer is yes. Between two questions it holds the lock only where the pass
    /// held it before.
    pub fn wait_until(&mut self, rt: &impl Wait, lock: &GuiLock<V>, ask: V::Ask)
        requires { IsOf lock.now self.old }
        ensures waits { Waits lock.now.passes self.old self.new }
        ensures answered { V.answers lock.now.kind ask self.new.seen ≡ true }
    {
        for _ in rt.forever() {
            if self.ask_once(rt, lock, ask) {
                return;
            }
            thread::yield_now();
        }
        unreachable!()
    }

    /// Learns what the other pass saw: of what the two saw the shorter begins the longer, which
    /// this pass has then seen.
    pub fn learn(&mut self, lock: &GuiLock<V>, other: &mut Pass<V>)
        requires made { IsOf lock.now self.old }
        requires other_made { IsOf lock.now other.old }
        requires free { self.old.depth ≡ 0 }
        requires other_free { other.old.depth ≡ 0 }
        ensures seen { self.new ≡ record self.old { seen = longer self.old.seen other.old.seen } }
        ensures begins { Begins self.old.seen self.new.seen × Begins other.old.seen self.new.seen }
        ensures counted { calls_by self.new.number self.new.seen ≡ self.new.mine }
        ensures other { other.new ≡ other.old }
    {
        hear(lock, &mut self.seat, &mut other.seat);
        let len = larger(self.len, other.len);
        self.len = len;
    }

    pub(crate) fn of_seat(seat: PassSeat<V>, number: u16) -> Pass<V>
        requires number { seat.me.0.mine ≡ (number, []) ∷ [] }
        requires fresh { (seat.me.0.seen ≡ []) × (seat.me.0.turns ≡ 0) × (seat.me.1 ≡ []) }
        ensures { result ≡ record {
          table = seat.table_id;
          number = number;
          depth = 0;
          seen = [];
          mine = [];
          terms = seat.me.0.terms;
        } }
    {
        Pass {
            seat,
            value: None,
            number,
            depth: 0,
            len: 0,
        }
    }

    pub(crate) fn into_seat(self) -> PassSeat<V>
        requires { self.depth ≡ 0 }
        ensures table { result.table_id ≡ self.table }
        ensures free { (result.me.0.turns ≡ 0) × (result.me.1 ≡ []) }
        ensures same { (result.me.0.seen ≡ self.seen) × (result.me.0.terms ≡ self.terms) }
        ensures mine { result.me.0.mine ≡ (self.number, self.mine) ∷ [] }
    {
        let Pass {
            seat,
            value,
            number: _,
            depth: _,
            len: _,
        } = self;
        let None = value else { unreachable!() };
        seat
    }
}
