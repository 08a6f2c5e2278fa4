ghost use Rattle.std.specs.Prelude.{◌≡◌, ℕ, ◌+◌, ◌^◌, ◌<◌, [], true, IfOk};
ghost use Rattle.std.specs.List.{range_with_len};
ghost use Rattle.gui_lock.specs.Passes.{Locked, Held, IsOf};
ghost use Rattle.lock_tests.specs.Pairs.{AreRanges};
ghost use Rattle.lock_tests.specs.Threads.{IsFree};

use crate::counter::Counter;
use crate::pairs::{Answer, Pairs, WANTING};
use gui_lock::{Deep, Entry, GuiLock, NotLocked, Pass};
use std::alloc::{AllocError, Global};
use std::sync::Wait;
use std::test::Fail;
use std::thread::{Threads, join};

/// How many calls each of the actors 1 to 4 made, where each made the calls 0, 1 .. in order, and
/// these in blocks that stand in one piece. `None` where that isn't so.
fn calls_of_each(entries: &[Entry<u32>], block: u32) -> Option<[u32; 5]>
    requires { 0 < block }
{
    let mut next = [0, 0, 0, 0, 0];
    let mut last = 0;
    for entry in entries {
        let Entry::Made(actor @ 1..=4, number) = entry else {
            return None;
        };
        let place = *actor as usize;
        let goes_on = *number % block == 0 || *actor == last;
        if *number != next[place] || !goes_on {
            return None;
        }
        next[place] = number.wrapping_add(1);
        last = *actor;
    }
    Some(next)
}

/// Calls with 0, 1 .., until one isn't added, and tells whether all were.
fn call_numbers<R: Wait>(
    rt: &R,
    lock: &GuiLock<Pairs>,
    mut pass: Pass<Pairs>,
    count: u32,
) -> (Pass<Pairs>, bool)
    requires pass { IsOf lock.now pass × (pass.depth ≡ 0) }
    requires new { pass.mine ≡ [] }
    ensures pass { IsFree lock.now pass.number result.0 }
    ensures calls { result.1 ≡ true → result.0.mine ≡ range_with_len 0 count }
{
    for number in 0..count {
        let mut room = 0;
        let done = pass.call(rt, lock, &number, &mut room);
        let Ok(answer) = done else { unreachable!() };
        if !answer.is_added() {
            return (pass, false);
        }
    }
    (pass, true)
}

/// Two threads make so many calls each. Where all were added, the history has just these.
fn call_in_two<R: Threads + Wait + Sync>(
    rt: &R,
    alloc: Global,
    first: u32,
    second: u32,
) -> Result<(Pairs, bool), AllocError>
    ensures { IfOk result (λ r. r.1 ≡ true → AreRanges first second r.0.entries.items) }
{
    let value = Pairs::new(alloc)?;
    let Ok((lock, mut passes)) = GuiLock::open(alloc, value, 2) else {
        return Err(AllocError);
    };
    let (Some(two), Some(one)) = (passes.pop(), passes.pop()) else {
        unreachable!()
    };
    let ((one, all_first), (two, all_second)) = join(
        rt,
        || -> (Pass<Pairs>, bool)
            requires { IsOf lock one × (one.depth ≡ 0) × (one.mine ≡ []) }
            ensures { IsFree lock one.number result.0
                × (result.1 ≡ true → result.0.mine ≡ range_with_len 0 first) }
        { call_numbers(rt, &lock, one, first) },
        || -> (Pass<Pairs>, bool)
            requires { IsOf lock two × (two.depth ≡ 0) × (two.mine ≡ []) }
            ensures { IsFree lock two.number result.0
                × (result.1 ≡ true → result.0.mine ≡ range_with_len 0 second) }
        { call_numbers(rt, &lock, two, second) },
    );
    passes.push_reserved(one);
    passes.push_reserved(two);
    let value = lock.close(passes);
    if all_first && all_second {
        Ok((value, true))
    } else {
        Ok((value, false))
    }
}

#[test]
fn threads_leave_all_their_calls_in_order(rt: HostRuntime) -> Result<(), Fail> {
    for (first, second) in [(10, 10), (3, 300), (1000, 0)] {
        let (pairs, all) = call_in_two(&rt, rt.alloc(), first, second)?;
        assert!(rt; all);
        assert_eq!(rt;
            calls_of_each(pairs.entries(), 1),
            Some([0, first, second, 0, 0])
        );
    }
    Ok(())
}

/// Makes four calls with numbers from the first on, in one block: under a lock, a lock within it,
/// and a third one.
fn call_block<R: Wait>(rt: &R, lock: &GuiLock<Pairs>, pass: &mut Pass<Pairs>, first: u32)
    requires calls { first + 4 < 2 ^ 32 }
    requires pass { IsOf lock.now pass.old × (pass.old.depth ≡ 0) }
    ensures { IsFree lock.now pass.old.number pass.new }
{
    let mut room = 0;
    let _ = pass.lock(rt, lock);
    let _ = pass.apply(lock, &first, &mut room);
    let _ = pass.lock(rt, lock);
    let _ = pass.apply(lock, &(first + 1), &mut room);
    let _ = pass.lock(rt, lock);
    let _ = pass.apply(lock, &(first + 2), &mut room);
    let _ = pass.unlock(lock);
    let _ = pass.unlock(lock);
    let _ = pass.apply(lock, &(first + 3), &mut room);
    let _ = pass.unlock(lock);
}

/// Makes a thousand calls in blocks of four.
fn call_blocks<R: Wait>(rt: &R, lock: &GuiLock<Pairs>, mut pass: Pass<Pairs>) -> Pass<Pairs>
    requires { IsOf lock.now pass × (pass.depth ≡ 0) }
    ensures { IsFree lock.now pass.number result }
{
    for block in 0..250 {
        call_block(rt, lock, &mut pass, 4 * block);
    }
    pass
}

/// Makes a thousand calls in blocks of four, on each of two threads.
fn blocks_in_two<R: Threads + Wait + Sync>(
    rt: &R,
    lock: &GuiLock<Pairs>,
    one: Pass<Pairs>,
    two: Pass<Pairs>,
) -> (Pass<Pairs>, Pass<Pairs>)
    requires one { IsOf lock.now one × (one.depth ≡ 0) }
    requires two { IsOf lock.now two × (two.depth ≡ 0) }
    ensures { IsFree lock.now one.number result.0 × IsFree lock.now two.number result.1 }
{
    join(
        rt,
        || -> Pass<Pairs>
            requires { IsOf lock.now one × (one.depth ≡ 0) }
            ensures { IsFree lock.entry.now one.number result }
        { call_blocks(rt, lock, one) },
        || -> Pass<Pairs>
            requires { IsOf lock.now two × (two.depth ≡ 0) }
            ensures { IsFree lock.entry.now two.number result }
        { call_blocks(rt, lock, two) },
    )
}

/// Makes a thousand calls in blocks of four, on each of four threads.
fn blocks_in_four<R: Threads + Wait + Sync>(rt: &R, alloc: Global) -> Result<Pairs, AllocError> {
    let value = Pairs::new(alloc)?;
    let Ok((lock, mut passes)) = GuiLock::open(alloc, value, 4) else {
        return Err(AllocError);
    };
    let (Some(d), Some(c), Some(b), Some(a)) = (
        passes.pop(),
        passes.pop(),
        passes.pop(),
        passes.pop(),
    ) else {
        unreachable!()
    };
    let ((a, b), (c, d)) = join(
        rt,
        || -> (Pass<Pairs>, Pass<Pairs>)
            requires { IsFree lock 1 a × IsFree lock 2 b }
            ensures { IsFree lock 1 result.0 × IsFree lock 2 result.1 }
        { blocks_in_two(rt, &lock, a, b) },
        || -> (Pass<Pairs>, Pass<Pairs>)
            requires { IsFree lock 3 c × IsFree lock 4 d }
            ensures { IsFree lock 3 result.0 × IsFree lock 4 result.1 }
        { blocks_in_two(rt, &lock, c, d) },
    );
    passes.push_reserved(a);
    passes.push_reserved(b);
    passes.push_reserved(c);
    passes.push_reserved(d);
    Ok(lock.close(passes))
}

#[test]
fn blocks_of_four_threads_stand_in_one_piece(rt: HostRuntime) -> Result<(), Fail> {
    let pairs = blocks_in_four(&rt, rt.alloc())?;
    assert_eq!(rt;
        calls_of_each(pairs.entries(), 4),
        Some([0, 1000, 1000, 1000, 1000])
    );
    Ok(())
}

/// A lock round no pairs, with two passes.
fn open_two(alloc: Global) -> Result<(GuiLock<Pairs>, Pass<Pairs>, Pass<Pairs>), AllocError>
    ensures first { IfOk result (λ r. IsFree r.0 1 r.1) }
    ensures second { IfOk result (λ r. IsFree r.0 2 r.2) }
    ensures passes { IfOk result (λ r. r.0.passes ≡ 2) }
{
    let value = Pairs::new(alloc)?;
    let Ok((lock, mut passes)) = GuiLock::open(alloc, value, 2) else {
        return Err(AllocError);
    };
    let (Some(two), Some(one)) = (passes.pop(), passes.pop()) else {
        unreachable!()
    };
    passes.destroy_empty();
    Ok((lock, one, two))
}

/// Locks so often, and tells whether that went well each time.
fn lock_often<R: Wait>(rt: &R, lock: &GuiLock<Pairs>, pass: &mut Pass<Pairs>, times: u8) -> bool
    requires { IsOf lock.now pass.old }
    ensures { IsOf lock.now pass.new }
{
    for _time in 0..times {
        if pass.lock(rt, lock) != Ok(()) {
            return false;
        }
    }
    true
}

/// Unlocks so often, and tells whether that went well each time.
fn unlock_often(lock: &GuiLock<Pairs>, pass: &mut Pass<Pairs>, times: u8) -> bool
    requires { IsOf lock.now pass.old }
    ensures { IsOf lock.now pass.new }
{
    for _time in 0..times {
        if pass.unlock(lock) != Ok(()) {
            return false;
        }
    }
    true
}

#[test]
fn the_hundred_and_first_lock_is_deep(rt: HostRuntime) -> Result<(), Fail> {
    let (lock, mut pass, _other) = open_two(rt.alloc())?;
    let mut room = 0;
    assert!(rt; lock_often(&rt, &lock, &mut pass, 100));
    assert_eq!(rt; pass.lock(&rt, &lock), Err(Deep));
    assert_eq!(rt; pass.call(&rt, &lock, &7, &mut room), Err(Deep));
    assert_eq!(rt; pass.apply(&lock, &7, &mut room), Ok(Answer::Added));
    pass.wait_until(&rt, &lock, 1);
    assert_eq!(rt; pass.depth(), 100);
    assert!(rt; unlock_often(&lock, &mut pass, 100));
    assert_eq!(rt; pass.unlock(&lock), Err(NotLocked));
    assert_eq!(rt; pass.apply(&lock, &7, &mut room), Err(NotLocked));
    assert_eq!(rt; (pass.depth(), pass.len_seen()), (0, 1));
    Ok(())
}

#[test]
fn passes_learn_from_one_another(rt: HostRuntime) -> Result<(), Fail> {
    let (lock, mut one, mut two) = open_two(rt.alloc())?;
    let mut room = 0;
    assert_eq!(rt; two.call(&rt, &lock, &7, &mut room), Ok(Answer::Added));
    assert_eq!(rt; one.call(&rt, &lock, &8, &mut room), Ok(Answer::Added));
    assert_eq!(rt; (one.number(), one.len_seen()), (1, 2));
    assert_eq!(rt; (two.number(), two.len_seen()), (2, 1));
    one.learn(&lock, &mut two);
    assert_eq!(rt; (one.len_seen(), two.len_seen()), (2, 1));
    two.learn(&lock, &mut one);
    assert_eq!(rt; (one.len_seen(), two.len_seen()), (2, 2));
    Ok(())
}

#[test]
fn a_call_that_wants_memory_is_in_no_history(rt: HostRuntime) -> Result<(), Fail> {
    let (lock, mut one, mut two) = open_two(rt.alloc())?;
    let mut room = 0;
    assert_eq!(rt; one.call(&rt, &lock, &7, &mut room), Ok(Answer::Added));
    assert_eq!(rt;
        one.call(&rt, &lock, &WANTING, &mut room),
        Ok(Answer::Memory)
    );
    assert_eq!(rt; two.call(&rt, &lock, &8, &mut room), Ok(Answer::Added));
    assert_eq!(rt; (one.len_seen(), two.len_seen()), (1, 2));
    let mut passes = Vec::with_capacity(rt.alloc(), 2)?;
    passes.push_reserved(one);
    passes.push_reserved(two);
    let pairs = lock.close(passes);
    assert!(rt; matches!(pairs.entries(), [Entry::Made(1, 7), Entry::Made(2, 8)]));
    Ok(())
}

/// Counts twenty times, each time where it is this actor's turn.
fn count_in_turn<R: Wait>(
    rt: &R,
    lock: &GuiLock<Counter>,
    mut pass: Pass<Counter>,
    first: usize,
) -> Pass<Counter>
    requires first { first < 2 }
    requires pass { IsOf lock.now pass × (pass.depth ≡ 0) }
    ensures { IsFree lock.now pass.number result }
{
    for turn in 0..20 {
        pass.wait_until(rt, lock, 2 * turn + first);
        let mut room = 0;
        let _ = pass.call(rt, lock, &0, &mut room);
    }
    pass
}

/// Two threads count, each waiting for the other.
fn count_in_two<R: Threads + Wait + Sync>(rt: &R, alloc: Global) -> Result<Counter, AllocError> {
    let value = Counter::new(alloc)?;
    let Ok((lock, mut passes)) = GuiLock::open(alloc, value, 2) else {
        return Err(AllocError);
    };
    let (Some(two), Some(one)) = (passes.pop(), passes.pop()) else {
        unreachable!()
    };
    let (one, two) = join(
        rt,
        || -> Pass<Counter>
            requires { IsFree lock 1 one }
            ensures { IsFree lock 1 result }
        { count_in_turn(rt, &lock, one, 0) },
        || -> Pass<Counter>
            requires { IsFree lock 2 two }
            ensures { IsFree lock 2 result }
        { count_in_turn(rt, &lock, two, 1) },
    );
    passes.push_reserved(one);
    passes.push_reserved(two);
    Ok(lock.close(passes))
}

#[test]
fn waiting_passes_take_turns(rt: HostRuntime) -> Result<(), Fail> {
    let counter = count_in_two(&rt, rt.alloc())?;
    let mut turn = 1;
    for entry in counter.entries() {
        let Entry::Made(actor, _) = entry else {
            panic!(rt; "a counter has no marks")
        };
        assert!(rt; *actor == turn);
        turn = if turn == 1 { 2 } else { 1 };
    }
    assert_eq!(rt; counter.entries().len(), 40);
    Ok(())
}
