// What a seat of the lock's table knows. No value of these types is made: they are for the rule
// alone.
use crate::entry::Entry;
use std::collections::LinkedList;

/// What a lock was opened with: the kind of its value, and for how many passes.
pub struct Terms<K> {
    pub kind: K,
    pub passes: u16,
}

/// What a seat knows of the history, and for which numbers it acts.
pub struct View<C, K> {
    /// The history that it saw.
    pub seen: LinkedList<Entry<C>>,
    /// The shorter of two histories, after two seats became one.
    pub told: LinkedList<Entry<C>>,
    /// The numbers that it acts for, each with its calls in the history.
    pub mine: LinkedList<(u64, LinkedList<C>)>,
    /// 1 while it has the turn, else 0.
    pub turns: u64,
    /// What the lock was opened with, but for a seat that is used up.
    pub terms: Option<Terms<K>>,
}
