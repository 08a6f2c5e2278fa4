/// What a task or a display may wait for.
#[derive(Clone, Copy, Debug, PartialEq, Eq)]
pub enum Ask {
    /// That a call which begins drawing would find a buffer to draw on.
    Free,
    /// That no switch waits.
    Still,
}
