use paint_ops::{Op, React, Reaction};

/// A line of a class's body: a drawing operation, or a reaction to a message.
#[derive(Clone, Copy, Debug, PartialEq, Eq)]
pub enum ClassLine {
    Operation(Op),
    Reaction(Reaction),
}

/// What a word of the table says with its fields: what is drawn, or what is done at a message.
#[derive(Clone, Copy, Debug, PartialEq, Eq)]
pub enum Deed {
    Draw(Op),
    React(React),
}
