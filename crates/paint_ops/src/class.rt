use crate::op::Op;
use gfx_base::Colour;
use std::marker::Model;

/// The operand of a reaction: a number, or the argument of the message.
#[derive(Clone, Copy, Debug, PartialEq, Eq)]
pub enum Operand {
    Const(i16),
    Argument,
}

/// What a window does at a message: it sets one of its sixteen values, adds to one, or hands on a
/// message of this number to its parent.
#[derive(Clone, Copy, Debug, PartialEq, Eq)]
pub enum React {
    Set(u8, Operand),
    Add(u8, Operand),
    Up(u8),
}

/// A reaction to the message of a number.
#[derive(Clone, Copy, Debug, PartialEq, Eq)]
pub struct Reaction {
    pub on: u8,
    pub react: React,
}

/// A class of windows: the colour behind its operations, or none, its operations from first to
/// last, and its reactions.
#[derive(Drop)]
pub struct Class {
    pub back: Option<Colour>,
    pub ops: Vec<Op>,
    pub reactions: Vec<Reaction>,
}

impl Model for Class {
    ghost use Rattle.paint_ops.specs.Kinds.{Class as Content};

    ghost Value = { Content };

    ghost view = { λ c. record {
      back = c.back;
      ops = c.ops.items;
      reactions = c.reactions.items;
    } };
}
