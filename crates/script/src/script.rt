use calls::{Config, Line};
use paint_ops::Assets;
use std::marker::Model;

/// What a script says.
#[derive(Drop)]
pub struct Script {
    /// The screen's sides and buffers, the desktop's colour and the number of calls, which lines on
    /// the lock and ticks are not.
    pub config: Config,
    /// What windows paint with. Class 0 is the desktop's: its back colour is the desktop's colour.
    pub assets: Assets,
    /// The call lines in order.
    pub lines: Vec<Line>,
}

impl Model for Script {
    ghost use Rattle.script.specs.Scripts.{Script as Content};

    ghost Value = { Content };

    ghost view = { λ s. record { config = s.config; assets = s.assets; lines = s.lines.items } };
}
