//! Texts as lines and words, and the numbers and colours that words spell. Each value has one
//! spelling: a number is its decimal digits without a leading zero, with `-` before a negative one,
//! a colour is six digits `0` to `9` and `A` to `F`, and a coordinate is a number or a base with
//! what is added to it. Lines end with the byte 10, and single spaces part words. What holds of
//! every text that is read line by line stands here too: lines that are items, and the first fault
//! of lines that are none; and room in which a line is put together before it is written.
#![tactic(auto)]

mod args;
mod hex;
pub mod laws;
mod line_room;
mod lines;
mod num;
mod words;

pub use args::Args;
pub use hex::{colour, colour_digits};
pub use line_room::LineRoom;
pub use lines::{cut_at, first_line, is_printable};
pub use words::{
    after_word, begins_with, is_done, natural, natural_at, natural_in, number, number_at, word_at,
};
