//! Tests of the display's word and of the buffers, which stand in `flip` and `multibuf`.
#![tactic(auto)]

#[cfg(test)]
mod display;
#[cfg(test)]
mod drawing;
#[cfg(test)]
mod threads;
