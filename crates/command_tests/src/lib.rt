//! Tests of the core and of the commands: what scripts are answered, how commands end, and that
//! the shown picture is the painter's.
#![tactic(auto)]

#[cfg(test)]
mod commands;
#[cfg(test)]
mod history;
#[cfg(test)]
mod sides;
#[cfg(test)]
mod told;
#[cfg(test)]
mod windows;
