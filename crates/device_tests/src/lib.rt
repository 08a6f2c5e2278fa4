//! Tests of the tasks' contexts and of memory devices, each held against a plain program.
#![tactic(auto)]

#[cfg(test)]
mod colours;
#[cfg(test)]
mod contexts;
#[cfg(test)]
mod devices;
