//! Tests of the tree of windows, and of what is made invalid of them.
#![tactic(auto)]

#[cfg(test)]
mod counted;
#[cfg(test)]
mod invalid;
#[cfg(test)]
mod plain;
#[cfg(test)]
mod steps;
