//! Tests of messages: small cases by hand, and random ones against a plain program.
#![tactic(auto)]

#[cfg(test)]
mod plain;
#[cfg(test)]
mod random;
#[cfg(test)]
mod sound;
#[cfg(test)]
mod worked;
