//! Tests of windows: where they lie, small pictures of them, and the jobs that paint them.
#![tactic(auto)]

#[cfg(test)]
mod jobs;
#[cfg(test)]
mod painter;
#[cfg(test)]
mod places;
