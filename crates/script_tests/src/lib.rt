//! Tests of what comes in and goes out: scripts and their faults, the texts that are written, files
//! and sinks, and the room that an event takes.
#![tactic(auto)]

#[cfg(test)]
mod assets;
#[cfg(test)]
mod entries;
#[cfg(test)]
mod faults;
#[cfg(test)]
mod files;
#[cfg(test)]
mod limits;
#[cfg(test)]
mod locks;
#[cfg(test)]
mod scripts;
#[cfg(test)]
mod texts;
