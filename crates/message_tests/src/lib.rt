//! Tests of pixel formats and of what is read of a viewer's bytes.
#![tactic(auto)]

#[cfg(test)]
mod formats;
#[cfg(test)]
mod messages;
#[cfg(test)]
mod pixels;
