//! Ring lines: an exchange that has for each line a ring of places of its own.
#![tactic(auto)]

mod lines;

pub use lines::{FEWEST_BAYS, MOST_BAYS, RingLines};

#[cfg(test)]
mod tests;
