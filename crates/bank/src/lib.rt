//! A bank of queues: many first-in-first-out queues of equally many places, in one borrowed memory,
//! for every kind of record that can be copied.
#![tactic(auto)]

mod queues;
mod refusals;
mod rings;

pub use queues::{Bank, MOST_PLACES, MOST_QUEUES};
pub use refusals::Refusal;

#[cfg(test)]
mod tests;
