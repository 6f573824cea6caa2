//! What bays send each other, and the exchange that carries it: one first-in-first-out line for each ordered pair of
//! different bays. A bay is one charging place of the depot, known by its number from 0.
#![tactic(auto)]

mod calls;
mod lines;
mod messages;
mod refusals;

pub use calls::Exchange;
pub use lines::Line;
pub use messages::Message;
pub use refusals::Refusal;
