//! Queues for what waits for the bus: a list for each priority, in slots that are taken once and linked by their
//! numbers.
#![tactic(auto)]

mod block;
mod error;
mod links;
mod ring;
mod sent;
mod slots;

pub use error::NewError;
pub use ring::Ring;
pub use sent::Sent;
