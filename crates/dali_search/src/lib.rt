//! The search for the least random address of a set of gear, by the answers to "is some member at most this number?".
//!
//! A search is a pure value: it knows nothing of a bus, and takes no memory.
#![tactic(auto)]

mod ascent;
pub mod laws;
mod left;
mod search;
mod step;

pub use ascent::Ascent;
pub use search::Search;
pub use step::Step;
