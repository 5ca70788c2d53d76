//! Frames and numbers of a DALI bus, each with its one spelling: forward and backward frames, short addresses,
//! random and search addresses, and the priorities of transactions.
//!
//! Everything here is a small value. No call takes memory.
#![tactic(auto)]

mod frames;
mod hex;
pub mod laws;
mod numbers;

pub use frames::{Answer, Forward};
pub use hex::HexError;
pub use numbers::{Priority, Random24, SearchAddress, Short};
