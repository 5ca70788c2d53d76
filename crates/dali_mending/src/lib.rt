//! Gear that share a short address: all but one of them lose it, and the one that a table names keeps it.
//!
//! A `Mending` is a pure state machine for one short address. It says which frame is to be put, and is told what came
//! of that. No call takes memory or fails.
#![tactic(auto)]

mod course;
pub mod laws;
mod mending;
mod stage;

pub use course::{Course, Outcome};
pub use mending::{Mending, Put};
pub use stage::Stage;
