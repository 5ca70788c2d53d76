//! The command line of `dali_commission`: what it asks for.
#![tactic(auto)]

mod words;

pub use words::{PROGRAM, asked_of};
