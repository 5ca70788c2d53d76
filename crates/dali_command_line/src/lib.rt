//! The command line of `dali_sim`: what its words ask for, what is done and said, and the exit status.
#![tactic(auto)]

mod program;
mod words;

pub use program::run_and_say;
