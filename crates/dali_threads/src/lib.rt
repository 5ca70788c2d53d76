//! `threads`: application controllers in threads of their own commission the gear of one site, and what became of it
//! is reported.
#![tactic(auto)]

mod draws;
mod report;
mod run;
mod setup;
mod workers;

pub use run::run_threads;
pub use setup::{Setup, ThreadsFault};
