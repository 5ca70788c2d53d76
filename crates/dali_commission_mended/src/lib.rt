//! `run` and `mend`: gear are given short addresses, and those that share one are told apart.
#![tactic(auto)]

mod hanging;
mod mending;
mod running;

pub use mending::mends;
pub use running::Running;
