//! The command table: which two bytes are which addressing command (IEC 62386-102:2014, special commands and the
//! queries of the random address).
//!
//! Every forward frame has exactly one command, and no call takes memory or fails.
#![tactic(auto)]

mod command;
pub mod laws;

pub use command::{Command, Part, Target};
