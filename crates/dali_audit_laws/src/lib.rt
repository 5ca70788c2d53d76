//! What an audit tells of a run in which nothing was disturbed.
#![tactic(auto)]

pub mod laws;
