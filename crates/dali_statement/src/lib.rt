//! The promise on a page, and what is proved of it.
#![tactic(auto)]

pub mod laws;
