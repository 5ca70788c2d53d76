//! What follows of ports and receivers on one bus.
#![tactic(auto)]

pub mod laws;
