//! What an exchange of files leaves in a folder, whenever it stops.
#![tactic(auto)]

pub mod laws;
