//! The story of a run: what happened when a script was played, as lines of JSON.
//!
//! [`story_of`] writes it, [`tell_run`] from a reader to a writer; [`story_of_site`] that of a site that threads ran.
#![tactic(auto)]

mod commands;
mod events;
pub mod laws;
mod lists;
mod members;
mod run_gear;
mod site;
mod stances;
mod story;
mod streams;
mod teller;
mod transactions;

pub use site::story_of_site;
pub use story::story_of;
pub use streams::{tell_run, tell_streams};
