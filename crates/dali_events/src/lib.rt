//! A site as definitions: its plan, the events of its log, the world that they lead to, and the laws of every run.
//!
//! The code here makes plans and names events. What an event does, which events are allowed and what is promised of
//! every list of them stands in `specs/`, over the definitions of the lower crates. `laws` has what is proved.
#![tactic(auto)]

mod event;
mod foreign;
pub mod laws;
mod plan;
mod trouble;
mod used;

pub use dali_gear::GearSet;
pub use event::{Event, Outside, Sending};
pub use foreign::is_foreign;
pub use plan::{CONTROLLER_LIMIT, DRAW_LIMIT, GEAR_LIMIT, Plan, PlanError};
pub use trouble::Trouble;
pub use used::Used;
