//! A site: gear and controllers on one bus, and a log of all that happens on it.
//!
//! `SiteState` has one call for each event. What a site is follows from its plan and its log alone, by the definitions
//! of `dali_events`: the world after the log. Each accepted call adds one event, which is allowed in that world; a
//! refusal changes nothing. `SiteState::is_safe` says what is promised of each site.
#![tactic(auto)]

mod receipt;
mod site;

pub use dali_events::{
    CONTROLLER_LIMIT, DRAW_LIMIT, Event, GEAR_LIMIT, GearSet, Outside, Plan, PlanError, Sending,
    Trouble, Used, is_foreign, laws,
};
pub use dali_standing::{Refusal, Report};
pub use receipt::Receipt;
pub use site::SiteState;
