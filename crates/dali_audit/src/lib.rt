//! Judges a capture of a bus: which rules of commissioning were broken and when, and which gear has which short address
//! as far as the capture shows.
#![tactic(auto)]

mod audit;
mod bench;
mod bus;
mod comparing;
mod draws;
mod findings;
mod found;
mod frames;
mod holders;
mod judging;
mod later;
mod places;
mod report;
mod script;
mod seen;
mod telling;

pub use audit::{Audit, audit_items};
pub use bench::Bench;
pub use bus::{Begun, Bus, First, INITIALISATION, PAIR, Search, Spelled};
pub use comparing::{Move, Outcome, Step, compare};
pub use draws::Draws;
pub use findings::{Finding, KINDS, Kind};
pub use found::Found;
pub use holders::{Change, Holder, Table, change_of};
pub use judging::Judgement;
pub use places::{BenchError, GEAR_LIMIT, Place, places_of};
pub use report::{push_findings, push_json_findings, push_json_table, push_table};
pub use script::SCRIPT_LIMIT;
pub use seen::{Seen, seen_of};
pub use telling::Known;
