//! Commissioning over a driver that stands beside the program: the lines between the two, and what is done by them.
#![tactic(auto)]

mod beginning;
mod census;
mod conducting;
mod driver;
mod fault;
mod hearing;
pub mod laws;
mod lighting;
mod lines;
mod looking;
mod newcomers;
mod runs;
mod unaddressed;
mod verdict;
mod watch;

pub use beginning::{Begun, Checked, begin, check, outside};
pub use census::{
    Answers, Reply, ask, ask_until_clear, has_block, is_known, is_unclear, reply_of, take_census,
};
pub use conducting::{Ended, PassEnd, conduct};
pub use dali_controller::{Passed, Tally};
pub use dali_script::Half;
pub use driver::{DriverFault, DriverLink};
pub use fault::CommissionFault;
pub use hearing::{Hearing, OneByte};
pub use lighting::{light, light_at_last};
pub use lines::told_of;
pub use newcomers::{Newcomers, look_for_newcomers};
pub use runs::commission;
pub use unaddressed::{has_unaddressed, has_under};
pub use verdict::{Place, are_as_recorded, is_as_recorded, places, random_at};
pub use watch::{Unwatched, Watch};
