//! The program `dali_commission`: what it does and says.
#![tactic(auto)]

pub mod laws;
mod object;
mod program;
mod writing;

pub use dali_commission_said::{Failure, Session, StoreFault};
pub use dali_commission_stores::{Actor, Holder, Seen, Stores};
pub use dali_commissioning::DriverLink;
pub use program::run_and_say;
pub use writing::{Text, Writes};
