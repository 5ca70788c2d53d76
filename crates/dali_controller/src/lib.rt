//! The application controller's machine: it gives short addresses to the gear on a bus, one input and one order at a
//! time.
//!
//! A [`Machine`] knows nothing of a bus or a store, and takes no memory.
#![tactic(auto)]

mod calls;
mod error;
mod hunts;
pub mod laws;
mod leg;
mod machine;
mod moments;
mod purpose;
mod queries;
mod searches;
mod shorts;
mod state;
mod stepping;
mod surveying;
mod tally;
mod unfinished;
mod visits;
mod way;
mod whole;

pub use dali_script::{Due, End, Fault, Input, Order};
pub use error::StepError;
pub use leg::Leg;
pub use machine::Machine;
pub use purpose::Purpose;
pub use shorts::Shorts;
pub use state::State;
pub use tally::{Passed, Tally};
pub use way::Way;
