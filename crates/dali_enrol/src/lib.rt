//! The directory of enrolled gear: for each short address an entry of a controller's table, set once and read without
//! waiting. The table itself stands in `dali_script`, beside the records that it is a part of.
#![tactic(auto)]

mod directory;
mod error;

pub use dali_script::{Enrolled, Table, TableError};
pub use directory::{Directory, Pass};
pub use error::DirectoryError;
