//! Files in which `dali_commission` keeps records, each a SQLite database.
#![tactic(auto)]

mod databases;
mod files;
mod keeps;
mod log;

pub use databases::Databases;
pub use files::{Files, Lying};
pub use keeps::{CopyKeep, FileKeep};
