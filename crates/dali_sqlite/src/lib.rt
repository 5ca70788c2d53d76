//! Records in a SQLite database: a store of [`dali_reserve::Keep`] over a connection that is handed in
//! ([`SqliteKeep`]).
#![tactic(auto)]

mod copy;
mod files;
mod keep;
mod memory;
mod refused;
mod replay;
mod rows;
mod statements;
mod table;
mod write;

pub use copy::{CopyError, may_be_records, open_copy};
pub use keep::SqliteKeep;
