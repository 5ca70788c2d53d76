//! Records in a store: what every store promises ([`Keep`]), and a store in memory ([`MemoryKeep`]).
#![tactic(auto)]

mod error;
mod keep;
pub mod laws;
mod memory;

pub use error::KeepError;
pub use keep::Keep;
pub use memory::MemoryKeep;
