//! Files in folders: what is done to them, what programs see of them, and what a crash leaves.
#![tactic(auto)]

mod folder;
pub mod laws;
mod places;
mod system;
mod whole;

pub use folder::Folder;
pub use places::place;
pub use system::System;
pub use whole::{remove_whole, rename_whole, write_whole};
