//! A luminaire is replaced: what must have been seen before a new one is given the short address of one that is gone,
//! when new files of records may take the places of old ones, and how.
#![tactic(auto)]

mod come;
mod confirmed;
mod filling;
pub mod laws;
mod permit;
mod refusal;
mod standing;
mod swap;
mod swapping;
mod tables;

pub use come::Come;
pub use confirmed::Confirmed;
pub use filling::{fill, gathered, gathered_whole, refill};
pub use permit::{OthersThere, Permit, Vacant};
pub use refusal::{ReplaceFault, ReplaceRefusal};
pub use standing::Standing;
pub use swap::{Lies, MOST_FILES, Step, lies_at, moment_of, step_after};
pub use swapping::{Swap, aside_of, journal_of, kept_of, new_of};
pub use tables::{Giver, giver_from};
