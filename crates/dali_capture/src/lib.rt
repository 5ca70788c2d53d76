//! Captures of a DALI bus: from the bytes of a log, or of a value change dump with one wire of the bus, to what was
//! heard and when.
//!
//! A capture is read as it comes, in one pass: of its text the word that is being read is kept, and no more.
#![tactic(auto)]

mod dump;
mod ear;
mod fault;
mod header;
mod item;
pub mod laws;
mod log;
mod reader;
mod source;
mod words;

pub use fault::{CaptureFault, Mistake, Reason};
pub use item::{Heard, Item};
pub use reader::{CAPTURE_LIMIT, read_capture};
