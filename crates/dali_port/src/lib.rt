//! From the pins and a timer of a DALI interface to the five words that a controller is told, and back: one state
//! machine for each bus (IEC 62386-101:2014), in whole µs.
//!
//! It has no clock, no memory and no loop of its own: its caller hands it frames, edges and times.
#![tactic(auto)]

mod frames;
pub mod laws;
mod orders;
mod port;
mod state;

pub use orders::{Half, Order, Refusal, Word};
pub use state::{Drive, Event, Port, Read};
