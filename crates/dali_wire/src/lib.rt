//! From the edges of a DALI bus to frames and answers, and from a frame to its levels, at 1,200 bit/s
//! (IEC 62386-101:2014).
//!
//! Everything here is a small value. No call takes memory.
#![tactic(auto)]

pub mod laws;
mod receiver;
mod sender;
mod window;

pub use receiver::{Frame, Reading, Receiver, Told};
pub use sender::Sender;
pub use window::Window;
