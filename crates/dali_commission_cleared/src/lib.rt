//! `clear`: all gear lose their short addresses.
#![tactic(auto)]

mod aside;
mod clearing;
mod eraser;

pub use clearing::clears;
