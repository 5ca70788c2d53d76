//! `replace`: a new luminaire gets the short address of one that is gone; `accept`: it has the address already.
#![tactic(auto)]

mod accepting;
mod confirming;
mod finishing;
mod replacing;

pub use accepting::accepts;
pub use replacing::replaces;
