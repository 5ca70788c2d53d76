//! What stands on a site at one moment, and each event as a step of it. There stand the gear with the numbers that they
//! draw, the requests that wait for the bus, the running transaction, and a place for each controller with its machine.
//!
//! Each call says by its contract which event it is, and that the event is allowed in the world that stands. It says
//! too that the world after it is the one of the definitions. The site above keeps the log of these events.
#![tactic(auto)]

mod fitted;
mod refusal;
mod report;
mod seat;
mod standing;

pub use refusal::Refusal;
pub use report::Report;
pub use seat::Seat;
pub use standing::{Standing, is_arc_power};
