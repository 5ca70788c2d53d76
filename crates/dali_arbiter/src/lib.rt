//! Whose frame is next on a bus that several application controllers share: the requests that wait, a list for each
//! priority, and the owner of the bus.
//!
//! This project's profile of transactions in the manner of IEC 62386-101:2014: all forward frames of a transaction but
//! the first have priority 1, and no other controller sends while the owner of the bus goes on.
//!
//! Only [`Arbiter::new`] takes memory.
#![tactic(auto)]

mod arbiter;
mod error;
pub mod laws;
mod request;
mod waiting;

pub use arbiter::Arbiter;
pub use dali_ring::NewError;
pub use error::OfferError;
pub use request::Request;
