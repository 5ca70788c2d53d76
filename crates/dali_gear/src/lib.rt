//! Control gear: the addressing variables of one gear, and how frames, power and time change them
//! (IEC 62386-102:2014, short address assignment); and a row of gear that hear one frame.
//!
//! A gear is a pure state machine. No call takes memory or fails.
#![tactic(auto)]

mod addresses;
mod gear;
mod gear_set;
mod row;
mod state;

pub use gear::{Effect, Gear};
pub use gear_set::GearSet;
pub use row::{Heard, Reach, Row};
pub use state::InitialisationState;
