//! What `dali_commission` asks the bus: for `check`, for `identify`, and at the end of other tasks.
#![tactic(auto)]

mod checking;
mod ending;
mod identifying;
mod sharing;

pub use checking::checks;
pub use ending::{AtLast, ask_at_last};
pub use identifying::{identify, is_silent};
pub use sharing::{
    Left, Site, has_any, is_any_bare, is_any_left, is_any_left_shared, is_in, meant_of, or_open,
    refused_from, reserved_in, why_not, why_open, with_left,
};
