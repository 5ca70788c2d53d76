//! The lines of a script for `replay`: what each asks for, what the first of them set up, and why a line is bad or a
//! plan refused.
#![tactic(auto)]

mod bench_line;
mod fault;
mod heading;
mod lines;
mod numbers;
mod reason;
mod setting;
mod site_line;
mod words;

pub use bench_line::{BenchLine, bench_line_of};
pub use fault::{ReplayFault, Stop};
pub use lines::{INPUT_LIMIT, Script};
pub use numbers::block_of;
pub use reason::{
    Clue, Excerpt, Explained, Hint, LineForm, Mistake, Place, Quote, Reason, Spot, plan_limit,
};
pub use setting::plan;
pub use site_line::{SiteLine, site_line_of};
pub use words::{Wanted, Wrong};
