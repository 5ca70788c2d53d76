//! `replay`: a script of what happens on a bench of DALI control gear, or on a site with application controllers, is
//! read, and what comes of each line is reported.
#![tactic(auto)]

mod bench;
mod bench_report;
mod form;
mod installation;
mod json;
mod played;
mod player;
mod replay;
mod rounds;
mod site_report;
mod streams;
mod text;

pub use dali_grammar::{
    Clue, Excerpt, Explained, Hint, INPUT_LIMIT, LineForm, Mistake, Place, Quote, Reason,
    ReplayFault, SiteLine, Spot, Stop, Wanted, Wrong, block_of, plan_limit, site_line_of,
};
pub use form::Form;
pub use json::{
    push_addresses, push_comma, push_condition, push_json_gear, push_json_table, push_row,
};
pub use played::{Played, PlayedLine};
pub use replay::{read_input, run_replay};
pub use site_report::push_gear_lines;
pub use streams::{replay_streams, replay_through};
pub use text::push_table;
