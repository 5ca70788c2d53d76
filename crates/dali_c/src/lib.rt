//! The machine of an application controller, for C: `include/dali_c.h` declares what is exported here.
//!
//! A machine is a plain struct that C owns: its state, and the records that it goes by. Each call reads the state, and
//! tests it and the records where they lie; a step writes the state back, and a record that was kept to the records.
//! Bytes that are none of a machine's are refused.
#![tactic(auto)]

mod ascents;
mod calls;
mod codes;
mod entries;
pub mod laws;
mod levels;
mod machine;
mod orders;
mod pairs;
mod passes;
mod port;
mod progress;
mod purposes;
mod receivers;
mod records;
mod state;
mod status;
mod stopping;
mod surveys;
mod tallies;
