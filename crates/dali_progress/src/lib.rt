//! That commissioning ends, of one controller that is alone on a bus which nothing disturbs; so does a survey, and its
//! table is whole. And that a survey gives no address at which it heard gear, on any bus.
#![tactic(auto)]

pub mod laws;
