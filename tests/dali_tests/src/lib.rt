//! Tests of the parts, from frames to the site, through their public calls: worked values from the standard, and
//! what no contract says. They prove nothing of the parts, and stand in one crate so that no part is proved once
//! more for its tests.
//!
//! Most whole commissionings are told as scripts, in `dali_stories`.
#![tactic(auto)]

#[cfg(test)]
mod arbiter;
#[cfg(test)]
mod ascent;
#[cfg(test)]
mod audit;
#[cfg(test)]
mod capture;
#[cfg(test)]
mod codes;
#[cfg(test)]
mod command;
#[cfg(test)]
mod directory;
#[cfg(test)]
mod frame;
#[cfg(test)]
mod gear;
#[cfg(test)]
mod machine;
#[cfg(test)]
mod machine_stories;
#[cfg(test)]
mod memory;
#[cfg(test)]
mod mending;
#[cfg(test)]
mod moments;
#[cfg(test)]
mod plan;
#[cfg(test)]
mod records;
#[cfg(test)]
mod replay;
#[cfg(test)]
mod ring;
#[cfg(test)]
mod rounds;
#[cfg(test)]
mod search;
#[cfg(test)]
mod site;
#[cfg(test)]
mod survey;
#[cfg(test)]
mod table;
#[cfg(test)]
mod told;
#[cfg(test)]
mod transaction;
#[cfg(test)]
mod values;
#[cfg(test)]
mod wire;
