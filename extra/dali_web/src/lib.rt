//! The player of scripts for a page in a browser: what is exported here is built for WebAssembly by `tools/web`.
//!
//! A call reads a script. It hands out what `dali_play` or `dali_view` would write of it and would say of a fault, and
//! tells where that stands in the script. Nothing is kept between two calls.
#![tactic(auto)]

mod calls;
mod handing;
mod told;
