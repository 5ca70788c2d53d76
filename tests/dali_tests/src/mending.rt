//! Tests of `dali_mending` over simulated gear.

mod apart;
mod site;
mod stops;
mod troubles;
