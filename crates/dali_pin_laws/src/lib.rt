//! What controllers over ports and gear with receivers make on one bus is a history of the page.
#![tactic(auto)]

pub mod laws;
