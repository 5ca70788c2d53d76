//! What a call of `dali_commission` may ask for.
#![tactic(auto)]

mod tasks;

pub use tasks::{Asked, Mend, Replacement, Setup, Start, TableForm, Task};
