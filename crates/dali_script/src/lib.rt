//! Which transactions a controller may send while it commissions short addresses, and the records that it keeps
//! meanwhile.
//!
//! A transaction is a front of one of eight scripts ([`Trace`]); what a controller has reserved and enrolled is
//! [`Kept`]. Both lists of it are [`Assignments`], and the enrolments are a [`Table`]. [`Input`] and [`Order`] are what
//! a machine that runs the scripts is told, and what it orders. Only a card of a table takes memory.
#![tactic(auto)]

mod assignments;
mod block;
mod checks;
mod enrolled;
mod finding;
mod kept;
pub mod laws;
mod orders;
mod pair;
mod pairs;
mod reading;
mod records;
mod sending;
mod stage;
mod table;
mod trace;

pub use assignments::Assignments;
pub use block::Block;
pub use enrolled::Enrolled;
pub use finding::Finding;
pub use kept::Kept;
pub use orders::{Due, End, Fault, Input, Order};
pub use pair::Pair;
pub use pairs::Pairs;
pub use reading::Records;
pub use records::{AddError, Record};
pub use sending::{Half, half_in, half_of, opens};
pub use stage::Stage;
pub use table::{Table, TableError};
pub use trace::{Entry, Trace};
