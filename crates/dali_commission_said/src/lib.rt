//! What `dali_commission` says, what a task came to, and how it ends.
#![tactic(auto)]

mod failure;
mod progress;
mod report;
mod reports;
mod said;
mod table;

pub use failure::{Failure, MendRefusal, REFUSED, StoreFault, add, checked, ended_as, failure_of};
pub use progress::{Aim, Manner, Progress};
pub use report::{Came, Report, Row, Session, ended_said, heard_of, own_rows};
pub use reports::{Which, push_places};
pub use said::{Said, Voice, or_say, say, say_all, say_refused, why_said};
pub use table::push_table;
