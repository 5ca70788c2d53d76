//! Places in which `dali_commission` keeps records, by a name; and how files are exchanged.
#![tactic(auto)]

mod keeping;
mod records;
mod settling;
mod stores;

pub use keeping::{free_number, place_of, put_one_aside, say_kept};
pub use records::{Filling, Reading, Seen, kept, lend, lend_copy, read, read_all};
pub use settling::{exchange, found, settle};
pub use stores::{Actor, Borrower, Holder, Stores};
