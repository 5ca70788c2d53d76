//! A site that threads share: a lock round it, a right to act for each controller, and one to drive the bus.
//!
//! A [`Line`] is a `SiteState` under a lock. `Line::new` gives a [`Port`] for each controller and one [`Driver`]. Its
//! calls are the site's, one for each event, and each wants the right to it: `act` and `arc` the controller's port,
//! all others the driver. `wait` and `ready` sleep until there is something to do.
//!
//! A [`Worker`] runs a controller in its own thread, with a store of records (`Keep`). It posts what was enrolled in a
//! directory (`dali_enrol`), which all threads read without waiting. A [`Pumper`] runs the bus. They know a line as a
//! [`Bus`], which hands out no lock: a record is committed without it. But the line knows when a worker is at a commit
//! (`begin_commit`), and does not bring the worker's controller up until the commit is over ([`UpRefusal`]). A [`Gate`]
//! is asked at some moments of a turn. A vendor may write another `Keep`, `Bus` or `Gate`. `dali_line_tests` has a
//! store that fails at a commit (`failing`), buses that keep lists and that drive themselves (`listed`, `driven`) and a
//! gate that holds a commit (`threads`).
//!
//! What is proved of threads: a port knows how many steps its controller has taken (its share), and the driver how many
//! events are no controller's step. Whenever the lock is taken, the log has just as many. No clause can name the site
//! under the lock. So each call says that there is a site which gives this answer. The site's promise holds, and its
//! log has as many of the caller's events as the caller's share says. `Line::close` gives the site back, of which each
//! share is exact; each event of its log is in one share, and in one alone.
//!
//! Not proved: that a thread runs, that a wait ends, any order between threads.
//!
//! A line has five type parameters, the ledgers of its shares. A function over them is called with `std::marker::Brand`
//! five times and five blanks of one part each, `Blank::new(1)`. The caller's proof says that they are of those blanks,
//! a line each.
#![tactic(auto)]

mod bus;
mod commits;
mod committing;
mod count;
mod counted;
mod driver;
mod gate;
mod line;
mod locked;
mod outcome;
mod own;
mod port;
mod posting;
mod pumper;
mod ready;
mod tally;
mod up_refusal;
mod worker;

pub use bus::Bus;
pub use driver::Driver;
pub use gate::{Gate, Moment, OpenGate};
pub use line::Line;
pub use outcome::Outcome;
pub use port::Port;
pub use pumper::Pumper;
pub use ready::Ready;
pub use up_refusal::UpRefusal;
pub use worker::Worker;
