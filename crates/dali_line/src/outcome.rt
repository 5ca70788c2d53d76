ghost use Rattle.std.specs.Prelude.{◌≡◌};
ghost use Rattle.dali_line.specs.Ends.{stops};

use dali_script::{End, Fault};
use dali_world::Refusal;

/// How a worker's run ends. All but the first three stop the line.
///
/// After `Down`, `Refused` and `Stopped` the store may have one record more than its controller was told: the record of
/// a commit that was made, and could not be told. A worker that goes on with this store, and a restart with what the
/// store reads, take it in.
#[derive(Clone, Copy, Debug, PartialEq, Eq)]
pub enum Outcome {
    /// Its controller ended.
    Ended(End),
    /// Its controller cannot go on.
    Halted(Fault),
    /// Its controller is down. To go on, bring it up with what the store reads, and run a new worker.
    Down,
    /// The line refused a call, as when its log is full.
    Refused(Refusal),
    /// It had all its turns.
    TurnsSpent,
    /// The line was stopped.
    Stopped,
    /// Its store could not be made, or there was no memory for its pass or for the card of an enrolment.
    NoMemory,
}

impl Outcome {
    /// Whether a run that ends so stops the line: unless its controller ended or halted, or is down.
    pub fn stops(self) -> bool
        ensures { result ≡ stops self }
    {
        match self {
            Outcome::Ended(_) | Outcome::Halted(_) | Outcome::Down => false,
            Outcome::Refused(_) | Outcome::TurnsSpent | Outcome::Stopped | Outcome::NoMemory =>
                true,
        }
    }
}
