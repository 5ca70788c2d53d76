//! What is run, and why it is not.

ghost use Rattle.std.specs.Prelude.{◌≡◌};

use arrayvec::ArrayVec;
use dali_console::Failed;
use dali_replay::plan_limit;
use dali_world::PlanError;
use std::alloc::AllocError;
use std::fmt;

/// What is run: control gear, and application controllers, each with a block of short addresses.
#[derive(Drop)]
pub struct Setup {
    /// How many gear there are, 1 to 128.
    pub gear: u32,
    /// What the random addresses are drawn from.
    pub seed: u64,
    /// How many turns each worker may take, and how many the pumper.
    pub turns: u32,
    /// Whether each controller begins by a survey.
    pub surveys: bool,
    /// Whether the report is one line of JSON.
    pub as_json: bool,
    /// Whether the story of the run is written in the place of a report.
    pub as_story: bool,
    /// The first and the last short address of each controller's block, 0 to 63.
    pub blocks: ArrayVec<(u8, u8), 4>,
}

/// Why a run did not come to its report.
#[derive(Clone, Copy, Debug, PartialEq, Eq)]
pub enum ThreadsFault {
    /// Status 2: the plan is refused. Nothing was drawn, run or written.
    BadPlan(PlanError),
    /// Status 3: there is too little memory, or a thread cannot be made.
    Memory,
    /// Status 3: the output cannot be written.
    Write,
}

/// What is said of it on standard error: of a refused plan its limit too.
impl fmt::Display for ThreadsFault {
    fn fmt<W: fmt::Write>(&self, f: &mut fmt::Formatter<W>) -> fmt::Result {
        match self {
            ThreadsFault::BadPlan(error) => {
                let limit = plan_limit(*error);
                write!(f, "plan refused: {error}: {limit}")
            }
            ThreadsFault::Memory => f.write_str("out of memory, or of threads"),
            ThreadsFault::Write => f.write_str("the output cannot be written"),
        }
    }
}

impl Failed for ThreadsFault {
    ghost use Rattle.dali_threads.specs.Setup.{status_of};

    ghost status_of = { status_of };

    fn status(&self) -> u8 {
        match self {
            ThreadsFault::BadPlan(_) => 2,
            ThreadsFault::Memory | ThreadsFault::Write => 3,
        }
    }
}

impl From<AllocError> for ThreadsFault {
    ghost use Rattle.dali_threads.specs.declared.setup.ThreadsFault.TheVariants.{Memory};

    ghost from_gives = { λ _ e. e ≡ Memory };

    fn from(_error: AllocError) -> ThreadsFault {
        ThreadsFault::Memory
    }
}
