//! Why a run ends before the end of its input.

ghost use Rattle.std.specs.Prelude.{◌≡◌};

use crate::reason::{Clue, Place};
use crate::words::Wrong;
use dali_events::PlanError;
use std::alloc::AllocError;
use thiserror::Error;

/// Why a run ended before the end of its input.
#[derive(Clone, Copy, Debug, PartialEq, Eq, Error)]
pub enum ReplayFault {
    /// The line of this number has none of the forms. The reports up to it are written.
    #[error("line {0}: bad line")]
    BadLine(u32),
    /// The plan is refused. Nothing is written.
    #[error("plan refused: {0}")]
    BadPlan(PlanError),
    /// There is too little memory. The first of the reports are written.
    #[error("out of memory")]
    Memory,
    /// The input cannot be read, or is longer than 1,048,576 bytes. Nothing is written.
    #[error("the input cannot be read, or is longer than 1,048,576 bytes")]
    Read,
    /// The output cannot be written.
    #[error("the output cannot be written")]
    Write,
}

impl ReplayFault {
    ghost use Rattle.dali_grammar.specs.ReplayFault.{status_of};

    /// The exit status of the program: 1 for a bad line or plan, 3 for memory, input or output that is refused.
    pub fn status(&self) -> u8
        ensures { result ≡ status_of self.now }
    {
        match self {
            ReplayFault::BadLine(_) | ReplayFault::BadPlan(_) => 1,
            ReplayFault::Memory | ReplayFault::Read | ReplayFault::Write => 3,
        }
    }
}

impl From<AllocError> for ReplayFault {
    ghost use Rattle.dali_grammar.specs.declared.fault.ReplayFault.TheVariants.{Memory};

    ghost from_gives = { λ _ e. e ≡ Memory };

    fn from(_error: AllocError) -> ReplayFault {
        ReplayFault::Memory
    }
}

/// Why a run stops before the end of its input: its fault, with what is wrong in the script.
#[derive(Clone, Copy)]
pub enum Stop {
    /// The line of this number, which stands at this place, has a wrong word.
    Line(u32, Place, Wrong),
    /// The plan is refused, for the words that the clue names.
    Plan(PlanError, Option<Clue>),
    Memory,
    Read,
    Write,
}

impl Stop {
    ghost use Rattle.dali_grammar.specs.ReplayFault.{fault_of};

    /// The fault alone.
    pub fn fault(&self) -> ReplayFault
        ensures { result ≡ fault_of self.now }
    {
        match self {
            Stop::Line(number, _, _) => ReplayFault::BadLine(*number),
            Stop::Plan(error, _) => ReplayFault::BadPlan(*error),
            Stop::Memory => ReplayFault::Memory,
            Stop::Read => ReplayFault::Read,
            Stop::Write => ReplayFault::Write,
        }
    }
}

impl From<AllocError> for Stop {
    ghost use Rattle.dali_grammar.specs.declared.fault.Stop.TheVariants.{Memory};

    ghost from_gives = { λ _ s. s ≡ Memory };

    fn from(_error: AllocError) -> Stop {
        Stop::Memory
    }
}

impl From<Stop> for ReplayFault {
    ghost use Rattle.dali_grammar.specs.ReplayFault.{fault_of};

    ghost from_gives = { λ s e. e ≡ fault_of s };

    fn from(stop: Stop) -> ReplayFault {
        stop.fault()
    }
}
