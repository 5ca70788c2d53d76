//! Why the program ends without having said that all is well.

use dali_audit::BenchError;
use dali_capture::CaptureFault;
use dali_console::Failed;
use std::{fmt, io};

/// Why the program ends so.
#[derive(Clone, Copy)]
pub enum Ended {
    /// The capture was not read.
    Unread(CaptureFault),
    /// Memory or the output is refused.
    Refused,
    /// A rule was broken, or something was heard that the gear do not answer. All of it is written.
    Broken,
    /// A script cannot hold the bench: more than 128 gear.
    TooManyGear,
    /// A script cannot hold the bench: more than 1,048,576 bytes, or more than 1,024 numbers to draw.
    TooLong,
}

impl fmt::Display for Ended {
    fn fmt<W: fmt::Write>(&self, f: &mut fmt::Formatter<W>) -> fmt::Result {
        match self {
            Ended::Unread(fault) => write!(f, "{fault}"),
            Ended::Refused => f.write_str("memory or the output is refused"),
            Ended::Broken => f.write_str("a rule was broken"),
            Ended::TooManyGear => f.write_str("a script holds at most 128 gear"),
            Ended::TooLong => f.write_str("a script has at most 1,048,576 bytes and 1,024 numbers"),
        }
    }
}

impl Failed for Ended {
    ghost use Rattle.dali_audit_program.specs.Ends.{status_of};

    ghost status_of = { status_of };

    fn status(&self) -> u8 {
        match self {
            Ended::Unread(fault) => fault.status(),
            Ended::Refused => 3,
            Ended::Broken => 4,
            Ended::TooManyGear | Ended::TooLong => 5,
        }
    }
}

impl From<io::Error> for Ended {
    ghost use Rattle.std.specs.Prelude.{◌≡◌};
    ghost use Rattle.dali_audit_program.specs.declared.ended.Ended.TheVariants.{Refused};

    ghost from_gives = { λ _ ended. ended ≡ Refused };

    fn from(_error: io::Error) -> Ended {
        Ended::Refused
    }
}

impl From<BenchError> for Ended {
    ghost use Rattle.std.specs.Prelude.{◌≡◌};
    ghost use Rattle.dali_audit_program.specs.Ends.{ended_by};

    ghost from_gives = { λ error ended. ended ≡ ended_by error };

    fn from(error: BenchError) -> Ended {
        match error {
            BenchError::NoMemory => Ended::Refused,
            BenchError::TooManyGear => Ended::TooManyGear,
            BenchError::TooLong => Ended::TooLong,
        }
    }
}
