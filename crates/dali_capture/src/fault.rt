//! Why a capture is not read.

use dali_console::Failed;
use std::fmt;

/// What is wrong in a line of a capture.
#[derive(Clone, Copy, Debug, PartialEq, Eq)]
pub enum Reason {
    /// A line of a log has none of the forms.
    BadLine,
    /// A word of a dump is none that stands between sections.
    BadWord,
    /// The time scale of a dump is not 1, 10 or 100 of s, ms, us, ns, ps or fs.
    BadTimescale,
    /// A time comes before the dump has told its time scale.
    NoTimescale,
    /// A `$var` lacks its type, size, identifier or name.
    BadVariable,
    /// The identifier of a wire has more than seven bytes.
    LongIdentifier,
    /// No variable of one bit has the name that is wanted, or there is none at all.
    NoWire,
    /// Two variables of one bit have the name that is wanted; if no name is wanted, there are two.
    SeveralWires,
    /// A time is less than the one before.
    TimeBack,
    /// A time is more than 2^64 - 1, in its own unit or in µs.
    TimeTooLarge,
    /// The capture ends within a section of a dump.
    Torn,
}

impl Reason {
    /// What is said of it.
    fn text(self) -> &'static str {
        match self {
            Reason::BadLine => "no line of a log: `T HHHH`, `T < HH`, `T < damaged` or `T device`",
            Reason::BadWord => "no time, no change of a value and no section of a dump",
            Reason::BadTimescale => "no time scale: 1, 10 or 100 of s, ms, us, ns, ps or fs",
            Reason::NoTimescale => "a time before $timescale",
            Reason::BadVariable => "no variable: $var TYPE SIZE IDENTIFIER NAME $end",
            Reason::LongIdentifier => "the identifier of a wire has more than seven bytes",
            Reason::NoWire => "no wire of this name",
            Reason::SeveralWires => "several wires: name one of them",
            Reason::TimeBack => "a time that is less than the one before",
            Reason::TimeTooLarge => "a time is too large",
            Reason::Torn => "the capture ends within a section",
        }
    }
}

impl fmt::Display for Reason {
    fn fmt<W: fmt::Write>(&self, f: &mut fmt::Formatter<W>) -> fmt::Result {
        f.write_str(self.text())
    }
}

/// What is wrong, and in which line, counted from 1.
#[derive(Clone, Copy, Debug, PartialEq, Eq)]
pub struct Mistake {
    /// The line.
    pub line: u64,
    /// What is wrong there.
    pub reason: Reason,
}

impl fmt::Display for Mistake {
    fn fmt<W: fmt::Write>(&self, f: &mut fmt::Formatter<W>) -> fmt::Result {
        let line = self.line;
        let reason = self.reason.text();
        write!(f, "line {line}: {reason}")
    }
}

/// Why a capture was not read to its end.
#[derive(Clone, Copy, Debug, PartialEq, Eq)]
pub enum CaptureFault {
    /// A line has none of the forms.
    Bad(Mistake),
    /// There is too little memory.
    Memory,
    /// The capture cannot be read.
    Read,
    /// The capture has more than 67,108,864 bytes.
    TooLong,
}

impl Failed for CaptureFault {
    ghost use Rattle.dali_capture.specs.Faults.{status_of};

    ghost status_of = { status_of };

    fn status(&self) -> u8 {
        match self {
            CaptureFault::Bad(_) => 1,
            CaptureFault::Memory | CaptureFault::Read | CaptureFault::TooLong => 3,
        }
    }
}

impl fmt::Display for CaptureFault {
    fn fmt<W: fmt::Write>(&self, f: &mut fmt::Formatter<W>) -> fmt::Result {
        let text = match self {
            CaptureFault::Bad(mistake) => return write!(f, "{mistake}"),
            CaptureFault::Memory => "out of memory",
            CaptureFault::Read => "the capture cannot be read",
            CaptureFault::TooLong => "the capture has more than 67,108,864 bytes",
        };
        f.write_str(text)
    }
}
