//! Why a luminaire is not replaced.

use dali_commissioning::CommissionFault;
use thiserror::Error;

/// Why a luminaire is not replaced.
#[derive(Clone, Copy, Debug, Error)]
pub enum ReplaceRefusal {
    /// A file is named twice, or one of them is to lie where another one lies.
    #[error("two of the files are one, or lie where the other's new file is to lie")]
    SameFile,
    /// No table has the short address.
    #[error("no table has this short address")]
    NotInTables,
    /// Two tables disagree about the gear with this short address.
    #[error("the tables disagree about this short address")]
    Disagree,
    /// It cannot be told in whose block the short address lies.
    #[error("it is not clear whose block has this short address: exactly one of the files must have reserved it")]
    NoGiver,
    /// It is said to be missing, and no table has it, or it is the one that is replaced.
    #[error("--missing names it, but no table has it, or it is the one to be replaced")]
    NotMissing,
    /// A new file lies there that reserves another short address.
    #[error("a new file of another replacement lies there: finish that first, or begin anew with --again")]
    OtherNew,
    /// Gear answers to the short address.
    #[error("a gear answers at it: the old luminaire is still there")]
    Answered,
    /// Another gear of a table does not answer, or another one answers there.
    #[error("a luminaire of the tables is not there as recorded; if it is known to be gone, name it by --missing")]
    NotThere,
    /// No gear without short address was found.
    #[error("no luminaire without short address was found")]
    NobodyNew,
    /// Several were found.
    #[error("several luminaires without short address are there: connect one alone")]
    SeveralNew,
    /// It is not clear how many there are.
    #[error("it is not clear whether one luminaire alone has no short address: call again")]
    UnclearNew,
    /// The new gear did not get the short address.
    #[error("the new luminaire did not get it")]
    NotGiven,
    /// The gear that the new tables have there does not answer.
    #[error("the new luminaire does not answer at it")]
    NewSilent,
    /// Another one answers.
    #[error("another luminaire than the new one answers at it")]
    AnotherAnswers,
    /// Several answer together, or something answers that tells no random address.
    #[error("several luminaires answer at it, or the bus is disturbed")]
    SeveralAnswer,
    /// The new tables lack something.
    #[error("a new table would lack something that an old one has")]
    Incomplete,
}

impl ReplaceRefusal {
    /// Whether it is of what the bus tells of the short address, once an earlier call may have given it.
    fn is_of_bus(self) -> bool {
        match self {
            ReplaceRefusal::NotGiven
            | ReplaceRefusal::NewSilent
            | ReplaceRefusal::AnotherAnswers
            | ReplaceRefusal::SeveralAnswer => true,
            ReplaceRefusal::SameFile
            | ReplaceRefusal::NotInTables
            | ReplaceRefusal::Disagree
            | ReplaceRefusal::NoGiver
            | ReplaceRefusal::NotMissing
            | ReplaceRefusal::OtherNew
            | ReplaceRefusal::Answered
            | ReplaceRefusal::NotThere
            | ReplaceRefusal::NobodyNew
            | ReplaceRefusal::SeveralNew
            | ReplaceRefusal::UnclearNew
            | ReplaceRefusal::Incomplete => false,
        }
    }

    /// What was not changed. Once the address may have been given, only the files of the records are as they were.
    pub fn what(self) -> &'static str {
        if self.is_of_bus() || matches!(self, ReplaceRefusal::Incomplete) {
            "no file of records was changed"
        } else {
            "nothing was changed"
        }
    }

    /// What can be done about it, if the text does not say so.
    pub fn advice(self) -> &'static str {
        if self.is_of_bus() {
            ": call again when the new one alone answers, or begin anew with --again"
        } else {
            ""
        }
    }
}

/// Why a luminaire is not replaced, or not all was asked.
#[derive(Clone, Copy)]
pub enum ReplaceFault {
    /// It is not replaced.
    Refused(ReplaceRefusal),
    /// A question or a survey came to no end.
    Commission(CommissionFault),
}
