//! Why the program ends without having done what was asked for, and its exit statuses.

ghost use Rattle.std.specs.Prelude.{◌≡◌, ◌++◌, ◌∷◌, [], OnOk};
ghost use Rattle.dali_commission_said.specs.Failures.{status_of, name_of, ended_as, checked, failure_of};

use dali_commissioning::{CommissionFault, DriverFault, Ended, Place, are_as_recorded};
use dali_console::{ConsoleFault, Failed};
use dali_frame::Short;
use dali_replacement::ReplaceRefusal;
use dali_reserve::KeepError;
use dali_script::{End, Fault};
use std::alloc::AllocError;
use std::fmt;
use thiserror::Error;

/// Memory, or the output, is refused.
pub const REFUSED: Failure = Failure::Console(ConsoleFault::Refused);

/// Why no short address is mended.
#[derive(Clone, Copy, Debug, Error)]
pub enum MendRefusal {
    /// It lies in a block of another controller.
    #[error("it lies in the block of another controller, which --others names")]
    OfOthers,
    /// No gear has it.
    #[error("no gear answers at it")]
    NobodyAnswers,
    /// A gear of a table, which is not to be mended, does not answer, or another one alone does.
    #[error("a gear of the tables is not there as recorded; if it is known to be gone, name it by --missing")]
    NotThere,
    /// Two tables disagree about the gear with this short address.
    #[error("the tables disagree about it")]
    Disagree,
    /// The block has it, and another file than the first one has reserved it.
    #[error("the block has it, but it is reserved in another file than the first one")]
    ReservedByOthers,
}

/// Why records cannot be had.
#[derive(Clone, Copy, Debug, Error)]
pub enum StoreFault {
    /// Another program has the file open.
    #[error("another program has the file open")]
    Locked,
    /// There is no such file.
    #[error("there is no such file of records")]
    Missing,
    /// The folder in which it is to be made is not there.
    #[error("its folder is not there")]
    NoFolder,
    /// Nothing can be made in its folder, in which its log lies while it is open.
    #[error("nothing can be made in its folder, and its log has to lie there")]
    ClosedFolder,
    /// It has a second name, by a hard link, or is something else than a file.
    #[error("it has a second name, a hard link, or is no file: make a copy and name that")]
    Linked,
    /// It may not be read, or not be written.
    #[error("the system refuses to read or write it")]
    Forbidden,
    /// It lies on a disk that cannot be written.
    #[error("its disk cannot be written")]
    ReadOnly,
    /// Its disk has no room.
    #[error("its disk is full")]
    Full,
    /// It is no database, or one of something else. Not one byte of it is changed.
    #[error("it is no file of records, and is left as it is")]
    Foreign,
    /// It is a database of a later form, or of another program. Not one byte of it is changed.
    #[error("a later version of Yolgibat wrote it, or another program, and it is left as it is")]
    Newer,
    /// It is a database that is damaged.
    #[error("it is a damaged database")]
    Damaged,
    /// What lies in its log before the end cannot be read, so records would be missing.
    #[error("its log, with -wal behind its name, is damaged before its end, so records are lost; keep a copy of both")]
    DamagedLog,
    /// The journal beside it cannot be gone on with.
    #[error("its journal, with .replacing behind its name, is damaged, or of files that lay elsewhere")]
    BadJournal,
    /// The system refuses it, by this error of its own.
    #[error("the system refuses it, by its error {0}")]
    System(i32),
    /// It cannot be opened for another reason.
    #[error("it cannot be opened")]
    CannotOpen,
    /// The records cannot be read, or one cannot be committed.
    #[error("{0}")]
    Store(KeepError),
}

/// Why the program ends without having done what was asked for, with what is said of it on standard error.
#[derive(Clone, Copy, Error)]
pub enum Failure {
    #[error("not begun: gear answer at short addresses that the records do not name")]
    AddressedBefore,
    #[error("the gear are not as recorded")]
    NotAsRecorded,
    /// The command line or the output.
    #[error("{0}")]
    Console(ConsoleFault),
    #[error("error: line {0} of the driver: {1}")]
    Driver(u64, DriverFault),
    #[error("error: the records: {0}")]
    Store(#[from] StoreFault),
    #[error("error: short address {at} is reserved, and lies outside of the block", at = .0.number())]
    Outside(Short),
    /// Gear without short address was found, and each address of the block is reserved.
    #[error("ended: block-full")]
    BlockFull,
    /// The frames were lost, or searches led to no gear.
    #[error("ended: gave-up")]
    GaveUp,
    /// A gear was found that contradicts the records.
    #[error("ended: conflict")]
    Conflict,
    /// The machines took as many steps, or were as many, as they may.
    #[error("ended: too many steps")]
    Spent,
    #[error("no gear answered: is the interface connected, is the bus powered?")]
    NobodyAnswered,
    #[error("no gear answers at short address {at}", at = .0.number())]
    NobodyThere(Short),
    /// A luminaire is not replaced, for what is so of this short address or of the site.
    #[error(fmt = write_not_replaced)]
    NotReplaced(Short, ReplaceRefusal),
    /// Files are exchanged that an earlier call began to exchange, and this is so of the site.
    #[error("the files are exchanged, but short address {at}: {1}; check says which gear answer", at = .0.number())]
    NotConfirmed(Short, ReplaceRefusal),
    #[error("a replacement is not finished: call ./dali_commission replace again, with the same words")]
    Unfinished,
    /// No short address is mended, for what is so of this one.
    #[error("not mended, nothing was changed: short address {at}: {1}", at = .0.number())]
    NotMended(Short, MendRefusal),
    #[error("gear share a short address, or have no random one: call ./dali_commission mend, with the options of run")]
    Shared,
    /// What was heard at a short address, asked again and again, tells neither one gear nor several.
    #[error("unclear: more than one control gear may answer at a short address; check once more on a quiet bus")]
    NotClear,
    /// Gear still answer at short addresses, which were said.
    #[error("gear still answer at short addresses: call clear again")]
    NotCleared,
}

impl fmt::Debug for Failure {
    fn fmt<W: fmt::Write>(&self, f: &mut fmt::Formatter<W>) -> fmt::Result {
        write!(f, "{self}")
    }
}

fn write_not_replaced<W: fmt::Write>(
    short: &Short,
    refusal: &ReplaceRefusal,
    f: &mut fmt::Formatter<W>,
) -> fmt::Result {
    let (at, what, advice) = (short.number(), refusal.what(), refusal.advice());
    write!(
        f,
        "not replaced, {what}: short address {at}: {refusal}{advice}"
    )
}

impl From<AllocError> for Failure {
    ghost use Rattle.dali_commission_said.specs.declared.failure.Failure.TheVariants.{Console};
    ghost use Rattle.dali_console.specs.declared.fault.ConsoleFault.TheVariants.{Refused};

    ghost from_gives = { λ _ f. f ≡ Console Refused };

    fn from(_error: AllocError) -> Failure {
        REFUSED
    }
}

impl Failure {
    /// Its exit status, and what it is called in an object of JSON.
    pub fn end(&self) -> (u8, &'static str)
        ensures status { result.0 ≡ status_of self.now }
        ensures name { result.1.now ≡ name_of self.now }
    {
        match self {
            Failure::AddressedBefore => (1, "not-begun"),
            Failure::NotAsRecorded => (1, "not-as-recorded"),
            Failure::Console(ConsoleFault::BadCommandLine | ConsoleFault::NotText) => (
                2,
                "bad-command-line",
            ),
            Failure::Console(ConsoleFault::Refused) => (3, "refused"),
            Failure::Driver(..) => (4, "driver"),
            Failure::Store(_) | Failure::Outside(_) => (5, "records"),
            Failure::BlockFull => (6, "block-full"),
            Failure::GaveUp => (7, "gave-up"),
            Failure::Conflict => (8, "conflict"),
            Failure::Spent => (9, "too-many-steps"),
            Failure::NobodyAnswered | Failure::NobodyThere(_) => (10, "nobody-answered"),
            Failure::NotReplaced(..) => (11, "not-replaced"),
            Failure::NotConfirmed(..) => (11, "not-confirmed"),
            Failure::Unfinished => (12, "unfinished"),
            Failure::NotMended(..) => (11, "not-mended"),
            Failure::Shared => (13, "shared"),
            Failure::NotCleared => (14, "not-cleared"),
            Failure::NotClear => (15, "unclear"),
        }
    }
}

impl Failed for Failure {
    ghost use Rattle.dali_commission_said.specs.Failures.{status_of};

    ghost status_of = { status_of };

    fn status(&self) -> u8 {
        self.end().0
    }
}

/// Adds something to a list.
pub fn add<T: Drop>(list: &mut Vec<T>, item: T) -> Result<(), Failure>
    ensures { OnOk result (list.new.items ≡ list.old.items ++ item ∷ []) }
{
    list.push(item).map_err(|_| REFUSED)
}

/// What the end of the last machine is to the program, if a gear was heard, or if none was.
pub fn ended_as(ended: Ended, has_heard: bool) -> Result<(), Failure>
    ensures { result ≡ ended_as ended has_heard }
{
    match ended {
        Ended::Done(End::AllFound) => {
            if has_heard {
                Ok(())
            } else {
                Err(Failure::NobodyAnswered)
            }
        }
        Ended::Done(End::BlockFull) => Err(Failure::BlockFull),
        Ended::Done(End::GaveUp) => Err(Failure::GaveUp),
        Ended::Halted(Fault::Conflict) => Err(Failure::Conflict),
        // Never so: no machine is told that a commit failed.
        Ended::Halted(Fault::Store) => {
            Err(Failure::Store(StoreFault::Store(KeepError::StoreFailed)))
        }
    }
}

/// What a check ends with, by what stands under each short address, whether gear are there that have none, and whether
/// any gear was heard.
pub fn checked(places: &[Place], has_unaddressed: bool, has_heard: bool) -> Result<(), Failure>
    ensures { result ≡ checked places.now has_unaddressed has_heard }
{
    if !has_heard {
        Err(Failure::NobodyAnswered)
    } else if has_unaddressed || !are_as_recorded(places) {
        Err(Failure::NotAsRecorded)
    } else {
        Ok(())
    }
}

/// What a fault is to the program, at this line of the driver.
pub fn failure_of(fault: CommissionFault, line: u64) -> Failure
    ensures { result ≡ failure_of fault line }
{
    match fault {
        CommissionFault::Driver(DriverFault::Memory) => Failure::Console(ConsoleFault::Refused),
        CommissionFault::Driver(fault) => Failure::Driver(line, fault),
        CommissionFault::Store(error) => Failure::Store(StoreFault::Store(error)),
        CommissionFault::QuestionLost => Failure::GaveUp,
        CommissionFault::StepsSpent | CommissionFault::RunsSpent => Failure::Spent,
    }
}
