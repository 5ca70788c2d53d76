use crate::driver::DriverFault;
use dali_reserve::KeepError;

/// Why gear are not commissioned to the end, or not asked.
#[derive(Clone, Copy, Debug, PartialEq, Eq)]
pub enum CommissionFault {
    /// A line could not be exchanged with the driver.
    Driver(DriverFault),
    /// The records could not be read, or one could not be committed. The store has it or not: what it reads then
    /// decides.
    Store(KeepError),
    /// A question to a short address was lost eight times in a row.
    QuestionLost,
    /// A machine has taken as many steps as it may.
    StepsSpent,
    /// As many machines have run as may.
    RunsSpent,
}
