ghost use Rattle.std.specs.Prelude.{◌≡◌};
ghost use Rattle.dali_controller.specs.Refusals.{refusal_number};

use thiserror::Error;

/// Why a machine does not take an input. The number never changes.
#[derive(Clone, Copy, Debug, PartialEq, Eq, Error)]
pub enum StepError {
    /// 1: the machine waits for something else.
    #[error("not due")]
    NotDue,
}

impl StepError {
    /// The refusal's number.
    pub fn number(self) -> u8
        ensures { result ≡ refusal_number self }
    {
        match self {
            StepError::NotDue => 1,
        }
    }
}
