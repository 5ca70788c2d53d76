ghost use Rattle.std.specs.Prelude.{◌≡◌};
ghost use Rattle.dali_enrol.specs.Refusals.{directory_number_of};

use thiserror::Error;

/// Why there is no directory, or no pass of one. The number never changes.
#[derive(Clone, Copy, Debug, PartialEq, Eq, Error)]
pub enum DirectoryError {
    /// 1: memory ran out.
    #[error("out of memory")]
    NoMemory,
}

impl DirectoryError {
    /// The refusal's number.
    pub fn number(self) -> u8
        ensures { result ≡ directory_number_of self }
    {
        match self {
            DirectoryError::NoMemory => 1,
        }
    }
}
