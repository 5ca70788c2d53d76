ghost use Rattle.std.specs.Prelude.{◌≡◌};
ghost use Rattle.dali_ring.specs.declared.error.NewError.TheVariants as new_error;
ghost use Rattle.dali_ring.specs.Numbers.{refusal_number};

use std::alloc::AllocError;
use thiserror::Error;

/// Why there is no ring. The numbers never change.
#[derive(Clone, Copy, Debug, PartialEq, Eq, Error)]
pub enum NewError {
    /// 1: there is no memory for the slots.
    #[error("out of memory")]
    NoMemory,
    /// 2: the capacity is not 1 to 1024.
    #[error("the capacity is not 1 to 1024")]
    BadCapacity,
}

impl NewError {
    /// The refusal's number.
    pub fn number(self) -> u8
        ensures { result ≡ refusal_number self }
    {
        match self {
            NewError::NoMemory => 1,
            NewError::BadCapacity => 2,
        }
    }
}

impl From<AllocError> for NewError {
    ghost from_gives = { λ _ e. e ≡ new_error.NoMemory };

    fn from(_error: AllocError) -> NewError {
        NewError::NoMemory
    }
}
