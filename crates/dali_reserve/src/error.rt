ghost use Rattle.std.specs.Prelude.{◌≡◌};
ghost use Rattle.dali_reserve.specs.Refusals.{refusal_number};

use thiserror::Error;

/// Why a store doesn't answer its records, or doesn't take one. The numbers never change.
#[derive(Clone, Copy, Debug, PartialEq, Eq, Error)]
pub enum KeepError {
    /// 1: memory ran out.
    #[error("out of memory")]
    NoMemory,
    /// 2: what lies under the store failed, or a commit failed and no read has answered since.
    #[error("the store failed")]
    StoreFailed,
    /// 3: a record of this kind has the short address.
    #[error("the short address has a record of this kind")]
    AddressTaken,
    /// 4: a record of this kind has the random address.
    #[error("the random address has a record of this kind")]
    RandomTaken,
    /// 5: what is stored is no list of records that could have been committed.
    #[error("the store holds no list of records")]
    BadStore,
    /// 6: the short address is not reserved for the random address.
    #[error("the short address is not reserved for the random address")]
    NotReserved,
}

impl KeepError {
    /// The refusal's number.
    pub fn number(self) -> u8
        ensures { result ≡ refusal_number self }
    {
        match self {
            KeepError::NoMemory => 1,
            KeepError::StoreFailed => 2,
            KeepError::AddressTaken => 3,
            KeepError::RandomTaken => 4,
            KeepError::BadStore => 5,
            KeepError::NotReserved => 6,
        }
    }
}
