ghost use Rattle.std.specs.Prelude.{◌≡◌};
ghost use Rattle.dali_arbiter.specs.Numbers.{number_of_offer};

use thiserror::Error;

/// Why a request may not wait. The numbers never change.
#[derive(Clone, Copy, Debug, PartialEq, Eq, Error)]
pub enum OfferError {
    /// 1: as many requests wait as may.
    #[error("the queue is full")]
    QueueFull,
    /// 2: a request of priority 1 by a sender that does not own the bus.
    #[error("priority 1 is the owner's alone")]
    NotOwner,
}

impl OfferError {
    /// The refusal's number.
    pub fn number(self) -> u8
        ensures { result ≡ number_of_offer self }
    {
        match self {
            OfferError::QueueFull => 1,
            OfferError::NotOwner => 2,
        }
    }
}
