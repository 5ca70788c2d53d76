//! A store of the tests' own, none of whose commits is kept.

use dali_reserve::{Keep, KeepError};
use dali_script::{AddError, Kept, Record};

/// A store that reads, and fails at each commit. Nothing is promised of what it holds.
#[derive(Drop)]
pub struct Broken {
    kept: Kept,
    must_read: bool,
}

impl Broken {
    /// With these records.
    pub fn of(kept: Kept) -> Broken {
        Broken {
            kept,
            must_read: false,
        }
    }
}

impl Keep for Broken {
    ghost block = { λ s. s.kept.block };

    ghost holds = { λ _ _. ⊥ };

    ghost kept = { λ s. s.kept };

    ghost must_read = { λ s. s.must_read };

    ghost is_sound = { λ _. ⊥ };

    ghost is_up = { λ _. Unit {0} };

    ghost has_records = { λ s sound. absurd sound };

    ghost replay = { λ s xs sound read held. absurd sound };

    fn read(&mut self) -> Result<Kept, KeepError> {
        self.must_read = false;
        Ok(self.kept.copy())
    }

    fn commit(&mut self, added: Record) -> Result<(), KeepError> {
        if self.must_read {
            return Err(KeepError::StoreFailed);
        }
        let mut more = self.kept.copy();
        match more.add(added) {
            Ok(()) => {
                self.must_read = true;
                Err(KeepError::StoreFailed)
            }
            Err(AddError::AddressTaken) => Err(KeepError::AddressTaken),
            Err(AddError::RandomTaken) => Err(KeepError::RandomTaken),
            Err(AddError::NotReserved) => Err(KeepError::NotReserved),
        }
    }
}
