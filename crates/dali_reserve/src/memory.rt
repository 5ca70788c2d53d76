ghost use Rattle.std.specs.Prelude.{◌≡◌, ◌↔◌, false, List, [], ◌∷◌, ◌++◌, Ok, Err, IsTrue, IsOk, OnOk};
ghost use Rattle.std.specs.Prelude.{OnErr, IfErr};
ghost use Rattle.dali_script.specs.declared.records.Record.{Record};
ghost use Rattle.dali_script.specs.Records.{without_records, Fits, MayAdd, IsAddressTaken, IsRandomTaken};
ghost use Rattle.dali_script.specs.Records.{IsNotReserved, with_record};
ghost use Rattle.dali_reserve.specs.declared.error.KeepError.TheVariants.{AddressTaken, RandomTaken};
ghost use Rattle.dali_reserve.specs.declared.error.KeepError.TheVariants.{NotReserved};
ghost use Rattle.dali_reserve.specs.Refusals.{RefusesRecord};

use crate::error::KeepError;
use crate::keep::Keep;
use dali_script::{AddError, Block, Kept, Record};
use std::marker::Model;

/// A store in memory. It never fails.
///
/// Contracts see what is kept: the block, and what was committed, each kind in the order of the commits.
#[derive(Drop)]
pub struct MemoryKeep {
    kept: Kept,
}

impl Model for MemoryKeep {
    ghost use Rattle.dali_script.specs.Records.{Kept};
    ghost use Rattle.dali_reserve.specs.Store.{HasRecords};

    ghost Value = { Kept };

    ghost view = { λ s. s.kept };

    ghost invariant = { λ s. HasRecords s.kept };
}

impl MemoryKeep {
    ghost use Rattle.dali_reserve.specs.Store.{HasRecords};

    /// A store with no records, for a controller with this block.
    pub fn new(block: Block) -> MemoryKeep
        ensures empty { result ≡ without_records block }
        ensures sound { HasRecords result }
    {
        MemoryKeep {
            kept: Kept::new(block),
        }
    }

    /// Whether the records are of this block.
    pub fn is_of(&self, block: Block) -> bool
        ensures value { IsTrue result ↔ (self.now.block ≡ block) }
        ensures sound { HasRecords self.now }
    {
        self.kept.block() == block
    }
}

impl Keep for MemoryKeep {
    ghost use Rattle.dali_reserve.specs.Store.{IsReplay, HasRecords};

    ghost block = { λ s. s.block };

    ghost holds = { λ s xs. IsReplay s.block xs s };

    ghost kept = { λ s. s };

    ghost must_read = { λ _. false };

    ghost is_sound = { HasRecords };

    ghost is_up = { λ _. Unit {0} };

    ghost has_records = { λ s sound. sound };

    ghost replay = { λ s xs sound read held. held };

    /// A copy of what is kept. It takes no memory, and is never refused.
    fn read(&mut self) -> Result<Kept, KeepError>
        ensures answer { result ≡ Ok self.old }
        ensures same { self.new ≡ self.old }
        ensures sound { HasRecords self.new }
    {
        Ok(self.kept.copy())
    }

    /// Adds a record as the last of its kind; a release takes its reservation away. It takes no memory.
    ///
    /// `AddressTaken` comes before `RandomTaken`; each speaks of records of the same kind alone, and `NotReserved` of a
    /// release.
    fn commit(&mut self, added: Record) -> Result<(), KeepError>
        requires { Fits self.old.block added }

        ensures success { IsOk result ↔ MayAdd self.old added }
        ensures address_taken { (result ≡ Err AddressTaken) ↔ IsAddressTaken self.old added }
        ensures random_taken { (result ≡ Err RandomTaken) ↔ IsRandomTaken self.old added }
        ensures not_reserved { (result ≡ Err NotReserved) ↔ IsNotReserved self.old added }
        ensures ok { OnOk result (self.new ≡ with_record self.old added) }
        ensures err { OnErr result (self.new ≡ self.old) }

        ensures refusal { IfErr result RefusesRecord }
        ensures adds { OnOk result ((xs : List Record) → IsReplay self.old.block xs self.old
            → IsReplay self.new.block (xs ++ added ∷ []) self.new) }
        ensures sound { HasRecords self.new }
    {
        match self.kept.add(added) {
            Ok(()) => Ok(()),
            Err(AddError::AddressTaken) => Err(KeepError::AddressTaken),
            Err(AddError::RandomTaken) => Err(KeepError::RandomTaken),
            Err(AddError::NotReserved) => Err(KeepError::NotReserved),
        }
    }
}
