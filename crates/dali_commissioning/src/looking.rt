//! A store in memory in which no address is reserved: a machine that works over it stops before it gives one.

ghost use Rattle.std.specs.Prelude.{◌≡◌, ◌↔◌, ◌⊎◌, true, false, is_some, List, [], ◌∷◌, ◌++◌, None, Err, OnOk};
ghost use Rattle.std.specs.Prelude.{IfErr};
ghost use Rattle.dali_script.specs.declared.records.Record.{Record};
ghost use Rattle.dali_script.specs.Records.{Fits, IsAddressTaken, IsRandomTaken, IsNotReserved, with_record};
ghost use Rattle.dali_reserve.specs.declared.error.KeepError.TheVariants.{StoreFailed, AddressTaken, RandomTaken};
ghost use Rattle.dali_reserve.specs.declared.error.KeepError.TheVariants.{NotReserved};
ghost use Rattle.dali_reserve.specs.Refusals.{RefusesCommit, IsRefused, HasFailed};
ghost use Rattle.dali_reserve.specs.Store.{IsReplay, HasRecords};
ghost use Rattle.dali_commissioning.specs.Looking.{keep_of, wanted_of, reserved_by};

use dali_frame::Random24;
use dali_reserve::{Keep, KeepError, MemoryKeep};
use dali_script::{Kept, Record};

/// Records in memory. A reservation is told as a commit that failed, so a read is due then.
#[derive(Drop)]
pub(crate) struct Looking {
    keep: MemoryKeep,
    /// The random address of the gear for which the last commit wanted to reserve an address.
    wanted: Option<Random24>,
}

impl Looking {
    pub(crate) fn over(keep: MemoryKeep) -> Looking
        requires { HasRecords keep }
        ensures keep { keep_of result ≡ keep }
        ensures wanted { wanted_of result ≡ None }
    {
        Looking { keep, wanted: None }
    }

    pub(crate) fn wanted(&self) -> Option<Random24>
        ensures { result ≡ wanted_of self.now }
    {
        self.wanted
    }
}

/// For which gear a record reserves an address, if it does.
fn wanted_by(added: &Record) -> Option<Random24>
    ensures { result ≡ reserved_by added.now }
{
    match *added {
        Record::Reserve(_, random) => Some(random),
        Record::Enrol(..) | Record::Release(..) => None,
    }
}

impl Keep for Looking {
    ghost block = { λ s. (keep_of s).block };

    ghost holds = { λ s xs. IsReplay (keep_of s).block xs (keep_of s) };

    ghost kept = { keep_of };

    ghost must_read = { λ s. is_some (wanted_of s) };

    ghost is_sound = { λ s. HasRecords (keep_of s) };

    ghost is_up = { λ _. Unit {0} };

    ghost has_records = { λ s sound. sound };

    ghost replay = { λ s xs sound read held. held };

    fn read(&mut self) -> Result<Kept, KeepError> {
        let kept = self.keep.read()?;
        self.wanted = None;
        Ok(kept)
    }

    fn commit(&mut self, added: Record) -> Result<(), KeepError>
        requires { Fits (keep_of self.old).block added }
        ensures read_first { is_some (wanted_of self.old) ≡ true → result ≡ Err StoreFailed }
        ensures address_taken { (result ≡ Err AddressTaken)
            ↔ ((is_some (wanted_of self.old) ≡ false) × IsAddressTaken (keep_of self.old) added) }
        ensures random_taken { (result ≡ Err RandomTaken)
            ↔ ((is_some (wanted_of self.old) ≡ false) × IsRandomTaken (keep_of self.old) added) }
        ensures not_reserved { (result ≡ Err NotReserved)
            ↔ ((is_some (wanted_of self.old) ≡ false) × IsNotReserved (keep_of self.old) added) }
        ensures refusal { IfErr result RefusesCommit }
        ensures ok { OnOk result ((keep_of self.new ≡ with_record (keep_of self.old) added)
            × (is_some (wanted_of self.new) ≡ false)) }
        ensures refused { IsRefused result → (keep_of self.new ≡ keep_of self.old)
            × (is_some (wanted_of self.new) ≡ false) }
        ensures failed { HasFailed result → is_some (wanted_of self.new) ≡ true }
        ensures block { (keep_of self.new).block ≡ (keep_of self.old).block }
        ensures sound { HasRecords (keep_of self.old) → HasRecords (keep_of self.new) }
        ensures adds { OnOk result ((xs : List Record) → IsReplay (keep_of self.old).block xs (keep_of self.old)
            → IsReplay (keep_of self.new).block (xs ++ added ∷ []) (keep_of self.new)) }
        ensures adds_none { ((is_some (wanted_of self.old) ≡ true) ⊎ IsRefused result)
            → keep_of self.new ≡ keep_of self.old }
        ensures adds_or_not { HasFailed result → (xs : List Record)
            → IsReplay (keep_of self.old).block xs (keep_of self.old)
            → IsReplay (keep_of self.new).block xs (keep_of self.new)
            ⊎ IsReplay (keep_of self.new).block (xs ++ added ∷ []) (keep_of self.new) }
        ensures never { OnOk result (reserved_by added ≡ None) }
    {
        if self.wanted.is_some() {
            return Err(KeepError::StoreFailed);
        }
        self.keep.commit(added)?;
        self.wanted = wanted_by(&added);
        if self.wanted.is_some() {
            return Err(KeepError::StoreFailed);
        }
        Ok(())
    }
}
