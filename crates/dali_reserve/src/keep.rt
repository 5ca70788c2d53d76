ghost use Rattle.std.specs.Prelude.{◌≡◌, ◌↔◌, ◌⊎◌, Bool, true, false, List, [], ◌∷◌, ◌++◌, Err, OnOk, OnErr, IfOk};
ghost use Rattle.std.specs.Prelude.{IfErr};
ghost use Rattle.dali_script.specs.declared.block.Block.{Block};
ghost use Rattle.dali_script.specs.declared.records.Record.{Record};
ghost use Rattle.dali_script.specs.Records.{Kept, without_records, Fits, IsAddressTaken, IsRandomTaken, IsNotReserved};
ghost use Rattle.dali_script.specs.Records.{with_record};
ghost use Rattle.dali_reserve.specs.declared.error.KeepError.TheVariants.{StoreFailed, AddressTaken, RandomTaken};
ghost use Rattle.dali_reserve.specs.declared.error.KeepError.TheVariants.{BadStore, NotReserved};
ghost use Rattle.dali_reserve.specs.Refusals.{RefusesRead, RefusesCommit, IsRefused, HasFailed};
ghost use Rattle.dali_reserve.specs.Store.{AreGood, IsReplay};

use crate::error::KeepError;
use dali_script::{Kept, Record};

/// A store of one controller's records: a list, to which each commit adds one, and which a read replays.
///
/// Contracts see the store by six ghost members:
///
/// - `block`: the block of short addresses that the records are of. It never changes.
/// - `holds`: the list of records, oldest first, that is stored.
/// - `kept`: what the store knows of that list, as records that are kept: its replay (the law `replay`), unless
///   `must_read`.
/// - `must_read`: a commit failed, and no read has answered since. Then it isn't known whether its record is stored.
/// - `is_sound`: a list is stored, and what the store knows of it is true. It stays so from call to call.
/// - `is_up`: what lies under the store is open, and has so far given back what was written to it. Clauses on the list
///   ask for it after a call, since a disk may fail within one; a later `is_up` says it of all calls before (the
///   clauses `up`).
///
/// Nothing here says that a store is ever sound: what this trait promises of a list begins with a store that is. So
/// whatever makes a store, as `MemoryKeep::new`, or opens one has to promise it, with the list that it holds then.
///
/// After an `Ok` of `read` the answer is `kept`, and of the store's block. After an `Ok` of `commit` the list has the
/// record as its last. After a failed commit the list has the record or not, and the next `read` tells.
pub trait Keep {
    ghost block: { Self → Block };

    ghost holds: { Self → List Record → Type 0 };

    ghost kept: { Self → Kept };

    ghost must_read: { Self → Bool };

    ghost is_sound: { Self → Type 0 };

    ghost is_up: { Self → Type 0 };

    /// The replay of the records. The list stays as it is, and commits are judged by this answer from now on.
    ///
    /// `BadStore`, `StoreFailed` and `NoMemory` leave everything as it was.
    fn read(&mut self) -> Result<Kept, KeepError>
        ensures answer { IfOk result (λ k. k ≡ kept self.new) }
        ensures of_block { IfOk result (λ k. k.block ≡ block self.old) }
        ensures is_read { OnOk result (must_read self.new ≡ false) }

        ensures refusal { IfErr result RefusesRead }
        ensures refused { OnErr result ((kept self.new ≡ kept self.old) × (must_read self.new ≡ must_read self.old)) }
        ensures bad { result ≡ Err BadStore → is_sound self.old → is_up self.new
            → (xs : List Record) → holds self.old xs → AreGood (without_records (block self.old)) xs → ⊥ }

        ensures block { block self.new ≡ block self.old }
        ensures up { is_up self.new → is_up self.old }
        ensures sound { is_sound self.old → is_up self.new → is_sound self.new }
        ensures same { is_sound self.old → is_up self.new → (xs : List Record) → holds self.old xs
            → holds self.new xs };

    /// Adds a record as the last.
    ///
    /// `StoreFailed` if a read is due, then `AddressTaken`, then `RandomTaken`, each among records of its kind, or
    /// `NotReserved`, of a release: these add none. A later `StoreFailed` or `NoMemory` leaves the list with the record
    /// or without it, and a read is due.
    fn commit(&mut self, added: Record) -> Result<(), KeepError>
        requires { Fits (block self.old) added }

        ensures read_first { must_read self.old ≡ true → result ≡ Err StoreFailed }
        ensures address_taken { (result ≡ Err AddressTaken)
            ↔ ((must_read self.old ≡ false) × IsAddressTaken (kept self.old) added) }
        ensures random_taken { (result ≡ Err RandomTaken)
            ↔ ((must_read self.old ≡ false) × IsRandomTaken (kept self.old) added) }
        ensures not_reserved { (result ≡ Err NotReserved)
            ↔ ((must_read self.old ≡ false) × IsNotReserved (kept self.old) added) }
        ensures refusal { IfErr result RefusesCommit }

        ensures ok { OnOk result ((kept self.new ≡ with_record (kept self.old) added) × (must_read self.new ≡ false)) }
        ensures refused { IsRefused result → (kept self.new ≡ kept self.old) × (must_read self.new ≡ false) }
        ensures failed { HasFailed result → must_read self.new ≡ true }

        ensures block { block self.new ≡ block self.old }
        ensures up { is_up self.new → is_up self.old }
        ensures sound { is_sound self.old → is_up self.new → is_sound self.new }
        ensures adds { OnOk result (is_sound self.old → is_up self.new
            → (xs : List Record) → holds self.old xs → holds self.new (xs ++ added ∷ [])) }
        ensures adds_none { ((must_read self.old ≡ true) ⊎ IsRefused result) → is_sound self.old → is_up self.new
            → (xs : List Record) → holds self.old xs → holds self.new xs }
        ensures adds_or_not { HasFailed result → is_sound self.old → is_up self.new
            → (xs : List Record) → holds self.old xs → holds self.new xs ⊎ holds self.new (xs ++ added ∷ []) };

    ghost has_records: { (s : Self) → is_sound s → (xs : List Record) × holds s xs };

    ghost replay: { (s : Self) (xs : List Record) → is_sound s → must_read s ≡ false → holds s xs
        → IsReplay (block s) xs (kept s) };
}
