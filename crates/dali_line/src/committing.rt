ghost use Rattle.std.specs.Prelude.{◌≡◌, ◌⊎◌, List, [], ◌∷◌, ◌++◌, true};
ghost use Rattle.dali_script.specs.declared.records.Record.{Record};
ghost use Rattle.dali_line.specs.Leaves.{IsStored};

use dali_reserve::Keep;
use dali_script::Record;

/// Whether the store has a record then. It is committed, if the store answers its records and they do not show it yet,
/// and if it fits them.
///
/// They show it if an earlier worker committed it and could not tell.
#[tactic(auto, using(crate::proofs::Storing::there_stored))]
pub(crate) fn try_commit<K: Keep>(keep: &mut K, added: &Record) -> bool
    ensures block { K.block keep.new ≡ K.block keep.old }
    ensures up { K.is_up keep.new → K.is_up keep.old }
    ensures sound { K.is_sound keep.old → K.is_up keep.new → K.is_sound keep.new }
    ensures list { K.is_sound keep.old → K.is_up keep.new → (xs : List Record) → K.holds keep.old xs
        → K.holds keep.new xs ⊎ K.holds keep.new (xs ++ added.now ∷ []) }
    ensures kept { result ≡ true → K.is_sound keep.old → K.is_up keep.new → (xs : List Record)
        → K.holds keep.old xs → (K.holds keep.new xs × IsStored (K.block keep.new) xs added.now)
        ⊎ K.holds keep.new (xs ++ added.now ∷ []) }
{
    match keep.read() {
        Ok(kept) => {
            if kept.shows(added) {
                true
            } else if kept.fits(added) {
                keep.commit(*added).is_ok()
            } else {
                false
            }
        }
        Err(_) => false,
    }
}
