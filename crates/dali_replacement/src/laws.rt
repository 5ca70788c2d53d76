//! What follows from the definitions of a swap. Programs don't call these.

ghost use Rattle.std.specs.Prelude.{◌≡◌, ◌≢◌, ℕ, ◌+◌, ◌*◌, ◌<◌, ◌≤◌, ◌⊎◌, false, Some};
ghost use Rattle.dali_replacement.specs.declared.swap.Step.{Step};
ghost use Rattle.dali_replacement.specs.declared.swap.Step.TheVariants.{Forget};
ghost use Rattle.dali_replacement.specs.Swap.{lies_at, step_after, file_of, done, IsOld, IsNew};

/// A step changes what lies at the place of its own file, as its name says, and so leads to the next moment. A swap
/// that is taken back removes the journals that were written, the last one first, and so leads to the moment before.
pub fn a_step_leads_to_the_next_moment()
    ensures within { (n m : ℕ) (s : Step) → step_after n m ≡ Some s → file_of s < n }
    ensures own { (n m : ℕ) (s : Step) → step_after n m ≡ Some s
        → lies_at n (m + 1) (file_of s) ≡ done s (lies_at n m (file_of s)) }
    ensures others { (n m i : ℕ) (s : Step) → step_after n m ≡ Some s → i < n → i ≢ file_of s
        → lies_at n (m + 1) i ≡ lies_at n m i }
    ensures back { (n m : ℕ) → m < n → lies_at n m m ≡ done (Forget m) (lies_at n (m + 1) m) }
    ensures others_back { (n m i : ℕ) → m < n → i < n → i ≢ m → lies_at n m i ≡ lies_at n (m + 1) i }
{}

/// If one file has no journal beside it, and so can be read, all files are old or all are new. No file is moved
/// before each journal is written, and none is left to be moved when the first journal is removed.
pub fn no_moment_has_two_truths()
    ensures one { (n m i : ℕ) → i < n → (lies_at n m i).journal ≡ false
        → ((j : ℕ) → j < n → IsOld (lies_at n m j)) ⊎ ((j : ℕ) → j < n → IsNew (lies_at n m j)) }
    ensures written { (n m i : ℕ) → m ≤ n → i < n → IsOld (lies_at n m i) }
    ensures moved { (n m i : ℕ) → 3 * n ≤ m → i < n → IsNew (lies_at n m i) }
    ensures begun { (n i : ℕ) → i < n → (lies_at n 0 i).journal ≡ false }
    ensures ended { (n i : ℕ) → i < n → (lies_at n (4 * n) i).journal ≡ false }
{}
