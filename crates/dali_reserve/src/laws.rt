//! What the replay of a list of records is, in the words that a worker over a store uses. Programs don't call these.

ghost use Rattle.std.specs.Prelude.{◌≡◌, List, [], ◌∷◌, ◌++◌};
ghost use Rattle.dali_script.specs.declared.block.Block.{Block};
ghost use Rattle.dali_script.specs.declared.records.Record.{Record};
ghost use Rattle.dali_script.specs.Records.{Kept, IsKept, without_records, with_record};
ghost use Rattle.dali_reserve.specs.Store.{IsGood, IsReplay};

/// No records are replayed to none, one more to what is kept with it; a list has one replay, which is of the list's
/// block, and of which all holds that holds of records that are kept.
pub fn replays_grow_by_a_record()
    ensures none { (b : Block) → IsReplay b [] (without_records b) }
    ensures more { (b : Block) (xs : List Record) (k : Kept) (x : Record) → IsReplay b xs k → IsGood k x
        → IsReplay b (xs ++ x ∷ []) (with_record k x) }
    ensures less { (b : Block) (xs : List Record) (k : Kept) (x : Record) → IsReplay b (xs ++ x ∷ []) k
        → (before : Kept) × IsReplay b xs before × IsGood before x × (k ≡ with_record before x) }
    ensures one { (b : Block) (xs : List Record) (j k : Kept) → IsReplay b xs j → IsReplay b xs k → j ≡ k }
    ensures block { (b : Block) (xs : List Record) (k : Kept) → IsReplay b xs k → k.block ≡ b }
    ensures kept { (b : Block) (xs : List Record) (k : Kept) → IsReplay b xs k → IsKept k }
{}
