ghost use Rattle.std.specs.Prelude.{◌≡◌, ℕ, ◌+◌, ◌^◌, ◌<◌, ℤ, pos, List, map, IfSome, IfNone, IfErr, OnOk, OnErr};
ghost use Rattle.sqlite.specs.declared.types.Value.TheVariants.{Int};
ghost use Rattle.sqlite.specs.Order.{column};
ghost use Rattle.dali_script.specs.declared.records.Record.{Record};
ghost use Rattle.dali_script.specs.Records.{address_of, random_of, with_record};
ghost use Rattle.dali_reserve.specs.declared.error.KeepError.TheVariants.{BadStore};
ghost use Rattle.dali_reserve.specs.Store.{replay_of, IsGood, AreGood};
ghost use Rattle.dali_sqlite.specs.Rows.{row_of, rows_after, four_of, Spells};

use dali_frame::{Random24, Short};
use dali_reserve::KeepError;
use dali_script::{Kept, Record};
use sqlite::Row;
use sqlite::types::ValueRef;

/// The whole number in a column.
fn number(row: &Row, at: usize) -> Option<i64>
    ensures some { IfSome result (λ n. column row.now at ≡ Int n) }
    ensures none { IfNone result ((n : ℤ) → column row.now at ≡ Int n → ⊥) }
{
    match row.get_ref(at) {
        Ok(ValueRef::Int(number)) => Some(number),
        _ => None,
    }
}

/// The short address in the column `address`.
fn address(row: &Row) -> Option<Short>
    ensures some { IfSome result (λ a. column row.now 2 ≡ Int (pos a)) }
    ensures none { IfNone result ((a : ℕ) → a < 64 → column row.now 2 ≡ Int (pos a) → ⊥) }
{
    Short::of(u8::try_from(number(row, 2)?).ok()?)
}

/// The number of 24 bits in the column `random`.
fn random(row: &Row) -> Option<Random24>
    ensures some { IfSome result (λ r. column row.now 3 ≡ Int (pos r)) }
    ensures none { IfNone result ((r : ℕ) → r < 2 ^ 24 → column row.now 3 ≡ Int (pos r) → ⊥) }
{
    Random24::of(u32::try_from(number(row, 3)?).ok()?)
}

/// The record of a row, whatever its `seq`.
fn record_in(row: &Row) -> Option<Record>
    ensures some { IfSome result (λ x. Spells row.now x) }
    ensures none { IfNone result ((x : Record) → address_of x < 64 → random_of x < 2 ^ 24 → Spells row.now x → ⊥) }
{
    let address = address(row)?;
    let random = random(row)?;
    let kind = u8::try_from(number(row, 1)?).ok()?;
    Record::of_code(kind, address, random)
}

/// The record of a row of which so many come before.
fn record_at(row: &Row, before: usize) -> Option<Record>
    requires { before + 1 < 2 ^ 63 }
    ensures some { IfSome result (λ x. four_of row.now ≡ row_of (before + 1) x) }
    ensures none { IfNone result ((x : Record) → address_of x < 64 → random_of x < 2 ^ 24
        → four_of row.now ≡ row_of (before + 1) x → ⊥) }
{
    let seq = (before + 1) as i64;
    if number(row, 0)? == seq {
        record_in(row)
    } else {
        None
    }
}

/// Adds the record of a row of which so many come before.
fn take(kept: &mut Kept, row: &Row, before: usize) -> Result<(), KeepError>
    requires { before + 1 < 2 ^ 63 }
    ensures ok { OnOk result ((x : Record) × (four_of row.now ≡ row_of (before + 1) x) × IsGood kept.old x
        × (kept.new ≡ with_record kept.old x)) }
    ensures bad { OnErr result ((x : Record) → four_of row.now ≡ row_of (before + 1) x → IsGood kept.old x → ⊥) }
    ensures refusal { IfErr result (λ e. e ≡ BadStore) }
{
    let Some(added) = record_at(row, before) else {
        return Err(KeepError::BadStore);
    };
    if !kept.fits(&added) {
        return Err(KeepError::BadStore);
    }
    match kept.add(added) {
        Ok(()) => Ok(()),
        Err(_) => Err(KeepError::BadStore),
    }
}

/// Adds the records of all rows, oldest first.
pub fn take_all(kept: &mut Kept, rows: &[Row]) -> Result<(), KeepError>
    ensures ok { OnOk result ((xs : List Record) × (map four_of rows.now ≡ rows_after 0 xs) × AreGood kept.old xs
        × (kept.new ≡ replay_of kept.old xs)) }
    ensures bad { OnErr result ((xs : List Record) → map four_of rows.now ≡ rows_after 0 xs → AreGood kept.old xs
        → ⊥) }
    ensures refusal { IfErr result (λ e. e ≡ BadStore) }
{
    'rows: for (before, row) in rows.iter().enumerate() {
        take(kept, row, before)?;
    }
    Ok(())
}
