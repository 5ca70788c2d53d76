//! What the tables of a site have, gathered into one, and filled into other records.

ghost use Rattle.std.specs.Prelude.{◌≡◌, ◌≢◌, ◌<◌, [], ◌∷◌, IfOk, OnOk};
ghost use Rattle.dali_script.specs.Records.{Has};
ghost use Rattle.dali_replacement.specs.Tables.{AreShort, HasAllBut, HasAll, Keeps, KeepsReserved, Lacks, Spares};
ghost use Rattle.dali_replacement.specs.Tables.{IsGathered, Reserves, IsOf, AreOf};
ghost use Rattle.dali_replacement.specs.Filling.{Fills, PutsOnly};

use crate::tables::has;
use dali_frame::Short;
use dali_reserve::{Keep, KeepError};
use dali_script::{Block, Kept, Pair, Record};

/// Adds a gear to a table, if it is not there. Else which short address another gear has, or which other one this
/// gear has.
#[tactic(auto, using(crate::proofs::Filled::enrolling))]
fn add(all: &mut Kept, address: Short, pair: Pair) -> Result<(), Short>
    requires { address ≡ pair.0 }
    ensures has { OnOk result (Has all.new.enrolled pair × Keeps all.old all.new × Spares pair all.old all.new) }
    ensures of { OnOk result (IsOf all.new.enrolled all.old.enrolled (pair ∷ [])) }
    ensures same { OnOk result (all.new.reserved ≡ all.old.reserved) }
{
    let record = Record::Enrol(address, pair.random());
    if all.shows(&record) {
        return Ok(());
    }
    if all.fits(&record) && all.add(record).is_ok() {
        Ok(())
    } else {
        Err(address)
    }
}

/// Adds a gear to a table so, unless it is the one with this short address.
fn add_other(all: &mut Kept, pair: Pair, number: u8) -> Result<(), Short>
    requires { pair.0 < 64 }
    ensures has { OnOk result (pair.0 ≢ number → Has all.new.enrolled pair) }
    ensures keeps { OnOk result (Keeps all.old all.new) }
    ensures lacks { OnOk result (Lacks number all.old → Lacks number all.new) }
    ensures of { OnOk result (IsOf all.new.enrolled all.old.enrolled (pair ∷ [])) }
    ensures same { OnOk result (all.new.reserved ≡ all.old.reserved) }
{
    let Some(address) = Short::of(pair.address()) else {
        // It is required that the address is below 64.
        unreachable!();
    };
    if pair.address() == number {
        Ok(())
    } else {
        add(all, address, pair)
    }
}

/// Adds all gear of a list to a table so, but the one with this short address.
#[tactic(auto, using(crate::proofs::Every::all_but_more, crate::proofs::Filled::of_more))]
fn add_all(all: &mut Kept, pairs: &[Pair], number: u8) -> Result<(), Short>
    requires { AreShort pairs.now }
    ensures all { OnOk result (HasAllBut number pairs.now all.new) }
    ensures keeps { OnOk result (Keeps all.old all.new) }
    ensures lacks { OnOk result (Lacks number all.old → Lacks number all.new) }
    ensures of { OnOk result (IsOf all.new.enrolled all.old.enrolled pairs.now) }
    ensures same { OnOk result (all.new.reserved ≡ all.old.reserved) }
{
    let [pair, more @ ..] = pairs else {
        return Ok(());
    };
    add_other(all, *pair, number)?;
    add_all(all, more, number)
}

/// Adds all gear of tables to another one so, but the one with this short address.
#[tactic(auto, using(crate::proofs::Every::kept_are_short, crate::proofs::Filled::of_more_tables))]
fn gather(all: &mut Kept, tables: &[Kept], number: u8) -> Result<(), Short>
    ensures all { OnOk result (IsGathered number tables.now all.new) }
    ensures keeps { OnOk result (Keeps all.old all.new) }
    ensures lacks { OnOk result (Lacks number all.old → Lacks number all.new) }
    ensures of { OnOk result (AreOf all.new.enrolled all.old.enrolled tables.now) }
    ensures same { OnOk result (all.new.reserved ≡ all.old.reserved) }
{
    let [table, more @ ..] = tables else {
        return Ok(());
    };
    add_all(all, table.enrolled(), number)?;
    gather(all, more, number)
}

/// A table of all gear that tables have, but the one which is replaced; or the short address about which two of them
/// disagree.
pub fn gathered(tables: &[Kept], short: Short) -> Result<Kept, Short>
    ensures all { IfOk result (λ all. IsGathered short tables.now all) }
    ensures without { IfOk result (λ all. Lacks short all) }
    ensures of { IfOk result (λ all. AreOf all.enrolled [] tables.now) }
    ensures none { IfOk result (λ all. all.reserved ≡ []) }
{
    let mut all = Kept::new(Block::ALL);
    gather(&mut all, tables, short.number())?;
    Ok(all)
}

/// A table of all gear that tables have; or the short address about which two of them disagree.
pub fn gathered_whole(tables: &[Kept]) -> Result<Kept, Short>
    ensures all { IfOk result (λ all. IsGathered 64 tables.now all) }
    ensures of { IfOk result (λ all. AreOf all.enrolled [] tables.now) }
    ensures none { IfOk result (λ all. all.reserved ≡ []) }
{
    let mut all = Kept::new(Block::ALL);
    // No short address is this number.
    gather(&mut all, tables, 64)?;
    Ok(all)
}

/// Enrols a pair in a store, if its records, as they were read, do not have it.
#[tactic(auto, using(crate::proofs::Every::enrolled_has, crate::proofs::Every::enrolled_keeps))]
fn enrol<K: Keep>(store: &mut K, kept: &Kept, pair: Pair) -> Result<(), KeepError>
    requires short { pair.0 < 64 }
    requires has { Keeps kept.now (K.kept store.old) }
    ensures has { OnOk result (Has (K.kept store.new).enrolled pair) }
    ensures keeps { OnOk result (Keeps (K.kept store.old) (K.kept store.new)) }
    ensures same { OnOk result ((K.kept store.new).reserved ≡ (K.kept store.old).reserved) }
    ensures block { K.block store.new ≡ K.block store.old }
    ensures only { PutsOnly K.is_up K.is_sound K.holds (Fills (pair ∷ []) []) store.old store.new }
{
    let Some(address) = Short::of(pair.address()) else {
        // It is required that the address is below 64.
        unreachable!();
    };
    let record = Record::Enrol(address, pair.random());
    if kept.shows(&record) {
        return Ok(());
    }
    if !kept.fits(&record) {
        return Err(KeepError::BadStore);
    }
    store.commit(record)
}

/// Enrols pairs in a store so.
#[tactic(auto, using(crate::proofs::Filled::all_more, crate::proofs::Filled::keeps_on))]
fn enrol_all<K: Keep>(store: &mut K, kept: &Kept, pairs: &[Pair]) -> Result<(), KeepError>
    requires short { AreShort pairs.now }
    requires has { Keeps kept.now (K.kept store.old) }
    ensures all { OnOk result (HasAll pairs.now (K.kept store.new)) }
    ensures keeps { OnOk result (Keeps (K.kept store.old) (K.kept store.new)) }
    ensures same { OnOk result ((K.kept store.new).reserved ≡ (K.kept store.old).reserved) }
    ensures block { K.block store.new ≡ K.block store.old }
    ensures only { PutsOnly K.is_up K.is_sound K.holds (Fills pairs.now []) store.old store.new }
{
    let [pair, more @ ..] = pairs else {
        return Ok(());
    };
    enrol(store, kept, *pair)?;
    enrol_all(store, kept, more)
}

/// Enrols all gear of a table in a store.
#[tactic(auto, using(crate::proofs::Every::kept_are_short, crate::proofs::Filled::keeps_itself))]
pub fn fill<K: Keep>(store: &mut K, table: &Kept) -> Result<(), KeepError>
    ensures all { OnOk result (Keeps table.now (K.kept store.new)) }
    ensures block { K.block store.new ≡ K.block store.old }
    ensures only { PutsOnly K.is_up K.is_sound K.holds (Fills table.now.enrolled []) store.old store.new }
{
    let kept = store.read()?;
    enrol_all(store, &kept, table.enrolled())
}

/// Reserves a pair in a store, if its records, as they were read, do not have it reserved.
#[tactic(auto, using(crate::proofs::Filled::reserved_has, crate::proofs::Filled::reserved_keeps))]
fn reserve<K: Keep>(store: &mut K, kept: &Kept, pair: Pair) -> Result<(), KeepError>
    requires block { kept.now.block ≡ K.block store.old }
    requires has { KeepsReserved kept.now (K.kept store.old) }
    ensures has { OnOk result (Has (K.kept store.new).reserved pair) }
    ensures keeps { OnOk result (KeepsReserved (K.kept store.old) (K.kept store.new)) }
    ensures same { OnOk result ((K.kept store.new).enrolled ≡ (K.kept store.old).enrolled) }
    ensures block { K.block store.new ≡ K.block store.old }
    ensures only { PutsOnly K.is_up K.is_sound K.holds (Fills (pair ∷ []) (pair ∷ [])) store.old store.new }
{
    let Some(address) = Short::of(pair.address()) else {
        return Err(KeepError::BadStore);
    };
    let record = Record::Reserve(address, pair.random());
    if kept.shows(&record) {
        return Ok(());
    }
    if !kept.fits(&record) {
        return Err(KeepError::BadStore);
    }
    store.commit(record)
}

/// Reserves a pair in a store so, if a table has it.
fn reserve_if<K: Keep>(
    store: &mut K,
    kept: &Kept,
    table: &Kept,
    pair: Pair,
) -> Result<(), KeepError>
    requires block { kept.now.block ≡ K.block store.old }
    requires has { KeepsReserved kept.now (K.kept store.old) }
    ensures has { OnOk result (Has table.now.enrolled pair → Has (K.kept store.new).reserved pair) }
    ensures keeps { OnOk result (KeepsReserved (K.kept store.old) (K.kept store.new)) }
    ensures same { OnOk result ((K.kept store.new).enrolled ≡ (K.kept store.old).enrolled) }
    ensures block { K.block store.new ≡ K.block store.old }
    ensures only { PutsOnly K.is_up K.is_sound K.holds (Fills table.now.enrolled (pair ∷ [])) store.old store.new }
{
    if has(table.enrolled(), pair) {
        reserve(store, kept, pair)
    } else {
        Ok(())
    }
}

/// Reserves pairs in a store so, as far as a table has them.
#[tactic(auto, using(crate::proofs::Filled::reserves_more, crate::proofs::Filled::reserves_on))]
fn reserve_all<K: Keep>(
    store: &mut K,
    kept: &Kept,
    table: &Kept,
    pairs: &[Pair],
) -> Result<(), KeepError>
    requires block { kept.now.block ≡ K.block store.old }
    requires has { KeepsReserved kept.now (K.kept store.old) }
    ensures all { OnOk result (Reserves pairs.now table.now (K.kept store.new)) }
    ensures keeps { OnOk result (KeepsReserved (K.kept store.old) (K.kept store.new)) }
    ensures same { OnOk result ((K.kept store.new).enrolled ≡ (K.kept store.old).enrolled) }
    ensures block { K.block store.new ≡ K.block store.old }
    ensures only { PutsOnly K.is_up K.is_sound K.holds (Fills table.now.enrolled pairs.now) store.old store.new }
{
    let [pair, more @ ..] = pairs else {
        return Ok(());
    };
    reserve_if(store, kept, table, *pair)?;
    reserve_all(store, kept, table, more)
}

/// Enrols all gear of a table in a store, and reserves pairs, as far as they are gear of the table.
#[tactic(auto, using(crate::proofs::Filled::filling))]
pub fn refill<K: Keep>(store: &mut K, table: &Kept, reserved: &[Pair]) -> Result<(), KeepError>
    ensures all { OnOk result (Keeps table.now (K.kept store.new)) }
    ensures reserved { OnOk result (Reserves reserved.now table.now (K.kept store.new)) }
    ensures block { K.block store.new ≡ K.block store.old }
    ensures only { PutsOnly K.is_up K.is_sound K.holds (Fills table.now.enrolled reserved.now) store.old store.new }
{
    let kept = store.read()?;
    enrol_all(store, &kept, table.enrolled())?;
    reserve_all(store, &kept, table, reserved)
}
