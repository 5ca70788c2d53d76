ghost use Rattle.std.specs.Prelude.{◌≡◌, ◌↔◌, ◌⊎◌, List, [], ◌∷◌, ◌++◌, true, false, IfOk, IfErr, Err, OnOk, OnErr};
ghost use Rattle.std.specs.Prelude.{IsTrue};
ghost use Rattle.sqlite.specs.Tree.{Trees};
ghost use Rattle.sqlite_trees.specs.View.{IsClean, IsQuiet};
ghost use Rattle.sqlite.specs.State.{HasCleanDisk, IsLive};
ghost use Rattle.sqlite.specs.Held.{Held, state, AreDatabases};
ghost use Rattle.dali_script.specs.declared.records.Record.{Record};
ghost use Rattle.dali_script.specs.declared.records.AddError.TheVariants as add;
ghost use Rattle.dali_script.specs.Records.{without_records, with_record, Fits, IsAddressTaken, IsRandomTaken};
ghost use Rattle.dali_script.specs.Records.{IsNotReserved};
ghost use Rattle.dali_reserve.specs.declared.error.KeepError.TheVariants.{BadStore, StoreFailed};
ghost use Rattle.dali_reserve.specs.declared.error.KeepError.TheVariants.{AddressTaken, RandomTaken, NotReserved};
ghost use Rattle.dali_reserve.specs.Refusals.{RefusesRead, RefusesCommit, IsRefused, HasFailed};
ghost use Rattle.dali_reserve.specs.Store.{AreGood};
ghost use Rattle.dali_sqlite.specs.Table.{no_schema};
ghost use Rattle.dali_sqlite.specs.Stored.{IsTableOf, Holds, IsUp, IsOurs};
ghost use Rattle.dali_sqlite.specs.Keep.{connection_of, shown_by, block_of, kept_by, must_read, IsSound};

use crate::replay::replay;
use crate::statements::leaves_list;
use crate::table::ensure_table;
use crate::write::write;
use dali_reserve::{Keep, KeepError};
use dali_script::{AddError, Block, Kept, Record};
use sqlite::{Alter, Connection};

/// A store in a SQLite database, over a connection that is handed in.
///
/// The database has one table, and each record is one row of it:
///
/// ```sql
/// CREATE TABLE record(
///   seq INTEGER PRIMARY KEY,
///   kind INTEGER NOT NULL,
///   address INTEGER NOT NULL CHECK(address BETWEEN 0 AND 63),
///   random INTEGER NOT NULL CHECK(random BETWEEN 0 AND 16777214))
/// ```
///
/// `seq` counts the records from 1 on, in the order of their commits. `kind` is the code of the record
/// (`Record::code`), `address` its short address, and `random` the random address of the gear.
///
/// Contracts see what lies under the store as what its connection shows (`state` of `sqlite`): the list that is held is
/// the rows of the table, and what is held is committed (`Holds` in `specs/Stored`). They are promised if the
/// connection is open and its disk has returned what was written (`IsUp`). Memory does that always; a file does it
/// while no other program writes it. Nothing is promised of a database that has another table, index or view beside
/// this one, or a table of this name that was made by another text.
pub struct SqliteKeep<S: Alter> {
    conn: Connection<S>,
    /// What the records are known to be, and how many there are, unless a read is due.
    kept: Kept,
    count: usize,
    must_read: bool,
}

impl<S: Alter + Drop> Drop for SqliteKeep<S> {
    fn drop(self) {
        let SqliteKeep {
            conn: _,
            kept: _,
            count: _,
            must_read: _,
        } = self;
    }
}

impl<S: Alter + Drop> SqliteKeep<S> {
    /// A store over this connection, for a controller with this block. It makes the table if it isn't there, and
    /// reads it, so that the first commit needs no read.
    ///
    /// The connection is to show an empty database, or one that has this table alone (`IsOurs`). If another table,
    /// index or view stands beside it, nothing is promised: neither what the store holds, nor what becomes of the
    /// others, nor that it is refused. A refusal drops the connection:
    ///
    /// - 5 `BadStore`: the table's rows are no list of records of this block. That is so if `seq` isn't 1, 2, ..
    ///   without a gap, if a value is no whole number in the range of its column, if a kind is no record's code,
    ///   if a reservation lies outside the block, if an address or a random address stands in two records of one
    ///   kind, or if one is released that is not reserved so. `last` of the clause `bad` is the connection as it was
    ///   dropped: if its disk had returned what was written to it so far, as memory always has, the database held no
    ///   such list. Of a file whose disk returned something else nothing is said.
    /// - 2 `StoreFailed`: the connection is inside a transaction, a table of this name cannot be read so, or the
    ///   disk failed.
    /// - 1 `NoMemory`.
    pub fn over(mut conn: Connection<S>, block: Block) -> Result<SqliteKeep<S>, KeepError>
        ensures block { IfOk result (λ k. block_of k ≡ block) }
        ensures read { IfOk result (λ k. must_read k ≡ false) }
        ensures sound { IfOk result (λ k. IsUp (shown_by S.Store k) → IsOurs (state S.Store conn)
            → IsSound S.Store k) }
        ensures same { IfOk result (λ k. IsUp (shown_by S.Store k) → (xs : List Record)
            → Holds (state S.Store conn) xs → Holds (shown_by S.Store k) xs) }
        ensures empty { IfOk result (λ k. IsUp (shown_by S.Store k)
            → (state S.Store conn).now.schema ≡ no_schema → Holds (shown_by S.Store k) []) }
        ensures up { IfOk result (λ k. IsUp (shown_by S.Store k) → IsUp (state S.Store conn)) }
        ensures refusal { IfErr result RefusesRead }
        ensures bad { result ≡ Err BadStore → (last : Held S) × (HasCleanDisk (state S.Store last)
            → (xs : List Record) → Holds (state S.Store conn) xs → AreGood (without_records block) xs → ⊥) }
    {
        ensure_table(&mut conn)?;
        let (kept, count) = replay(&mut conn, block)?;
        Ok(SqliteKeep {
            conn,
            kept,
            count,
            must_read: false,
        })
    }

    /// The connection, whose rows are those of its tables alone while it is open.
    pub(crate) fn into_live(self) -> Connection<S>
        ensures connection { result ≡ connection_of self }
        ensures live { IsLive (state S.Store result) }
    {
        let conn = self.into_connection();
        // For what it says of the rows.
        let _ = conn.schema();
        conn
    }

    /// What lies under the connection, as a stop leaves it.
    pub(crate) fn into_store(self) -> S
        ensures live { IsLive (shown_by S.Store self) }
        ensures numbered { IsClean (S.Store.view result) → IsTrue (S.Store.view result).is_numbered }
        ensures sound { IsClean (S.Store.view result) → AreDatabases (S.Store.recovers result) }
        ensures quiet { IsQuiet S.Store.view S.Store.faults S.Store.recovers S.Store.is_shielded
            (connection_of self).store result }
    {
        self.into_live().into_store()
    }

    /// The connection, with what is stored: to close its files, or to hand it to another program.
    pub fn into_connection(self) -> Connection<S>
        ensures { result ≡ connection_of self }
    {
        let SqliteKeep {
            conn,
            kept: _,
            count: _,
            must_read: _,
        } = self;
        conn
    }
}

impl<S: Alter + Drop> Keep for SqliteKeep<S> {
    ghost block = { block_of };

    ghost holds = { λ k xs. Holds (shown_by S.Store k) xs };

    ghost kept = { kept_by };

    ghost must_read = { must_read };

    ghost is_sound = { IsSound S.Store };

    ghost is_up = { λ k. IsUp (shown_by S.Store k) };

    ghost has_records = { λ k sound. (sound.records, sound.held) };

    ghost replay = { λ k xs sound read held. (sound.known read xs held).0 };

    /// The replay of the table's rows, by `seq`. `BadStore` as of `over`.
    ///
    /// A stop within it or after it leaves no more than one before it (`crash`).
    fn read(&mut self) -> Result<Kept, KeepError>
        ensures answer { IfOk result (λ k. k ≡ kept_by self.new) }
        ensures of_block { IfOk result (λ k. k.block ≡ block_of self.old) }
        ensures is_read { OnOk result (must_read self.new ≡ false) }
        ensures refusal { IfErr result RefusesRead }
        ensures refused { OnErr result ((kept_by self.new ≡ kept_by self.old)
            × (must_read self.new ≡ must_read self.old)) }
        ensures bad { result ≡ Err BadStore → IsSound S.Store self.old → IsUp (shown_by S.Store self.new)
            → (xs : List Record) → Holds (shown_by S.Store self.old) xs
            → AreGood (without_records (block_of self.old)) xs → ⊥ }
        ensures block { block_of self.new ≡ block_of self.old }
        ensures up { IsUp (shown_by S.Store self.new) → IsUp (shown_by S.Store self.old) }
        ensures sound { IsSound S.Store self.old → IsUp (shown_by S.Store self.new) → IsSound S.Store self.new }
        ensures same { IsSound S.Store self.old → IsUp (shown_by S.Store self.new) → (xs : List Record)
            → Holds (shown_by S.Store self.old) xs → Holds (shown_by S.Store self.new) xs }
        ensures crash { IsSound S.Store self.old → HasCleanDisk (shown_by S.Store self.new) → (trees : Trees)
            → (shown_by S.Store self.new).may_leave trees → (shown_by S.Store self.old).may_leave trees }
    {
        let (kept, count) = replay(&mut self.conn, self.kept.block())?;
        let answer = kept.copy();
        self.kept = kept;
        self.count = count;
        self.must_read = false;
        Ok(answer)
    }

    /// Adds one row, in one statement that SQLite commits. It takes memory.
    ///
    /// `AddressTaken`, `RandomTaken` and `NotReserved` are told before the statement. There are at most
    /// 9,223,372,036,854,775,807 records; one more is `StoreFailed`.
    ///
    /// A stop within it or after it leaves what one before it might have left, or the list with the record (`crash`);
    /// so of a store that is up, the list without the record or with it (`leaves`). A stop after an `Ok` leaves the
    /// list with the record (`durable`).
    fn commit(&mut self, added: Record) -> Result<(), KeepError>
        requires { Fits (block_of self.old) added }
        ensures read_first { must_read self.old ≡ true → result ≡ Err StoreFailed }
        ensures address_taken { (result ≡ Err AddressTaken)
            ↔ ((must_read self.old ≡ false) × IsAddressTaken (kept_by self.old) added) }
        ensures random_taken { (result ≡ Err RandomTaken)
            ↔ ((must_read self.old ≡ false) × IsRandomTaken (kept_by self.old) added) }
        ensures not_reserved { (result ≡ Err NotReserved)
            ↔ ((must_read self.old ≡ false) × IsNotReserved (kept_by self.old) added) }
        ensures refusal { IfErr result RefusesCommit }
        ensures ok { OnOk result ((kept_by self.new ≡ with_record (kept_by self.old) added)
            × (must_read self.new ≡ false)) }
        ensures refused { IsRefused result → (kept_by self.new ≡ kept_by self.old) × (must_read self.new ≡ false) }
        ensures failed { HasFailed result → must_read self.new ≡ true }
        ensures block { block_of self.new ≡ block_of self.old }
        ensures up { IsUp (shown_by S.Store self.new) → IsUp (shown_by S.Store self.old) }
        ensures sound { IsSound S.Store self.old → IsUp (shown_by S.Store self.new) → IsSound S.Store self.new }
        ensures adds { OnOk result (IsSound S.Store self.old → IsUp (shown_by S.Store self.new)
            → (xs : List Record) → Holds (shown_by S.Store self.old) xs
            → Holds (shown_by S.Store self.new) (xs ++ added ∷ [])) }
        ensures adds_none { ((must_read self.old ≡ true) ⊎ IsRefused result) → IsSound S.Store self.old
            → IsUp (shown_by S.Store self.new) → (xs : List Record) → Holds (shown_by S.Store self.old) xs
            → Holds (shown_by S.Store self.new) xs }
        ensures adds_or_not { HasFailed result → IsSound S.Store self.old → IsUp (shown_by S.Store self.new)
            → (xs : List Record) → Holds (shown_by S.Store self.old) xs → Holds (shown_by S.Store self.new) xs
            ⊎ Holds (shown_by S.Store self.new) (xs ++ added ∷ []) }
        ensures crash { IsSound S.Store self.old → HasCleanDisk (shown_by S.Store self.new) → (xs : List Record)
            → Holds (shown_by S.Store self.old) xs → (trees : Trees) → (shown_by S.Store self.new).may_leave trees
            → (shown_by S.Store self.old).may_leave trees ⊎ IsTableOf trees (xs ++ added ∷ []) }
        ensures leaves { IsSound S.Store self.old → IsUp (shown_by S.Store self.old)
            → HasCleanDisk (shown_by S.Store self.new) → (xs : List Record) → Holds (shown_by S.Store self.old) xs
            → (trees : Trees) → (shown_by S.Store self.new).may_leave trees
            → IsTableOf trees xs ⊎ IsTableOf trees (xs ++ added ∷ []) }
        ensures durable { OnOk result (IsSound S.Store self.old → HasCleanDisk (shown_by S.Store self.new)
            → (xs : List Record) → Holds (shown_by S.Store self.old) xs → (trees : Trees)
            → (shown_by S.Store self.new).may_leave trees → IsTableOf trees (xs ++ added ∷ [])) }
    {
        leaves_list(&self.conn);
        if self.must_read {
            return Err(KeepError::StoreFailed);
        }
        match self.kept.add(added) {
            Ok(()) => {}
            Err(error) => return Err(refused(error)),
        }
        self.must_read = true;
        self.count = write(&mut self.conn, self.count, &added)?;
        self.must_read = false;
        Ok(())
    }
}

/// What a record that is refused is to a store.
fn refused(error: AddError) -> KeepError
    ensures address_taken { (result ≡ AddressTaken) ↔ (error ≡ add.AddressTaken) }
    ensures random_taken { (result ≡ RandomTaken) ↔ (error ≡ add.RandomTaken) }
    ensures not_reserved { (result ≡ NotReserved) ↔ (error ≡ add.NotReserved) }
    ensures refusal { RefusesCommit result }
{
    match error {
        AddError::AddressTaken => KeepError::AddressTaken,
        AddError::RandomTaken => KeepError::RandomTaken,
        AddError::NotReserved => KeepError::NotReserved,
    }
}
