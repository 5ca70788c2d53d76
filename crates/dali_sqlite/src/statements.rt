ghost use Rattle.std.specs.Prelude.{◌≡◌, ◌⊎◌, ◌+◌, pos, false, List, [], ◌∷◌, ◌++◌, length, map, codes, IfOk, IfErr};
ghost use Rattle.std.specs.Prelude.{OnOk, OnErr, is_some};
ghost use Rattle.sqlite.specs.declared.types.Value.TheVariants.{Int};
ghost use Rattle.sqlite.specs.Tree.{Trees};
ghost use Rattle.sqlite.specs.State.{HasCleanDisk};
ghost use Rattle.sqlite.specs.Held.{state};
ghost use Rattle.sqlite_schema.specs.Names.{table_named};
ghost use Rattle.dali_script.specs.declared.records.Record.{Record};
ghost use Rattle.dali_sqlite.specs.Table.{no_schema};
ghost use Rattle.dali_sqlite.specs.Rows.{row_of, rows_after, four_of};
ghost use Rattle.dali_sqlite.specs.Stored.{IsTableOf, HasTable, Holds, IsUp};
ghost use Rattle.dali_sqlite.specs.Refused.{HasFailed};

use crate::copy::TABLE;
use crate::refused::refusal;
use dali_reserve::KeepError;
use sqlite::{Alter, Connection, Error, Row, params};

/// Whether the database has a table of this name.
pub fn has_table<S: Alter>(conn: &Connection<S>) -> bool
    ensures { result ≡ is_some (table_named (state S.Store conn.now).now.schema (codes "record")) }
{
    conn.schema().table_named(b"record").is_some()
}

/// What a stop leaves of an open database that holds a list is the list. It does nothing.
pub fn leaves_list<S: Alter>(conn: &Connection<S>)
    ensures { IsUp (state S.Store conn.now) → (xs : List Record) → Holds (state S.Store conn.now) xs
        → (trees : Trees) → (state S.Store conn.now).may_leave trees → IsTableOf trees xs }
{
    // For what it says of the rows: they are those of the tables in the schema.
    let _ = conn.schema();
}

/// Makes the table.
pub fn create<S: Alter>(conn: &mut Connection<S>) -> Result<(), KeepError>
    ensures made { HasCleanDisk (state S.Store conn.new) → OnOk result
        ((state S.Store conn.old).now.schema ≡ no_schema → (state S.Store conn.old).in_transaction ≡ false
        → Holds (state S.Store conn.new) []) }
    ensures up { IsUp (state S.Store conn.new) → IsUp (state S.Store conn.old) }
    ensures refusal { IfErr result HasFailed }
{
    let made = conn.execute(TABLE, &[]);
    match made {
        Ok(_) => Ok(()),
        Err(error) => Err(refusal(error)),
    }
}

/// Adds a row.
pub fn insert<S: Alter>(
    conn: &mut Connection<S>,
    seq: i64,
    kind: u32,
    address: u32,
    random: u32,
) -> Result<(), KeepError>
    ensures added { HasCleanDisk (state S.Store conn.new) → OnOk result ((xs : List Record) (x : Record)
        → Int seq ∷ Int (pos kind) ∷ Int (pos address) ∷ Int (pos random) ∷ [] ≡ row_of (length xs + 1) x
        → Holds (state S.Store conn.old) xs → Holds (state S.Store conn.new) (xs ++ x ∷ [])) }
    ensures same { IsUp (state S.Store conn.new) → OnErr result ((xs : List Record)
        → Holds (state S.Store conn.old) xs → Holds (state S.Store conn.new) xs) }
    ensures crash { HasCleanDisk (state S.Store conn.new) → (xs : List Record) (x : Record)
        → Int seq ∷ Int (pos kind) ∷ Int (pos address) ∷ Int (pos random) ∷ [] ≡ row_of (length xs + 1) x
        → Holds (state S.Store conn.old) xs → (trees : Trees) → (state S.Store conn.new).may_leave trees
        → (state S.Store conn.old).may_leave trees ⊎ IsTableOf trees (xs ++ x ∷ []) }
    ensures durable { HasCleanDisk (state S.Store conn.new) → OnOk result ((xs : List Record) (x : Record)
        → Int seq ∷ Int (pos kind) ∷ Int (pos address) ∷ Int (pos random) ∷ [] ≡ row_of (length xs + 1) x
        → Holds (state S.Store conn.old) xs → (trees : Trees) → (state S.Store conn.new).may_leave trees
        → IsTableOf trees (xs ++ x ∷ [])) }
    ensures up { IsUp (state S.Store conn.new) → IsUp (state S.Store conn.old) }
    ensures refusal { IfErr result HasFailed }
{
    let added = conn.execute(
        "INSERT INTO record VALUES (?1, ?2, ?3, ?4)",
        params![seq, kind, address, random],
    );
    match added {
        Ok(_) => Ok(()),
        Err(error) => Err(refusal(error)),
    }
}

/// All rows, by `seq`.
pub fn select<S: Alter>(conn: &mut Connection<S>) -> Result<Vec<Row>, KeepError>
    ensures exact { HasCleanDisk (state S.Store conn.new) → IfOk result (λ rows. (xs : List Record)
        → Holds (state S.Store conn.old) xs → map four_of rows.items ≡ rows_after 0 xs) }
    ensures found { HasCleanDisk (state S.Store conn.new) → IfOk result (λ rows. HasTable (state S.Store conn.old)
        → (xs : List Record) → map four_of rows.items ≡ rows_after 0 xs → Holds (state S.Store conn.new) xs) }
    ensures open { HasCleanDisk (state S.Store conn.new) → OnOk result (IsUp (state S.Store conn.old)) }
    ensures crash { HasCleanDisk (state S.Store conn.new) → HasTable (state S.Store conn.old)
        → (trees : Trees) → (state S.Store conn.new).may_leave trees → (state S.Store conn.old).may_leave trees }
    ensures same { IsUp (state S.Store conn.new) → (xs : List Record) → Holds (state S.Store conn.old) xs
        → Holds (state S.Store conn.new) xs }
    ensures up { IsUp (state S.Store conn.new) → IsUp (state S.Store conn.old) }
    ensures refusal { IfErr result HasFailed }
{
    match conn.query_all(
        "SELECT seq, kind, address, random FROM record ORDER BY seq",
        &[],
    ) {
        Ok(rows) => Ok(rows),
        Err(error) => Err(refusal(error)),
    }
}

/// Of each table, index, view and trigger: its type, its name and the text that made it.
pub fn objects<S: Alter>(conn: &mut Connection<S>) -> Result<Vec<Row>, Error>
    ensures same { IsUp (state S.Store conn.new) → (xs : List Record) → Holds (state S.Store conn.old) xs
        → Holds (state S.Store conn.new) xs }
    ensures up { IsUp (state S.Store conn.new) → IsUp (state S.Store conn.old) }
{
    conn.query_all("SELECT type, name, sql FROM sqlite_schema", &[])
}
