//! What other programs may leave in the table.

use super::stores::{Deed, done_over};
use super::values::{block, run, same};
use dali_reserve::KeepError;
use dali_script::Block;
use dali_sqlite::SqliteKeep;
use sqlite::{Alter, Connection, Error};
use std::alloc::Global;
use std::process::Abort;
use std::test::Fail;

/// The table of a store.
pub const TABLE: &str = "CREATE TABLE record(
  seq INTEGER PRIMARY KEY,
  kind INTEGER NOT NULL,
  address INTEGER NOT NULL CHECK(address BETWEEN 0 AND 63),
  random INTEGER NOT NULL CHECK(random BETWEEN 0 AND 16777214));";

/// A table of the same columns, which takes all values.
const LOOSE: &str = "CREATE TABLE record(seq INTEGER PRIMARY KEY, kind, address, random);";

/// Another program runs these statements.
fn run_both<S: Alter>(conn: &mut Connection<S>, table: &str, rows: &str) -> Result<(), Error> {
    run(conn, table)?;
    run(conn, rows)
}

/// What a store of this block answers over this connection, on which another program runs these statements before.
fn answer_over<S: Alter + Drop>(
    conn: Connection<S>,
    table: &str,
    rows: &str,
    block: Block,
) -> Result<Result<(), KeepError>, Error> {
    let mut conn = conn;
    match run_both(&mut conn, table, rows) {
        Ok(()) => Ok(SqliteKeep::over(conn, block).map(|_| ())),
        Err(error) => Err(error),
    }
}

/// What a store of the block 0 to 3 answers over such a database in memory.
fn over(alloc: Global, table: &str, rows: &str) -> Result<Result<(), KeepError>, Fail> {
    let block = block(0, 3)?;
    match Connection::open_in_memory(alloc) {
        Ok(conn) => Ok(answer_over(conn, table, rows, block)?),
        Err(error) => Err(Fail::from(error)),
    }
}

/// Each of these leaves a table over which a store is refused so.
fn are_refused(
    rt: &impl Abort,
    alloc: Global,
    table: &str,
    all: &[&str],
    wanted: KeepError,
) -> Result<(), Fail> {
    for rows in all {
        same(rt, &over(alloc, table, rows)?, &Err(wanted));
    }
    Ok(())
}

#[test]
fn a_reservation_outside_the_block_is_a_bad_store(rt: HostRuntime) -> Result<(), Fail> {
    let rows = ["INSERT INTO record VALUES (1, 1, 9, 1)"];
    are_refused(&rt, rt.alloc(), TABLE, &rows, KeepError::BadStore)
}

#[test]
fn rows_that_are_no_list_are_a_bad_store(rt: HostRuntime) -> Result<(), Fail> {
    let rows = [
        // `seq` has a gap, begins at 0, at 2, or below 0.
        "INSERT INTO record VALUES (1, 1, 0, 1), (3, 1, 1, 2)",
        "INSERT INTO record VALUES (0, 1, 0, 1), (1, 1, 1, 2)",
        "INSERT INTO record VALUES (2, 1, 0, 1)",
        "INSERT INTO record VALUES (-1, 1, 0, 1), (1, 1, 1, 2)",
        // Kinds that are unknown.
        "INSERT INTO record VALUES (1, 0, 0, 1)",
        "INSERT INTO record VALUES (1, 4, 0, 1)",
        "INSERT INTO record VALUES (1, 5, 0, 1)",
        "INSERT INTO record VALUES (1, -1, 0, 1)",
        "INSERT INTO record VALUES (1, 4294967297, 0, 1)",
        // A short address, or a random address, in two records of a kind.
        "INSERT INTO record VALUES (1, 1, 0, 1), (2, 1, 0, 2)",
        "INSERT INTO record VALUES (1, 1, 0, 1), (2, 1, 1, 1)",
        "INSERT INTO record VALUES (1, 2, 0, 1), (2, 2, 0, 2)",
        "INSERT INTO record VALUES (1, 2, 0, 1), (2, 2, 1, 1)",
        // A release of what is not reserved: nothing is, nothing is any more, or it is so for another number.
        "INSERT INTO record VALUES (1, 3, 0, 1)",
        "INSERT INTO record VALUES (1, 1, 0, 1), (2, 3, 0, 1), (3, 3, 0, 1)",
        "INSERT INTO record VALUES (1, 1, 0, 1), (2, 3, 0, 2)",
    ];
    are_refused(&rt, rt.alloc(), TABLE, &rows, KeepError::BadStore)
}

#[test]
fn values_outside_their_columns_are_a_bad_store(rt: HostRuntime) -> Result<(), Fail> {
    let rows = [
        // Short addresses and random addresses that are too large, or below 0.
        "INSERT INTO record VALUES (1, 2, 64, 1)",
        "INSERT INTO record VALUES (1, 2, 256, 1)",
        "INSERT INTO record VALUES (1, 2, -1, 1)",
        "INSERT INTO record VALUES (1, 2, 0, 16777215)",
        "INSERT INTO record VALUES (1, 2, 0, 16777216)",
        "INSERT INTO record VALUES (1, 2, 0, 4294967297)",
        "INSERT INTO record VALUES (1, 2, 0, -1)",
        // NULL, a text, a real number and a blob in each column.
        "INSERT INTO record VALUES (1, NULL, 0, 1)",
        "INSERT INTO record VALUES (1, 2, NULL, 1)",
        "INSERT INTO record VALUES (1, 2, 0, NULL)",
        "INSERT INTO record VALUES (1, '2', 0, 1)",
        "INSERT INTO record VALUES (1, 2, '0', 1)",
        "INSERT INTO record VALUES (1, 2, 0, 'one')",
        "INSERT INTO record VALUES (1, 2.0, 0, 1)",
        "INSERT INTO record VALUES (1, 2, 0.5, 1)",
        "INSERT INTO record VALUES (1, 2, 0, 1.0)",
        "INSERT INTO record VALUES (1, x'02', 0, 1)",
        "INSERT INTO record VALUES (1, 2, x'00', 1)",
        "INSERT INTO record VALUES (1, 2, 0, x'01')",
    ];
    are_refused(&rt, rt.alloc(), LOOSE, &rows, KeepError::BadStore)
}

#[test]
fn other_tables_of_this_name_fail(rt: HostRuntime) -> Result<(), Fail> {
    let tables = [
        "CREATE TABLE record(seq INTEGER PRIMARY KEY, kind INTEGER, address INTEGER)",
        "CREATE TABLE RECORD(id INTEGER PRIMARY KEY)",
        "CREATE VIEW record AS SELECT 1 AS seq",
        "BEGIN",
    ];
    are_refused(&rt, rt.alloc(), "", &tables, KeepError::StoreFailed)
}

/// A store of this block reads these over this connection, on which another program adds these rows before.
fn holds_over<S: Alter + Drop>(
    rt: &impl Abort,
    conn: Connection<S>,
    rows: &str,
    block: &Block,
    wanted: Deed<'_>,
) -> Result<(), Fail> {
    let mut conn = conn;
    match run_both(&mut conn, TABLE, rows) {
        Ok(()) => match done_over(rt, conn, block, wanted) {
            Ok(_) => Ok(()),
            Err(fail) => Err(fail),
        },
        Err(error) => Err(Fail::from(error)),
    }
}

/// A store of the block 0 to 3 reads these over such a database in memory.
fn holds(rt: &impl Abort, alloc: Global, rows: &str, wanted: Deed<'_>) -> Result<(), Fail> {
    let block = block(0, 3)?;
    match Connection::open_in_memory(alloc) {
        Ok(conn) => holds_over(rt, conn, rows, &block, wanted),
        Err(error) => Err(Fail::from(error)),
    }
}

#[test]
fn rows_may_come_in_any_order(rt: HostRuntime) -> Result<(), Fail> {
    let rows =
        "INSERT INTO record VALUES (3, 1, 3, 16777214), (1, 1, 0, 7), (4, 2, 9, 7), (2, 2, 0, 0)";
    let reserved = [(0, 7), (3, 0xFFFFFE)];
    let enrolled = [(0, 0), (9, 7)];
    holds(&rt, rt.alloc(), rows, Deed::Reads(&reserved, &enrolled))
}

/// A database that was written before there were releases. Gear 7 has another address than the reserved one.
#[test]
fn a_list_without_releases_reads_as_it_did(rt: HostRuntime) -> Result<(), Fail> {
    let rows =
        "INSERT INTO record VALUES (1, 1, 0, 7), (2, 2, 0, 0), (3, 1, 3, 16777214), (4, 2, 9, 7)";
    let reserved = [(0, 7), (3, 0xFFFFFE)];
    let enrolled = [(0, 0), (9, 7)];
    holds(&rt, rt.alloc(), rows, Deed::Reads(&reserved, &enrolled))
}
