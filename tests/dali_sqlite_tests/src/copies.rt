//! What is taken for a file of records, by a copy in memory.

use super::stores::reads;
use super::tables::TABLE;
use super::values::{block, run, same};
use dali_sqlite::{CopyError, open_copy};
use sqlite::{Alter, Connection, Error, FileStore, Files, Options};
use sqlite_disk::Memory;
use std::alloc::Global;
use std::test::Fail;

const OPTIONS: Options = Options {
    cache_pages: 16,
    spill_pages: 16,
    checkpoint_frames: 1000,
    seed: 1,
};

const ROWS: &str = "INSERT INTO record VALUES (1, 1, 0, 7), (2, 2, 0, 7)";

/// How a program leaves its database.
#[derive(Clone, Copy)]
enum Leaving {
    /// Closed: all is in the database's file.
    Closed,
    /// Stopped: all that is new is in the log.
    Stopped,
}

fn runs_all<S: Alter>(conn: &mut Connection<S>, texts: &[&str]) -> Result<(), Error> {
    for text in texts {
        run(conn, text)?;
    }
    Ok(())
}

fn left(conn: Connection<FileStore<Memory>>, leaving: Leaving) -> Result<Files<Memory>, Fail> {
    match leaving {
        Leaving::Closed => match conn.close_files() {
            Ok(files) => Ok(files),
            Err((error, _)) => Err(Fail::from(error)),
        },
        Leaving::Stopped => Ok(conn.into_store().close()),
    }
}

/// The files of a database on which another program ran these statements.
fn made(alloc: Global, texts: &[&str], leaving: Leaving) -> Result<Files<Memory>, Fail> {
    let files = Files {
        log: Memory::new(alloc),
        db: Memory::new(alloc),
    };
    if !files.may_be_used() {
        return Err(Fail::from("files that may not be used"));
    }
    match Connection::open_files(alloc, files, OPTIONS) {
        Ok(conn) => {
            let mut conn = conn;
            match runs_all(&mut conn, texts) {
                Ok(()) => left(conn, leaving),
                Err(error) => Err(Fail::from(error)),
            }
        }
        Err((error, _)) => Err(Fail::from(error)),
    }
}

/// What a copy of these bytes is taken for.
fn taken(alloc: Global, db: &[u8], log: &[u8]) -> Result<Result<(), CopyError>, Fail> {
    Ok(open_copy(alloc, db, log, block(0, 63)?).map(|_| ()))
}

/// The bytes of a file, with another one at a place.
fn changed(alloc: Global, bytes: &[u8], at: usize, byte: u8) -> Result<Vec<u8>, Fail> {
    let mut copy = Vec::from_slice(alloc, bytes)?;
    match copy.get_mut(at) {
        Some(place) => *place = byte,
        None => return Err(Fail::from("a file that is too short")),
    }
    Ok(copy)
}

#[test]
fn files_of_records_are_read(rt: HostRuntime) -> Result<(), Fail> {
    for leaving in [Leaving::Closed, Leaving::Stopped] {
        let files = made(rt.alloc(), &[TABLE, ROWS], leaving)?;
        match open_copy(
            rt.alloc(),
            files.db.bytes(),
            files.log.bytes(),
            block(0, 63)?,
        ) {
            Ok(store) => {
                let mut store = store;
                reads(&rt, &mut store, &[(0, 7)], &[(0, 7)])?;
            }
            Err(_) => return Err(Fail::from("a file of records that is refused")),
        }
    }
    same(&rt, &taken(rt.alloc(), b"", b"")?, &Ok(()));
    let files = made(rt.alloc(), &[], Leaving::Closed)?;
    same(&rt, &taken(rt.alloc(), files.db.bytes(), b"")?, &Ok(()));
    Ok(())
}

/// What other programs make of a database.
const OTHERS: [&[&str]; 7] = [
    &[
        "CREATE TABLE note(id INTEGER PRIMARY KEY)",
        "INSERT INTO note VALUES (1)",
    ],
    &[TABLE, "CREATE TABLE note(id INTEGER PRIMARY KEY)"],
    &[TABLE, "CREATE INDEX i ON record(kind)"],
    &[TABLE, "CREATE VIEW v AS SELECT 1 AS one"],
    &[
        "CREATE TABLE record(seq INTEGER PRIMARY KEY, kind, address, random)",
        ROWS,
    ],
    &[
        "CREATE TABLE RECORD(id INTEGER PRIMARY KEY)",
        "INSERT INTO record VALUES (1)",
    ],
    &["CREATE VIEW record AS SELECT 1 AS seq"],
];

#[test]
fn databases_of_something_else_are_foreign(rt: HostRuntime) -> Result<(), Fail> {
    for texts in OTHERS {
        for leaving in [Leaving::Closed, Leaving::Stopped] {
            let files = made(rt.alloc(), texts, leaving)?;
            let found = taken(rt.alloc(), files.db.bytes(), files.log.bytes())?;
            same(&rt, &found, &Err(CopyError::Foreign));
        }
    }
    Ok(())
}

#[test]
fn other_headers_are_foreign(rt: HostRuntime) -> Result<(), Fail> {
    let files = made(rt.alloc(), &[TABLE, ROWS], Leaving::Closed)?;
    // The first letter, the version that writes, and the one that reads.
    for (at, byte) in [(0, b'T'), (18, 1), (19, 1)] {
        let other = changed(rt.alloc(), files.db.bytes(), at, byte)?;
        same(
            &rt,
            &taken(rt.alloc(), &other, b"")?,
            &Err(CopyError::Foreign),
        );
    }
    for text in [
        b"x".as_slice(),
        b"a list of luminaires\n",
        b"SQLite format 3\0",
    ] {
        same(
            &rt,
            &taken(rt.alloc(), text, b"")?,
            &Err(CopyError::Foreign),
        );
    }
    Ok(())
}

/// What a later version may have in its file, beside the user version.
const LATER: [&[&str]; 2] = [
    &[TABLE, ROWS],
    &[TABLE, "CREATE TABLE block(first INTEGER, last INTEGER)"],
];

#[test]
fn a_user_version_is_of_a_later_form(rt: HostRuntime) -> Result<(), Fail> {
    for texts in LATER {
        let files = made(rt.alloc(), texts, Leaving::Closed)?;
        for at in [60, 61, 62, 63] {
            let other = changed(rt.alloc(), files.db.bytes(), at, 1)?;
            same(
                &rt,
                &taken(rt.alloc(), &other, b"")?,
                &Err(CopyError::Newer),
            );
        }
    }
    Ok(())
}

#[test]
fn a_spoilt_page_is_no_list_of_records(rt: HostRuntime) -> Result<(), Fail> {
    let files = made(rt.alloc(), &[TABLE, ROWS], Leaving::Closed)?;
    let bytes = files.db.bytes();
    // The kind of the page on which the records stand.
    let other = changed(rt.alloc(), bytes, 4096, 0)?;
    same(
        &rt,
        &taken(rt.alloc(), &other, b"")?,
        &Err(CopyError::Damaged),
    );
    let half = bytes.get(..4096).unwrap_or_default();
    same(
        &rt,
        &taken(rt.alloc(), half, b"")?,
        &Err(CopyError::Damaged),
    );
    Ok(())
}
