//! A copy of a file of records, in memory: whether it is one, and what it holds.

ghost use Rattle.std.specs.Prelude.{◌≡◌, ◌==◌, ◌&&◌, List, true, IsTrue, IfOk, Err, OnOk};
ghost use Rattle.sqlite.specs.Files.{over_files, image_of};
ghost use Rattle.sqlite.specs.Held.{state};
ghost use Rattle.sqlite.specs.WalReads.{AreClean};
ghost use Rattle.sqlite_disk.specs.Memory.{memory_bytes, memory_is_usable};
ghost use Rattle.dali_script.specs.declared.records.Record.{Record};
ghost use Rattle.dali_sqlite.specs.declared.copy.CopyError.TheVariants.{Newer};
ghost use Rattle.dali_sqlite.specs.Files.{HoldRecords};
ghost use Rattle.dali_sqlite.specs.Header.{byte_at, has_log, has_no_version, is_database, is_header_of_records};
ghost use Rattle.dali_sqlite.specs.Header.{is_empty, is_newer, may_be_records};
ghost use Rattle.dali_sqlite.specs.Keep.{shown_by, block_of, IsSound};
ghost use Rattle.dali_sqlite.specs.Stored.{Holds, IsUp};

use crate::keep::SqliteKeep;
use crate::statements::objects;
use dali_reserve::KeepError;
use dali_script::Block;
use sqlite::{Alter, Connection, Error, ErrorCode, FileStore, Files, Options, Row};
use sqlite_disk::{Disk, Memory};
use std::alloc::Global;

/// How a copy is kept: it is small, and no other program writes its log.
const OPTIONS: Options = Options {
    cache_pages: 64,
    spill_pages: 64,
    checkpoint_frames: 1000,
    seed: 1,
};

/// The string that every database begins with (SQLite's file format, section 1.3).
const HEADER_STRING: &[u8; 16] = b"SQLite format 3\0";

/// The text by which the table of a store is made.
pub(crate) const TABLE: &str = "CREATE TABLE record(
  seq INTEGER PRIMARY KEY,
  kind INTEGER NOT NULL,
  address INTEGER NOT NULL CHECK(address BETWEEN 0 AND 63),
  random INTEGER NOT NULL CHECK(random BETWEEN 0 AND 16777214))";

/// Why a file is not read as one of records.
#[derive(Clone, Copy, Debug, PartialEq, Eq)]
pub enum CopyError {
    /// It is no database, or one of something else.
    Foreign,
    /// It is a database whose user version was set: by a later form of the store, or by another program.
    Newer,
    /// It is a database that is damaged.
    Damaged,
    /// There is too little memory.
    NoMemory,
    /// SQLite refuses it for another reason.
    CannotOpen,
    /// Its rows are no list of records of the block, or it cannot be read.
    Store(KeepError),
}

fn is_database(db: &[u8]) -> bool
    ensures { result ≡ is_database db.now }
{
    match db.get(..16) {
        Some(first) => first == HEADER_STRING.as_slice(),
        None => false,
    }
}

fn byte_at(db: &[u8], number: usize) -> u8
    ensures { result ≡ byte_at db.now number }
{
    match db.get(number) {
        Some(byte) => *byte,
        None => 0,
    }
}

fn has_log(db: &[u8]) -> bool
    ensures { result ≡ has_log db.now }
{
    byte_at(db, 18) == 2 && byte_at(db, 19) == 2
}

fn has_no_version(db: &[u8]) -> bool
    ensures { result ≡ has_no_version db.now }
{
    byte_at(db, 60) == 0 && byte_at(db, 61) == 0 && byte_at(db, 62) == 0 && byte_at(db, 63) == 0
}

/// Whether a file begins as one of a later form: a database whose user version was set.
fn is_newer(db: &[u8]) -> bool
    ensures { result ≡ is_newer db.now }
{
    is_database(db) && !has_no_version(db)
}

/// Whether a file begins as one of records: a database that is written by a log, whose user version was never set.
fn is_header_of_records(db: &[u8]) -> bool
    ensures { result ≡ is_header_of_records db.now }
{
    is_database(db) && has_log(db) && has_no_version(db)
}

/// Whether two files, the database's and its log, may be those of records, by the first bytes of the database's: there
/// are none, or they are those of a file of records, or there is a log beside what the making of a file left.
pub fn may_be_records(db: &[u8], log: &[u8]) -> bool
    ensures { result ≡ may_be_records db.now log.now }
{
    if db.is_empty() {
        true
    } else if is_database(db) {
        is_header_of_records(db)
    } else {
        !log.is_empty()
    }
}

/// Why a copy cannot be opened.
fn copy_error(error: Error) -> CopyError {
    match error {
        Error::SqliteFailure(ErrorCode::OutOfMemory) => CopyError::NoMemory,
        Error::SqliteFailure(ErrorCode::DatabaseCorrupt) => CopyError::Damaged,
        Error::SqliteFailure(ErrorCode::NotADatabase) => CopyError::Foreign,
        _ => CopyError::CannotOpen,
    }
}

/// A file in memory that holds these bytes.
fn file(alloc: Global, bytes: &[u8]) -> Result<Memory, CopyError>
    ensures usable { IfOk result (λ file. IsTrue (memory_is_usable file)) }
    ensures holds { IfOk result (λ file. memory_bytes file ≡ bytes.now) }
{
    let mut file = Memory::new(alloc);
    match Disk::write_at(&mut file, 0, bytes) {
        Ok(()) => Ok(file),
        Err(_) => Err(CopyError::NoMemory),
    }
}

/// Whether a row of the schema says that the table of a store was made by its text.
fn is_table(row: &Row) -> bool {
    let (kind, name, text): (
        Result<String, Error>,
        Result<String, Error>,
        Result<String, Error>,
    ) = (row.get(0), row.get(1), row.get(2));
    match (kind, name, text) {
        (Ok(kind), Ok(name), Ok(text)) => {
            kind.as_str() == "table" && name.as_str() == "record" && text.as_str() == TABLE
        }
        _ => false,
    }
}

/// Whether a database has nothing, or the table of a store in its very form, and nothing else.
fn is_of_records<S: Alter>(conn: &mut Connection<S>) -> Result<bool, CopyError>
    ensures same { IsUp (state S.Store conn.new) → (xs : List Record) → Holds (state S.Store conn.old) xs
        → Holds (state S.Store conn.new) xs }
    ensures up { IsUp (state S.Store conn.new) → IsUp (state S.Store conn.old) }
{
    match objects(conn) {
        Ok(rows) => match rows.as_slice() {
            [] => Ok(true),
            [row] => Ok(is_table(row)),
            _ => Ok(false),
        },
        Err(error) => Err(copy_error(error)),
    }
}

/// The files of a database that is one of records. What was in the log is in the database's file now, and the log is
/// empty.
fn closed<D: Disk + Drop>(mut conn: Connection<FileStore<D>>) -> Result<Files<D>, CopyError>
    ensures usable { IfOk result (λ files. IsTrue (D.Disk.is_usable files.log) × IsTrue (D.Disk.is_usable files.db)) }
    ensures up { IfOk result (λ files. AreClean D.Disk files.log files.db → IsUp (state over_files conn)) }
    ensures same { IfOk result (λ files. AreClean D.Disk files.log files.db → (xs : List Record)
        → Holds (state over_files conn) xs → HoldRecords (image_of D.Disk files) xs) }
{
    if !is_of_records(&mut conn)? {
        return Err(CopyError::Foreign);
    }
    // For what it says of the rows.
    let _ = conn.schema();
    match conn.close_files() {
        Ok(files) => Ok(files),
        Err((error, _)) => Err(copy_error(error)),
    }
}

/// The same of two files, which hold then what they held.
fn recovered<D: Disk + Drop>(alloc: Global, files: Files<D>) -> Result<Files<D>, CopyError>
    requires log { IsTrue (D.Disk.is_usable files.log) }
    requires db { IsTrue (D.Disk.is_usable files.db) }
    ensures usable { IfOk result (λ left. IsTrue (D.Disk.is_usable left.log) × IsTrue (D.Disk.is_usable left.db)) }
    ensures same { IfOk result (λ left. AreClean D.Disk left.log left.db → (xs : List Record)
        → HoldRecords (image_of D.Disk files) xs → HoldRecords (image_of D.Disk left) xs) }
{
    match Connection::open_files(alloc, files, OPTIONS) {
        Ok(conn) => closed(conn),
        Err((error, _)) => Err(copy_error(error)),
    }
}

/// A store over a copy of two files, the database's and its log, in memory, for a controller with this block. The
/// bytes themselves stay as they are, whatever becomes of the copy.
///
/// `Newer` is answered of a database whose user version was set, as a later form of the store does. `Foreign` is
/// answered of all else that is no file of records: other bytes, a database that is not written by a log, that has
/// another table, index, view or trigger, or a table of this name in another form. Files that hold nothing, and what a
/// making of a file left that was cut off, are files of records that have none.
pub fn open_copy(
    alloc: Global,
    db: &[u8],
    log: &[u8],
    block: Block,
) -> Result<SqliteKeep<FileStore<Memory>>, CopyError>
    ensures ours { OnOk result (may_be_records db.now log.now ≡ true) }
    ensures newer { is_newer db.now ≡ true → result ≡ Err Newer }
    ensures block { IfOk result (λ k. block_of k ≡ block) }
    ensures found { IfOk result (λ k. IsUp (shown_by over_files k) → (xs : List Record)
        → HoldRecords (record { log = log.now; db = db.now }) xs
        → IsSound over_files k × Holds (shown_by over_files k) xs) }
{
    if is_newer(db) {
        return Err(CopyError::Newer);
    }
    if !may_be_records(db, log) {
        return Err(CopyError::Foreign);
    }
    let files = Files {
        log: file(alloc, log)?,
        db: file(alloc, db)?,
    };
    let files = recovered(alloc, files)?;
    // The log may have set a version.
    if is_newer(files.db.bytes()) {
        return Err(CopyError::Newer);
    }
    if !is_header_of_records(files.db.bytes()) {
        return Err(CopyError::Foreign);
    }
    match SqliteKeep::open_files(alloc, files, OPTIONS, block) {
        Ok(store) => Ok(store),
        Err(KeepError::NoMemory) => Err(CopyError::NoMemory),
        Err(error) => Err(CopyError::Store(error)),
    }
}
