//! Records in files, each a SQLite database.

ghost use Rattle.std.specs.Prelude.{◌≡◌, ◌++◌, ◌↔◌, ◌⊎◌, ℕ, List, [], ◌∷◌, codes, string_bytes};
ghost use Rattle.std.specs.Prelude.{Ok, Err, IfOk, IfErr, OnOk, IfSome, None, true, IsTrue};
ghost use Rattle.std.specs.IoError.{error_kind, raw_os_error};
ghost use Rattle.sqlite.specs.Closing.{HoldsAlone};
ghost use Rattle.sqlite.specs.Files.{image_of};
ghost use Rattle.sqlite.specs.Held.{state, IsNew};
ghost use Rattle.sqlite.specs.Recovery.{Image};
ghost use Rattle.sqlite.specs.Tree.{Trees};
ghost use Rattle.sqlite.specs.WalReads.{AreClean};
ghost use Rattle.dali_script.specs.declared.records.Record.{Record};
ghost use Rattle.dali_reserve.specs.Store.{IsReplay};
ghost use Rattle.dali_sqlite.specs.Header.{may_be_records};
ghost use Rattle.dali_sqlite.specs.Keep.{block_of, shown_by};
ghost use Rattle.dali_sqlite.specs.Stored.{Holds, IsUp};
ghost use Rattle.dali_commission_stores.specs.Calls.{Read};
ghost use Rattle.dali_commission_stores.specs.Lent.{AreRead};
ghost use Rattle.dali_commission_files.specs.Logs.{IsDamaged};
ghost use Rattle.dali_commission_files.specs.Faults.{system_fault, or_number, copy_fault, closed_fault};
ghost use Rattle.dali_commission_files.specs.Faults.{IsUnread, IsUnwritten, IsUnopened, IsUncopied, IsUnnoted};
ghost use Rattle.dali_commission_files.specs.Faults.{IsUnheld, IsUnclosed};
ghost use Rattle.dali_commission_files.specs.Opened.{names_of, Shows, IsStoreOf};
ghost use Rattle.dali_folder.specs.Events.{AreDone, HaveBegun};
ghost use Rattle.dali_commission_files.specs.Folders.{events_of, HasSeen};

use crate::databases::Databases;
use crate::keeps::{CopyKeep, FileKeep};
use crate::log::is_damaged;
use dali_commission_said::{Failure, StoreFault};
use dali_commission_stores::{Actor, Holder, Seen, Stores};
use dali_folder::{Folder, place, remove_whole, rename_whole, write_whole};
use dali_reserve::{Keep, KeepError};
use dali_script::{Block, Kept};
use dali_sqlite::{CopyError, SqliteKeep, open_copy};
use sqlite::{Alter, Connection, Error, ErrorCode, File, FileStore, Options, Unknown};
use sqlite_disk::Disk;
use sqlite_std_file::OpenError;
use std::alloc::Global;
use std::fs::TryLockError;
use std::hash::{BuildHasher, RandomState};
use std::io::{ErrorKind, Write};
use std::{fs, io};

/// How many bytes a file of records may have: some 3 million records.
const MOST_BYTES: u64 = 64 * 1024 * 1024;

/// How many bytes are tried when a store failed.
const TRIED: usize = 8192;

/// How many pages of a file are in memory: it is small.
const PAGES: usize = 64;

/// How often a file is read until two readings agree.
const READINGS: u8 = 10;

/// Files, each a SQLite database.
#[derive(Drop)]
pub struct Files<'a, F> {
    rt: &'a HostRuntime,
    folder: F,
}

impl<'a, F> Files<'a, F> {
    /// The files of the system, which lie in these folders.
    pub fn of(rt: &'a HostRuntime, folder: F) -> Files<'a, F> {
        Files { rt, folder }
    }
}

/// What a refusal of the system is to a file of records.
fn system_fault(kind: ErrorKind) -> StoreFault
    ensures { result ≡ system_fault kind }
{
    match kind {
        ErrorKind::NotFound => StoreFault::Missing,
        ErrorKind::PermissionDenied => StoreFault::Forbidden,
        ErrorKind::ReadOnlyFilesystem => StoreFault::ReadOnly,
        ErrorKind::StorageFull | ErrorKind::QuotaExceeded => StoreFault::Full,
        ErrorKind::NotADirectory => StoreFault::NoFolder,
        ErrorKind::IsADirectory => StoreFault::Foreign,
        ErrorKind::OutOfMemory => NO_MEMORY,
        _ => StoreFault::CannotOpen,
    }
}

/// What a refusal of the system is: its own error, if it is none of these.
fn refused_by(error: io::Error) -> StoreFault
    ensures { result ≡ or_number (system_fault (error_kind error)) (raw_os_error error) }
{
    match (system_fault(error.kind()), error.raw_os_error()) {
        (StoreFault::CannotOpen, Some(number)) => StoreFault::System(number),
        (fault, _) => fault,
    }
}

fn copy_fault(error: CopyError) -> StoreFault
    ensures { result ≡ copy_fault error }
{
    match error {
        CopyError::Foreign => StoreFault::Foreign,
        CopyError::Newer => StoreFault::Newer,
        CopyError::Damaged => StoreFault::Damaged,
        CopyError::NoMemory => NO_MEMORY,
        CopyError::CannotOpen => StoreFault::CannotOpen,
        CopyError::Store(error) => StoreFault::Store(error),
    }
}

/// The bytes of a file, none if it is not there.
fn bytes(rt: &HostRuntime, name: &str) -> Result<Vec<u8>, StoreFault>
    ensures { IfErr result IsUnread }
{
    match fs::metadata(rt, name) {
        Ok(about) if !about.is_file() || about.len() > MOST_BYTES => Err(StoreFault::Foreign),
        Ok(_) => fs::read(rt, name).map_err(refused_by),
        Err(error) if error.kind() == ErrorKind::NotFound => Ok(Vec::new(rt.alloc())),
        Err(error) => Err(refused_by(error)),
    }
}

/// What lies in the two files of a database.
#[derive(Drop)]
pub struct Lying {
    pub db: Vec<u8>,
    pub log: Vec<u8>,
}

/// The name of the log of a database: it lies beside the file itself, if a link leads to that.
fn log_of(rt: &HostRuntime, name: &str) -> Result<String, StoreFault>
    ensures named { IfOk result (λ log. (path : List ℕ) × (string_bytes log ≡ path ++ codes "-wal")) }
    ensures refused { IfErr result IsUnread }
{
    match fs::canonicalize(rt, name) {
        Ok(path) => made(rt.alloc(), path.as_str(), "-wal"),
        Err(error) if error.kind() == ErrorKind::NotFound => made(rt.alloc(), name, "-wal"),
        Err(error) => Err(refused_by(error)),
    }
}

impl Lying {
    fn read(rt: &HostRuntime, name: &str) -> Result<Lying, StoreFault>
        ensures { IfErr result IsUnread }
    {
        let log = log_of(rt, name)?;
        Ok(Lying {
            db: bytes(rt, name)?,
            log: bytes(rt, &log)?,
        })
    }

    fn is(&self, other: &Lying) -> bool
        ensures { IsTrue result ↔ ((self.now.db.items ≡ other.now.db.items)
            × (self.now.log.items ≡ other.now.log.items)) }
    {
        self.db.as_slice() == other.db.as_slice() && self.log.as_slice() == other.log.as_slice()
    }
}

/// What lies in two files at one moment: they are read until two readings agree, since another program may write them.
pub(crate) fn at_one_moment(rt: &HostRuntime, name: &str) -> Result<Lying, StoreFault>
    ensures { IfErr result (λ it. IsUnread it ⊎ (it ≡ StoreFault.Locked)) }
{
    let mut before = Lying::read(rt, name)?;
    for _ in 0..READINGS {
        let now = Lying::read(rt, name)?;
        if now.is(&before) {
            return Ok(now);
        }
        before = now;
    }
    Err(StoreFault::Locked)
}

/// A store over a copy of the files, in memory.
fn copied<B: Databases>(
    alloc: Global,
    databases: &B,
    name: &str,
) -> Result<SqliteKeep<FileStore<sqlite_disk::Memory>>, StoreFault>
    ensures copy { IfOk result (λ store. (image : Image) × B.lies databases.now name.now image
        × (IsDamaged image.log → ⊥) × (may_be_records image.db image.log ≡ true) × IsStoreOf image store) }
    ensures all { IfOk result (λ store. ((block_of store).first ≡ 0) × ((block_of store).last ≡ 63)) }
    ensures refused { IfErr result IsUncopied }
{
    let lying = databases.lying(name)?;
    if is_damaged(&lying.log) {
        return Err(StoreFault::DamagedLog);
    }
    match open_copy(alloc, &lying.db, &lying.log, Block::ALL) {
        Ok(store) => Ok(store),
        Err(error) => Err(copy_fault(error)),
    }
}

/// Why a file cannot be opened that may be one of records.
fn why_closed(rt: &HostRuntime, name: &str, error: Error) -> StoreFault
    ensures said { IfSome (closed_fault error) (λ it. result ≡ it) }
    ensures unsaid { closed_fault error ≡ None → IsUnwritten result }
{
    match error {
        Error::SqliteFailure(ErrorCode::DatabaseBusy) => StoreFault::Locked,
        Error::SqliteFailure(ErrorCode::OutOfMemory) => NO_MEMORY,
        Error::SqliteFailure(ErrorCode::DiskFull) => StoreFault::Full,
        Error::SqliteFailure(ErrorCode::DatabaseCorrupt) => StoreFault::Damaged,
        Error::SqliteFailure(ErrorCode::NotADatabase) => StoreFault::Foreign,
        _ => written_fault(rt, name),
    }
}

/// Why a file that can be written is not opened: nothing can be made beside it, or another reason.
fn beside_fault(rt: &HostRuntime, name: &str) -> StoreFault
    ensures { (result ≡ StoreFault.CannotOpen) ⊎ (result ≡ StoreFault.ClosedFolder) }
{
    let Ok(part) = made(rt.alloc(), name, ".part") else {
        return StoreFault::CannotOpen;
    };
    match tried(rt, &part) {
        Err(error) if error.kind() == ErrorKind::PermissionDenied => StoreFault::ClosedFolder,
        // Something else keeps it from being opened.
        _ => StoreFault::CannotOpen,
    }
}

/// Why the system does not let a file be written, which is made if it is missing.
fn written_fault(rt: &HostRuntime, name: &str) -> StoreFault
    ensures { IsUnwritten result }
{
    let opened = fs::File::options()
        .read(true)
        .write(true)
        .create(true)
        .open(rt, name);
    match opened {
        Ok(_) => beside_fault(rt, name),
        Err(error) if error.kind() == ErrorKind::NotFound => StoreFault::NoFolder,
        Err(error) => refused_by(error),
    }
}

/// How a file is kept in memory: `Connection::open` takes 8 MB for each bus of a building.
fn options(rt: &HostRuntime) -> Result<Options, StoreFault>
    ensures small { IfOk result (λ it. (it.cache_pages ≡ 64) × (it.spill_pages ≡ 64)) }
    ensures refused { IfErr result (λ it. it ≡ StoreFault.CannotOpen) }
{
    let state = RandomState::new(rt).map_err(|_| StoreFault::CannotOpen)?;
    Ok(Options {
        cache_pages: PAGES,
        spill_pages: PAGES,
        ..Options::new(BuildHasher::hash_one(&state, &0u8))
    })
}

/// A connection to the database of this name.
pub(crate) fn opened(
    rt: &HostRuntime,
    name: &str,
) -> Result<Connection<FileStore<File>>, StoreFault>
    ensures found { IfOk result (λ conn. (image : Image) × Shows image conn) }
    ensures new { IfOk result IsNew }
    ensures refused { IfErr result IsUnopened }
{
    let options = options(rt)?;
    let files = match sqlite_std_file::open(rt, name, Unknown) {
        Ok(files) => files,
        Err(OpenError::Busy) => return Err(StoreFault::Locked),
        Err(OpenError::OutOfMemory) => return Err(NO_MEMORY),
        Err(OpenError::Io(error)) if error.kind() == ErrorKind::Unsupported => {
            return Err(StoreFault::Linked);
        }
        Err(_) => return Err(written_fault(rt, name)),
    };
    match Connection::open_files(rt.alloc(), files, options) {
        Ok(conn) => Ok(conn),
        Err((error, _)) => Err(why_closed(rt, name, error)),
    }
}

/// What the records in a database are, and a store over it.
fn noted<S: Alter + Drop>(conn: Connection<S>) -> Result<(SqliteKeep<S>, Kept), StoreFault>
    ensures kept { IfOk result (λ came. IsUp (shown_by S.Store came.0) → (xs : List Record)
        → Holds (state S.Store conn) xs → IsReplay came.1.block xs came.1) }
    ensures up { IfOk result (λ came. IsUp (shown_by S.Store came.0) → IsUp (state S.Store conn)) }
    ensures all { IfOk result (λ came. (came.1.block.first ≡ 0) × (came.1.block.last ≡ 63)) }
    ensures refused { IfErr result IsUnnoted }
{
    let mut store = match SqliteKeep::over(conn, Block::ALL) {
        Ok(store) => store,
        Err(error) => return Err(StoreFault::Store(error)),
    };
    match store.read() {
        Ok(kept) => Ok((store, kept)),
        Err(error) => Err(StoreFault::Store(error)),
    }
}

/// Removes the log of a database whose files are closed: its own file has all that they have.
fn without_log<D: Disk>(rt: &HostRuntime, name: &str, files: sqlite::Files<D>) -> sqlite::Files<D>
    requires { AreClean D.Disk files.log files.db → (trees : Trees) × HoldsAlone (image_of D.Disk files) trees }
    ensures { result ≡ files }
{
    if let Ok(log) = log_of(rt, name) {
        let _ = fs::remove_file(rt, &log);
    }
    files
}

/// Closes a database, and leaves its file alone, which stays locked as long as the files are there: what is in the log
/// is copied into it, and the log is removed. It fails if not all was copied.
fn shut(
    rt: &HostRuntime,
    name: &str,
    conn: Connection<FileStore<File>>,
) -> Result<sqlite::Files<File>, StoreFault>
    ensures { IfErr result (λ it. it ≡ StoreFault.Store KeepError.StoreFailed) }
{
    match conn.close_files() {
        Ok(files) => Ok(without_log(rt, name, files)),
        Err(_) => Err(STORE_FAILED),
    }
}

/// Adds something to a list.
fn add<T: Drop>(list: &mut Vec<T>, item: T) -> Result<(), StoreFault>
    ensures items { OnOk result (list.new.items ≡ list.old.items ++ item ∷ []) }
    ensures refused { IfErr result (λ it. it ≡ StoreFault.Store KeepError.NoMemory) }
{
    match list.push(item) {
        Ok(()) => Ok(()),
        Err(_) => Err(NO_MEMORY),
    }
}

/// Files of records that are open, each with its name, in the order of these.
type Open<'a> = Vec<(&'a str, FileKeep)>;

fn open_one<'a, B: Folder + Databases>(
    rt: &HostRuntime,
    databases: &B,
    name: &'a str,
    held: &mut Open<'a>,
    all: &mut Vec<Kept>,
) -> Result<(), StoreFault>
    ensures named { OnOk result (names_of held.new.items ≡ names_of held.old.items ++ name.now ∷ []) }
    ensures kept { OnOk result ((kept : Kept) × (all.new.items ≡ all.old.items ++ kept ∷ [])
        × HasSeen B.saw B.lies databases.now (Read name.now kept)) }
    ensures refused { IfErr result IsUnheld }
{
    let lying = Lying::read(rt, name)?;
    // It would become one of records by being opened.
    if lying.db.is_empty() && lying.log.is_empty() {
        return Err(StoreFault::Foreign);
    }
    let conn = databases.open(name)?;
    let (keep, kept) = noted(conn)?;
    add(held, (name, FileKeep { keep }))?;
    add(all, kept)?;
    Ok(())
}

/// Opens files of records, and notes what they have.
#[tactic(auto, using(std::proofs::lemmas::List::append_assoc))]
fn open_all<'a, B: Folder + Databases, F, D, H: Holder<F, D>>(
    rt: &HostRuntime,
    databases: &B,
    names: &'a [String],
    holder: &H,
    held: &mut Open<'a>,
    all: &mut Vec<Kept>,
) -> Result<(), Failure>
    ensures read { OnOk result (AreRead (HasSeen B.saw B.lies) databases.now names.now all.old.items all.new.items) }
    ensures refused { IfErr result (λ failure. (it : StoreFault) × IsUnheld it × (failure ≡ Failure.Store it)) }
{
    let [name, more @ ..] = names else {
        return Ok(());
    };
    if let Err(fault) = open_one(rt, databases, name.as_str(), held, all) {
        return Err(holder.refused(name, Failure::Store(fault)));
    }
    open_all(rt, databases, more, holder, held, all)
}

/// Closes a file of records, and adds it to those that are closed.
fn shut_one(
    rt: &HostRuntime,
    name: &str,
    conn: Connection<FileStore<File>>,
    files: &mut Vec<sqlite::Files<File>>,
) -> Result<(), StoreFault>
    ensures closed { OnOk result ((closed : _) × (files.new.items ≡ files.old.items ++ closed ∷ [])) }
    ensures refused { IfErr result IsUnclosed }
{
    let closed = shut(rt, name, conn)?;
    add(files, closed)?;
    Ok(())
}

/// Closes files of records, which stay locked as long as what is answered is there.
fn shut_all<F, D, H: Holder<F, D>>(
    rt: &HostRuntime,
    holder: &H,
    held: Open<'_>,
) -> Result<Vec<sqlite::Files<File>>, Failure>
    ensures { IfErr result (λ failure. (it : StoreFault) × IsUnclosed it × (failure ≡ Failure.Store it)) }
{
    let mut files = Vec::new(rt.alloc());
    let mut done = Ok(());
    for (name, open) in held {
        if let Err(fault) = shut_one(rt, name, open.keep.into_connection(), &mut files) {
            done = Err(holder.refused(name, Failure::Store(fault)));
        }
    }
    done?;
    Ok(files)
}

/// Writes as much beside a file as a commit does, and removes it.
fn tried(rt: &HostRuntime, name: &str) -> io::Result<()> {
    let mut file = fs::File::create(rt, name)?;
    let done = file.write_all(&[0; TRIED]);
    let synced = file.sync_all();
    fs::remove_file(rt, name)?;
    done?;
    synced
}

const STORE_FAILED: StoreFault = StoreFault::Store(KeepError::StoreFailed);

const NO_MEMORY: StoreFault = StoreFault::Store(KeepError::NoMemory);

/// Why a store failed, if the system says so of a file beside it: SQLite does not pass it on.
fn why_failed(rt: &HostRuntime, name: &str, failure: Failure) -> Failure
    ensures { (result ≡ failure) ⊎ ((failure ≡ Failure.Store (StoreFault.Store KeepError.StoreFailed))
        × ((fault : StoreFault) × (result ≡ Failure.Store fault))) }
{
    if let Failure::Store(StoreFault::Store(KeepError::StoreFailed)) = failure {
        if let Ok(part) = made(rt.alloc(), name, ".part") {
            if let Err(error) = tried(rt, &part) {
                return Failure::Store(refused_by(error));
            }
        }
    }
    failure
}

/// What came of a call of the system.
fn answered<T>(done: io::Result<T>) -> Result<T, Failure>
    ensures ok { IfOk result (λ it. done ≡ Ok it) }
    ensures refused { IfErr done (λ error. result
        ≡ Err (Failure.Store (or_number (system_fault (error_kind error)) (raw_os_error error)))) }
{
    match done {
        Ok(it) => Ok(it),
        Err(error) => Err(Failure::Store(refused_by(error))),
    }
}

/// A name that is made of another one.
fn made(alloc: Global, name: &str, end: &str) -> Result<String, StoreFault>
    ensures made { IfOk result (λ it. string_bytes it ≡ name.now ++ end.now) }
    ensures refused { IfErr result (λ it. it ≡ StoreFault.Store KeepError.NoMemory) }
{
    match format!(in alloc; "{name}{end}") {
        Ok(made) => Ok(made),
        Err(_) => Err(NO_MEMORY),
    }
}

impl<'a, F: Folder + Databases> Stores for Files<'a, F> {
    type Open = FileKeep;

    type Copy = CopyKeep;

    ghost made = { λ was now call. AreDone F.did (events_of call) was.folder now.folder };

    ghost began = { λ was now call. HaveBegun F.did (events_of call) was.folder now.folder };

    ghost saw = { λ files look. HasSeen F.saw F.lies files.folder look };

    ghost opens = { λ files seen lent. (image : Image) × F.lies files.folder seen.name.now image
        × IsStoreOf image lent.keep };

    fn has(&self, name: &str) -> bool {
        self.folder.has(name)
    }

    fn open(&mut self, seen: &Seen<'_>) -> Result<FileKeep, Failure> {
        let (rt, name) = (self.rt, seen.name());
        let conn = self.folder.open(name)?;
        if self.has(seen.journal()) {
            let _ = shut(rt, name, conn);
            return Err(Failure::Unfinished);
        }
        match SqliteKeep::over(conn, seen.block()) {
            Ok(keep) => Ok(FileKeep { keep }),
            Err(error) => Err(Failure::Store(StoreFault::Store(error))),
        }
    }

    fn close(&mut self, seen: &Seen<'_>, open: FileKeep) -> Result<(), Failure> {
        let (rt, name) = (self.rt, seen.name());
        match shut(rt, name, open.keep.into_connection()) {
            Ok(_) => Ok(()),
            Err(fault) => Err(why_failed(rt, name, Failure::Store(fault))),
        }
    }

    fn why(&self, seen: &Seen<'_>, failure: Failure) -> Failure {
        why_failed(self.rt, seen.name(), failure)
    }

    fn copy(&self, name: &str, journal: &str) -> Result<CopyKeep, Failure> {
        let keep = copied(self.rt.alloc(), &self.folder, name)?;
        if self.has(journal) {
            return Err(Failure::Unfinished);
        }
        Ok(CopyKeep { keep })
    }

    fn place_of(&self, alloc: Global, name: &str) -> Result<String, Failure> {
        place(self.rt, alloc, name).map_err(|_| Failure::Store(NO_MEMORY))
    }

    fn hold<D, H: Holder<Self, D>>(
        &mut self,
        alloc: Global,
        names: &[String],
        mut holder: H,
        beside: &mut D,
    ) -> Result<H::Out, Failure> {
        let mut open = Vec::new(alloc);
        let mut all = Vec::new(alloc);
        let due = match open_all(self.rt, &self.folder, names, &holder, &mut open, &mut all) {
            Ok(()) => holder.take(self, &all, beside),
            Err(failure) => Err(failure),
        };
        let shut = shut_all(self.rt, &holder, open);
        let due = due?;
        let _files = shut?;
        holder.then(self, due)
    }

    fn alone<A: Actor<Self>>(&mut self, name: &str, actor: A) -> Result<A::Out, Failure> {
        let file = answered(fs::File::open(self.rt, name))?;
        if let Err(TryLockError::WouldBlock) = file.try_lock() {
            return Err(Failure::Store(StoreFault::Locked));
        }
        actor.act(self)
    }

    fn text(&self, alloc: Global, name: &str) -> Result<Option<String>, Failure> {
        match self.folder.text(alloc, name) {
            Ok(text) => Ok(text),
            Err(error) if error.kind() == ErrorKind::InvalidData => {
                Err(Failure::Store(StoreFault::Foreign))
            }
            Err(error) => Err(Failure::Store(refused_by(error))),
        }
    }

    fn write(&mut self, alloc: Global, name: &str, text: &str) -> Result<(), Failure> {
        let part = made(alloc, name, ".part")?;
        answered(write_whole(&mut self.folder, &part, name, text))
    }

    fn rename(&mut self, alloc: Global, from: &str, to: &str) -> Result<(), Failure> {
        // A log that was left there would be taken for that of the file.
        let log = made(alloc, to, "-wal")?;
        answered(rename_whole(&mut self.folder, &log, from, to))
    }

    fn liken(&mut self, name: &str, to: &str) {
        self.folder.liken(name, to);
    }

    fn remove(&mut self, _alloc: Global, name: &str) -> Result<(), Failure> {
        answered(remove_whole(&mut self.folder, name))
    }

    fn sync(&mut self, name: &str) -> Result<(), Failure> {
        answered(self.folder.sync_folder(name))
    }
}
