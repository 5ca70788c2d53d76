//! Stores in files that are stopped at a call of their disk, and opened again from what the stop left.
//!
//! A fused disk passes so many calls on and fails each one after. A store in such files makes its table, or commits a
//! record, once for each number of calls, from 0 until nothing is stopped. What lies in the files then is looked at
//! twice: with all that was written, as when a program is stopped, and without what was not flushed yet, as when the
//! power fails. A store over either reads the records from before, with the new one or without it, and goes on; and the
//! controller of a site that went down at the commit comes up with both. With the record of the first gear it does so
//! after each stop.

use super::sites::comes_up;
use super::tables::TABLE;
use super::values::{InNumbers, block, run};
use dali_reserve::Keep;
use dali_script::{Block, Kept, Record};
use dali_sqlite::{SqliteKeep, open_copy};
use sqlite::{Alter, Connection, FileStore, Files, Options};
use sqlite_disk::{Crash, Disk, Fuse, Memory};
use std::alloc::Global;
use std::process::Abort;
use std::test::Fail;

/// Each commit first empties the log into the database file, so that both are written.
const OPTIONS: Options = Options {
    cache_pages: 16,
    spill_pages: 16,
    checkpoint_frames: 1,
    seed: 1,
};

/// How many bytes a database with the table has: a shorter one is what a making left that was stopped.
const WHOLE: usize = 8192;

/// How many calls are enough for a run that is not stopped.
const ENOUGH: u64 = 10_000;

/// The record of this place among the 128 of a full block: of each address its reservation, and then its enrolment.
fn record_at(place: u8) -> Result<Record, Fail> {
    let address = place / 2;
    let drawn = u32::from(address) + 0x400000;
    if place % 2 == 0 {
        InNumbers::Reserve(address, drawn).record()
    } else {
        InNumbers::Enrol(address, drawn).record()
    }
}

/// The first of these records.
fn first_records(alloc: Global, count: u8) -> Result<Vec<Record>, Fail> {
    let mut records = Vec::new(alloc);
    for place in 0..count {
        records.push(record_at(place)?)?;
    }
    Ok(records)
}

fn adds_all(kept: &mut Kept, records: &[Record]) -> Result<(), Fail> {
    for added in records {
        if !kept.fits(added) {
            return Err(Fail::from("a record that does not fit"));
        }
        kept.add(*added)?;
    }
    Ok(())
}

/// What is done with a store.
#[derive(Clone, Copy)]
enum Deed<'a> {
    /// Its table is made.
    Table,
    /// It takes these records.
    Fill(&'a [Record]),
    /// It takes this record.
    Commit(&'a Record),
    /// It goes on from what a stop left.
    GoOn(&'a Stop<'a>),
}

/// A commit that was stopped.
#[derive(Clone, Copy)]
struct Stop<'a> {
    alloc: Global,
    before: &'a Kept,
    added: &'a Record,
    /// Whether it answered Ok.
    is_done: bool,
}

impl Stop<'_> {
    /// Whether the record is of the first gear, so that a site orders it soon.
    fn is_first(&self) -> bool {
        self.added.address().number() == 0
    }
}

/// A controller that went down at the commit of this record comes up without it and with it.
fn comes_up_with_both(rt: &impl Abort, alloc: Global, before: &Kept, added: &Record) {
    assert!(rt; comes_up(alloc, added, before));
    let mut kept = before.copy();
    let is_added = kept.fits(added) && kept.add(*added).is_ok();
    assert!(rt; is_added && comes_up(alloc, added, &kept));
}

/// The record is committed, after a read.
fn commits<K: Keep>(keep: &mut K, added: &Record) -> bool {
    match keep.read() {
        Ok(kept) => kept.fits(added) && keep.commit(*added).is_ok(),
        Err(_) => false,
    }
}

fn fills<K: Keep>(keep: &mut K, records: &[Record]) -> bool {
    for added in records {
        if !commits(keep, added) {
            return false;
        }
    }
    true
}

/// Whether a read has the records from before with the new one, or without it; None if it has others, or if it
/// is of the first gear and a controller that went down at the commit would not come up with them.
fn has_added<K: Keep>(keep: &mut K, stop: &Stop<'_>) -> Option<bool> {
    match keep.read() {
        Ok(kept) => {
            if stop.is_first() && !comes_up(stop.alloc, stop.added, &kept) {
                None
            } else if kept.is_with(stop.before, stop.added) {
                Some(true)
            } else if kept.same(stop.before) {
                Some(false)
            } else {
                None
            }
        }
        Err(_) => None,
    }
}

/// A record that is not there yet, which it may be only if its commit failed, is committed now.
fn goes_on<K: Keep>(keep: &mut K, stop: &Stop<'_>) -> bool {
    match has_added(keep, stop) {
        Some(true) => true,
        Some(false) => {
            !stop.is_done && commits(keep, stop.added) && has_added(keep, stop) == Some(true)
        }
        None => false,
    }
}

fn does<K: Keep>(keep: &mut K, deed: Deed<'_>) -> bool {
    match deed {
        Deed::Table => true,
        Deed::Fill(records) => fills(keep, records),
        Deed::Commit(added) => commits(keep, added),
        Deed::GoOn(stop) => goes_on(keep, stop),
    }
}

/// What lay under a store, and whether what was done with it was Ok.
type Done<S> = (S, bool);

fn makes_table<S: Alter + Drop>(conn: Connection<S>) -> Done<S> {
    let mut conn = conn;
    let is_made = run(&mut conn, TABLE).is_ok();
    (conn.into_store(), is_made)
}

/// None if the store is refused, which drops what lay under it.
fn done_over<S: Alter + Drop>(
    conn: Connection<S>,
    block: Block,
    deed: Deed<'_>,
) -> Option<Done<S>> {
    if matches!(deed, Deed::Table) {
        return Some(makes_table(conn));
    }
    match SqliteKeep::over(conn, block) {
        Ok(keep) => {
            let mut keep = keep;
            let is_done = does(&mut keep, deed);
            Some((keep.into_connection().into_store(), is_done))
        }
        Err(_) => None,
    }
}

/// A connection over these files, or what a refusal leaves of them.
fn opened<D: Disk + Drop>(
    alloc: Global,
    files: Files<D>,
) -> Result<Connection<FileStore<D>>, Files<D>> {
    if !files.may_be_used() {
        return Err(files);
    }
    match Connection::open_files(alloc, files, OPTIONS) {
        Ok(conn) => Ok(conn),
        Err((_, left)) => Err(left.into_files()),
    }
}

/// The files after something was done with a store in them, without what closing them would write.
fn done_in<D: Disk + Drop>(
    alloc: Global,
    files: Files<D>,
    block: Block,
    deed: Deed<'_>,
) -> Option<Done<Files<D>>> {
    match opened(alloc, files) {
        Ok(conn) => match done_over(conn, block, deed) {
            Some((store, is_done)) => Some((store.close(), is_done)),
            None => None,
        },
        Err(files) => Some((files, false)),
    }
}

/// A file of these bytes, of which a loss of power takes none.
fn copy_of(alloc: Global, bytes: &[u8]) -> Result<Memory, Fail> {
    let mut copy = Memory::new(alloc);
    if copy.write_at(0, bytes).is_ok() && copy.sync().is_ok() {
        Ok(copy)
    } else {
        Err(Fail::from("a file"))
    }
}

fn copies_of(alloc: Global, log: &[u8], db: &[u8]) -> Result<Files<Memory>, Fail> {
    let log = copy_of(alloc, log)?;
    let db = copy_of(alloc, db)?;
    Ok(Files { log, db })
}

/// A copy of these files in memory is one of records too, and has those from before, with the new one or without it.
fn is_read_as_a_copy(alloc: Global, log: &[u8], db: &[u8], stop: &Stop<'_>) -> bool {
    match open_copy(alloc, db, log, stop.before.block()) {
        Ok(copy) => {
            let mut copy = copy;
            has_added(&mut copy, stop).is_some()
        }
        Err(_) => false,
    }
}

/// A store over copies of these files goes on. What the making of a file left is looked at as a copy, too.
fn goes_on_in(
    rt: &impl Abort,
    alloc: Global,
    left: &Files<Fuse<Memory>>,
    stop: &Stop<'_>,
) -> Result<(), Fail> {
    let (log, db) = (left.log.inner().bytes(), left.db.inner().bytes());
    if db.len() < WHOLE {
        assert!(rt; is_read_as_a_copy(alloc, log, db, stop));
    }
    let copies = copies_of(alloc, log, db)?;
    match done_in(alloc, copies, stop.before.block(), Deed::GoOn(stop)) {
        Some((_, is_done)) => assert!(rt; is_done),
        None => assert!(rt; false),
    }
    Ok(())
}

/// Whether a call was refused, or the next one is.
fn is_blown(fuse: &mut Fuse<Memory>) -> bool {
    !fuse.may_be_used() || fuse.len().is_err()
}

/// Whether these are other bytes than those of the files in which it began.
fn is_changed(left: &Files<Fuse<Memory>>, begun: &Files<Memory>) -> bool {
    left.log.inner().bytes() != begun.log.bytes() || left.db.inner().bytes() != begun.db.bytes()
}

/// Looks at what a loss of power leaves, if it is other than what was there before and than what was seen.
fn looks_again(
    rt: &impl Abort,
    alloc: Global,
    left: &mut Files<Fuse<Memory>>,
    begun: &Files<Memory>,
    seen: &Files<Memory>,
    stop: &Stop<'_>,
) -> Result<(), Fail> {
    left.log.crash();
    left.db.crash();
    assert!(rt; !stop.is_done || is_changed(left, begun));
    if is_changed(left, begun) && is_changed(left, seen) {
        goes_on_in(rt, alloc, left, stop)?;
    }
    Ok(())
}

/// Looks at what a stop left, in both ways, if it is other than what was there before.
fn looks_at(
    rt: &impl Abort,
    alloc: Global,
    left: &mut Files<Fuse<Memory>>,
    begun: &Files<Memory>,
    stop: &Stop<'_>,
) -> Result<(), Fail> {
    if is_changed(left, begun) {
        goes_on_in(rt, alloc, left, stop)?;
    }
    let seen = copies_of(alloc, left.log.inner().bytes(), left.db.inner().bytes())?;
    looks_again(rt, alloc, left, begun, &seen, stop)
}

/// Something is done with a store over copies of these files, which pass so many calls on. Whether it was stopped.
fn is_stopped(
    rt: &impl Abort,
    alloc: Global,
    begun: &Files<Memory>,
    calls: (u64, u64),
    deed: Deed<'_>,
    before: &Kept,
    added: &Record,
) -> Result<bool, Fail> {
    let copies = copies_of(alloc, begun.log.bytes(), begun.db.bytes())?;
    let fused = Files {
        log: Fuse::new(copies.log, calls.0),
        db: Fuse::new(copies.db, calls.1),
    };
    match done_in(alloc, fused, before.block(), deed) {
        Some((left, is_done)) => {
            let mut left = left;
            let is_stopped = is_blown(&mut left.log) || is_blown(&mut left.db);
            assert!(rt; is_done || is_stopped);
            let stop = Stop {
                alloc,
                before,
                added,
                is_done: is_done && matches!(deed, Deed::Commit(_)),
            };
            match looks_at(rt, alloc, &mut left, begun, &stop) {
                Ok(()) => Ok(is_stopped),
                Err(fail) => Err(fail),
            }
        }
        // It was stopped while it read, and is gone with its files.
        None => Ok(true),
    }
}

/// The file that is stopped.
#[derive(Clone, Copy)]
enum Which {
    Log,
    Database,
}

impl Which {
    /// How many calls the log and the database file pass on.
    fn calls(self, calls: u64) -> (u64, u64) {
        match self {
            Which::Log => (calls, u64::MAX),
            Which::Database => (u64::MAX, calls),
        }
    }
}

/// A store over these files is stopped at each call of one of them.
fn stops_at_each(
    rt: &impl Abort,
    alloc: Global,
    begun: &Files<Memory>,
    which: Which,
    deed: Deed<'_>,
    before: &Kept,
    added: &Record,
) -> Result<(), Fail> {
    for calls in 0..ENOUGH {
        let is_last = !is_stopped(rt, alloc, begun, which.calls(calls), deed, before, added)?;
        if is_last {
            assert!(rt; calls > 0);
            return Ok(());
        }
    }
    Err(Fail::from("a store that is always stopped"))
}

fn empty(alloc: Global) -> Files<Memory> {
    Files {
        log: Memory::new(alloc),
        db: Memory::new(alloc),
    }
}

/// Over a store that has these records, which are added to those from before, it commits one more.
fn commits_over(
    rt: &impl Abort,
    alloc: Global,
    which: Which,
    records: &[Record],
    before: &mut Kept,
    added: &Record,
) -> Result<(), Fail> {
    adds_all(before, records)?;
    comes_up_with_both(rt, alloc, before, added);
    match done_in(alloc, empty(alloc), before.block(), Deed::Fill(records)) {
        Some((begun, true)) => {
            let deed = Deed::Commit(added);
            stops_at_each(rt, alloc, &begun, which, deed, before, added)
        }
        _ => Err(Fail::from("a store that is not filled")),
    }
}

fn commits_after(
    rt: &impl Abort,
    alloc: Global,
    which: Which,
    records: &[Record],
    added: &Record,
) -> Result<(), Fail> {
    let mut before = Kept::new(block(0, 63)?);
    commits_over(rt, alloc, which, records, &mut before, added)
}

/// Over a store that has all records before the one of this place.
fn commits_at_each<R: Abort + AllocGlobal>(rt: &R, which: Which, place: u8) -> Result<(), Fail> {
    let added = record_at(place)?;
    let records = first_records(rt.alloc(), place)?;
    commits_after(rt, rt.alloc(), which, &records, &added)
}

/// The first 65 records, so that the last reservation is not enrolled yet, and then its enrolment with another address.
fn with_another_address(alloc: Global) -> Result<Vec<Record>, Fail> {
    let told = InNumbers::Enrol(63, 0x400020).record()?;
    let mut records = first_records(alloc, 65)?;
    records.push(told)?;
    Ok(records)
}

/// The reservation of gear with another address is released.
fn releases_at_each<R: Abort + AllocGlobal>(rt: &R, which: Which) -> Result<(), Fail> {
    let added = InNumbers::Release(32, 0x400020).record()?;
    let records = with_another_address(rt.alloc())?;
    commits_after(rt, rt.alloc(), which, &records, &added)
}

fn makes_table_at_each<R: Abort + AllocGlobal>(rt: &R, which: Which) -> Result<(), Fail> {
    let added = record_at(0)?;
    let before = Kept::new(block(0, 63)?);
    let begun = empty(rt.alloc());
    stops_at_each(rt, rt.alloc(), &begun, which, Deed::Table, &before, &added)
}

#[test]
fn a_stopped_log_has_its_table_or_not(rt: HostRuntime) -> Result<(), Fail> {
    makes_table_at_each(&rt, Which::Log)
}

#[test]
fn a_stopped_database_file_has_its_table_or_not(rt: HostRuntime) -> Result<(), Fail> {
    makes_table_at_each(&rt, Which::Database)
}

#[test]
fn a_stopped_log_has_the_first_reservation_or_not(rt: HostRuntime) -> Result<(), Fail> {
    commits_at_each(&rt, Which::Log, 0)
}

#[test]
fn a_stopped_log_has_the_first_enrolment_or_not(rt: HostRuntime) -> Result<(), Fail> {
    commits_at_each(&rt, Which::Log, 1)
}

#[test]
fn a_stopped_database_file_has_the_first_record_or_not(rt: HostRuntime) -> Result<(), Fail> {
    commits_at_each(&rt, Which::Database, 0)?;
    commits_at_each(&rt, Which::Database, 1)
}

#[test]
fn a_stopped_log_has_a_middle_reservation_or_not(rt: HostRuntime) -> Result<(), Fail> {
    commits_at_each(&rt, Which::Log, 64)
}

#[test]
fn a_stopped_log_has_a_middle_enrolment_or_not(rt: HostRuntime) -> Result<(), Fail> {
    commits_at_each(&rt, Which::Log, 65)
}

#[test]
fn a_stopped_database_file_has_a_middle_record_or_not(rt: HostRuntime) -> Result<(), Fail> {
    commits_at_each(&rt, Which::Database, 64)?;
    commits_at_each(&rt, Which::Database, 65)
}

#[test]
fn a_stopped_log_has_the_last_reservation_or_not(rt: HostRuntime) -> Result<(), Fail> {
    commits_at_each(&rt, Which::Log, 126)
}

#[test]
fn a_stopped_log_has_the_last_enrolment_or_not(rt: HostRuntime) -> Result<(), Fail> {
    commits_at_each(&rt, Which::Log, 127)
}

#[test]
fn a_stopped_database_file_has_the_last_record_or_not(rt: HostRuntime) -> Result<(), Fail> {
    commits_at_each(&rt, Which::Database, 126)?;
    commits_at_each(&rt, Which::Database, 127)
}

#[test]
fn a_stopped_log_has_a_release_or_not(rt: HostRuntime) -> Result<(), Fail> {
    releases_at_each(&rt, Which::Log)
}

#[test]
fn a_stopped_database_file_has_a_release_or_not(rt: HostRuntime) -> Result<(), Fail> {
    releases_at_each(&rt, Which::Database)
}
