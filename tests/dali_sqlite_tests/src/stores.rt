//! Stories over both stores, through the promises of every store.
//!
//! What is done with a store is told by a `Deed`. One function does it with any store, one over any connection, and one
//! names what lies under a database in memory.

use super::values::InNumbers::{Enrol, Release, Reserve};
use super::values::{InNumbers, are_pairs, block, number, same};
use dali_reserve::{Keep, KeepError, MemoryKeep};
use dali_script::{Block, Kept, Record};
use dali_sqlite::SqliteKeep;
use sqlite::{Alter, Connection, MemStore};
use std::alloc::Global;
use std::process::Abort;
use std::test::Fail;

/// Reads, and commits what fits what was read: all that a worker does with its store.
fn read_and_commit<K: Keep>(keep: &mut K, added: Record) -> Result<Result<(), KeepError>, Fail> {
    let kept = keep.read()?;
    if kept.fits(&added) {
        Ok(keep.commit(added))
    } else {
        Err(Fail::from("a record that does not fit"))
    }
}

/// Commits each of these in turn, with this answer.
pub fn commits<K: Keep>(
    rt: &impl Abort,
    keep: &mut K,
    added: &[(InNumbers, Result<(), KeepError>)],
) -> Result<(), Fail> {
    for (one, wanted) in added {
        same(rt, &read_and_commit(keep, one.record()?)?, wanted);
    }
    Ok(())
}

/// A read has these reserved and enrolled, oldest first.
pub fn reads<K: Keep>(
    rt: &impl Abort,
    keep: &mut K,
    reserved: &[(u8, u32)],
    enrolled: &[(u8, u32)],
) -> Result<(), Fail> {
    let kept = keep.read()?;
    are_pairs(rt, kept.reserved(), reserved);
    are_pairs(rt, kept.enrolled(), enrolled);
    Ok(())
}

/// A list of commits with each refusal, and what is read back.
fn commits_are_read_back<K: Keep>(rt: &impl Abort, keep: &mut K) -> Result<(), Fail> {
    let added = [
        (Reserve(0, 0x123456), Ok(())),
        (Reserve(0, 0x000001), Err(KeepError::AddressTaken)),
        (Reserve(1, 0x123456), Err(KeepError::RandomTaken)),
        // Both are taken.
        (Reserve(0, 0x123456), Err(KeepError::AddressTaken)),
        // An enrolment is judged among enrolments alone, and may lie outside the block.
        (Enrol(0, 0x123456), Ok(())),
        (Enrol(9, 0x000001), Ok(())),
        (Enrol(9, 0x000002), Err(KeepError::AddressTaken)),
        (Enrol(1, 0x000001), Err(KeepError::RandomTaken)),
        (Reserve(3, 0xFFFFFE), Ok(())),
        (Reserve(1, 0x000000), Ok(())),
    ];
    commits(rt, keep, &added)?;
    let reserved = [(0, 0x123456), (3, 0xFFFFFE), (1, 0x000000)];
    let enrolled = [(0, 0x123456), (9, 0x000001)];
    reads(rt, keep, &reserved, &enrolled)
}

/// A reservation is released, and its address reserved for another number: what is read back.
fn released_addresses_are_free_again<K: Keep>(rt: &impl Abort, keep: &mut K) -> Result<(), Fail> {
    let added = [
        (Reserve(0, 0x123456), Ok(())),
        (Release(0, 0x000001), Err(KeepError::NotReserved)),
        (Release(0, 0x123456), Ok(())),
        (Reserve(0, 0x000001), Ok(())),
    ];
    commits(rt, keep, &added)?;
    reads(rt, keep, &[(0, 0x000001)], &[])
}

/// Commits a record that fits records of the store's block, with no read before it.
fn commit_unread<K: Keep>(
    keep: &mut K,
    none: &Kept,
    added: Record,
) -> Result<Result<(), KeepError>, Fail> {
    if none.fits(&added) {
        Ok(keep.commit(added))
    } else {
        Err(Fail::from("a record that does not fit"))
    }
}

/// Three commits without a read before them.
fn begins<K: Keep>(rt: &impl Abort, keep: &mut K, none: &Kept) -> Result<(), Fail> {
    let first = commit_unread(keep, none, Reserve(2, 1).record()?)?;
    same(rt, &first, &Ok(()));
    let second = commit_unread(keep, none, Reserve(2, 2).record()?)?;
    same(rt, &second, &Err(KeepError::AddressTaken));
    let third = commit_unread(keep, none, Enrol(2, 1).record()?)?;
    same(rt, &third, &Ok(()));
    reads(rt, keep, &[(2, 1)], &[(2, 1)])
}

/// A reservation and an enrolment of each short address are committed.
fn fill<K: Keep>(rt: &impl Abort, keep: &mut K) -> Result<(), Fail> {
    for address in 0..64 {
        let drawn = u32::from(address) + 0x400000;
        let added = [
            (Reserve(address, drawn), Ok(())),
            (Enrol(63 - address, drawn), Ok(())),
        ];
        commits(rt, keep, &added)?;
    }
    is_full(rt, keep)
}

/// Every address is taken, in both kinds.
fn is_full<K: Keep>(rt: &impl Abort, keep: &mut K) -> Result<(), Fail> {
    let kept = keep.read()?;
    same(
        rt,
        &(kept.reserved().len(), kept.enrolled().len()),
        &(64, 64),
    );
    same(rt, &kept.view().first_free().is_none(), &true);
    Ok(())
}

/// What another program may read of a store, and what was released of it.
fn has_rows<K: Keep>(rt: &impl Abort, keep: &mut K) -> Result<(), Fail> {
    let added = [
        (Reserve(2, 0x123456), Ok(())),
        (Enrol(9, 0xFFFFFE), Ok(())),
        (Release(2, 0x123456), Ok(())),
    ];
    commits(rt, keep, &added)
}

/// More commits over the list of `commits_are_read_back`.
fn goes_on<K: Keep>(rt: &impl Abort, keep: &mut K) -> Result<(), Fail> {
    let added = [
        (Reserve(3, 0x000002), Err(KeepError::AddressTaken)),
        (Reserve(2, 0x000002), Ok(())),
        (Enrol(2, 0x000002), Ok(())),
    ];
    commits(rt, keep, &added)?;
    let reserved = [(0, 0x123456), (3, 0xFFFFFE), (1, 0x000000), (2, 0x000002)];
    let enrolled = [(0, 0x123456), (9, 0x000001), (2, 0x000002)];
    reads(rt, keep, &reserved, &enrolled)
}

/// What is done with a store, and what is read back.
#[derive(Clone, Copy)]
pub enum Deed<'a> {
    /// A list of commits, with each refusal.
    List,
    /// More commits over that list.
    MoreOfList,
    /// A reservation is released, and its address reserved for another number.
    Release,
    /// Commits without a read before them.
    Unread,
    /// A reservation and an enrolment of each short address.
    Fill,
    /// Every address is taken, in both kinds.
    Full,
    /// The records that the documents show as rows.
    Rows,
    /// These are reserved and enrolled.
    Reads(&'a [(u8, u32)], &'a [(u8, u32)]),
}

/// Something is done with a store of this block.
pub fn does<K: Keep>(
    rt: &impl Abort,
    keep: &mut K,
    block: &Block,
    deed: Deed<'_>,
) -> Result<(), Fail> {
    match deed {
        Deed::List => commits_are_read_back(rt, keep),
        Deed::MoreOfList => goes_on(rt, keep),
        Deed::Release => released_addresses_are_free_again(rt, keep),
        Deed::Unread => begins(rt, keep, &Kept::new(*block)),
        Deed::Fill => fill(rt, keep),
        Deed::Full => is_full(rt, keep),
        Deed::Rows => has_rows(rt, keep),
        Deed::Reads(reserved, enrolled) => reads(rt, keep, reserved, enrolled),
    }
}

/// Something is done with a store over this connection, which is given back.
pub fn done_over<S: Alter + Drop>(
    rt: &impl Abort,
    conn: Connection<S>,
    block: &Block,
    deed: Deed<'_>,
) -> Result<Connection<S>, Fail> {
    match SqliteKeep::over(conn, *block) {
        Ok(keep) => {
            let mut keep = keep;
            match does(rt, &mut keep, block, deed) {
                Ok(()) => Ok(keep.into_connection()),
                Err(fail) => Err(fail),
            }
        }
        Err(error) => Err(Fail::from(error)),
    }
}

/// Something is done with a store over this connection, and then something with a new store over it.
fn both_done_over<S: Alter + Drop>(
    rt: &impl Abort,
    conn: Connection<S>,
    block: &Block,
    deeds: (Deed<'_>, Deed<'_>),
) -> Result<Connection<S>, Fail> {
    match done_over(rt, conn, block, deeds.0) {
        Ok(conn) => done_over(rt, conn, block, deeds.1),
        Err(fail) => Err(fail),
    }
}

/// Both are done with stores of this block over one database in memory, one store after the other.
fn done_in_database(
    rt: &impl Abort,
    alloc: Global,
    bounds: (u8, u8),
    deeds: (Deed<'_>, Deed<'_>),
) -> Result<Connection<MemStore>, Fail> {
    let block = block(bounds.0, bounds.1)?;
    match Connection::open_in_memory(alloc) {
        Ok(conn) => both_done_over(rt, conn, &block, deeds),
        Err(error) => Err(Fail::from(error)),
    }
}

/// This is done with a store of this block in memory.
fn done_in_memory(rt: &impl Abort, bounds: (u8, u8), deed: Deed<'_>) -> Result<(), Fail> {
    let block = block(bounds.0, bounds.1)?;
    does(rt, &mut MemoryKeep::new(block), &block, deed)
}

#[test]
fn a_store_in_memory_does_as_every_store(rt: HostRuntime) -> Result<(), Fail> {
    done_in_memory(&rt, (0, 3), Deed::List)?;
    done_in_memory(&rt, (0, 3), Deed::Release)?;
    done_in_memory(&rt, (0, 63), Deed::Fill)
}

/// What is done with a store in a database, of this block, and what a new store over it reads then.
const IN_A_DATABASE: [((u8, u8), (Deed<'static>, Deed<'static>)); 4] = [
    (
        (0, 3),
        (
            Deed::List,
            Deed::Reads(
                &[(0, 0x123456), (3, 0xFFFFFE), (1, 0x000000)],
                &[(0, 0x123456), (9, 0x000001)],
            ),
        ),
    ),
    ((0, 3), (Deed::Release, Deed::Reads(&[(0, 0x000001)], &[]))),
    // A new store takes its first commits without a read.
    ((0, 3), (Deed::Unread, Deed::Reads(&[(2, 1)], &[(2, 1)]))),
    ((0, 63), (Deed::Fill, Deed::Full)),
];

#[test]
fn a_store_in_a_database_does_as_every_store(rt: HostRuntime) -> Result<(), Fail> {
    for (bounds, deeds) in IN_A_DATABASE {
        done_in_database(&rt, rt.alloc(), bounds, deeds)?;
    }
    Ok(())
}

/// The rows are those that the documents show.
fn shows_rows<S: Alter>(rt: &impl Abort, conn: &mut Connection<S>) -> Result<(), Fail> {
    let counts = [
        ("SELECT count(*) FROM record", 3),
        (
            "SELECT count(*) FROM record WHERE seq = 1 AND kind = 1 AND address = 2 AND random = 1193046",
            1,
        ),
        (
            "SELECT count(*) FROM record WHERE seq = 2 AND kind = 2 AND address = 9 AND random = 16777214",
            1,
        ),
        (
            "SELECT count(*) FROM record WHERE seq = 3 AND kind = 3 AND address = 2 AND random = 1193046",
            1,
        ),
    ];
    for (query, wanted) in counts {
        same(rt, &number(conn, query)?, &wanted);
    }
    Ok(())
}

#[test]
fn records_are_rows_that_other_programs_read(rt: HostRuntime) -> Result<(), Fail> {
    let deeds = (Deed::Rows, Deed::Reads(&[], &[(9, 0xFFFFFE)]));
    shows_rows(&rt, &mut done_in_database(&rt, rt.alloc(), (0, 3), deeds)?)
}
