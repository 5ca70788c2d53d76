//! A store over two files: closed or stopped, and opened again.

use super::stores::{Deed, does};
use super::values::block;
use dali_script::Block;
use dali_sqlite::SqliteKeep;
use sqlite::{FileStore, Files, Options};
use sqlite_disk::Memory;
use std::alloc::Global;
use std::process::Abort;
use std::test::Fail;

const OPTIONS: Options = Options {
    cache_pages: 16,
    spill_pages: 16,
    checkpoint_frames: 1000,
    seed: 1,
};

/// How a store ends.
#[derive(Clone, Copy)]
enum Ending {
    /// It is closed, and the database's file is taken without the log.
    Closed,
    /// Both files are taken as they lie.
    Stopped,
}

fn ended(
    alloc: Global,
    keep: SqliteKeep<FileStore<Memory>>,
    ending: Ending,
) -> Result<Files<Memory>, Fail> {
    match ending {
        Ending::Closed => match keep.close_files() {
            Ok(Files { log: _, db }) => Ok(Files {
                log: Memory::new(alloc),
                db,
            }),
            Err(error) => Err(Fail::from(error)),
        },
        Ending::Stopped => Ok(keep.into_files()),
    }
}

/// Something is done with a store of this block in these files, which ends so.
fn done_in(
    rt: &impl Abort,
    alloc: Global,
    files: Files<Memory>,
    block: &Block,
    deed: Deed<'_>,
    ending: Ending,
) -> Result<Files<Memory>, Fail> {
    if !files.may_be_used() {
        return Err(Fail::from("files that may not be used"));
    }
    match SqliteKeep::open_files(alloc, files, OPTIONS, *block) {
        Ok(keep) => {
            let mut keep = keep;
            match does(rt, &mut keep, block, deed) {
                Ok(()) => ended(alloc, keep, ending),
                Err(fail) => Err(fail),
            }
        }
        Err(error) => Err(Fail::from(error)),
    }
}

/// A list of commits in files that are new, and more of them when the store has ended and the files were opened again.
fn done_twice(
    rt: &impl Abort,
    alloc: Global,
    block: &Block,
    ending: Ending,
) -> Result<Files<Memory>, Fail> {
    let files = Files {
        log: Memory::new(alloc),
        db: Memory::new(alloc),
    };
    match done_in(rt, alloc, files, block, Deed::List, ending) {
        Ok(files) => done_in(rt, alloc, files, block, Deed::MoreOfList, ending),
        Err(fail) => Err(fail),
    }
}

#[test]
fn records_outlive_their_store(rt: HostRuntime) -> Result<(), Fail> {
    let block = block(0, 3)?;
    done_twice(&rt, rt.alloc(), &block, Ending::Closed)?;
    done_twice(&rt, rt.alloc(), &block, Ending::Stopped)?;
    Ok(())
}
