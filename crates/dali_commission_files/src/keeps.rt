//! Records of a file that are open, and a copy of records: stores whose types have no parameter.

ghost use Rattle.sqlite.specs.Files.{over_files};
ghost use Rattle.dali_sqlite.specs.Keep.{block_of, kept_by, must_read, shown_by, IsSound};
ghost use Rattle.dali_sqlite.specs.Stored.{Holds, IsUp};

use dali_reserve::{Keep, KeepError};
use dali_script::{Kept, Record};
use dali_sqlite::SqliteKeep;
use sqlite::{File, FileStore};
use sqlite_disk::Memory;

/// Records of a file that are open.
#[derive(Drop)]
pub struct FileKeep {
    pub(crate) keep: SqliteKeep<FileStore<File>>,
}

impl Keep for FileKeep {
    ghost block = { λ s. block_of s.keep };

    ghost holds = { λ s xs. Holds (shown_by over_files s.keep) xs };

    ghost kept = { λ s. kept_by s.keep };

    ghost must_read = { λ s. must_read s.keep };

    ghost is_sound = { λ s. IsSound over_files s.keep };

    ghost is_up = { λ s. IsUp (shown_by over_files s.keep) };

    ghost has_records = { λ s sound. (sound.records, sound.held) };

    ghost replay = { λ s xs sound read held. (sound.known read xs held).0 };

    fn read(&mut self) -> Result<Kept, KeepError> {
        self.keep.read()
    }

    fn commit(&mut self, added: Record) -> Result<(), KeepError> {
        self.keep.commit(added)
    }
}

/// A copy of records, in memory.
#[derive(Drop)]
pub struct CopyKeep {
    pub(crate) keep: SqliteKeep<FileStore<Memory>>,
}

impl Keep for CopyKeep {
    ghost block = { λ s. block_of s.keep };

    ghost holds = { λ s xs. Holds (shown_by over_files s.keep) xs };

    ghost kept = { λ s. kept_by s.keep };

    ghost must_read = { λ s. must_read s.keep };

    ghost is_sound = { λ s. IsSound over_files s.keep };

    ghost is_up = { λ s. IsUp (shown_by over_files s.keep) };

    ghost has_records = { λ s sound. (sound.records, sound.held) };

    ghost replay = { λ s xs sound read held. (sound.known read xs held).0 };

    fn read(&mut self) -> Result<Kept, KeepError> {
        self.keep.read()
    }

    fn commit(&mut self, added: Record) -> Result<(), KeepError> {
        self.keep.commit(added)
    }
}
