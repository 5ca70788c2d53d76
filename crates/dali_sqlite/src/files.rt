ghost use Rattle.std.specs.Prelude.{◌≡◌, ◌⊎◌, List, [], false, IsTrue, IfOk, IfErr};
ghost use Rattle.sqlite.specs.Recovery.{Image};
ghost use Rattle.sqlite.specs.Tree.{Trees};
ghost use Rattle.sqlite.specs.WalFiles.{outcomes};
ghost use Rattle.sqlite.specs.WalReads.{AreClean};
ghost use Rattle.sqlite.specs.Files.{over_files, image_of, HoldsDatabase};
ghost use Rattle.dali_script.specs.declared.records.Record.{Record};
ghost use Rattle.dali_reserve.specs.Refusals.{RefusesRead};
ghost use Rattle.dali_sqlite.specs.Files.{HoldRecords, HoldRecordsAlone};
ghost use Rattle.dali_sqlite.specs.Keep.{shown_by, block_of, must_read, IsSound};
ghost use Rattle.dali_sqlite.specs.Refused.{HasFailed};
ghost use Rattle.dali_sqlite.specs.Stored.{IsTableOf, Holds, IsUp};

use crate::keep::SqliteKeep;
use crate::refused::refusal;
use dali_reserve::KeepError;
use dali_script::Block;
use sqlite::{Connection, FileStore, Files, Options};
use sqlite_disk::Disk;
use std::alloc::Global;

impl<D: Disk + Drop> SqliteKeep<FileStore<D>> {
    /// A store over two files, the log and the database's, for a controller with this block. Files that held nothing
    /// hold an empty table then.
    ///
    /// It holds the records that the files held. The refusals are those of `over`, and 2 `StoreFailed` also if the
    /// files hold no database that can be read. A refusal drops the files.
    pub fn open_files(
        alloc: Global,
        files: Files<D>,
        options: Options,
        block: Block,
    ) -> Result<SqliteKeep<FileStore<D>>, KeepError>
        requires log { IsTrue (D.Disk.is_usable files.log) }
        requires db { IsTrue (D.Disk.is_usable files.db) }
        ensures block { IfOk result (λ k. block_of k ≡ block) }
        ensures read { IfOk result (λ k. must_read k ≡ false) }
        ensures found { IfOk result (λ k. IsUp (shown_by over_files k) → (xs : List Record)
            → HoldRecords (image_of D.Disk files) xs → IsSound over_files k × Holds (shown_by over_files k) xs) }
        ensures refusal { IfErr result RefusesRead }
    {
        match Connection::open_files(alloc, files, options) {
            Ok(conn) => SqliteKeep::over(conn, block),
            Err((error, _)) => Err(refusal(error)),
        }
    }

    /// Ends the store: what is committed is copied into the database's file, and the files are given back. A refusal
    /// drops them: their log has then what was not copied.
    ///
    /// The files hold the records that the store held, as they are read now, after a loss of power, and if the
    /// database's file is taken without the log.
    pub fn close_files(self) -> Result<Files<D>, KeepError>
        ensures held { IfOk result (λ files. AreClean D.Disk files.log files.db → (xs : List Record)
            → Holds (shown_by over_files self) xs → HoldRecordsAlone (image_of D.Disk files) xs) }
        ensures crash { IfOk result (λ files. AreClean D.Disk files.log files.db → (xs : List Record)
            → Holds (shown_by over_files self) xs
            → (left : Image) → outcomes D.Disk files.log files.db left → HoldRecordsAlone left xs) }
        ensures usable { IfOk result (λ files. IsTrue (D.Disk.is_usable files.log)
            × IsTrue (D.Disk.is_usable files.db)) }
        ensures refusal { IfErr result HasFailed }
    {
        let conn = self.into_live();
        match conn.close_files() {
            Ok(files) => Ok(files),
            Err((error, store)) => {
                drop(store.close());
                Err(refusal(error))
            }
        }
    }

    /// The files of a store that is stopped, as they lie: nothing is copied, and what was not flushed may be lost.
    ///
    /// What a stop leaves of them is a database that the store allows (`allowed`): the records that it held, if it
    /// is up (`held`). After a commit that failed it is the records from before, or these with the new one (`either`):
    /// its clause `crash` says so.
    pub fn into_files(self) -> Files<D>
        ensures allowed { AreClean D.Disk result.log result.db
            → (left : Image) → outcomes D.Disk result.log result.db left
            → ∥ ((trees : Trees) × (shown_by over_files self).may_leave trees × HoldsDatabase left trees) ∥₁ }
        ensures held { AreClean D.Disk result.log result.db → IsUp (shown_by over_files self) → (xs : List Record)
            → Holds (shown_by over_files self) xs
            → (left : Image) → outcomes D.Disk result.log result.db left → HoldRecords left xs }
        ensures either { AreClean D.Disk result.log result.db → (xs : List Record) (ys : List Record)
            → ((trees : Trees) → (shown_by over_files self).may_leave trees → IsTableOf trees xs ⊎ IsTableOf trees ys)
            → (left : Image) → outcomes D.Disk result.log result.db left
            → ∥ (HoldRecords left xs ⊎ HoldRecords left ys) ∥₁ }
    {
        self.into_store().close()
    }
}
