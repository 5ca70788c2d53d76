//! Databases in folders, each by the name of its file.

use crate::files::{Lying, at_one_moment, opened};
use dali_commission_said::StoreFault;
use dali_folder::System;
use sqlite::{Connection, File, FileStore};

/// Folders in which databases lie. What lies under a name is assumed: no contract of the kit says by which name files
/// were opened or read, and each says what a connection shows of the files that are under it, whatever these hold.
pub trait Databases {
    ghost use Rattle.std.specs.Prelude.{◌≡◌, ◌⊎◌, ℕ, List, IfOk, IfErr};
    ghost use Rattle.sqlite.specs.Recovery.{Image};
    ghost use Rattle.sqlite.specs.Held.{IsNew};
    ghost use Rattle.dali_commission_said.specs.declared.failure.StoreFault.TheVariants.{Locked};
    ghost use Rattle.dali_commission_files.specs.Faults.{IsUnopened, IsUnread};
    ghost use Rattle.dali_commission_files.specs.Opened.{Shows};

    /// What the file of a name has as it is opened or read, and its log.
    ghost lies: { Self → List ℕ → Image → Type 0 };

    /// What lies in the two files of the database of this name, at one moment.
    fn lying(&self, name: &str) -> Result<Lying, StoreFault>
        ensures read { IfOk result (λ it. lies self.now name.now (record { log = it.log.items; db = it.db.items })) }
        ensures refused { IfErr result (λ it. IsUnread it ⊎ (it ≡ Locked)) };

    /// Opens the database of this name. It is made if there is none.
    fn open(&self, name: &str) -> Result<Connection<FileStore<File>>, StoreFault>
        ensures found { IfOk result (λ conn. (image : Image) × lies self.now name.now image × Shows image conn) }
        ensures new { IfOk result IsNew }
        ensures refused { IfErr result IsUnopened };
}

impl Databases for System<'_, HostRuntime> {
    ghost lies = { λ _ _ _. Unit {0} };

    fn lying(&self, name: &str) -> Result<Lying, StoreFault> {
        at_one_moment(self.runtime(), name)
    }

    fn open(&self, name: &str) -> Result<Connection<FileStore<File>>, StoreFault> {
        opened(self.runtime(), name)
    }
}
