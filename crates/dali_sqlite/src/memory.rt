ghost use Rattle.std.specs.Prelude.{◌≡◌, [], false, IfOk, IfErr};
ghost use Rattle.sqlite.specs.Steps.{over_memory};
ghost use Rattle.dali_reserve.specs.Refusals.{RefusesRead};
ghost use Rattle.dali_sqlite.specs.Stored.{Holds, IsUp};
ghost use Rattle.dali_sqlite.specs.Keep.{shown_by, block_of, must_read, IsSound};

use crate::keep::SqliteKeep;
use dali_reserve::KeepError;
use dali_script::Block;
use sqlite::{Connection, MemStore};
use std::alloc::Global;

impl SqliteKeep<MemStore> {
    /// A store in a new database in memory, for a controller with this block. It holds no record, and ends with the
    /// value.
    ///
    /// The refusals are 1 `NoMemory` and 2 `StoreFailed`.
    pub fn in_memory(alloc: Global, block: Block) -> Result<SqliteKeep<MemStore>, KeepError>
        ensures block { IfOk result (λ k. block_of k ≡ block) }
        ensures read { IfOk result (λ k. must_read k ≡ false) }
        ensures sound { IfOk result (λ k. IsUp (shown_by over_memory k) → IsSound over_memory k) }
        ensures empty { IfOk result (λ k. IsUp (shown_by over_memory k) → Holds (shown_by over_memory k) []) }
        ensures refusal { IfErr result RefusesRead }
    {
        match Connection::open_in_memory(alloc) {
            Ok(conn) => SqliteKeep::over(conn, block),
            Err(_) => Err(KeepError::NoMemory),
        }
    }
}
