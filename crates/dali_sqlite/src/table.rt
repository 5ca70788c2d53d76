ghost use Rattle.std.specs.Prelude.{◌≡◌, List, [], IfErr, OnOk};
ghost use Rattle.sqlite.specs.Held.{state};
ghost use Rattle.dali_script.specs.declared.records.Record.{Record};
ghost use Rattle.dali_sqlite.specs.Table.{no_schema};
ghost use Rattle.dali_sqlite.specs.Stored.{HasTable, Holds, IsUp, IsOurs};
ghost use Rattle.dali_sqlite.specs.Refused.{HasFailed};

use crate::statements::{create, has_table};
use dali_reserve::KeepError;
use sqlite::{Alter, Connection};

/// Makes the table if it isn't there. A connection inside a transaction is refused.
pub fn ensure_table<S: Alter>(conn: &mut Connection<S>) -> Result<(), KeepError>
    ensures has { IsUp (state S.Store conn.new) → OnOk result (IsOurs (state S.Store conn.old)
        → HasTable (state S.Store conn.new)) }
    ensures empty { IsUp (state S.Store conn.new) → OnOk result
        ((state S.Store conn.old).now.schema ≡ no_schema → Holds (state S.Store conn.new) []) }
    ensures same { IsUp (state S.Store conn.new) → OnOk result ((xs : List Record)
        → Holds (state S.Store conn.old) xs → Holds (state S.Store conn.new) xs) }
    ensures up { IsUp (state S.Store conn.new) → IsUp (state S.Store conn.old) }
    ensures refusal { IfErr result HasFailed }
{
    if !conn.is_autocommit() {
        return Err(KeepError::StoreFailed);
    }
    if has_table(conn) {
        return Ok(());
    }
    create(conn)
}
