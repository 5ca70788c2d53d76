ghost use Rattle.std.specs.Prelude.{◌≡◌, ◌⊎◌, ◌+◌, ◌<◌, List, [], ◌∷◌, ◌++◌, length, IfOk, IfErr, OnOk, OnErr};
ghost use Rattle.sqlite.specs.Tree.{Trees};
ghost use Rattle.sqlite.specs.State.{HasCleanDisk};
ghost use Rattle.sqlite.specs.Held.{state};
ghost use Rattle.dali_script.specs.declared.records.Record.{Record};
ghost use Rattle.dali_sqlite.specs.Stored.{IsTableOf, Holds, IsUp};
ghost use Rattle.dali_sqlite.specs.Refused.{HasFailed};

use crate::statements::insert;
use dali_reserve::KeepError;
use dali_script::Record;
use sqlite::{Alter, Connection};

/// The greatest `seq`.
const LAST: usize = 0x7FFF_FFFF_FFFF_FFFF;

/// Adds a record to a table that has so many, and answers how many it has then.
pub fn write<S: Alter>(
    conn: &mut Connection<S>,
    count: usize,
    added: &Record,
) -> Result<usize, KeepError>
    ensures count { IfOk result (λ n. n ≡ count + 1) }
    ensures added { HasCleanDisk (state S.Store conn.new) → OnOk result ((xs : List Record) → count ≡ length xs
        → Holds (state S.Store conn.old) xs → Holds (state S.Store conn.new) (xs ++ added.now ∷ [])) }
    ensures same { IsUp (state S.Store conn.new) → OnErr result ((xs : List Record)
        → Holds (state S.Store conn.old) xs → Holds (state S.Store conn.new) xs) }
    ensures crash { HasCleanDisk (state S.Store conn.new) → (xs : List Record) → count ≡ length xs
        → Holds (state S.Store conn.old) xs → (trees : Trees) → (state S.Store conn.new).may_leave trees
        → (state S.Store conn.old).may_leave trees ⊎ IsTableOf trees (xs ++ added.now ∷ []) }
    ensures durable { HasCleanDisk (state S.Store conn.new) → OnOk result ((xs : List Record) → count ≡ length xs
        → Holds (state S.Store conn.old) xs → (trees : Trees) → (state S.Store conn.new).may_leave trees
        → IsTableOf trees (xs ++ added.now ∷ [])) }
    ensures up { IsUp (state S.Store conn.new) → IsUp (state S.Store conn.old) }
    ensures refusal { IfErr result HasFailed }
{
    if count >= LAST {
        return Err(KeepError::StoreFailed);
    }
    let seq = (count + 1) as i64;
    let kind = u32::from(added.code());
    let address = u32::from(added.address().number());
    insert(conn, seq, kind, address, added.random().value())?;
    Ok(count + 1)
}
