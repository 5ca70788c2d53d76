ghost use Rattle.std.specs.Prelude.{◌≡◌, List, [], IfOk, IfErr, Err};
ghost use Rattle.sqlite.specs.Tree.{Trees};
ghost use Rattle.sqlite.specs.State.{HasCleanDisk};
ghost use Rattle.sqlite.specs.Held.{state};
ghost use Rattle.dali_script.specs.declared.records.Record.{Record};
ghost use Rattle.dali_script.specs.Records.{without_records};
ghost use Rattle.dali_reserve.specs.declared.error.KeepError.TheVariants.{BadStore};
ghost use Rattle.dali_reserve.specs.Refusals.{RefusesRead};
ghost use Rattle.dali_reserve.specs.Store.{AreGood};
ghost use Rattle.dali_sqlite.specs.Stored.{HasTable, Holds, IsUp, IsKnown};

use crate::rows::take_all;
use crate::statements::select;
use dali_reserve::KeepError;
use dali_script::{Block, Kept};
use sqlite::{Alter, Connection};

/// The replay of the table's rows, and how many there are.
pub fn replay<S: Alter>(conn: &mut Connection<S>, block: Block) -> Result<(Kept, usize), KeepError>
    ensures block { IfOk result (λ answer. answer.0.block ≡ block) }
    ensures known { HasCleanDisk (state S.Store conn.new) → IfOk result (λ answer. HasTable (state S.Store conn.old)
        → (xs : List Record) × Holds (state S.Store conn.new) xs × IsKnown answer.0 answer.1 xs) }
    ensures bad { result ≡ Err BadStore → HasCleanDisk (state S.Store conn.new) → IsUp (state S.Store conn.old)
        × ((xs : List Record) → Holds (state S.Store conn.old) xs → AreGood (without_records block) xs → ⊥) }
    ensures same { IsUp (state S.Store conn.new) → (xs : List Record) → Holds (state S.Store conn.old) xs
        → Holds (state S.Store conn.new) xs }
    ensures crash { HasCleanDisk (state S.Store conn.new) → HasTable (state S.Store conn.old)
        → (trees : Trees) → (state S.Store conn.new).may_leave trees → (state S.Store conn.old).may_leave trees }
    ensures up { IsUp (state S.Store conn.new) → IsUp (state S.Store conn.old) }
    ensures refusal { IfErr result RefusesRead }
{
    let rows = select(conn)?;
    let mut kept = Kept::new(block);
    take_all(&mut kept, &rows)?;
    let count = rows.len();
    Ok((kept, count))
}
