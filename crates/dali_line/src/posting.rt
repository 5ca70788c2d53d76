ghost use Rattle.std.specs.Prelude.{◌≡◌, [], ◌∷◌, IfOk, IfErr, OnOk, IfSome, IfNone, IsSomeAnd};
ghost use Rattle.dali_script.specs.declared.table.TableError.TheVariants.{NoMemory};
ghost use Rattle.dali_enrol.specs.Directory.{Keeps};
ghost use Rattle.dali_script.specs.Table.{entry};
ghost use Rattle.dali_line.specs.Leaves.{Learns};
ghost use Rattle.dali_line.specs.Posted.{HasPosted, StillStands};

use dali_enrol::{Directory, Enrolled, Pass, Table, TableError};
use dali_frame::{Random24, Short};
use dali_script::{Block, Record};
use std::alloc::Global;

/// The card of an enrolment, from a table that holds this enrolment alone.
fn card_of(
    alloc: Global,
    address: Short,
    random: Random24,
) -> Result<Option<Box<Enrolled>>, TableError>
    ensures card { IfOk result (λ found. IsSomeAnd found (λ card. card.value ≡ entry address random)) }
    ensures refusal { IfErr result (λ e. e ≡ NoMemory) }
{
    let block = Block {
        first: address,
        last: address,
    };
    let mut table = Table::new(block);
    table.enrol(address, random)?;
    table.card(alloc, address)
}

/// Posts the record that is kept, if it is an enrolment. If an entry of that address was posted before, that one stays.
pub(crate) fn post(
    alloc: Global,
    directory: &Directory,
    pass: &mut Pass,
    kept: &Option<Record>,
) -> Result<(), TableError>
    requires { pass.old.places ≡ directory.now }
    ensures places { pass.new.places ≡ pass.old.places }
    ensures known { Keeps pass.old pass.new }
    ensures learned { IfSome kept.now (λ r. Learns pass.old pass.new (r ∷ [])) }
    ensures none { IfNone kept.now (pass.new ≡ pass.old) }
    ensures still { StillStands pass.old pass.new }
    ensures posted { OnOk result (HasPosted pass.new kept.now) }
    ensures refusal { IfErr result (λ e. e ≡ NoMemory) }
{
    let Some(Record::Enrol(address, random)) = kept else {
        return Ok(());
    };
    if let Some(card) = card_of(alloc, *address, *random)? {
        if let Err(back) = directory.post(pass, card) {
            drop(back);
        }
    }
    Ok(())
}
