//! An exchange of files that an earlier call has begun is brought to its end, and the bus is asked what is there.

ghost use Rattle.std.specs.Prelude.{◌≡◌, ◌⊎◌, IfOk, IfErr, OnOk, OnErr};
ghost use Rattle.dali_commissioning.specs.Drivers.{talk_of, has_heard, lines_of};
ghost use Rattle.dali_replacement.specs.Permit.{confirmed_at, confirmed_random};
ghost use Rattle.dali_replacement.specs.Swapping.{address_of, names_of};
ghost use Rattle.dali_replacement.specs.Tables.{AreGiven};
ghost use Rattle.dali_commission_said.specs.Failures.{although_exchanged};
ghost use Rattle.dali_commission_stores.specs.Settled.{IsSettled, IsSettledInPart, IsAlone};
ghost use Rattle.dali_commission_replaced.specs.Asking.{HasConfirmed, HasNotConfirmed, IsConfirmed};
ghost use Rattle.dali_commission_replaced.specs.Asking.{IsNotConfirmedBy};
ghost use Rattle.dali_commission_replaced.specs.Finishing.{IsFinished, IsFoundSo, IsFoundInPart, AreFinished};
ghost use Rattle.dali_commission_replaced.specs.Finishing.{AreFinishedInPart};
ghost use Rattle.dali_commission_replaced.specs.Tellings.{FinishTold};

use crate::confirming::Asking;
use dali_commission_said::{Failure, Report, Said, Session, Voice, or_say, say};
use dali_commission_stores::{Stores, found, read_all, say_kept, settle};
use dali_commissioning::DriverLink;
use dali_frame::Short;
use dali_replacement::{Come, Confirmed, ReplaceRefusal, Swap, gathered};
use dali_script::Kept;
use std::io::{Read, Write};

/// Brings a swap of an earlier call to its end, or takes it back, and says which. Whether the new files have taken the
/// places of the old ones.
fn finishes<S: Voice + AllocGlobal, F: Stores>(
    system: &S,
    stores: &mut F,
    swap: &Swap,
) -> Result<bool, Failure>
    ensures settled { IfOk result (IsSettled F.made F.saw swap.now stores.old stores.new) }
    ensures alone { OnOk result (IsAlone F.saw swap.now stores.old) }
    ensures told { IfOk result (λ is_done. FinishTold (S.told system.now) (address_of swap.now) is_done) }
    ensures left { OnErr result (IsSettledInPart F.made F.began F.saw swap.now stores.old stores.new) }
{
    let is_done = settle(system, stores, swap)?;
    if is_done {
        say(system, &Said::Exchanged(swap.short().number()));
        let _ = say_kept(system, swap.names(), swap.number());
    } else {
        say(system, &Said::TakenBack(swap.short().number()));
    }
    Ok(is_done)
}

/// The same. The swap, if it is of this short address and its files are exchanged now.
fn finished<S: Voice + AllocGlobal, F: Stores>(
    system: &S,
    stores: &mut F,
    swap: Swap,
    short: Short,
) -> Result<Option<Swap>, Failure>
    ensures finished { IfOk result (IsFinished F.made F.saw (S.told system.now) short swap stores.old stores.new) }
    ensures left { OnErr result (IsSettledInPart F.made F.began F.saw swap stores.old stores.new) }
{
    if finishes(system, stores, &swap)? && swap.short() == short {
        Ok(Some(swap))
    } else {
        Ok(None)
    }
}

/// Brings the swap of an earlier call to its end of which a journal lies beside this file, if one does.
fn finishes_found<S: Voice + AllocGlobal, F: Stores>(
    system: &S,
    stores: &mut F,
    name: &str,
    short: Short,
) -> Result<Option<Swap>, Failure>
    ensures finished { IfOk result (IsFoundSo F.made F.saw (S.told system.now) short name.now stores.old stores.new) }
    ensures left { OnErr result (IsFoundInPart F.made F.began F.saw name.now stores.old stores.new) }
{
    match or_say(system, name, found(system.alloc(), stores, name))? {
        Some(swap) => finished(system, stores, swap, short),
        None => Ok(None),
    }
}

/// Brings each swap of an earlier call to its end. That of this short address, if its files are exchanged now.
pub(crate) fn exchanged<S: Voice + AllocGlobal, F: Stores>(
    system: &S,
    stores: &mut F,
    names: &[String],
    short: Short,
) -> Result<Option<Swap>, Failure>
    ensures finished { IfOk result (AreFinished F.made F.saw (S.told system.now) short names.now stores.old
        stores.new) }
    ensures left { OnErr result (AreFinishedInPart F.made F.began F.saw (S.told system.now) short names.now stores.old
        stores.new) }
{
    let [name, more @ ..] = names else {
        return Ok(None);
    };
    let done = finishes_found(system, stores, name, short)?;
    match exchanged(system, stores, more, short)? {
        Some(later) => Ok(Some(later)),
        None => Ok(done),
    }
}

/// The new gear has the address by these tables, which are those of the files now, and all others are there.
fn heard<S: Voice, R: Read, W: Write>(
    asking: &Asking<'_, S>,
    driver: &mut DriverLink<R, W>,
    tables: &[Kept],
    report: &mut Report,
) -> Result<Confirmed, Failure>
    ensures heard { IfOk result (λ seen. HasConfirmed asking.now.wanted.now.short asking.now.wanted.now.missing.items
        tables.now (confirmed_random seen)
        (talk_of R.remaining W.contents driver.old) (talk_of R.remaining W.contents driver.new)) }
    ensures given { IfOk result (λ seen. AreGiven asking.now.wanted.now.short (confirmed_random seen) tables.now) }
    ensures short { IfOk result (λ seen. confirmed_at seen ≡ asking.now.wanted.now.short) }
    ensures noted { IfOk result (λ _. report.new ≡ report.old) }
    ensures failed { IfErr result (λ failure. HasNotConfirmed (has_heard driver.new) asking.now.wanted.now.short
        asking.now.wanted.now.missing.items tables.now failure report.old report.new
        (talk_of R.remaining W.contents driver.old) (talk_of R.remaining W.contents driver.new)) }
{
    let short = asking.wanted.short;
    let random = match tables {
        [table, ..] => table.enrolled_at(short),
        [] => None,
    };
    let Some(random) = random else {
        return Err(asking.refusal(ReplaceRefusal::NotGiven));
    };
    let table = match gathered(tables, short) {
        Ok(table) => table,
        Err(other) => return Err(Failure::NotReplaced(other, ReplaceRefusal::Disagree)),
    };
    let others = asking.others_there(driver, Come::Given(random), table, report)?;
    asking.confirm(driver, others, tables)
}

/// What a refusal is once the files are exchanged.
fn although_exchanged(failure: Failure) -> Failure
    ensures { result ≡ although_exchanged failure }
{
    match failure {
        Failure::NotReplaced(short, refusal) => Failure::NotConfirmed(short, refusal),
        _ => failure,
    }
}

/// Asks the bus whether the new gear has the address, once the files are exchanged.
pub(crate) fn confirms<S, F, R, W>(
    asking: &Asking<'_, S>,
    stores: &F,
    session: &mut Session<R, W>,
    swap: &Swap,
) -> Result<Confirmed, Failure>
where
    S: Voice + AllocGlobal,
    F: Stores,
    R: Read,
    W: Write,
    ensures short { IfOk result (λ seen. confirmed_at seen ≡ asking.now.wanted.now.short) }
    ensures confirmed { IfOk result (λ seen. IsConfirmed F.saw (S.told asking.now.system.now)
        asking.now.wanted.now.short asking.now.wanted.now.missing.items stores.now (names_of swap.now)
        (confirmed_random seen)
        (talk_of R.remaining W.contents session.old.driver) (talk_of R.remaining W.contents session.new.driver)) }
    ensures noted { IfOk result (λ _. session.new.report
        ≡ record session.old.report { frames = lines_of session.new.driver }) }
    ensures failed { IfErr result (λ failure. (session.new ≡ session.old)
        ⊎ IsNotConfirmedBy F.saw R.remaining W.contents asking.now.wanted.now.short
        asking.now.wanted.now.missing.items stores.now (names_of swap.now) failure session.old session.new) }
{
    let system = asking.system;
    let mut tables = Vec::new(system.alloc());
    read_all(system, stores, swap.names(), &mut tables)?;
    let heard = heard(asking, &mut session.driver, &tables, &mut session.report);
    match session.report.note_lines(system, &session.driver, heard) {
        Ok(confirmed) => {
            asking.say_confirmed(&confirmed, &tables);
            Ok(confirmed)
        }
        Err(failure) => Err(although_exchanged(failure)),
    }
}
