//! `replace --accept`: the luminaire that answers at a short address takes the place of the one in the tables.

ghost use Rattle.std.specs.Prelude.{◌≡◌, ◌⊎◌, ℕ, IfOk, IfErr, OnOk, IsTrue};
ghost use Rattle.dali_script.specs.declared.records.Record.TheVariants.{Enrol};
ghost use Rattle.dali_script.specs.Records.{with_record};
ghost use Rattle.dali_commissioning.specs.declared.census.Reply.TheVariants as heard;
ghost use Rattle.dali_commissioning.specs.Census.{IsAnswered};
ghost use Rattle.dali_commissioning.specs.Drivers.{talk_of, has_heard};
ghost use Rattle.dali_replacement.specs.Permit.{confirmed_random};
ghost use Rattle.dali_commission_replaced.specs.Accepting.{IsKnown, NotAlone, IsNotAlone, HasAcceptedSo};
ghost use Rattle.dali_commission_replaced.specs.Accepting.{HasNotAcceptedSo, HasAccepted, HasNotAccepted};
ghost use Rattle.dali_commission_replaced.specs.Replacing.{IsDue};

use crate::confirming::Asking;
use crate::finishing::{confirms, exchanged};
use crate::replacing::{
    DueSwap, Replacing, are_apart, are_unannounced, note_first, note_read, places_of, put_aside_if,
    table,
};
use dali_commission_said::{Failure, Manner, Report, Session, Voice, failure_of, say_refused};
use dali_commission_stores::{Holder, Stores, exchange, read_all, say_kept};
use dali_commission_tasks::Replacement;
use dali_commissioning::{DriverLink, Reply, ask};
use dali_frame::{Random24, Short};
use dali_replacement::{Come, ReplaceRefusal};
use dali_script::{Kept, Record};
use std::io::{Read, Write};

/// Whether a table has a gear at a short address.
fn is_known(short: Short, random: Random24, all: &[Kept]) -> bool
    ensures { IsTrue result → IsKnown short random all.now }
{
    let [table, more @ ..] = all else {
        return false;
    };
    match table.enrolled_at(short) {
        Some(other) if other == random => true,
        _ => is_known(short, random, more),
    }
}

/// One gear was heard at a short address, and is not the one that a table has there; or why it is not accepted.
fn alone(short: Short, reply: Reply, all: &[Kept]) -> Result<Random24, ReplaceRefusal>
    ensures heard { IfOk result (λ random. reply ≡ heard.Random random) }
    ensures refused { IfErr result (NotAlone short all.now reply) }
{
    match reply {
        Reply::Random(random) => {
            if is_known(short, random, all) {
                Err(ReplaceRefusal::Answered)
            } else {
                Ok(random)
            }
        }
        Reply::Silence => Err(ReplaceRefusal::NewSilent),
        Reply::Noise | Reply::Unclear | Reply::Several => Err(ReplaceRefusal::SeveralAnswer),
    }
}

/// The random address of the gear that answers alone at the short address, and is not the one that a table has there.
fn there<S: Voice, R: Read, W: Write>(
    asking: &Asking<'_, S>,
    driver: &mut DriverLink<R, W>,
    all: &[Kept],
) -> Result<Random24, Failure>
    ensures heard { IfOk result (λ random. IsAnswered asking.now.wanted.now.short (heard.Random random)
        (talk_of R.remaining W.contents driver.old) (talk_of R.remaining W.contents driver.new)) }
    ensures failed { IfErr result (λ failure. IsNotAlone asking.now.wanted.now.short all.now failure
        (talk_of R.remaining W.contents driver.old) (talk_of R.remaining W.contents driver.new)) }
{
    let reply = match ask(driver, asking.wanted.short) {
        Ok(reply) => reply,
        Err(fault) => return Err(failure_of(fault, driver.lines())),
    };
    match alone(asking.wanted.short, reply, all) {
        Ok(random) => Ok(random),
        Err(refusal) => Err(asking.refusal(refusal)),
    }
}

/// A table with the gear more that was heard. Refused if the table has it under another short address.
fn beside<S: Voice>(asking: &Asking<'_, S>, table: &Kept, random: Random24) -> Result<Kept, Failure>
    ensures { IfOk result (λ it. it ≡ with_record table.now (Enrol asking.now.wanted.now.short random)) }
{
    let mut it = table.copy();
    let record = Record::Enrol(asking.wanted.short, random);
    if it.fits(&record) && it.add(record).is_ok() {
        Ok(it)
    } else {
        Err(asking.refusal(ReplaceRefusal::AnotherAnswers))
    }
}

/// Who accepts a luminaire in the records of a site.
#[derive(Drop)]
struct Accepting<'a, S> {
    by: Replacing<'a, S>,
}

impl<S: Voice + AllocGlobal> Accepting<'_, S> {
    /// Hears the luminaire and all others. The swap that is due then.
    fn accepts<F: Stores, R: Read, W: Write>(
        &self,
        stores: &mut F,
        driver: &mut DriverLink<R, W>,
        all: &[Kept],
        report: &mut Report,
    ) -> Result<DueSwap, Failure>
        ensures due { IfOk result (IsDue F.saw stores.new self.now.by.asking.now.wanted.now.short
            self.now.by.names.now all.now) }
        ensures accepted { IfOk result (λ due. HasAcceptedSo F.Open.kept F.Open.block F.made F.saw F.opens
            (S.told self.now.by.asking.now.system.now) self.now.by.asking.now.wanted.now self.now.by.names.now all.now
            due.news.items (confirmed_random due.confirmed) stores.old stores.new
            (talk_of R.remaining W.contents driver.old) (talk_of R.remaining W.contents driver.new)) }
        ensures noted { IfOk result (λ _. report.new ≡ report.old) }
        ensures failed { IfErr result (λ failure. ((driver.new ≡ driver.old) × (report.new ≡ report.old))
            ⊎ HasNotAcceptedSo F.Open.kept F.Open.block F.made F.saw F.opens
            (S.told self.now.by.asking.now.system.now) self.now.by.asking.now.wanted.now self.now.by.names.now all.now
            (has_heard driver.new) failure stores.old report.old report.new
            (talk_of R.remaining W.contents driver.old) (talk_of R.remaining W.contents driver.new)) }
    {
        let asking = self.by.asking;
        put_aside_if(asking.wanted.is_again, asking.system, stores, self.by.names)?;
        let rest = table(asking.wanted, all)?;
        let random = there(asking, driver, all)?;
        let others = asking.others_there(driver, Come::Given(random), rest, report)?;
        let first = beside(asking, others.table(), random)?;
        // No new file of an earlier call has another gear at the short address.
        self.by
            .are_behind(stores, self.by.names, all, &Come::Given(random))?;
        self.by.due(stores, driver, all, others, &first)
    }
}

impl<S: Voice + AllocGlobal, F: Stores, R: Read, W: Write> Holder<F, Session<R, W>>
    for Accepting<'_, S> {
    type Due = DueSwap;

    type Out = DueSwap;

    ghost use Rattle.dali_commission_replaced.specs.Accepting.{AcceptDues};
    ghost use Rattle.dali_commission_replaced.specs.Due.{EndsDue};

    ghost dues = { λ accepting all was at x y result. AcceptDues F.Open.kept F.Open.block F.made F.saw F.opens
        R.remaining W.contents (S.told accepting.by.asking.now.system.now) accepting.by.asking.now.wanted.now
        accepting.by.names.now all was at x y result };

    ghost ends = { λ _ from to due result. EndsDue F.made F.began F.saw from to due result };

    fn refused(&self, name: &str, failure: Failure) -> Failure {
        say_refused(self.by.asking.system, name, failure)
    }

    fn take(
        &mut self,
        stores: &mut F,
        all: &[Kept],
        session: &mut Session<R, W>,
    ) -> Result<DueSwap, Failure> {
        let system = self.by.asking.system;
        are_unannounced(system.alloc(), stores, self.by.names)?;
        let heard = self.accepts(stores, &mut session.driver, all, &mut session.report);
        session.report.note_lines(system, &session.driver, heard)
    }

    /// Exchanges the files.
    fn then(self, stores: &mut F, due: DueSwap) -> Result<DueSwap, Failure> {
        exchange(self.by.asking.system, stores, &due.swap)?;
        Ok(due)
    }
}

/// Lets the luminaire that answers at a short address take the place of the one that all records of the site have
/// there; or finishes what an earlier call has begun. No frame changes any gear.
pub fn accepts<S, F, R, W>(
    system: &S,
    stores: &mut F,
    session: &mut Session<R, W>,
    manner: Manner,
    records: &[String],
    wanted: &Replacement,
) -> Result<(), Failure>
where
    S: Voice + AllocGlobal,
    F: Stores,
    R: Read,
    W: Write,
    ensures accepted { OnOk result ((random : ℕ) × HasAccepted F.Open.kept F.Open.block F.made F.saw F.opens R.remaining
        W.contents (S.told system.now) wanted.now records.now random stores.old stores.new session.old session.new) }
    ensures failed { IfErr result (λ failure. HasNotAccepted F.Open.kept F.Open.block F.made F.began F.saw F.opens
        R.remaining W.contents (S.told system.now) wanted.now records.now failure stores.old stores.new
        session.old session.new) }
{
    let asking = Asking {
        system,
        wanted,
        manner,
    };
    let names = places_of(system, stores, records)?;
    if !are_apart(system.alloc(), &names)? {
        return Err(asking.refusal(ReplaceRefusal::SameFile));
    }
    if let Some(swap) = exchanged(system, stores, &names, wanted.short)? {
        let _heard = confirms(&asking, stores, session, &swap)?;
        note_read(system.alloc(), stores, records, &mut session.report);
        return Ok(());
    }
    let mut copies = Vec::new(system.alloc());
    read_all(system, stores, &names, &mut copies)?;
    let by = Replacing {
        asking: &asking,
        names: &names,
    };
    let done = stores.hold(system.alloc(), &names, Accepting { by }, session)?;
    asking.say_confirmed(&done.confirmed, &done.news);
    let _ = say_kept(system, done.swap.names(), done.swap.number());
    note_first(&done.news, &mut session.report);
    Ok(())
}
