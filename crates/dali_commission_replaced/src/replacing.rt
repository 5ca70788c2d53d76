//! `replace`: a new luminaire gets the short address of one that is gone.

ghost use Rattle.std.specs.Prelude.{◌≡◌, ◌↔◌, ◌⊎◌, ℕ, List, [], ◌++◌, map, true, IsTrue, IfOk, IfErr, OnOk};
ghost use Rattle.std.specs.Prelude.{string_bytes, IfSome, None, Ok, Err};
ghost use Rattle.dali_script.specs.Records.{HasAddress};
ghost use Rattle.dali_replacement.specs.Permit.{others_at};
ghost use Rattle.dali_replacement.specs.Tables.{IsGathered, Lacks};
ghost use Rattle.dali_commission_stores.specs.Calls.{AreMade, Read};
ghost use Rattle.dali_commission_replaced.specs.Replacing.{IsAnywhere, FirstUnknown, IsNotTable, IsGiver};
ghost use Rattle.dali_commission_replaced.specs.Replacing.{IsDue, AreAside, AreAsideIf, AreBehind, HasCome};
ghost use Rattle.dali_commission_replaced.specs.Replacing.{AreAtPlaces, IsApart, IsApartFrom, AreApart};
ghost use Rattle.dali_commission_replaced.specs.Replacing.{AreUnannounced};
ghost use Rattle.dali_commission_stores.specs.Seen.{ComeSo};
ghost use Rattle.dali_commission_stores.specs.Settling.{new_at};
ghost use Rattle.dali_commissioning.specs.declared.census.Reply.TheVariants as heard;
ghost use Rattle.dali_commissioning.specs.Census.{IsAnswered};
ghost use Rattle.dali_commissioning.specs.Drivers.{talk_of};
ghost use Rattle.dali_replacement.specs.Permit.{confirmed_random, others_come, others_table, permitted_at};
ghost use Rattle.dali_commission_stores.specs.Lent.{IsLent, IsOpened, lent_calls};
ghost use Rattle.dali_commission_replaced.specs.Asking.{given_as, GivesSo, is_given, IsGivenIn, GivesFirst, GivesNone};
ghost use Rattle.dali_commission_replaced.specs.Asking.{IsNamed, HasNotGivenFirst, AreRenewed, IsNotDue};
ghost use Rattle.dali_commission_replaced.specs.Asking.{HasReplacedSo, HasNotReplacedSo, HasReplaced, HasNotReplaced};
ghost use Rattle.dali_commission_replaced.specs.Asking.{first_table, NotesFirst};

use crate::confirming::Asking;
use crate::finishing::{confirms, exchanged};
use dali_commission_asked::ask_at_last;
use dali_commission_said::{
    Failure, Manner, Progress, REFUSED, Report, Said, Session, Voice, add, ended_as, ended_said,
    failure_of, or_say, own_rows, say, say_all, say_refused,
};
use dali_commission_stores::{
    Borrower, Filling, Holder, Reading, Stores, exchange, found, free_number, kept, lend,
    lend_copy, place_of, put_one_aside, read, read_all, say_kept,
};
use dali_commission_tasks::Replacement;
use dali_commissioning::{DriverLink, Ended, outside};
use dali_frame::Short;
use dali_replacement::{
    Come, Confirmed, Giver, MOST_FILES, OthersThere, Permit, ReplaceRefusal, Swap, gathered,
    giver_from, new_of,
};
use dali_reserve::Keep;
use dali_script::{Block, End, Kept};
use std::alloc::Global;
use std::io::{Read, Write};

/// Whether this table has the short address.
#[tactic(auto, using(dali_script::proofs::Lists::address_found))]
fn has_address(table: &Kept, short: Short) -> bool
    ensures { IsTrue result ↔ HasAddress table.now.enrolled short }
{
    table.enrolled_at(short).is_some()
}

/// Whether a table has this short address.
fn is_anywhere(tables: &[Kept], short: Short) -> bool
    ensures { IsTrue result ↔ IsAnywhere short tables.now }
{
    match tables {
        [] => false,
        [table, more @ ..] => has_address(table, short) || is_anywhere(more, short),
    }
}

/// Who gives the new gear its short address, into these records, and says how the surveys ended. The records say
/// whether the new gear has the address: there is none here for any other gear that was heard.
#[derive(Drop)]
struct Giving<'a, S> {
    system: &'a S,
    permit: &'a Permit,
    table: &'a Kept,
    manner: Manner,
}

impl<S: Voice> Giving<'_, S> {
    /// Gives it, and says how the surveys ended: how the last one did, and whether any gear answered then.
    fn gives<K: Keep, R: Read, W: Write>(
        &self,
        store: &mut K,
        driver: &mut DriverLink<R, W>,
    ) -> Result<(), Failure>
        ensures { GivesSo K.is_up K.is_sound K.holds K.kept (K.block store.old)
            (S.told self.now.system.now) (permitted_at self.now.permit.now) self.now.table.now store.new
            (talk_of R.remaining W.contents driver.old) (talk_of R.remaining W.contents driver.new) result }
    {
        let (system, permit, table) = (self.system, self.permit, self.table);
        let mut progress = Progress::new(system, self.manner, 1);
        let came = permit.give(store, driver, &mut progress, table);
        progress.end();
        let pass = match came {
            Ok(pass) => pass,
            Err(fault) => return Err(failure_of(fault, driver.lines())),
        };
        let kept = kept(store)?;
        let last = match ask_at_last(driver, &pass, &kept) {
            Ok(last) => last,
            Err(fault) => return Err(failure_of(fault, driver.lines())),
        };
        let pass = last.pass(&pass);
        say_all(system, &ended_said(&pass, &kept, progress.aim()));
        given_as(pass.ended, last.is_there)
    }
}

impl<K: Keep, S: Voice, R: Read, W: Write> Borrower<K, DriverLink<R, W>> for Giving<'_, S> {
    type Out = ();

    ghost use Rattle.dali_commissioning.specs.Drivers.{talk_of};
    ghost use Rattle.dali_replacement.specs.Permit.{permitted_at};
    ghost use Rattle.dali_commission_replaced.specs.Asking.{GivesSo};

    ghost came = { λ giving from to x y result. GivesSo K.is_up K.is_sound K.holds K.kept (K.block from)
        (S.told giving.system.now) (permitted_at giving.permit.now) giving.table.now to
        (talk_of R.remaining W.contents x) (talk_of R.remaining W.contents y) result };

    fn take(self, store: &mut K, driver: &mut DriverLink<R, W>) -> Result<(), Failure> {
        self.gives(store, driver)
    }
}

/// What the end of the surveys is to the program. Whether the new gear has the address the records say.
fn given_as(ended: Ended, is_there: bool) -> Result<(), Failure>
    ensures { result ≡ given_as ended is_there }
{
    match ended {
        Ended::Done(End::BlockFull) => Ok(()),
        Ended::Done(End::AllFound | End::GaveUp) | Ended::Halted(_) => ended_as(ended, is_there),
    }
}

/// What is decided before the bus is asked.
#[derive(Drop)]
struct Plan {
    /// What each new table is to have beside the new gear.
    table: Kept,
    /// The number of the file from whose block the short address is given.
    giver: usize,
    come: Come,
}

/// A swap of files that may begin.
#[derive(Drop)]
pub(crate) struct DueSwap {
    pub swap: Swap,
    /// The new gear that was heard.
    pub confirmed: Confirmed,
    pub news: Vec<Kept>,
}

/// The number of the file from whose block the short address is given.
fn giver(wanted: &Replacement, all: &[Kept]) -> Result<usize, Failure>
    ensures { IfOk result (λ number. IsGiver wanted.now all.now number) }
{
    let (short, block) = (wanted.short, wanted.block);
    let refused = Err(Failure::NotReplaced(short, ReplaceRefusal::NoGiver));
    if short < block.first || block.last < short || all.len() > MOST_FILES {
        return refused;
    }
    if let [only] = all {
        return match outside(only, block) {
            Some(short) => Err(Failure::Outside(short)),
            None => Ok(0),
        };
    }
    match giver_from(0, short, all) {
        Giver::One(number) => Ok(number as usize),
        Giver::Nobody | Giver::Several => refused,
    }
}

/// The first short address that is said to be gone and is the one that is replaced, or which no table has.
fn first_unknown(short: Short, all: &[Kept], gone: &[Short]) -> Option<Short>
    ensures { FirstUnknown short all.now gone.now result }
{
    let [first, more @ ..] = gone else {
        return None;
    };
    if *first == short || !is_anywhere(all, *first) {
        Some(*first)
    } else {
        first_unknown(short, all, more)
    }
}

/// What is to be in each new table beside the new gear.
pub(crate) fn table(wanted: &Replacement, all: &[Kept]) -> Result<Kept, Failure>
    ensures all { IfOk result (λ table. IsGathered wanted.now.short all.now table) }
    ensures without { IfOk result (λ table. Lacks wanted.now.short table) }
    ensures known { OnOk result (FirstUnknown wanted.now.short all.now wanted.now.missing.items None) }
    ensures refused { IfErr result (IsNotTable wanted.now all.now) }
{
    let short = wanted.short;
    if !is_anywhere(all, short) {
        return Err(Failure::NotReplaced(short, ReplaceRefusal::NotInTables));
    }
    if let Some(gone) = first_unknown(short, all, &wanted.missing) {
        return Err(Failure::NotReplaced(gone, ReplaceRefusal::NotMissing));
    }
    match gathered(all, short) {
        Ok(table) => Ok(table),
        Err(short) => Err(Failure::NotReplaced(short, ReplaceRefusal::Disagree)),
    }
}

/// Who replaces a luminaire in the records of a site.
#[derive(Drop)]
pub(crate) struct Replacing<'a, S> {
    pub asking: &'a Asking<'a, S>,
    /// Where the files lie.
    pub names: &'a [String],
}

/// Whether another one's new records have come no further than the giver's.
fn is_behind(other: &Come, come: &Come) -> bool
    ensures { IsTrue result ↔ ((other.now ≡ Come.Nowhere) ⊎ (other.now ≡ come.now)) }
{
    matches!(other, Come::Nowhere) || other == come
}

impl<S: Voice + AllocGlobal> Replacing<'_, S> {
    /// How far the new file of a name has come, beside what the old one has.
    pub fn come<F: Stores>(
        &self,
        stores: &F,
        name: &str,
        old: &Kept,
        is_giver: bool,
    ) -> Result<Come, Failure>
        ensures { IfOk result (ComeSo F.saw stores.now name.now old.now is_giver self.now.asking.now.wanted.now.short) }
    {
        let new = new_of(self.asking.system.alloc(), name)?;
        if !stores.has(&new) {
            return Ok(Come::Nowhere);
        }
        let new = read(self.asking.system, stores, &new)?;
        match Come::of(&new, old, self.asking.wanted.short, is_giver) {
            Some(come) => Ok(come),
            None => Err(self.asking.refusal(ReplaceRefusal::OtherNew)),
        }
    }

    /// No new file of these names has another gear there than the one of which an earlier call has come so far.
    pub fn are_behind<F: Stores>(
        &self,
        stores: &F,
        names: &[String],
        olds: &[Kept],
        come: &Come,
    ) -> Result<(), Failure>
        ensures { OnOk result (AreBehind F.saw stores.now self.now.asking.now.wanted.now.short come.now
            names.now olds.now) }
    {
        let [name, more @ ..] = names else {
            return Ok(());
        };
        let [old, others @ ..] = olds else {
            return Ok(());
        };
        if is_behind(&self.come(stores, name, old, false)?, come) {
            self.are_behind(stores, more, others, come)
        } else {
            Err(self.asking.refusal(ReplaceRefusal::OtherNew))
        }
    }

    /// How far an earlier call has come. No other new file has another gear there than the giver's.
    fn all_come<F: Stores>(&self, stores: &F, all: &[Kept], giver: usize) -> Result<Come, Failure>
        ensures { IfOk result (HasCome F.saw stores.now self.now.names.now all.now giver
            self.now.asking.now.wanted.now.short) }
    {
        let (Some(name), Some(old)) = (self.names.get(giver), all.get(giver)) else {
            return Err(REFUSED);
        };
        let come = self.come(stores, name, old, true)?;
        self.are_behind(stores, &self.names[..giver], &all[..giver], &come)?;
        self.are_behind(stores, &self.names[giver + 1..], &all[giver + 1..], &come)?;
        Ok(come)
    }

    /// What is decided before the bus is asked, by what the files have.
    fn plan<F: Stores>(&self, stores: &F, all: &[Kept]) -> Result<Plan, Failure>
        ensures all { IfOk result (λ plan. IsGathered self.now.asking.now.wanted.now.short all.now plan.table) }
        ensures giver { IfOk result (λ plan. IsGiver self.now.asking.now.wanted.now all.now plan.giver) }
        ensures come { IfOk result (λ plan. HasCome F.saw stores.now self.now.names.now all.now plan.giver
            self.now.asking.now.wanted.now.short plan.come) }
        ensures known { OnOk result (FirstUnknown self.now.asking.now.wanted.now.short all.now
            self.now.asking.now.wanted.now.missing.items None) }
    {
        let table = table(self.asking.wanted, all)?;
        let giver = giver(self.asking.wanted, all)?;
        let come = self.all_come(stores, all, giver)?;
        Ok(Plan { table, giver, come })
    }

    /// Lends the new file of a name, and reads it then.
    fn renew<F: Stores, D, B: Borrower<F::Open, D, Out = ()>>(
        &self,
        stores: &mut F,
        name: &str,
        block: Block,
        borrower: B,
        beside: &mut D,
    ) -> Result<Kept, Failure>
        ensures seen { IfOk result (λ kept. F.saw stores.new (Read (new_at name.now) kept)) }
        ensures lent { OnOk result (IsLent (IsOpened F.Open.block F.saw F.opens stores.old (new_at name.now) block)
            (B.came borrower) beside.old beside.new (Ok tt)) }
        ensures made { OnOk result (AreMade F.made (lent_calls (new_at name.now)) stores.old stores.new) }
        ensures failed { IfErr result (λ failure. IsLent (IsOpened F.Open.block F.saw F.opens stores.old
            (new_at name.now) block) (B.came borrower) beside.old beside.new (Err failure)) }
    {
        let system = self.asking.system;
        let new = new_of(system.alloc(), name)?;
        let done = lend(system.alloc(), stores, &new, block, borrower, beside);
        or_say(system, &new, done)?;
        read(system, stores, &new)
    }

    /// Adds the new table of each of these files, if the giver's has been this one.
    #[tactic(auto, using(std::proofs::lemmas::List::append_assoc))]
    fn renew_all<F: Stores>(
        &self,
        stores: &mut F,
        names: &[String],
        olds: &[Kept],
        first: &Kept,
        news: &mut Vec<Kept>,
    ) -> Result<(), Failure>
        ensures { OnOk result (AreRenewed F.Open.kept F.Open.block F.made F.saw F.opens first.now names.now olds.now
            stores.old stores.new news.old.items news.new.items) }
    {
        let [name, more @ ..] = names else {
            return Ok(());
        };
        let [old, others @ ..] = olds else {
            return Ok(());
        };
        let filling = Filling {
            from: first,
            before: old,
        };
        add(
            news,
            self.renew(stores, name, Block::ALL, filling, &mut ())?,
        )?;
        self.renew_all(stores, more, others, first, news)
    }

    /// The names of the files.
    fn copied_names(&self) -> Result<Vec<String>, Failure>
        ensures { IfOk result (λ copies. map string_bytes copies.items ≡ map string_bytes self.now.names.now) }
    {
        let mut copies = Vec::new(self.asking.system.alloc());
        copy_all(self.asking.system.alloc(), self.names, &mut copies)?;
        Ok(copies)
    }

    /// Gives the short address in the new file of the giver.
    fn give<F: Stores, R: Read, W: Write>(
        &self,
        stores: &mut F,
        driver: &mut DriverLink<R, W>,
        name: &str,
        others: &OthersThere,
    ) -> Result<Kept, Failure>
        ensures seen { IfOk result (λ kept. F.saw stores.new (Read (new_at name.now) kept)) }
        ensures made { OnOk result (AreMade F.made (lent_calls (new_at name.now)) stores.old stores.new) }
        ensures gave { OnOk result (IsGivenIn F.Open.is_up F.Open.is_sound F.Open.holds F.Open.kept F.Open.block
            F.saw F.opens R.remaining W.contents (S.told self.now.asking.now.system.now) (others_at others.now)
            (others_come others.now) (others_table others.now) stores.old name.now driver.old driver.new (Ok tt)) }
        ensures failed { others_at others.now ≡ self.now.asking.now.wanted.now.short
            → IfErr result (λ failure. GivesNone F.Open.is_up F.Open.is_sound F.Open.holds F.Open.kept
            F.Open.block F.saw F.opens R.remaining W.contents (S.told self.now.asking.now.system.now)
            self.now.asking.now.wanted.now.short (others_come others.now) (others_table others.now) stores.old
            name.now failure driver.old driver.new) }
    {
        let asking = self.asking;
        let permit = match others.look(driver) {
            Ok(permit) => permit,
            Err(fault) => return Err(asking.fault(fault, driver)),
        };
        let giving = Giving {
            system: asking.system,
            permit: &permit,
            table: others.table(),
            manner: asking.manner,
        };
        self.renew(stores, name, permit.block(), giving, driver)
    }

    /// What the new file of the giver has. The short address is given in it if an earlier call has not done so.
    fn first<F: Stores, R: Read, W: Write>(
        &self,
        stores: &mut F,
        driver: &mut DriverLink<R, W>,
        giver: usize,
        others: &OthersThere,
    ) -> Result<Kept, Failure>
        ensures gave { IfOk result (λ kept. (name : List ℕ)
            × IsNamed self.now.names.now giver name
            × F.saw stores.new (Read (new_at name) kept)
            × GivesFirst F.Open.is_up F.Open.is_sound F.Open.holds F.Open.kept F.Open.block F.made
            F.saw F.opens R.remaining W.contents (S.told self.now.asking.now.system.now) (others_at others.now)
            (others_come others.now) (others_table others.now) name stores.old stores.new driver.old driver.new) }
        ensures failed { others_at others.now ≡ self.now.asking.now.wanted.now.short
            → IfErr result (λ failure. HasNotGivenFirst F.Open.is_up F.Open.is_sound F.Open.holds F.Open.kept
            F.Open.block F.saw F.opens R.remaining W.contents (S.told self.now.asking.now.system.now)
            self.now.asking.now.wanted.now.short (others_come others.now) (others_table others.now)
            self.now.names.now giver stores.old failure driver.old driver.new) }
    {
        let Some(name) = name_of(self.names, giver) else {
            return Err(REFUSED);
        };
        if !matches!(others.come(), Come::Nowhere) {
            say(self.asking.system, &Said::GoneOn);
        }
        if is_given(others.come()) {
            read(
                self.asking.system,
                stores,
                &new_of(self.asking.system.alloc(), name)?,
            )
        } else {
            self.give(stores, driver, name, others)
        }
    }

    /// Makes the new tables complete, once the giver's new file has this one. The swap that is due then.
    pub fn due<F: Stores, R: Read, W: Write>(
        &self,
        stores: &mut F,
        driver: &mut DriverLink<R, W>,
        all: &[Kept],
        others: OthersThere,
        first: &Kept,
    ) -> Result<DueSwap, Failure>
        ensures due { IfOk result (IsDue F.saw stores.new (others_at others) self.now.names.now all.now) }
        ensures last { IfOk result (λ due. IsAnswered (others_at others)
            (heard.Random (confirmed_random due.confirmed)) (talk_of R.remaining W.contents driver.old)
            (talk_of R.remaining W.contents driver.new)) }
        ensures renewed { IfOk result (λ due. AreRenewed F.Open.kept F.Open.block F.made F.saw F.opens first.now
            self.now.names.now all.now stores.old stores.new [] due.news.items) }
        ensures failed { others_at others ≡ self.now.asking.now.wanted.now.short
            → IfErr result (λ failure. IsNotDue F.Open.kept F.Open.block F.made F.saw F.opens
            self.now.asking.now.wanted.now.short self.now.names.now all.now first.now stores.old failure
            (talk_of R.remaining W.contents driver.old) (talk_of R.remaining W.contents driver.new)) }
    {
        let asking = self.asking;
        let mut news = Vec::new(asking.system.alloc());
        self.renew_all(stores, self.names, all, first, &mut news)?;
        let confirmed = asking.confirm(driver, others, &news)?;
        let number = free_number(asking.system.alloc(), stores, self.names, &[])?;
        match Swap::of(&confirmed, all, &news, number, self.copied_names()?) {
            Ok(swap) => Ok(DueSwap {
                swap,
                confirmed,
                news,
            }),
            Err(refusal) => Err(asking.refusal(refusal)),
        }
    }

    /// Gives the short address. The swap that is due then.
    fn gives<F: Stores, R: Read, W: Write>(
        &self,
        stores: &mut F,
        driver: &mut DriverLink<R, W>,
        all: &[Kept],
        report: &mut Report,
    ) -> Result<DueSwap, Failure>
        ensures due { IfOk result (IsDue F.saw stores.new self.now.asking.now.wanted.now.short self.now.names.now
            all.now) }
        ensures replaced { IfOk result (λ due. HasReplacedSo F.Open.is_up F.Open.is_sound F.Open.holds F.Open.kept
            F.Open.block F.made
            F.saw F.opens R.remaining W.contents (S.told self.now.asking.now.system.now) self.now.asking.now.wanted.now
            self.now.names.now all.now due.news.items (confirmed_random due.confirmed) stores.old stores.new
            driver.old driver.new) }
        ensures noted { IfOk result (λ _. report.new ≡ report.old) }
        ensures failed { IfErr result (λ failure. ((driver.new ≡ driver.old) × (report.new ≡ report.old))
            ⊎ HasNotReplacedSo F.Open.is_up F.Open.is_sound F.Open.holds F.Open.kept F.Open.block F.made
            F.saw F.opens R.remaining W.contents (S.told self.now.asking.now.system.now) self.now.asking.now.wanted.now
            self.now.names.now all.now failure stores.old report.old report.new driver.old driver.new) }
    {
        let asking = self.asking;
        put_aside_if(asking.wanted.is_again, asking.system, stores, self.names)?;
        let plan = self.plan(stores, all)?;
        let giver = plan.giver;
        let others = asking.others_there(driver, plan.come, plan.table, report)?;
        let first = self.first(stores, driver, giver, &others)?;
        // What else the giver's new file has reserved tells a later call that the address is given there.
        if has_address(&first, asking.wanted.short) {
            self.due(stores, driver, all, others, &first)
        } else {
            Err(asking.not_given(driver))
        }
    }
}

/// The name of a file, by its number.
fn name_of(names: &[String], number: usize) -> Option<&str>
    ensures { IfSome result (λ name. IsNamed names.now number name.now) }
{
    match names.get(number) {
        Some(name) => Some(name.as_str()),
        None => None,
    }
}

/// Whether an earlier call has given the short address.
fn is_given(come: &Come) -> bool
    ensures { result ≡ is_given come.now }
{
    match *come {
        Come::Nowhere | Come::Reserved(_) => false,
        Come::Given(_) => true,
    }
}

/// Puts all new files of these names aside. No journal lies beside their files, and all others are kept from these.
fn put_aside<S: Voice + AllocGlobal, F: Stores>(
    system: &S,
    stores: &mut F,
    names: &[String],
) -> Result<(), Failure>
    ensures { OnOk result (AreAside F.made F.saw (S.told system.now) names.now stores.old stores.new) }
{
    let [name, more @ ..] = names else {
        return Ok(());
    };
    put_one_aside(system, stores, name)?;
    put_aside(system, stores, more)
}

/// The same, if a replacement is to begin again.
pub(crate) fn put_aside_if<S: Voice + AllocGlobal, F: Stores>(
    is_again: bool,
    system: &S,
    stores: &mut F,
    names: &[String],
) -> Result<(), Failure>
    ensures { OnOk result (AreAsideIf is_again F.made F.saw (S.told system.now) names.now stores.old stores.new) }
{
    if is_again {
        put_aside(system, stores, names)
    } else {
        Ok(())
    }
}

/// Adds copies of names.
#[tactic(auto, using(std::proofs::lemmas::List::append_assoc))]
fn copy_all(alloc: Global, names: &[String], copies: &mut Vec<String>) -> Result<(), Failure>
    ensures { OnOk result (map string_bytes copies.new.items
        ≡ map string_bytes copies.old.items ++ map string_bytes names.now) }
{
    let [name, more @ ..] = names else {
        return Ok(());
    };
    add(copies, String::from_str(alloc, name)?)?;
    copy_all(alloc, more, copies)
}

/// No journal of a swap lies beside any of these files. They may have been announced while the files were opened.
pub(crate) fn are_unannounced<F: Stores>(
    alloc: Global,
    stores: &F,
    names: &[String],
) -> Result<(), Failure>
    ensures { OnOk result (AreUnannounced F.saw stores.now names.now) }
{
    let [name, more @ ..] = names else {
        return Ok(());
    };
    match found(alloc, stores, name)? {
        Some(_) => Err(Failure::Unfinished),
        None => are_unannounced(alloc, stores, more),
    }
}

impl<S: Voice + AllocGlobal, F: Stores, R: Read, W: Write> Holder<F, Session<R, W>>
    for Replacing<'_, S> {
    type Due = DueSwap;

    type Out = DueSwap;

    ghost use Rattle.dali_commission_replaced.specs.Due.{Dues, EndsDue};

    ghost dues = { λ replacing all was at x y result. Dues F.Open.is_up F.Open.is_sound F.Open.holds F.Open.kept
        F.Open.block F.made F.saw F.opens R.remaining W.contents (S.told replacing.asking.now.system.now)
        replacing.asking.now.wanted.now replacing.names.now all was at x y result };

    ghost ends = { λ _ from to due result. EndsDue F.made F.began F.saw from to due result };

    fn refused(&self, name: &str, failure: Failure) -> Failure {
        say_refused(self.asking.system, name, failure)
    }

    fn take(
        &mut self,
        stores: &mut F,
        all: &[Kept],
        session: &mut Session<R, W>,
    ) -> Result<DueSwap, Failure> {
        let system = self.asking.system;
        are_unannounced(system.alloc(), stores, self.names)?;
        let gave = self.gives(stores, &mut session.driver, all, &mut session.report);
        session.report.note_lines(system, &session.driver, gave)
    }

    /// Exchanges the files.
    fn then(self, stores: &mut F, due: DueSwap) -> Result<DueSwap, Failure> {
        exchange(self.asking.system, stores, &due.swap)?;
        Ok(due)
    }
}

/// Adds where the files of these names lie.
#[tactic(auto, using(std::proofs::lemmas::List::append_assoc))]
fn add_places<S: Voice + AllocGlobal, F: Stores>(
    system: &S,
    stores: &F,
    records: &[String],
    places: &mut Vec<String>,
) -> Result<(), Failure>
    ensures { OnOk result (AreAtPlaces F.saw stores.now records.now places.old.items places.new.items) }
{
    let [name, more @ ..] = records else {
        return Ok(());
    };
    add(places, place_of(system, stores, name)?)?;
    add_places(system, stores, more, places)
}

/// Where the files of these names lie.
pub(crate) fn places_of<S: Voice + AllocGlobal, F: Stores>(
    system: &S,
    stores: &F,
    records: &[String],
) -> Result<Vec<String>, Failure>
    ensures { IfOk result (λ places. AreAtPlaces F.saw stores.now records.now [] places.items) }
{
    let mut places = Vec::new(system.alloc());
    add_places(system, stores, records, &mut places)?;
    Ok(places)
}

/// Whether a file is not another one, and neither lies where the other one's new file is to lie.
fn is_apart(alloc: Global, name: &str, other: &str) -> Result<bool, Failure>
    ensures { IfOk result (λ is. IsTrue is ↔ IsApart name.now other.now) }
{
    let (new, others_new) = (new_of(alloc, name)?, new_of(alloc, other)?);
    Ok(name != other && name != others_new.as_str() && other != new.as_str())
}

/// Whether a file is so to each of some others.
fn is_apart_from(alloc: Global, name: &str, others: &[String]) -> Result<bool, Failure>
    ensures { IfOk result (λ is. IsTrue is ↔ IsApartFrom name.now others.now) }
{
    let [other, more @ ..] = others else {
        return Ok(true);
    };
    if is_apart(alloc, name, other)? {
        is_apart_from(alloc, name, more)
    } else {
        Ok(false)
    }
}

/// Whether no file is another one, and none lies where another one's new file is to lie.
pub(crate) fn are_apart(alloc: Global, names: &[String]) -> Result<bool, Failure>
    ensures { IfOk result (λ are. IsTrue are ↔ AreApart names.now) }
{
    let [name, more @ ..] = names else {
        return Ok(true);
    };
    if is_apart_from(alloc, name, more)? {
        are_apart(alloc, more)
    } else {
        Ok(false)
    }
}

/// Notes the first of some tables.
pub(crate) fn note_first(tables: &[Kept], report: &mut Report)
    ensures { report.new ≡ first_table tables.now report.old }
{
    if let [table, ..] = tables {
        report.table = own_rows(table);
    }
}

/// Notes the table of the first file. If that cannot be read any more, none is noted.
pub(crate) fn note_read<F: Stores>(
    alloc: Global,
    stores: &F,
    records: &[String],
    report: &mut Report,
)
    ensures { NotesFirst F.saw stores.now records.now report.old report.new }
{
    if let [name, ..] = records {
        if let Ok(kept) = lend_copy(alloc, stores, name, Reading, &mut ()) {
            report.table = own_rows(&kept);
        }
    }
}

/// Gives a new luminaire the short address of one that is gone, in all records of the site; or finishes what an earlier
/// call has begun. It ends well only with the new gear that was heard to have the address.
pub fn replaces<S, F, R, W>(
    system: &S,
    stores: &mut F,
    session: &mut Session<R, W>,
    manner: Manner,
    records: &[String],
    wanted: &Replacement,
) -> Result<(), Failure>
where
    S: Voice + AllocGlobal,
    F: Stores,
    R: Read,
    W: Write,
    ensures replaced { OnOk result ((random : ℕ) × HasReplaced F.Open.is_up F.Open.is_sound F.Open.holds F.Open.kept
        F.Open.block F.made F.saw F.opens R.remaining W.contents (S.told system.now) wanted.now records.now random
        stores.old stores.new session.old session.new) }
    ensures failed { IfErr result (λ failure. HasNotReplaced F.Open.is_up F.Open.is_sound F.Open.holds F.Open.kept
        F.Open.block F.made F.began F.saw F.opens R.remaining W.contents (S.told system.now) wanted.now records.now
        failure stores.old stores.new session.old session.new) }
{
    let asking = Asking {
        system,
        wanted,
        manner,
    };
    let names = places_of(system, stores, records)?;
    if !are_apart(system.alloc(), &names)? {
        return Err(asking.refusal(ReplaceRefusal::SameFile));
    }
    if let Some(swap) = exchanged(system, stores, &names, wanted.short)? {
        let _heard = confirms(&asking, stores, session, &swap)?;
        note_read(system.alloc(), stores, records, &mut session.report);
        return Ok(());
    }
    let mut copies = Vec::new(system.alloc());
    read_all(system, stores, &names, &mut copies)?;
    let replacing = Replacing {
        asking: &asking,
        names: &names,
    };
    let done = stores.hold(system.alloc(), &names, replacing, session)?;
    asking.say_confirmed(&done.confirmed, &done.news);
    let _ = say_kept(system, done.swap.names(), done.swap.number());
    note_first(&done.news, &mut session.report);
    Ok(())
}
