//! A swap of files is brought to an end: step by step by `dali_replacement`, which says what is due at which moment.

ghost use Rattle.std.specs.Prelude.{◌≡◌, false, List, IfOk, IfSome, OnErr, OnOk, option_map, string_bytes};
ghost use Rattle.dali_replacement.specs.Swapping.{number_of};
ghost use Rattle.dali_commission_stores.specs.Seen.{LiesSo, AreLying, IsMoment, IsFirstJournal, IsFound};
ghost use Rattle.dali_replacement.specs.declared.swap.Step.{Step};
ghost use Rattle.dali_commission_said.specs.Failures.{or_unfinished};
ghost use Rattle.dali_commission_stores.specs.Calls.{AreMade};
ghost use Rattle.dali_commission_stores.specs.Settled.{syncing, IsEnded, IsEndedInPart, IsSettled, IsSettledInPart};
ghost use Rattle.dali_commission_stores.specs.Settled.{IsAlone, IsExchanged, IsExchangedInPart};
ghost use Rattle.dali_commission_stores.specs.Settling.{IsNamed, IsDone, IsBegun, AreBegun, GoesOn, GoesBack};
ghost use Rattle.dali_commission_stores.specs.Settling.{GoesOnInPart, GoesBackInPart};

use crate::stores::{Actor, Stores};
use arrayvec::ArrayVec;
use dali_commission_said::{Failure, REFUSED, Said, StoreFault, Voice, or_say, say};
use dali_replacement::{
    Lies, MOST_FILES, Step, Swap, journal_of, kept_of, moment_of, new_of, step_after,
};
use std::alloc::Global;

/// The name of the file with this number.
fn name_at(swap: &Swap, number: u32) -> Result<&str, Failure>
    ensures { IfOk result (λ name. IsNamed swap.now number name.now) }
{
    match swap.names().get(number as usize) {
        Some(name) => Ok(name.as_str()),
        None => Err(Failure::Unfinished),
    }
}

/// What lies at the place of a file, and beside it.
fn lies<F: Stores>(alloc: Global, stores: &F, swap: &Swap, name: &str) -> Result<Lies, Failure>
    ensures { IfOk result (LiesSo F.saw stores.now name.now (number_of swap.now)) }
{
    Ok(Lies {
        journal: stores.has(&journal_of(alloc, name)?),
        new: stores.has(&new_of(alloc, name)?),
        at: stores.has(name),
        kept: stores.has(&kept_of(alloc, name, swap.number())?),
    })
}

/// Adds what lies at the places of these files, and beside them.
#[tactic(auto, using(std::proofs::lemmas::List::append_assoc))]
fn lies_all<F: Stores>(
    alloc: Global,
    stores: &F,
    swap: &Swap,
    names: &[String],
    all: &mut ArrayVec<Lies, MOST_FILES>,
) -> Result<(), Failure>
    ensures { OnOk result (AreLying F.saw stores.now (number_of swap.now) names.now all.old.items all.new.items) }
{
    let [name, more @ ..] = names else {
        return Ok(());
    };
    let lies = lies(alloc, stores, swap, name)?;
    if all.try_push(lies).is_err() {
        return Err(Failure::Unfinished);
    }
    lies_all(alloc, stores, swap, more, all)
}

/// The moment at which a swap is, by what lies there.
fn moment<F: Stores>(alloc: Global, stores: &F, swap: &Swap) -> Result<Option<u32>, Failure>
    ensures { IfOk result (λ moment. IfSome moment (IsMoment F.saw swap.now stores.now)) }
{
    let mut all = ArrayVec::new();
    lies_all(alloc, stores, swap, swap.names(), &mut all)?;
    Ok(moment_of(&all))
}

/// Does a step of a swap.
fn does<F: Stores>(alloc: Global, stores: &mut F, swap: &Swap, step: Step) -> Result<(), Failure>
    ensures done { OnOk result (IsDone F.made swap.now step stores.old stores.new) }
    ensures left { OnErr result (IsBegun F.made F.began swap.now step stores.old stores.new) }
{
    match step {
        Step::Announce(number) => {
            let journal = journal_of(alloc, name_at(swap, number)?)?;
            stores.write(alloc, &journal, &swap.text(alloc)?)
        }
        Step::SetAside(number) => {
            let name = name_at(swap, number)?;
            stores.rename(alloc, name, &kept_of(alloc, name, swap.number())?)
        }
        Step::Place(number) => {
            let name = name_at(swap, number)?;
            let new = new_of(alloc, name)?;
            stores.liken(&new, &kept_of(alloc, name, swap.number())?);
            stores.rename(alloc, &new, name)
        }
        Step::Forget(number) => stores.remove(alloc, &journal_of(alloc, name_at(swap, number)?)?),
    }
}

/// Goes on from a moment of a swap up to another one.
fn goes_on<F: Stores>(
    alloc: Global,
    stores: &mut F,
    swap: &Swap,
    from: u32,
    to: u32,
) -> Result<(), Failure>
    ensures goes_on { OnOk result ((steps : List Step) × GoesOn F.made swap.now from to steps stores.old stores.new) }
    ensures left { OnErr result ((steps : List Step)
        × GoesOnInPart F.made F.began swap.now from to steps stores.old stores.new) }
{
    if from >= to {
        return Ok(());
    }
    let Some(step) = step_after(swap.count(), from) else {
        return Ok(());
    };
    does(alloc, stores, swap, step)?;
    goes_on(alloc, stores, swap, from + 1, to)
}

/// Takes a swap back, at a moment at which nothing was moved: the journals are removed, the last one first.
fn goes_back<F: Stores>(
    alloc: Global,
    stores: &mut F,
    swap: &Swap,
    from: u32,
) -> Result<(), Failure>
    ensures goes_back { OnOk result (GoesBack F.made swap.now from stores.old stores.new) }
    ensures left { OnErr result (GoesBackInPart F.made F.began swap.now from stores.old stores.new) }
{
    if from == 0 {
        return Ok(());
    }
    does(alloc, stores, swap, Step::Forget(from - 1))?;
    goes_back(alloc, stores, swap, from - 1)
}

/// Puts on the disk what was done in the folders of these files.
fn syncs<F: Stores>(stores: &mut F, names: &[String]) -> Result<(), Failure>
    ensures synced { OnOk result (AreMade F.made (syncing names.now) stores.old stores.new) }
    ensures left { OnErr result (AreBegun F.made F.began (syncing names.now) stores.old stores.new) }
{
    let [name, more @ ..] = names else {
        return Ok(());
    };
    stores.sync(name)?;
    syncs(stores, more)
}

/// Brings a swap to its end, or takes it back if not each journal was written. Whether it was brought to its end.
fn ends<S: Voice + AllocGlobal, F: Stores>(
    system: &S,
    stores: &mut F,
    swap: &Swap,
) -> Result<bool, Failure>
    ensures ended { IfOk result (IsEnded F.made F.saw swap.now stores.old stores.new) }
    ensures left { OnErr result (IsEndedInPart F.made F.began F.saw swap.now stores.old stores.new) }
{
    let (alloc, count) = (system.alloc(), swap.count());
    match moment(alloc, stores, swap)? {
        Some(moment) if moment < count => {
            goes_back(alloc, stores, swap, moment)?;
            Ok(false)
        }
        Some(moment) => {
            goes_on(alloc, stores, swap, moment, 4 * count)?;
            Ok(true)
        }
        None => {
            say(system, &Said::NoMoment);
            Err(Failure::Unfinished)
        }
    }
}

/// Ends a swap as `ends` does, once all that an earlier call has done is on the disk.
fn settles<S: Voice + AllocGlobal, F: Stores>(
    system: &S,
    stores: &mut F,
    swap: &Swap,
) -> Result<bool, Failure>
    ensures settled { IfOk result (IsSettled F.made F.saw swap.now stores.old stores.new) }
    ensures left { OnErr result (IsSettledInPart F.made F.began F.saw swap.now stores.old stores.new) }
{
    syncs(stores, swap.names())?;
    ends(system, stores, swap)
}

/// A swap that could not be brought to its end is unfinished, and why is said.
fn or_stopped<T, S: Voice>(system: &S, done: Result<T, Failure>) -> Result<T, Failure>
    ensures { result ≡ or_unfinished done }
{
    match done {
        Ok(it) => Ok(it),
        Err(failure) => {
            if let Failure::Store(fault) = failure {
                say(system, &Said::NotExchanged(fault));
            }
            Err(Failure::Unfinished)
        }
    }
}

/// Who settles a swap alone.
#[derive(Drop)]
struct Settling<'a, S> {
    system: &'a S,
    swap: &'a Swap,
}

impl<S: Voice + AllocGlobal, F: Stores> Actor<F> for Settling<'_, S> {
    type Out = bool;

    ghost use Rattle.std.specs.Prelude.{IfOk, OnErr};
    ghost use Rattle.dali_commission_stores.specs.Settled.{IsSettled, IsSettledInPart};

    ghost acts = { λ settling x y result. IfOk result (IsSettled F.made F.saw settling.swap.now x y)
        × OnErr result (IsSettledInPart F.made F.began F.saw settling.swap.now x y) };

    fn act(self, stores: &mut F) -> Result<bool, Failure> {
        or_stopped(self.system, settles(self.system, stores, self.swap))
    }
}

/// The first journal that lies there.
fn first_journal<F: Stores>(
    alloc: Global,
    stores: &F,
    names: &[String],
) -> Result<Option<String>, Failure>
    ensures { IfOk result (λ at. IsFirstJournal F.saw stores.now names.now (option_map (λ it. string_bytes it) at)) }
{
    let [name, more @ ..] = names else {
        return Ok(None);
    };
    let journal = journal_of(alloc, name)?;
    if stores.has(&journal) {
        Ok(Some(journal))
    } else {
        first_journal(alloc, stores, more)
    }
}

/// Brings a swap to its end, or takes it back. Whether the new files have taken the places of the old ones.
pub fn settle<S: Voice + AllocGlobal, F: Stores>(
    system: &S,
    stores: &mut F,
    swap: &Swap,
) -> Result<bool, Failure>
    ensures settled { IfOk result (IsSettled F.made F.saw swap.now stores.old stores.new) }
    ensures alone { OnOk result (IsAlone F.saw swap.now stores.old) }
    ensures left { OnErr result (IsSettledInPart F.made F.began F.saw swap.now stores.old stores.new) }
{
    let settling = Settling { system, swap };
    match first_journal(system.alloc(), stores, swap.names())? {
        Some(journal) => or_say(system, &journal, stores.alone(&journal, settling)),
        None => settling.act(stores),
    }
}

/// Exchanges files: each journal is written first, and from then on the swap goes on to its end.
pub fn exchange<S: Voice + AllocGlobal, F: Stores>(
    system: &S,
    stores: &mut F,
    swap: &Swap,
) -> Result<(), Failure>
    ensures exchanged { OnOk result (IsExchanged F.made F.saw swap.now stores.old stores.new) }
    ensures left { OnErr result (IsExchangedInPart F.made F.began F.saw swap.now stores.old stores.new) }
{
    let announced = goes_on(system.alloc(), stores, swap, 0, swap.count());
    or_stopped(system, announced)?;
    if settle(system, stores, swap)? {
        Ok(())
    } else {
        Err(Failure::Unfinished)
    }
}

/// The swap of which a journal lies beside the records of this name, if one does.
pub fn found<F: Stores>(alloc: Global, stores: &F, name: &str) -> Result<Option<Swap>, Failure>
    ensures { IfOk result (λ swap. IsFound F.saw stores.now name.now swap) }
{
    const BAD: Failure = Failure::Store(StoreFault::BadJournal);
    let text = match stores.text(alloc, &journal_of(alloc, name)?) {
        Ok(Some(text)) => text,
        Ok(None) => return Ok(None),
        Err(Failure::Store(StoreFault::Foreign)) => return Err(BAD),
        Err(failure) => return Err(failure),
    };
    match Swap::read(alloc, &text) {
        Ok(Some(swap)) if swap.has(name) => Ok(Some(swap)),
        Ok(_) => Err(BAD),
        Err(_) => Err(REFUSED),
    }
}
