//! The records of a name, as the tasks borrow them.

ghost use Rattle.std.specs.Prelude.{◌≡◌, Ok, IfOk, IfErr, OnOk, string_bytes};
ghost use Rattle.dali_commissioning.specs.Runs.{IsRead};
ghost use Rattle.dali_commission_stores.specs.Calls.{Read, AreMade};
ghost use Rattle.dali_commission_stores.specs.Lent.{IsLent, IsOpened, IsCopied, IsUnread, AreRead, lent_calls};
ghost use Rattle.dali_commission_said.specs.Failures.{answered};
ghost use Rattle.dali_commission_stores.specs.Seen.{IsBeside, IsSeen};

use crate::settling::found;
use crate::stores::{Borrower, Stores};
use dali_commission_said::{Failure, StoreFault, Voice, add, or_say};
use dali_commissioning::outside;
use dali_replacement::{journal_of, refill};
use dali_reserve::{Keep, KeepError};
use dali_script::{Block, Kept};
use std::alloc::Global;

/// Records that a copy has shown to be of a block, and beside which no journal of a swap lay. Only such are lent, so
/// nothing else is opened to be written, unless it is changed in between.
#[derive(Drop)]
pub struct Seen<'a> {
    name: &'a str,
    block: Block,
    journal: String,
}

impl<'a> Seen<'a> {
    /// Looks at them.
    fn look<F: Stores>(
        alloc: Global,
        stores: &F,
        name: &'a str,
        block: Block,
    ) -> Result<Seen<'a>, Failure>
        ensures { IfOk result (IsSeen F.saw stores.now name.now block) }
    {
        let journal = journal_beside(alloc, stores, name)?;
        match outside(&kept(&mut stores.copy(name, &journal)?)?, block) {
            Some(short) => Err(Failure::Outside(short)),
            None => Ok(Seen {
                name,
                block,
                journal,
            }),
        }
    }

    /// Their name.
    pub fn name(&self) -> &str
        ensures { result.now ≡ self.now.name.now }
    {
        self.name
    }

    /// The block of the controller to which they are lent.
    pub fn block(&self) -> Block
        ensures { result ≡ self.now.block }
    {
        self.block
    }

    /// The name of the journal, which may have been written since.
    pub fn journal(&self) -> &str
        ensures { result.now ≡ string_bytes self.now.journal }
    {
        &self.journal
    }
}

/// The name of the journal of a swap, if none lies beside the records of this name.
fn journal_beside<F: Stores>(alloc: Global, stores: &F, name: &str) -> Result<String, Failure>
    ensures { IfOk result (λ at. IsBeside F.saw stores.now name.now (string_bytes at)) }
{
    let place = stores.place_of(alloc, name)?;
    match found(alloc, stores, &place)? {
        Some(_) => Err(Failure::Unfinished),
        None => Ok(journal_of(alloc, &place)?),
    }
}

/// How it ended, once the records are closed: why they could not be closed comes after what the borrower ended with.
fn ended<T: Drop, F: Stores>(
    stores: &F,
    seen: &Seen<'_>,
    done: Result<T, Failure>,
    closed: Result<(), Failure>,
) -> Result<T, Failure>
    ensures done { IfOk result (λ out. done ≡ Ok out) }
    ensures closed { OnOk result (closed ≡ Ok tt) }
{
    match (done, closed) {
        (Ok(out), Ok(())) => Ok(out),
        (Ok(_), Err(failure)) => Err(failure),
        (Err(failure), _) => Err(stores.why(seen, failure)),
    }
}

/// Opens records that were seen, lends them, and closes them.
fn lend_seen<F: Stores, D, B: Borrower<F::Open, D>>(
    stores: &mut F,
    seen: &Seen<'_>,
    borrower: B,
    beside: &mut D,
) -> Result<B::Out, Failure>
    ensures lent { IsLent (λ lent. F.opens stores.old seen.now lent × (F.Open.block lent ≡ seen.now.block))
        (B.came borrower) beside.old beside.new result }
    ensures made { OnOk result (AreMade F.made (lent_calls seen.now.name.now) stores.old stores.new) }
{
    let mut open = stores.open(seen)?;
    let done = borrower.take(&mut open, beside);
    let closed = stores.close(seen, open);
    ended(stores, seen, done, closed)
}

/// Looks at the records of a name, opens them for a controller with this block, lends them, and closes them. They are
/// made if there are none.
pub fn lend<F: Stores, D, B: Borrower<F::Open, D>>(
    alloc: Global,
    stores: &mut F,
    name: &str,
    block: Block,
    borrower: B,
    beside: &mut D,
) -> Result<B::Out, Failure>
    ensures lent { IsLent (IsOpened F.Open.block F.saw F.opens stores.old name.now block) (B.came borrower)
        beside.old beside.new result }
    ensures made { OnOk result (AreMade F.made (lent_calls name.now) stores.old stores.new) }
{
    let seen = Seen::look(alloc, stores, name, block)?;
    lend_seen(stores, &seen, borrower, beside)
}

/// Lends a copy of the records of a name, if they are there.
pub fn lend_copy<F: Stores, D, B: Borrower<F::Copy, D>>(
    alloc: Global,
    stores: &F,
    name: &str,
    borrower: B,
    beside: &mut D,
) -> Result<B::Out, Failure>
    ensures { IsLent (IsCopied F.Copy.is_up F.Copy.is_sound F.Copy.holds F.Copy.block F.saw stores.now name.now)
        (B.came borrower) beside.old beside.new result }
{
    let journal = journal_beside(alloc, stores, name)?;
    if stores.has(name) {
        let mut copy = stores.copy(name, &journal)?;
        borrower.take(&mut copy, beside)
    } else {
        Err(Failure::Store(StoreFault::Missing))
    }
}

fn answered<T>(done: Result<T, KeepError>) -> Result<T, Failure>
    ensures { result ≡ answered done }
{
    match done {
        Ok(it) => Ok(it),
        Err(error) => Err(Failure::Store(StoreFault::Store(error))),
    }
}

/// The records of a store that is open.
pub fn kept<K: Keep>(store: &mut K) -> Result<Kept, Failure>
    ensures kept { IfOk result (λ kept. kept ≡ K.kept store.new) }
    ensures read { IfOk result (IsRead K.is_up K.is_sound K.holds (K.block store.old) store.old store.new) }
    ensures block { K.block store.new ≡ K.block store.old }
    ensures failed { IfErr result IsUnread }
{
    answered(store.read())
}

/// Who fills records with all gear of a table, and with what their old ones have reserved for these.
#[derive(Drop)]
pub struct Filling<'a> {
    pub from: &'a Kept,
    pub before: &'a Kept,
}

impl<K: Keep, D> Borrower<K, D> for Filling<'_> {
    type Out = ();

    ghost use Rattle.std.specs.Prelude.{◌≡◌, OnOk};
    ghost use Rattle.dali_replacement.specs.Tables.{Keeps, Reserves};

    ghost came = { λ filling _ store x y result. (y ≡ x) × OnOk result (Keeps filling.from.now (K.kept store)
        × Reserves filling.before.now.reserved filling.from.now (K.kept store)) };

    fn take(self, store: &mut K, _beside: &mut D) -> Result<(), Failure> {
        answered(refill(store, self.from, self.before.reserved()))
    }
}

/// Who reads records.
#[derive(Drop)]
pub struct Reading;

impl<K: Keep, D> Borrower<K, D> for Reading {
    type Out = Kept;

    ghost use Rattle.std.specs.Prelude.{◌≡◌, IfOk};
    ghost use Rattle.dali_commissioning.specs.Runs.{IsRead};

    ghost came = { λ _ from to x y result. (y ≡ x)
        × IfOk result (IsRead K.is_up K.is_sound K.holds (K.block from) from to) };

    fn take(self, store: &mut K, _beside: &mut D) -> Result<Kept, Failure> {
        kept(store)
    }
}

/// The records of this name, as a copy of them has them.
pub fn read<S: Voice + AllocGlobal, F: Stores>(
    system: &S,
    stores: &F,
    name: &str,
) -> Result<Kept, Failure>
    ensures { IfOk result (λ kept. F.saw stores.now (Read name.now kept)) }
{
    or_say(
        system,
        name,
        lend_copy(system.alloc(), stores, name, Reading, &mut ()),
    )
}

/// Adds the records of these names to those of others.
#[tactic(auto, using(std::proofs::lemmas::List::append_assoc))]
pub fn read_all<S: Voice + AllocGlobal, F: Stores>(
    system: &S,
    stores: &F,
    names: &[String],
    tables: &mut Vec<Kept>,
) -> Result<(), Failure>
    ensures { OnOk result (AreRead F.saw stores.now names.now tables.old.items tables.new.items) }
{
    let [name, more @ ..] = names else {
        return Ok(());
    };
    add(tables, read(system, stores, name)?)?;
    read_all(system, stores, more, tables)
}
