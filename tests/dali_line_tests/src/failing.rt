//! A store of the tests' own: it fails at one commit, before or after the record is there.

ghost use Rattle.std.specs.Prelude.{◌≡◌, ◌<◌, ◌↔◌, ◌⊎◌, false, List, [], ◌∷◌, ◌++◌, IsTrue};
ghost use Rattle.std.proofs.Common.{subst, sym};
ghost use Rattle.dali_script.specs.declared.records.Record.{Record};
ghost use Rattle.dali_script.specs.Records.{Kept, Fits, with_record};
ghost use Rattle.dali_script.specs.declared.records.AddError.TheVariants as add;
ghost use Rattle.dali_reserve.specs.Refusals.{RefusesCommit};
ghost use Rattle.dali_reserve.specs.Store.{IsReplay, HasRecords};
ghost use Rattle.dali_reserve.specs.declared.error.KeepError.TheVariants.{AddressTaken, RandomTaken, NotReserved};

use super::calls::comes_up;
use super::full::FullBus;
use super::threads::{
    Blanks, TURNS, blanks, closed, go_back, last_two, line_of, site_with, store_of,
};
use super::values::{block, same};
use dali_enrol::{Directory, Table};
use dali_line::{Bus, Gate, Moment, OpenGate, Outcome, Pumper, Worker};
use dali_reserve::{Keep, KeepError, MemoryKeep};
use dali_script::{AddError, Block, End, Fault, Kept, Record};
use dali_world::SiteState;
use std::alloc::Global;
use std::marker::Brand;
use std::process::Abort;
use std::sync::Wait;
use std::sync::atomic::Ordering::SeqCst;
use std::sync::atomic::{AtomicBool, AtomicU32};
use std::sync::ledger::Ledger;
use std::test::Fail;
use std::thread::{Threads, join};

/// A store in memory that is told to fail once: after so many commits the next one answers StoreFailed, and its record
/// is stored or not. A read is due then, as the trait asks.
#[derive(Drop)]
struct FailingKeep<'a> {
    store: MemoryKeep,
    /// What the store is known to hold, unless a read is due.
    known: Kept,
    /// How many commits come before the one that fails, if one is to fail.
    before: Option<u8>,
    /// Whether its record is stored.
    is_stored: bool,
    must_read: bool,
    /// How often it was asked to commit.
    asked: &'a AtomicU32,
}

/// Adds a record to a store that is of this block. Whether it is added.
fn is_added(store: &mut MemoryKeep, block: Block, added: &Record) -> bool
    requires { Fits block added.now }
    ensures there { IsTrue result → store.new ≡ with_record store.old added.now }
    ensures adds { IsTrue result → (xs : List Record) → IsReplay store.old.block xs store.old
        → IsReplay store.new.block (xs ++ added.now ∷ []) store.new }
    ensures same { result ≡ false → store.new ≡ store.old }
    ensures sound { HasRecords store.new }
{
    store.is_of(block) && store.commit(*added).is_ok()
}

impl FailingKeep<'_> {
    /// Whether the next commit fails. The one after it is a commit nearer to failing.
    fn fails(&mut self) -> bool
        ensures store { self.new.store ≡ self.old.store }
        ensures known { self.new.known ≡ self.old.known }
        ensures must_read { self.new.must_read ≡ self.old.must_read }
    {
        match self.before {
            Some(before) => {
                self.before = before.checked_sub(1);
                before == 0
            }
            None => false,
        }
    }

    /// Stores a record, unless this commit fails before. Whether the store tells that it did.
    fn stores(&mut self, block: Block, added: &Record) -> bool
        requires { Fits block added.now }
        ensures known { self.new.known ≡ self.old.known }
        ensures must_read { self.new.must_read ≡ self.old.must_read }
        ensures told { IsTrue result → self.new.store ≡ with_record self.old.store added.now }
        ensures adds { IsTrue result → (xs : List Record) → IsReplay self.old.store.block xs self.old.store
            → IsReplay self.new.store.block (xs ++ added.now ∷ []) self.new.store }
        ensures adds_or_not { (xs : List Record) → IsReplay self.old.store.block xs self.old.store
            → IsReplay self.new.store.block xs self.new.store
            ⊎ IsReplay self.new.store.block (xs ++ added.now ∷ []) self.new.store }
        ensures sound { HasRecords self.old.store → HasRecords self.new.store }
    {
        let fails = self.fails();
        if fails && !self.is_stored {
            return false;
        }
        is_added(&mut self.store, block, added) && !fails
    }
}

/// What a record that is refused is to a store.
fn refused(error: AddError) -> KeepError
    ensures address_taken { (result ≡ AddressTaken) ↔ (error ≡ add.AddressTaken) }
    ensures random_taken { (result ≡ RandomTaken) ↔ (error ≡ add.RandomTaken) }
    ensures not_reserved { (result ≡ NotReserved) ↔ (error ≡ add.NotReserved) }
    ensures refusal { RefusesCommit result }
{
    match error {
        AddError::AddressTaken => KeepError::AddressTaken,
        AddError::RandomTaken => KeepError::RandomTaken,
        AddError::NotReserved => KeepError::NotReserved,
    }
}

impl Keep for FailingKeep<'_> {
    ghost block = { λ s. s.known.block };

    ghost holds = { λ s xs. IsReplay s.store.block xs s.store };

    ghost kept = { λ s. s.known };

    ghost must_read = { λ s. s.must_read };

    ghost is_sound = { λ s. HasRecords s.store × (s.must_read ≡ false → s.known ≡ s.store) };

    ghost is_up = { λ _. Unit {0} };

    ghost has_records = { λ s sound. sound.0 };

    ghost replay = { λ s xs sound read held.
        subst (λ (k : Kept). IsReplay k.block xs k) (sym (sound.1 read)) held };

    fn read(&mut self) -> Result<Kept, KeepError> {
        let kept = self.store.read()?;
        if kept.block() != self.known.block() {
            return Err(KeepError::StoreFailed);
        }
        self.known = kept.copy();
        self.must_read = false;
        Ok(kept)
    }

    fn commit(&mut self, added: Record) -> Result<(), KeepError> {
        self.asked.fetch_add(1, SeqCst);
        if self.must_read {
            return Err(KeepError::StoreFailed);
        }
        let block = self.known.block();
        if let Err(error) = self.known.add(added) {
            return Err(refused(error));
        }
        self.must_read = true;
        if !self.stores(block, &added) {
            return Err(KeepError::StoreFailed);
        }
        self.must_read = false;
        Ok(())
    }
}

/// A gate that looks how often a store was asked to commit: once between the two moments of a commit.
#[derive(Drop)]
struct Looking<'a> {
    asked: &'a AtomicU32,
    /// How often before the commit.
    before: AtomicU32,
    is_right: &'a AtomicBool,
}

impl Gate for Looking<'_> {
    fn at<R: Wait>(&self, _rt: &R, _controller: u8, moment: Moment) {
        let asked = self.asked.load(SeqCst);
        match moment {
            Moment::BeforeCommit => self.before.store(asked, SeqCst),
            Moment::AfterCommit => {
                if asked.wrapping_sub(self.before.load(SeqCst)) != 1 {
                    self.is_right.store(false, SeqCst);
                }
            }
            Moment::AfterTurn => {}
        }
    }
}

/// What a worker leaves: how it ended, its port, and its store.
type Left<'a, P> = (Outcome, P, FailingKeep<'a>);

fn works<'a, 'b, B: Bus, R: Wait>(
    rt: &R,
    alloc: Global,
    bus: &B,
    directory: &Directory,
    worker: Worker<B::Port, FailingKeep<'a>, Looking<'b>>,
) -> Left<'a, B::Port> {
    match directory.pass(alloc) {
        Ok(pass) => {
            let (outcome, port, keep, _) = worker.run(rt, alloc, bus, directory, pass, TURNS);
            (outcome, port, keep)
        }
        Err(_) => {
            bus.stop(rt);
            (Outcome::NoMemory, worker.port, worker.keep)
        }
    }
}

/// A worker and a pumper run until the worker ends, which it does so. Its port and its store, and the driver.
fn session<'a, B, R>(
    rt: &R,
    alloc: Global,
    bus: &B,
    directory: &Directory,
    port: B::Port,
    driver: B::Driver,
    keep: FailingKeep<'a>,
    end: Outcome,
) -> (B::Port, FailingKeep<'a>, B::Driver)
where
    B: Bus + Sync,
    B::Port: Send + Drop,
    B::Driver: Send + Drop,
    R: Threads + Wait + Abort + Sync,
{
    let is_right = AtomicBool::new(true);
    let gate = Looking {
        asked: keep.asked,
        before: AtomicU32::new(0),
        is_right: &is_right,
    };
    let worker = Worker::new(port, keep, gate);
    let pumper = Pumper::new(driver, OpenGate);
    let ((outcome, port, keep), pumped) = join(
        rt,
        move || works(rt, alloc, bus, directory, worker),
        move || pumper.run(rt, bus, TURNS),
    );
    same(rt, &outcome, &end);
    assert!(rt; is_right.load(SeqCst));
    (port, keep, pumped.0)
}

/// The controller goes down, and comes up with what its store reads: so many reservations and enrolments.
fn restarts<B: FullBus, R: Abort + Wait>(
    rt: &R,
    bus: &B,
    driver: &mut B::Driver,
    keep: &mut FailingKeep<'_>,
    stored: (usize, usize),
) {
    same(rt, &bus.down(rt, driver, 0), &Ok(()));
    let kept = keep.read();
    let Ok(kept) = &kept else {
        assert!(rt; false);
        return;
    };
    same(rt, &(kept.reserved().len(), kept.enrolled().len()), &stored);
    comes_up(rt, bus.up(rt, driver, 0, kept), &Ok(()));
}

/// Whether a table has a gear under the address that the gear has.
fn is_named(site: &SiteState, table: &Table, number: u32) -> bool {
    if number >= site.plan().gear() {
        return false;
    }
    let gear = site.gear(number);
    match gear.short() {
        Some(address) => table.by_address(address) == Some(gear.random()),
        None => false,
    }
}

/// The table of the one controller has each of three gear, under the addresses that the gear has.
fn table_is_true<R: Abort>(rt: &R, site: &SiteState) {
    assert!(rt; site.plan().blocks().len() == 1);
    match site.table(0) {
        Some(table) => {
            same(rt, &table.entries().len(), &3);
            for number in 0..3 {
                assert!(rt; is_named(site, table, number));
            }
        }
        None => assert!(rt; false),
    }
}

/// The site that is left has a true table.
fn has_ended<R: Abort>(rt: &R, site: SiteState) {
    table_is_true(rt, &site);
}

/// The controller halts at the commit that fails. Over what its store has then, a second worker goes on to the end. The
/// port and the driver.
fn sessions<B, R>(
    rt: &R,
    alloc: Global,
    bus: &B,
    directory: &Directory,
    port: B::Port,
    driver: B::Driver,
    keep: FailingKeep<'_>,
    stored: (usize, usize),
) -> (B::Port, B::Driver)
where
    B: FullBus + Sync,
    B::Port: Send + Drop,
    B::Driver: Send + Drop,
    R: Threads + Wait + Abort + Sync,
{
    let halted = Outcome::Halted(Fault::Store);
    let (port, mut keep, mut driver) = session(
        rt, alloc, bus, directory, port, driver, keep, halted,
    );
    restarts(rt, bus, &mut driver, &mut keep, stored);
    let ended = Outcome::Ended(End::AllFound);
    let (port, _, driver) = session(rt, alloc, bus, directory, port, driver, keep, ended);
    (port, driver)
}

/// The sessions of one controller on a line. Its table is true in the end.
fn halts<P0, P1, P2, P3, D, R>(
    rt: &R,
    alloc: Global,
    site: SiteState,
    blanks: Blanks,
    keep: FailingKeep<'_>,
    directory: &Directory,
    stored: (usize, usize),
)
where
    P0: Ledger + Send + Sync,
    P1: Ledger + Send + Sync,
    P2: Ledger + Send + Sync,
    P3: Ledger + Send + Sync,
    D: Ledger + Send + Sync,
    R: Threads + Wait + Abort + Sync,
    requires first { (blanks.0.name ≡ P0.name) × (blanks.0.parts ≡ P0.parts) × (0 < P0.parts) }
    requires second { (blanks.1.name ≡ P1.name) × (blanks.1.parts ≡ P1.parts) × (0 < P1.parts) }
    requires third { (blanks.2.name ≡ P2.name) × (blanks.2.parts ≡ P2.parts) × (0 < P2.parts) }
    requires fourth { (blanks.3.name ≡ P3.name) × (blanks.3.parts ≡ P3.parts) × (0 < P3.parts) }
    requires driver { (blanks.4.name ≡ D.name) × (blanks.4.parts ≡ D.parts) × (0 < D.parts) }
{
    let (line, mut ports, driver) = line_of::<P0, P1, P2, P3, D>(site, blanks);
    let (spare, port) = last_two(&mut ports);
    let (port, driver) = sessions(rt, alloc, &line, directory, port, driver, keep, stored);
    go_back(rt, &mut ports, (spare, port), true);
    has_ended(rt, closed(rt, line, ports, driver));
}

/// An empty store of the block 0 to 7 that fails at this commit, and stores its record or not.
fn failing_store(asked: &AtomicU32, commit: u8, is_stored: bool) -> Result<FailingKeep<'_>, Fail> {
    let store = store_of((0, 7))?;
    let known = Kept::new(block(0, 7)?);
    Ok(FailingKeep {
        store,
        known,
        before: Some(commit),
        is_stored,
        must_read: false,
        asked,
    })
}

/// The store fails at this commit of the commissioning of three gear, and its record is stored or not.
fn fails_at<R: Threads + Wait + Abort + Sync + AllocGlobal>(
    rt: &R,
    commit: u8,
    is_stored: bool,
) -> Result<(), Fail> {
    let alloc = rt.alloc();
    let directory = Directory::new(alloc)?;
    let asked = AtomicU32::new(0);
    let keep = failing_store(&asked, commit, is_stored)?;
    let site = site_with(alloc, 3, &[(0, 7)])?;
    let count = usize::from(commit) + usize::from(is_stored);
    let stored = (count.div_ceil(2), count / 2);
    let blanks = blanks();
    halts::<Brand, Brand, Brand, Brand, Brand, R>(
        rt, alloc, site, blanks, keep, &directory, stored,
    );
    Ok(())
}

/// Three gear take six commits: a reservation and an enrolment of each, in turn.
#[test]
fn each_commit_may_fail(rt: HostRuntime) -> Result<(), Fail> {
    for commit in 0..6 {
        for is_stored in [false, true] {
            fails_at(&rt, commit, is_stored)?;
        }
    }
    Ok(())
}
