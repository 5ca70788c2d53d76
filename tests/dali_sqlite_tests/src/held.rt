//! A commit that is held up in SQLite, while another controller goes on using the bus.
//!
//! Two controllers share a line, each with a store in files. In the first commit of controller 0 its disk is asked to
//! flush the log, and answers only when controller 1 has ended. So controller 1 gives all gear their addresses, with
//! commits of its own, within that one commit. If a commit were made under the line's lock, controller 1 could not even
//! begin.

use super::values::{block, same};
use dali_enrol::Directory;
use dali_line::{Bus, Driver, Gate, Line, Moment, OpenGate, Outcome, Port, Pumper, Worker};
use dali_reserve::Keep;
use dali_script::{End, Input, Kept, Order};
use dali_sqlite::SqliteKeep;
use dali_world::{Event, Plan, Refusal, SiteState};
use sqlite::{FileStore, Files, Options};
use sqlite_disk::{Disk, Memory, Tally};
use std::alloc::Global;
use std::io;
use std::marker::Brand;
use std::process::Abort;
use std::sync::ledger::{Blank, Ledger};
use std::sync::{Condvar, Mutex, MutexGuard, Wait};
use std::test::Fail;
use std::thread::{Threads, join};
use std::time::{Clock, Duration};

const OPTIONS: Options = Options {
    cache_pages: 16,
    spill_pages: 16,
    checkpoint_frames: 1000,
    seed: 1,
};

/// How many turns a worker and a pumper may take.
const TURNS: u32 = 100_000;

/// For how many seconds a thread waits for another one.
const PATIENCE: u64 = 60;

const BLOCKS: [(u8, u8); 2] = [(0, 3), (4, 7)];

/// How far the held commit is.
#[derive(Drop)]
struct Seen {
    /// Controller 0 is before its first commit, or was.
    is_begun: bool,
    /// Its disk was asked to flush the log.
    is_held: bool,
    /// Controller 1 has ended.
    is_over: bool,
    /// A thread has waited in vain.
    is_late: bool,
}

/// What holds the first commit of controller 0.
#[derive(Drop)]
struct Hold {
    seen: Mutex<Seen>,
    moved: Condvar,
}

impl Hold {
    fn new() -> Hold {
        Hold {
            seen: Mutex::new(Seen {
                is_begun: false,
                is_held: false,
                is_over: false,
                is_late: false,
            }),
            moved: Condvar::new(),
        }
    }

    /// If this is the first flush in a commit, it waits until controller 1 has ended.
    fn at_flush<R: Wait + Clock>(&self, rt: &R) {
        let mut seen = self.seen.lock(rt);
        if !seen.is_begun || seen.is_held {
            return;
        }
        seen.is_held = true;
        self.moved.notify_all();
        self.waits(rt, seen, |it| !it.is_over);
    }

    /// Waits until the commit is held.
    fn await_flush<R: Wait + Clock>(&self, rt: &R) {
        self.waits(rt, self.seen.lock(rt), |it| !it.is_held);
    }

    /// Waits while this is so, and for so many seconds at most.
    fn waits<'a, R: Wait + Clock, F: FnMut(&mut Seen) -> bool>(
        &'a self,
        rt: &R,
        seen: MutexGuard<'a, Seen>,
        is_so: F,
    ) {
        let most = Duration::from_secs(PATIENCE);
        let (mut seen, wait) = self.moved.wait_timeout_while(rt, seen, most, is_so);
        seen.is_late |= wait.timed_out();
    }

    /// Controller 1 has ended.
    fn end<R: Wait>(&self, rt: &R) {
        self.seen.lock(rt).is_over = true;
        self.moved.notify_all();
    }
}

impl Gate for &Hold {
    fn at<R: Wait>(&self, rt: &R, _controller: u8, moment: Moment) {
        if moment == Moment::BeforeCommit {
            self.seen.lock(rt).is_begun = true;
        }
    }
}

/// A disk that waits at a flush where it is held.
#[derive(Drop)]
struct HeldDisk<'a, D, R> {
    inner: D,
    rt: &'a R,
    hold: Option<&'a Hold>,
}

impl<D: Disk, R: Wait + Clock> Disk for HeldDisk<'_, D, R> {
    ghost seen = { λ d. D.Disk.seen d.inner };

    ghost may_leave = { λ d. D.Disk.may_leave d.inner };

    ghost is_usable = { λ d. D.Disk.is_usable d.inner };

    ghost faults = { λ d. D.Disk.faults d.inner };

    ghost tally_of = { λ d. D.Disk.tally_of d.inner };

    ghost is_clean = { λ d. D.Disk.is_clean d.inner };

    ghost key_of = { λ d. D.Disk.key_of d.inner };

    ghost is_fair = { λ d. D.Disk.is_fair d.inner };

    ghost is_frozen = { λ d. D.Disk.is_frozen d.inner };

    ghost is_rotten = { λ d. D.Disk.is_rotten d.inner };

    ghost is_mixing = { λ d. D.Disk.is_mixing d.inner };

    ghost seen_may_stay = { λ d. D.Disk.seen_may_stay d.inner };

    ghost fair_if_clean = { λ d. D.Disk.fair_if_clean d.inner };

    fn mixes(&self) -> bool {
        self.inner.mixes()
    }

    fn key(&self) -> u64 {
        self.inner.key()
    }

    fn tally(&self) -> Tally {
        self.inner.tally()
    }

    fn may_be_used(&self) -> bool {
        self.inner.may_be_used()
    }

    fn len(&mut self) -> io::Result<usize> {
        self.inner.len()
    }

    fn read_at(&mut self, at: usize, buf: &mut [u8]) -> io::Result<()> {
        self.inner.read_at(at, buf)
    }

    fn read_checked(&mut self, key: u64, want: u64, at: usize, buf: &mut [u8]) -> io::Result<()> {
        self.inner.read_checked(key, want, at, buf)
    }

    fn write_at(&mut self, at: usize, bytes: &[u8]) -> io::Result<()> {
        self.inner.write_at(at, bytes)
    }

    fn set_len(&mut self, len: usize) -> io::Result<()> {
        self.inner.set_len(len)
    }

    fn sync(&mut self) -> io::Result<()> {
        if let Some(hold) = self.hold {
            hold.at_flush(self.rt);
        }
        self.inner.sync()
    }
}

/// A store in two files.
type Database<'a, R> = SqliteKeep<FileStore<HeldDisk<'a, Memory, R>>>;

/// An empty store for a controller with this block, in files that are held or not.
fn store_of<'a, R: Wait + Clock>(
    rt: &'a R,
    alloc: Global,
    bounds: (u8, u8),
    hold: Option<&'a Hold>,
) -> Result<Database<'a, R>, Fail> {
    let disk = || HeldDisk {
        inner: Memory::new(alloc),
        rt,
        hold,
    };
    let files = Files {
        log: disk(),
        db: disk(),
    };
    match SqliteKeep::open_files(alloc, files, OPTIONS, block(bounds.0, bounds.1)?) {
        Ok(keep) => Ok(keep),
        Err(error) => Err(Fail::from(error)),
    }
}

/// What a worker leaves: how it ended, its port, and what its store reads.
type Left<P> = (Outcome, P, Option<Kept>);

/// A worker runs, and its store is read.
fn works<B: Bus, K: Keep + Drop, G: Gate, R: Wait>(
    rt: &R,
    alloc: Global,
    bus: &B,
    directory: &Directory,
    worker: Worker<B::Port, K, G>,
) -> Left<B::Port> {
    match directory.pass(alloc) {
        Ok(pass) => {
            let (outcome, port, mut keep, _pass) = worker.run(
                rt, alloc, bus, directory, pass, TURNS,
            );
            (outcome, port, keep.read().ok())
        }
        Err(_) => {
            bus.stop(rt);
            (Outcome::NoMemory, worker.port, None)
        }
    }
}

/// Two workers and a pumper, each in a thread of its own. The second worker begins when the first one's commit is held.
fn all_run<B, K, R>(
    rt: &R,
    alloc: Global,
    bus: &B,
    hold: &Hold,
    directory: &Directory,
    workers: (Worker<B::Port, K, &Hold>, Worker<B::Port, K, OpenGate>),
    pumper: Pumper<B::Driver, OpenGate>,
) -> (Left<B::Port>, Left<B::Port>, (B::Driver, Option<Refusal>))
where
    B: Bus + Sync,
    B::Port: Send + Drop,
    B::Driver: Send + Drop,
    K: Keep + Send + Drop,
    R: Threads + Wait + Clock + Sync,
{
    let (first, second) = workers;
    let (one, (other, pumped)) = join(
        rt,
        move || -> Left<B::Port> { works(rt, alloc, bus, directory, first) },
        move || -> (Left<B::Port>, (B::Driver, Option<Refusal>)) {
            join(
                rt,
                move || -> Left<B::Port> {
                    hold.await_flush(rt);
                    let left = works(rt, alloc, bus, directory, second);
                    hold.end(rt);
                    left
                },
                move || pumper.run(rt, bus, TURNS),
            )
        },
    );
    (one, other, pumped)
}

/// In the log, each step and each frame of controller 1 stands within a commit of controller 0: behind its order, and
/// before its outcome was told. So often controller 1 was told that a record is committed, and so many frames it sent.
fn done_within<R: Abort>(rt: &R, log: &[Event]) -> (usize, usize) {
    let (mut is_open, mut commits, mut frames) = (false, 0usize, 0usize);
    for event in log {
        match event {
            Event::Acted(0, _, order) => is_open = matches!(order, Order::Commit(_)),
            Event::Acted(1, input, _) => {
                assert!(rt; is_open);
                commits += usize::from(*input == Input::Committed);
            }
            Event::Sent(1, ..) => {
                assert!(rt; is_open);
                frames += 1;
            }
            _ => {}
        }
    }
    (commits, frames)
}

/// The worker of this controller found all gear, and its store has the records that the site remembers of it.
fn has_found<R: Abort>(rt: &R, site: &SiteState, c: u8, outcome: Outcome, read: &Option<Kept>) {
    same(rt, &outcome, &Outcome::Ended(End::AllFound));
    match read {
        Some(kept) => assert!(rt; kept.same(site.kept(c))),
        None => assert!(rt; false),
    }
}

/// Controller 1 gave both gear their addresses within the commit of controller 0, which found nothing to do then.
fn is_right<R: Abort>(rt: &R, site: &SiteState, one: &Left<()>, other: &Left<()>) {
    has_found(rt, site, 0, one.0, &one.2);
    has_found(rt, site, 1, other.0, &other.2);
    let (commits, frames) = done_within(rt, site.log());
    same(rt, &commits, &4);
    assert!(rt; frames > 0);
    same(rt, &site.kept(1).enrolled().len(), &2);
    assert!(rt; site.kept(0).enrolled().is_empty());
}

/// Both workers run over a line round this site.
fn runs_over<P0, P1, P2, P3, D, R>(
    rt: &R,
    alloc: Global,
    site: SiteState,
    directory: &Directory,
) -> Result<(), Fail>
where
    P0: Ledger + Send + Sync,
    P1: Ledger + Send + Sync,
    P2: Ledger + Send + Sync,
    P3: Ledger + Send + Sync,
    D: Ledger + Send + Sync,
    R: Threads + Wait + Clock + Abort + Sync,
{
    let hold = Hold::new();
    let first = store_of(rt, alloc, BLOCKS[0], Some(&hold))?;
    let second = store_of(rt, alloc, BLOCKS[1], None)?;
    let blank = || Blank::new(1);
    let (line, mut ports, driver) = Line::<P0, P1, P2, P3, D>::new(
        site,
        blank(),
        blank(),
        blank(),
        blank(),
        blank(),
    );
    let other = ports.pop().unwrap_or_default();
    let one = ports.pop().unwrap_or_default();
    let workers = (
        Worker::new(one, first, &hold),
        Worker::new(other, second, OpenGate),
    );
    let pumper = Pumper::new(driver, OpenGate);
    let (one, other, pumped) = all_run(rt, alloc, &line, &hold, directory, workers, pumper);
    same(rt, &pumped.1, &None);
    let seen = hold.seen.lock(rt);
    assert!(rt; seen.is_held && !seen.is_late);
    let (one, first) = ((one.0, (), one.2), one.1);
    let (other, second) = ((other.0, (), other.2), other.1);
    ports.push(first);
    ports.push(second);
    match line.close(ports, pumped.0) {
        Ok(site) => is_right(rt, &site, &one, &other),
        Err(_) => assert!(rt; false),
    }
    Ok(())
}

#[test]
fn others_go_on_while_sqlite_commits(rt: HostRuntime) -> Result<(), Fail> {
    let alloc = rt.alloc();
    let plan = Plan::new(alloc, 2, &BLOCKS, &[1, 2, 3, 4])?;
    let site = SiteState::new(alloc, plan, 65_536, 64)?;
    let directory = Directory::new(alloc)?;
    runs_over::<Brand, Brand, Brand, Brand, Brand, HostRuntime>(&rt, alloc, site, &directory)
}
