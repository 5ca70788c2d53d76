//! A worker alone, on a bus that drives itself: its controller is restarted while it is at a commit, its line's queue
//! is full, and it ends with a commit that is not made, or not told.

use super::calls::comes_up;
use super::driven::DrivenBus;
use super::full::FullBus;
use super::threads::{
    Blanks, TURNS, blanks, closed, go_back, last_two, line_of, site_with, store_of,
};
use super::values::{block, forward, same};
use dali_enrol::Directory;
use dali_frame::Answer;
use dali_line::{Bus, Gate, Moment, OpenGate, Outcome, Pumper, Ready, UpRefusal, Worker};
use dali_reserve::{Keep, MemoryKeep};
use dali_script::{Due, End, Input, Kept};
use dali_world::{Event, Refusal, SiteState, Trouble};
use std::alloc::Global;
use std::marker::Brand;
use std::process::Abort;
use std::sync::atomic::AtomicBool;
use std::sync::atomic::Ordering::SeqCst;
use std::sync::ledger::Ledger;
use std::sync::{Mutex, Wait};
use std::test::Fail;

/// What a gate has done.
#[derive(Drop)]
struct Done {
    /// How many commits come before the one at which it acts.
    before: u8,
    /// How the line answered when the controller was to go down, and to come up with the records from before.
    down: Option<Result<(), Refusal>>,
    up: Option<Result<(), UpRefusal>>,
}

/// A gate that takes controller 0 down while its worker is at a commit, and tries to bring it up with records that were
/// read before.
#[derive(Drop)]
struct Restarting<'a, B: Bus> {
    bus: &'a B,
    driver: &'a Mutex<B::Driver>,
    records: &'a Kept,
    done: &'a Mutex<Done>,
}

impl<B: FullBus> Gate for Restarting<'_, B> {
    fn at<R: Wait>(&self, rt: &R, _controller: u8, moment: Moment) {
        if moment != Moment::BeforeCommit {
            return;
        }
        let mut done = self.done.lock(rt);
        if done.before > 0 {
            done.before -= 1;
            return;
        }
        let mut driver = self.driver.lock(rt);
        done.down = Some(self.bus.down(rt, &mut driver, 0));
        done.up = Some(self.bus.up(rt, &mut driver, 0, self.records));
    }
}

/// A gate that lets controller 1 offer arc power until no request more may wait: before each commit, and at the end of
/// some turns. Before a commit it may stop the bus.
#[derive(Drop)]
struct Flooding<'a, B: Bus> {
    bus: &'a B,
    port: &'a Mutex<B::Port>,
    /// At how many turns more it offers.
    turns: &'a Mutex<u8>,
    stops: bool,
}

impl<B: FullBus> Flooding<'_, B> {
    /// Whether this is the end of a turn at which it offers.
    fn is_turn<R: Wait>(&self, rt: &R) -> bool {
        let mut turns = self.turns.lock(rt);
        let is_turn = *turns > 0;
        *turns = turns.saturating_sub(1);
        is_turn
    }

    /// Controller 1 offers as much arc power as may wait.
    fn flood<R: Wait>(&self, rt: &R) {
        let mut port = self.port.lock(rt);
        for _ in 0..100 {
            if self.bus.arc(rt, &mut port, forward(0xFE80)).is_err() {
                break;
            }
        }
    }
}

impl<B: FullBus> Gate for Flooding<'_, B> {
    fn at<R: Wait>(&self, rt: &R, _controller: u8, moment: Moment) {
        match moment {
            Moment::BeforeCommit => {
                self.flood(rt);
                if self.stops {
                    self.bus.stop(rt);
                }
            }
            Moment::AfterCommit => {}
            Moment::AfterTurn => {
                if self.is_turn(rt) {
                    self.flood(rt);
                }
            }
        }
    }
}

/// The end of a controller that found all gear.
const FOUND: Outcome = Outcome::Ended(End::AllFound);

/// A worker runs, and ends so. Its port and its store.
fn works<B: Bus, G: Gate, R: Abort + Wait>(
    rt: &R,
    alloc: Global,
    bus: &B,
    worker: Worker<B::Port, MemoryKeep, G>,
    turns: u32,
    end: Outcome,
) -> (B::Port, MemoryKeep) {
    let directory = Directory::new(alloc);
    let Ok(directory) = &directory else {
        assert!(rt; false);
        return (worker.port, worker.keep);
    };
    match directory.pass(alloc) {
        Ok(pass) => {
            let (outcome, port, keep, _pass) = worker.run(rt, alloc, bus, directory, pass, turns);
            same(rt, &outcome, &end);
            (port, keep)
        }
        Err(_) => {
            assert!(rt; false);
            (worker.port, worker.keep)
        }
    }
}

/// Controller 0 comes up with what its store reads.
fn goes_up<B: FullBus, R: Abort + Wait>(
    rt: &R,
    bus: &B,
    driver: &Mutex<B::Driver>,
    keep: &mut MemoryKeep,
) {
    match keep.read() {
        Ok(kept) => {
            let mut driver = driver.lock(rt);
            comes_up(rt, bus.up(rt, &mut driver, 0, &kept), &Ok(()));
        }
        Err(_) => assert!(rt; false),
    }
}

/// Controller 0 does not come up with records from before the commit that its worker has made.
fn stays_down<B: FullBus, R: Abort + Wait>(
    rt: &R,
    bus: &B,
    driver: &Mutex<B::Driver>,
    records: &Kept,
) {
    let mut driver = driver.lock(rt);
    assert!(rt; bus.up(rt, &mut driver, 0, records).is_err());
}

/// Controller 0 goes down, and its worker ends.
fn goes_down<B: FullBus, R: Abort + Wait>(rt: &R, bus: &B, driver: &Mutex<B::Driver>) {
    let mut driver = driver.lock(rt);
    same(rt, &bus.down(rt, &mut driver, 0), &Ok(()));
}

/// While its worker is at this commit controller 0 goes down, and is not brought up. The worker ends.
fn goes_down_at<B: FullBus, R: Abort + Wait>(
    rt: &R,
    alloc: Global,
    bus: &DrivenBus<'_, B>,
    port: B::Port,
    keep: MemoryKeep,
    records: &Kept,
    commit: u8,
) -> (B::Port, MemoryKeep) {
    let done = Mutex::new(Done {
        before: commit,
        down: None,
        up: None,
    });
    let gate = Restarting {
        bus: bus.bus,
        driver: bus.driver,
        records,
        done: &done,
    };
    let worker = Worker::new(port, keep, gate);
    let (port, keep) = works(rt, alloc, bus, worker, TURNS, Outcome::Down);
    has_tried(rt, &done);
    stays_down(rt, bus.bus, bus.driver, records);
    (port, keep)
}

/// Controller 0 comes up with what its store reads, and another worker goes on to the end.
fn goes_on<B: FullBus, R: Abort + Wait>(
    rt: &R,
    alloc: Global,
    bus: &DrivenBus<'_, B>,
    port: B::Port,
    mut keep: MemoryKeep,
) -> (B::Port, MemoryKeep) {
    goes_up(rt, bus.bus, bus.driver, &mut keep);
    works(
        rt,
        alloc,
        bus,
        Worker::new(port, keep, OpenGate),
        TURNS,
        FOUND,
    )
}

/// Controller 0 goes down at this commit, and goes on; and it goes down once more when it has ended.
fn restarted<B: FullBus, R: Abort + Wait>(
    rt: &R,
    alloc: Global,
    bus: &DrivenBus<'_, B>,
    port: B::Port,
    keep: MemoryKeep,
    records: &Kept,
    commit: u8,
) -> (B::Port, MemoryKeep) {
    let (port, keep) = goes_down_at(rt, alloc, bus, port, keep, records, commit);
    let (port, keep) = goes_on(rt, alloc, bus, port, keep);
    goes_down(rt, bus.bus, bus.driver);
    let worker = Worker::new(port, keep, OpenGate);
    let (port, keep) = works(rt, alloc, bus, worker, TURNS, Outcome::Down);
    goes_on(rt, alloc, bus, port, keep)
}

/// The gate took the controller down, and did not bring it up.
fn has_tried<R: Abort + Wait>(rt: &R, done: &Mutex<Done>) {
    let done = done.lock(rt);
    same(rt, &done.down, &Some(Ok(())));
    same(rt, &done.up, &Some(Err(UpRefusal::CommitOpen)));
}

/// The queue is full before each commit of controller 0, and after its first turns; the line may be stopped then. Its
/// worker waits for room, and ends so.
fn flooded<B: FullBus, R: Abort + Wait>(
    rt: &R,
    alloc: Global,
    bus: &DrivenBus<'_, B>,
    ports: (B::Port, &Mutex<B::Port>),
    keep: MemoryKeep,
    turns: u8,
    end: Outcome,
) -> (B::Port, MemoryKeep) {
    let (port, other) = ports;
    let turns = Mutex::new(turns);
    let gate = Flooding {
        bus: bus.bus,
        port: other,
        turns: &turns,
        stops: end == Outcome::Stopped,
    };
    let worker = Worker::new(port, keep, gate);
    let (port, keep) = works(rt, alloc, bus, worker, TURNS, end);
    assert!(rt; bus.has_waited.load(SeqCst));
    (port, keep)
}

/// A worker runs for so many turns at most, and ends so.
fn runs<B: Bus, R: Abort + Wait>(
    rt: &R,
    alloc: Global,
    bus: &B,
    port: B::Port,
    keep: MemoryKeep,
    turns: u32,
    end: Outcome,
) -> (B::Port, MemoryKeep)
where
    B::Port: Drop,
{
    let worker = Worker::new(port, keep, OpenGate);
    works(rt, alloc, bus, worker, turns, end)
}

/// As much arc power is offered as may wait. How many frames.
fn offered<B: FullBus, R: Wait>(rt: &R, bus: &B, port: &mut B::Port) -> u8 {
    for count in 0..100 {
        if bus.arc(rt, port, forward(0xFE80)).is_err() {
            return count;
        }
    }
    100
}

/// While controller 0 owns the bus, so much arc power waits that it is refused.
fn is_crowded<B: FullBus, R: Abort + Wait>(
    rt: &R,
    bus: &B,
    port: &mut B::Port,
    other: &mut B::Port,
    driver: &mut B::Driver,
) {
    assert!(rt; bus.act(rt, port, Input::Start).is_ok());
    let _ = bus.pump(rt, driver, Trouble::None);
    same(rt, &offered(rt, bus, other), &64);
    same(rt, &bus.ready(rt, driver), &Ready::Full);
    let heard = Input::Heard(Answer::Silence);
    let refused = bus.act(rt, port, heard).err();
    same(rt, &refused, &Some(Refusal::QueueFull));
}

/// A pumper lets the bus lapse then and sends the first of the arc power, and the controller goes on.
fn lapses<B: FullBus, R: Abort + Wait>(
    rt: &R,
    bus: &B,
    port: &mut B::Port,
    other: &mut B::Port,
    mut driver: B::Driver,
) -> B::Driver {
    is_crowded(rt, bus, port, other, &mut driver);
    let (driver, refusal) = Pumper::new(driver, OpenGate).run(rt, bus, 2);
    same(rt, &refusal, &None);
    same(rt, &bus.next(rt, port), &Some(Input::Lapsed));
    assert!(rt; bus.act(rt, port, Input::Lapsed).is_ok());
    driver
}

/// What is played.
#[derive(Clone, Copy)]
enum Story {
    /// A restart while the worker is at this commit, counted from 0.
    Restart(u8),
    /// The queue is full before each commit, and after the first three turns.
    Full,
    /// The queue is full before the first commit, and the line is stopped: it is made, and not told.
    Untold,
    /// The worker ends with the first commit due.
    Unmade,
    /// A worker goes on to the end.
    Rest,
    /// The queue is full in a transaction.
    Lapse,
}

/// A story is played on a line that drives itself. Its ports, its driver and the store of controller 0 then.
fn driven<B: FullBus, R: Abort + Wait>(
    rt: &R,
    alloc: Global,
    line: &B,
    ports: (B::Port, B::Port),
    driver: B::Driver,
    keep: MemoryKeep,
    records: &Kept,
    story: Story,
) -> ((B::Port, B::Port), B::Driver, MemoryKeep)
where
    B::Port: Drop,
    B::Driver: Drop,
{
    let (port, other) = ports;
    let driver = Mutex::new(driver);
    let other = Mutex::new(other);
    let has_waited = AtomicBool::new(false);
    let has_looked = AtomicBool::new(false);
    let bus = DrivenBus {
        bus: line,
        driver: &driver,
        has_waited: &has_waited,
        has_looked: &has_looked,
    };
    let (port, keep) = match story {
        Story::Restart(commit) => restarted(rt, alloc, &bus, port, keep, records, commit),
        Story::Full => flooded(rt, alloc, &bus, (port, &other), keep, 3, FOUND),
        Story::Untold => flooded(rt, alloc, &bus, (port, &other), keep, 0, Outcome::Stopped),
        Story::Unmade => runs(rt, alloc, &bus, port, keep, 111, Outcome::TurnsSpent),
        Story::Rest | Story::Lapse => runs(rt, alloc, &bus, port, keep, TURNS, FOUND),
    };
    ((port, other.into_inner()), driver.into_inner(), keep)
}

/// A story is played on a line round this site. The site and the store of controller 0 then.
fn played<P0: Ledger, P1: Ledger, P2: Ledger, P3: Ledger, D: Ledger, R: Abort + Wait>(
    rt: &R,
    alloc: Global,
    site: SiteState,
    blanks: Blanks,
    keep: MemoryKeep,
    records: &Kept,
    story: Story,
) -> (SiteState, MemoryKeep) {
    let (line, mut ports, driver) = line_of::<P0, P1, P2, P3, D>(site, blanks);
    let (mut port, mut other) = last_two(&mut ports);
    let ((port, other), driver, keep) = match story {
        Story::Lapse => {
            let driver = lapses(rt, &line, &mut port, &mut other, driver);
            ((port, other), driver, keep)
        }
        _ => driven(
            rt,
            alloc,
            &line,
            (port, other),
            driver,
            keep,
            records,
            story,
        ),
    };
    go_back(rt, &mut ports, (port, other), false);
    (closed(rt, line, ports, driver), keep)
}

/// A story is played from the start of a site, or after another one.
fn plays<R: Abort + Wait>(
    rt: &R,
    alloc: Global,
    site: SiteState,
    keep: MemoryKeep,
    records: &Kept,
    story: Story,
) -> (SiteState, MemoryKeep) {
    let blanks = blanks();
    played::<Brand, Brand, Brand, Brand, Brand, R>(rt, alloc, site, blanks, keep, records, story)
}

/// Whether the store of controller 0 reads what the site remembers.
fn reads_the_same(site: &SiteState, keep: &mut MemoryKeep) -> Option<bool> {
    if site.plan().blocks().is_empty() {
        return None;
    }
    match keep.read() {
        Ok(kept) => Some(kept.same(site.kept(0))),
        Err(_) => None,
    }
}

/// How many gear the table of controller 0 has.
fn in_table(site: &SiteState) -> Option<usize> {
    if site.plan().blocks().is_empty() {
        return None;
    }
    match site.table(0) {
        Some(table) => Some(table.entries().len()),
        None => None,
    }
}

/// Whether a commit is due for controller 0.
fn has_due_commit(site: &SiteState) -> bool {
    !site.plan().blocks().is_empty() && site.due(0) == Due::Store && site.ordered(0).is_some()
}

/// How a story ends.
#[derive(Clone, Copy)]
enum After {
    /// Controller 0 has all gear in its table, and its store reads what the site remembers.
    All,
    /// A commit is due for controller 0. Whether its store has a record that it was not told of.
    Left(bool),
    /// The bus lapsed once.
    Lapsed,
}

fn is_lapse(event: &&Event) -> bool {
    matches!(event, Event::Lapsed)
}

/// The site and the store of controller 0 are so.
fn are_so<R: Abort>(rt: &R, site: &SiteState, keep: &mut MemoryKeep, after: After) {
    match after {
        After::All => {
            let all = site.plan().gear() as usize;
            let found = (in_table(site), reads_the_same(site, keep));
            same(rt, &found, &(Some(all), Some(true)));
        }
        After::Left(has_more) => {
            let left = (has_due_commit(site), reads_the_same(site, keep));
            same(rt, &left, &(true, Some(!has_more)));
        }
        After::Lapsed => same(rt, &site.log().iter().filter(is_lapse).count(), &1),
    }
}

/// So many gear, two controllers, and an empty store for the first of them.
fn begun(alloc: Global, gear: u32) -> Result<(SiteState, MemoryKeep), Fail> {
    let keep = store_of((0, 3))?;
    Ok((site_with(alloc, gear, &[(0, 3), (4, 7)])?, keep))
}

/// One story after the other on a site, and how each ends.
fn tells<R: Abort + Wait>(
    rt: &R,
    alloc: Global,
    begun: (SiteState, MemoryKeep),
    records: &Kept,
    stories: &[(Story, After)],
) {
    let (mut site, mut keep) = begun;
    for (story, after) in stories {
        (site, keep) = plays(rt, alloc, site, keep, records, *story);
        are_so(rt, &site, &mut keep, *after);
    }
}

/// How many gear there are, and stories of them. Two gear take four commits: a reservation and an enrolment of each, in
/// turn.
const STORIES: [(u32, &[(Story, After)]); 8] = [
    (2, &[(Story::Restart(0), After::All)]),
    (2, &[(Story::Restart(1), After::All)]),
    (2, &[(Story::Restart(2), After::All)]),
    (2, &[(Story::Restart(3), After::All)]),
    (2, &[(Story::Full, After::All)]),
    // A commit that is due is gone on with.
    (
        2,
        &[
            (Story::Untold, After::Left(true)),
            (Story::Rest, After::All),
        ],
    ),
    (
        2,
        &[
            (Story::Unmade, After::Left(false)),
            (Story::Rest, After::All),
        ],
    ),
    (1, &[(Story::Lapse, After::Lapsed)]),
];

#[test]
fn a_worker_alone_goes_on(rt: HostRuntime) -> Result<(), Fail> {
    let records = Kept::new(block(0, 3)?);
    for (gear, stories) in STORIES {
        tells(&rt, rt.alloc(), begun(rt.alloc(), gear)?, &records, stories);
    }
    Ok(())
}
