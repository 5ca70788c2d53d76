//! Workers and a pumper, each in a thread of its own.

use super::holding::{Holding, Seen};
use super::listed::{List, Listed, ListedBus};
use super::reading::{Reading, has_read, reads, see_table};
use super::values::{block, same, site_of};
use arrayvec::ArrayVec;
use dali_enrol::{Directory, Pass};
use dali_line::{Bus, Driver, Gate, Line, OpenGate, Outcome, Port, Pumper, Worker};
use dali_reserve::{Keep, MemoryKeep};
use dali_script::{End, Input, Kept};
use dali_world::{Event, Refusal, SiteState};
use std::alloc::Global;
use std::marker::Brand;
use std::process::Abort;
use std::sync::atomic::AtomicBool;
use std::sync::atomic::Ordering::SeqCst;
use std::sync::ledger::{Blank, Ledger};
use std::sync::{Mutex, Wait};
use std::test::Fail;
use std::thread::{Threads, join};

/// How many turns a worker and a pumper may take.
pub const TURNS: u32 = 100_000;

/// What a worker leaves: how it ended, its port, what its store reads, and its pass.
pub type Left<P> = (Outcome, P, Option<Kept>, Option<Pass>);

/// A worker runs with a pass of its own, and its store is read.
pub fn works<B: Bus, K: Keep + Drop, G: Gate, R: Wait>(
    rt: &R,
    alloc: Global,
    bus: &B,
    directory: &Directory,
    worker: Worker<B::Port, K, G>,
) -> Left<B::Port> {
    match directory.pass(alloc) {
        Ok(pass) => {
            let (outcome, port, mut keep, pass) = worker.run(
                rt, alloc, bus, directory, pass, TURNS,
            );
            (outcome, port, keep.read().ok(), Some(pass))
        }
        Err(_) => {
            bus.stop(rt);
            (Outcome::NoMemory, worker.port, None, None)
        }
    }
}

/// What two workers, a pumper and a reader leave.
type Run<P, D> = (Left<P>, Left<P>, (D, Option<Refusal>), Option<Reading>);

/// Two workers run, each in a thread of its own. The second begins when the first one's gate has seen it before its
/// first commit.
fn both_work<B, R>(
    rt: &R,
    alloc: Global,
    bus: &B,
    directory: &Directory,
    gate: &Holding,
    first: Worker<B::Port, MemoryKeep, &Holding>,
    second: Worker<B::Port, MemoryKeep, &Holding>,
) -> (Left<B::Port>, Left<B::Port>)
where
    B: Bus + Sync,
    B::Port: Send + Drop,
    R: Threads + Wait + Sync,
{
    join(
        rt,
        move || -> Left<B::Port> { works(rt, alloc, bus, directory, first) },
        move || -> Left<B::Port> {
            gate.await_first(rt);
            works(rt, alloc, bus, directory, second)
        },
    )
}

/// A pumper and a reader of the directory, each in a thread of its own.
fn pumps_and_reads<B, R>(
    rt: &R,
    alloc: Global,
    bus: &B,
    directory: &Directory,
    flag: &AtomicBool,
    pumper: Pumper<B::Driver, OpenGate>,
) -> ((B::Driver, Option<Refusal>), Option<Reading>)
where
    B: Bus + Sync,
    B::Driver: Send + Drop,
    R: Threads + Wait + Sync,
{
    join(
        rt,
        move || pumper.run(rt, bus, TURNS),
        move || -> Option<Reading> { reads(alloc, directory, flag) },
    )
}

/// Two workers, a pumper and a reader of the directory, which ends when both workers have.
fn two_run<B, R>(
    rt: &R,
    alloc: Global,
    bus: &B,
    directory: &Directory,
    gate: &Holding,
    workers: (
        Worker<B::Port, MemoryKeep, &Holding>,
        Worker<B::Port, MemoryKeep, &Holding>,
    ),
    pumper: Pumper<B::Driver, OpenGate>,
) -> Run<B::Port, B::Driver>
where
    B: Bus + Sync,
    B::Port: Send + Drop,
    B::Driver: Send + Drop,
    R: Threads + Wait + Sync,
{
    let (first, second) = workers;
    let ended = AtomicBool::new(false);
    let flag = &ended;
    let ((one, other), (pumped, reading)) = join(
        rt,
        move || -> (Left<B::Port>, Left<B::Port>) {
            let both = both_work(rt, alloc, bus, directory, gate, first, second);
            flag.store(true, SeqCst);
            both
        },
        move || -> ((B::Driver, Option<Refusal>), Option<Reading>) {
            pumps_and_reads(rt, alloc, bus, directory, flag, pumper)
        },
    );
    (one, other, pumped, reading)
}

/// So many gear, and the numbers that they may draw.
pub fn site_with(alloc: Global, gear: u32, blocks: &[(u8, u8)]) -> Result<SiteState, Fail> {
    let mut draws = Vec::new(alloc);
    for number in 0..64u32 {
        draws.push(number * 0x010203 + 5)?;
    }
    site_of(alloc, gear, blocks, draws.as_slice())
}

/// An empty store for a controller with this block.
pub fn store_of(bounds: (u8, u8)) -> Result<MemoryKeep, Fail> {
    Ok(MemoryKeep::new(block(bounds.0, bounds.1)?))
}

/// The right to make the five ledgers of a line.
pub type Blanks = (Blank, Blank, Blank, Blank, Blank);

pub fn blanks() -> Blanks {
    (
        Blank::new(1),
        Blank::new(1),
        Blank::new(1),
        Blank::new(1),
        Blank::new(1),
    )
}

/// A line round this site, by the right to make its ledgers.
pub fn line_of<P0: Ledger, P1: Ledger, P2: Ledger, P3: Ledger, D: Ledger>(
    site: SiteState,
    blanks: Blanks,
) -> (
    Line<P0, P1, P2, P3, D>,
    ArrayVec<Port<P0, P1, P2, P3, D>, 4>,
    Driver<P0, P1, P2, P3, D>,
) {
    let (first, second, third, fourth, driver) = blanks;
    Line::new(site, first, second, third, fourth, driver)
}

/// Its worker found all gear, and its store has the records that the site remembers of this controller.
fn has_found<R: Abort>(rt: &R, site: &SiteState, c: u8, left: (Outcome, Option<Kept>)) {
    same(rt, &left.0, &Outcome::Ended(End::AllFound));
    assert!(rt; usize::from(c) < site.plan().blocks().len());
    match &left.1 {
        Some(kept) => assert!(rt; kept.same(site.kept(c))),
        None => assert!(rt; false),
    }
}

/// What the reader saw stands in a table, and the passes of both workers see all that stands in one.
fn was_read<R: Abort>(
    rt: &R,
    directory: &Directory,
    site: &SiteState,
    passes: (Option<Pass>, Option<Pass>),
    reading: Option<Reading>,
) {
    assert!(rt; site.plan().blocks().len() == 2);
    let (Some(mut one), Some(mut other), Some(reading)) = (passes.0, passes.1, reading) else {
        assert!(rt; false);
        return;
    };
    let (Some(first), Some(second)) = (site.table(0), site.table(1)) else {
        assert!(rt; false);
        return;
    };
    has_read(rt, &reading, first, second);
    see_table(rt, directory, &mut one, &mut other, first);
    see_table(rt, directory, &mut one, &mut other, second);
}

/// Both workers found all gear, and what they posted was read and is seen.
fn all_is_right<R: Abort>(
    rt: &R,
    directory: &Directory,
    site: SiteState,
    left: ((Outcome, Option<Kept>), (Outcome, Option<Kept>)),
    passes: (Option<Pass>, Option<Pass>),
    reading: Option<Reading>,
) {
    let (one, other) = left;
    has_found(rt, &site, 0, one);
    has_found(rt, &site, 1, other);
    was_read(rt, directory, &site, passes, reading);
}

/// The last two ports, in order of their controllers.
pub fn last_two<P: Default + Drop>(ports: &mut ArrayVec<P, 4>) -> (P, P) {
    let other = ports.pop().unwrap_or_default();
    (ports.pop().unwrap_or_default(), other)
}

/// The last two ports are back, in order of their controllers; the first of them only if it is no spare one, as it is
/// of a site of one controller.
pub fn go_back<P: Drop, R: Abort>(
    rt: &R,
    ports: &mut ArrayVec<P, 4>,
    last: (P, P),
    is_spare: bool,
) {
    let (port, other) = last;
    if !is_spare {
        assert!(rt; ports.try_push(port).is_ok());
    }
    assert!(rt; ports.try_push(other).is_ok());
}

/// The site of a line that is closed with all its ports.
pub fn closed<P0: Ledger, P1: Ledger, P2: Ledger, P3: Ledger, D: Ledger, R: Abort>(
    rt: &R,
    line: Line<P0, P1, P2, P3, D>,
    ports: ArrayVec<Port<P0, P1, P2, P3, D>, 4>,
    driver: Driver<P0, P1, P2, P3, D>,
) -> SiteState {
    match line.close(ports, driver) {
        Ok(site) => site,
        Err(site) => {
            assert!(rt; false);
            site
        }
    }
}

/// Two workers, a pumper and a reader run over a bus, and the gate saw both workers before a commit of their own. What
/// the workers leave, the driver, and what the reader has seen.
fn run_apart<B, R>(
    rt: &R,
    alloc: Global,
    bus: &B,
    directory: &Directory,
    ports: (B::Port, B::Port),
    driver: B::Driver,
    keeps: (MemoryKeep, MemoryKeep),
) -> Run<B::Port, B::Driver>
where
    B: Bus + Sync,
    B::Port: Send + Drop,
    B::Driver: Send + Drop,
    R: Threads + Wait + Abort + Sync,
{
    let gate = Holding {
        seen: Mutex::new(Seen {
            first: false,
            second: false,
            has_failed: false,
        }),
    };
    let workers = (
        Worker::new(ports.0, keeps.0, &gate),
        Worker::new(ports.1, keeps.1, &gate),
    );
    let pumper = Pumper::new(driver, OpenGate);
    let run = two_run(rt, alloc, bus, directory, &gate, workers, pumper);
    assert!(rt; !gate.seen.lock(rt).has_failed);
    run
}

fn commits_apart<P0, P1, P2, P3, D, R>(
    rt: &R,
    alloc: Global,
    site: SiteState,
    blanks: Blanks,
    keeps: (MemoryKeep, MemoryKeep),
    directory: &Directory,
)
where
    P0: Ledger + Send + Sync,
    P1: Ledger + Send + Sync,
    P2: Ledger + Send + Sync,
    P3: Ledger + Send + Sync,
    D: Ledger + Send + Sync,
    R: Threads + Wait + Abort + Sync,
{
    let (line, mut ports, driver) = line_of::<P0, P1, P2, P3, D>(site, blanks);
    let pair = last_two(&mut ports);
    let (one, other, pumped, reading) = run_apart(rt, alloc, &line, directory, pair, driver, keeps);
    same(rt, &pumped.1, &None);
    go_back(rt, &mut ports, (one.1, other.1), false);
    let site = closed(rt, line, ports, pumped.0);
    let left = ((one.0, one.2), (other.0, other.2));
    all_is_right(rt, directory, site, left, (one.3, other.3), reading);
}

const APART: [(u8, u8); 2] = [(0, 3), (4, 7)];

/// Two controllers, each with a store, are before a commit of their own at the same time, and what they post is read
/// meanwhile.
fn commit_apart<R: Threads + Wait + Abort + Sync>(
    rt: &R,
    alloc: Global,
    site: SiteState,
    keeps: (MemoryKeep, MemoryKeep),
    directory: &Directory,
) {
    let blanks = blanks();
    commits_apart::<Brand, Brand, Brand, Brand, Brand, R>(
        rt, alloc, site, blanks, keeps, directory,
    );
}

/// Empty stores for the two controllers.
fn stores_apart() -> Result<(MemoryKeep, MemoryKeep), Fail> {
    Ok((store_of(APART[0])?, store_of(APART[1])?))
}

/// The same with so many gear, and with empty stores.
fn commit_gear<R: Threads + Wait + Abort + Sync + AllocGlobal>(
    rt: &R,
    gear: u32,
    directory: &Directory,
) -> Result<(), Fail> {
    let alloc = rt.alloc();
    let keeps = stores_apart()?;
    let site = site_with(alloc, gear, &APART)?;
    commit_apart(rt, alloc, site, keeps, directory);
    Ok(())
}

#[test]
fn commit_outside_lock(rt: HostRuntime) -> Result<(), Fail> {
    commit_gear(&rt, 2, &Directory::new(rt.alloc())?)
}

#[test]
fn look_while_running(rt: HostRuntime) -> Result<(), Fail> {
    commit_gear(&rt, 4, &Directory::new(rt.alloc())?)
}

/// A worker, if there is one, with a store in memory and an open gate.
type MaybeWorker<P> = Option<Worker<P, MemoryKeep, OpenGate>>;

/// A worker runs, if there is one.
fn works_if<B: Bus, R: Wait>(
    rt: &R,
    alloc: Global,
    bus: &B,
    directory: &Directory,
    worker: MaybeWorker<B::Port>,
) -> Option<Left<B::Port>> {
    match worker {
        Some(worker) => Some(works(rt, alloc, bus, directory, worker)),
        None => None,
    }
}

/// Four of a thing, of which some may be missing.
type Four<T> = (Option<T>, Option<T>, Option<T>, Option<T>);

/// Up to two workers run, each in a thread of its own.
fn both_work_if<B, R>(
    rt: &R,
    alloc: Global,
    bus: &B,
    directory: &Directory,
    first: MaybeWorker<B::Port>,
    second: MaybeWorker<B::Port>,
) -> (Option<Left<B::Port>>, Option<Left<B::Port>>)
where
    B: Bus + Sync,
    B::Port: Send + Drop,
    R: Threads + Wait + Sync,
{
    join(
        rt,
        move || works_if(rt, alloc, bus, directory, first),
        move || works_if(rt, alloc, bus, directory, second),
    )
}

/// Up to four workers and a pumper run, each in a thread of its own. The bus may be stopped while the workers run,
/// before the pumper's first turn: so no frame was sent before, and no worker can have ended.
fn all_run<B, R>(
    rt: &R,
    alloc: Global,
    bus: &B,
    directory: &Directory,
    workers: Four<Worker<B::Port, MemoryKeep, OpenGate>>,
    pumper: Pumper<B::Driver, OpenGate>,
    stops: bool,
) -> (Four<Left<B::Port>>, (B::Driver, Option<Refusal>))
where
    B: Bus + Sync,
    B::Port: Send + Drop,
    B::Driver: Send + Drop,
    R: Threads + Wait + Sync,
{
    let (first, second, third, fourth) = workers;
    let ((one, two), ((three, four), pumped)) = join(
        rt,
        move || both_work_if(rt, alloc, bus, directory, first, second),
        move || {
            join(
                rt,
                move || both_work_if(rt, alloc, bus, directory, third, fourth),
                move || {
                    if stops {
                        bus.stop(rt);
                    }
                    pumper.run(rt, bus, TURNS)
                },
            )
        },
    );
    ((one, two, three, four), pumped)
}

/// The list is whole, and is what the log has of this controller; of none, what is no controller's step.
fn is_logged<R: Abort>(rt: &R, log: &[Event], name: Option<u8>, list: &List) {
    assert!(rt; list.is_whole);
    let mut rest = list.events.iter();
    for event in log {
        if event.whose_step() == name {
            assert!(rt; rest.next() == Some(event));
        }
    }
    assert!(rt; rest.next().is_none());
}

/// The controllers of odd numbers begin by a survey.
fn begins_by_survey(controller: u8) -> bool {
    controller % 2 == 1
}

/// The controller of this number began as it is to, if it has begun.
fn begins_so<R: Abort>(rt: &R, name: u8, list: &List) {
    let Some(Event::Acted(_, input, _)) = list.events.first() else {
        return;
    };
    let wanted = if begins_by_survey(name) {
        Input::Survey
    } else {
        Input::Start
    };
    assert!(rt; *input == wanted);
}

/// What a worker left, if there was one: it ended, or it was stopped when the bus was stopped from outside; and its
/// list is what the log has of its controller.
fn left_its_list<R: Abort>(
    rt: &R,
    log: &[Event],
    name: u8,
    left: Option<(Outcome, List)>,
    stops: bool,
) {
    let Some((outcome, list)) = &left else {
        return;
    };
    match outcome {
        Outcome::Ended(_) => assert!(rt; !stops),
        Outcome::Stopped => assert!(rt; stops),
        _ => assert!(rt; false),
    }
    begins_so(rt, name, list);
    is_logged(rt, log, Some(name), list);
}

/// The port of a worker, if there was one, is back behind the others. How the worker ended, and its list.
fn comes_back<P: Default + Drop, R: Abort>(
    rt: &R,
    ports: &mut ArrayVec<P, 4>,
    left: Option<Left<Listed<P>>>,
) -> Option<(Outcome, List)> {
    let (outcome, port, _, _) = left?;
    let Listed { inner, list } = port;
    assert!(rt; ports.try_push(inner).is_ok());
    Some((outcome, list))
}

/// The ports of up to four workers are back, in order. How the workers ended, and their lists.
fn come_back<P: Default + Drop, R: Abort>(
    rt: &R,
    ports: &mut ArrayVec<P, 4>,
    left: Four<Left<Listed<P>>>,
) -> Four<(Outcome, List)> {
    let first = comes_back(rt, ports, left.0);
    let second = comes_back(rt, ports, left.1);
    let third = comes_back(rt, ports, left.2);
    (first, second, third, comes_back(rt, ports, left.3))
}

/// A worker for a store, if there is one, with the last port, which is that of the controller of this number.
fn worker_of<P: Default + Drop>(
    alloc: Global,
    ports: &mut ArrayVec<P, 4>,
    keep: Option<MemoryKeep>,
    controller: u8,
) -> Option<Worker<Listed<P>, MemoryKeep, OpenGate>> {
    let keep = keep?;
    let port = ports.pop()?;
    Some(Worker {
        port: Listed::new(alloc, port),
        keep,
        gate: OpenGate,
        surveys: begins_by_survey(controller),
    })
}

/// The workers of the controllers, each with a port, which lists, and a store.
fn workers_of<P: Default + Drop>(
    alloc: Global,
    mut ports: ArrayVec<P, 4>,
    keeps: Four<MemoryKeep>,
) -> Four<Worker<Listed<P>, MemoryKeep, OpenGate>> {
    let fourth = worker_of(alloc, &mut ports, keeps.3, 3);
    let third = worker_of(alloc, &mut ports, keeps.2, 2);
    let second = worker_of(alloc, &mut ports, keeps.1, 1);
    let first = worker_of(alloc, &mut ports, keeps.0, 0);
    (first, second, third, fourth)
}

/// Up to four workers and a pumper run over a bus, each of them with a list. What the workers leave, and the driver.
fn listed_run<B, R>(
    rt: &R,
    alloc: Global,
    bus: &B,
    directory: &Directory,
    workers: Four<Worker<Listed<B::Port>, MemoryKeep, OpenGate>>,
    driver: B::Driver,
    stops: bool,
) -> (Four<Left<Listed<B::Port>>>, Listed<B::Driver>)
where
    B: Bus + Sync,
    B::Port: Send + Drop,
    B::Driver: Send + Drop,
    R: Threads + Wait + Sync,
{
    let pumper = Pumper::new(Listed::new(alloc, driver), OpenGate);
    let (left, pumped) = all_run(
        rt,
        alloc,
        &ListedBus { bus },
        directory,
        workers,
        pumper,
        stops,
    );
    (left, pumped.0)
}

/// What four workers left is what the log has of their controllers, each as `left_its_list` says.
fn left_their_lists<R: Abort>(rt: &R, log: &[Event], left: Four<(Outcome, List)>, stops: bool) {
    left_its_list(rt, log, 0, left.0, stops);
    left_its_list(rt, log, 1, left.1, stops);
    left_its_list(rt, log, 2, left.2, stops);
    left_its_list(rt, log, 3, left.3, stops);
}

/// The list of the driver and those of the workers are what the log has. The driver's is empty if the bus was
/// stopped from outside.
fn lists_are_right<R: Abort>(
    rt: &R,
    site: SiteState,
    list: List,
    left: Four<(Outcome, List)>,
    stops: bool,
) {
    is_logged(rt, site.log(), None, &list);
    assert!(rt; list.events.is_empty() == stops);
    left_their_lists(rt, site.log(), left, stops);
}

fn lists_are_logged<P0, P1, P2, P3, D, R>(
    rt: &R,
    alloc: Global,
    site: SiteState,
    blanks: Blanks,
    keeps: Four<MemoryKeep>,
    directory: &Directory,
    stops: bool,
)
where
    P0: Ledger + Send + Sync,
    P1: Ledger + Send + Sync,
    P2: Ledger + Send + Sync,
    P3: Ledger + Send + Sync,
    D: Ledger + Send + Sync,
    R: Threads + Wait + Abort + Sync,
{
    let (line, ports, driver) = line_of::<P0, P1, P2, P3, D>(site, blanks);
    let workers = workers_of(alloc, ports, keeps);
    let (left, driver) = listed_run(rt, alloc, &line, directory, workers, driver, stops);
    let Listed { inner, list } = driver;
    let mut ports = ArrayVec::new();
    let left = come_back(rt, &mut ports, left);
    lists_are_right(rt, closed(rt, line, ports, inner), list, left, stops);
}

/// An empty store for the controller of this number, if there is one.
fn store_at(blocks: &[(u8, u8)], c: usize) -> Result<Option<MemoryKeep>, Fail> {
    match blocks.get(c) {
        Some(bounds) => Ok(Some(store_of(*bounds)?)),
        None => Ok(None),
    }
}

/// An empty store for each of up to four controllers.
fn stores_of(alloc: Global, blocks: &[(u8, u8)]) -> Result<Four<MemoryKeep>, Fail> {
    let (first, second) = (store_at(blocks, 0)?, store_at(blocks, 1)?);
    let (third, fourth) = (store_at(blocks, 2)?, store_at(blocks, 3)?);
    Ok((first, second, third, fourth))
}

/// What the holders of the ports and of the driver asked and were answered is what the log has in each name, with a
/// controller for each block.
fn ports_list<R: Threads + Wait + Abort + Sync + AllocGlobal>(
    rt: &R,
    blocks: &[(u8, u8)],
    directory: &Directory,
    stops: bool,
) -> Result<(), Fail> {
    let alloc = rt.alloc();
    let keeps = stores_of(alloc, blocks)?;
    let site = site_with(alloc, 8, blocks)?;
    let blanks = blanks();
    lists_are_logged::<Brand, Brand, Brand, Brand, Brand, R>(
        rt, alloc, site, blanks, keeps, directory, stops,
    );
    Ok(())
}

#[test]
fn port_lists(rt: HostRuntime) -> Result<(), Fail> {
    ports_list(
        &rt,
        &[(0, 1), (2, 3), (4, 5), (6, 7)],
        &Directory::new(rt.alloc())?,
        false,
    )
}

#[test]
fn port_lists_of_two_controllers(rt: HostRuntime) -> Result<(), Fail> {
    ports_list(&rt, &[(0, 3), (4, 7)], &Directory::new(rt.alloc())?, false)
}

#[test]
fn a_stop_from_outside_stops_all(rt: HostRuntime) -> Result<(), Fail> {
    ports_list(
        &rt,
        &[(0, 1), (2, 3), (4, 5), (6, 7)],
        &Directory::new(rt.alloc())?,
        true,
    )
}
