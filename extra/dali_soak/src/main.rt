//! Four controllers commission gear, while the bus's thread takes them down and up at random.
//!
//! The program is given a seed, plays one site in sessions, and looks at it after each of them.
//! In a session each controller has a thread, over a line round the site. The bus's thread takes controllers down now
//! and then, and so do the workers' gates, before and after a commit; then the controller is half of the time to come
//! up at once with what its store read when the session began. A worker whose controller is down ends; its thread
//! brings the controller up with what the store reads then, and goes on with another worker.
#![tactic(auto)]

ghost use Rattle.std.specs.Prelude.{◌≡◌, ◌<◌};

mod kept_promise;
mod listed;

use arrayvec::ArrayVec;
use dali_enrol::Directory;
use dali_line::{Bus, Driver, Gate, Line, Moment, Outcome, Port, Ready, UpRefusal, Worker};
use dali_reserve::Keep;
use dali_script::{Block, Kept};
use dali_sqlite::SqliteKeep;
use dali_world::{Event, Plan, Refusal, SiteState, Trouble};
use kept_promise::{are_apart, is_true};
use listed::{List, Listed, ListedBus};
use sqlite::MemStore;
use std::alloc::Global;
use std::env;
use std::marker::Brand;
use std::process::ExitCode;
use std::sync::ledger::{Blank, Ledger};
use std::sync::{Mutex, Wait};
use std::thread::{Threads, join, yield_now};

const GEAR: u32 = 48;

const BLOCKS: [(u8, u8); 4] = [(0, 15), (16, 31), (32, 47), (48, 63)];
/// How many turns a worker may take in a session, and the bus's thread.
const TURNS: u32 = 100_000;

const SESSIONS: u32 = 100;
/// How many workers a controller's thread runs in a session, after the first.
const RESTARTS: u32 = 10_000;
/// A log that is longer gets no further session.
const LONG: usize = 50_000;

type Database = SqliteKeep<MemStore>;

type Four<T> = (T, T, T, T);
/// What is wrong, or why a run could not go on.
struct Wrong(&'static str);

/// Numbers at random, by a linear congruence.
#[derive(Clone, Copy)]
struct Chance {
    state: u64,
}

impl Chance {
    /// A number below this one, which is not 0.
    fn below(&mut self, count: u32) -> u32 {
        self.state = self
            .state
            .wrapping_mul(6_364_136_223_846_793_005)
            .wrapping_add(1_442_695_040_888_963_407);
        let number = (self.state >> 33) as u32;
        number.checked_rem(count).unwrap_or(0)
    }
}

/// What is done to controllers.
#[derive(Clone, Copy)]
struct Turnover {
    chance: Chance,
    /// Which controllers' threads have ended.
    ended: [bool; 4],
    /// The bus is refused a frame: the numbers that gear draw are spent, or the log is full.
    is_spent: bool,
    downs: usize,
    ups: usize,
    /// No controller was refused to go down or to come up, unless for a cause that there may be.
    is_right: bool,
    /// What each thread noted is what the log has of it.
    is_logged: bool,
}

/// The driver, with its list, and what is done to controllers.
type Driving<P0, P1, P2, P3, D> = (Listed<Driver<P0, P1, P2, P3, D>>, Turnover);

/// A controller of these at random, as a number from 0 to 3.
fn some_controller(chance: &mut Chance) -> u8 {
    match chance.below(4) {
        0 => 0,
        1 => 1,
        2 => 2,
        _ => 3,
    }
}

/// A controller goes down, if it is up.
fn takes_down<P0: Ledger, P1: Ledger, P2: Ledger, P3: Ledger, D: Ledger, R: Wait>(
    rt: &R,
    line: &Line<P0, P1, P2, P3, D>,
    driving: &mut Driving<P0, P1, P2, P3, D>,
    at: u8,
) {
    match line.down(rt, &mut driving.0.inner, at) {
        Ok(()) => driving.1.downs = driving.1.downs.saturating_add(1),
        Err(Refusal::ControllerDown) => {}
        Err(_) => driving.1.is_right = false,
    }
}

/// A controller comes up with these records. They are what its store reads now, or what it read when the session began
/// (`is_old`): then they may be behind.
fn brings_up<P0: Ledger, P1: Ledger, P2: Ledger, P3: Ledger, D: Ledger, R: Wait>(
    rt: &R,
    line: &Line<P0, P1, P2, P3, D>,
    driving: &mut Driving<P0, P1, P2, P3, D>,
    at: u8,
    records: &Kept,
    is_old: bool,
) {
    match line.up(rt, &mut driving.0.inner, at, records) {
        Ok(()) => driving.1.ups = driving.1.ups.saturating_add(1),
        Err(UpRefusal::Site(Refusal::ControllerUp)) => {}
        Err(UpRefusal::CommitOpen | UpRefusal::Site(Refusal::StoreDisagrees)) if is_old => {}
        Err(_) => driving.1.is_right = false,
    }
}

/// A controller goes down while its worker is at a commit, and half of the time it is to come up at once with old
/// records.
fn strikes<P0: Ledger, P1: Ledger, P2: Ledger, P3: Ledger, D: Ledger, R: Wait>(
    rt: &R,
    line: &Line<P0, P1, P2, P3, D>,
    driving: &mut Driving<P0, P1, P2, P3, D>,
    at: u8,
    records: &[Kept],
) {
    takes_down(rt, line, driving, at);
    if usize::from(at) < records.len() && driving.1.chance.below(2) == 0 {
        brings_up(rt, line, driving, at, &records[usize::from(at)], true);
    }
}

/// A controller goes down now and then.
fn turns_over<P0: Ledger, P1: Ledger, P2: Ledger, P3: Ledger, D: Ledger, R: Wait>(
    rt: &R,
    line: &Line<P0, P1, P2, P3, D>,
    driving: &mut Driving<P0, P1, P2, P3, D>,
) {
    if driving.1.chance.below(1024) == 0 {
        let at = some_controller(&mut driving.1.chance);
        takes_down(rt, line, driving, at);
    }
}

/// A worker's gate, which takes the worker's controller down before and after some commits.
#[derive(Drop)]
struct Striking<'a, P0: Ledger, P1: Ledger, P2: Ledger, P3: Ledger, D: Ledger> {
    line: &'a Line<P0, P1, P2, P3, D>,
    driving: &'a Mutex<Driving<P0, P1, P2, P3, D>>,
    records: &'a [Kept],
}

impl<P0: Ledger, P1: Ledger, P2: Ledger, P3: Ledger, D: Ledger> Gate
    for Striking<'_, P0, P1, P2, P3, D> {
    fn at<R: Wait>(&self, rt: &R, controller: u8, moment: Moment) {
        if moment == Moment::AfterTurn {
            return;
        }
        // The bus's thread may wait for this worker while it has the driver.
        if let Some(mut driving) = self.driving.try_lock() {
            if driving.1.chance.below(32) == 0 {
                strikes(rt, self.line, &mut driving, controller, self.records);
            }
        }
    }
}

/// The bus's turn, if there is one. If all is over, and no controller is to be brought up, one goes down, and the
/// session ends. Whether it goes on.
fn goes_on<P0: Ledger, P1: Ledger, P2: Ledger, P3: Ledger, D: Ledger, R: Wait>(
    rt: &R,
    line: &Line<P0, P1, P2, P3, D>,
    driving: &mut Driving<P0, P1, P2, P3, D>,
) -> bool {
    match line.ready(rt, &mut driving.0.inner) {
        Ready::Stopped | Ready::Full => false,
        Ready::Over => {
            let goes_on = driving.1.ended != [true; 4];
            if !goes_on {
                let at = some_controller(&mut driving.1.chance);
                takes_down(rt, line, driving, at);
            }
            goes_on
        }
        Ready::Next => {
            let bus = ListedBus { bus: line };
            let is_spent = bus.pump(rt, &mut driving.0, Trouble::None).is_err();
            driving.1.is_spent = is_spent;
            !is_spent
        }
    }
}

/// The bus has its turns, and controllers go down and come up. In the end the line is stopped.
fn drives<P0: Ledger, P1: Ledger, P2: Ledger, P3: Ledger, D: Ledger, R: Wait>(
    rt: &R,
    line: &Line<P0, P1, P2, P3, D>,
    driving: &Mutex<Driving<P0, P1, P2, P3, D>>,
) {
    for _ in 0..TURNS {
        if !drives_once(rt, line, driving) {
            break;
        }
        yield_now();
    }
    line.stop(rt);
}

fn drives_once<P0: Ledger, P1: Ledger, P2: Ledger, P3: Ledger, D: Ledger, R: Wait>(
    rt: &R,
    line: &Line<P0, P1, P2, P3, D>,
    driving: &Mutex<Driving<P0, P1, P2, P3, D>>,
) -> bool {
    let mut driving = driving.lock(rt);
    let goes_on = goes_on(rt, line, &mut driving);
    if goes_on {
        turns_over(rt, line, &mut driving);
    }
    goes_on
}

/// What a worker leaves: how it ended, its port, and its store.
type Left<P> = (Outcome, P, Database);

fn works<B: Bus, G: Gate, R: Wait>(
    rt: &R,
    alloc: Global,
    bus: &B,
    directory: &Directory,
    worker: Worker<B::Port, Database, G>,
) -> Left<B::Port> {
    match directory.pass(alloc) {
        Ok(pass) => {
            let (outcome, port, keep, _) = worker.run(rt, alloc, bus, directory, pass, TURNS);
            (outcome, port, keep)
        }
        Err(_) => {
            bus.stop(rt);
            (Outcome::NoMemory, worker.port, worker.keep)
        }
    }
}

type Listing<P0, P1, P2, P3, D> = Listed<Port<P0, P1, P2, P3, D>>;

/// A port and the store of its controller.
type Manned<P> = (P, Database);

/// A controller's thread: workers run, one after the other, until one ends for another cause than that its controller
/// is down. Each time the controller comes up with what the store reads.
fn serves<P0: Ledger, P1: Ledger, P2: Ledger, P3: Ledger, D: Ledger, R: Wait>(
    rt: &R,
    alloc: Global,
    line: &Line<P0, P1, P2, P3, D>,
    directory: &Directory,
    driving: &Mutex<Driving<P0, P1, P2, P3, D>>,
    records: &[Kept],
    at: u8,
    manned: Manned<Listing<P0, P1, P2, P3, D>>,
) -> Left<Listing<P0, P1, P2, P3, D>> {
    let bus = ListedBus { bus: line };
    let gate = Striking {
        line,
        driving,
        records,
    };
    let worker = Worker::new(manned.0, manned.1, gate);
    let mut left = works(rt, alloc, &bus, directory, worker);
    for _ in 0..RESTARTS {
        if left.0 != Outcome::Down {
            break;
        }
        let (_, port, mut keep) = left;
        is_brought_up(rt, line, driving, at, &mut keep);
        let gate = Striking {
            line,
            driving,
            records,
        };
        let worker = Worker::new(port, keep, gate);
        left = works(rt, alloc, &bus, directory, worker);
    }
    ends(rt, driving, at);
    left
}

fn is_brought_up<P0: Ledger, P1: Ledger, P2: Ledger, P3: Ledger, D: Ledger, R: Wait>(
    rt: &R,
    line: &Line<P0, P1, P2, P3, D>,
    driving: &Mutex<Driving<P0, P1, P2, P3, D>>,
    at: u8,
    keep: &mut Database,
) {
    let read = keep.read();
    let mut driving = driving.lock(rt);
    match &read {
        Ok(kept) => brings_up(rt, line, &mut driving, at, kept, false),
        Err(_) => driving.1.is_right = false,
    }
}

fn ends<P0: Ledger, P1: Ledger, P2: Ledger, P3: Ledger, D: Ledger, R: Wait>(
    rt: &R,
    driving: &Mutex<Driving<P0, P1, P2, P3, D>>,
    at: u8,
) {
    let mut driving = driving.lock(rt);
    if at < 4 {
        let mut ended = driving.1.ended;
        ended[usize::from(at)] = true;
        driving.1.ended = ended;
    }
}

/// The threads of four controllers and of the bus run.
fn all_run<P0, P1, P2, P3, D, R>(
    rt: &R,
    alloc: Global,
    line: &Line<P0, P1, P2, P3, D>,
    directory: &Directory,
    workers: Four<Manned<Listing<P0, P1, P2, P3, D>>>,
    driving: &Mutex<Driving<P0, P1, P2, P3, D>>,
    records: &[Kept],
) -> Four<Left<Listing<P0, P1, P2, P3, D>>>
where
    P0: Ledger + Send + Sync,
    P1: Ledger + Send + Sync,
    P2: Ledger + Send + Sync,
    P3: Ledger + Send + Sync,
    D: Ledger + Send + Sync,
    R: Threads + Wait + Sync,
{
    let (first, second, third, fourth) = workers;
    let ((one, two), (three, (four, ()))) = join(
        rt,
        move || {
            join(
                rt,
                move || serves(rt, alloc, line, directory, driving, records, 0, first),
                move || serves(rt, alloc, line, directory, driving, records, 1, second),
            )
        },
        move || {
            join(
                rt,
                move || serves(rt, alloc, line, directory, driving, records, 2, third),
                move || {
                    join(
                        rt,
                        move || serves(rt, alloc, line, directory, driving, records, 3, fourth),
                        move || drives(rt, line, driving),
                    )
                },
            )
        },
    );
    (one, two, three, four)
}

/// The list is whole, and is what these events have of this kind.
fn is_logged(events: &[Event], list: &List, owner: u8) -> bool {
    let mut rest = list.events.iter();
    for event in events {
        if owner_of(event) == owner && rest.next() != Some(event) {
            return false;
        }
    }
    list.is_whole && rest.next().is_none()
}

/// Whose event this is: a controller's, 4 for a frame of the bus, 5 for a controller that went down and 6 for one that
/// came up.
fn owner_of(event: &Event) -> u8 {
    match event {
        Event::Acted(c, ..) => *c,
        Event::Sent(..) => 4,
        Event::Down(_) => 5,
        Event::Up(..) => 6,
        Event::Offered(..) | Event::Destroyed(..) | Event::Collided(..) | Event::Foreign(_) => 7,
        Event::Lapsed | Event::Quiet | Event::Power(..) | Event::Expired(_) => 7,
    }
}

fn is_of_down(event: &&Event) -> bool {
    owner_of(event) == 5
}

fn is_of_up(event: &&Event) -> bool {
    owner_of(event) == 6
}

fn is_of_another(event: &&Event) -> bool {
    owner_of(event) == 7
}

/// The site after a session, the stores of its controllers, and what became of them.
#[derive(Drop)]
struct Played {
    site: SiteState,
    keeps: Four<Database>,
    turnover: Turnover,
}

/// A session. It is right only if what each thread noted is what the log has of it.
fn session<P0, P1, P2, P3, D, R>(
    rt: &R,
    alloc: Global,
    played: Played,
    blanks: Blanks,
    directory: &Directory,
    records: &[Kept],
) -> Played
where
    P0: Ledger + Send + Sync,
    P1: Ledger + Send + Sync,
    P2: Ledger + Send + Sync,
    P3: Ledger + Send + Sync,
    D: Ledger + Send + Sync,
    R: Threads + Wait + Sync,
    requires first { (blanks.0.name ≡ P0.name) × (blanks.0.parts ≡ P0.parts) × (0 < P0.parts) }
    requires second { (blanks.1.name ≡ P1.name) × (blanks.1.parts ≡ P1.parts) × (0 < P1.parts) }
    requires third { (blanks.2.name ≡ P2.name) × (blanks.2.parts ≡ P2.parts) × (0 < P2.parts) }
    requires fourth { (blanks.3.name ≡ P3.name) × (blanks.3.parts ≡ P3.parts) × (0 < P3.parts) }
    requires driver { (blanks.4.name ≡ D.name) × (blanks.4.parts ≡ D.parts) × (0 < D.parts) }
{
    let Played {
        site,
        keeps,
        turnover,
    } = played;
    let begun = site.log().len();
    let (first, second, third, fourth, driver) = blanks;
    let (line, ports, driver) = Line::<P0, P1, P2, P3, D>::new(
        site, first, second, third, fourth, driver,
    );
    let mut ports = ports.into_iter();
    let ports = (
        ports.next().unwrap_or_default(),
        ports.next().unwrap_or_default(),
        ports.next().unwrap_or_default(),
        ports.next().unwrap_or_default(),
    );
    let workers = manned(alloc, ports, keeps);
    let driving = Mutex::new((Listed::new(alloc, driver), turnover));
    let left = all_run(rt, alloc, &line, directory, workers, &driving, records);
    let (driver, mut turnover) = driving.into_inner();
    let Listed { inner, list } = driver;
    let (first, one, first_keep) = apart(left.0);
    let (second, two, second_keep) = apart(left.1);
    let (third, three, third_keep) = apart(left.2);
    let (fourth, four, fourth_keep) = apart(left.3);
    let mut ports = ArrayVec::new();
    ports.push(first);
    ports.push(second);
    ports.push(third);
    ports.push(fourth);
    let closed = line.close(ports, inner);
    let has_all = closed.is_ok();
    let site = match closed {
        Ok(site) | Err(site) => site
    };
    let events = site.log().get(begun..).unwrap_or(&[]);
    let is_right = is_logged(events, &list, 4)
        && is_logged(events, &one, 0)
        && is_logged(events, &two, 1)
        && is_logged(events, &three, 2)
        && is_logged(events, &four, 3);
    turnover.is_logged = turnover.is_logged && has_all && is_right;
    Played {
        site,
        keeps: (first_keep, second_keep, third_keep, fourth_keep),
        turnover,
    }
}

/// What a controller's thread left: its port, its list and its store.
fn apart<E: Drop, P, K>(left: (E, Listed<P>, K)) -> (P, List, K) {
    let (_, listed, keep) = left;
    let Listed { inner, list } = listed;
    (inner, list, keep)
}

/// Each port, which lists, with its store.
fn manned<P: Drop>(
    alloc: Global,
    ports: Four<P>,
    keeps: Four<Database>,
) -> Four<Manned<Listed<P>>> {
    (
        (Listed::new(alloc, ports.0), keeps.0),
        (Listed::new(alloc, ports.1), keeps.1),
        (Listed::new(alloc, ports.2), keeps.2),
        (Listed::new(alloc, ports.3), keeps.3),
    )
}

/// The right to make the five ledgers of a line.
type Blanks = (Blank, Blank, Blank, Blank, Blank);

fn blanks() -> Blanks
    ensures first { 0 < result.0.parts }
    ensures second { 0 < result.1.parts }
    ensures third { 0 < result.2.parts }
    ensures fourth { 0 < result.3.parts }
    ensures driver { 0 < result.4.parts }
{
    (
        Blank::new(1),
        Blank::new(1),
        Blank::new(1),
        Blank::new(1),
        Blank::new(1),
    )
}

fn read(keep: &mut Database) -> Result<Kept, Wrong> {
    match keep.read() {
        Ok(kept) => Ok(kept),
        Err(_) => Err(Wrong("a store is not read")),
    }
}

fn reads(keeps: &mut Four<Database>, records: &mut Vec<Kept>) -> Result<(), Wrong> {
    let one = read(&mut keeps.0)?;
    adds(records, one)?;
    let two = read(&mut keeps.1)?;
    adds(records, two)?;
    let three = read(&mut keeps.2)?;
    adds(records, three)?;
    let four = read(&mut keeps.3)?;
    adds(records, four)
}

fn adds(records: &mut Vec<Kept>, kept: Kept) -> Result<(), Wrong> {
    match records.push(kept) {
        Ok(()) => Ok(()),
        Err(_) => Err(Wrong("memory")),
    }
}

/// The site is as it must be, and so are the stores.
fn looks(site: &SiteState, records: &[Kept], turnover: &Turnover) -> Result<(), Wrong> {
    if !turnover.is_right {
        return Err(Wrong("a controller is refused to go down, or to come up"));
    }
    if !turnover.is_logged {
        return Err(Wrong("a list and the log"));
    }
    if site.log().iter().filter(is_of_down).count() != turnover.downs
        || site.log().iter().filter(is_of_up).count() != turnover.ups
    {
        return Err(Wrong("the log and how often controllers went down and came up"));
    }
    if site.log().iter().filter(is_of_another).count() != 0 {
        return Err(Wrong("an event of nobody"));
    }
    if !are_apart(site) {
        return Err(Wrong("two gear with one short address"));
    }
    let mut c = 0u8;
    for stored in records {
        if !is_true(site, c, stored) {
            return Err(Wrong("a table, or a store"));
        }
        c = c.saturating_add(1);
    }
    Ok(())
}

/// One session more, with a look at the site after it.
fn goes_further<R: Threads + Wait + Sync>(
    rt: &R,
    alloc: Global,
    played: Played,
    records: &mut Vec<Kept>,
) -> Result<Played, Wrong> {
    let Ok(directory) = Directory::new(alloc) else {
        return Err(Wrong("memory"));
    };
    let mut played = played;
    let none = [false; 4];
    played.turnover.ended = none;
    let blanks = blanks();
    let mut played = session::<Brand, Brand, Brand, Brand, Brand, R>(
        rt, alloc, played, blanks, &directory, records,
    );
    records.clear();
    reads(&mut played.keeps, records)?;
    looks(&played.site, records, &played.turnover)?;
    Ok(played)
}

fn store(alloc: Global, blocks: &[Block], at: usize) -> Result<Database, Wrong> {
    let Some(block) = blocks.get(at) else {
        return Err(Wrong("a block is missing"));
    };
    match SqliteKeep::in_memory(alloc, *block) {
        Ok(keep) => Ok(keep),
        Err(_) => Err(Wrong("memory")),
    }
}

fn stores(alloc: Global, blocks: &[Block]) -> Result<Four<Database>, Wrong> {
    let one = store(alloc, blocks, 0)?;
    let two = store(alloc, blocks, 1)?;
    let three = store(alloc, blocks, 2)?;
    let four = store(alloc, blocks, 3)?;
    Ok((one, two, three, four))
}

/// A site whose gear draw different numbers, far apart.
fn new_site(alloc: Global) -> Result<SiteState, Wrong> {
    let mut draws = [0u32; 1024];
    for (index, draw) in draws.iter_mut().enumerate() {
        *draw = index as u32 * 16_363;
    }
    let Ok(plan) = Plan::new(alloc, GEAR, &BLOCKS, &draws) else {
        return Err(Wrong("the plan is refused"));
    };
    match SiteState::new(alloc, plan, 65_536, 64) {
        Ok(site) => Ok(site),
        Err(_) => Err(Wrong("memory")),
    }
}

fn begun(alloc: Global, seed: u64) -> Result<Played, Wrong> {
    let site = new_site(alloc)?;
    let keeps = stores(alloc, site.plan().blocks())?;
    let turnover = Turnover {
        chance: Chance { state: seed },
        ended: [false; 4],
        is_spent: false,
        downs: 0,
        ups: 0,
        is_right: true,
        is_logged: true,
    };
    Ok(Played {
        site,
        keeps,
        turnover,
    })
}

/// In the end every controller goes down, and comes up with what its store reads.
fn comes_up(site: &mut SiteState, records: &[Kept]) -> Result<(), Wrong> {
    let mut c = 0u8;
    for stored in records {
        match site.down(c) {
            Ok(()) | Err(Refusal::ControllerDown) => {}
            Err(_) => return Err(Wrong("a controller does not go down in the end")),
        }
        if site.up(c, stored).is_err() {
            return Err(Wrong("a controller does not come up in the end"));
        }
        c = c.saturating_add(1);
    }
    Ok(())
}

/// How many gear have a short address.
fn addressed(site: &SiteState) -> u32 {
    let mut count = 0u32;
    for number in 0..site.plan().gear() {
        if site.gear(number).short().is_some() {
            count = count.saturating_add(1);
        }
    }
    count
}

/// What came of a site: sessions, how often controllers went down and came up, events, and gear with a short address.
#[derive(Clone, Copy)]
struct Report {
    sessions: u32,
    downs: usize,
    ups: usize,
    events: usize,
    addressed: u32,
}

fn sessions<R: Threads + Wait + Sync>(
    rt: &R,
    alloc: Global,
    first: Played,
    records: &mut Vec<Kept>,
) -> Result<(Played, u32), Wrong> {
    let mut played = first;
    let mut count = 0u32;
    for _ in 0..SESSIONS {
        match goes_further(rt, alloc, played, records) {
            Ok(next) => played = next,
            Err(wrong) => return Err(wrong),
        }
        count = count.saturating_add(1);
        if played.turnover.is_spent || played.site.log().len() > LONG {
            break;
        }
    }
    Ok((played, count))
}

fn plays<R: Threads + Wait + Sync>(rt: &R, alloc: Global, seed: u64) -> Result<Report, Wrong> {
    let mut records = Vec::new(alloc);
    let (played, count) = sessions(rt, alloc, begun(alloc, seed)?, &mut records)?;
    let Played {
        site,
        keeps: _,
        turnover,
    } = played;
    let mut site = site;
    let report = Report {
        sessions: count,
        downs: turnover.downs,
        ups: turnover.ups,
        events: site.log().len(),
        addressed: addressed(&site),
    };
    comes_up(&mut site, &records)?;
    Ok(report)
}

/// The seed that the program is given as its argument; 1, if there is none.
fn seed(rt: &HostRuntime) -> u64 {
    let Ok(mut words) = env::args(rt) else {
        return 1;
    };
    let Some(word) = words.nth(1) else {
        return 1;
    };
    word.as_str().parse::<u64>().unwrap_or(1)
}

fn main(rt: HostRuntime) -> ExitCode {
    let seed = seed(&rt);
    match plays(&rt, rt.alloc(), seed) {
        Ok(report) => {
            let (sessions, events) = (report.sessions, report.events);
            let (downs, ups) = (report.downs, report.ups);
            let addressed = report.addressed;
            match println!(&rt; "{sessions} {downs} {ups} {events} {addressed}") {
                Ok(()) => ExitCode::SUCCESS,
                Err(_) => ExitCode::FAILURE,
            }
        }
        Err(Wrong(what)) => {
            let _ = println!(&rt; "seed {seed}: {what}");
            ExitCode::FAILURE
        }
    }
}
