//! How a program calls the crates: the code that docs/LIBRARY.md shows, and what comes of it. tools/lint compares each
//! block of code there with this file.

use super::threads::{blanks, store_of};
use super::values::{block, same, site_of};
use dali_controller::Machine;
use dali_enrol::Directory;
use dali_frame::{Forward, Priority, Random24};
use dali_gear::{Reach, Row};
use dali_line::{Line, OpenGate, Outcome, Pumper, Worker};
use dali_reserve::MemoryKeep;
use dali_script::{Due, End, Input, Kept, Order, Record};
use dali_special::Command;
use dali_world::{Plan, Report, SiteState, Trouble};
use std::alloc::Global;
use std::marker::Brand;
use std::process::Abort;
use std::sync::Wait;
use std::sync::ledger::{Blank, Ledger};
use std::test::Fail;
use std::thread::{Threads, join};

/// What a controller has beside its machine.
pub trait Surroundings {
    /// Sends a frame on the bus. Heard, Destroyed or Lapsed: what became of it.
    fn send(&mut self, priority: Priority, frame: Forward) -> Input;

    /// Keeps a record over a loss of power. Whether it is kept.
    fn keep(&mut self, record: Record) -> bool;
}

/// Gives addresses until the machine has ended. None: it halted, or took too many steps.
pub fn commission<S: Surroundings>(machine: &mut Machine, around: &mut S) -> Option<End> {
    let mut told = Input::Survey;
    for _ in 0..100_000 {
        told = match machine.step(told).ok()? {
            Order::Put(priority, frame) => around.send(priority, frame),
            Order::Commit(record) => {
                if around.keep(record) {
                    Input::Committed
                } else {
                    Input::CommitFailed
                }
            }
            Order::Done(end) => return Some(end),
            Order::Halt(_) => return None,
        };
    }
    None
}

/// Gear on a bus that nothing disturbs, the numbers that they draw, and the records that were kept.
#[derive(Drop)]
struct Simulated {
    row: Row,
    draws: [Random24; 4],
    drawn: usize,
    kept: Kept,
}

impl Surroundings for Simulated {
    fn send(&mut self, _priority: Priority, frame: Forward) -> Input {
        let draws = self.draws.get(self.drawn..).unwrap_or_default();
        let heard = self.row.take(&Command::read(frame), Reach::Everyone, draws);
        self.drawn += heard.drawn;
        Input::Heard(heard.answer)
    }

    fn keep(&mut self, record: Record) -> bool {
        self.kept.fits(&record) && self.kept.add(record).is_ok()
    }
}

#[test]
fn a_machine_gives_addresses(rt: HostRuntime) -> Result<(), Fail> {
    let kept = Kept::new(block(0, 63)?);
    let mut machine = Machine::new(0, &kept);
    let mut around = Simulated {
        row: Row::new(3),
        draws: [
            Random24::from_bytes(0x12, 0x34, 0x56),
            Random24::from_bytes(0x65, 0x43, 0x21),
            Random24::from_bytes(0x00, 0x00, 0x01),
            Random24::from_bytes(0xAB, 0xCD, 0xEF),
        ],
        drawn: 0,
        kept,
    };
    same(
        &rt,
        &commission(&mut machine, &mut around),
        &Some(End::AllFound),
    );
    assert!(&rt; machine.table().entries().len() == 3);
    assert!(&rt; around.kept.same(machine.kept()));
    Ok(())
}

/// Each of three gear has a short address.
fn are_addressed<R: Abort>(rt: &R, site: &SiteState) {
    assert!(rt; site.plan().gear() == 3);
    for number in 0..3 {
        assert!(rt; site.gear(number).short().is_some());
    }
}

/// What a controller of a site is to be told next, if anything is due.
fn told(site: &SiteState, c: u8) -> Option<Input> {
    match site.due(c) {
        Due::Start => Some(Input::Survey),
        Due::Bus => site.next(c),
        Due::Store => Some(Input::Committed),
        Due::Nothing => None,
    }
}

/// A controller commissions three gear, until nothing is to be done.
pub fn simulate(alloc: Global) -> Result<SiteState, Fail> {
    let plan = Plan::new(alloc, 3, &[(0, 15)], &[0x123456, 0x654321, 0x000001])?;
    let mut site = SiteState::new(alloc, plan, 65_536, 64)?;
    for _ in 0..10_000 {
        if let Some(input) = told(&site, 0) {
            site.act(0, input)?;
        } else if site.pump(Trouble::None)? == Report::Idle {
            break;
        }
    }
    site.is_safe();
    Ok(site)
}

#[test]
fn a_site_is_simulated(rt: HostRuntime) -> Result<(), Fail> {
    are_addressed(&rt, &simulate(rt.alloc())?);
    Ok(())
}

/// A controller and the bus of a site run in a thread each. How the controller ended, and the site after it.
pub fn run<P0, P1, P2, P3, D, R>(
    rt: &R,
    alloc: Global,
    site: SiteState,
    keep: MemoryKeep,
    blanks: (Blank, Blank, Blank, Blank, Blank),
) -> Result<(Outcome, SiteState), Fail>
where
    P0: Ledger + Send + Sync,
    P1: Ledger + Send + Sync,
    P2: Ledger + Send + Sync,
    P3: Ledger + Send + Sync,
    D: Ledger + Send + Sync,
    R: Threads + Wait + Sync,
{
    let directory = Directory::new(alloc)?;
    let pass = directory.pass(alloc)?;
    let (first, second, third, fourth, fifth) = blanks;
    let (line, mut ports, driver) = Line::<P0, P1, P2, P3, D>::new(
        site, first, second, third, fourth, fifth,
    );
    let worker = Worker::new(ports.pop().unwrap_or_default(), keep, OpenGate);
    let pumper = Pumper::new(driver, OpenGate);
    let (bus, posts) = (&line, &directory);
    let ((outcome, port, _, _), (driver, _)) = join(
        rt,
        move || worker.run(rt, alloc, bus, posts, pass, 100_000),
        move || pumper.run(rt, bus, 100_000),
    );
    ports.push(port);
    match line.close(ports, driver) {
        Ok(site) => Ok((outcome, site)),
        Err(_) => Err(Fail::from("a port is missing")),
    }
}

/// The ledgers of a line have names of their own where it is made.
fn run_apart<R: Threads + Wait + Sync>(
    rt: &R,
    alloc: Global,
    site: SiteState,
) -> Result<(Outcome, SiteState), Fail> {
    let (keep, blanks) = (store_of((0, 15))?, blanks());
    run::<Brand, Brand, Brand, Brand, Brand, R>(rt, alloc, site, keep, blanks)
}

#[test]
fn a_line_is_run_by_threads(rt: HostRuntime) -> Result<(), Fail> {
    let alloc = rt.alloc();
    let (outcome, site) = run_apart(&rt, alloc, site_of(alloc, 3, &[(0, 15)], &[5, 6, 7])?)?;
    same(&rt, &outcome, &Outcome::Ended(End::AllFound));
    are_addressed(&rt, &site);
    Ok(())
}
