//! The threads of a run: a worker for each port, and the pumper in the thread that starts them.

ghost use Rattle.std.specs.Prelude.{◌≡◌, ◌≤◌, IfOk, OnErr, IsTrue, length, vec_len};
ghost use Rattle.dali_line.specs.Driving.{Drives};
ghost use Rattle.dali_line.specs.Ends.{stops};
ghost use Rattle.dali_line.specs.Facts.{facts_of};
ghost use Rattle.dali_threads.specs.Ran.{HasRun, EachHasRun};
ghost use Rattle.std.specs.PromisedHandle.{KeepsEach};

use dali_enrol::Directory;
use dali_line::{Bus, OpenGate, Outcome, Pumper, Worker};
use dali_script::Block;
use dali_sqlite::SqliteKeep;
use std::alloc::{AllocError, Global};
use std::snapshot::Snapshot;
use std::sync::Wait;
use std::thread;
use std::thread::{Promise, PromisedHandle, Threads};

/// What a worker's thread promises of how it ended and of its port: that it ran, over this bus, with the port that it
/// was given.
#[derive(Drop)]
struct Running<B: Bus> {
    bus: Snapshot<B>,
    port: Snapshot<B::Port>,
    turns: u32,
    surveys: bool,
}

impl<B: Bus> Promise<(Outcome, B::Port)> for Running<B> {
    ghost kept_by = { λ p r. HasRun
        (facts_of B.acted B.refused B.told B.untold B.unordered B.ordered B.is_down
        (B.is_stopped p.bus.value) p.surveys)
        (B.share p.port.value) (B.share r.1) p.turns r.0 };
}

/// A worker runs over a database in memory of its own, which is made here, in its thread, and with a pass of its own of
/// the directory. If one of the two is refused, the line is stopped.
#[tactic(auto, using(crate::proofs::Running::has_run, crate::proofs::Running::has_not_begun))]
fn works<B: Bus, R: Wait>(
    rt: &R,
    alloc: Global,
    bus: &B,
    port: B::Port,
    block: Block,
    directory: &Directory,
    turns: u32,
    surveys: bool,
) -> (Outcome, B::Port)
    ensures stopped { IsTrue (stops result.0) → B.is_told_to_stop bus.now }
    ensures ran { HasRun
        (facts_of B.acted B.refused B.told B.untold B.unordered B.ordered B.is_down (B.is_stopped bus.now) surveys)
        (B.share port) (B.share result.1) turns result.0 }
{
    match (SqliteKeep::in_memory(alloc, block), directory.pass(alloc)) {
        (Ok(keep), Ok(pass)) => {
            let worker = Worker {
                port,
                keep,
                gate: OpenGate,
                surveys,
            };
            let (outcome, port, _keep, _pass) = worker.run(rt, alloc, bus, directory, pass, turns);
            (outcome, port)
        }
        _ => {
            bus.stop(rt);
            (Outcome::NoMemory, port)
        }
    }
}

/// What the threads of a run leave: how each worker ended with its port, in order of the controllers' numbers, and the
/// driver.
#[derive(Drop)]
pub(crate) struct Left<P, D> {
    pub(crate) ended: Vec<(Outcome, P)>,
    pub(crate) driver: D,
}

/// Joins each of these threads, also if there is no memory for what they leave.
fn joined<R: Threads, T: Drop, P: Promise<T>>(
    rt: &R,
    threads: Vec<PromisedHandle<T, P>>,
) -> Result<Vec<T>, AllocError>
    ensures len { IfOk result (λ left. vec_len left ≡ vec_len threads) }
    ensures each { IfOk result (λ left. KeepsEach P.Promise (vec_len threads) threads.items left.items) }
{
    match thread::join_promised(rt, threads) {
        Ok(left) => Ok(left),
        Err(refused) => {
            for thread in refused.value {
                drop(thread.join(rt));
            }
            Err(AllocError)
        }
    }
}

/// A worker runs for each port, with the block at its place, and a pumper, until all have ended. The workers share a
/// directory. If a thread cannot be made, or there is no memory for what it leaves, the bus is stopped, so that no
/// thread waits for it. Each thread that was made is joined: the room for their handles is taken before the first one.
pub(crate) fn all_run<B, R>(
    rt: &R,
    alloc: Global,
    bus: &B,
    ports: Vec<B::Port>,
    driver: B::Driver,
    blocks: &[Block],
    turns: u32,
    surveys: bool,
) -> Result<Left<B::Port, B::Driver>, AllocError>
where
    B: Bus + Sync,
    B::Port: Send + Drop,
    B::Driver: Send + Drop,
    R: Threads + Wait + Sync,
    requires blocks { vec_len ports ≤ length blocks.now }
    ensures stopped { OnErr result (B.is_told_to_stop bus.now) }
    ensures count { IfOk result (λ left. vec_len left.ended ≡ vec_len ports) }
    ensures ran { IfOk result (λ left. EachHasRun
        (facts_of B.acted B.refused B.told B.untold B.unordered B.ordered B.is_down (B.is_stopped bus.now) surveys)
        B.share ports.items turns left.ended.items) }
    ensures drives { IfOk result (λ left. Drives B.pumped B.is_stuck B.lapsed (B.driven driver)
        (B.driven left.driver) turns) }
{
    let Ok(directory) = Directory::new(alloc) else {
        bus.stop(rt);
        return Err(AllocError);
    };
    let shared = &directory;
    thread::scope(
        thread::scope_env(),
        rt,
        move |scope| -> Result<Left<B::Port, B::Driver>, AllocError>
            requires { vec_len ports ≤ length blocks.now }
            ensures stopped { OnErr result (B.is_told_to_stop bus.entry.now) }
            ensures count { IfOk result (λ left. vec_len left.ended ≡ vec_len ports) }
            ensures ran { IfOk result (λ left. EachHasRun
                (facts_of B.acted B.refused B.told B.untold B.unordered B.ordered B.is_down
                (B.is_stopped bus.entry.now) surveys)
                B.share ports.items turns left.ended.items) }
            ensures drives { IfOk result (λ left. Drives B.pumped B.is_stuck B.lapsed (B.driven driver)
                (B.driven left.driver) turns) }
        {
            let count = ports.len();
            let Ok(mut workers) = Vec::with_capacity(alloc, count) else {
                bus.stop(rt);
                return Err(AllocError);
            };
            for port in ports {
                let block = blocks[workers.len()];
                let promise = Running {
                    bus: Snapshot::of(bus),
                    port: Snapshot::of(&port),
                    turns,
                    surveys,
                };
                let Ok(worker) = scope.spawn_with(
                    promise,
                    move || works(rt, alloc, bus, port, block, shared, turns, surveys),
                ) else {
                    break;
                };
                let Ok(()) = workers.push(worker) else {
                    // There is room for a worker of each port.
                    unreachable!()
                };
            }
            let are_all = workers.len() == count;
            if !are_all {
                bus.stop(rt);
            }
            let (driver, _) = Pumper::new(driver, OpenGate).run(rt, bus, turns);
            match joined(rt, workers) {
                Ok(ended) if are_all => Ok(Left { ended, driver }),
                _ => {
                    bus.stop(rt);
                    Err(AllocError)
                }
            }
        },
    )
}
