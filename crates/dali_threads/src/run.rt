//! A run: a worker for each controller and a pumper, in threads of their own, over one line; and what is written of it.

ghost use Rattle.std.specs.Prelude.{◌≡◌, ◌*◌, ◌<◌, ◌≤◌, [], None, Some, IfOk, OnOk, IfErr};
ghost use Rattle.std.specs.Prelude.{IfSome, IsErrOf, length, map, string_bytes, vec_len};
ghost use Rattle.dali_events.specs.declared.plan.PlanError.{PlanError};
ghost use Rattle.dali_events.specs.Plan.{plan_of, refusal_of};
ghost use Rattle.dali_threads.specs.Drawn.{numbers_of};
ghost use Rattle.dali_threads.specs.Ran.{HaveRun, IsRunOf};
ghost use Rattle.dali_threads.specs.Told.{Tells, told_text};
ghost use Rattle.dali_threads.specs.declared.setup.ThreadsFault.TheVariants.{BadPlan, Write};
ghost use Rattle.std.specs.Io.KnownBytes.{Appends};

use crate::draws::drawn;
use crate::report::{json_report, report, story};
use crate::setup::{Setup, ThreadsFault};
use crate::workers::{Left, all_run};
use arrayvec::ArrayVec;
use dali_line::{Line, Outcome, Port};
use dali_world::{Plan, PlanError, SiteState};
use std::alloc::{AllocError, Global};
use std::io::Write;
use std::marker::Brand;
use std::sync::Wait;
use std::sync::ledger::{Blank, Ledger};
use std::thread::Threads;

/// How many events a site's log holds.
const LOG_ROOM: usize = 65_536;

/// How many requests may wait on a site.
const QUEUE_ROOM: usize = 64;

/// The ports of a line as a list.
fn listed<P0: Ledger, P1: Ledger, P2: Ledger, P3: Ledger, D: Ledger>(
    alloc: Global,
    ports: ArrayVec<Port<P0, P1, P2, P3, D>, 4>,
) -> Result<Vec<Port<P0, P1, P2, P3, D>>, AllocError>
    ensures { IfOk result (λ list. list.items ≡ ports.items) }
{
    ports.into_iter().collect(alloc)
}

/// How each worker ended, and the ports as a line takes them back.
fn parted<P: Default + Drop>(
    alloc: Global,
    ended: Vec<(Outcome, P)>,
) -> Result<(Vec<Outcome>, ArrayVec<P, 4>), AllocError>
    requires { vec_len ended ≤ 4 }
    ensures outcomes { IfOk result (λ r. r.0.items ≡ map (λ e. e.0) ended.items) }
    ensures ports { IfOk result (λ r. r.1.items ≡ map (λ e. e.1) ended.items) }
{
    let mut outcomes = Vec::new(alloc);
    let mut ports = ArrayVec::new();
    for (outcome, port) in ended {
        outcomes.push(outcome)?;
        ports.push(port);
    }
    Ok((outcomes, ports))
}

/// The right to make the five ledgers of a line.
type Blanks = (Blank, Blank, Blank, Blank, Blank);

fn blanks() -> Blanks
    ensures first { 0 < result.0.parts }
    ensures second { 0 < result.1.parts }
    ensures third { 0 < result.2.parts }
    ensures fourth { 0 < result.3.parts }
    ensures driver { 0 < result.4.parts }
{
    (
        Blank::new(1),
        Blank::new(1),
        Blank::new(1),
        Blank::new(1),
        Blank::new(1),
    )
}

/// All run over a line round this site. Answers how the workers ended, and the site.
fn commission<P0, P1, P2, P3, D, R>(
    rt: &R,
    alloc: Global,
    site: SiteState,
    blanks: Blanks,
    turns: u32,
    surveys: bool,
) -> Result<(Vec<Outcome>, SiteState), AllocError>
where
    P0: Ledger + Send + Sync,
    P1: Ledger + Send + Sync,
    P2: Ledger + Send + Sync,
    P3: Ledger + Send + Sync,
    D: Ledger + Send + Sync,
    R: Threads + Wait + Sync,
    requires first { (blanks.0.name ≡ P0.name) × (blanks.0.parts ≡ P0.parts) × (0 < P0.parts) }
    requires second { (blanks.1.name ≡ P1.name) × (blanks.1.parts ≡ P1.parts) × (0 < P1.parts) }
    requires third { (blanks.2.name ≡ P2.name) × (blanks.2.parts ≡ P2.parts) × (0 < P2.parts) }
    requires fourth { (blanks.3.name ≡ P3.name) × (blanks.3.parts ≡ P3.parts) × (0 < P3.parts) }
    requires driver { (blanks.4.name ≡ D.name) × (blanks.4.parts ≡ D.parts) × (0 < D.parts) }
    requires log { site.log ≡ [] }
    ensures count { IfOk result (λ r. vec_len r.0 ≡ length site.plan.blocks) }
    ensures run { IfOk result (λ r. HaveRun turns surveys r.0.items r.1) }
{
    let blocks = Vec::from_slice(alloc, site.plan().blocks())?;
    let (first, second, third, fourth, driver) = blanks;
    let (line, ports, driver) = Line::<P0, P1, P2, P3, D>::new(
        site, first, second, third, fourth, driver,
    );
    let ports = listed(alloc, ports)?;
    let Left { ended, driver } = all_run(rt, alloc, &line, ports, driver, &blocks, turns, surveys)?;
    let (outcomes, ports) = parted(alloc, ended)?;
    match line.close(ports, driver) {
        Ok(site) => Ok((outcomes, site)),
        // `all_run` has handed back each port, or has answered that a thread could not be made.
        Err(_) => Err(AllocError),
    }
}

/// A plan of this gear, these blocks and these numbers to be drawn.
fn planned(
    alloc: Global,
    gear: u32,
    blocks: &[(u8, u8)],
    draws: &[u32],
) -> Result<Plan, ThreadsFault>
    requires { length draws.now ≤ 1024 }
    ensures allowed { OnOk result (refusal_of gear blocks.now draws.now ≡ None) }
    ensures plan { IfOk result (λ plan. plan ≡ plan_of gear blocks.now draws.now) }
    ensures refused { IfSome (refusal_of gear blocks.now draws.now) (λ e. IsErrOf result (BadPlan e)) }
    ensures cause { IfErr result (λ fault. (e : PlanError) → fault ≡ BadPlan e
        → refusal_of gear blocks.now draws.now ≡ Some e) }
{
    match Plan::new(alloc, gear, blocks, draws) {
        Ok(plan) => Ok(plan),
        Err(PlanError::NoMemory) => Err(ThreadsFault::Memory),
        Err(error) => Err(ThreadsFault::BadPlan(error)),
    }
}

/// Runs a worker in a thread of its own for each block, and a pumper, on so many gear from the factory, and writes what
/// became of them: how each worker ended, the states of all gear, the controllers' tables, and how many gear have a
/// short address; or the story of the run.
///
/// The gear draw numbers of a generator from the seed: the same for the same seed, though which controller gives which
/// address is open.
#[tactic(auto, unfolding(crate::specs::Ran::IsRunOf))]
pub fn run_threads<R: Threads + Wait + Sync, W: Write>(
    rt: &R,
    alloc: Global,
    setup: Setup,
    writer: &mut W,
) -> Result<(), ThreadsFault>
    ensures run { IsRunOf setup result }
    ensures refused { IfSome (refusal_of setup.gear setup.blocks.items [])
        (λ e. IsErrOf result (BadPlan e) × (writer.new ≡ writer.old)) }
    ensures cause { IfErr result (λ fault. (e : PlanError) → fault ≡ BadPlan e
        → refusal_of setup.gear setup.blocks.items [] ≡ Some e) }
    ensures told { OnOk result (Tells setup.as_story setup.as_json setup.turns setup.surveys
        (length setup.blocks.items) (W.contents writer.old) (W.contents writer.new)) }
{
    let plan = planned(alloc, setup.gear, setup.blocks.as_slice(), &[])?;
    run_on(rt, alloc, &plan, &setup, writer)
}

/// A plan of the same gear and blocks as one without numbers, with numbers drawn from the seed.
fn drawn_plan(alloc: Global, setup: &Setup, undrawn: &Plan) -> Result<Plan, AllocError>
    requires { refusal_of setup.now.gear setup.now.blocks.items [] ≡ None }
    ensures { IfOk result (λ plan. plan ≡ plan_of setup.now.gear setup.now.blocks.items
        (numbers_of setup.now.seed (undrawn.now.gear * length undrawn.now.blocks))) }
{
    let most = undrawn.gear() as usize * undrawn.blocks().len();
    let numbers = drawn(alloc, setup.seed, most)?;
    let blocks = setup.blocks.as_slice();
    match planned(alloc, setup.gear, blocks, numbers.as_slice()) {
        Ok(plan) => Ok(plan),
        // None of the numbers is too large, and none stands twice.
        Err(ThreadsFault::BadPlan(_)) => unreachable!(),
        Err(ThreadsFault::Memory | ThreadsFault::Write) => Err(AllocError),
    }
}

/// The story of a run, or its report as JSON or as lines.
fn told(
    alloc: Global,
    setup: &Setup,
    outcomes: &[Outcome],
    site: &SiteState,
) -> Result<String, AllocError>
    ensures { IfOk result (λ text. string_bytes text
        ≡ told_text setup.now.as_story setup.now.as_json outcomes.now site.now) }
{
    match (setup.as_story, setup.as_json) {
        (true, _) => story(alloc, site),
        (false, true) => json_report(alloc, outcomes, site),
        (false, false) => report(alloc, outcomes, site),
    }
}

/// Writes a text, and passes it on.
fn write<W: Write>(writer: &mut W, text: &[u8]) -> Result<(), ThreadsFault>
    ensures told { OnOk result (Appends (W.contents writer.old) (W.contents writer.new) text.now) }
    ensures fault { IfErr result (λ fault. fault ≡ Write) }
{
    match writer.write_all(text) {
        Ok(()) => {}
        Err(_) => return Err(ThreadsFault::Write),
    }
    match writer.flush() {
        Ok(()) => Ok(()),
        Err(_) => Err(ThreadsFault::Write),
    }
}

/// As `run_threads`, of a plan of the same gear and blocks in which no numbers are drawn.
fn run_on<R: Threads + Wait + Sync, W: Write>(
    rt: &R,
    alloc: Global,
    undrawn: &Plan,
    setup: &Setup,
    writer: &mut W,
) -> Result<(), ThreadsFault>
    requires { refusal_of setup.now.gear setup.now.blocks.items [] ≡ None }
    ensures cause { IfErr result (λ fault. (e : PlanError) → fault ≡ BadPlan e → ⊥) }
    ensures told { OnOk result (Tells setup.now.as_story setup.now.as_json setup.now.turns setup.now.surveys
        (length setup.now.blocks.items) (W.contents writer.old) (W.contents writer.new)) }
{
    let plan = drawn_plan(alloc, setup, undrawn)?;
    let Ok(site) = SiteState::new(alloc, plan, LOG_ROOM, QUEUE_ROOM) else {
        return Err(ThreadsFault::Memory);
    };
    let blanks = blanks();
    let (outcomes, site) = commission::<Brand, Brand, Brand, Brand, Brand, R>(
        rt,
        alloc,
        site,
        blanks,
        setup.turns,
        setup.surveys,
    )?;
    let text = told(alloc, setup, &outcomes, &site)?;
    write(writer, text.as_bytes())
}
