//! What a machine orders is done: frames are put by lines to the driver, and records are committed.

ghost use Rattle.std.specs.Prelude.{◌≡◌, ◌≢◌, ℕ, [], ◌∷◌, true, None, Some, Err, Option, IfOk, IfErr, OnOk};
ghost use Rattle.std.specs.Prelude.{IfSome, MatchOption};
ghost use Rattle.std.specs.Io.KnownBytes.{Appends};
ghost use Rattle.dali_commissioning.specs.Acts.{KeepsRules, LeavesRules, HasWritten, MayCommitLast};
ghost use Rattle.dali_frame.specs.declared.frames.Forward.{Forward};
ghost use Rattle.dali_script.specs.Records.{Fits};
ghost use Rattle.dali_script.specs.Due.{due_after, accepts, record_ordered};
ghost use Rattle.dali_script.specs.declared.orders.Due.TheVariants as due;
ghost use Rattle.dali_script.specs.declared.orders.Order.TheVariants.{Put};
ghost use Rattle.dali_script.specs.Sending.{opens};
ghost use Rattle.dali_commissioning.specs.Steps.{IsStep, if_heard, opened_by};
ghost use Rattle.dali_commissioning.specs.Drivers.{writer_of, talk_of, fault_of, IsPutInPart, IsFailed};
ghost use Rattle.dali_commissioning.specs.Steps.{order_line, record_told, is_kept};
ghost use Rattle.dali_commissioning.specs.Conducted.{Hears, Commits, MayCommit, Stays, IsAt, IsLeft, HasTaken};
ghost use Rattle.dali_commissioning.specs.Conducted.{order_of};

use crate::driver::{DriverFault, DriverLink};
use crate::fault::CommissionFault;
use crate::watch::Watch;
use dali_controller::{Machine, Shorts, Tally};
use dali_frame::{Forward, Priority};
use dali_reserve::{Keep, KeepError};
use dali_script::{End, Fault, Finding, Half, Input, Order, Record, half_of, opens};
use std::io::{Read, Write};

/// How a machine ended that was conducted.
#[derive(Clone, Copy, PartialEq, Eq)]
pub enum Ended {
    Done(End),
    Halted(Fault),
}

/// What came of a machine that was conducted to its end.
#[derive(Clone, Copy)]
pub struct PassEnd {
    pub ended: Ended,
    /// Whether a record was committed.
    pub committed: bool,
    /// The short addresses at which its survey heard gear whose random address it does not know.
    pub heard: Shorts,
    /// The gear that it found last: if it halted by a conflict, the one that contradicts its table.
    pub found: Option<Finding>,
    /// How often in a row its transaction was lost: 8 if it gave up for that.
    pub tries: u8,
    /// What its survey has counted, and who was passed over.
    pub tally: Tally,
}

/// The first frame of a pair that waits behind a frame, by what was told of it.
fn waits_behind(half: Half, frame: Forward, told: Input) -> Option<Forward>
    ensures { result ≡ if_heard told (opens half frame) }
{
    match told {
        Input::Heard(_) => opens(half, frame),
        Input::Start
        | Input::Survey
        | Input::Destroyed
        | Input::Lapsed
        | Input::Committed
        | Input::CommitFailed => None,
    }
}

/// Puts a frame, and answers what came of it.
fn put<R: Read, W: Write>(
    driver: &mut DriverLink<R, W>,
    waiting: &mut Option<Forward>,
    priority: Priority,
    frame: Forward,
) -> Result<Input, DriverFault>
    ensures due { IfOk result (λ told. accepts due.Bus told ≡ true) }
    ensures wrote { IfOk result (λ _. Appends (W.contents (writer_of driver.old)) (W.contents (writer_of driver.new))
        (order_line waiting.old (Some (Put priority frame)))) }
    ensures read { IfOk result (Hears (talk_of R.remaining W.contents driver.old)
        (talk_of R.remaining W.contents driver.new)) }
    ensures part { IfErr result (λ fault. IsPutInPart fault (talk_of R.remaining W.contents driver.old)
        (talk_of R.remaining W.contents driver.new) (order_line waiting.old (Some (Put priority frame)))) }
    ensures failed { IfErr result (λ fault. fault_of driver.new ≡ Some fault) }
    ensures waiting { IfOk result (λ told. waiting.new
        ≡ if_heard told (opened_by waiting.old (Some (Put priority frame)))) }
{
    let half = half_of(*waiting, frame);
    let told = driver.exchange(priority, frame, half)?;
    *waiting = waits_behind(half, frame, told);
    Ok(told)
}

/// Commits a record.
#[tactic(auto, using(crate::proofs::Steps::one_more, crate::proofs::Rules::one_more_last))]
fn commit<K: Keep>(keep: &mut K, added: Record) -> Result<(), KeepError>
    requires { Fits (K.block keep.old) added }
    ensures stays { Stays K.is_up K.is_sound keep.old keep.new }
    ensures block { K.block keep.new ≡ K.block keep.old }
    ensures adds { OnOk result (Commits K.is_up K.is_sound K.holds keep.old keep.new (added ∷ [])) }
    ensures left { MayCommit K.is_up K.is_sound K.holds keep.old keep.new [] }
    ensures last { MayCommitLast K.is_up K.is_sound K.holds keep.old keep.new [] (Some added) }
{
    keep.commit(added)
}

/// Whether this tells that a record is kept.
fn is_kept(told: Input) -> bool
    ensures { result ≡ is_kept told }
{
    match told {
        Input::Committed => true,
        Input::Start
        | Input::Survey
        | Input::Heard(_)
        | Input::Destroyed
        | Input::Lapsed
        | Input::CommitFailed => false,
    }
}

/// Does an order, and answers what the machine is to be told then.
#[tactic(auto, using(crate::proofs::Steps::no_line))]
fn answer<K: Keep, R: Read, W: Write>(
    keep: &mut K,
    driver: &mut DriverLink<R, W>,
    waiting: &mut Option<Forward>,
    order: &Order,
) -> Result<Input, CommissionFault>
    requires due { due_after (Some order.now) ≢ due.Nothing }
    requires fits { IfSome (record_ordered (Some order.now)) (Fits (K.block keep.old)) }
    ensures due { IfOk result (λ told. accepts (due_after (Some order.now)) told ≡ true) }
    ensures wrote { IfOk result (λ told. Appends (W.contents (writer_of driver.old)) (W.contents (writer_of driver.new))
        (order_line waiting.old (Some order.now))) }
    ensures read { IfOk result (Hears (talk_of R.remaining W.contents driver.old)
        (talk_of R.remaining W.contents driver.new)) }
    ensures waiting { IfOk result (λ told. waiting.new ≡ if_heard told (opened_by waiting.old (Some order.now))) }
    ensures stays { Stays K.is_up K.is_sound keep.old keep.new }
    ensures block { K.block keep.new ≡ K.block keep.old }
    ensures adds { IfOk result (λ told. Commits K.is_up K.is_sound K.holds keep.old keep.new
        (record_told told (record_ordered (Some order.now)))) }
    ensures left { IfErr result (λ _. MayCommit K.is_up K.is_sound K.holds keep.old keep.new []) }
    ensures last { IfErr result (λ _. MayCommitLast K.is_up K.is_sound K.holds keep.old keep.new []
        (record_ordered (Some order.now))) }
    ensures begun { IfErr result (λ fault. HasWritten fault (talk_of R.remaining W.contents driver.old)
        (talk_of R.remaining W.contents driver.new) (order_line waiting.old (Some order.now))) }
    ensures failed { IfErr result (λ reason. IsFailed reason (talk_of R.remaining W.contents driver.new)) }
    ensures not_spent { result ≢ Err CommissionFault.StepsSpent }
    ensures one_run { result ≢ Err CommissionFault.RunsSpent }
    ensures none_lost { result ≢ Err CommissionFault.QuestionLost }
{
    match *order {
        Order::Put(priority, frame) => {
            match put(driver, waiting, priority, frame) {
                Ok(told) => Ok(told),
                Err(fault) => Err(CommissionFault::Driver(fault)),
            }
        }
        Order::Commit(added) => match commit(keep, added) {
            Ok(()) => {
                *waiting = None;
                Ok(Input::Committed)
            }
            Err(error) => Err(CommissionFault::Store(error)),
        },
        // The machine waits for an answer, and after an end it waits for nothing.
        Order::Done(_) | Order::Halt(_) => unreachable!(),
    }
}

/// What a machine orders when it is told what it waits for.
fn step(machine: &mut Machine, told: Input) -> Order
    requires { accepts (due_after machine.old.last) told ≡ true }
    ensures step { IsStep machine.old (record { told = told; order = result }) machine.new }
    ensures ordered { machine.new.last ≡ Some result }
    ensures block { machine.new.kept.block ≡ machine.old.kept.block }
    ensures fits { IfSome (record_ordered (Some result)) (Fits machine.new.kept.block) }
{
    match machine.step(told) {
        Ok(order) => order,
        // What it waits for is taken.
        Err(_) => unreachable!(),
    }
}

/// How a machine ended at an order, if it did.
fn end_at(order: &Order) -> Option<Ended>
    ensures ended { MatchOption result (due_after (Some order.now) ≢ due.Nothing) (λ end. order.now ≡ order_of end) }
{
    match *order {
        Order::Put(..) | Order::Commit(_) => None,
        Order::Done(end) => Some(Ended::Done(end)),
        Order::Halt(fault) => Some(Ended::Halted(fault)),
    }
}

/// Takes a machine from its start to its end: `start` is what it is told first, each frame that it puts is a line to
/// the driver, and each record that it orders is committed in the store.
///
/// The machine is told Committed only of a record that the store has then. It does at most so many orders. If a
/// record cannot be committed, it is told nothing: what the store reads then decides. `watch` sees each order before it
/// is done.
///
/// Whatever the driver answers, what was put and committed keeps the rules for senders of `dali_statement`, if the
/// machine is new (`rules`); if it is left before its end, so does the order that was outstanding (`left_rules`).
#[tactic(auto, using(crate::proofs::Steps::left_at, crate::proofs::Steps::taken_at))]
pub fn conduct<K: Keep, R: Read, W: Write, P: Watch>(
    machine: &mut Machine,
    keep: &mut K,
    driver: &mut DriverLink<R, W>,
    watch: &mut P,
    start: Input,
    steps: u32,
) -> Result<PassEnd, CommissionFault>
    requires start { machine.old.last ≡ None }
    requires begins { accepts due.Start start ≡ true }
    requires block { K.block keep.old ≡ machine.old.kept.block }
    ensures ended { IfOk result (λ pass. (waiting : Option Forward) × (count : ℕ) × IsAt K.is_up K.is_sound K.holds
        keep.old keep.new machine.old machine.new
        (talk_of R.remaining W.contents driver.old) (talk_of R.remaining W.contents driver.new)
        start waiting (order_of pass.ended) pass.committed count) }
    ensures heard { IfOk result (λ pass. pass.heard ≡ machine.new.heard) }
    ensures found { IfOk result (λ pass. pass.found ≡ machine.new.finding) }
    ensures tries { IfOk result (λ pass. pass.tries ≡ machine.new.tries) }
    ensures tally { IfOk result (λ pass. pass.tally ≡ machine.new.course.tally) }
    ensures spent { result ≡ Err CommissionFault.StepsSpent → HasTaken K.is_up K.is_sound K.holds keep.old keep.new
        machine.old machine.new (talk_of R.remaining W.contents driver.old) (talk_of R.remaining W.contents driver.new)
        start steps }
    ensures fault { IfErr result (λ _. IsLeft K.is_up K.is_sound K.holds keep.old keep.new machine.old machine.new) }
    ensures one_run { result ≢ Err CommissionFault.RunsSpent }
    ensures none_lost { result ≢ Err CommissionFault.QuestionLost }
    ensures stays { Stays K.is_up K.is_sound keep.old keep.new }
    ensures block { K.block keep.new ≡ K.block keep.old }
    ensures rules { IfOk result (λ _. machine.old.trace ≡ [] → KeepsRules K.is_up K.is_sound K.holds keep.old keep.new
        machine.old.kept (talk_of R.remaining W.contents driver.old) (talk_of R.remaining W.contents driver.new)) }
    ensures left_rules { IfErr result (λ fault. machine.old.trace ≡ [] → LeavesRules K.is_up K.is_sound K.holds start
        fault keep.old keep.new machine.old (talk_of R.remaining W.contents driver.old)
        (talk_of R.remaining W.contents driver.new)) }
    ensures failed { IfErr result (λ reason. IsFailed reason (talk_of R.remaining W.contents driver.new)) }
{
    let mut waiting = None;
    let mut committed = false;
    let mut order = step(machine, start);
    for _ in 0..steps {
        watch.ordered(&order);
        if let Some(ended) = end_at(&order) {
            return Ok(PassEnd {
                ended,
                committed,
                heard: machine.heard(),
                found: machine.finding(),
                tries: machine.tries(),
                tally: *machine.tally(),
            });
        }
        match answer(keep, driver, &mut waiting, &order) {
            Ok(told) => {
                watch.told(told);
                committed |= is_kept(told);
                order = step(machine, told);
            }
            // The proof goes through each arm: what a fault leaves is told apart.
            Err(fault) => return Err(fault),
        }
    }
    Err(CommissionFault::StepsSpent)
}
