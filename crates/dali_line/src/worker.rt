ghost use Rattle.std.specs.Prelude.{◌≡◌, ◌⊎◌, false, List, [], ◌∷◌, ◌++◌, Bool, Option, None, Some, Err, IfSome};
ghost use Rattle.std.specs.Prelude.{IfNone, IfOk, IfErr, OnErr, IsTrue, MatchOption};
ghost use Rattle.dali_script.specs.declared.orders.Input.TheVariants as input;
ghost use Rattle.dali_script.specs.declared.orders.Order.{Order};
ghost use Rattle.dali_script.specs.declared.orders.Order.TheVariants as order;
ghost use Rattle.dali_script.specs.declared.records.Record.{Record};
ghost use Rattle.dali_standing.specs.declared.refusal.Refusal.TheVariants.{QueueFull};
ghost use Rattle.dali_line.specs.Leaves.{Leaves, Learns, Posts, Stores};
ghost use Rattle.dali_line.specs.Ends.{stops, end_of, end_when_refused};
ghost use Rattle.dali_line.specs.Facts.{facts_of};
ghost use Rattle.dali_line.specs.Runs.{IsIdle, Gives, Tells, Runs};
ghost use Rattle.dali_line.specs.Steps.{TakesIn, given_of, told_at, first_of};
ghost use Rattle.dali_line.specs.declared.outcome.Outcome.TheVariants.{TurnsSpent};
ghost use Rattle.dali_line.specs.Shares.{Follows};
ghost use Rattle.dali_enrol.specs.Directory.{Keeps};

use crate::bus::Bus;
use crate::committing::try_commit;
use crate::gate::{Gate, Moment};
use crate::outcome::Outcome;
use crate::posting::post;
use dali_enrol::{Directory, Pass};
use dali_reserve::Keep;
use dali_script::{Input, Order, Record};
use dali_world::{Receipt, Refusal};
use std::alloc::Global;
use std::sync::Wait;

/// A controller's thread: it acts on what is due, and commits the records that are ordered in its store.
///
/// The port is the right to act for one controller, the store holds that controller's records, and the gate is asked at
/// each `Moment`, without a lock.
#[derive(Drop)]
pub struct Worker<P, K, G> {
    /// The right to act for the controller.
    pub port: P,
    /// The store of the controller's records.
    pub keep: K,
    /// What is asked at each moment of a turn.
    pub gate: G,
    /// Whether the controller begins by a survey, each time it is to start.
    pub surveys: bool,
}

impl<P, K: Keep, G: Gate> Worker<P, K, G> {
    /// A worker with this port, store and gate. Its controller begins without a survey.
    pub fn new(port: P, keep: K, gate: G) -> Worker<P, K, G>
        ensures port { result.port ≡ port }
        ensures keep { result.keep ≡ keep }
        ensures surveys { result.surveys ≡ false }
    {
        Worker {
            port,
            keep,
            gate,
            surveys: false,
        }
    }

    /// Takes turns until the controller ends, halts or is down, the line is stopped or refuses, or this many turns are
    /// taken. All but the first three stop the line. Answers how it ended, and gives port and store back.
    ///
    /// A turn waits until something is due, and acts on it at most once. If no request more may wait, it waits for room
    /// first. A controller that is to start is given Survey by a worker that surveys, and else Start.
    ///
    /// If a commit is due, the worker tells the bus that it begins it, and learns which record it is: the run may have
    /// begun with the commit due. Then, between BeforeCommit and AfterCommit, the store is read, and commits the record
    /// unless what is read shows it already. The controller is told Committed if the store has the record then, and
    /// else CommitFailed. It is told CommitFailed also if the store did not answer its records, or if the record does
    /// not fit them. An enrolment of which the controller was told Committed is posted in the directory. If there is no
    /// memory for its card, the run ends with NoMemory. The pass is given back, with what the worker has learned.
    ///
    /// If the bus lapsed before the controller acted on what it was told (NotDue), the turn ends. The outcome of a
    /// commit is told, or the run ends: with Down, Stopped or Refused.
    ///
    /// The clause `runs` says all this of the steps that were made with the port, by what the bus says of its calls.
    #[tactic(auto, using(crate::proofs::Learning::turns))]
    pub fn run<B: Bus<Port = P>, R: Wait>(
        self,
        rt: &R,
        alloc: Global,
        bus: &B,
        directory: &Directory,
        mut pass: Pass,
        turns: u32,
    ) -> (Outcome, P, K, Pass)
        requires { pass.places ≡ directory.now }
        ensures port { Follows (B.share self.port) (B.share result.1) turns }
        ensures keep { Leaves K.is_up K.is_sound K.holds self.keep result.2 }
        ensures pass { result.3.places ≡ directory.now }
        ensures known { Keeps pass result.3 }
        ensures posted { Posts K.is_up K.is_sound K.holds self.keep result.2 pass result.3 }
        ensures runs { (last : Option Order) × Runs K.is_up K.is_sound K.holds K.block
            (facts_of B.acted B.refused B.told B.untold B.unordered B.ordered B.is_down
            (B.is_stopped bus.now) self.surveys)
            None last (B.share self.port) (B.share result.1) self.keep result.2 pass result.3 turns
            (Some result.0) }
        ensures stopped { IsTrue (stops result.0) → B.is_told_to_stop bus.now }
    {
        let Worker {
            port,
            keep,
            gate,
            surveys,
        } = self;
        let mut shift = Shift {
            port,
            keep,
            gate,
            last: None,
            kept: None,
        };
        let outcome = shift.take_turns(rt, alloc, bus, directory, &mut pass, surveys, turns);
        let Shift {
            mut port,
            keep,
            gate,
            last: _,
            kept,
        } = shift;
        bus.end_commit(rt, &mut port, kept.is_some());
        if outcome.stops() {
            bus.stop(rt);
        }
        drop(gate);
        (outcome, port, keep, pass)
    }
}

/// What a controller that was told this is given: Survey if it is to start and begins by a survey.
fn begun(told: Input, surveys: bool) -> Input
    ensures { result ≡ given_of surveys told }
{
    match told {
        Input::Start if surveys => Input::Survey,
        Input::Start
        | Input::Survey
        | Input::Heard(_)
        | Input::Destroyed
        | Input::Lapsed
        | Input::Committed
        | Input::CommitFailed => told,
    }
}

/// Whether a record may be the one that is due after this order, the last of a run; if there was none, any may be.
fn is_due(last: &Option<Order>, added: &Record) -> bool
    ensures due { IsTrue result → MatchOption last.now (Unit {0}) (λ o. o ≡ order.Commit added.now) }
    ensures other { result ≡ false → MatchOption last.now ⊥ (λ o. o ≡ order.Commit added.now → ⊥) }
{
    match last {
        None => true,
        Some(Order::Commit(ordered)) => ordered == added,
        Some(Order::Put(..) | Order::Done(_) | Order::Halt(_)) => false,
    }
}

/// The controller of a port acts on an input. If no request more may wait, it waits for room first.
///
/// QueueFull is answered only if the line was stopped before the answer.
fn act_on<B: Bus, R: Wait>(
    rt: &R,
    bus: &B,
    port: &mut B::Port,
    input: Input,
) -> Result<Receipt, Refusal>
    ensures port { Follows (B.share port.old) (B.share port.new) 1 }
    ensures acted { IfOk result (λ r. B.acted (B.share port.old) input r.order (B.share port.new)) }
    ensures refused { IfErr result (B.refused (B.share port.old) input) }
    ensures unmoved { OnErr result (B.share port.new ≡ B.share port.old) }
    ensures full { result ≡ Err QueueFull → B.is_stopped bus.now }
{
    for _ in rt.forever() {
        let answer = bus.act(rt, port, input);
        if !matches!(answer, Err(Refusal::QueueFull)) || !bus.wait_for_room(rt, port) {
            return answer;
        }
    }
    // Forever has no end.
    unreachable!()
}

/// The end of a run at an order, if it is one.
fn end_at(order: Order) -> Option<Outcome>
    ensures { result ≡ end_of order }
{
    match order {
        Order::Put(..) | Order::Commit(_) => None,
        Order::Done(end) => Some(Outcome::Ended(end)),
        Order::Halt(fault) => Some(Outcome::Halted(fault)),
    }
}

/// The end of a run whose controller was refused to act on this, if it is one: not if the bus lapsed before it acted.
fn end_refused(refusal: Refusal, input: Input) -> Option<Outcome>
    ensures { result ≡ end_when_refused refusal input }
{
    match (refusal, input) {
        (Refusal::ControllerDown, _) => Some(Outcome::Down),
        (Refusal::QueueFull, _) => Some(Outcome::Stopped),
        (Refusal::NotDue, Input::Committed | Input::CommitFailed) => {
            Some(Outcome::Refused(Refusal::NotDue))
        }
        (
            Refusal::NotDue,
            Input::Start | Input::Survey | Input::Heard(_) | Input::Destroyed | Input::Lapsed,
        ) => None,
        (
            Refusal::UnknownController
            | Refusal::UnknownGear
            | Refusal::ControllerUp
            | Refusal::NotArc
            | Refusal::StoreDisagrees
            | Refusal::DrawsSpent
            | Refusal::LogFull
            | Refusal::NoMemory
            | Refusal::AddressInUse
            | Refusal::NotForeign,
            _,
        ) => Some(Outcome::Refused(refusal)),
    }
}

/// A worker in its run: its store, its controller's last order in this run, and a record. That is the record that the
/// store is found to have in this turn, until its controller was told so.
struct Shift<P, K, G> {
    port: P,
    keep: K,
    gate: G,
    last: Option<Order>,
    kept: Option<Record>,
}

impl<P, K: Keep, G: Gate> Shift<P, K, G> {
    /// What becomes of the commit of this record: the store has it then, or not.
    #[tactic(auto, using(crate::proofs::Leaving::leaves_one))]
    fn commit(&mut self, added: &Record) -> Input
        requires { self.old.kept ≡ None }
        ensures keep { Leaves K.is_up K.is_sound K.holds self.old.keep self.new.keep }
        ensures block { K.block self.new.keep ≡ K.block self.old.keep }
        ensures told { (result ≡ input.Committed) ⊎ (result ≡ input.CommitFailed) }
        // Committed is told of a record that the store has.
        ensures takes { K.is_sound self.old.keep → K.is_up self.new.keep → (xs : List Record)
            → K.holds self.old.keep xs → (more : List Record)
            × TakesIn (K.block self.new.keep) xs (Some added.now) result more
            × K.holds self.new.keep (xs ++ more) }
        ensures stored { IfSome self.new.kept (Stores K.is_up K.is_sound K.holds K.block self.old.keep self.new.keep) }
        ensures kept { self.new.kept ≡ first_of (told_at (Some added.now) result) }
        ensures port { self.new.port ≡ self.old.port }
        ensures last { self.new.last ≡ self.old.last }
    {
        if try_commit(&mut self.keep, added) {
            self.kept = Some(*added);
            Input::Committed
        } else {
            Input::CommitFailed
        }
    }

    /// What its controller is given to act on. That is what the bus has told it, with Survey in place of Start if it
    /// begins by a survey; or what became of its commit, which is made now. None if nothing is due.
    #[tactic(auto, using(crate::proofs::Leaving::leaves_none))]
    fn given<B: Bus<Port = P>, R: Wait>(&mut self, rt: &R, bus: &B, surveys: bool) -> Option<Input>
        ensures keep { Leaves K.is_up K.is_sound K.holds self.old.keep self.new.keep }
        ensures block { K.block self.new.keep ≡ K.block self.old.keep }
        ensures none { result ≡ None → (self.new.keep ≡ self.old.keep) × IsIdle
            (facts_of B.acted B.refused B.told B.untold B.unordered B.ordered B.is_down (B.is_stopped bus.now) surveys)
            self.old.last (B.share self.old.port) }
        ensures gives { IfSome result (λ i. Gives K.is_up K.is_sound K.holds K.block
            (facts_of B.acted B.refused B.told B.untold B.unordered B.ordered B.is_down (B.is_stopped bus.now) surveys)
            self.old.last (B.share self.old.port) self.old.keep self.new.keep i self.new.kept) }
        ensures stored { IfSome self.new.kept (Stores K.is_up K.is_sound K.holds K.block self.old.keep self.new.keep) }
        ensures port { B.share self.new.port ≡ B.share self.old.port }
        ensures last { self.new.last ≡ self.old.last }
    {
        self.kept = None;
        if let Some(told) = bus.next(rt, &mut self.port) {
            return Some(begun(told, surveys));
        }
        let added = bus.begin_commit(rt, &mut self.port)?;
        if !is_due(&self.last, &added) {
            return None;
        }
        let controller = bus.controller(&self.port);
        self.gate.at(rt, controller, Moment::BeforeCommit);
        let outcome = self.commit(&added);
        self.gate.at(rt, controller, Moment::AfterCommit);
        Some(outcome)
    }

    /// Its controller acts on this, and what it is told to be committed is posted. The end of the run, if it ends.
    #[tactic(auto, using(crate::proofs::Leaving::leaves_none))]
    fn tell<B: Bus<Port = P>, R: Wait>(
        &mut self,
        rt: &R,
        alloc: Global,
        bus: &B,
        directory: &Directory,
        pass: &mut Pass,
        input: Input,
    ) -> Option<Outcome>
        requires { pass.old.places ≡ directory.now }
        ensures keep { self.new.keep ≡ self.old.keep }
        ensures port { Follows (B.share self.old.port) (B.share self.new.port) 1 }
        ensures pass { pass.new.places ≡ pass.old.places }
        ensures known { Keeps pass.old pass.new }
        ensures tells { (surveys : Bool) → Tells
            (facts_of B.acted B.refused B.told B.untold B.unordered B.ordered B.is_down (B.is_stopped bus.now) surveys)
            self.old.last self.new.last (B.share self.old.port) (B.share self.new.port) input pass.old pass.new
            self.old.kept result }
        ensures learned { IfSome self.old.kept (λ r. Learns pass.old pass.new (r ∷ [])) }
        ensures none { IfNone self.old.kept (pass.new ≡ pass.old) }
    {
        match act_on(rt, bus, &mut self.port, input) {
            Ok(receipt) => {
                self.last = Some(receipt.order());
                let told = self.kept.take();
                match post(alloc, directory, pass, &told) {
                    Ok(()) => end_at(receipt.order()),
                    Err(_) => Some(Outcome::NoMemory),
                }
            }
            Err(refusal) => end_refused(refusal, input),
        }
    }

    /// A turn, once there is one: none if the line is stopped, or the controller is down. It acts at most once, on what
    /// is due. The end of the run, if it ends.
    #[tactic(auto, using(crate::proofs::Learning::turns))]
    fn take_turn<B: Bus<Port = P>, R: Wait>(
        &mut self,
        rt: &R,
        alloc: Global,
        bus: &B,
        directory: &Directory,
        pass: &mut Pass,
        surveys: bool,
    ) -> Option<Outcome>
        requires { pass.old.places ≡ directory.now }
        ensures keep { Leaves K.is_up K.is_sound K.holds self.old.keep self.new.keep }
        ensures port { Follows (B.share self.old.port) (B.share self.new.port) 1 }
        ensures pass { pass.new.places ≡ pass.old.places }
        ensures known { Keeps pass.old pass.new }
        ensures posted { Posts K.is_up K.is_sound K.holds self.old.keep self.new.keep pass.old pass.new }
        ensures runs { Runs K.is_up K.is_sound K.holds K.block
            (facts_of B.acted B.refused B.told B.untold B.unordered B.ordered B.is_down (B.is_stopped bus.now) surveys)
            self.old.last self.new.last (B.share self.old.port) (B.share self.new.port)
            self.old.keep self.new.keep pass.old pass.new 1 result }
        ensures unspent { result ≡ Some TurnsSpent → ⊥ }
    {
        if !bus.wait(rt, &mut self.port) {
            // The line is stopped for good, or was not stopped when the controller was found to be down.
            return Some(if bus.is_stopped(rt) {
                Outcome::Stopped
            } else {
                Outcome::Down
            });
        }
        let Some(input) = self.given(rt, bus, surveys) else {
            self.gate
                .at(rt, bus.controller(&self.port), Moment::AfterTurn);
            return None;
        };
        let outcome = self.tell(rt, alloc, bus, directory, pass, input);
        self.gate
            .at(rt, bus.controller(&self.port), Moment::AfterTurn);
        outcome
    }

    /// Turns, until one ends the run, or so many are taken.
    #[tactic(auto, using(crate::proofs::Running::shifts))]
    fn take_turns<B: Bus<Port = P>, R: Wait>(
        &mut self,
        rt: &R,
        alloc: Global,
        bus: &B,
        directory: &Directory,
        pass: &mut Pass,
        surveys: bool,
        turns: u32,
    ) -> Outcome
        requires { pass.old.places ≡ directory.now }
        ensures keep { Leaves K.is_up K.is_sound K.holds self.old.keep self.new.keep }
        ensures port { Follows (B.share self.old.port) (B.share self.new.port) turns }
        ensures pass { pass.new.places ≡ pass.old.places }
        ensures known { Keeps pass.old pass.new }
        ensures posted { Posts K.is_up K.is_sound K.holds self.old.keep self.new.keep pass.old pass.new }
        ensures runs { Runs K.is_up K.is_sound K.holds K.block
            (facts_of B.acted B.refused B.told B.untold B.unordered B.ordered B.is_down (B.is_stopped bus.now) surveys)
            self.old.last self.new.last (B.share self.old.port) (B.share self.new.port)
            self.old.keep self.new.keep pass.old pass.new turns (Some result) }
    {
        for _ in 0..turns {
            if let Some(end) = self.take_turn(rt, alloc, bus, directory, pass, surveys) {
                return end;
            }
        }
        Outcome::TurnsSpent
    }
}
