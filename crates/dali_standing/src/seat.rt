ghost use Rattle.std.specs.Prelude.{◌≡◌, ◌++◌, ◌∷◌, [], Bool, true, false, ◌↔◌, Some, None};
ghost use Rattle.std.specs.Prelude.{IsTrue, MatchOption, IfSome};
ghost use Rattle.dali_special.specs.Command.{command_of};
ghost use Rattle.dali_script.specs.Findings.{later};
ghost use Rattle.dali_script.specs.Scripts.{IsLawful};
ghost use Rattle.dali_script.specs.Stages.{IsReached, may_follow};
ghost use Rattle.dali_script.specs.Due.{due_after, frame_put, record_ordered};
ghost use Rattle.dali_script.specs.Table.{table_of};
ghost use Rattle.dali_script.specs.declared.orders.Due.TheVariants as due;
ghost use Rattle.dali_script.specs.declared.orders.Input.TheVariants as input;
ghost use Rattle.dali_events.specs.Happens.{told_sent, told_lapsed, entry, is_arc, outstanding_told, outstanding_after};
ghost use Rattle.dali_events.specs.Allowed.{IsDue};
ghost use Rattle.dali_standing.specs.declared.seat.Place.TheVariants.{Up};
ghost use Rattle.dali_standing.specs.Seats.{due_of, machine_in, acted_in, MayAnswer, LeavesWhole, Waits, IsReachedIn};

use dali_controller::Machine;
use dali_frame::{Answer, Forward};
use dali_script::{Block, Due, Finding, Input, Kept, Order, Record, Stage, Table, Trace};
use dali_special::Command;
use std::marker::Model;

/// A controller that is up has a machine, which has its records; of one that is down there are the records alone.
#[derive(Drop)]
pub(crate) enum Place {
    Up(Machine),
    Down(Kept),
}

/// A controller's place on a site, and what the bus has told the controller; if that is what was heard, then also how
/// far its transaction is.
#[derive(Drop)]
pub struct Seat {
    place: Place,
    outstanding: Option<Record>,
    finding: Option<Finding>,
    told: Option<Input>,
    reached: Stage,
}

impl Model for Seat {
    ghost use Rattle.dali_standing.specs.Seats.{Seat, seat_by, IsSeat};

    ghost Value = { Seat };

    ghost view = { λ s. seat_by s.place s.outstanding s.finding s.told };

    ghost invariant = { λ s. IsSeat s.place s.outstanding s.finding s.told s.reached };
}

impl Seat {
    ghost use Rattle.dali_standing.specs.Seats.{begun_at, acted_at, down_at, up_at, told_at, told_lost, IsTied};
    ghost use Rattle.dali_standing.specs.Seats.{trace_of, running_if, Agrees, seat_by};
    ghost use Rattle.dali_script.specs.declared.orders.Input.TheVariants as input;

    /// The place of controller `id`, which is up and keeps nothing yet.
    pub(crate) fn new(id: u8, block: Block) -> Seat
        ensures { result ≡ begun_at id block }
    {
        Seat::begun(Machine::new(id, &Kept::new(block)))
    }

    /// The place of a controller that begins, with a machine that has ordered nothing yet.
    fn begun(machine: Machine) -> Seat
        requires { machine.last ≡ None }
        ensures { result ≡ seat_by (Up machine) None None (Some input.Start) }
    {
        Seat {
            place: Place::Up(machine),
            outstanding: None,
            finding: None,
            told: Some(Input::Start),
            reached: Stage::Free,
        }
    }

    /// Whether the controller may act on this input.
    pub fn may_act(&self, input: Input) -> bool
        ensures { IsTrue result ↔ IsDue self.now.controller input }
    {
        match input {
            Input::Committed | Input::CommitFailed => matches!(self.last(), Some(Order::Commit(_))),
            Input::Survey => self.told == Some(Input::Start),
            Input::Start | Input::Heard(_) | Input::Destroyed | Input::Lapsed => {
                self.told == Some(input)
            }
        }
    }

    /// What its machine would order at an input.
    pub(crate) fn would_order(&self, input: Input) -> Order
        requires up { self.now.controller.up ≡ true }
        requires due { IsDue self.now.controller input }
        ensures { MayAnswer self.now.machine input result }
    {
        match &self.place {
            Place::Up(machine) => machine.would_order(input).unwrap(),
            // It is up.
            Place::Down(_) => unreachable!(),
        }
    }

    /// Its machine acts on an input, and orders what is to be done next.
    #[inline(always)]
    pub(crate) fn act(&mut self, input: Input) -> Order
        requires up { self.old.controller.up ≡ true }
        requires due { IsDue self.old.controller input }
        ensures answer { MayAnswer self.old.machine input result }
        ensures whole { LeavesWhole self.old.machine input result }
        ensures state { self.new ≡ acted_at self.old input result }
        ensures tied { IsTied self.old.controller self.old.machine }
    {
        let order = stepped(&mut self.place, input, self.reached);
        note(&mut self.outstanding, input, &order);
        self.told = None;
        order
    }

    /// Its frame was sent, and this was heard. `reached` is how far its transaction is, with this frame.
    #[tactic(auto, using(crate::proofs::Ties::heard_finding))]
    #[inline(always)]
    pub(crate) fn hear(&mut self, frame: Forward, heard: Answer, reached: &Stage)
        requires put { frame_put self.old.controller.last ≡ Some frame }
        requires untold { self.old.controller.told ≡ None }
        requires scripted { is_arc (command_of frame) ≡ false }
        requires reached { IsReached reached.now (trace_of self.old.machine ++ entry frame heard ∷ []) }
        ensures { self.new ≡ told_at (told_sent (trace_of self.old.machine) frame heard) self.old }
    {
        note_finding(&mut self.finding, reached.finding());
        self.told = Some(Input::Heard(heard));
        self.reached = *reached;
    }

    /// Its frame was destroyed.
    pub(crate) fn lose(&mut self)
        requires { due_after self.old.controller.last ≡ due.Bus }
        ensures { self.new ≡ told_at told_lost self.old }
    {
        self.told = Some(Input::Destroyed);
    }

    /// It lost the bus. What it was told before, and has not acted on, is gone.
    pub(crate) fn lapse(&mut self)
        requires { due_after self.old.controller.last ≡ due.Bus }
        ensures { self.new ≡ told_at told_lapsed self.old }
    {
        self.told = Some(Input::Lapsed);
    }

    /// The controller goes down: its machine goes, and so does what it was told.
    pub(crate) fn down(&mut self)
        ensures { self.new ≡ down_at self.old }
    {
        self.place = Place::Down(self.kept().copy());
        self.finding = None;
        self.told = None;
    }

    /// Whether a copy of records is what the controller keeps, without the outstanding record (false) or with it
    /// (true).
    pub(crate) fn agreement(&self, copy: &Kept) -> Option<bool>
        ensures { MatchOption result
            ((kept : Bool) → Agrees self.now.controller copy.now kept → ⊥)
            (λ kept. Agrees self.now.controller copy.now kept) }
    {
        let kept = self.kept();
        if copy.same(kept) {
            return Some(false);
        }
        match &self.outstanding {
            Some(added) if copy.is_with(kept, added) => Some(true),
            _ => None,
        }
    }

    /// The controller comes up with a copy of what it keeps.
    pub(crate) fn up(&mut self, id: u8, copy: &Kept)
        ensures { (kept : Bool) → Agrees self.old.controller copy.now kept → self.new ≡ up_at id kept self.old }
    {
        *self = Seat::begun(Machine::new(id, copy));
    }

    /// How far its transaction is once its frame was sent, and this was heard. It is the transaction that its machine
    /// goes on with, if it owns the bus, or a new one. `command` is the one that the frame is read as.
    #[inline(always)]
    pub(crate) fn reached(
        &self,
        owned: bool,
        frame: Forward,
        command: &Command,
        heard: Answer,
    ) -> Stage
        requires lawful { IsLawful (running_if owned self.now.machine) frame }
        requires read { command.now ≡ command_of frame }
        ensures { IsReached result (running_if owned self.now.machine ++ entry frame heard ∷ []) }
    {
        match &self.place {
            Place::Up(machine) if owned => machine.trace().after(frame, *command, heard),
            Place::Up(_) | Place::Down(_) => Trace::new().after(frame, *command, heard),
        }
    }

    /// Whether a frame may follow, if its transaction is that far.
    #[inline(always)]
    pub(crate) fn goes_on(&self, reached: &Stage) -> bool
        ensures { result ≡ may_follow self.now.controller.records.block self.now.controller.records.reserved
            reached.now }
    {
        reached.goes_on(&self.kept().view())
    }

    /// What the bus has told the controller, if the controller has not acted on it. None while it is down.
    pub fn told(&self) -> Option<Input>
        ensures told { result ≡ self.now.controller.told }
        ensures up { IfSome result (λ _. self.now.controller.up ≡ true) }
    {
        match &self.place {
            Place::Up(_) => self.told,
            Place::Down(_) => None,
        }
    }

    /// Whether the controller is up.
    pub fn is_up(&self) -> bool
        ensures { result ≡ self.now.controller.up }
    {
        matches!(self.place, Place::Up(_))
    }

    /// What is due for the controller: nothing while it is down.
    pub fn due(&self) -> Due
        ensures { result ≡ due_of self.now.controller }
    {
        match &self.place {
            Place::Up(machine) => machine.due(),
            Place::Down(_) => Due::Nothing,
        }
    }

    /// The gear that its machine has enrolled.
    pub fn table(&self) -> Option<&Table>
        ensures { MatchOption result (self.now.controller.up ≡ false)
            (λ table. (self.now.controller.up ≡ true) × (table.now ≡ table_of self.now.controller.records)) }
    {
        match &self.place {
            Place::Up(machine) => Some(machine.table()),
            Place::Down(_) => None,
        }
    }

    /// The records that the controller keeps: its machine has them while it is up.
    pub fn kept(&self) -> &Kept
        ensures { result.now ≡ self.now.controller.records }
    {
        match &self.place {
            Place::Up(machine) => machine.kept(),
            Place::Down(kept) => kept,
        }
    }

    /// The record that its machine ordered to be committed, until it is told what became of it.
    pub fn ordered(&self) -> Option<Record>
        ensures { result ≡ record_ordered self.now.controller.last }
    {
        match self.last() {
            Some(Order::Commit(ordered)) => Some(ordered),
            Some(Order::Put(..) | Order::Done(_) | Order::Halt(_)) | None => None,
        }
    }

    /// What its machine ordered last.
    fn last(&self) -> Option<Order>
        ensures { result ≡ self.now.controller.last }
    {
        match &self.place {
            Place::Up(machine) => machine.last(),
            Place::Down(_) => None,
        }
    }
}

/// A machine acts on an input that it waits for. `reached` is how far its transaction is, if it was told what was
/// heard.
#[inline(always)]
fn stepped(place: &mut Place, input: Input, reached: Stage) -> Order
    requires waits { Waits (machine_in place.old) input }
    requires reached { IsReachedIn (Some input) (machine_in place.old) reached }
    ensures answer { MayAnswer (machine_in place.old) input result }
    ensures whole { LeavesWhole (machine_in place.old) input result }
    ensures state { place.new ≡ acted_in place.old input result }
{
    match place {
        Place::Up(machine) => match input {
            Input::Heard(heard) => machine.hear(heard, reached).unwrap(),
            Input::Start
            | Input::Survey
            | Input::Destroyed
            | Input::Lapsed
            | Input::Committed
            | Input::CommitFailed => machine.step(input).unwrap(),
        },
        // Only a machine waits.
        Place::Down(_) => unreachable!(),
    }
}

/// A record that is committed is outstanding no longer, and the record of a Commit is from now on.
fn note(outstanding: &mut Option<Record>, input: Input, order: &Order)
    ensures { outstanding.new ≡ outstanding_after (outstanding_told outstanding.old input) order.now }
{
    if let Input::Committed = input {
        *outstanding = None;
    }
    if let Order::Commit(added) = order {
        *outstanding = Some(*added);
    }
}

/// Keeps the last finding.
fn note_finding(finding: &mut Option<Finding>, found: Option<Finding>)
    ensures { finding.new ≡ later finding.old found }
{
    if let Some(found) = found {
        *finding = Some(found);
    }
}
