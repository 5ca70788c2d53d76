ghost use Rattle.std.specs.Prelude.{◌≡◌, ◌↔◌, true, Some, IsOk, IfOk, OnErr, IsSome, IfSome};
ghost use Rattle.dali_script.specs.Records.{Fits, MayAdd};
ghost use Rattle.dali_controller.specs.Steps.{with_some};
ghost use Rattle.dali_script.specs.Table.{table_of};
ghost use Rattle.dali_script.specs.Due.{due_after, accepts, record_ordered};
ghost use Rattle.dali_controller.specs.Machine.{at_first, machine_told};
ghost use Rattle.dali_script.specs.Stages.{IsReached};
ghost use Rattle.dali_script.specs.declared.orders.Input.TheVariants as input;
ghost use Rattle.dali_controller.specs.Next.{BeginsWith};
ghost use Rattle.dali_controller.specs.States.{machine_with};
ghost use Rattle.dali_controller.specs.Whole.{IsWhole};
ghost use Rattle.dali_controller.specs.Orders.{IsAnswered, IsFollowedAt, IsGiven, machine_after};

use crate::error::StepError;
use crate::shorts::Shorts;
use crate::state::State;
use crate::tally::Tally;
use dali_frame::Answer;
use dali_script::{Due, Finding, Input, Kept, Order, Record, Stage, Table, Trace};
use std::marker::Model;

/// The machine of one application controller, which gives the short addresses of its block to the gear on a bus.
///
/// It is told what happened and orders what is to be done next, one order at a time: a frame to be sent, or a record to
/// be kept. It finds the gear without short address one by one, by their random addresses; it reserves an address for a
/// gear and has that kept before it programs it, asks for the address back, and enrols what was heard. What a machine
/// did before it was lost, a new one learns from the records that were kept: it first visits each reservation whose
/// gear is not enrolled.
///
/// It begins in one of two ways. Told `Start`, it lets gear without short address draw new random addresses at once.
/// Told `Survey`, it first asks each short address that its table does not name, or that it has reserved, who is there;
/// enrols who tells its random address; searches gear without short address under the random addresses that they have;
/// and gives no address at which gear was heard. It ends with all-found only if two roll calls in a row were
/// silent, which each gear without short address answers. Survey is right wherever gear may have addresses already:
/// after a restart, beside other controllers, and with gear from elsewhere. It sees no gear without power.
///
/// How to drive it: make one with `new`, give `step` the input `Start` or `Survey`, do what it orders, give it what
/// came of that, and so on until the order is `Done` or `Halt`. `step` alone changes it; `due`, `table`, `kept`,
/// `heard`, `finding`, `tries`, `last`, `id` and `would_order` read it, and `into_kept` gives its records back. No end
/// is promised: a bus that loses every frame is given up after eight tries, but a bus on which gear come and go may
/// keep it busy for good, so the caller bounds its loop.
///
/// | last order | what to do | inputs that are taken then |
/// |---|---|---|
/// | none | begin | `Start`, `Survey` |
/// | `Put(3, frame)` | ask for the bus, and begin a transaction with the frame | `Heard`, `Destroyed`, `Lapsed` |
/// | `Put(1, frame)` | send the frame next in the running transaction | `Heard`, `Destroyed`, `Lapsed` |
/// | `Commit(record)` | keep the record safe from a loss of power, and only then say so | `Committed`, `CommitFailed` |
/// | `Done(end)`, `Halt(fault)` | nothing: a new machine starts from the kept records | none |
///
/// What answers what: a frame that was heard is followed by the next of its script, a later script's first, a `Commit`
/// or the end; a frame that was destroyed or lapsed by the same script's first frame, eight times in a row by
/// `Done(GaveUp)`; `Committed` by the next visit, the opening or a new search; `CommitFailed` by `Halt(Store)`.
///
/// What the bus owes: no other controller's frame between two frames of one transaction; `Heard` of what was heard in
/// the time of a backward frame, in which an answer may be lost or damaged but is never another byte, and no byte is
/// heard if no gear answered; `Destroyed` for each frame that was destroyed, whether gear took it or not; `Lapsed`
/// if the bus is lost before the frame was sent.
///
/// Contracts see the records, the running transaction, the last finding, the last order, the counts by which it gives
/// up, and its course: what the transaction is for, and where its search and its visits are.
#[derive(Drop)]
pub struct Machine {
    kept: Kept,
    state: State,
}

impl Model for Machine {
    ghost use Rattle.dali_controller.specs.Machine.{Machine};
    ghost use Rattle.dali_controller.specs.States.{machine_with};
    ghost use Rattle.dali_controller.specs.Whole.{IsWhole};

    ghost Value = { Machine };

    ghost view = { λ m. machine_with m.state m.kept };

    ghost invariant = { λ m. IsWhole (machine_with m.state m.kept) };
}

impl Machine {
    /// A machine that has not started.
    ///
    /// `id` is the controller's number. `kept` are the records that it kept, or those that it may have kept: after a
    /// `Commit` whose end was not seen, what the store holds decides.
    pub fn new(id: u8, kept: &Kept) -> Machine
        ensures { result ≡ at_first id kept.now }
    {
        Machine {
            kept: kept.copy(),
            state: State::new(id),
        }
    }

    /// The machine with these records, in this state. None if that is the state of no machine between two inputs.
    pub fn of(kept: Kept, state: State) -> Option<Machine>
        ensures whole { IsSome result ↔ IsWhole (machine_with state kept) }
        ensures machine { IfSome result (λ m. m ≡ machine_with state kept) }
    {
        if state.is_whole(&kept.view()) {
            Some(Machine { kept, state })
        } else {
            None
        }
    }

    /// Its records and its state. The machine is gone.
    pub fn into_parts(self) -> (Kept, State)
        ensures parts { machine_with result.1 result.0 ≡ self }
        ensures whole { IsWhole self }
    {
        (self.kept, self.state)
    }

    /// Takes an input, and orders what is to be done next.
    ///
    /// `NotDue`: the machine waits for something else, and nothing changed; `due` says for what. After `Done` and
    /// `Halt` it waits for nothing. The block stays, and a record that is ordered fits it. Which transaction begins
    /// next is a function of what the machine was told (`course`), and its first frame is the one that is put. A later
    /// frame is the one that the running transaction sends next; if it sends no more, none is put (`whole`).
    pub fn step(&mut self, input: Input) -> Result<Order, StepError>
        ensures due { IsOk result ↔ (accepts (due_after self.old.last) input ≡ true) }
        ensures not_due { OnErr result (self.new ≡ self.old) }
        ensures order { IfOk result (λ order. IsAnswered self.old input order) }
        ensures state { IfOk result (λ order. self.new ≡ machine_after self.old input order) }
        ensures begins { IfOk result (BeginsWith self.new.course) }
        ensures followed { IfOk result (λ order. IsFollowedAt self.old input order) }
        ensures whole { IsWhole self.new }
        ensures block { self.new.kept.block ≡ self.old.kept.block }
        ensures fits { IfOk result (λ order. IfSome (record_ordered (Some order)) (Fits self.old.kept.block)) }
    {
        let added = self.state.kept_by(input);
        keep(&mut self.kept, added);
        self.state.step(&self.kept.view(), input)
    }

    /// Takes what was heard after the frame that it put, as `step` does by `Heard`. `reached` is how far the
    /// transaction is with this frame: a caller that knows it spares the machine to find it again.
    ///
    /// `NotDue`: it put no frame last, and nothing changed.
    #[inline(always)]
    pub fn hear(&mut self, heard: Answer, reached: Stage) -> Result<Order, StepError>
        requires { IsReached reached (machine_told self.old (input.Heard heard)).trace }
        ensures due { IsOk result ↔ (accepts (due_after self.old.last) (input.Heard heard) ≡ true) }
        ensures not_due { OnErr result (self.new ≡ self.old) }
        ensures given { IfOk result (IsGiven self.old (input.Heard heard)) }
        ensures state { IfOk result (λ order. self.new ≡ machine_after self.old (input.Heard heard) order) }
        ensures whole { IsWhole self.new }
    {
        self.state.step_heard(&self.kept.view(), heard, reached)
    }

    /// What it would order at an input. Nothing changes.
    pub fn would_order(&self, input: Input) -> Result<Order, StepError>
        ensures due { IsOk result ↔ (accepts (due_after self.now.last) input ≡ true) }
        ensures given { IfOk result (IsGiven self.now input) }
        ensures whole { IfOk result (λ order. IsWhole (machine_after self.now input order)) }
    {
        let mut copy = self.copy();
        copy.step(input)
    }

    /// The same machine once more.
    fn copy(&self) -> Machine
        ensures { result ≡ self.now }
    {
        Machine {
            kept: self.kept.copy(),
            state: self.state.copy(),
        }
    }

    /// What the machine waits for.
    pub fn due(&self) -> Due
        ensures { result ≡ due_after self.now.last }
    {
        self.state.due()
    }

    /// What the machine ordered last.
    pub fn last(&self) -> Option<Order>
        ensures { result ≡ self.now.last }
    {
        self.state.last
    }

    /// The frames of the running transaction, each with what was heard.
    pub fn trace(&self) -> &Trace
        ensures { result.now ≡ self.now.trace }
    {
        &self.state.trace
    }

    /// The gear that it found last. After `Halt(Conflict)` it is the one that contradicts the table.
    pub fn finding(&self) -> Option<Finding>
        ensures { result ≡ self.now.finding }
    {
        self.state.finding
    }

    /// How often in a row its transaction was lost: 8 after a `Done(GaveUp)` that is due to that.
    pub fn tries(&self) -> u8
        ensures { result ≡ self.now.tries }
    {
        self.state.tries
    }

    /// The short addresses at which its survey heard gear whose random address it does not know. It gives none
    /// of them.
    pub fn heard(&self) -> Shorts
        ensures { result ≡ self.now.heard }
    {
        self.state.heard
    }

    /// What a survey has counted, and who was passed over.
    pub fn tally(&self) -> &Tally
        ensures { result.now ≡ self.now.course.tally }
    {
        &self.state.tally
    }

    /// The records that are kept.
    pub fn kept(&self) -> &Kept
        ensures { result.now ≡ self.now.kept }
    {
        &self.kept
    }

    /// The records that are kept. The machine is gone.
    pub fn into_kept(self) -> Kept
        ensures { result ≡ self.kept }
    {
        self.kept
    }

    /// The gear that are enrolled, with the block.
    pub fn table(&self) -> &Table
        ensures { result.now ≡ table_of self.now.kept }
    {
        self.kept.table()
    }

    /// The controller's number.
    pub fn id(&self) -> u8
        ensures { result ≡ self.now.id }
    {
        self.state.id
    }
}

/// Adds a record to those that are kept, if there is one.
fn keep(kept: &mut Kept, added: Option<Record>)
    requires { IfSome added (λ x. Fits kept.old.block x × MayAdd kept.old x) }
    ensures { kept.new ≡ with_some kept.old added }
{
    if let Some(added) = added {
        // It may be added, so it is not refused.
        let _ = kept.add(added);
    }
}
